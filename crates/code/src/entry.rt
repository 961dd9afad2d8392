// Writing and reading entry words.
ghost use Rattle.std.specs.Prelude.{◌≡◌, ◌<◌};
ghost use Rattle.code.specs.Entries.{entry_word, counts_fit, entry_from, entry_of, EntryReadAgain, EntryWrittenAgain};

use crate::instruction::Entry;
use table::{result_number, result_of};

// Whether an entry's numbers are in range and its four spare bits 0. The limits are those of a function's record, whose
// check in `table` takes the kinds too: an entry has none, so one function for both would be no plainer.
fn entry_fits(parameters: u8, variables: u8, spare: u8) -> bool
    ensures { result ≡ counts_fit parameters variables spare }
{
    parameters <= 8 && variables <= 32 && parameters <= variables && spare == 0
}

// The entry word of a function.
pub fn encode_entry(entry: Entry) -> u64
    ensures value { result ≡ entry_word entry }
    ensures again { EntryReadAgain entry result }
{
    (u64::from(result_number(entry.result)) << 30)
        + (u64::from(entry.parameters) << 26)
        + (u64::from(entry.variables) << 20)
        + u64::from(entry.address)
}

// An entry by its fields, or none if they are broken.
fn entry_from(res: u8, parameters: u8, variables: u8, spare: u8, address: u16) -> Option<Entry>
    ensures { result ≡ entry_from res parameters variables spare address }
{
    let result = result_of(res).ok()?;
    entry_fits(parameters, variables, spare).then_some(Entry {
        result,
        parameters,
        variables,
        address,
    })
}

// What an entry word says, or none if the word is none or a field is not listed.
pub fn decode_entry(word: u64) -> Option<Entry>
    ensures value { result ≡ entry_of word }
    ensures again { EntryWrittenAgain word result }
{
    let [first, second, high, low] = u32::try_from(word).ok()?.to_be_bytes();
    entry_from(
        first / 64,
        first / 4 % 16,
        first % 4 * 16 + second / 16,
        second % 16,
        u16::from_be_bytes([high, low]),
    )
}
