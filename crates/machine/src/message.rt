// What a read finds, and what a write sends.
ghost use Rattle.std.specs.Prelude.{◌≡◌};
ghost use Rattle.machine.specs.Values.{finds, first_byte, text_of};
ghost use Rattle.machine.specs.Messages.{bytes_of};

use number::{Byte, Int, Reading, Text, fold, read, write};
use table::Format;

fn first_byte(bytes: &[u8]) -> Reading
    ensures { result ≡ first_byte bytes.now }
{
    match bytes {
        [] => Reading::Wait,
        [b, ..] => Reading::Took {
            value: i16::from(*b),
            count: 1,
        },
    }
}

// What a read finds among the bytes that wait.
pub fn find(format: Format, bytes: &[u8]) -> Reading
    ensures { result ≡ finds format bytes.now }
{
    match format {
        Format::Integer => read::<Int>(bytes),
        Format::Byte => read::<Byte>(bytes),
        Format::Char => first_byte(bytes),
    }
}

// What a write sends: the text of a number, or one byte.
#[derive(Clone, Copy)]
pub enum Message {
    Number(Text),
    Letter([u8; 1]),
}

impl Message {
    pub fn as_bytes(&self) -> &[u8]
        ensures { result.now ≡ bytes_of self.now }
    {
        match self {
            Message::Number(text) => text.as_bytes(),
            Message::Letter(bytes) => &bytes[..],
        }
    }
}

pub fn compose(format: Format, value: i16) -> Message
    ensures { bytes_of result ≡ text_of format value }
{
    match format {
        Format::Integer => Message::Number(write(value)),
        Format::Byte => Message::Number(write(fold::<Byte>(i32::from(value)))),
        Format::Char => Message::Letter([fold::<Byte>(i32::from(value)) as u8]),
    }
}
