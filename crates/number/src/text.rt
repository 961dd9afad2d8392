// Reading a number from the bytes that wait.
ghost use Rattle.std.specs.Prelude.{◌≡◌, ◌<◌, ◌≤◌, length, take, IfSome};
ghost use Rattle.number.specs.Reading.{feed_among, numeral, taken, reading, Settled};

use crate::kind::NumberKind;

// What a reading of a number came to: three answers, and so neither an Option nor a Result.
#[derive(Clone, Copy, PartialEq, Eq, Debug)]
pub enum Reading {
    // More bytes are needed before the text can be judged.
    Wait,
    // The text writes no number of the kind; nothing is taken.
    Refused,
    // The number, and how many bytes are taken, the line feed counted.
    Took { value: i16, count: usize },
}

const LINE_FEED: u8 = 10;

const WINDOW: usize = 8;

// What becomes of a reading where these bytes wait; only the first eight matter.
pub fn read<K: NumberKind>(bytes: &[u8]) -> Reading
    ensures value { result ≡ reading K.NumberKind.kind bytes.now }
    ensures eight { result ≡ reading K.NumberKind.kind (take 8 bytes.now) }
    ensures settled { Settled K.NumberKind.kind bytes.now result }
{
    match line_feed(bytes) {
        Some(i) => judge::<K>(numeral_of(&bytes[..i]), i + 1),
        None => {
            if bytes.len() < WINDOW {
                Reading::Wait
            } else {
                Reading::Refused
            }
        }
    }
}

// The place of the first line feed among the first eight bytes.
fn line_feed(bytes: &[u8]) -> Option<usize>
    ensures place { result ≡ feed_among 8 bytes.now }
    ensures inside { IfSome result (λ i. (i < 8) × (i < length bytes.now)) }
{
    bytes.iter().take(WINDOW).position(|b| *b == LINE_FEED)
}

// The number that a text of digits writes. Seven digits are below ten million.
fn numeral_of(text: &[u8]) -> Option<u32>
    requires { length text.now ≤ 7 }
    ensures { result ≡ numeral text.now }
{
    if text.is_empty() {
        return None;
    }
    let mut value = 0;
    for b in text {
        if !b.is_ascii_digit() {
            return None;
        }
        value = value * 10 + u32::from(*b - b'0');
    }
    Some(value)
}

// A number is taken, with count bytes, if the kind has it.
fn judge<K: NumberKind>(number: Option<u32>, count: usize) -> Reading
    ensures { result ≡ taken K.NumberKind.kind count number }
{
    match number {
        Some(n) if n <= K::HIGH as u32 => Reading::Took {
            value: n as i16,
            count,
        },
        _ => Reading::Refused,
    }
}
