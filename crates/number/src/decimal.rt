// Writing a number as decimal text.
ghost use Rattle.std.specs.Prelude.{◌≡◌, ◌≤◌, drop};
ghost use Rattle.number.specs.Decimal.{decimal};
ghost use Rattle.number.specs.Reading.{ReadBack};

use itoa::write_digits;

// The longest text, -32768, has six bytes.
const LONGEST: usize = 6;

// A text of at most six bytes: those from start on, since digits are written from the last one to the first.
// A text that is built from the front, as arrayvec's ArrayString, would have a call that can fail.
#[derive(Clone, Copy)]
pub struct Text {
    bytes: [u8; 6],
    start: usize,
    ghost ok: { start ≤ 6 },
}

impl Text {
    pub fn as_bytes(&self) -> &[u8]
        ensures { result.now ≡ drop self.now.start self.now.bytes }
    {
        &self.bytes[self.start..]
    }
}

// The number in decimal, without leading zeros, a minus sign before a negative one.
pub fn write(n: i16) -> Text
    ensures value { drop result.start result.bytes ≡ decimal n }
    ensures back { ReadBack n (drop result.start result.bytes) }
{
    let mut bytes = [0; LONGEST];
    let mut start = write_digits(u64::from(n.unsigned_abs()), &mut bytes, LONGEST);
    if n < 0 {
        start -= 1;
        bytes[start] = b'-';
    }
    Text { bytes, start }
}
