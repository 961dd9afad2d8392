// Looking at the first bytes that wait and sending a text, over any line.
ghost use Rattle.std.specs.Prelude.{◌≡◌, ◌≤◌, take};
ghost use Rattle.line.specs.Ends.{Whole, Kept};

use crate::Line;

const WINDOW: usize = 8;

// Up to eight bytes: the first len ones. Bytes with a length, since a window is Copy and there is no heap.
#[derive(Clone, Copy)]
pub struct Window {
    bytes: [u8; WINDOW],
    len: usize,
    ghost ok: { len ≤ 8 },
}

impl Window {
    pub fn as_bytes(&self) -> &[u8]
        ensures { result.now ≡ take self.now.len self.now.bytes }
    {
        &self.bytes[..self.len]
    }
}

// The first eight bytes that wait, or all where there are fewer.
pub fn peek<L: Line>(line: &L) -> Window
    ensures { take result.len result.bytes ≡ take 8 (L.Line.waiting line.now) }
{
    let mut bytes = [0; WINDOW];
    for (i, byte) in bytes.iter_mut().enumerate() {
        let Some(b) = line.waiting_at(i) else {
            return Window { bytes, len: i };
        };
        *byte = b;
    }
    Window { bytes, len: WINDOW }
}

// Sends the text whole, or nothing where it is longer than the room; answers which. That is a yes or no and no Result:
// a text longer than the room is none of the line's refusals, and an error of its own would say no more.
pub fn send_text<L: Line>(line: &mut L, text: &[u8]) -> bool
    ensures goes { Whole result text.now (L.Line.sent line.old) (L.Line.room line.old) (L.Line.sent line.new) (L.Line.room line.new) }
    ensures kept { Kept (L.Line.waiting line.old) (L.Line.hold line.old) (L.Line.waiting line.new) (L.Line.hold line.new) }
{
    if text.len() > line.room_left() {
        return false;
    }
    for b in text {
        let _ = line.send(*b);
    }
    true
}
