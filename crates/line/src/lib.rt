// A line: bytes that wait to be taken and bytes that were sent.
#![tactic(auto)]

ghost use Rattle.std.specs.Prelude.{◌≡◌, ℕ, List, length};
ghost use Rattle.line.specs.Ends.{at, Added, Removed, Kept};

mod refusal;
mod ring;
mod tape;
mod text;

pub use refusal::LineRefusal;
pub use ring::Ring;
pub use tape::Tape;
pub use text::{Window, peek, send_text};

// Bytes waiting, bytes sent, hold (how many bytes may yet be fed) and room (how many may yet be sent).
pub trait Line {
    ghost waiting: { Self → List ℕ };

    ghost sent: { Self → List ℕ };

    ghost hold: { Self → ℕ };

    ghost room: { Self → ℕ };

    fn waiting_len(&self) -> usize
        ensures { result ≡ length (waiting self.now) };

    fn sent_len(&self) -> usize
        ensures { result ≡ length (sent self.now) };

    fn hold_left(&self) -> usize
        ensures { result ≡ hold self.now };

    fn room_left(&self) -> usize
        ensures { result ≡ room self.now };

    fn waiting_at(&self, i: usize) -> Option<u8>
        ensures { result ≡ at (waiting self.now) i };

    fn sent_at(&self, i: usize) -> Option<u8>
        ensures { result ≡ at (sent self.now) i };

    fn feed(&mut self, b: u8) -> Result<(), LineRefusal>
        ensures waits { Added 50 result b (waiting self.old) (hold self.old) (waiting self.new) (hold self.new) }
        ensures kept { Kept (sent self.old) (room self.old) (sent self.new) (room self.new) };

    fn take(&mut self, n: usize) -> Result<(), LineRefusal>
        ensures waits { Removed result n (waiting self.old) (hold self.old) (waiting self.new) (hold self.new) }
        ensures kept { Kept (sent self.old) (room self.old) (sent self.new) (room self.new) };

    fn send(&mut self, b: u8) -> Result<(), LineRefusal>
        ensures goes { Added 51 result b (sent self.old) (room self.old) (sent self.new) (room self.new) }
        ensures kept { Kept (waiting self.old) (hold self.old) (waiting self.new) (hold self.new) };
}
