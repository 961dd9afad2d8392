// A line over two buffers of the caller.
ghost use Rattle.std.specs.Prelude.{◌≡◌, ◌-◌, ◌≤◌, [], length, take};
ghost use Rattle.line.specs.Ends.{Removed, Kept};
ghost use Rattle.line.specs.Places.{span};

use crate::Line;
use crate::refusal::LineRefusal;

// Bytes are fed into input and sent into output, each place used once.
// Buffers with counts beside them, since the buffers are the caller's and there is no heap.
#[derive(Drop)]
pub struct Tape<'a> {
    input: &'a mut [u8],
    fed: usize,
    taken: usize,
    output: &'a mut [u8],
    written: usize,
    ghost ok: { (taken ≤ fed) × (fed ≤ length input.now) × (written ≤ length output.now) },
}

impl<'a> Tape<'a> {
    // An empty line that can be fed as many bytes as input has, and sent as many as output has.
    pub fn new(input: &'a mut [u8], output: &'a mut [u8]) -> Tape<'a>
        ensures waiting { ⟦<Self as Line>⟧.waiting result ≡ [] }
        ensures sent { ⟦<Self as Line>⟧.sent result ≡ [] }
        ensures hold { ⟦<Self as Line>⟧.hold result ≡ length input.old }
        ensures room { ⟦<Self as Line>⟧.room result ≡ length output.old }
    {
        Tape {
            input,
            fed: 0,
            taken: 0,
            output,
            written: 0,
        }
    }
}

impl Line for Tape<'_> {
    ghost waiting = { λ t. span t.taken t.fed t.input.now };

    ghost sent = { λ t. take t.written t.output.now };

    ghost hold = { λ t. length t.input.now - t.fed };

    ghost room = { λ t. length t.output.now - t.written };

    fn waiting_len(&self) -> usize {
        self.fed - self.taken
    }

    fn sent_len(&self) -> usize {
        self.written
    }

    fn hold_left(&self) -> usize {
        self.input.len() - self.fed
    }

    fn room_left(&self) -> usize {
        self.output.len() - self.written
    }

    fn waiting_at(&self, i: usize) -> Option<u8> {
        self.input[self.taken..self.fed].get(i).copied()
    }

    fn sent_at(&self, i: usize) -> Option<u8> {
        self.output[..self.written].get(i).copied()
    }

    fn feed(&mut self, b: u8) -> Result<(), LineRefusal> {
        if self.fed >= self.input.len() {
            return Err(LineRefusal::NoHold);
        }
        let at = self.fed;
        self.input[at] = b;
        self.fed = at + 1;
        Ok(())
    }

    fn take(&mut self, n: usize) -> Result<(), LineRefusal>
        ensures waits { let line = ⟦<Self as Line>⟧ in Removed result n (line.waiting self.old) (line.hold self.old) (line.waiting self.new) (line.hold self.new) }
        ensures kept { let line = ⟦<Self as Line>⟧ in Kept (line.sent self.old) (line.room self.old) (line.sent self.new) (line.room self.new) }
        ensures hold { let line = ⟦<Self as Line>⟧ in line.hold self.new ≡ line.hold self.old }
    {
        if n > self.fed - self.taken {
            return Err(LineRefusal::TooFew);
        }
        self.taken += n;
        Ok(())
    }

    fn send(&mut self, b: u8) -> Result<(), LineRefusal> {
        if self.written >= self.output.len() {
            return Err(LineRefusal::NoRoom);
        }
        let at = self.written;
        self.output[at] = b;
        self.written = at + 1;
        Ok(())
    }
}
