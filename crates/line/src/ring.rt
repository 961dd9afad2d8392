// A line that keeps its bytes itself: 256 that wait and 1,024 that were sent.
ghost use Rattle.std.specs.Prelude.{◌≡◌, ◌+◌, ◌-◌, ◌%◌, ◌<◌, ◌≤◌, [], take, MatchResult};
ghost use Rattle.line.specs.Ends.{Removed, Kept};
ghost use Rattle.line.specs.Places.{around};

use crate::Line;
use crate::refusal::LineRefusal;

const INBOX: usize = 256;

const OUTBOX: usize = 1024;

// The bytes that wait go round in the inbox; a place that was taken is used again.
// Buffers with their counts beside them, since C hosts read this layout.
#[derive(Drop)]
pub struct Ring {
    inbox: [u8; INBOX],
    first: usize,
    count: usize,
    outbox: [u8; OUTBOX],
    written: usize,
    ghost ok: { (first < 256) × (count ≤ 256) × (written ≤ 1024) },
}

impl Ring {
    // An empty line that can be fed 256 bytes and sent 1,024.
    pub fn new() -> Ring
        ensures waiting { ⟦<Self as Line>⟧.waiting result ≡ [] }
        ensures sent { ⟦<Self as Line>⟧.sent result ≡ [] }
        ensures hold { ⟦<Self as Line>⟧.hold result ≡ 256 }
        ensures room { ⟦<Self as Line>⟧.room result ≡ 1024 }
    {
        Ring {
            inbox: [0; INBOX],
            first: 0,
            count: 0,
            outbox: [0; OUTBOX],
            written: 0,
        }
    }
}

// The place in the inbox, by a mask and not by a division, as docs/LINE.md says.
fn wrap(i: usize) -> usize
    ensures { result ≡ i % 256 }
{
    i & (INBOX - 1)
}

// What is sent goes as on a tape, with the ring's own fields: a function for both would take them all and be no plainer.
impl Line for Ring {
    ghost waiting = { λ t. around t.inbox t.first t.count };

    ghost sent = { λ t. take t.written t.outbox };

    ghost hold = { λ t. 256 - t.count };

    ghost room = { λ t. 1024 - t.written };

    fn waiting_len(&self) -> usize {
        self.count
    }

    fn sent_len(&self) -> usize {
        self.written
    }

    fn hold_left(&self) -> usize {
        INBOX - self.count
    }

    fn room_left(&self) -> usize {
        OUTBOX - self.written
    }

    fn waiting_at(&self, i: usize) -> Option<u8> {
        (i < self.count).then(|| self.inbox[wrap(self.first + i)])
    }

    fn sent_at(&self, i: usize) -> Option<u8> {
        self.outbox[..self.written].get(i).copied()
    }

    fn feed(&mut self, b: u8) -> Result<(), LineRefusal> {
        if self.count >= INBOX {
            return Err(LineRefusal::NoHold);
        }
        let at = wrap(self.first + self.count);
        self.inbox[at] = b;
        self.count += 1;
        Ok(())
    }

    fn take(&mut self, n: usize) -> Result<(), LineRefusal>
        ensures waits { let line = ⟦<Self as Line>⟧ in Removed result n (line.waiting self.old) (line.hold self.old) (line.waiting self.new) (line.hold self.new) }
        ensures kept { let line = ⟦<Self as Line>⟧ in Kept (line.sent self.old) (line.room self.old) (line.sent self.new) (line.room self.new) }
        ensures hold { let line = ⟦<Self as Line>⟧ in MatchResult result (λ _. line.hold self.new ≡ line.hold self.old + n) (λ _. line.hold self.new ≡ line.hold self.old) }
    {
        if n > self.count {
            return Err(LineRefusal::TooFew);
        }
        self.first = wrap(self.first + n);
        self.count -= n;
        Ok(())
    }

    fn send(&mut self, b: u8) -> Result<(), LineRefusal> {
        if self.written >= OUTBOX {
            return Err(LineRefusal::NoRoom);
        }
        let at = self.written;
        self.outbox[at] = b;
        self.written = at + 1;
        Ok(())
    }
}
