// The program that a caller holds.
ghost use Rattle.std.specs.Prelude.{◌≡◌, ◌≤◌, true, take, Ok};
ghost use Rattle.walk.specs.Bodies.{checked};
ghost use Rattle.checker.specs.Passing.{passes_as};

use walk::Passed;

// A table that passes, the first `size` bytes of the room, with what the check told of it. No program is held
// that does not pass: the type says so.
// An array with its length beside it: a vector of that capacity is no plainer, since taking a table into it answers an
// error that cannot come for one that passes, and blanks all 24,771 bytes before.
#[derive(Drop)]
pub struct Program {
    pub(crate) room: [u8; 24771],
    pub(crate) size: usize,
    pub(crate) passed: Passed,
    ghost fits: { size ≤ 24771 },
    ghost passes: { passes_as (checked (take size room)) passed ≡ true },
}

impl Program {
    // What the check told of the table that is held: it passes.
    pub fn passed(&self) -> Passed
        ensures { checked (take self.now.size self.now.room) ≡ Ok result }
    {
        self.passed
    }
}
