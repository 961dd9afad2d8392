// The one program whose table is held.
ghost use Rattle.std.specs.Prelude.{◌≡◌};
ghost use Rattle.layout.specs.Stored.{Bytes};
ghost use Rattle.checker.specs.Exact.{Only};
ghost use Rattle.checker.specs.Held.{held};

use crate::program::Program;
use walk::Passed;

// What a slice of bytes holds is below 256, as its type says.
fn below_256(bytes: &[u8])
    ensures { Bytes bytes.now }
{}

impl Program {
    // The counts of the table that is held, which is the table of one program that keeps the rules and of no other.
    pub fn counts(&self) -> Passed
        ensures { Only (held self.now) result }
    {
        below_256(self.table());
        self.passed()
    }
}
