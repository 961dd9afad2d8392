// Holding a program, and replacing it by a table that passes.
ghost use Rattle.std.specs.Prelude.{◌≡◌, MatchResult};
ghost use Rattle.walk.specs.Bodies.{checked};
ghost use Rattle.checker.specs.Held.{held, smallest};

use crate::check::check_table;
use crate::program::Program;
use walk::{CheckFault, Passed};

impl Program {
    // The smallest program: one function, a block with one skip.
    pub fn new() -> Program
        ensures { held result ≡ smallest }
    {
        let mut room = [0; 24771];
        room[0] = 0x10;
        room[1] = 0x40;
        room[2] = 0x02;
        room[9] = 0xA4;
        room[11] = 0x01;
        room[12] = 0x80;
        let passed = Passed {
            functions: 1,
            nodes: 2,
            words: 2,
        };
        Program {
            room,
            size: 15,
            passed,
        }
    }

    // The table that is held.
    pub fn table(&self) -> &[u8]
        ensures { result.now ≡ held self.now }
    {
        &self.room[0..self.size]
    }

    // Holds another table, if it passes; else the program stays exactly as it was.
    pub fn replace(&mut self, table: &[u8]) -> Result<Passed, CheckFault>
        ensures outcome { result ≡ checked table.now }
        ensures held { MatchResult result (λ _. held self.new ≡ table.now) (λ _. self.new ≡ self.old) }
    {
        let passed = check_table(table)?;
        self.room[0..table.len()].copy_from_slice(table);
        self.size = table.len();
        self.passed = passed;
        Ok(passed)
    }
}
