// The translation of a program.
ghost use Rattle.std.specs.Prelude.{◌≡◌, ◌<◌, ◌≤◌, MatchResult};
ghost use Rattle.checker.specs.Held.{held};
ghost use Rattle.translate.specs.Faults.{told};
ghost use Rattle.translate.specs.Translated.{Translated};

use crate::bodies;
use crate::fault::TranslateFault;
use checker::Program;
use table::Table;

impl TranslateFault {
    // The refusal's number and the place that it tells: a method, since a pair made by From would not say what it is.
    pub fn told(&self) -> (u8, usize)
        ensures { result ≡ told self.now }
    {
        match self {
            TranslateFault::TooShort(words) => (30, *words),
        }
    }
}

// Whether a memory of that length has room for so many words.
fn enough(memory: usize, words: usize) -> Result<(), TranslateFault>
    ensures { MatchResult result (λ _. words ≤ memory) (λ e. (memory < words) × (told e ≡ (30, words))) }
{
    if memory < words {
        return Err(TranslateFault::TooShort(words));
    }
    Ok(())
}

// Writes the code of the program that is held, and answers how many words it has. If the memory is too short,
// nothing is written. Words past the code stay as they were.
pub fn translate(program: &Program, code: &mut [u64]) -> Result<usize, TranslateFault>
    ensures { Translated (held program.now) code.old code.new result }
{
    let counts = program.counts();
    enough(code.len(), counts.words)?;
    let table = Table {
        bytes: program.table(),
        functions: counts.functions,
        nodes: counts.nodes,
    };
    bodies::program(&table, &mut code[..counts.words]);
    Ok(counts.words)
}
