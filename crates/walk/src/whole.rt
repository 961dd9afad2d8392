// The walk over a whole table.
ghost use Rattle.std.specs.Prelude.{◌≡◌};
ghost use Rattle.walk.specs.Bodies.{checked};
ghost use Rattle.walk.specs.Faults.{told};

use crate::bodies::bodies;
use crate::fault::CheckFault;
use crate::found::Passed;
use table::{Table, read_layout};

impl CheckFault {
    // The refusal's number and the place that it tells: a method, since a pair made by From would not say what it is.
    pub fn told(&self) -> (u8, usize)
        ensures { result ≡ told self.now }
    {
        match self {
            CheckFault::Table(fault) => fault.told(),
            CheckFault::Field(at) => (10, *at),
            CheckFault::Sort(at) => (11, *at),
            CheckFault::NoNode(at) => (12, *at),
            CheckFault::Nesting(at) => (13, *at),
            CheckFault::Variable(at) => (14, *at),
            CheckFault::Child(at) => (15, *at),
            CheckFault::Function(at) => (16, *at),
            CheckFault::Loop(at) => (17, *at),
            CheckFault::Exit(at) => (18, *at),
            CheckFault::Height(at) => (19, *at),
        }
    }
}

// Whether a table passes, and else the first rule broken.
#[tactic(auto, unfolding(crate::specs::Bodies::checked))]
pub fn walk_table(bytes: &[u8]) -> Result<Passed, CheckFault>
    ensures { result ≡ checked bytes.now }
{
    let header = read_layout(bytes)?;
    let functions = header.functions;
    let nodes = header.nodes;
    let t = Table {
        bytes,
        functions,
        nodes,
    };
    let (words, next) = bodies(&t)?;
    if next < nodes {
        return Err(CheckFault::NoNode(next));
    }
    Ok(Passed {
        functions,
        nodes,
        words,
    })
}
