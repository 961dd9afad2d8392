// Stack code does what the meaning of its program says.
// Nothing here is to be run: the function's contract is the law, and its answer is 0.
#![tactic(auto)]

ghost use Rattle.simulation.specs.Runs.{Simulation};

// The machine and the meaning report the same, of every program that keeps the rules, every code that begins with its
// translation and every line: within as many steps as entries, and no more than within some number of entries.
pub fn simulation() -> u8
    ensures { Simulation }
{
    0
}
