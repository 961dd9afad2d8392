// The translator: the stack code of a program that passed the check.
#![tactic(auto)]

mod act;
mod arrive;
mod bodies;
mod fault;
mod jump;
mod refer;
mod size;
mod targets;
mod value;
mod whole;
mod write;

pub use fault::TranslateFault;
pub use targets::Target;
pub use whole::translate;
