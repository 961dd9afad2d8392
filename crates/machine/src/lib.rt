// The machine that runs stack code: activations, one step, planned and performed.
#![tactic(auto)]

mod activation;
mod execute;
mod message;
mod operate;
mod perform;
mod plan;
mod state;

pub use plan::{Cause, Outcome, Site};
pub use state::Machine;
