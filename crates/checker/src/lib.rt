// The check: whether a tree table keeps the layout, the limits and the rules of Dana, and else the first rule broken.
#![tactic(auto)]

mod check;
mod hold;
mod only;
mod program;

pub use check::check_table;
pub use program::Program;
