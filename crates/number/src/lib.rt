// Numbers: two kinds, their arithmetic, comparison and logic, and their decimal texts.
#![tactic(auto)]

mod arithmetic;
mod comparison;
mod decimal;
mod kind;
mod logic;
mod text;

pub use arithmetic::{add, div, fold, mul, neg, rem, sub};
pub use comparison::{eq, ge, gt, le, lt, ne};
pub use decimal::{Text, write};
pub use kind::{Byte, Int, NumberKind};
pub use logic::{and, extend, is_true, not, or, shrink};
pub use text::{Reading, read};
