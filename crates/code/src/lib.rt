// Stack code: 64-bit words, what they say, and how they are written.
#![tactic(auto)]

mod entry;
mod instruction;
mod name;
mod read;
mod write;

pub use entry::{decode_entry, encode_entry};
pub use instruction::{Entry, Instruction, Jump};
pub use read::{aux_of, decode, node_of, operand_of};
pub use write::encode;
