// What a word can say.
use table::{Binary, Comparison, Format, Kind, Scope};

// The statements whose words only jump, with their ops.
#[derive(Clone, Copy)]
pub enum Jump {
    // over the else block, behind the first block of an if
    Else = 35,
    Loop = 36,
    Break = 37,
    Continue = 38,
}

// What one word has the machine do. A number is a constant's value, a slot, a function or the address of a jump.
// A jump that depends on a condition is made when the condition comes to the sense given.
#[derive(Clone, Copy)]
pub enum Instruction {
    Constant(Kind, u16),
    Variable(Scope, u32),
    Minus,
    ByteNot,
    Binary(Binary, Kind),
    Call(u32),
    Shrink,
    Read(Format),
    Compare(Comparison, Kind, bool, u32),
    Holds(bool, u32),
    Assign(Scope, u32),
    Perform(u32),
    Jump(Jump, u32),
    Exit,
    Return,
    Close,
    Write(Format),
}

// What an entry word says of its function: the kind of its result, how many parameters and variables it has, the
// parameters counted among the variables, and the address of its first word.
#[derive(Clone, Copy)]
pub struct Entry {
    pub result: Option<Kind>,
    pub parameters: u8,
    pub variables: u8,
    pub address: u16,
}
