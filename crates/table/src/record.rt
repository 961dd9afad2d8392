// The records of a table, their fields taken apart.
use crate::shape::Kind;

// The header's two counts. Its version is always 1.
#[derive(Clone, Copy)]
pub struct Header {
    pub functions: usize,
    pub nodes: usize,
}

// A function's record. The kinds are 32 bits, that of slot 0 the most significant: 0 for int, 1 for byte.
#[derive(Clone, Copy, Default)]
pub struct Function {
    pub result: Option<Kind>,
    pub parameters: u8,
    pub variables: u8,
    pub kinds: u32,
}

// A node's record.
#[derive(Clone, Copy)]
pub struct Node {
    pub kind: u8,
    pub aux: u8,
    pub operand: u16,
}

// What is wrong with a table before any node is looked at.
#[derive(Clone, Copy)]
pub enum TableFault {
    Length(usize),
    Version,
    Counts,
    Record(usize),
}
