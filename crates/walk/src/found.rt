// What a walk goes over, and what it finds of a subtree.
use table::{Function, Kind, Table};

// Of a condition, a statement, a block or the arguments of a call: its height, and its words of stack code.
#[derive(Clone, Copy, Default)]
pub struct Size {
    pub height: u16,
    pub words: u16,
}

// Of an expression: its kind too.
#[derive(Clone, Copy)]
pub struct Found {
    pub kind: Kind,
    pub size: Size,
}

// The function whose body is walked, and main where that is another.
#[derive(Clone, Copy)]
pub struct Context {
    pub own: Function,
    pub main: Option<Function>,
}

// A function whose body is read: the table where it stands, and the records that its nodes may refer to. A node's place
// and the levels left are no part of it and not one value: the next place goes on with the same levels.
#[derive(Clone, Copy)]
pub struct Body<'a> {
    pub table: &'a Table<'a>,
    pub context: Context,
}

// What is known of a table that passes: its counts, and how many words its translation has.
#[derive(Clone, Copy)]
pub struct Passed {
    pub functions: usize,
    pub nodes: usize,
    pub words: usize,
}
