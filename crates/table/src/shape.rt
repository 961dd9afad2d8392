// What a node can be: the node kinds of Dana, sorted by what may stand where. Kinds, scopes, formats, operators,
// comparisons and junctions have the numbers of the layout.

// The two number kinds.
#[derive(Clone, Copy, PartialEq, Eq, Debug)]
pub enum Kind {
    Int = 0,
    Byte = 1,
}

// Whose variable is meant: the open function's own, or main's.
#[derive(Clone, Copy, PartialEq, Eq, Debug)]
pub enum Scope {
    Own = 0,
    Main = 1,
}

// What a read takes and a write sends: the text of an int, the text of a byte, or one byte as it is.
#[derive(Clone, Copy, PartialEq, Eq, Debug)]
pub enum Format {
    Integer = 0,
    Byte = 1,
    Char = 2,
}

// The operators with one operand: the signs `+` and `-` of an int, `!` of a byte, and the two conversions.
#[derive(Clone, Copy, PartialEq, Eq, Debug)]
pub enum Unary {
    Plus = 3,
    Minus = 4,
    ByteNot = 5,
    Extend = 14,
    Shrink = 15,
}

// The operators with two operands: arithmetic on either kind; `&` and `|` on bytes.
#[derive(Clone, Copy, PartialEq, Eq, Debug)]
pub enum Binary {
    Add = 6,
    Sub = 7,
    Mul = 8,
    Div = 9,
    Rem = 10,
    ByteAnd = 11,
    ByteOr = 12,
}

// The comparisons `=`, `<>`, `<`, `>`, `<=` and `>=`.
#[derive(Clone, Copy, PartialEq, Eq, Debug)]
pub enum Comparison {
    Equal = 20,
    Unequal = 21,
    Less = 22,
    Greater = 23,
    AtMost = 24,
    AtLeast = 25,
}

// The ways to join two conditions.
#[derive(Clone, Copy, PartialEq, Eq, Debug)]
pub enum Junction {
    And = 27,
    Or = 28,
}

// A node that gives a value. The number of a variable is its slot, that of a call its function.
#[derive(Clone, Copy)]
pub enum Expression {
    Constant(Kind, u16),
    Variable(Scope, u16),
    Unary(Unary),
    Binary(Binary),
    Call(u16),
    Read(Format),
}

// A node that holds or fails. `Holds` is a byte as condition.
#[derive(Clone, Copy)]
pub enum Condition {
    Compare(Comparison),
    Not,
    Join(Junction),
    Holds,
}

// A node that does something. The number of an assignment is its slot, that of a `Perform`, a call without
// result, its function, and that of a loop, a break or a continue a loop's name, with 0 for no name. A name is the
// table's number, 0 too, and no Option: it is compared and written as it is, and taken apart it would be no plainer.
#[derive(Clone, Copy)]
pub enum Statement {
    Skip,
    Assign(Scope, u16),
    Perform(u16),
    If,
    IfElse,
    Loop(u16),
    Break(u16),
    Continue(u16),
    Exit,
    Return,
    Write(Format),
}

// A node, by what may stand where. The number of a block is how many statements it has.
#[derive(Clone, Copy)]
pub enum Shape {
    Expression(Expression),
    Condition(Condition),
    Statement(Statement),
    Block(u16),
}
