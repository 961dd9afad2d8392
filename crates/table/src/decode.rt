// What a node record is.
ghost use Rattle.std.specs.Prelude.{◌≡◌};
ghost use Rattle.table.specs.Shapes.{constant_of, operator_of, expression_of, joined_of, test_of, condition_of, if_of, bare_of, act_of, statement_of, block_of, shape_of, Decodes};

use crate::record::Node;
use crate::shape::{
    Binary, Comparison, Condition, Expression, Format, Junction, Kind, Scope, Shape, Statement,
    Unary,
};

fn constant_of(aux: u8, operand: u16) -> Option<Expression>
    ensures { result ≡ constant_of aux operand }
{
    let kind = Kind::try_from(aux).ok()?;
    (operand < kind.constants()).then_some(Expression::Constant(kind, operand))
}

fn operator_of(kind: u8) -> Option<Expression>
    ensures { result ≡ operator_of kind }
{
    match Unary::try_from(kind) {
        Ok(operator) => Some(Expression::Unary(operator)),
        Err(_) => Some(Expression::Binary(Binary::try_from(kind).ok()?)),
    }
}

fn expression_of(kind: u8, aux: u8, operand: u16) -> Option<Expression>
    ensures { result ≡ expression_of kind aux operand }
{
    match kind {
        1 => constant_of(aux, operand),
        2 => Some(Expression::Variable(Scope::try_from(aux).ok()?, operand)),
        13 if aux == 0 => Some(Expression::Call(operand)),
        16 if operand == 0 => Some(Expression::Read(Format::try_from(aux).ok()?)),
        13 | 16 => None,
        _ if aux == 0 && operand == 0 => operator_of(kind),
        _ => None,
    }
}

// A comparison or a junction.
fn joined_of(kind: u8) -> Option<Condition>
    ensures { result ≡ joined_of kind }
{
    match Comparison::try_from(kind) {
        Ok(comparison) => Some(Condition::Compare(comparison)),
        Err(_) => Some(Condition::Join(Junction::try_from(kind).ok()?)),
    }
}

fn test_of(kind: u8) -> Option<Condition>
    ensures { result ≡ test_of kind }
{
    match kind {
        26 => Some(Condition::Not),
        29 => Some(Condition::Holds),
        _ => joined_of(kind),
    }
}

fn condition_of(kind: u8, aux: u8, operand: u16) -> Option<Condition>
    ensures { result ≡ condition_of kind aux operand }
{
    if aux == 0 && operand == 0 {
        test_of(kind)
    } else {
        None
    }
}

fn if_of(aux: u8) -> Option<Statement>
    ensures { result ≡ if_of aux }
{
    match aux {
        0 => Some(Statement::If),
        1 => Some(Statement::IfElse),
        _ => None,
    }
}

fn bare_of(kind: u8) -> Option<Statement>
    ensures { result ≡ bare_of kind }
{
    match kind {
        32 => Some(Statement::Skip),
        39 => Some(Statement::Exit),
        40 => Some(Statement::Return),
        _ => None,
    }
}

fn act_of(kind: u8, operand: u16) -> Option<Statement>
    ensures { result ≡ act_of kind operand }
{
    match kind {
        34 => Some(Statement::Perform(operand)),
        36 => Some(Statement::Loop(operand)),
        37 => Some(Statement::Break(operand)),
        38 => Some(Statement::Continue(operand)),
        _ if operand == 0 => bare_of(kind),
        _ => None,
    }
}

fn statement_of(kind: u8, aux: u8, operand: u16) -> Option<Statement>
    ensures { result ≡ statement_of kind aux operand }
{
    match kind {
        33 => Some(Statement::Assign(Scope::try_from(aux).ok()?, operand)),
        35 if operand == 0 => if_of(aux),
        42 if operand == 0 => Some(Statement::Write(Format::try_from(aux).ok()?)),
        35 | 42 => None,
        _ if aux == 0 => act_of(kind, operand),
        _ => None,
    }
}

fn block_of(aux: u8, operand: u16) -> Option<u16>
    ensures { result ≡ block_of aux operand }
{
    (aux == 0 && operand > 0 && operand <= 8192).then_some(operand)
}

impl Node {
    // What the record is, or none if its kind is not listed, a field is out of range or an unused field is not 0.
    pub fn shape(&self) -> Option<Shape>
        ensures is { result ≡ shape_of self.now }
        ensures exactly { Decodes self.now result }
    {
        match self.kind {
            0..20 => expression_of(self.kind, self.aux, self.operand).map(Shape::Expression),
            20..30 => condition_of(self.kind, self.aux, self.operand).map(Shape::Condition),
            41 => block_of(self.aux, self.operand).map(Shape::Block),
            _ => statement_of(self.kind, self.aux, self.operand).map(Shape::Statement),
        }
    }
}
