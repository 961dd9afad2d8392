// The sort of a node, as a type: a shape is taken for an expression, a condition, a statement, or, as the number of its
// statements, a block. So what arrives at a node asks for a sort by a type.
ghost use Rattle.std.specs.Prelude.{◌≡◌};
ghost use Rattle.table.specs.Sorts.{expression_in, condition_in, statement_in, block_in};

use crate::shape::{Condition, Expression, Shape, Statement};

// A node is of another sort than the one asked for.
#[derive(Clone, Copy, PartialEq, Eq, Debug)]
pub struct WrongSort;

impl TryFrom<Shape> for Expression {
    type Error = WrongSort;

    ghost try_from_gives = { λ shape found. found ≡ expression_in shape };

    fn try_from(shape: Shape) -> Result<Expression, WrongSort> {
        match shape {
            Shape::Expression(expression) => Ok(expression),
            _ => Err(WrongSort),
        }
    }
}

impl TryFrom<Shape> for Condition {
    type Error = WrongSort;

    ghost try_from_gives = { λ shape found. found ≡ condition_in shape };

    fn try_from(shape: Shape) -> Result<Condition, WrongSort> {
        match shape {
            Shape::Condition(condition) => Ok(condition),
            _ => Err(WrongSort),
        }
    }
}

impl TryFrom<Shape> for Statement {
    type Error = WrongSort;

    ghost try_from_gives = { λ shape found. found ≡ statement_in shape };

    fn try_from(shape: Shape) -> Result<Statement, WrongSort> {
        match shape {
            Shape::Statement(statement) => Ok(statement),
            _ => Err(WrongSort),
        }
    }
}

// The number of a block's statements.
impl TryFrom<Shape> for u16 {
    type Error = WrongSort;

    ghost try_from_gives = { λ shape found. found ≡ block_in shape };

    fn try_from(shape: Shape) -> Result<u16, WrongSort> {
        match shape {
            Shape::Block(statements) => Ok(statements),
            _ => Err(WrongSort),
        }
    }
}
