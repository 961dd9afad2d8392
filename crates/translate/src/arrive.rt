// Arrival at a node: what it is, and which tree stands there.
ghost use Rattle.std.specs.Prelude.{◌≡◌, OnSome};
ghost use Rattle.table.specs.View.{view};
ghost use Rattle.translate.specs.Source.{shape_at, expr_in, expr_shaped, cond_in, cond_shaped, stmt_in, stmt_shaped, block_in, block_shaped, IsThere, TakenFor};

use table::{Condition, Expression, Shape, Statement, WrongSort};
use walk::Body;

// What node `at` is, with `left` levels left for it and below it; none if there is no such node.
fn shape_at(body: &Body, at: u16, left: u8) -> Option<Shape>
    ensures is { result ≡ shape_at (view body.now.table.now) left at }
    ensures there { OnSome result (IsThere body.now left at) }
{
    if left == 0 {
        return None;
    }
    body.table.node(usize::from(at))?.shape()
}

// The same, taken for one of the sorts; none also if it is of another.
fn node_as<S: TryFrom<Shape, Error = WrongSort>>(body: &Body, at: u16, left: u8) -> Option<S>
    ensures is { TakenFor S.try_from_gives (shape_at (view body.now.table.now) left at) result }
    ensures there { OnSome result (IsThere body.now left at) }
{
    S::try_from(shape_at(body, at, left)?).ok()
}

// The expression at a node. Each sort has a tree of its own and so a law of its own: this function and the three below
// are `node_as` with that law, and one generic clause for the four would need a trait with the four laws, no plainer.
pub(crate) fn value_at(body: &Body, at: u16, left: u8) -> Option<Expression>
    ensures tree { expr_in body.now left at ≡ expr_shaped body.now left at result }
    ensures there { OnSome result (IsThere body.now left at) }
{
    node_as(body, at, left)
}

// The condition at a node.
pub(crate) fn test_at(body: &Body, at: u16, left: u8) -> Option<Condition>
    ensures tree { cond_in body.now left at ≡ cond_shaped body.now left at result }
    ensures there { OnSome result (IsThere body.now left at) }
{
    node_as(body, at, left)
}

// The statement at a node.
pub(crate) fn act_at(body: &Body, at: u16, left: u8) -> Option<Statement>
    ensures tree { stmt_in body.now left at ≡ stmt_shaped body.now left at result }
    ensures there { OnSome result (IsThere body.now left at) }
{
    node_as(body, at, left)
}

// How many statements the block at a node has.
pub(crate) fn count_at(body: &Body, at: u16, left: u8) -> Option<u16>
    ensures tree { block_in body.now left at ≡ block_shaped body.now left at result }
    ensures there { OnSome result (IsThere body.now left at) }
{
    node_as(body, at, left)
}
