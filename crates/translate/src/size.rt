// How many words a subtree has.
ghost use Rattle.std.specs.Prelude.{◌≡◌, ◌+◌, ◌-◌, ◌≤◌};
ghost use Rattle.language.specs.Measures.{words_e, words_a, words_c, words_s, words_b};
ghost use Rattle.translate.specs.Source.{expr_in, args_from, cond_in, stmt_in, block_in};

use crate::arrive::{act_at, count_at, test_at, value_at};
use crate::refer::argument_count;
use table::{Condition, Expression, Statement};
use walk::{Body, unary_words};

// The words of the expression at a node, and the next node's place.
#[cycle(arguments_size_value_size)]
pub(crate) fn value_size(body: &Body, at: u16, left: u8) -> (usize, u16)
    requires few { words_e (expr_in body.now left at).0 ≤ 65535 }
    ensures words { result.0 ≡ words_e (expr_in body.now left at).0 }
    ensures next { result.1 ≡ (expr_in body.now left at).1 }
{
    let Some(shape) = value_at(body, at, left) else {
        return (1, at);
    };
    match shape {
        Expression::Constant(_, _) | Expression::Variable(_, _) | Expression::Read(_) => (
            1,
            at + 1,
        ),
        Expression::Unary(operator) => {
            let (words, next) = value_size(body, at + 1, left - 1);
            (words + usize::from(unary_words(operator)), next)
        }
        Expression::Binary(_) => {
            let (first, second) = value_size(body, at + 1, left - 1);
            let (last, next) = value_size(body, second, left - 1);
            (first + last + 1, next)
        }
        Expression::Call(f) => {
            let count = argument_count(body, f);
            let (words, next) = arguments_size(body, count, at + 1, left - 1);
            (words + 1, next)
        }
    }
}

// The same for so many arguments in a row.
#[cycle(arguments_size_value_size)]
pub(crate) fn arguments_size(body: &Body, count: u8, at: u16, left: u8) -> (usize, u16)
    requires few { words_a (args_from (expr_in body.now left) count at).0 ≤ 65535 }
    ensures words { result.0 ≡ words_a (args_from (expr_in body.now left) count at).0 }
    ensures next { result.1 ≡ (args_from (expr_in body.now left) count at).1 }
{
    let mut words = 0;
    let mut next = at;
    for _ in 0..count {
        let (more, after) = value_size(body, next, left);
        words += more;
        next = after;
    }
    (words, next)
}

// The words of the condition at a node, and the next node's place.
pub(crate) fn test_size(body: &Body, at: u16, left: u8) -> (usize, u16)
    requires few { words_c (cond_in body.now left at).0 ≤ 65535 }
    ensures words { result.0 ≡ words_c (cond_in body.now left at).0 }
    ensures next { result.1 ≡ (cond_in body.now left at).1 }
{
    let Some(shape) = test_at(body, at, left) else {
        return (2, at);
    };
    match shape {
        Condition::Compare(_) => {
            let (first, second) = value_size(body, at + 1, left - 1);
            let (last, next) = value_size(body, second, left - 1);
            (first + last + 1, next)
        }
        Condition::Not => test_size(body, at + 1, left - 1),
        Condition::Join(_) => {
            let (first, second) = test_size(body, at + 1, left - 1);
            let (last, next) = test_size(body, second, left - 1);
            (first + last, next)
        }
        Condition::Holds => {
            let (words, next) = value_size(body, at + 1, left - 1);
            (words + 1, next)
        }
    }
}

// The words of the statement at a node, and the next node's place.
#[cycle(act_size_block_size)]
pub(crate) fn act_size(body: &Body, at: u16, left: u8) -> (usize, u16)
    requires few { words_s (stmt_in body.now left at).0 ≤ 65535 }
    ensures words { result.0 ≡ words_s (stmt_in body.now left at).0 }
    ensures next { result.1 ≡ (stmt_in body.now left at).1 }
{
    let Some(shape) = act_at(body, at, left) else {
        return (0, at);
    };
    match shape {
        Statement::Skip => (0, at + 1),
        Statement::Break(_) | Statement::Continue(_) | Statement::Exit => (1, at + 1),
        Statement::Assign(_, _) | Statement::Return | Statement::Write(_) => {
            let (words, next) = value_size(body, at + 1, left - 1);
            (words + 1, next)
        }
        Statement::Perform(f) => {
            let count = argument_count(body, f);
            let (words, next) = arguments_size(body, count, at + 1, left - 1);
            (words + 1, next)
        }
        Statement::If => {
            let (test, inner) = test_size(body, at + 1, left - 1);
            let (words, next) = block_size(body, inner, left - 1);
            (test + words, next)
        }
        Statement::IfElse => {
            let (test, inner) = test_size(body, at + 1, left - 1);
            let (first, other) = block_size(body, inner, left - 1);
            let (last, next) = block_size(body, other, left - 1);
            (test + first + last + 1, next)
        }
        Statement::Loop(_) => {
            let (words, next) = block_size(body, at + 1, left - 1);
            (words + 1, next)
        }
    }
}

// The same for a block.
#[cycle(act_size_block_size)]
pub(crate) fn block_size(body: &Body, at: u16, left: u8) -> (usize, u16)
    requires few { words_b (block_in body.now left at).0 ≤ 65535 }
    ensures words { result.0 ≡ words_b (block_in body.now left at).0 }
    ensures next { result.1 ≡ (block_in body.now left at).1 }
{
    let Some(count) = count_at(body, at, left) else {
        return (0, at);
    };
    let mut words = 0;
    let mut next = at + 1;
    for _ in 0..count {
        let (more, after) = act_size(body, next, left - 1);
        words += more;
        next = after;
    }
    (words, next)
}
