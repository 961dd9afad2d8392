// The words of expressions.
ghost use Rattle.std.specs.Prelude.{◌≡◌, ◌+◌, ◌++◌};
ghost use Rattle.language.specs.Measures.{kind_of, words_e, words_a};
ghost use Rattle.translate.specs.Code.{code_e, code_a};
ghost use Rattle.translate.specs.Source.{expr_in, args_from};
ghost use Rattle.translate.specs.Written.{HasRoom, Writes};

use crate::arrive::value_at;
use crate::refer::{argument_count, result_kind};
use crate::write::Writer;
use code::Instruction;
use table::{Expression, Format, Kind};
use walk::{Body, format_kind, unary_kind};

// Writes the words of the expression at a node: its kind, and the next node's place.
#[cycle(arguments_operands_value)]
pub(crate) fn value(body: &Body, at: u16, left: u8, out: &mut Writer) -> (Kind, u16)
    requires room { HasRoom out.old (words_e (expr_in body.now left at).0) }
    ensures is { let a = (expr_in body.now left at).0 in Writes out.old out.new (words_e a) (code_e a) }
    ensures kind { result.0 ≡ kind_of (expr_in body.now left at).0 }
    ensures next { result.1 ≡ (expr_in body.now left at).1 }
{
    let Some(shape) = value_at(body, at, left) else {
        out.put(Instruction::Read(Format::Char), at);
        return (Kind::Byte, at);
    };
    match shape {
        Expression::Constant(kind, value) => {
            out.put(Instruction::Constant(kind, value), at);
            (kind, at + 1)
        }
        Expression::Variable(scope, slot) => {
            out.put(Instruction::Variable(scope, u32::from(slot)), at);
            let kind = body.context.variable_kind(scope, slot);
            (kind.unwrap_or(Kind::Int), at + 1)
        }
        Expression::Unary(operator) => {
            let (_, next) = value(body, at + 1, left - 1, out);
            out.put_unary(operator, at);
            (unary_kind(operator), next)
        }
        Expression::Binary(operator) => {
            let (kind, next) = operands(body, at + 1, left - 1, out);
            out.put(Instruction::Binary(operator, kind), at);
            (kind, next)
        }
        Expression::Call(f) => {
            let next = arguments(body, argument_count(body, f), at + 1, left - 1, out);
            out.put(Instruction::Call(u32::from(f)), at);
            (result_kind(body, f), next)
        }
        Expression::Read(format) => {
            out.put(Instruction::Read(format), at);
            (format_kind(format), at + 1)
        }
    }
}

// Writes the words of two expressions in a row: the first one's kind, and the next node's place.
#[cycle(arguments_operands_value)]
pub(crate) fn operands(body: &Body, at: u16, left: u8, out: &mut Writer) -> (Kind, u16)
    requires room { let a = expr_in body.now left at in HasRoom out.old (words_e a.0 + words_e (expr_in body.now left a.1).0) }
    ensures is { let a = expr_in body.now left at in let b = expr_in body.now left a.1 in Writes out.old out.new (words_e a.0 + words_e b.0) (code_e a.0 ++ code_e b.0) }
    ensures kind { result.0 ≡ kind_of (expr_in body.now left at).0 }
    ensures next { result.1 ≡ (expr_in body.now left (expr_in body.now left at).1).1 }
{
    let (kind, second) = value(body, at, left, out);
    let (_, next) = value(body, second, left, out);
    (kind, next)
}

// Writes the words of so many arguments in a row: the next node's place.
#[cycle(arguments_operands_value)]
pub(crate) fn arguments(body: &Body, count: u8, at: u16, left: u8, out: &mut Writer) -> u16
    requires room { HasRoom out.old (words_a (args_from (expr_in body.now left) count at).0) }
    ensures is { let xs = (args_from (expr_in body.now left) count at).0 in Writes out.old out.new (words_a xs) (code_a xs) }
    ensures next { result ≡ (args_from (expr_in body.now left) count at).1 }
{
    let mut next = at;
    for _ in 0..count {
        (_, next) = value(body, next, left, out);
    }
    next
}
