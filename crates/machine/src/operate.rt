// Operations on the numbers in cells.
ghost use Rattle.std.specs.Prelude.{◌≡◌};
ghost use Rattle.machine.specs.Values.{apply_unary, binary_in, apply_binary, compared_in, compared};
ghost use Rattle.machine.specs.Acts.{jumping};

use number::{Byte, Int, NumberKind};
use table::{Binary, Comparison, Kind, Unary};

pub fn apply_unary(operator: Unary, x: i16) -> i16
    ensures { result ≡ apply_unary operator x }
{
    match operator {
        Unary::Plus => x,
        Unary::Minus => number::neg::<Int>(x),
        Unary::ByteNot => number::not(x),
        Unary::Extend => number::extend(x),
        Unary::Shrink => number::shrink(x),
    }
}

fn binary_in<K: NumberKind>(operator: Binary, x: i16, y: i16) -> Option<i16>
    ensures { result ≡ binary_in operator K.NumberKind.kind x y }
{
    match operator {
        Binary::Add => Some(number::add::<K>(x, y)),
        Binary::Sub => Some(number::sub::<K>(x, y)),
        Binary::Mul => Some(number::mul::<K>(x, y)),
        Binary::Div => number::div::<K>(x, y),
        Binary::Rem => number::rem::<K>(x, y),
        Binary::ByteAnd => Some(number::and(x, y)),
        Binary::ByteOr => Some(number::or(x, y)),
    }
}

// None is a zero divisor.
pub fn apply_binary(operator: Binary, kind: Kind, x: i16, y: i16) -> Option<i16>
    ensures { result ≡ apply_binary operator kind x y }
{
    match kind {
        Kind::Int => binary_in::<Int>(operator, x, y),
        Kind::Byte => binary_in::<Byte>(operator, x, y),
    }
}

fn compare_in<K: NumberKind>(comparison: Comparison, x: i16, y: i16) -> bool
    ensures { result ≡ compared_in comparison K.NumberKind.kind x y }
{
    match comparison {
        Comparison::Equal => number::eq::<K>(x, y),
        Comparison::Unequal => number::ne::<K>(x, y),
        Comparison::Less => number::lt::<K>(x, y),
        Comparison::Greater => number::gt::<K>(x, y),
        Comparison::AtMost => number::le::<K>(x, y),
        Comparison::AtLeast => number::ge::<K>(x, y),
    }
}

pub fn compare(comparison: Comparison, kind: Kind, x: i16, y: i16) -> bool
    ensures { result ≡ compared comparison kind x y }
{
    match kind {
        Kind::Int => compare_in::<Int>(comparison, x, y),
        Kind::Byte => compare_in::<Byte>(comparison, x, y),
    }
}

// Where a jump leads that is made when the truth is the sense, if it is made. Sense and target stay two parameters, as they
// are two fields of the instruction: a struct for them would be made at each of the two calls and taken apart here.
pub fn jump_if(sense: bool, target: u32, truth: bool) -> Option<u32>
    ensures { result ≡ jumping sense target truth }
{
    (truth == sense).then_some(target)
}
