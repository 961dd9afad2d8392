// What is done with cells that hold bytes: logic, and the ways from one kind to the other.
ghost use Rattle.std.specs.Prelude.{◌≡◌};
ghost use Rattle.number.specs.Number.{folded, byte, Within, holds, conjunction, disjunction, inversion, extended, shrunk};

use crate::arithmetic::{fold, operand};
use crate::kind::Byte;

// Whether the byte in the cell holds as a condition.
pub fn is_true(a: i16) -> bool
    ensures { result ≡ holds (folded byte a) }
{
    operand::<Byte>(a) != 0
}

pub fn and(a: i16, b: i16) -> i16
    ensures { result ≡ conjunction (folded byte a) (folded byte b) }
{
    i16::from(is_true(a) & is_true(b))
}

pub fn or(a: i16, b: i16) -> i16
    ensures { result ≡ disjunction (folded byte a) (folded byte b) }
{
    i16::from(is_true(a) | is_true(b))
}

pub fn not(a: i16) -> i16
    ensures { result ≡ inversion (folded byte a) }
{
    i16::from(!is_true(a))
}

// The int of the byte in the cell; a byte's number stays as it is.
pub fn extend(cell: i16) -> i16
    ensures value { result ≡ extended (folded byte cell) }
    ensures kept { Within byte cell → result ≡ cell }
{
    fold::<Byte>(i32::from(cell))
}

// The byte of the int n.
pub fn shrink(n: i16) -> i16
    ensures { result ≡ shrunk n }
{
    fold::<Byte>(i32::from(n))
}
