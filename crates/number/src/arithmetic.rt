// Arithmetic on cells of 16 bits, once for every kind.
// An operation folds its operands into the kind, works out the exact result in 32 bits and folds that.
// The operations differ in the operator alone: one function for all, with a closure for the operator, would be no plainer,
// since each would still be a function that calls it, and the closure would need a clause that its result fits 32 bits.
ghost use Rattle.std.specs.Prelude.{◌≡◌, IfSome};
ghost use Rattle.number.specs.Number.{folded, Folds, Within, int, sum, difference, product, negation, quotient, remainder, unless_zero};

use crate::kind::NumberKind;

// The number of the kind that differs from n by a multiple of the span.
pub fn fold<K: NumberKind>(n: i32) -> i16
    ensures value { result ≡ folded K.NumberKind.kind n }
    ensures law { Folds K.NumberKind.kind n result }
{
    let span = K::SPAN;
    let rest = n.rem_euclid(span);
    if rest <= K::HIGH {
        rest as i16
    } else {
        (rest - span) as i16
    }
}

// What a cell holds as a number of the kind.
pub(crate) fn operand<K: NumberKind>(cell: i16) -> i32
    ensures value { result ≡ folded K.NumberKind.kind cell }
    ensures small { Within int result }
{
    i32::from(fold::<K>(i32::from(cell)))
}

// The divisor that a cell holds, or None where it is zero.
fn nonzero<K: NumberKind>(cell: i16) -> Option<i32>
    ensures value { result ≡ unless_zero (folded K.NumberKind.kind cell) (folded K.NumberKind.kind cell) }
    ensures small { IfSome result (Within int) }
{
    let divisor = operand::<K>(cell);
    (divisor != 0).then_some(divisor)
}

pub fn add<K: NumberKind>(a: i16, b: i16) -> i16
    ensures { result ≡ sum K.NumberKind.kind (folded K.NumberKind.kind a) (folded K.NumberKind.kind b) }
{
    fold::<K>(operand::<K>(a) + operand::<K>(b))
}

pub fn sub<K: NumberKind>(a: i16, b: i16) -> i16
    ensures { result ≡ difference K.NumberKind.kind (folded K.NumberKind.kind a) (folded K.NumberKind.kind b) }
{
    fold::<K>(operand::<K>(a) - operand::<K>(b))
}

pub fn mul<K: NumberKind>(a: i16, b: i16) -> i16
    ensures { result ≡ product K.NumberKind.kind (folded K.NumberKind.kind a) (folded K.NumberKind.kind b) }
{
    fold::<K>(operand::<K>(a) * operand::<K>(b))
}

pub fn neg<K: NumberKind>(a: i16) -> i16
    ensures { result ≡ negation K.NumberKind.kind (folded K.NumberKind.kind a) }
{
    fold::<K>(-operand::<K>(a))
}

// None is a zero divisor.
pub fn div<K: NumberKind>(a: i16, b: i16) -> Option<i16>
    ensures { result ≡ quotient K.NumberKind.kind (folded K.NumberKind.kind a) (folded K.NumberKind.kind b) }
{
    let divisor = nonzero::<K>(b)?;
    Some(fold::<K>(operand::<K>(a) / divisor))
}

// None is a zero divisor.
pub fn rem<K: NumberKind>(a: i16, b: i16) -> Option<i16>
    ensures { result ≡ remainder K.NumberKind.kind (folded K.NumberKind.kind a) (folded K.NumberKind.kind b) }
{
    let divisor = nonzero::<K>(b)?;
    Some(fold::<K>(operand::<K>(a) % divisor))
}
