// Comparison of cells, once for every kind: each operand is first folded into the kind.
// The six differ in the operator alone: one function for all, with a closure for the operator, would be no plainer, since
// each would still be a function that calls it.
ghost use Rattle.std.specs.Prelude.{◌≡◌};
ghost use Rattle.number.specs.Number.{folded, equal, unequal, less, greater, at_most, at_least};

use crate::arithmetic::operand;
use crate::kind::NumberKind;

pub fn eq<K: NumberKind>(a: i16, b: i16) -> bool
    ensures { result ≡ equal (folded K.NumberKind.kind a) (folded K.NumberKind.kind b) }
{
    operand::<K>(a) == operand::<K>(b)
}

pub fn ne<K: NumberKind>(a: i16, b: i16) -> bool
    ensures { result ≡ unequal (folded K.NumberKind.kind a) (folded K.NumberKind.kind b) }
{
    operand::<K>(a) != operand::<K>(b)
}

pub fn lt<K: NumberKind>(a: i16, b: i16) -> bool
    ensures { result ≡ less (folded K.NumberKind.kind a) (folded K.NumberKind.kind b) }
{
    operand::<K>(a) < operand::<K>(b)
}

pub fn gt<K: NumberKind>(a: i16, b: i16) -> bool
    ensures { result ≡ greater (folded K.NumberKind.kind a) (folded K.NumberKind.kind b) }
{
    operand::<K>(a) > operand::<K>(b)
}

pub fn le<K: NumberKind>(a: i16, b: i16) -> bool
    ensures { result ≡ at_most (folded K.NumberKind.kind a) (folded K.NumberKind.kind b) }
{
    operand::<K>(a) <= operand::<K>(b)
}

pub fn ge<K: NumberKind>(a: i16, b: i16) -> bool
    ensures { result ≡ at_least (folded K.NumberKind.kind a) (folded K.NumberKind.kind b) }
{
    operand::<K>(a) >= operand::<K>(b)
}
