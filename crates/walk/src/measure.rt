// What a node makes of what was found of its children. The kinds of the children are judged first.
ghost use Rattle.std.specs.Prelude.{◌≡◌, ◌+◌, ◌<◌, max, ◌&&◌};
ghost use Rattle.table.specs.Flow.{onward};
ghost use Rattle.table.specs.Kinds.{operates};
ghost use Rattle.language.specs.Measures.{operand_kind, unary_kind, unary_words};
ghost use Rattle.walk.specs.Walk.{found, size, sized, CanStack, stacked, beside, topped, judged, same_kind, needed, added, fitting};

use crate::fault::CheckFault;
use crate::found::{Found, Size};
use crate::operators::{operand_kind, unary_kind, unary_words};
use table::{Binary, Kind, Unary};

// A node that gives a value of that kind and has no children.
pub(crate) fn leaf(kind: Kind) -> Found
    ensures { result ≡ found kind 1 1 }
{
    Found {
        kind,
        size: Size {
            height: 1,
            words: 1,
        },
    }
}

// An operator over one operand.
pub(crate) fn operation_on_one(
    operator: Unary,
    a: Found,
    next: usize,
    at: usize,
) -> Result<(Found, usize), CheckFault>
    requires { a.size.words < 65535 }
    ensures { result ≡ judged at (same_kind (operand_kind operator) a.kind) (found (unary_kind operator) a.size.height (a.size.words + unary_words operator), next) }
{
    if a.kind != operand_kind(operator) {
        return Err(CheckFault::Child(at));
    }
    let found = Found {
        kind: unary_kind(operator),
        size: Size {
            words: a.size.words + unary_words(operator),
            ..a.size
        },
    };
    Ok((found, next))
}

// The right operand stands on the left one's value; the operator adds a word.
fn stack(a: Found, b: Found) -> Size
    requires { CanStack a b }
    ensures { result ≡ stacked a b }
{
    Size {
        height: a.size.height.max(1 + b.size.height),
        words: a.size.words + b.size.words + 1,
    }
}

// An operator between two operands.
pub(crate) fn operation_on_two(
    operator: Binary,
    a: Found,
    b: Found,
    next: usize,
    at: usize,
) -> Result<(Found, usize), CheckFault>
    requires { CanStack a b }
    ensures { result ≡ judged at (same_kind a.kind b.kind && operates operator a.kind) (sized a.kind (stacked a b), next) }
{
    if a.kind != b.kind || !operator.takes(a.kind) {
        return Err(CheckFault::Child(at));
    }
    let found = Found {
        kind: a.kind,
        size: stack(a, b),
    };
    Ok((found, next))
}

// A comparison of two values.
pub(crate) fn comparison(
    a: Found,
    b: Found,
    next: usize,
    at: usize,
) -> Result<(Size, usize), CheckFault>
    requires { CanStack a b }
    ensures { result ≡ judged at (same_kind a.kind b.kind) (stacked a b, next) }
{
    if a.kind != b.kind {
        return Err(CheckFault::Child(at));
    }
    Ok((stack(a, b), next))
}

// A node with one expression below it, of the kind that it asks for.
pub(crate) fn topped_value(
    kind: Kind,
    value: Found,
    next: usize,
    at: usize,
) -> Result<(Size, usize), CheckFault>
    requires { value.size.words < 65535 }
    ensures { result ≡ judged at (same_kind kind value.kind) (topped value, next) }
{
    if value.kind != kind {
        return Err(CheckFault::Child(at));
    }
    Ok((value.size.and_word(), next))
}

// Argument i of a call, for a parameter of that kind, behind the arguments before it.
pub(crate) fn add_argument(taken: Option<Size>, i: u16, kind: Kind, argument: Found) -> Option<Size>
    requires { (i + argument.size.height < 65536) × ((needed taken).words + argument.size.words < 65536) }
    ensures { result ≡ added taken i kind argument }
{
    let before = taken?;
    if argument.kind != kind {
        return None;
    }
    Some(Size {
        height: before.height.max(i + argument.size.height),
        words: before.words + argument.size.words,
    })
}

// A call with all its arguments.
pub(crate) fn called_with(
    taken: Option<Size>,
    next: usize,
    at: usize,
) -> Result<(Size, usize), CheckFault>
    requires { (needed taken).words < 65535 }
    ensures { result ≡ onward (fitting at taken) (λ s. Ok (size s.height (s.words + 1), next)) }
{
    let arguments = taken.ok_or(CheckFault::Child(at))?;
    Ok((arguments.and_word(), next))
}

// A call that gives a value, which needs a place even without arguments.
pub(crate) fn value_of_call(
    kind: Kind,
    taken: Option<Size>,
    next: usize,
    at: usize,
) -> Result<(Found, usize), CheckFault>
    requires { (needed taken).words < 65535 }
    ensures { result ≡ onward (fitting at taken) (λ s. Ok (found kind (max 1 s.height) (s.words + 1), next)) }
{
    let arguments = taken.ok_or(CheckFault::Child(at))?;
    let size = Size {
        height: arguments.height.max(1),
        words: arguments.words + 1,
    };
    Ok((Found { kind, size }, next))
}

impl Size {
    // The same with a word of the node above.
    pub(crate) fn and_word(self) -> Size
        requires { self.words < 65535 }
        ensures { result ≡ size self.height (self.words + 1) }
    {
        Size {
            words: self.words + 1,
            ..self
        }
    }
}

// Two parts of a node, side by side.
pub(crate) fn side_by_side(a: Size, b: Size) -> Size
    requires { a.words + b.words < 65536 }
    ensures { result ≡ beside a b }
{
    Size {
        height: a.height.max(b.height),
        words: a.words + b.words,
    }
}
