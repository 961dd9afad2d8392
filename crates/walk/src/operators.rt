// What formats and operators say of kinds and words.
ghost use Rattle.std.specs.Prelude.{◌≡◌};
ghost use Rattle.language.specs.Measures.{format_kind, operand_kind, unary_kind, unary_words};

use table::{Format, Kind, Unary};

// The kind that a read of a format gives, and that a write of it takes.
pub fn format_kind(format: Format) -> Kind
    ensures { result ≡ format_kind format }
{
    match format {
        Format::Integer => Kind::Int,
        Format::Byte | Format::Char => Kind::Byte,
    }
}

// The kind that an operator takes.
pub fn operand_kind(operator: Unary) -> Kind
    ensures { result ≡ operand_kind operator }
{
    match operator {
        Unary::Plus | Unary::Minus | Unary::Shrink => Kind::Int,
        Unary::ByteNot | Unary::Extend => Kind::Byte,
    }
}

// The kind that an operator gives.
pub fn unary_kind(operator: Unary) -> Kind
    ensures { result ≡ unary_kind operator }
{
    match operator {
        Unary::Plus | Unary::Minus | Unary::Extend => Kind::Int,
        Unary::ByteNot | Unary::Shrink => Kind::Byte,
    }
}

// The words of an operator.
pub fn unary_words(operator: Unary) -> u16
    ensures { result ≡ unary_words operator }
{
    match operator {
        Unary::Plus | Unary::Extend => 0,
        Unary::Minus | Unary::ByteNot | Unary::Shrink => 1,
    }
}
