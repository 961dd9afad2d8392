// The numbers that stand for kinds, scopes, formats, operators and comparisons in a table and in words of code.
ghost use Rattle.std.specs.Prelude.{◌≡◌};
ghost use Rattle.table.specs.Numbers.{kind_number, scope_number, format_number, binary_number, comparison_number, kind_of, scope_of, format_of, unary_of, binary_of, comparison_of, junction_of, result_number, result_of, listed};

use crate::shape::{Binary, Comparison, Format, Junction, Kind, Scope, Unary};

// A number stands for none of them.
#[derive(Clone, Copy, PartialEq, Eq, Debug)]
pub struct Unlisted;

impl From<Kind> for u8 {
    ghost from_gives = { λ kind number. number ≡ kind_number kind };

    fn from(kind: Kind) -> u8 {
        kind as u8
    }
}

impl From<Scope> for u8 {
    ghost from_gives = { λ scope number. number ≡ scope_number scope };

    fn from(scope: Scope) -> u8 {
        scope as u8
    }
}

impl From<Format> for u8 {
    ghost from_gives = { λ format number. number ≡ format_number format };

    fn from(format: Format) -> u8 {
        format as u8
    }
}

impl From<Binary> for u8 {
    ghost from_gives = { λ operator number. number ≡ binary_number operator };

    fn from(operator: Binary) -> u8 {
        operator as u8
    }
}

impl From<Comparison> for u8 {
    ghost from_gives = { λ comparison number. number ≡ comparison_number comparison };

    fn from(comparison: Comparison) -> u8 {
        comparison as u8
    }
}

impl TryFrom<u8> for Kind {
    type Error = Unlisted;

    ghost try_from_gives = { λ number found. found ≡ listed (kind_of number) };

    fn try_from(number: u8) -> Result<Kind, Unlisted> {
        match number {
            0 => Ok(Kind::Int),
            1 => Ok(Kind::Byte),
            _ => Err(Unlisted),
        }
    }
}

impl TryFrom<u8> for Scope {
    type Error = Unlisted;

    ghost try_from_gives = { λ number found. found ≡ listed (scope_of number) };

    fn try_from(number: u8) -> Result<Scope, Unlisted> {
        match number {
            0 => Ok(Scope::Own),
            1 => Ok(Scope::Main),
            _ => Err(Unlisted),
        }
    }
}

impl TryFrom<u8> for Format {
    type Error = Unlisted;

    ghost try_from_gives = { λ number found. found ≡ listed (format_of number) };

    fn try_from(number: u8) -> Result<Format, Unlisted> {
        match number {
            0 => Ok(Format::Integer),
            1 => Ok(Format::Byte),
            2 => Ok(Format::Char),
            _ => Err(Unlisted),
        }
    }
}

impl TryFrom<u8> for Unary {
    type Error = Unlisted;

    ghost try_from_gives = { λ number found. found ≡ listed (unary_of number) };

    fn try_from(number: u8) -> Result<Unary, Unlisted> {
        match number {
            3 => Ok(Unary::Plus),
            4 => Ok(Unary::Minus),
            5 => Ok(Unary::ByteNot),
            14 => Ok(Unary::Extend),
            15 => Ok(Unary::Shrink),
            _ => Err(Unlisted),
        }
    }
}

impl TryFrom<u8> for Binary {
    type Error = Unlisted;

    ghost try_from_gives = { λ number found. found ≡ listed (binary_of number) };

    fn try_from(number: u8) -> Result<Binary, Unlisted> {
        match number {
            6 => Ok(Binary::Add),
            7 => Ok(Binary::Sub),
            8 => Ok(Binary::Mul),
            9 => Ok(Binary::Div),
            10 => Ok(Binary::Rem),
            11 => Ok(Binary::ByteAnd),
            12 => Ok(Binary::ByteOr),
            _ => Err(Unlisted),
        }
    }
}

impl TryFrom<u8> for Comparison {
    type Error = Unlisted;

    ghost try_from_gives = { λ number found. found ≡ listed (comparison_of number) };

    fn try_from(number: u8) -> Result<Comparison, Unlisted> {
        match number {
            20 => Ok(Comparison::Equal),
            21 => Ok(Comparison::Unequal),
            22 => Ok(Comparison::Less),
            23 => Ok(Comparison::Greater),
            24 => Ok(Comparison::AtMost),
            25 => Ok(Comparison::AtLeast),
            _ => Err(Unlisted),
        }
    }
}

impl TryFrom<u8> for Junction {
    type Error = Unlisted;

    ghost try_from_gives = { λ number found. found ≡ listed (junction_of number) };

    fn try_from(number: u8) -> Result<Junction, Unlisted> {
        match number {
            27 => Ok(Junction::And),
            28 => Ok(Junction::Or),
            _ => Err(Unlisted),
        }
    }
}

// The result that a field of a function's record or entry names: 0 for none, else the number after the kind's.
pub fn result_of(field: u8) -> Result<Option<Kind>, Unlisted>
    ensures { result ≡ listed (result_of field) }
{
    match field {
        0 => Ok(None),
        _ => Ok(Some(Kind::try_from(field - 1)?)),
    }
}

// The field of a result.
pub fn result_number(res: Option<Kind>) -> u8
    ensures { result ≡ result_number res }
{
    match res {
        None => 0,
        Some(kind) => u8::from(kind) + 1,
    }
}
