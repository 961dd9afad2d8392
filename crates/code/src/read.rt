// Reading words.
ghost use Rattle.std.specs.Prelude.{◌≡◌};
ghost use Rattle.code.specs.Fields.{op_of, aux_of, node_of, operand_of};
ghost use Rattle.code.specs.Word.{sense_of, constant_of, binary_of, compare_of, bare_of, plain_of, ranged_of, instruction_from, instruction_of, WrittenAgain};

use crate::instruction::{Instruction, Jump};
use table::{Binary, Comparison, Format, Kind, Scope};

// The sense of a jump. A conversion of std's own types is not for this crate to write, so it is a function.
fn sense_of(aux: u8) -> Option<bool>
    ensures { result ≡ sense_of aux }
{
    match aux {
        0 => Some(false),
        1 => Some(true),
        _ => None,
    }
}

fn constant_of(aux: u8, operand: u32) -> Option<Instruction>
    ensures { result ≡ constant_of aux operand }
{
    let kind = Kind::try_from(aux).ok()?;
    let value = u16::try_from(operand).ok()?;
    (value < kind.constants()).then_some(Instruction::Constant(kind, value))
}

fn binary_of(op: u8, aux: u8) -> Option<Instruction>
    ensures { result ≡ binary_of op aux }
{
    let operator = Binary::try_from(op).ok()?;
    let kind = Kind::try_from(aux).ok()?;
    operator
        .takes(kind)
        .then_some(Instruction::Binary(operator, kind))
}

// The aux of a comparison is its kind's number and twice the sense's.
fn compare_of(op: u8, aux: u8, address: u32) -> Option<Instruction>
    ensures { result ≡ compare_of op aux address }
{
    let comparison = Comparison::try_from(op).ok()?;
    let kind = Kind::try_from(aux % 2).ok()?;
    let sense = sense_of(aux / 2)?;
    Some(Instruction::Compare(comparison, kind, sense, address))
}

fn bare_of(op: u8) -> Option<Instruction>
    ensures { result ≡ bare_of op }
{
    match op {
        4 => Some(Instruction::Minus),
        5 => Some(Instruction::ByteNot),
        15 => Some(Instruction::Shrink),
        39 => Some(Instruction::Exit),
        40 => Some(Instruction::Return),
        41 => Some(Instruction::Close),
        _ => None,
    }
}

fn plain_of(op: u8, operand: u32) -> Option<Instruction>
    ensures { result ≡ plain_of op operand }
{
    match op {
        13 => Some(Instruction::Call(operand)),
        34 => Some(Instruction::Perform(operand)),
        35 => Some(Instruction::Jump(Jump::Else, operand)),
        36 => Some(Instruction::Jump(Jump::Loop, operand)),
        37 => Some(Instruction::Jump(Jump::Break, operand)),
        38 => Some(Instruction::Jump(Jump::Continue, operand)),
        _ if operand == 0 => bare_of(op),
        _ => None,
    }
}

fn ranged_of(op: u8, aux: u8, operand: u32) -> Option<Instruction>
    ensures { result ≡ ranged_of op aux operand }
{
    match op {
        6..=12 if operand == 0 => binary_of(op, aux),
        6..=12 => None,
        20..=25 => compare_of(op, aux, operand),
        _ if aux == 0 => plain_of(op, operand),
        _ => None,
    }
}

fn instruction_from(op: u8, aux: u8, operand: u32) -> Option<Instruction>
    ensures { result ≡ instruction_from op aux operand }
{
    match op {
        1 => constant_of(aux, operand),
        2 => Some(Instruction::Variable(Scope::try_from(aux).ok()?, operand)),
        16 if operand == 0 => Some(Instruction::Read(Format::try_from(aux).ok()?)),
        29 => Some(Instruction::Holds(sense_of(aux)?, operand)),
        33 => Some(Instruction::Assign(Scope::try_from(aux).ok()?, operand)),
        42 if operand == 0 => Some(Instruction::Write(Format::try_from(aux).ok()?)),
        16 | 42 => None,
        _ => ranged_of(op, aux, operand),
    }
}

fn op_of(word: u64) -> u8
    ensures { result ≡ op_of word }
{
    (word >> 56) as u8
}

// The aux of a word, whether or not it is listed.
pub fn aux_of(word: u64) -> u8
    ensures { result ≡ aux_of word }
{
    (word >> 48 & 0xff) as u8
}

// The node of a word, whether or not the rest of it is listed.
pub fn node_of(word: u64) -> u16
    ensures { result ≡ node_of word }
{
    (word >> 32 & 0xffff) as u16
}

// The operand of a word, whether or not it is listed.
pub fn operand_of(word: u64) -> u32
    ensures { result ≡ operand_of word }
{
    (word & 0xffff_ffff) as u32
}

// The instruction of a word, or none if its op or a field is not listed.
pub fn decode(word: u64) -> Option<Instruction>
    ensures value { result ≡ instruction_of word }
    ensures again { WrittenAgain word result }
{
    instruction_from(op_of(word), aux_of(word), operand_of(word))
}
