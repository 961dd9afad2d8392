// Writing words.
ghost use Rattle.std.specs.Prelude.{◌≡◌, ◌<◌};
ghost use Rattle.code.specs.Word.{op_for, aux_for, operand_for, word_of, ReadAgain};

use crate::instruction::Instruction;

fn op_for(instruction: Instruction) -> u8
    ensures { result ≡ op_for instruction }
{
    match instruction {
        Instruction::Constant(_, _) => 1,
        Instruction::Variable(_, _) => 2,
        Instruction::Minus => 4,
        Instruction::ByteNot => 5,
        Instruction::Binary(operator, _) => u8::from(operator),
        Instruction::Call(_) => 13,
        Instruction::Shrink => 15,
        Instruction::Read(_) => 16,
        Instruction::Compare(comparison, _, _, _) => u8::from(comparison),
        Instruction::Holds(_, _) => 29,
        Instruction::Assign(_, _) => 33,
        Instruction::Perform(_) => 34,
        Instruction::Jump(jump, _) => jump as u8,
        Instruction::Exit => 39,
        Instruction::Return => 40,
        Instruction::Close => 41,
        Instruction::Write(_) => 42,
    }
}

fn aux_for(instruction: Instruction) -> u8
    ensures { result ≡ aux_for instruction }
{
    match instruction {
        Instruction::Constant(kind, _) | Instruction::Binary(_, kind) => u8::from(kind),
        Instruction::Variable(scope, _) | Instruction::Assign(scope, _) => u8::from(scope),
        Instruction::Read(format) | Instruction::Write(format) => u8::from(format),
        Instruction::Compare(_, kind, sense, _) => u8::from(kind) + u8::from(sense) * 2,
        Instruction::Holds(sense, _) => u8::from(sense),
        _ => 0,
    }
}

fn operand_for(instruction: Instruction) -> u32
    ensures { result ≡ operand_for instruction }
{
    match instruction {
        Instruction::Constant(_, value) => u32::from(value),
        Instruction::Variable(_, number)
        | Instruction::Assign(_, number)
        | Instruction::Call(number)
        | Instruction::Perform(number)
        | Instruction::Compare(_, _, _, number)
        | Instruction::Holds(_, number)
        | Instruction::Jump(_, number) => number,
        _ => 0,
    }
}

// The word of an instruction that stands for a node.
pub fn encode(instruction: Instruction, node: u16) -> u64
    ensures value { result ≡ word_of instruction node }
    ensures again { ReadAgain instruction node result }
{
    (u64::from(op_for(instruction)) << 56)
        + (u64::from(aux_for(instruction)) << 48)
        + (u64::from(node) << 32)
        + u64::from(operand_for(instruction))
}
