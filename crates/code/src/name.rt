// The names of instructions.
ghost use Rattle.std.specs.Prelude.{Some};
ghost use Rattle.code.specs.Names.{jump_name, instruction_name};

use crate::instruction::{Instruction, Jump};
use std::fmt;

impl fmt::Display for Jump {
    ghost output = { λ jump. Some (jump_name jump) };

    fn fmt<W: fmt::Write>(&self, f: &mut fmt::Formatter<W>) -> fmt::Result {
        f.write_str(match self {
            Jump::Else => "else",
            Jump::Loop => "loop",
            Jump::Break => "break",
            Jump::Continue => "continue",
        })
    }
}

impl fmt::Display for Instruction {
    ghost output = { λ instruction. Some (instruction_name instruction) };

    fn fmt<W: fmt::Write>(&self, f: &mut fmt::Formatter<W>) -> fmt::Result {
        let name = match self {
            Instruction::Constant(_, _) => "constant",
            Instruction::Variable(_, _) => "variable",
            Instruction::Minus => "minus",
            Instruction::ByteNot => "bytenot",
            Instruction::Binary(_, _) => "binary",
            Instruction::Call(_) => "call",
            Instruction::Shrink => "shrink",
            Instruction::Read(_) => "read",
            Instruction::Compare(_, _, _, _) => "compare",
            Instruction::Holds(_, _) => "holds",
            Instruction::Assign(_, _) => "assign",
            Instruction::Perform(_) => "perform",
            Instruction::Jump(jump, _) => return jump.fmt(f),
            Instruction::Exit => "exit",
            Instruction::Return => "return",
            Instruction::Close => "close",
            Instruction::Write(_) => "write",
        };
        f.write_str(name)
    }
}
