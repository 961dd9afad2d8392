// What instructions do that concern one activation alone.
ghost use Rattle.std.specs.Prelude.{◌≡◌, ◌-◌, ◌≤◌, ◌++◌, length, drop, replicate, reverse, pos, nat_lt, slice_set};
ghost use Rattle.machine.specs.View.{seen};
ghost use Rattle.machine.specs.Acts.{pushed, taken_off, loaded, stored, dropped, changed, joined, branched, tested, act_by, size, first, last_two, with_ops, with_vars};
ghost use Rattle.machine.specs.States.{args, variable_at};

use crate::operate::{apply_binary, apply_unary, compare, jump_if};
use crate::plan::Cause;
use crate::state::Activation;
use code::Instruction;
use number::{Int, fold, is_true};
use table::{Binary, Comparison, Kind, Scope, Unary};

impl Activation {
    // The variables, from slot 0 on.
    fn slots(&self) -> &[i16]
        ensures { result.now ≡ (seen self.now).vars }
    {
        &self.cells[..self.variables]
    }

    // The operands, in the order in which they were pushed.
    pub fn operands(&self) -> &[i16]
        ensures are { result.now ≡ reverse (seen self.now).ops }
        ensures counted { length result.now ≡ self.now.count - self.now.variables }
    {
        &self.cells[self.variables..self.count]
    }

    // The value of a variable, if there is such a slot.
    pub fn variable(&self, slot: usize) -> Option<i16>
        ensures { result ≡ variable_at (seen self.now).vars slot }
    {
        self.slots().get(slot).copied()
    }

    // Whether there is such a slot.
    pub fn has(&self, slot: usize) -> bool
        ensures { result ≡ nat_lt slot (length (seen self.now).vars) }
    {
        slot < self.slots().len()
    }

    // A variable is given a value, if there is such a slot.
    pub fn assign(&mut self, slot: usize, value: i16)
        ensures { seen self.new ≡ with_vars (seen self.old) (slice_set (seen self.old).vars slot value) }
    {
        if slot < self.variables {
            self.cells[slot] = value;
        }
    }

    // Whether a cell is free.
    pub fn free(&self) -> bool
        ensures { result ≡ nat_lt (size (seen self.now)) 64 }
    {
        self.count < 64
    }

    // The last operand.
    pub fn last(&self) -> Option<i16>
        ensures { result ≡ first (seen self.now).ops }
    {
        self.operands().last().copied()
    }

    // The last two operands.
    fn last_two(&self) -> Option<(i16, i16)>
        ensures { result ≡ last_two (seen self.now).ops }
    {
        match self.operands() {
            [.., x, y] => Some((*x, *y)),
            _ => None,
        }
    }

    // The cells of a function that is called with the upper operands, given of them.
    pub(crate) fn arguments(&self, given: usize) -> [i16; 64]
        requires { given ≤ self.now.count - self.now.variables }
        ensures { result ≡ args given (seen self.now).ops ++ replicate (64 - given) (pos 0) }
    {
        let operands = self.operands();
        let mut cells = [0; 64];
        cells[..given].copy_from_slice(&operands[operands.len() - given..]);
        cells
    }

    // The upper operands go, given of them.
    pub(crate) fn release(&mut self, given: usize)
        requires { given ≤ self.old.count - self.old.variables }
        ensures { seen self.new ≡ with_ops (seen self.old) (drop given (seen self.old).ops) }
    {
        self.count -= given;
    }
}

impl Activation {
    pub fn push(&mut self, value: i16) -> Result<Option<u32>, Cause>
        ensures { (seen self.new, result) ≡ pushed value (seen self.old) }
    {
        if self.count >= 64 {
            return Err(Cause::BadCode);
        }
        self.cells[self.count] = value;
        self.count += 1;
        Ok(None)
    }

    // The last operand, taken off.
    fn pop(&mut self) -> Result<i16, Cause>
        ensures { (seen self.new, result) ≡ taken_off (seen self.old) }
    {
        let value = self.last().ok_or(Cause::BadCode)?;
        self.release(1);
        Ok(value)
    }

    fn load(&mut self, slot: usize) -> Result<Option<u32>, Cause>
        ensures { (seen self.new, result) ≡ loaded slot (seen self.old) }
    {
        let value = self.variable(slot).ok_or(Cause::BadCode)?;
        self.push(value)
    }

    fn store(&mut self, slot: usize) -> Result<Option<u32>, Cause>
        ensures { (seen self.new, result) ≡ stored slot (seen self.old) }
    {
        if !self.has(slot) {
            return Err(Cause::BadCode);
        }
        let value = self.pop()?;
        self.assign(slot, value);
        Ok(None)
    }

    pub fn discard(&mut self) -> Result<Option<u32>, Cause>
        ensures { (seen self.new, result) ≡ dropped (seen self.old) }
    {
        self.pop()?;
        Ok(None)
    }

    fn change(&mut self, operator: Unary) -> Result<Option<u32>, Cause>
        ensures { (seen self.new, result) ≡ changed operator (seen self.old) }
    {
        let value = self.pop()?;
        self.push(apply_unary(operator, value))
    }

    // A zero divisor leaves the operands as they are.
    fn join(&mut self, operator: Binary, kind: Kind) -> Result<Option<u32>, Cause>
        ensures { (seen self.new, result) ≡ joined operator kind (seen self.old) }
    {
        let (x, y) = self.last_two().ok_or(Cause::BadCode)?;
        let value = apply_binary(operator, kind, x, y).ok_or(Cause::ZeroDivisor)?;
        self.release(2);
        self.push(value)
    }

    fn branch(
        &mut self,
        comparison: Comparison,
        kind: Kind,
        sense: bool,
        target: u32,
    ) -> Result<Option<u32>, Cause>
        ensures { (seen self.new, result) ≡ branched comparison kind sense target (seen self.old) }
    {
        let (x, y) = self.last_two().ok_or(Cause::BadCode)?;
        self.release(2);
        Ok(jump_if(sense, target, compare(comparison, kind, x, y)))
    }

    fn test(&mut self, sense: bool, target: u32) -> Result<Option<u32>, Cause>
        ensures { (seen self.new, result) ≡ tested sense target (seen self.old) }
    {
        let value = self.pop()?;
        Ok(jump_if(sense, target, is_true(value)))
    }

    // What an instruction does that concerns this activation alone.
    pub fn act(&mut self, instruction: Instruction) -> Result<Option<u32>, Cause>
        ensures { (seen self.new, result) ≡ act_by instruction (seen self.old) }
    {
        match instruction {
            Instruction::Constant(_, value) => self.push(fold::<Int>(i32::from(value))),
            Instruction::Variable(Scope::Own, slot) => self.load(slot as usize),
            Instruction::Assign(Scope::Own, slot) => self.store(slot as usize),
            Instruction::Minus => self.change(Unary::Minus),
            Instruction::ByteNot => self.change(Unary::ByteNot),
            Instruction::Shrink => self.change(Unary::Shrink),
            Instruction::Binary(operator, kind) => self.join(operator, kind),
            Instruction::Compare(comparison, kind, sense, target) => self.branch(
                comparison, kind, sense, target,
            ),
            Instruction::Holds(sense, target) => self.test(sense, target),
            Instruction::Jump(_, target) => Ok(Some(target)),
            _ => Err(Cause::BadCode),
        }
    }
}
