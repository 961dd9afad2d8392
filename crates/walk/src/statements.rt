// The walk over statements and blocks.
ghost use Rattle.std.specs.Prelude.{◌≡◌, ◌+◌, ◌<◌};
ghost use Rattle.walk.specs.Names.{names};
ghost use Rattle.walk.specs.Reads.{act_walk, block_walk, act_shaped, SizeSpans, BlockSpans};
ghost use Rattle.walk.specs.Walk.{size, leaves, exits};
ghost use Rattle.table.specs.declared.shape.Statement.TheVariants.{Loop as Repeat};

use crate::fault::CheckFault;
use crate::found::{Body, Size};
use crate::loops::{LoopGuard, Loops};
use crate::measure::side_by_side;
use crate::operators::format_kind;
use table::{Kind, Statement};

// A statement of one word and nothing below it.
fn one_word() -> Size
    ensures { result ≡ size 0 1 }
{
    Size {
        words: 1,
        ..Size::default()
    }
}

// A break or continue names an open loop.
fn leave_loop(loops: &Loops, name: u16, at: usize) -> Result<(Size, usize), CheckFault>
    requires { at < 8192 }
    ensures { result ≡ leaves (names loops.now) name at }
{
    if loops.is_open(name) {
        Ok((one_word(), at + 1))
    } else {
        Err(CheckFault::Loop(at))
    }
}

// An exit stands in a function without result.
fn exit_from(res: Option<Kind>, at: usize) -> Result<(Size, usize), CheckFault>
    requires { at < 8192 }
    ensures { result ≡ exits res at }
{
    match res {
        None => Ok((one_word(), at + 1)),
        Some(_) => Err(CheckFault::Exit(at)),
    }
}

// That the open loops are the same behind a walk is said by each of the four, in one equation: a type would say no more.
impl Body<'_> {
    // The statement at `at` among the open loops: its height and words, and the next node's place.
    #[cycle(block_repeat_statement_statement_of)]
    fn statement(&self, at: usize, left: u8, loops: &mut Loops) -> Result<(Size, usize), CheckFault>
        ensures is { result ≡ act_walk self.now left (names loops.old) at }
        ensures kept { names loops.new ≡ names loops.old }
        ensures bound { SizeSpans self.now at result }
    {
        let shape = self.arrive_as(at, left)?;
        self.statement_of(shape, at, left - 1, loops)
    }

    // The statement of that shape at `at`, with `left` levels of nesting left for its children.
    #[cycle(block_repeat_statement_statement_of)]
    fn statement_of(
        &self,
        shape: Statement,
        at: usize,
        left: u8,
        loops: &mut Loops,
    ) -> Result<(Size, usize), CheckFault>
        requires { at < self.now.table.now.nodes }
        ensures is { result ≡ act_shaped self.now left (names loops.old) at shape }
        ensures kept { names loops.new ≡ names loops.old }
        ensures bound { SizeSpans self.now at result }
    {
        match shape {
            Statement::Skip => Ok((Size::default(), at + 1)),
            Statement::Assign(scope, slot) => {
                let kind = self.context.kind_at(scope, slot, at)?;
                self.one_value(kind, at, left)
            }
            Statement::Perform(f) => self.perform(f, at, left),
            Statement::If => {
                let (test, middle) = self.condition(at + 1, left)?;
                let (body, next) = self.block(middle, left, loops)?;
                Ok((side_by_side(test, body), next))
            }
            Statement::IfElse => {
                let (test, middle) = self.condition(at + 1, left)?;
                let (body, behind) = self.block(middle, left, loops)?;
                let (other, next) = self.block(behind, left, loops)?;
                let size = side_by_side(test, side_by_side(body, other));
                Ok((size.and_word(), next))
            }
            Statement::Loop(name) => self.repeat(name, at, left, loops),
            Statement::Break(name) | Statement::Continue(name) => leave_loop(loops, name, at),
            Statement::Exit => exit_from(self.context.own.result, at),
            Statement::Return => {
                let kind = self.context.own.result.ok_or(CheckFault::Exit(at))?;
                self.one_value(kind, at, left)
            }
            Statement::Write(format) => self.one_value(format_kind(format), at, left),
        }
    }

    // A loop: its name is open for its block alone.
    #[cycle(block_repeat_statement_statement_of)]
    fn repeat(
        &self,
        name: u16,
        at: usize,
        left: u8,
        loops: &mut Loops,
    ) -> Result<(Size, usize), CheckFault>
        requires { at < self.now.table.now.nodes }
        ensures is { result ≡ act_shaped self.now left (names loops.old) at (Repeat name) }
        ensures kept { names loops.new ≡ names loops.old }
        ensures bound { SizeSpans self.now at result }
    {
        if loops.open_count() >= 16 {
            return Err(CheckFault::Loop(at));
        }
        loops.push(name);
        let guard = LoopGuard { held: loops };
        let (body, next) = self.block(at + 1, left, guard.held)?;
        Ok((body.and_word(), next))
    }

    // The block at `at` among the open loops: its height and words, and the next node's place.
    #[cycle(block_repeat_statement_statement_of)]
    #[tactic(auto, using(crate::proofs::Steps::block_after, crate::proofs::Steps::items_step))]
    pub(crate) fn block(
        &self,
        at: usize,
        left: u8,
        loops: &mut Loops,
    ) -> Result<(Size, usize), CheckFault>
        ensures is { result ≡ block_walk self.now left (names loops.old) at }
        ensures kept { names loops.new ≡ names loops.old }
        ensures bound { BlockSpans self.now at result }
    {
        let count: u16 = self.arrive_as(at, left)?;
        let mut size = Size::default();
        let mut next = at + 1;
        for _i in 0..count {
            let (statement, after) = self.statement(next, left - 1, loops)?;
            size = side_by_side(size, statement);
            next = after;
        }
        Ok((size, next))
    }
}
