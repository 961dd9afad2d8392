// One step over a line. Nothing else in this crate touches a line.
ghost use Rattle.std.specs.Prelude.{◌≡◌, pos, slice_index_or};
ghost use Rattle.machine.specs.View.{resting, view};
ghost use Rattle.machine.specs.States.{main_variables};
ghost use Rattle.machine.specs.Steps.{world, latch_of, outcome_of, stepped, StepLaws, Held};

use crate::message::{compose, find};
use crate::plan::{Cause, Latch, Outcome, Plan, Site};
use crate::state::{Activation, Core, Machine};
use line::{Line, peek, send_text};
use number::Reading;

impl Machine {
    // A machine that has not started.
    pub fn new() -> Machine
        ensures rests { view result.core ≡ resting }
        ensures runs { result.latch ≡ Latch.Open }
    {
        let blank = Activation {
            cells: [0; 64],
            variables: 0,
            count: 0,
            gives: false,
            back: 0,
        };
        Machine {
            core: Core {
                activations: [blank; 32],
                depth: 0,
                at: 0,
            },
            latch: Latch::Open,
        }
    }

    // The value of a variable of main; 0 for any other slot.
    pub fn main_variable(&self, slot: usize) -> i16
        ensures { result ≡ slice_index_or (main_variables (view self.now.core).acts) slot (pos 0) }
    {
        if self.core.depth == 0 {
            return 0;
        }
        self.core.activations[0].variable(slot).unwrap_or(0)
    }

    // Keeps an end or a fault.
    fn settle(&mut self, plan: Plan) -> Outcome
        requires { self.old.latch ≡ Latch.Open }
        ensures core { self.new.core ≡ self.old.core }
        ensures latch { self.new.latch ≡ latch_of plan }
        ensures outcome { result ≡ outcome_of plan }
    {
        match plan {
            Plan::Over => {
                self.latch = Latch::Ended;
                Outcome::Ended
            }
            Plan::Fault(cause, node) => {
                self.latch = Latch::Failed(cause, node);
                Outcome::Failed(cause, node)
            }
            _ => Outcome::Went,
        }
    }

    // One step: planned, then performed on the line. After an end or a fault it is only repeated; a wait changes
    // nothing, so where the first step waits, main is closed again.
    pub fn step<L: Line>(&mut self, code: &[u64], line: &mut L) -> Outcome
        ensures steps { (world (view self.new.core) self.new.latch (L.Line.waiting line.new) (L.Line.sent line.new) (L.Line.room line.new), result)
            ≡ stepped code.now (world (view self.old.core) self.old.latch (L.Line.waiting line.old) (L.Line.sent line.old) (L.Line.room line.old)) }
        ensures laws { StepLaws code.now (world (view self.old.core) self.old.latch (L.Line.waiting line.old) (L.Line.sent line.old) (L.Line.room line.old))
            (world (view self.new.core) self.new.latch (L.Line.waiting line.new) (L.Line.sent line.new) (L.Line.room line.new), result) }
        ensures hold { Held (L.Line.hold line.old) (L.Line.hold line.new) (L.Line.waiting line.old) (L.Line.waiting line.new) }
    {
        match self.latch {
            Latch::Ended => return Outcome::Ended,
            Latch::Failed(cause, node) => return Outcome::Failed(cause, node),
            Latch::Open => {}
        }
        let opened_at = (self.core.depth == 0).then_some(self.core.at);
        match self.core.advance(code) {
            // what `settle` answers too, said here since most steps come to it
            Plan::Went => Outcome::Went,
            Plan::Read(format, node, next) => match find(format, peek(line).as_bytes()) {
                Reading::Wait => {
                    self.core.undo(opened_at);
                    Outcome::Waits
                }
                Reading::Refused => self.settle(Plan::Fault(Cause::RefusedText, node)),
                Reading::Took { value, count } => {
                    let _ = line.take(count);
                    let plan = self.core.receive(value, Site { node, next });
                    self.settle(plan)
                }
            },
            Plan::Send(format, value, node, next) => {
                if send_text(line, compose(format, value).as_bytes()) {
                    let plan = self.core.release(Site { node, next });
                    self.settle(plan)
                } else {
                    self.settle(Plan::Fault(Cause::NoRoom, node))
                }
            }
            plan => self.settle(plan),
        }
    }
}
