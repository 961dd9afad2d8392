// The walk over conditions.
ghost use Rattle.std.specs.Prelude.{◌≡◌, ◌<◌};
ghost use Rattle.walk.specs.Reads.{value_walk, test_walk, SizeSpans};
ghost use Rattle.walk.specs.Walk.{cond_at};

use crate::fault::CheckFault;
use crate::found::{Body, Size};
use crate::measure::side_by_side;
use table::{Condition, Kind};

impl Body<'_> {
    // The condition at `at`: its height and words, and the next node's place.
    #[cycle(condition_condition_of)]
    #[tactic(auto, using(crate::proofs::Steps::cond_after))]
    pub(crate) fn condition(&self, at: usize, left: u8) -> Result<(Size, usize), CheckFault>
        ensures is { result ≡ test_walk self.now left at }
        ensures bound { SizeSpans self.now at result }
    {
        let shape = self.arrive_as(at, left)?;
        self.condition_of(shape, at, left - 1)
    }

    // The condition of that shape at `at`, with `left` levels of nesting left for its children.
    #[cycle(condition_condition_of)]
    fn condition_of(
        &self,
        shape: Condition,
        at: usize,
        left: u8,
    ) -> Result<(Size, usize), CheckFault>
        requires { at < self.now.table.now.nodes }
        ensures is { result ≡ cond_at (value_walk self.now left) (test_walk self.now left) at shape }
        ensures bound { SizeSpans self.now at result }
    {
        match shape {
            Condition::Compare(_) => self.compare(at, left),
            Condition::Not => self.condition(at + 1, left),
            Condition::Join(_) => {
                let (a, middle) = self.condition(at + 1, left)?;
                let (b, next) = self.condition(middle, left)?;
                Ok((side_by_side(a, b), next))
            }
            Condition::Holds => self.one_value(Kind::Byte, at, left),
        }
    }
}
