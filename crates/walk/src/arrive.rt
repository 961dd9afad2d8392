// Arrival at a node: the rules that come before its children.
ghost use Rattle.std.specs.Prelude.{◌≡◌, ◌<◌, OnOk};
ghost use Rattle.walk.specs.Reads.{seen};
ghost use Rattle.walk.specs.Walk.{arrived, TakenFor};

use crate::fault::CheckFault;
use crate::found::Body;
use table::{Shape, WrongSort};

impl Body<'_> {
    // The node at `at`, with `left` levels of nesting left for it and below it.
    pub(crate) fn arrive(&self, at: usize, left: u8) -> Result<Shape, CheckFault>
        ensures is { result ≡ arrived (seen self.now) left at }
        ensures within { OnOk result ((at < self.now.table.now.nodes) × (0 < left)) }
    {
        let Some(node) = self.table.node(at) else {
            return Err(CheckFault::NoNode(at));
        };
        if left == 0 {
            return Err(CheckFault::Nesting(at));
        }
        node.shape().ok_or(CheckFault::Field(at))
    }

    // The same for a node of the sort that is asked for, as a type.
    pub(crate) fn arrive_as<S: TryFrom<Shape, Error = WrongSort>>(
        &self,
        at: usize,
        left: u8,
    ) -> Result<S, CheckFault>
        ensures is { TakenFor S.try_from_gives at (arrived (seen self.now) left at) result }
        ensures within { OnOk result ((at < self.now.table.now.nodes) × (0 < left)) }
    {
        match S::try_from(self.arrive(at, left)?) {
            Ok(found) => Ok(found),
            Err(_) => Err(CheckFault::Sort(at)),
        }
    }
}
