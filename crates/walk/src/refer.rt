// What a node may refer to: variables and functions.
ghost use Rattle.std.specs.Prelude.{◌≡◌};
ghost use Rattle.std.specs.Option.{ok_or};
ghost use Rattle.table.specs.Flow.{mapped, passing};
ghost use Rattle.language.specs.Rules.{slot_kind, called};
ghost use Rattle.walk.specs.Bodies.{signature_of, signature_in};
ghost use Rattle.walk.specs.Reads.{seen};
ghost use Rattle.walk.specs.Walk.{called_at};
ghost use Rattle.walk.specs.declared.fault.CheckFault.TheVariants.{Variable};

use crate::fault::CheckFault;
use crate::found::{Body, Context};
use table::{Function, Kind, Scope};

impl Context {
    // The kind of a variable, or none if there is no such variable.
    pub fn variable_kind(&self, scope: Scope, slot: u16) -> Option<Kind>
        ensures { result ≡ slot_kind (signature_of self.now.own) (mapped signature_of self.now.main) scope slot }
    {
        match scope {
            Scope::Own => self.own.variable(slot),
            Scope::Main => self.main?.variable(slot),
        }
    }

    // The same for the node at `at`, which is refused if there is no such variable.
    pub(crate) fn kind_at(&self, scope: Scope, slot: u16, at: usize) -> Result<Kind, CheckFault>
        ensures { result ≡ ok_or (slot_kind (signature_of self.now.own) (mapped signature_of self.now.main) scope slot) (Variable at) }
    {
        self.variable_kind(scope, slot)
            .ok_or(CheckFault::Variable(at))
    }
}

impl Body<'_> {
    // The function that a call names: one that is there, but not main.
    pub fn called(&self, f: u16) -> Option<Function>
        ensures { mapped signature_of result ≡ called (signature_in (seen self.now)) f }
    {
        if f == 0 {
            return None;
        }
        self.table.function(usize::from(f))
    }

    // The same for the call at `at`, which is refused if there is no such function. Inlined, since the walk of a call wants
    // the record's fields, which are put together for a call of this function and taken apart behind it.
    #[inline(always)]
    pub(crate) fn called_at(&self, f: u16, at: usize) -> Result<Function, CheckFault>
        ensures { passing signature_of result ≡ called_at (signature_in (seen self.now)) f at }
    {
        self.called(f).ok_or(CheckFault::Function(at))
    }
}
