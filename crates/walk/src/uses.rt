// Nodes that are no expressions and have only expressions below them.
ghost use Rattle.std.specs.Prelude.{◌≡◌, ◌+◌, ◌<◌};
ghost use Rattle.table.specs.Flow.{onward};
ghost use Rattle.language.specs.Rules.{parameter_kinds};
ghost use Rattle.walk.specs.Bodies.{signature_in};
ghost use Rattle.walk.specs.Reads.{seen, value_walk, SizeSpans};
ghost use Rattle.walk.specs.Walk.{args_from, no_arguments, called_at, no_result, fitting, judged, same_kind, stacked, topped, size};

use crate::fault::CheckFault;
use crate::found::{Body, Size};
use crate::measure::{called_with, comparison, topped_value};
use table::Kind;

impl Body<'_> {
    // A value of the kind that the node at `at` asks for.
    pub(crate) fn one_value(
        &self,
        kind: Kind,
        at: usize,
        left: u8,
    ) -> Result<(Size, usize), CheckFault>
        requires { at < self.now.table.now.nodes }
        ensures is { result ≡ onward (value_walk self.now left (at + 1)) (λ p. judged at (same_kind kind p.0.kind) (topped p.0, p.1)) }
        ensures bound { SizeSpans self.now at result }
    {
        let (value, next) = self.expression(at + 1, left)?;
        topped_value(kind, value, next, at)
    }

    // Two values of one kind.
    pub(crate) fn compare(&self, at: usize, left: u8) -> Result<(Size, usize), CheckFault>
        requires { at < self.now.table.now.nodes }
        ensures is { result ≡ onward (value_walk self.now left (at + 1)) (λ p. onward (value_walk self.now left p.1) (λ q. judged at (same_kind p.0.kind q.0.kind) (stacked p.0 q.0, q.1))) }
        ensures bound { SizeSpans self.now at result }
    {
        let (a, middle) = self.expression(at + 1, left)?;
        let (b, next) = self.expression(middle, left)?;
        comparison(a, b, next, at)
    }

    // A call of a function without result.
    pub(crate) fn perform(&self, f: u16, at: usize, left: u8) -> Result<(Size, usize), CheckFault>
        requires { at < self.now.table.now.nodes }
        ensures is { result ≡ onward (called_at (signature_in (seen self.now)) f at) (λ g. onward (no_result at g.result) (λ _. onward (args_from (value_walk self.now left) (parameter_kinds g) 0 no_arguments (at + 1)) (λ q. onward (fitting at q.0) (λ s. Ok (size s.height (s.words + 1), q.1))))) }
        ensures bound { SizeSpans self.now at result }
    {
        let callee = self.called_at(f, at)?;
        if callee.result.is_some() {
            return Err(CheckFault::Function(at));
        }
        let (taken, next) = self.arguments(&callee, at + 1, left)?;
        called_with(taken, next, at)
    }
}
