// The walk over expressions.
ghost use Rattle.std.specs.Prelude.{◌≡◌, ◌+◌, ◌<◌, ◌≤◌, IfOk};
ghost use Rattle.language.specs.Rules.{parameter_kinds};
ghost use Rattle.walk.specs.Bodies.{signature_of};
ghost use Rattle.walk.specs.Reads.{env, value_walk, FoundSpans};
ghost use Rattle.walk.specs.Walk.{expr_at, args_from, no_arguments, needed};

use crate::fault::CheckFault;
use crate::found::{Body, Found, Size};
use crate::measure::{add_argument, leaf, operation_on_one, operation_on_two, value_of_call};
use crate::operators::format_kind;
use table::{Expression, Function};

impl Body<'_> {
    // The expression at `at`: its kind, height and words, and the next node's place.
    #[cycle(arguments_expression_expression_of)]
    pub(crate) fn expression(&self, at: usize, left: u8) -> Result<(Found, usize), CheckFault>
        ensures is { result ≡ value_walk self.now left at }
        ensures bound { FoundSpans self.now at result }
    {
        let shape = self.arrive_as(at, left)?;
        self.expression_of(shape, at, left - 1)
    }

    // The expression of that shape at `at`, with `left` levels of nesting left for its children.
    #[cycle(arguments_expression_expression_of)]
    fn expression_of(
        &self,
        shape: Expression,
        at: usize,
        left: u8,
    ) -> Result<(Found, usize), CheckFault>
        requires { at < self.now.table.now.nodes }
        ensures is { result ≡ expr_at (env self.now) (value_walk self.now left) at shape }
        ensures bound { FoundSpans self.now at result }
    {
        match shape {
            Expression::Constant(kind, _) => Ok((leaf(kind), at + 1)),
            Expression::Variable(scope, slot) => {
                let kind = self.context.kind_at(scope, slot, at)?;
                Ok((leaf(kind), at + 1))
            }
            Expression::Unary(operator) => {
                let (a, next) = self.expression(at + 1, left)?;
                operation_on_one(operator, a, next, at)
            }
            Expression::Binary(operator) => {
                let (a, middle) = self.expression(at + 1, left)?;
                let (b, next) = self.expression(middle, left)?;
                operation_on_two(operator, a, b, next, at)
            }
            Expression::Call(f) => {
                let callee = self.called_at(f, at)?;
                let kind = callee.result.ok_or(CheckFault::Function(at))?;
                let (taken, next) = self.arguments(&callee, at + 1, left)?;
                value_of_call(kind, taken, next, at)
            }
            Expression::Read(format) => Ok((leaf(format_kind(format)), at + 1)),
        }
    }

    // The arguments of a call from `at` on: their size, or none if one does not have its parameter's kind, and the next
    // node's place.
    #[cycle(arguments_expression_expression_of)]
    pub(crate) fn arguments(
        &self,
        callee: &Function,
        at: usize,
        left: u8,
    ) -> Result<(Option<Size>, usize), CheckFault>
        ensures is { result ≡ args_from (value_walk self.now left) (parameter_kinds (signature_of callee.now)) 0 no_arguments at }
        ensures bound { IfOk result (λ p. (at ≤ p.1) × ((needed p.0).height + at ≤ p.1) × ((needed p.0).words + at ≤ p.1) × (at ≤ self.now.table.now.nodes → p.1 ≤ self.now.table.now.nodes)) }
    {
        let mut taken = Some(Size::default());
        let mut next = at;
        for i in 0..u16::from(callee.parameters) {
            let Some(kind) = callee.variable(i) else {
                break;
            };
            let (argument, after) = self.expression(next, left)?;
            taken = add_argument(taken, i, kind, argument);
            next = after;
        }
        Ok((taken, next))
    }
}
