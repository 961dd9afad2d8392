// What a call refers to.
ghost use Rattle.std.specs.Prelude.{◌≡◌};
ghost use Rattle.table.specs.View.{view};
ghost use Rattle.language.specs.Reader.{result_or, kinds_or};
ghost use Rattle.language.specs.Rules.{called};
ghost use Rattle.walk.specs.Bodies.{signature_in};
ghost use Rattle.translate.specs.Source.{Counts};

use table::Kind;
use walk::Body;

// The kind of a function's result; int if it has none.
pub(crate) fn result_kind(body: &Body, f: u16) -> Kind
    ensures { result ≡ result_or (called (signature_in (view body.now.table.now)) f) }
{
    body.called(f)
        .and_then(|function| function.result)
        .unwrap_or(Kind::Int)
}

// How many arguments a call of a function has.
pub(crate) fn argument_count(body: &Body, f: u16) -> u8
    ensures { Counts (kinds_or (called (signature_in (view body.now.table.now)) f)) result }
{
    body.called(f)
        .map_or(0, |function| function.parameters.min(function.variables))
}
