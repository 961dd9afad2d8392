// The bodies of a table's functions, in order.
ghost use Rattle.std.specs.Prelude.{◌≡◌, ◌+◌, ◌<◌, ◌≤◌, IfOk};
ghost use Rattle.table.specs.View.{view};
ghost use Rattle.walk.specs.Bodies.{context_at, body_from, function_from, bodies_from};
ghost use Rattle.walk.specs.Reads.{seen, env, BlockSpans};

use crate::fault::CheckFault;
use crate::found::{Body, Context, Size};
use crate::loops::Loops;
use table::{Table, TableFault};

// The records that the nodes of function f may refer to as their own and as main's.
fn context(t: &Table, f: usize) -> Result<Context, CheckFault>
    ensures { result ≡ context_at (view t.now) f }
{
    let own = t.function(f).ok_or(TableFault::Record(f))?;
    let main = if f == 0 { None } else { t.function(0) };
    Ok(Context { own, main })
}

impl Body<'_> {
    // The whole body at `at`: a block with all 128 levels left and no loop open.
    fn size(&self, at: usize) -> Result<(Size, usize), CheckFault>
        ensures is { result ≡ body_from (seen self.now) (env self.now) at }
        ensures bound { BlockSpans self.now at result }
    {
        let mut loops = Loops::new();
        self.block(at, 128, &mut loops)
    }
}

// Function f's body at node `at`, with the words before it: the words with it, and the next node's place.
fn function_body(t: &Table, f: usize, words: usize, at: usize) -> Result<(usize, usize), CheckFault>
    requires { words ≤ 32 + at }
    ensures is { result ≡ function_from (view t.now) f words at }
    ensures bound { IfOk result (λ p. (p.0 ≤ 32 + p.1) × (p.1 ≤ t.now.nodes)) }
{
    let body = Body {
        table: &*t,
        context: context(t, f)?,
    };
    let (size, next) = body.size(at)?;
    if usize::from(body.context.own.variables) + usize::from(size.height) > 64 {
        return Err(CheckFault::Height(at));
    }
    Ok((words + usize::from(size.words) + 1, next))
}

// All bodies: the words of the whole translation, and the place behind the last node.
#[tactic(auto, using(crate::proofs::Steps::bodies_step))]
pub(crate) fn bodies(t: &Table) -> Result<(usize, usize), CheckFault>
    ensures { result ≡ bodies_from (view t.now) t.now.functions 0 t.now.functions 0 }
{
    let mut words = t.functions;
    let mut next = 0;
    for f in 0..t.functions {
        (words, next) = function_body(t, f, words, next)?;
    }
    Ok((words, next))
}
