// The words of a condition: they jump to a target when it holds, or when it fails, and else go on behind.
ghost use Rattle.std.specs.Prelude.{◌≡◌, ◌+◌, true, false, Some, None};
ghost use Rattle.table.specs.declared.shape.Condition.TheVariants.{Compare, Holds};
ghost use Rattle.language.specs.Measures.{words_c};
ghost use Rattle.translate.specs.Code.{decides, left_target, code_c};
ghost use Rattle.translate.specs.Source.{cond_in, cond_shaped, IsThere};
ghost use Rattle.translate.specs.Written.{HasRoom, Writes};

use crate::arrive::test_at;
use crate::size::test_size;
use crate::value::{operands, value};
use crate::write::Writer;
use code::Instruction;
use table::{Comparison, Condition, Format, Junction};
use walk::Body;

// The address behind the condition at a node, whose words are to be written next.
fn behind(body: &Body, at: u16, left: u8, out: &Writer) -> u32
    requires { HasRoom out.now (words_c (cond_in body.now left at).0) }
    ensures { result ≡ out.now.here + words_c (cond_in body.now left at).0 }
{
    let (words, _) = test_size(body, at, left);
    (out.here() + words) as u32
}

// Where the left side of the junction at a node jumps when it decides: to the target if that is the sense asked for,
// else behind the junction, whose words are to be written next.
fn left_target(
    body: &Body,
    at: u16,
    left: u8,
    junction: Junction,
    sense: bool,
    target: u32,
    out: &Writer,
) -> u32
    requires { HasRoom out.now (words_c (cond_in body.now left at).0) }
    ensures { result ≡ left_target junction sense target (out.now.here + words_c (cond_in body.now left at).0) }
{
    match (junction, sense) {
        (Junction::And, false) | (Junction::Or, true) => target,
        (Junction::And, true) | (Junction::Or, false) => behind(body, at, left, out),
    }
}

// Writes the words of a comparison at a node, which jump to the target when it comes to that sense: the next node's
// place. Sense and target are not one value: each of the two translators has its sense and is given the target alone.
fn compare(
    body: &Body,
    at: u16,
    left: u8,
    comparison: Comparison,
    sense: bool,
    target: u32,
    out: &mut Writer,
) -> u16
    requires there { IsThere body.now left at }
    requires room { HasRoom out.old (words_c (cond_shaped body.now left at (Some (Compare comparison))).0) }
    ensures is { let c = (cond_shaped body.now left at (Some (Compare comparison))).0 in Writes out.old out.new (words_c c) (code_c c sense target out.old.here) }
    ensures next { result ≡ (cond_shaped body.now left at (Some (Compare comparison))).1 }
{
    let (kind, next) = operands(body, at + 1, left - 1, out);
    out.put(Instruction::Compare(comparison, kind, sense, target), at);
    next
}

// The same for a byte as condition.
fn holds(body: &Body, at: u16, left: u8, sense: bool, target: u32, out: &mut Writer) -> u16
    requires there { IsThere body.now left at }
    requires room { HasRoom out.old (words_c (cond_shaped body.now left at (Some Holds)).0) }
    ensures is { let c = (cond_shaped body.now left at (Some Holds)).0 in Writes out.old out.new (words_c c) (code_c c sense target out.old.here) }
    ensures next { result ≡ (cond_shaped body.now left at (Some Holds)).1 }
{
    let (_, next) = value(body, at + 1, left - 1, out);
    out.put(Instruction::Holds(sense, target), at);
    next
}

// The same where no condition stands, as if a byte were read.
fn stray(body: &Body, at: u16, left: u8, sense: bool, target: u32, out: &mut Writer) -> u16
    requires { HasRoom out.old 2 }
    ensures is { let c = (cond_shaped body.now left at None).0 in Writes out.old out.new (words_c c) (code_c c sense target out.old.here) }
    ensures next { result ≡ (cond_shaped body.now left at None).1 }
{
    out.put(Instruction::Read(Format::Char), at);
    out.put(Instruction::Holds(sense, target), at);
    at
}

// Writes the words that jump to the target when the condition at a node holds: the next node's place. For each sense
// there is a translator, a rule of the project: `not` has no word, there one calls the other.
#[cycle(jump_if_false_jump_if_true_left_side)]
pub(crate) fn jump_if_true(body: &Body, at: u16, left: u8, target: u32, out: &mut Writer) -> u16
    requires { HasRoom out.old (words_c (cond_in body.now left at).0) }
    ensures is { let c = (cond_in body.now left at).0 in Writes out.old out.new (words_c c) (code_c c true target out.old.here) }
    ensures next { result ≡ (cond_in body.now left at).1 }
{
    match test_at(body, at, left) {
        Some(Condition::Compare(comparison)) => compare(
            body, at, left, comparison, true, target, out,
        ),
        Some(Condition::Join(junction)) => {
            let first = left_target(body, at, left, junction, true, target, out);
            let second = left_side(body, at + 1, left - 1, junction, first, out);
            jump_if_true(body, second, left - 1, target, out)
        }
        Some(Condition::Not) => jump_if_false(body, at + 1, left - 1, target, out),
        Some(Condition::Holds) => holds(body, at, left, true, target, out),
        None => stray(body, at, left, true, target, out),
    }
}

// The same for a jump when it fails.
#[cycle(jump_if_false_jump_if_true_left_side)]
pub(crate) fn jump_if_false(body: &Body, at: u16, left: u8, target: u32, out: &mut Writer) -> u16
    requires { HasRoom out.old (words_c (cond_in body.now left at).0) }
    ensures is { let c = (cond_in body.now left at).0 in Writes out.old out.new (words_c c) (code_c c false target out.old.here) }
    ensures next { result ≡ (cond_in body.now left at).1 }
{
    match test_at(body, at, left) {
        Some(Condition::Compare(comparison)) => compare(
            body, at, left, comparison, false, target, out,
        ),
        Some(Condition::Join(junction)) => {
            let first = left_target(body, at, left, junction, false, target, out);
            let second = left_side(body, at + 1, left - 1, junction, first, out);
            jump_if_false(body, second, left - 1, target, out)
        }
        Some(Condition::Not) => jump_if_true(body, at + 1, left - 1, target, out),
        Some(Condition::Holds) => holds(body, at, left, false, target, out),
        None => stray(body, at, left, false, target, out),
    }
}

// The same for the left side of a junction: a jump when it decides alone, `and` when it fails, `or` when it holds.
#[cycle(jump_if_false_jump_if_true_left_side)]
fn left_side(
    body: &Body,
    at: u16,
    left: u8,
    junction: Junction,
    target: u32,
    out: &mut Writer,
) -> u16
    requires { HasRoom out.old (words_c (cond_in body.now left at).0) }
    ensures is { let c = (cond_in body.now left at).0 in Writes out.old out.new (words_c c) (code_c c (decides junction) target out.old.here) }
    ensures next { result ≡ (cond_in body.now left at).1 }
{
    match junction {
        Junction::And => jump_if_false(body, at, left, target, out),
        Junction::Or => jump_if_true(body, at, left, target, out),
    }
}
