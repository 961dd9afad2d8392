// The words of statements and blocks.
ghost use Rattle.std.specs.Prelude.{◌≡◌, ◌+◌, ◌-◌, ◌*◌, ◌≤◌, [], ◌∷◌, ◌++◌, length};
ghost use Rattle.language.specs.Measures.{words_e, words_c, words_s, words_b};
ghost use Rattle.code.specs.Word.{word_of};
ghost use Rattle.translate.specs.Aims.{aims};
ghost use Rattle.translate.specs.Code.{code_e, code_s, code_b};
ghost use Rattle.translate.specs.Source.{expr_in, cond_in, stmt_in, block_in, IsThere};
ghost use Rattle.translate.specs.Written.{HasRoom, Writes};

use crate::arrive::{act_at, count_at};
use crate::jump::jump_if_false;
use crate::refer::argument_count;
use crate::size::{act_size, block_size, test_size};
use crate::targets::{Target, Targets};
use crate::value::{arguments, value};
use crate::write::Writer;
use code::{Instruction, Jump};
use table::Statement;
use walk::Body;

// Writes the words of a statement that a node and the expression below it make: the expression's, and then the node's
// own. Answers the next node's place.
fn value_then(body: &Body, at: u16, left: u8, own: Instruction, out: &mut Writer) -> u16
    requires there { IsThere body.now left at }
    requires room { HasRoom out.old (words_e (expr_in body.now (left - 1) (at + 1)).0 + 1) }
    ensures is { let a = (expr_in body.now (left - 1) (at + 1)).0 in Writes out.old out.new (words_e a + 1) (code_e a ++ word_of own at ∷ []) }
    ensures next { result ≡ (expr_in body.now (left - 1) (at + 1)).1 }
{
    let (_, next) = value(body, at + 1, left - 1, out);
    out.put(own, at);
    next
}

// The address behind the statement at a node, whose words are to be written next. A condition has a function of its own
// (`jump.rt`): they count by other functions under other definitions, and one over both would be no plainer.
fn behind(body: &Body, at: u16, left: u8, out: &Writer) -> u32
    requires { HasRoom out.now (words_s (stmt_in body.now left at).0) }
    ensures { result ≡ out.now.here + words_s (stmt_in body.now left at).0 }
{
    let (words, _) = act_size(body, at, left);
    (out.here() + words) as u32
}

// The address of an if's second block. The condition is at a node, and its words are to be written next.
fn other_block(body: &Body, at: u16, left: u8, out: &Writer) -> u32
    requires { let c = cond_in body.now left at in HasRoom out.now (words_c c.0 + words_b (block_in body.now left c.1).0 + 1) }
    ensures { let c = cond_in body.now left at in result ≡ out.now.here + words_c c.0 + words_b (block_in body.now left c.1).0 + 1 }
{
    let (test, inner) = test_size(body, at, left);
    let (first, _) = block_size(body, inner, left);
    (out.here() + test + first + 1) as u32
}

// Writes the words of the statement at a node: the next node's place.
#[cycle(act_block)]
pub(crate) fn act(body: &Body, at: u16, left: u8, targets: &mut Targets, out: &mut Writer) -> u16
    requires room { HasRoom out.old (words_s (stmt_in body.now left at).0) }
    requires loops { 2 * length (aims targets.old) + left ≤ 127 }
    ensures is { let s = (stmt_in body.now left at).0 in Writes out.old out.new (words_s s) (code_s s (aims targets.old) out.old.here) }
    ensures next { result ≡ (stmt_in body.now left at).1 }
    ensures kept { aims targets.new ≡ aims targets.old }
{
    let Some(shape) = act_at(body, at, left) else {
        return at;
    };
    match shape {
        Statement::Skip => at + 1,
        Statement::Assign(scope, slot) => {
            let own = Instruction::Assign(scope, u32::from(slot));
            value_then(body, at, left, own, out)
        }
        Statement::Perform(f) => {
            let next = arguments(body, argument_count(body, f), at + 1, left - 1, out);
            out.put(Instruction::Perform(u32::from(f)), at);
            next
        }
        Statement::If => {
            let behind = behind(body, at, left, out);
            let inner = jump_if_false(body, at + 1, left - 1, behind, out);
            block(body, inner, left - 1, targets, out)
        }
        Statement::IfElse => {
            let other = other_block(body, at + 1, left - 1, out);
            let behind = behind(body, at, left, out);
            let first = jump_if_false(body, at + 1, left - 1, other, out);
            let second = block(body, first, left - 1, targets, out);
            out.put(Instruction::Jump(Jump::Else, behind), at);
            block(body, second, left - 1, targets, out)
        }
        Statement::Loop(name) => {
            let start = out.here() as u32;
            let end = behind(body, at, left, out);
            targets.open(Target { name, start, end });
            let next = block(body, at + 1, left - 1, targets, out);
            targets.close();
            out.put(Instruction::Jump(Jump::Loop, start), at);
            next
        }
        Statement::Break(name) => {
            let target = targets.find(name);
            out.put(Instruction::Jump(Jump::Break, target.end), at);
            at + 1
        }
        Statement::Continue(name) => {
            let target = targets.find(name);
            out.put(Instruction::Jump(Jump::Continue, target.start), at);
            at + 1
        }
        Statement::Exit => {
            out.put(Instruction::Exit, at);
            at + 1
        }
        Statement::Return => value_then(body, at, left, Instruction::Return, out),
        Statement::Write(format) => value_then(body, at, left, Instruction::Write(format), out),
    }
}

// The same for a block.
#[cycle(act_block)]
pub(crate) fn block(body: &Body, at: u16, left: u8, targets: &mut Targets, out: &mut Writer) -> u16
    requires room { HasRoom out.old (words_b (block_in body.now left at).0) }
    requires loops { 2 * length (aims targets.old) + left ≤ 128 }
    ensures is { let b = (block_in body.now left at).0 in Writes out.old out.new (words_b b) (code_b b (aims targets.old) out.old.here) }
    ensures next { result ≡ (block_in body.now left at).1 }
    ensures kept { aims targets.new ≡ aims targets.old }
{
    let Some(count) = count_at(body, at, left) else {
        return at;
    };
    let mut next = at + 1;
    for _ in 0..count {
        next = act(body, next, left - 1, targets, out);
    }
    next
}
