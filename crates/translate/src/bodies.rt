// The words of a table's functions: entry words and bodies.
ghost use Rattle.std.specs.Prelude.{◌≡◌, ◌+◌, ◌≤◌, ◌++◌, length};
ghost use Rattle.table.specs.View.{view};
ghost use Rattle.language.specs.Measures.{words_b, words_bodies, words_p};
ghost use Rattle.walk.specs.Bodies.{signature_of};
ghost use Rattle.translate.specs.Code.{code_body, code_entries, code_bodies, entry_for};
ghost use Rattle.translate.specs.Functions.{context_in, body_in, program_in};
ghost use Rattle.translate.specs.Written.{HasRoom, Writes};

use crate::act::block;
use crate::size::block_size;
use crate::targets::Targets;
use crate::write::Writer;
use code::{Entry, Instruction};
use table::{Function, Table};
use walk::{Body, Context};

// Function f's body, with what its nodes may refer to.
fn body<'a>(table: &'a Table<'a>, f: usize) -> Body<'a>
    ensures table { result.table.now ≡ table.now }
    ensures context { result.context ≡ context_in (view table.now) f }
{
    let own = table.function(f).unwrap_or_default();
    let main = if f == 0 { None } else { table.function(0) };
    Body {
        table,
        context: Context { own, main },
    }
}

// The levels of blocks that a body may have: told by a clause, since the number itself would have them all computed.
fn levels() -> u8
    ensures { result ≡ 128 }
{
    128
}

// The words of the body at a node, and the next node's place.
fn body_size(body: &Body, at: u16) -> (usize, u16)
    requires few { words_b (body_in body.now at).0 ≤ 65535 }
    ensures words { result.0 ≡ words_b (body_in body.now at).0 }
    ensures next { result.1 ≡ (body_in body.now at).1 }
{
    block_size(body, at, levels())
}

// Writes the words of the body at a node and its closing word: the next node's place.
fn whole_body(body: &Body, at: u16, out: &mut Writer) -> u16
    requires { HasRoom out.old (words_b (body_in body.now at).0 + 1) }
    ensures is { let b = (body_in body.now at).0 in Writes out.old out.new (words_b b + 1) (code_body b out.old.here) }
    ensures next { result ≡ (body_in body.now at).1 }
{
    let next = block(body, at, levels(), &mut Targets::new(), out);
    out.put(Instruction::Close, at);
    next
}

// The entry of a function whose first word has that address.
fn entry_of(own: &Function, address: usize) -> Entry
    requires { address ≤ 65535 }
    ensures { result ≡ entry_for (signature_of own.now) address }
{
    Entry {
        result: own.result,
        parameters: own.parameters,
        variables: own.variables,
        address: address as u16,
    }
}

// Writes the entry words of a table's functions, for the code that begins with them and has the bodies behind them.
fn entries(table: &Table, out: &mut Writer)
    requires { HasRoom out.old (table.now.functions + words_bodies (program_in table.now)) }
    ensures { Writes out.old out.new table.now.functions (code_entries (program_in table.now) table.now.functions) }
{
    let mut address = table.functions;
    let mut at = 0;
    for f in 0..table.functions {
        let body = body(&*table, f);
        let (words, next) = body_size(&body, at);
        out.put_entry(entry_of(&body.context.own, address));
        address += words + 1;
        at = next;
    }
}

// Writes the bodies of a table's functions.
fn bodies(table: &Table, out: &mut Writer)
    requires { HasRoom out.old (words_bodies (program_in table.now)) }
    ensures { let P = program_in table.now in Writes out.old out.new (words_bodies P) (code_bodies P out.old.here) }
{
    let mut at = 0;
    for f in 0..table.functions {
        at = whole_body(&body(&*table, f), at, out);
    }
}

// Writes the words of all functions of a table, into memory of just their number.
pub(crate) fn program(table: &Table, code: &mut [u64])
    requires room { length code.old ≡ table.now.functions + words_bodies (program_in table.now) }
    requires near { length code.old ≤ 65535 }
    ensures { code.new ≡ code_entries (program_in table.now) table.now.functions ++ code_bodies (program_in table.now) table.now.functions }
{
    let mut out = Writer::new(code);
    entries(table, &mut out);
    bodies(table, &mut out);
}
