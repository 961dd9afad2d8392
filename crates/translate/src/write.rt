// Writing words into memory, one behind the other.
ghost use Rattle.std.specs.Prelude.{◌≡◌, ◌≤◌, length};

use code::{Entry, Instruction, encode, encode_entry};
use table::Unary;

// The memory for a program's words, and the address of the next: all before it are written. No address is past 65,535.
#[derive(Drop)]
pub struct Writer<'a> {
    code: &'a mut [u64],
    here: usize,
    ghost inside: { here ≤ length code.now },
    ghost near: { length code.now ≤ 65535 },
}

impl<'a> Writer<'a> {
    ghost use Rattle.std.specs.Prelude.{[], ◌∷◌};
    ghost use Rattle.language.specs.Measures.{unary_words};
    ghost use Rattle.code.specs.Entries.{entry_word};
    ghost use Rattle.code.specs.Word.{word_of};
    ghost use Rattle.translate.specs.Code.{unary_code};
    ghost use Rattle.translate.specs.Written.{HasRoom, Writes};

    // A writer that begins with the memory's first word.
    pub(crate) fn new(code: &'a mut [u64]) -> Writer<'a>
        requires { length code.old ≤ 65535 }
        ensures start { result.here ≡ 0 }
        ensures memory { result.code.now ≡ code.old }
        ensures same { result.code.ghost_name ≡ code.entry.ghost_name }
    {
        Writer { code, here: 0 }
    }

    // The address of the next word, which is how many are written.
    pub(crate) fn here(&self) -> usize
        ensures value { result ≡ self.now.here }
        ensures near { result ≤ 65535 }
    {
        self.here
    }

    fn push(&mut self, word: u64)
        requires { HasRoom self.old 1 }
        ensures { Writes self.old self.new 1 (word ∷ []) }
    {
        self.code[self.here] = word;
        self.here += 1;
    }

    // Writes the entry word of a function.
    pub(crate) fn put_entry(&mut self, entry: Entry)
        requires { HasRoom self.old 1 }
        ensures { Writes self.old self.new 1 (entry_word entry ∷ []) }
    {
        self.push(encode_entry(entry));
    }

    // Writes the word of an instruction that stands for a node.
    pub(crate) fn put(&mut self, instruction: Instruction, node: u16)
        requires { HasRoom self.old 1 }
        ensures { Writes self.old self.new 1 (word_of instruction node ∷ []) }
    {
        self.push(encode(instruction, node));
    }

    // The same for an operator with one operand, which may have no word.
    pub(crate) fn put_unary(&mut self, operator: Unary, node: u16)
        requires { HasRoom self.old (unary_words operator) }
        ensures { Writes self.old self.new (unary_words operator) (unary_code operator node) }
    {
        match operator {
            Unary::Plus | Unary::Extend => {}
            Unary::Minus => self.put(Instruction::Minus, node),
            Unary::ByteNot => self.put(Instruction::ByteNot, node),
            Unary::Shrink => self.put(Instruction::Shrink, node),
        }
    }
}
