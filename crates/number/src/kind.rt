// The kinds of number.
ghost use Rattle.std.specs.Prelude.{◌≡◌, ℤ, pos, refl};
ghost use Rattle.number.specs.Number.{Kind, Cells, Folding, int, byte};
// An impl names the proof of a law, and names of this crate only what stands in specs/.
ghost use Rattle.number.specs.Folding.{every_kind_folds, int_cells, byte_cells};

// A kind of number: its lowest and its highest number, and how many there are. Each impl proves the members `constants`,
// that the constants are the kind's, `cells`, that its numbers fit a cell, and `folding`, the law of folding.
pub trait NumberKind {
    const LOW: i32;

    const HIGH: i32;

    const SPAN: i32;

    ghost LOW: { ℤ };

    ghost HIGH: { ℤ };

    ghost SPAN: { ℤ };

    ghost kind: { Kind };

    ghost constants: { (LOW ≡ kind.low) × (HIGH ≡ kind.high) × (SPAN ≡ pos kind.span) };

    ghost cells: { Cells kind };

    ghost folding: { Folding kind };

    // The three numbers as calls, for code over any kind; no impl gives them another body.
    final fn lowest() -> i32
        ensures { result ≡ kind.low }
    {
        Self::LOW
    }

    final fn highest() -> i32
        ensures { result ≡ kind.high }
    {
        Self::HIGH
    }

    final fn count() -> i32
        ensures { result ≡ pos kind.span }
    {
        Self::SPAN
    }
}

pub struct Int;

pub struct Byte;

impl NumberKind for Int {
    const LOW: i32 = -32768;

    const HIGH: i32 = 32767;

    const SPAN: i32 = 65536;

    ghost LOW = { int.low };

    ghost HIGH = { int.high };

    ghost SPAN = { pos int.span };

    ghost kind = { int };

    ghost constants = { (refl, refl, refl) };

    ghost cells = { int_cells };

    ghost folding = { every_kind_folds int int_cells };
}

impl NumberKind for Byte {
    const LOW: i32 = 0;

    const HIGH: i32 = 255;

    const SPAN: i32 = 256;

    ghost LOW = { byte.low };

    ghost HIGH = { byte.high };

    ghost SPAN = { pos byte.span };

    ghost kind = { byte };

    ghost constants = { (refl, refl, refl) };

    ghost cells = { byte_cells };

    ghost folding = { every_kind_folds byte byte_cells };
}
