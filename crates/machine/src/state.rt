// What a machine keeps.
ghost use Rattle.std.specs.Prelude.{◌≤◌};

use crate::plan::Latch;

// One call of a function that has not yet closed. Its variables are the first cells, its operands the next. The counts
// stand beside the cells: the header for C hosts (`unfinished/include`) names these fields, and an activation is Copy,
// which the toolchain's vector is not.
#[derive(Clone, Copy)]
pub struct Activation {
    pub cells: [i16; 64],
    pub variables: usize,
    pub count: usize,
    pub gives: bool,
    pub back: usize,
    ghost ok: { (variables ≤ count) × (count ≤ 64) },
}

// The activations, main's first, how many are open, and the address of the next word. None is open before the first
// step. `depth` stands beside the table, since the header names both.
#[derive(Drop)]
pub struct Core {
    pub activations: [Activation; 32],
    pub depth: usize,
    pub at: usize,
    ghost few: { depth ≤ 32 },
}

#[derive(Drop)]
pub struct Machine {
    pub core: Core,
    pub latch: Latch,
}
