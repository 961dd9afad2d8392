// What an act, a plan and a step come to.
ghost use Rattle.std.specs.Prelude.{◌≡◌};
ghost use Rattle.machine.specs.View.{cause_number};
ghost use Rattle.machine.specs.Acts.{after};

use table::Format;

// Why a machine stops at a fault.
#[derive(Clone, Copy)]
pub enum Cause {
    BadCode,
    ZeroDivisor,
    TooDeep,
    NoReturn,
    RefusedText,
    NoRoom,
}

impl Cause {
    // The cause's number in docs/REFUSALS.md: a method, since a number made by From would not say what it is.
    pub fn number(self) -> u8
        ensures { result ≡ cause_number self }
    {
        match self {
            Cause::BadCode => 60,
            Cause::ZeroDivisor => 61,
            Cause::TooDeep => 62,
            Cause::NoReturn => 63,
            Cause::RefusedText => 64,
            Cause::NoRoom => 65,
        }
    }
}

// Where a machine goes on after an act of one activation: at the address that the act tells, if it jumps, else behind
// the word, where the next one stands at `next`.
pub fn after(target: Option<u32>, next: usize) -> usize
    ensures { result ≡ after target next }
{
    match target {
        None => next,
        Some(address) => address as usize,
    }
}

// Where a word stands: its node, and the address behind it.
#[derive(Clone, Copy)]
pub struct Site {
    pub node: u16,
    pub next: usize,
}

// What a step comes to as far as no line is needed. A read and a send still have to be performed; they tell the node and
// the address behind the word, and a send its operand. These are no `Site`: a plan with one is larger, and a step of a
// counting loop took a fifth more instructions. It is no `Result<Plan, Fault>`: so written, with faults handed up by `?`, a
// step took 1.2 to 2.4 times as long (five rounds of alternating runs, under load).
#[derive(Clone, Copy)]
pub enum Plan {
    Went,
    Over,
    Fault(Cause, u16),
    Read(Format, u16, usize),
    Send(Format, i16, u16, usize),
}

// How a machine has stopped for good, if it has. It is no `Result`: it is a state that is kept, and nothing goes on from it.
#[derive(Clone, Copy)]
pub enum Latch {
    Open,
    Ended,
    Failed(Cause, u16),
}

// What a step came to. A wait is no step and changes nothing. It is no `Result`: the answers are four that a host tells
// apart, and an end and a wait are no errors.
#[derive(Clone, Copy)]
pub enum Outcome {
    Went,
    Waits,
    Ended,
    Failed(Cause, u16),
}
