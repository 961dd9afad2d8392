// Running words to the end, a fault or a wait.
use code::{Entry, Instruction, encode, encode_entry};
use line::Line;
use machine::{Machine, Outcome};

// What the last step came to; a fault by its cause's number, which is what the rows write, and its node.
#[derive(Clone, Copy, Debug, PartialEq, Eq)]
pub enum Answer {
    Goes,
    Waits,
    Ended,
    Fault(u8, u16),
}

impl From<Outcome> for Answer {
    fn from(outcome: Outcome) -> Answer {
        match outcome {
            Outcome::Went => Answer::Goes,
            Outcome::Waits => Answer::Waits,
            Outcome::Ended => Answer::Ended,
            Outcome::Failed(cause, node) => Answer::Fault(cause.number(), node),
        }
    }
}

// At most so many steps of a new machine: the answer of the last one.
pub fn run<L: Line>(words: &[u64], line: &mut L, most: usize) -> Answer {
    let mut machine = Machine::new();
    for _ in 0..most {
        let answer = Answer::from(machine.step(words, line));
        if answer != Answer::Goes {
            return answer;
        }
    }
    Answer::Goes
}

// An entry word without result and parameters.
pub fn entry(variables: u8, address: u16) -> u64 {
    encode_entry(Entry {
        result: None,
        parameters: 0,
        variables,
        address,
    })
}

pub fn word(instruction: Instruction, node: u16) -> u64 {
    encode(instruction, node)
}
