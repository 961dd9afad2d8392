// Small codes and what they come to.
use crate::runs::{Answer, entry, run, word};
use code::{Entry, Instruction, Jump, encode_entry};
use line::{Line, Ring, Tape};
use std::process::Abort;
use std::test::Fail;
use table::{Binary, Format, Kind, Scope};

// Words, and the answer of the first steps.
#[derive(Drop)]
struct Row<'a>(&'a [u64], Answer);

fn play(rt: &impl Abort, rows: &[Row]) {
    for row in rows {
        let mut ring = Ring::new();
        assert_eq!(rt; run(row.0, &mut ring, 100), row.1);
    }
}

#[test]
fn bad_code(rt: HostRuntime) {
    let gives = encode_entry(Entry {
        result: Some(Kind::Int),
        parameters: 0,
        variables: 0,
        address: 4,
    });
    play(
        &rt,
        &[
            Row(&[], Answer::Fault(60, 0)),
            Row(&[1], Answer::Fault(60, 0)),
            Row(&[gives, word(Instruction::Close, 3)], Answer::Fault(60, 0)),
            Row(&[entry(0, 1)], Answer::Fault(60, 0)),
            Row(&[entry(0, 1), word(Instruction::Close, 3)], Answer::Ended),
            Row(&[entry(0, 1), 0xFF00_0007_0000_0000], Answer::Fault(60, 7)),
            Row(
                &[entry(0, 1), word(Instruction::Close, 3) | 1],
                Answer::Fault(60, 3),
            ),
            Row(
                &[entry(0, 1), word(Instruction::Minus, 5)],
                Answer::Fault(60, 5),
            ),
            Row(
                &[entry(1, 1), word(Instruction::Variable(Scope::Own, 1), 5)],
                Answer::Fault(60, 5),
            ),
            Row(
                &[entry(1, 1), word(Instruction::Assign(Scope::Own, 0), 5)],
                Answer::Fault(60, 5),
            ),
            Row(
                &[entry(0, 1), word(Instruction::Call(1), 5)],
                Answer::Fault(60, 5),
            ),
            Row(
                &[entry(0, 1), word(Instruction::Return, 5)],
                Answer::Fault(60, 5),
            ),
            Row(
                &[entry(0, 1), word(Instruction::Jump(Jump::Loop, 9), 5)],
                Answer::Fault(60, 0),
            ),
            Row(
                &[entry(0, 1), word(Instruction::Jump(Jump::Loop, 1), 5)],
                Answer::Goes,
            ),
            // an exit in a function with a result, and its closing word
            Row(
                &[
                    entry(0, 2),
                    gives,
                    word(Instruction::Call(1), 5),
                    0,
                    word(Instruction::Exit, 6),
                ],
                Answer::Fault(60, 6),
            ),
            Row(
                &[
                    entry(0, 2),
                    gives,
                    word(Instruction::Call(1), 5),
                    0,
                    word(Instruction::Close, 6),
                ],
                Answer::Fault(63, 6),
            ),
        ],
    );
}

#[test]
fn zero_divisors(rt: HostRuntime) {
    let divide = word(Instruction::Binary(Binary::Div, Kind::Int), 4);
    let zero = word(Instruction::Constant(Kind::Int, 0), 6);
    play(
        &rt,
        &[
            Row(&[entry(0, 1), zero, zero, divide], Answer::Fault(61, 4)),
            // a missing operand goes ahead
            Row(&[entry(0, 1), zero, divide], Answer::Fault(60, 4)),
        ],
    );
}

// 32 variables and 32 operands fit, and not one more.
#[test]
fn cells(rt: HostRuntime) -> Result<(), Fail> {
    let mut words = Vec::new(rt.alloc());
    words.push(entry(32, 1))?;
    for node in 0..32u16 {
        words.push(word(Instruction::Constant(Kind::Byte, 255), node))?;
    }
    let mut ring = Ring::new();
    assert_eq!(rt; run(words.as_slice(), &mut ring, 32), Answer::Goes);
    assert_eq!(rt; run(words.as_slice(), &mut ring, 33), Answer::Fault(60, 0));
    words.push(word(Instruction::Constant(Kind::Byte, 255), 32))?;
    assert_eq!(rt; run(words.as_slice(), &mut ring, 33), Answer::Fault(60, 32));
    Ok(())
}

// Function 1 calls itself: main and 31 of it are 32 activations.
#[test]
fn activations(rt: HostRuntime) {
    let call = word(Instruction::Perform(1), 3);
    let words = [entry(0, 2), entry(0, 2), call];
    let mut ring = Ring::new();
    assert_eq!(rt; run(&words, &mut ring, 31), Answer::Goes);
    assert_eq!(rt; run(&words, &mut ring, 32), Answer::Fault(62, 3));
}

// Writes -7 where there is room for it, and nothing where there is not; reads only when enough bytes wait.
#[test]
fn lines(rt: HostRuntime) {
    let words = [
        entry(0, 1),
        word(Instruction::Constant(Kind::Int, 7), 3),
        word(Instruction::Minus, 2),
        word(Instruction::Write(Format::Integer), 1),
        word(Instruction::Close, 0),
    ];
    let mut input = [0; 4];
    let mut output = [0; 2];
    let mut tape = Tape::new(&mut input, &mut output);
    assert_eq!(rt; run(&words, &mut tape, 10), Answer::Ended);
    assert_eq!(rt; tape.sent_len(), 2);
    assert_eq!(rt; run(&words, &mut tape, 10), Answer::Fault(65, 1));
    assert_eq!(rt; tape.sent_len(), 2);
    let echo = [
        entry(1, 1),
        word(Instruction::Read(Format::Char), 2),
        word(Instruction::Assign(Scope::Own, 0), 1),
        word(Instruction::Close, 0),
    ];
    assert_eq!(rt; run(&echo, &mut tape, 10), Answer::Waits);
    assert!(rt; tape.feed(65).is_ok());
    assert_eq!(rt; run(&echo, &mut tape, 10), Answer::Ended);
    assert_eq!(rt; tape.waiting_len(), 0);
}

// Fills in words with ops, auxes, nodes and operands that are mostly listed, and tells the next seed.
fn fill(words: &mut [u64], mut seed: u64) -> u64 {
    for w in words.iter_mut() {
        seed = seed
            .wrapping_mul(6364136223846793005)
            .wrapping_add(1442695040888963407);
        *w = (seed >> 58 << 56) | (seed % 4 << 48) | (seed >> 20 & 63);
    }
    seed
}

// Whatever the words are, every step has an answer.
#[test]
fn random_words() {
    let mut seed = 1;
    for _ in 0..2000u16 {
        let mut words = [0; 64];
        seed = fill(&mut words, seed);
        words[0] = entry(8, 1);
        let mut ring = Ring::new();
        let _ = run(&words, &mut ring, 200);
    }
}
