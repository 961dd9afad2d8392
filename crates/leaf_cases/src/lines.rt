// The tape to its last byte and the ring round several times.
use line::{Line, LineRefusal, Ring, Tape};
use std::process::Abort;
use std::test::Fail;

// A row names its call with what is passed: one list of rows then serves every line.
#[derive(Clone, Copy)]
enum Call {
    Feed(u8),
    Take(usize),
    Send(u8),
}

// A call, the number of its refusal if it is refused, and then how many bytes wait, were sent, may be fed and may be sent.
struct Row(Call, Option<u16>, [usize; 4]);

fn made<L: Line>(line: &mut L, call: Call) -> Result<(), LineRefusal> {
    match call {
        Call::Feed(b) => line.feed(b),
        Call::Take(n) => line.take(n),
        Call::Send(b) => line.send(b),
    }
}

fn number_of(answer: Result<(), LineRefusal>) -> Option<u16> {
    answer
        .err()
        .map(|refusal| refusal.number() + refusal.place())
}

fn counts<L: Line>(line: &L) -> [usize; 4] {
    [
        line.waiting_len(),
        line.sent_len(),
        line.hold_left(),
        line.room_left(),
    ]
}

fn play<L: Line>(rt: &impl Abort, line: &mut L, rows: &[Row]) {
    for row in rows {
        assert_eq!(rt; number_of(made(line, row.0)), row.1);
        assert_eq!(rt; counts(line), row.2);
    }
}

#[test]
fn tape_to_its_last_byte(rt: HostRuntime) {
    let mut input = [0; 3];
    let mut output = [0; 2];
    let mut tape = Tape::new(&mut input, &mut output);
    assert_eq!(rt; counts(&tape), [0, 0, 3, 2]);
    play(
        &rt,
        &mut tape,
        &[
            Row(Call::Take(1), Some(52), [0, 0, 3, 2]),
            Row(Call::Feed(7), None, [1, 0, 2, 2]),
            Row(Call::Feed(8), None, [2, 0, 1, 2]),
            Row(Call::Take(1), None, [1, 0, 1, 2]),
            Row(Call::Feed(9), None, [2, 0, 0, 2]),
            Row(Call::Feed(1), Some(50), [2, 0, 0, 2]),
            Row(Call::Take(3), Some(52), [2, 0, 0, 2]),
            Row(Call::Send(4), None, [2, 1, 0, 1]),
            Row(Call::Send(6), None, [2, 2, 0, 0]),
            Row(Call::Send(1), Some(51), [2, 2, 0, 0]),
            Row(Call::Take(1), None, [1, 2, 0, 0]),
        ],
    );
    assert_eq!(rt; [tape.waiting_at(0), tape.waiting_at(1)], [Some(9), None]);
    assert_eq!(rt; [tape.sent_at(1), tape.sent_at(2)], [Some(6), None]);
}

// Feeds 200 bytes, looks at each, and takes them all.
fn turn(rt: &impl Abort, ring: &mut Ring, round: u8) -> Result<(), Fail> {
    for i in 0..200u8 {
        ring.feed(i ^ round)?;
    }
    assert_eq!(rt; counts(ring), [200, 0, 56, 1024]);
    for i in 0..200u8 {
        assert_eq!(rt; ring.waiting_at(usize::from(i)), Some(i ^ round));
    }
    play(
        rt,
        ring,
        &[
            Row(Call::Take(201), Some(52), [200, 0, 56, 1024]),
            Row(Call::Take(200), None, [0, 0, 256, 1024]),
        ],
    );
    Ok(())
}

#[test]
fn ring_goes_round(rt: HostRuntime) -> Result<(), Fail> {
    let mut ring = Ring::new();
    for round in 0..5u8 {
        turn(&rt, &mut ring, round)?;
    }
    Ok(())
}

#[test]
fn ring_to_its_last_byte(rt: HostRuntime) -> Result<(), Fail> {
    let mut ring = Ring::new();
    for _ in 0..256 {
        ring.feed(1)?;
    }
    for _ in 0..1024 {
        ring.send(3)?;
    }
    play(
        &rt,
        &mut ring,
        &[
            Row(Call::Feed(2), Some(50), [256, 1024, 0, 0]),
            Row(Call::Send(2), Some(51), [256, 1024, 0, 0]),
        ],
    );
    assert_eq!(rt; [ring.sent_at(1023), ring.sent_at(1024)], [Some(3), None]);
    Ok(())
}

#[test]
fn texts_go_whole_or_not_at_all(rt: HostRuntime) {
    let mut input = [0; 1];
    let mut output = [0; 5];
    let mut tape = Tape::new(&mut input, &mut output);
    let rows: [(&[u8], bool, usize); 4] = [
        (b"abc", true, 3),
        (b"def", false, 3),
        (b"de", true, 5),
        (b"", true, 5),
    ];
    for (text, whole, sent) in rows {
        assert_eq!(rt; line::send_text(&mut tape, text), whole);
        assert_eq!(rt; tape.sent_len(), sent);
    }
}

#[test]
fn a_window_has_up_to_eight_bytes(rt: HostRuntime) -> Result<(), Fail> {
    let mut ring = Ring::new();
    assert_eq!(rt; line::peek(&ring).as_bytes(), b"".as_slice());
    for b in *b"0123456789" {
        ring.feed(b)?;
    }
    assert_eq!(rt; line::peek(&ring).as_bytes(), b"01234567".as_slice());
    ring.take(7)?;
    assert_eq!(rt; line::peek(&ring).as_bytes(), b"789".as_slice());
    Ok(())
}
