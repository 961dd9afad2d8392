// Arithmetic, comparison and logic by tables.
use number::{Byte, Int, NumberKind};
use std::process::Abort;

// A row names its operation: with a function in its place each row would name the kind again.
#[derive(Clone, Copy)]
enum Op {
    Add,
    Sub,
    Mul,
    Div,
    Rem,
}

fn worked_out<K: NumberKind>(a: i16, op: Op, b: i16) -> Option<i16> {
    match op {
        Op::Add => Some(number::add::<K>(a, b)),
        Op::Sub => Some(number::sub::<K>(a, b)),
        Op::Mul => Some(number::mul::<K>(a, b)),
        Op::Div => number::div::<K>(a, b),
        Op::Rem => number::rem::<K>(a, b),
    }
}

fn holds<K: NumberKind>(rt: &impl Abort, rows: &[(i16, Op, i16, Option<i16>)]) {
    for (a, op, b, result) in rows {
        assert_eq!(rt; worked_out::<K>(*a, *op, *b), *result);
    }
}

#[test]
fn int_arithmetic(rt: HostRuntime) {
    holds::<Int>(
        &rt,
        &[
            (32767, Op::Add, 1, Some(-32768)),
            (-32768, Op::Add, -1, Some(32767)),
            (20000, Op::Add, 20000, Some(-25536)),
            (-32768, Op::Sub, 1, Some(32767)),
            (3, Op::Sub, 6, Some(-3)),
            (-32768, Op::Mul, -1, Some(-32768)),
            (-32768, Op::Mul, -32768, Some(0)),
            (-181, Op::Mul, 181, Some(-32761)),
            (-7, Op::Div, 2, Some(-3)),
            (7, Op::Div, -2, Some(-3)),
            (-32768, Op::Div, -1, Some(-32768)),
            (5, Op::Div, 0, None),
            (-7, Op::Rem, 2, Some(-1)),
            (7, Op::Rem, -2, Some(1)),
            (-32768, Op::Rem, -1, Some(0)),
            (5, Op::Rem, 0, None),
        ],
    );
}

#[test]
fn byte_arithmetic(rt: HostRuntime) {
    holds::<Byte>(
        &rt,
        &[
            (250, Op::Add, 10, Some(4)),
            (-1, Op::Add, 1, Some(0)),
            (3, Op::Sub, 5, Some(254)),
            (0, Op::Sub, 255, Some(1)),
            (16, Op::Mul, 16, Some(0)),
            (255, Op::Mul, 255, Some(1)),
            (255, Op::Div, 2, Some(127)),
            (-1, Op::Div, 2, Some(127)),
            (1, Op::Div, 256, None),
            (-1, Op::Rem, 16, Some(15)),
            (1, Op::Rem, 0, None),
        ],
    );
}

// What = <> < > <= >= answer.
fn compared<K: NumberKind>(a: i16, b: i16) -> [bool; 6] {
    [
        number::eq::<K>(a, b),
        number::ne::<K>(a, b),
        number::lt::<K>(a, b),
        number::gt::<K>(a, b),
        number::le::<K>(a, b),
        number::ge::<K>(a, b),
    ]
}

const EQUAL: [bool; 6] = [true, false, false, false, true, true];

const BELOW: [bool; 6] = [false, true, true, false, true, false];

const ABOVE: [bool; 6] = [false, true, false, true, false, true];

#[test]
fn comparisons(rt: HostRuntime) {
    for (a, b, as_ints, as_bytes) in [
        (-1, 0, BELOW, ABOVE),
        (4, 4, EQUAL, EQUAL),
        (32767, -32768, ABOVE, ABOVE),
        (-2, 254, BELOW, EQUAL),
    ] {
        assert_eq!(rt; compared::<Int>(a, b), as_ints);
        assert_eq!(rt; compared::<Byte>(a, b), as_bytes);
    }
}

#[test]
fn byte_logic(rt: HostRuntime) {
    for (a, b, and, or) in [
        (0, 0, 0, 0),
        (0, 255, 0, 1),
        (2, 0, 0, 1),
        (3, 4, 1, 1),
        (256, 1, 0, 1),
    ] {
        assert_eq!(rt; [number::and(a, b), number::or(a, b)], [and, or]);
    }
    for (a, not) in [(0, 1), (1, 0), (255, 0), (256, 1)] {
        assert_eq!(rt; number::not(a), not);
        assert_eq!(rt; number::is_true(a), not == 0);
    }
}

// A cell, its number with the other sign as an int and as a byte, and what extend and shrink give.
#[test]
fn signs_and_conversions(rt: HostRuntime) {
    for (a, row) in [
        (-32768, [-32768, 0, 0, 0]),
        (32767, [-32767, 1, 255, 255]),
        (-1, [1, 1, 255, 255]),
        (256, [-256, 0, 0, 0]),
        (8, [-8, 248, 8, 8]),
        (0, [0, 0, 0, 0]),
    ] {
        assert_eq!(rt;
            [
                number::neg::<Int>(a),
                number::neg::<Byte>(a),
                number::extend(a),
                number::shrink(a),
            ],
            row
        );
    }
    for (n, int) in [
        (32768, -32768),
        (-32769, 32767),
        (2147483647, -1),
        (-2147483648, 0),
    ] {
        assert_eq!(rt; number::fold::<Int>(n), int);
    }
}
