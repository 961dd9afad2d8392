// Decimal texts by tables.
use number::{Byte, Int, NumberKind, Reading};
use std::process::Abort;

// Reads the text of each row.
fn reads<K: NumberKind>(rt: &impl Abort, rows: &[(&[u8], Reading)]) {
    for (text, want) in rows {
        assert_eq!(rt; number::read::<K>(text), *want);
    }
}

#[test]
fn ints_are_read(rt: HostRuntime) {
    reads::<Int>(
        &rt,
        &[
            (
                b"0042\n",
                Reading::Took {
                    value: 42,
                    count: 5,
                },
            ),
            (
                b"32767\n12",
                Reading::Took {
                    value: 32767,
                    count: 6,
                },
            ),
            (b"0000007\n", Reading::Took { value: 7, count: 8 }),
            (b"1\n2\n", Reading::Took { value: 1, count: 2 }),
            (b"32768\n", Reading::Refused),
            (b"\n", Reading::Refused),
            (b"-1\n", Reading::Refused),
            (b"4 3\n", Reading::Refused),
            (b"", Reading::Wait),
            (b"x", Reading::Wait),
            (b"1234567", Reading::Wait),
            (b"12345678", Reading::Refused),
            (b"00000042\n", Reading::Refused),
        ],
    );
}

#[test]
fn bytes_are_read(rt: HostRuntime) {
    reads::<Byte>(
        &rt,
        &[
            (
                b"255\n",
                Reading::Took {
                    value: 255,
                    count: 4,
                },
            ),
            (b"0\n", Reading::Took { value: 0, count: 2 }),
            (b"256\n", Reading::Refused),
            (b"25", Reading::Wait),
        ],
    );
}

#[test]
fn numbers_are_written(rt: HostRuntime) {
    let rows: [(i16, &[u8]); 7] = [
        (0, b"0"),
        (7, b"7"),
        (-7, b"-7"),
        (10, b"10"),
        (255, b"255"),
        (32767, b"32767"),
        (-32768, b"-32768"),
    ];
    for (n, text) in rows {
        assert_eq!(rt; number::write(n).as_bytes(), text);
    }
}
