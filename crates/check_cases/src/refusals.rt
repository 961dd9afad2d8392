// One table at least for each refusal.
use crate::tables::{MAIN, refusal, table};
use std::process::Abort;
use std::test::*;

// Function records, node records, and the number and place of the refusal, if the table is refused.
#[derive(Drop)]
struct Row<'a>(&'a [u8], &'a [u8], Option<(u8, usize)>);

// main with an int variable and a byte variable
const TWO: [u8; 6] = [0, 0x20, 0x40, 0, 0, 0];

// main, and function 1 with an int result and a byte parameter
const GIVES: [u8; 12] = [0, 0, 0, 0, 0, 0, 0x44, 0x10, 0x80, 0, 0, 0];

fn play(rt: &(impl Abort + AllocGlobal), rows: &[Row]) -> Result<(), Fail> {
    for row in rows {
        let bytes = table(rt.alloc(), row.0, row.1)?;
        assert_eq!(rt; refusal(bytes.as_slice()), row.2);
    }
    Ok(())
}

#[test]
fn headers(rt: HostRuntime) -> Result<(), Fail> {
    assert_eq!(rt; refusal(&[]), Some((1, 0)));
    assert_eq!(rt; refusal(&[0x10, 0x40]), Some((1, 2)));
    assert_eq!(rt; refusal(&[0x20, 0x40, 2]), Some((2, 0)));
    assert_eq!(rt; refusal(&[0x10, 0, 2]), Some((3, 0)));
    assert_eq!(rt; refusal(&[0x18, 0x40, 2]), Some((3, 0)));
    assert_eq!(rt; refusal(&[0x10, 0x40, 0]), Some((3, 0)));
    assert_eq!(rt; refusal(&[0x10, 0x60, 1]), Some((3, 0)));
    assert_eq!(rt;
        refusal(&[0x10, 0x40, 2, 0, 0, 0, 0, 0, 0, 0xA4, 0, 1, 0x80, 0]),
        Some((1, 14))
    );
    assert_eq!(rt;
        refusal(&[0x10, 0x40, 2, 0, 0, 0, 0, 0, 0, 0xA4, 0, 1, 0x80, 0, 0]),
        None
    );
    Ok(())
}

#[test]
fn records(rt: HostRuntime) -> Result<(), Fail> {
    let idle = [0xA4, 0, 1, 0x80, 0, 0];
    play(
        &rt,
        &[
            Row(&[0x40, 0, 0, 0, 0, 0], &idle, Some((4, 0))),
            Row(&[4, 0x10, 0, 0, 0, 0], &idle, Some((4, 0))),
            Row(&[0, 1, 0, 0, 0, 0], &idle, Some((4, 0))),
            Row(&[0, 0x10, 0x40, 0, 0, 0], &idle, Some((4, 0))),
            Row(&[2, 0x10, 0, 0, 0, 0], &idle, Some((4, 0))),
            Row(
                &[0, 0, 0, 0, 0, 0, 0xC0, 0, 0, 0, 0, 0],
                &idle,
                Some((4, 1)),
            ),
            Row(
                &[0, 0, 0, 0, 0, 0, 0x24, 0x90, 0, 0, 0, 0],
                &idle,
                Some((4, 1)),
            ),
            Row(
                &[0, 0, 0, 0, 0, 0, 8, 0x10, 0, 0, 0, 0],
                &idle,
                Some((4, 1)),
            ),
            Row(&[2, 0, 0xFF, 0xFF, 0xFF, 0xFF], &idle, None),
        ],
    )
}

#[test]
fn nodes(rt: HostRuntime) -> Result<(), Fail> {
    play(
        &rt,
        &[
            // a kind that is not listed, and fields out of range
            Row(&MAIN, &[0xA4, 0, 1, 0, 0, 0], Some((10, 1))),
            Row(&MAIN, &[0xA4, 0, 1, 0x80, 0, 1], Some((10, 1))),
            Row(&MAIN, &[0xA4, 0, 1, 0x81, 0, 0], Some((10, 1))),
            Row(&MAIN, &[0xA4, 0, 0, 0x80, 0, 0], Some((10, 0))),
            Row(&MAIN, &[0xA4, 0, 1, 0xA8, 0, 0, 4, 0x80, 0], Some((10, 2))),
            // not what is asked for
            Row(&MAIN, &[0x80, 0, 0], Some((11, 0))),
            Row(&MAIN, &[0xA4, 0, 1, 4, 0, 0], Some((11, 1))),
            Row(&MAIN, &[0xA4, 0, 1, 0xA8, 0, 0, 0x80, 0, 0], Some((11, 2))),
            // no node left, and nodes left over
            Row(&MAIN, &[0xA4, 0, 2, 0x80, 0, 0], Some((12, 2))),
            Row(&MAIN, &[0xA4, 0, 1, 0x80, 0, 0, 0x80, 0, 0], Some((12, 2))),
            // a variable that is not there, and main's own as main's
            Row(&TWO, &[0xA4, 0, 1, 0x84, 0, 2, 4, 0, 0], Some((14, 1))),
            Row(&TWO, &[0xA4, 0, 1, 0x85, 0, 0, 4, 0, 0], Some((14, 1))),
            // the kind of a child, told after all children
            Row(&TWO, &[0xA4, 0, 1, 0x84, 0, 0, 5, 0, 0], Some((15, 1))),
            Row(&TWO, &[0xA4, 0, 1, 0x84, 0, 1, 5, 0, 0], None),
            Row(
                &MAIN,
                &[0xA4, 0, 1, 0xA8, 0, 0, 0x18, 0, 0, 4, 0, 0, 5, 0, 0],
                Some((15, 2)),
            ),
            Row(
                &MAIN,
                &[0xA4, 0, 1, 0xA9, 0, 0, 0x2C, 0, 0, 4, 0, 0, 4, 0, 0],
                Some((15, 2)),
            ),
            // functions that cannot be called so
            Row(&MAIN, &[0xA4, 0, 1, 0x88, 0, 0], Some((16, 1))),
            Row(&MAIN, &[0xA4, 0, 1, 0x88, 0, 1], Some((16, 1))),
            Row(&GIVES, &[0xA4, 0, 1, 0x88, 0, 1, 5, 0, 0], Some((16, 1))),
            // loops that are not open
            Row(&MAIN, &[0xA4, 0, 1, 0x94, 0, 0], Some((17, 1))),
            Row(
                &MAIN,
                &[0xA4, 0, 1, 0x90, 0, 0, 0xA4, 0, 1, 0x98, 0, 1],
                Some((17, 3)),
            ),
            Row(
                &MAIN,
                &[
                    0xA4, 0, 1, 0x90, 0, 1, 0xA4, 0, 1, 0x90, 0, 2, 0xA4, 0, 1, 0x94, 0, 3,
                ],
                Some((17, 5)),
            ),
            Row(
                &MAIN,
                &[
                    0xA4, 0, 1, 0x90, 0, 1, 0xA4, 0, 1, 0x90, 0, 2, 0xA4, 0, 1, 0x94, 0, 1,
                ],
                None,
            ),
            // a loop's name is shut behind it
            Row(
                &MAIN,
                &[0xA4, 0, 2, 0x90, 0, 1, 0xA4, 0, 1, 0x80, 0, 0, 0x94, 0, 1],
                Some((17, 4)),
            ),
            // return in main, exit in a function with a result
            Row(&MAIN, &[0xA4, 0, 1, 0xA0, 0, 0, 4, 0, 0], Some((18, 1))),
            Row(
                &GIVES,
                &[0xA4, 0, 1, 0x80, 0, 0, 0xA4, 0, 1, 0x9C, 0, 0],
                Some((18, 3)),
            ),
            Row(
                &GIVES,
                &[0xA4, 0, 1, 0x80, 0, 0, 0xA4, 0, 1, 0xA0, 0, 0, 4, 0, 7],
                None,
            ),
            // a call with its argument, of its kind and not
            Row(
                &GIVES,
                &[
                    0xA4, 0, 1, 0xA8, 0, 0, 0x34, 0, 1, 5, 0, 0, 0xA4, 0, 1, 0x80, 0, 0,
                ],
                None,
            ),
            Row(
                &GIVES,
                &[
                    0xA4, 0, 1, 0xA8, 0, 0, 0x34, 0, 1, 4, 0, 0, 0xA4, 0, 1, 0x80, 0, 0,
                ],
                Some((15, 2)),
            ),
        ],
    )
}
