// Translating into memory of the needed length, and of one word less.
use checker::Program;
use std::test::Fail;
use translate::translate;

// A table, and how many words its program has.
#[derive(Drop)]
struct Row<'a> {
    table: &'a [u8],
    words: usize,
}

// The words of a program, with memory of at most twenty words; else the number of the refusal and the words needed.
fn words_in(program: &Program, memory: usize) -> Result<usize, (u8, usize)> {
    let mut code = [7; 20];
    let length = memory.min(20);
    translate(program, &mut code[..length]).map_err(|fault| fault.told())
}

#[test]
fn small_programs(rt: HostRuntime) {
    let rows = [
        Row {
            table: &[0x10, 0x40, 2, 0, 0, 0, 0, 0, 0, 0xA4, 0, 1, 0x80, 0, 0],
            words: 2,
        },
        Row {
            table: &[
                0x10, 0x40, 4, 0, 0, 0, 0, 0, 0, 0xA4, 0, 1, 0xA8, 0, 0, 0x10, 0, 0, 4, 0, 7,
            ],
            words: 5,
        },
        Row {
            table: &[
                0x10, 0x40, 14, 0, 0, 0, 0, 0, 0, 0xA4, 0, 1, 0x8C, 0, 0, 0x70, 0, 0, 0x50, 0, 0,
                4, 0, 0, 4, 0, 0, 0x50, 0, 0, 0x24, 0, 0, 4, 0, 1, 4, 0, 0, 4, 0, 1, 0xA4, 0, 1,
                0xA8, 0, 0, 4, 0, 5,
            ],
            words: 12,
        },
    ];
    for Row { table, words } in &rows {
        let mut program = Program::new();
        assert!(rt; program.replace(table).is_ok());
        assert_eq!(rt; words_in(&program, *words), Ok(*words));
        assert_eq!(rt;
            words_in(&program, words.saturating_sub(1)),
            Err((30, *words))
        );
    }
}

// Words past the code, and all words where it is refused, stay as they were.
#[test]
fn untouched(rt: HostRuntime) {
    let program = Program::new();
    let mut code = [7; 3];
    assert!(rt; translate(&program, &mut code).is_ok());
    assert_eq!(rt; code[2], 7);
    let mut short = [7; 1];
    assert!(rt; translate(&program, &mut short).is_err());
    assert_eq!(rt; short[0], 7);
}

// 8,191 exits in a block: 8,192 nodes.
#[test]
fn largest(rt: HostRuntime) -> Result<(), Fail> {
    let mut bytes = Vec::new(rt.alloc());
    bytes.extend_from_slice(&[0x10, 0x60, 0, 0, 0, 0, 0, 0, 0, 0xA4, 0x1F, 0xFF])?;
    for _ in 0..8191u16 {
        bytes.extend_from_slice(&[0x9C, 0, 0])?;
    }
    let mut program = Program::new();
    assert!(rt; program.replace(bytes.as_slice()).is_ok());
    let mut code = [0; 8224];
    let words = translate(&program, &mut code).map_err(|_| Fail::new("too short"))?;
    assert_eq!(rt; words, 8193);
    Ok(())
}
