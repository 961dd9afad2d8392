// Both sides of the limits on nesting, open loops and cells.
use crate::tables::{MAIN, Nodes, kind, refusal, table};
use checker::Program;
use std::alloc::{AllocError, Global};
use std::test::*;

// A write of a constant under so many plus signs.
fn signs(heap: Global, count: u16) -> Result<Vec<u8>, AllocError> {
    let mut nodes = Nodes::new(heap);
    nodes.push(kind(41), 1)?;
    nodes.push(kind(42), 0)?;
    for _ in 0..count {
        nodes.push(kind(3), 0)?;
    }
    nodes.push(kind(1), 5)?;
    table(heap, &MAIN, nodes.bytes.as_slice())
}

// So many loops without name, one in the other, around a skip.
fn loops(heap: Global, count: u16) -> Result<Vec<u8>, AllocError> {
    let mut nodes = Nodes::new(heap);
    nodes.push(kind(41), 1)?;
    for _ in 0..count {
        nodes.push(kind(36), 0)?;
        nodes.push(kind(41), 1)?;
    }
    nodes.push(kind(32), 0)?;
    table(heap, &MAIN, nodes.bytes.as_slice())
}

// In main with 32 variables, a sum whose right operand is a sum, and so on: one cell more than there are sums.
fn sums(heap: Global, count: u16) -> Result<Vec<u8>, AllocError> {
    let mut nodes = Nodes::new(heap);
    nodes.push(kind(41), 1)?;
    nodes.push(kind(42), 0)?;
    for _ in 0..count {
        nodes.push(kind(6), 0)?;
        nodes.push(kind(1), 1)?;
    }
    nodes.push(kind(1), 1)?;
    table(heap, &[2, 0, 0, 0, 0, 0], nodes.bytes.as_slice())
}

#[test]
fn nesting(rt: HostRuntime) -> Result<(), Fail> {
    let fits = signs(rt.alloc(), 125)?;
    assert_eq!(rt; refusal(fits.as_slice()), None);
    let deeper = signs(rt.alloc(), 126)?;
    assert_eq!(rt; refusal(deeper.as_slice()), Some((13, 128)));
    Ok(())
}

#[test]
fn open_loops(rt: HostRuntime) -> Result<(), Fail> {
    let fits = loops(rt.alloc(), 16)?;
    assert_eq!(rt; refusal(fits.as_slice()), None);
    let more = loops(rt.alloc(), 17)?;
    assert_eq!(rt; refusal(more.as_slice()), Some((17, 33)));
    Ok(())
}

#[test]
fn cells(rt: HostRuntime) -> Result<(), Fail> {
    let fits = sums(rt.alloc(), 31)?;
    assert_eq!(rt; refusal(fits.as_slice()), None);
    let more = sums(rt.alloc(), 32)?;
    assert_eq!(rt; refusal(more.as_slice()), Some((19, 0)));
    Ok(())
}

// A block of 8,191 skips is the largest that one function can have.
#[test]
fn largest(rt: HostRuntime) -> Result<(), Fail> {
    let mut nodes = Nodes::new(rt.alloc());
    nodes.push(kind(41), 8191)?;
    for _ in 0..8191u16 {
        nodes.push(kind(32), 0)?;
    }
    let bytes = table(rt.alloc(), &MAIN, nodes.bytes.as_slice())?;
    assert_eq!(rt; refusal(bytes.as_slice()), None);
    Ok(())
}

// A caller's program starts as the smallest, takes a table that passes and keeps it when another is refused.
#[test]
fn replaced(rt: HostRuntime) -> Result<(), Fail> {
    let mut program = Program::new();
    assert_eq!(rt; refusal(program.table()), None);
    assert_eq!(rt; program.passed().words, 2);
    let fits = loops(rt.alloc(), 16)?;
    assert!(rt; program.replace(fits.as_slice()).is_ok());
    assert_eq!(rt; program.passed().words, 18);
    let more = loops(rt.alloc(), 17)?;
    assert!(rt; program.replace(more.as_slice()).is_err());
    assert_eq!(rt; program.passed().words, 18);
    assert_eq!(rt; program.table().len(), fits.len());
    Ok(())
}
