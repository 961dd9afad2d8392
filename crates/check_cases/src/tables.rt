// Making tables, and what the check tells of them.
use checker::check_table;
use std::alloc::{AllocError, Global};

// The record of a main without variables.
pub const MAIN: [u8; 6] = [0, 0, 0, 0, 0, 0];

// The refusal's number and place, or none for a table that passes.
pub fn refusal(bytes: &[u8]) -> Option<(u8, usize)> {
    check_table(bytes).err().map(|fault| fault.told())
}

// The first byte of a node record without aux.
pub fn kind(number: u8) -> u8 {
    (number & 63) * 4
}

// A table with the function records and node records as they are written, and the counts to them.
pub fn table(heap: Global, records: &[u8], nodes: &[u8]) -> Result<Vec<u8>, AllocError> {
    let functions = records.len() / 6;
    let count = nodes.len() / 3;
    let mut bytes = Vec::new(heap);
    bytes.push(16 + ((functions / 4) & 15) as u8)?;
    bytes.push(((functions & 3) * 64) as u8 + ((count / 256) & 63) as u8)?;
    bytes.push((count & 255) as u8)?;
    bytes.extend_from_slice(records)?;
    bytes.extend_from_slice(nodes)?;
    Ok(bytes)
}

// Node records one behind the other.
#[derive(Drop)]
pub struct Nodes {
    pub bytes: Vec<u8>,
}

impl Nodes {
    pub fn new(heap: Global) -> Nodes {
        Nodes {
            bytes: Vec::new(heap),
        }
    }

    pub fn push(&mut self, first: u8, operand: u16) -> Result<(), AllocError> {
        let [high, low] = operand.to_be_bytes();
        self.bytes.push(first)?;
        self.bytes.push(high)?;
        self.bytes.push(low)?;
        Ok(())
    }
}
