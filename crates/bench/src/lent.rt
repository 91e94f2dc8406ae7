// What the planner's calls are lent.
use std::alloc::{AllocError, Global};

// The cells of a table of 32 kinds under a top of 4,095.
const CELLS: usize = 33 * 4096;

#[derive(Drop)]
pub struct Lent {
    pub forward: Vec<u8>,
    pub backward: Vec<u8>,
    pub numbers: Vec<u32>,
    pub prices: Vec<Option<u32>>,
}

impl Lent {
    pub fn new(heap: Global) -> Result<Lent, AllocError> {
        Ok(Lent {
            forward: vec![in heap; 0u8; CELLS]?,
            backward: vec![in heap; 0u8; CELLS]?,
            numbers: vec![in heap; 0u32; CELLS]?,
            prices: vec![in heap; None; CELLS]?,
        })
    }
}

// A number that changes with each byte and its place.
pub fn checksum(sum: u64, bytes: &[u8]) -> u64 {
    bytes.iter().fold(sum, |sum, byte| {
        sum.wrapping_mul(31).wrapping_add(u64::from(*byte))
    })
}
