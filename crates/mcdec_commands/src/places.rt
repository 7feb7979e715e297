//! The order in which ranges of bytes are put into a memory.

use rv_words::{NoMemory, Range};
use std::alloc::Global;

/// The address at which a range begins, and its place in a list.
#[derive(Clone, Copy)]
pub struct Start {
    at: u64,
    pub place: usize,
}

/// Where ranges begin, by address. The pieces of a memory rise, and one that is put in front of
/// others moves them: of ranges that are put into a memory in this order, none is put in front of
/// another.
pub fn starts_by_address(alloc: Global, ranges: &[Range]) -> Result<Vec<Start>, NoMemory> {
    let mut starts = Vec::new(alloc);
    for (place, range) in ranges.iter().enumerate() {
        starts.push(Start {
            at: range.at,
            place,
        })?;
    }
    starts.sort_by_key(|start| start.at)?;
    Ok(starts)
}
