//! Bytes from an address on: of a file, of a piece of code, or of memory.

use crate::list::Bytes;

/// Bytes from an address on, the first of them at `at`.
#[derive(Debug, Drop)]
pub struct Range {
    pub at: u64,
    pub bytes: Bytes,
}
