//! Why a text that is pulled from a file, or what is next in it, can't be read.

/// Why a text that is pulled from a file, or what is next in it, can't be read.
#[derive(Clone, Copy, Debug, PartialEq, Eq)]
pub enum PullFault {
    /// The number of the first line that is missing or with which no text goes on.
    Bad(u64),
    /// The outside failed.
    Fault,
    NoMemory,
}
