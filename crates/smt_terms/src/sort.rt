//! Sorts.

/// The sort of a term: a truth, a bit-vector of that many bits, or an array from bit-vectors of 64
/// bits to those of that many bits.
#[derive(Clone, Copy, Debug, PartialEq, Eq)]
pub enum Sort {
    Bool,
    Bits(u32),
    Array(u32),
}
