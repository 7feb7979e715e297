//! Steps of rewriting.

use rv_words::Bytes;

/// A step: the law of that number is applied to a term of a definition, at a place in it.
/// Definitions are counted from 0, and a definition's terms in the order of its text, from 0 too; a
/// place is the children's numbers on the way to it.
#[derive(Debug, Drop)]
pub struct Rw {
    pub def: u32,
    pub term: u32,
    pub place: Bytes,
    pub law: u32,
}
