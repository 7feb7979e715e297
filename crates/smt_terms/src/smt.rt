//! Values as they are given and told.

use rv_words::ByteMap;

/// A value: a truth; a bit-vector, as its width and its number; or an array of bits or of bytes,
/// whose elements that the map lacks are 0. The elements of an array of bits are bytes 0 and 1.
#[derive(Debug, Drop)]
pub enum Smt {
    Bool(bool),
    Bits(u32, u128),
    Bytes(ByteMap),
}
