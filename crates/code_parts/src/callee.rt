//! Functions that are called.

/// A function that is called: the address where it is entered, the number of its definition, and
/// whether it returns.
#[derive(Clone, Copy, Debug)]
pub struct Callee {
    pub entry: u64,
    pub def: u32,
    pub returns: bool,
}
