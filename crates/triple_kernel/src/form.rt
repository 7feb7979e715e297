//! The ways on which an instruction goes on.

/// How an instruction goes on: each has an axiom for each way that it has.
#[derive(Clone, Copy, Debug, PartialEq, Eq)]
pub enum Form {
    /// As every instruction does but a branch that is taken.
    Next,
    /// A branch that is taken.
    Taken,
}
