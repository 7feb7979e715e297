//! Tests of what the crates up to the checks do with texts, and of the walk that writes proofs.
//! They stand apart, since a crate with tests is proved twice.
#![tactic(auto)]

#[cfg(test)]
mod tests;
