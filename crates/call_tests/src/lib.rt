//! Tests of the public calls of the crates up to triple_kernel, of graphs, and of certificates and
//! scripts: operations on edge values, words as a disassembler shows them, runs as a C program
//! gives them, files and their lines, loops and stack accesses of worked programs. They stand
//! apart, since a crate with tests is proved twice.
#![tactic(auto)]

#[cfg(test)]
mod tests;
