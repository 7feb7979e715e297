//! Instruction words of four bytes (RISC-V Unprivileged ISA 20191213, RV64IM).
//!
//! `decode(word)` gives the `Instr` that a word is, if it is one, and `encode(&instr)` the word of
//! an instruction, if it has one. `destination`, `is_read` and `is_written` tell which registers it
//! names.
//!
//! The table is `specs/Decodes.antt`: a row for each instruction, in the order of the manual's
//! chapter 24, over the fields and immediates of `specs/Fields.antt`.
#![tactic(auto)]

mod decoder;
mod encoder;
mod fields;
mod formats;
mod instruction;
mod ranges;
mod registers;
mod rows;

pub use decoder::decode;
pub use encoder::encode;
pub use instruction::Instr;
pub use registers::{destination, is_read, is_written};
