//! Code that is drawn from a number, and the ELF file of a program.
#![tactic(auto)]

mod draws;
mod elf;
mod laws;
mod pieces;

pub use elf::{START, elf_file};
pub use laws::{
    law_of_counters, law_of_draws, law_of_shapes, law_of_steps, law_of_targets, law_of_words,
};
pub use pieces::program;
