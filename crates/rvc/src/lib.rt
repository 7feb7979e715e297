//! Compressed instructions of two bytes (RISC-V Unprivileged ISA 20191213, chapter 16), and what
//! stands at an address.
//!
//! `decode_compressed(parcel)` gives the instruction for which a number of two bytes stands, and
//! `expand(parcel)` the word of four bytes that it is short for. `instruction_of(n)` takes either:
//! `is_word(n)` tells by the low two bits which it is, and `length_of(n)` how many bytes it has.
//!
//! The table is `specs/Expands.antt`, a row for each compressed instruction, in the order of the
//! manual's tables. The law that matters is `law_of_expansion`: a parcel expands to one word at
//! most, which decodes to its instruction.
#![tactic(auto)]

mod expansion;
mod laws;
mod number;
mod parcel;
mod rows;

pub use expansion::{decode_compressed, expand};
pub use laws::law_of_expansion;
pub use number::{instruction_of, is_word, length_of};
