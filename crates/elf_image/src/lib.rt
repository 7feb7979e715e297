//! ELF files: which are read, and what they put into memory.
//!
//! `read(alloc, &file)?` gives the `Image` of an executable or a shared object for RISC-V (System V
//! ABI, ELF-64 object files), or the `ElfFault` that is the first of a fixed list that the file
//! has: nothing in a file is believed before it is tested. An `Image` is the file's `Piece`s, one
//! for each PT_LOAD, rising by address, and its function symbols.
//!
//! `image.code_byte(a)` is the byte at `a` of an executable piece, if the file gives it;
//! `image.byte_at(a)` that of any piece, with the zeros that memory has beyond the file.
//! `image.symbol(b"gcd")` is the address of a function, or the `NameFault` that it has none or two.
//!
//! The law that matters is `law_of_image`: no address lies in two pieces, so memory, code and
//! symbols are what the definitions make of the file's bytes, whatever the order of the program
//! headers.
#![tactic(auto)]

mod checks;
mod fault;
mod header;
mod image;
mod laws;
mod numbers;
mod reader;
mod section;
mod section_checks;
mod symbol;

pub use fault::ElfFault;
pub use image::{Image, Piece};
pub use laws::law_of_image;
pub use reader::read;
pub use symbol::NameFault;
