//! What no clause says: that the calls succeed while there is memory, and outside vectors.

mod assertions;
mod compressed;
mod decoding;
mod drawn;
mod edges;
mod elf_files;
mod forests;
mod graphs;
mod interned;
mod machine;
mod programs;
mod rewriting;
mod rows;
mod shelves;
mod stack;
mod theorems;
mod tokens;
mod words;
