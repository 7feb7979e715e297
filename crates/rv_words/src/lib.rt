//! The base of all crates: lists that contracts see as lists, and the operations on 64-bit words.
//!
//! `apply(Op::Add, a, b)`, `extend(Ext::Sx4, a)` and `compare(Cmp::Ltu, a, b)` are the
//! instructions' operations on words of 64 bits (RISC-V Unprivileged ISA 20191213, chapters 2, 5
//! and 7); `operation_value`, `extension_value` and `comparison_holds` say the same of numbers.
//!
//! A `ByteMap` is memory: a finite map from addresses to bytes, kept as a sorted list of pieces
//! that don't overlap, so that a look-up is a binary search. `m.place(a, bytes)?` puts bytes there,
//! `m.load(a, Width::B8)` and `m.store(a, Width::B8, v)` are little-endian and wrap around at 2^64;
//! an absent byte is loaded as 0 and not stored. The laws that matter are `law_of_loads`, that a
//! load is the number of the bytes that lie there and depends on no others, and `law_of_stores`,
//! that a store writes the present bytes of its width alone.
//!
//! A `List` grows, and answers `NoMemory` where it can't; all calls that take memory do so.
#![tactic(auto)]

mod byte_map;
mod comparison;
mod extension;
mod laws;
mod list;
mod memory;
mod operation;
mod pieces;
mod range;
mod width;

pub use byte_map::ByteMap;
pub use comparison::{Cmp, compare};
pub use extension::{Ext, extend};
pub use laws::{law_of_loads, law_of_ranges, law_of_stores};
pub use list::{Bytes, List, Text};
pub use memory::NoMemory;
pub use operation::{Op, apply};
pub use range::Range;
pub use width::Width;
