//! SMT-LIB 2.6 scripts of `define-fun` commands: their terms, sorts, values and texts; the
//! operations of words, and loads and stores, as functions of scripts; and the values of
//! applications of a script's functions.
#![tactic(auto)]

mod accesses;
mod apply;
mod array;
mod binding;
mod datum;
mod evaluation;
mod find;
mod functions;
mod given;
mod head;
mod laws;
mod names;
mod numeral;
mod operands;
mod operations;
mod operator;
mod parts;
mod print;
mod scope;
mod script;
mod smt;
mod sort;
mod tree;
mod value;
mod vector;

pub use binding::bound;
pub use functions::helpers;
pub use laws::law_of_helpers;
pub use names::{name_of_ext, name_of_inside, name_of_load, name_of_op, name_of_store};
pub use print::script_bytes;
pub use script::{Fun, Script};
pub use smt::Smt;
pub use sort::Sort;
pub use tree::{Tree, atom, is_atom, ite, numbered, one, three, two, word};
pub use value::value_of;
