//! Assertions that say what a part of a machine's state holds, and code as bytes at addresses.
//!
//! An `Assertion` is read as separation logic does: its program counter, registers and memories
//! describe parts of a state that share no key, and nothing is said of the rest.
//! `same_assertion(&a, &b)` compares two. `code_within(&a, &b)` tells whether code lies in other
//! code, and `code_join(alloc, &a, &b)?` makes the code of both.
//!
//! `specs/Part.antt` has parts of a state and their unions. The laws that matter are
//! `law_of_unions`, when parts make up a whole, and `law_of_keys`, what an assertion says of the
//! program counter and of each register and address.
#![tactic(auto)]

mod assertion;
mod code;
mod joining;
mod laws;
mod pieces;
mod search;

pub use assertion::{Assertion, same_assertion, same_mems, same_register, same_registers};
pub use code::{code_agree, code_within, code_within_either, same_code};
pub use joining::code_join;
pub use laws::{law_of_code, law_of_groupings, law_of_keys, law_of_lists, law_of_unions};
pub use word_terms::{Code, Range};
