//! Terms over 64-bit words and memories, their values, and the code of a function.
//!
//! A `Word` is a term for a word, a `Mem` one for a memory, a `Cond` a condition: trees over
//! numbered variables, in which loads and stores are operations like any other (the theory of
//! arrays, of bytes that are present or absent). An `Env` says what the variables stand for.
//! `value(&t, &env)` evaluates a term, `truth(&c, &env)` a condition, `memory_of` a whole memory;
//! `is_word_in_scope` tells whether an `Env` of that size has all variables of a term.
//!
//! A `Sub` is a simultaneous substitution, and `subst_word(alloc, &t, &sub)?` carries it out. Terms
//! have no binders, so nothing can be captured. A term may have any depth, and calls on it recurse
//! as deep: what reads texts gives none deeper than `DEPTH_LIMIT`, and `subst_word` makes none.
//!
//! The law that matters is `law_of_substitution`, the substitution lemma: the value of a term after
//! a substitution is the term's value where the listed variables stand for the values of their
//! terms. `law_of_agreement` says that a value depends on the variables that occur alone. `Code` is
//! the bytes of a function, as ranges that rise.
#![tactic(auto)]

mod code;
mod copy;
mod evaluation;
mod laws;
mod scope;
mod substitution;
mod term;

pub use code::{Code, copy_code};
pub use copy::{copy_cond, copy_mem, copy_mems, copy_word, copy_words};
pub use evaluation::{Env, byte_of, memory_of, truth, value};
pub use laws::{
    law_of_agreement, law_of_larger_scopes, law_of_new_variables, law_of_ranges, law_of_scopes,
    law_of_substitution,
};
pub use rv_words::Range;
pub use scope::{is_cond_in_scope, is_mem_in_scope, is_word_in_scope};
pub use substitution::{DEPTH_LIMIT, Sub, TermFault, subst_cond, subst_mem, subst_word};
pub use term::{
    Cond, Mem, Word, depth_cond, depth_mem, depth_word, same_cond, same_mem, same_word,
};
