//! Triples whose terms are numbers of an arena that rules make of theorems and of what a line
//! states, as far as they are within the limits of texts.
//!
//! A short line leaves out what can be computed. A rule makes the triple of the theorems that the
//! line cites (`making`), or it is computed and its depth is looked up (`computed`, `limits`). Each
//! call gives the triple within the limits that the rule's row has, or none, where there is no such
//! triple (`MadeIf`). Terms that a line puts in for variables get their numbers by `put_word_terms`
//! and `put_mem_terms`.
#![tactic(auto)]

mod computed;
mod known;
mod limits;
mod making;
mod put_terms;

pub use computed::{axiom, exit, put_in};
pub use known::has_code_within;
pub use making::{composed, discharged, extended, framed, strengthened, weakened};
pub use put_terms::{put_mem_terms, put_word_terms};
