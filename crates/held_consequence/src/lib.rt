//! The rules of consequence over triples whose terms are numbers of an arena: another precondition
//! or postcondition that facts make the same, and other facts from which those of a theorem follow.
//!
//! Two terms may be swapped where facts say that they are equal: the pairs that were decided stand
//! in a table (`table`), so that each pair of subterms is decided once, and shared subterms don't
//! cost their paths. A pair is looked up by order. Whether a condition follows from facts is
//! decided by those alone that say that one of its class is true (`classes`, `candidates`): terms
//! that facts let stand for one another have one class.
#![tactic(auto)]

mod alone;
mod candidates;
mod classes;
mod conditions;
mod following;
mod rules;
mod sides;
mod swaps;
mod table;

pub use rules::{is_discharged, is_strengthened, is_weakened};
