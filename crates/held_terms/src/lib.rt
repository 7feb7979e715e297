//! Triples whose terms are numbers of an arena: put there, compared and looked up, with the rules
//! that compare them alone.
//!
//! A [`Held`] is a triple whose words, memories and conditions are numbers of one
//! [`term_arena::Arena`]; equal terms have equal numbers, so that two are compared without walking
//! through them. `put_triple` puts the terms of a triple into an arena. A rule is a call that says
//! whether a stated triple follows from others by it, exactly where the rule's row holds of the
//! trees that the numbers stand for, and touches no tree:
//! `is_frame(&arena, &p, &stated, same_code)`, `is_composition(alloc, &arena, &p, &q, &stated,
//! union)`. Here are the rules that read no nodes. The crates `held_instances`, `held_consequence`
//! and `held_definitions` have those that do.
//!
//! What a rule asks of the codes is told by the caller: whether they are the same, whether one lies
//! within the other, whether one is the union of two, whether one is the group's own. So no rule
//! walks through bytes. Triples share the facts and the code that a rule leaves as they are
//! ([`Shared`]).
//!
//! A fact among more than a few is looked up by the order of its numbers ([`Facts`]), and so is one
//! among those of a way, which come and go at its end ([`Way`]).
#![tactic(auto)]

mod copies;
mod facts;
mod further;
mod held;
mod later_rules;
mod missing;
mod put;
mod rules;
mod same;
mod shared;
mod way;

pub use copies::{copy_fact, copy_facts, copy_side, copy_to_share};
pub use facts::Facts;
pub use held::{Held, HeldFact, HeldSide, HeldValues};
pub use later_rules::{is_exchanged, is_steered};
pub use put::{put_facts, put_mem, put_mems, put_side, put_triple, put_word};
pub use rules::{is_composition, is_extension, is_frame};
pub use same::{same_mem, same_side, same_triple, same_word};
pub use shared::Shared;
pub use way::Way;
