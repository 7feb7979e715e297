//! Hoare triples over the machine, and theorems: triples that are known to be valid.
//!
//! A `Triple` says of code: where the `Fact`s hold, it leads from a state of which `pre` describes
//! a part to one in which `post` describes it, and leaves the rest of the state alone (separation
//! logic: the frame is built in). Facts and assertions have variables, and a valid triple holds for
//! all values of them.
//!
//! A `Thm` is a triple with the invariant that it is valid for its group, so it is an LCF-style
//! kernel: theorems are made by `Thm::from_valid`, whose caller has proved validity, and by rules.
//! A rule is told its conclusion and compares: `inst(&thm, &sub, stated)` gives the theorem
//! `stated` exactly where that is the instance, and `NoInstance` otherwise. `strengthen`, `weaken`
//! and `discharge` change assertions and facts in the same manner; crates above add the axioms of
//! instructions, composition and the rule of loops.
//!
//! The law that matters is `law_of_validity`, which says what a valid triple claims of states of
//! the machine. Each rule has one that it keeps validity: `law_of_inst`, `law_of_strengthening`,
//! `law_of_weakening`, `law_of_discharge`.
#![tactic(auto)]

mod copy;
mod facts;
mod fault;
mod following;
mod form;
mod image;
mod laws;
mod rules;
mod swap;
mod thm;
mod triple;

pub use copy::{copy_fact, copy_facts};
pub use facts::{are_among, is_among, same_fact, same_facts, same_triple};
pub use fault::RuleFault;
pub use form::Form;
pub use laws::{
    law_of_discharge, law_of_inst, law_of_more_code, law_of_reaching, law_of_states,
    law_of_strengthening, law_of_validity, law_of_weakening,
};
pub use rules::{NoInstance, discharge, inst, strengthen, weaken};
pub use thm::Thm;
pub use triple::{Fact, Triple};
