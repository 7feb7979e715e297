//! Definitions over triples whose terms are numbers of an arena: the triples of their exits, and
//! the theorems that close them.
//!
//! `is_exit` says whether a stated triple is that of an exit, and `exit_held` makes that one.
//! `is_closed_by` says whether theorems close a definition, one for each of its leaves, as `close`
//! of the crate `loop_rule` does over trees. A fact of the way to a leaf is put into the arena once
//! for all leaves behind it, and what was asked of a theorem for earlier leaves is kept (`asked`).
#![tactic(auto)]

mod asked;
mod closing;
mod exit_triples;
mod exits;
mod marks;
mod theorems;

pub use closing::is_closed_by;
pub use exit_triples::exit_held;
pub use exits::{is_entry, is_exit};
pub use marks::Marks;
pub use theorems::theorem;
