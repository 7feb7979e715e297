//! The judge of a proof's lines whose terms are numbers of an arena.
//!
//! [`Bench`] judges the lines of a group's proof, one after the other, and keeps the theorems that
//! can still be cited and the definitions that are closed. It keeps no trees. The terms of a line
//! are put into one arena, which has each term once, and a rule compares numbers; so a term that
//! occurs in a thousand theorems is kept and compared as one.
//!
//! `bench.judge(alloc, &line, &mut steps)` is Ok exactly where the line is an `Instance` after what
//! the bench holds, and `bench.judge_spelled` where a line as it is spelled, whose triple's code is
//! left out where that is the group's own, is an `InstanceBy` the further rule of its version. What
//! it holds stands for a `History` (`state_history`), and that is as it was after a refusal, while
//! the arena may have more terms. A theorem that was forgotten takes no place; `bench.kept()` is
//! how many there are. The type keeps that each theorem is valid and each closed definition right,
//! by the checker's law of lines, so that nothing is proved again of the rules.
//!
//! `bench.derive(alloc, &line, &mut steps)` does so for a short line, whose terms are numbers of
//! the arena and which leaves out what can be computed: it is Ok exactly where some triple within
//! the limits of texts makes the line right (`IsShortInstance`), and then holds that triple; so
//! does `bench.derive_spelled` for one as it is spelled, where the group's own code is left out.
//! The crate `derived_triples` makes the triple. `law_of_full_lines` says that short lines stand
//! for as many lines of version 1, each right after those before it, and `law_of_one_full_line`
//! that a short line stands for one alone.
//!
//! A loop over the lines of a text of version 2 puts the terms of its table in first, by
//! `bench.add(node, &mut steps)`: each gets its number in the table (`law_of_new_terms`). What
//! `derive` asks of a line then holds of each line that is read beside the table
//! (`law_of_read_lines`, `law_of_larger_tables`), and what it asks of the theorems goes on to hold
//! (`law_of_limits`).
//!
//! `bench.theorem(alloc, k, &mut steps)` gives a theorem as trees, a `Thm` of the kernel, and
//! `bench.admit(alloc, &triple)` adds a valid triple as one.
//!
//! `OverNumbers` and `OverTables` judge the proofs of a text by such benches, for the check of the
//! crate `checker`: those whose lines state whole triples (`WholeLines`), by the further rule of
//! their version too, and those of version 2 (`ByTable`), whose terms stand in a table.
//! `check_bytes(alloc, &elf, &proof)` checks a text of version 1, `check_text` and, for an image
//! that was read before, `check_image` one of any version of the first kind, and `check_pulled` one
//! in a file; `check_short` and `check_pulled_short` are the check of texts of version 2.
#![tactic(auto)]

mod bench;
mod check;
mod derive;
mod further_rule;
mod judge;
mod keep;
mod known;
mod laws;
mod rules;
mod short_check;
mod short_judge;
mod stating;
mod trees;
mod whole_judge;

pub use bench::Bench;
pub use check::{check_bytes, check_image, check_pulled, check_text};
pub use laws::{
    law_of_full_lines, law_of_larger_tables, law_of_limits, law_of_new_terms, law_of_one_full_line,
    law_of_read_lines, law_of_short_proofs,
};
pub use short_check::{check_pulled_short, check_short};
pub use short_judge::{ByTable, OverTables};
pub use whole_judge::{OverNumbers, WholeLines};
