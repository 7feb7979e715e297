//! What an accepted proof file says of the machine: what the evaluation of its functions gives, the
//! machine does.
//!
//! `check_source(..)` judges a proof text for an ELF file, line by line, and nothing is searched
//! for: a line states a rule, the theorems that it cites by number, and its conclusion. Its
//! `Verdict` is that all is accepted, or the first thing that is wrong, with its place. It asks
//! what it is given how lines are read, when one is right (`RuledLines`), and who judges them
//! (`JudgeProofs`): the crate `checker` does.
//!
//! The law that matters is `law_of_proofs`: what is accepted makes the `Headline` true. For each
//! state at a function's entry that holds the file's code, where evaluation gives a value with
//! every needed condition true, the machine comes to the exit with that value, and all else is
//! unchanged. It stands on `law_of_lines`, that a right line keeps all theorems valid, and on
//! `law_of_exits`, that a closed definition is right.
//!
//! That it is so over two regions that are apart, for texts of version 4, whose groups have two
//! memories, rests on a second law beside: a valid triple doesn't say which of two memories lies in
//! which region, but the triples of a proof also keep the addresses of each memory
//! (`law_of_addresses`), and both together tell where the machine goes (`law_of_regions`).
#![tactic(auto)]

mod check;
mod file_code;
mod laws;
mod line_judge;
mod verdict;

pub use check::{check_source, judge_group};
pub use laws::{law_of_addresses, law_of_exits, law_of_lines, law_of_proofs, law_of_regions};
pub use line_judge::{JudgeLines, JudgeProofs, Judged, RuledLines, RuledReader};
pub use verdict::{Pulled, Verdict};
