//! Proof texts: the lines of proofs as text, each written in one way, behind the groups that they
//! prove.
#![tactic(auto)]

mod laws;
mod line;
mod line_facts;
mod line_heads;
mod line_rules;
mod line_subs;
mod line_triples;
mod line_turns;
mod proof_lines;
mod proof_source;
mod pull;
mod pull_fault;
mod pulled_items;
mod pulled_rows;
mod put_lines;
mod read_lines;
mod reader;

pub use group_text::{
    TextFault, Version, law_of_faults, law_of_parts, put_end, put_group, put_head, put_title,
};
pub use laws::{
    law_of_first_proofs, law_of_groups_alone, law_of_one_line, law_of_one_spelling,
    law_of_proof_parts, law_of_proof_texts, law_of_versions,
};
pub use line::{Line, Rule, SpelledLine};
pub use line_rules::{read_form, read_instruction, read_theorem};
pub use line_triples::is_other_code;
pub use line_turns::ProofEnd;
pub use proof_lines::read_theorems;
pub use proof_source::ProofSource;
pub use pull::Pull;
pub use pull_fault::PullFault;
pub use put_lines::{put_cited, put_form, put_line, put_newer_line, put_stated_code, put_theorems};
pub use read_lines::{ReadLines, SpelledLines, WholeLines};
pub use reader::Reader;
