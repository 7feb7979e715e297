//! The commands of a decompiler from RISC-V machine code into logic, over a shelf of files and a
//! sink.
//!
//! `run_words(alloc, &words, &mut shelf, &mut out)` does what the words of a command line say,
//! prints the lines of the answer into the sink, and gives its exit status. Each command has a
//! file, with one call that reads what the command needs and makes an `Answer`: `answer_eval`,
//! `answer_run` and so on. `decompile`, `simplify`, `smt` and `migrate` write a file, only after
//! all that can be refused was tried, by `output::write_answer`.
//!
//! A `Shelf` is files by name and a `Sink` the output, both traits of mc_shelf, so that proofs and
//! tests run the same code as the program does, over files in memory.
//!
//! The promises to a user are the clauses of `run_words`: `lines`, that the answer is one which the
//! definitions give to words and files; `exact`, that it comes but for faults of the outside and
//! out of memory; `headline`, that status 0 of `check` makes the functions right of the ELF file;
//! `rewritten`, that status 0 of `laws` carries what is claimed of a function over to the rewritten
//! one; `written` and `kept`, what names hold afterwards. `law_of_written_texts` says that what
//! `decompile`, `link` and `split` write is accepted.
//!
//! A certificate of rewriting says that other definitions evaluate as those of a group do, on
//! 64-bit words and memories of bytes. So what the headline says of the group's function, and that
//! nothing is lost, holds of the rewritten one in each state of the machine: there registers are
//! 64-bit words (`law_of_rewritten_functions`). A script has functions whose values tell each
//! evaluation. So where `ok` is true of what a state holds, the machine reaches what they tell, and
//! where the machine returns, they tell with what (`law_of_exported_functions`).
#![tactic(auto)]

mod carried_claims;
mod check;
mod commands;
mod decompile;
mod eval;
mod laws;
mod load;
mod memory;
mod migrate;
mod output;
mod places;
mod run;
mod search;
mod selftest;
mod simplify;
mod smt;
mod written_texts;

pub use carried_claims::{law_of_exported_functions, law_of_rewritten_functions};
pub use commands::run_words;
pub use written_texts::law_of_written_texts;
