//! A test of the whole way on code that is drawn from a number: it is decompiled, run and
//! evaluated. Such code returns, within a bound on its steps, and is never refused: its graph has
//! no fault, and its loops are entered at one place and left at one.
#![tactic(auto)]

mod evaluation;
mod laws;
mod outcome;
mod run;

pub use laws::{
    law_of_files, law_of_pieces, law_of_program_files, law_of_program_flow, law_of_programs,
};
pub use outcome::{Outcome, self_test};
