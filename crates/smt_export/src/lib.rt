//! Functions as SMT-LIB 2.6 commands.
#![tactic(auto)]

mod body_terms;
mod branches;
mod exporting;
mod laws;
mod left;
mod params;
mod reach;
mod results;
mod room;
mod term_trees;
mod told;
mod values;

pub use exporting::{ExportFault, export};
pub use laws::law_of_scripts;
pub use smt_terms::{Fun, Script, Sort, Tree};
pub use told::Told;
