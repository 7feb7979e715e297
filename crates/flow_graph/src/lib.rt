//! Reached code: the instructions that are reached from an entry, and where they lead, in a
//! function alone or in one of several linked functions.
#![tactic(auto)]

mod flow;
mod graph;
mod laws;
mod links;
mod outside;
mod reach;
mod visited;

pub use flow::{called_by, look};
pub use graph::{Graph, build, build_linked};
pub use laws::{law_of_edges, law_of_instructions, law_of_one_answer, law_of_reach};
pub use links::Edges;
pub use outside::{FlowFault, Outside};
pub use reach::{REACH_LIMIT, reached};
pub use visited::Visited;
