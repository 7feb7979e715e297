//! Loops and cuts of reached code.
//!
//! `find_loops(alloc, &graph)?` gives the `Forest` of a control-flow graph: its natural loops,
//! which of them lies in which, their exits, and the cuts; or the fault that the graph has two
//! entries into a cycle (it is irreducible), or a loop with more than 8 exits. `forest.head(l)`,
//! `forest.inside(l, n)` and `forest.exits(l)` tell of a loop, `forest.region(n)` the innermost
//! loop around a node, `forest.is_cut(n)` whether a path is to be interrupted there.
//!
//! `post_order` is a depth-first search with its path in a list; nothing recurses. An edge to a
//! node on the path must be a back edge, whose target dominates its source: a backward search from
//! the source that avoids the target doesn't come to the entry (`second_entry`). `number` is the
//! post-order number, which falls along each other edge. The natural loop of a head is what reaches
//! the sources of its back edges without it: `reaching_without`, a backward breadth-first search.
//!
//! The law that matters is `law_of_walks`, all that a walk along the code may rest on;
//! `law_of_one_forest` says that no graph has two of these answers.
#![tactic(auto)]

mod backward_search;
mod cut_tables;
mod cuts;
mod depth_first;
mod entries;
mod forest;
mod heads;
mod laws;
mod loops;
mod node_set;
mod region_table;
mod second_entry;

pub use forest::{Forest, find_loops};
pub use laws::{law_of_depths, law_of_one_forest, law_of_two_entries, law_of_walks};
