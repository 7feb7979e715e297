//! Terms by numbers: an arena keeps each term once, so two of its numbers are equal exactly where
//! their terms are.
//!
//! `arena.put_word(&t, &mut steps)?` gives the number of a term, and puts it and what stands in it
//! into the arena where they aren't there yet; `arena.add(node, &mut steps)?` does so for a `Node`,
//! whose children are numbers. `arena.node(k, &mut steps)` is the node of a number. `Steps` counts
//! the nodes that were looked at, so that contracts above can say how many are. `arena.depth(k)` is
//! how deep the term of a number is, which is kept where a term is added and takes no step.
//!
//! The law that matters is `law_of_arenas`: numbers are equal exactly where their trees are, and
//! keep them when there are more.
#![tactic(auto)]

mod arena;
mod chains;
mod crowded;
mod depths;
mod intern;
mod laws;
mod leaves;
mod node;
mod put;
mod steps;

pub use arena::Arena;
pub use laws::law_of_arenas;
pub use node::Node;
pub use steps::Steps;
