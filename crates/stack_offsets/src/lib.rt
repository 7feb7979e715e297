//! The stack accesses of a function: its loads and stores through a register that holds, whatever
//! walk leads there, the word that x2 has at the entry plus one constant.
//!
//! `stack_accesses(alloc, &graph)?` tells of each node of a function's graph whether its
//! instruction is one. A row of offsets is kept for each node, from the first walk to it on: of
//! each register the offset that all walks followed so far give, or none. A node waits to be
//! followed when its row changes; a row falls at most 32 times, so the work is bounded by the edges
//! of the graph, 33 times each.
//!
//! `law_of_offsets` says what an offset is: in a run along the function's code, the register holds
//! the entry's x2 plus this.
#![tactic(auto)]

mod accesses;
mod laws;
mod row;
mod table;

pub use accesses::stack_accesses;
pub use laws::law_of_offsets;
