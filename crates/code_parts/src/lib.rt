//! The functions that calls lead to, callees first, or why they can't be linked; the parts of each
//! one's code, and their definitions; and all of these as one group.
//!
//! `linked_functions(..)` gives the functions that a function calls, directly or by others: each
//! with its graph and its loops. A search collects them from an entry on, with the least of their
//! addresses that has a fault, and whether one of them calls the entry. The rank of a function is
//! how many functions such a search from it finds: along a call it falls, so functions that are
//! sorted by rank stand behind those that they call.
//!
//! `linked_group(alloc, functions)?` gives of linked functions, callees first, what their
//! definitions are made of: the parts of each, in their order, how many definitions stand before
//! its own, and how each is called; and over all of them the registers, the memories and the code.
//! `LinkedGroup::context` is what the flow of one of them has beside its graph.
//!
//! Functions may share code, and then each has definitions of its own for it. The ranges have the
//! bytes of each function's instructions, each address once.
#![tactic(auto)]

mod bodies;
mod call_fault;
mod call_graph;
mod call_laws;
mod call_search;
mod called_addresses;
mod callee;
mod code;
mod context;
mod definition;
mod ends;
mod flow;
mod group;
mod laws;
mod linked;
mod linked_function;
mod linked_uses;
mod order;
mod part;
mod places;
mod ranks;
mod steps;
mod uses;
mod variable_map;
mod variables;

pub use bodies::CUT_DISTANCE_LIMIT;
pub use call_fault::{CallGraphFault, LinkWhy};
pub use call_graph::linked_functions;
pub use call_laws::{law_of_callees, law_of_calls, law_of_one_answer};
pub use callee::Callee;
pub use code::{code_of, law_of_bytes};
pub use context::Context;
pub use definition::{first_node, part_def};
pub use ends::{ends_at, rest_targets, with_pc};
pub use flow::Flow;
pub use group::group_with;
pub use laws::{
    law_of_contexts, law_of_definitions, law_of_entries, law_of_flows, law_of_groups, law_of_orders,
};
pub use linked::{LinkedFunction, LinkedGroup, linked_group};
pub use linked_function::Function;
pub use order::parts_of;
pub use part::Part;
pub use uses::{is_jump_through, is_used, returns, uses_memory};
pub use variable_map::VariableMap;
pub use variables::{after, current, current_mems, fresh};
