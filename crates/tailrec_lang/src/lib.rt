//! Tail-recursive functions over words and memories: groups of definitions, when they are
//! well-formed, and their evaluation.
//!
//! A `Group` is one function of machine code: a list of `Def`s, each of which may call earlier
//! ones, and itself in tail position. A `Def` has a `Body`, a tree of branches with `let`s and
//! needed conditions, whose ends are `End`s: it goes on with itself, calls an earlier one and goes
//! on with an arm for each of its exits, or leaves by an `Exit`.
//!
//! `well_formed(&group)` says whether variables, exits and arms are there in the right number.
//! `eval(alloc, &group, def, &args, turns)?` is a big-step evaluator with fuel: each entry into a
//! body takes a turn, so it ends. It keeps the calls that wait in a list and doesn't recurse. An
//! `Outcome` is an exit with its `Args`, a needed condition that is false, or that all turns were
//! used.
//!
//! The law that matters is `law_of_more_turns`: more turns change no outcome but the last.
//! `law_of_turns` is the induction that proofs about evaluation use: an entry ends as its body does
//! with one turn less.
#![tactic(auto)]

mod args;
mod copy;
mod evaluator;
mod group;
mod laws;
mod needs;
mod passed;
mod scope;
mod walk;

pub use args::Args;
pub use copy::copy_values;
pub use evaluator::{Outcome, eval};
pub use group::{Body, Def, End, Exit, Group, Step, Values};
pub use laws::{law_of_more_turns, law_of_turns};
pub use needs::has_few_needs;
pub use scope::{BadDef, def_at, exits_of, results_at, well_formed};
pub use word_terms::{Code, Range};
