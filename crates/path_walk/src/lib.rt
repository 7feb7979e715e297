//! The proof lines that close the definitions of a function's parts.
//!
//! `item_of(alloc, name, &graph, &forest)?` makes of the reached code of a function alone and its
//! loops an `Item`: the group of the function, a definition for each part, and the lines of a proof
//! that `checker` accepts. `walk(alloc, &graph, &forest, &earlier, part, first, &mut lines)?` gives
//! the definition of one part, and adds the lines that close it behind those of the earlier parts,
//! whose places are the numbers of their definitions.
//!
//! `walk_all` goes through the parts in order, each after those that it calls, and `walk_in`
//! through one part: it follows the branches of its code from its first node to the next cuts,
//! which is symbolic execution along each path. At each instruction it states the axiom, puts in
//! the current variables, names what it writes by a new one, frames it, and joins it to the theorem
//! of the way there; a line that would state what the one before it does isn't written. Several
//! instructions that follow one another and touch few registers are a block: they are joined over
//! these registers, and then framed to all at once. A call of a part is a step by the fact that
//! this part leaves by an exit. A path's last theorem is cited as a leaf, and a line `loop` closes
//! the definition by its leaves. Behind it each theorem of the part is forgotten, in order: later
//! parts need only that the definition is closed. A `ProofWriter` numbers the theorems, a
//! `CitedTheorem` is one of them with its facts and code.
//!
//! `linked_item(alloc, name, &group)?` makes of linked functions (`linked_group`) an `Item` of
//! version 3 in the same way: one function after the other, callees first, all over the code of the
//! group. At a call of a function the way goes through that function's exit, and `steer` leads it
//! on behind the call, where the fact that the return was to there is at hand.
//!
//! `split_item(alloc, name, &graph, &forest, &second)?` makes an `Item` of version 4 of a function
//! alone with two memories: the accesses at the addresses of `second` use the second one. The
//! theorem of such an access has its own memory in front, and `exchange` puts the two in order.
//!
//! That each line is right after those before it is in the contract of `item_of` (`IsItemOf`), and
//! that no theorem is kept after them (`KeepsNone`); `walk` says it of each part's lines
//! (`IsWalkedAfter`). The law that matters beside it is `law_of_texts`: the group can be written
//! and read again. A `Proof` has an item for each name, or a `DecompileFault` says why there is
//! none.
#![tactic(auto)]

mod all_parts;
mod blocks;
mod body_lines;
mod compose;
mod cut_lines;
mod enter_lines;
mod exit_lines;
mod instruction_lines;
mod item;
mod laws;
mod linked;
mod one_part;
mod origin;
mod proof;
mod proof_writer;
mod split;
mod subs;

pub use code_parts::Part;
pub use item::{Item, item_of};
pub use laws::law_of_texts;
pub use linked::linked_item;
pub use one_part::{Walked, walk};
pub use proof::{DecompileFault, Proof};
pub use split::split_item;
