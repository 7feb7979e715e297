//! Functions that call others: an item for each name of a file, of all functions that calls lead to
//! from there, with proofs as texts of version 3, in which a line may state a triple by `steer`.
//!
//! `link(alloc, &image, &names)?` gives the items, or tells the first name whose functions can't be
//! linked, and why. `linked_bytes` is the text of them, in version 3. `check_linked`, which
//! proof_v2 has, judges a text of that version; `steer` is its further rule.
#![tactic(auto)]

mod functions;
mod laws;
mod text;

pub use code_parts::LinkWhy;
pub use decompiler::LinkFault;
pub use frame_compose::steer;
pub use functions::{Linked, link};
pub use laws::law_of_linked_items;
pub use proof_v2::check_linked;
pub use text::linked_bytes;
