//! Functions with a second memory, as one for the stack: an item for each name of a file, in which
//! stack accesses use the second memory, and proofs of these as texts of version 4, in which each
//! group has two memories, and a line may state a triple by `exchange`.
//!
//! `split(alloc, &image, &names)?` gives the items, or tells the first name that is outside the
//! fragment, and why. `split_bytes` is the text of them, in version 4. `check_split`, which
//! proof_v2 has, judges a text of that version; `exchange` is its further rule.
//!
//! Axioms of loads and stores have one memory, and `frame` puts a further one behind it. `exchange`
//! gives the theorem in which the further one stands first, so that an instruction may speak of
//! either of two memories. That what is accepted makes the `Headline` true over two regions rests
//! on the laws of kept_addresses (`law_of_addresses`, `law_of_regions`).
#![tactic(auto)]

mod functions;
mod laws;
mod text;

pub use frame_compose::exchange;
pub use functions::{WithStack, split};
pub use laws::law_of_split_items;
pub use proof_v2::check_split;
pub use text::split_bytes;
pub use verdicts::{law_of_addresses, law_of_regions};
