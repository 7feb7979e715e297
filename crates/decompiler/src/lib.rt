//! The decompiler: for each name of a file the function's group, with the lines of its proof.
//! Nothing is lost: a run of the machine that returns is an evaluation, whose turns count its
//! steps.
#![tactic(auto)]

mod bytes;
mod fault;
mod functions;
mod laws;
mod making;
mod name;
mod text;

pub use bytes::law_of_bytes;
pub use fault::LinkFault;
pub use functions::{Alone, cause_of, decompile, fault_alone};
pub use laws::{
    law_of_counted_steps, law_of_functions, law_of_items, law_of_links, law_of_parts,
    law_of_returns,
};
pub use making::{MakeItems, item_at, items_of};
pub use name::address_of;
pub use path_walk::{DecompileFault, Item, Proof};
pub use text::{bytes_in, entry_of, proof_bytes, put_item};
