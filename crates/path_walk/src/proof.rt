//! What is made of a list of names.

ghost use Rattle.std.specs.Prelude.{◌≡◌};

use crate::item::Item;
use flow_graph::Outside;
use rv_words::{List, NoMemory};

/// An item for each name.
#[derive(Debug, Drop)]
pub struct Proof {
    pub items: List<Item>,
}

/// Why there is no proof.
#[derive(Debug, Drop)]
pub enum DecompileFault {
    /// The name of that number, counted from 0, is outside the fragment.
    Refused { name: u64, why: Outside },
    /// There was no memory.
    NoMemory,
}

impl From<NoMemory> for DecompileFault {
    ghost use Rattle.path_walk.specs.declared.proof.DecompileFault.TheVariants.{NoMemory};

    ghost from_gives = { λ _ e. e ≡ NoMemory };

    fn from(_e: NoMemory) -> DecompileFault {
        DecompileFault::NoMemory
    }
}
