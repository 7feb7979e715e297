//! Why there is no proof, in any form.

ghost use Rattle.std.specs.Prelude.{◌≡◌};

use code_parts::LinkWhy;
use rv_words::NoMemory;

/// Why there is no proof.
#[derive(Debug, Drop)]
pub enum LinkFault {
    /// The name of that number, counted from 0, has this fault.
    Refused { name: u64, why: LinkWhy },
    /// There was no memory.
    NoMemory,
}

impl From<NoMemory> for LinkFault {
    ghost use Rattle.decompiler.specs.declared.fault.LinkFault.TheVariants.{NoMemory};

    ghost from_gives = { λ _ e. e ≡ NoMemory };

    fn from(_e: NoMemory) -> LinkFault {
        LinkFault::NoMemory
    }
}
