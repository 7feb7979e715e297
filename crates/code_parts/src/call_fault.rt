//! Why functions can't be linked.

ghost use Rattle.std.specs.Prelude.{◌≡◌};

use flow_graph::Outside;
use rv_words::NoMemory as OutOfMemory;

/// Why functions can't be linked.
#[derive(Debug, Drop)]
pub enum LinkWhy {
    /// The code is outside the fragment.
    Outside(Outside),
    /// The function with this entry calls itself, by itself or by others.
    Recursive(u64),
}

/// Why there are no linked functions.
#[derive(Debug, Drop)]
pub enum CallGraphFault {
    /// They can't be linked.
    Refused(LinkWhy),
    /// There was no memory.
    NoMemory,
}

impl From<OutOfMemory> for CallGraphFault {
    ghost use Rattle.code_parts.specs.declared.call_fault.CallGraphFault.TheVariants.{NoMemory};

    ghost from_gives = { λ _ e. e ≡ NoMemory };

    fn from(_e: OutOfMemory) -> CallGraphFault {
        CallGraphFault::NoMemory
    }
}
