//! Why code is outside the fragment.

ghost use Rattle.std.specs.Prelude.{◌≡◌};

use rv_words::{List, NoMemory as OutOfMemory};

/// Why the code behind a name is outside the fragment.
#[derive(Debug, Drop)]
pub enum Outside {
    /// No symbol has the name.
    NoSuch,
    /// Symbols of the name have these two values, the least.
    Ambiguous(u64, u64),
    /// More than 1,024 addresses are reached.
    TooLarge,
    /// No parcel or word of code is at the address.
    OutsideCode(u64),
    /// The parcel or word at the address is no instruction.
    NotDecoded(u64, u32),
    /// A call of the environment, ECALL or EBREAK.
    Environment(u64),
    /// A jump that writes a register. Of linked functions a call by x1 is none.
    Call(u64),
    /// A jump through a register that is no return, which is `jalr x0, 0(x1)`.
    JumpThrough(u64),
    /// An odd address, twice.
    Misaligned(u64, u64),
    /// A cycle, and two walks from the entry that meet it at their last addresses alone, which
    /// differ.
    TwoEntries {
        cycle: List<u64>,
        first: List<u64>,
        second: List<u64>,
    },
    /// The loop with this head has more than 8 exit targets.
    ManyExits(u64),
}

/// Why there is no graph, or no forest.
#[derive(Debug, Drop)]
pub enum FlowFault {
    /// The code is outside the fragment.
    Outside(Outside),
    /// There was no memory.
    NoMemory,
}

impl From<OutOfMemory> for FlowFault {
    ghost use Rattle.flow_graph.specs.declared.outside.FlowFault.TheVariants.{NoMemory};

    ghost from_gives = { λ _ e. e ≡ NoMemory };

    fn from(_e: OutOfMemory) -> FlowFault {
        FlowFault::NoMemory
    }
}
