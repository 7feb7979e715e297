//! A place for output.

ghost use Rattle.std.specs.Prelude.{◌≡◌, ℕ, ◌≤◌, List, Option, IsErrOf};
ghost use Rattle.mc_shelf.specs.Fault.{Rose, WhereTold};
ghost use Rattle.mc_shelf.specs.Sink.{Adds};
ghost use Rattle.mc_shelf.specs.declared.sink.Stop.TheVariants.{NoMemory as NoRoom};

use rv_words::NoMemory;
use std::alloc::AllocError;

/// A read from outside failed.
#[derive(Clone, Copy, Debug, PartialEq, Eq)]
pub struct Failed;

/// Why a write did not happen, or not in full.
#[derive(Clone, Copy, Debug, PartialEq, Eq)]
pub enum Stop {
    /// The outside failed.
    Failed,
    /// There was no memory.
    NoMemory,
}

impl From<AllocError> for Stop {
    ghost from_gives = { λ _ e. e ≡ NoRoom };

    fn from(_e: AllocError) -> Stop {
        Stop::NoMemory
    }
}

impl From<NoMemory> for Stop {
    ghost from_gives = { λ _ e. e ≡ NoRoom };

    fn from(_e: NoMemory) -> Stop {
        Stop::NoMemory
    }
}

/// A place for output.
pub trait Sink {
    /// The bytes written so far, where they are told.
    ghost written: { Self → Option (List ℕ) };

    /// How often the outside failed. It never falls, and counts no further than 2^64 - 1.
    ghost faults: { Self → ℕ };

    /// Adds the piece. After `Failed` a front of it was added, after `NoMemory` nothing was.
    fn put(&mut self, bytes: &[u8]) -> Result<(), Stop>
        ensures added { WhereTold (written self.old) (written self.new) (Adds result bytes.now) }
        ensures counted { faults self.old ≤ faults self.new }
        ensures cause { IsErrOf result Stop.Failed → Rose (faults self.old) (faults self.new) };
}
