//! Files by name.

ghost use Rattle.std.specs.Prelude.{◌≡◌, ℕ, ◌<◌, ◌≤◌, Option, None, IfSome, length, IsOk, IsErr, IsErrOf, IfOk};
ghost use Rattle.mc_shelf.specs.Fault.{Rose, WhereTold};
ghost use Rattle.mc_shelf.specs.Shelf.{Contents, ReadsName, Creates, Appends};

use crate::sink::{Failed, Stop};

/// Files by name.
pub trait Shelf {
    /// What each name holds, where it is told.
    ghost contents: { Self → Option Contents };

    /// How often a read failed. It never falls, and counts no further than 2^64 - 1.
    ghost read_faults: { Self → ℕ };

    /// How often a `create` or an `append` failed, in the same way.
    ghost write_faults: { Self → ℕ };

    /// Whether the outside never fails, but for calls on a missing name.
    ghost IsSure: { Self → Type 0 };

    /// Copies bytes of what the name holds, from place `at` on, and gives their number: at least
    /// one and at most as many as `into` takes, or 0 at the end and past it.
    fn read(&mut self, name: &str, at: u64, into: &mut [u8]) -> Result<usize, Failed>
        requires { 0 < length into.old }
        ensures fits { IfOk result (λ n. n ≤ length into.old) }
        ensures copied { IfOk result (λ n. IfSome (contents self.old) (λ files.
            ReadsName (files name.now) at n into.old into.new)) }
        ensures kept { contents self.new ≡ contents self.old }

        ensures counted { (read_faults self.old ≤ read_faults self.new)
            × (write_faults self.old ≤ write_faults self.new) }
        ensures writes { write_faults self.new ≡ write_faults self.old }
        ensures cause { IsErr result → Rose (read_faults self.old) (read_faults self.new) }

        ensures stays_sure { IsSure self.old → IsSure self.new }
        ensures sure_fault { IsSure self.old
            → IsErr result
            → IfSome (contents self.old) (λ files. files name.now ≡ None) }
        ensures sure_counts { IsSure self.old
            → IsOk result
            → (read_faults self.new ≡ read_faults self.old)
            × (write_faults self.new ≡ write_faults self.old) };

    /// Makes the name hold nothing. After `Failed` it holds what it held, or nothing; after
    /// `NoMemory` what it held.
    fn create(&mut self, name: &str) -> Result<(), Stop>
        ensures emptied { WhereTold (contents self.old) (contents self.new)
            (Creates result name.now) }

        ensures counted { (read_faults self.old ≤ read_faults self.new)
            × (write_faults self.old ≤ write_faults self.new) }
        ensures reads { read_faults self.new ≡ read_faults self.old }
        ensures cause { IsErrOf result Stop.Failed
            → Rose (write_faults self.old) (write_faults self.new) }

        ensures stays_sure { IsSure self.old → IsSure self.new }
        ensures sure_fault { IsSure self.old → IsErrOf result Stop.Failed → ⊥ }
        ensures sure_counts { IsSure self.old
            → (read_faults self.new ≡ read_faults self.old)
            × (write_faults self.new ≡ write_faults self.old) };

    /// Adds the piece at the end of what the name holds. After `Failed` a front of it was added,
    /// after `NoMemory` nothing was. A missing name is a failure.
    fn append(&mut self, name: &str, bytes: &[u8]) -> Result<(), Stop>
        ensures added { WhereTold (contents self.old) (contents self.new)
            (Appends result name.now bytes.now) }

        ensures counted { (read_faults self.old ≤ read_faults self.new)
            × (write_faults self.old ≤ write_faults self.new) }
        ensures reads { read_faults self.new ≡ read_faults self.old }
        ensures cause { IsErrOf result Stop.Failed
            → Rose (write_faults self.old) (write_faults self.new) }

        ensures stays_sure { IsSure self.old → IsSure self.new }
        ensures sure_fault { IsSure self.old
            → IsErrOf result Stop.Failed
            → IfSome (contents self.old) (λ files. files name.now ≡ None) }
        ensures sure_counts { IsSure self.old
            → (IsErrOf result Stop.Failed → ⊥)
            → (read_faults self.new ≡ read_faults self.old)
            × (write_faults self.new ≡ write_faults self.old) };
}
