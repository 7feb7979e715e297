//! Which calls on a store in memory are to fail.

ghost use Rattle.std.specs.Prelude.{◌≡◌, ◌∷◌, ◌++◌, [], OnOk, OnErr};
ghost use Rattle.mc_shelf.specs.Fault.{one_more};
ghost use Rattle.mc_shelf.specs.Plan.{kept_at, kept_of};

use rv_words::{List, NoMemory};
use std::alloc::Global;

/// The calls made so far, and those that are to fail.
#[derive(Drop)]
pub(crate) struct Plan {
    /// How many calls were made.
    pub calls: u64,
    /// The number of a call that is to fail, from 0, and how many bytes of its piece it keeps.
    pub failures: List<(u64, u64)>,
}

impl Plan {
    pub fn new(alloc: Global) -> Plan
        ensures calls { result.calls ≡ 0 }
        ensures failures { result.failures ≡ [] }
    {
        Plan {
            calls: 0,
            failures: List::new(alloc),
        }
    }

    pub fn fail(&mut self, call: u64, kept: u64) -> Result<(), NoMemory>
        ensures ok { OnOk result (self.new
            ≡ record self.old { failures = self.old.failures ++ (call, kept) ∷ [] }) }
        ensures err { OnErr result (self.new ≡ self.old) }
    {
        self.failures.push((call, kept))
    }

    /// How many bytes the next call keeps, where it is to fail.
    pub fn kept(&self) -> Option<u64>
        ensures { result ≡ kept_at self.now.failures self.now.calls }
    {
        for &(call, kept) in self.failures.as_slice() {
            if call == self.calls {
                return Some(kept);
            }
        }
        None
    }

    pub fn count(&mut self)
        ensures { self.new ≡ record self.old { calls = one_more self.old.calls } }
    {
        self.calls = self.calls.saturating_add(1);
    }
}

/// What is kept of the piece: all of it, or of a call that fails its first bytes.
pub(crate) fn kept_part(kept: Option<u64>, piece: &[u8]) -> &[u8]
    ensures { result.now ≡ kept_of kept piece.now }
{
    match kept {
        Some(kept) if kept < piece.len() as u64 => &piece[..kept as usize],
        _ => piece,
    }
}
