//! A sink in memory, whose calls can be made to fail.

ghost use Rattle.std.specs.Prelude.{◌≡◌, ◌≤◌, ◌∷◌, ◌++◌, [], Some, IsSome, IsNone, IsOk, IsErrOf, OnOk, OnErr};
ghost use Rattle.mc_shelf.specs.Fault.{Rose, WhereTold, one_more};
ghost use Rattle.mc_shelf.specs.Plan.{kept_at, kept_of};
ghost use Rattle.mc_shelf.specs.Sink.{Adds};

use crate::plan::{Plan, kept_part};
use crate::sink::{Sink, Stop};
use rv_words::NoMemory;
use std::alloc::Global;
use std::marker::Model;

/// A sink in memory. A call that finds no memory changes nothing, and is no call made.
#[derive(Drop)]
pub struct MemSink {
    written: Vec<u8>,
    plan: Plan,
    faults: u64,
}

impl Model for MemSink {
    ghost use Rattle.mc_shelf.specs.MemSink.{SinkState};

    ghost Value = { SinkState };

    ghost view = { λ s. record {
      written = s.written.items;
      calls = s.plan.calls;
      failures = s.plan.failures;
      faults = s.faults;
    } };
}

impl MemSink {
    /// A sink that holds nothing, on which no call was made and none is to fail.
    pub fn new(alloc: Global) -> MemSink
        ensures { result ≡ record { written = []; calls = 0; failures = []; faults = 0 } }
    {
        MemSink {
            written: Vec::new(alloc),
            plan: Plan::new(alloc),
            faults: 0,
        }
    }

    /// Lets a call fail, by its number from 0. Of its piece that call keeps so many bytes, or all
    /// of it where it is shorter.
    pub fn fail(&mut self, call: u64, kept: u64) -> Result<(), NoMemory>
        ensures ok { OnOk result (self.new
            ≡ record self.old { failures = self.old.failures ++ (call, kept) ∷ [] }) }
        ensures err { OnErr result (self.new ≡ self.old) }
    {
        self.plan.fail(call, kept)
    }

    pub fn written(&self) -> &[u8]
        ensures { result.now ≡ self.now.written }
    {
        self.written.as_slice()
    }
}

impl Sink for MemSink {
    ghost written = { λ s. Some s.written };

    ghost faults = { λ s. s.faults };

    fn put(&mut self, bytes: &[u8]) -> Result<(), Stop>
        // It fails exactly where it is in the list of failures.
        ensures listed { IsErrOf result Stop.Failed
            → IsSome (kept_at self.old.failures self.old.calls) }
        ensures not_listed { IsOk result → IsNone (kept_at self.old.failures self.old.calls) }

        ensures ok { OnOk result (self.new ≡ record self.old {
          written = self.old.written ++ bytes.now;
          calls = one_more self.old.calls;
        }) }
        ensures failed { IsErrOf result Stop.Failed
            → self.new
            ≡ record self.old {
              written = self.old.written
                  ++ kept_of (kept_at self.old.failures self.old.calls) bytes.now;
              calls = one_more
                  self.old.calls;
              faults = one_more self.old.faults;
            } }
        ensures no_memory { IsErrOf result Stop.NoMemory → self.new ≡ self.old }

        ensures added { WhereTold (Some self.old.written) (Some self.new.written)
            (Adds result bytes.now) }
        ensures counted { self.old.faults ≤ self.new.faults }
        ensures cause { IsErrOf result Stop.Failed → Rose self.old.faults self.new.faults }
    {
        let kept = self.plan.kept();
        self.written.extend_from_slice(kept_part(kept, bytes))?;
        self.plan.count();
        match kept {
            None => Ok(()),
            Some(_) => {
                self.faults = self.faults.saturating_add(1);
                Err(Stop::Failed)
            }
        }
    }
}
