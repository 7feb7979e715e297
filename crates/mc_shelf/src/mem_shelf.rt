//! A shelf in memory, whose calls can be made to fail.

ghost use Rattle.std.specs.Prelude.{◌≡◌, ◌⊎◌, ◌<◌, ◌≤◌, ◌∷◌, ◌++◌, [], length, Some, None, IsSome, IsNone, IsSomeAnd, IsOk, IsErr, IfOk, IsErrOf, OnOk, OnErr};
ghost use Rattle.std.specs.Option.{option_copied};
ghost use Rattle.mc_shelf.specs.Fault.{Rose, one_more};
ghost use Rattle.mc_shelf.specs.Files.{held, with_file, with_more};
ghost use Rattle.mc_shelf.specs.Plan.{kept_at, kept_of};
ghost use Rattle.mc_shelf.specs.Shelf.{ReadsName, ReadsAll, KeepsOthers, Creates, Appends};

use crate::files::Files;
use crate::plan::{Plan, kept_part};
use crate::shelf::Shelf;
use crate::sink::{Failed, Stop};
use rv_words::NoMemory;
use std::alloc::Global;
use std::marker::Model;

/// A shelf in memory. A call that finds no memory changes nothing, and is no call made.
#[derive(Drop)]
pub struct MemShelf {
    files: Files,
    plan: Plan,
    read_faults: u64,
    write_faults: u64,
}

impl Model for MemShelf {
    ghost use Rattle.mc_shelf.specs.MemShelf.{ShelfState};

    ghost Value = { ShelfState };

    ghost view = { λ s. record {
      files = s.files;
      calls = s.plan.calls;
      failures = s.plan.failures;
      read_faults = s.read_faults;
      write_faults = s.write_faults;
    } };
}

impl MemShelf {
    /// A shelf with no name, on which no call was made and none is to fail.
    pub fn new(alloc: Global) -> MemShelf
        ensures { result
            ≡ record { files = []; calls = 0; failures = []; read_faults = 0; write_faults = 0 } }
    {
        MemShelf {
            files: Files::new(alloc),
            plan: Plan::new(alloc),
            read_faults: 0,
            write_faults: 0,
        }
    }

    /// Lets the name hold the bytes.
    pub fn set(&mut self, name: &str, bytes: &[u8]) -> Result<(), NoMemory>
        ensures holds { OnOk result (held self.new.files name.now ≡ Some bytes.now) }
        ensures others { OnOk result (KeepsOthers name.now (held self.old.files)
            (held self.new.files)) }
        ensures ok { OnOk result (self.new
            ≡ record self.old { files = with_file self.old.files name.now bytes.now }) }
        ensures err { OnErr result (self.new ≡ self.old) }
    {
        self.files.set(name, bytes)
    }

    /// Lets a call of the trait fail, by its number from 0. Of its piece an `append` keeps so many
    /// bytes, or all of it where it is shorter; a `create` that fails changes no file.
    pub fn fail(&mut self, call: u64, kept: u64) -> Result<(), NoMemory>
        ensures ok { OnOk result (self.new
            ≡ record self.old { failures = self.old.failures ++ (call, kept) ∷ [] }) }
        ensures err { OnErr result (self.new ≡ self.old) }
    {
        self.plan.fail(call, kept)
    }

    pub fn held(&self, name: &str) -> Option<&[u8]>
        ensures { option_copied result ≡ held self.now.files name.now }
    {
        self.files.get(name)
    }
}

/// Copies as many bytes from that place on as are there and fit.
pub(crate) fn copy_part(file: &[u8], at: u64, into: &mut [u8]) -> usize
    ensures { ReadsAll file.now at result into.old into.new }
{
    if at >= file.len() as u64 {
        return 0;
    }
    let rest = &file[at as usize..];
    let count = rest.len().min(into.len());
    into[..count].copy_from_slice(&rest[..count]);
    count
}

impl Shelf for MemShelf {
    ghost contents = { λ s. Some (held s.files) };

    ghost read_faults = { λ s. s.read_faults };

    ghost write_faults = { λ s. s.write_faults };

    ghost IsSure = { λ s. s.failures ≡ [] };

    fn read(&mut self, name: &str, at: u64, into: &mut [u8]) -> Result<usize, Failed>
        requires { 0 < length into.old }

        // It fails exactly where it is in the list of failures or the name is missing.
        ensures failing { IsErr result
            → IsSome (kept_at self.old.failures self.old.calls)
            ⊎ IsNone (held self.old.files name.now) }
        ensures not_listed { IsOk result → IsNone (kept_at self.old.failures self.old.calls) }
        ensures read { IfOk result (λ n. IsSomeAnd (held self.old.files name.now)
            (λ file. ReadsAll file at n into.old into.new)) }

        ensures ok { OnOk result (self.new ≡ record self.old { calls = one_more self.old.calls }) }
        ensures err { OnErr result (self.new ≡ record self.old {
          calls = one_more self.old.calls;
          read_faults = one_more self.old.read_faults;
        }) }
        ensures buffer_kept { OnErr result (into.new ≡ into.old) }

        // What the trait asks.
        ensures fits { IfOk result (λ n. n ≤ length into.old) }
        ensures copied { IfOk result (λ n.
            ReadsName (held self.old.files name.now) at n into.old into.new) }
        ensures kept { Some (held self.new.files) ≡ Some (held self.old.files) }
        ensures counted { (self.old.read_faults ≤ self.new.read_faults)
            × (self.old.write_faults ≤ self.new.write_faults) }
        ensures writes { self.new.write_faults ≡ self.old.write_faults }
        ensures cause { IsErr result → Rose self.old.read_faults self.new.read_faults }
        ensures stays_sure { self.old.failures ≡ [] → self.new.failures ≡ [] }
        ensures sure_fault { self.old.failures ≡ []
            → IsErr result
            → held self.old.files name.now ≡ None }
        ensures sure_counts { self.old.failures ≡ []
            → IsOk result
            → (self.new.read_faults ≡ self.old.read_faults)
            × (self.new.write_faults ≡ self.old.write_faults) }
    {
        let kept = self.plan.kept();
        self.plan.count();
        match self.files.get(name) {
            Some(file) if kept.is_none() => Ok(copy_part(file, at, into)),
            _ => {
                self.read_faults = self.read_faults.saturating_add(1);
                Err(Failed)
            }
        }
    }

    fn create(&mut self, name: &str) -> Result<(), Stop>
        // It fails exactly where it is in the list of failures.
        ensures listed { IsErrOf result Stop.Failed
            → IsSome (kept_at self.old.failures self.old.calls) }
        ensures not_listed { IsOk result → IsNone (kept_at self.old.failures self.old.calls) }

        ensures ok { OnOk result (self.new ≡ record self.old {
          files = with_file self.old.files name.now [];
          calls = one_more self.old.calls;
        }) }
        ensures failed { IsErrOf result Stop.Failed → self.new ≡ record self.old {
          calls = one_more self.old.calls;
          write_faults = one_more self.old.write_faults;
        } }
        ensures no_memory { IsErrOf result Stop.NoMemory → self.new ≡ self.old }

        // What the trait asks.
        ensures emptied { Creates result name.now (held self.old.files) (held self.new.files) }
        ensures counted { (self.old.read_faults ≤ self.new.read_faults)
            × (self.old.write_faults ≤ self.new.write_faults) }
        ensures reads { self.new.read_faults ≡ self.old.read_faults }
        ensures cause { IsErrOf result Stop.Failed
            → Rose self.old.write_faults self.new.write_faults }
        ensures stays_sure { self.old.failures ≡ [] → self.new.failures ≡ [] }
        ensures sure_fault { self.old.failures ≡ [] → IsErrOf result Stop.Failed → ⊥ }
        ensures sure_counts { self.old.failures ≡ []
            → (self.new.read_faults ≡ self.old.read_faults)
            × (self.new.write_faults ≡ self.old.write_faults) }
    {
        if self.plan.kept().is_some() {
            self.plan.count();
            self.write_faults = self.write_faults.saturating_add(1);
            return Err(Stop::Failed);
        }
        self.files.set(name, &[])?;
        self.plan.count();
        Ok(())
    }

    fn append(&mut self, name: &str, bytes: &[u8]) -> Result<(), Stop>
        // It fails exactly where it is in the list of failures or the name is missing.
        ensures failing { IsErrOf result Stop.Failed
            → IsSome (kept_at self.old.failures self.old.calls)
            ⊎ IsNone (held self.old.files name.now) }
        ensures not_listed { IsOk result → IsNone (kept_at self.old.failures self.old.calls) }
        ensures there { IsOk result → IsSome (held self.old.files name.now) }

        ensures ok { OnOk result (self.new ≡ record self.old {
          files = with_more self.old.files name.now bytes.now;
          calls = one_more self.old.calls;
        }) }
        ensures failed { IsErrOf result Stop.Failed
            → self.new
            ≡ record self.old {
              files = with_more self.old.files name.now
                  (kept_of (kept_at self.old.failures self.old.calls) bytes.now);
              calls = one_more
                  self.old.calls;
              write_faults = one_more self.old.write_faults;
            } }
        ensures no_memory { IsErrOf result Stop.NoMemory → self.new ≡ self.old }

        // What the trait asks.
        ensures added { Appends result name.now bytes.now (held self.old.files)
            (held self.new.files) }
        ensures counted { (self.old.read_faults ≤ self.new.read_faults)
            × (self.old.write_faults ≤ self.new.write_faults) }
        ensures reads { self.new.read_faults ≡ self.old.read_faults }
        ensures cause { IsErrOf result Stop.Failed
            → Rose self.old.write_faults self.new.write_faults }
        ensures stays_sure { self.old.failures ≡ [] → self.new.failures ≡ [] }
        ensures sure_fault { self.old.failures ≡ []
            → IsErrOf result Stop.Failed
            → held self.old.files name.now ≡ None }
        ensures sure_counts { self.old.failures ≡ []
            → (IsErrOf result Stop.Failed → ⊥)
            → (self.new.read_faults ≡ self.old.read_faults)
            × (self.new.write_faults ≡ self.old.write_faults) }
    {
        let kept = self.plan.kept();
        let missing = self.files.get(name).is_none();
        self.files.append(name, kept_part(kept, bytes))?;
        self.plan.count();
        if missing || kept.is_some() {
            self.write_faults = self.write_faults.saturating_add(1);
            return Err(Stop::Failed);
        }
        Ok(())
    }
}
