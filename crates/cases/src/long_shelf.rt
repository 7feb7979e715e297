//! A shelf in memory of which one file may be larger than memory is to be.

ghost use Rattle.std.specs.Prelude.{◌≡◌, Some, None, IfSome, IfNone, replicate};
ghost use Rattle.std.specs.Option.{option_copied};
ghost use Rattle.mc_shelf.specs.Files.{held};
ghost use Rattle.mc_shelf.specs.Shelf.{ReadsAll};
ghost use Rattle.cases.specs.Long.{long_of, with_long};

use mc_shelf::{Failed, MemShelf, Shelf, Stop};
use std::marker::Model;

/// A name that holds so many empty lines.
#[derive(Drop)]
pub struct EmptyLines {
    pub name: String,
    pub count: u64,
}

impl Model for EmptyLines {
    ghost use Rattle.std.specs.Prelude.{string_bytes};
    ghost use Rattle.cases.specs.Long.{Long};

    ghost Value = { Long };

    ghost view = { λ l. (string_bytes l.name, l.count) };
}

/// A shelf in memory, and perhaps a name that holds empty lines, for which no memory is taken until
/// something is written to it. Reads of these lines aren't counted among the calls, so none fails.
#[derive(Drop)]
pub struct LongShelf {
    files: MemShelf,
    long: Option<EmptyLines>,
}

impl Model for LongShelf {
    ghost use Rattle.cases.specs.Long.{LongState};

    ghost Value = { LongState };

    ghost view = { λ s. record { files = s.files; long = s.long } };
}

/// Copies as many newlines from that place of so many on as are there and fit.
fn copy_newlines(count: u64, at: u64, into: &mut [u8]) -> usize
    ensures { ReadsAll (replicate count 10) at result into.old into.new }
{
    let size = count.saturating_sub(at).min(into.len() as u64) as usize;
    into[..size].fill(b'\n');
    size
}

impl LongShelf {
    pub fn new(files: MemShelf, long: Option<EmptyLines>) -> LongShelf
        ensures { result ≡ record { files = files; long = long } }
    {
        LongShelf { files, long }
    }

    /// What the name holds in memory.
    pub fn held(&self, name: &str) -> Option<&[u8]>
        ensures { option_copied result ≡ held self.now.files.files name.now }
    {
        self.files.held(name)
    }

    /// How many empty lines the name holds, if it is the long one.
    fn lines_of(&self, name: &str) -> Option<u64>
        ensures some { IfSome result (λ count.
            long_of self.now.long name.now ≡ Some (replicate count 10)) }
        ensures none { IfNone result (long_of self.now.long name.now ≡ None) }
    {
        match &self.long {
            Some(long) if long.name.as_str() == name => Some(long.count),
            _ => None,
        }
    }
}

impl Shelf for LongShelf {
    ghost contents = { λ s. Some (with_long s.long (held s.files.files)) };

    ghost read_faults = { λ s. s.files.read_faults };

    ghost write_faults = { λ s. s.files.write_faults };

    ghost IsSure = { λ _. ⊥ };

    fn read(&mut self, name: &str, at: u64, into: &mut [u8]) -> Result<usize, Failed> {
        match self.lines_of(name) {
            Some(count) if self.files.held(name).is_none() => Ok(copy_newlines(count, at, into)),
            _ => self.files.read(name, at, into),
        }
    }

    fn create(&mut self, name: &str) -> Result<(), Stop> {
        self.files.create(name)
    }

    fn append(&mut self, name: &str, bytes: &[u8]) -> Result<(), Stop> {
        self.files.append(name, bytes)
    }
}
