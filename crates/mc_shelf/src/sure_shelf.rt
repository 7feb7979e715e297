//! A shelf in memory that never fails.

ghost use Rattle.std.specs.Prelude.{◌≡◌, [], Some, Ok as Done, OnOk, OnErr, zero};
ghost use Rattle.mc_shelf.specs.Shelf.{Appends, KeepsOthers};
ghost use Rattle.mc_shelf.specs.SureShelf.{sure_contents, surely_held};

use crate::files::Files;
use crate::mem_shelf::copy_part;
use crate::shelf::Shelf;
use crate::sink::{Failed, Stop};
use rv_words::NoMemory;
use std::alloc::Global;
use std::marker::Model;

/// A shelf in memory on which no call fails and no name is missing: one that it wasn't given holds
/// nothing.
#[derive(Drop)]
pub struct SureShelf {
    files: Files,
}

impl Model for SureShelf {
    ghost use Rattle.mc_shelf.specs.Files.{Files};

    ghost Value = { Files };

    ghost view = { λ s. s.files };
}

impl SureShelf {
    /// A shelf whose names hold nothing.
    pub fn new(alloc: Global) -> SureShelf
        ensures { result ≡ [] }
    {
        SureShelf {
            files: Files::new(alloc),
        }
    }

    /// Lets the name hold the bytes.
    pub fn set(&mut self, name: &str, bytes: &[u8]) -> Result<(), NoMemory>
        ensures holds { OnOk result (surely_held self.new name.now ≡ bytes.now) }
        ensures others { OnOk result (KeepsOthers name.now (sure_contents self.old)
            (sure_contents self.new)) }
        ensures err { OnErr result (self.new ≡ self.old) }
    {
        self.files.set(name, bytes)
    }

    /// What the name holds.
    pub fn held(&self, name: &str) -> &[u8]
        ensures { result.now ≡ surely_held self.now name.now }
    {
        match self.files.get(name) {
            Some(bytes) => bytes,
            None => &[],
        }
    }

    /// Adds the piece at the end of what the name holds.
    fn add(&mut self, name: &str, piece: &[u8]) -> Result<(), NoMemory>
        ensures ok { OnOk result (Appends (Done tt) name.now piece.now (sure_contents self.old)
            (sure_contents self.new)) }
        ensures err { OnErr result (self.new ≡ self.old) }
    {
        if self.files.get(name).is_none() {
            return self.files.set(name, piece);
        }
        self.files.append(name, piece)
    }
}

impl Shelf for SureShelf {
    ghost contents = { λ s. Some (sure_contents s) };

    ghost read_faults = { λ s. zero };

    ghost write_faults = { λ s. zero };

    ghost IsSure = { λ s. Unit {0} };

    fn read(&mut self, name: &str, at: u64, into: &mut [u8]) -> Result<usize, Failed> {
        Ok(copy_part(self.held(name), at, into))
    }

    fn create(&mut self, name: &str) -> Result<(), Stop> {
        self.files.set(name, &[])?;
        Ok(())
    }

    fn append(&mut self, name: &str, bytes: &[u8]) -> Result<(), Stop> {
        self.add(name, bytes)?;
        Ok(())
    }
}
