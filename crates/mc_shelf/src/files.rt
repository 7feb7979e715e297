//! Names and bytes, in memory.

ghost use Rattle.std.specs.Prelude.{◌≡◌, ◌<◌, [], length, IfSome, OnOk, OnErr};
ghost use Rattle.std.specs.Option.{option_copied};
ghost use Rattle.std.specs.List.{position_from};
ghost use Rattle.std.specs.Str.{bytes_eq};
ghost use Rattle.mc_shelf.specs.Files.{held, with_file, with_more};

use rv_words::NoMemory;
use std::alloc::Global;
use std::marker::Model;

/// One file.
#[derive(Drop)]
struct Entry {
    name: String,
    bytes: Vec<u8>,
}

impl Model for Entry {
    ghost use Rattle.std.specs.Prelude.{ℕ, List, string_bytes};

    ghost Value = { List ℕ × List ℕ };

    ghost view = { λ e. (string_bytes e.name, e.bytes.items) };
}

/// Files in the order in which their names were first given.
#[derive(Drop)]
pub(crate) struct Files {
    entries: Vec<Entry>,
}

impl Model for Files {
    ghost use Rattle.std.specs.Prelude.{ℕ, List};

    ghost Value = { List (List ℕ × List ℕ) };

    ghost view = { λ f. f.entries.items };
}

impl Files {
    pub fn new(alloc: Global) -> Files
        ensures { result ≡ [] }
    {
        Files {
            entries: Vec::new(alloc),
        }
    }

    fn place(&self, name: &str) -> Option<usize>
        ensures first { result ≡ position_from (λ f. bytes_eq f.0 name.now) 0 self.now }
        ensures below { IfSome result (λ i. i < length self.now) }
    {
        self.entries
            .iter()
            .position(|entry| entry.name.as_str() == name)
    }

    pub fn get(&self, name: &str) -> Option<&[u8]>
        ensures { option_copied result ≡ held self.now name.now }
    {
        let place = self.place(name)?;
        let entry = &self.entries[place];
        Some(entry.bytes.as_slice())
    }

    /// Lets the name hold the bytes.
    pub fn set(&mut self, name: &str, bytes: &[u8]) -> Result<(), NoMemory>
        ensures ok { OnOk result (self.new ≡ with_file self.old name.now bytes.now) }
        ensures err { OnErr result (self.new ≡ self.old) }
    {
        let alloc = *self.entries.allocator();
        let bytes = Vec::from_slice(alloc, bytes)?;
        match self.place(name) {
            Some(place) => {
                let entry = &mut self.entries[place];
                entry.bytes = bytes;
            }
            None => {
                let name = String::from_str(alloc, name)?;
                self.entries.push(Entry { name, bytes })?;
            }
        }
        Ok(())
    }

    /// Adds the piece at the end of what the name holds, where it is not missing.
    pub fn append(&mut self, name: &str, piece: &[u8]) -> Result<(), NoMemory>
        ensures ok { OnOk result (self.new ≡ with_more self.old name.now piece.now) }
        ensures err { OnErr result (self.new ≡ self.old) }
    {
        if let Some(place) = self.place(name) {
            let entry = &mut self.entries[place];
            entry.bytes.extend_from_slice(piece)?;
        }
        Ok(())
    }
}
