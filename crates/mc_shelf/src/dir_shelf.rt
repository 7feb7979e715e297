//! A shelf over the system's files. Nothing is claimed of what they hold.

ghost use Rattle.std.specs.Prelude.{◌≡◌, ◌<◌, ◌≤◌, length, None, IsErr, IfOk, IsErrOf, OnOk, OnErr};
ghost use Rattle.mc_shelf.specs.Fault.{Rose, one_more};

use crate::shelf::Shelf;
use crate::sink::{Failed, Stop};
use std::fs::{File, OpenOptions};
use std::io;
use std::io::{Read, Seek, SeekFrom, Write};
use std::marker::Model;
use std::rt::Files;

/// The system's files, by their paths. The file that the last `create` opened stays open, and takes
/// what is appended to its name. So does the file that the last read opened, for the next read of
/// its name.
#[derive(Drop)]
pub struct DirShelf<R: Files> {
    runtime: R,
    open: Option<OpenFile<R>>,
    source: Option<OpenFile<R>>,
    read_faults: u64,
    write_faults: u64,
}

/// A file that is open, and its name.
#[derive(Drop)]
struct OpenFile<R: Files> {
    name: String,
    file: R::File,
}

impl<R: Files> Model for DirShelf<R> {
    ghost use Rattle.mc_shelf.specs.Fault.{FaultCounts};

    ghost Value = { FaultCounts };

    ghost view = { λ s. record { read_faults = s.read_faults; write_faults = s.write_faults } };
}

impl<R: Files + AllocGlobal> DirShelf<R> {
    pub fn new(runtime: R) -> DirShelf<R>
        ensures { result ≡ record { read_faults = 0; write_faults = 0 } }
    {
        DirShelf {
            runtime,
            open: None,
            source: None,
            read_faults: 0,
            write_faults: 0,
        }
    }

    /// Opens the file, where it isn't open for reading, and keeps it open. Where there is no memory
    /// for the name, no file is kept.
    fn read_from(&mut self, name: &str, at: u64, into: &mut [u8]) -> io::Result<usize>
        ensures fits { IfOk result (λ n. n ≤ length into.old) }
        ensures same { self.new ≡ self.old }
    {
        if let Some(source) = &mut self.source
            && source.name.as_str() == name
        {
            source.file.seek(SeekFrom::Start(at))?;
            return source.file.read(into);
        }
        let mut file = File::open(&self.runtime, name)?;
        file.seek(SeekFrom::Start(at))?;
        let count = file.read(into)?;
        self.source = match String::from_str(self.runtime.alloc(), name) {
            Ok(name) => Some(OpenFile { name, file }),
            Err(_) => None,
        };
        Ok(count)
    }

    /// Empties the file, and keeps it open. Where there is no memory for the name, no file is kept.
    fn create_file(&mut self, name: &str) -> io::Result<()>
        ensures { self.new ≡ self.old }
    {
        let file = File::create(&self.runtime, name)?;
        self.source = None;
        self.open = match String::from_str(self.runtime.alloc(), name) {
            Ok(name) => Some(OpenFile { name, file }),
            Err(_) => None,
        };
        Ok(())
    }

    /// Writes to the open file, where it is of that name.
    fn append_to(&mut self, name: &str, bytes: &[u8]) -> io::Result<()>
        ensures { self.new ≡ self.old }
    {
        if let Some(open) = &mut self.open
            && open.name.as_str() == name
        {
            return open.file.write_all(bytes);
        }
        let mut file = OpenOptions::new().append(true).open(&self.runtime, name)?;
        file.write_all(bytes)
    }

    /// Counts the failure of a write.
    fn written(&mut self, outcome: io::Result<()>) -> Result<(), Stop>
        ensures ok { OnOk result (self.new ≡ self.old) }
        ensures err { OnErr result (self.new
            ≡ record self.old { write_faults = one_more self.old.write_faults }) }
        ensures failed { IsErrOf result Stop.NoMemory → ⊥ }
        ensures counted { (self.old.read_faults ≤ self.new.read_faults)
            × (self.old.write_faults ≤ self.new.write_faults) }
        ensures reads { self.new.read_faults ≡ self.old.read_faults }
    {
        if outcome.is_ok() {
            return Ok(());
        }
        self.write_faults = self.write_faults.saturating_add(1);
        Err(Stop::Failed)
    }
}

impl<R: Files + AllocGlobal> Shelf for DirShelf<R> {
    ghost contents = { λ _. None };

    ghost read_faults = { λ s. s.read_faults };

    ghost write_faults = { λ s. s.write_faults };

    ghost IsSure = { λ _. ⊥ };

    fn read(&mut self, name: &str, at: u64, into: &mut [u8]) -> Result<usize, Failed>
        ensures ok { OnOk result (self.new ≡ self.old) }
        ensures err { OnErr result (self.new
            ≡ record self.old { read_faults = one_more self.old.read_faults }) }

        ensures fits { IfOk result (λ n. n ≤ length into.old) }
        ensures counted { (self.old.read_faults ≤ self.new.read_faults)
            × (self.old.write_faults ≤ self.new.write_faults) }
        ensures writes { self.new.write_faults ≡ self.old.write_faults }
        ensures cause { IsErr result → Rose self.old.read_faults self.new.read_faults }
    {
        match self.read_from(name, at, into) {
            Ok(count) => Ok(count),
            Err(_) => {
                self.read_faults = self.read_faults.saturating_add(1);
                Err(Failed)
            }
        }
    }

    fn create(&mut self, name: &str) -> Result<(), Stop>
        ensures ok { OnOk result (self.new ≡ self.old) }
        ensures err { OnErr result (self.new
            ≡ record self.old { write_faults = one_more self.old.write_faults }) }
        ensures no_memory { IsErrOf result Stop.NoMemory → ⊥ }

        ensures counted { (self.old.read_faults ≤ self.new.read_faults)
            × (self.old.write_faults ≤ self.new.write_faults) }
        ensures reads { self.new.read_faults ≡ self.old.read_faults }
        ensures cause { IsErrOf result Stop.Failed
            → Rose self.old.write_faults self.new.write_faults }
    {
        let outcome = self.create_file(name);
        self.written(outcome)
    }

    fn append(&mut self, name: &str, bytes: &[u8]) -> Result<(), Stop>
        ensures ok { OnOk result (self.new ≡ self.old) }
        ensures err { OnErr result (self.new
            ≡ record self.old { write_faults = one_more self.old.write_faults }) }
        ensures no_memory { IsErrOf result Stop.NoMemory → ⊥ }

        ensures counted { (self.old.read_faults ≤ self.new.read_faults)
            × (self.old.write_faults ≤ self.new.write_faults) }
        ensures reads { self.new.read_faults ≡ self.old.read_faults }
        ensures cause { IsErrOf result Stop.Failed
            → Rose self.old.write_faults self.new.write_faults }
    {
        let outcome = self.append_to(name, bytes);
        self.written(outcome)
    }
}
