//! The standard output as a sink. Nothing is claimed of what reached it.

ghost use Rattle.std.specs.Prelude.{◌≡◌, ◌≤◌, None, IsErrOf, OnOk, OnErr};
ghost use Rattle.mc_shelf.specs.Fault.{Rose, one_more};

use crate::sink::{Sink, Stop};
use std::io;
use std::io::Write;
use std::marker::Model;

/// The standard output.
#[derive(Drop)]
pub struct OutSink<R> {
    runtime: R,
    faults: u64,
}

impl<R> Model for OutSink<R> {
    ghost use Rattle.std.specs.Prelude.{ℕ};

    ghost Value = { ℕ };

    ghost view = { λ s. s.faults };
}

impl<R: Print> OutSink<R> {
    pub fn new(runtime: R) -> OutSink<R>
        ensures { result ≡ 0 }
    {
        OutSink { runtime, faults: 0 }
    }

    fn print(&self, bytes: &[u8]) -> io::Result<()> {
        let mut out = io::writer(&self.runtime);
        out.write_all(bytes)?;
        out.flush()
    }
}

impl<R: Print> Sink for OutSink<R> {
    ghost written = { λ _. None };

    ghost faults = { λ s. s };

    fn put(&mut self, bytes: &[u8]) -> Result<(), Stop>
        ensures ok { OnOk result (self.new ≡ self.old) }
        ensures err { OnErr result (self.new ≡ one_more self.old) }
        ensures no_memory { IsErrOf result Stop.NoMemory → ⊥ }

        ensures counted { self.old ≤ self.new }
        ensures cause { IsErrOf result Stop.Failed → Rose self.old self.new }
    {
        if self.print(bytes).is_ok() {
            return Ok(());
        }
        self.faults = self.faults.saturating_add(1);
        Err(Stop::Failed)
    }
}
