//! Blocks of a file, read ahead of its lines.

ghost use Rattle.std.specs.Prelude.{◌≡◌, ◌+◌, ◌<◌, ◌≤◌, ◌⊎◌, ◌↔◌, ◌++◌, [], length, true, false, IsTrue, IfOk, OnOk, OnErr, IsErr, IsErrOf};
ghost use Rattle.mc_shelf.specs.Lines.{up_to_newline, IsEnded};
ghost use Rattle.mc_shelf.specs.inner.Ahead.{HasLine, IsDone, Takes, to_go};
ghost use Rattle.mc_shelf.specs.inner.OnlyReads.{OnlyReads};
ghost use Rattle.mc_shelf.specs.declared.lines.LineFault.TheVariants.{Fault};

use crate::lines::LineFault;
use crate::shelf::Shelf;
use crate::sink::Failed;
use memchr::memchr;
use rv_words::{Bytes, List, NoMemory};
use std::alloc::Global;
use std::marker::Model;

/// How many bytes of a block one read asks for.
pub(crate) const BLOCK: usize = 4_096;

/// Room for one block.
pub(crate) fn empty_block() -> [u8; BLOCK] {
    [0; BLOCK]
}

/// The bytes up to and with the first newline, or all of them; and whether there is one.
fn split_line(bytes: &[u8]) -> (&[u8], bool)
    ensures line { result.0.now ≡ up_to_newline bytes.now }
    ensures ends { HasLine result.1 bytes.now }
{
    match memchr(b'\n', bytes) {
        Some(end) => (bytes.split_at(end + 1).0, true),
        None => (bytes, false),
    }
}

/// What was read of a file ahead of what was taken.
#[derive(Drop)]
pub(crate) struct Ahead {
    block: [u8; BLOCK],
    start: usize,
    end: usize,
    place: u64,
    ended: bool,
}

impl Model for Ahead {
    ghost use Rattle.std.specs.Prelude.{◌-◌, ◌≤◌, take, drop};
    ghost use Rattle.mc_shelf.specs.inner.Ahead.{AheadState};

    ghost Value = { AheadState };

    ghost view = { λ a. record { place = a.place; waiting = take (a.end - a.start) (drop a.start a.block); ended = a.ended } };

    ghost invariant = { λ a. (a.start ≤ a.end) × (a.end ≤ 4096) };
}

impl Ahead {
    /// At the front of a file.
    pub fn new() -> Ahead
        ensures { result ≡ record { place = 0; waiting = []; ended = false } }
    {
        Ahead {
            block: empty_block(),
            start: 0,
            end: 0,
            place: 0,
            ended: false,
        }
    }

    fn is_empty(&self) -> bool
        ensures { IsTrue result ↔ (self.now.waiting ≡ []) }
    {
        self.start == self.end
    }

    fn is_done(&self, size: u64) -> bool
        ensures { IsTrue result ↔ IsDone size self.now }
    {
        self.is_empty() && (self.ended || self.place == size)
    }

    /// Reads the next block, where no byte waits.
    fn fill<S: Shelf>(&mut self, shelf: &mut S, name: &str, size: u64) -> Result<(), Failed>
        requires within { self.old.place ≤ size }
        requires going { IsDone size self.old → ⊥ }
        ensures takes { OnOk result (Takes size [] (S.contents shelf.old) name.now self.old
            self.new) }
        ensures fewer { OnOk result (to_go size self.new
            < to_go size self.old + length self.new.waiting) }
        ensures shelf { OnlyReads S.contents S.read_faults S.write_faults S.IsSure (IsErr result)
            name.now shelf.old shelf.new }
    {
        if !self.is_empty() {
            return Ok(());
        }
        let room = (size - self.place).min(BLOCK as u64) as usize;
        let count = shelf.read(name, self.place, &mut self.block[..room])?;
        self.start = 0;
        self.end = count;
        self.place += count as u64;
        self.ended = count == 0;
        Ok(())
    }

    /// Moves the waiting bytes up to and with the first newline to the line's end, or all of them.
    /// Whether a newline is among them.
    fn take_line(&mut self, line: &mut Bytes) -> Result<bool, NoMemory>
        ensures line { OnOk result (line.new ≡ line.old ++ up_to_newline self.old.waiting) }
        ensures rest { OnOk result (self.old.waiting
            ≡ up_to_newline self.old.waiting ++ self.new.waiting) }
        ensures ends { IfOk result (λ ends. HasLine ends self.old.waiting) }
        ensures place { self.new.place ≡ self.old.place }
        ensures ended { self.new.ended ≡ self.old.ended }
    {
        let (part, ends) = split_line(&self.block[self.start..self.end]);
        line.extend_from_slice(part)?;
        self.start += part.len();
        Ok(ends)
    }

    /// Takes the next line: the bytes up to and with the first newline, or the last bytes.
    pub fn next_line<S: Shelf>(
        &mut self,
        alloc: Global,
        shelf: &mut S,
        name: &str,
        size: u64,
    ) -> Result<Bytes, LineFault>
        requires { self.old.place ≤ size }
        ensures takes { IfOk result (λ line.
            Takes size line (S.contents shelf.old) name.now self.old self.new) }
        ensures none { IfOk result (λ line. line ≡ [] → IsDone size self.new) }
        ensures alone { IfOk result (λ line. up_to_newline line ≡ line) }
        ensures going { OnErr result (IsDone size self.old → ⊥) }
        ensures ends { IfOk result (λ line. IsEnded line ⊎ IsDone size self.new) }
        ensures shelf { OnlyReads S.contents S.read_faults S.write_faults S.IsSure
            (IsErrOf result Fault) name.now shelf.old shelf.new }
    {
        let mut line = List::new(alloc);
        while !self.is_done(size) {
            self.fill(shelf, name, size)?;
            if self.take_line(&mut line)? {
                return Ok(line);
            }
        }
        Ok(line)
    }
}
