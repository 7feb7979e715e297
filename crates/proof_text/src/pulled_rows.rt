//! Rows that are pulled from a file, line by line.

ghost use Rattle.std.specs.Prelude.{◌≡◌, ◌+◌, ◌<◌, ◌≤◌, [], length, true, false, None, IfOk};
ghost use Rattle.mc_shelf.specs.Lines.{up_to_newline};
ghost use Rattle.mc_text.specs.Fault.{newlines};
ghost use Rattle.group_text.specs.inner.Rows.{IsRow};
ghost use Rattle.group_text.specs.inner.Rows.{lost_by};
ghost use Rattle.proof_text.specs.inner.PulledRows.{Draws, EndsSo, KeepsLine, IfFile, not_passed, rows_left};

use group_text::{RowError, Rows};
use mc_shelf::{LineFault, Lines, Shelf};
use rv_words::Bytes;
use std::alloc::Global;
use std::marker::Model;

/// Whether the bytes, which have no newline before their last byte, are a row.
fn is_row(bytes: &[u8]) -> bool
    requires some { 0 < length bytes.now }
    requires alone { up_to_newline bytes.now ≡ bytes.now }
    ensures row { result ≡ true → IsRow bytes.now }
    ensures tail { result ≡ false → newlines bytes.now ≡ 0 }
{
    bytes[bytes.len() - 1] == b'\n'
}

/// Rows that are pulled from a file, of which the next may be held. The shelf is lent at each call.
#[derive(Drop)]
pub(crate) struct PulledRows<'s> {
    lines: Lines<'s>,
    held: Option<Bytes>,
    tail: Option<Bytes>,
    taken: u64,
}

impl<'s> Model for PulledRows<'s> {
    ghost use Rattle.std.specs.Prelude.{◌+◌, ◌<◌, ◌≤◌, ◌^◌, length, IfSome};
    ghost use Rattle.group_text.specs.inner.Rows.{IsRow};
    ghost use Rattle.proof_text.specs.inner.PulledRows.{PulledState, IsTail, held_bytes};

    ghost Value = { PulledState };

    ghost view = { λ r. record { lines = r.lines; held = held_bytes r.held; tail = held_bytes r.tail; taken = r.taken } };

    ghost invariant = { λ r. IfSome r.held IsRow × IfSome r.tail IsTail
        × (r.taken + length (held_bytes r.held) ≤ r.lines.given) × (r.lines.given < 2 ^ 64) };
}

impl<'s> PulledRows<'s> {
    /// Stands before the first row.
    pub fn new(lines: Lines<'s>) -> PulledRows<'s>
        requires { lines.given ≡ 0 }
        ensures { result ≡ record { lines = lines.entry; held = []; tail = []; taken = 0 } }
    {
        PulledRows {
            lines,
            held: None,
            tail: None,
            taken: 0,
        }
    }

    /// Holds the line, if it is a row.
    fn keep(&mut self, line: Bytes) -> bool
        requires some { 0 < length line }
        requires alone { up_to_newline line ≡ line }
        requires given { self.old.taken + length line ≤ self.old.lines.given }
        ensures { KeepsLine result line self.old self.new }
    {
        let is_row = is_row(line.as_slice());
        if is_row {
            self.held = Some(line);
        } else {
            self.tail = Some(line);
        }
        is_row
    }
}

impl<'s> PulledRows<'s> {
    /// How many rows were passed.
    pub fn passed(&self) -> u64
        ensures { result ≡ self.now.taken }
    {
        self.taken
    }

    /// Whether no byte is left. What is next may be held then.
    pub fn at_end<S: Shelf>(&mut self, alloc: Global, from: &mut S) -> Result<bool, RowError>
        ensures told { IfOk result (λ end.
            self.old.lines.refused ≡ None
            → IfFile (S.contents from.old) self.old.lines.name (λ file.
            EndsSo end (not_passed self.old file))) }
        ensures draws { Draws S.contents S.read_faults S.write_faults S.IsSure (lost_by result)
            self.old from.old self.new from.new }
        ensures left { rows_left self.new ≤ rows_left self.old }
    {
        if self.held.is_some() {
            return Ok(false);
        }
        if self.tail.is_some() {
            return Ok(false);
        }
        match self.lines.next(alloc, from) {
            Ok(Some(line)) => {
                self.keep(line);
                Ok(false)
            }
            Ok(None) => Ok(true),
            Err(LineFault::Fault) => Err(RowError::Fault),
            Err(LineFault::NoMemory) => Err(RowError::NoMemory),
        }
    }
}

impl<'s, S: Shelf> Rows<S> for PulledRows<'s> {
    ghost use Rattle.proof_text.specs.inner.PulledRows.{IsPulledPlace, Draws, rows_left};
    ghost use Rattle.proof_text.specs.inner.Drawing.{draws_nothing, draws_then, draws_full};

    ghost May = { λ s e p. IsPulledPlace (S.contents e) s p };

    ghost held = { λ s. s.held };

    ghost Sure = { λ s e. ⊥ };

    ghost left = { rows_left };

    ghost Lends = { Draws S.contents S.read_faults S.write_faults S.IsSure };

    ghost lends_nothing = { draws_nothing S.contents S.read_faults S.write_faults S.IsSure };

    ghost lends_then = { λ lost a b c d e f first further. draws_then first further };

    ghost lends_full = { λ a b d e calls. draws_full calls };

    fn hold(&mut self, alloc: Global, from: &mut S) -> Result<bool, RowError> {
        if self.held.is_some() {
            return Ok(true);
        }
        if self.tail.is_some() {
            return Ok(false);
        }
        match self.lines.next(alloc, from) {
            Ok(Some(line)) => Ok(self.keep(line)),
            Ok(None) => Ok(false),
            Err(LineFault::Fault) => Err(RowError::Fault),
            Err(LineFault::NoMemory) => Err(RowError::NoMemory),
        }
    }

    fn row(&self) -> &[u8] {
        match &self.held {
            Some(row) => row.as_slice(),
            None => &[],
        }
    }

    fn pass(&mut self, _from: &S) {
        self.held = None;
        self.taken += 1;
    }

    fn taken(&self, _from: &S) -> u64 {
        self.taken
    }
}
