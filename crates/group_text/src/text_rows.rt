//! Rows of a text in memory.

ghost use Rattle.std.specs.Prelude.{◌≡◌, ◌≤◌, ◌^◌, [], length};
ghost use Rattle.group_text.specs.inner.Cut.{AreWholeLines};
ghost use Rattle.group_text.specs.inner.TextRows.{FirstRow, IsHeld};

use crate::read_error::RowError;
use crate::rows::Rows;
use memchr::memchr;
use std::alloc::Global;
use std::marker::Model;

/// The first row, or nothing where there is none.
fn first_row(bytes: &[u8]) -> &[u8]
    requires { AreWholeLines bytes.now }
    ensures { FirstRow result.now bytes.now }
{
    match memchr(b'\n', bytes) {
        Some(end) => bytes.split_at(end + 1).0,
        None => bytes.split_at(0).0,
    }
}

/// The row that is held, or else the first row.
fn held_or_first<'a>(held: &'a [u8], rest: &'a [u8]) -> &'a [u8]
    requires whole { AreWholeLines rest.now }
    requires held { IsHeld held.now rest.now }
    ensures { FirstRow result.now rest.now }
{
    if held.is_empty() {
        first_row(rest)
    } else {
        held
    }
}

/// The rows of a text, of which the next may be held.
#[derive(Debug, Drop)]
pub struct TextRows<'a> {
    rest: &'a [u8],
    held: &'a [u8],
    taken: u64,
}

impl<'a> Model for TextRows<'a> {
    ghost use Rattle.std.specs.Prelude.{◌+◌, ◌≤◌, ◌^◌, length};
    ghost use Rattle.group_text.specs.inner.Cut.{AreWholeLines};
    ghost use Rattle.group_text.specs.inner.TextRows.{TextRowPosition, IsHeld};

    ghost Value = { TextRowPosition };

    ghost view = { λ s. record { rest = s.rest.now; held = s.held.now; taken = s.taken } };

    ghost invariant = { λ s. AreWholeLines s.rest.now × IsHeld s.held.now s.rest.now × (s.taken + length s.rest.now ≤ 2 ^ 63) };
}

impl<'a> TextRows<'a> {
    /// Stands before the first row.
    pub fn new(lines: &'a [u8]) -> TextRows<'a>
        requires whole { AreWholeLines lines.now }
        requires short { length lines.now ≤ 2 ^ 63 }
        ensures { result ≡ record { rest = lines.now; held = []; taken = 0 } }
    {
        TextRows {
            rest: lines,
            held: &[],
            taken: 0,
        }
    }

    /// The rows that weren't passed.
    pub fn rest(&self) -> &'a [u8]
        ensures { result.now ≡ self.now.rest }
    {
        self.rest
    }
}

impl<'a> Rows<()> for TextRows<'a> {
    ghost use Rattle.std.specs.Prelude.{◌≡◌, length};

    ghost May = { λ s e p. p ≡ record { rest = s.rest; taken = s.taken } };

    ghost held = { λ s. s.held };

    ghost Sure = { λ s e. Unit {0} };

    ghost left = { λ s. length s.rest };

    ghost Lends = { λ lost s e t f. Unit {0} };

    ghost lends_nothing = { λ a d. tt };

    ghost lends_then = { λ lost a b c d e f first further. tt };

    ghost lends_full = { λ a b d e calls. tt };

    fn hold(&mut self, _alloc: Global, _from: &mut ()) -> Result<bool, RowError> {
        self.held = held_or_first(self.held, self.rest);
        Ok(!self.held.is_empty())
    }

    fn row(&self) -> &[u8] {
        self.held
    }

    fn pass(&mut self, _from: &()) {
        let (_, rest) = self.rest.split_at(self.held.len());
        self.rest = rest;
        self.held = &[];
        self.taken += 1;
    }

    fn taken(&self, _from: &()) -> u64 {
        self.taken
    }
}
