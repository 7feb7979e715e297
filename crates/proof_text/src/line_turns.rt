//! The rows of lines behind groups, one a call.

ghost use Rattle.std.specs.Prelude.{◌≡◌, ◌∷◌, ◌++◌, [], List, ◌<◌, ◌≤◌, IfOk, IfNone, IfSome, OnErr, OnOk, false, true, option_map};
ghost use Rattle.mc_text.specs.Reading.{goes_on};
ghost use Rattle.group_text.specs.Version.{version_of};
ghost use Rattle.group_text.specs.inner.RowReader.{ReadsRows};
ghost use Rattle.group_text.specs.inner.Rows.{OnRowError, RowsGive, RowPosition, halted_by, tokens};
ghost use Rattle.proof_text.specs.inner.LineReaders.{ends_proof, turn_over};

use crate::proof_lines::ends_proof;
use crate::read_lines::ReadLines;
use group_text::{ReadError, RowStart, Rows, Version, row_begins};
use mc_text::Scan;
use std::alloc::Global;
use word_terms::Code;

/// The row that ends the proof of a group: that of the next group, or the one that ends the text.
#[derive(Drop)]
pub struct ProofEnd;

impl RowStart for ProofEnd {
    ghost goes = { ends_proof };

    fn begins(&self, scan: &Scan<'_>) -> bool {
        ends_proof(scan)
    }
}

/// The next row as a line, by the group's own code. It is passed where it is read.
fn read_row<E, R: Rows<E>, W: ReadLines>(
    alloc: Global,
    rows: &mut R,
    from: &mut E,
    version: Version,
    own: &Code,
    kept: &mut W,
) -> Result<W::Line, ReadError>
    ensures gives { (before : List W.readers.grammar.Line)
        → W.Behind kept.old before
        → ReadsRows (W.readers.line_at (version_of version) own.now.ranges before)
        → RowsGive (W.tree own.now.ranges) result (R.May rows.old from.old)
        (R.May rows.new from.new) (W.readers.line_at (version_of version) own.now.ranges before) }
    ensures behind { (before : List W.readers.grammar.Line)
        → W.Behind kept.old before
        → IfOk result (λ l. W.Behind kept.new (before ++ W.tree own.now.ranges l ∷ [])) }
    ensures kept { OnErr result ((before : List W.readers.grammar.Line)
        → W.Behind kept.old before
        → W.Behind kept.new before) }
    ensures lost { OnErr result ((p : RowPosition)
        → R.May rows.new from.new p
        → R.May rows.old from.old p) }
    ensures left { R.left rows.new ≤ R.left rows.old }
    ensures lends { R.Lends (halted_by result) rows.old from.old rows.new from.new }
    ensures fewer { OnOk result (R.left rows.new < R.left rows.old) }
{
    if !rows.hold(alloc, from)? {
        return Err(ReadError::Bad);
    }
    let line = kept.read(alloc, &mut Scan::new(rows.row()), version, own)?;
    rows.pass(from);
    Ok(line)
}

/// The next line of a text of that version, by the group's own code, or none where the group's
/// proof ends.
pub fn read_turn<E, R: Rows<E>, W: ReadLines>(
    alloc: Global,
    rows: &mut R,
    from: &mut E,
    version: Version,
    own: &Code,
    kept: &mut W,
) -> Result<Option<W::Line>, ReadError>
    ensures gives { (before : List W.readers.grammar.Line)
        → W.Behind kept.old before
        → ReadsRows (W.readers.line_at (version_of version) own.now.ranges before)
        → RowsGive (λ found. option_map (W.tree own.now.ranges) found) result
        (R.May rows.old from.old) (R.May rows.new from.new)
        (turn_over W.readers (version_of version) own.now.ranges before) }
    ensures behind { (before : List W.readers.grammar.Line)
        → W.Behind kept.old before
        → IfOk result (λ found.
        IfSome found (λ l. W.Behind kept.new (before ++ W.tree own.now.ranges l ∷ []))) }
    ensures kept { OnErr result ((before : List W.readers.grammar.Line)
        → W.Behind kept.old before
        → W.Behind kept.new before) }
    ensures kept_end { IfOk result (λ found. IfNone found (kept.new ≡ kept.old)) }
    ensures lost { R.Sure rows.old from.old
        → OnRowError result ((p : RowPosition)
        → R.May rows.new from.new p
        → R.May rows.old from.old p × (goes_on ends_proof (tokens p) ≡ false)) }
    ensures left { R.left rows.new ≤ R.left rows.old }
    ensures fewer { IfOk result (λ found. IfSome found (λ _. R.left rows.new < R.left rows.old)) }
    ensures lends { R.Lends (halted_by result) rows.old from.old rows.new from.new }
{
    if row_begins(alloc, rows, from, &ProofEnd)? {
        return Ok(None);
    }
    let line = read_row(alloc, rows, from, version, own, kept)?;
    Ok(Some(line))
}
