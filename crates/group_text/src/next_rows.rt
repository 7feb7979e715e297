//! The next row of a text, read by itself. It is passed where it is read.

ghost use Rattle.std.specs.Prelude.{◌≡◌, ◌<◌, ◌≤◌, Bool, IfOk, OnErr, OnOk};
ghost use Rattle.mc_text.specs.Outcome.{Gives};
ghost use Rattle.mc_text.specs.Reading.{goes_on};
ghost use Rattle.mc_text.specs.Scanning.{tokens_at};
ghost use Rattle.mc_text.specs.Tokens.{Tok};
ghost use Rattle.tailrec_lang.specs.Tree.{step_tree};
ghost use Rattle.group_text.specs.inner.RowReader.{ReadAs, ReadsRows, read_as};
ghost use Rattle.group_text.specs.inner.Rows.{RowPosition, RowsGive, halted_by, lost_by, tokens};
ghost use Rattle.group_text.specs.inner.Reading.{code_row, def_start, is_def, is_step, mark_row, mems_row, regs_row, step_at, title_row};
ghost use Rattle.group_text.specs.Version.{version_of};
ghost use Rattle.group_text.specs.inner.BodyRows.{end_row, end_row_tree};
ghost use Rattle.group_text.specs.inner.GroupRows.{first_row, first_row_tree};

use crate::body_rows::{EndRow, begins_step, read_end_row, read_mark, read_step};
use crate::heads::{
    FirstRow, begins_def, read_code_row, read_def_start, read_first_row, read_mems_row,
    read_regs_row, read_title,
};
use crate::read_error::{ReadError, RowError};
use crate::rows::Rows;
use crate::version::Version;
use mc_text::{Scan, TokenError};
use rv_words::List;
use std::alloc::Global;
use tailrec_lang::{Exit, Step};
use word_terms::Code;

/// What reads a row from its first byte on.
pub trait ReadRow<X> {
    ghost reads: { Self → ReadAs X };

    fn read<'a>(&self, alloc: Global, scan: &mut Scan<'a>) -> Result<X, TokenError>
        ensures { Gives (reads self.now).view result scan.old scan.new (reads self.now).reader };
}

/// What is read of the next row.
pub fn next_row<E, R: Rows<E>, X, W: ReadRow<X>>(
    alloc: Global,
    rows: &mut R,
    from: &mut E,
    what: &W,
) -> Result<X, ReadError>
    ensures gives { ReadsRows (W.reads what.now).reader
        → RowsGive (W.reads what.now).view result (R.May rows.old from.old)
        (R.May rows.new from.new) (W.reads what.now).reader }
    ensures left { R.left rows.new ≤ R.left rows.old }
    ensures lends { R.Lends (halted_by result) rows.old from.old rows.new from.new }
    ensures fewer { OnOk result (R.left rows.new < R.left rows.old) }
    ensures kept { OnErr result ((p : RowPosition)
        → R.May rows.new from.new p
        → R.May rows.old from.old p) }
{
    if !rows.hold(alloc, from)? {
        return Err(ReadError::Bad);
    }
    let item = what.read(alloc, &mut Scan::new(rows.row()))?;
    rows.pass(from);
    Ok(item)
}

/// What tells how a row begins, by its first word.
pub trait RowStart {
    ghost goes: { Tok → Bool };

    fn begins(&self, scan: &Scan<'_>) -> bool
        ensures { result ≡ goes_on goes (tokens_at scan.now) };
}

/// Whether the next row begins so.
pub fn row_begins<E, R: Rows<E>, W: RowStart>(
    alloc: Global,
    rows: &mut R,
    from: &mut E,
    what: &W,
) -> Result<bool, RowError>
    ensures kept { (p : RowPosition) → R.May rows.new from.new p → R.May rows.old from.old p }
    ensures left { R.left rows.new ≤ R.left rows.old }
    ensures lends { R.Lends (lost_by result) rows.old from.old rows.new from.new }
    ensures goes_on { IfOk result (λ b.
        (p : RowPosition) → R.May rows.new from.new p → b ≡ goes_on W.goes (tokens p)) }
    ensures sure { R.Sure rows.old from.old → OnErr result ⊥ }
{
    if !rows.hold(alloc, from)? {
        return Ok(what.begins(&Scan::new(&[])));
    }
    Ok(what.begins(&Scan::new(rows.row())))
}

/// The row of a step.
#[derive(Drop)]
pub struct StepRow;

impl ReadRow<Step> for StepRow {
    ghost reads = { λ _. read_as step_tree step_at };

    fn read<'a>(&self, alloc: Global, scan: &mut Scan<'a>) -> Result<Step, TokenError> {
        read_step(alloc, scan)
    }
}

impl RowStart for StepRow {
    ghost goes = { is_step };

    fn begins(&self, scan: &Scan<'_>) -> bool {
        begins_step(scan)
    }
}

/// The last row of a body, with room for that many bodies inside.
#[derive(Drop)]
pub struct LastRow(pub u32);

impl ReadRow<EndRow> for LastRow {
    ghost reads = { λ row. read_as end_row_tree (end_row row.0) };

    fn read<'a>(&self, alloc: Global, scan: &mut Scan<'a>) -> Result<EndRow, TokenError> {
        read_end_row(alloc, scan, self.0)
    }
}

/// The row of one word.
#[derive(Drop)]
pub struct MarkRow<'n>(pub &'n [u8]);

impl<'n> ReadRow<()> for MarkRow<'n> {
    ghost reads = { λ row. read_as (λ _. (tt, tt)) (mark_row row.0.now) };

    fn read<'a>(&self, _alloc: Global, scan: &mut Scan<'a>) -> Result<(), TokenError> {
        read_mark(scan, self.0)
    }
}

/// The title of that version.
#[derive(Drop)]
pub struct TitleRow(pub Version);

impl ReadRow<()> for TitleRow {
    ghost reads = { λ row. read_as (λ _. (tt, (tt, tt))) (title_row (version_of row.0)) };

    fn read<'a>(&self, _alloc: Global, scan: &mut Scan<'a>) -> Result<(), TokenError> {
        read_title(scan, self.0)
    }
}

/// The row of a group's name, or the end of the text.
#[derive(Drop)]
pub struct GroupRow;

impl ReadRow<FirstRow> for GroupRow {
    ghost reads = { λ _. read_as first_row_tree first_row };

    fn read<'a>(&self, alloc: Global, scan: &mut Scan<'a>) -> Result<FirstRow, TokenError> {
        read_first_row(alloc, scan)
    }
}

/// The row of the registers.
#[derive(Drop)]
pub struct RegsRow;

impl ReadRow<List<u8>> for RegsRow {
    ghost reads = { λ _. read_as (λ regs. (tt, (regs, tt))) regs_row };

    fn read<'a>(&self, alloc: Global, scan: &mut Scan<'a>) -> Result<List<u8>, TokenError> {
        read_regs_row(alloc, scan)
    }
}

/// The row of the number of memories.
#[derive(Drop)]
pub struct MemsRow(pub Version);

impl ReadRow<u8> for MemsRow {
    ghost reads = { λ row. read_as (λ mems. (tt, (mems, tt))) (mems_row (version_of row.0)) };

    fn read<'a>(&self, _alloc: Global, scan: &mut Scan<'a>) -> Result<u8, TokenError> {
        read_mems_row(scan, self.0)
    }
}

/// The row of the code.
#[derive(Drop)]
pub struct CodeRow;

impl ReadRow<Code> for CodeRow {
    ghost reads = { λ _. read_as (λ code. (tt, (code.ranges, tt))) code_row };

    fn read<'a>(&self, alloc: Global, scan: &mut Scan<'a>) -> Result<Code, TokenError> {
        read_code_row(alloc, scan)
    }
}

/// The row of a definition's entry and exits.
#[derive(Drop)]
pub struct DefRow;

impl ReadRow<(u64, List<Exit>)> for DefRow {
    ghost reads = { λ _. read_as (λ row. (tt, (row.0, (row.1, tt)))) def_start };

    fn read<'a>(
        &self,
        alloc: Global,
        scan: &mut Scan<'a>,
    ) -> Result<(u64, List<Exit>), TokenError> {
        read_def_start(alloc, scan)
    }
}

impl RowStart for DefRow {
    ghost goes = { is_def };

    fn begins(&self, scan: &Scan<'_>) -> bool {
        begins_def(scan)
    }
}
