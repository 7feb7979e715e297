//! Reading bodies, by the nesting that is left.

ghost use Rattle.std.specs.Prelude.{◌≤◌, codes, map};
ghost use Rattle.mc_text.specs.Reading.{pair, star};
ghost use Rattle.mc_text.specs.inner.Reading.{times};
ghost use Rattle.tailrec_lang.specs.Tree.{body_tree, step_tree};
ghost use Rattle.tailrec_lang.specs.inner.Tree.{end_tree};
ghost use Rattle.group_text.specs.inner.Rows.{RowsGive, halted_by};
ghost use Rattle.group_text.specs.inner.Reading.{arm_at, body_at, end_at, is_step, mark_row, step_at};

use crate::body_rows::EndRow;
use crate::next_rows::{LastRow, MarkRow, StepRow, next_row, row_begins};
use crate::read_error::ReadError;
use crate::rows::Rows;
use rv_words::List;
use std::alloc::Global;
use tailrec_lang::{Body, End, Step};

/// The steps up to a row that isn't one.
fn read_steps<E, R: Rows<E>>(
    alloc: Global,
    rows: &mut R,
    from: &mut E,
) -> Result<List<Step>, ReadError>
    ensures gives { RowsGive (λ steps. map step_tree steps) result (R.May rows.old from.old)
        (R.May rows.new from.new) (star is_step step_at) }
    ensures left { R.left rows.new ≤ R.left rows.old }
    ensures lends { R.Lends (halted_by result) rows.old from.old rows.new from.new }
{
    let mut steps = List::new(alloc);
    'steps: while row_begins(alloc, rows, from, &StepRow)? {
        match next_row(alloc, rows, from, &StepRow) {
            Ok(step) => steps.push(step)?,
            Err(halt) => return Err(halt),
        }
    }
    Ok(steps)
}

/// An arm: its row, and its body.
#[cycle(bodies)]
fn read_arm<E, R: Rows<E>>(
    alloc: Global,
    rows: &mut R,
    from: &mut E,
    room: u32,
) -> Result<Body, ReadError>
    ensures gives { RowsGive body_tree result (R.May rows.old from.old) (R.May rows.new from.new)
        (arm_at (body_at room)) }
    ensures left { R.left rows.new ≤ R.left rows.old }
    ensures lends { R.Lends (halted_by result) rows.old from.old rows.new from.new }
{
    next_row(alloc, rows, from, &MarkRow(b"arm"))?;
    let body = read_body(alloc, rows, from, room)?;
    Ok(body)
}

/// That many arms.
#[cycle(bodies)]
fn read_arms<E, R: Rows<E>>(
    alloc: Global,
    rows: &mut R,
    from: &mut E,
    room: u32,
    count: u64,
) -> Result<List<Body>, ReadError>
    ensures gives { RowsGive (λ arms. map body_tree arms) result (R.May rows.old from.old)
        (R.May rows.new from.new) (times count (arm_at (body_at room))) }
    ensures left { R.left rows.new ≤ R.left rows.old }
    ensures lends { R.Lends (halted_by result) rows.old from.old rows.new from.new }
{
    let mut arms = List::new(alloc);
    let mut left = count;
    'arms: while left > 0 {
        left -= 1;
        match read_arm(alloc, rows, from, room) {
            Ok(arm) => arms.push(arm)?,
            Err(halt) => return Err(halt),
        }
    }
    Ok(arms)
}

/// What stands behind the condition of a branch.
#[cycle(bodies)]
fn read_branch<E, R: Rows<E>>(
    alloc: Global,
    rows: &mut R,
    from: &mut E,
    room: u32,
) -> Result<(Body, Body), ReadError>
    ensures gives { RowsGive (λ b. (body_tree b.0, ((tt, tt), body_tree b.1))) result
        (R.May rows.old from.old) (R.May rows.new from.new)
        (pair (body_at room) (pair (mark_row (codes "else")) (body_at room))) }
    ensures left { R.left rows.new ≤ R.left rows.old }
    ensures lends { R.Lends (halted_by result) rows.old from.old rows.new from.new }
{
    let first = read_body(alloc, rows, from, room)?;
    next_row(alloc, rows, from, &MarkRow(b"else"))?;
    let second = read_body(alloc, rows, from, room)?;
    Ok((first, second))
}

/// How a body ends. Bodies stand inside only where there is room.
#[cycle(bodies)]
fn read_end<E, R: Rows<E>>(
    alloc: Global,
    rows: &mut R,
    from: &mut E,
    room: u32,
) -> Result<End, ReadError>
    ensures gives { RowsGive end_tree result (R.May rows.old from.old) (R.May rows.new from.new)
        (end_at room (body_at room)) }
    ensures left { R.left rows.new ≤ R.left rows.old }
    ensures lends { R.Lends (halted_by result) rows.old from.old rows.new from.new }
{
    match next_row(alloc, rows, from, &LastRow(room))? {
        EndRow::If(cond) => {
            let (first, second) = read_branch(alloc, rows, from, room)?;
            Ok(End::Branch(cond, Box::new(alloc, first)?, Box::new(alloc, second)?))
        }
        EndRow::Call(def, count, values) => {
            let arms = read_arms(alloc, rows, from, room, count)?;
            Ok(End::Call(def, values, arms))
        }
        EndRow::Again(values) => Ok(End::Again(values)),
        EndRow::Leave(exit, values) => Ok(End::Leave(exit, values)),
    }
}

/// A body of at most that nesting.
#[cycle(bodies)]
pub fn read_body<E, R: Rows<E>>(
    alloc: Global,
    rows: &mut R,
    from: &mut E,
    room: u32,
) -> Result<Body, ReadError>
    ensures gives { RowsGive body_tree result (R.May rows.old from.old) (R.May rows.new from.new)
        (body_at room) }
    ensures left { R.left rows.new ≤ R.left rows.old }
    ensures lends { R.Lends (halted_by result) rows.old from.old rows.new from.new }
{
    if room == 0 {
        return Err(ReadError::Bad);
    }
    let steps = read_steps(alloc, rows, from)?;
    let end = read_end(alloc, rows, from, room - 1)?;
    Ok(Body { steps, end })
}
