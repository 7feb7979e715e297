//! Reading a certificate, row by row.

ghost use Rattle.std.specs.Prelude.{map};
ghost use Rattle.mc_text.specs.Reading.{star};
ghost use Rattle.tailrec_lang.specs.Tree.{def_tree};
ghost use Rattle.group_text.specs.inner.Rows.{RowsGive};
ghost use Rattle.group_text.specs.Version.{version_of};
ghost use Rattle.fun_laws.specs.Spelling.{cert_tree};
ghost use Rattle.fun_laws.specs.inner.Reading.{behind_head, behind_name, behind_old, behind_title, cert_at, defs_to_end, is_step, result_at, step_at};
ghost use Rattle.fun_laws.specs.inner.Views.{behind_view, defs_view, name_view, rest_view};

use crate::cert::Cert;
use crate::step::Rw;
use crate::step_rows::{NameRow, StepRow, TitleRow};
use group_text::{
    Head, MarkRow, ReadError, Rows, Version, next_row, read_defs, read_head, row_begins,
};
use rv_words::{List, Text};
use std::alloc::Global;
use tailrec_lang::{Def, Group};

/// The steps, as many as follow.
fn read_steps<E, R: Rows<E>>(
    alloc: Global,
    rows: &mut R,
    from: &mut E,
) -> Result<List<Rw>, ReadError>
    ensures { RowsGive (λ steps. steps) result (R.May rows.old from.old) (R.May rows.new from.new)
        (star is_step step_at) }
{
    let mut steps = List::new(alloc);
    'steps: while row_begins(alloc, rows, from, &StepRow)? {
        match next_row(alloc, rows, from, &StepRow) {
            Ok(step) => steps.push(step)?,
            Err(halt) => return Err(halt),
        }
    }
    Ok(steps)
}

/// The definitions that the steps give, and the row that ends the text.
fn read_defs_to_end<E, R: Rows<E>>(
    alloc: Global,
    rows: &mut R,
    from: &mut E,
) -> Result<List<Def>, ReadError>
    ensures { RowsGive defs_view result (R.May rows.old from.old) (R.May rows.new from.new)
        defs_to_end }
{
    let defs = read_defs(alloc, rows, from)?;
    next_row(alloc, rows, from, &MarkRow(b"end"))?;
    Ok(defs)
}

/// The row before these definitions, and they.
fn read_result<E, R: Rows<E>>(
    alloc: Global,
    rows: &mut R,
    from: &mut E,
) -> Result<List<Def>, ReadError>
    ensures { RowsGive (λ defs. map def_tree defs) result (R.May rows.old from.old)
        (R.May rows.new from.new) result_at }
{
    next_row(alloc, rows, from, &MarkRow(b"result"))?;
    let defs = read_defs_to_end(alloc, rows, from)?;
    Ok(defs)
}

/// What stands behind the group.
fn read_behind_old<E, R: Rows<E>>(
    alloc: Global,
    rows: &mut R,
    from: &mut E,
) -> Result<(List<Rw>, List<Def>), ReadError>
    ensures { RowsGive rest_view result (R.May rows.old from.old) (R.May rows.new from.new)
        behind_old }
{
    let steps = read_steps(alloc, rows, from)?;
    let result = read_result(alloc, rows, from)?;
    Ok((steps, result))
}

/// What stands behind the head of the group.
fn read_behind_head<E, R: Rows<E>>(
    alloc: Global,
    rows: &mut R,
    from: &mut E,
) -> Result<(List<Def>, (List<Rw>, List<Def>)), ReadError>
    ensures { RowsGive behind_view result (R.May rows.old from.old) (R.May rows.new from.new)
        behind_head }
{
    let defs = read_defs(alloc, rows, from)?;
    let rest = read_behind_old(alloc, rows, from)?;
    Ok((defs, rest))
}

/// What stands behind the row of the group's name.
fn read_behind_name<E, R: Rows<E>>(
    alloc: Global,
    rows: &mut R,
    from: &mut E,
    version: Version,
    name: Text,
) -> Result<Cert, ReadError>
    ensures { RowsGive cert_tree result (R.May rows.old from.old) (R.May rows.new from.new)
        (behind_name (version_of version) (name_view name)) }
{
    let Head {
        name,
        regs,
        mems,
        code,
    } = read_head(alloc, rows, from, version, name)?;
    let (defs, (steps, result)) = read_behind_head(alloc, rows, from)?;
    let old = Group {
        name,
        regs,
        mems,
        code,
        defs,
    };
    Ok(Cert { old, steps, result })
}

/// What stands behind the title.
fn read_behind_title<E, R: Rows<E>>(
    alloc: Global,
    rows: &mut R,
    from: &mut E,
    version: Version,
) -> Result<Cert, ReadError>
    ensures { RowsGive cert_tree result (R.May rows.old from.old) (R.May rows.new from.new)
        (behind_title (version_of version)) }
{
    let name = next_row(alloc, rows, from, &NameRow)?;
    let cert = read_behind_name(alloc, rows, from, version, name)?;
    Ok(cert)
}

/// A certificate of a group of that version, up to the row that ends it.
pub fn read_rows<E, R: Rows<E>>(
    alloc: Global,
    rows: &mut R,
    from: &mut E,
    version: Version,
) -> Result<Cert, ReadError>
    ensures { RowsGive cert_tree result (R.May rows.old from.old) (R.May rows.new from.new)
        (cert_at (version_of version)) }
{
    next_row(alloc, rows, from, &TitleRow)?;
    let cert = read_behind_title(alloc, rows, from, version)?;
    Ok(cert)
}
