//! Reading groups.

ghost use Rattle.std.specs.Prelude.{◌<◌, ◌≤◌, OnOk, Some, map, option_map};
ghost use Rattle.mc_text.specs.Reading.{made, pair};
ghost use Rattle.tailrec_lang.specs.Tree.{def_tree, group_tree};
ghost use Rattle.group_text.specs.inner.Heads.{head_of};
ghost use Rattle.group_text.specs.inner.Rows.{RowsGive, halted_by};
ghost use Rattle.group_text.specs.inner.Reading.{def_at, group_of, next_at, own_defs, turn_at};
ghost use Rattle.group_text.specs.inner.GroupRows.{more_head};
ghost use Rattle.group_text.specs.Version.{version_of};

use crate::bodies::read_body;
use crate::heads::{FirstRow, Head};
use crate::next_rows::{
    CodeRow, DefRow, GroupRow, MemsRow, RegsRow, TitleRow, next_row, row_begins,
};
use crate::read_error::ReadError;
use crate::rows::Rows;
use crate::version::Version;
use rv_words::{List, Text};
use std::alloc::Global;
use tailrec_lang::{Def, Group};

/// The deepest nesting of bodies.
const BODY_DEPTH_LIMIT: u32 = 64;

/// The most definitions of a group.
const DEF_LIMIT: usize = 4096;

/// A definition.
fn read_def<E, R: Rows<E>>(alloc: Global, rows: &mut R, from: &mut E) -> Result<Def, ReadError>
    ensures gives { RowsGive def_tree result (R.May rows.old from.old) (R.May rows.new from.new)
        def_at }
    ensures left { R.left rows.new ≤ R.left rows.old }
    ensures lends { R.Lends (halted_by result) rows.old from.old rows.new from.new }
    ensures fewer { OnOk result (R.left rows.new < R.left rows.old) }
{
    let (entry, exits) = next_row(alloc, rows, from, &DefRow)?;
    let body = read_body(alloc, rows, from, BODY_DEPTH_LIMIT)?;
    Ok(Def { entry, exits, body })
}

/// The definitions of a group, as many as follow. There is at least one.
pub fn read_defs<E, R: Rows<E>>(
    alloc: Global,
    rows: &mut R,
    from: &mut E,
) -> Result<List<Def>, ReadError>
    ensures gives { RowsGive (λ defs. map def_tree defs) result (R.May rows.old from.old)
        (R.May rows.new from.new) own_defs }
    ensures left { R.left rows.new ≤ R.left rows.old }
    ensures lends { R.Lends (halted_by result) rows.old from.old rows.new from.new }
{
    let mut defs = List::new(alloc);
    'defs: while row_begins(alloc, rows, from, &DefRow)? {
        if defs.len() == DEF_LIMIT {
            return Err(ReadError::Bad);
        }
        match read_def(alloc, rows, from) {
            Ok(def) => defs.push(def)?,
            Err(halt) => return Err(halt),
        }
    }
    if defs.is_empty() {
        return Err(ReadError::Bad);
    }
    Ok(defs)
}

/// What stands before the definitions, after the name.
pub fn read_head<E, R: Rows<E>>(
    alloc: Global,
    rows: &mut R,
    from: &mut E,
    version: Version,
    name: Text,
) -> Result<Head, ReadError>
    ensures gives { RowsGive head_of result (R.May rows.old from.old) (R.May rows.new from.new)
        (more_head (version_of version) name) }
    ensures left { R.left rows.new ≤ R.left rows.old }
    ensures lends { R.Lends (halted_by result) rows.old from.old rows.new from.new }
{
    let regs = next_row(alloc, rows, from, &RegsRow)?;
    let mems = next_row(alloc, rows, from, &MemsRow(version))?;
    let code = next_row(alloc, rows, from, &CodeRow)?;
    Ok(Head {
        name,
        regs,
        mems,
        code,
    })
}

/// A group, after the row of its name.
fn read_group<E, R: Rows<E>>(
    alloc: Global,
    rows: &mut R,
    from: &mut E,
    version: Version,
    name: Text,
) -> Result<Group, ReadError>
    ensures gives { RowsGive (λ g. Some (group_tree g)) result (R.May rows.old from.old)
        (R.May rows.new from.new)
        (made (λ x. Some (group_of x.0 x.1)) (pair (more_head (version_of version) name)
        own_defs)) }
    ensures left { R.left rows.new ≤ R.left rows.old }
    ensures lends { R.Lends (halted_by result) rows.old from.old rows.new from.new }
{
    let Head {
        name,
        regs,
        mems,
        code,
    } = read_head(alloc, rows, from, version, name)?;
    let defs = read_defs(alloc, rows, from)?;
    Ok(Group {
        name,
        regs,
        mems,
        code,
        defs,
    })
}

/// The next group, or none at the row that ends the text.
fn read_next<E, R: Rows<E>>(
    alloc: Global,
    rows: &mut R,
    from: &mut E,
    version: Version,
) -> Result<Option<Group>, ReadError>
    ensures gives { RowsGive (λ found. option_map group_tree found) result (R.May rows.old from.old)
        (R.May rows.new from.new) (next_at (version_of version)) }
    ensures left { R.left rows.new ≤ R.left rows.old }
    ensures fewer { OnOk result (R.left rows.new < R.left rows.old) }
    ensures lends { R.Lends (halted_by result) rows.old from.old rows.new from.new }
{
    let first = next_row(alloc, rows, from, &GroupRow)?;
    match first {
        FirstRow::End => Ok(None),
        FirstRow::Group(name) => {
            let group = read_group(alloc, rows, from, version, name)?;
            Ok(Some(group))
        }
    }
}

/// The next group, or none at the row that ends the text, after the title of that version where the
/// text begins here.
pub fn read_turn<E, R: Rows<E>>(
    alloc: Global,
    rows: &mut R,
    from: &mut E,
    version: Version,
    first: bool,
) -> Result<Option<Group>, ReadError>
    ensures gives { RowsGive (λ found. option_map group_tree found) result (R.May rows.old from.old)
        (R.May rows.new from.new) (turn_at (version_of version) first) }
    ensures left { R.left rows.new ≤ R.left rows.old }
    ensures fewer { OnOk result (R.left rows.new < R.left rows.old) }
    ensures lends { R.Lends (halted_by result) rows.old from.old rows.new from.new }
{
    if first {
        next_row(alloc, rows, from, &TitleRow(version))?;
        read_next(alloc, rows, from, version)
    } else {
        read_next(alloc, rows, from, version)
    }
}
