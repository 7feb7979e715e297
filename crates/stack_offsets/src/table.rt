//! The offsets of registers at all nodes of a graph.
ghost use Rattle.std.specs.Prelude.{◌≡◌, ◌<◌, IfOk, None, length, replicate};
ghost use Rattle.stack_offsets.specs.inner.Rows.{Lowers, offsets_of};
ghost use Rattle.stack_offsets.specs.inner.Settling.{AreSettled};

use crate::row::Row;
use flow_graph::Graph;
use rv_words::NoMemory;
use std::alloc::Global;

/// For each node that no walk to it was followed yet.
fn no_rows(alloc: Global, count: u32) -> Result<Vec<Option<Row>>, NoMemory>
    ensures { IfOk result (λ rows. rows.items ≡ replicate count None) }
{
    let mut rows = Vec::new(alloc);
    for n in 0..count {
        rows.push(None)?;
    }
    Ok(rows)
}

/// Lowers the row of a node by the offsets that an edge brings, and says whether it changed.
fn lower(rows: &mut [Option<Row>], v: u32, from: &Row) -> bool
    requires node { v < length rows.old }
    requires few { length from.now.offsets ≡ 32 }
    ensures { Lowers rows.old v (offsets_of from.now) rows.new result }
{
    match rows[v as usize] {
        None => {
            rows[v as usize] = Some(*from);
            true
        }
        Some(row) => {
            let mut kept = row;
            let fell = kept.keep(from);
            if fell {
                rows[v as usize] = Some(kept);
            }
            fell
        }
    }
}

/// The rows of all nodes.
pub fn rows_of(alloc: Global, g: &Graph) -> Result<Vec<Option<Row>>, NoMemory>
    ensures { IfOk result (λ rows. AreSettled g.now rows.items) }
{
    let mut rows = no_rows(alloc, g.len())?;
    rows[g.entry() as usize] = Some(Row::at_entry());
    let mut waiting: Vec<u32> = Vec::new(alloc);
    waiting.push(g.entry())?;
    'nodes: while let Some(u) = waiting.pop() {
        if let Some(row) = rows[u as usize] {
            let after = row.after(g.instr(u));
            for v in g.succs(u) {
                if lower(&mut rows, v, &after) {
                    waiting.push(v)?;
                }
            }
        }
    }
    Ok(rows)
}
