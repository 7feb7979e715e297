//! Two entries, at addresses.
ghost use Rattle.std.specs.Prelude.{◌≡◌, ℕ, ◌<◌, IfOk, length, map, slice_index};
ghost use Rattle.std.specs.List.{Contains};
ghost use Rattle.flow_graph.specs.Graph.{HasEdge};
ghost use Rattle.loop_forest.specs.Cycles.{ShowsTwoEntries};
ghost use Rattle.loop_forest.specs.Forest.{IsForestFault};

use flow_graph::{Graph, Outside};
use rv_words::{List, NoMemory};
use std::alloc::Global;

/// The addresses of nodes.
fn addresses(alloc: Global, g: &Graph, nodes: &[u32]) -> Result<List<u64>, NoMemory>
    requires { (u : ℕ) → Contains nodes.now u → u < length g.now.addrs }
    ensures { IfOk result (λ l. l ≡ map (λ u. slice_index g.now.addrs u) nodes.now) }
{
    let mut found = List::new(alloc);
    for u in nodes {
        found.push(g.addr(*u))?;
    }
    Ok(found)
}

/// The fault that a cycle and two walks between nodes show.
pub fn entries_fault(
    alloc: Global,
    g: &Graph,
    cycle: &[u32],
    first: &[u32],
    second: &[u32],
) -> Result<Outside, NoMemory>
    requires { ShowsTwoEntries (HasEdge g.now) g.now.entry cycle.now first.now second.now }
    ensures { IfOk result (IsForestFault g.now) }
{
    let _count = g.len();
    Ok(Outside::TwoEntries {
        cycle: addresses(alloc, g, cycle)?,
        first: addresses(alloc, g, first)?,
        second: addresses(alloc, g, second)?,
    })
}
