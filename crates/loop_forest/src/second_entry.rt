//! The second search.
ghost use Rattle.std.specs.Prelude.{◌<◌, IfOk, IfSome, IfNone, length, slice_index, ◌∷◌, []};
ghost use Rattle.std.specs.List.{Contains};
ghost use Rattle.flow_graph.specs.Graph.{HasEdge};
ghost use Rattle.loop_forest.specs.Loops.{Dominates};
ghost use Rattle.loop_forest.specs.inner.Search.{FindsSources};
ghost use Rattle.loop_forest.specs.inner.SecondEntry.{EntersBeside};

use crate::backward_search::{Search, reaching_without};
use flow_graph::Graph;
use rv_words::NoMemory;
use std::alloc::Global;

/// Follows a search from a place to the first node on the cycle.
fn walk_from(
    alloc: Global,
    g: &Graph,
    search: &Search,
    u: u32,
    h: u32,
    place: usize,
    cycle: &[u32],
) -> Result<Vec<u32>, NoMemory>
    requires found { FindsSources g.now (u ∷ []) h search.now.nodes search.now.next_hop.items }
    requires on { Contains cycle.now u }
    requires place { place < length search.now.nodes }
    ensures { IfOk result (λ w.
        EntersBeside g.now cycle.now (slice_index search.now.nodes place) h w.items) }
{
    let _count = g.len();
    let mut walk = Vec::new(alloc);
    let mut at = place;
    let mut x = search.nodes.get(at);
    'walk: while !cycle.contains(&x) {
        walk.push(x)?;
        at = search.next_hop[at];
        x = search.nodes.get(at);
    }
    walk.push(x)?;
    Ok(walk)
}

/// A walk from the entry that enters the cycle beside h, where u is reached without meeting h.
pub fn second_entry(
    alloc: Global,
    g: &Graph,
    entry: u32,
    h: u32,
    u: u32,
    cycle: &[u32],
) -> Result<Option<Vec<u32>>, NoMemory>
    requires u { u < length g.now.addrs }
    requires on { Contains cycle.now u }
    ensures none { IfOk result (λ o. IfNone o (Dominates (HasEdge g.now) entry h u)) }
    ensures some { IfOk result (λ o. IfSome o (λ w. EntersBeside g.now cycle.now entry h w.items)) }
{
    let search = reaching_without(alloc, g, &[u], h)?;
    match search.nodes.place(entry) {
        None => Ok(None),
        Some(place) => Ok(Some(walk_from(alloc, g, &search, u, h, place, cycle)?)),
    }
}
