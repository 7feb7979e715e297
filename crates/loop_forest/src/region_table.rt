//! The regions of nodes: the smallest loops that have them.
ghost use Rattle.std.specs.Prelude.{◌<◌, ◌≤◌, ◌↔◌, IfOk, IfSome, IsTrue, length};
ghost use Rattle.loop_forest.specs.inner.Found.{AreLoops, heads};
ghost use Rattle.loop_forest.specs.inner.Kept.{AreRegions, IsCloser, IsClosest};

use crate::heads::LoopWithExits;
use flow_graph::Graph;
use rv_words::NoMemory;
use std::alloc::Global;

/// Whether loop l has a node beyond its head, and lies in the best loop so far.
fn is_closer(g: &Graph, loops: &[LoopWithExits], best: Option<u32>, l: usize, n: u32) -> bool
    requires loops { AreLoops g.now loops.now (length g.now.addrs) }
    requires l { l < length loops.now }
    requires best { IfSome best (λ b. b < length loops.now) }
    ensures { IsTrue result ↔ IsCloser g.now (heads loops.now) best l n }
{
    let body = &loops[l].body;
    if body.head == n || !body.has(n) {
        return false;
    }
    match best {
        None => true,
        Some(b) => loops[b as usize].body.has(body.head),
    }
}

/// The smallest loop that has a node, where a head counts as a node of the region around its loop.
fn region_of(g: &Graph, loops: &[LoopWithExits], n: u32) -> Option<u32>
    requires loops { AreLoops g.now loops.now (length g.now.addrs) }
    requires few { length loops.now ≤ 1024 }
    requires node { n < length g.now.addrs }
    ensures { IsClosest g.now (heads loops.now) (length loops.now) n result }
{
    let _count = g.len();
    let mut best: Option<u32> = None;
    for l in 0..loops.len() {
        if is_closer(g, loops, best, l, n) {
            best = Some(l as u32);
        }
    }
    best
}

/// The regions of all nodes.
pub fn region_table(
    alloc: Global,
    g: &Graph,
    loops: &[LoopWithExits],
) -> Result<Vec<Option<u32>>, NoMemory>
    requires loops { AreLoops g.now loops.now (length g.now.addrs) }
    requires few { length loops.now ≤ 1024 }
    ensures { IfOk result (λ v. AreRegions g.now (heads loops.now) v.items (length g.now.addrs)) }
{
    let mut found = Vec::new(alloc);
    for n in 0..g.len() {
        found.push(region_of(g, loops, n))?;
    }
    Ok(found)
}
