//! Nodes that are cuts whatever stands before them, and the places of all nodes.
ghost use Rattle.std.specs.Prelude.{◌<◌, ◌≤◌, ◌↔◌, IfOk, IsTrue, length};
ghost use Rattle.flow_graph.specs.Graph.{preds_of};
ghost use Rattle.loop_forest.specs.inner.Bases.{AreBases, ArePlaces, HasBases, IsBaseOf, IsEnd, IsEndOf};

use crate::cuts::steps_since_cut;
use crate::depth_first::Mark;
use crate::heads::LoopWithExits;
use flow_graph::Graph;
use rv_words::NoMemory;
use std::alloc::Global;

/// Whether two edges or more lead to a node.
pub fn is_joined(g: &Graph, n: u32) -> bool
    requires { n < length g.now.addrs }
    ensures { IsTrue result ↔ (2 ≤ length (preds_of g.now.edges n)) }
{
    let mut preds = g.preds(n);
    match preds.next() {
        None => false,
        Some(_) => preds.next().is_some(),
    }
}

/// Whether a node is the head or an exit of a loop.
fn is_end_of(l: &LoopWithExits, n: u32) -> bool
    ensures { IsTrue result ↔ IsEndOf l.now n }
{
    n == l.body.head || l.exits.as_slice().contains(&n)
}

/// Whether a node is the head or an exit of one of the loops.
pub fn is_end(loops: &[LoopWithExits], n: u32) -> bool
    ensures { IsTrue result ↔ IsEnd loops.now n }
{
    for l in loops {
        if is_end_of(l, n) {
            return true;
        }
    }
    false
}

/// Whether a node is a cut whatever stands before it.
fn is_base(g: &Graph, loops: &[LoopWithExits], n: u32) -> bool
    requires { n < length g.now.addrs }
    ensures { IsTrue result ↔ IsBaseOf g.now loops.now n }
{
    n == g.entry() || is_end(loops, n) || is_joined(g, n)
}

/// Which nodes are cuts whatever stands before them.
pub fn base_table(alloc: Global, g: &Graph, loops: &[LoopWithExits]) -> Result<Vec<bool>, NoMemory>
    ensures { IfOk result (λ v. AreBases g.now loops.now v.items (length g.now.addrs)) }
{
    let count = g.len();
    let mut found = Vec::new(alloc);
    let mut n = 0;
    'nodes: while n < count {
        found.push(is_base(g, loops, n))?;
        n += 1;
    }
    Ok(found)
}

/// The places of all nodes after the last cut.
pub fn places(alloc: Global, g: &Graph, marks: &[Mark], base: &[bool]) -> Result<Vec<u32>, NoMemory>
    requires bases { HasBases g.now marks.now base.now }
    ensures { IfOk result (λ v. ArePlaces g.now base.now v.items (length g.now.addrs)) }
{
    let count = g.len();
    let mut found = Vec::new(alloc);
    let mut n = 0;
    'nodes: while n < count {
        found.push(steps_since_cut(g, marks, base, n))?;
        n += 1;
    }
    Ok(found)
}
