//! Loops and their exits.
ghost use Rattle.std.specs.Prelude.{◌≡◌, ℕ, ◌<◌, ◌↔◌, IfOk, IfSome, IfNone, OnOk, IsTrue, length};
ghost use Rattle.std.specs.List.{Contains};
ghost use Rattle.flow_graph.specs.Graph.{HasEdge};
ghost use Rattle.loop_forest.specs.Loops.{IsPostOrder};
ghost use Rattle.loop_forest.specs.Loops.{IsHead};
ghost use Rattle.loop_forest.specs.inner.LoopOf.{AreBackTo, AreExits, IsIn, IsLoopOf, NotesExits};
ghost use Rattle.loop_forest.specs.inner.DepthFirst.{mark_of, number_of};

use crate::backward_search::reaching_without;
use crate::depth_first::Mark;
use crate::node_set::NodeSet;
use flow_graph::Graph;
use rv_words::{List, NoMemory};
use std::alloc::Global;

/// The post-order number of a node.
pub fn number_at(marks: &[Mark], u: u32) -> usize
    ensures { result ≡ number_of (mark_of marks.now u) }
{
    match marks.get(u as usize) {
        Some(Mark::Done(n)) => *n,
        _ => 0,
    }
}

/// The sources of the back edges to h: of the edges that don't go down.
fn back_sources(alloc: Global, g: &Graph, marks: &[Mark], h: u32) -> Result<Vec<u32>, NoMemory>
    requires node { h < length g.now.addrs }
    requires in_post_order { IsPostOrder (HasEdge g.now) g.now.entry (λ x.
        number_of (mark_of marks.now x)) }
    ensures { IfOk result (λ v. AreBackTo g.now g.now.entry h v.items) }
{
    let _count = g.len();
    let mut backs = Vec::new(alloc);
    for u in g.preds(h) {
        if number_at(marks, u) <= number_at(marks, h) {
            backs.push(u)?;
        }
    }
    Ok(backs)
}

/// A loop: its head, and its other nodes.
#[derive(Drop)]
pub struct Loop {
    pub head: u32,
    pub nodes: NodeSet,
}

/// The loop of h, where h is a head.
pub fn loop_of(alloc: Global, g: &Graph, marks: &[Mark], h: u32) -> Result<Option<Loop>, NoMemory>
    requires node { h < length g.now.addrs }
    requires in_post_order { IsPostOrder (HasEdge g.now) g.now.entry (λ x.
        number_of (mark_of marks.now x)) }
    ensures none { IfOk result (λ o. IfNone o (IsHead (HasEdge g.now) g.now.entry h → ⊥)) }
    ensures some { IfOk result (λ o. IfSome o (λ l. IsLoopOf g.now g.now.entry h l.head l.nodes)) }
{
    let backs = back_sources(alloc, g, marks, h)?;
    if backs.is_empty() {
        return Ok(None);
    }
    let search = reaching_without(alloc, g, &backs, h)?;
    Ok(Some(Loop {
        head: h,
        nodes: search.nodes,
    }))
}

impl Loop {
    /// Whether a node is in the loop.
    pub fn has(&self, x: u32) -> bool
        ensures { IsTrue result ↔ IsIn self.now.head self.now.nodes x }
    {
        x == self.head || self.nodes.has(x)
    }
}

/// Adds the exits to which edges from x lead.
fn note_exits(g: &Graph, l: &Loop, x: u32, exits: &mut NodeSet) -> Result<(), NoMemory>
    requires { x < length g.now.addrs }
    ensures { OnOk result (NotesExits g.now l.now.head l.now.nodes x exits.old exits.new) }
{
    for v in g.succs(x) {
        if !l.has(v) {
            exits.add(v)?;
        }
    }
    Ok(())
}

/// The exits of a loop, rising.
pub fn exits_of(alloc: Global, g: &Graph, l: &Loop) -> Result<List<u32>, NoMemory>
    requires head { l.now.head < length g.now.addrs }
    requires nodes { (x : ℕ) → Contains l.now.nodes x → x < length g.now.addrs }
    ensures { IfOk result (AreExits g.now l.now.head l.now.nodes) }
{
    let count = g.len();
    let mut exits = NodeSet::new(alloc);
    note_exits(g, l, l.head, &mut exits)?;
    let mut i = 0;
    'nodes: while i < l.nodes.len() {
        note_exits(g, l, l.nodes.get(i), &mut exits)?;
        i += 1;
    }
    Ok(List::from_vec(exits.rising(alloc, count)?))
}
