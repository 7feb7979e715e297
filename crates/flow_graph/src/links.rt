//! Edges in two lists linked by index.
ghost use Rattle.std.specs.Prelude.{◌≡◌, ℕ, ◌<◌, ◌^◌, ◌∷◌, [], OnOk, OnErr, IfOk, None, length, replicate};
ghost use Rattle.flow_graph.specs.Graph.{succs_of, preds_of};

use rv_words::NoMemory;
use std::alloc::Global;
use std::marker::Model;

/// Which of its two lists an edge is followed in: that of the edges from its node, or that of the
/// edges to it.
#[derive(Clone, Copy, Drop)]
pub enum Side {
    Out,
    In,
}

/// An edge, with the next edge from the same node and the next edge to the same node.
#[derive(Clone, Copy, Drop)]
pub struct Edge {
    pub from: u32,
    pub to: u32,
    pub next_out: Option<u32>,
    pub next_in: Option<u32>,
}

/// Nodes from 0, and edges.
#[derive(Drop)]
pub struct Links {
    first_out: Vec<Option<u32>>,
    first_in: Vec<Option<u32>>,
    edges: Vec<Edge>,
}

impl Model for Links {
    ghost use Rattle.std.specs.Prelude.{ℕ, List, length};
    ghost use Rattle.flow_graph.specs.inner.Linked.{AreLinked, pairs_of};

    ghost Value = { ℕ × List (ℕ × ℕ) };

    ghost view = { λ l. (length l.first_out.items, pairs_of l.edges.items) };

    ghost invariant = { λ l. AreLinked l.first_out.items l.first_in.items l.edges.items };
}

/// The edges from a node, or to a node: an iterator over the nodes at their far ends.
#[derive(Drop)]
pub struct Edges<'a> {
    edges: &'a [Edge],
    at: Option<u32>,
    side: Side,
}

impl<'a> Model for Edges<'a> {
    ghost use Rattle.std.specs.Prelude.{ℕ, List, length};
    ghost use Rattle.flow_graph.specs.inner.Linked.{follow, Falls, IsBelow};

    ghost Value = { List ℕ };

    ghost view = { λ s. follow s.side s.edges.now (length s.edges.now) s.at };

    ghost invariant = { λ s. Falls s.side s.edges.now × IsBelow (length s.edges.now) s.at };
}

impl<'a> Iterator for Edges<'a> {
    ghost use Rattle.std.specs.Iterator.{YieldsFirst, item_count};

    type Item = u32;

    ghost next_gives = { YieldsFirst (λ rest. rest) };

    ghost remaining = { item_count (λ rest. rest) };

    fn next(&mut self) -> Option<u32> {
        let at = self.at?;
        let edge = self.edges[at as usize];
        match self.side {
            Side::Out => {
                self.at = edge.next_out;
                Some(edge.to)
            }
            Side::In => {
                self.at = edge.next_in;
                Some(edge.from)
            }
        }
    }
}

/// For each node that it has no edges yet.
fn no_firsts(alloc: Global, count: usize) -> Result<Vec<Option<u32>>, NoMemory>
    ensures { IfOk result (λ v. v.items ≡ replicate count None) }
{
    let mut firsts = Vec::new(alloc);
    for n in 0..count {
        firsts.push(None)?;
    }
    Ok(firsts)
}

impl Links {
    /// Nodes without edges.
    pub fn new(alloc: Global, count: usize) -> Result<Links, NoMemory>
        ensures { IfOk result (λ l. l ≡ (count, [])) }
    {
        Ok(Links {
            first_out: no_firsts(alloc, count)?,
            first_in: no_firsts(alloc, count)?,
            edges: Vec::new(alloc),
        })
    }

    /// The far ends of the edges from n, newest first.
    pub fn succs(&self, n: u32) -> Edges<'_>
        requires { n < self.now.0 }
        ensures { result ≡ succs_of self.now.1 n }
    {
        Edges {
            edges: &self.edges,
            at: self.first_out[n as usize],
            side: Side::Out,
        }
    }

    /// The far ends of the edges to n, newest first.
    pub fn preds(&self, n: u32) -> Edges<'_>
        requires { n < self.now.0 }
        ensures { result ≡ preds_of self.now.1 n }
    {
        Edges {
            edges: &self.edges,
            at: self.first_in[n as usize],
            side: Side::In,
        }
    }

    /// Adds an edge, in front of both lists.
    pub fn add(&mut self, from: u32, to: u32) -> Result<(), NoMemory>
        requires from { from < self.old.0 }
        requires to { to < self.old.0 }
        requires room { length self.old.1 < 2 ^ 32 }
        ensures ok { OnOk result (self.new ≡ (self.old.0, (from, to) ∷ self.old.1)) }
        ensures err { OnErr result (self.new ≡ self.old) }
    {
        let number = self.edges.len() as u32;
        let edge = Edge {
            from,
            to,
            next_out: self.first_out[from as usize],
            next_in: self.first_in[to as usize],
        };
        self.edges.push(edge)?;
        self.first_out[from as usize] = Some(number);
        self.first_in[to as usize] = Some(number);
        Ok(())
    }
}
