//! The loops and cuts of a graph.
ghost use Rattle.std.specs.Prelude.{◌≡◌, ◌<◌, ◌≤◌, ◌↔◌, ℕ, IfOk, IfErr, IsTrue, Some, length};
ghost use Rattle.std.specs.List.{Contains};
ghost use Rattle.loop_forest.specs.Forest.{IsForestOf, IsNoForest, depth_of, exits_of, has_inside, head_of, inside_of, loops_around, number_of, place_of, region_of};
ghost use Rattle.loop_forest.specs.inner.DepthFirst.{IsNumbered};

use crate::cut_tables::{base_table, places};
use crate::depth_first::{DepthFirst, Mark, post_order};
use crate::entries::entries_fault;
use crate::heads::{Found, LoopWithExits, find_all};
use crate::loops::number_at;
use crate::region_table::region_table;
use flow_graph::{FlowFault, Graph, Outside};
use rv_words::NoMemory;
use std::alloc::Global;
use std::marker::Model;

/// The loops of a graph, numbered from 0 by rising head, and its cuts.
#[derive(Drop)]
pub struct Forest {
    loops: Vec<LoopWithExits>,
    regions: Vec<Option<u32>>,
    marks: Vec<Mark>,
    places: Vec<u32>,
}

impl Model for Forest {
    ghost use Rattle.loop_forest.specs.Forest.{ForestOf};
    ghost use Rattle.loop_forest.specs.inner.Kept.{IsKept, forest_of};

    ghost Value = { ForestOf };

    ghost view = { λ f. forest_of f.loops.items f.regions.items f.marks.items f.places.items };

    ghost invariant = { λ f. IsKept f.loops.items f.regions.items f.marks.items f.places.items };
}

impl Forest {
    /// How many loops there are.
    pub fn loops(&self) -> u32
        ensures { result ≡ length self.now.heads }
    {
        self.loops.len() as u32
    }

    /// The head of a loop.
    pub fn head(&self, l: u32) -> u32
        requires { l < length self.now.heads }
        ensures { result ≡ head_of self.now l }
    {
        self.loops[l as usize].body.head
    }

    /// Whether a loop has a node. It has its head.
    pub fn inside(&self, l: u32, n: u32) -> bool
        requires { l < length self.now.heads }
        ensures { IsTrue result ↔ Contains (inside_of self.now l) n }
    {
        self.loops[l as usize].body.has(n)
    }

    /// The nodes outside a loop to which edges from inside it lead, rising.
    pub fn exits(&self, l: u32) -> &[u32]
        requires { l < length self.now.heads }
        ensures { result.now ≡ exits_of self.now l }
    {
        self.loops[l as usize].exits.as_slice()
    }

    /// The smallest loop that has a node, where a head counts as a node of the region around its
    /// loop.
    pub fn region(&self, n: u32) -> Option<u32>
        requires { n < length self.now.places }
        ensures { result ≡ region_of self.now n }
    {
        self.regions[n as usize]
    }

    /// The smallest other loop that has the head of a loop.
    pub fn parent(&self, l: u32) -> Option<u32>
        requires { l < length self.now.heads }
        ensures { result ≡ region_of self.now (head_of self.now l) }
    {
        let _ = &self.loops;
        self.region(self.head(l))
    }

    /// Whether a loop has a node.
    fn has_inside(&self, l: u32, n: u32) -> bool
        requires { l < length self.now.heads }
        ensures { result ≡ has_inside self.now n l }
    {
        self.inside(l, n)
    }

    /// How many loops have a node.
    fn loops_around(&self, n: u32) -> u32
        ensures is { result ≡ loops_around self.now n }
        ensures most { result ≤ length self.now.heads }
    {
        let mut count = 0;
        for l in 0..self.loops() {
            if self.has_inside(l, n) {
                count += 1;
            }
        }
        count
    }

    /// How many loops there are around what is in a region, its own included.
    pub fn depth(&self, region: Option<u32>) -> u32
        requires { (l : ℕ) → region ≡ Some l → l < length self.now.heads }
        ensures is { result ≡ depth_of self.now region }
        ensures most { result ≤ length self.now.heads }
    {
        match region {
            Some(l) => self.loops_around(self.head(l)),
            None => 0,
        }
    }

    /// The post-order number of a node. It falls along each edge that is no back edge.
    pub fn number(&self, n: u32) -> usize
        requires { n < length self.now.places }
        ensures { result ≡ number_of self.now n }
    {
        number_at(&self.marks, n)
    }

    /// Whether a node is a cut.
    pub fn is_cut(&self, n: u32) -> bool
        requires { n < length self.now.places }
        ensures { IsTrue result ↔ (place_of self.now n ≡ 0) }
    {
        self.places[n as usize] == 0
    }
}

/// The forest of a graph without two entries, whose loops have few exits.
fn forest_from(alloc: Global, g: &Graph, marks: Vec<Mark>) -> Result<Forest, FlowFault>
    requires { IsNumbered g.now g.now.entry marks.items }
    ensures ok { IfOk result (IsForestOf g.now) }
    ensures err { IfErr result (IsNoForest g.now) }
{
    let _count = g.len();
    match find_all(alloc, g, &marks)? {
        Found::TooManyExits(h) => Err(FlowFault::Outside(Outside::ManyExits(g.addr(h)))),
        Found::Loops(loops) => {
            let regions = region_table(alloc, g, &loops)?;
            let base = base_table(alloc, g, &loops)?;
            let places = places(alloc, g, &marks, &base)?;
            Ok(Forest {
                loops,
                regions,
                marks,
                places,
            })
        }
    }
}

/// The loops and cuts of a graph, or its fault: a cycle with two entries, else the first loop with
/// more than 8 exits.
pub fn find_loops(alloc: Global, g: &Graph) -> Result<Forest, FlowFault>
    ensures ok { IfOk result (IsForestOf g.now) }
    ensures err { IfErr result (IsNoForest g.now) }
{
    let _count = g.len();
    match post_order(alloc, g, g.entry())? {
        DepthFirst::Irreducible(cycle, first, second) => {
            let fault = entries_fault(alloc, g, &cycle, &first, &second)?;
            Err(FlowFault::Outside(fault))
        }
        DepthFirst::PostOrder(marks) => forest_from(alloc, g, marks),
    }
}
