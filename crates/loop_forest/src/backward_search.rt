//! Searches.
ghost use Rattle.std.specs.Prelude.{◌<◌, IfOk, OnOk, length};
ghost use Rattle.std.specs.List.{All};
ghost use Rattle.loop_forest.specs.inner.Search.{FindsSources, Notes};

use crate::node_set::NodeSet;
use flow_graph::Graph;
use rv_words::NoMemory;
use std::alloc::Global;

/// The nodes that a search found, and for each the place of a node that an edge leads to from it.
#[derive(Drop)]
pub struct Search {
    pub nodes: NodeSet,
    pub next_hop: Vec<usize>,
}

impl Search {
    /// Adds a node, unless it is there already.
    fn note(&mut self, x: u32, place: usize) -> Result<(), NoMemory>
        ensures { OnOk result (Notes self.old.nodes self.old.next_hop.items x place self.new.nodes
            self.new.next_hop.items) }
    {
        if self.nodes.add(x)? {
            self.next_hop.push(place)?;
        }
        Ok(())
    }
}

/// The nodes from which a target is reached without meeting h.
pub fn reaching_without(
    alloc: Global,
    g: &Graph,
    targets: &[u32],
    h: u32,
) -> Result<Search, NoMemory>
    requires { All (λ t. t < length g.now.addrs) targets.now }
    ensures { IfOk result (λ s. FindsSources g.now targets.now h s.nodes s.next_hop.items) }
{
    let _count = g.len();
    let mut search = Search {
        nodes: NodeSet::new(alloc),
        next_hop: Vec::new(alloc),
    };
    for t in targets {
        if *t != h {
            search.note(*t, 0)?;
        }
    }
    let mut i = 0;
    'nodes: while i < search.nodes.len() {
        let x = search.nodes.get(i);
        for p in g.preds(x) {
            if p != h {
                search.note(p, i)?;
            }
        }
        i += 1;
    }
    Ok(search)
}
