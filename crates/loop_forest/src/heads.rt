//! All loops of a graph.
ghost use Rattle.std.specs.Prelude.{◌<◌, IfOk};
ghost use Rattle.flow_graph.specs.Graph.{HasEdge};
ghost use Rattle.loop_forest.specs.Loops.{IsPostOrder};
ghost use Rattle.loop_forest.specs.inner.DepthFirst.{mark_of, number_of};
ghost use Rattle.loop_forest.specs.inner.Found.{IsFound};

use crate::depth_first::Mark;
use crate::loops::{Loop, exits_of, loop_of};
use flow_graph::Graph;
use rv_words::{List, NoMemory};
use std::alloc::Global;

/// How many exits a loop may have.
const LOOP_EXIT_LIMIT: usize = 8;

/// A loop with its exits.
#[derive(Drop)]
pub struct LoopWithExits {
    pub body: Loop,
    pub exits: List<u32>,
}

/// What is found of loops.
#[derive(Drop)]
pub enum Found {
    /// All loops, by rising head.
    Loops(Vec<LoopWithExits>),
    /// The least head whose loop has too many exits.
    TooManyExits(u32),
}

/// All loops, or the least head whose loop has too many exits.
pub fn find_all(alloc: Global, g: &Graph, marks: &[Mark]) -> Result<Found, NoMemory>
    requires in_post_order { IsPostOrder (HasEdge g.now) g.now.entry (λ x.
        number_of (mark_of marks.now x)) }
    ensures { IfOk result (IsFound g.now) }
{
    let count = g.len();
    let mut loops = Vec::new(alloc);
    let mut h = 0;
    'heads: while h < count {
        if let Some(body) = loop_of(alloc, g, marks, h)? {
            let exits = exits_of(alloc, g, &body)?;
            if exits.len() > LOOP_EXIT_LIMIT {
                return Ok(Found::TooManyExits(h));
            }
            loops.push(LoopWithExits { body, exits })?;
        }
        h += 1;
    }
    Ok(Found::Loops(loops))
}
