//! Places after the last cut.
ghost use Rattle.std.specs.Prelude.{◌<◌, length};
ghost use Rattle.flow_graph.specs.Graph.{HasEdge};
ghost use Rattle.loop_forest.specs.Cuts.{StepsSinceCut};
ghost use Rattle.loop_forest.specs.inner.Bases.{IsMarked, HasBases};

use crate::depth_first::Mark;
use flow_graph::Graph;

/// How many instructions there are from the last cut to n, modulo 32; 0 at a cut.
pub fn steps_since_cut(g: &Graph, marks: &[Mark], base: &[bool], n: u32) -> u32
    requires bases { HasBases g.now marks.now base.now }
    requires node { n < length g.now.addrs }
    ensures { StepsSinceCut (HasEdge g.now) (IsMarked base.now) n result }
{
    let _count = g.len();
    let mut at = n;
    let mut steps = 0;
    'back: while !base[at as usize] {
        let mut preds = g.preds(at);
        match preds.next() {
            Some(u) => {
                at = u;
                steps = (steps + 1) % 32;
            }
            None => return 0,
        }
    }
    steps
}
