//! The group of a function alone with two memories, and the lines of its proof.

ghost use Rattle.std.specs.Prelude.{IfOk, false, map};
ghost use Rattle.proof_text.specs.Line.{line_tree};
ghost use Rattle.verdicts.specs.Instance.{after_lines};
ghost use Rattle.loop_forest.specs.Forest.{IsForestOf};
ghost use Rattle.code_parts.specs.Flows.{IsReached};
ghost use Rattle.path_walk.specs.Forgotten.{KeepsNone};
ghost use Rattle.path_walk.specs.Split.{IsSplitItem};

use crate::item::{Item, item_in};
use code_parts::{Context, Flow, parts_of};
use flow_graph::Graph;
use group_text::Version;
use loop_forest::Forest;
use rv_words::{NoMemory, Text};
use std::alloc::Global;

/// The group of that name for a graph and its forest, with two memories: the accesses at the
/// addresses of `second` use the second one, any other the first; with lines of a text of version 4
/// that close each of its definitions.
pub fn split_item(
    alloc: Global,
    name: Text,
    graph: &Graph,
    forest: &Forest,
    second: &[u64],
) -> Result<Item, NoMemory>
    requires reached { IsReached false graph.now }
    requires forest { IsForestOf graph.now forest.now }
    ensures item { IfOk result (λ item. IsSplitItem graph.now forest.now second.now name item) }
    ensures kept { IfOk result (λ item. KeepsNone (after_lines (map line_tree item.lines))) }
{
    let parts = parts_of(alloc, graph, forest)?;
    let parts = parts.as_slice();
    let alone = Flow::new(alloc, graph, forest, parts)?;
    let context = Context {
        base: 0,
        parts,
        regs: alone.regs(),
        mems: 2,
        second,
        functions: &[],
    };
    let flow = Flow::of(alloc, graph, forest, &context, alone.code())?;
    flow.law_of_code();
    item_in(alloc, Version::Four, name, &flow, parts, graph.len())
}
