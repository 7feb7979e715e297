//! A function's group with the lines of its proof.

ghost use Rattle.std.specs.Prelude.{◌≡◌, All, IfOk, false, map};
ghost use Rattle.proof_text.specs.Line.{line_tree};
ghost use Rattle.verdicts.specs.Instance.{after_lines};
ghost use Rattle.loop_forest.specs.Forest.{IsForestOf};
ghost use Rattle.code_parts.specs.Flows.{IsReached};
ghost use Rattle.code_parts.specs.Graph.{IsPart};
ghost use Rattle.code_parts.specs.Kept.{flow_in};
ghost use Rattle.path_walk.specs.Forgotten.{KeepsNone};
ghost use Rattle.path_walk.specs.Further.{IsVersionFor};
ghost use Rattle.path_walk.specs.Item.{IsItemOf};
ghost use Rattle.path_walk.specs.inner.Walks.{IsItemOver};

use crate::all_parts::walk_all;
use code_parts::{Flow, Part, group_with, parts_of};
use flow_graph::Graph;
use group_text::Version;
use loop_forest::Forest;
use proof_text::Line;
use rv_words::{List, NoMemory, Text};
use std::alloc::Global;
use tailrec_lang::Group;

/// A function's group, the lines of its proof, and how many instructions are reached from its
/// entry.
#[derive(Debug, Drop)]
pub struct Item {
    pub group: Group,
    pub lines: List<Line>,
    pub reached: u32,
}

/// The group of that name for a graph and its forest, with lines that close each of its
/// definitions.
pub fn item_of(alloc: Global, name: Text, graph: &Graph, forest: &Forest) -> Result<Item, NoMemory>
    requires reached { IsReached false graph.now }
    requires forest { IsForestOf graph.now forest.now }
    ensures item { IfOk result (λ item. IsItemOf graph.now forest.now name item) }
    ensures kept { IfOk result (λ item. KeepsNone (after_lines (map line_tree item.lines))) }
{
    let parts = parts_of(alloc, graph, forest)?;
    let parts = parts.as_slice();
    let flow = Flow::new(alloc, graph, forest, parts)?;
    flow.law_of_code();
    item_in(alloc, Version::One, name, &flow, parts, graph.len())
}

/// The group of that name for a flow of all parts in their order, in a text of that version.
pub fn item_in(
    alloc: Global,
    version: Version,
    name: Text,
    flow: &Flow<'_>,
    parts: &[Part],
    reached: u32,
) -> Result<Item, NoMemory>
    requires version { IsVersionFor (flow_in flow.now) version }
    requires parts { parts.now ≡ flow.now.context.parts }
    requires each { All (IsPart (flow_in flow.now)) parts.now }
    ensures item { IfOk result (λ item. IsItemOver version flow.now name reached item) }
    ensures kept { IfOk result (λ item. KeepsNone (after_lines (map line_tree item.lines))) }
{
    let walks = walk_all(alloc, flow, version, parts)?;
    let group = group_with(alloc, name, flow, walks.defs)?;
    Ok(Item {
        group,
        lines: walks.lines,
        reached,
    })
}
