//! The parts of a graph, in their order.

ghost use Rattle.std.specs.Prelude.{◌≡◌, ◌<◌, ◌++◌, [], IfOk, OnOk, Some, length, map};
ghost use Rattle.std.specs.List.Sorted.{IsPermutation};
ghost use Rattle.std.specs.List.{All};
ghost use Rattle.loop_forest.specs.Forest.{IsForestOf, number_of};
ghost use Rattle.code_parts.specs.Bodies.{own};
ghost use Rattle.code_parts.specs.Flows.{alone, flow_of};
ghost use Rattle.code_parts.specs.Graph.{IsPart};
ghost use Rattle.code_parts.specs.Order.{AreParts, weight};
ghost use Rattle.code_parts.specs.inner.Ranks.{AreSorted, IsRanked, loops_to, rests_to};

use crate::part::Part;
use flow_graph::Graph;
use loop_forest::Forest;
use rv_words::{List, NoMemory};
use std::alloc::Global;

/// A part with what its order goes by: first the height of its region, then the weight.
#[derive(Clone, Copy)]
pub struct Ranked {
    pub height: u32,
    pub weight: u128,
    pub part: Part,
}

/// The weight of a part.
fn weight_of(graph: &Graph, forest: &Forest, part: Part) -> u128
    requires forest { IsForestOf graph.now forest.now }
    requires part { IsPart (flow_of graph.now forest.now (alone graph.now [])) part }
    ensures { result
        ≡ weight (flow_of graph.now forest.now (alone graph.now [])) (number_of forest.now) part }
{
    graph.len();
    match part {
        Part::Loop(l) => 2 * forest.number(forest.head(l)) as u128,
        Part::Rest { node, .. } => 2 * forest.number(node) as u128 + 1,
    }
}

/// The region whose code a part is of.
fn region_of(part: Part) -> Option<u32>
    ensures { result ≡ own part }
{
    match part {
        Part::Loop(l) => Some(l),
        Part::Rest { region, .. } => region,
    }
}

/// A part with its height and its weight.
fn rank(graph: &Graph, forest: &Forest, part: Part) -> Ranked
    requires forest { IsForestOf graph.now forest.now }
    requires part { IsPart (flow_of graph.now forest.now (alone graph.now [])) part }
    ensures part { result.part ≡ part }
    ensures ranked { IsRanked (flow_of graph.now forest.now (alone graph.now [])) forest.now
        result }
{
    Ranked {
        height: forest.loops() - forest.depth(region_of(part)),
        weight: weight_of(graph, forest, part),
        part,
    }
}

/// Adds the loops.
fn add_loops(graph: &Graph, forest: &Forest, all: &mut Vec<Ranked>) -> Result<(), NoMemory>
    requires forest { IsForestOf graph.now forest.now }
    requires ranked { All (IsRanked (flow_of graph.now forest.now (alone graph.now [])) forest.now)
        all.old.items }
    ensures parts { OnOk result (map (λ r. r.part) all.new.items
        ≡ map (λ r. r.part) all.old.items ++ loops_to (length forest.now.heads)) }
    ensures ranked { OnOk result (All
        (IsRanked (flow_of graph.now forest.now (alone graph.now [])) forest.now) all.new.items) }
{
    for l in 0..forest.loops() {
        all.push(rank(graph, forest, Part::Loop(l)))?;
    }
    Ok(())
}

/// Adds the rests from cuts on.
fn add_rests(graph: &Graph, forest: &Forest, all: &mut Vec<Ranked>) -> Result<(), NoMemory>
    requires forest { IsForestOf graph.now forest.now }
    requires ranked { All (IsRanked (flow_of graph.now forest.now (alone graph.now [])) forest.now)
        all.old.items }
    ensures parts { OnOk result (map (λ r. r.part) all.new.items
        ≡ map (λ r. r.part) all.old.items
        ++ rests_to (flow_of graph.now forest.now (alone graph.now [])) (length graph.now.addrs)) }
    ensures ranked { OnOk result (All
        (IsRanked (flow_of graph.now forest.now (alone graph.now [])) forest.now) all.new.items) }
{
    for n in 0..graph.len() {
        if forest.is_cut(n) {
            let region = forest.region(n);
            all.push(rank(graph, forest, Part::Rest { region, node: n }))?;
        }
    }
    Ok(())
}

/// Sorts by height, and those of one height by weight.
fn sort(all: &mut Vec<Ranked>) -> Result<(), NoMemory>
    ensures moved { IsPermutation all.old.items all.new.items }
    ensures sorted { OnOk result (AreSorted all.new.items) }
{
    all.sort_by_key(|r| r.weight)?;
    all.sort_by_key(|r| r.height)?;
    Ok(())
}

/// The parts of a graph, in their order.
pub fn parts_of(alloc: Global, graph: &Graph, forest: &Forest) -> Result<List<Part>, NoMemory>
    requires { IsForestOf graph.now forest.now }
    ensures { IfOk result (λ ps.
        AreParts (flow_of graph.now forest.now (alone graph.now ps)) (number_of forest.now) ps) }
{
    graph.len();
    let mut all = Vec::new(alloc);
    add_loops(graph, forest, &mut all)?;
    add_rests(graph, forest, &mut all)?;
    sort(&mut all)?;
    let parts = parts_in(alloc, &all)?;
    Ok(parts)
}

/// These parts alone.
fn parts_in(alloc: Global, all: &[Ranked]) -> Result<List<Part>, NoMemory>
    ensures { IfOk result (λ ps. ps ≡ map (λ r. r.part) all.now) }
{
    let mut parts = List::new(alloc);
    for r in all {
        parts.push(r.part)?;
    }
    Ok(parts)
}
