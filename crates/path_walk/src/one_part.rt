//! The walk through a part: its definition, and the lines that close it.

ghost use Rattle.std.specs.Prelude.{◌≡◌, ◌+◌, ◌-◌, ◌≤◌, ◌<◌, ◌^◌, ◌∷◌, ◌++◌, [], List as Items, IfOk, OnOk, OnErr, false, length, map};
ghost use Rattle.tailrec_lang.specs.Tree.{def_tree};
ghost use Rattle.proof_text.specs.Line.{LineTree, line_tree};
ghost use Rattle.verdicts.specs.Instance.{after_lines};
ghost use Rattle.code_parts.specs.Bodies as spec;
ghost use Rattle.code_parts.specs.Graph.{IsPart};
ghost use Rattle.code_parts.specs.Flows.{IsReached, alone, flow_of};
ghost use Rattle.loop_forest.specs.Forest.{IsForestOf};
ghost use Rattle.path_walk.specs.Forgotten.{KeepsNone};
ghost use Rattle.path_walk.specs.Further.{IsVersionFor};
ghost use Rattle.path_walk.specs.Item.{IsWalkedIn, IsWalkedAfter};
ghost use Rattle.code_parts.specs.Kept.{flow_in};
ghost use Rattle.path_walk.specs.inner.Lines.{forgets, stated};

use crate::body_lines::part_lines;
use crate::proof_writer::ProofWriter;
use code_parts::{Flow, Part, part_def};
use flow_graph::Graph;
use group_text::Version;
use loop_forest::Forest;
use proof_text::Line;
use rv_words::{List, NoMemory};
use std::alloc::Global;
use tailrec_lang::Def;

/// The definition of a part, and the number of the next theorem.
#[derive(Debug, Drop)]
pub struct Walked {
    pub def: Def,
    pub next: u64,
}

/// How many theorems a line makes.
fn count_of(line: &Line) -> u64
    ensures count { result ≡ stated (line_tree line.now ∷ []) }
    ensures one { result ≤ 1 }
{
    match line {
        Line::States { .. } => 1,
        Line::Further { .. } => 1,
        Line::Loop { .. } => 0,
        Line::Forget(_) => 0,
    }
}

/// The number of the next theorem after these lines.
fn next_after(first: u64, lines: &[Line]) -> u64
    requires { first < 2 ^ 63 }
    ensures { result ≡ first + stated (map line_tree lines.now) }
{
    let mut next = first;
    for line in lines {
        next += count_of(line);
    }
    next
}

/// Lines that forget the theorems from that number on, below that of the next.
fn forget_lines(first: u64, next: u64, lines: &mut List<Line>) -> Result<(), NoMemory>
    requires { first ≤ next }
    ensures { OnOk result (map line_tree lines.new
        ≡ map line_tree lines.old ++ forgets first (next - first)) }
{
    for number in first..next {
        lines.push(Line::Forget(number))?;
    }
    Ok(())
}

/// The lines that close the definition of a part, and forget the theorems that were stated for it.
fn closing_lines(
    alloc: Global,
    flow: &Flow<'_>,
    version: Version,
    part: Part,
    first: u64,
) -> Result<List<Line>, NoMemory>
    requires version { IsVersionFor (flow_in flow.now) version }
    requires part { IsPart (flow_in flow.now) part }
    requires first { first < 2 ^ 63 }
    ensures lines { IfOk result (λ more.
        (old : Items LineTree)
        → first ≡ (after_lines old).next
        → IsWalkedIn version (flow_in flow.now) flow.now.code part old
        (old ++ map line_tree more)) }
    ensures kept { IfOk result (λ more.
        (old : Items LineTree)
        → first ≡ (after_lines old).next
        → KeepsNone (after_lines old)
        → KeepsNone (after_lines (old ++ map line_tree more))) }
{
    let mut log = ProofWriter::new(alloc, version, first);
    part_lines(alloc, flow, part, &mut log)?;
    let (mut lines, cited) = log.into_parts();
    let next = next_after(first, lines.as_slice());
    lines.push(Line::Loop {
        def: flow.number(part),
        cited,
    })?;
    forget_lines(first, next, &mut lines)?;
    Ok(lines)
}

/// Walks through a part of a flow: adds lines of a text of that version, which close its definition
/// and forget the theorems that were stated for it, where `first` is the number of the next
/// theorem.
pub fn walk_in(
    alloc: Global,
    flow: &Flow<'_>,
    version: Version,
    part: Part,
    first: u64,
    lines: &mut List<Line>,
) -> Result<Walked, NoMemory>
    requires version { IsVersionFor (flow_in flow.now) version }
    requires part { IsPart (flow_in flow.now) part }
    requires first { first ≡ (after_lines (map line_tree lines.old)).next }
    ensures def { IfOk result (λ w. def_tree w.def ≡ spec.part_def (flow_in flow.now) part) }
    ensures next { IfOk result (λ w. w.next ≡ (after_lines (map line_tree lines.new)).next) }
    ensures lines { OnOk result (IsWalkedIn version (flow_in flow.now) flow.now.code part
        (map line_tree lines.old) (map line_tree lines.new)) }
    ensures kept { OnOk result (KeepsNone (after_lines (map line_tree lines.old))
        → KeepsNone (after_lines (map line_tree lines.new))) }
    ensures same { OnErr result (lines.new ≡ lines.old) }
{
    let _lines = lines.as_slice();
    let def = part_def(alloc, flow, part)?;
    let more = closing_lines(alloc, flow, version, part, first)?;
    let next = next_after(first, more.as_slice());
    lines.append(more)?;
    Ok(Walked { def, next })
}

/// Walks through a part: gives its definition, and adds lines that close it and forget the theorems
/// that were stated for it, where `first` is the number of the next theorem. The parts that it
/// calls have their places in `earlier` as numbers, as has the part itself, or the length of
/// `earlier` where it isn't there.
pub fn walk(
    alloc: Global,
    graph: &Graph,
    forest: &Forest,
    earlier: &[Part],
    part: Part,
    first: u64,
    lines: &mut List<Line>,
) -> Result<Walked, NoMemory>
    requires reached { IsReached false graph.now }
    requires forest { IsForestOf graph.now forest.now }
    requires few { length earlier.now < 2 ^ 32 }
    requires part { IsPart (flow_of graph.now forest.now (alone graph.now earlier.now)) part }
    requires first { first ≡ (after_lines (map line_tree lines.old)).next }
    ensures def { IfOk result (λ w.
        def_tree w.def
        ≡ spec.part_def (flow_of graph.now forest.now (alone graph.now earlier.now)) part) }
    ensures next { IfOk result (λ w. w.next ≡ (after_lines (map line_tree lines.new)).next) }
    ensures lines { OnOk result (IsWalkedAfter graph.now forest.now earlier.now part
        (map line_tree lines.old) (map line_tree lines.new)) }
    ensures kept { OnOk result (KeepsNone (after_lines (map line_tree lines.old))
        → KeepsNone (after_lines (map line_tree lines.new))) }
    ensures same { OnErr result (lines.new ≡ lines.old) }
{
    let flow = Flow::new(alloc, graph, forest, earlier)?;
    walk_in(alloc, &flow, Version::One, part, first, lines)
}
