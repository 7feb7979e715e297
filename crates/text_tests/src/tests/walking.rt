//! The walk through a part closes its definition.

ghost use Rattle.std.specs.Prelude.{false};
ghost use Rattle.loop_forest.specs.Forest.{IsForestOf};
ghost use Rattle.code_parts.specs.Flows.{IsReached};

use super::checking::ELF;
use decompiler::law_of_bytes;
use elf_image::{Image, read};
use flow_graph::{Graph, build};
use loop_forest::{Forest, find_loops};
use path_walk::{Part, Walked, walk};
use proof_text::Line;
use rv_words::List;
use std::alloc::Global;

/// Whether a line closes definition 0 by theorem 6.
fn closes(line: Option<&Line>) -> bool {
    match line {
        Some(Line::Loop { def, cited }) => (*def == 0) & (cited.as_slice() == [6].as_slice()),
        _ => false,
    }
}

/// Whether the walk made the definition of the code at 0x10000 and seven theorems, which close it
/// and are forgotten.
fn is_whole(walked: &Walked, lines: &List<Line>) -> bool {
    let is_def = (walked.def.entry == 0x10000) & (walked.def.exits.len() == 1);
    is_def & (walked.next == 7) & (lines.len() == 15) & closes(lines.get(7))
}

/// Whether the walk through the rest of the function from its first node on is so.
fn is_walked(alloc: Global, graph: &Graph, forest: &Forest) -> bool
    requires reached { IsReached false graph.now }
    requires forest { IsForestOf graph.now forest.now }
{
    if graph.len() == 0 || !forest.is_cut(0) {
        return false;
    }
    let part = Part::Rest {
        region: forest.region(0),
        node: 0,
    };
    let mut lines = List::new(alloc);
    match walk(alloc, graph, forest, &[], part, 0, &mut lines) {
        Ok(walked) => is_whole(&walked, &lines),
        Err(_) => false,
    }
}

fn graph_is_walked(alloc: Global, graph: &Graph) -> bool
    requires { IsReached false graph.now }
{
    match find_loops(alloc, graph) {
        Ok(forest) => is_walked(alloc, graph, &forest),
        Err(_) => false,
    }
}

fn image_is_walked(alloc: Global, image: &Image) -> bool {
    law_of_bytes(image);
    match build(alloc, image, 0x10000) {
        Ok(graph) => graph_is_walked(alloc, &graph),
        Err(_) => false,
    }
}

/// Whether the code of the file is walked so.
fn file_is_walked(alloc: Global) -> bool {
    match read(alloc, &ELF) {
        Ok(image) => image_is_walked(alloc, &image),
        Err(_) => false,
    }
}

#[test]
fn a_walk_closes_its_definition_and_forgets_its_theorems(rt: HostRuntime) {
    assert!(rt; file_is_walked(rt.alloc()));
}
