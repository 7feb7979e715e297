//! A function with its graph and its loops.

ghost use Rattle.std.specs.Prelude.{◌≡◌, IfOk, IfErr, true};
ghost use Rattle.elf_image.specs.Image.{code_in};
ghost use Rattle.flow_graph.specs.Graph.{IsGraphOf};
ghost use Rattle.loop_forest.specs.Forest.{IsForestOf};
ghost use Rattle.code_parts.specs.inner.Finding.{IsNoFunction};

use elf_image::Image;
use flow_graph::{FlowFault, Graph, build_linked};
use loop_forest::{Forest, find_loops};
use std::alloc::Global;

/// One of the functions that calls lead to.
#[derive(Drop)]
pub struct Function {
    /// The address of its first instruction.
    pub entry: u64,
    /// How many functions calls lead to from here, this one among them. Along a call it falls.
    pub rank: usize,
    /// The code that is reached in it; a call comes back.
    pub graph: Graph,
    /// The loops of that.
    pub forest: Forest,
}

/// The function at an entry, with that rank, or why it has no graph or no forest.
pub fn function_at(
    alloc: Global,
    image: &Image,
    entry: u64,
    rank: usize,
) -> Result<Function, FlowFault>
    ensures entry { IfOk result (λ f. f.entry ≡ entry) }
    ensures rank { IfOk result (λ f. f.rank ≡ rank) }
    ensures graph { IfOk result (λ f. IsGraphOf true (code_in image.now.pieces) entry f.graph) }
    ensures forest { IfOk result (λ f. IsForestOf f.graph f.forest) }
    ensures err { IfErr result (IsNoFunction (code_in image.now.pieces) entry) }
{
    let graph = build_linked(alloc, image, entry)?;
    let forest = find_loops(alloc, &graph)?;
    Ok(Function {
        entry,
        rank,
        graph,
        forest,
    })
}
