//! The walk through all parts of a function.

ghost use Rattle.std.specs.Prelude.{◌≡◌, IfOk, length, map};
ghost use Rattle.std.specs.List.{All};
ghost use Rattle.tailrec_lang.specs.Tree.{def_tree};
ghost use Rattle.proof_text.specs.Line.{line_tree};
ghost use Rattle.verdicts.specs.Instance.{after_lines};
ghost use Rattle.code_parts.specs.Graph.{IsPart};
ghost use Rattle.code_parts.specs.Kept.{flow_in};
ghost use Rattle.path_walk.specs.Forgotten.{KeepsNone};
ghost use Rattle.path_walk.specs.Further.{IsVersionFor};
ghost use Rattle.path_walk.specs.inner.Walks.{AreWalked};

use crate::one_part::walk_in;
use code_parts::{Flow, Part};
use group_text::Version;
use proof_text::Line;
use rv_words::{List, NoMemory};
use std::alloc::Global;
use tailrec_lang::Def;

/// The definitions of parts, and lines that close them.
#[derive(Drop)]
pub struct Walks {
    pub defs: List<Def>,
    pub lines: List<Line>,
}

/// Walks through all parts of a flow in a text of that version, in their order.
pub fn walk_all(
    alloc: Global,
    flow: &Flow<'_>,
    version: Version,
    parts: &[Part],
) -> Result<Walks, NoMemory>
    requires version { IsVersionFor (flow_in flow.now) version }
    requires parts { parts.now ≡ flow.now.context.parts }
    requires each { All (IsPart (flow_in flow.now)) parts.now }
    ensures lines { IfOk result (λ w.
        AreWalked version flow.now (length parts.now) (map def_tree w.defs)
        (map line_tree w.lines)) }
    ensures kept { IfOk result (λ w. KeepsNone (after_lines (map line_tree w.lines))) }
{
    flow.law_of_graphs();
    let mut defs = List::new(alloc);
    let mut lines = List::new(alloc);
    let mut next = 0;
    for part in parts {
        let walked = walk_in(alloc, flow, version, *part, next, &mut lines)?;
        defs.push(walked.def)?;
        next = walked.next;
    }
    Ok(Walks { defs, lines })
}
