//! Definitions of parts.

ghost use Rattle.std.specs.Prelude.{◌≡◌, ◌<◌, ℕ, IfOk, map};
ghost use Rattle.std.specs.List.{All};
ghost use Rattle.tailrec_lang.specs.Tree.{def_tree};
ghost use Rattle.tailrec_lang.specs.declared.group.Exit.TheVariants.{At};
ghost use Rattle.code_parts.specs.declared.part.Part.TheVariants.{Rest};
ghost use Rattle.code_parts.specs.Bodies as spec;
ghost use Rattle.code_parts.specs.Graph.{IsPart};
ghost use Rattle.code_parts.specs.Regions.{IsOfRegion, IsRegion};
ghost use Rattle.code_parts.specs.Kept.{flow_in};

use crate::bodies::part_body;
use crate::ends::rest_targets;
use crate::flow::Flow;
use crate::part::Part;
use rv_words::{List, NoMemory};
use std::alloc::Global;
use tailrec_lang::{Def, Exit};

/// An exit at each of these nodes.
fn exits_at(alloc: Global, flow: &Flow<'_>, nodes: &[u32]) -> Result<List<Exit>, NoMemory>
    requires { All (λ x. x < (flow_in flow.now).nodes) nodes.now }
    ensures { IfOk result (λ exits. exits ≡ map (λ n. At ((flow_in flow.now).addr n)) nodes.now) }
{
    let mut exits = List::new(alloc);
    for n in nodes {
        exits.push(Exit::At(flow.addr(*n)))?;
    }
    Ok(exits)
}

/// The exits of the rest of a region.
fn rest_exits(alloc: Global, flow: &Flow<'_>, region: Option<u32>) -> Result<List<Exit>, NoMemory>
    requires { IsRegion (flow_in flow.now) region }
    ensures { (n : ℕ)
        → IfOk result (λ exits. exits ≡ spec.exits_of (flow_in flow.now) (Rest region n)) }
{
    let targets = rest_targets(alloc, flow, region)?;
    let mut exits = exits_at(alloc, flow, targets.as_slice())?;
    if region.is_none() && flow.returns() {
        exits.push(Exit::Ret)?;
    }
    Ok(exits)
}

/// The exits of a part.
fn exits_of(alloc: Global, flow: &Flow<'_>, p: Part) -> Result<List<Exit>, NoMemory>
    requires { IsOfRegion (flow_in flow.now) p }
    ensures { IfOk result (λ exits. exits ≡ spec.exits_of (flow_in flow.now) p) }
{
    match p {
        Part::Loop(l) => exits_at(alloc, flow, flow.exits(l)),
        Part::Rest { region, .. } => rest_exits(alloc, flow, region),
    }
}

/// The first node of a part.
pub fn first_node(flow: &Flow<'_>, p: Part) -> u32
    requires { IsPart (flow_in flow.now) p }
    ensures is { result ≡ spec.first (flow_in flow.now) p }
    ensures node { result < (flow_in flow.now).nodes }
{
    match p {
        Part::Loop(l) => flow.head(l),
        Part::Rest { node, .. } => node,
    }
}

/// The definition of a part.
pub fn part_def(alloc: Global, flow: &Flow<'_>, p: Part) -> Result<Def, NoMemory>
    requires { IsPart (flow_in flow.now) p }
    ensures { IfOk result (λ d. def_tree d ≡ spec.part_def (flow_in flow.now) p) }
{
    flow.law_of_regions(p);
    let exits = exits_of(alloc, flow, p)?;
    let body = part_body(alloc, flow, p)?;
    Ok(Def {
        entry: flow.addr(first_node(flow, p)),
        exits,
        body,
    })
}
