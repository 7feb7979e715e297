//! Where a part ends by itself, and the ends of its body at cuts.

ghost use Rattle.std.specs.Prelude.{◌≡◌, ◌∷◌, ◌<◌, ◌≤◌, ◌^◌, IfOk, IfSome, Some, if◌then◌else◌, length, map, option_map};
ghost use Rattle.std.specs.List.{All};
ghost use Rattle.tailrec_lang.specs.Tree.{Arm, Leave, NoArm, arms_of, body_tree, values_tree};
ghost use Rattle.tailrec_lang.specs.inner.Tree.{end_tree};
ghost use Rattle.word_terms.specs.Tree.{word_tree};
ghost use Rattle.code_parts.specs.Bodies as spec;
ghost use Rattle.code_parts.specs.Regions as ends;
ghost use Rattle.code_parts.specs.Regions.{IsOfRegion, IsRegion};
ghost use Rattle.code_parts.specs.inner.Ends.{returning};
ghost use Rattle.code_parts.specs.Kept.{flow_in};
ghost use Rattle.code_parts.specs.VariableMaps.{place_of};

use crate::flow::Flow;
use crate::part::Part;
use crate::variables::{VariableMap, current, fresh};
use rv_words::{List, NoMemory};
use std::alloc::Global;
use tailrec_lang::{Body, End, Values};
use word_terms::Word;

/// The place of a node in a list.
fn index_of(nodes: &[u32], n: u32) -> Option<u32>
    requires { length nodes.now < 2 ^ 32 }
    ensures is { result ≡ spec.index_of nodes.now n }
    ensures below { IfSome result (λ k. k < length nodes.now) }
{
    let mut place = 0;
    for x in nodes {
        if n == *x {
            return Some(place);
        }
        place += 1;
    }
    None
}

/// Where the rest of a region ends.
pub fn rest_targets(
    alloc: Global,
    flow: &Flow<'_>,
    region: Option<u32>,
) -> Result<List<u32>, NoMemory>
    requires { IsRegion (flow_in flow.now) region }
    ensures are { IfOk result (λ ts. ts ≡ spec.rest_targets (flow_in flow.now) region) }
    ensures nodes { IfOk result (All (λ x. x < (flow_in flow.now).nodes)) }
    ensures few { IfOk result (λ ts. length ts ≤ 9) }
{
    let mut targets = List::new(alloc);
    if let Some(l) = region {
        targets.push(flow.head(l))?;
        targets.extend_from_slice(flow.exits(l))?;
    }
    Ok(targets)
}

/// The number of the exit that is where the rest of a loop's region ends.
fn loop_rest_exit(flow: &Flow<'_>, l: u32, n: u32) -> Option<u32>
    requires { l < (flow_in flow.now).loops }
    ensures { result ≡ spec.index_of ((flow_in flow.now).head l ∷ (flow_in flow.now).exits l) n }
{
    if n == flow.head(l) {
        return Some(0);
    }
    match index_of(flow.exits(l), n) {
        Some(k) => Some(k + 1),
        None => None,
    }
}

/// The number of the exit at a node, where the rest of a region ends.
fn rest_exit(flow: &Flow<'_>, region: Option<u32>, n: u32) -> Option<u32>
    requires { IsRegion (flow_in flow.now) region }
    ensures { result ≡ spec.index_of (spec.rest_targets (flow_in flow.now) region) n }
{
    match region {
        Some(l) => loop_rest_exit(flow, l, n),
        None => None,
    }
}

/// Whether a part ends at a node by itself.
pub fn ends_at(flow: &Flow<'_>, p: Part, n: u32) -> bool
    requires { IsOfRegion (flow_in flow.now) p }
    ensures { result ≡ ends.ends_at (flow_in flow.now) p n }
{
    match p {
        Part::Loop(l) => n == flow.head(l) || index_of(flow.exits(l), n).is_some(),
        Part::Rest { region, .. } => rest_exit(flow, region, n).is_some(),
    }
}

/// The end by the exit of that number, if there is one.
#[tactic(auto, using(tailrec_lang::proofs::Views::view_leave))]
fn leave(
    alloc: Global,
    flow: &Flow<'_>,
    exit: Option<u32>,
    place: &VariableMap,
) -> Result<Option<End>, NoMemory>
    ensures { IfOk result (λ end.
        option_map end_tree end
        ≡ option_map (λ k. Leave k (spec.current (flow_in flow.now) (place_of place.now))) exit) }
{
    match exit {
        Some(k) => {
            let values = current(alloc, flow, place)?;
            Ok(Some(End::Leave(k, values)))
        }
        None => Ok(None),
    }
}

/// How a part ends at a node by itself, if it does.
#[tactic(auto, using(tailrec_lang::proofs::Views::view_again))]
fn end_of(
    alloc: Global,
    flow: &Flow<'_>,
    p: Part,
    n: u32,
    place: &VariableMap,
) -> Result<Option<End>, NoMemory>
    requires { IsOfRegion (flow_in flow.now) p }
    ensures { IfOk result (λ end.
        option_map end_tree end
        ≡ spec.end_of (flow_in flow.now) p n (spec.current (flow_in flow.now)
        (place_of place.now))) }
{
    match p {
        Part::Loop(l) => {
            if n == flow.head(l) {
                let values = current(alloc, flow, place)?;
                return Ok(Some(End::Again(values)));
            }
            leave(alloc, flow, index_of(flow.exits(l), n), place)
        }
        Part::Rest { region, .. } => leave(alloc, flow, rest_exit(flow, region, n), place),
    }
}

/// The end of a part at a node where it ends by itself.
#[tactic(auto, using(tailrec_lang::proofs::Views::view_body, tailrec_lang::proofs::Views::view_leave))]
fn last_at(
    alloc: Global,
    flow: &Flow<'_>,
    p: Part,
    n: u32,
    place: &VariableMap,
) -> Result<Body, NoMemory>
    requires { IsOfRegion (flow_in flow.now) p }
    ensures { IfOk result (λ b.
        body_tree b ≡ spec.last_at (flow_in flow.now) p n (place_of place.now)) }
{
    let end = match end_of(alloc, flow, p, n, place)? {
        Some(end) => end,
        None => End::Leave(0, current(alloc, flow, place)?),
    };
    Ok(Body {
        steps: List::new(alloc),
        end,
    })
}

/// An arm for each of these nodes, at which the part ends by itself.
fn last_arms(
    alloc: Global,
    flow: &Flow<'_>,
    p: Part,
    targets: &[u32],
    place: &VariableMap,
) -> Result<List<Body>, NoMemory>
    requires { IsOfRegion (flow_in flow.now) p }
    ensures { IfOk result (λ arms.
        map body_tree arms
        ≡ map (λ x. spec.last_at (flow_in flow.now) p x (place_of place.now)) targets.now) }
{
    let mut arms = List::new(alloc);
    for x in targets {
        let arm = last_at(alloc, flow, p, *x, place)?;
        arms.push(arm)?;
    }
    Ok(arms)
}

/// A program counter in front of values.
pub fn with_pc(alloc: Global, pc: Word, values: Values) -> Result<Values, NoMemory>
    ensures { IfOk result (λ v. values_tree v ≡ spec.with_pc (word_tree pc) (values_tree values)) }
{
    let mut words = List::new(alloc);
    words.push(pc)?;
    words.append(values.words)?;
    Ok(Values {
        words,
        mems: values.mems,
    })
}

/// The arm that returns to the address that a called rest returns to.
#[tactic(auto, using(tailrec_lang::proofs::Views::view_body, tailrec_lang::proofs::Views::view_leave))]
fn returning_arm(alloc: Global, flow: &Flow<'_>, place: &VariableMap) -> Result<Body, NoMemory>
    requires words { place.now.words < 2 ^ 15 }
    requires mems { place.now.mems < 2 ^ 15 }
    ensures { IfOk result (λ b. body_tree b ≡ returning (flow_in flow.now) (place_of place.now)) }
{
    let next = fresh(flow, place.words + 1, place.mems);
    let values = current(alloc, flow, &next)?;
    let values = with_pc(alloc, Word::Var(place.words), values)?;
    Ok(Body {
        steps: List::new(alloc),
        end: End::Leave(0, values),
    })
}

/// The arms of a call of the rest of a region from a cut on.
fn rest_arms(
    alloc: Global,
    flow: &Flow<'_>,
    p: Part,
    region: Option<u32>,
    place: &VariableMap,
) -> Result<List<Body>, NoMemory>
    requires own { IsOfRegion (flow_in flow.now) p }
    requires region { IsRegion (flow_in flow.now) region }
    requires words { place.now.words < 2 ^ 15 }
    requires mems { place.now.mems < 2 ^ 15 }
    ensures { IfOk result (λ arms.
        arms_of (map body_tree arms)
        ≡ spec.rest_arms (flow_in flow.now) p region (place_of place.now)) }
{
    match region {
        Some(l) => loop_rest_arms(alloc, flow, p, l, place),
        None => returning_arms(alloc, flow, place),
    }
}

/// The arms of a call of the rest of a loop's region.
fn loop_rest_arms(
    alloc: Global,
    flow: &Flow<'_>,
    p: Part,
    l: u32,
    place: &VariableMap,
) -> Result<List<Body>, NoMemory>
    requires own { IsOfRegion (flow_in flow.now) p }
    requires loops { l < (flow_in flow.now).loops }
    requires words { place.now.words < 2 ^ 15 }
    requires mems { place.now.mems < 2 ^ 15 }
    ensures { IfOk result (λ arms.
        arms_of (map body_tree arms)
        ≡ spec.rest_arms (flow_in flow.now) p (Some l) (place_of place.now)) }
{
    let targets = rest_targets(alloc, flow, Some(l))?;
    let next = fresh(flow, place.words, place.mems);
    let arms = last_arms(alloc, flow, p, targets.as_slice(), &next)?;
    Ok(arms)
}

/// The arms of a call of the rest of the whole function.
fn returning_arms(
    alloc: Global,
    flow: &Flow<'_>,
    place: &VariableMap,
) -> Result<List<Body>, NoMemory>
    requires words { place.now.words < 2 ^ 15 }
    requires mems { place.now.mems < 2 ^ 15 }
    ensures { IfOk result (λ arms.
        arms_of (map body_tree arms)
        ≡ (if (flow_in flow.now).returns then Arm
        (returning (flow_in flow.now) (place_of place.now)) NoArm else NoArm)) }
{
    let mut arms = List::new(alloc);
    if flow.returns() {
        let arm = returning_arm(alloc, flow, place)?;
        arms.push(arm)?;
    }
    Ok(arms)
}

/// The end of a part at a cut: by itself, or a call of the rest from there on.
#[tactic(auto, using(tailrec_lang::proofs::Views::view_call))]
pub fn end_at(
    alloc: Global,
    flow: &Flow<'_>,
    p: Part,
    n: u32,
    place: &VariableMap,
) -> Result<End, NoMemory>
    requires own { IsOfRegion (flow_in flow.now) p }
    requires node { n < (flow_in flow.now).nodes }
    requires words { place.now.words < 2 ^ 15 }
    requires mems { place.now.mems < 2 ^ 15 }
    ensures { IfOk result (λ end.
        end_tree end ≡ spec.end_at (flow_in flow.now) p n (place_of place.now)) }
{
    if let Some(end) = end_of(alloc, flow, p, n, place)? {
        return Ok(end);
    }
    let region = flow.around(n);
    let number = flow.number(Part::Rest { region, node: n });
    let values = current(alloc, flow, place)?;
    let arms = rest_arms(alloc, flow, p, region, place)?;
    Ok(End::Call(number, values, arms))
}
