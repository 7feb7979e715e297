//! Bodies of parts.

ghost use Rattle.std.specs.Prelude.{◌≡◌, ◌∷◌, ◌++◌, ◌+◌, ◌*◌, ◌<◌, ◌^◌, ℕ, suc, [], IfOk, None, Some, map, true};
ghost use Rattle.std.specs.List.{All};
ghost use Rattle.rv_words.specs.declared.comparison.Cmp.TheVariants.{Eq};
ghost use Rattle.word_terms.specs.Tree.{Compare, Const, Var};
ghost use Rattle.tailrec_lang.specs.Tree.{Do, Need, arms_of, body_tree, step_tree, with_steps};
ghost use Rattle.triple_kernel.specs.declared.form.Form.TheVariants.{Next};
ghost use Rattle.rv_words.specs.Bytes.{away};
ghost use Rattle.code_parts.specs.Bodies as spec;
ghost use Rattle.code_parts.specs.Graph.{IsPart, has_edge};
ghost use Rattle.code_parts.specs.Regions.{IsOfRegion};
ghost use Rattle.code_parts.specs.inner.Ends.{body_on, called_body, returned_body};
ghost use Rattle.code_parts.specs.Kept.{flow_in};
ghost use Rattle.code_parts.specs.VariableMaps.{place_of};

use crate::callee::Callee;
use crate::ends::{end_at, with_pc};
use crate::flow::Flow;
use crate::part::Part;
use crate::steps::{add_needs, add_writes};
use crate::uses::is_jump_through;
use crate::variables::{VariableMap, after, current, fresh};
use instr_axioms::{Form, comparison, pc_after};
use rv_decode::Instr;
use rv_words::{Cmp, List, NoMemory};
use std::alloc::Global;
use tailrec_lang::{Body, End, Step};
use word_terms::{Cond, Word};

/// How many instructions there are at most from one cut to the next.
pub const CUT_DISTANCE_LIMIT: u32 = 32;

/// These steps, and those of an instruction that goes on to one node and accesses memory q if it
/// does.
fn steps_of(
    alloc: Global,
    i: Instr,
    addr: u64,
    length: u8,
    q: u8,
    place: &VariableMap,
    steps: List<Step>,
) -> Result<List<Step>, NoMemory>
    requires { q < 2 }
    ensures { IfOk result (λ ss.
        map step_tree ss
        ≡ map step_tree steps
        ++ (spec.needs i q (place_of place.now)
        ++ spec.writes i addr length q (place_of place.now))) }
{
    let mut steps = steps;
    add_needs(alloc, i, q, place, &mut steps)?;
    add_writes(alloc, i, addr, length, q, place, &mut steps)?;
    Ok(steps)
}

/// These steps, and the body for a return.
#[tactic(auto, using(tailrec_lang::proofs::Views::view_body, tailrec_lang::proofs::Views::view_leave))]
fn returning_body(
    alloc: Global,
    flow: &Flow<'_>,
    i: Instr,
    addr: u64,
    length: u8,
    q: u8,
    place: &VariableMap,
    steps: List<Step>,
) -> Result<Body, NoMemory>
    requires { q < 2 }
    ensures { IfOk result (λ b.
        body_tree b
        ≡ with_steps (map step_tree steps) (returned_body (flow_in flow.now) i addr length q
        (place_of place.now))) }
{
    let mut steps = steps;
    add_needs(alloc, i, q, place, &mut steps)?;
    let names = place.names_of(q);
    let pc = pc_after(alloc, i, Form::Next, addr, length, &names)?;
    let values = current(alloc, flow, place)?;
    let values = with_pc(alloc, pc, values)?;
    Ok(Body {
        steps,
        end: End::Leave(0, values),
    })
}

/// The body from a node on, after some steps: it follows the branches to the next cuts.
#[tactic(auto, using(tailrec_lang::proofs::Views::view_body, tailrec_lang::proofs::Views::view_leave))]
#[cycle(bodies)]
fn body_from(
    alloc: Global,
    flow: &Flow<'_>,
    p: Part,
    n: u32,
    place: &VariableMap,
    room: u32,
    steps: List<Step>,
) -> Result<Body, NoMemory>
    requires own { IsOfRegion (flow_in flow.now) p }
    requires node { n < (flow_in flow.now).nodes }
    requires words { place.now.words + 33 * room < 2 ^ 14 }
    requires mems { place.now.mems + 3 * room < 2 ^ 14 }
    ensures { IfOk result (λ b.
        body_tree b
        ≡ with_steps (map step_tree steps) (spec.body_at room (flow_in flow.now) p n
        (place_of place.now))) }
{
    if room == 0 {
        let values = current(alloc, flow, place)?;
        return Ok(Body {
            steps,
            end: End::Leave(0, values),
        });
    }
    match flow.callee(n) {
        Some(callee) => calling_body(alloc, flow, p, n, callee, place, room - 1, steps),
        None => acting_body(alloc, flow, p, n, place, room, steps),
    }
}

/// The body from a node on that calls no function.
#[tactic(auto, using(tailrec_lang::proofs::Views::view_body, tailrec_lang::proofs::Views::view_branch))]
#[cycle(bodies)]
fn acting_body(
    alloc: Global,
    flow: &Flow<'_>,
    p: Part,
    n: u32,
    place: &VariableMap,
    room: u32,
    steps: List<Step>,
) -> Result<Body, NoMemory>
    requires own { IsOfRegion (flow_in flow.now) p }
    requires node { n < (flow_in flow.now).nodes }
    requires alone { (flow_in flow.now).callee n ≡ None }
    requires some { 0 < room }
    requires words { place.now.words + 33 * room < 2 ^ 14 }
    requires mems { place.now.mems + 3 * room < 2 ^ 14 }
    ensures { IfOk result (λ b.
        body_tree b
        ≡ with_steps (map step_tree steps) (spec.body_at room (flow_in flow.now) p n
        (place_of place.now))) }
{
    let i = flow.instr(n);
    let q = flow.uses(n);
    if is_jump_through(i) {
        return returning_body(alloc, flow, i, flow.addr(n), flow.size(n), q, place, steps);
    }
    match i {
        Instr::Branch { cmp, rs1, rs2, .. } => {
            let c = comparison(alloc, cmp, rs1, rs2, &place.names)?;
            let none = List::new(alloc);
            let a = body_to(
                alloc,
                flow,
                p,
                flow.to(n, Form::Taken),
                place,
                room - 1,
                none,
            )?;
            let none = List::new(alloc);
            let b = body_to(
                alloc,
                flow,
                p,
                flow.to(n, Form::Next),
                place,
                room - 1,
                none,
            )?;
            let end = End::Branch(c, Box::new(alloc, a)?, Box::new(alloc, b)?);
            Ok(Body { steps, end })
        }
        _ => {
            let steps = steps_of(alloc, i, flow.addr(n), flow.size(n), q, place, steps)?;
            let next = after(i, q, *place);
            body_to(
                alloc,
                flow,
                p,
                flow.to(n, Form::Next),
                &next,
                room - 1,
                steps,
            )
        }
    }
}

/// The body from a node on to which an edge leads: at a cut it ends or calls the rest.
#[tactic(auto, using(tailrec_lang::proofs::Views::view_body))]
#[cycle(bodies)]
fn body_to(
    alloc: Global,
    flow: &Flow<'_>,
    p: Part,
    n: u32,
    place: &VariableMap,
    room: u32,
    steps: List<Step>,
) -> Result<Body, NoMemory>
    requires own { IsOfRegion (flow_in flow.now) p }
    requires node { n < (flow_in flow.now).nodes }
    requires words { place.now.words + 33 * room < 2 ^ 14 }
    requires mems { place.now.mems + 3 * room < 2 ^ 14 }
    ensures { IfOk result (λ b.
        body_tree b
        ≡ with_steps (map step_tree steps) (body_on room (flow_in flow.now) p n
        (place_of place.now))) }
{
    if flow.is_cut(n) {
        let end = end_at(alloc, flow, p, n, place)?;
        return Ok(Body { steps, end });
    }
    body_from(alloc, flow, p, n, place, room, steps)
}

/// These steps, and the body for a node that calls a function, where so many instructions may
/// follow to the next cuts.
#[tactic(auto, using(tailrec_lang::proofs::Views::view_body, tailrec_lang::proofs::Views::view_call))]
#[cycle(bodies)]
fn calling_body(
    alloc: Global,
    flow: &Flow<'_>,
    p: Part,
    n: u32,
    callee: Callee,
    place: &VariableMap,
    room: u32,
    steps: List<Step>,
) -> Result<Body, NoMemory>
    requires own { IsOfRegion (flow_in flow.now) p }
    requires node { n < (flow_in flow.now).nodes }
    requires edge { has_edge ((flow_in flow.now).instr n) Next ≡ true }
    requires words { place.now.words + 33 * (room + 1) < 2 ^ 14 }
    requires mems { place.now.mems + 3 * (room + 1) < 2 ^ 14 }
    ensures { IfOk result (λ b.
        body_tree b
        ≡ with_steps (map step_tree steps) (called_body room (flow_in flow.now) p n callee
        (place_of place.now))) }
{
    let i = flow.instr(n);
    let q = flow.uses(n);
    let addr = flow.addr(n);
    let length = flow.size(n);
    let steps = steps_of(alloc, i, addr, length, q, place, steps)?;
    let next = after(i, q, *place);
    let values = current(alloc, flow, &next)?;
    let back = behind(addr, length);
    let to = flow.to(n, Form::Next);
    let arms = return_arms(alloc, flow, p, callee.returns, back, to, &next, room)?;
    Ok(Body {
        steps,
        end: End::Call(callee.def, values, arms),
    })
}

/// The arms of a call that goes on at that node.
#[cycle(bodies)]
fn return_arms(
    alloc: Global,
    flow: &Flow<'_>,
    p: Part,
    returns: bool,
    back: u64,
    to: u32,
    place: &VariableMap,
    room: u32,
) -> Result<List<Body>, NoMemory>
    requires own { IsOfRegion (flow_in flow.now) p }
    requires node { to < (flow_in flow.now).nodes }
    requires words { place.now.words + 32 + 33 * room < 2 ^ 14 }
    requires mems { place.now.mems + 2 + 3 * room < 2 ^ 14 }
    ensures { IfOk result (λ arms.
        arms_of (map body_tree arms)
        ≡ spec.return_arm (flow_in flow.now) returns back (place_of place.now)
        (λ w. body_on room (flow_in flow.now) p to w)) }
{
    let mut arms = List::new(alloc);
    if returns {
        let arm = return_arm(alloc, flow, p, back, to, place, room)?;
        arms.push(arm)?;
    }
    Ok(arms)
}

/// The body for a call's return: it needs to be back at that address, and goes on at that node.
#[cycle(bodies)]
fn return_arm(
    alloc: Global,
    flow: &Flow<'_>,
    p: Part,
    back: u64,
    to: u32,
    place: &VariableMap,
    room: u32,
) -> Result<Body, NoMemory>
    requires own { IsOfRegion (flow_in flow.now) p }
    requires node { to < (flow_in flow.now).nodes }
    requires words { place.now.words + 32 + 33 * room < 2 ^ 14 }
    requires mems { place.now.mems + 2 + 3 * room < 2 ^ 14 }
    ensures { IfOk result (λ b.
        body_tree b
        ≡ Do (Need (Compare Eq (Var place.now.words) (Const back)))
        (body_on room (flow_in flow.now) p to
        (spec.fresh (flow_in flow.now) (suc place.now.words) place.now.mems))) }
{
    let steps = returned_to(alloc, back, place.words)?;
    let next = fresh(flow, place.words + 1, place.mems);
    body_to(alloc, flow, p, to, &next, room, steps)
}

/// The step that needs a returned address to be that one.
fn returned_to(alloc: Global, back: u64, returned: u32) -> Result<List<Step>, NoMemory>
    ensures { IfOk result (λ ss.
        map step_tree ss ≡ Need (Compare Eq (Var returned) (Const back)) ∷ []) }
{
    let at = Box::new(alloc, Word::Var(returned))?;
    let back = Box::new(alloc, Word::Const(back))?;
    let mut steps = List::new(alloc);
    steps.push(Step::Need(Cond::Compare(Cmp::Eq, at, back)))?;
    Ok(steps)
}

/// The address behind an instruction of that many bytes.
fn behind(addr: u64, length: u8) -> u64
    ensures { result ≡ away addr length }
{
    addr.wrapping_add(u64::from(length))
}

/// An arm for each of these nodes.
#[tactic(auto, using(tailrec_lang::proofs::Views::view_body))]
fn end_arms(
    alloc: Global,
    flow: &Flow<'_>,
    p: Part,
    targets: &[u32],
    place: &VariableMap,
) -> Result<List<Body>, NoMemory>
    requires own { IsOfRegion (flow_in flow.now) p }
    requires nodes { All (λ x. x < (flow_in flow.now).nodes) targets.now }
    requires words { place.now.words < 2 ^ 14 }
    requires mems { place.now.mems < 2 ^ 14 }
    ensures { IfOk result (λ arms.
        map body_tree arms
        ≡ map (λ x. spec.end_at (flow_in flow.now) p x (place_of place.now)) targets.now) }
{
    let mut arms = List::new(alloc);
    for x in targets {
        let end = end_at(alloc, flow, p, *x, place)?;
        arms.push(Body {
            steps: List::new(alloc),
            end,
        })?;
    }
    Ok(arms)
}

/// The body of the rest from a loop's head on: a call of the loop.
#[tactic(auto, using(tailrec_lang::proofs::Views::view_body, tailrec_lang::proofs::Views::view_call))]
fn head_body(alloc: Global, flow: &Flow<'_>, p: Part, l: u32) -> Result<Body, NoMemory>
    requires own { IsOfRegion (flow_in flow.now) p }
    requires loops { l < (flow_in flow.now).loops }
    ensures { (n : ℕ)
        → IfOk result (λ b. body_tree b ≡ spec.rest_body 32 (flow_in flow.now) p n (Some l)) }
{
    let start = fresh(flow, 0, 0);
    let number = flow.number(Part::Loop(l));
    let values = current(alloc, flow, &start)?;
    let next = fresh(flow, start.words, start.mems);
    let arms = end_arms(alloc, flow, p, flow.exits(l), &next)?;
    Ok(Body {
        steps: List::new(alloc),
        end: End::Call(number, values, arms),
    })
}

/// The body of a part from its first node on, if that is no head of another loop.
fn node_body(alloc: Global, flow: &Flow<'_>, p: Part, n: u32) -> Result<Body, NoMemory>
    requires own { IsOfRegion (flow_in flow.now) p }
    requires node { n < (flow_in flow.now).nodes }
    ensures { IfOk result (λ b.
        body_tree b ≡ spec.body_at 32 (flow_in flow.now) p n (spec.start (flow_in flow.now))) }
{
    let start = fresh(flow, 0, 0);
    body_from(
        alloc,
        flow,
        p,
        n,
        &start,
        CUT_DISTANCE_LIMIT,
        List::new(alloc),
    )
}

/// The body of a rest from its node on.
fn rest_body(alloc: Global, flow: &Flow<'_>, p: Part, node: u32) -> Result<Body, NoMemory>
    requires own { IsOfRegion (flow_in flow.now) p }
    requires node { node < (flow_in flow.now).nodes }
    ensures { IfOk result (λ b.
        body_tree b
        ≡ spec.rest_body 32 (flow_in flow.now) p node ((flow_in flow.now).loop_of node)) }
{
    match flow.loop_of(node) {
        Some(l) => head_body(alloc, flow, p, l),
        None => node_body(alloc, flow, p, node),
    }
}

/// The body of a part.
pub fn part_body(alloc: Global, flow: &Flow<'_>, p: Part) -> Result<Body, NoMemory>
    requires { IsPart (flow_in flow.now) p }
    ensures { IfOk result (λ b. body_tree b ≡ spec.part_body (flow_in flow.now) p) }
{
    flow.law_of_regions(p);
    match p {
        Part::Loop(l) => node_body(alloc, flow, p, flow.head(l)),
        Part::Rest { node, .. } => rest_body(alloc, flow, p, node),
    }
}
