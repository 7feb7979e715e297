//! The lines of the bodies of parts.

ghost use Rattle.std.specs.Prelude.{◌≡◌, ◌+◌, ◌*◌, ◌<◌, ◌^◌, None, OnOk, Some, option_map};
ghost use Rattle.std.specs.Option.{option_copied};
ghost use Rattle.rv_words.specs.Ranges.{range_bytes};
ghost use Rattle.word_terms.specs.Tree.{Const};
ghost use Rattle.sep_assert.specs.Code.{IsWithin};
ghost use Rattle.code_parts.specs.Bodies as spec;
ghost use Rattle.code_parts.specs.Graph.{IsPart};
ghost use Rattle.path_walk.specs.Further.{IsVersionFor};
ghost use Rattle.path_walk.specs.inner.Near.{IsNear, IsNext};
ghost use Rattle.code_parts.specs.inner.Ends.{body_on};
ghost use Rattle.code_parts.specs.Kept.{flow_in};
ghost use Rattle.path_walk.specs.inner.Writers.{IsOver, Leads, writer_tree, cited_tree};
ghost use Rattle.code_parts.specs.VariableMaps.{place_of};

use crate::blocks::straight_lines;
use crate::cut_lines::{end_lines, entry_of, head_lines};
use crate::enter_lines::{FunctionCall, enter};
use crate::instruction_lines::step;
use crate::proof_writer::{CitedTheorem, ProofWriter};
use crate::subs::place_at;
use code_parts::{
    CUT_DISTANCE_LIMIT, Callee, Flow, Part, VariableMap, after, fresh, is_jump_through,
};
use instr_axioms::Form;
use rv_decode::Instr;
use rv_words::NoMemory;
use std::alloc::Global;
use tailrec_lang::Exit;

/// The lines of the body from a node on: they follow the branches to the next cuts.
#[cycle(body_lines)]
fn lines_from(
    alloc: Global,
    flow: &Flow<'_>,
    p: Part,
    n: u32,
    place: &VariableMap,
    room: u32,
    from: Option<&CitedTheorem>,
    log: &mut ProofWriter,
) -> Result<(), NoMemory>
    requires part { IsPart (flow_in flow.now) p }
    requires near { IsNear (flow_in flow.now) p room n }
    requires words { place.now.words + 33 * room < 2 ^ 14 }
    requires mems { place.now.mems + 3 * room < 2 ^ 14 }
    requires code { IsOver flow.now.code (option_map cited_tree (option_copied from)) }
    requires version { IsVersionFor (flow_in flow.now) log.old.version }
    ensures { OnOk result (Leads (flow_in flow.now) p flow.now.code (writer_tree log.old)
        (writer_tree log.new) (Const ((flow_in flow.now).addr n)) (place_of place.now)
        (option_map cited_tree (option_copied from.entry))
        (spec.body_at room (flow_in flow.now) p n (place_of place.now))) }
{
    match flow.callee(n) {
        Some(callee) => calling_lines(alloc, flow, p, n, callee, place, room, from, log),
        None => acting_lines(alloc, flow, p, n, place, room, from, log),
    }
}

/// The lines of the body from a node on that calls no function.
#[cycle(body_lines)]
fn acting_lines(
    alloc: Global,
    flow: &Flow<'_>,
    p: Part,
    n: u32,
    place: &VariableMap,
    room: u32,
    from: Option<&CitedTheorem>,
    log: &mut ProofWriter,
) -> Result<(), NoMemory>
    requires part { IsPart (flow_in flow.now) p }
    requires near { IsNear (flow_in flow.now) p room n }
    requires uncalled { (flow_in flow.now).callee n ≡ None }
    requires some { 0 < room }
    requires words { place.now.words + 33 * room < 2 ^ 14 }
    requires mems { place.now.mems + 3 * room < 2 ^ 14 }
    requires code { IsOver flow.now.code (option_map cited_tree (option_copied from)) }
    requires version { IsVersionFor (flow_in flow.now) log.old.version }
    ensures { OnOk result (Leads (flow_in flow.now) p flow.now.code (writer_tree log.old)
        (writer_tree log.new) (Const ((flow_in flow.now).addr n)) (place_of place.now)
        (option_map cited_tree (option_copied from.entry))
        (spec.body_at room (flow_in flow.now) p n (place_of place.now))) }
{
    flow.law_of_code();
    let entry = entry_of(flow, p);
    let i = flow.instr(n);
    if is_jump_through(i) {
        let t = step(alloc, flow, entry, n, Form::Next, place, from, log)?;
        return log.cite(&t);
    }
    match i {
        Instr::Branch { .. } => {
            let t = step(alloc, flow, entry, n, Form::Taken, place, from, log)?;
            let to = flow.to(n, Form::Taken);
            lines_to(alloc, flow, p, to, place, room - 1, &t, log)?;
            let t = step(alloc, flow, entry, n, Form::Next, place, from, log)?;
            let to = flow.to(n, Form::Next);
            lines_to(alloc, flow, p, to, place, room - 1, &t, log)
        }
        _ => {
            let end = straight_lines(alloc, flow, entry, n, place, room, from, log)?;
            lines_to(
                alloc,
                flow,
                p,
                end.node,
                &end.place,
                end.room,
                &end.theorem,
                log,
            )
        }
    }
}

/// The lines of the body from a node on that calls a function: where that returns, it goes on
/// behind the call.
#[cycle(body_lines)]
fn calling_lines(
    alloc: Global,
    flow: &Flow<'_>,
    p: Part,
    n: u32,
    callee: Callee,
    place: &VariableMap,
    room: u32,
    from: Option<&CitedTheorem>,
    log: &mut ProofWriter,
) -> Result<(), NoMemory>
    requires part { IsPart (flow_in flow.now) p }
    requires near { IsNear (flow_in flow.now) p room n }
    requires called { (flow_in flow.now).callee n ≡ Some callee }
    requires some { 0 < room }
    requires words { place.now.words + 33 * room < 2 ^ 14 }
    requires mems { place.now.mems + 3 * room < 2 ^ 14 }
    requires code { IsOver flow.now.code (option_map cited_tree (option_copied from)) }
    requires version { IsVersionFor (flow_in flow.now) log.old.version }
    ensures { OnOk result (Leads (flow_in flow.now) p flow.now.code (writer_tree log.old)
        (writer_tree log.new) (Const ((flow_in flow.now).addr n)) (place_of place.now)
        (option_map cited_tree (option_copied from.entry))
        (spec.body_at room (flow_in flow.now) p n (place_of place.now))) }
{
    flow.law_of_code();
    let entry = entry_of(flow, p);
    let t = step(alloc, flow, entry, n, Form::Next, place, from, log)?;
    if !callee.returns {
        return Ok(());
    }
    let to = flow.to(n, Form::Next);
    let q = flow.uses(n);
    let next = after(flow.instr(n), q, *place);
    let call = FunctionCall {
        entry: callee.entry,
        def: callee.def,
        back: flow.addr(to),
    };
    let there = enter(alloc, flow, entry, call, &next, Some(&t), log)?;
    let back = place_at(flow, Exit::Ret, &next);
    lines_to(alloc, flow, p, to, &back, room - 1, &there, log)
}

/// The lines of the body from a node on to which an edge leads: at a cut it ends or calls the rest.
#[cycle(body_lines)]
fn lines_to(
    alloc: Global,
    flow: &Flow<'_>,
    p: Part,
    n: u32,
    place: &VariableMap,
    room: u32,
    at: &CitedTheorem,
    log: &mut ProofWriter,
) -> Result<(), NoMemory>
    requires part { IsPart (flow_in flow.now) p }
    requires next { IsNext (flow_in flow.now) p room n }
    requires words { place.now.words + 33 * room < 2 ^ 14 }
    requires mems { place.now.mems + 3 * room < 2 ^ 14 }
    requires code { IsWithin (range_bytes at.now.code) (range_bytes flow.now.code) }
    requires version { IsVersionFor (flow_in flow.now) log.old.version }
    ensures { OnOk result (Leads (flow_in flow.now) p flow.now.code (writer_tree log.old)
        (writer_tree log.new) (Const ((flow_in flow.now).addr n)) (place_of place.now)
        (Some (cited_tree at.now)) (body_on room (flow_in flow.now) p n (place_of place.now))) }
{
    if flow.is_cut(n) {
        return end_lines(alloc, flow, p, n, place, at, log);
    }
    lines_from(alloc, flow, p, n, place, room, Some(at), log)
}

/// The lines of a part from its first node on, if that is no head of another loop.
fn node_lines(
    alloc: Global,
    flow: &Flow<'_>,
    p: Part,
    n: u32,
    log: &mut ProofWriter,
) -> Result<(), NoMemory>
    requires part { IsPart (flow_in flow.now) p }
    requires near { IsNear (flow_in flow.now) p 32 n }
    requires version { IsVersionFor (flow_in flow.now) log.old.version }
    ensures { OnOk result (Leads (flow_in flow.now) p flow.now.code (writer_tree log.old)
        (writer_tree log.new) (Const ((flow_in flow.now).addr n)) (spec.start (flow_in flow.now))
        None (spec.body_at 32 (flow_in flow.now) p n (spec.start (flow_in flow.now)))) }
{
    let start = fresh(flow, 0, 0);
    lines_from(alloc, flow, p, n, &start, CUT_DISTANCE_LIMIT, None, log)
}

/// The lines of a part's body.
pub fn part_lines(
    alloc: Global,
    flow: &Flow<'_>,
    p: Part,
    log: &mut ProofWriter,
) -> Result<(), NoMemory>
    requires part { IsPart (flow_in flow.now) p }
    requires version { IsVersionFor (flow_in flow.now) log.old.version }
    ensures { OnOk result (Leads (flow_in flow.now) p flow.now.code (writer_tree log.old)
        (writer_tree log.new) (Const ((flow_in flow.now).addr (spec.first (flow_in flow.now) p)))
        (spec.start (flow_in flow.now)) None (spec.part_body (flow_in flow.now) p)) }
{
    flow.law_of_graphs();
    match p {
        Part::Loop(l) => node_lines(alloc, flow, p, flow.head(l), log),
        Part::Rest { node, .. } => match flow.loop_of(node) {
            Some(l) => head_lines(alloc, flow, p, l, log),
            None => node_lines(alloc, flow, p, node, log),
        },
    }
}
