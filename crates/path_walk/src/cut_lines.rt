//! The lines of a part at its cuts.

ghost use Rattle.std.specs.Prelude.{◌≡◌, ◌++◌, ◌<◌, ◌^◌, [], None, OnOk, Some, length, map};
ghost use Rattle.std.specs.List.{All};
ghost use Rattle.rv_words.specs.Ranges.{range_bytes};
ghost use Rattle.word_terms.specs.Tree.{Const};
ghost use Rattle.sep_assert.specs.Code.{IsWithin};
ghost use Rattle.tailrec_lang.specs.declared.group.Exit.TheVariants.{At};
ghost use Rattle.code_parts.specs.declared.part.Part.TheVariants.{Loop, Rest};
ghost use Rattle.code_parts.specs.Bodies as spec;
ghost use Rattle.code_parts.specs.Graph.{IsPart};
ghost use Rattle.path_walk.specs.inner.Near.{IsEnd};
ghost use Rattle.code_parts.specs.Kept.{flow_in};
ghost use Rattle.path_walk.specs.inner.Lines.{ArmsLead};
ghost use Rattle.path_walk.specs.inner.Writers.{Leads, writer_tree, cited_tree};
ghost use Rattle.code_parts.specs.VariableMaps.{place_of};

use crate::exit_lines::exit_step;
use crate::proof_writer::{CitedTheorem, ProofWriter};
use code_parts::{Flow, Part, VariableMap, ends_at, first_node, fresh, rest_targets};
use rv_words::NoMemory;
use std::alloc::Global;
use tailrec_lang::Exit;

/// The address where a part's definition is entered.
pub fn entry_of(flow: &Flow<'_>, p: Part) -> u64
    requires { IsPart (flow_in flow.now) p }
    ensures { result ≡ (spec.part_def (flow_in flow.now) p).entry }
{
    flow.addr(first_node(flow, p))
}

/// The arms of a call of the rest of the own region, at each of which the part ends by itself.
fn last_lines(
    alloc: Global,
    flow: &Flow<'_>,
    p: Part,
    q: Part,
    targets: &[u32],
    place: &VariableMap,
    at: &CitedTheorem,
    log: &mut ProofWriter,
) -> Result<(), NoMemory>
    requires part { IsPart (flow_in flow.now) p }
    requires called { IsPart (flow_in flow.now) q }
    requires targets { targets.now ≡ spec.rest_targets (flow_in flow.now) (spec.own p) }
    requires exits { spec.exits_of (flow_in flow.now) q
        ≡ map (λ x. At ((flow_in flow.now).addr x)) targets.now ++ [] }
    requires nodes { All (λ x. x < (flow_in flow.now).nodes) targets.now }
    requires few { length targets.now < 2 ^ 32 }
    requires words { place.now.words < 2 ^ 15 }
    requires mems { place.now.mems < 2 ^ 15 }
    requires code { IsWithin (range_bytes at.now.code) (range_bytes flow.now.code) }
    ensures { OnOk result (ArmsLead (flow_in flow.now) p flow.now.code ((flow_in flow.now).number q)
        (writer_tree log.old) (writer_tree log.new)
        (Const ((flow_in flow.now).addr (spec.first (flow_in flow.now) q))) (place_of place.now)
        (Some (cited_tree at.now)) (map (λ x. At ((flow_in flow.now).addr x)) targets.now ++ []) 0
        (spec.arms_over targets.now (λ x.
        spec.last_at (flow_in flow.now) p x (spec.fresh (flow_in flow.now) place.now.words
        place.now.mems)))) }
{
    let entry = entry_of(flow, p);
    let mut k = 0;
    for x in targets {
        let exit = Exit::At(flow.addr(*x));
        let t = exit_step(alloc, flow, entry, q, k, exit, place, Some(at), log)?;
        log.cite(&t)?;
        k += 1;
    }
    Ok(())
}

/// The arm of a call of the rest of the whole function, by its return.
fn back_lines(
    alloc: Global,
    flow: &Flow<'_>,
    p: Part,
    n: u32,
    place: &VariableMap,
    at: &CitedTheorem,
    log: &mut ProofWriter,
) -> Result<(), NoMemory>
    requires part { IsPart (flow_in flow.now) p }
    requires end { IsEnd (flow_in flow.now) p n }
    requires own { spec.own p ≡ None }
    requires around { (flow_in flow.now).around n ≡ None }
    requires words { place.now.words < 2 ^ 15 }
    requires mems { place.now.mems < 2 ^ 15 }
    requires code { IsWithin (range_bytes at.now.code) (range_bytes flow.now.code) }
    ensures { OnOk result (ArmsLead (flow_in flow.now) p flow.now.code
        ((flow_in flow.now).number (Rest None n)) (writer_tree log.old) (writer_tree log.new)
        (Const ((flow_in flow.now).addr n)) (place_of place.now) (Some (cited_tree at.now))
        (spec.exits_of (flow_in flow.now) (Rest None n)) 0
        (spec.rest_arms (flow_in flow.now) p None (place_of place.now))) }
{
    if !flow.returns() {
        return Ok(());
    }
    let q = Part::Rest {
        region: None,
        node: n,
    };
    let entry = entry_of(flow, p);
    let t = exit_step(alloc, flow, entry, q, 0, Exit::Ret, place, Some(at), log)?;
    log.cite(&t)
}

/// The arms of a call of the rest of a loop's region, which is the part's own.
fn loop_rest_lines(
    alloc: Global,
    flow: &Flow<'_>,
    p: Part,
    l: u32,
    n: u32,
    place: &VariableMap,
    at: &CitedTheorem,
    log: &mut ProofWriter,
) -> Result<(), NoMemory>
    requires part { IsPart (flow_in flow.now) p }
    requires end { IsEnd (flow_in flow.now) p n }
    requires loops { l < (flow_in flow.now).loops }
    requires own { spec.own p ≡ Some l }
    requires around { (flow_in flow.now).around n ≡ Some l }
    requires words { place.now.words < 2 ^ 15 }
    requires mems { place.now.mems < 2 ^ 15 }
    requires code { IsWithin (range_bytes at.now.code) (range_bytes flow.now.code) }
    ensures { OnOk result (ArmsLead (flow_in flow.now) p flow.now.code
        ((flow_in flow.now).number (Rest (Some l) n)) (writer_tree log.old) (writer_tree log.new)
        (Const ((flow_in flow.now).addr n)) (place_of place.now) (Some (cited_tree at.now))
        (spec.exits_of (flow_in flow.now) (Rest (Some l) n)) 0
        (spec.rest_arms (flow_in flow.now) p (Some l) (place_of place.now))) }
{
    let q = Part::Rest {
        region: Some(l),
        node: n,
    };
    let targets = rest_targets(alloc, flow, Some(l))?;
    last_lines(alloc, flow, p, q, targets.as_slice(), place, at, log)
}

/// The arms of a call of the rest from a cut on.
fn rest_lines(
    alloc: Global,
    flow: &Flow<'_>,
    p: Part,
    n: u32,
    place: &VariableMap,
    at: &CitedTheorem,
    log: &mut ProofWriter,
) -> Result<(), NoMemory>
    requires part { IsPart (flow_in flow.now) p }
    requires end { IsEnd (flow_in flow.now) p n }
    requires around { (flow_in flow.now).around n ≡ spec.own p }
    requires words { place.now.words < 2 ^ 15 }
    requires mems { place.now.mems < 2 ^ 15 }
    requires code { IsWithin (range_bytes at.now.code) (range_bytes flow.now.code) }
    ensures { OnOk result (ArmsLead (flow_in flow.now) p flow.now.code
        ((flow_in flow.now).number (spec.rest_from (flow_in flow.now) n)) (writer_tree log.old)
        (writer_tree log.new) (Const ((flow_in flow.now).addr n)) (place_of place.now)
        (Some (cited_tree at.now))
        (spec.exits_of (flow_in flow.now) (spec.rest_from (flow_in flow.now) n)) 0
        (spec.rest_arms (flow_in flow.now) p ((flow_in flow.now).around n) (place_of place.now))) }
{
    match flow.around(n) {
        Some(l) => loop_rest_lines(alloc, flow, p, l, n, place, at, log),
        None => back_lines(alloc, flow, p, n, place, at, log),
    }
}

/// The lines of a part at a cut: it ends by itself, or it calls the rest from there on.
pub fn end_lines(
    alloc: Global,
    flow: &Flow<'_>,
    p: Part,
    n: u32,
    place: &VariableMap,
    at: &CitedTheorem,
    log: &mut ProofWriter,
) -> Result<(), NoMemory>
    requires part { IsPart (flow_in flow.now) p }
    requires end { IsEnd (flow_in flow.now) p n }
    requires words { place.now.words < 2 ^ 15 }
    requires mems { place.now.mems < 2 ^ 15 }
    requires code { IsWithin (range_bytes at.now.code) (range_bytes flow.now.code) }
    ensures { OnOk result (Leads (flow_in flow.now) p flow.now.code (writer_tree log.old)
        (writer_tree log.new) (Const ((flow_in flow.now).addr n)) (place_of place.now)
        (Some (cited_tree at.now)) (spec.end_at (flow_in flow.now) p n (place_of place.now))) }
{
    flow.law_of_regions(p);
    if ends_at(flow, p, n) {
        return log.cite(at);
    }
    rest_lines(alloc, flow, p, n, place, at, log)
}

/// The arms of a call of a loop at the front of the rest from its head on.
pub fn head_lines(
    alloc: Global,
    flow: &Flow<'_>,
    p: Part,
    l: u32,
    log: &mut ProofWriter,
) -> Result<(), NoMemory>
    requires part { IsPart (flow_in flow.now) p }
    requires loops { l < (flow_in flow.now).loops }
    requires around { (flow_in flow.now).around ((flow_in flow.now).head l) ≡ spec.own p }
    ensures { OnOk result (ArmsLead (flow_in flow.now) p flow.now.code
        ((flow_in flow.now).number (Loop l)) (writer_tree log.old) (writer_tree log.new)
        (Const ((flow_in flow.now).addr ((flow_in flow.now).head l)))
        (spec.start (flow_in flow.now)) None
        (map (λ x. At ((flow_in flow.now).addr x)) ((flow_in flow.now).exits l) ++ []) 0
        (spec.arms_over ((flow_in flow.now).exits l) (λ x.
        spec.end_at (flow_in flow.now) p x (spec.fresh (flow_in flow.now)
        (spec.start (flow_in flow.now)).words (spec.start (flow_in flow.now)).mems)))) }
{
    flow.law_of_graphs();
    let entry = entry_of(flow, p);
    let start = fresh(flow, 0, 0);
    let next = fresh(flow, start.words, start.mems);
    let targets = flow.exits(l);
    let mut k = 0;
    for x in targets {
        let exit = Exit::At(flow.addr(*x));
        let t = exit_step(
            alloc,
            flow,
            entry,
            Part::Loop(l),
            k,
            exit,
            &start,
            None,
            log,
        )?;
        end_lines(alloc, flow, p, *x, &next, &t, log)?;
        k += 1;
    }
    Ok(())
}
