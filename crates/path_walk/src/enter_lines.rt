//! The lines of a call of a function that returns.

ghost use Rattle.std.specs.Prelude.{◌≡◌, ◌∷◌, [], ◌++◌, ◌<◌, ◌^◌, IfOk, OnOk, is_some, map, option_copied, option_map, true};
ghost use Rattle.rv_words.specs.Ranges.{range_bytes};
ghost use Rattle.rv_words.specs.declared.comparison.Cmp.TheVariants.{Eq};
ghost use Rattle.word_terms.specs.Tree.{Compare, Const, Var};
ghost use Rattle.sep_assert.specs.Code.{IsWithin};
ghost use Rattle.triple_kernel.specs.Tree.{So, fact_tree};
ghost use Rattle.group_text.specs.Version.{version_of};
ghost use Rattle.code_parts.specs.Kept.{flow_in};
ghost use Rattle.code_parts.specs.VariableMaps.{place_of};
ghost use Rattle.path_walk.specs.inner.Acts.{Entered, steered, steered_standing};
ghost use Rattle.path_walk.specs.inner.Writers.{IsOver, cited_tree, writer_tree};

use crate::compose::{front, go_on, triple_from};
use crate::exit_lines::leave_by;
use crate::proof_writer::{CitedTheorem, ProofWriter};
use crate::subs::{law_of_memories, place_at};
use code_parts::{Flow, VariableMap};
use rv_words::{Cmp, List, NoMemory};
use std::alloc::Global;
use tailrec_lang::Exit;
use triple_kernel::{Fact, copy_facts};
use word_terms::{Cond, Word, copy_code};

/// A call of a function that returns: where that is entered, its definition, and the address behind
/// the call.
#[derive(Clone, Copy)]
pub struct FunctionCall {
    pub entry: u64,
    pub def: u32,
    pub back: u64,
}

/// The fact that a variable is an address.
fn returned_at(alloc: Global, w: u32, back: u64) -> Result<Fact, NoMemory>
    ensures { IfOk result (λ x. fact_tree x ≡ So (Compare Eq (Var w) (Const back))) }
{
    let pc = Box::new(alloc, Word::Var(w))?;
    let address = Box::new(alloc, Word::Const(back))?;
    Ok(Fact::So(Cond::Compare(Cmp::Eq, pc, address)))
}

/// The facts of a theorem, and that a variable is an address.
fn steered_facts(alloc: Global, t: &CitedTheorem, w: u32, back: u64) -> Result<List<Fact>, NoMemory>
    ensures { IfOk result (λ fs.
        map fact_tree fs ≡ map fact_tree t.now.facts ++ So (Compare Eq (Var w) (Const back)) ∷ []) }
{
    let fact = returned_at(alloc, w, back)?;
    let mut facts = copy_facts(alloc, t.facts())?;
    facts.push(fact)?;
    Ok(facts)
}

/// The line by which a way that leads to the address in a variable goes on at that address.
fn steer(
    alloc: Global,
    flow: &Flow<'_>,
    entry: u64,
    t: &CitedTheorem,
    w: u32,
    back: u64,
    place: &VariableMap,
    log: &mut ProofWriter,
) -> Result<CitedTheorem, NoMemory>
    requires further { is_some (version_of log.old.version).further ≡ true }
    requires words { place.now.words < 2 ^ 16 }
    requires mems { place.now.mems < 2 ^ 16 }
    requires code { IsWithin (range_bytes t.now.code) (range_bytes flow.now.code) }
    ensures is { IfOk result (λ x.
        cited_tree x ≡ steered_standing (Var w) back (cited_tree t.now) (writer_tree log.old)) }
    ensures log { OnOk result (writer_tree log.new
        ≡ steered (flow_in flow.now) entry (Var w) back (place_of place.now) (cited_tree t.now)
        (writer_tree log.old)) }
    ensures code { IfOk result (λ x. IsWithin (range_bytes x.code) (range_bytes flow.now.code)) }
{
    t.law_of_texts();
    flow.law_of_code();
    law_of_memories(flow, place);
    let facts = steered_facts(alloc, t, w, back)?;
    let code = copy_code(alloc, t.code())?;
    let stated = triple_from(
        alloc,
        flow,
        &front(flow, entry),
        facts.as_slice(),
        &code,
        Word::Const(back),
        place,
    )?;
    let number = log.state_further(t.number(), stated)?;
    Ok(CitedTheorem::new(number, facts, code))
}

/// The lines of a call of a function that returns, and the theorem that leads to the address behind
/// the call.
pub fn enter(
    alloc: Global,
    flow: &Flow<'_>,
    entry: u64,
    call: FunctionCall,
    place: &VariableMap,
    from: Option<&CitedTheorem>,
    log: &mut ProofWriter,
) -> Result<CitedTheorem, NoMemory>
    requires further { is_some (version_of log.old.version).further ≡ true }
    requires words { place.now.words < 2 ^ 15 }
    requires mems { place.now.mems < 2 ^ 15 }
    requires code { IsOver flow.now.code (option_map cited_tree (option_copied from)) }
    ensures entered { IfOk result (λ t.
        Entered (flow_in flow.now) entry flow.now.code call.entry call.def call.back
        (place_of place.now) (option_map cited_tree (option_copied from.entry))
        (writer_tree log.old) (writer_tree log.new) (cited_tree t)) }
    ensures code { IfOk result (λ t. IsWithin (range_bytes t.code) (range_bytes flow.now.code)) }
{
    let last = leave_by(alloc, flow, call.entry, call.def, 0, Exit::Ret, place, log)?;
    let next = place_at(flow, Exit::Ret, place);
    let on = go_on(
        alloc,
        flow,
        entry,
        from,
        last,
        Word::Var(place.words),
        &next,
        log,
    )?;
    let there = steer(alloc, flow, entry, &on, place.words, call.back, &next, log)?;
    Ok(there)
}
