//! A theorem joined to that of the way to it.

ghost use Rattle.std.specs.Prelude.{◌≡◌, ◌++◌, List as Items, ◌<◌, ◌^◌, IfOk, OnOk, map, option_copied, option_map};
ghost use Rattle.rv_words.specs.Ranges.{range_bytes};
ghost use Rattle.word_terms.specs.Tree.{Const, word_tree};
ghost use Rattle.group_text.specs.TermLimits.{IsWord};
ghost use Rattle.sep_assert.specs.Code.{IsWithin};
ghost use Rattle.sep_assert.specs.Tree.{assertion_tree};
ghost use Rattle.triple_kernel.specs.Tree.{FactTree, fact_tree, triple_tree};
ghost use Rattle.frame_compose.specs.Rules.{AreMissing};
ghost use Rattle.std.specs.List.{range_with_len};
ghost use Rattle.path_walk.specs.inner.Acts.{GoesOn, IsAdded, Joined};
ghost use Rattle.code_parts.specs.Kept.{flow_in};
ghost use Rattle.path_walk.specs.inner.Writers as logs;
ghost use Rattle.path_walk.specs.inner.Writers.{IsOrigin, writer_tree, cited_tree};
ghost use Rattle.code_parts.specs.VariableMaps.{place_of};

use crate::origin::Origin;
use crate::proof_writer::{CitedTheorem, ProofWriter};
use crate::subs::law_of_memories;
use code_parts::{Flow, VariableMap, current_mems, fresh, law_of_bytes};
use instr_axioms::words_before;
use proof_text::Rule;
use rv_words::{List, NoMemory};
use sep_assert::{Assertion, code_join};
use std::alloc::Global;
use triple_kernel::{Fact, Triple, copy_fact, copy_facts, is_among};
use word_terms::{Code, Word, copy_code};

/// The front of a definition, over all registers.
pub fn front<'a>(flow: &'a Flow<'_>, entry: u64) -> Origin<'a>
    ensures is { logs.origin_of result ≡ logs.front (flow_in flow.now) entry }
    ensures origin { IsOrigin (logs.origin_of result) }
{
    flow.law_of_code();
    Origin {
        regs: flow.regs(),
        entry,
        place: fresh(flow, 0, 0),
    }
}

/// What holds of these registers and of all memories at a place: that program counter, and their
/// variables.
fn standing_on(
    alloc: Global,
    flow: &Flow<'_>,
    regs: &[u8],
    pc: Word,
    place: &VariableMap,
) -> Result<Assertion, NoMemory>
    ensures { IfOk result (λ a.
        assertion_tree a
        ≡ logs.standing_over (word_tree pc) regs.now (range_with_len 0 (flow_in flow.now).mems)
        (place_of place.now)) }
{
    let regs = words_before(alloc, regs, &place.names)?;
    let mems = current_mems(alloc, flow, place)?;
    Ok(Assertion { pc, regs, mems })
}

/// What holds at a place: that program counter, and the variables of the registers and the memory.
pub fn standing_at(
    alloc: Global,
    flow: &Flow<'_>,
    pc: Word,
    place: &VariableMap,
) -> Result<Assertion, NoMemory>
    ensures { IfOk result (λ a.
        assertion_tree a
        ≡ logs.standing_at (flow_in flow.now) (word_tree pc) (place_of place.now)) }
{
    let standing = standing_on(alloc, flow, flow.regs(), pc, place)?;
    Ok(standing)
}

/// Adds a fact, if it isn't known.
fn add_missing(
    alloc: Global,
    known: &[Fact],
    fact: &Fact,
    more: &mut List<Fact>,
) -> Result<(), NoMemory>
    ensures { OnOk result (IsAdded (map fact_tree known.now) (fact_tree fact.now)
        (map fact_tree more.old) (map fact_tree more.new)) }
{
    if is_among(fact, known) {
        return Ok(());
    }
    let copy = copy_fact(alloc, fact)?;
    more.push(copy)?;
    Ok(())
}

/// Those of the facts that aren't known.
fn missing(alloc: Global, known: &[Fact], facts: &[Fact]) -> Result<List<Fact>, NoMemory>
    ensures { IfOk result (λ fs.
        AreMissing (map fact_tree known.now) (map fact_tree facts.now) (map fact_tree fs)) }
{
    let mut more = List::new(alloc);
    for fact in facts {
        add_missing(alloc, known, fact, &mut more)?;
    }
    Ok(more)
}

/// The known facts, and those of the others that aren't known.
fn all_facts(alloc: Global, known: &[Fact], facts: &[Fact]) -> Result<List<Fact>, NoMemory>
    ensures { IfOk result (λ fs.
        (more : Items FactTree)
        × AreMissing (map fact_tree known.now) (map fact_tree facts.now) more
        × (map fact_tree fs ≡ map fact_tree known.now ++ more)) }
{
    let more = missing(alloc, known, facts)?;
    let mut all = copy_facts(alloc, known)?;
    all.append(more)?;
    Ok(all)
}

/// The triple with these facts and this code from a way's origin to a place.
pub fn triple_from(
    alloc: Global,
    flow: &Flow<'_>,
    origin: &Origin<'_>,
    facts: &[Fact],
    code: &Code,
    pc: Word,
    place: &VariableMap,
) -> Result<Triple, NoMemory>
    ensures { IfOk result (λ t. triple_tree t ≡ record {
      facts = map fact_tree facts.now;
      pre = logs.standing_on (flow_in flow.now) (logs.origin_of origin.now) (Const origin.now.entry)
          (place_of origin.now.place);
      code = code.now.ranges;
      post = logs.standing_on (flow_in flow.now) (logs.origin_of origin.now) (word_tree pc)
          (place_of place.now);
    }) }
{
    let facts = copy_facts(alloc, facts)?;
    let first = Word::Const(origin.entry);
    let pre = standing_on(alloc, flow, origin.regs, first, &origin.place)?;
    let code = copy_code(alloc, code)?;
    let post = standing_on(alloc, flow, origin.regs, pc, place)?;
    Ok(Triple {
        facts,
        pre,
        code,
        post,
    })
}

/// Joins a theorem to that of the way to it, which leads from that origin.
fn join(
    alloc: Global,
    flow: &Flow<'_>,
    origin: &Origin<'_>,
    from: &CitedTheorem,
    last: CitedTheorem,
    pc: Word,
    place: &VariableMap,
    log: &mut ProofWriter,
) -> Result<CitedTheorem, NoMemory>
    requires origin { IsOrigin (logs.origin_of origin.now) }
    requires first { IsWithin (range_bytes from.now.code) (range_bytes flow.now.code) }
    requires second { IsWithin (range_bytes last.code) (range_bytes flow.now.code) }
    requires pc { IsWord (word_tree pc) }
    requires words { place.now.words < 2 ^ 16 }
    requires mems { place.now.mems < 2 ^ 16 }
    ensures joined { IfOk result (λ t.
        Joined (flow_in flow.now) (logs.origin_of origin.now) (cited_tree from.now)
        (cited_tree last) (word_tree pc) (place_of place.now) (writer_tree log.old)
        (writer_tree log.new) (cited_tree t)) }
    ensures code { IfOk result (λ t. IsWithin (range_bytes t.code) (range_bytes flow.now.code)) }
{
    from.law_of_texts();
    last.law_of_texts();
    law_of_memories(flow, &origin.place);
    law_of_memories(flow, place);
    let all = all_facts(alloc, from.facts(), last.facts())?;
    let code = code_join(alloc, from.code(), last.code())?;
    law_of_bytes(&code);
    let whole = triple_from(alloc, flow, origin, all.as_slice(), &code, pc, place)?;
    let number = log.state(Rule::Compose(from.number(), last.number()), whole)?;
    Ok(CitedTheorem::new(number, all, code))
}

/// Goes on from a place: at the way's origin a theorem stands by itself, else it is joined to that
/// of the way to it.
pub fn go_on_from(
    alloc: Global,
    flow: &Flow<'_>,
    origin: &Origin<'_>,
    from: Option<&CitedTheorem>,
    last: CitedTheorem,
    pc: Word,
    place: &VariableMap,
    log: &mut ProofWriter,
) -> Result<CitedTheorem, NoMemory>
    requires origin { IsOrigin (logs.origin_of origin.now) }
    requires first { logs.IsOver flow.now.code (option_map cited_tree (option_copied from)) }
    requires second { IsWithin (range_bytes last.code) (range_bytes flow.now.code) }
    requires pc { IsWord (word_tree pc) }
    requires words { place.now.words < 2 ^ 16 }
    requires mems { place.now.mems < 2 ^ 16 }
    ensures on { IfOk result (λ t.
        GoesOn (flow_in flow.now) (logs.origin_of origin.now)
        (option_map cited_tree (option_copied from.entry)) (cited_tree last) (word_tree pc)
        (place_of place.now) (writer_tree log.old) (writer_tree log.new) (cited_tree t)) }
    ensures code { IfOk result (λ t. IsWithin (range_bytes t.code) (range_bytes flow.now.code)) }
{
    match from {
        Some(st) => join(alloc, flow, origin, st, last, pc, place, log),
        None => Ok(last),
    }
}

/// Goes on from a place, over all registers: at the front of a definition a theorem stands by
/// itself.
pub fn go_on(
    alloc: Global,
    flow: &Flow<'_>,
    entry: u64,
    from: Option<&CitedTheorem>,
    last: CitedTheorem,
    pc: Word,
    place: &VariableMap,
    log: &mut ProofWriter,
) -> Result<CitedTheorem, NoMemory>
    requires first { logs.IsOver flow.now.code (option_map cited_tree (option_copied from)) }
    requires second { IsWithin (range_bytes last.code) (range_bytes flow.now.code) }
    requires pc { IsWord (word_tree pc) }
    requires words { place.now.words < 2 ^ 16 }
    requires mems { place.now.mems < 2 ^ 16 }
    ensures on { IfOk result (λ t.
        GoesOn (flow_in flow.now) (logs.front (flow_in flow.now) entry)
        (option_map cited_tree (option_copied from.entry)) (cited_tree last) (word_tree pc)
        (place_of place.now) (writer_tree log.old) (writer_tree log.new) (cited_tree t)) }
    ensures code { IfOk result (λ t. IsWithin (range_bytes t.code) (range_bytes flow.now.code)) }
{
    let origin = front(flow, entry);
    let there = go_on_from(alloc, flow, &origin, from, last, pc, place, log)?;
    Ok(there)
}
