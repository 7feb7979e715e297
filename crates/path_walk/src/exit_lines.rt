//! The lines of one exit of a call.

ghost use Rattle.std.specs.Prelude.{◌≡◌, ◌∷◌, [], ◌+◌, ◌<◌, ◌^◌, IfOk, Some, map, option_copied, option_map, slice_get};
ghost use Rattle.rv_words.specs.Ranges.{range_bytes};
ghost use Rattle.word_terms.specs.Tree.{Const, word_tree};
ghost use Rattle.sep_assert.specs.Code.{IsWithin};
ghost use Rattle.tailrec_lang.specs.Tree.{values_tree};
ghost use Rattle.triple_kernel.specs.Tree.{Gives, fact_tree, triple_tree};
ghost use Rattle.proof_text.specs.Line.{mem_put_in, word_put_in};
ghost use Rattle.group_text.specs.Limits.{IsExit};
ghost use Rattle.code_parts.specs.Bodies as bodies;
ghost use Rattle.code_parts.specs.Graph.{IsPart};
ghost use Rattle.path_walk.specs.inner.Acts as spec;
ghost use Rattle.path_walk.specs.inner.Histories.{exit_place, pc_of};
ghost use Rattle.code_parts.specs.Kept.{flow_in};
ghost use Rattle.path_walk.specs.inner.Writers.{IsOver, StepsBy, writer_tree, cited_tree};
ghost use Rattle.code_parts.specs.VariableMaps.{place_of};

use crate::compose::{go_on, standing_at};
use crate::proof_writer::{CitedTheorem, ProofWriter};
use crate::subs::{call_mems, call_words, law_of_memories, place_at};
use code_parts::{Flow, Part, VariableMap, current, first_node, fresh, law_of_bytes, with_pc};
use proof_text::Rule;
use rv_words::{List, NoMemory};
use std::alloc::Global;
use tailrec_lang::{Exit, Values};
use triple_kernel::{Fact, Triple};
use word_terms::{Mem, Sub, Word, copy_code};

/// Where a definition goes on after an exit.
fn pc_at(x: Exit, words: u32) -> Word
    ensures { word_tree result ≡ pc_of x words }
{
    match x {
        Exit::At(a) => Word::Const(a),
        Exit::Ret => Word::Var(words),
    }
}

/// What the definition is left with by an exit: the next variables.
fn results(alloc: Global, flow: &Flow<'_>, x: Exit, place: &VariableMap) -> Result<Values, NoMemory>
    requires words { place.now.words < 2 ^ 15 + 64 }
    requires mems { place.now.mems < 2 ^ 15 + 64 }
    ensures { IfOk result (λ v.
        values_tree v ≡ spec.results_at (flow_in flow.now) x place.now.words place.now.mems) }
{
    let next = place_at(flow, x, place);
    let values = current(alloc, flow, &next)?;
    match x {
        Exit::At(_) => Ok(values),
        Exit::Ret => with_pc(alloc, Word::Var(place.words), values),
    }
}

/// The fact that a definition, entered with the current variables, leaves by that exit with the
/// next ones.
fn gives(
    alloc: Global,
    flow: &Flow<'_>,
    def: u32,
    exit: u32,
    x: Exit,
    place: &VariableMap,
) -> Result<List<Fact>, NoMemory>
    requires words { place.now.words < 2 ^ 15 + 64 }
    requires mems { place.now.mems < 2 ^ 15 + 64 }
    ensures { IfOk result (λ fs.
        map fact_tree fs
        ≡ Gives def exit (bodies.current (flow_in flow.now) (place_of place.now))
        (spec.results_at (flow_in flow.now) x place.now.words place.now.mems) ∷ []) }
{
    let args = current(alloc, flow, place)?;
    let results = results(alloc, flow, x, place)?;
    let mut facts = List::new(alloc);
    facts.push(Fact::Gives {
        def,
        exit,
        args,
        results,
    })?;
    Ok(facts)
}

/// The triple of an exit of a definition that is entered at that address, over these variables.
fn gives_over(
    alloc: Global,
    flow: &Flow<'_>,
    entry: u64,
    def: u32,
    exit: u32,
    x: Exit,
    place: &VariableMap,
) -> Result<Triple, NoMemory>
    requires words { place.now.words < 2 ^ 15 + 64 }
    requires mems { place.now.mems < 2 ^ 15 + 64 }
    ensures { IfOk result (λ t.
        triple_tree t
        ≡ spec.gives_over (flow_in flow.now) flow.now.code entry def exit x (place_of place.now)) }
{
    let facts = gives(alloc, flow, def, exit, x, place)?;
    let pre = standing_at(alloc, flow, Word::Const(entry), place)?;
    let code = copy_code(alloc, flow.code())?;
    let next = place_at(flow, x, place);
    let post = standing_at(alloc, flow, pc_at(x, place.words), &next)?;
    Ok(Triple {
        facts,
        pre,
        code,
        post,
    })
}

/// The variables that are put in for an exit's: the current ones for the parameters, and the next
/// ones for the results.
fn call_sub(alloc: Global, flow: &Flow<'_>, x: Exit, place: &VariableMap) -> Result<Sub, NoMemory>
    requires words { place.now.words < 2 ^ 15 + 64 }
    requires mems { place.now.mems < 2 ^ 15 + 64 }
    ensures words { IfOk result (λ s.
        map word_put_in s.words ≡ spec.call_words (flow_in flow.now) x (place_of place.now)) }
    ensures mems { IfOk result (λ s.
        map mem_put_in s.mems ≡ spec.call_mems (flow_in flow.now) x (place_of place.now)) }
{
    let words = call_words(alloc, flow, x, place)?;
    let mems = call_mems(alloc, flow, x, place)?;
    Ok(Sub { words, mems })
}

/// The triple of an exit over the parameters.
fn first_gives(
    alloc: Global,
    flow: &Flow<'_>,
    entry: u64,
    def: u32,
    exit: u32,
    x: Exit,
) -> Result<Triple, NoMemory>
    ensures { IfOk result (λ t.
        triple_tree t
        ≡ spec.gives_over (flow_in flow.now) flow.now.code entry def exit x
        (bodies.start (flow_in flow.now))) }
{
    let start = fresh(flow, 0, 0);
    let triple = gives_over(alloc, flow, entry, def, exit, x, &start)?;
    Ok(triple)
}

/// The lines of an exit of a definition that is entered at that address: its triple over the
/// parameters, and over the current variables, if they are others.
fn exit_lines(
    alloc: Global,
    flow: &Flow<'_>,
    entry: u64,
    def: u32,
    exit: u32,
    x: Exit,
    place: &VariableMap,
    log: &mut ProofWriter,
) -> Result<u64, NoMemory>
    requires words { place.now.words < 2 ^ 15 }
    requires mems { place.now.mems < 2 ^ 15 }
    requires fine { spec.IsFineExit (flow_in flow.now) flow.now.code entry def exit x
        (place_of place.now) }
    ensures exited { IfOk result (λ k.
        spec.Exited (flow_in flow.now) flow.now.code entry def exit x (place_of place.now)
        (writer_tree log.old) (writer_tree log.new) k) }
    ensures fits { IfOk result (λ k. k < 2 ^ 64) }
{
    let used = first_gives(alloc, flow, entry, def, exit, x)?;
    let known = first_gives(alloc, flow, entry, def, exit, x)?;
    let current = gives_over(alloc, flow, entry, def, exit, x, place)?;
    let put_in = call_sub(alloc, flow, x, place)?;
    let first = log.state(Rule::UseExit(def, exit), used)?;
    let number = log.restate(first, &known, Rule::Inst(first, put_in), current)?;
    Ok(number)
}

/// The address of an exit has 64 bits.
fn law_of_exits(x: Exit)
    ensures { IsExit x }
{
    match x {
        Exit::At(_) => {}
        Exit::Ret => {}
    }
}

/// The lines of an exit, and the theorem that they end with.
pub fn leave_by(
    alloc: Global,
    flow: &Flow<'_>,
    entry: u64,
    def: u32,
    exit: u32,
    x: Exit,
    place: &VariableMap,
    log: &mut ProofWriter,
) -> Result<CitedTheorem, NoMemory>
    requires words { place.now.words < 2 ^ 15 }
    requires mems { place.now.mems < 2 ^ 15 }
    ensures is { IfOk result (λ t.
        cited_tree t
        ≡ spec.exit_standing (flow_in flow.now) flow.now.code def exit x (place_of place.now)
        t.number) }
    ensures exited { IfOk result (λ t.
        spec.Exited (flow_in flow.now) flow.now.code entry def exit x (place_of place.now)
        (writer_tree log.old) (writer_tree log.new) t.number) }
{
    flow.law_of_code();
    law_of_exits(x);
    law_of_memories(flow, place);
    law_of_bytes(flow.code());
    let number = exit_lines(alloc, flow, entry, def, exit, x, place, log)?;
    let known = gives(alloc, flow, def, exit, x, place)?;
    let code = copy_code(alloc, flow.code())?;
    Ok(CitedTheorem::new(number, known, code))
}

/// The lines from a call of a part on to where the definition goes on after an exit, and the
/// theorem that leads there.
pub fn exit_step(
    alloc: Global,
    flow: &Flow<'_>,
    entry: u64,
    q: Part,
    exit: u32,
    x: Exit,
    place: &VariableMap,
    from: Option<&CitedTheorem>,
    log: &mut ProofWriter,
) -> Result<CitedTheorem, NoMemory>
    requires part { IsPart (flow_in flow.now) q }
    requires exit { slice_get (bodies.exits_of (flow_in flow.now) q) exit ≡ Some x }
    requires words { place.now.words < 2 ^ 15 }
    requires mems { place.now.mems < 2 ^ 15 }
    requires code { IsOver flow.now.code (option_map cited_tree (option_copied from)) }
    ensures steps { IfOk result (λ t.
        StepsBy (flow_in flow.now) entry flow.now.code ((flow_in flow.now).number q)
        (writer_tree log.old) (writer_tree log.new)
        (Const ((flow_in flow.now).addr (bodies.first (flow_in flow.now) q))) (place_of place.now)
        (option_map cited_tree (option_copied from.entry)) (pc_of x place.now.words)
        (exit_place (flow_in flow.now) x place.now.words place.now.mems)
        (Gives ((flow_in flow.now).number q) exit
        (bodies.current (flow_in flow.now) (place_of place.now))
        (spec.results_at (flow_in flow.now) x place.now.words place.now.mems) ∷ [])
        (cited_tree t)) }
    ensures code { IfOk result (λ t. IsWithin (range_bytes t.code) (range_bytes flow.now.code)) }
{
    law_of_exits(x);
    flow.law_of_code();
    let called = flow.addr(first_node(flow, q));
    let last = leave_by(alloc, flow, called, flow.number(q), exit, x, place, log)?;
    let next = place_at(flow, x, place);
    let there = go_on(
        alloc,
        flow,
        entry,
        from,
        last,
        pc_at(x, place.words),
        &next,
        log,
    )?;
    Ok(there)
}
