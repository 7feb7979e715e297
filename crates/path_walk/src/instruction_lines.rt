//! The lines of one instruction.

ghost use Rattle.std.specs.Prelude.{◌≡◌, ◌++◌, ◌<◌, ◌^◌, ℕ, All, IfOk, OnOk, false, map, option_copied, option_map, true};
ghost use Rattle.rv_decode.specs.Registers.{destination};
ghost use Rattle.rv_words.specs.Ranges.{range_bytes};
ghost use Rattle.mc_text.specs.Number.{IsNumber};
ghost use Rattle.word_terms.specs.Tree.{Const, MemVar, mem_tree, word_tree};
ghost use Rattle.sep_assert.specs.Code.{IsWithin};
ghost use Rattle.sep_assert.specs.Tree.{assertion_tree};
ghost use Rattle.triple_kernel.specs.Tree.{So, fact_tree, triple_tree};
ghost use Rattle.rvc.specs.Number.{length_of as length_in_bytes};
ghost use Rattle.instr_axioms.specs.Terms as terms;
ghost use Rattle.instr_axioms.specs.Axiom as axioms;
ghost use Rattle.group_text.specs.declared.version.Version.TheVariants.{Four};
ghost use Rattle.proof_text.specs.Line.{Inst, mem_put_in, word_put_in};
ghost use Rattle.proof_text.specs.LineLimits.{IsRule, IsTriple};
ghost use Rattle.code_parts.specs.Bodies as bodies;
ghost use Rattle.code_parts.specs.Graph.{StandsAt};
ghost use Rattle.path_walk.specs.Further.{IsVersionFor, is_crossed as crosses};
ghost use Rattle.path_walk.specs.inner.Acts as spec;
ghost use Rattle.code_parts.specs.Kept.{flow_in};
ghost use Rattle.tailrec_lang.specs.Registers.{AreRegistersFrom};
ghost use Rattle.path_walk.specs.inner.Writers as logs;
ghost use Rattle.path_walk.specs.inner.Writers.{IsOrigin, IsOver, Steps, origin_of, writer_tree, cited_tree};
ghost use Rattle.code_parts.specs.VariableMaps.{place_of};

use crate::compose::{front, go_on_from};
use crate::origin::Origin;
use crate::proof_writer::{CitedTheorem, ProofWriter};
use crate::subs::{law_of_memories, own_mems, own_words};
use code_parts::{Flow, VariableMap, after};
use instr_axioms::{
    Form, Variables, facts, has_memory, memory_after, own, pc_after, result, triple_over,
    word_code, words_before,
};
use proof_text::Rule;
use rv_decode::{Instr, destination};
use rv_words::{List, NoMemory};
use rvc::length_of;
use sep_assert::Assertion;
use std::alloc::Global;
use triple_kernel::{Fact, Triple};
use word_terms::{Mem, Sub, Word};

/// An instruction in one form: what it is, where it stands and as which word, and the memory that
/// it loads from or stores to, if it does.
#[derive(Clone, Copy)]
struct InstructionAt {
    instr: Instr,
    form: Form,
    addr: u64,
    word: u32,
    memory: u8,
}

/// Adds what the definition knows of the variable of what an instruction writes, where it loads
/// from or stores to that memory, if it does.
fn add_new_fact(
    alloc: Global,
    i: Instr,
    addr: u64,
    length: u8,
    q: u8,
    place: &VariableMap,
    facts: &mut List<Fact>,
) -> Result<(), NoMemory>
    requires { q < 2 }
    ensures { OnOk result (map fact_tree facts.new
        ≡ map fact_tree facts.old ++ spec.new_facts i addr length q (place_of place.now)) }
{
    let names = place.names_of(q);
    if let Instr::Store { .. } = i {
        let m = memory_after(alloc, i, &names)?;
        facts.push(Fact::MemIs(Mem::Var(place.mems), m))?;
    } else if destination(&i) != 0 {
        let t = result(alloc, i, addr, length, &names)?;
        facts.push(Fact::WordIs(Word::Var(place.words), t))?;
    }
    Ok(())
}

/// The facts of an instruction in that form, and of what it writes.
fn facts_of(alloc: Global, at: InstructionAt, place: &VariableMap) -> Result<List<Fact>, NoMemory>
    requires { at.memory < 2 }
    ensures { IfOk result (λ fs.
        map fact_tree fs
        ≡ map So (terms.conditions at.instr at.form (bodies.names (place_of place.now) at.memory))
        ++ spec.new_facts at.instr at.addr (length_in_bytes at.word) at.memory
        (place_of place.now)) }
{
    let names = place.names_of(at.memory);
    let mut known = facts(alloc, at.instr, at.form, &names)?;
    let length = length_of(at.word);
    add_new_fact(
        alloc, at.instr, at.addr, length, at.memory, place, &mut known,
    )?;
    Ok(known)
}

/// The variables of these memories.
fn mems_before(alloc: Global, mems: &[u8], place: &VariableMap) -> Result<List<Mem>, NoMemory>
    requires { All (λ p. p < 2) mems.now }
    ensures { IfOk result (λ ms.
        map mem_tree ms ≡ map (λ p. MemVar ((place_of place.now).memory p)) mems.now) }
{
    let mut before = List::new(alloc);
    for p in mems {
        before.push(Mem::Var(place.memory(*p)))?;
    }
    Ok(before)
}

/// What holds of these registers and memories at a place: that program counter, and their
/// variables.
fn standing_over(
    alloc: Global,
    pc: Word,
    regs: &[u8],
    mems: &[u8],
    place: &VariableMap,
) -> Result<Assertion, NoMemory>
    requires { All (λ p. p < 2) mems.now }
    ensures { IfOk result (λ a.
        assertion_tree a
        ≡ logs.standing_over (word_tree pc) regs.now mems.now (place_of place.now)) }
{
    let regs = words_before(alloc, regs, &place.names)?;
    let mems = mems_before(alloc, mems, place)?;
    Ok(Assertion { pc, regs, mems })
}

/// The triple of an instruction over these registers and memories, with new variables for what it
/// writes.
fn named_triple(
    alloc: Global,
    at: InstructionAt,
    regs: &[u8],
    mems: &[u8],
    place: &VariableMap,
) -> Result<Triple, NoMemory>
    requires words { place.now.words < 2 ^ 15 }
    requires mems { place.now.mems < 2 ^ 15 }
    requires named { destination at.instr < 32 }
    requires memory { at.memory < 2 }
    requires memories { All (λ p. p < 2) mems.now }
    ensures { IfOk result (λ t.
        triple_tree t
        ≡ spec.named_triple at.instr at.form at.addr (length_in_bytes at.word)
        (axioms.word_code at.addr at.word) regs.now mems.now at.memory (place_of place.now)) }
{
    let known = facts_of(alloc, at, place)?;
    let pre = standing_over(alloc, Word::Const(at.addr), regs, mems, place)?;
    let code = word_code(alloc, at.addr, at.word)?;
    let names = place.names_of(at.memory);
    let length = length_of(at.word);
    let pc = pc_after(alloc, at.instr, at.form, at.addr, length, &names)?;
    let next = after(at.instr, at.memory, *place);
    let post = standing_over(alloc, pc, regs, mems, &next)?;
    Ok(Triple {
        facts: known,
        pre,
        code,
        post,
    })
}

/// The triple of an instruction's axiom.
fn first_triple(alloc: Global, at: InstructionAt) -> Result<Triple, NoMemory>
    ensures { IfOk result (λ t.
        triple_tree t ≡ axioms.own_triple at.instr at.form at.addr at.word) }
{
    let InstructionAt {
        instr: i,
        form,
        addr,
        word,
        ..
    } = at;
    let regs = own(alloc, i)?;
    let regs = regs.as_slice();
    let names = Variables::numbered(regs, 0, 0);
    let triple = triple_over(alloc, i, form, addr, word, regs, has_memory(i), &names)?;
    Ok(triple)
}

/// The triple of an instruction over its own registers and memory, with the current variables.
fn current_triple(alloc: Global, at: InstructionAt, place: &VariableMap) -> Result<Triple, NoMemory>
    requires { at.memory < 2 }
    ensures { IfOk result (λ t.
        triple_tree t
        ≡ axioms.triple_over at.instr at.form at.addr (length_in_bytes at.word)
        (axioms.word_code at.addr at.word) (axioms.own at.instr) (terms.has_memory at.instr)
        (bodies.names (place_of place.now) at.memory)) }
{
    let InstructionAt {
        instr: i,
        form,
        addr,
        word,
        memory: q,
    } = at;
    let regs = own(alloc, i)?;
    let regs = regs.as_slice();
    let names = place.names_of(q);
    let triple = triple_over(alloc, i, form, addr, word, regs, has_memory(i), &names)?;
    Ok(triple)
}

/// The variables that are put in for those of an instruction's axiom: the current ones of its own
/// registers and of its memory.
fn own_sub(alloc: Global, i: Instr, q: u8, place: &VariableMap) -> Result<Sub, NoMemory>
    requires { q < 2 }
    ensures words { IfOk result (λ s.
        map word_put_in s.words ≡ spec.own_words i (place_of place.now)) }
    ensures mems { IfOk result (λ s.
        map mem_put_in s.mems ≡ spec.own_mems i q (place_of place.now)) }
{
    let regs = own(alloc, i)?;
    let regs = regs.as_slice();
    let words = own_words(alloc, regs, place)?;
    let mems = own_mems(alloc, i, q, place)?;
    Ok(Sub { words, mems })
}

/// States the axiom of an instruction, and over the current variables.
fn put_current(
    alloc: Global,
    at: InstructionAt,
    place: &VariableMap,
    log: &mut ProofWriter,
) -> Result<u64, NoMemory>
    requires memory { at.memory < 2 }
    requires rule { (k : ℕ) → IsNumber k
        → IsRule (Inst k (spec.own_words at.instr (place_of place.now))
        (spec.own_mems at.instr at.memory (place_of place.now))) }
    requires first { IsTriple (axioms.own_triple at.instr at.form at.addr at.word) }
    requires stated { IsTriple (axioms.triple_over at.instr at.form at.addr
        (length_in_bytes at.word) (axioms.word_code at.addr at.word) (axioms.own at.instr)
        (terms.has_memory at.instr) (bodies.names (place_of place.now) at.memory)) }
    ensures { IfOk result (λ k.
        spec.Put at.instr at.form at.addr at.word at.memory (place_of place.now)
        (writer_tree log.old) (writer_tree log.new) k) }
{
    let own = first_triple(alloc, at)?;
    let known = first_triple(alloc, at)?;
    let current = current_triple(alloc, at, place)?;
    let put_in = own_sub(alloc, at.instr, at.memory, place)?;
    let first = log.state(Rule::Axiom(at.addr, at.word, at.form), own)?;
    let number = log.restate(first, &known, Rule::Inst(first, put_in), current)?;
    Ok(number)
}

/// The memory that an instruction loads from or stores to, if it does.
fn own_mem(i: Instr, q: u8) -> &'static [u8]
    requires { q < 2 }
    ensures are { result.now ≡ spec.own_mem i q }
    ensures low { All (λ p. p < 2) result.now }
{
    if !has_memory(i) {
        return &[];
    }
    match q {
        0 => &[0],
        _ => &[1],
    }
}

/// The triple of an instruction over its own registers and memory, with new variables for what it
/// writes.
fn own_named(alloc: Global, at: InstructionAt, place: &VariableMap) -> Result<Triple, NoMemory>
    requires words { place.now.words < 2 ^ 15 }
    requires mems { place.now.mems < 2 ^ 15 }
    requires named { destination at.instr < 32 }
    requires memory { at.memory < 2 }
    ensures { IfOk result (λ t.
        triple_tree t
        ≡ spec.named_own at.instr at.form at.addr at.word at.memory (place_of place.now)) }
{
    let regs = own(alloc, at.instr)?;
    let regs = regs.as_slice();
    let mems = own_mem(at.instr, at.memory);
    let triple = named_triple(alloc, at, regs, mems, place)?;
    Ok(triple)
}

/// States the triple of an instruction with new variables for what it writes, if it does.
fn put_named(
    alloc: Global,
    at: InstructionAt,
    place: &VariableMap,
    current: u64,
    log: &mut ProofWriter,
) -> Result<u64, NoMemory>
    requires words { place.now.words < 2 ^ 15 }
    requires mems { place.now.mems < 2 ^ 15 }
    requires named { destination at.instr < 32 }
    requires memory { at.memory < 2 }
    requires stated { IsTriple (spec.named_own at.instr at.form at.addr at.word at.memory
        (place_of place.now)) }
    ensures { IfOk result (λ k.
        spec.Renamed at.instr at.form at.addr at.word at.memory (place_of place.now) current
        (writer_tree log.old) (writer_tree log.new) k) }
{
    let known = current_triple(alloc, at, place)?;
    let named = own_named(alloc, at, place)?;
    let number = log.restate(current, &known, Rule::Weaken(current), named)?;
    Ok(number)
}

/// The memories of a flow, in order.
fn all_mems(flow: &Flow<'_>) -> &'static [u8]
    ensures are { result.now ≡ spec.all_mems (flow_in flow.now).mems }
    ensures low { All (λ p. p < 2) result.now }
{
    match flow.mems() {
        0 => &[],
        1 => &[0],
        _ => &[0, 1],
    }
}

/// Whether an instruction loads from or stores to memory q, which isn't the first.
fn is_crossed(i: Instr, q: u8) -> bool
    ensures { result ≡ crosses i q }
{
    has_memory(i) && q != 0
}

/// States the triple of an instruction over these registers and all memories, where its own memory,
/// if it has one, is the first.
fn put_first(
    alloc: Global,
    flow: &Flow<'_>,
    regs: &[u8],
    at: InstructionAt,
    place: &VariableMap,
    named: u64,
    log: &mut ProofWriter,
) -> Result<u64, NoMemory>
    requires words { place.now.words < 2 ^ 15 }
    requires mems { place.now.mems < 2 ^ 15 }
    requires named { destination at.instr < 32 }
    requires memory { at.memory < 2 }
    requires low { terms.has_memory at.instr ≡ true → at.memory < (flow_in flow.now).mems }
    requires first { crosses at.instr at.memory ≡ false }
    requires in_order { IsTriple (spec.named_wide regs.now at.instr at.form at.addr
        at.word (spec.all_mems (flow_in flow.now).mems) at.memory (place_of place.now)) }
    ensures widened { IfOk result (λ k.
        spec.Widened regs.now (flow_in flow.now).mems at.instr at.form at.addr at.word at.memory
        (place_of place.now) named (writer_tree log.old) (writer_tree log.new) k) }
    ensures fits { IfOk result (λ k. k < 2 ^ 64) }
{
    let known = own_named(alloc, at, place)?;
    let wide = named_triple(alloc, at, regs, all_mems(flow), place)?;
    let number = log.restate(named, &known, Rule::Frame(named), wide)?;
    Ok(number)
}

/// States the triple of an instruction over these registers and all memories, where its own memory
/// is the second of two: it is framed with that in front, and the memories are exchanged.
fn put_crossed(
    alloc: Global,
    flow: &Flow<'_>,
    regs: &[u8],
    at: InstructionAt,
    place: &VariableMap,
    named: u64,
    log: &mut ProofWriter,
) -> Result<u64, NoMemory>
    requires words { place.now.words < 2 ^ 15 }
    requires mems { place.now.mems < 2 ^ 15 }
    requires named { destination at.instr < 32 }
    requires memory { at.memory < 2 }
    requires low { terms.has_memory at.instr ≡ true → at.memory < (flow_in flow.now).mems }
    requires crossed { crosses at.instr at.memory ≡ true }
    requires version { log.old.version ≡ Four }
    requires two { (flow_in flow.now).mems ≡ 2 }
    requires wide { IsTriple (spec.named_wide regs.now at.instr at.form at.addr at.word
        (spec.mem_first at.instr at.memory (flow_in flow.now).mems) at.memory
        (place_of place.now)) }
    requires in_order { IsTriple (spec.named_wide regs.now at.instr at.form at.addr
        at.word (spec.all_mems (flow_in flow.now).mems) at.memory (place_of place.now)) }
    ensures widened { IfOk result (λ k.
        spec.Widened regs.now (flow_in flow.now).mems at.instr at.form at.addr at.word at.memory
        (place_of place.now) named (writer_tree log.old) (writer_tree log.new) k) }
    ensures fits { IfOk result (λ k. k < 2 ^ 64) }
{
    let known = own_named(alloc, at, place)?;
    let crossed = named_triple(alloc, at, regs, &[1, 0], place)?;
    let wide = named_triple(alloc, at, regs, all_mems(flow), place)?;
    let framed = log.restate(named, &known, Rule::Frame(named), crossed)?;
    let number = log.state_further(framed, wide)?;
    Ok(number)
}

/// States the triple of an instruction over these registers and all memories, in order: it is
/// framed with its own memory in front, and where that is the second of two they are exchanged.
fn put_wide(
    alloc: Global,
    flow: &Flow<'_>,
    regs: &[u8],
    at: InstructionAt,
    place: &VariableMap,
    named: u64,
    log: &mut ProofWriter,
) -> Result<u64, NoMemory>
    requires words { place.now.words < 2 ^ 15 }
    requires mems { place.now.mems < 2 ^ 15 }
    requires named { destination at.instr < 32 }
    requires memory { at.memory < 2 }
    requires low { terms.has_memory at.instr ≡ true → at.memory < (flow_in flow.now).mems }
    requires crossed { crosses at.instr at.memory ≡ true
        → (log.old.version ≡ Four) × ((flow_in flow.now).mems ≡ 2) }
    requires wide { IsTriple (spec.named_wide regs.now at.instr at.form at.addr at.word
        (spec.mem_first at.instr at.memory (flow_in flow.now).mems) at.memory
        (place_of place.now)) }
    requires in_order { IsTriple (spec.named_wide regs.now at.instr at.form at.addr
        at.word (spec.all_mems (flow_in flow.now).mems) at.memory (place_of place.now)) }
    ensures widened { IfOk result (λ k.
        spec.Widened regs.now (flow_in flow.now).mems at.instr at.form at.addr at.word at.memory
        (place_of place.now) named (writer_tree log.old) (writer_tree log.new) k) }
    ensures fits { IfOk result (λ k. k < 2 ^ 64) }
{
    if !is_crossed(at.instr, at.memory) {
        return put_first(alloc, flow, regs, at, place, named, log);
    }
    put_crossed(alloc, flow, regs, at, place, named, log)
}

/// The lines of an instruction in that form, where q is the memory that it loads from or stores to,
/// if it does: its axiom, over the current variables, with new variables for what it writes, and
/// over these registers and all memories. None of them states what the one before it does.
fn instruction_lines(
    alloc: Global,
    flow: &Flow<'_>,
    regs: &[u8],
    at: InstructionAt,
    place: &VariableMap,
    log: &mut ProofWriter,
) -> Result<u64, NoMemory>
    requires words { place.now.words < 2 ^ 15 }
    requires mems { place.now.mems < 2 ^ 15 }
    requires named { destination at.instr < 32 }
    requires memory { at.memory < 2 }
    requires low { terms.has_memory at.instr ≡ true → at.memory < (flow_in flow.now).mems }
    requires crossed { crosses at.instr at.memory ≡ true
        → (log.old.version ≡ Four) × ((flow_in flow.now).mems ≡ 2) }
    requires fine { spec.IsFineInstruction regs.now (flow_in flow.now).mems at.instr at.form at.addr
        at.word at.memory (place_of place.now) }
    ensures acted { IfOk result (λ k.
        spec.Acted regs.now (flow_in flow.now).mems at.instr at.form at.addr at.word at.memory
        (place_of place.now) (writer_tree log.old) (writer_tree log.new) k) }
    ensures fits { IfOk result (λ k. k < 2 ^ 64) }
{
    let current = put_current(alloc, at, place, log)?;
    let named = put_named(alloc, at, place, current, log)?;
    let number = put_wide(alloc, flow, regs, at, place, named, log)?;
    Ok(number)
}

/// The lines of a node's instruction in that form over these registers, and the theorem that they
/// end with.
fn act(
    alloc: Global,
    flow: &Flow<'_>,
    regs: &[u8],
    n: u32,
    form: Form,
    place: &VariableMap,
    log: &mut ProofWriter,
) -> Result<CitedTheorem, NoMemory>
    requires registers { AreRegistersFrom 1 regs.now }
    requires version { IsVersionFor (flow_in flow.now) log.old.version }
    requires node { n < (flow_in flow.now).nodes }
    requires words { place.now.words < 2 ^ 15 }
    requires mems { place.now.mems < 2 ^ 15 }
    ensures { IfOk result (λ t.
        StandsAt (flow_in flow.now) flow.now.code n
        × (cited_tree t
        ≡ spec.act_standing ((flow_in flow.now).instr n) form ((flow_in flow.now).addr n)
        ((flow_in flow.now).word n) ((flow_in flow.now).uses n) (place_of place.now) t.number)
        × spec.Acted regs.now (flow_in flow.now).mems ((flow_in flow.now).instr n) form
        ((flow_in flow.now).addr n) ((flow_in flow.now).word n) ((flow_in flow.now).uses n)
        (place_of place.now) (writer_tree log.old) (writer_tree log.new) t.number) }
{
    let i = flow.instr(n);
    let addr = flow.addr(n);
    let word = flow.word(n);
    let q = flow.uses(n);
    flow.law_of_code();
    law_of_memories(flow, place);
    let at = InstructionAt {
        instr: i,
        form,
        addr,
        word,
        memory: q,
    };
    let number = instruction_lines(alloc, flow, regs, at, place, log)?;
    let known = facts_of(alloc, at, place)?;
    let code = word_code(alloc, addr, word)?;
    Ok(CitedTheorem::new(number, known, code))
}

/// The lines from a node on to where its instruction leads in that form, over the registers of the
/// way's origin, and the theorem that leads there.
pub fn step_from(
    alloc: Global,
    flow: &Flow<'_>,
    origin: &Origin<'_>,
    n: u32,
    form: Form,
    place: &VariableMap,
    from: Option<&CitedTheorem>,
    log: &mut ProofWriter,
) -> Result<CitedTheorem, NoMemory>
    requires origin { IsOrigin (origin_of origin.now) }
    requires own { spec.HasOwn origin.now.regs.now ((flow_in flow.now).instr n) }
    requires version { IsVersionFor (flow_in flow.now) log.old.version }
    requires node { n < (flow_in flow.now).nodes }
    requires form { terms.has_form ((flow_in flow.now).instr n) form ≡ true }
    requires words { place.now.words < 2 ^ 15 }
    requires mems { place.now.mems < 2 ^ 15 }
    requires code { IsOver flow.now.code (option_map cited_tree (option_copied from)) }
    ensures steps { IfOk result (λ t.
        Steps (flow_in flow.now) (origin_of origin.now) flow.now.code (writer_tree log.old)
        (writer_tree log.new) (Const ((flow_in flow.now).addr n)) (place_of place.now)
        (option_map cited_tree (option_copied from.entry))
        (terms.pc_after ((flow_in flow.now).instr n) form ((flow_in flow.now).addr n)
        (bodies.size (flow_in flow.now) n)
        (bodies.names (place_of place.now) ((flow_in flow.now).uses n)))
        (bodies.place_after ((flow_in flow.now).instr n) ((flow_in flow.now).uses n)
        (place_of place.now))
        (map So (terms.conditions ((flow_in flow.now).instr n) form
        (bodies.names (place_of place.now) ((flow_in flow.now).uses n)))
        ++ spec.new_facts ((flow_in flow.now).instr n) ((flow_in flow.now).addr n)
        (bodies.size (flow_in flow.now) n) ((flow_in flow.now).uses n) (place_of place.now))
        (cited_tree t)) }
    ensures code { IfOk result (λ t. IsWithin (range_bytes t.code) (range_bytes flow.now.code)) }
{
    law_of_memories(flow, place);
    let last = act(alloc, flow, origin.regs, n, form, place, log)?;
    let i = flow.instr(n);
    let q = flow.uses(n);
    let pc = pc_after(
        alloc,
        i,
        form,
        flow.addr(n),
        flow.size(n),
        &place.names_of(q),
    )?;
    let next = after(i, q, *place);
    let there = go_on_from(alloc, flow, origin, from, last, pc, &next, log)?;
    Ok(there)
}

/// The lines from a node on to where its instruction leads in that form, over all registers, and
/// the theorem that leads there.
pub fn step(
    alloc: Global,
    flow: &Flow<'_>,
    entry: u64,
    n: u32,
    form: Form,
    place: &VariableMap,
    from: Option<&CitedTheorem>,
    log: &mut ProofWriter,
) -> Result<CitedTheorem, NoMemory>
    requires version { IsVersionFor (flow_in flow.now) log.old.version }
    requires node { n < (flow_in flow.now).nodes }
    requires form { terms.has_form ((flow_in flow.now).instr n) form ≡ true }
    requires words { place.now.words < 2 ^ 15 }
    requires mems { place.now.mems < 2 ^ 15 }
    requires code { IsOver flow.now.code (option_map cited_tree (option_copied from)) }
    ensures steps { IfOk result (λ t.
        Steps (flow_in flow.now) (logs.front (flow_in flow.now) entry) flow.now.code
        (writer_tree log.old) (writer_tree log.new) (Const ((flow_in flow.now).addr n))
        (place_of place.now) (option_map cited_tree (option_copied from.entry))
        (terms.pc_after ((flow_in flow.now).instr n) form ((flow_in flow.now).addr n)
        (bodies.size (flow_in flow.now) n)
        (bodies.names (place_of place.now) ((flow_in flow.now).uses n)))
        (bodies.place_after ((flow_in flow.now).instr n) ((flow_in flow.now).uses n)
        (place_of place.now))
        (map So (terms.conditions ((flow_in flow.now).instr n) form
        (bodies.names (place_of place.now) ((flow_in flow.now).uses n)))
        ++ spec.new_facts ((flow_in flow.now).instr n) ((flow_in flow.now).addr n)
        (bodies.size (flow_in flow.now) n) ((flow_in flow.now).uses n) (place_of place.now))
        (cited_tree t)) }
    ensures code { IfOk result (λ t. IsWithin (range_bytes t.code) (range_bytes flow.now.code)) }
{
    flow.law_of_code();
    let origin = front(flow, entry);
    let there = step_from(alloc, flow, &origin, n, form, place, from, log)?;
    Ok(there)
}
