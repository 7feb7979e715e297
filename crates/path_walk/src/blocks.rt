//! The lines of instructions that follow one another: several that touch few registers are a block,
//! whose lines are over these registers alone.

ghost use Rattle.std.specs.Prelude.{◌≡◌, ◌+◌, ◌*◌, ◌<◌, ◌≤◌, ◌^◌, IfOk, IfSome, OnOk, length, option_copied, option_map, true};
ghost use Rattle.rv_words.specs.Ranges.{range_bytes};
ghost use Rattle.sep_assert.specs.Code.{IsWithin};
ghost use Rattle.triple_kernel.specs.declared.form.Form.TheVariants.{Taken};
ghost use Rattle.instr_axioms.specs.Axiom.{is_own};
ghost use Rattle.code_parts.specs.Graph.{has_edge};
ghost use Rattle.code_parts.specs.Kept.{flow_in};
ghost use Rattle.code_parts.specs.VariableMaps.{place_of};
ghost use Rattle.path_walk.specs.Further.{IsVersionFor};
ghost use Rattle.path_walk.specs.inner.Blocks as spec;
ghost use Rattle.path_walk.specs.inner.Writers as logs;
ghost use Rattle.path_walk.specs.inner.Writers.{IsOrigin, IsOver, cited_tree, origin_of, writer_tree};

use crate::compose::{front, go_on, triple_from};
use crate::instruction_lines::step_from;
use crate::origin::Origin;
use crate::proof_writer::{CitedTheorem, ProofWriter};
use crate::subs::law_of_memories;
use code_parts::{Flow, VariableMap, after, is_jump_through};
use instr_axioms::Form;
use proof_text::Rule;
use rv_decode::{Instr, is_read, is_written};
use rv_words::{List, NoMemory};
use std::alloc::Global;
use triple_kernel::copy_facts;
use word_terms::{Word, copy_code};

/// How many instructions a block has at most.
const BLOCK_LIMIT: u32 = 4;

/// A line is about as long as so many registers in both of its assertions.
const LINE_LENGTH: usize = 5;

/// A block: how many instructions it has behind its first, and the registers that they touch.
#[derive(Drop)]
struct Block {
    more: u32,
    regs: List<u8>,
}

/// Where instructions lead: a node, its place, how many instructions may follow up to the next
/// cuts, and the theorem that leads there.
#[derive(Drop)]
pub struct Reached {
    pub node: u32,
    pub place: VariableMap,
    pub room: u32,
    pub theorem: CitedTheorem,
}

/// Whether an instruction leads to one of two places.
fn is_branch(i: Instr) -> bool
    ensures { result ≡ has_edge i Taken }
{
    matches!(i, Instr::Branch { .. })
}

/// Whether a node's instruction leads on to one node, and calls no function.
fn is_straight(flow: &Flow<'_>, n: u32) -> bool
    requires { n < (flow_in flow.now).nodes }
    ensures { result ≡ true → spec.IsStraight (flow_in flow.now) n }
{
    let i = flow.instr(n);
    if is_branch(i) || is_jump_through(i) {
        return false;
    }
    flow.callee(n).is_none()
}

/// Whether so many instructions follow a node's, none of them at a cut, and each leads on to one
/// node.
fn is_run(flow: &Flow<'_>, n: u32, more: u32) -> bool
    requires { n < (flow_in flow.now).nodes }
    ensures { result ≡ true → spec.IsRun (flow_in flow.now) n more }
{
    if !is_straight(flow, n) {
        return false;
    }
    if more == 0 {
        return true;
    }
    let to = flow.to(n, Form::Next);
    if flow.is_cut(to) {
        return false;
    }
    is_run(flow, to, more - 1)
}

/// Whether the register stands in the instruction.
fn stands_in(i: Instr, r: u8) -> bool
    ensures { result ≡ is_own i r }
{
    is_written(&i, r) || is_read(&i, r)
}

/// Whether one of these instructions has the register.
fn is_touched(flow: &Flow<'_>, n: u32, more: u32, r: u8) -> bool
    requires { spec.IsRun (flow_in flow.now) n more }
    ensures { result ≡ spec.is_touched (flow_in flow.now) n more r }
{
    if stands_in(flow.instr(n), r) {
        return true;
    }
    if more == 0 {
        return false;
    }
    is_touched(flow, flow.to(n, Form::Next), more - 1, r)
}

/// The registers that these instructions have, rising.
#[tactic(auto, using(rv_decode::proofs::RegisterLemmas::one_more, rv_decode::proofs::RegisterLemmas::none_more))]
fn touched(alloc: Global, flow: &Flow<'_>, n: u32, more: u32) -> Result<List<u8>, NoMemory>
    requires { spec.IsRun (flow_in flow.now) n more }
    ensures are { IfOk result (λ rs. rs ≡ spec.touched (flow_in flow.now) n more) }
    ensures few { IfOk result (λ rs. length rs ≤ 31) }
{
    let mut regs = List::new(alloc);
    for r in 1..32 {
        if is_touched(flow, n, more, r) {
            regs.push(r)?;
        }
    }
    Ok(regs)
}

/// Whether a block's lines are shorter than those of its instructions over all registers: of two
/// lines for each all but one are over few registers, and there is one line more over all.
fn is_shorter(more: u32, few: usize, all: usize) -> bool
    requires more { more < 32 }
    requires few { few ≤ 31 }
    requires all { all ≤ 31 }
{
    let lines = 2 * more as usize + 1;
    all + LINE_LENGTH + lines * few <= lines * all
}

/// The longest block from a node on whose lines are shorter, with so many instructions behind its
/// first at most.
fn block_from(alloc: Global, flow: &Flow<'_>, n: u32, most: u32) -> Result<Option<Block>, NoMemory>
    requires node { n < (flow_in flow.now).nodes }
    requires most { most < 32 }
    ensures { IfOk result (λ found.
        IfSome found (λ b.
        (b.more ≤ most) × spec.IsRun (flow_in flow.now) n b.more
        × (b.regs ≡ spec.touched (flow_in flow.now) n b.more))) }
{
    if most == 0 {
        return Ok(None);
    }
    if is_run(flow, n, most) {
        let regs = touched(alloc, flow, n, most)?;
        if is_shorter(most, regs.len(), flow.regs().len()) {
            return Ok(Some(Block { more: most, regs }));
        }
    }
    block_from(alloc, flow, n, most - 1)
}

/// The lines of a node's instruction and of so many that follow it, over the registers of the way's
/// origin.
fn run_lines(
    alloc: Global,
    flow: &Flow<'_>,
    origin: &Origin<'_>,
    n: u32,
    more: u32,
    place: &VariableMap,
    room: u32,
    from: Option<&CitedTheorem>,
    log: &mut ProofWriter,
) -> Result<Reached, NoMemory>
    requires origin { IsOrigin (origin_of origin.now) }
    requires run { spec.IsRun (flow_in flow.now) n more }
    requires each { spec.HasEach origin.now.regs.now (flow_in flow.now) n more }
    requires some { more < room }
    requires words { place.now.words + 33 * room < 2 ^ 14 }
    requires mems { place.now.mems + 3 * room < 2 ^ 14 }
    requires code { IsOver flow.now.code (option_map cited_tree (option_copied from)) }
    requires version { IsVersionFor (flow_in flow.now) log.old.version }
    ensures reaches { IfOk result (λ e.
        spec.Reaches (flow_in flow.now) (origin_of origin.now) flow.now.code (writer_tree log.old)
        (writer_tree log.new) n (place_of place.now) room
        (option_map cited_tree (option_copied from.entry)) e.node (place_of e.place) e.room
        (cited_tree e.theorem)) }
    ensures code { IfOk result (λ e.
        IsWithin (range_bytes e.theorem.code) (range_bytes flow.now.code)) }
{
    flow.law_of_code();
    let t = step_from(alloc, flow, origin, n, Form::Next, place, from, log)?;
    let next = after(flow.instr(n), flow.uses(n), *place);
    let to = flow.to(n, Form::Next);
    if more == 0 {
        return Ok(Reached {
            node: to,
            place: next,
            room: room - 1,
            theorem: t,
        });
    }
    let end = run_lines(
        alloc,
        flow,
        origin,
        to,
        more - 1,
        &next,
        room - 1,
        Some(&t),
        log,
    )?;
    Ok(end)
}

/// States a theorem from one place to another over all registers.
fn put_framed(
    alloc: Global,
    flow: &Flow<'_>,
    origin: &Origin<'_>,
    t: &CitedTheorem,
    to: u64,
    place: &VariableMap,
    log: &mut ProofWriter,
) -> Result<CitedTheorem, NoMemory>
    requires origin { IsOrigin (origin_of origin.now) }
    requires words { place.now.words < 2 ^ 16 }
    requires mems { place.now.mems < 2 ^ 16 }
    ensures is { IfOk result (λ x.
        cited_tree x ≡ spec.framed_standing (cited_tree t.now) (writer_tree log.old)) }
    ensures log { OnOk result (writer_tree log.new
        ≡ spec.framed (flow_in flow.now) origin.now.entry (place_of origin.now.place) to
        (place_of place.now) (cited_tree t.now) (writer_tree log.old)) }
{
    t.law_of_texts();
    flow.law_of_code();
    law_of_memories(flow, &origin.place);
    law_of_memories(flow, place);
    let all = Origin {
        regs: flow.regs(),
        entry: origin.entry,
        place: origin.place,
    };
    let wide = triple_from(
        alloc,
        flow,
        &all,
        t.facts(),
        t.code(),
        Word::Const(to),
        place,
    )?;
    let facts = copy_facts(alloc, t.facts())?;
    let code = copy_code(alloc, t.code())?;
    let number = log.state(Rule::Frame(t.number()), wide)?;
    Ok(CitedTheorem::new(number, facts, code))
}

/// The lines of a block: over its own registers, then over all, and joined to the theorem of the
/// way to it.
fn block_lines(
    alloc: Global,
    flow: &Flow<'_>,
    entry: u64,
    block: &Block,
    n: u32,
    place: &VariableMap,
    room: u32,
    from: Option<&CitedTheorem>,
    log: &mut ProofWriter,
) -> Result<Reached, NoMemory>
    requires run { spec.IsRun (flow_in flow.now) n block.now.more }
    requires regs { block.now.regs ≡ spec.touched (flow_in flow.now) n block.now.more }
    requires node { n < (flow_in flow.now).nodes }
    requires some { block.now.more < room }
    requires words { place.now.words + 33 * room < 2 ^ 14 }
    requires mems { place.now.mems + 3 * room < 2 ^ 14 }
    requires code { IsOver flow.now.code (option_map cited_tree (option_copied from)) }
    requires version { IsVersionFor (flow_in flow.now) log.old.version }
    ensures reaches { IfOk result (λ e.
        spec.Reaches (flow_in flow.now) (logs.front (flow_in flow.now) entry) flow.now.code
        (writer_tree log.old) (writer_tree log.new) n (place_of place.now) room
        (option_map cited_tree (option_copied from.entry)) e.node (place_of e.place) e.room
        (cited_tree e.theorem)) }
    ensures code { IfOk result (λ e.
        IsWithin (range_bytes e.theorem.code) (range_bytes flow.now.code)) }
{
    flow.law_of_code();
    let origin = Origin {
        regs: block.regs.as_slice(),
        entry: flow.addr(n),
        place: *place,
    };
    let end = run_lines(alloc, flow, &origin, n, block.more, place, room, None, log)?;
    let to = flow.addr(end.node);
    let last = put_framed(alloc, flow, &origin, &end.theorem, to, &end.place, log)?;
    let pc = Word::Const(to);
    let there = go_on(alloc, flow, entry, from, last, pc, &end.place, log)?;
    Ok(Reached {
        node: end.node,
        place: end.place,
        room: end.room,
        theorem: there,
    })
}

/// The lines from a node on whose instruction leads on to one node: of a block, if there is one
/// whose lines are shorter, else of that instruction.
pub fn straight_lines(
    alloc: Global,
    flow: &Flow<'_>,
    entry: u64,
    n: u32,
    place: &VariableMap,
    room: u32,
    from: Option<&CitedTheorem>,
    log: &mut ProofWriter,
) -> Result<Reached, NoMemory>
    requires straight { spec.IsStraight (flow_in flow.now) n }
    requires some { 0 < room }
    requires words { place.now.words + 33 * room < 2 ^ 14 }
    requires mems { place.now.mems + 3 * room < 2 ^ 14 }
    requires code { IsOver flow.now.code (option_map cited_tree (option_copied from)) }
    requires version { IsVersionFor (flow_in flow.now) log.old.version }
    ensures reaches { IfOk result (λ e.
        spec.Reaches (flow_in flow.now) (logs.front (flow_in flow.now) entry) flow.now.code
        (writer_tree log.old) (writer_tree log.new) n (place_of place.now) room
        (option_map cited_tree (option_copied from.entry)) e.node (place_of e.place) e.room
        (cited_tree e.theorem)) }
    ensures code { IfOk result (λ e.
        IsWithin (range_bytes e.theorem.code) (range_bytes flow.now.code)) }
{
    flow.law_of_code();
    let most = if room < BLOCK_LIMIT {
        room
    } else {
        BLOCK_LIMIT
    };
    if let Some(block) = block_from(alloc, flow, n, most - 1)? {
        return block_lines(alloc, flow, entry, &block, n, place, room, from, log);
    }
    let origin = front(flow, entry);
    let end = run_lines(alloc, flow, &origin, n, 0, place, room, from, log)?;
    Ok(end)
}
