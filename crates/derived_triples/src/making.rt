//! Triples that a rule makes of theorems and of what a line states.

ghost use Rattle.std.specs.Prelude.{◌≡◌, ◌↔◌, ◌⊎◌, ◌<◌, ◌≤◌, ◌+◌, ◌*◌, ◌++◌, All, IfOk, IsFalse, IsTrue, List as Items, OnOk, false, length, map};
ghost use Rattle.std.specs.List.{Contains};
ghost use Rattle.rv_words.specs.Bytes.{over};
ghost use Rattle.rv_words.specs.Ranges.{AreRanges, range_bytes};
ghost use Rattle.tailrec_lang.specs.Registers.{AreRegistersFrom};
ghost use Rattle.sep_assert.specs.Code.{Agree, IsWithin};
ghost use Rattle.triple_kernel.specs.Rules.{IsDischarged, IsStrengthened, IsWeakened};
ghost use Rattle.frame_compose.specs.Rules.{AreMissing, AreWith, IsComposed, IsExtended, IsFramed, further, rest_after};
ghost use Rattle.frame_compose.specs.Rules as spec;
ghost use Rattle.proof_text.specs.inner.OwnCode.{IsOwnCode};
ghost use Rattle.term_arena.specs.Arena.{Tree, mem_of};
ghost use Rattle.held_terms.specs.Held.{AreFactsAt, IsFactAt, fact_of, register_of, side_of, triple_of};
ghost use Rattle.held_terms.specs.Subterms.{HasFacts, HasSides};
ghost use Rattle.derived_triples.specs.Fine.{AreFineFacts, AreFineMems, AreFineRegisters, IsFineHeld, IsFineSide};
ghost use Rattle.derived_triples.specs.inner.Making.{AddedIfNew, AreFactsOfBoth, ComesFirst, HasParts, MadeIf, number};

use crate::known::{has_code_within, have_agreement};
use held_consequence::{is_discharged, is_strengthened, is_weakened};
use held_terms::{
    Facts, Held, HeldFact, HeldSide, Shared, copy_fact, copy_facts, copy_side, same_side,
};
use rv_words::{List, NoMemory};
use sep_assert::code_join;
use std::alloc::Global;
use std::sync::ledger::Ledger;
use term_arena::{Arena, Steps};
use word_terms::Code;

/// The triple of those parts, which shares the code and the memories.
fn with_parts(
    alloc: Global,
    facts: &[HeldFact],
    pre: &HeldSide,
    code: &Shared<Code>,
    post: &HeldSide,
) -> Result<Held, NoMemory>
    ensures { IfOk result (λ t. HasParts t facts.now pre.now code.now.ranges post.now) }
{
    let facts = copy_facts(alloc, facts)?;
    let pre = copy_side(alloc, pre)?;
    let code = code.share()?;
    let post = copy_side(alloc, post)?;
    Held::new(alloc, facts, pre, code, post)
}

/// The theorem's triple over that code. Facts, memories and code are shared.
fn over_code(alloc: Global, p: &Held, code: &Shared<Code>) -> Result<Held, NoMemory>
    ensures { IfOk result (λ t.
        HasParts t p.now.facts p.now.pre code.now.ranges p.now.post) }
{
    let facts = p.facts.share()?;
    let pre = copy_side(alloc, &p.pre)?;
    let code = code.share()?;
    let post = copy_side(alloc, &p.post)?;
    Ok(Held {
        facts,
        pre,
        code,
        post,
    })
}

/// More code, which is shared. Where that of the theorem is known to lie within it, nothing is
/// compared.
pub fn extended(
    alloc: Global,
    arena: &Arena,
    p: &Held,
    code: &Shared<Code>,
    known: bool,
) -> Result<Option<Held>, NoMemory>
    requires p { IsFineHeld arena.now p.now }
    requires code { IsOwnCode code.now.ranges }
    requires known { IsTrue known
        → IsWithin (range_bytes p.now.code.ranges) (range_bytes code.now.ranges) }
    ensures { IfOk result (λ o. MadeIf arena.now
        (λ t. IsExtended (triple_of arena.now p.now) t × (t.code ≡ code.now.ranges)) o) }
{
    let t = over_code(alloc, p, code)?;
    if !has_code_within(known, p, &t) {
        return Ok(None);
    }
    Ok(Some(t))
}

/// More facts, and another precondition that they make the same.
pub fn strengthened<L: Ledger>(
    alloc: Global,
    arena: &Arena,
    p: &Held,
    facts: &[HeldFact],
    pre: &HeldSide,
    steps: &mut Steps<L>,
) -> Result<Option<Held>, NoMemory>
    requires p { IsFineHeld arena.now p.now }
    requires facts { AreFineFacts arena.now facts.now }
    requires pre { IsFineSide arena.now pre.now }
    ensures made { IfOk result (λ o. MadeIf arena.now
        (λ t.
        IsStrengthened (triple_of arena.now p.now) t
        × (t.facts ≡ map (fact_of arena.now) facts.now)
        × (t.pre ≡ side_of arena.now pre.now)) o) }
    ensures steps { (ts : Items Tree)
        → HasSides arena.now p.now.pre pre.now ts
        → steps.new ≤ steps.old + 2 * (length ts * length ts) }
{
    let t = with_parts(alloc, facts, pre, &p.code, &p.post)?;
    let so = is_strengthened(alloc, arena, p, &t, true, steps)?;
    if !so {
        return Ok(None);
    }
    Ok(Some(t))
}

/// More facts, and another postcondition that they make the same.
pub fn weakened<L: Ledger>(
    alloc: Global,
    arena: &Arena,
    p: &Held,
    facts: &[HeldFact],
    post: &HeldSide,
    steps: &mut Steps<L>,
) -> Result<Option<Held>, NoMemory>
    requires p { IsFineHeld arena.now p.now }
    requires facts { AreFineFacts arena.now facts.now }
    requires post { IsFineSide arena.now post.now }
    ensures made { IfOk result (λ o. MadeIf arena.now
        (λ t.
        IsWeakened (triple_of arena.now p.now) t
        × (t.facts ≡ map (fact_of arena.now) facts.now)
        × (t.post ≡ side_of arena.now post.now)) o) }
    ensures steps { (ts : Items Tree)
        → HasSides arena.now p.now.post post.now ts
        → steps.new ≤ steps.old + 2 * (length ts * length ts) }
{
    let t = with_parts(alloc, facts, &p.pre, &p.code, post)?;
    let so = is_weakened(alloc, arena, p, &t, true, steps)?;
    if !so {
        return Ok(None);
    }
    Ok(Some(t))
}

/// Other facts, from which those of the theorem follow.
pub fn discharged<L: Ledger>(
    alloc: Global,
    arena: &Arena,
    p: &Held,
    facts: &[HeldFact],
    steps: &mut Steps<L>,
) -> Result<Option<Held>, NoMemory>
    requires p { IsFineHeld arena.now p.now }
    requires facts { AreFineFacts arena.now facts.now }
    ensures made { IfOk result (λ o. MadeIf arena.now
        (λ t.
        IsDischarged (triple_of arena.now p.now) t × (t.facts ≡ map (fact_of arena.now) facts.now))
        o) }
    ensures steps { (ts : Items Tree)
        → HasFacts arena.now p.now.facts ts
        → HasFacts arena.now facts.now ts
        → steps.new ≤ steps.old + (2 * (length ts * length ts) + 2 * length ts) }
{
    let t = with_parts(alloc, facts, &p.pre, &p.code, &p.post)?;
    let so = is_discharged(alloc, arena, p, &t, true, steps)?;
    if !so {
        return Ok(None);
    }
    Ok(Some(t))
}

/// One theorem after another, which begins where it ends. Where both are known to have the same
/// code, it isn't looked at.
pub fn composed(
    alloc: Global,
    arena: &Arena,
    p: &Held,
    q: &Held,
    known: bool,
) -> Result<Option<Held>, NoMemory>
    requires p { IsFineHeld arena.now p.now }
    requires q { IsFineHeld arena.now q.now }
    requires known { IsTrue known → p.now.code.ranges ≡ q.now.code.ranges }
    ensures { IfOk result (λ o. MadeIf arena.now
        (λ t. IsComposed (triple_of arena.now p.now) (triple_of arena.now q.now) t) o) }
{
    if !same_side(arena, &p.post, &q.pre) || !have_agreement(known, p, q) {
        return Ok(None);
    }
    let facts = facts_of_both(alloc, arena, &p.facts, q.facts.as_slice())?;
    let pre = copy_side(alloc, &p.pre)?;
    let code = joined_code(alloc, &p.code, &q.code, known)?;
    let post = copy_side(alloc, &q.post)?;
    Ok(Some(Held {
        facts,
        pre,
        code,
        post,
    }))
}

/// The code of both, which may be shared. Where they are known to be the same, it is in the place
/// of the first.
#[tactic(auto, using(held_definitions::proofs::MarkLemmas::over_same))]
fn joined_code(
    alloc: Global,
    a: &Shared<Code>,
    b: &Shared<Code>,
    known: bool,
) -> Result<Shared<Code>, NoMemory>
    requires known { IsTrue known → a.now.ranges ≡ b.now.ranges }
    requires first { AreRanges a.now.ranges }
    requires second { AreRanges b.now.ranges }
    requires agree { Agree (range_bytes a.now.ranges) (range_bytes b.now.ranges) }
    ensures bytes { IfOk result (λ c.
        range_bytes c.ranges ≡ over (range_bytes a.now.ranges) (range_bytes b.now.ranges)) }
    ensures ranges { IfOk result (λ c. AreRanges c.ranges) }
{
    if known {
        return a.share();
    }
    let code = code_join(alloc, a.as_ref(), b.as_ref())?;
    Shared::new(alloc, code)
}

/// The first facts, and then those of the second that aren't among them, in order. Where all are
/// among them, the first ones are shared.
fn facts_of_both(
    alloc: Global,
    arena: &Arena,
    first: &Shared<List<HeldFact>>,
    second: &[HeldFact],
) -> Result<Shared<List<HeldFact>>, NoMemory>
    requires first { AreFineFacts arena.now first.now }
    requires second { AreFineFacts arena.now second.now }
    ensures both { IfOk result (λ all.
        AreFactsOfBoth (map (fact_of arena.now) first.now) (map (fact_of arena.now) second.now)
        (map (fact_of arena.now) all)) }
    ensures fine { IfOk result (λ all. AreFineFacts arena.now all) }
{
    let more = missing_facts(alloc, arena, first.as_slice(), second)?;
    if more.is_empty() {
        return first.share();
    }
    let mut all = copy_facts(alloc, first.as_slice())?;
    all.append(more)?;
    Shared::new(alloc, all)
}

/// The facts of the second that aren't among the first, in order.
fn missing_facts(
    alloc: Global,
    arena: &Arena,
    first: &[HeldFact],
    second: &[HeldFact],
) -> Result<List<HeldFact>, NoMemory>
    requires first { AreFineFacts arena.now first.now }
    requires second { AreFineFacts arena.now second.now }
    ensures missing { IfOk result (λ more.
        AreMissing (map (fact_of arena.now) first.now) (map (fact_of arena.now) second.now)
        (map (fact_of arena.now) more)) }
    ensures fine { IfOk result (λ more. AreFineFacts arena.now more) }
{
    let known = Facts::new(alloc, first, second.len());
    let mut more = List::new(alloc);
    for fact in second {
        add_if_new(alloc, arena, &known, &mut more, fact)?;
    }
    Ok(more)
}

/// Adds the fact, if it isn't among the first ones.
fn add_if_new(
    alloc: Global,
    arena: &Arena,
    first: &Facts,
    more: &mut List<HeldFact>,
    fact: &HeldFact,
) -> Result<(), NoMemory>
    requires first { AreFactsAt arena.now first.now }
    requires fact { IsFactAt arena.now fact.now }
    ensures { OnOk result (AddedIfNew arena.now first.now fact.now more.old more.new) }
{
    if first.has(arena, fact) {
        return Ok(());
    }
    let copy = copy_fact(alloc, fact)?;
    more.push(copy)?;
    Ok(())
}

/// Further registers and memories, which stay as they are.
pub fn framed(
    alloc: Global,
    arena: &Arena,
    p: &Held,
    regs: &[(u8, u64)],
    mems: &[u64],
) -> Result<Option<Held>, NoMemory>
    requires p { IsFineHeld arena.now p.now }
    requires regs { AreFineRegisters arena.now regs.now }
    requires mems { AreFineMems arena.now mems.now }
    ensures { IfOk result (λ o. MadeIf arena.now
        (λ t.
        IsFramed (triple_of arena.now p.now) t
        × (further (triple_of arena.now p.now).pre.regs t.pre.regs
        ≡ map (register_of arena.now) regs.now)
        × (rest_after (triple_of arena.now p.now).pre.mems t.pre.mems
        ≡ map (mem_of arena.now) mems.now)) o) }
{
    if any_listed(p.pre.regs.as_slice(), regs) {
        return Ok(None);
    }
    if any_listed(p.post.regs.as_slice(), regs) {
        return Ok(None);
    }
    let facts = p.facts.share()?;
    let pre = with_further(alloc, &p.pre, regs, mems)?;
    let code = p.code.share()?;
    let post = with_further(alloc, &p.post, regs, mems)?;
    Ok(Some(Held {
        facts,
        pre,
        code,
        post,
    }))
}

/// Whether one of the second registers has the number of one of the first.
fn any_listed(own: &[(u8, u64)], more: &[(u8, u64)]) -> bool
    ensures { IsFalse result ↔ All (λ r. spec.is_listed own.now r.0 ≡ false) more.now }
{
    for register in more {
        if is_listed(own, register.0) {
            return true;
        }
    }
    false
}

/// Whether one of the registers has that number.
fn is_listed(own: &[(u8, u64)], number: u8) -> bool
    ensures { result ≡ spec.is_listed own.now number }
{
    for register in own {
        if register.0 == number {
            return true;
        }
    }
    false
}

/// The assertion with further registers, each in its place, and with further memories behind its
/// own.
fn with_further(
    alloc: Global,
    side: &HeldSide,
    regs: &[(u8, u64)],
    mems: &[u64],
) -> Result<HeldSide, NoMemory>
    requires own { AreRegistersFrom 1 (map number side.now.regs) }
    requires regs { AreRegistersFrom 1 (map number regs.now) }
    requires apart { All (λ r. spec.is_listed side.now.regs r.0 ≡ false) regs.now }
    ensures pc { IfOk result (λ s. s.pc ≡ side.now.pc) }
    ensures regs { IfOk result (λ s. AreWith side.now.regs regs.now s.regs) }
    ensures rise { IfOk result (λ s. AreRegistersFrom 1 (map number s.regs)) }
    ensures mems { IfOk result (λ s. s.mems ≡ side.now.mems ++ mems.now) }
{
    let regs = merged(alloc, side.regs.as_slice(), regs)?;
    let mems = mems_with(alloc, &side.mems, mems)?;
    Ok(HeldSide {
        pc: side.pc,
        regs,
        mems,
    })
}

/// The memories, with further ones behind them. Where there are none of these, they are shared.
fn mems_with(
    alloc: Global,
    own: &Shared<List<u64>>,
    mems: &[u64],
) -> Result<Shared<List<u64>>, NoMemory>
    ensures { IfOk result (λ all. all ≡ own.now ++ mems.now) }
{
    if mems.is_empty() {
        return own.share();
    }
    let mut all = List::from_slice(alloc, own.as_slice())?;
    all.extend_from_slice(mems)?;
    Shared::new(alloc, all)
}

/// The registers of both lists, rising.
fn merged(alloc: Global, a: &[(u8, u64)], b: &[(u8, u64)]) -> Result<List<(u8, u64)>, NoMemory>
    requires a { AreRegistersFrom 1 (map number a.now) }
    requires b { AreRegistersFrom 1 (map number b.now) }
    requires apart { All (λ r. spec.is_listed a.now r.0 ≡ false) b.now }
    ensures with { IfOk result (λ all. AreWith a.now b.now all) }
    ensures rise { IfOk result (λ all. AreRegistersFrom 1 (map number all)) }
{
    let mut all = List::new(alloc);
    let mut i = 0;
    let mut j = 0;
    while i < a.len() || j < b.len() {
        if comes_first(a, i, b, j) {
            all.push(a[i])?;
            i += 1;
        } else {
            all.push(b[j])?;
            j += 1;
        }
    }
    Ok(all)
}

/// Whether the register of `a` at `i` comes before that of `b` at `j`. One of them is there.
fn comes_first(a: &[(u8, u64)], i: usize, b: &[(u8, u64)], j: usize) -> bool
    requires within { (i < length a.now) ⊎ (j < length b.now) }
    requires apart { All (λ r. spec.is_listed a.now r.0 ≡ false) b.now }
    ensures yes { IsTrue result → ComesFirst a.now i b.now j }
    ensures no { IsFalse result → ComesFirst b.now j a.now i }
{
    if j >= b.len() {
        return true;
    }
    if i >= a.len() {
        return false;
    }
    a[i].0 < b[j].0
}
