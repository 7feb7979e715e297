//! The triples that short lines state, made over numbers.

ghost use Rattle.std.specs.Prelude.{◌≡◌, ◌≤◌, ◌+◌, ◌*◌, IfOk, IfSome, IsSomeAnd, IsTrue, List as Items, length, map, option_map, true};
ghost use Rattle.std.specs.Option.{option_copied};
ghost use Rattle.tailrec_lang.specs.Tree.{group_tree};
ghost use Rattle.triple_kernel.specs.Tree.{TripleTree};
ghost use Rattle.triple_kernel.specs.Rules.{IsDischarged, IsInst, IsStrengthened, IsWeakened};
ghost use Rattle.frame_compose.specs.Rules.{IsComposed, IsExtended, IsFramed, further, rest_after};
ghost use Rattle.loop_rule.specs.Rule.{IsExit};
ghost use Rattle.proof_text.specs.Line.{code_or_own};
ghost use Rattle.proof_text.specs.inner.OwnCode.{IsOwnCode};
ghost use Rattle.term_arena.specs.Arena.{Extends, Tree, mem_of};
ghost use Rattle.held_terms.specs.Held.{fact_of, register_of, side_of, triple_of};
ghost use Rattle.held_instances.specs.Image.{IsSubAt, put_for_numbers};
ghost use Rattle.held_terms.specs.Subterms.{HasFacts, HasSide};
ghost use Rattle.short_text.specs.SpelledShort.{short_or_own};
ghost use Rattle.held_definitions.specs.Theorems.{held_by_number, theorem_at};
ghost use Rattle.checker.specs.Bench.{history_from, is_closed_in};
ghost use Rattle.derived_triples.specs.Fine.{AreFineFacts, AreFineMems, AreFineRegisters, IsFineHeld, IsFineSide};
ghost use Rattle.checker.specs.Short.{AreFineAt, IsFineShort, IsStatedBy};
ghost use Rattle.checker.specs.LineTerms.{HasShort, is_copied};
ghost use Rattle.held_terms.specs.Terms.{HasSubterms, pair_steps, theorem_terms, triple_terms};
ghost use Rattle.derived_triples.specs.inner.Making.{MadeIf};
ghost use Rattle.held_definitions.specs.inner.Marks.{AreMarked};

use crate::known::are_known;
use crate::rules::is_closed;
use derived_triples::{
    axiom, composed, discharged, exit, extended, framed, put_in, strengthened, weakened,
};
use held_definitions::Marks;
use held_instances::ImageTable;
use held_terms::{Held, HeldFact, HeldSide, Shared, copy_to_share};
use rv_words::{List, NoMemory};
use short_text::Short;
use std::alloc::Global;
use std::collections::BTreeMap;
use std::sync::ledger::Ledger;
use tailrec_lang::Group;
use term_arena::{Arena, Steps};
use word_terms::Code;

/// The triple that the line states after those theorems and closed definitions, if it is right.
/// That of an exit shares that code, which is the group's own, and so does that of a line that
/// extends a theorem's code where `all` stands for it.
pub(crate) fn stated_by<L: Ledger>(
    alloc: Global,
    g: &Group,
    code: &Shared<Code>,
    arena: &mut Arena,
    images: &mut ImageTable,
    held: &BTreeMap<u64, Held>,
    marked: &Marks,
    closed: &[bool],
    line: &Short,
    all: bool,
    steps: &mut Steps<L>,
) -> Result<Option<Held>, NoMemory>
    requires code { IsOwnCode g.now.code.ranges }
    requires shared { code.now.ranges ≡ g.now.code.ranges }
    requires held { AreFineAt arena.old held.now.entries }
    requires marked { AreMarked g.now.code.ranges held.now.entries marked.now }
    requires line { IsFineShort arena.old (short_or_own g.now.code.ranges all line.now) }
    ensures made { IfOk result (λ o.
        MadeIf arena.new
        (IsStatedBy (group_tree g.now) (history_from 0 arena.old held.now.entries closed.now)
        arena.old (short_or_own g.now.code.ranges all line.now)) o) }
    ensures grows { Extends arena.old arena.new }
    ensures steps { is_copied line.now ≡ true → steps.new ≡ steps.old }
    ensures most { (ts : Items Tree)
        → HasShort (group_tree g.now) (theorem_at arena.old held.now.entries) arena.old line.now ts
        → steps.new ≤ steps.old + pair_steps ts }
{
    match line {
        Short::Axiom(addr, word, form) => axiom(alloc, arena, *addr, *word, *form, steps),
        Short::Inst(p, words, mems) => by_inst(alloc, arena, images, held, *p, words, mems, steps),
        Short::UseExit(def, number) => {
            by_use_exit(alloc, g, code, arena, closed, *def, *number, steps)
        }
        Short::Frame(p, regs, mems) => by_frame(alloc, arena, held, *p, regs, mems),
        Short::ExtendCode(p, more) => {
            by_extend_code(alloc, g, code, arena, held, marked, *p, more, all)
        }
        Short::Compose(p, q) => by_compose(alloc, g, arena, held, marked, *p, *q),
        Short::Strengthen(p, facts, pre) => {
            by_strengthen(alloc, arena, held, *p, facts, pre, steps)
        }
        Short::Weaken(p, facts, post) => { by_weaken(alloc, arena, held, *p, facts, post, steps) }
        Short::Discharge(p, facts) => { by_discharge(alloc, arena, held, *p, facts, steps) }
        Short::Loop(_, _) => Ok(None),
        Short::Forget(_) => Ok(None),
    }
}

/// The theorem of that number, if it exists and wasn't forgotten.
fn fine_theorem<'a>(arena: &Arena, held: &'a BTreeMap<u64, Held>, k: u64) -> Option<&'a Held>
    requires { AreFineAt arena.now held.now.entries }
    ensures theorem { option_map (triple_of arena.now) (option_copied result)
        ≡ theorem_at arena.now held.now.entries k }
    ensures fine { IfSome (option_copied result) (λ h. IsFineHeld arena.now h) }
    ensures held { option_copied result ≡ held_by_number held.now.entries k }
{
    arena.law_of_nodes();
    held.get(&k)
}

fn by_inst<L: Ledger>(
    alloc: Global,
    arena: &mut Arena,
    images: &mut ImageTable,
    held: &BTreeMap<u64, Held>,
    p: u64,
    words: &List<(u32, u64)>,
    mems: &List<(u32, u64)>,
    steps: &mut Steps<L>,
) -> Result<Option<Held>, NoMemory>
    requires held { AreFineAt arena.old held.now.entries }
    requires sub { IsSubAt arena.old words.now mems.now }
    ensures made { IfOk result (λ o. MadeIf arena.new
        (λ t. IsSomeAnd (theorem_at arena.old held.now.entries p) (λ q.
        IsInst (put_for_numbers arena.old words.now mems.now) q t)) o) }
    ensures grows { Extends arena.old arena.new }
    ensures steps { (ts : Items Tree)
        → HasSubterms ts (theorem_terms (theorem_at arena.old held.now.entries p))
        → steps.new ≤ steps.old + 2 * length ts }
{
    match fine_theorem(arena, held, p) {
        Some(q) => {
            let words = words.as_slice();
            let made = put_in(alloc, arena, images, q, words, mems.as_slice(), steps)?;
            Ok(made)
        }
        None => Ok(None),
    }
}

fn by_use_exit<L: Ledger>(
    alloc: Global,
    g: &Group,
    code: &Shared<Code>,
    arena: &mut Arena,
    closed: &[bool],
    def: u32,
    number: u32,
    steps: &mut Steps<L>,
) -> Result<Option<Held>, NoMemory>
    requires code { IsOwnCode g.now.code.ranges }
    requires shared { code.now.ranges ≡ g.now.code.ranges }
    ensures made { IfOk result (λ o. MadeIf arena.new
        (λ t. (is_closed_in closed.now def ≡ true) × IsExit (group_tree g.now) def number t) o) }
    ensures grows { Extends arena.old arena.new }
    ensures steps { (ts : Items Tree)
        → ((t : TripleTree)
        → IsExit (group_tree g.now) def number t
        → HasSubterms ts (triple_terms t))
        → steps.new ≤ steps.old + (4 * length ts + 2) }
{
    if !is_closed(closed, def) {
        return Ok(None);
    }
    exit(alloc, arena, g, code, def, number, steps)
}

fn by_frame(
    alloc: Global,
    arena: &Arena,
    held: &BTreeMap<u64, Held>,
    p: u64,
    regs: &List<(u8, u64)>,
    mems: &List<u64>,
) -> Result<Option<Held>, NoMemory>
    requires held { AreFineAt arena.now held.now.entries }
    requires regs { AreFineRegisters arena.now regs.now }
    requires mems { AreFineMems arena.now mems.now }
    ensures { IfOk result (λ o. MadeIf arena.now
        (λ t. IsSomeAnd (theorem_at arena.now held.now.entries p) (λ q.
        IsFramed q t
        × (further q.pre.regs t.pre.regs ≡ map (register_of arena.now) regs.now)
        × (rest_after q.pre.mems t.pre.mems ≡ map (mem_of arena.now) mems.now))) o) }
{
    match fine_theorem(arena, held, p) {
        Some(q) => framed(alloc, arena, q, regs.as_slice(), mems.as_slice()),
        None => Ok(None),
    }
}

fn by_extend_code(
    alloc: Global,
    g: &Group,
    code: &Shared<Code>,
    arena: &Arena,
    held: &BTreeMap<u64, Held>,
    marked: &Marks,
    p: u64,
    more: &Code,
    all: bool,
) -> Result<Option<Held>, NoMemory>
    requires shared { code.now.ranges ≡ g.now.code.ranges }
    requires held { AreFineAt arena.now held.now.entries }
    requires marked { AreMarked g.now.code.ranges held.now.entries marked.now }
    requires more { IsOwnCode (code_or_own g.now.code.ranges all more.now.ranges) }
    ensures { IfOk result (λ o. MadeIf arena.now
        (λ t. IsSomeAnd (theorem_at arena.now held.now.entries p) (λ q.
        IsExtended q t × (t.code ≡ code_or_own g.now.code.ranges all more.now.ranges))) o) }
{
    if all {
        by_extend_to_own(alloc, g, code, arena, held, marked, p)
    } else {
        by_extend_to(alloc, arena, held, p, more)
    }
}

/// The theorem over the group's own code. Where its code is known to lie within that, nothing is
/// compared.
fn by_extend_to_own(
    alloc: Global,
    g: &Group,
    code: &Shared<Code>,
    arena: &Arena,
    held: &BTreeMap<u64, Held>,
    marked: &Marks,
    p: u64,
) -> Result<Option<Held>, NoMemory>
    requires own { IsOwnCode g.now.code.ranges }
    requires shared { code.now.ranges ≡ g.now.code.ranges }
    requires held { AreFineAt arena.now held.now.entries }
    requires marked { AreMarked g.now.code.ranges held.now.entries marked.now }
    ensures { IfOk result (λ o. MadeIf arena.now
        (λ t. IsSomeAnd (theorem_at arena.now held.now.entries p) (λ q.
        IsExtended q t × (t.code ≡ g.now.code.ranges))) o) }
{
    let known = marked.is_within(p);
    match fine_theorem(arena, held, p) {
        Some(q) => extended(alloc, arena, q, code, known),
        None => Ok(None),
    }
}

/// The theorem over that code.
fn by_extend_to(
    alloc: Global,
    arena: &Arena,
    held: &BTreeMap<u64, Held>,
    p: u64,
    code: &Code,
) -> Result<Option<Held>, NoMemory>
    requires held { AreFineAt arena.now held.now.entries }
    requires code { IsOwnCode code.now.ranges }
    ensures { IfOk result (λ o. MadeIf arena.now
        (λ t. IsSomeAnd (theorem_at arena.now held.now.entries p) (λ q.
        IsExtended q t × (t.code ≡ code.now.ranges))) o) }
{
    match fine_theorem(arena, held, p) {
        Some(q) => extended_to(alloc, arena, q, code),
        None => Ok(None),
    }
}

/// The theorem over a copy of that code.
fn extended_to(
    alloc: Global,
    arena: &Arena,
    p: &Held,
    code: &Code,
) -> Result<Option<Held>, NoMemory>
    requires p { IsFineHeld arena.now p.now }
    requires code { IsOwnCode code.now.ranges }
    ensures { IfOk result (λ o. MadeIf arena.now
        (λ t. IsExtended (triple_of arena.now p.now) t × (t.code ≡ code.now.ranges)) o) }
{
    let code = copy_to_share(alloc, code)?;
    extended(alloc, arena, p, &code, false)
}

fn by_compose(
    alloc: Global,
    g: &Group,
    arena: &Arena,
    held: &BTreeMap<u64, Held>,
    marked: &Marks,
    p: u64,
    q: u64,
) -> Result<Option<Held>, NoMemory>
    requires held { AreFineAt arena.now held.now.entries }
    requires marked { AreMarked g.now.code.ranges held.now.entries marked.now }
    ensures { IfOk result (λ o. MadeIf arena.now
        (λ t. IsSomeAnd (theorem_at arena.now held.now.entries p) (λ p.
        IsSomeAnd (theorem_at arena.now held.now.entries q) (λ q. IsComposed p q t))) o) }
{
    let known = are_known(g, held, marked, p, q);
    match fine_theorem(arena, held, p) {
        Some(first) => composed_with(alloc, arena, held, first, q, known),
        None => Ok(None),
    }
}

fn composed_with(
    alloc: Global,
    arena: &Arena,
    held: &BTreeMap<u64, Held>,
    first: &Held,
    q: u64,
    known: bool,
) -> Result<Option<Held>, NoMemory>
    requires held { AreFineAt arena.now held.now.entries }
    requires first { IsFineHeld arena.now first.now }
    requires known { IsTrue known
        → IfSome (held_by_number held.now.entries q) (λ h. first.now.code.ranges ≡ h.code.ranges) }
    ensures { IfOk result (λ o. MadeIf arena.now
        (λ t. IsSomeAnd (theorem_at arena.now held.now.entries q) (λ q.
        IsComposed (triple_of arena.now first.now) q t)) o) }
{
    match fine_theorem(arena, held, q) {
        Some(second) => composed(alloc, arena, first, second, known),
        None => Ok(None),
    }
}

fn by_strengthen<L: Ledger>(
    alloc: Global,
    arena: &Arena,
    held: &BTreeMap<u64, Held>,
    p: u64,
    facts: &List<HeldFact>,
    pre: &HeldSide,
    steps: &mut Steps<L>,
) -> Result<Option<Held>, NoMemory>
    requires held { AreFineAt arena.now held.now.entries }
    requires facts { AreFineFacts arena.now facts.now }
    requires pre { IsFineSide arena.now pre.now }
    ensures made { IfOk result (λ o. MadeIf arena.now
        (λ t. IsSomeAnd (theorem_at arena.now held.now.entries p) (λ q.
        IsStrengthened q t
        × (t.facts ≡ map (fact_of arena.now) facts.now)
        × (t.pre ≡ side_of arena.now pre.now))) o) }
    ensures steps { (ts : Items Tree)
        → HasSubterms ts (theorem_terms (theorem_at arena.now held.now.entries p))
        → HasSide arena.now pre.now ts
        → steps.new ≤ steps.old + 2 * (length ts * length ts) }
{
    match fine_theorem(arena, held, p) {
        Some(q) => strengthened(alloc, arena, q, facts.as_slice(), pre, steps),
        None => Ok(None),
    }
}

fn by_weaken<L: Ledger>(
    alloc: Global,
    arena: &Arena,
    held: &BTreeMap<u64, Held>,
    p: u64,
    facts: &List<HeldFact>,
    post: &HeldSide,
    steps: &mut Steps<L>,
) -> Result<Option<Held>, NoMemory>
    requires held { AreFineAt arena.now held.now.entries }
    requires facts { AreFineFacts arena.now facts.now }
    requires post { IsFineSide arena.now post.now }
    ensures made { IfOk result (λ o. MadeIf arena.now
        (λ t. IsSomeAnd (theorem_at arena.now held.now.entries p) (λ q.
        IsWeakened q t
        × (t.facts ≡ map (fact_of arena.now) facts.now)
        × (t.post ≡ side_of arena.now post.now))) o) }
    ensures steps { (ts : Items Tree)
        → HasSubterms ts (theorem_terms (theorem_at arena.now held.now.entries p))
        → HasSide arena.now post.now ts
        → steps.new ≤ steps.old + 2 * (length ts * length ts) }
{
    match fine_theorem(arena, held, p) {
        Some(q) => weakened(alloc, arena, q, facts.as_slice(), post, steps),
        None => Ok(None),
    }
}

fn by_discharge<L: Ledger>(
    alloc: Global,
    arena: &Arena,
    held: &BTreeMap<u64, Held>,
    p: u64,
    facts: &List<HeldFact>,
    steps: &mut Steps<L>,
) -> Result<Option<Held>, NoMemory>
    requires held { AreFineAt arena.now held.now.entries }
    requires facts { AreFineFacts arena.now facts.now }
    ensures made { IfOk result (λ o. MadeIf arena.now
        (λ t. IsSomeAnd (theorem_at arena.now held.now.entries p) (λ q.
        IsDischarged q t × (t.facts ≡ map (fact_of arena.now) facts.now))) o) }
    ensures steps { (ts : Items Tree)
        → HasSubterms ts (theorem_terms (theorem_at arena.now held.now.entries p))
        → HasFacts arena.now facts.now ts
        → steps.new ≤ steps.old + (2 * (length ts * length ts) + 2 * length ts) }
{
    match fine_theorem(arena, held, p) {
        Some(q) => discharged(alloc, arena, q, facts.as_slice(), steps),
        None => Ok(None),
    }
}
