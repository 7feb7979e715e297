//! The rules by which a line states a triple, each with the theorems that it cites.

ghost use Rattle.std.specs.Prelude.{◌≡◌, ◌↔◌, ◌+◌, ◌*◌, ◌≤◌, ◌++◌, IfOk, List as Items, length, IfSome, IsSomeAnd, IsTrue, Some as Just, map, true};
ghost use Rattle.tailrec_lang.specs.Tree.{group_tree};
ghost use Rattle.triple_kernel.specs.Tree.{triple_tree};
ghost use Rattle.triple_kernel.specs.Rules.{IsDischarged, IsInst, IsStrengthened, IsWeakened};
ghost use Rattle.instr_axioms.specs.Axiom.{axiom_of};
ghost use Rattle.frame_compose.specs.Rules.{IsComposed, IsExtended, IsFramed};
ghost use Rattle.loop_rule.specs.Rule.{IsExit};
ghost use Rattle.proof_text.specs.Line.{mem_put_in, rule_tree, triple_or_own, word_put_in};
ghost use Rattle.term_arena.specs.Arena.{Extends, OfMem, OfWord, Tree};
ghost use Rattle.held_terms.specs.Held.{IsHeldAt, triple_of};
ghost use Rattle.verdicts.specs.Further.{further_of};
ghost use Rattle.verdicts.specs.Instance.{Meets, put_for};
ghost use Rattle.held_definitions.specs.Theorems.{AreHeldAt, held_by_number, theorem_at};
ghost use Rattle.checker.specs.Bench.{history_from, is_closed_in};
ghost use Rattle.held_terms.specs.Terms.{HasSubterms, nodes_of, pair_steps, theorem_terms, triple_terms};
ghost use Rattle.checker.specs.LineTerms.{compares_numbers, premise_terms, put_in_terms};
ghost use Rattle.held_definitions.specs.inner.Marks.{AreMarked, HasWithin, over_code};
ghost use Rattle.held_terms.specs.inner.Put.{IsHeldPut};
ghost use Rattle.checker.specs.inner.Sharing.{code_giver};

use crate::further_rule::is_further;
use crate::known::{has_code, has_own_code, have_union, is_known, is_within};
use derived_triples::{has_code_within, put_mem_terms, put_word_terms};
use group_text::Version;
use held_consequence::{is_discharged, is_strengthened, is_weakened};
use held_definitions::{Marks, is_exit, theorem};
use held_instances::{ImageTable, is_instance};
use held_terms::{Held, is_composition, is_extension, is_frame};
use instr_axioms::axiom_triple;
use proof_text::Rule;
use rv_words::NoMemory;
use sep_assert::{same_assertion, same_code};
use std::alloc::Global;
use std::collections::BTreeMap;
use std::sync::ledger::Ledger;
use tailrec_lang::Group;
use term_arena::{Arena, Steps};
use triple_kernel::{Form, Triple, same_facts};
use word_terms::{Code, Sub};

/// Whether the stated triple meets the row of the rule, after those theorems and closed
/// definitions. Its numbers and its code are those of `put`. Where the code is the group's own, as
/// `own` says, it isn't compared with that of a theorem that is marked.
#[tactic(auto, using(held_terms::proofs::GrowthLemmas::extends_none))]
pub(crate) fn meets<L: Ledger>(
    alloc: Global,
    g: &Group,
    arena: &mut Arena,
    images: &mut ImageTable,
    held: &BTreeMap<u64, Held>,
    marked: &Marks,
    closed: &[bool],
    rule: &Rule,
    stated: &Triple,
    own: bool,
    put: &Held,
    steps: &mut Steps<L>,
) -> Result<bool, NoMemory>
    requires held { AreHeldAt arena.old held.now.entries }
    requires marked { AreMarked g.now.code.ranges held.now.entries marked.now }
    requires put { IsHeldPut arena.old put.now (triple_or_own (group_tree g.now).code own
        (triple_tree stated.now)) }
    requires own { IsTrue own → put.now.code.ranges ≡ g.now.code.ranges }
    ensures answer { IfOk result (λ r.
        IsTrue r
        ↔ Meets (group_tree g.now) (history_from 0 arena.old held.now.entries closed.now)
        (rule_tree rule.now) (triple_or_own (group_tree g.now).code own (triple_tree stated.now))) }
    ensures grows { Extends arena.old arena.new }
    ensures steps { compares_numbers (rule_tree rule.now) ≡ true → steps.new ≡ steps.old }
    ensures most { (ts : Items Tree)
        → HasSubterms ts (triple_terms (triple_tree stated.now))
        → HasSubterms ts (premise_terms (theorem_at arena.old held.now.entries)
        (rule_tree rule.now))
        → steps.new ≤ steps.old + (nodes_of (put_in_terms (rule_tree rule.now)) + pair_steps ts) }
{
    match rule {
        Rule::Axiom(addr, word, form) => {
            by_axiom(alloc, *addr, *word, *form, stated, put.code.as_ref())
        }
        Rule::Inst(p, terms) => {
            let known = is_known(g, held, marked, own, *p, put);
            by_inst(alloc, arena, images, held, *p, terms, put, known, steps)
        }
        Rule::Frame(p) => {
            let known = is_known(g, held, marked, own, *p, put);
            Ok(by_frame(arena, held, *p, put, known))
        }
        Rule::Compose(p, q) => {
            let first = is_known(g, held, marked, own, *p, put);
            let second = is_known(g, held, marked, own, *q, put);
            let first_within = is_within(g, held, marked, own, *p, put);
            let second_within = is_within(g, held, marked, own, *q, put);
            Ok(by_compose(
                alloc,
                arena,
                held,
                *p,
                *q,
                put,
                first,
                second,
                first_within,
                second_within,
            ))
        }
        Rule::ExtendCode(p) => {
            let known = is_within(g, held, marked, own, *p, put);
            Ok(by_extend_code(arena, held, *p, put, known))
        }
        Rule::Strengthen(p) => {
            let known = is_known(g, held, marked, own, *p, put);
            by_strengthen(alloc, arena, held, *p, put, known, steps)
        }
        Rule::Weaken(p) => {
            let known = is_known(g, held, marked, own, *p, put);
            by_weaken(alloc, arena, held, *p, put, known, steps)
        }
        Rule::Discharge(p) => {
            let known = is_known(g, held, marked, own, *p, put);
            by_discharge(alloc, arena, held, *p, put, known, steps)
        }
        Rule::UseExit(def, exit) => {
            Ok(by_use_exit(arena, g, closed, *def, *exit, put, own, steps))
        }
    }
}

/// The theorem whose code the triple has that a line by the rule states, if it has that of one.
pub(crate) fn code_giver(rule: &Rule) -> Option<u64>
    ensures { result ≡ code_giver (rule_tree rule.now) }
{
    match rule {
        Rule::Axiom(_, _, _) => None,
        Rule::Inst(p, _) => Some(*p),
        Rule::Frame(p) => Some(*p),
        Rule::Compose(_, _) => None,
        Rule::ExtendCode(_) => None,
        Rule::Strengthen(p) => Some(*p),
        Rule::Weaken(p) => Some(*p),
        Rule::Discharge(p) => Some(*p),
        Rule::UseExit(_, _) => None,
    }
}

fn by_axiom(
    alloc: Global,
    addr: u64,
    word: u32,
    form: Form,
    stated: &Triple,
    code: &Code,
) -> Result<bool, NoMemory>
    ensures { IfOk result (λ r.
        IsTrue r
        ↔ (axiom_of addr word form ≡ Just (over_code code.now.ranges (triple_tree stated.now)))) }
{
    match axiom_triple(alloc, addr, word, form)? {
        Some(t) => Ok(is_triple_over(&t, stated, code)),
        None => Ok(false),
    }
}

/// Whether the first triple is the second one over that code.
fn is_triple_over(t: &Triple, stated: &Triple, code: &Code) -> bool
    ensures { IsTrue result
        ↔ (triple_tree t.now ≡ over_code code.now.ranges (triple_tree stated.now)) }
{
    same_facts(t.facts.as_slice(), stated.facts.as_slice())
        && same_assertion(&t.pre, &stated.pre)
        && same_code(&t.code, code)
        && same_assertion(&t.post, &stated.post)
}

#[tactic(auto, using(held_terms::proofs::GrowthLemmas::extends_none))]
fn by_inst<L: Ledger>(
    alloc: Global,
    arena: &mut Arena,
    images: &mut ImageTable,
    held: &BTreeMap<u64, Held>,
    p: u64,
    terms: &Sub,
    stated: &Held,
    known: bool,
    steps: &mut Steps<L>,
) -> Result<bool, NoMemory>
    requires held { AreHeldAt arena.old held.now.entries }
    requires stated { IsHeldAt arena.old stated.now }
    requires known { IsTrue known
        → IfSome (held_by_number held.now.entries p) (λ q. q.code.ranges ≡ stated.now.code.ranges) }
    ensures answer { IfOk result (λ r.
        IsTrue r
        ↔ IsSomeAnd (theorem_at arena.old held.now.entries p) (λ p.
        IsInst (put_for (map word_put_in terms.now.words) (map mem_put_in terms.now.mems)) p
        (triple_of arena.old stated.now))) }
    ensures grows { Extends arena.old arena.new }
    ensures steps { (ts : Items Tree)
        → HasSubterms ts (theorem_terms (theorem_at arena.old held.now.entries p))
        → steps.new
        ≤ steps.old + (nodes_of
        (map (λ q. OfWord q.1) (map word_put_in terms.now.words)
        ++ map (λ q. OfMem q.1) (map mem_put_in terms.now.mems)) + 2 * length ts) }
{
    match theorem(arena, held, p) {
        Some(p) => is_instance_by(alloc, arena, images, p, terms, stated, known, steps),
        None => Ok(false),
    }
}

#[tactic(auto, using(held_terms::proofs::GrowthLemmas::extends_next))]
fn is_instance_by<L: Ledger>(
    alloc: Global,
    arena: &mut Arena,
    images: &mut ImageTable,
    p: &Held,
    terms: &Sub,
    stated: &Held,
    known: bool,
    steps: &mut Steps<L>,
) -> Result<bool, NoMemory>
    requires p { IsHeldAt arena.old p.now }
    requires stated { IsHeldAt arena.old stated.now }
    requires known { IsTrue known → p.now.code.ranges ≡ stated.now.code.ranges }
    ensures answer { IfOk result (λ r.
        IsTrue r
        ↔ IsInst (put_for (map word_put_in terms.now.words) (map mem_put_in terms.now.mems))
        (triple_of arena.old p.now) (triple_of arena.old stated.now)) }
    ensures grows { Extends arena.old arena.new }
    ensures steps { (ts : Items Tree)
        → HasSubterms ts (triple_terms (triple_of arena.old p.now))
        → steps.new
        ≤ steps.old + (nodes_of
        (map (λ q. OfWord q.1) (map word_put_in terms.now.words)
        ++ map (λ q. OfMem q.1) (map mem_put_in terms.now.mems)) + 2 * length ts) }
{
    let words = put_word_terms(alloc, arena, terms.words.as_slice(), steps)?;
    let mems = put_mem_terms(alloc, arena, terms.mems.as_slice(), steps)?;
    let same = is_instance(
        alloc,
        arena,
        images,
        p,
        words.as_slice(),
        mems.as_slice(),
        stated,
        has_code(known, p, stated),
        steps,
    )?;
    Ok(same)
}

fn by_frame(arena: &Arena, held: &BTreeMap<u64, Held>, p: u64, stated: &Held, known: bool) -> bool
    requires held { AreHeldAt arena.now held.now.entries }
    requires stated { IsHeldAt arena.now stated.now }
    requires known { IsTrue known
        → IfSome (held_by_number held.now.entries p) (λ q. q.code.ranges ≡ stated.now.code.ranges) }
    ensures { IsTrue result
        ↔ IsSomeAnd (theorem_at arena.now held.now.entries p) (λ p.
        IsFramed p (triple_of arena.now stated.now)) }
{
    match theorem(arena, held, p) {
        Some(p) => is_frame(arena, p, stated, has_code(known, p, stated)),
        None => false,
    }
}

fn by_compose(
    alloc: Global,
    arena: &Arena,
    held: &BTreeMap<u64, Held>,
    p: u64,
    q: u64,
    stated: &Held,
    first_known: bool,
    second_known: bool,
    first_within: bool,
    second_within: bool,
) -> bool
    requires held { AreHeldAt arena.now held.now.entries }
    requires stated { IsHeldAt arena.now stated.now }
    requires first { IsTrue first_known
        → IfSome (held_by_number held.now.entries p) (λ q. q.code.ranges ≡ stated.now.code.ranges) }
    requires second { IsTrue second_known
        → IfSome (held_by_number held.now.entries q) (λ p. p.code.ranges ≡ stated.now.code.ranges) }
    requires first_within { IsTrue first_within
        → IfSome (held_by_number held.now.entries p) (HasWithin stated.now.code.ranges) }
    requires second_within { IsTrue second_within
        → IfSome (held_by_number held.now.entries q) (HasWithin stated.now.code.ranges) }
    ensures { IsTrue result
        ↔ IsSomeAnd (theorem_at arena.now held.now.entries p) (λ p.
        IsSomeAnd (theorem_at arena.now held.now.entries q) (λ q.
        IsComposed p q (triple_of arena.now stated.now))) }
{
    match theorem(arena, held, p) {
        Some(p) => {
            is_composition_with(
                alloc,
                arena,
                held,
                p,
                q,
                stated,
                first_known,
                second_known,
                first_within,
                second_within,
            )
        }
        None => false,
    }
}

fn is_composition_with(
    alloc: Global,
    arena: &Arena,
    held: &BTreeMap<u64, Held>,
    p: &Held,
    q: u64,
    stated: &Held,
    first_known: bool,
    second_known: bool,
    first_within: bool,
    second_within: bool,
) -> bool
    requires held { AreHeldAt arena.now held.now.entries }
    requires p { IsHeldAt arena.now p.now }
    requires stated { IsHeldAt arena.now stated.now }
    requires first { IsTrue first_known → p.now.code.ranges ≡ stated.now.code.ranges }
    requires second { IsTrue second_known
        → IfSome (held_by_number held.now.entries q) (λ p. p.code.ranges ≡ stated.now.code.ranges) }
    requires first_within { IsTrue first_within → HasWithin stated.now.code.ranges p.now }
    requires second_within { IsTrue second_within
        → IfSome (held_by_number held.now.entries q) (HasWithin stated.now.code.ranges) }
    ensures { IsTrue result
        ↔ IsSomeAnd (theorem_at arena.now held.now.entries q) (λ q.
        IsComposed (triple_of arena.now p.now) q (triple_of arena.now stated.now)) }
{
    match theorem(arena, held, q) {
        Some(q) => {
            let union = have_union(
                first_known,
                second_known,
                first_within,
                second_within,
                p,
                q,
                stated,
            );
            is_composition(alloc, arena, p, q, stated, union)
        }
        None => false,
    }
}

fn by_extend_code(
    arena: &Arena,
    held: &BTreeMap<u64, Held>,
    p: u64,
    stated: &Held,
    known: bool,
) -> bool
    requires held { AreHeldAt arena.now held.now.entries }
    requires stated { IsHeldAt arena.now stated.now }
    requires known { IsTrue known
        → IfSome (held_by_number held.now.entries p) (HasWithin stated.now.code.ranges) }
    ensures { IsTrue result
        ↔ IsSomeAnd (theorem_at arena.now held.now.entries p) (λ p.
        IsExtended p (triple_of arena.now stated.now)) }
{
    match theorem(arena, held, p) {
        Some(p) => is_extension(arena, p, stated, has_code_within(known, p, stated)),
        None => false,
    }
}

fn by_strengthen<L: Ledger>(
    alloc: Global,
    arena: &Arena,
    held: &BTreeMap<u64, Held>,
    p: u64,
    stated: &Held,
    known: bool,
    steps: &mut Steps<L>,
) -> Result<bool, NoMemory>
    requires held { AreHeldAt arena.now held.now.entries }
    requires stated { IsHeldAt arena.now stated.now }
    requires known { IsTrue known
        → IfSome (held_by_number held.now.entries p) (λ q. q.code.ranges ≡ stated.now.code.ranges) }
    ensures answer { IfOk result (λ r.
        IsTrue r
        ↔ IsSomeAnd (theorem_at arena.now held.now.entries p) (λ p.
        IsStrengthened p (triple_of arena.now stated.now))) }
    ensures steps { (ts : Items Tree)
        → HasSubterms ts (triple_terms (triple_of arena.now stated.now))
        → HasSubterms ts (theorem_terms (theorem_at arena.now held.now.entries p))
        → steps.new ≤ steps.old + 2 * (length ts * length ts) }
{
    match theorem(arena, held, p) {
        Some(p) => {
            let same = has_code(known, p, stated);
            is_strengthened(alloc, arena, p, stated, same, steps)
        }
        None => Ok(false),
    }
}

fn by_weaken<L: Ledger>(
    alloc: Global,
    arena: &Arena,
    held: &BTreeMap<u64, Held>,
    p: u64,
    stated: &Held,
    known: bool,
    steps: &mut Steps<L>,
) -> Result<bool, NoMemory>
    requires held { AreHeldAt arena.now held.now.entries }
    requires stated { IsHeldAt arena.now stated.now }
    requires known { IsTrue known
        → IfSome (held_by_number held.now.entries p) (λ q. q.code.ranges ≡ stated.now.code.ranges) }
    ensures answer { IfOk result (λ r.
        IsTrue r
        ↔ IsSomeAnd (theorem_at arena.now held.now.entries p) (λ p.
        IsWeakened p (triple_of arena.now stated.now))) }
    ensures steps { (ts : Items Tree)
        → HasSubterms ts (triple_terms (triple_of arena.now stated.now))
        → HasSubterms ts (theorem_terms (theorem_at arena.now held.now.entries p))
        → steps.new ≤ steps.old + 2 * (length ts * length ts) }
{
    match theorem(arena, held, p) {
        Some(p) => {
            let same = has_code(known, p, stated);
            is_weakened(alloc, arena, p, stated, same, steps)
        }
        None => Ok(false),
    }
}

fn by_discharge<L: Ledger>(
    alloc: Global,
    arena: &Arena,
    held: &BTreeMap<u64, Held>,
    p: u64,
    stated: &Held,
    known: bool,
    steps: &mut Steps<L>,
) -> Result<bool, NoMemory>
    requires held { AreHeldAt arena.now held.now.entries }
    requires stated { IsHeldAt arena.now stated.now }
    requires known { IsTrue known
        → IfSome (held_by_number held.now.entries p) (λ q. q.code.ranges ≡ stated.now.code.ranges) }
    ensures answer { IfOk result (λ r.
        IsTrue r
        ↔ IsSomeAnd (theorem_at arena.now held.now.entries p) (λ p.
        IsDischarged p (triple_of arena.now stated.now))) }
    ensures steps { (ts : Items Tree)
        → HasSubterms ts (triple_terms (triple_of arena.now stated.now))
        → HasSubterms ts (theorem_terms (theorem_at arena.now held.now.entries p))
        → steps.new ≤ steps.old + (2 * (length ts * length ts) + 2 * length ts) }
{
    match theorem(arena, held, p) {
        Some(p) => {
            let same = has_code(known, p, stated);
            is_discharged(alloc, arena, p, stated, same, steps)
        }
        None => Ok(false),
    }
}

fn by_use_exit<L: Ledger>(
    arena: &Arena,
    g: &Group,
    closed: &[bool],
    def: u32,
    exit: u32,
    stated: &Held,
    own: bool,
    steps: &mut Steps<L>,
) -> bool
    requires stated { IsHeldAt arena.now stated.now }
    requires own { IsTrue own → stated.now.code.ranges ≡ g.now.code.ranges }
    ensures answer { IsTrue result
        ↔ ((is_closed_in closed.now def ≡ true)
        × IsExit (group_tree g.now) def exit (triple_of arena.now stated.now)) }
    ensures steps { (ts : Items Tree)
        → HasSubterms ts (triple_terms (triple_of arena.now stated.now))
        → steps.new ≤ steps.old + (10 * length ts + 1) }
{
    is_closed(closed, def)
        && is_exit(
            arena,
            g,
            def,
            exit,
            stated,
            has_own_code(g, own, stated),
            steps,
        )
}

/// Whether the further rule of that version states the triple of those numbers from the theorem of
/// that number.
#[tactic(auto, using(held_terms::proofs::GrowthLemmas::extends_none))]
pub(crate) fn by_further<L: Ledger>(
    alloc: Global,
    version: Version,
    arena: &mut Arena,
    held: &BTreeMap<u64, Held>,
    p: u64,
    stated: &Held,
    known: bool,
    steps: &mut Steps<L>,
) -> Result<bool, NoMemory>
    requires held { AreHeldAt arena.old held.now.entries }
    requires stated { IsHeldAt arena.old stated.now }
    requires known { IsTrue known
        → IfSome (held_by_number held.now.entries p) (λ q. q.code.ranges ≡ stated.now.code.ranges) }
    ensures answer { IfOk result (λ r.
        IsTrue r
        ↔ IsSomeAnd (theorem_at arena.old held.now.entries p) (λ p.
        further_of version p (triple_of arena.old stated.now))) }
    ensures grows { Extends arena.old arena.new }
    ensures steps { steps.new ≤ steps.old + 1 }
{
    match theorem(arena, held, p) {
        Some(p) => {
            let same = has_code(known, p, stated);
            is_further(alloc, version, arena, p, stated, same, steps)
        }
        None => Ok(false),
    }
}

/// Whether the definition of that number is closed.
pub(crate) fn is_closed(closed: &[bool], def: u32) -> bool
    ensures { result ≡ is_closed_in closed.now def }
{
    match closed.get(def as usize) {
        Some(c) => *c,
        None => false,
    }
}
