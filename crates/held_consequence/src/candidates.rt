//! Conditions of facts by their classes: one is compared only with those of its own class.
//!
//! A class may still have many conditions of which few are alike: those over words or memories
//! which are each equal to a third one, but not stated to be equal themselves. Where no forms of
//! variables meet the equations, all conditions are compared. Each pair that was compared is kept,
//! so that such facts take time and memory by the square.

ghost use Rattle.std.specs.Prelude.{◌≡◌, ◌+◌, ◌<◌, ◌≤◌, [], All, IfOk, IsTrue, List as Items, None as Nothing, OnOk, length, map};
ghost use Rattle.std.specs.BTreeMap.{Updates, get};
ghost use Rattle.std.specs.List.{Contains};
ghost use Rattle.std.specs.Ordering.{nat_cmp};
ghost use Rattle.word_terms.specs.Tree.{CondTree};
ghost use Rattle.term_arena.specs.Arena.{IsCondAt, Tree, cond_of};
ghost use Rattle.triple_kernel.specs.Tree.{So};
ghost use Rattle.triple_kernel.specs.Rules.{Alike};
ghost use Rattle.held_terms.specs.declared.held.HeldFact.{HeldFact as FactOf};
ghost use Rattle.held_terms.specs.declared.held.HeldFact.TheVariants.{So as SoAt};
ghost use Rattle.held_terms.specs.Held.{AreFactsAt, IsFactAt, fact_of};
ghost use Rattle.held_terms.specs.Subterms.{HasFact, HasFacts};
ghost use Rattle.held_consequence.specs.inner.Alone.{Searched};
ghost use Rattle.held_consequence.specs.inner.Classes.{AreClassed, AreFrom, AreOneKind, AreSame, HasTwoTerms, IsAdded, IsAgreed, IsFactListed, Narrows, listed};
ghost use Rattle.held_consequence.specs.inner.Following.{HasBothFacts};

use crate::classes::{Class, Leaves, class_in, class_of, no_leaves};
use held_terms::HeldFact;
use rv_words::{List, NoMemory};
use std::alloc::Global;
use std::collections::BTreeMap;
use std::sync::ledger::Ledger;
use term_arena::{Arena, Steps};

/// How many facts are compared one by one.
const FEW_CONDITIONS: usize = 16;

/// The classes of conditions, and for each class the facts that say that a condition of it is true.
/// A condition whose class isn't known is compared with all facts.
#[derive(Drop)]
pub(crate) struct Candidates {
    classes: BTreeMap<u64, Option<Class>>,
    lists: BTreeMap<u64, List<HeldFact>>,
}

/// Those among the others with which conditions of the facts may be alike. Each term takes one step
/// at most.
pub(crate) fn classify<L: Ledger>(
    alloc: Global,
    arena: &Arena,
    facts: &[HeldFact],
    others: &[HeldFact],
    steps: &mut Steps<L>,
) -> Result<Candidates, NoMemory>
    requires facts { AreFactsAt arena.now facts.now }
    requires others { AreFactsAt arena.now others.now }
    ensures narrows { IfOk result (λ c. Narrows arena.now others.now c.classes c.lists) }
    ensures steps { (ts : Items Tree)
        → HasFacts arena.now facts.now ts
        → HasFacts arena.now others.now ts
        → steps.new ≤ steps.old + length ts }
{
    arena.law_of_nodes();
    if facts.len() <= FEW_CONDITIONS || others.len() <= FEW_CONDITIONS {
        return Ok(all_are(alloc));
    }
    let mut forms = Arena::new(alloc);
    let mut leaves = no_leaves(alloc);
    let mut classes = BTreeMap::new(alloc);
    see_both(
        arena,
        facts,
        others,
        &mut forms,
        &mut leaves,
        &mut classes,
        steps,
    )?;
    gather(alloc, arena, &forms, &leaves, classes, others)
}

/// No class is known.
fn all_are(alloc: Global) -> Candidates
    ensures classes { result.classes.entries ≡ [] }
    ensures lists { result.lists.entries ≡ [] }
{
    Candidates {
        classes: BTreeMap::new(alloc),
        lists: BTreeMap::new(alloc),
    }
}

/// Those with which the condition may be alike.
pub(crate) fn candidates_of<'a>(
    arena: &Arena,
    candidates: &'a Candidates,
    others: &'a [HeldFact],
    c: u64,
) -> &'a [HeldFact]
    requires there { IsCondAt arena.now c }
    requires narrows { Narrows arena.now others.now candidates.now.classes candidates.now.lists }
    ensures among { (f : FactOf) → Contains result.now f → Contains others.now f }
    ensures all { (d : CondTree)
        → Contains (map (fact_of arena.now) others.now) (So d)
        → Alike (map (fact_of arena.now) others.now) (cond_of arena.now c) d
        → Contains (map (fact_of arena.now) result.now) (So d) }
{
    match class_in(&candidates.classes, c) {
        Some(k) => list_in(&candidates.lists, k),
        None => others,
    }
}

/// The facts of a class.
fn list_in(lists: &BTreeMap<u64, List<HeldFact>>, k: u64) -> &[HeldFact]
    ensures { result.now ≡ listed (get nat_cmp lists.now k) }
{
    match lists.get(&k) {
        Some(list) => list.as_slice(),
        None => &[],
    }
}

// ---- classes

/// The classes of the equations of the others first, then those of the conditions.
fn see_both<L: Ledger>(
    arena: &Arena,
    facts: &[HeldFact],
    others: &[HeldFact],
    forms: &mut Arena,
    leaves: &mut Leaves,
    classes: &mut BTreeMap<u64, Option<Class>>,
    steps: &mut Steps<L>,
) -> Result<(), NoMemory>
    requires facts { AreFactsAt arena.now facts.now }
    requires others { AreFactsAt arena.now others.now }
    requires classed { AreClassed arena.now forms.old leaves.old classes.old }
    ensures classed { OnOk result (AreClassed arena.now forms.new leaves.new classes.new) }
    ensures searched { Searched arena.now (HasBothFacts arena.now facts.now others.now) classes.old
        classes.new steps.old steps.new }
{
    see_all(arena, others, true, forms, leaves, classes, steps)?;
    see_all(arena, others, false, forms, leaves, classes, steps)?;
    see_all(arena, facts, false, forms, leaves, classes, steps)?;
    Ok(())
}

/// The classes of the equations among the facts, or those of the conditions.
#[tactic(auto, using(crate::proofs::FindLemmas::searched_none))]
fn see_all<L: Ledger>(
    arena: &Arena,
    facts: &[HeldFact],
    equations: bool,
    forms: &mut Arena,
    leaves: &mut Leaves,
    classes: &mut BTreeMap<u64, Option<Class>>,
    steps: &mut Steps<L>,
) -> Result<(), NoMemory>
    requires facts { AreFactsAt arena.now facts.now }
    requires classed { AreClassed arena.now forms.old leaves.old classes.old }
    ensures classed { OnOk result (AreClassed arena.now forms.new leaves.new classes.new) }
    ensures searched { Searched arena.now (HasFacts arena.now facts.now) classes.old classes.new
        steps.old steps.new }
{
    for fact in facts {
        see(arena, fact, equations, forms, leaves, classes, steps)?;
    }
    Ok(())
}

/// The classes of the fact, if it is an equation, or if it is a condition.
#[tactic(auto, using(crate::proofs::FindLemmas::searched_none))]
fn see<L: Ledger>(
    arena: &Arena,
    fact: &HeldFact,
    equations: bool,
    forms: &mut Arena,
    leaves: &mut Leaves,
    classes: &mut BTreeMap<u64, Option<Class>>,
    steps: &mut Steps<L>,
) -> Result<(), NoMemory>
    requires fact { IsFactAt arena.now fact.now }
    requires classed { AreClassed arena.now forms.old leaves.old classes.old }
    ensures classed { OnOk result (AreClassed arena.now forms.new leaves.new classes.new) }
    ensures searched { Searched arena.now (HasFact arena.now fact.now) classes.old classes.new
        steps.old steps.new }
{
    match fact {
        HeldFact::WordIs(a, b) if equations => {
            see_equation(arena, *a, *b, forms, leaves, classes, steps)
        }
        HeldFact::MemIs(a, b) if equations => {
            see_equation(arena, *a, *b, forms, leaves, classes, steps)
        }
        HeldFact::So(c) if !equations => {
            class_of(arena, forms, leaves, classes, *c, None, steps)?;
            Ok(())
        }
        _ => Ok(()),
    }
}

/// The classes of two equal words, or of two equal memories. If the first one was seen, the second
/// gets its class, where that is free, else the first one gets that of the second.
fn see_equation<L: Ledger>(
    arena: &Arena,
    a: u64,
    b: u64,
    forms: &mut Arena,
    leaves: &mut Leaves,
    classes: &mut BTreeMap<u64, Option<Class>>,
    steps: &mut Steps<L>,
) -> Result<(), NoMemory>
    requires kind { AreOneKind arena.now a b }
    requires classed { AreClassed arena.now forms.old leaves.old classes.old }
    ensures classed { OnOk result (AreClassed arena.now forms.new leaves.new classes.new) }
    ensures searched { Searched arena.now (HasTwoTerms arena.now a b) classes.old classes.new
        steps.old steps.new }
{
    if class_in(classes, a).is_some() {
        see_two(arena, a, b, forms, leaves, classes, steps)
    } else {
        see_two(arena, b, a, forms, leaves, classes, steps)
    }
}

/// The class of a word or a memory, and of a second one, which gets the same, where that is free.
fn see_two<L: Ledger>(
    arena: &Arena,
    a: u64,
    b: u64,
    forms: &mut Arena,
    leaves: &mut Leaves,
    classes: &mut BTreeMap<u64, Option<Class>>,
    steps: &mut Steps<L>,
) -> Result<(), NoMemory>
    requires kind { AreOneKind arena.now a b }
    requires classed { AreClassed arena.now forms.old leaves.old classes.old }
    ensures classed { OnOk result (AreClassed arena.now forms.new leaves.new classes.new) }
    ensures searched { Searched arena.now (HasTwoTerms arena.now a b) classes.old classes.new
        steps.old steps.new }
{
    let first = class_of(arena, forms, leaves, classes, a, None, steps)?;
    class_of(arena, forms, leaves, classes, b, first, steps)?;
    Ok(())
}

// ---- lists

/// The facts by their classes, if the two sides of each equation have one.
fn gather(
    alloc: Global,
    arena: &Arena,
    forms: &Arena,
    leaves: &Leaves,
    classes: BTreeMap<u64, Option<Class>>,
    others: &[HeldFact],
) -> Result<Candidates, NoMemory>
    requires others { AreFactsAt arena.now others.now }
    requires classed { AreClassed arena.now forms.now leaves.now classes }
    ensures { IfOk result (λ c. Narrows arena.now others.now c.classes c.lists) }
{
    arena.law_of_nodes();
    forms.law_of_nodes();
    if !are_agreed(&classes, others) {
        return Ok(all_are(alloc));
    }
    let mut lists = BTreeMap::new(alloc);
    let all = list_all(alloc, &classes, others, &mut lists)?;
    if !all {
        return Ok(all_are(alloc));
    }
    Ok(Candidates { classes, lists })
}

/// Whether the two sides of each equation have one class.
fn are_agreed(classes: &BTreeMap<u64, Option<Class>>, facts: &[HeldFact]) -> bool
    ensures { IsTrue result → All (IsAgreed classes.now) facts.now }
{
    for fact in facts {
        if !is_agreed(classes, fact) {
            return false;
        }
    }
    true
}

fn is_agreed(classes: &BTreeMap<u64, Option<Class>>, fact: &HeldFact) -> bool
    ensures { IsTrue result → IsAgreed classes.now fact.now }
{
    match fact {
        HeldFact::WordIs(a, b) => have_one_class(class_in(classes, *a), class_in(classes, *b)),
        HeldFact::MemIs(a, b) => have_one_class(class_in(classes, *a), class_in(classes, *b)),
        _ => true,
    }
}

fn have_one_class(a: Option<u64>, b: Option<u64>) -> bool
    ensures { IsTrue result → AreSame a b }
{
    match a {
        Some(v) => match b {
            Some(w) => v == w,
            None => false,
        },
        None => false,
    }
}

/// Lists the conditions of facts by their classes. Whether all are known.
fn list_all(
    alloc: Global,
    classes: &BTreeMap<u64, Option<Class>>,
    facts: &[HeldFact],
    lists: &mut BTreeMap<u64, List<HeldFact>>,
) -> Result<bool, NoMemory>
    requires from { AreFrom facts.now lists.old }
    ensures from { OnOk result (AreFrom facts.now lists.new) }
    ensures all { IfOk result (λ r. IsTrue r → All (IsFactListed classes.now lists.new) facts.now) }
{
    for fact in facts {
        let known = list_fact(alloc, classes, fact, lists)?;
        if !known {
            return Ok(false);
        }
    }
    Ok(true)
}

/// Lists the condition of a fact, if it is one. Whether its class is known.
fn list_fact(
    alloc: Global,
    classes: &BTreeMap<u64, Option<Class>>,
    fact: &HeldFact,
    lists: &mut BTreeMap<u64, List<HeldFact>>,
) -> Result<bool, NoMemory>
    ensures added { OnOk result (IsAdded lists.old lists.new fact.now) }
    ensures listed { IfOk result (λ r. IsTrue r → IsFactListed classes.now lists.new fact.now) }
{
    match fact {
        HeldFact::So(d) => match class_in(classes, *d) {
            Some(k) => {
                list_condition(alloc, k, *d, lists)?;
                Ok(true)
            }
            None => Ok(false),
        },
        _ => Ok(true),
    }
}

fn list_condition(
    alloc: Global,
    k: u64,
    d: u64,
    lists: &mut BTreeMap<u64, List<HeldFact>>,
) -> Result<(), NoMemory>
    ensures added { OnOk result (IsAdded lists.old lists.new (SoAt d)) }
    ensures there { OnOk result (Contains (listed (get nat_cmp lists.new k)) (SoAt d)) }
{
    let mut list = take_list(alloc, k, lists);
    list.push(HeldFact::So(d))?;
    lists.insert(k, list)?;
    Ok(())
}

/// Takes the facts of a class out.
fn take_list(alloc: Global, k: u64, lists: &mut BTreeMap<u64, List<HeldFact>>) -> List<HeldFact>
    ensures list { result ≡ listed (get nat_cmp lists.old k) }
    ensures updates { Updates nat_cmp lists.old lists.new k Nothing }
{
    match lists.remove(&k) {
        Some(list) => list,
        None => List::new(alloc),
    }
}
