//! Facts that follow from others, over numbers.

ghost use Rattle.std.specs.Prelude.{◌≡◌, ◌↔◌, ◌⊎◌, ◌+◌, ◌*◌, ◌≤◌, IfOk, IsTrue, List as Items, OnOk, length, map};
ghost use Rattle.std.specs.List.{Contains};
ghost use Rattle.word_terms.specs.Tree.{CondTree};
ghost use Rattle.term_arena.specs.Arena.{IsCondAt, Tree, cond_of};
ghost use Rattle.triple_kernel.specs.Tree.{So};
ghost use Rattle.triple_kernel.specs.Rules.{Alike, AreAmongOrFollow, Follows, IsAlwaysTrue};
ghost use Rattle.held_terms.specs.Held.{AreFactsAt, IsFactAt, fact_of};
ghost use Rattle.held_consequence.specs.inner.SideTables.{AreRight};
ghost use Rattle.held_terms.specs.Subterms.{HasFacts};
ghost use Rattle.held_consequence.specs.inner.Alone.{AreAllFound};
ghost use Rattle.held_consequence.specs.inner.Classes.{Narrows};
ghost use Rattle.held_consequence.specs.inner.Following.{HasCondAnd, HasCondAndFact, HasFactAnd, Sought};

use crate::alone::{Found, is_always_true};
use crate::candidates::{Candidates, candidates_of, classify};
use crate::conditions::are_alike;
use crate::sides::{swap_memories, swap_words};
use crate::table::Table;
use held_terms::{Facts, HeldFact};
use rv_words::NoMemory;
use std::alloc::Global;
use std::collections::BTreeMap;
use std::sync::ledger::Ledger;
use term_arena::{Arena, Steps};

/// Whether each of the facts is among the others or follows from them. Each pair of numbers takes
/// two steps at most, and each number two more.
#[tactic(auto, using(crate::proofs::SeekLemmas::all_none))]
pub fn are_among_or_follow<L: Ledger>(
    alloc: Global,
    arena: &Arena,
    facts: &[HeldFact],
    others: &Facts,
    steps: &mut Steps<L>,
) -> Result<bool, NoMemory>
    requires facts { AreFactsAt arena.now facts.now }
    requires others { AreFactsAt arena.now others.now }
    ensures answer { IfOk result (λ r.
        IsTrue r
        ↔ AreAmongOrFollow (map (fact_of arena.now) facts.now)
        (map (fact_of arena.now) others.now)) }
    ensures steps { (ts : Items Tree)
        → HasFacts arena.now facts.now ts
        → HasFacts arena.now others.now ts
        → steps.new ≤ steps.old + (2 * (length ts * length ts) + 2 * length ts) }
{
    arena.law_of_nodes();
    let candidates = classify(alloc, arena, facts, others.as_slice(), steps)?;
    let mut known = Table::new(alloc);
    let mut found = BTreeMap::new(alloc);
    for fact in facts {
        let holds = is_among_or_follows(
            arena,
            others,
            &candidates,
            &mut known,
            &mut found,
            fact,
            steps,
        )?;
        if !holds {
            return Ok(false);
        }
    }
    Ok(true)
}

/// Whether the fact is among the others or follows from them.
fn is_among_or_follows<L: Ledger>(
    arena: &Arena,
    others: &Facts,
    candidates: &Candidates,
    known: &mut Table,
    found: &mut BTreeMap<u64, Found>,
    fact: &HeldFact,
    steps: &mut Steps<L>,
) -> Result<bool, NoMemory>
    requires others { AreFactsAt arena.now others.now }
    requires candidates { Narrows arena.now others.now candidates.now.classes candidates.now.lists }
    requires right { AreRight arena.now (map (fact_of arena.now) others.now) known.old }
    requires found { AreAllFound arena.now found.old }
    requires fact { IsFactAt arena.now fact.now }
    ensures answer { IfOk result (λ r.
        IsTrue r
        ↔ (Contains (map (fact_of arena.now) others.now) (fact_of arena.now fact.now)
        ⊎ Follows (map (fact_of arena.now) others.now) (fact_of arena.now fact.now))) }
    ensures right { OnOk result (AreRight arena.now (map (fact_of arena.now) others.now)
        known.new) }
    ensures found { OnOk result (AreAllFound arena.now found.new) }
    ensures sought { Sought arena.now (HasFactAnd arena.now fact.now others.now) known.old known.new
        found.old found.new steps.old steps.new }
{
    if others.has(arena, fact) {
        return Ok(true);
    }
    let holds = follows(arena, others, candidates, known, found, fact, steps)?;
    Ok(holds)
}

/// Whether the fact follows from the others.
fn follows<L: Ledger>(
    arena: &Arena,
    others: &Facts,
    candidates: &Candidates,
    known: &mut Table,
    found: &mut BTreeMap<u64, Found>,
    fact: &HeldFact,
    steps: &mut Steps<L>,
) -> Result<bool, NoMemory>
    requires others { AreFactsAt arena.now others.now }
    requires candidates { Narrows arena.now others.now candidates.now.classes candidates.now.lists }
    requires right { AreRight arena.now (map (fact_of arena.now) others.now) known.old }
    requires found { AreAllFound arena.now found.old }
    requires fact { IsFactAt arena.now fact.now }
    ensures answer { IfOk result (λ r.
        IsTrue r ↔ Follows (map (fact_of arena.now) others.now) (fact_of arena.now fact.now)) }
    ensures right { OnOk result (AreRight arena.now (map (fact_of arena.now) others.now)
        known.new) }
    ensures found { OnOk result (AreAllFound arena.now found.new) }
    ensures sought { Sought arena.now (HasFactAnd arena.now fact.now others.now) known.old known.new
        found.old found.new steps.old steps.new }
{
    match fact {
        HeldFact::WordIs(a, b) => {
            let same = swap_words(arena, others, known, *a, *b, steps)?;
            Ok(same)
        }
        HeldFact::MemIs(a, b) => {
            let same = swap_memories(arena, others, known, *a, *b, steps)?;
            Ok(same)
        }
        HeldFact::So(c) => {
            let holds = condition_follows(arena, others, candidates, known, found, *c, steps)?;
            Ok(holds)
        }
        HeldFact::Gives { .. } => Ok(false),
    }
}

fn condition_follows<L: Ledger>(
    arena: &Arena,
    others: &Facts,
    candidates: &Candidates,
    known: &mut Table,
    found: &mut BTreeMap<u64, Found>,
    c: u64,
    steps: &mut Steps<L>,
) -> Result<bool, NoMemory>
    requires others { AreFactsAt arena.now others.now }
    requires candidates { Narrows arena.now others.now candidates.now.classes candidates.now.lists }
    requires right { AreRight arena.now (map (fact_of arena.now) others.now) known.old }
    requires found { AreAllFound arena.now found.old }
    requires there { IsCondAt arena.now c }
    ensures answer { IfOk result (λ r.
        IsTrue r
        ↔ (IsAlwaysTrue (cond_of arena.now c)
        ⊎ ((d : CondTree)
        × Contains (map (fact_of arena.now) others.now) (So d)
        × Alike (map (fact_of arena.now) others.now) (cond_of arena.now c) d))) }
    ensures right { OnOk result (AreRight arena.now (map (fact_of arena.now) others.now)
        known.new) }
    ensures found { OnOk result (AreAllFound arena.now found.new) }
    ensures sought { Sought arena.now (HasCondAnd arena.now c others.now) known.old known.new
        found.old found.new steps.old steps.new }
{
    let always = is_always_true(arena, found, c, steps)?;
    if always {
        return Ok(true);
    }
    let given = candidates_of(arena, candidates, others.as_slice(), c);
    let like = is_like_some(arena, others, given, known, found, c, steps)?;
    Ok(like)
}

/// Whether one of those given says that a condition is true which is alike by the facts.
#[tactic(auto, using(crate::proofs::SeekLemmas::sought_none))]
fn is_like_some<L: Ledger>(
    arena: &Arena,
    facts: &Facts,
    given: &[HeldFact],
    known: &mut Table,
    found: &mut BTreeMap<u64, Found>,
    c: u64,
    steps: &mut Steps<L>,
) -> Result<bool, NoMemory>
    requires facts { AreFactsAt arena.now facts.now }
    requires given { AreFactsAt arena.now given.now }
    requires right { AreRight arena.now (map (fact_of arena.now) facts.now) known.old }
    requires found { AreAllFound arena.now found.old }
    requires there { IsCondAt arena.now c }
    ensures answer { IfOk result (λ r.
        IsTrue r
        ↔ ((d : CondTree)
        × Contains (map (fact_of arena.now) given.now) (So d)
        × Alike (map (fact_of arena.now) facts.now) (cond_of arena.now c) d)) }
    ensures right { OnOk result (AreRight arena.now (map (fact_of arena.now) facts.now) known.new) }
    ensures found { OnOk result (AreAllFound arena.now found.new) }
    ensures sought { Sought arena.now (HasCondAnd arena.now c given.now) known.old known.new
        found.old found.new steps.old steps.new }
{
    for fact in given {
        let like = is_like(arena, facts, known, found, c, fact, steps)?;
        if like {
            return Ok(true);
        }
    }
    Ok(false)
}

fn is_like<L: Ledger>(
    arena: &Arena,
    facts: &Facts,
    known: &mut Table,
    found: &mut BTreeMap<u64, Found>,
    c: u64,
    fact: &HeldFact,
    steps: &mut Steps<L>,
) -> Result<bool, NoMemory>
    requires facts { AreFactsAt arena.now facts.now }
    requires right { AreRight arena.now (map (fact_of arena.now) facts.now) known.old }
    requires found { AreAllFound arena.now found.old }
    requires there { IsCondAt arena.now c }
    requires fact { IsFactAt arena.now fact.now }
    ensures answer { IfOk result (λ r.
        IsTrue r
        ↔ ((d : CondTree)
        × (fact_of arena.now fact.now ≡ So d)
        × Alike (map (fact_of arena.now) facts.now) (cond_of arena.now c) d)) }
    ensures right { OnOk result (AreRight arena.now (map (fact_of arena.now) facts.now) known.new) }
    ensures found { OnOk result (AreAllFound arena.now found.new) }
    ensures sought { Sought arena.now (HasCondAndFact arena.now c fact.now) known.old known.new
        found.old found.new steps.old steps.new }
{
    match fact {
        HeldFact::So(d) => {
            let alike = are_alike(arena, facts, known, found, c, *d, steps)?;
            Ok(alike)
        }
        _ => Ok(false),
    }
}
