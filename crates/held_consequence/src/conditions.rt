//! Conditions over numbers: whether two are alike by facts.

ghost use Rattle.std.specs.Prelude.{◌≡◌, ◌↔◌, ◌+◌, IfOk, IsTrue, List as Items, OnOk, map};
ghost use Rattle.term_arena.specs.Arena.{IsCondAt, IsMemAt, IsWordAt, cond_of, mem_of, word_of};
ghost use Rattle.triple_kernel.specs.Tree.{FactTree};
ghost use Rattle.triple_kernel.specs.Rules.{Alike, SameAddresses};
ghost use Rattle.held_terms.specs.Held.{AreFactsAt, fact_of};
ghost use Rattle.held_consequence.specs.inner.Table.{AreDecided, HasBoth, IsKnown};
ghost use Rattle.held_consequence.specs.inner.Alone.{AreAllFound};
ghost use Rattle.held_consequence.specs.inner.Following.{CondPairsAlike, CondPairsAre, CondPairsFit, CondPairsUnder, Sought};

use crate::alone::{Found, before_stores};
use crate::swaps::{swap_mem, swap_word};
use crate::table::Table;
use held_terms::Facts;
use rv_words::NoMemory;
use std::collections::BTreeMap;
use std::sync::ledger::Ledger;
use term_arena::{Arena, Node, Steps};

/// The children of two conditions of one form, in pairs.
#[derive(Clone, Copy)]
pub(crate) enum CondPairs {
    Differ,
    Compare(u64, u64, u64, u64),
    Neg(u64, u64),
    Inside(u64, u64, u64, u64),
}

fn cond_pairs_of(n: Node, m: Node) -> CondPairs
    ensures { CondPairsAre n m result }
{
    match n {
        Node::Compare(cmp, x, y) => match m {
            Node::Compare(o, u, v) => {
                if cmp == o {
                    CondPairs::Compare(x, u, y, v)
                } else {
                    CondPairs::Differ
                }
            }
            _ => CondPairs::Differ,
        },
        Node::Neg(x) => match m {
            Node::Neg(u) => CondPairs::Neg(x, u),
            _ => CondPairs::Differ,
        },
        Node::Inside(width, p, x) => match m {
            Node::Inside(w, q, u) => {
                if width == w {
                    CondPairs::Inside(p, q, x, u)
                } else {
                    CondPairs::Differ
                }
            }
            _ => CondPairs::Differ,
        },
        _ => CondPairs::Differ,
    }
}

/// The children of two conditions, in pairs.
fn cond_pairs<L: Ledger>(arena: &Arena, a: u64, b: u64, steps: &mut Steps<L>) -> CondPairs
    requires a { IsCondAt arena.now a }
    requires b { IsCondAt arena.now b }
    ensures fit { CondPairsFit arena.now a result }
    ensures under { CondPairsUnder arena.now a b result }
    ensures steps { steps.new ≡ steps.old + 2 }
    ensures alike { (facts : Items FactTree)
        → Alike facts (cond_of arena.now a) (cond_of arena.now b)
        ↔ CondPairsAlike facts arena.now result }
{
    let n = arena.node(a, steps);
    let m = arena.node(b, steps);
    cond_pairs_of(n, m)
}

/// Whether two conditions have one form, and children that may be swapped. Of a memory of which a
/// condition asks whether it has some bytes, only the addresses count. Each pair is decided once.
#[cycle(alike)]
#[tactic(auto, using(crate::proofs::TableLemmas::known_child, crate::proofs::TableLemmas::known_next, crate::proofs::TableLemmas::known_after, crate::proofs::TableLemmas::known_pushed))]
pub(crate) fn are_alike<L: Ledger>(
    arena: &Arena,
    facts: &Facts,
    known: &mut Table,
    found: &mut BTreeMap<u64, Found>,
    a: u64,
    b: u64,
    steps: &mut Steps<L>,
) -> Result<bool, NoMemory>
    requires facts { AreFactsAt arena.now facts.now }
    requires known { IsKnown arena.now (map (fact_of arena.now) facts.now) known.old (a + 1) }
    requires found { AreAllFound arena.now found.old }
    requires a { IsCondAt arena.now a }
    requires b { IsCondAt arena.now b }
    ensures answer { IfOk result (λ r.
        IsTrue r
        ↔ Alike (map (fact_of arena.now) facts.now) (cond_of arena.now a) (cond_of arena.now b)) }
    ensures decided { OnOk result (AreDecided arena.now (map (fact_of arena.now) facts.now)
        known.old known.new) }
    ensures found { OnOk result (AreAllFound arena.now found.new) }
    ensures sought { Sought arena.now (HasBoth arena.now a b) known.old known.new found.old
        found.new steps.old steps.new }
{
    if let Some(v) = known.answer(a, b) {
        return Ok(v);
    }
    let at = known.len();
    known.push((a, b, false))?;
    let v = are_alike_below(arena, facts, known, found, a, b, steps)?;
    known.set(at, (a, b, v));
    Ok(v)
}

/// Whether two conditions that weren't compared yet are of one form with children that may be
/// swapped.
#[cycle(alike)]
#[tactic(auto, using(crate::proofs::TableLemmas::known_child, crate::proofs::TableLemmas::known_next, crate::proofs::TableLemmas::known_after, crate::proofs::TableLemmas::known_pushed))]
fn are_alike_below<L: Ledger>(
    arena: &Arena,
    facts: &Facts,
    known: &mut Table,
    found: &mut BTreeMap<u64, Found>,
    a: u64,
    b: u64,
    steps: &mut Steps<L>,
) -> Result<bool, NoMemory>
    requires facts { AreFactsAt arena.now facts.now }
    requires known { IsKnown arena.now (map (fact_of arena.now) facts.now) known.old a }
    requires found { AreAllFound arena.now found.old }
    requires a { IsCondAt arena.now a }
    requires b { IsCondAt arena.now b }
    ensures answer { IfOk result (λ r.
        IsTrue r
        ↔ Alike (map (fact_of arena.now) facts.now) (cond_of arena.now a) (cond_of arena.now b)) }
    ensures decided { OnOk result (AreDecided arena.now (map (fact_of arena.now) facts.now)
        known.old known.new) }
    ensures found { OnOk result (AreAllFound arena.now found.new) }
    ensures sought { Sought arena.now (HasBoth arena.now a b) known.old known.new found.old
        found.new (steps.old + 2) steps.new }
{
    match cond_pairs(arena, a, b, steps) {
        CondPairs::Differ => Ok(false),
        CondPairs::Compare(x, u, y, v) => {
            let first = swap_word(arena, facts, known, x, u, steps)?;
            if !first {
                return Ok(false);
            }
            let second = swap_word(arena, facts, known, y, v, steps)?;
            Ok(second)
        }
        CondPairs::Neg(x, u) => {
            let only = are_alike(arena, facts, known, found, x, u, steps)?;
            Ok(only)
        }
        CondPairs::Inside(p, q, x, u) => {
            let base = have_same_addresses(arena, facts, known, found, p, q, steps)?;
            if !base {
                return Ok(false);
            }
            let place = swap_word(arena, facts, known, x, u, steps)?;
            Ok(place)
        }
    }
}

fn have_same_addresses<L: Ledger>(
    arena: &Arena,
    facts: &Facts,
    known: &mut Table,
    found: &mut BTreeMap<u64, Found>,
    m: u64,
    n: u64,
    steps: &mut Steps<L>,
) -> Result<bool, NoMemory>
    requires facts { AreFactsAt arena.now facts.now }
    requires known { IsKnown arena.now (map (fact_of arena.now) facts.now) known.old (m + 1) }
    requires found { AreAllFound arena.now found.old }
    requires m { IsMemAt arena.now m }
    requires n { IsMemAt arena.now n }
    ensures answer { IfOk result (λ r.
        IsTrue r
        ↔ SameAddresses (map (fact_of arena.now) facts.now) (mem_of arena.now m)
        (mem_of arena.now n)) }
    ensures decided { OnOk result (AreDecided arena.now (map (fact_of arena.now) facts.now)
        known.old known.new) }
    ensures found { OnOk result (AreAllFound arena.now found.new) }
    ensures sought { Sought arena.now (HasBoth arena.now m n) known.old known.new found.old
        found.new steps.old steps.new }
{
    let same = swap_mem(arena, facts, known, m, n, steps)?;
    if same {
        return Ok(true);
    }
    let p = before_stores(arena, found, m, steps)?;
    let q = before_stores(arena, found, n, steps)?;
    let before = swap_mem(arena, facts, known, p, q, steps)?;
    Ok(before)
}
