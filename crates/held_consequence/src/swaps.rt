//! Terms that facts let stand for one another, over numbers.

ghost use Rattle.std.specs.Prelude.{◌≡◌, ◌↔◌, ◌⊎◌, ◌+◌, IfOk, IsTrue, List as Items, OnOk, map};
ghost use Rattle.std.specs.List.{Contains};
ghost use Rattle.term_arena.specs.Arena.{IsMemAt, IsWordAt, mem_of, word_of};
ghost use Rattle.triple_kernel.specs.Tree.{FactTree, MemIs, WordIs};
ghost use Rattle.triple_kernel.specs.Swap.{MemsStated, SwapMem, SwapWord, WordsStated};
ghost use Rattle.held_terms.specs.Held.{AreFactsAt, IsFactAt, fact_of};
ghost use Rattle.held_consequence.specs.inner.Table.{AreDecided, HasBoth, IsKnown, Went};
ghost use Rattle.held_consequence.specs.inner.Pairs.{MemPairsAre, MemPairsFit, MemPairsSwap, WordPairsAre, WordPairsFit, WordPairsSwap, MemPairsUnder, WordPairsUnder};

use crate::table::Table;
use held_terms::{Facts, same_mem, same_word};
use rv_words::NoMemory;
use std::sync::ledger::Ledger;
use term_arena::{Arena, Node, Steps};

/// The children of two words of one form, in pairs.
#[derive(Clone, Copy)]
pub(crate) enum WordPairs {
    Differ,
    One(u64, u64),
    Two(u64, u64, u64, u64),
    Load(u64, u64, u64, u64),
}

/// The children of two memories of one form, in pairs.
#[derive(Clone, Copy)]
pub(crate) enum MemPairs {
    Differ,
    Store(u64, u64, u64, u64, u64, u64),
}

fn word_pairs_of(n: Node, m: Node) -> WordPairs
    ensures { WordPairsAre n m result }
{
    match n {
        Node::Bin(op, x, y) => match m {
            Node::Bin(o, u, v) => {
                if op == o {
                    WordPairs::Two(x, u, y, v)
                } else {
                    WordPairs::Differ
                }
            }
            _ => WordPairs::Differ,
        },
        Node::Extend(ext, x) => match m {
            Node::Extend(e, u) => {
                if ext == e {
                    WordPairs::One(x, u)
                } else {
                    WordPairs::Differ
                }
            }
            _ => WordPairs::Differ,
        },
        Node::Load(width, p, x) => match m {
            Node::Load(w, q, u) => {
                if width == w {
                    WordPairs::Load(p, q, x, u)
                } else {
                    WordPairs::Differ
                }
            }
            _ => WordPairs::Differ,
        },
        _ => WordPairs::Differ,
    }
}

fn mem_pairs_of(n: Node, m: Node) -> MemPairs
    ensures { MemPairsAre n m result }
{
    match n {
        Node::Store(width, p, x, y) => match m {
            Node::Store(w, q, u, v) => {
                if width == w {
                    MemPairs::Store(p, q, x, u, y, v)
                } else {
                    MemPairs::Differ
                }
            }
            _ => MemPairs::Differ,
        },
        _ => MemPairs::Differ,
    }
}

/// The children of two words, in pairs.
fn word_pairs<L: Ledger>(arena: &Arena, a: u64, b: u64, steps: &mut Steps<L>) -> WordPairs
    requires a { IsWordAt arena.now a }
    requires b { IsWordAt arena.now b }
    ensures fit { WordPairsFit arena.now a result }
    ensures under { WordPairsUnder arena.now a b result }
    ensures split { (facts : Items FactTree)
        → SwapWord facts (word_of arena.now a) (word_of arena.now b)
        ↔ (WordsStated facts (word_of arena.now a) (word_of arena.now b)
        ⊎ WordPairsSwap facts arena.now result) }
    ensures steps { steps.new ≡ steps.old + 2 }
{
    let n = arena.node(a, steps);
    let m = arena.node(b, steps);
    word_pairs_of(n, m)
}

/// The children of two memories, in pairs.
fn mem_pairs<L: Ledger>(arena: &Arena, a: u64, b: u64, steps: &mut Steps<L>) -> MemPairs
    requires a { IsMemAt arena.now a }
    requires b { IsMemAt arena.now b }
    ensures fit { MemPairsFit arena.now a result }
    ensures under { MemPairsUnder arena.now a b result }
    ensures split { (facts : Items FactTree)
        → SwapMem facts (mem_of arena.now a) (mem_of arena.now b)
        ↔ (MemsStated facts (mem_of arena.now a) (mem_of arena.now b)
        ⊎ MemPairsSwap facts arena.now result) }
    ensures steps { steps.new ≡ steps.old + 2 }
{
    let n = arena.node(a, steps);
    let m = arena.node(b, steps);
    mem_pairs_of(n, m)
}

/// Whether two words are the same, or stated to be equal, or of one form with children that may be
/// swapped. Each pair that is known is looked up, and each other one is kept.
#[cycle(swaps)]
#[tactic(auto, using(triple_kernel::proofs::StatedLemmas::stated_words_swap, triple_kernel::proofs::StatedLemmas::stated_mems_swap, crate::proofs::TableLemmas::known_child, crate::proofs::TableLemmas::known_next, crate::proofs::TableLemmas::known_after, crate::proofs::TableLemmas::known_pushed))]
pub fn swap_word<L: Ledger>(
    arena: &Arena,
    facts: &Facts,
    known: &mut Table,
    a: u64,
    b: u64,
    steps: &mut Steps<L>,
) -> Result<bool, NoMemory>
    requires facts { AreFactsAt arena.now facts.now }
    requires known { IsKnown arena.now (map (fact_of arena.now) facts.now) known.old (a + 1) }
    requires a { IsWordAt arena.now a }
    requires b { IsWordAt arena.now b }
    ensures answer { IfOk result (λ r.
        IsTrue r
        ↔ SwapWord (map (fact_of arena.now) facts.now) (word_of arena.now a)
        (word_of arena.now b)) }
    ensures decided { OnOk result (AreDecided arena.now (map (fact_of arena.now) facts.now)
        known.old known.new) }
    ensures went { Went arena.now (HasBoth arena.now a b) known.old known.new steps.old steps.new }
{
    if are_words_stated(arena, facts, a, b) {
        return Ok(true);
    }
    if let Some(v) = known.answer(a, b) {
        return Ok(v);
    }
    let at = known.len();
    known.push((a, b, false))?;
    let v = swap_below_words(arena, facts, known, a, b, steps)?;
    known.set(at, (a, b, v));
    Ok(v)
}

/// Whether two words are of one form with children that may be swapped.
#[cycle(swaps)]
#[tactic(auto, using(triple_kernel::proofs::StatedLemmas::stated_words_swap, triple_kernel::proofs::StatedLemmas::stated_mems_swap, crate::proofs::TableLemmas::known_child, crate::proofs::TableLemmas::known_next, crate::proofs::TableLemmas::known_after, crate::proofs::TableLemmas::known_pushed))]
fn swap_below_words<L: Ledger>(
    arena: &Arena,
    facts: &Facts,
    known: &mut Table,
    a: u64,
    b: u64,
    steps: &mut Steps<L>,
) -> Result<bool, NoMemory>
    requires facts { AreFactsAt arena.now facts.now }
    requires known { IsKnown arena.now (map (fact_of arena.now) facts.now) known.old a }
    requires a { IsWordAt arena.now a }
    requires b { IsWordAt arena.now b }
    ensures answer { IfOk result (λ r.
        SwapWord (map (fact_of arena.now) facts.now) (word_of arena.now a) (word_of arena.now b)
        ↔ (WordsStated (map (fact_of arena.now) facts.now) (word_of arena.now a)
        (word_of arena.now b) ⊎ IsTrue r)) }
    ensures decided { OnOk result (AreDecided arena.now (map (fact_of arena.now) facts.now)
        known.old known.new) }
    ensures went { Went arena.now (HasBoth arena.now a b) known.old known.new (steps.old + 2)
        steps.new }
{
    match word_pairs(arena, a, b, steps) {
        WordPairs::Differ => Ok(false),
        WordPairs::One(x, u) => {
            let only = swap_word(arena, facts, known, x, u, steps)?;
            Ok(only)
        }
        WordPairs::Two(x, u, y, v) => {
            let first = swap_word(arena, facts, known, x, u, steps)?;
            if !first {
                return Ok(false);
            }
            let second = swap_word(arena, facts, known, y, v, steps)?;
            Ok(second)
        }
        WordPairs::Load(p, q, x, u) => {
            let base = swap_mem(arena, facts, known, p, q, steps)?;
            if !base {
                return Ok(false);
            }
            let place = swap_word(arena, facts, known, x, u, steps)?;
            Ok(place)
        }
    }
}

/// Whether two memories are the same, or stated to be equal, or stores of one width with children
/// that may be swapped.
#[cycle(swaps)]
#[tactic(auto, using(triple_kernel::proofs::StatedLemmas::stated_words_swap, triple_kernel::proofs::StatedLemmas::stated_mems_swap, crate::proofs::TableLemmas::known_child, crate::proofs::TableLemmas::known_next, crate::proofs::TableLemmas::known_after, crate::proofs::TableLemmas::known_pushed))]
pub fn swap_mem<L: Ledger>(
    arena: &Arena,
    facts: &Facts,
    known: &mut Table,
    a: u64,
    b: u64,
    steps: &mut Steps<L>,
) -> Result<bool, NoMemory>
    requires facts { AreFactsAt arena.now facts.now }
    requires known { IsKnown arena.now (map (fact_of arena.now) facts.now) known.old (a + 1) }
    requires a { IsMemAt arena.now a }
    requires b { IsMemAt arena.now b }
    ensures answer { IfOk result (λ r.
        IsTrue r
        ↔ SwapMem (map (fact_of arena.now) facts.now) (mem_of arena.now a) (mem_of arena.now b)) }
    ensures decided { OnOk result (AreDecided arena.now (map (fact_of arena.now) facts.now)
        known.old known.new) }
    ensures went { Went arena.now (HasBoth arena.now a b) known.old known.new steps.old steps.new }
{
    if are_mems_stated(arena, facts, a, b) {
        return Ok(true);
    }
    if let Some(v) = known.answer(a, b) {
        return Ok(v);
    }
    let at = known.len();
    known.push((a, b, false))?;
    let v = swap_below_mems(arena, facts, known, a, b, steps)?;
    known.set(at, (a, b, v));
    Ok(v)
}

/// Whether two memories are stores of one width with children that may be swapped.
#[cycle(swaps)]
#[tactic(auto, using(triple_kernel::proofs::StatedLemmas::stated_words_swap, triple_kernel::proofs::StatedLemmas::stated_mems_swap, crate::proofs::TableLemmas::known_child, crate::proofs::TableLemmas::known_next, crate::proofs::TableLemmas::known_after, crate::proofs::TableLemmas::known_pushed))]
fn swap_below_mems<L: Ledger>(
    arena: &Arena,
    facts: &Facts,
    known: &mut Table,
    a: u64,
    b: u64,
    steps: &mut Steps<L>,
) -> Result<bool, NoMemory>
    requires facts { AreFactsAt arena.now facts.now }
    requires known { IsKnown arena.now (map (fact_of arena.now) facts.now) known.old a }
    requires a { IsMemAt arena.now a }
    requires b { IsMemAt arena.now b }
    ensures answer { IfOk result (λ r.
        SwapMem (map (fact_of arena.now) facts.now) (mem_of arena.now a) (mem_of arena.now b)
        ↔ (MemsStated (map (fact_of arena.now) facts.now) (mem_of arena.now a) (mem_of arena.now b)
        ⊎ IsTrue r)) }
    ensures decided { OnOk result (AreDecided arena.now (map (fact_of arena.now) facts.now)
        known.old known.new) }
    ensures went { Went arena.now (HasBoth arena.now a b) known.old known.new (steps.old + 2)
        steps.new }
{
    match mem_pairs(arena, a, b, steps) {
        MemPairs::Differ => Ok(false),
        MemPairs::Store(p, q, x, u, y, v) => {
            let base = swap_mem(arena, facts, known, p, q, steps)?;
            if !base {
                return Ok(false);
            }
            let place = swap_word(arena, facts, known, x, u, steps)?;
            if !place {
                return Ok(false);
            }
            let value = swap_word(arena, facts, known, y, v, steps)?;
            Ok(value)
        }
    }
}

fn are_words_stated(arena: &Arena, facts: &Facts, a: u64, b: u64) -> bool
    requires facts { AreFactsAt arena.now facts.now }
    requires a { IsWordAt arena.now a }
    requires b { IsWordAt arena.now b }
    ensures { IsTrue result
        ↔ WordsStated (map (fact_of arena.now) facts.now) (word_of arena.now a)
        (word_of arena.now b) }
{
    same_word(arena, a, b) || facts.has_words(arena, a, b) || facts.has_words(arena, b, a)
}

fn are_mems_stated(arena: &Arena, facts: &Facts, a: u64, b: u64) -> bool
    requires facts { AreFactsAt arena.now facts.now }
    requires a { IsMemAt arena.now a }
    requires b { IsMemAt arena.now b }
    ensures { IsTrue result
        ↔ MemsStated (map (fact_of arena.now) facts.now) (mem_of arena.now a) (mem_of arena.now b) }
{
    same_mem(arena, a, b) || facts.has_mems(arena, a, b) || facts.has_mems(arena, b, a)
}
