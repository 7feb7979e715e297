//! Facts that are looked up by the order of their numbers.

ghost use Rattle.std.specs.Prelude.{◌≡◌, ◌↔◌, ◌<◌, IfOk, IfSome, IsTrue, map};
ghost use Rattle.std.specs.List.{Contains};
ghost use Rattle.std.specs.Vec.{vec_items};
ghost use Rattle.term_arena.specs.Arena.{IsMemAt, IsWordAt, mem_of, word_of};
ghost use Rattle.triple_kernel.specs.Tree.{MemIs, WordIs};
ghost use Rattle.triple_kernel.specs.Rules.{AreAmong};
ghost use Rattle.held_terms.specs.declared.held.HeldFact.TheVariants.{Gives};
ghost use Rattle.held_terms.specs.Held.{AreFactsAt, IsFactAt, fact_of};
ghost use Rattle.held_terms.specs.inner.Numbers.{AreListed, numbers_of};

use crate::held::{HeldFact, HeldValues};
use crate::same::{is_among, same_mem, same_word};
use rv_words::NoMemory;
use std::alloc::Global;
use std::collections::BTreeSet;
use std::marker::Model;
use term_arena::Arena;

/// How many facts are looked through one after the other.
pub(crate) const FEW_FACTS: usize = 8;

/// What the numbers of each form of facts begin with.
const WORD_IS: u64 = 0;

const MEM_IS: u64 = 1;

const SO: u64 = 2;

const GIVES: u64 = 3;

/// Facts. Where there are more than a few, and memory for it, the numbers of each one stand in
/// order, so that one is looked up in as many comparisons as the logarithm of their number.
#[derive(Drop)]
pub struct Facts<'f> {
    alloc: Global,
    items: &'f [HeldFact],
    index: Option<BTreeSet<Vec<u64>>>,
}

impl<'f> Model for Facts<'f> {
    ghost use Rattle.std.specs.Prelude.{List as Items, IfSome, map};
    ghost use Rattle.std.specs.Vec.{vec_items};
    ghost use Rattle.held_terms.specs.declared.held.HeldFact.{HeldFact as FactOf};
    ghost use Rattle.held_terms.specs.inner.Numbers.{AreListed};

    ghost Value = { Items FactOf };

    ghost view = { λ f. f.items.now };

    ghost invariant = { λ f. IfSome f.index (λ s. AreListed f.items.now (map vec_items s.keys)) };
}

impl<'f> Facts<'f> {
    /// The facts, of which about so many are to be looked up.
    pub fn new(alloc: Global, items: &'f [HeldFact], lookups: usize) -> Facts<'f>
        ensures { result ≡ items.now }
    {
        let index = index_of_many(alloc, items, lookups);
        Facts {
            alloc,
            items,
            index,
        }
    }

    /// All of them, in their order.
    pub fn as_slice(&self) -> &'f [HeldFact]
        ensures { result.now ≡ self.now }
    {
        self.items
    }

    /// Whether the fact is among them.
    pub fn has(&self, arena: &Arena, fact: &HeldFact) -> bool
        requires facts { AreFactsAt arena.now self.now }
        requires fact { IsFactAt arena.now fact.now }
        ensures { IsTrue result
            ↔ Contains (map (fact_of arena.now) self.now) (fact_of arena.now fact.now) }
    {
        arena.law_of_nodes();
        match self.is_listed(fact) {
            Some(listed) => listed,
            None => is_among(arena, fact, self.items),
        }
    }

    /// Whether each of the facts is among them.
    pub fn has_all(&self, arena: &Arena, facts: &[HeldFact]) -> bool
        requires own { AreFactsAt arena.now self.now }
        requires facts { AreFactsAt arena.now facts.now }
        ensures { IsTrue result
            ↔ AreAmong (map (fact_of arena.now) facts.now) (map (fact_of arena.now) self.now) }
    {
        for fact in facts {
            if !self.has(arena, fact) {
                return false;
            }
        }
        true
    }

    /// Whether it is among them that one word is another.
    pub fn has_words(&self, arena: &Arena, a: u64, b: u64) -> bool
        requires facts { AreFactsAt arena.now self.now }
        requires a { IsWordAt arena.now a }
        requires b { IsWordAt arena.now b }
        ensures { IsTrue result
            ↔ Contains (map (fact_of arena.now) self.now)
            (WordIs (word_of arena.now a) (word_of arena.now b)) }
    {
        arena.law_of_nodes();
        match &self.index {
            Some(index) => lists(index, &[WORD_IS, a, b]),
            None => is_word_among(arena, self.items, a, b),
        }
    }

    /// Whether it is among them that one memory is another.
    pub fn has_mems(&self, arena: &Arena, a: u64, b: u64) -> bool
        requires facts { AreFactsAt arena.now self.now }
        requires a { IsMemAt arena.now a }
        requires b { IsMemAt arena.now b }
        ensures { IsTrue result
            ↔ Contains (map (fact_of arena.now) self.now)
            (MemIs (mem_of arena.now a) (mem_of arena.now b)) }
    {
        arena.law_of_nodes();
        match &self.index {
            Some(index) => lists(index, &[MEM_IS, a, b]),
            None => is_mem_among(arena, self.items, a, b),
        }
    }

    /// Whether the fact's numbers are listed, if that can be told.
    fn is_listed(&self, fact: &HeldFact) -> Option<bool>
        ensures { IfSome result (λ r.
            IsTrue r ↔ Contains (map numbers_of self.now) (numbers_of fact.now)) }
    {
        match &self.index {
            Some(index) => is_listed_in(self.alloc, index, fact),
            None => None,
        }
    }
}

/// The numbers of all facts, where there are more than a few of them and of look-ups, and memory
/// for it.
fn index_of_many(alloc: Global, facts: &[HeldFact], lookups: usize) -> Option<BTreeSet<Vec<u64>>>
    ensures { IfSome result (λ s. AreListed facts.now (map vec_items s.keys)) }
{
    if facts.len() <= FEW_FACTS || lookups <= FEW_FACTS {
        return None;
    }
    index_of(alloc, facts).ok()
}

/// The numbers of all facts.
fn index_of(alloc: Global, facts: &[HeldFact]) -> Result<BTreeSet<Vec<u64>>, NoMemory>
    ensures { IfOk result (λ s. AreListed facts.now (map vec_items s.keys)) }
{
    let mut index = BTreeSet::new(alloc);
    for fact in facts {
        let numbers = numbers_of(alloc, fact)?;
        index.insert(numbers)?;
    }
    Ok(index)
}

/// The fact's form and its numbers, which tell it from each other one.
pub(crate) fn numbers_of(alloc: Global, fact: &HeldFact) -> Result<Vec<u64>, NoMemory>
    ensures { IfOk result (λ v. v.items ≡ numbers_of fact.now) }
{
    match fact {
        HeldFact::WordIs(a, b) => copied(alloc, &[WORD_IS, *a, *b]),
        HeldFact::MemIs(a, b) => copied(alloc, &[MEM_IS, *a, *b]),
        HeldFact::So(c) => copied(alloc, &[SO, *c]),
        HeldFact::Gives {
            def,
            exit,
            args,
            results,
        } => numbers_of_gives(alloc, *def, *exit, args, results),
    }
}

fn numbers_of_gives(
    alloc: Global,
    def: u32,
    exit: u32,
    args: &HeldValues,
    results: &HeldValues,
) -> Result<Vec<u64>, NoMemory>
    ensures { IfOk result (λ v. v.items ≡ numbers_of (Gives def exit args.now results.now)) }
{
    let head = [
        GIVES,
        u64::from(def),
        u64::from(exit),
        args.words.len() as u64,
        args.mems.len() as u64,
        results.words.len() as u64,
    ];
    let mut numbers = copied(alloc, &head)?;
    numbers.extend_from_slice(args.words.as_slice())?;
    numbers.extend_from_slice(args.mems.as_slice())?;
    numbers.extend_from_slice(results.words.as_slice())?;
    numbers.extend_from_slice(results.mems.as_slice())?;
    Ok(numbers)
}

fn copied(alloc: Global, numbers: &[u64]) -> Result<Vec<u64>, NoMemory>
    ensures { IfOk result (λ v. v.items ≡ numbers.now) }
{
    Ok(Vec::from_slice(alloc, numbers)?)
}

/// Whether the fact's numbers are listed, if there is memory for them.
fn is_listed_in(alloc: Global, index: &BTreeSet<Vec<u64>>, fact: &HeldFact) -> Option<bool>
    ensures { IfSome result (λ r.
        IsTrue r ↔ Contains (map vec_items index.now.keys) (numbers_of fact.now)) }
{
    match numbers_of(alloc, fact) {
        Ok(numbers) => Some(lists(index, numbers.as_slice())),
        Err(_) => None,
    }
}

/// Whether those numbers are listed.
fn lists(index: &BTreeSet<Vec<u64>>, numbers: &[u64]) -> bool
    ensures { IsTrue result ↔ Contains (map vec_items index.now.keys) numbers.now }
{
    index.contains(numbers)
}

/// Whether one of the facts says that one word is another.
#[tactic(auto, using(triple_kernel::proofs::Among::is_among, triple_kernel::proofs::Among::not_among_more))]
fn is_word_among(arena: &Arena, facts: &[HeldFact], a: u64, b: u64) -> bool
    requires facts { AreFactsAt arena.now facts.now }
    requires a { IsWordAt arena.now a }
    requires b { IsWordAt arena.now b }
    ensures { IsTrue result
        ↔ Contains (map (fact_of arena.now) facts.now)
        (WordIs (word_of arena.now a) (word_of arena.now b)) }
{
    for fact in facts {
        if is_word_fact(arena, fact, a, b) {
            return true;
        }
    }
    false
}

fn is_word_fact(arena: &Arena, fact: &HeldFact, a: u64, b: u64) -> bool
    requires fact { IsFactAt arena.now fact.now }
    requires a { IsWordAt arena.now a }
    requires b { IsWordAt arena.now b }
    ensures { IsTrue result
        ↔ (fact_of arena.now fact.now ≡ WordIs (word_of arena.now a) (word_of arena.now b)) }
{
    match fact {
        HeldFact::WordIs(x, y) => same_word(arena, *x, a) && same_word(arena, *y, b),
        _ => false,
    }
}

/// Whether one of the facts says that one memory is another.
#[tactic(auto, using(triple_kernel::proofs::Among::is_among, triple_kernel::proofs::Among::not_among_more))]
fn is_mem_among(arena: &Arena, facts: &[HeldFact], a: u64, b: u64) -> bool
    requires facts { AreFactsAt arena.now facts.now }
    requires a { IsMemAt arena.now a }
    requires b { IsMemAt arena.now b }
    ensures { IsTrue result
        ↔ Contains (map (fact_of arena.now) facts.now)
        (MemIs (mem_of arena.now a) (mem_of arena.now b)) }
{
    for fact in facts {
        if is_mem_fact(arena, fact, a, b) {
            return true;
        }
    }
    false
}

fn is_mem_fact(arena: &Arena, fact: &HeldFact, a: u64, b: u64) -> bool
    requires fact { IsFactAt arena.now fact.now }
    requires a { IsMemAt arena.now a }
    requires b { IsMemAt arena.now b }
    ensures { IsTrue result
        ↔ (fact_of arena.now fact.now ≡ MemIs (mem_of arena.now a) (mem_of arena.now b)) }
{
    match fact {
        HeldFact::MemIs(x, y) => same_mem(arena, *x, a) && same_mem(arena, *y, b),
        _ => false,
    }
}
