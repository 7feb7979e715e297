//! The facts of a way, which are looked up by the order of their numbers.

ghost use Rattle.std.specs.Prelude.{◌≡◌, ◌↔◌, ◌+◌, ◌<◌, ◌++◌, [], ℕ, IfNone, IfSome, IsTrue, OnErr, OnOk, Some as Just, length, map, slice_get, take};
ghost use Rattle.std.specs.List.{Contains};
ghost use Rattle.std.specs.Vec.{vec_items};
ghost use Rattle.held_terms.specs.Held.{AreFactsAt, IsFactAt, fact_of};
ghost use Rattle.held_terms.specs.inner.Numbers.{numbers_of};
ghost use Rattle.held_terms.specs.inner.Ways.{HasPlace, IsIndexed, IsPlaced, found_at};

use crate::facts::{FEW_FACTS, numbers_of};
use crate::held::HeldFact;
use crate::missing::is_at;
use crate::same::same_fact;
use rv_words::{List, NoMemory};
use std::alloc::Global;
use std::collections::BTreeMap;
use std::marker::Model;
use term_arena::Arena;

/// Facts that come and go at the end. The first ones are indexed: for the numbers of each, the
/// index has the place where it came first. A place stays in the index where its fact is gone, so
/// what is found there is compared.
#[derive(Drop)]
pub struct Way {
    alloc: Global,
    facts: List<HeldFact>,
    indexed: usize,
    index: BTreeMap<Vec<u64>, usize>,
}

impl Model for Way {
    ghost use Rattle.std.specs.Prelude.{List as Items};
    ghost use Rattle.std.specs.Vec.{vec_items};
    ghost use Rattle.held_terms.specs.declared.held.HeldFact.{HeldFact as FactOf};
    ghost use Rattle.held_terms.specs.inner.Ways.{IsIndexed, found_at};

    ghost Value = { Items FactOf };

    ghost view = { λ w. w.facts };

    ghost invariant = { λ w. IsIndexed w.facts w.indexed (found_at vec_items w.index.entries) };
}

impl Way {
    /// No facts yet.
    pub fn new(alloc: Global) -> Way
        ensures { result ≡ [] }
    {
        Way {
            alloc,
            facts: List::new(alloc),
            indexed: 0,
            index: BTreeMap::new(alloc),
        }
    }

    /// How many facts there are.
    pub fn len(&self) -> usize
        ensures { result ≡ length self.now }
    {
        self.facts.len()
    }

    /// Adds the facts at the end.
    pub fn append(&mut self, more: List<HeldFact>) -> Result<(), NoMemory>
        ensures ok { OnOk result (self.new ≡ self.old ++ more) }
        ensures err { OnErr result (self.new ≡ self.old) }
    {
        self.facts.append(more)?;
        Ok(())
    }

    /// Drops the last facts, up to that many.
    pub fn shorten(&mut self, length: usize)
        ensures { self.new ≡ take length self.old }
    {
        self.facts.truncate(length);
        self.indexed = self.indexed.min(length);
    }

    /// Indexes the facts that aren't yet, as far as there is memory for that, where there are more
    /// than a few.
    pub fn index(&mut self, arena: &Arena)
        requires { AreFactsAt arena.now self.old }
        ensures { self.new ≡ self.old }
    {
        if self.facts.len() > FEW_FACTS {
            self.indexed = add_places(
                self.alloc,
                arena,
                self.facts.as_slice(),
                self.indexed,
                &mut self.index,
            );
        }
    }

    /// A place at which the fact is on the way.
    pub fn place(&self, arena: &Arena, fact: &HeldFact) -> Option<usize>
        requires own { AreFactsAt arena.now self.now }
        requires fact { IsFactAt arena.now fact.now }
        ensures some { IfSome result (λ place.
            slice_get (map (fact_of arena.now) self.now) place
            ≡ Just (fact_of arena.now fact.now)) }
        ensures none { IfNone result (Contains (map (fact_of arena.now) self.now)
            (fact_of arena.now fact.now)
            → ⊥) }
    {
        place_over(
            self.alloc,
            arena,
            self.facts.as_slice(),
            &self.index,
            self.indexed,
            fact,
        )
    }
}

/// A place at which the fact is on the way, of which so many facts are indexed.
fn place_over(
    alloc: Global,
    arena: &Arena,
    way: &[HeldFact],
    index: &BTreeMap<Vec<u64>, usize>,
    indexed: usize,
    fact: &HeldFact,
) -> Option<usize>
    requires way { AreFactsAt arena.now way.now }
    requires fact { IsFactAt arena.now fact.now }
    requires index { IsIndexed way.now indexed (found_at vec_items index.now.entries) }
    ensures some { IfSome result (λ place.
        slice_get (map (fact_of arena.now) way.now) place ≡ Just (fact_of arena.now fact.now)) }
    ensures none { IfNone result (Contains (map (fact_of arena.now) way.now)
        (fact_of arena.now fact.now)
        → ⊥) }
{
    if indexed == way.len() {
        if let Ok(numbers) = numbers_of(alloc, fact) {
            return place_of_all(arena, way, index, fact, numbers.as_slice());
        }
    }
    place_among(arena, way, fact)
}

/// Indexes the facts from the place on, while there is memory for that. Gives how many first facts
/// are indexed then.
fn add_places(
    alloc: Global,
    arena: &Arena,
    facts: &[HeldFact],
    place: usize,
    index: &mut BTreeMap<Vec<u64>, usize>,
) -> usize
    requires facts { AreFactsAt arena.now facts.now }
    requires index { IsIndexed facts.now place (found_at vec_items index.old.entries) }
    ensures { IsIndexed facts.now result (found_at vec_items index.new.entries) }
{
    for i in place..facts.len() {
        if add_place(alloc, arena, facts, i, index).is_err() {
            return i;
        }
    }
    facts.len()
}

/// Indexes the fact at the place, the first one that isn't indexed.
fn add_place(
    alloc: Global,
    arena: &Arena,
    facts: &[HeldFact],
    place: usize,
    index: &mut BTreeMap<Vec<u64>, usize>,
) -> Result<(), NoMemory>
    requires facts { AreFactsAt arena.now facts.now }
    requires low { place < length facts.now }
    requires index { IsIndexed facts.now place (found_at vec_items index.old.entries) }
    ensures ok { OnOk result (IsIndexed facts.now (place + 1) (found_at vec_items
        index.new.entries)) }
    ensures err { OnErr result (IsIndexed facts.now place (found_at vec_items index.new.entries)) }
{
    let fact = &facts[place];
    let numbers = numbers_of(alloc, fact)?;
    if is_known(arena, facts, index, fact, numbers.as_slice(), place) {
        return Ok(());
    }
    insert_place(index, numbers, place)
}

/// Whether the index has a place for the fact's numbers, among the first ones, and the fact stands
/// there.
fn is_known(
    arena: &Arena,
    facts: &[HeldFact],
    index: &BTreeMap<Vec<u64>, usize>,
    fact: &HeldFact,
    numbers: &[u64],
    places: usize,
) -> bool
    requires facts { AreFactsAt arena.now facts.now }
    requires fact { IsFactAt arena.now fact.now }
    requires numbers { numbers.now ≡ numbers_of fact.now }
    ensures { IsTrue result
        ↔ IsPlaced facts.now (found_at vec_items index.now.entries) places fact.now }
{
    match indexed_place(arena, facts, index, fact, numbers) {
        Some(place) => place < places,
        None => false,
    }
}

/// Writes the place at the numbers.
fn insert_place(
    index: &mut BTreeMap<Vec<u64>, usize>,
    numbers: Vec<u64>,
    place: usize,
) -> Result<(), NoMemory>
    ensures ok { OnOk result (HasPlace (found_at vec_items index.old.entries)
        (found_at vec_items index.new.entries) numbers.items place) }
    ensures err { OnErr result (index.new.entries ≡ index.old.entries) }
{
    index.insert(numbers, place)?;
    Ok(())
}

/// The place that the index has for those numbers, if the fact stands there.
fn indexed_place(
    arena: &Arena,
    facts: &[HeldFact],
    index: &BTreeMap<Vec<u64>, usize>,
    fact: &HeldFact,
    numbers: &[u64],
) -> Option<usize>
    requires facts { AreFactsAt arena.now facts.now }
    requires fact { IsFactAt arena.now fact.now }
    requires numbers { numbers.now ≡ numbers_of fact.now }
    ensures found { IfSome result (λ place.
        found_at vec_items index.now.entries (numbers_of fact.now) ≡ Just place) }
    ensures there { IfSome result (λ place. slice_get facts.now place ≡ Just fact.now) }
    ensures low { IfSome result (λ place. place < length facts.now) }
    ensures none { IfNone result ((place : ℕ)
        → found_at vec_items index.now.entries (numbers_of fact.now) ≡ Just place
        → slice_get facts.now place ≡ Just fact.now
        → ⊥) }
{
    match index.get(numbers) {
        Some(place) => {
            if stands_at(arena, facts, *place, fact) {
                return Some(*place);
            }
            None
        }
        None => None,
    }
}

/// Whether the fact stands at the place.
fn stands_at(arena: &Arena, facts: &[HeldFact], place: usize, fact: &HeldFact) -> bool
    requires facts { AreFactsAt arena.now facts.now }
    requires fact { IsFactAt arena.now fact.now }
    ensures { IsTrue result ↔ (slice_get facts.now place ≡ Just fact.now) }
{
    arena.law_of_nodes();
    is_at(arena, facts, place, fact)
}

/// A place at which the fact stands among the facts, where all of these are indexed.
fn place_of_all(
    arena: &Arena,
    facts: &[HeldFact],
    index: &BTreeMap<Vec<u64>, usize>,
    fact: &HeldFact,
    numbers: &[u64],
) -> Option<usize>
    requires facts { AreFactsAt arena.now facts.now }
    requires fact { IsFactAt arena.now fact.now }
    requires numbers { numbers.now ≡ numbers_of fact.now }
    requires index { IsIndexed facts.now (length facts.now) (found_at vec_items index.now.entries) }
    ensures some { IfSome result (λ place.
        slice_get (map (fact_of arena.now) facts.now) place ≡ Just (fact_of arena.now fact.now)) }
    ensures none { IfNone result (Contains (map (fact_of arena.now) facts.now)
        (fact_of arena.now fact.now)
        → ⊥) }
{
    arena.law_of_nodes();
    match indexed_place(arena, facts, index, fact, numbers) {
        Some(place) => Some(place),
        None => None,
    }
}

/// A place at which the fact stands among the facts.
fn place_among(arena: &Arena, facts: &[HeldFact], fact: &HeldFact) -> Option<usize>
    requires facts { AreFactsAt arena.now facts.now }
    requires fact { IsFactAt arena.now fact.now }
    ensures some { IfSome result (λ place.
        slice_get (map (fact_of arena.now) facts.now) place ≡ Just (fact_of arena.now fact.now)) }
    ensures none { IfNone result (Contains (map (fact_of arena.now) facts.now)
        (fact_of arena.now fact.now)
        → ⊥) }
{
    arena.law_of_nodes();
    for place in 0..facts.len() {
        if same_fact(arena, &facts[place], fact) {
            return Some(place);
        }
    }
    None
}
