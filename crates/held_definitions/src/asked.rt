//! Which theorems lead to leaves of a definition, as far as that was asked before.

ghost use Rattle.std.specs.Prelude.{◌≡◌, ◌<◌, ◌∷◌, ◌++◌, [], ℕ, IfOk, IsSome, IsTrue, List as Items, OnOk, Some as Just, false, length, slice_get, take};
ghost use Rattle.std.specs.BTreeMap.{btree_map_len, get};
ghost use Rattle.std.specs.Ordering.{nat_cmp};
ghost use Rattle.triple_kernel.specs.Tree.{FactTree, TripleTree};
ghost use Rattle.loop_rule.specs.Judge.{Closing};
ghost use Rattle.held_definitions.specs.inner.Asked.{AreAsked, AreFound, AreUpTo, Begins, HasStanding, IsParted, IsStanding, KnowsPlaces};

use rv_words::{List, NoMemory};
use std::alloc::Global;
use std::collections::BTreeMap;

/// A fact of a theorem, the one at that place among its facts, that was found at a place of the
/// way, and the stamp that this place then had.
#[derive(Clone, Copy)]
pub(crate) struct Found {
    pub fact: usize,
    pub stamp: u64,
}

/// The places of the way at which facts of a theorem were found.
pub(crate) type Places = BTreeMap<usize, Found>;

/// The theorems that begin at a definition's entry, within the group's code, as far as that was
/// asked; and of each one the places of the way at which its facts were found. A place of the way
/// gets a new stamp each time that a fact comes there, so a fact stands where it was found while
/// that place has the stamp; and then so do those that were found before it on the way.
#[derive(Drop)]
pub(crate) struct Asked {
    /// The stamp of each place of the way.
    pub stamps: List<u64>,
    pub next: u64,
    pub theorems: BTreeMap<u64, Places>,
}

impl Asked {
    /// Nothing was asked, and the way has no facts.
    pub fn new(alloc: Global) -> Asked
        ensures { (c : Closing) (way : Items FactTree) → AreAsked c way result }
    {
        Asked {
            stamps: List::new(alloc),
            next: 0,
            theorems: BTreeMap::new(alloc),
        }
    }

    /// A fact came at the end of the way.
    pub fn push(&mut self) -> Result<(), NoMemory>
        ensures { (c : Closing) (way : Items FactTree) (f : FactTree)
            → AreAsked c way self.old
            → AreAsked c (way ++ f ∷ []) self.new }
    {
        let stamp = self.next;
        let Some(next) = stamp.checked_add(1) else {
            return Err(NoMemory);
        };
        self.stamps.push(stamp)?;
        self.next = next;
        Ok(())
    }

    /// The last facts of the way went, up to that many.
    pub fn shorten(&mut self, length: usize)
        ensures { (c : Closing) (way : Items FactTree)
            → AreAsked c way self.old
            → AreAsked c (take length way) self.new }
    {
        self.stamps.truncate(length);
    }

    /// Whether it is known that the theorem begins at the entry.
    pub fn begins(&self, number: u64) -> bool
        ensures { IsTrue result → IsSome (get nat_cmp self.now.theorems number) }
    {
        self.theorems.get(&number).is_some()
    }

    /// Whether it is known that the theorem begins at the entry, and its facts are on the way.
    pub fn leads(&self, number: u64) -> bool
        ensures { IsTrue result → HasStanding self.now number }
    {
        match self.theorems.get(&number) {
            Some(places) => last_stands(self.stamps.as_slice(), places),
            None => false,
        }
    }

    /// Takes out the theorem, of so many facts: the places at which some of them still stand, and
    /// the others. Where the theorem wasn't asked for, these are all of them.
    pub fn take(
        &mut self,
        alloc: Global,
        number: u64,
        many: usize,
    ) -> Result<(Places, List<usize>), NoMemory>
        ensures found { IfOk result (λ r.
            (way facts : Items FactTree)
            → length facts ≡ many
            → KnowsPlaces way number self.old facts
            → AreFound self.new.stamps way facts r.0 r.1) }
        ensures asked { (c : Closing) (way : Items FactTree)
            → AreAsked c way self.old
            → AreAsked c way self.new }
    {
        match self.theorems.remove(&number) {
            Some(mut places) => {
                let gone = take_gone(alloc, self.stamps.as_slice(), &mut places)?;
                Ok((places, gone))
            }
            None => {
                let all = all_up_to(alloc, many)?;
                Ok((BTreeMap::new(alloc), all))
            }
        }
    }

    /// Notes that the fact of a theorem is at that place of the way. A place that got no stamp was
    /// left without for lack of memory.
    pub fn note(&self, places: &mut Places, place: usize, fact: usize) -> Result<(), NoMemory>
        ensures { OnOk result ((way facts : Items FactTree) (f : FactTree) (rest : Items ℕ)
            → slice_get facts fact ≡ Just f
            → slice_get way place ≡ Just f
            → AreFound self.now.stamps way facts places.old (fact ∷ rest)
            → AreFound self.now.stamps way facts places.new rest) }
    {
        let Some(stamp) = self.stamps.get(place) else {
            return Err(NoMemory);
        };
        let found = Found {
            fact,
            stamp: *stamp,
        };
        places.insert(place, found)?;
        Ok(())
    }

    /// Keeps that the theorem begins at the entry, and its facts are at those places of the way, if
    /// there is memory for that.
    pub fn keep(&mut self, number: u64, places: Places)
        ensures { (c : Closing) (way : Items FactTree) (t : TripleTree)
            → c.theorem number ≡ Just t
            → Begins c.group c.def t
            → AreFound self.old.stamps way t.facts places []
            → AreAsked c way self.old
            → AreAsked c way self.new }
    {
        let _ = self.theorems.insert(number, places);
    }
}

/// Takes out the last places while they have other stamps. Gives the facts that were found there.
fn take_gone(alloc: Global, stamps: &[u64], places: &mut Places) -> Result<List<usize>, NoMemory>
    ensures parted { IfOk result (λ gone. IsParted places.old places.new gone) }
    ensures standing { OnOk result (IsStanding stamps.now places.new) }
{
    let mut gone = List::new(alloc);
    while !last_stands(stamps, places) {
        if let Some((_, found)) = places.pop_last() {
            gone.push(found.fact)?;
        }
    }
    Ok(gone)
}

/// Whether the last of the places still has its stamp, if there is one.
fn last_stands(stamps: &[u64], places: &Places) -> bool
    ensures yes { IsTrue result → IsStanding stamps.now places.now }
    ensures no { result ≡ false → 0 < btree_map_len places.now }
{
    match places.last_key_value() {
        Some((place, found)) => stands(stamps, *place, *found),
        None => true,
    }
}

/// Whether the place still has its stamp.
fn stands(stamps: &[u64], place: usize, found: Found) -> bool
    ensures { IsTrue result → slice_get stamps.now place ≡ Just found.stamp }
{
    place < stamps.len() && stamps[place] == found.stamp
}

/// The numbers below that one.
fn all_up_to(alloc: Global, many: usize) -> Result<List<usize>, NoMemory>
    ensures { IfOk result (λ all. AreUpTo many all) }
{
    let mut all = List::new(alloc);
    for i in 0..many {
        all.push(i)?;
    }
    Ok(all)
}
