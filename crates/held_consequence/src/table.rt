//! A table of pairs of numbers, each with an answer.

ghost use Rattle.std.specs.Prelude.{◌≡◌, ◌<◌, ◌++◌, ◌∷◌, [], ℕ, IfNone, IfSome, OnErr, OnOk, Some as Just, length, slice_get, slice_set};
ghost use Rattle.std.specs.List.{Contains};
ghost use Rattle.held_consequence.specs.inner.Table.{key_of, keys_of};

use rv_words::{List, NoMemory};
use std::alloc::Global;
use std::collections::BTreeMap;
use std::marker::Model;

/// Pairs of numbers, each with an answer, in the order in which they came. A pair is looked up by
/// the numbers' order.
#[derive(Drop)]
pub(crate) struct Table {
    entries: List<(u64, u64, bool)>,
    places: BTreeMap<(u64, u64), usize>,
}

impl Model for Table {
    ghost use Rattle.std.specs.Prelude.{List as Items};
    ghost use Rattle.held_consequence.specs.inner.Table.{Entry};
    ghost use Rattle.held_consequence.specs.inner.Places.{ArePlaced};

    ghost Value = { Items Entry };

    ghost view = { λ t. t.entries };

    ghost invariant = { λ t. ArePlaced t.entries t.places };
}

impl Table {
    /// No pairs yet.
    pub fn new(alloc: Global) -> Table
        ensures { result ≡ [] }
    {
        Table {
            entries: List::new(alloc),
            places: BTreeMap::new(alloc),
        }
    }

    /// How many pairs there are.
    pub fn len(&self) -> usize
        ensures { result ≡ length self.now }
    {
        self.entries.len()
    }

    /// The answer that is kept for two numbers, if there is one.
    pub fn answer(&self, a: u64, b: u64) -> Option<bool>
        ensures found { IfSome result (λ v. Contains self.now (a, b, v)) }
        ensures none { IfNone result (Contains (keys_of self.now) (a, b) → ⊥) }
    {
        match self.places.get(&(a, b)) {
            Some(place) => Some(answer_at(self.entries.as_slice(), *place)),
            None => None,
        }
    }

    /// Adds a pair with its answer.
    pub fn push(&mut self, entry: (u64, u64, bool)) -> Result<(), NoMemory>
        ensures ok { OnOk result (self.new ≡ self.old ++ entry ∷ []) }
        ensures err { OnErr result (self.new ≡ self.old) }
    {
        let place = self.entries.len();
        self.entries.push(entry)?;
        match self.places.insert((entry.0, entry.1), place) {
            Ok(_) => Ok(()),
            Err(_) => {
                self.entries.pop();
                Err(NoMemory)
            }
        }
    }

    /// Writes the answer of the pair at place `i`.
    pub fn set(&mut self, i: usize, entry: (u64, u64, bool))
        requires { slice_get (keys_of self.old) i ≡ Just (key_of entry) }
        ensures { self.new ≡ slice_set self.old i entry }
    {
        self.entries.set(i, entry);
    }
}

/// The answer of the pair at a place.
fn answer_at(entries: &[(u64, u64, bool)], place: usize) -> bool
    requires { place < length entries.now }
    ensures { (k : ℕ × ℕ)
        → slice_get (keys_of entries.now) place ≡ Just k
        → Contains entries.now (k.0, k.1, result) }
{
    entries[place].2
}
