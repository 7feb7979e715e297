//! Numbers of terms that are listed for variables.

ghost use Rattle.std.specs.Prelude.{◌≡◌, ◌<◌, ◌+◌, IfSome, OnOk, drop, length, unwrap_or};
ghost use Rattle.word_terms.specs.Substitution.{listed};
ghost use Rattle.held_instances.specs.inner.Listings.{IsIndexOf};

use rv_words::NoMemory;
use std::alloc::Global;
use std::collections::BTreeMap;
use std::marker::Model;

/// How many terms are looked for one by one: those for all registers and memories, which a line
/// that `decompile` writes has at most.
const FEW_ENTRIES: usize = 40;

/// Numbers of terms, each listed for a variable. Where there are more than a few, they are looked
/// up by an index, if there was memory for it.
#[derive(Drop)]
pub(crate) struct Listing<'l> {
    entries: &'l [(u32, u64)],
    index: Option<BTreeMap<u32, u64>>,
}

impl<'l> Model for Listing<'l> {
    ghost use Rattle.std.specs.Prelude.{ℕ, IfSome, List as Items};
    ghost use Rattle.held_instances.specs.inner.Listings.{IsIndexOf};

    ghost Value = { Items (ℕ × ℕ) };

    ghost view = { λ l. l.entries.now };

    ghost invariant = { λ l. IfSome l.index (λ m. IsIndexOf l.entries.now m) };
}

impl<'l> Listing<'l> {
    /// What is listed, in its order.
    pub fn new(alloc: Global, entries: &'l [(u32, u64)]) -> Listing<'l>
        ensures { result ≡ entries.now }
    {
        let index = index_of(alloc, entries);
        Listing { entries, index }
    }

    /// The number that is listed for a variable, or that of the variable.
    pub fn number_for(&self, i: u32, x: u64) -> u64
        ensures { result ≡ unwrap_or (listed self.now i) x }
    {
        match &self.index {
            Some(index) => indexed_number(self.entries, index, i, x),
            None => first_number(self.entries, i, x),
        }
    }
}

/// An index of what is listed, where that is more than a few and there is memory for it.
fn index_of(alloc: Global, entries: &[(u32, u64)]) -> Option<BTreeMap<u32, u64>>
    ensures { IfSome result (λ m. IsIndexOf entries.now m) }
{
    if entries.len() <= FEW_ENTRIES {
        return None;
    }
    let mut index = BTreeMap::new(alloc);
    for behind in 0..entries.len() {
        if add_place(&mut index, entries, entries.len() - 1 - behind).is_err() {
            return None;
        }
    }
    Some(index)
}

/// Adds what is listed at the place to an index of what is listed behind it.
fn add_place(
    index: &mut BTreeMap<u32, u64>,
    entries: &[(u32, u64)],
    place: usize,
) -> Result<(), NoMemory>
    requires place { place < length entries.now }
    requires behind { IsIndexOf (drop (place + 1) entries.now) index.old }
    ensures { OnOk result (IsIndexOf (drop place entries.now) index.new) }
{
    let entry = entries[place];
    index.insert(entry.0, entry.1)?;
    Ok(())
}

/// The number that is listed for a variable, or that of the variable, by the index.
fn indexed_number(entries: &[(u32, u64)], index: &BTreeMap<u32, u64>, i: u32, x: u64) -> u64
    requires { IsIndexOf entries.now index.now }
    ensures { result ≡ unwrap_or (listed entries.now i) x }
{
    match index.get(&i) {
        Some(number) => *number,
        None => x,
    }
}

/// The first number that is listed for a variable, or that of the variable.
fn first_number(entries: &[(u32, u64)], i: u32, x: u64) -> u64
    ensures { result ≡ unwrap_or (listed entries.now i) x }
{
    for entry in entries {
        if entry.0 == i {
            return entry.1;
        }
    }
    x
}
