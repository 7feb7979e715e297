//! Facts of a triple that another one lacks.

ghost use Rattle.std.specs.Prelude.{◌≡◌, ◌↔◌, ◌++◌, ◌<◌, IsTrue, Some, length, map, slice_get};
ghost use Rattle.frame_compose.specs.Rules.{AreMissing, rest_after};
ghost use Rattle.held_terms.specs.Held.{AreFactsAt, IsFactAt, fact_of};

use crate::facts::Facts;
use crate::held::HeldFact;
use crate::same::{same_fact, same_facts};
use frame_compose::{prefix, rest_after};
use std::alloc::Global;
use term_arena::Arena;

/// Whether all facts are the first ones and then those of the second that aren't among them, in
/// order.
pub fn are_facts_of_both(
    alloc: Global,
    arena: &Arena,
    first: &[HeldFact],
    second: &[HeldFact],
    all: &[HeldFact],
) -> bool
    requires first { AreFactsAt arena.now first.now }
    requires second { AreFactsAt arena.now second.now }
    requires all { AreFactsAt arena.now all.now }
    ensures { IsTrue result
        ↔ ((map (fact_of arena.now) first.now
        ++ rest_after (map (fact_of arena.now) first.now) (map (fact_of arena.now) all.now)
        ≡ map (fact_of arena.now) all.now)
        × AreMissing (map (fact_of arena.now) first.now) (map (fact_of arena.now) second.now)
        (rest_after (map (fact_of arena.now) first.now) (map (fact_of arena.now) all.now))) }
{
    if !begins_with(arena, all, first) {
        return false;
    }
    let known = Facts::new(alloc, first, second.len());
    are_missing(arena, &known, second, rest_after(all, first.len()))
}

/// Whether the first facts of all are those.
fn begins_with(arena: &Arena, all: &[HeldFact], first: &[HeldFact]) -> bool
    requires all { AreFactsAt arena.now all.now }
    requires first { AreFactsAt arena.now first.now }
    ensures { IsTrue result
        ↔ (map (fact_of arena.now) first.now
        ++ rest_after (map (fact_of arena.now) first.now) (map (fact_of arena.now) all.now)
        ≡ map (fact_of arena.now) all.now) }
{
    same_facts(arena, first, prefix(all, first.len()))
}

/// Whether the last facts are the second ones without those among the first, in order.
fn are_missing(arena: &Arena, known: &Facts, facts: &[HeldFact], more: &[HeldFact]) -> bool
    requires known { AreFactsAt arena.now known.now }
    requires facts { AreFactsAt arena.now facts.now }
    requires more { AreFactsAt arena.now more.now }
    ensures { IsTrue result
        ↔ AreMissing (map (fact_of arena.now) known.now) (map (fact_of arena.now) facts.now)
        (map (fact_of arena.now) more.now) }
{
    let mut place = 0;
    for fact in facts {
        if known.has(arena, fact) {
            continue;
        }
        if !is_at(arena, more, place, fact) {
            return false;
        }
        place += 1;
    }
    place >= more.len()
}

/// Whether that fact stands at a place.
pub(crate) fn is_at(arena: &Arena, all: &[HeldFact], place: usize, fact: &HeldFact) -> bool
    requires all { AreFactsAt arena.now all.now }
    requires fact { IsFactAt arena.now fact.now }
    ensures is { IsTrue result
        ↔ (slice_get (map (fact_of arena.now) all.now) place ≡ Some (fact_of arena.now fact.now)) }
    ensures within { IsTrue result → place < length all.now }
{
    match all.get(place) {
        Some(other) => same_fact(arena, other, fact),
        None => false,
    }
}
