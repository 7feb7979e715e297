//! Further registers and memories, which an assertion has beside those of another one.

ghost use Rattle.std.specs.Prelude.{◌≡◌, ◌↔◌, ◌++◌, ◌<◌, ℕ, IsTrue, Some, drop, false, length, map, slice_get};
ghost use Rattle.frame_compose.specs.Rules.{further, is_listed, listed, rest_after};
ghost use Rattle.term_arena.specs.Arena.{IsWordAt, mem_of};
ghost use Rattle.held_terms.specs.Held.{AreMemsAt, AreRegistersAt, register_of};

use crate::same::{same_mems, same_register};
use frame_compose::{prefix, rest_after};
use term_arena::Arena;

/// Whether those of all registers that are listed are the list.
pub fn are_listed(arena: &Arena, own: &[(u8, u64)], all: &[(u8, u64)]) -> bool
    requires own { AreRegistersAt arena.now own.now }
    requires all { AreRegistersAt arena.now all.now }
    ensures { IsTrue result
        ↔ (map (register_of arena.now) own.now
        ≡ listed (map (register_of arena.now) own.now) (map (register_of arena.now) all.now)) }
{
    let mut place = 0;
    for i in 0..all.len() {
        if !is_listed(own, all[i].0) {
            continue;
        }
        if !is_at(arena, own, place, all[i]) {
            return false;
        }
        place += 1;
    }
    place >= own.len()
}

/// Whether the registers of `a` that aren't listed in the one list are those of `b` that aren't in
/// the other.
pub fn same_further(
    arena: &Arena,
    own_a: &[(u8, u64)],
    a: &[(u8, u64)],
    own_b: &[(u8, u64)],
    b: &[(u8, u64)],
) -> bool
    requires a { AreRegistersAt arena.now a.now }
    requires b { AreRegistersAt arena.now b.now }
    ensures { IsTrue result
        ↔ (further (map (register_of arena.now) own_a.now) (map (register_of arena.now) a.now)
        ≡ further (map (register_of arena.now) own_b.now) (map (register_of arena.now) b.now)) }
{
    let mut place = 0;
    for i in 0..a.len() {
        if is_listed(own_a, a[i].0) {
            continue;
        }
        let next = next_further(own_b, b, place);
        if !is_at(arena, b, next, a[i]) {
            return false;
        }
        place = next + 1;
    }
    next_further(own_b, b, place) >= b.len()
}

/// The place of the first register from `start` on that isn't listed, or how many there are.
fn next_further(own: &[(u8, u64)], all: &[(u8, u64)], start: usize) -> usize
    ensures same { further own.now (drop start all.now) ≡ further own.now (drop result all.now) }
    ensures first { (q : ℕ × ℕ)
        → slice_get all.now result ≡ Some q
        → is_listed own.now q.0 ≡ false }
{
    for i in start..all.len() {
        if !is_listed(own, all[i].0) {
            return i;
        }
    }
    all.len()
}

/// Whether one of the registers has that number.
fn is_listed(own: &[(u8, u64)], number: u8) -> bool
    ensures { result ≡ is_listed own.now number }
{
    for register in own {
        if register.0 == number {
            return true;
        }
    }
    false
}

/// Whether that register stands at a place.
fn is_at(arena: &Arena, all: &[(u8, u64)], place: usize, register: (u8, u64)) -> bool
    requires all { AreRegistersAt arena.now all.now }
    requires register { IsWordAt arena.now register.1 }
    ensures is { IsTrue result
        ↔ (slice_get (map (register_of arena.now) all.now) place
        ≡ Some (register_of arena.now register)) }
    ensures within { IsTrue result → place < length all.now }
{
    match all.get(place) {
        Some(other) => same_register(arena, *other, register),
        None => false,
    }
}

/// Whether the memories of `a` are the ones and then others, and those of `b` the other ones and
/// then the same others.
pub fn same_further_mems(arena: &Arena, own_a: &[u64], a: &[u64], own_b: &[u64], b: &[u64]) -> bool
    requires own_a { AreMemsAt arena.now own_a.now }
    requires a { AreMemsAt arena.now a.now }
    requires own_b { AreMemsAt arena.now own_b.now }
    requires b { AreMemsAt arena.now b.now }
    ensures { IsTrue result
        ↔ ((map (mem_of arena.now) own_a.now
        ++ rest_after (map (mem_of arena.now) own_a.now) (map (mem_of arena.now) a.now)
        ≡ map (mem_of arena.now) a.now)
        × (map (mem_of arena.now) own_b.now
        ++ rest_after (map (mem_of arena.now) own_a.now) (map (mem_of arena.now) a.now)
        ≡ map (mem_of arena.now) b.now)) }
{
    let more = rest_after(a, own_a.len());
    are_joined(arena, own_a, more, a) && are_joined(arena, own_b, more, b)
}

fn are_joined(arena: &Arena, first: &[u64], second: &[u64], all: &[u64]) -> bool
    requires first { AreMemsAt arena.now first.now }
    requires second { AreMemsAt arena.now second.now }
    requires all { AreMemsAt arena.now all.now }
    ensures { IsTrue result
        ↔ (map (mem_of arena.now) first.now ++ map (mem_of arena.now) second.now
        ≡ map (mem_of arena.now) all.now) }
{
    same_mems(arena, first, prefix(all, first.len()))
        && same_mems(arena, second, rest_after(all, first.len()))
}
