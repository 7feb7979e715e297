//! Whether the terms of a triple are within the limits of texts.

ghost use Rattle.std.specs.Prelude.{◌≡◌, ◌↔◌, ◌<◌, IsTrue, Some as Just, length, map};
ghost use Rattle.std.specs.List.{AllByRecursion};
ghost use Rattle.tailrec_lang.specs.Registers.{AreRegistersFrom};
ghost use Rattle.group_text.specs.TermLimits.{IsCond, IsMem, IsWord, depth_limit};
ghost use Rattle.term_arena.specs.Arena.{IsCondAt, IsMemAt, IsWordAt, Tree, cond_of, mem_of, tree_of, word_of};
ghost use Rattle.group_text.specs.Limits.{IsValues, index_limit};
ghost use Rattle.held_terms.specs.Held.{AreFactsAt, AreMemsAt, AreRegistersAt, AreValuesAt, AreWordsAt, IsFactAt, IsHeldAt, IsSideAt, fact_of, register_of, side_of, triple_of, values_over};
ghost use Rattle.proof_text.specs.LineLimits.{IsAssertion, IsFact, IsTriple};
ghost use Rattle.proof_text.specs.inner.OwnCode.{IsOwnCode};
ghost use Rattle.derived_triples.specs.inner.Depths.{FitsTree};
ghost use Rattle.derived_triples.specs.inner.Making.{number};

use held_terms::{Held, HeldFact, HeldSide, HeldValues};
use term_arena::Arena;

/// The deepest term that is written.
const DEPTH_LIMIT: u32 = 64;

/// Whether the triple is within the limits, whose code is.
pub(crate) fn is_within(arena: &Arena, h: &Held) -> bool
    requires there { IsHeldAt arena.now h.now }
    requires code { IsOwnCode h.now.code.ranges }
    ensures { IsTrue result ↔ IsTriple (triple_of arena.now h.now) }
{
    are_facts(arena, h.facts.as_slice()) && is_side(arena, &h.pre) && is_side(arena, &h.post)
}

fn are_facts(arena: &Arena, facts: &[HeldFact]) -> bool
    requires { AreFactsAt arena.now facts.now }
    ensures { IsTrue result ↔ AllByRecursion IsFact (map (fact_of arena.now) facts.now) }
{
    for fact in facts {
        if !is_fact(arena, fact) {
            return false;
        }
    }
    true
}

fn is_fact(arena: &Arena, fact: &HeldFact) -> bool
    requires { IsFactAt arena.now fact.now }
    ensures { IsTrue result ↔ IsFact (fact_of arena.now fact.now) }
{
    match fact {
        HeldFact::WordIs(a, b) => is_word(arena, *a) && is_word(arena, *b),
        HeldFact::MemIs(a, b) => is_mem(arena, *a) && is_mem(arena, *b),
        HeldFact::So(c) => is_cond(arena, *c),
        HeldFact::Gives {
            def,
            exit,
            args,
            results,
        } => are_gives(arena, *def, *exit, args, results),
    }
}

fn are_gives(arena: &Arena, def: u32, exit: u32, args: &HeldValues, results: &HeldValues) -> bool
    requires args { AreValuesAt arena.now args.now }
    requires results { AreValuesAt arena.now results.now }
    ensures { IsTrue result
        ↔ ((def < index_limit)
        × (exit < index_limit)
        × IsValues (values_over arena.now args.now)
        × IsValues (values_over arena.now results.now)) }
{
    are_values(arena, args) && are_values(arena, results)
}

fn are_values(arena: &Arena, values: &HeldValues) -> bool
    requires { AreValuesAt arena.now values.now }
    ensures { IsTrue result ↔ IsValues (values_over arena.now values.now) }
{
    are_words(arena, values.words.as_slice()) && are_mems(arena, values.mems.as_slice())
}

fn is_side(arena: &Arena, side: &HeldSide) -> bool
    requires { IsSideAt arena.now side.now }
    ensures { IsTrue result ↔ IsAssertion (side_of arena.now side.now) }
{
    is_word(arena, side.pc)
        && are_rising(arena, side.regs.as_slice())
        && are_mems(arena, side.mems.as_slice())
}

/// Whether the registers rise, each with a word within the limits.
fn are_rising(arena: &Arena, registers: &[(u8, u64)]) -> bool
    requires { AreRegistersAt arena.now registers.now }
    ensures { IsTrue result
        ↔ (AreRegistersFrom 1 (map (λ r. r.0) (map (register_of arena.now) registers.now))
        × AllByRecursion (λ r. IsWord r.1) (map (register_of arena.now) registers.now)) }
{
    registers_rise(registers) && are_registers(arena, registers)
}

/// Whether the registers' numbers rise from 1 to 31.
fn registers_rise(registers: &[(u8, u64)]) -> bool
    ensures { IsTrue result ↔ AreRegistersFrom 1 (map number registers.now) }
{
    let mut least = 1;
    for register in registers {
        if register.0 < least || register.0 > 31 {
            return false;
        }
        least = register.0 + 1;
    }
    true
}

fn are_registers(arena: &Arena, registers: &[(u8, u64)]) -> bool
    requires { AreRegistersAt arena.now registers.now }
    ensures { IsTrue result
        ↔ AllByRecursion (λ r. IsWord r.1) (map (register_of arena.now) registers.now) }
{
    for register in registers {
        if !is_word(arena, register.1) {
            return false;
        }
    }
    true
}

fn are_words(arena: &Arena, words: &[u64]) -> bool
    requires { AreWordsAt arena.now words.now }
    ensures { IsTrue result ↔ AllByRecursion IsWord (map (word_of arena.now) words.now) }
{
    for k in words {
        if !is_word(arena, *k) {
            return false;
        }
    }
    true
}

fn are_mems(arena: &Arena, mems: &[u64]) -> bool
    requires { AreMemsAt arena.now mems.now }
    ensures { IsTrue result ↔ AllByRecursion IsMem (map (mem_of arena.now) mems.now) }
{
    for k in mems {
        if !is_mem(arena, *k) {
            return false;
        }
    }
    true
}

fn is_word(arena: &Arena, k: u64) -> bool
    requires { IsWordAt arena.now k }
    ensures { IsTrue result ↔ IsWord (word_of arena.now k) }
{
    fits(arena, k)
}

fn is_mem(arena: &Arena, k: u64) -> bool
    requires { IsMemAt arena.now k }
    ensures { IsTrue result ↔ IsMem (mem_of arena.now k) }
{
    fits(arena, k)
}

fn is_cond(arena: &Arena, k: u64) -> bool
    requires { IsCondAt arena.now k }
    ensures { IsTrue result ↔ IsCond (cond_of arena.now k) }
{
    fits(arena, k)
}

/// Whether the term of a number is within the limits: it is, where its depth is.
fn fits(arena: &Arena, k: u64) -> bool
    requires { k < length arena.now }
    ensures { (t : Tree)
        → tree_of arena.now k ≡ Just t
        → (IsTrue result ↔ FitsTree depth_limit t) }
{
    arena.law_of_ranges();
    arena.depth(k) <= DEPTH_LIMIT
}
