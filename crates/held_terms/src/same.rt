//! Terms, facts and assertions compared by their numbers.

ghost use Rattle.std.specs.Prelude.{◌≡◌, ◌↔◌, IsTrue, map};
ghost use Rattle.std.specs.List.{Contains};
ghost use Rattle.term_arena.specs.Arena.{IsCondAt, IsMemAt, IsWordAt, cond_of, mem_of, word_of};
ghost use Rattle.held_terms.specs.Held.{AreFactsAt, AreMemsAt, AreRegistersAt, AreValuesAt, AreWordsAt, IsFactAt, IsHeldAt, IsSideAt, fact_of, register_of, side_of, triple_of, values_over};

use crate::held::{Held, HeldFact, HeldSide, HeldValues};
use term_arena::{Arena, law_of_arenas};

/// Whether two numbers stand for the same term.
pub fn same_word(arena: &Arena, a: u64, b: u64) -> bool
    requires a { IsWordAt arena.now a }
    requires b { IsWordAt arena.now b }
    ensures { IsTrue result ↔ (word_of arena.now a ≡ word_of arena.now b) }
{
    law_of_arenas();
    arena.law_of_nodes();
    a == b
}

/// Whether two numbers stand for the same memory.
pub fn same_mem(arena: &Arena, a: u64, b: u64) -> bool
    requires a { IsMemAt arena.now a }
    requires b { IsMemAt arena.now b }
    ensures { IsTrue result ↔ (mem_of arena.now a ≡ mem_of arena.now b) }
{
    law_of_arenas();
    arena.law_of_nodes();
    a == b
}

/// Whether two numbers stand for the same condition.
pub fn same_cond(arena: &Arena, a: u64, b: u64) -> bool
    requires a { IsCondAt arena.now a }
    requires b { IsCondAt arena.now b }
    ensures { IsTrue result ↔ (cond_of arena.now a ≡ cond_of arena.now b) }
{
    law_of_arenas();
    arena.law_of_nodes();
    a == b
}

/// Whether two lists of numbers stand for the same terms.
#[tactic(auto, using(sep_assert::proofs::SameLists::map_differs))]
pub fn same_words(arena: &Arena, a: &[u64], b: &[u64]) -> bool
    requires a { AreWordsAt arena.now a.now }
    requires b { AreWordsAt arena.now b.now }
    ensures { IsTrue result ↔ (map (word_of arena.now) a.now ≡ map (word_of arena.now) b.now) }
{
    if a.len() != b.len() {
        return false;
    }
    for i in 0..a.len() {
        if !same_word(arena, a[i], b[i]) {
            return false;
        }
    }
    true
}

/// Whether two lists of numbers stand for the same memories.
#[tactic(auto, using(sep_assert::proofs::SameLists::map_differs))]
pub fn same_mems(arena: &Arena, a: &[u64], b: &[u64]) -> bool
    requires a { AreMemsAt arena.now a.now }
    requires b { AreMemsAt arena.now b.now }
    ensures { IsTrue result ↔ (map (mem_of arena.now) a.now ≡ map (mem_of arena.now) b.now) }
{
    if a.len() != b.len() {
        return false;
    }
    for i in 0..a.len() {
        if !same_mem(arena, a[i], b[i]) {
            return false;
        }
    }
    true
}

/// Whether two lists of registers are the same with the same terms.
#[tactic(auto, using(sep_assert::proofs::SameLists::map_differs))]
pub fn same_registers(arena: &Arena, a: &[(u8, u64)], b: &[(u8, u64)]) -> bool
    requires a { AreRegistersAt arena.now a.now }
    requires b { AreRegistersAt arena.now b.now }
    ensures { IsTrue result
        ↔ (map (register_of arena.now) a.now ≡ map (register_of arena.now) b.now) }
{
    if a.len() != b.len() {
        return false;
    }
    for i in 0..a.len() {
        if !same_register(arena, a[i], b[i]) {
            return false;
        }
    }
    true
}

/// Whether two registers are the same with the same term.
pub fn same_register(arena: &Arena, a: (u8, u64), b: (u8, u64)) -> bool
    requires a { IsWordAt arena.now a.1 }
    requires b { IsWordAt arena.now b.1 }
    ensures { IsTrue result ↔ (register_of arena.now a ≡ register_of arena.now b) }
{
    a.0 == b.0 && same_word(arena, a.1, b.1)
}

/// Whether two assertions are the same.
pub fn same_side(arena: &Arena, a: &HeldSide, b: &HeldSide) -> bool
    requires a { IsSideAt arena.now a.now }
    requires b { IsSideAt arena.now b.now }
    ensures { IsTrue result ↔ (side_of arena.now a.now ≡ side_of arena.now b.now) }
{
    same_word(arena, a.pc, b.pc)
        && same_registers(arena, a.regs.as_slice(), b.regs.as_slice())
        && same_mems(arena, a.mems.as_slice(), b.mems.as_slice())
}

fn same_values(arena: &Arena, a: &HeldValues, b: &HeldValues) -> bool
    requires a { AreValuesAt arena.now a.now }
    requires b { AreValuesAt arena.now b.now }
    ensures { IsTrue result ↔ (values_over arena.now a.now ≡ values_over arena.now b.now) }
{
    same_words(arena, a.words.as_slice(), b.words.as_slice())
        && same_mems(arena, a.mems.as_slice(), b.mems.as_slice())
}

/// Whether two facts are the same.
pub fn same_fact(arena: &Arena, a: &HeldFact, b: &HeldFact) -> bool
    requires a { IsFactAt arena.now a.now }
    requires b { IsFactAt arena.now b.now }
    ensures { IsTrue result ↔ (fact_of arena.now a.now ≡ fact_of arena.now b.now) }
{
    match a {
        HeldFact::WordIs(x, y) => match b {
            HeldFact::WordIs(u, v) => same_word(arena, *x, *u) && same_word(arena, *y, *v),
            _ => false,
        },
        HeldFact::MemIs(x, y) => match b {
            HeldFact::MemIs(u, v) => same_mem(arena, *x, *u) && same_mem(arena, *y, *v),
            _ => false,
        },
        HeldFact::So(x) => match b {
            HeldFact::So(u) => same_cond(arena, *x, *u),
            _ => false,
        },
        HeldFact::Gives {
            def,
            exit,
            args,
            results,
        } => match b {
            HeldFact::Gives {
                def: d,
                exit: e,
                args: x,
                results: y,
            } => {
                *def == *d
                    && *exit == *e
                    && same_values(arena, args, x)
                    && same_values(arena, results, y)
            }
            _ => false,
        },
    }
}

/// Whether two lists of facts are the same in the same order.
#[tactic(auto, using(sep_assert::proofs::SameLists::map_differs))]
pub fn same_facts(arena: &Arena, a: &[HeldFact], b: &[HeldFact]) -> bool
    requires a { AreFactsAt arena.now a.now }
    requires b { AreFactsAt arena.now b.now }
    ensures { IsTrue result ↔ (map (fact_of arena.now) a.now ≡ map (fact_of arena.now) b.now) }
{
    if a.len() != b.len() {
        return false;
    }
    for i in 0..a.len() {
        if !same_fact(arena, &a[i], &b[i]) {
            return false;
        }
    }
    true
}

/// Whether the fact is among the others.
#[tactic(auto, using(triple_kernel::proofs::Among::is_among, triple_kernel::proofs::Among::not_among_more))]
pub fn is_among(arena: &Arena, fact: &HeldFact, others: &[HeldFact]) -> bool
    requires fact { IsFactAt arena.now fact.now }
    requires others { AreFactsAt arena.now others.now }
    ensures { IsTrue result
        ↔ Contains (map (fact_of arena.now) others.now) (fact_of arena.now fact.now) }
{
    for other in others {
        if same_fact(arena, other, fact) {
            return true;
        }
    }
    false
}

/// Whether two triples are the same. Whether their code is the same is told by the caller.
pub fn same_triple(arena: &Arena, a: &Held, b: &Held, same_code: bool) -> bool
    requires a { IsHeldAt arena.now a.now }
    requires b { IsHeldAt arena.now b.now }
    requires code { IsTrue same_code ↔ (a.now.code.ranges ≡ b.now.code.ranges) }
    ensures { IsTrue result ↔ (triple_of arena.now a.now ≡ triple_of arena.now b.now) }
{
    same_facts(arena, a.facts.as_slice(), b.facts.as_slice())
        && same_side(arena, &a.pre, &b.pre)
        && same_code
        && same_side(arena, &a.post, &b.post)
}
