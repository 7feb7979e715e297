//! Terms that facts let stand for one another.

ghost use Rattle.std.specs.Prelude.{◌≡◌, ◌↔◌, IsTrue, map};
ghost use Rattle.std.specs.List.{AllZip, Contains};
ghost use Rattle.word_terms.specs.Tree.{mem_tree, word_tree};
ghost use Rattle.sep_assert.specs.Tree.{assertion_tree, register_tree};
ghost use Rattle.triple_kernel.specs.Tree.{MemIs, WordIs, fact_tree};
ghost use Rattle.triple_kernel.specs.Swap.{MemsStated, SwapAssertion, SwapMem, SwapRegister, SwapWord, WordsStated};

use crate::triple::Fact;
use sep_assert::Assertion;
use word_terms::{Mem, Word, same_mem, same_word};

/// Whether two words are the same, or stated to be equal, or of one form with children that may be
/// swapped.
#[cycle(swaps)]
#[tactic(auto, using(crate::proofs::StatedLemmas::stated_words_swap, crate::proofs::StatedLemmas::stated_mems_swap))]
pub fn swap_word(facts: &[Fact], a: &Word, b: &Word) -> bool
    ensures { IsTrue result
        ↔ SwapWord (map fact_tree facts.now) (word_tree a.now) (word_tree b.now) }
{
    if are_words_stated(facts, a, b) {
        return true;
    }
    match a {
        Word::Const(_) => false,
        Word::Var(_) => false,
        Word::Bin(op, x, y) => match b {
            Word::Bin(o, u, v) => *op == *o && swap_word(facts, x, u) && swap_word(facts, y, v),
            _ => false,
        },
        Word::Extend(ext, x) => match b {
            Word::Extend(e, u) => *ext == *e && swap_word(facts, x, u),
            _ => false,
        },
        Word::Load(width, m, x) => match b {
            Word::Load(w, n, u) => {
                *width == *w && swap_mem(facts, m, n) && swap_word(facts, x, u)
            }
            _ => false,
        },
    }
}

/// Whether two memories are the same, or stated to be equal, or stores of one width with children
/// that may be swapped.
#[cycle(swaps)]
#[tactic(auto, using(crate::proofs::StatedLemmas::stated_words_swap, crate::proofs::StatedLemmas::stated_mems_swap))]
pub fn swap_mem(facts: &[Fact], a: &Mem, b: &Mem) -> bool
    ensures { IsTrue result ↔ SwapMem (map fact_tree facts.now) (mem_tree a.now) (mem_tree b.now) }
{
    if are_mems_stated(facts, a, b) {
        return true;
    }
    match a {
        Mem::Var(_) => false,
        Mem::Store(width, m, x, y) => match b {
            Mem::Store(w, n, u, v) => {
                *width == *w
                    && swap_mem(facts, m, n)
                    && swap_word(facts, x, u)
                    && swap_word(facts, y, v)
            }
            _ => false,
        },
    }
}

fn are_words_stated(facts: &[Fact], a: &Word, b: &Word) -> bool
    ensures { IsTrue result
        ↔ WordsStated (map fact_tree facts.now) (word_tree a.now) (word_tree b.now) }
{
    same_word(a, b) || is_word_stated(facts, a, b) || is_word_stated(facts, b, a)
}

fn are_mems_stated(facts: &[Fact], a: &Mem, b: &Mem) -> bool
    ensures { IsTrue result
        ↔ MemsStated (map fact_tree facts.now) (mem_tree a.now) (mem_tree b.now) }
{
    same_mem(a, b) || is_mem_stated(facts, a, b) || is_mem_stated(facts, b, a)
}

#[tactic(auto, using(crate::proofs::Among::is_among, crate::proofs::Among::not_among_more))]
fn is_word_stated(facts: &[Fact], a: &Word, b: &Word) -> bool
    ensures { IsTrue result
        ↔ Contains (map fact_tree facts.now) (WordIs (word_tree a.now) (word_tree b.now)) }
{
    for fact in facts {
        if is_word_fact(fact, a, b) {
            return true;
        }
    }
    false
}

fn is_word_fact(fact: &Fact, a: &Word, b: &Word) -> bool
    ensures { IsTrue result ↔ (fact_tree fact.now ≡ WordIs (word_tree a.now) (word_tree b.now)) }
{
    match fact {
        Fact::WordIs(x, y) => same_word(x, a) && same_word(y, b),
        _ => false,
    }
}

#[tactic(auto, using(crate::proofs::Among::is_among, crate::proofs::Among::not_among_more))]
fn is_mem_stated(facts: &[Fact], a: &Mem, b: &Mem) -> bool
    ensures { IsTrue result
        ↔ Contains (map fact_tree facts.now) (MemIs (mem_tree a.now) (mem_tree b.now)) }
{
    for fact in facts {
        if is_mem_fact(fact, a, b) {
            return true;
        }
    }
    false
}

fn is_mem_fact(fact: &Fact, a: &Mem, b: &Mem) -> bool
    ensures { IsTrue result ↔ (fact_tree fact.now ≡ MemIs (mem_tree a.now) (mem_tree b.now)) }
{
    match fact {
        Fact::MemIs(x, y) => same_mem(x, a) && same_mem(y, b),
        _ => false,
    }
}

/// Whether two assertions are the same but for terms that may be swapped.
pub fn swap_assertion(facts: &[Fact], a: &Assertion, b: &Assertion) -> bool
    ensures { IsTrue result
        ↔ SwapAssertion (map fact_tree facts.now) (assertion_tree a.now) (assertion_tree b.now) }
{
    swap_word(facts, &a.pc, &b.pc)
        && swap_registers(facts, a.regs.as_slice(), b.regs.as_slice())
        && swap_mems(facts, a.mems.as_slice(), b.mems.as_slice())
}

fn swap_registers(facts: &[Fact], a: &[(u8, Word)], b: &[(u8, Word)]) -> bool
    ensures { IsTrue result
        ↔ AllZip (SwapRegister (map fact_tree facts.now)) (map register_tree a.now)
        (map register_tree b.now) }
{
    if a.len() != b.len() {
        return false;
    }
    for i in 0..a.len() {
        if !swap_register(facts, &a[i], &b[i]) {
            return false;
        }
    }
    true
}

fn swap_register(facts: &[Fact], a: &(u8, Word), b: &(u8, Word)) -> bool
    ensures { IsTrue result
        ↔ SwapRegister (map fact_tree facts.now) (register_tree a.now) (register_tree b.now) }
{
    a.0 == b.0 && swap_word(facts, &a.1, &b.1)
}

fn swap_mems(facts: &[Fact], a: &[Mem], b: &[Mem]) -> bool
    ensures { IsTrue result
        ↔ AllZip (SwapMem (map fact_tree facts.now)) (map mem_tree a.now) (map mem_tree b.now) }
{
    if a.len() != b.len() {
        return false;
    }
    for i in 0..a.len() {
        if !swap_mem(facts, &a[i], &b[i]) {
            return false;
        }
    }
    true
}
