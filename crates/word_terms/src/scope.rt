//! Which variables and constants stand in terms.

ghost use Rattle.std.specs.Prelude.{◌<◌, ◌^◌, ◌↔◌, IsTrue};
ghost use Rattle.word_terms.specs.Tree.{cond_tree, mem_tree, word_tree};
ghost use Rattle.word_terms.specs.Scope.{CondInRange, CondInScope, EachInCond, EachInMem, EachInWord, MemInRange, MemInScope, WordInRange, WordInScope};

use crate::term::{Cond, Mem, Word};

/// Whether each variable of the term is one of the first `words` or the first `mems`. All of the
/// term is looked at, so that the clauses on numbers and on ranges hold of any answer.
#[cycle(scopes)]
pub fn is_word_in_scope(t: &Word, words: usize, mems: usize) -> bool
    ensures scope { IsTrue result ↔ WordInScope (word_tree t.now) words mems }
    ensures numbers { EachInWord (λ i. i < 2 ^ 32) (λ i. i < 2 ^ 32) (word_tree t.now) }
    ensures range { WordInRange (word_tree t.now) }
{
    match t {
        Word::Const(n) => {
            let _constant = *n;
            true
        }
        Word::Var(i) => (*i as usize) < words,
        Word::Bin(_, a, b) => {
            let left = is_word_in_scope(a, words, mems);
            let right = is_word_in_scope(b, words, mems);
            left && right
        }
        Word::Extend(_, a) => is_word_in_scope(a, words, mems),
        Word::Load(_, m, a) => {
            let memory = is_mem_in_scope(m, words, mems);
            let address = is_word_in_scope(a, words, mems);
            memory && address
        }
    }
}

/// Whether each variable of the term for a memory is one of the first `words` or the first `mems`.
#[cycle(scopes)]
pub fn is_mem_in_scope(t: &Mem, words: usize, mems: usize) -> bool
    ensures scope { IsTrue result ↔ MemInScope (mem_tree t.now) words mems }
    ensures numbers { EachInMem (λ i. i < 2 ^ 32) (λ i. i < 2 ^ 32) (mem_tree t.now) }
    ensures range { MemInRange (mem_tree t.now) }
{
    match t {
        Mem::Var(i) => (*i as usize) < mems,
        Mem::Store(_, m, a, v) => {
            let memory = is_mem_in_scope(m, words, mems);
            let address = is_word_in_scope(a, words, mems);
            let stored = is_word_in_scope(v, words, mems);
            memory && address && stored
        }
    }
}

/// Whether each variable of the condition is one of the first `words` or the first `mems`.
pub fn is_cond_in_scope(t: &Cond, words: usize, mems: usize) -> bool
    ensures scope { IsTrue result ↔ CondInScope (cond_tree t.now) words mems }
    ensures numbers { EachInCond (λ i. i < 2 ^ 32) (λ i. i < 2 ^ 32) (cond_tree t.now) }
    ensures range { CondInRange (cond_tree t.now) }
{
    match t {
        Cond::Compare(_, a, b) => {
            let left = is_word_in_scope(a, words, mems);
            let right = is_word_in_scope(b, words, mems);
            left && right
        }
        Cond::Neg(c) => is_cond_in_scope(c, words, mems),
        Cond::Inside(_, m, a) => {
            let memory = is_mem_in_scope(m, words, mems);
            let address = is_word_in_scope(a, words, mems);
            memory && address
        }
    }
}
