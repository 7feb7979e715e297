//! Terms compared with others after terms are put in for their variables. No term is built.

ghost use Rattle.std.specs.Prelude.{◌≡◌, ◌↔◌, IsTrue, map};
ghost use Rattle.word_terms.specs.Tree.{cond_tree, mem_tree, word_tree};
ghost use Rattle.word_terms.specs.Substitution.{put_in_cond, put_in_mem, put_in_word, substitution_of, mem_for, word_for};
ghost use Rattle.tailrec_lang.specs.Tree.{values_tree};
ghost use Rattle.sep_assert.specs.Tree.{assertion_tree, register_tree};
ghost use Rattle.triple_kernel.specs.Tree.{fact_tree};
ghost use Rattle.triple_kernel.specs.Rules.{put_in_assertion, put_in_fact, put_in_register, put_in_values};

use crate::triple::Fact;
use sep_assert::Assertion;
use tailrec_lang::Values;
use word_terms::{Cond, Mem, Sub, Word, same_mem, same_word};

/// Whether `b` is `a` with all listed variables replaced at once.
#[cycle(images)]
fn is_word_image(a: &Word, s: &Sub, b: &Word) -> bool
    ensures { IsTrue result
        ↔ (put_in_word (substitution_of s.now) (word_tree a.now) ≡ word_tree b.now) }
{
    match a {
        Word::Const(n) => match b {
            Word::Const(m) => *n == *m,
            _ => false,
        },
        Word::Var(i) => is_word_for(s, *i, b),
        Word::Bin(op, x, y) => match b {
            Word::Bin(o, u, v) => *op == *o && is_word_image(x, s, u) && is_word_image(y, s, v),
            _ => false,
        },
        Word::Extend(ext, x) => match b {
            Word::Extend(e, u) => *ext == *e && is_word_image(x, s, u),
            _ => false,
        },
        Word::Load(width, m, x) => match b {
            Word::Load(w, n, u) => {
                *width == *w && is_mem_image(m, s, n) && is_word_image(x, s, u)
            }
            _ => false,
        },
    }
}

#[cycle(images)]
fn is_mem_image(a: &Mem, s: &Sub, b: &Mem) -> bool
    ensures { IsTrue result
        ↔ (put_in_mem (substitution_of s.now) (mem_tree a.now) ≡ mem_tree b.now) }
{
    match a {
        Mem::Var(i) => is_mem_for(s, *i, b),
        Mem::Store(width, m, x, y) => match b {
            Mem::Store(w, n, u, v) => {
                *width == *w
                    && is_mem_image(m, s, n)
                    && is_word_image(x, s, u)
                    && is_word_image(y, s, v)
            }
            _ => false,
        },
    }
}

fn is_cond_image(a: &Cond, s: &Sub, b: &Cond) -> bool
    ensures { IsTrue result
        ↔ (put_in_cond (substitution_of s.now) (cond_tree a.now) ≡ cond_tree b.now) }
{
    match a {
        Cond::Compare(cmp, x, y) => match b {
            Cond::Compare(c, u, v) => *cmp == *c
                && is_word_image(x, s, u)
                && is_word_image(y, s, v),
            _ => false,
        },
        Cond::Neg(x) => match b {
            Cond::Neg(u) => is_cond_image(x, s, u),
            _ => false,
        },
        Cond::Inside(width, m, x) => match b {
            Cond::Inside(w, n, u) => {
                *width == *w && is_mem_image(m, s, n) && is_word_image(x, s, u)
            }
            _ => false,
        },
    }
}

/// Whether `b` stands in the place of word variable `i`: its listed term, or the variable itself.
fn is_word_for(s: &Sub, i: u32, b: &Word) -> bool
    ensures { IsTrue result ↔ (word_for (substitution_of s.now) i ≡ word_tree b.now) }
{
    for entry in s.words.as_slice() {
        if entry.0 == i {
            return same_word(&entry.1, b);
        }
    }
    match b {
        Word::Var(j) => i == *j,
        _ => false,
    }
}

/// Whether `b` stands in the place of memory variable `i`.
fn is_mem_for(s: &Sub, i: u32, b: &Mem) -> bool
    ensures { IsTrue result ↔ (mem_for (substitution_of s.now) i ≡ mem_tree b.now) }
{
    for entry in s.mems.as_slice() {
        if entry.0 == i {
            return same_mem(&entry.1, b);
        }
    }
    match b {
        Mem::Var(j) => i == *j,
        _ => false,
    }
}

#[tactic(auto, using(crate::proofs::ImageLemmas::images_differ))]
fn are_word_images(a: &[Word], s: &Sub, b: &[Word]) -> bool
    ensures { IsTrue result
        ↔ (map (put_in_word (substitution_of s.now)) (map word_tree a.now) ≡ map word_tree b.now) }
{
    if a.len() != b.len() {
        return false;
    }
    for i in 0..a.len() {
        if !is_word_image(&a[i], s, &b[i]) {
            return false;
        }
    }
    true
}

#[tactic(auto, using(crate::proofs::ImageLemmas::images_differ))]
fn are_mem_images(a: &[Mem], s: &Sub, b: &[Mem]) -> bool
    ensures { IsTrue result
        ↔ (map (put_in_mem (substitution_of s.now)) (map mem_tree a.now) ≡ map mem_tree b.now) }
{
    if a.len() != b.len() {
        return false;
    }
    for i in 0..a.len() {
        if !is_mem_image(&a[i], s, &b[i]) {
            return false;
        }
    }
    true
}

fn is_values_image(a: &Values, s: &Sub, b: &Values) -> bool
    ensures { IsTrue result
        ↔ (put_in_values (substitution_of s.now) (values_tree a.now) ≡ values_tree b.now) }
{
    are_word_images(a.words.as_slice(), s, b.words.as_slice())
        && are_mem_images(a.mems.as_slice(), s, b.mems.as_slice())
}

fn is_fact_image(a: &Fact, s: &Sub, b: &Fact) -> bool
    ensures { IsTrue result
        ↔ (put_in_fact (substitution_of s.now) (fact_tree a.now) ≡ fact_tree b.now) }
{
    match a {
        Fact::WordIs(x, y) => match b {
            Fact::WordIs(u, v) => is_word_image(x, s, u) && is_word_image(y, s, v),
            _ => false,
        },
        Fact::MemIs(x, y) => match b {
            Fact::MemIs(u, v) => is_mem_image(x, s, u) && is_mem_image(y, s, v),
            _ => false,
        },
        Fact::So(x) => match b {
            Fact::So(u) => is_cond_image(x, s, u),
            _ => false,
        },
        Fact::Gives {
            def,
            exit,
            args,
            results,
        } => match b {
            Fact::Gives {
                def: d,
                exit: e,
                args: x,
                results: y,
            } => {
                *def == *d
                    && *exit == *e
                    && is_values_image(args, s, x)
                    && is_values_image(results, s, y)
            }
            _ => false,
        },
    }
}

/// Whether the second facts are the first with all listed variables replaced at once.
#[tactic(auto, using(crate::proofs::ImageLemmas::images_differ))]
pub fn are_fact_images(a: &[Fact], s: &Sub, b: &[Fact]) -> bool
    ensures { IsTrue result
        ↔ (map (put_in_fact (substitution_of s.now)) (map fact_tree a.now) ≡ map fact_tree b.now) }
{
    if a.len() != b.len() {
        return false;
    }
    for i in 0..a.len() {
        if !is_fact_image(&a[i], s, &b[i]) {
            return false;
        }
    }
    true
}

#[tactic(auto, using(crate::proofs::ImageLemmas::images_differ))]
fn are_register_images(a: &[(u8, Word)], s: &Sub, b: &[(u8, Word)]) -> bool
    ensures { IsTrue result
        ↔ (map (put_in_register (substitution_of s.now)) (map register_tree a.now)
        ≡ map register_tree b.now) }
{
    if a.len() != b.len() {
        return false;
    }
    for i in 0..a.len() {
        if !is_register_image(&a[i], s, &b[i]) {
            return false;
        }
    }
    true
}

fn is_register_image(a: &(u8, Word), s: &Sub, b: &(u8, Word)) -> bool
    ensures { IsTrue result
        ↔ (put_in_register (substitution_of s.now) (register_tree a.now) ≡ register_tree b.now) }
{
    a.0 == b.0 && is_word_image(&a.1, s, &b.1)
}

/// Whether the second assertion is the first with all listed variables replaced at once.
pub fn is_assertion_image(a: &Assertion, s: &Sub, b: &Assertion) -> bool
    ensures { IsTrue result
        ↔ (put_in_assertion (substitution_of s.now) (assertion_tree a.now) ≡ assertion_tree b.now) }
{
    is_word_image(&a.pc, s, &b.pc)
        && are_register_images(a.regs.as_slice(), s, b.regs.as_slice())
        && are_mem_images(a.mems.as_slice(), s, b.mems.as_slice())
}
