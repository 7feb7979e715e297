//! Rewriting at a place in a term.

ghost use Rattle.std.specs.Prelude.{◌≡◌, ◌∷◌, IfOk, IfSome, IfNone};
ghost use Rattle.word_terms.specs.Tree.{cond_tree, mem_tree, word_tree};
ghost use Rattle.fun_laws.specs.Laws.{OfCond, OfMem, OfWord, Term};
ghost use Rattle.fun_laws.specs.Places.{Rewrites};
ghost use Rattle.fun_laws.specs.inner.Shapes.{given_cond_tree, given_tree, law_of};

use crate::shape::{Given, GivenCond, Shape, given_of, given_of_cond};
use rv_words::{Ext, NoMemory, Op};
use std::alloc::Global;
use word_terms::{Cond, Mem, Word, copy_cond, copy_mem, copy_word};

/// The word that a law gives.
pub fn made(alloc: Global, given: Given) -> Result<Word, NoMemory>
    ensures { IfOk result (λ t. word_tree t ≡ given_tree given.entry) }
{
    match given {
        Given::Part(t) => copy_word(alloc, t),
        Given::Constant(n) => Ok(Word::Const(n)),
        Given::Added(t, n) => {
            let a = copy_word(alloc, t)?;
            let a = Box::new(alloc, a)?;
            let b = Box::new(alloc, Word::Const(n))?;
            Ok(Word::Bin(Op::Add, a, b))
        }
        Given::Extended(t) => {
            let a = copy_word(alloc, t)?;
            let a = Box::new(alloc, a)?;
            Ok(Word::Extend(Ext::Sx4, a))
        }
    }
}

/// The condition that a law gives.
pub fn made_cond(alloc: Global, given: GivenCond) -> Result<Cond, NoMemory>
    ensures { IfOk result (λ c. cond_tree c ≡ given_cond_tree given.entry) }
{
    match given {
        GivenCond::Compared(cmp, a, b) => {
            let a = copy_word(alloc, a)?;
            let b = copy_word(alloc, b)?;
            let a = Box::new(alloc, a)?;
            let b = Box::new(alloc, b)?;
            Ok(Cond::Compare(cmp, a, b))
        }
        GivenCond::Part(c) => copy_cond(alloc, c),
    }
}

/// The word with the law applied at that place, if the place is there and the law matches.
#[cycle(rewriting)]
pub fn rewrite_word(
    alloc: Global,
    t: &Word,
    shape: Shape,
    place: &[u8],
) -> Result<Option<Word>, NoMemory>
    ensures some { IfOk result (λ o. IfSome o (λ u.
        Rewrites (law_of shape) place.now (OfWord (word_tree t.now)) (OfWord (word_tree u)))) }
    ensures none { IfOk result (λ o.
        IfNone o ((u : Term)
        → Rewrites (law_of shape) place.now (OfWord (word_tree t.now)) u
        → ⊥)) }
{
    match place {
        [] => match given_of(shape, t) {
            Some(given) => {
                let u = made(alloc, given)?;
                Ok(Some(u))
            }
            None => Ok(None),
        },
        [k, rest @ ..] => word_below(alloc, t, shape, *k, rest),
    }
}

/// The word with the law applied at a place in its child of that number.
#[cycle(rewriting)]
fn word_below(
    alloc: Global,
    t: &Word,
    shape: Shape,
    k: u8,
    rest: &[u8],
) -> Result<Option<Word>, NoMemory>
    ensures some { IfOk result (λ o. IfSome o (λ u.
        Rewrites (law_of shape) (k ∷ rest.now) (OfWord (word_tree t.now)) (OfWord (word_tree u)))) }
    ensures none { IfOk result (λ o.
        IfNone o ((u : Term)
        → Rewrites (law_of shape) (k ∷ rest.now) (OfWord (word_tree t.now)) u
        → ⊥)) }
{
    match t {
        Word::Const(_) => Ok(None),
        Word::Var(_) => Ok(None),
        Word::Bin(op, a, b) => match k {
            0 => match rewrite_word(alloc, a, shape, rest)? {
                Some(x) => {
                    let b = copy_word(alloc, b)?;
                    let x = Box::new(alloc, x)?;
                    let b = Box::new(alloc, b)?;
                    Ok(Some(Word::Bin(*op, x, b)))
                }
                None => Ok(None),
            },
            1 => match rewrite_word(alloc, b, shape, rest)? {
                Some(x) => {
                    let a = copy_word(alloc, a)?;
                    let a = Box::new(alloc, a)?;
                    let x = Box::new(alloc, x)?;
                    Ok(Some(Word::Bin(*op, a, x)))
                }
                None => Ok(None),
            },
            _ => Ok(None),
        },
        Word::Extend(ext, a) => match k {
            0 => match rewrite_word(alloc, a, shape, rest)? {
                Some(x) => {
                    let x = Box::new(alloc, x)?;
                    Ok(Some(Word::Extend(*ext, x)))
                }
                None => Ok(None),
            },
            _ => Ok(None),
        },
        Word::Load(width, m, a) => match k {
            0 => match rewrite_mem(alloc, m, shape, rest)? {
                Some(x) => {
                    let a = copy_word(alloc, a)?;
                    let x = Box::new(alloc, x)?;
                    let a = Box::new(alloc, a)?;
                    Ok(Some(Word::Load(*width, x, a)))
                }
                None => Ok(None),
            },
            1 => match rewrite_word(alloc, a, shape, rest)? {
                Some(x) => {
                    let m = copy_mem(alloc, m)?;
                    let m = Box::new(alloc, m)?;
                    let x = Box::new(alloc, x)?;
                    Ok(Some(Word::Load(*width, m, x)))
                }
                None => Ok(None),
            },
            _ => Ok(None),
        },
    }
}

/// The memory with the law applied at that place, if the place is there and the law matches.
#[cycle(rewriting)]
pub fn rewrite_mem(
    alloc: Global,
    t: &Mem,
    shape: Shape,
    place: &[u8],
) -> Result<Option<Mem>, NoMemory>
    ensures some { IfOk result (λ o. IfSome o (λ u.
        Rewrites (law_of shape) place.now (OfMem (mem_tree t.now)) (OfMem (mem_tree u)))) }
    ensures none { IfOk result (λ o.
        IfNone o ((u : Term) → Rewrites (law_of shape) place.now (OfMem (mem_tree t.now)) u → ⊥)) }
{
    match place {
        [] => Ok(None),
        [k, rest @ ..] => mem_below(alloc, t, shape, *k, rest),
    }
}

/// The memory with the law applied at a place in its child of that number.
#[cycle(rewriting)]
fn mem_below(
    alloc: Global,
    t: &Mem,
    shape: Shape,
    k: u8,
    rest: &[u8],
) -> Result<Option<Mem>, NoMemory>
    ensures some { IfOk result (λ o. IfSome o (λ u.
        Rewrites (law_of shape) (k ∷ rest.now) (OfMem (mem_tree t.now)) (OfMem (mem_tree u)))) }
    ensures none { IfOk result (λ o.
        IfNone o ((u : Term)
        → Rewrites (law_of shape) (k ∷ rest.now) (OfMem (mem_tree t.now)) u
        → ⊥)) }
{
    match t {
        Mem::Var(_) => Ok(None),
        Mem::Store(width, m, a, v) => match k {
            0 => match rewrite_mem(alloc, m, shape, rest)? {
                Some(x) => {
                    let a = copy_word(alloc, a)?;
                    let v = copy_word(alloc, v)?;
                    let x = Box::new(alloc, x)?;
                    let a = Box::new(alloc, a)?;
                    let v = Box::new(alloc, v)?;
                    Ok(Some(Mem::Store(*width, x, a, v)))
                }
                None => Ok(None),
            },
            1 => match rewrite_word(alloc, a, shape, rest)? {
                Some(x) => {
                    let m = copy_mem(alloc, m)?;
                    let v = copy_word(alloc, v)?;
                    let m = Box::new(alloc, m)?;
                    let x = Box::new(alloc, x)?;
                    let v = Box::new(alloc, v)?;
                    Ok(Some(Mem::Store(*width, m, x, v)))
                }
                None => Ok(None),
            },
            2 => match rewrite_word(alloc, v, shape, rest)? {
                Some(x) => {
                    let m = copy_mem(alloc, m)?;
                    let a = copy_word(alloc, a)?;
                    let m = Box::new(alloc, m)?;
                    let a = Box::new(alloc, a)?;
                    let x = Box::new(alloc, x)?;
                    Ok(Some(Mem::Store(*width, m, a, x)))
                }
                None => Ok(None),
            },
            _ => Ok(None),
        },
    }
}

/// The condition with the law applied at that place, if the place is there and the law matches.
#[cycle(rewriting_conds)]
pub fn rewrite_cond(
    alloc: Global,
    t: &Cond,
    shape: Shape,
    place: &[u8],
) -> Result<Option<Cond>, NoMemory>
    ensures some { IfOk result (λ o. IfSome o (λ u.
        Rewrites (law_of shape) place.now (OfCond (cond_tree t.now)) (OfCond (cond_tree u)))) }
    ensures none { IfOk result (λ o.
        IfNone o ((u : Term)
        → Rewrites (law_of shape) place.now (OfCond (cond_tree t.now)) u
        → ⊥)) }
{
    match place {
        [] => match given_of_cond(shape, t) {
            Some(given) => {
                let u = made_cond(alloc, given)?;
                Ok(Some(u))
            }
            None => Ok(None),
        },
        [k, rest @ ..] => cond_below(alloc, t, shape, *k, rest),
    }
}

/// The condition with the law applied at a place in its child of that number.
#[cycle(rewriting_conds)]
fn cond_below(
    alloc: Global,
    t: &Cond,
    shape: Shape,
    k: u8,
    rest: &[u8],
) -> Result<Option<Cond>, NoMemory>
    ensures some { IfOk result (λ o. IfSome o (λ u.
        Rewrites (law_of shape) (k ∷ rest.now) (OfCond (cond_tree t.now)) (OfCond (cond_tree u)))) }
    ensures none { IfOk result (λ o.
        IfNone o ((u : Term)
        → Rewrites (law_of shape) (k ∷ rest.now) (OfCond (cond_tree t.now)) u
        → ⊥)) }
{
    match t {
        Cond::Compare(cmp, a, b) => match k {
            0 => match rewrite_word(alloc, a, shape, rest)? {
                Some(x) => {
                    let b = copy_word(alloc, b)?;
                    let x = Box::new(alloc, x)?;
                    let b = Box::new(alloc, b)?;
                    Ok(Some(Cond::Compare(*cmp, x, b)))
                }
                None => Ok(None),
            },
            1 => match rewrite_word(alloc, b, shape, rest)? {
                Some(x) => {
                    let a = copy_word(alloc, a)?;
                    let a = Box::new(alloc, a)?;
                    let x = Box::new(alloc, x)?;
                    Ok(Some(Cond::Compare(*cmp, a, x)))
                }
                None => Ok(None),
            },
            _ => Ok(None),
        },
        Cond::Neg(c) => match k {
            0 => match rewrite_cond(alloc, c, shape, rest)? {
                Some(x) => {
                    let x = Box::new(alloc, x)?;
                    Ok(Some(Cond::Neg(x)))
                }
                None => Ok(None),
            },
            _ => Ok(None),
        },
        Cond::Inside(width, m, a) => match k {
            0 => match rewrite_mem(alloc, m, shape, rest)? {
                Some(x) => {
                    let a = copy_word(alloc, a)?;
                    let x = Box::new(alloc, x)?;
                    let a = Box::new(alloc, a)?;
                    Ok(Some(Cond::Inside(*width, x, a)))
                }
                None => Ok(None),
            },
            1 => match rewrite_word(alloc, a, shape, rest)? {
                Some(x) => {
                    let m = copy_mem(alloc, m)?;
                    let m = Box::new(alloc, m)?;
                    let x = Box::new(alloc, x)?;
                    Ok(Some(Cond::Inside(*width, m, x)))
                }
                None => Ok(None),
            },
            _ => Ok(None),
        },
    }
}
