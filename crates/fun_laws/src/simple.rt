//! Terms rewritten from their children on, until no law matches at any place.

ghost use Rattle.std.specs.Prelude.{◌≡◌, [], IfNone, IfOk, IfSome};
ghost use Rattle.word_terms.specs.Tree.{Bin, Compare, Extend, Inside, Load, Neg, Store, cond_tree, mem_tree, word_tree};
ghost use Rattle.fun_laws.specs.Laws.{OfCond, OfMem, OfWord};
ghost use Rattle.fun_laws.specs.Simple.{IsSimple};
ghost use Rattle.fun_laws.specs.inner.Shapes.{given_cond_tree, given_tree};
ghost use Rattle.fun_laws.specs.inner.Steps.{GivesBy, HasSimpleChildren, IsFree, IsNoted, IsSettled};

use crate::log::Log;
use crate::place::{made, made_cond};
use crate::shape::{Given, GivenCond, LAW_COUNT, given_of, given_of_cond, shape_of};
use rv_words::{Cmp, Ext, NoMemory, Op, Width};
use std::alloc::Global;
use word_terms::{Cond, Mem, Word};

/// What the law of that number gives of the word itself.
fn given_by(law: u32, t: &Word) -> Option<Given<'_>>
    ensures some { IfSome result (λ g.
        GivesBy law (OfWord (word_tree t.now)) (OfWord (given_tree g))) }
    ensures none { IfNone result (IsFree law (OfWord (word_tree t.now))) }
{
    match shape_of(law) {
        Some(shape) => given_of(shape, t),
        None => None,
    }
}

/// The first law that matches the word itself, and what it gives.
fn first_law(t: &Word) -> Option<(u32, Given<'_>)>
    ensures some { IfSome result (λ p.
        GivesBy p.0 (OfWord (word_tree t.now)) (OfWord (given_tree p.1))) }
    ensures none { IfNone result (IsSettled (OfWord (word_tree t.now))) }
{
    for law in 1..=LAW_COUNT {
        match given_by(law, t) {
            Some(given) => return Some((law, given)),
            None => (),
        }
    }
    None
}

/// What the law of that number gives of the condition itself.
fn given_cond_by(law: u32, c: &Cond) -> Option<GivenCond<'_>>
    ensures some { IfSome result (λ g.
        GivesBy law (OfCond (cond_tree c.now)) (OfCond (given_cond_tree g))) }
    ensures none { IfNone result (IsFree law (OfCond (cond_tree c.now))) }
{
    match shape_of(law) {
        Some(shape) => given_of_cond(shape, c),
        None => None,
    }
}

/// The first law that matches the condition itself, and what it gives.
fn first_cond_law(c: &Cond) -> Option<(u32, GivenCond<'_>)>
    ensures some { IfSome result (λ p.
        GivesBy p.0 (OfCond (cond_tree c.now)) (OfCond (given_cond_tree p.1))) }
    ensures none { IfNone result (IsSettled (OfCond (cond_tree c.now))) }
{
    for law in 1..=LAW_COUNT {
        match given_cond_by(law, c) {
            Some(given) => return Some((law, given)),
            None => (),
        }
    }
    None
}

/// The word rewritten at its root, where its children are simple, until it is simple too. Few steps
/// do that, since what a law gives is made of those children.
#[tactic(auto, using(crate::proofs::SimpleLemmas::simple_made, crate::proofs::Noted::word_noted_then, crate::proofs::Noted::nothing_noted))]
fn settle_word(alloc: Global, t: Word, log: &mut Log) -> Result<Word, NoMemory>
    requires { HasSimpleChildren (OfWord (word_tree t)) }
    ensures noted { IfOk result (λ u.
        IsNoted OfWord [] log.old log.new (word_tree t) (word_tree u)) }
    ensures simple { IfOk result (λ u. IsSimple (OfWord (word_tree u))) }
{
    match first_law(&t) {
        Some((law, given)) => {
            let u = made(alloc, given)?;
            log.note(alloc, law)?;
            settle_word(alloc, u, log)
        }
        None => Ok(t),
    }
}

/// The condition rewritten at its root, where its children are simple, until it is simple too.
#[tactic(auto, using(crate::proofs::SimpleLemmas::simple_made, crate::proofs::Noted::cond_noted_then, crate::proofs::Noted::nothing_noted))]
fn settle_cond(alloc: Global, c: Cond, log: &mut Log) -> Result<Cond, NoMemory>
    requires { HasSimpleChildren (OfCond (cond_tree c)) }
    ensures noted { IfOk result (λ d.
        IsNoted OfCond [] log.old log.new (cond_tree c) (cond_tree d)) }
    ensures simple { IfOk result (λ d. IsSimple (OfCond (cond_tree d))) }
{
    match first_cond_law(&c) {
        Some((law, given)) => {
            let d = made_cond(alloc, given)?;
            log.note(alloc, law)?;
            settle_cond(alloc, d, log)
        }
        None => Ok(c),
    }
}

fn made_bin(alloc: Global, op: Op, a: Word, b: Word) -> Result<Word, NoMemory>
    ensures { IfOk result (λ t. word_tree t ≡ Bin op (word_tree a) (word_tree b)) }
{
    let a = Box::new(alloc, a)?;
    let b = Box::new(alloc, b)?;
    Ok(Word::Bin(op, a, b))
}

fn made_extend(alloc: Global, ext: Ext, a: Word) -> Result<Word, NoMemory>
    ensures { IfOk result (λ t. word_tree t ≡ Extend ext (word_tree a)) }
{
    let a = Box::new(alloc, a)?;
    Ok(Word::Extend(ext, a))
}

fn made_load(alloc: Global, width: Width, m: Mem, a: Word) -> Result<Word, NoMemory>
    ensures { IfOk result (λ t. word_tree t ≡ Load width (mem_tree m) (word_tree a)) }
{
    let m = Box::new(alloc, m)?;
    let a = Box::new(alloc, a)?;
    Ok(Word::Load(width, m, a))
}

fn made_store(alloc: Global, width: Width, m: Mem, a: Word, v: Word) -> Result<Mem, NoMemory>
    ensures { IfOk result (λ t. mem_tree t ≡ Store width (mem_tree m) (word_tree a) (word_tree v)) }
{
    let m = Box::new(alloc, m)?;
    let a = Box::new(alloc, a)?;
    let v = Box::new(alloc, v)?;
    Ok(Mem::Store(width, m, a, v))
}

fn made_compare(alloc: Global, cmp: Cmp, a: Word, b: Word) -> Result<Cond, NoMemory>
    ensures { IfOk result (λ c. cond_tree c ≡ Compare cmp (word_tree a) (word_tree b)) }
{
    let a = Box::new(alloc, a)?;
    let b = Box::new(alloc, b)?;
    Ok(Cond::Compare(cmp, a, b))
}

fn made_neg(alloc: Global, c: Cond) -> Result<Cond, NoMemory>
    ensures { IfOk result (λ d. cond_tree d ≡ Neg (cond_tree c)) }
{
    let c = Box::new(alloc, c)?;
    Ok(Cond::Neg(c))
}

fn made_inside(alloc: Global, width: Width, m: Mem, a: Word) -> Result<Cond, NoMemory>
    ensures { IfOk result (λ c. cond_tree c ≡ Inside width (mem_tree m) (word_tree a)) }
{
    let m = Box::new(alloc, m)?;
    let a = Box::new(alloc, a)?;
    Ok(Cond::Inside(width, m, a))
}

/// The word rewritten until no law matches at any place; the steps are noted.
#[cycle(simplifying)]
#[tactic(auto, using(crate::proofs::Noted::bin_noted, crate::proofs::Noted::extend_noted, crate::proofs::Noted::load_noted, crate::proofs::SimpleLemmas::const_children, crate::proofs::SimpleLemmas::var_children, crate::proofs::SimpleLemmas::bin_children, crate::proofs::SimpleLemmas::extend_children, crate::proofs::SimpleLemmas::load_children))]
pub fn simple_word(alloc: Global, t: &Word, log: &mut Log) -> Result<Word, NoMemory>
    ensures noted { IfOk result (λ u.
        IsNoted OfWord [] log.old log.new (word_tree t.now) (word_tree u)) }
    ensures simple { IfOk result (λ u. IsSimple (OfWord (word_tree u))) }
{
    match t {
        Word::Const(n) => settle_word(alloc, Word::Const(*n), log),
        Word::Var(i) => settle_word(alloc, Word::Var(*i), log),
        Word::Bin(op, a, b) => {
            log.enter(0)?;
            let x = simple_word(alloc, a, log)?;
            log.leave();
            log.enter(1)?;
            let y = simple_word(alloc, b, log)?;
            log.leave();
            let u = made_bin(alloc, *op, x, y)?;
            settle_word(alloc, u, log)
        }
        Word::Extend(ext, a) => {
            log.enter(0)?;
            let x = simple_word(alloc, a, log)?;
            log.leave();
            let u = made_extend(alloc, *ext, x)?;
            settle_word(alloc, u, log)
        }
        Word::Load(width, m, a) => {
            log.enter(0)?;
            let n = simple_mem(alloc, m, log)?;
            log.leave();
            log.enter(1)?;
            let x = simple_word(alloc, a, log)?;
            log.leave();
            let u = made_load(alloc, *width, n, x)?;
            settle_word(alloc, u, log)
        }
    }
}

/// The memory rewritten until no law matches at any place; the steps are noted.
#[cycle(simplifying)]
#[tactic(auto, using(crate::proofs::Noted::store_noted, crate::proofs::Noted::nothing_noted, crate::proofs::SimpleLemmas::variable_simple, crate::proofs::SimpleLemmas::store_simple))]
pub fn simple_mem(alloc: Global, t: &Mem, log: &mut Log) -> Result<Mem, NoMemory>
    ensures noted { IfOk result (λ u.
        IsNoted OfMem [] log.old log.new (mem_tree t.now) (mem_tree u)) }
    ensures simple { IfOk result (λ u. IsSimple (OfMem (mem_tree u))) }
{
    match t {
        Mem::Var(i) => Ok(Mem::Var(*i)),
        Mem::Store(width, m, a, v) => {
            log.enter(0)?;
            let n = simple_mem(alloc, m, log)?;
            log.leave();
            log.enter(1)?;
            let x = simple_word(alloc, a, log)?;
            log.leave();
            log.enter(2)?;
            let y = simple_word(alloc, v, log)?;
            log.leave();
            let u = made_store(alloc, *width, n, x, y)?;
            Ok(u)
        }
    }
}

/// The condition rewritten until no law matches at any place; the steps are noted.
#[tactic(auto, using(crate::proofs::Noted::compare_noted, crate::proofs::Noted::neg_noted, crate::proofs::Noted::inside_noted, crate::proofs::SimpleLemmas::compare_children, crate::proofs::SimpleLemmas::neg_children, crate::proofs::SimpleLemmas::inside_children))]
pub fn simple_cond(alloc: Global, c: &Cond, log: &mut Log) -> Result<Cond, NoMemory>
    ensures noted { IfOk result (λ d.
        IsNoted OfCond [] log.old log.new (cond_tree c.now) (cond_tree d)) }
    ensures simple { IfOk result (λ d. IsSimple (OfCond (cond_tree d))) }
{
    match c {
        Cond::Compare(cmp, a, b) => {
            log.enter(0)?;
            let x = simple_word(alloc, a, log)?;
            log.leave();
            log.enter(1)?;
            let y = simple_word(alloc, b, log)?;
            log.leave();
            let d = made_compare(alloc, *cmp, x, y)?;
            settle_cond(alloc, d, log)
        }
        Cond::Neg(b) => {
            log.enter(0)?;
            let x = simple_cond(alloc, b, log)?;
            log.leave();
            let d = made_neg(alloc, x)?;
            settle_cond(alloc, d, log)
        }
        Cond::Inside(width, m, a) => {
            log.enter(0)?;
            let n = simple_mem(alloc, m, log)?;
            log.leave();
            log.enter(1)?;
            let x = simple_word(alloc, a, log)?;
            log.leave();
            let d = made_inside(alloc, *width, n, x)?;
            settle_cond(alloc, d, log)
        }
    }
}
