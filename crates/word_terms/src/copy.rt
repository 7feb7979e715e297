//! Terms copied into memory of their own, however deep they are.

ghost use Rattle.std.specs.Prelude.{◌≡◌, IfOk, map};
ghost use Rattle.word_terms.specs.Tree.{cond_tree, mem_tree, word_tree};

use crate::term::{Cond, Mem, Word};
use rv_words::{List, NoMemory};
use std::alloc::Global;

/// The same term in memory of its own.
#[cycle(copies)]
pub fn copy_word(alloc: Global, t: &Word) -> Result<Word, NoMemory>
    ensures { IfOk result (λ copy. word_tree copy ≡ word_tree t.now) }
{
    match t {
        Word::Const(n) => Ok(Word::Const(*n)),
        Word::Var(i) => Ok(Word::Var(*i)),
        Word::Bin(op, a, b) => {
            let a = copy_word(alloc, a)?;
            let b = copy_word(alloc, b)?;
            let a = Box::new(alloc, a)?;
            let b = Box::new(alloc, b)?;
            Ok(Word::Bin(*op, a, b))
        }
        Word::Extend(ext, a) => {
            let a = copy_word(alloc, a)?;
            let a = Box::new(alloc, a)?;
            Ok(Word::Extend(*ext, a))
        }
        Word::Load(width, m, a) => {
            let m = copy_mem(alloc, m)?;
            let a = copy_word(alloc, a)?;
            let m = Box::new(alloc, m)?;
            let a = Box::new(alloc, a)?;
            Ok(Word::Load(*width, m, a))
        }
    }
}

/// The same term for a memory in memory of its own.
#[cycle(copies)]
pub fn copy_mem(alloc: Global, t: &Mem) -> Result<Mem, NoMemory>
    ensures { IfOk result (λ copy. mem_tree copy ≡ mem_tree t.now) }
{
    match t {
        Mem::Var(i) => Ok(Mem::Var(*i)),
        Mem::Store(width, m, a, v) => {
            let m = copy_mem(alloc, m)?;
            let a = copy_word(alloc, a)?;
            let v = copy_word(alloc, v)?;
            let m = Box::new(alloc, m)?;
            let a = Box::new(alloc, a)?;
            let v = Box::new(alloc, v)?;
            Ok(Mem::Store(*width, m, a, v))
        }
    }
}

/// The same condition in memory of its own.
pub fn copy_cond(alloc: Global, t: &Cond) -> Result<Cond, NoMemory>
    ensures { IfOk result (λ copy. cond_tree copy ≡ cond_tree t.now) }
{
    match t {
        Cond::Compare(cmp, a, b) => {
            let a = copy_word(alloc, a)?;
            let b = copy_word(alloc, b)?;
            let a = Box::new(alloc, a)?;
            let b = Box::new(alloc, b)?;
            Ok(Cond::Compare(*cmp, a, b))
        }
        Cond::Neg(c) => {
            let c = copy_cond(alloc, c)?;
            let c = Box::new(alloc, c)?;
            Ok(Cond::Neg(c))
        }
        Cond::Inside(width, m, a) => {
            let m = copy_mem(alloc, m)?;
            let a = copy_word(alloc, a)?;
            let m = Box::new(alloc, m)?;
            let a = Box::new(alloc, a)?;
            Ok(Cond::Inside(*width, m, a))
        }
    }
}

/// The same terms in memory of their own.
#[tactic(auto, using(crate::proofs::Copies::image_pushed))]
pub fn copy_words(alloc: Global, words: &[Word]) -> Result<List<Word>, NoMemory>
    ensures { IfOk result (λ copies. map word_tree copies ≡ map word_tree words.now) }
{
    let mut copies = List::new(alloc);
    for t in words {
        let copy = copy_word(alloc, t)?;
        copies.push(copy)?;
    }
    Ok(copies)
}

/// The same terms for memories in memory of their own.
#[tactic(auto, using(crate::proofs::Copies::image_pushed))]
pub fn copy_mems(alloc: Global, mems: &[Mem]) -> Result<List<Mem>, NoMemory>
    ensures { IfOk result (λ copies. map mem_tree copies ≡ map mem_tree mems.now) }
{
    let mut copies = List::new(alloc);
    for t in mems {
        let copy = copy_mem(alloc, t)?;
        copies.push(copy)?;
    }
    Ok(copies)
}
