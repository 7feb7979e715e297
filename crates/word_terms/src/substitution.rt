//! Terms put in for variables.

ghost use Rattle.std.specs.Prelude.{◌≡◌, ◌<◌, ◌≤◌, ◌+◌, IfOk, IfErr, IsErrOf};
ghost use Rattle.std.specs.Option.{option_copied};
ghost use Rattle.word_terms.specs.Tree.{cond_tree, depth_of_cond, depth_of_mem, depth_of_word, mem_tree, word_tree};
ghost use Rattle.word_terms.specs.Substitution.{listed, put_in_cond, put_in_mem, put_in_word, substitution_of};
ghost use Rattle.word_terms.specs.declared.substitution.TermFault.TheVariants.{NoMemory as NoRoom};

use crate::copy::{copy_mem, copy_word};
use crate::term::{Cond, Mem, Word, depth_mem, depth_word};
use rv_words::{List, NoMemory};
use std::alloc::{AllocFailed, Global};

/// How deep the result of a substitution, and a term of a text, may be.
pub const DEPTH_LIMIT: u32 = 64;

/// Terms for variables. Of several for one variable the first counts, and a variable that isn't
/// listed stays.
#[derive(Debug, Drop)]
pub struct Sub {
    pub words: List<(u32, Word)>,
    pub mems: List<(u32, Mem)>,
}

/// Why no term was made.
#[derive(Clone, Copy, Debug, PartialEq, Eq)]
pub enum TermFault {
    /// It would be deeper than 64.
    TooDeep,
    /// There was no memory.
    NoMemory,
}

impl From<NoMemory> for TermFault {
    ghost from_gives = { λ _ fault. fault ≡ NoRoom };

    fn from(_e: NoMemory) -> TermFault {
        TermFault::NoMemory
    }
}

impl<T: Drop> From<AllocFailed<T>> for TermFault {
    ghost from_gives = { λ _ fault. fault ≡ NoRoom };

    fn from(_e: AllocFailed<T>) -> TermFault {
        TermFault::NoMemory
    }
}

/// The term with all listed variables replaced at once.
pub fn subst_word(alloc: Global, t: &Word, s: &Sub) -> Result<Word, TermFault>
    ensures ok { IfOk result (λ w.
        word_tree w ≡ put_in_word (substitution_of s.now) (word_tree t.now)) }
    ensures depth { IfOk result (λ w. depth_of_word (word_tree w) ≤ 64) }
    ensures too_deep { IsErrOf result TermFault.TooDeep
        → 64 < depth_of_word (put_in_word (substitution_of s.now) (word_tree t.now)) }
{
    word_within(alloc, t, s, DEPTH_LIMIT)
}

/// The term for a memory with all listed variables replaced at once.
pub fn subst_mem(alloc: Global, t: &Mem, s: &Sub) -> Result<Mem, TermFault>
    ensures ok { IfOk result (λ w.
        mem_tree w ≡ put_in_mem (substitution_of s.now) (mem_tree t.now)) }
    ensures depth { IfOk result (λ w. depth_of_mem (mem_tree w) ≤ 64) }
    ensures too_deep { IsErrOf result TermFault.TooDeep
        → 64 < depth_of_mem (put_in_mem (substitution_of s.now) (mem_tree t.now)) }
{
    mem_within(alloc, t, s, DEPTH_LIMIT)
}

/// The condition with all listed variables replaced at once.
pub fn subst_cond(alloc: Global, t: &Cond, s: &Sub) -> Result<Cond, TermFault>
    ensures ok { IfOk result (λ w.
        cond_tree w ≡ put_in_cond (substitution_of s.now) (cond_tree t.now)) }
    ensures depth { IfOk result (λ w. depth_of_cond (cond_tree w) ≤ 64) }
    ensures too_deep { IsErrOf result TermFault.TooDeep
        → 64 < depth_of_cond (put_in_cond (substitution_of s.now) (cond_tree t.now)) }
{
    cond_within(alloc, t, s, DEPTH_LIMIT)
}

/// The term with its variables replaced, if it isn't deeper than `room`.
#[cycle(substitutions)]
fn word_within(alloc: Global, t: &Word, s: &Sub, room: u32) -> Result<Word, TermFault>
    requires { room ≤ 64 }
    ensures ok { IfOk result (λ w.
        word_tree w ≡ put_in_word (substitution_of s.now) (word_tree t.now)) }
    ensures depth { IfOk result (λ w. depth_of_word (word_tree w) ≤ room) }
    ensures too_deep { IsErrOf result TermFault.TooDeep
        → room < depth_of_word (put_in_word (substitution_of s.now) (word_tree t.now)) }
{
    match t {
        Word::Const(n) => {
            let _below = below(room)?;
            Ok(Word::Const(*n))
        }
        Word::Var(i) => match find(s.words.as_slice(), *i) {
            Some(w) => word_copied(alloc, w, room),
            None => {
                let _below = below(room)?;
                Ok(Word::Var(*i))
            }
        },
        Word::Bin(op, a, b) => {
            let below = below(room)?;
            let a = word_within(alloc, a, s, below)?;
            let b = word_within(alloc, b, s, below)?;
            let a = Box::new(alloc, a)?;
            let b = Box::new(alloc, b)?;
            Ok(Word::Bin(*op, a, b))
        }
        Word::Extend(ext, a) => {
            let below = below(room)?;
            let a = word_within(alloc, a, s, below)?;
            let a = Box::new(alloc, a)?;
            Ok(Word::Extend(*ext, a))
        }
        Word::Load(width, m, a) => {
            let below = below(room)?;
            let m = mem_within(alloc, m, s, below)?;
            let a = word_within(alloc, a, s, below)?;
            let m = Box::new(alloc, m)?;
            let a = Box::new(alloc, a)?;
            Ok(Word::Load(*width, m, a))
        }
    }
}

/// The term for a memory with its variables replaced, if it isn't deeper than `room`.
#[cycle(substitutions)]
fn mem_within(alloc: Global, t: &Mem, s: &Sub, room: u32) -> Result<Mem, TermFault>
    requires { room ≤ 64 }
    ensures ok { IfOk result (λ w.
        mem_tree w ≡ put_in_mem (substitution_of s.now) (mem_tree t.now)) }
    ensures depth { IfOk result (λ w. depth_of_mem (mem_tree w) ≤ room) }
    ensures too_deep { IsErrOf result TermFault.TooDeep
        → room < depth_of_mem (put_in_mem (substitution_of s.now) (mem_tree t.now)) }
{
    match t {
        Mem::Var(i) => match find(s.mems.as_slice(), *i) {
            Some(m) => mem_copied(alloc, m, room),
            None => {
                let _below = below(room)?;
                Ok(Mem::Var(*i))
            }
        },
        Mem::Store(width, m, a, v) => {
            let below = below(room)?;
            let m = mem_within(alloc, m, s, below)?;
            let a = word_within(alloc, a, s, below)?;
            let v = word_within(alloc, v, s, below)?;
            let m = Box::new(alloc, m)?;
            let a = Box::new(alloc, a)?;
            let v = Box::new(alloc, v)?;
            Ok(Mem::Store(*width, m, a, v))
        }
    }
}

/// The condition with its variables replaced, if it isn't deeper than `room`.
#[tactic(auto, using(crate::proofs::Depths::deep_cond))]
fn cond_within(alloc: Global, t: &Cond, s: &Sub, room: u32) -> Result<Cond, TermFault>
    requires { room ≤ 64 }
    ensures ok { IfOk result (λ w.
        cond_tree w ≡ put_in_cond (substitution_of s.now) (cond_tree t.now)) }
    ensures depth { IfOk result (λ w. depth_of_cond (cond_tree w) ≤ room) }
    ensures too_deep { IsErrOf result TermFault.TooDeep
        → room < depth_of_cond (put_in_cond (substitution_of s.now) (cond_tree t.now)) }
{
    let below = below(room)?;
    match t {
        Cond::Compare(cmp, a, b) => {
            let a = word_within(alloc, a, s, below)?;
            let b = word_within(alloc, b, s, below)?;
            let a = Box::new(alloc, a)?;
            let b = Box::new(alloc, b)?;
            Ok(Cond::Compare(*cmp, a, b))
        }
        Cond::Neg(c) => {
            let c = cond_within(alloc, c, s, below)?;
            let c = Box::new(alloc, c)?;
            Ok(Cond::Neg(c))
        }
        Cond::Inside(width, m, a) => {
            let m = mem_within(alloc, m, s, below)?;
            let a = word_within(alloc, a, s, below)?;
            let m = Box::new(alloc, m)?;
            let a = Box::new(alloc, a)?;
            Ok(Cond::Inside(*width, m, a))
        }
    }
}

/// The same term in memory of its own, if it isn't deeper than `room`.
fn word_copied(alloc: Global, t: &Word, room: u32) -> Result<Word, TermFault>
    requires { room ≤ 64 }
    ensures ok { IfOk result (λ w. word_tree w ≡ word_tree t.now) }
    ensures depth { IfOk result (λ w. depth_of_word (word_tree w) ≤ room) }
    ensures too_deep { IsErrOf result TermFault.TooDeep → room < depth_of_word (word_tree t.now) }
{
    if depth_word(t) > room {
        return Err(TermFault::TooDeep);
    }
    let copy = copy_word(alloc, t)?;
    Ok(copy)
}

/// The same term for a memory in memory of its own, if it isn't deeper than `room`.
fn mem_copied(alloc: Global, t: &Mem, room: u32) -> Result<Mem, TermFault>
    requires { room ≤ 64 }
    ensures ok { IfOk result (λ w. mem_tree w ≡ mem_tree t.now) }
    ensures depth { IfOk result (λ w. depth_of_mem (mem_tree w) ≤ room) }
    ensures too_deep { IsErrOf result TermFault.TooDeep → room < depth_of_mem (mem_tree t.now) }
{
    if depth_mem(t) > room {
        return Err(TermFault::TooDeep);
    }
    let copy = copy_mem(alloc, t)?;
    Ok(copy)
}

/// How deep the children may be of a term that may be as deep as `room`. No term has depth 0.
fn below(room: u32) -> Result<u32, TermFault>
    ensures ok { IfOk result (λ below. room ≡ below + 1) }
    ensures err { IfErr result (λ fault. room ≡ 0) }
{
    room.checked_sub(1).ok_or(TermFault::TooDeep)
}

/// What is listed for a number.
fn find<T>(list: &[(u32, T)], i: u32) -> Option<&T>
    ensures { option_copied result ≡ listed list.now i }
{
    for entry in list {
        if entry.0 == i {
            return Some(&entry.1);
        }
    }
    None
}
