//! What is told where a definition is left.

ghost use Rattle.std.specs.Prelude.{◌≡◌, IfOk, codes, map, suc};
ghost use Rattle.word_terms.specs.Tree.{mem_tree, word_tree};
ghost use Rattle.tailrec_lang.specs.Tree.{values_tree};
ghost use Rattle.smt_terms.specs.Expression.{is_atom};
ghost use Rattle.smt_terms.specs.Views.{expr};
ghost use Rattle.smt_export.specs.declared.told.Told.TheVariants.{ExitNumber};
ghost use Rattle.smt_export.specs.Terms.{falsity};
ghost use Rattle.smt_export.specs.Bodies.{with_condition, conjunction, default, dom_or, left_by, left_pc, left_word, mem_or, exit_number, word_or};

use crate::term_trees::{dom_term, mem_term, word_term};
use crate::told::Told;
use rv_words::{List, NoMemory};
use smt_terms::{Tree, atom, is_atom, ite, numbered, one, two, word};
use std::alloc::Global;
use tailrec_lang::{Exit, Values};
use word_terms::{Mem, Word};

#[tactic(auto, using(crate::proofs::Lists::word_got, crate::proofs::Lists::word_gone))]
fn word_or(alloc: Global, terms: &List<Word>, i: usize) -> Result<Tree, NoMemory>
    ensures { IfOk result (λ t. expr t ≡ word_or (map word_tree terms.now) i) }
{
    match terms.get(i) {
        Some(t) => word_term(alloc, t),
        None => word(alloc, 0),
    }
}

/// The word of that number behind the first.
#[tactic(auto, using(crate::proofs::Lists::word_next, crate::proofs::Lists::word_past))]
fn word_behind(alloc: Global, terms: &List<Word>, i: usize) -> Result<Tree, NoMemory>
    ensures { IfOk result (λ t. expr t ≡ word_or (map word_tree terms.now) (suc i)) }
{
    let count = terms.len();
    if i >= count {
        return word(alloc, 0);
    }
    word_or(alloc, terms, i + 1)
}

#[tactic(auto, using(crate::proofs::Lists::mem_got, crate::proofs::Lists::mem_gone))]
fn mem_or(alloc: Global, terms: &List<Mem>, i: usize) -> Result<Tree, NoMemory>
    ensures { IfOk result (λ t. expr t ≡ mem_or (map mem_tree terms.now) i) }
{
    match terms.get(i) {
        Some(t) => mem_term(alloc, t),
        None => numbered(alloc, b"mem", 0),
    }
}

#[tactic(auto, using(crate::proofs::Lists::dom_got, crate::proofs::Lists::dom_gone))]
fn dom_or(alloc: Global, terms: &List<Mem>, i: usize) -> Result<Tree, NoMemory>
    ensures { IfOk result (λ t. expr t ≡ dom_or (map mem_tree terms.now) i) }
{
    match terms.get(i) {
        Some(t) => dom_term(alloc, t),
        None => numbered(alloc, b"dom", 0),
    }
}

/// The number of an exit.
pub fn exit_number(alloc: Global, k: usize) -> Result<Tree, NoMemory>
    ensures { IfOk result (λ t. expr t ≡ exit_number k) }
{
    let value = numbered(alloc, b"bv", k as u64)?;
    let width = atom(alloc, b"32")?;
    two(alloc, b"_", value, width)
}

/// What is told where a definition is left by the exit of that number.
pub fn left_by(
    alloc: Global,
    exit: Option<Exit>,
    k: usize,
    values: &Values,
    told: Told,
) -> Result<Tree, NoMemory>
    ensures { IfOk result (λ t. expr t ≡ left_by exit k (values_tree values.now) told) }
{
    match told {
        Told::Ok => atom(alloc, b"true"),
        Told::ExitNumber => exit_number(alloc, k),
        Told::Pc => left_pc(alloc, exit, values),
        Told::WordAt(i) => left_word(alloc, exit, values, i),
        Told::MemAt(i) => mem_or(alloc, &values.mems, i),
        Told::DomAt(i) => dom_or(alloc, &values.mems, i),
    }
}

/// The program counter with which a definition is left.
fn left_pc(alloc: Global, exit: Option<Exit>, values: &Values) -> Result<Tree, NoMemory>
    ensures { IfOk result (λ t. expr t ≡ left_pc exit (values_tree values.now)) }
{
    match exit {
        Some(exit) => match exit {
            Exit::At(a) => word(alloc, a),
            Exit::Ret => word_or(alloc, &values.words, 0),
        },
        None => word(alloc, 0),
    }
}

/// The word of that number with which a definition is left.
fn left_word(alloc: Global, exit: Option<Exit>, values: &Values, i: usize) -> Result<Tree, NoMemory>
    ensures { IfOk result (λ t. expr t ≡ left_word exit (values_tree values.now) i) }
{
    match exit {
        Some(exit) => match exit {
            Exit::At(_) => word_or(alloc, &values.words, i),
            Exit::Ret => word_behind(alloc, &values.words, i),
        },
        None => word(alloc, 0),
    }
}

/// What stands where nothing is told.
pub fn default(alloc: Global, told: Told) -> Result<Tree, NoMemory>
    ensures { IfOk result (λ t. expr t ≡ default told) }
{
    match told {
        Told::Ok => falsity(alloc),
        Told::ExitNumber => literal_zero(alloc),
        Told::Pc => word(alloc, 0),
        Told::WordAt(_) => word(alloc, 0),
        Told::MemAt(_) => numbered(alloc, b"mem", 0),
        Told::DomAt(_) => numbered(alloc, b"dom", 0),
    }
}

fn literal_zero(alloc: Global) -> Result<Tree, NoMemory>
    ensures { IfOk result (λ t. expr t ≡ default ExitNumber) }
{
    let value = atom(alloc, b"bv0")?;
    let width = atom(alloc, b"32")?;
    two(alloc, b"_", value, width)
}

pub fn falsity(alloc: Global) -> Result<Tree, NoMemory>
    ensures { IfOk result (λ t. expr t ≡ falsity) }
{
    let truth = atom(alloc, b"true")?;
    one(alloc, b"not", truth)
}

/// A condition, too, where it is told whether all is done.
pub fn with_condition(alloc: Global, told: Told, c: Tree, rest: Tree) -> Result<Tree, NoMemory>
    ensures { IfOk result (λ t. expr t ≡ with_condition told (expr c) (expr rest)) }
{
    match told {
        Told::Ok => conjunction(alloc, c, rest),
        Told::ExitNumber => Ok(rest),
        Told::Pc => Ok(rest),
        Told::WordAt(_) => Ok(rest),
        Told::MemAt(_) => Ok(rest),
        Told::DomAt(_) => Ok(rest),
    }
}

fn conjunction(alloc: Global, c: Tree, rest: Tree) -> Result<Tree, NoMemory>
    ensures { IfOk result (λ t.
        expr t ≡ conjunction (is_atom (codes "true") (expr rest)) (expr c) (expr rest)) }
{
    if is_atom(b"true", &rest) {
        return Ok(c);
    }
    let otherwise = falsity(alloc)?;
    ite(alloc, c, rest, otherwise)
}
