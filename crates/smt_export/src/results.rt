//! The results of a call as variables.

ghost use Rattle.std.specs.Prelude.{◌≡◌, ◌+◌, ◌<◌, ◌^◌, IfOk, Some, length};
ghost use Rattle.tailrec_lang.specs.Tree.{group_tree, values_tree};
ghost use Rattle.smt_terms.specs.Views.{expr};
ghost use Rattle.smt_terms.specs.Expression.{bound};
ghost use Rattle.smt_export.specs.declared.told.Told.TheVariants.{DomAt};
ghost use Rattle.smt_export.specs.Told.{all_told, dom_name, mems_from, words_from};
ghost use Rattle.smt_export.specs.Bodies.{called, let_mems, let_words, call_results};

use crate::told::{Told, numbered_name};
use crate::values::called;
use rv_words::{List, NoMemory};
use smt_terms::{Tree, bound};
use std::alloc::Global;
use tailrec_lang::{Exit, Group, Values};

#[tactic(auto, using(crate::proofs::Lists::words_next))]
fn words_from(alloc: Global, count: usize) -> Result<List<Told>, NoMemory>
    ensures { IfOk result (λ list. list ≡ words_from 0 count) }
{
    let mut list = List::new(alloc);
    for i in 0..count {
        list.push(Told::WordAt(i))?;
    }
    Ok(list)
}

#[tactic(auto, using(crate::proofs::Lists::mems_next))]
fn mems_from(alloc: Global, count: usize) -> Result<List<Told>, NoMemory>
    ensures { IfOk result (λ list. list ≡ mems_from 0 count) }
{
    let mut list = List::new(alloc);
    for i in 0..count {
        list.push(Told::MemAt(i))?;
        list.push(Told::DomAt(i))?;
    }
    Ok(list)
}

/// All that is told of a definition of the group.
pub fn all_told(alloc: Global, g: &Group) -> Result<List<Told>, NoMemory>
    ensures { IfOk result (λ list. list ≡ all_told (group_tree g.now)) }
{
    let words = words_from(alloc, g.regs.len())?;
    let mems = mems_from(alloc, g.mems as usize)?;
    let mut list = List::new(alloc);
    list.push(Told::Ok)?;
    list.push(Told::ExitNumber)?;
    list.push(Told::Pc)?;
    list.append(words)?;
    list.append(mems)?;
    Ok(list)
}

/// What the words are that a definition is left with by an exit.
pub fn call_results(alloc: Global, g: &Group, exit: Exit) -> Result<List<Told>, NoMemory>
    ensures { IfOk result (λ list. list ≡ call_results (length g.now.regs) (Some exit)) }
{
    let words = words_from(alloc, g.regs.len())?;
    match exit {
        Exit::At(_) => Ok(words),
        Exit::Ret => {
            let mut list = List::new(alloc);
            list.push(Told::Pc)?;
            list.append(words)?;
            Ok(list)
        }
    }
}

/// A body in which what these functions tell of a call are the word variables from `n` on.
pub fn let_words(
    alloc: Global,
    def: usize,
    values: &Values,
    told: &[Told],
    n: usize,
    body: Tree,
) -> Result<Tree, NoMemory>
    requires { n + length told.now < 2 ^ 64 }
    ensures { IfOk result (λ t.
        expr t ≡ let_words (called def (values_tree values.now)) told.now n (expr body)) }
{
    match told {
        [] => Ok(body),
        [first, rest @ ..] => {
            let body = let_words(alloc, def, values, rest, n + 1, body)?;
            let name = numbered_name(alloc, b"w", n)?;
            let term = called(alloc, def, values, *first)?;
            bound(alloc, name.as_slice(), term, body)
        }
    }
}

/// A body in which `count` memories of a call, from the memory `i` on, are the memory variables
/// from `m` on.
#[tactic(auto, using(crate::proofs::Lists::mems_none, crate::proofs::Lists::mems_some))]
pub fn let_mems(
    alloc: Global,
    def: usize,
    values: &Values,
    i: usize,
    count: usize,
    m: usize,
    body: Tree,
) -> Result<Tree, NoMemory>
    requires numbers { i + count < 2 ^ 64 }
    requires variables { m + count < 2 ^ 64 }
    ensures { IfOk result (λ t.
        expr t ≡ let_mems (called def (values_tree values.now)) i count m (expr body)) }
{
    if count == 0 {
        return Ok(body);
    }
    let body = let_mems(alloc, def, values, i + 1, count - 1, m + 1, body)?;
    let body = domain_bound(alloc, def, values, i, m, body)?;
    let name = numbered_name(alloc, b"mem", m)?;
    let term = called(alloc, def, values, Told::MemAt(i))?;
    bound(alloc, name.as_slice(), term, body)
}

/// A body in which the domain of memory `i` of a call is that of the memory variable `m`.
fn domain_bound(
    alloc: Global,
    def: usize,
    values: &Values,
    i: usize,
    m: usize,
    body: Tree,
) -> Result<Tree, NoMemory>
    ensures { IfOk result (λ t.
        expr t ≡ bound (dom_name m) (called def (values_tree values.now) (DomAt i)) (expr body)) }
{
    let name = numbered_name(alloc, b"dom", m)?;
    let term = called(alloc, def, values, Told::DomAt(i))?;
    bound(alloc, name.as_slice(), term, body)
}
