//! Values as the arguments of applications.

ghost use Rattle.std.specs.Prelude.{◌≡◌, IfOk, map};
ghost use Rattle.word_terms.specs.Tree.{mem_tree, word_tree};
ghost use Rattle.tailrec_lang.specs.Tree.{values_tree};
ghost use Rattle.smt_terms.specs.Views.{expr};
ghost use Rattle.smt_export.specs.Terms.{word_expr};
ghost use Rattle.smt_export.specs.Bodies.{applied_to, args, called, mem_args};

use crate::term_trees::{dom_term, mem_term, word_term};
use crate::told::{Told, fun_name};
use rv_words::{List, NoMemory, Text};
use smt_terms::Tree;
use std::alloc::Global;
use tailrec_lang::Values;
use word_terms::{Mem, Word};

#[tactic(auto, using(crate::proofs::Lists::images_pushed))]
fn word_terms(alloc: Global, terms: &[Word]) -> Result<List<Tree>, NoMemory>
    ensures { IfOk result (λ items. map expr items ≡ map word_expr (map word_tree terms.now)) }
{
    let mut items = List::new(alloc);
    for t in terms {
        let item = word_term(alloc, t)?;
        items.push(item)?;
    }
    Ok(items)
}

/// For each memory its bytes and its domain.
#[tactic(auto, using(crate::proofs::Lists::mems_pushed))]
fn mem_terms(alloc: Global, terms: &[Mem]) -> Result<List<Tree>, NoMemory>
    ensures { IfOk result (λ items. map expr items ≡ mem_args (map mem_tree terms.now)) }
{
    let mut items = List::new(alloc);
    for t in terms {
        let bytes = mem_term(alloc, t)?;
        let domain = dom_term(alloc, t)?;
        items.push(bytes)?;
        items.push(domain)?;
    }
    Ok(items)
}

#[tactic(auto, using(crate::proofs::Lists::appended))]
fn args(alloc: Global, values: &Values) -> Result<List<Tree>, NoMemory>
    ensures { IfOk result (λ items. map expr items ≡ args (values_tree values.now)) }
{
    let mut items = word_terms(alloc, values.words.as_slice())?;
    let more = mem_terms(alloc, values.mems.as_slice())?;
    items.append(more)?;
    Ok(items)
}

/// A function applied; one without parameters stands alone.
#[tactic(auto, using(crate::proofs::Lists::applied_some))]
fn applied_to(alloc: Global, name: Text, args: List<Tree>) -> Result<Tree, NoMemory>
    ensures { IfOk result (λ t. expr t ≡ applied_to name (map expr args)) }
{
    if args.is_empty() {
        return Ok(Tree::Atom(name));
    }
    let mut items = List::new(alloc);
    items.push(Tree::Atom(name))?;
    items.append(args)?;
    Ok(Tree::Node(items))
}

/// What the function of a definition tells of these values.
pub fn called(alloc: Global, def: usize, values: &Values, told: Told) -> Result<Tree, NoMemory>
    ensures { IfOk result (λ t. expr t ≡ called def (values_tree values.now) told) }
{
    let name = fun_name(alloc, def, told)?;
    let args = args(alloc, values)?;
    applied_to(alloc, name, args)
}
