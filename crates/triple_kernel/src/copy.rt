//! Facts copied into memory of their own.

ghost use Rattle.std.specs.Prelude.{◌≡◌, IfOk, map};
ghost use Rattle.triple_kernel.specs.Tree.{fact_tree};

use crate::triple::Fact;
use rv_words::{List, NoMemory};
use std::alloc::Global;
use tailrec_lang::copy_values;
use word_terms::{copy_cond, copy_mem, copy_word};

/// The same fact in memory of its own.
pub fn copy_fact(alloc: Global, fact: &Fact) -> Result<Fact, NoMemory>
    ensures { IfOk result (λ copy. fact_tree copy ≡ fact_tree fact.now) }
{
    match fact {
        Fact::WordIs(a, b) => {
            let a = copy_word(alloc, a)?;
            let b = copy_word(alloc, b)?;
            Ok(Fact::WordIs(a, b))
        }
        Fact::MemIs(a, b) => {
            let a = copy_mem(alloc, a)?;
            let b = copy_mem(alloc, b)?;
            Ok(Fact::MemIs(a, b))
        }
        Fact::So(c) => {
            let c = copy_cond(alloc, c)?;
            Ok(Fact::So(c))
        }
        Fact::Gives {
            def,
            exit,
            args,
            results,
        } => {
            let args = copy_values(alloc, args)?;
            let results = copy_values(alloc, results)?;
            Ok(Fact::Gives {
                def: *def,
                exit: *exit,
                args,
                results,
            })
        }
    }
}

/// The same facts in memory of their own.
#[tactic(auto, using(word_terms::proofs::Copies::image_pushed))]
pub fn copy_facts(alloc: Global, facts: &[Fact]) -> Result<List<Fact>, NoMemory>
    ensures { IfOk result (λ copies. map fact_tree copies ≡ map fact_tree facts.now) }
{
    let mut copies = List::new(alloc);
    for fact in facts {
        let copy = copy_fact(alloc, fact)?;
        copies.push(copy)?;
    }
    Ok(copies)
}
