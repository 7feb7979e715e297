//! Parts of triples over numbers, copied into memory of their own.

ghost use Rattle.std.specs.Prelude.{◌≡◌, IfOk};

use crate::held::{HeldFact, HeldSide, HeldValues};
use crate::shared::Shared;
use rv_words::{List, NoMemory};
use std::alloc::Global;
use word_terms::{Code, copy_code};

fn copy_values(alloc: Global, values: &HeldValues) -> Result<HeldValues, NoMemory>
    ensures { IfOk result (λ copy. copy ≡ values.now) }
{
    let words = List::from_slice(alloc, values.words.as_slice())?;
    let mems = List::from_slice(alloc, values.mems.as_slice())?;
    Ok(HeldValues { words, mems })
}

/// The same fact in memory of its own.
pub fn copy_fact(alloc: Global, fact: &HeldFact) -> Result<HeldFact, NoMemory>
    ensures { IfOk result (λ copy. copy ≡ fact.now) }
{
    match fact {
        HeldFact::WordIs(a, b) => Ok(HeldFact::WordIs(*a, *b)),
        HeldFact::MemIs(a, b) => Ok(HeldFact::MemIs(*a, *b)),
        HeldFact::So(c) => Ok(HeldFact::So(*c)),
        HeldFact::Gives {
            def,
            exit,
            args,
            results,
        } => {
            let args = copy_values(alloc, args)?;
            let results = copy_values(alloc, results)?;
            Ok(HeldFact::Gives {
                def: *def,
                exit: *exit,
                args,
                results,
            })
        }
    }
}

/// The same facts in memory of their own.
pub fn copy_facts(alloc: Global, facts: &[HeldFact]) -> Result<List<HeldFact>, NoMemory>
    ensures { IfOk result (λ copies. copies ≡ facts.now) }
{
    let mut copies = List::new(alloc);
    for fact in facts {
        let copy = copy_fact(alloc, fact)?;
        copies.push(copy)?;
    }
    Ok(copies)
}

/// The same assertion, whose memories are shared.
pub fn copy_side(alloc: Global, side: &HeldSide) -> Result<HeldSide, NoMemory>
    ensures { IfOk result (λ copy. copy ≡ side.now) }
{
    let regs = List::from_slice(alloc, side.regs.as_slice())?;
    let mems = side.mems.share()?;
    Ok(HeldSide {
        pc: side.pc,
        regs,
        mems,
    })
}

/// The same code in memory of its own, which triples may share.
pub fn copy_to_share(alloc: Global, code: &Code) -> Result<Shared<Code>, NoMemory>
    ensures { IfOk result (λ copy. copy.ranges ≡ code.now.ranges) }
{
    let copy = copy_code(alloc, code)?;
    Shared::new(alloc, copy)
}
