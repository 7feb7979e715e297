//! The parameters of the functions of a group's definitions.

ghost use Rattle.std.specs.Prelude.{◌≡◌, ◌+◌, ◌<◌, ◌^◌, IfOk};
ghost use Rattle.tailrec_lang.specs.Tree.{group_tree};
ghost use Rattle.smt_export.specs.Told.{mem_params, params, word_params};

use crate::told::numbered_name;
use rv_words::{List, NoMemory, Text};
use smt_terms::Sort;
use std::alloc::Global;
use tailrec_lang::Group;

/// The names and sorts of parameters.
pub fn params(alloc: Global, g: &Group) -> Result<List<(Text, Sort)>, NoMemory>
    ensures { IfOk result (λ list. list ≡ params (group_tree g.now)) }
{
    let mut list = word_params(alloc, 0, g.regs.len())?;
    let mems = mem_params(alloc, 0, g.mems as usize)?;
    list.append(mems)?;
    Ok(list)
}

/// `count` words from number `i` on.
#[tactic(auto, using(crate::proofs::Lists::word_params_none, crate::proofs::Lists::word_params_some))]
fn word_params(alloc: Global, i: usize, count: usize) -> Result<List<(Text, Sort)>, NoMemory>
    requires { i + count < 2 ^ 64 }
    ensures { IfOk result (λ list. list ≡ word_params i count) }
{
    let mut list = List::new(alloc);
    if count == 0 {
        return Ok(list);
    }
    let name = numbered_name(alloc, b"w", i)?;
    list.push((name, Sort::Bits(64)))?;
    let more = word_params(alloc, i + 1, count - 1)?;
    list.append(more)?;
    Ok(list)
}

/// `count` memories from number `i` on.
#[tactic(auto, using(crate::proofs::Lists::mem_params_none, crate::proofs::Lists::mem_params_some))]
fn mem_params(alloc: Global, i: usize, count: usize) -> Result<List<(Text, Sort)>, NoMemory>
    requires { i + count < 2 ^ 64 }
    ensures { IfOk result (λ list. list ≡ mem_params i count) }
{
    let mut list = List::new(alloc);
    if count == 0 {
        return Ok(list);
    }
    let bytes = numbered_name(alloc, b"mem", i)?;
    let domain = numbered_name(alloc, b"dom", i)?;
    list.push((bytes, Sort::Array(8)))?;
    list.push((domain, Sort::Array(1)))?;
    let more = mem_params(alloc, i + 1, count - 1)?;
    list.append(more)?;
    Ok(list)
}
