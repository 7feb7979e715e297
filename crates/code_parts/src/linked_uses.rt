//! What the instructions of several functions use.

ghost use Rattle.std.specs.Prelude.{◌≡◌, IfOk, if◌then◌else◌};
ghost use Rattle.rv_decode.specs.Registers.{registers_where};
ghost use Rattle.code_parts.specs.Groups.{is_register_of, load_or_store};

use crate::linked_function::Function;
use crate::uses::{is_used, uses_memory};
use rv_words::{List, NoMemory};
use std::alloc::Global;

/// Whether a register stands in an instruction of one of these functions.
fn is_used_in(functions: &[Function], r: u8) -> bool
    ensures { result ≡ is_register_of functions.now r }
{
    for function in functions {
        if is_used(&function.graph, r) {
            return true;
        }
    }
    false
}

/// The registers but x0 that stand in instructions of these functions, rising.
#[tactic(auto, using(rv_decode::proofs::RegisterLemmas::one_more, rv_decode::proofs::RegisterLemmas::none_more))]
pub fn registers_of_all(alloc: Global, functions: &[Function]) -> Result<List<u8>, NoMemory>
    ensures { IfOk result (λ rs. rs ≡ registers_where (is_register_of functions.now)) }
{
    let mut regs = List::new(alloc);
    for r in 1..32 {
        if is_used_in(functions, r) {
            regs.push(r)?;
        }
    }
    Ok(regs)
}

/// Whether an instruction of one of these functions loads or stores.
fn use_memory(functions: &[Function]) -> bool
    ensures { result ≡ load_or_store functions.now }
{
    for function in functions {
        if uses_memory(&function.graph) {
            return true;
        }
    }
    false
}

/// How many memories these functions have: one if an instruction loads or stores.
pub fn memories(functions: &[Function]) -> u8
    ensures { result ≡ if load_or_store functions.now then 1 else 0 }
{
    if use_memory(functions) { 1 } else { 0 }
}
