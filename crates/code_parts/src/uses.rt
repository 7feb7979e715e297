//! What the instructions of a graph use.

ghost use Rattle.std.specs.Prelude.{◌≡◌, IfOk};
ghost use Rattle.std.specs.List.{list_any};
ghost use Rattle.instr_axioms.specs.Axiom.{is_own};
ghost use Rattle.instr_axioms.specs.Terms.{has_memory};
ghost use Rattle.code_parts.specs.Graph.{is_jump_through};
ghost use Rattle.code_parts.specs.Flows.{registers_of};

use flow_graph::Graph;
use rv_decode::{Instr, is_read, is_written};
use rv_words::{List, NoMemory};
use std::alloc::Global;

/// Whether a register stands in an instruction.
fn stands_in(i: Instr, r: u8) -> bool
    ensures { result ≡ is_own i r }
{
    is_written(&i, r) || is_read(&i, r)
}

/// Whether a register stands in one of the instructions.
#[tactic(auto, using(crate::proofs::AnyOf::found_one))]
pub fn is_used(g: &Graph, r: u8) -> bool
    ensures { result ≡ list_any (λ i. is_own i r) g.now.instrs }
{
    for n in 0..g.len() {
        if stands_in(g.instr(n), r) {
            return true;
        }
    }
    false
}

/// The registers but x0 that stand in instructions, rising.
#[tactic(auto, using(rv_decode::proofs::RegisterLemmas::one_more, rv_decode::proofs::RegisterLemmas::none_more))]
pub fn registers(alloc: Global, g: &Graph) -> Result<List<u8>, NoMemory>
    ensures { IfOk result (λ rs. rs ≡ registers_of g.now.instrs) }
{
    let mut regs = List::new(alloc);
    for r in 1..32 {
        if is_used(g, r) {
            regs.push(r)?;
        }
    }
    Ok(regs)
}

/// Whether an instruction loads or stores.
#[tactic(auto, using(crate::proofs::AnyOf::found_one))]
pub fn uses_memory(g: &Graph) -> bool
    ensures { result ≡ list_any has_memory g.now.instrs }
{
    for n in 0..g.len() {
        if instr_axioms::has_memory(g.instr(n)) {
            return true;
        }
    }
    false
}

/// Whether an instruction is a jump through a register, which is a return.
pub fn is_jump_through(i: Instr) -> bool
    ensures { result ≡ is_jump_through i }
{
    matches!(i, Instr::Jalr { .. })
}

/// Whether an instruction returns.
#[tactic(auto, using(crate::proofs::AnyOf::found_one))]
pub fn returns(g: &Graph) -> bool
    ensures { result ≡ list_any is_jump_through g.now.instrs }
{
    for n in 0..g.len() {
        if is_jump_through(g.instr(n)) {
            return true;
        }
    }
    false
}
