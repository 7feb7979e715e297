//! Assertions whose terms facts let stand for one another.

ghost use Rattle.std.specs.Prelude.{◌↔◌, ◌+◌, ◌*◌, ◌≤◌, IfOk, IsTrue, List as Items, OnOk, length, map};
ghost use Rattle.std.specs.List.{AllZip};
ghost use Rattle.term_arena.specs.Arena.{IsMemAt, IsWordAt, Tree, mem_of, word_of};
ghost use Rattle.triple_kernel.specs.Swap.{SwapAssertion, SwapMem, SwapRegister, SwapWord};
ghost use Rattle.held_terms.specs.Held.{AreFactsAt, AreMemsAt, AreRegistersAt, IsSideAt, fact_of, register_of, side_of};
ghost use Rattle.held_terms.specs.Subterms.{HasSides};
ghost use Rattle.held_consequence.specs.inner.Table.{HasBoth, Went};
ghost use Rattle.held_consequence.specs.inner.SideTables.{AreRight, HasBothMems, HasBothRegisters};

use crate::swaps::{swap_mem, swap_word};
use crate::table::Table;
use held_terms::{Facts, HeldSide};
use rv_words::NoMemory;
use std::alloc::Global;
use std::sync::ledger::Ledger;
use term_arena::{Arena, Steps};

/// Whether two assertions are the same but for terms that may be swapped.
pub(crate) fn swap_side<L: Ledger>(
    arena: &Arena,
    facts: &Facts,
    known: &mut Table,
    a: &HeldSide,
    b: &HeldSide,
    steps: &mut Steps<L>,
) -> Result<bool, NoMemory>
    requires facts { AreFactsAt arena.now facts.now }
    requires right { AreRight arena.now (map (fact_of arena.now) facts.now) known.old }
    requires a { IsSideAt arena.now a.now }
    requires b { IsSideAt arena.now b.now }
    ensures answer { IfOk result (λ r.
        IsTrue r
        ↔ SwapAssertion (map (fact_of arena.now) facts.now) (side_of arena.now a.now)
        (side_of arena.now b.now)) }
    ensures went { Went arena.now (HasSides arena.now a.now b.now) known.old known.new steps.old
        steps.new }
{
    let pc = swap_words(arena, facts, known, a.pc, b.pc, steps)?;
    if !pc {
        return Ok(false);
    }
    let regs = swap_registers(
        arena,
        facts,
        known,
        a.regs.as_slice(),
        b.regs.as_slice(),
        steps,
    )?;
    if !regs {
        return Ok(false);
    }
    let mems = swap_mems(
        arena,
        facts,
        known,
        a.mems.as_slice(),
        b.mems.as_slice(),
        steps,
    )?;
    Ok(mems)
}

/// Whether two words may be swapped, where all answers that are kept are right.
#[tactic(auto, using(crate::proofs::SideLemmas::right_known))]
pub(crate) fn swap_words<L: Ledger>(
    arena: &Arena,
    facts: &Facts,
    known: &mut Table,
    a: u64,
    b: u64,
    steps: &mut Steps<L>,
) -> Result<bool, NoMemory>
    requires facts { AreFactsAt arena.now facts.now }
    requires right { AreRight arena.now (map (fact_of arena.now) facts.now) known.old }
    requires a { IsWordAt arena.now a }
    requires b { IsWordAt arena.now b }
    ensures answer { IfOk result (λ r.
        IsTrue r
        ↔ SwapWord (map (fact_of arena.now) facts.now) (word_of arena.now a)
        (word_of arena.now b)) }
    ensures right { OnOk result (AreRight arena.now (map (fact_of arena.now) facts.now) known.new) }
    ensures went { Went arena.now (HasBoth arena.now a b) known.old known.new steps.old steps.new }
{
    let v = swap_word(arena, facts, known, a, b, steps)?;
    Ok(v)
}

/// Whether two memories may be swapped, where all answers that are kept are right.
#[tactic(auto, using(crate::proofs::SideLemmas::right_known))]
pub(crate) fn swap_memories<L: Ledger>(
    arena: &Arena,
    facts: &Facts,
    known: &mut Table,
    a: u64,
    b: u64,
    steps: &mut Steps<L>,
) -> Result<bool, NoMemory>
    requires facts { AreFactsAt arena.now facts.now }
    requires right { AreRight arena.now (map (fact_of arena.now) facts.now) known.old }
    requires a { IsMemAt arena.now a }
    requires b { IsMemAt arena.now b }
    ensures answer { IfOk result (λ r.
        IsTrue r
        ↔ SwapMem (map (fact_of arena.now) facts.now) (mem_of arena.now a) (mem_of arena.now b)) }
    ensures right { OnOk result (AreRight arena.now (map (fact_of arena.now) facts.now) known.new) }
    ensures went { Went arena.now (HasBoth arena.now a b) known.old known.new steps.old steps.new }
{
    let v = swap_mem(arena, facts, known, a, b, steps)?;
    Ok(v)
}

#[tactic(auto, using(crate::proofs::TableLemmas::went_none))]
fn swap_registers<L: Ledger>(
    arena: &Arena,
    facts: &Facts,
    known: &mut Table,
    a: &[(u8, u64)],
    b: &[(u8, u64)],
    steps: &mut Steps<L>,
) -> Result<bool, NoMemory>
    requires facts { AreFactsAt arena.now facts.now }
    requires right { AreRight arena.now (map (fact_of arena.now) facts.now) known.old }
    requires a { AreRegistersAt arena.now a.now }
    requires b { AreRegistersAt arena.now b.now }
    ensures answer { IfOk result (λ r.
        IsTrue r
        ↔ AllZip (SwapRegister (map (fact_of arena.now) facts.now))
        (map (register_of arena.now) a.now) (map (register_of arena.now) b.now)) }
    ensures right { OnOk result (AreRight arena.now (map (fact_of arena.now) facts.now) known.new) }
    ensures went { Went arena.now (HasBothRegisters arena.now a.now b.now) known.old known.new
        steps.old steps.new }
{
    if a.len() != b.len() {
        return Ok(false);
    }
    for i in 0..a.len() {
        let same = swap_register(arena, facts, known, a[i], b[i], steps)?;
        if !same {
            return Ok(false);
        }
    }
    Ok(true)
}

fn swap_register<L: Ledger>(
    arena: &Arena,
    facts: &Facts,
    known: &mut Table,
    a: (u8, u64),
    b: (u8, u64),
    steps: &mut Steps<L>,
) -> Result<bool, NoMemory>
    requires facts { AreFactsAt arena.now facts.now }
    requires right { AreRight arena.now (map (fact_of arena.now) facts.now) known.old }
    requires a { IsWordAt arena.now a.1 }
    requires b { IsWordAt arena.now b.1 }
    ensures answer { IfOk result (λ r.
        IsTrue r
        ↔ SwapRegister (map (fact_of arena.now) facts.now) (register_of arena.now a)
        (register_of arena.now b)) }
    ensures right { OnOk result (AreRight arena.now (map (fact_of arena.now) facts.now) known.new) }
    ensures went { Went arena.now (HasBoth arena.now a.1 b.1) known.old known.new steps.old
        steps.new }
{
    if a.0 != b.0 {
        return Ok(false);
    }
    let v = swap_words(arena, facts, known, a.1, b.1, steps)?;
    Ok(v)
}

#[tactic(auto, using(crate::proofs::TableLemmas::went_none))]
fn swap_mems<L: Ledger>(
    arena: &Arena,
    facts: &Facts,
    known: &mut Table,
    a: &[u64],
    b: &[u64],
    steps: &mut Steps<L>,
) -> Result<bool, NoMemory>
    requires facts { AreFactsAt arena.now facts.now }
    requires right { AreRight arena.now (map (fact_of arena.now) facts.now) known.old }
    requires a { AreMemsAt arena.now a.now }
    requires b { AreMemsAt arena.now b.now }
    ensures answer { IfOk result (λ r.
        IsTrue r
        ↔ AllZip (SwapMem (map (fact_of arena.now) facts.now)) (map (mem_of arena.now) a.now)
        (map (mem_of arena.now) b.now)) }
    ensures right { OnOk result (AreRight arena.now (map (fact_of arena.now) facts.now) known.new) }
    ensures went { Went arena.now (HasBothMems arena.now a.now b.now) known.old known.new steps.old
        steps.new }
{
    if a.len() != b.len() {
        return Ok(false);
    }
    for i in 0..a.len() {
        let same = swap_memories(arena, facts, known, a[i], b[i], steps)?;
        if !same {
            return Ok(false);
        }
    }
    Ok(true)
}

/// Whether two assertions are the same but for terms that may be swapped. Each pair of numbers
/// takes two steps at most.
#[tactic(auto, using(crate::proofs::SideLemmas::right_none))]
pub fn are_swapped<L: Ledger>(
    alloc: Global,
    arena: &Arena,
    facts: &Facts,
    a: &HeldSide,
    b: &HeldSide,
    steps: &mut Steps<L>,
) -> Result<bool, NoMemory>
    requires facts { AreFactsAt arena.now facts.now }
    requires a { IsSideAt arena.now a.now }
    requires b { IsSideAt arena.now b.now }
    ensures answer { IfOk result (λ r.
        IsTrue r
        ↔ SwapAssertion (map (fact_of arena.now) facts.now) (side_of arena.now a.now)
        (side_of arena.now b.now)) }
    ensures steps { (ts : Items Tree)
        → HasSides arena.now a.now b.now ts
        → steps.new ≤ steps.old + 2 * (length ts * length ts) }
{
    arena.law_of_nodes();
    let mut known = Table::new(alloc);
    let v = swap_side(arena, facts, &mut known, a, b, steps)?;
    Ok(v)
}
