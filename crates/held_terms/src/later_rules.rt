//! The rules that lines of later versions have, over numbers. Whether codes are the same is told by
//! the caller here too.

ghost use Rattle.std.specs.Prelude.{◌≡◌, ◌↔◌, ◌+◌, ◌≤◌, IfOk, IsTrue, map};
ghost use Rattle.std.specs.List.{Contains};
ghost use Rattle.rv_words.specs.declared.comparison.Cmp.TheVariants.{Eq};
ghost use Rattle.word_terms.specs.Tree.{Compare};
ghost use Rattle.term_arena.specs.Arena.{Extends, IsWordAt, mem_of, word_of};
ghost use Rattle.triple_kernel.specs.Tree.{So};
ghost use Rattle.triple_kernel.specs.Rules.{AreAmong};
ghost use Rattle.frame_compose.specs.Rules.{AreExchanged, IsExchanged, IsSteered};
ghost use Rattle.held_terms.specs.Held.{AreFactsAt, AreMemsAt, IsHeldAt, fact_of, register_of, side_of, triple_of};

use crate::facts::Facts;
use crate::held::{Held, HeldFact};
use crate::same::{same_facts, same_mem, same_mems, same_registers, same_side, same_word};
use rv_words::{Cmp, NoMemory};
use std::alloc::Global;
use std::sync::ledger::Ledger;
use term_arena::{Arena, Node, Steps};

/// More facts, and another last program counter, which one of them says to be the same. Whether the
/// code is the same is told by the caller. It takes one step. Where all else of the row holds, the
/// equation of the two counters is put into the arena, whether or not a fact says it.
pub fn is_steered<L: Ledger>(
    alloc: Global,
    arena: &mut Arena,
    p: &Held,
    stated: &Held,
    same_code: bool,
    steps: &mut Steps<L>,
) -> Result<bool, NoMemory>
    requires p { IsHeldAt arena.old p.now }
    requires stated { IsHeldAt arena.old stated.now }
    requires code { IsTrue same_code ↔ (p.now.code.ranges ≡ stated.now.code.ranges) }
    ensures answer { IfOk result (λ r.
        IsTrue r ↔ IsSteered (triple_of arena.old p.now) (triple_of arena.old stated.now)) }
    ensures grows { Extends arena.old arena.new }
    ensures steps { steps.new ≤ steps.old + 1 }
{
    let facts = Facts::new(alloc, stated.facts.as_slice(), p.facts.len());
    if !keeps_all_but_place(arena, p, stated, same_code, &facts) {
        return Ok(false);
    }
    let equal = are_equal_by(arena, &facts, p.post.pc, stated.post.pc, steps)?;
    Ok(equal)
}

/// At least the same facts, and all else the same but the last program counter.
fn keeps_all_but_place(
    arena: &Arena,
    p: &Held,
    stated: &Held,
    same_code: bool,
    facts: &Facts,
) -> bool
    requires p { IsHeldAt arena.now p.now }
    requires stated { IsHeldAt arena.now stated.now }
    requires code { IsTrue same_code ↔ (p.now.code.ranges ≡ stated.now.code.ranges) }
    requires facts { facts.now ≡ stated.now.facts }
    ensures { IsTrue result
        ↔ ((side_of arena.now p.now.pre ≡ side_of arena.now stated.now.pre)
        × (p.now.code.ranges ≡ stated.now.code.ranges)
        × (map (register_of arena.now) p.now.post.regs
        ≡ map (register_of arena.now) stated.now.post.regs)
        × (map (mem_of arena.now) p.now.post.mems ≡ map (mem_of arena.now) stated.now.post.mems)
        × AreAmong (map (fact_of arena.now) p.now.facts)
        (map (fact_of arena.now) stated.now.facts)) }
{
    same_side(arena, &p.pre, &stated.pre)
        && same_code
        && same_registers(arena, p.post.regs.as_slice(), stated.post.regs.as_slice())
        && same_mems(arena, p.post.mems.as_slice(), stated.post.mems.as_slice())
        && facts.has_all(arena, p.facts.as_slice())
}

/// Whether one of the facts is that the two words are equal, in that order. It takes one step.
fn are_equal_by<L: Ledger>(
    arena: &mut Arena,
    facts: &Facts,
    a: u64,
    b: u64,
    steps: &mut Steps<L>,
) -> Result<bool, NoMemory>
    requires facts { AreFactsAt arena.old facts.now }
    requires a { IsWordAt arena.old a }
    requires b { IsWordAt arena.old b }
    ensures answer { IfOk result (λ r.
        IsTrue r
        ↔ Contains (map (fact_of arena.old) facts.now)
        (So (Compare Eq (word_of arena.old a) (word_of arena.old b)))) }
    ensures grows { Extends arena.old arena.new }
    ensures steps { steps.new ≡ steps.old + 1 }
{
    let equation = arena.add(Node::Compare(Cmp::Eq, a, b), steps)?;
    Ok(facts.has(arena, &HeldFact::So(equation)))
}

/// The two memories exchanged, in both assertions. Whether the code is the same is told by the
/// caller.
pub fn is_exchanged(arena: &Arena, p: &Held, stated: &Held, same_code: bool) -> bool
    requires p { IsHeldAt arena.now p.now }
    requires stated { IsHeldAt arena.now stated.now }
    requires code { IsTrue same_code ↔ (p.now.code.ranges ≡ stated.now.code.ranges) }
    ensures { IsTrue result
        ↔ IsExchanged (triple_of arena.now p.now) (triple_of arena.now stated.now) }
{
    same_facts(arena, p.facts.as_slice(), stated.facts.as_slice())
        && same_code
        && same_word(arena, p.pre.pc, stated.pre.pc)
        && same_registers(arena, p.pre.regs.as_slice(), stated.pre.regs.as_slice())
        && are_exchanged(arena, p.pre.mems.as_slice(), stated.pre.mems.as_slice())
        && same_word(arena, p.post.pc, stated.post.pc)
        && same_registers(arena, p.post.regs.as_slice(), stated.post.regs.as_slice())
        && are_exchanged(arena, p.post.mems.as_slice(), stated.post.mems.as_slice())
}

/// Whether the two lists have two memories each, the same in the other order.
fn are_exchanged(arena: &Arena, a: &[u64], b: &[u64]) -> bool
    requires a { AreMemsAt arena.now a.now }
    requires b { AreMemsAt arena.now b.now }
    ensures { IsTrue result
        ↔ AreExchanged (map (mem_of arena.now) a.now) (map (mem_of arena.now) b.now) }
{
    a.len() == 2 && b.len() == 2 && same_mem(arena, a[0], b[1]) && same_mem(arena, a[1], b[0])
}
