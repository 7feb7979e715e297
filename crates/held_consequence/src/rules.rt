//! The rules of consequence: whether a stated triple is an instance of one on its premise. No code
//! is compared: whether it is the same is told by the caller, who may know it without looking at
//! its bytes.

ghost use Rattle.std.specs.Prelude.{◌≡◌, ◌↔◌, ◌+◌, ◌*◌, ◌≤◌, IfOk, IsTrue, List as Items, length, map};
ghost use Rattle.triple_kernel.specs.Rules.{AreAmong, IsDischarged, IsStrengthened, IsWeakened};
ghost use Rattle.held_terms.specs.Held.{IsHeldAt, fact_of, side_of, triple_of};
ghost use Rattle.held_terms.specs.Subterms.{HasFacts, HasSides};
ghost use Rattle.term_arena.specs.Arena.{Tree};

use crate::following::are_among_or_follow;
use crate::sides::are_swapped;
use held_terms::{Facts, Held, same_side};
use rv_words::NoMemory;
use std::alloc::Global;
use std::sync::ledger::Ledger;
use term_arena::{Arena, Steps};

/// More facts, and another precondition that they make the same. Whether the code is the same is
/// told by the caller.
pub fn is_strengthened<L: Ledger>(
    alloc: Global,
    arena: &Arena,
    p: &Held,
    stated: &Held,
    same_code: bool,
    steps: &mut Steps<L>,
) -> Result<bool, NoMemory>
    requires p { IsHeldAt arena.now p.now }
    requires stated { IsHeldAt arena.now stated.now }
    requires code { IsTrue same_code ↔ (p.now.code.ranges ≡ stated.now.code.ranges) }
    ensures answer { IfOk result (λ r.
        IsTrue r ↔ IsStrengthened (triple_of arena.now p.now) (triple_of arena.now stated.now)) }
    ensures steps { (ts : Items Tree)
        → HasSides arena.now p.now.pre stated.now.pre ts
        → steps.new ≤ steps.old + 2 * (length ts * length ts) }
{
    let facts = Facts::new(alloc, stated.facts.as_slice(), stated.facts.len());
    if !keeps_after(arena, p, stated, same_code, &facts) {
        return Ok(false);
    }
    let same = are_swapped(alloc, arena, &facts, &p.pre, &stated.pre, steps)?;
    Ok(same)
}

/// More facts, and another postcondition that they make the same. Whether the code is the same is
/// told by the caller.
pub fn is_weakened<L: Ledger>(
    alloc: Global,
    arena: &Arena,
    p: &Held,
    stated: &Held,
    same_code: bool,
    steps: &mut Steps<L>,
) -> Result<bool, NoMemory>
    requires p { IsHeldAt arena.now p.now }
    requires stated { IsHeldAt arena.now stated.now }
    requires code { IsTrue same_code ↔ (p.now.code.ranges ≡ stated.now.code.ranges) }
    ensures answer { IfOk result (λ r.
        IsTrue r ↔ IsWeakened (triple_of arena.now p.now) (triple_of arena.now stated.now)) }
    ensures steps { (ts : Items Tree)
        → HasSides arena.now p.now.post stated.now.post ts
        → steps.new ≤ steps.old + 2 * (length ts * length ts) }
{
    let facts = Facts::new(alloc, stated.facts.as_slice(), stated.facts.len());
    if !keeps_before(arena, p, stated, same_code, &facts) {
        return Ok(false);
    }
    let same = are_swapped(alloc, arena, &facts, &p.post, &stated.post, steps)?;
    Ok(same)
}

/// Other facts, from which those of the theorem follow. Whether the code is the same is told by the
/// caller. Each pair of different terms takes two steps at most, and each term two more.
pub fn is_discharged<L: Ledger>(
    alloc: Global,
    arena: &Arena,
    p: &Held,
    stated: &Held,
    same_code: bool,
    steps: &mut Steps<L>,
) -> Result<bool, NoMemory>
    requires p { IsHeldAt arena.now p.now }
    requires stated { IsHeldAt arena.now stated.now }
    requires code { IsTrue same_code ↔ (p.now.code.ranges ≡ stated.now.code.ranges) }
    ensures answer { IfOk result (λ r.
        IsTrue r ↔ IsDischarged (triple_of arena.now p.now) (triple_of arena.now stated.now)) }
    ensures steps { (ts : Items Tree)
        → HasFacts arena.now p.now.facts ts
        → HasFacts arena.now stated.now.facts ts
        → steps.new ≤ steps.old + (2 * (length ts * length ts) + 2 * length ts) }
{
    if !keeps_all_but_facts(arena, p, stated, same_code) {
        return Ok(false);
    }
    let facts = Facts::new(alloc, stated.facts.as_slice(), stated.facts.len());
    let follow = are_among_or_follow(alloc, arena, p.facts.as_slice(), &facts, steps)?;
    Ok(follow)
}

/// The same precondition, code and postcondition.
fn keeps_all_but_facts(arena: &Arena, p: &Held, stated: &Held, same_code: bool) -> bool
    requires p { IsHeldAt arena.now p.now }
    requires stated { IsHeldAt arena.now stated.now }
    requires code { IsTrue same_code ↔ (p.now.code.ranges ≡ stated.now.code.ranges) }
    ensures { IsTrue result
        ↔ ((side_of arena.now p.now.pre ≡ side_of arena.now stated.now.pre)
        × (p.now.code.ranges ≡ stated.now.code.ranges)
        × (side_of arena.now p.now.post ≡ side_of arena.now stated.now.post)) }
{
    same_side(arena, &p.pre, &stated.pre) && same_code && same_side(arena, &p.post, &stated.post)
}

/// The same code and postcondition, and at least the same facts.
fn keeps_after(arena: &Arena, p: &Held, stated: &Held, same_code: bool, facts: &Facts) -> bool
    requires p { IsHeldAt arena.now p.now }
    requires stated { IsHeldAt arena.now stated.now }
    requires code { IsTrue same_code ↔ (p.now.code.ranges ≡ stated.now.code.ranges) }
    requires facts { facts.now ≡ stated.now.facts }
    ensures { IsTrue result
        ↔ ((p.now.code.ranges ≡ stated.now.code.ranges)
        × (side_of arena.now p.now.post ≡ side_of arena.now stated.now.post)
        × AreAmong (map (fact_of arena.now) p.now.facts)
        (map (fact_of arena.now) stated.now.facts)) }
{
    same_code && same_side(arena, &p.post, &stated.post) && facts.has_all(arena, p.facts.as_slice())
}

/// The same code and precondition, and at least the same facts.
fn keeps_before(arena: &Arena, p: &Held, stated: &Held, same_code: bool, facts: &Facts) -> bool
    requires p { IsHeldAt arena.now p.now }
    requires stated { IsHeldAt arena.now stated.now }
    requires code { IsTrue same_code ↔ (p.now.code.ranges ≡ stated.now.code.ranges) }
    requires facts { facts.now ≡ stated.now.facts }
    ensures { IsTrue result
        ↔ ((p.now.code.ranges ≡ stated.now.code.ranges)
        × (side_of arena.now p.now.pre ≡ side_of arena.now stated.now.pre)
        × AreAmong (map (fact_of arena.now) p.now.facts)
        (map (fact_of arena.now) stated.now.facts)) }
{
    same_code && same_side(arena, &p.pre, &stated.pre) && facts.has_all(arena, p.facts.as_slice())
}
