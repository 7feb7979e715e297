//! The rules that compare numbers alone: whether a stated triple is an instance of one on its
//! premises. No code is compared: what a rule asks of the codes is told by the caller, who may know
//! it without looking at their bytes.

ghost use Rattle.std.specs.Prelude.{◌≡◌, ◌↔◌, IsTrue};
ghost use Rattle.rv_words.specs.Bytes.{over};
ghost use Rattle.rv_words.specs.Ranges.{range_bytes};
ghost use Rattle.sep_assert.specs.Code.{Agree, IsWithin};
ghost use Rattle.frame_compose.specs.Rules.{IsComposed, IsExtended, IsFramed};
ghost use Rattle.held_terms.specs.Held.{IsHeldAt, triple_of};

use crate::further::{are_listed, same_further, same_further_mems};
use crate::held::Held;
use crate::missing::are_facts_of_both;
use crate::same::{same_facts, same_side, same_word};
use std::alloc::Global;
use term_arena::Arena;

/// Further registers and memories, which stay as they are. Whether the code is the same is told by
/// the caller.
pub fn is_frame(arena: &Arena, p: &Held, stated: &Held, same_code: bool) -> bool
    requires p { IsHeldAt arena.now p.now }
    requires stated { IsHeldAt arena.now stated.now }
    requires code { IsTrue same_code ↔ (p.now.code.ranges ≡ stated.now.code.ranges) }
    ensures { IsTrue result
        ↔ IsFramed (triple_of arena.now p.now) (triple_of arena.now stated.now) }
{
    same_facts(arena, p.facts.as_slice(), stated.facts.as_slice())
        && same_code
        && same_word(arena, p.pre.pc, stated.pre.pc)
        && same_word(arena, p.post.pc, stated.post.pc)
        && are_listed(arena, p.pre.regs.as_slice(), stated.pre.regs.as_slice())
        && are_listed(arena, p.post.regs.as_slice(), stated.post.regs.as_slice())
        && same_further(
            arena,
            p.pre.regs.as_slice(),
            stated.pre.regs.as_slice(),
            p.post.regs.as_slice(),
            stated.post.regs.as_slice(),
        )
        && same_further_mems(
            arena,
            p.pre.mems.as_slice(),
            stated.pre.mems.as_slice(),
            p.post.mems.as_slice(),
            stated.post.mems.as_slice(),
        )
}

/// More code. Whether that of the theorem lies within the stated one is told by the caller.
pub fn is_extension(arena: &Arena, p: &Held, stated: &Held, within: bool) -> bool
    requires p { IsHeldAt arena.now p.now }
    requires stated { IsHeldAt arena.now stated.now }
    requires code { IsTrue within
        ↔ IsWithin (range_bytes p.now.code.ranges) (range_bytes stated.now.code.ranges) }
    ensures { IsTrue result
        ↔ IsExtended (triple_of arena.now p.now) (triple_of arena.now stated.now) }
{
    same_facts(arena, p.facts.as_slice(), stated.facts.as_slice())
        && same_side(arena, &p.pre, &stated.pre)
        && same_side(arena, &p.post, &stated.post)
        && within
}

/// One theorem after another, which begins where it ends. Whether the two codes agree and the
/// stated one is their union is told by the caller.
pub fn is_composition(
    alloc: Global,
    arena: &Arena,
    p: &Held,
    q: &Held,
    stated: &Held,
    union: bool,
) -> bool
    requires p { IsHeldAt arena.now p.now }
    requires q { IsHeldAt arena.now q.now }
    requires stated { IsHeldAt arena.now stated.now }
    requires code { IsTrue union
        ↔ (Agree (range_bytes p.now.code.ranges) (range_bytes q.now.code.ranges)
        × (over (range_bytes p.now.code.ranges) (range_bytes q.now.code.ranges)
        ≡ range_bytes stated.now.code.ranges)) }
    ensures { IsTrue result
        ↔ IsComposed (triple_of arena.now p.now) (triple_of arena.now q.now)
        (triple_of arena.now stated.now) }
{
    same_side(arena, &p.post, &q.pre)
        && union
        && same_side(arena, &p.pre, &stated.pre)
        && same_side(arena, &q.post, &stated.post)
        && are_facts_of_both(
            alloc,
            arena,
            p.facts.as_slice(),
            q.facts.as_slice(),
            stated.facts.as_slice(),
        )
}
