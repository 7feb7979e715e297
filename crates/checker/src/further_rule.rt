//! The further rule of a version, over triples whose terms are numbers of an arena.

ghost use Rattle.std.specs.Prelude.{◌≡◌, ◌+◌, ◌↔◌, ◌≤◌, IfOk, IsTrue};
ghost use Rattle.term_arena.specs.Arena.{Extends};
ghost use Rattle.held_terms.specs.Held.{IsHeldAt, triple_of};
ghost use Rattle.verdicts.specs.Further.{further_of};

use group_text::Version;
use held_terms::{Held, is_exchanged, is_steered};
use rv_words::NoMemory;
use std::alloc::Global;
use std::sync::ledger::Ledger;
use term_arena::{Arena, Steps};

/// Whether the further rule of that version states that triple from the premise. Whether their code
/// is the same is told by the caller. It takes at most one step.
#[tactic(auto, using(held_terms::proofs::GrowthLemmas::extends_none))]
pub(crate) fn is_further<L: Ledger>(
    alloc: Global,
    version: Version,
    arena: &mut Arena,
    premise: &Held,
    stated: &Held,
    same_code: bool,
    steps: &mut Steps<L>,
) -> Result<bool, NoMemory>
    requires premise { IsHeldAt arena.old premise.now }
    requires stated { IsHeldAt arena.old stated.now }
    requires code { IsTrue same_code ↔ (premise.now.code.ranges ≡ stated.now.code.ranges) }
    ensures answer { IfOk result (λ r.
        IsTrue r
        ↔ further_of version (triple_of arena.old premise.now) (triple_of arena.old stated.now)) }
    ensures grows { Extends arena.old arena.new }
    ensures steps { steps.new ≤ steps.old + 1 }
{
    match version {
        Version::One => Ok(false),
        Version::Two => Ok(false),
        Version::Three => is_steered(alloc, arena, premise, stated, same_code, steps),
        Version::Four => Ok(is_exchanged(arena, premise, stated, same_code)),
    }
}
