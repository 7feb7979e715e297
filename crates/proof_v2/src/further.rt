//! What a frame has besides its theorem.
#![tactic(auto, using(held_terms::proofs::GrowthLemmas::extends_next, held_terms::proofs::GrowthLemmas::extends_none))]

ghost use Rattle.std.specs.Prelude.{IfOk, map};
ghost use Rattle.word_terms.specs.Tree.{mem_tree};
ghost use Rattle.sep_assert.specs.Tree.{register_tree};
ghost use Rattle.term_arena.specs.Arena.{Extends, OfMem, OfWord};
ghost use Rattle.frame_compose.specs.Rules.{further, rest_after};
ghost use Rattle.held_terms.specs.Terms.{AreTermsPutIn};
ghost use Rattle.held_terms.specs.inner.Put.{AreMemsPut, AreRegistersPut};

use frame_compose::{is_listed, rest_after};
use held_terms::{put_mems, put_word};
use rv_words::{List, NoMemory};
use std::alloc::Global;
use std::sync::ledger::Ledger;
use term_arena::{Arena, Steps};
use word_terms::{Mem, Word};

/// The registers that aren't among a theorem's own, with the numbers of what they hold.
pub fn put_further_registers<L: Ledger>(
    alloc: Global,
    arena: &mut Arena,
    own: &[(u8, Word)],
    all: &[(u8, Word)],
    steps: &mut Steps<L>,
) -> Result<List<(u8, u64)>, NoMemory>
    ensures put { IfOk result (λ rs.
        AreRegistersPut arena.new rs (further (map register_tree own.now) (map register_tree
        all.now))) }
    ensures grows { Extends arena.old arena.new }
    ensures order { IfOk result (λ _. AreTermsPutIn arena.old
        (map (λ r. OfWord r.1) (further (map register_tree own.now) (map register_tree all.now)))
        arena.new) }
{
    let mut numbers = List::new(alloc);
    for register in all {
        if is_listed(own, register.0) {
            continue;
        }
        let k = put_word(arena, &register.1, steps)?;
        numbers.push((register.0, k))?;
    }
    Ok(numbers)
}

/// The memories behind as many as a theorem has, by their numbers.
pub fn put_further_mems<L: Ledger>(
    alloc: Global,
    arena: &mut Arena,
    own: &[Mem],
    all: &[Mem],
    steps: &mut Steps<L>,
) -> Result<List<u64>, NoMemory>
    ensures put { IfOk result (λ ks.
        AreMemsPut arena.new ks (rest_after (map mem_tree own.now) (map mem_tree all.now))) }
    ensures grows { Extends arena.old arena.new }
    ensures order { IfOk result (λ _.
        AreTermsPutIn arena.old
        (map OfMem (rest_after (map mem_tree own.now) (map mem_tree all.now))) arena.new) }
{
    put_mems(alloc, arena, rest_after(all, own.len()), steps)
}
