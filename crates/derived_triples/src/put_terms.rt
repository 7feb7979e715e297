//! Terms that a line puts in for variables, put into an arena.
#![tactic(auto, using(held_terms::proofs::GrowthLemmas::extends_next))]

ghost use Rattle.std.specs.Prelude.{◌≤◌, ◌+◌, IfOk, map};
ghost use Rattle.proof_text.specs.Line.{mem_put_in, word_put_in};
ghost use Rattle.term_arena.specs.Arena.{Extends, OfMem, OfWord};
ghost use Rattle.held_terms.specs.Terms.{AreTermsPutIn, nodes_of};
ghost use Rattle.held_terms.specs.inner.Put.{AreMemTermsPut, AreRegistersPut};

use held_terms::{put_mem, put_word};
use rv_words::{List, NoMemory};
use std::alloc::Global;
use std::sync::ledger::Ledger;
use term_arena::{Arena, Steps};
use word_terms::{Mem, Word};

/// The variables' numbers beside those of the words that are put in for them.
pub fn put_word_terms<L: Ledger>(
    alloc: Global,
    arena: &mut Arena,
    terms: &[(u32, Word)],
    steps: &mut Steps<L>,
) -> Result<List<(u32, u64)>, NoMemory>
    ensures put { IfOk result (λ ps. AreRegistersPut arena.new ps (map word_put_in terms.now)) }
    ensures grows { Extends arena.old arena.new }
    ensures order { IfOk result (λ _.
        AreTermsPutIn arena.old (map (λ p. OfWord p.1) (map word_put_in terms.now)) arena.new) }
    ensures steps { steps.new
        ≤ steps.old + nodes_of (map (λ p. OfWord p.1) (map word_put_in terms.now)) }
{
    let mut numbers = List::with_capacity(alloc, terms.len())?;
    for term in terms {
        let k = put_word(arena, &term.1, steps)?;
        numbers.push((term.0, k))?;
    }
    Ok(numbers)
}

/// The variables' numbers beside those of the memories that are put in for them.
pub fn put_mem_terms<L: Ledger>(
    alloc: Global,
    arena: &mut Arena,
    terms: &[(u32, Mem)],
    steps: &mut Steps<L>,
) -> Result<List<(u32, u64)>, NoMemory>
    ensures put { IfOk result (λ ps. AreMemTermsPut arena.new ps (map mem_put_in terms.now)) }
    ensures grows { Extends arena.old arena.new }
    ensures order { IfOk result (λ _.
        AreTermsPutIn arena.old (map (λ p. OfMem p.1) (map mem_put_in terms.now)) arena.new) }
    ensures steps { steps.new
        ≤ steps.old + nodes_of (map (λ p. OfMem p.1) (map mem_put_in terms.now)) }
{
    let mut numbers = List::with_capacity(alloc, terms.len())?;
    for term in terms {
        let k = put_mem(arena, &term.1, steps)?;
        numbers.push((term.0, k))?;
    }
    Ok(numbers)
}
