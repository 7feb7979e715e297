//! Triples put into an arena, term by term.
#![tactic(auto, using(crate::proofs::GrowthLemmas::extends_next))]

ghost use Rattle.std.specs.Prelude.{◌≤◌, ◌+◌, IfOk, [], ◌∷◌, flat_map, map};
ghost use Rattle.word_terms.specs.Tree.{cond_tree, mem_tree, word_tree};
ghost use Rattle.tailrec_lang.specs.Tree.{values_tree};
ghost use Rattle.sep_assert.specs.Tree.{assertion_tree, register_tree};
ghost use Rattle.triple_kernel.specs.Tree.{fact_tree, triple_tree};
ghost use Rattle.term_arena.specs.Arena.{Extends, OfCond, OfMem, OfWord, cond_nodes, mem_nodes, word_nodes};
ghost use Rattle.held_terms.specs.Terms.{AreTermsPutIn, assertion_terms, fact_terms, nodes_of, triple_terms, values_terms};
ghost use Rattle.held_terms.specs.inner.Put.{AreFactsPut, AreMemsPut, AreRegistersPut, AreWordsPut, IsCondPut, IsFactPut, IsHeldPut, IsMemPut, IsSidePut, IsValuesPut, IsWordPut};

use crate::copies::copy_to_share;
use crate::held::{Held, HeldFact, HeldSide, HeldValues};
use rv_words::{List, NoMemory};
use sep_assert::Assertion;
use std::alloc::Global;
use std::sync::ledger::Ledger;
use tailrec_lang::Values;
use term_arena::{Arena, Steps};
use triple_kernel::{Fact, Triple};
use word_terms::{Cond, Mem, Word};

/// The triple of the numbers of its terms.
pub fn put_triple<L: Ledger>(
    alloc: Global,
    arena: &mut Arena,
    t: &Triple,
    steps: &mut Steps<L>,
) -> Result<Held, NoMemory>
    ensures put { IfOk result (λ h. IsHeldPut arena.new h (triple_tree t.now)) }
    ensures grows { Extends arena.old arena.new }
    ensures steps { steps.new ≤ steps.old + nodes_of (triple_terms (triple_tree t.now)) }
{
    let facts = put_facts(alloc, arena, t.facts.as_slice(), steps)?;
    let pre = put_side(alloc, arena, &t.pre, steps)?;
    let post = put_side(alloc, arena, &t.post, steps)?;
    let code = copy_to_share(alloc, &t.code)?;
    Held::new(alloc, facts, pre, code, post)
}

/// The facts of the numbers of their terms.
pub fn put_facts<L: Ledger>(
    alloc: Global,
    arena: &mut Arena,
    facts: &[Fact],
    steps: &mut Steps<L>,
) -> Result<List<HeldFact>, NoMemory>
    ensures put { IfOk result (λ fs. AreFactsPut arena.new fs (map fact_tree facts.now)) }
    ensures grows { Extends arena.old arena.new }
    ensures order { IfOk result (λ _.
        AreTermsPutIn arena.old (flat_map fact_terms (map fact_tree facts.now)) arena.new) }
    ensures steps { steps.new
        ≤ steps.old + nodes_of (flat_map fact_terms (map fact_tree facts.now)) }
{
    let mut numbers = List::with_capacity(alloc, facts.len())?;
    for fact in facts {
        let k = put_fact(alloc, arena, fact, steps)?;
        numbers.push(k)?;
    }
    Ok(numbers)
}

fn put_fact<L: Ledger>(
    alloc: Global,
    arena: &mut Arena,
    fact: &Fact,
    steps: &mut Steps<L>,
) -> Result<HeldFact, NoMemory>
    ensures put { IfOk result (λ f. IsFactPut arena.new f (fact_tree fact.now)) }
    ensures grows { Extends arena.old arena.new }
    ensures order { IfOk result (λ _.
        AreTermsPutIn arena.old (fact_terms (fact_tree fact.now)) arena.new) }
    ensures steps { steps.new ≤ steps.old + nodes_of (fact_terms (fact_tree fact.now)) }
{
    match fact {
        Fact::WordIs(a, b) => {
            let x = put_word(arena, a, steps)?;
            let y = put_word(arena, b, steps)?;
            Ok(HeldFact::WordIs(x, y))
        }
        Fact::MemIs(a, b) => {
            let x = put_mem(arena, a, steps)?;
            let y = put_mem(arena, b, steps)?;
            Ok(HeldFact::MemIs(x, y))
        }
        Fact::So(c) => {
            let x = put_cond(arena, c, steps)?;
            Ok(HeldFact::So(x))
        }
        Fact::Gives {
            def,
            exit,
            args,
            results,
        } => {
            let x = put_values(alloc, arena, args, steps)?;
            let y = put_values(alloc, arena, results, steps)?;
            Ok(HeldFact::Gives {
                def: *def,
                exit: *exit,
                args: x,
                results: y,
            })
        }
    }
}

fn put_values<L: Ledger>(
    alloc: Global,
    arena: &mut Arena,
    values: &Values,
    steps: &mut Steps<L>,
) -> Result<HeldValues, NoMemory>
    ensures put { IfOk result (λ v. IsValuesPut arena.new v (values_tree values.now)) }
    ensures grows { Extends arena.old arena.new }
    ensures order { IfOk result (λ _.
        AreTermsPutIn arena.old (values_terms (values_tree values.now)) arena.new) }
    ensures steps { steps.new ≤ steps.old + nodes_of (values_terms (values_tree values.now)) }
{
    let words = put_words(alloc, arena, values.words.as_slice(), steps)?;
    let mems = put_mems(alloc, arena, values.mems.as_slice(), steps)?;
    Ok(HeldValues { words, mems })
}

/// The assertion of the numbers of its terms.
pub fn put_side<L: Ledger>(
    alloc: Global,
    arena: &mut Arena,
    side: &Assertion,
    steps: &mut Steps<L>,
) -> Result<HeldSide, NoMemory>
    ensures put { IfOk result (λ s. IsSidePut arena.new s (assertion_tree side.now)) }
    ensures grows { Extends arena.old arena.new }
    ensures order { IfOk result (λ _.
        AreTermsPutIn arena.old (assertion_terms (assertion_tree side.now)) arena.new) }
    ensures steps { steps.new ≤ steps.old + nodes_of (assertion_terms (assertion_tree side.now)) }
{
    let pc = put_word(arena, &side.pc, steps)?;
    let regs = put_registers(alloc, arena, side.regs.as_slice(), steps)?;
    let mems = put_mems(alloc, arena, side.mems.as_slice(), steps)?;
    HeldSide::new(alloc, pc, regs, mems)
}

fn put_registers<L: Ledger>(
    alloc: Global,
    arena: &mut Arena,
    registers: &[(u8, Word)],
    steps: &mut Steps<L>,
) -> Result<List<(u8, u64)>, NoMemory>
    ensures put { IfOk result (λ rs.
        AreRegistersPut arena.new rs (map register_tree registers.now)) }
    ensures grows { Extends arena.old arena.new }
    ensures order { IfOk result (λ _. AreTermsPutIn arena.old
        (map (λ r. OfWord r.1) (map register_tree registers.now)) arena.new) }
    ensures steps { steps.new
        ≤ steps.old + nodes_of (map (λ r. OfWord r.1) (map register_tree registers.now)) }
{
    let mut numbers = List::with_capacity(alloc, registers.len())?;
    for register in registers {
        let k = put_word(arena, &register.1, steps)?;
        numbers.push((register.0, k))?;
    }
    Ok(numbers)
}

fn put_words<L: Ledger>(
    alloc: Global,
    arena: &mut Arena,
    words: &[Word],
    steps: &mut Steps<L>,
) -> Result<List<u64>, NoMemory>
    ensures put { IfOk result (λ ks. AreWordsPut arena.new ks (map word_tree words.now)) }
    ensures grows { Extends arena.old arena.new }
    ensures order { IfOk result (λ _.
        AreTermsPutIn arena.old (map OfWord (map word_tree words.now)) arena.new) }
    ensures steps { steps.new ≤ steps.old + nodes_of (map OfWord (map word_tree words.now)) }
{
    let mut numbers = List::with_capacity(alloc, words.len())?;
    for word in words {
        let k = put_word(arena, word, steps)?;
        numbers.push(k)?;
    }
    Ok(numbers)
}

/// The numbers of memories.
pub fn put_mems<L: Ledger>(
    alloc: Global,
    arena: &mut Arena,
    mems: &[Mem],
    steps: &mut Steps<L>,
) -> Result<List<u64>, NoMemory>
    ensures put { IfOk result (λ ks. AreMemsPut arena.new ks (map mem_tree mems.now)) }
    ensures grows { Extends arena.old arena.new }
    ensures order { IfOk result (λ _.
        AreTermsPutIn arena.old (map OfMem (map mem_tree mems.now)) arena.new) }
    ensures steps { steps.new ≤ steps.old + nodes_of (map OfMem (map mem_tree mems.now)) }
{
    let mut numbers = List::with_capacity(alloc, mems.len())?;
    for mem in mems {
        let k = put_mem(arena, mem, steps)?;
        numbers.push(k)?;
    }
    Ok(numbers)
}

/// The number of a word.
pub fn put_word<L: Ledger>(
    arena: &mut Arena,
    word: &Word,
    steps: &mut Steps<L>,
) -> Result<u64, NoMemory>
    ensures put { IfOk result (λ k. IsWordPut arena.new k (word_tree word.now)) }
    ensures grows { Extends arena.old arena.new }
    ensures order { IfOk result (λ _.
        AreTermsPutIn arena.old (OfWord (word_tree word.now) ∷ []) arena.new) }
    ensures steps { steps.new ≤ steps.old + word_nodes (word_tree word.now) }
{
    let k = arena.put_word(word, steps)?;
    Ok(k)
}

/// The number of a memory.
pub fn put_mem<L: Ledger>(
    arena: &mut Arena,
    mem: &Mem,
    steps: &mut Steps<L>,
) -> Result<u64, NoMemory>
    ensures put { IfOk result (λ k. IsMemPut arena.new k (mem_tree mem.now)) }
    ensures grows { Extends arena.old arena.new }
    ensures order { IfOk result (λ _.
        AreTermsPutIn arena.old (OfMem (mem_tree mem.now) ∷ []) arena.new) }
    ensures steps { steps.new ≤ steps.old + mem_nodes (mem_tree mem.now) }
{
    let k = arena.put_mem(mem, steps)?;
    Ok(k)
}

fn put_cond<L: Ledger>(
    arena: &mut Arena,
    cond: &Cond,
    steps: &mut Steps<L>,
) -> Result<u64, NoMemory>
    ensures put { IfOk result (λ k. IsCondPut arena.new k (cond_tree cond.now)) }
    ensures grows { Extends arena.old arena.new }
    ensures order { IfOk result (λ _.
        AreTermsPutIn arena.old (OfCond (cond_tree cond.now) ∷ []) arena.new) }
    ensures steps { steps.new ≤ steps.old + cond_nodes (cond_tree cond.now) }
{
    let k = arena.put_cond(cond, steps)?;
    Ok(k)
}
