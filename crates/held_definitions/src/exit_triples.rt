//! The triple of an exit of a definition, over the numbers of its terms.
#![tactic(auto, using(held_terms::proofs::GrowthLemmas::extends_next))]

ghost use Rattle.std.specs.Prelude.{◌≡◌, ◌≤◌, ◌+◌, ◌*◌, ◌∷◌, [], IfOk, List as Items, Some as Just, drop, length, map, slice_index_or, zip};
ghost use Rattle.std.specs.List.{range_with_len};
ghost use Rattle.word_terms.specs.Tree.{Const, MemVar, Var};
ghost use Rattle.tailrec_lang.specs.Tree.{def_tree, group_tree};
ghost use Rattle.triple_kernel.specs.Tree.{TripleTree};
ghost use Rattle.held_terms.specs.declared.held.HeldFact.TheVariants as held;
ghost use Rattle.held_terms.specs.Held.{AreValuesAt, AreWordsAt, values_over};
ghost use Rattle.term_arena.specs.Arena.{Extends, Tree, word_of};
ghost use Rattle.loop_rule.specs.Leaves.{at_entry, at_exit, variables_after};
ghost use Rattle.loop_rule.specs.Rule.{IsExit, exit_triple};
ghost use Rattle.held_terms.specs.Terms.{HasSubterms, triple_terms};
ghost use Rattle.held_terms.specs.inner.Put.{AreMemsPut, AreWordsPut, IsHeldPut, IsMemPut, IsSidePut, IsValuesPut, IsWordPut};
ghost use Rattle.held_definitions.specs.inner.Exits.{IsHeldWith, IsExitPut};

use held_terms::{Held, HeldFact, HeldSide, HeldValues, Shared};
use rv_words::{List, NoMemory};
use std::alloc::Global;
use std::sync::ledger::Ledger;
use tailrec_lang::{Def, Exit, Group, def_at, results_at};
use term_arena::{Arena, Node, Steps};
use word_terms::Code;

/// The triple of that exit of that definition, if there is one. It shares that code, which is the
/// group's own. A step is taken for each of its variables, and two for program counters.
pub fn exit_held<L: Ledger>(
    alloc: Global,
    arena: &mut Arena,
    g: &Group,
    code: &Shared<Code>,
    d: u32,
    exit: u32,
    steps: &mut Steps<L>,
) -> Result<Option<Held>, NoMemory>
    requires { code.now.ranges ≡ g.now.code.ranges }
    ensures put { IfOk result (λ o. IsExitPut arena.new (group_tree g.now) d exit o) }
    ensures grows { Extends arena.old arena.new }
    ensures steps { (ts : Items Tree)
        → ((t : TripleTree)
        → IsExit (group_tree g.now) d exit t
        → HasSubterms ts (triple_terms t))
        → steps.new ≤ steps.old + (4 * length ts + 2) }
{
    let Some(def) = def_at(g, d as usize) else {
        return Ok(None);
    };
    let Some(x) = def.exits.get(exit as usize) else {
        return Ok(None);
    };
    let h = triple_at(alloc, arena, g, code, d, def, exit, *x, steps)?;
    Ok(Some(h))
}

/// The triple of an exit.
fn triple_at<L: Ledger>(
    alloc: Global,
    arena: &mut Arena,
    g: &Group,
    code: &Shared<Code>,
    d: u32,
    def: &Def,
    exit: u32,
    x: Exit,
    steps: &mut Steps<L>,
) -> Result<Held, NoMemory>
    requires code { code.now.ranges ≡ g.now.code.ranges }
    requires exit { IsExit (group_tree g.now) d exit (exit_triple (group_tree g.now) d
        (def_tree def.now) exit x) }
    ensures put { IfOk result (λ h.
        IsHeldPut arena.new h (exit_triple (group_tree g.now) d (def_tree def.now) exit x)) }
    ensures grows { Extends arena.old arena.new }
    ensures steps { (ts : Items Tree)
        → ((t : TripleTree)
        → IsExit (group_tree g.now) d exit t
        → HasSubterms ts (triple_terms t))
        → steps.new ≤ steps.old + (4 * length ts + 2) }
{
    let words = g.regs.len();
    let mems = g.mems as usize;
    let args = variables(alloc, arena, 0, 0, words, mems, steps)?;
    let results = variables(alloc, arena, words, mems, results_at(g, x), mems, steps)?;
    let pre = entry_side(alloc, arena, g, def, &args, steps)?;
    let post = exit_side(alloc, arena, g, x, &results, steps)?;
    let facts = gives(alloc, d, exit, args, results)?;
    let code = code.share()?;
    Held::new(alloc, facts, pre, code, post)
}

/// That the definition leaves by the exit with the results, entered with the arguments.
fn gives(
    alloc: Global,
    def: u32,
    exit: u32,
    args: HeldValues,
    results: HeldValues,
) -> Result<List<HeldFact>, NoMemory>
    ensures { IfOk result (λ facts. facts ≡ held.Gives def exit args results ∷ []) }
{
    let mut facts = List::new(alloc);
    facts.push(HeldFact::Gives {
        def,
        exit,
        args,
        results,
    })?;
    Ok(facts)
}

/// What holds where the definition is entered with these values.
fn entry_side<L: Ledger>(
    alloc: Global,
    arena: &mut Arena,
    g: &Group,
    def: &Def,
    values: &HeldValues,
    steps: &mut Steps<L>,
) -> Result<HeldSide, NoMemory>
    requires { AreValuesAt arena.old values.now }
    ensures put { IfOk result (λ s.
        IsSidePut arena.new s (at_entry (group_tree g.now) (def_tree def.now)
        (values_over arena.old values.now))) }
    ensures grows { Extends arena.old arena.new }
    ensures steps { steps.new ≤ steps.old + 1 }
{
    let pc = constant(arena, def.entry, steps)?;
    side_with(
        alloc,
        g,
        pc,
        values.words.as_slice(),
        values.mems.as_slice(),
    )
}

/// What holds where the exit was left by with these values.
fn exit_side<L: Ledger>(
    alloc: Global,
    arena: &mut Arena,
    g: &Group,
    x: Exit,
    values: &HeldValues,
    steps: &mut Steps<L>,
) -> Result<HeldSide, NoMemory>
    requires { AreValuesAt arena.old values.now }
    ensures put { IfOk result (λ s.
        IsSidePut arena.new s (at_exit (group_tree g.now) (Just x) (values_over arena.old
        values.now))) }
    ensures grows { Extends arena.old arena.new }
    ensures steps { steps.new ≤ steps.old + 1 }
{
    let words = values.words.as_slice();
    let mems = values.mems.as_slice();
    match x {
        Exit::At(a) => {
            let pc = constant(arena, a, steps)?;
            side_with(alloc, g, pc, words, mems)
        }
        Exit::Ret => {
            let pc = first_word(arena, words, steps)?;
            side_with(alloc, g, pc, other_words(words), mems)
        }
    }
}

/// The first word, or else 0.
fn first_word<L: Ledger>(
    arena: &mut Arena,
    words: &[u64],
    steps: &mut Steps<L>,
) -> Result<u64, NoMemory>
    requires { AreWordsAt arena.old words.now }
    ensures put { IfOk result (λ k.
        IsWordPut arena.new k (slice_index_or (map (word_of arena.old) words.now) 0 (Const 0))) }
    ensures grows { Extends arena.old arena.new }
    ensures steps { steps.new ≤ steps.old + 1 }
{
    if words.is_empty() {
        let k = constant(arena, 0, steps)?;
        return Ok(k);
    }
    Ok(words[0])
}

/// The words after the first one.
fn other_words(words: &[u64]) -> &[u64]
    ensures { result.now ≡ drop 1 words.now }
{
    if words.is_empty() {
        return words;
    }
    &words[1..]
}

/// The program counter, and these words and memories in the group's registers and memories.
fn side_with(
    alloc: Global,
    g: &Group,
    pc: u64,
    words: &[u64],
    mems: &[u64],
) -> Result<HeldSide, NoMemory>
    ensures { IfOk result (λ s. IsHeldWith s pc g.now.regs words.now mems.now) }
{
    let regs = registers_with(alloc, g.regs.as_slice(), words)?;
    let mems = List::from_slice(alloc, mems)?;
    HeldSide::new(alloc, pc, regs, mems)
}

/// Each register beside its word.
fn registers_with(alloc: Global, regs: &[u8], words: &[u64]) -> Result<List<(u8, u64)>, NoMemory>
    ensures { IfOk result (λ list. list ≡ zip regs.now words.now) }
{
    let count = regs.len().min(words.len());
    let mut list = List::with_capacity(alloc, count)?;
    for i in 0..count {
        list.push((regs[i], words[i]))?;
    }
    Ok(list)
}

/// The next variables of both kinds after so many.
fn variables<L: Ledger>(
    alloc: Global,
    arena: &mut Arena,
    words: usize,
    mems: usize,
    more_words: usize,
    more_mems: usize,
    steps: &mut Steps<L>,
) -> Result<HeldValues, NoMemory>
    ensures put { IfOk result (λ v.
        IsValuesPut arena.new v (variables_after words mems more_words more_mems)) }
    ensures grows { Extends arena.old arena.new }
    ensures steps { steps.new ≤ steps.old + (more_words + more_mems) }
{
    let words = word_variables(alloc, arena, words, more_words, steps)?;
    let mems = mem_variables(alloc, arena, mems, more_mems, steps)?;
    Ok(HeldValues { words, mems })
}

fn word_variables<L: Ledger>(
    alloc: Global,
    arena: &mut Arena,
    first: usize,
    count: usize,
    steps: &mut Steps<L>,
) -> Result<List<u64>, NoMemory>
    ensures put { IfOk result (λ ks.
        AreWordsPut arena.new ks (map Var (range_with_len first count))) }
    ensures grows { Extends arena.old arena.new }
    ensures steps { steps.new ≤ steps.old + count }
{
    let mut list = List::with_capacity(alloc, count)?;
    for i in 0..count {
        let k = word_variable(arena, first, i, steps)?;
        list.push(k)?;
    }
    Ok(list)
}

fn mem_variables<L: Ledger>(
    alloc: Global,
    arena: &mut Arena,
    first: usize,
    count: usize,
    steps: &mut Steps<L>,
) -> Result<List<u64>, NoMemory>
    ensures put { IfOk result (λ ks.
        AreMemsPut arena.new ks (map MemVar (range_with_len first count))) }
    ensures grows { Extends arena.old arena.new }
    ensures steps { steps.new ≤ steps.old + count }
{
    let mut list = List::with_capacity(alloc, count)?;
    for i in 0..count {
        let k = mem_variable(arena, first, i, steps)?;
        list.push(k)?;
    }
    Ok(list)
}

fn word_variable<L: Ledger>(
    arena: &mut Arena,
    first: usize,
    i: usize,
    steps: &mut Steps<L>,
) -> Result<u64, NoMemory>
    ensures put { IfOk result (λ k. IsWordPut arena.new k (Var (first + i))) }
    ensures grows { Extends arena.old arena.new }
    ensures steps { steps.new ≤ steps.old + 1 }
{
    let number = numbered(first, i)?;
    let k = arena.add(Node::WordVar(number), steps)?;
    Ok(k)
}

fn mem_variable<L: Ledger>(
    arena: &mut Arena,
    first: usize,
    i: usize,
    steps: &mut Steps<L>,
) -> Result<u64, NoMemory>
    ensures put { IfOk result (λ k. IsMemPut arena.new k (MemVar (first + i))) }
    ensures grows { Extends arena.old arena.new }
    ensures steps { steps.new ≤ steps.old + 1 }
{
    let number = numbered(first, i)?;
    let k = arena.add(Node::MemVar(number), steps)?;
    Ok(k)
}

fn constant<L: Ledger>(arena: &mut Arena, n: u64, steps: &mut Steps<L>) -> Result<u64, NoMemory>
    ensures put { IfOk result (λ k. IsWordPut arena.new k (Const n)) }
    ensures grows { Extends arena.old arena.new }
    ensures steps { steps.new ≤ steps.old + 1 }
{
    let k = arena.add(Node::Const(n), steps)?;
    Ok(k)
}

/// The number of a variable. There is no memory for as many of them as would need more than 32
/// bits.
fn numbered(first: usize, i: usize) -> Result<u32, NoMemory>
    ensures { IfOk result (λ n. n ≡ first + i) }
{
    match first.checked_add(i) {
        Some(n) if n < 1 << 32 => Ok(n as u32),
        _ => Err(NoMemory),
    }
}
