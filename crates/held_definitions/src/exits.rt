//! The triple of an exit of a definition, over numbers.

ghost use Rattle.std.specs.Prelude.{◌≡◌, ◌↔◌, ◌∷◌, ◌+◌, ◌*◌, ◌≤◌, [], IsTrue, List as Items, Some as Just, length, map, slice_get, zip};
ghost use Rattle.std.specs.List.{range_with_len};
ghost use Rattle.word_terms.specs.Tree.{Const, MemVar, Var};
ghost use Rattle.tailrec_lang.specs.Tree.{def_tree, group_tree};
ghost use Rattle.triple_kernel.specs.Tree.{Gives};
ghost use Rattle.loop_rule.specs.Leaves.{at_entry, at_exit, parameters, variables_after};
ghost use Rattle.loop_rule.specs.Rule.{IsExit, exit_triple, results as results_of};
ghost use Rattle.term_arena.specs.Arena.{IsMemAt, IsWordAt, Tree, mem_of, word_of};
ghost use Rattle.held_terms.specs.Held.{AreFactsAt, AreMemsAt, AreRegistersAt, AreValuesAt, AreWordsAt, IsFactAt, IsHeldAt, IsSideAt, fact_of, register_of, side_of, triple_of, values_over};
ghost use Rattle.held_terms.specs.Subterms.{HasFact, HasFacts, HasHeld, HasRegisters, HasSide, HasTerms, HasValues};
ghost use Rattle.held_definitions.specs.Looks.{Looks};
ghost use Rattle.held_definitions.specs.inner.LeafNodes.{constant_of, mem_variable_of, variable_of};

use held_terms::{Held, HeldFact, HeldSide, HeldValues};
use std::sync::ledger::Ledger;
use tailrec_lang::{Def, Exit, Group, def_at, results_at};
use term_arena::{Arena, Node, Steps};

/// The triple of an exit of a definition. Whether its code is the group's own is told by the
/// caller. At most one step is taken for each different term of the list of arguments and that of
/// results, of each kind, and of each of the two assertions.
pub fn is_exit<L: Ledger>(
    arena: &Arena,
    g: &Group,
    d: u32,
    exit: u32,
    stated: &Held,
    own: bool,
    steps: &mut Steps<L>,
) -> bool
    requires stated { IsHeldAt arena.now stated.now }
    requires code { IsTrue own ↔ (stated.now.code.ranges ≡ g.now.code.ranges) }
    ensures answer { IsTrue result
        ↔ IsExit (group_tree g.now) d exit (triple_of arena.now stated.now) }
    ensures steps { (ts : Items Tree)
        → HasHeld arena.now stated.now ts
        → steps.new ≤ steps.old + (10 * length ts + 1) }
{
    match def_at(g, d as usize) {
        Some(def) => is_exit_of(arena, g, d, def, exit, stated, own, steps),
        None => false,
    }
}

/// .. of the definition that it is.
fn is_exit_of<L: Ledger>(
    arena: &Arena,
    g: &Group,
    d: u32,
    def: &Def,
    exit: u32,
    stated: &Held,
    own: bool,
    steps: &mut Steps<L>,
) -> bool
    requires def { slice_get (group_tree g.now).defs d ≡ Just (def_tree def.now) }
    requires stated { IsHeldAt arena.now stated.now }
    requires code { IsTrue own ↔ (stated.now.code.ranges ≡ g.now.code.ranges) }
    ensures answer { IsTrue result
        ↔ IsExit (group_tree g.now) d exit (triple_of arena.now stated.now) }
    ensures steps { (ts : Items Tree)
        → HasHeld arena.now stated.now ts
        → steps.new ≤ steps.old + (10 * length ts + 1) }
{
    match def.exits.get(exit as usize) {
        Some(x) => is_exit_triple(arena, g, d, def, exit, *x, stated, own, steps),
        None => false,
    }
}

/// Whether the triple is that of the exit.
fn is_exit_triple<L: Ledger>(
    arena: &Arena,
    g: &Group,
    d: u32,
    def: &Def,
    exit: u32,
    x: Exit,
    stated: &Held,
    own: bool,
    steps: &mut Steps<L>,
) -> bool
    requires stated { IsHeldAt arena.now stated.now }
    requires code { IsTrue own ↔ (stated.now.code.ranges ≡ g.now.code.ranges) }
    ensures answer { IsTrue result
        ↔ (triple_of arena.now stated.now
        ≡ exit_triple (group_tree g.now) d (def_tree def.now) exit x) }
    ensures steps { Looks 10 (HasHeld arena.now stated.now) result steps.old steps.new }
{
    is_exit_fact(arena, g, d, exit, x, stated.facts.as_slice(), steps)
        && is_entry(arena, g, def, &stated.pre, steps)
        && own
        && is_end(arena, g, x, &stated.post, steps)
}

/// Whether the facts are alone that the definition, entered with its parameters, leaves by the exit
/// with the next variables.
fn is_exit_fact<L: Ledger>(
    arena: &Arena,
    g: &Group,
    d: u32,
    exit: u32,
    x: Exit,
    facts: &[HeldFact],
    steps: &mut Steps<L>,
) -> bool
    requires { AreFactsAt arena.now facts.now }
    ensures answer { IsTrue result
        ↔ (map (fact_of arena.now) facts.now
        ≡ Gives d exit (parameters (group_tree g.now)) (results_of (group_tree g.now) x) ∷ []) }
    ensures steps { Looks 4 (HasFacts arena.now facts.now) result steps.old steps.new }
{
    facts.len() == 1 && is_gives(arena, g, d, exit, x, &facts[0], steps)
}

fn is_gives<L: Ledger>(
    arena: &Arena,
    g: &Group,
    d: u32,
    exit: u32,
    x: Exit,
    fact: &HeldFact,
    steps: &mut Steps<L>,
) -> bool
    requires { IsFactAt arena.now fact.now }
    ensures answer { IsTrue result
        ↔ (fact_of arena.now fact.now
        ≡ Gives d exit (parameters (group_tree g.now)) (results_of (group_tree g.now) x)) }
    ensures steps { Looks 4 (HasFact arena.now fact.now) result steps.old steps.new }
{
    match fact {
        HeldFact::Gives {
            def,
            exit: e,
            args,
            results,
        } => {
            let words = g.regs.len();
            let mems = g.mems as usize;
            *def == d
                && *e == exit
                && are_next(arena, args, 0, 0, words, mems, steps)
                && are_next(arena, results, words, mems, results_at(g, x), mems, steps)
        }
        _ => false,
    }
}

/// Whether the values are the next variables of both kinds after so many.
fn are_next<L: Ledger>(
    arena: &Arena,
    values: &HeldValues,
    words: usize,
    mems: usize,
    more_words: usize,
    more_mems: usize,
    steps: &mut Steps<L>,
) -> bool
    requires { AreValuesAt arena.now values.now }
    ensures answer { IsTrue result
        ↔ (values_over arena.now values.now ≡ variables_after words mems more_words more_mems) }
    ensures steps { Looks 2 (HasValues arena.now values.now) result steps.old steps.new }
{
    are_word_variables(arena, values.words.as_slice(), words, more_words, steps)
        && are_mem_variables(arena, values.mems.as_slice(), mems, more_mems, steps)
}

/// Whether the assertion is that where the definition is entered with its parameters. A step is
/// taken for each of the terms of that one at most.
pub fn is_entry<L: Ledger>(
    arena: &Arena,
    g: &Group,
    def: &Def,
    side: &HeldSide,
    steps: &mut Steps<L>,
) -> bool
    requires { IsSideAt arena.now side.now }
    ensures answer { IsTrue result
        ↔ (side_of arena.now side.now
        ≡ at_entry (group_tree g.now) (def_tree def.now) (parameters (group_tree g.now))) }
    ensures steps { Looks 3 (HasSide arena.now side.now) result steps.old steps.new }
    ensures each { steps.new ≤ steps.old + (1 + (length g.now.regs + g.now.mems)) }
{
    is_constant(arena, side.pc, def.entry, steps) && have_variables(arena, g, side, 0, 0, steps)
}

/// Whether the assertion is that where the exit was left by with the next variables.
fn is_end<L: Ledger>(
    arena: &Arena,
    g: &Group,
    x: Exit,
    side: &HeldSide,
    steps: &mut Steps<L>,
) -> bool
    requires { IsSideAt arena.now side.now }
    ensures answer { IsTrue result
        ↔ (side_of arena.now side.now
        ≡ at_exit (group_tree g.now) (Just x) (results_of (group_tree g.now) x)) }
    ensures steps { Looks 3 (HasSide arena.now side.now) result steps.old steps.new }
{
    let words = g.regs.as_slice().len();
    let mems = g.mems as usize;
    match x {
        Exit::At(a) => {
            is_constant(arena, side.pc, a, steps)
                && have_variables(arena, g, side, words, mems, steps)
        }
        Exit::Ret => {
            is_variable(arena, side.pc, words, 0, steps)
                && have_variables(arena, g, side, words + 1, mems, steps)
        }
    }
}

/// Whether the group's registers and memories hold the next variables after so many.
fn have_variables<L: Ledger>(
    arena: &Arena,
    g: &Group,
    side: &HeldSide,
    words: usize,
    mems: usize,
    steps: &mut Steps<L>,
) -> bool
    requires { IsSideAt arena.now side.now }
    ensures answer { IsTrue result
        ↔ ((map (register_of arena.now) side.now.regs
        ≡ zip g.now.regs (map Var (range_with_len words (length g.now.regs))))
        × (map (mem_of arena.now) side.now.mems ≡ map MemVar (range_with_len mems g.now.mems))) }
    ensures steps { Looks 2 (HasSide arena.now side.now) result steps.old steps.new }
    ensures each { steps.new ≤ steps.old + (length g.now.regs + g.now.mems) }
{
    are_registers(arena, side.regs.as_slice(), g.regs.as_slice(), words, steps)
        && are_mem_variables(arena, side.mems.as_slice(), mems, g.mems as usize, steps)
}

/// Whether the registers are those of these numbers, with the next variables after so many.
fn are_registers<L: Ledger>(
    arena: &Arena,
    registers: &[(u8, u64)],
    numbers: &[u8],
    first: usize,
    steps: &mut Steps<L>,
) -> bool
    requires { AreRegistersAt arena.now registers.now }
    ensures answer { IsTrue result
        ↔ (map (register_of arena.now) registers.now
        ≡ zip numbers.now (map Var (range_with_len first (length numbers.now)))) }
    ensures steps { Looks 1 (HasRegisters arena.now registers.now) result steps.old steps.new }
    ensures each { steps.new ≤ steps.old + length numbers.now }
{
    if registers.len() != numbers.len() {
        return false;
    }
    for i in 0..registers.len() {
        if !is_register(arena, registers[i], numbers[i], first, i, steps) {
            return false;
        }
    }
    true
}

fn is_register<L: Ledger>(
    arena: &Arena,
    register: (u8, u64),
    number: u8,
    first: usize,
    i: usize,
    steps: &mut Steps<L>,
) -> bool
    requires { IsWordAt arena.now register.1 }
    ensures answer { IsTrue result ↔ (register_of arena.now register ≡ (number, Var (first + i))) }
    ensures steps { steps.new ≤ steps.old + 1 }
{
    register.0 == number && is_variable(arena, register.1, first, i, steps)
}

fn are_word_variables<L: Ledger>(
    arena: &Arena,
    words: &[u64],
    first: usize,
    count: usize,
    steps: &mut Steps<L>,
) -> bool
    requires { AreWordsAt arena.now words.now }
    ensures answer { IsTrue result
        ↔ (map (word_of arena.now) words.now ≡ map Var (range_with_len first count)) }
    ensures steps { Looks 1 (HasTerms arena.now words.now) result steps.old steps.new }
{
    if words.len() != count {
        return false;
    }
    for i in 0..words.len() {
        if !is_variable(arena, words[i], first, i, steps) {
            return false;
        }
    }
    true
}

fn are_mem_variables<L: Ledger>(
    arena: &Arena,
    mems: &[u64],
    first: usize,
    count: usize,
    steps: &mut Steps<L>,
) -> bool
    requires { AreMemsAt arena.now mems.now }
    ensures answer { IsTrue result
        ↔ (map (mem_of arena.now) mems.now ≡ map MemVar (range_with_len first count)) }
    ensures steps { Looks 1 (HasTerms arena.now mems.now) result steps.old steps.new }
    ensures each { steps.new ≤ steps.old + count }
{
    if mems.len() != count {
        return false;
    }
    for i in 0..mems.len() {
        if !is_mem_variable(arena, mems[i], first, i, steps) {
            return false;
        }
    }
    true
}

/// Whether the word is a variable: that at place `i` after the first ones.
fn is_variable<L: Ledger>(
    arena: &Arena,
    word: u64,
    first: usize,
    i: usize,
    steps: &mut Steps<L>,
) -> bool
    requires { IsWordAt arena.now word }
    ensures answer { IsTrue result ↔ (word_of arena.now word ≡ Var (first + i)) }
    ensures steps { steps.new ≡ steps.old + 1 }
{
    match variable_in(arena.node(word, steps)) {
        Some(j) => is_after(j, first, i),
        None => false,
    }
}

fn is_mem_variable<L: Ledger>(
    arena: &Arena,
    mem: u64,
    first: usize,
    i: usize,
    steps: &mut Steps<L>,
) -> bool
    requires { IsMemAt arena.now mem }
    ensures answer { IsTrue result ↔ (mem_of arena.now mem ≡ MemVar (first + i)) }
    ensures steps { steps.new ≡ steps.old + 1 }
{
    match mem_variable_in(arena.node(mem, steps)) {
        Some(j) => is_after(j, first, i),
        None => false,
    }
}

fn is_constant<L: Ledger>(arena: &Arena, word: u64, n: u64, steps: &mut Steps<L>) -> bool
    requires { IsWordAt arena.now word }
    ensures answer { IsTrue result ↔ (word_of arena.now word ≡ Const n) }
    ensures steps { steps.new ≡ steps.old + 1 }
{
    match constant_in(arena.node(word, steps)) {
        Some(m) => is_equal(m, n),
        None => false,
    }
}

fn is_equal(a: u64, b: u64) -> bool
    ensures { IsTrue result ↔ (a ≡ b) }
{
    a == b
}

fn is_after(j: u32, first: usize, i: usize) -> bool
    ensures { IsTrue result ↔ (j ≡ first + i) }
{
    let j = j as usize;
    j >= first && j - first == i
}

fn constant_in(n: Node) -> Option<u64>
    ensures { result ≡ constant_of n }
{
    match n {
        Node::Const(c) => Some(c),
        _ => None,
    }
}

fn variable_in(n: Node) -> Option<u32>
    ensures { result ≡ variable_of n }
{
    match n {
        Node::WordVar(i) => Some(i),
        _ => None,
    }
}

fn mem_variable_in(n: Node) -> Option<u32>
    ensures { result ≡ mem_variable_of n }
{
    match n {
        Node::MemVar(i) => Some(i),
        _ => None,
    }
}
