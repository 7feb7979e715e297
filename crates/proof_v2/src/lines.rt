//! The short line for a line of version 1.
#![tactic(auto, using(held_terms::proofs::GrowthLemmas::extends_next, held_terms::proofs::GrowthLemmas::extends_none))]

ghost use Rattle.std.specs.Prelude.{◌≡◌, ◌++◌, Bool, IfOk, List as Items, Some as Just, flat_map, map, option_map};
ghost use Rattle.sep_assert.specs.Tree.{assertion_tree};
ghost use Rattle.tailrec_lang.specs.Tree.{GroupTree};
ghost use Rattle.term_arena.specs.declared.node.Node.{Node};
ghost use Rattle.triple_kernel.specs.Tree.{TripleTree, triple_tree};
ghost use Rattle.proof_text.specs.Line.{Discharge, ExtendCode, Frame, Inst, States, Strengthen, Weaken, line_tree, mem_put_in, rule_tree, spelled_tree, word_put_in};
ghost use Rattle.verdicts.specs.Instance.{History};
ghost use Rattle.term_arena.specs.Arena.{Extends, OfMem, OfWord};
ghost use Rattle.short_text.specs.SpelledShort.{short_or_own};
ghost use Rattle.checker.specs.Short.{IsFineShort, IsRightFor};
ghost use Rattle.held_terms.specs.Terms.{AreTermsPutIn, assertion_terms, fact_terms};
ghost use Rattle.proof_v2.specs.Preconditions.{ArePreconditions, MayFollow};
ghost use Rattle.proof_v2.specs.ShortTerms.{further_terms, line_terms};
ghost use Rattle.proof_v2.specs.inner.Shortening.{AreLineTermsPut, IsPreKept, IsShortFor, IsShortRule};

use crate::further::{put_further_mems, put_further_registers};
use crate::preconditions::precondition;
use derived_triples::{put_mem_terms, put_word_terms};
use held_terms::{put_facts, put_side};
use proof_text::{Line, Rule, SpelledLine};
use rv_words::{List, NoMemory};
use sep_assert::Assertion;
use short_text::Short;
use std::alloc::Global;
use std::sync::ledger::Ledger;
use term_arena::{Arena, Steps};
use triple_kernel::Triple;
use word_terms::{Sub, copy_code};

/// The short line for which the line is the full one, over a table in which its terms stand from
/// then on, behind lines whose theorems have these preconditions. Where the line leaves the group's
/// own code out, so does the short line.
pub fn short_line<L: Ledger>(
    alloc: Global,
    arena: &mut Arena,
    kept: &[Option<Assertion>],
    line: &SpelledLine,
    steps: &mut Steps<L>,
) -> Result<Short, NoMemory>
    requires { (g : GroupTree) × (h : History) × MayFollow kept.now line.now g h }
    ensures right { IfOk result (λ s.
        (g : GroupTree) (h : History)
        → MayFollow kept.now line.now g h
        → IsRightFor g h arena.new (short_or_own g.code line.now.all s)
        (spelled_tree g.code line.now)) }
    ensures fine { IfOk result (λ s.
        (g : GroupTree) (h : History)
        → MayFollow kept.now line.now g h
        → IsFineShort arena.new (short_or_own g.code line.now.all s)) }
    ensures order { IfOk result (λ _.
        (g : GroupTree) (h : History)
        → MayFollow kept.now line.now g h
        → AreTermsPutIn arena.old (line_terms h (spelled_tree g.code line.now)) arena.new) }
    ensures grows { Extends arena.old arena.new }
{
    let short = shortened(alloc, arena, kept, line, steps)?;
    Ok(short)
}

/// The line without what can be computed.
fn shortened<L: Ledger>(
    alloc: Global,
    arena: &mut Arena,
    kept: &[Option<Assertion>],
    line: &SpelledLine,
    steps: &mut Steps<L>,
) -> Result<Short, NoMemory>
    requires { (g : GroupTree) × (h : History) × MayFollow kept.now line.now g h }
    ensures line { IfOk result (λ s.
        (h : History)
        → ArePreconditions kept.now h
        → IsShortFor h arena.new line.now.all s (line_tree line.now.line)) }
    ensures order { IfOk result (λ _.
        AreLineTermsPut kept.now arena.old (line_tree line.now.line) arena.new) }
    ensures grows { Extends arena.old arena.new }
{
    match &line.line {
        Line::States { rule, stated } => short_rule(alloc, arena, kept, rule, stated, steps),
        Line::Loop { def, cited } => short_loop(alloc, *def, cited.as_slice()),
        Line::Forget(k) => Ok(Short::Forget(*k)),
        Line::Further { .. } => unreachable!(),
    }
}

/// .. for a triple that is stated by a rule.
fn short_rule<L: Ledger>(
    alloc: Global,
    arena: &mut Arena,
    kept: &[Option<Assertion>],
    rule: &Rule,
    stated: &Triple,
    steps: &mut Steps<L>,
) -> Result<Short, NoMemory>
    requires { IsPreKept kept.now (rule_tree rule.now) }
    ensures line { IfOk result
        (IsShortRule kept.now arena.new (rule_tree rule.now) (triple_tree stated.now)) }
    ensures order { IfOk result (λ _.
        AreLineTermsPut kept.now arena.old
        (States (rule_tree rule.now) (triple_tree stated.now)) arena.new) }
    ensures grows { Extends arena.old arena.new }
{
    match rule {
        Rule::Axiom(address, word, form) => Ok(Short::Axiom(*address, *word, *form)),
        Rule::Inst(p, sub) => short_inst(alloc, arena, *p, sub, steps),
        Rule::Frame(p) => short_frame(alloc, arena, kept, *p, stated, steps),
        Rule::ExtendCode(p) => short_extension(alloc, *p, stated),
        Rule::Compose(p, q) => Ok(Short::Compose(*p, *q)),
        Rule::Strengthen(p) => short_strengthened(alloc, arena, *p, stated, steps),
        Rule::Weaken(p) => short_weakened(alloc, arena, *p, stated, steps),
        Rule::Discharge(p) => short_discharged(alloc, arena, *p, stated, steps),
        Rule::UseExit(def, exit) => Ok(Short::UseExit(*def, *exit)),
    }
}

/// .. for a triple with terms put in for variables.
fn short_inst<L: Ledger>(
    alloc: Global,
    arena: &mut Arena,
    p: u64,
    sub: &Sub,
    steps: &mut Steps<L>,
) -> Result<Short, NoMemory>
    ensures line { IfOk result (λ s.
        (h : History) (all : Bool) (t : TripleTree)
        → IsShortFor h arena.new all s
        (States (Inst p (map word_put_in sub.now.words) (map mem_put_in sub.now.mems)) t)) }
    ensures order { IfOk result (λ _. AreTermsPutIn arena.old
        (map (λ x. OfWord x.1) (map word_put_in sub.now.words)
        ++ map (λ x. OfMem x.1) (map mem_put_in sub.now.mems)) arena.new) }
    ensures grows { Extends arena.old arena.new }
{
    let words = put_word_terms(alloc, arena, sub.words.as_slice(), steps)?;
    let mems = put_mem_terms(alloc, arena, sub.mems.as_slice(), steps)?;
    Ok(Short::Inst(p, words, mems))
}

/// .. for a triple that is stated from a theorem with further registers and memories.
fn short_frame<L: Ledger>(
    alloc: Global,
    arena: &mut Arena,
    kept: &[Option<Assertion>],
    p: u64,
    stated: &Triple,
    steps: &mut Steps<L>,
) -> Result<Short, NoMemory>
    requires { IsPreKept kept.now (Frame p) }
    ensures line { IfOk result
        (IsShortRule kept.now arena.new (Frame p) (triple_tree stated.now)) }
    ensures order { IfOk result (λ _.
        AreLineTermsPut kept.now arena.old (States (Frame p) (triple_tree stated.now))
        arena.new) }
    ensures grows { Extends arena.old arena.new }
{
    match precondition(kept, p) {
        Some(own) => short_further(alloc, arena, p, own, stated, steps),
        None => unreachable!(),
    }
}

/// .. for one with further registers and memories than that precondition of theorem p.
fn short_further<L: Ledger>(
    alloc: Global,
    arena: &mut Arena,
    p: u64,
    own: &Assertion,
    stated: &Triple,
    steps: &mut Steps<L>,
) -> Result<Short, NoMemory>
    ensures line { IfOk result (λ s.
        (h : History) (all : Bool)
        → option_map (λ q. q.pre) (h.theorem p) ≡ Just (assertion_tree own.now)
        → IsShortFor h arena.new all s (States (Frame p) (triple_tree stated.now))) }
    ensures order { IfOk result (λ _.
        AreTermsPutIn arena.old
        (further_terms (assertion_tree own.now) (assertion_tree stated.now.pre)) arena.new) }
    ensures grows { Extends arena.old arena.new }
{
    let pre = &stated.pre;
    let regs = put_further_registers(
        alloc,
        arena,
        own.regs.as_slice(),
        pre.regs.as_slice(),
        steps,
    )?;
    let mems = put_further_mems(
        alloc,
        arena,
        own.mems.as_slice(),
        pre.mems.as_slice(),
        steps,
    )?;
    Ok(Short::Frame(p, regs, mems))
}

/// .. for a triple over further code.
fn short_extension(alloc: Global, p: u64, stated: &Triple) -> Result<Short, NoMemory>
    ensures { IfOk result (λ s.
        (h : History) (ns : Items Node) (all : Bool)
        → IsShortFor h ns all s (States (ExtendCode p) (triple_tree stated.now))) }
{
    let code = copy_code(alloc, &stated.code)?;
    Ok(Short::ExtendCode(p, code))
}

/// .. for a triple with other facts and another precondition.
fn short_strengthened<L: Ledger>(
    alloc: Global,
    arena: &mut Arena,
    p: u64,
    stated: &Triple,
    steps: &mut Steps<L>,
) -> Result<Short, NoMemory>
    ensures line { IfOk result (λ s.
        (h : History) (all : Bool)
        → IsShortFor h arena.new all s (States (Strengthen p) (triple_tree stated.now))) }
    ensures order { IfOk result (λ _.
        AreTermsPutIn arena.old
        (flat_map fact_terms (triple_tree stated.now).facts
        ++ assertion_terms (triple_tree stated.now).pre) arena.new) }
    ensures grows { Extends arena.old arena.new }
{
    let facts = put_facts(alloc, arena, stated.facts.as_slice(), steps)?;
    let pre = put_side(alloc, arena, &stated.pre, steps)?;
    Ok(Short::Strengthen(p, facts, pre))
}

/// .. for a triple with other facts and another postcondition.
fn short_weakened<L: Ledger>(
    alloc: Global,
    arena: &mut Arena,
    p: u64,
    stated: &Triple,
    steps: &mut Steps<L>,
) -> Result<Short, NoMemory>
    ensures line { IfOk result (λ s.
        (h : History) (all : Bool)
        → IsShortFor h arena.new all s (States (Weaken p) (triple_tree stated.now))) }
    ensures order { IfOk result (λ _.
        AreTermsPutIn arena.old
        (flat_map fact_terms (triple_tree stated.now).facts
        ++ assertion_terms (triple_tree stated.now).post) arena.new) }
    ensures grows { Extends arena.old arena.new }
{
    let facts = put_facts(alloc, arena, stated.facts.as_slice(), steps)?;
    let post = put_side(alloc, arena, &stated.post, steps)?;
    Ok(Short::Weaken(p, facts, post))
}

/// .. for a triple with other facts.
fn short_discharged<L: Ledger>(
    alloc: Global,
    arena: &mut Arena,
    p: u64,
    stated: &Triple,
    steps: &mut Steps<L>,
) -> Result<Short, NoMemory>
    ensures line { IfOk result (λ s.
        (h : History) (all : Bool)
        → IsShortFor h arena.new all s (States (Discharge p) (triple_tree stated.now))) }
    ensures order { IfOk result (λ _.
        AreTermsPutIn arena.old (flat_map fact_terms (triple_tree stated.now).facts) arena.new) }
    ensures grows { Extends arena.old arena.new }
{
    let facts = put_facts(alloc, arena, stated.facts.as_slice(), steps)?;
    Ok(Short::Discharge(p, facts))
}

/// .. for the end of a definition.
fn short_loop(alloc: Global, def: u32, cited: &[u64]) -> Result<Short, NoMemory>
    ensures { IfOk result (λ s. s ≡ Short.Loop def cited.now) }
{
    let copies = copy_numbers(alloc, cited)?;
    Ok(Short::Loop(def, copies))
}

/// The same numbers in memory of their own.
fn copy_numbers(alloc: Global, numbers: &[u64]) -> Result<List<u64>, NoMemory>
    ensures { IfOk result (λ copies. copies ≡ numbers.now) }
{
    let mut copies = List::new(alloc);
    for number in numbers {
        copies.push(*number)?;
    }
    Ok(copies)
}
