//! What terms are by themselves: the values of words and conditions without variables, and memories
//! before their stores.

ghost use Rattle.std.specs.Prelude.{◌≡◌, ◌↔◌, ◌+◌, IfNone, IfOk, IfSome, IsTrue, OnOk, Some as Just, not, option_map, true};
ghost use Rattle.std.specs.BTreeMap.{get};
ghost use Rattle.std.specs.Ordering.{nat_cmp};
ghost use Rattle.rv_words.specs.Operation.{extension_value};
ghost use Rattle.term_arena.specs.Arena.{IsCondAt, IsMemAt, IsWordAt, cond_of, mem_of, word_of};
ghost use Rattle.triple_kernel.specs.Rules.{IsAlwaysTrue, before_stores as memory_before};
ghost use Rattle.held_consequence.specs.inner.Alone.{AreAllFound, AreFound, AreMoreFound, IsBase, IsBeforeStore, IsConstant, IsDecidedAlone, Searched, applied, base_of, compared, truth_found, value_of, stored_over as memory_under};
ghost use Rattle.held_terms.specs.Subterms.{HasTerm};

use rv_words::{Cmp, Ext, NoMemory, Op, apply, compare, extend};
use std::collections::BTreeMap;
use std::sync::ledger::Ledger;
use term_arena::{Arena, Node, Steps};

/// What was found of a term.
#[derive(Clone, Copy)]
pub(crate) enum Found {
    /// The value of a word, if it has no variables.
    Value(Option<u64>),
    /// Whether a condition is true, if it has no variables.
    Truth(Option<bool>),
    /// The memory before all of the outer stores of a memory.
    Base(u64),
}

/// The memory before all of its outer stores. Those that are found are kept, so that each is read
/// once.
#[cycle(bases)]
pub(crate) fn before_stores<L: Ledger>(
    arena: &Arena,
    found: &mut BTreeMap<u64, Found>,
    m: u64,
    steps: &mut Steps<L>,
) -> Result<u64, NoMemory>
    requires there { IsMemAt arena.now m }
    requires found { AreFound arena.now found.old (m + 1) }
    ensures base { IfOk result (λ v. IsBase arena.now m v) }
    ensures found { OnOk result (AreMoreFound arena.now found.old found.new) }
    ensures searched { Searched arena.now (HasTerm arena.now m) found.old found.new steps.old
        steps.new }
{
    if let Some(v) = base_in(found, m) {
        return Ok(v);
    }
    found.insert(m, Found::Base(m))?;
    let v = base_over(arena, found, m, steps)?;
    found.insert(m, Found::Base(v))?;
    Ok(v)
}

/// The memory before all of its outer stores, of which nothing was found.
#[cycle(bases)]
fn base_over<L: Ledger>(
    arena: &Arena,
    found: &mut BTreeMap<u64, Found>,
    m: u64,
    steps: &mut Steps<L>,
) -> Result<u64, NoMemory>
    requires there { IsMemAt arena.now m }
    requires found { AreFound arena.now found.old m }
    ensures base { IfOk result (λ v. IsBase arena.now m v) }
    ensures found { OnOk result (AreMoreFound arena.now found.old found.new) }
    ensures searched { Searched arena.now (HasTerm arena.now m) found.old found.new (steps.old + 1)
        steps.new }
{
    match before_store(arena, m, steps) {
        Some(old) => {
            let v = before_stores(arena, found, old, steps)?;
            Ok(v)
        }
        None => Ok(m),
    }
}

/// The memory before its outermost store, if there is one.
fn before_store<L: Ledger>(arena: &Arena, m: u64, steps: &mut Steps<L>) -> Option<u64>
    requires { IsMemAt arena.now m }
    ensures before { IfSome result (λ old. IsBeforeStore arena.now m old) }
    ensures last { IfNone result (memory_before (mem_of arena.now m) ≡ mem_of arena.now m) }
    ensures steps { steps.new ≡ steps.old + 1 }
{
    let n = arena.node(m, steps);
    stored_over(n)
}

fn stored_over(n: Node) -> Option<u64>
    ensures { result ≡ memory_under n }
{
    match n {
        Node::Store(_, old, _, _) => Some(old),
        _ => None,
    }
}

/// Whether the condition has no variables and is true.
pub(crate) fn is_always_true<L: Ledger>(
    arena: &Arena,
    found: &mut BTreeMap<u64, Found>,
    c: u64,
    steps: &mut Steps<L>,
) -> Result<bool, NoMemory>
    requires there { IsCondAt arena.now c }
    requires found { AreAllFound arena.now found.old }
    ensures answer { IfOk result (λ r. IsTrue r ↔ IsAlwaysTrue (cond_of arena.now c)) }
    ensures found { OnOk result (AreAllFound arena.now found.new) }
    ensures searched { Searched arena.now (HasTerm arena.now c) found.old found.new steps.old
        steps.new }
{
    let truth = truth_of(arena, found, c, steps)?;
    Ok(is_true(truth))
}

fn is_true(truth: Option<bool>) -> bool
    ensures { IsTrue result ↔ (truth ≡ Just true) }
{
    match truth {
        Some(v) => v,
        None => false,
    }
}

/// Whether the condition is true, if it has no variables. What is found is kept, so that each is
/// read once.
#[cycle(truths)]
fn truth_of<L: Ledger>(
    arena: &Arena,
    found: &mut BTreeMap<u64, Found>,
    c: u64,
    steps: &mut Steps<L>,
) -> Result<Option<bool>, NoMemory>
    requires there { IsCondAt arena.now c }
    requires found { AreFound arena.now found.old (c + 1) }
    ensures truth { IfOk result (λ v. IsDecidedAlone (cond_of arena.now c) v) }
    ensures found { OnOk result (AreMoreFound arena.now found.old found.new) }
    ensures searched { Searched arena.now (HasTerm arena.now c) found.old found.new steps.old
        steps.new }
{
    if let Some(v) = truth_in(found, c) {
        return Ok(v);
    }
    found.insert(c, Found::Truth(None))?;
    let v = truth_over(arena, found, c, steps)?;
    found.insert(c, Found::Truth(v))?;
    Ok(v)
}

/// Whether the condition of which nothing was found is true.
#[cycle(truths)]
fn truth_over<L: Ledger>(
    arena: &Arena,
    found: &mut BTreeMap<u64, Found>,
    c: u64,
    steps: &mut Steps<L>,
) -> Result<Option<bool>, NoMemory>
    requires there { IsCondAt arena.now c }
    requires found { AreFound arena.now found.old c }
    ensures truth { IfOk result (λ v. IsDecidedAlone (cond_of arena.now c) v) }
    ensures found { OnOk result (AreMoreFound arena.now found.old found.new) }
    ensures searched { Searched arena.now (HasTerm arena.now c) found.old found.new (steps.old + 1)
        steps.new }
{
    match arena.node(c, steps) {
        Node::Compare(cmp, a, b) => {
            let first = constant_of(arena, found, a, steps)?;
            let second = constant_of(arena, found, b, steps)?;
            Ok(compared(cmp, first, second))
        }
        Node::Neg(d) => {
            let truth = truth_of(arena, found, d, steps)?;
            Ok(negated(truth))
        }
        _ => Ok(None),
    }
}

fn compared(cmp: Cmp, a: Option<u64>, b: Option<u64>) -> Option<bool>
    ensures { result ≡ compared cmp a b }
{
    match a {
        Some(n) => match b {
            Some(m) => Some(compare(cmp, n, m)),
            None => None,
        },
        None => None,
    }
}

fn negated(truth: Option<bool>) -> Option<bool>
    ensures { result ≡ option_map not truth }
{
    match truth {
        Some(v) => Some(!v),
        None => None,
    }
}

/// The value of a word, if it has no variables. What is found is kept, so that each is read once.
#[cycle(constants)]
fn constant_of<L: Ledger>(
    arena: &Arena,
    found: &mut BTreeMap<u64, Found>,
    x: u64,
    steps: &mut Steps<L>,
) -> Result<Option<u64>, NoMemory>
    requires there { IsWordAt arena.now x }
    requires found { AreFound arena.now found.old (x + 1) }
    ensures value { IfOk result (λ v. IsConstant (word_of arena.now x) v) }
    ensures found { OnOk result (AreMoreFound arena.now found.old found.new) }
    ensures searched { Searched arena.now (HasTerm arena.now x) found.old found.new steps.old
        steps.new }
{
    if let Some(v) = value_in(found, x) {
        return Ok(v);
    }
    found.insert(x, Found::Value(None))?;
    let v = constant_over(arena, found, x, steps)?;
    found.insert(x, Found::Value(v))?;
    Ok(v)
}

/// The value of a word of which nothing was found.
#[cycle(constants)]
fn constant_over<L: Ledger>(
    arena: &Arena,
    found: &mut BTreeMap<u64, Found>,
    x: u64,
    steps: &mut Steps<L>,
) -> Result<Option<u64>, NoMemory>
    requires there { IsWordAt arena.now x }
    requires found { AreFound arena.now found.old x }
    ensures value { IfOk result (λ v. IsConstant (word_of arena.now x) v) }
    ensures found { OnOk result (AreMoreFound arena.now found.old found.new) }
    ensures searched { Searched arena.now (HasTerm arena.now x) found.old found.new (steps.old + 1)
        steps.new }
{
    match arena.node(x, steps) {
        Node::Const(n) => Ok(Some(n)),
        Node::Bin(op, a, b) => {
            let first = constant_of(arena, found, a, steps)?;
            let second = constant_of(arena, found, b, steps)?;
            Ok(applied(op, first, second))
        }
        Node::Extend(ext, a) => {
            let only = constant_of(arena, found, a, steps)?;
            Ok(extended(ext, only))
        }
        _ => Ok(None),
    }
}

fn applied(op: Op, a: Option<u64>, b: Option<u64>) -> Option<u64>
    ensures { result ≡ applied op a b }
{
    match a {
        Some(n) => match b {
            Some(m) => Some(apply(op, n, m)),
            None => None,
        },
        None => None,
    }
}

fn extended(ext: Ext, a: Option<u64>) -> Option<u64>
    ensures { result ≡ option_map (extension_value ext) a }
{
    match a {
        Some(n) => Some(extend(ext, n)),
        None => None,
    }
}

/// What was found of the value of a word, if anything was.
fn value_in(found: &BTreeMap<u64, Found>, x: u64) -> Option<Option<u64>>
    ensures { result ≡ value_of (get nat_cmp found.now x) }
{
    match found.get(&x) {
        Some(Found::Value(v)) => Some(*v),
        _ => None,
    }
}

/// What was found of a condition, if anything was.
fn truth_in(found: &BTreeMap<u64, Found>, x: u64) -> Option<Option<bool>>
    ensures { result ≡ truth_found (get nat_cmp found.now x) }
{
    match found.get(&x) {
        Some(Found::Truth(v)) => Some(*v),
        _ => None,
    }
}

/// What was found of the memory before stores, if anything was.
fn base_in(found: &BTreeMap<u64, Found>, x: u64) -> Option<u64>
    ensures { result ≡ base_of (get nat_cmp found.now x) }
{
    match found.get(&x) {
        Some(Found::Base(v)) => Some(*v),
        _ => None,
    }
}
