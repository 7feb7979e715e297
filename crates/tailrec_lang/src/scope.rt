//! Which groups are well-formed.

ghost use Rattle.std.specs.Prelude.{◌≡◌, ◌+◌, ◌<◌, ◌^◌, ◌↔◌, ℕ, IsTrue, IsOk, IfErr, All, IfSome, IfNone, map, length, slice_get};
ghost use Rattle.word_terms.specs.Tree.{cond_tree, mem_tree, word_tree};
ghost use Rattle.word_terms.specs.Scope.{CondInScope, MemInScope, WordInScope};
ghost use Rattle.tailrec_lang.specs.Tree.{body_tree, def_tree, exits_at, group_tree, step_tree, values_tree};
ghost use Rattle.tailrec_lang.specs.inner.Tree.{arm_trees};
ghost use Rattle.tailrec_lang.specs.WellFormed.{ArmsAreWellFormed, BodyIsWellFormed, DefIsWellFormed, HasCounts, IsFirstIllFormed, IsWellFormed, StepInScope, ValuesInScope, exit_words, mems_after, words_after};
ghost use Rattle.tailrec_lang.specs.inner.WellFormed.{Counts, FitsExit, StepsInScope, mems_after_all, words_after_all};

use crate::group::{Body, Def, End, Exit, Group, Step, Values};
use word_terms::{Cond, Mem, Word, is_cond_in_scope, is_mem_in_scope, is_word_in_scope};

/// The number of a definition that isn't well-formed.
#[derive(Clone, Copy, Debug, PartialEq, Eq)]
pub struct BadDef {
    pub def: u32,
}

/// How many variables are in scope: 2^32 where there are more, since the numbers of variables have
/// 32 bits.
#[derive(Clone, Copy)]
struct Scope {
    words: usize,
    mems: usize,
}

/// Whether the group is well-formed; otherwise the first definition that isn't.
pub fn well_formed(g: &Group) -> Result<(), BadDef>
    requires { length g.now.defs < 2 ^ 32 }
    ensures ok { IsOk result ↔ IsWellFormed (group_tree g.now) }
    ensures first { IfErr result (λ e. IsFirstIllFormed (group_tree g.now) e.def) }
{
    let defs = g.defs.as_slice();
    for (i, def) in defs.iter().enumerate() {
        if !is_def_well_formed(g, i, def) {
            return Err(BadDef { def: i as u32 });
        }
    }
    Ok(())
}

fn is_def_well_formed(g: &Group, d: usize, def: &Def) -> bool
    ensures { IsTrue result ↔ DefIsWellFormed (group_tree g.now) d (def_tree def.now) }
{
    let scope = scope_of(g.regs.len(), g.mems as usize);
    is_body_well_formed(g, d, &def.body, scope)
}

/// Whether the body of definition `d` is well-formed in a scope.
#[cycle(bodies)]
fn is_body_well_formed(g: &Group, d: usize, body: &Body, scope: Scope) -> bool
    ensures { (w m : ℕ) → Counts scope w m
        → (IsTrue result ↔ BodyIsWellFormed (group_tree g.now) d (body_tree body.now) w m) }
{
    let Some(scope) = scope_after(body.steps.as_slice(), scope) else {
        return false;
    };
    match &body.end {
        End::Branch(c, a, b) => {
            let condition = is_cond_counted(c, scope);
            let first = is_body_well_formed(g, d, a, scope);
            let second = is_body_well_formed(g, d, b, scope);
            both(condition, both(first, second))
        }
        End::Call(def, values, arms) => {
            let earlier = (*def as usize) < d;
            let counts = has_counts(values, g.regs.len(), g.mems as usize);
            let counted = are_values_counted(values, scope);
            let exits = exits_of(g, *def as usize);
            let fits = are_arms_well_formed(g, d, exits, arms.as_slice(), scope);
            both(earlier, both(counts, both(counted, fits)))
        }
        End::Again(values) => {
            let counts = has_counts(values, g.regs.len(), g.mems as usize);
            let counted = are_values_counted(values, scope);
            both(counts, counted)
        }
        End::Leave(exit, values) => {
            let fits = fits_exit(g, exit_at(exits_of(g, d), *exit), values);
            let counted = are_values_counted(values, scope);
            both(fits, counted)
        }
    }
}

/// Whether both hold.
fn both(a: bool, b: bool) -> bool
    ensures { IsTrue result ↔ (IsTrue a × IsTrue b) }
{
    a && b
}

/// Whether there is an arm for each exit, and all of them are well-formed.
#[cycle(bodies)]
fn are_arms_well_formed(g: &Group, d: usize, exits: &[Exit], arms: &[Body], scope: Scope) -> bool
    ensures { (w m : ℕ)
        → Counts scope w m
        → (IsTrue result
        ↔ ArmsAreWellFormed (group_tree g.now) d exits.now (arm_trees arms.now) w m) }
{
    if arms.len() != exits.len() {
        return false;
    }
    for i in 0..arms.len() {
        let results = results_at(g, exits[i]);
        let arm_scope = with_more(scope, results, g.mems as usize);
        if !is_body_well_formed(g, d, &arms[i], arm_scope) {
            return false;
        }
    }
    true
}

/// The scope after the steps, if their variables are in scope.
fn scope_after(steps: &[Step], scope: Scope) -> Option<Scope>
    ensures some { IfSome result (λ after.
        (w m : ℕ)
        → Counts scope w m
        → StepsInScope (map step_tree steps.now) w m
        × Counts after (words_after_all (map step_tree steps.now) w)
        (mems_after_all (map step_tree steps.now) m)) }
    ensures none { IfNone result ((w m : ℕ)
        → Counts scope w m
        → StepsInScope (map step_tree steps.now) w m
        → ⊥) }
{
    let mut after = scope;
    for step in steps {
        if !is_step_counted(step, after) {
            return None;
        }
        after = next_scope(step, after);
    }
    Some(after)
}

fn is_step_counted(step: &Step, scope: Scope) -> bool
    ensures { (w m : ℕ)
        → Counts scope w m
        → (IsTrue result ↔ StepInScope (step_tree step.now) w m) }
{
    match step {
        Step::Bind(t) => is_word_counted(t, scope),
        Step::BindMem(t) => is_mem_counted(t, scope),
        Step::Need(c) => is_cond_counted(c, scope),
    }
}

/// The scope after a step.
fn next_scope(step: &Step, scope: Scope) -> Scope
    ensures { (w m : ℕ)
        → Counts scope w m
        → Counts result (words_after (step_tree step.now) w) (mems_after (step_tree step.now) m) }
{
    match step {
        Step::Bind(_) => with_more(scope, 1, 0),
        Step::BindMem(_) => with_more(scope, 0, 1),
        Step::Need(_) => scope,
    }
}

/// A scope of that many variables.
fn scope_of(words: usize, mems: usize) -> Scope
    ensures { Counts result words mems }
{
    Scope {
        words: words.min(1 << 32),
        mems: mems.min(1 << 32),
    }
}

/// The scope with more variables.
fn with_more(scope: Scope, words: usize, mems: usize) -> Scope
    ensures { (w m : ℕ) → Counts scope w m → Counts result (w + words) (m + mems) }
{
    scope_of(
        scope.words.saturating_add(words),
        scope.mems.saturating_add(mems),
    )
}

/// How many words an exit is left with: one for each register, and the returned address where there
/// is one.
pub fn results_at(g: &Group, exit: Exit) -> usize
    ensures { result ≡ exit_words (group_tree g.now) exit }
{
    match exit {
        Exit::At(_) => g.regs.as_slice().len(),
        Exit::Ret => g.regs.as_slice().len() + 1,
    }
}

/// The definition of that number, if there is one.
pub fn def_at(g: &Group, def: usize) -> Option<&Def>
    ensures some { IfSome result (λ d.
        slice_get (group_tree g.now).defs def ≡ Some (def_tree d.now)) }
    ensures none { IfNone result (slice_get (group_tree g.now).defs def ≡ None) }
{
    g.defs.get(def)
}

/// The exits of the definition of that number; none, if there is no such definition.
pub fn exits_of(g: &Group, def: usize) -> &[Exit]
    ensures { result.now ≡ exits_at (group_tree g.now) def }
{
    match g.defs.get(def) {
        Some(def) => def.exits.as_slice(),
        None => &[],
    }
}

/// The exit of that number.
fn exit_at(exits: &[Exit], exit: u32) -> Option<Exit>
    ensures { result ≡ slice_get exits.now exit }
{
    exits.get(exit as usize).copied()
}

/// Whether there are as many values as the exit is left with, if there is such an exit.
fn fits_exit(g: &Group, exit: Option<Exit>, values: &Values) -> bool
    ensures { IsTrue result ↔ FitsExit (group_tree g.now) exit (values_tree values.now) }
{
    match exit {
        Some(exit) => has_counts(values, results_at(g, exit), g.mems as usize),
        None => false,
    }
}

fn has_counts(values: &Values, words: usize, mems: usize) -> bool
    ensures { IsTrue result ↔ HasCounts (values_tree values.now) words mems }
{
    values.words.len() == words && values.mems.len() == mems
}

fn are_values_counted(values: &Values, scope: Scope) -> bool
    ensures { (w m : ℕ)
        → Counts scope w m
        → (IsTrue result ↔ ValuesInScope (values_tree values.now) w m) }
{
    are_words_counted(values.words.as_slice(), scope)
        && are_mems_counted(values.mems.as_slice(), scope)
}

fn are_words_counted(terms: &[Word], scope: Scope) -> bool
    ensures { (w m : ℕ)
        → Counts scope w m
        → (IsTrue result ↔ All (λ t. WordInScope t w m) (map word_tree terms.now)) }
{
    for t in terms {
        if !is_word_counted(t, scope) {
            return false;
        }
    }
    true
}

fn are_mems_counted(terms: &[Mem], scope: Scope) -> bool
    ensures { (w m : ℕ)
        → Counts scope w m
        → (IsTrue result ↔ All (λ t. MemInScope t w m) (map mem_tree terms.now)) }
{
    for t in terms {
        if !is_mem_counted(t, scope) {
            return false;
        }
    }
    true
}

fn is_word_counted(t: &Word, scope: Scope) -> bool
    ensures { (w m : ℕ) → Counts scope w m → (IsTrue result ↔ WordInScope (word_tree t.now) w m) }
{
    is_word_in_scope(t, scope.words, scope.mems)
}

fn is_mem_counted(t: &Mem, scope: Scope) -> bool
    ensures { (w m : ℕ) → Counts scope w m → (IsTrue result ↔ MemInScope (mem_tree t.now) w m) }
{
    is_mem_in_scope(t, scope.words, scope.mems)
}

fn is_cond_counted(c: &Cond, scope: Scope) -> bool
    ensures { (w m : ℕ) → Counts scope w m → (IsTrue result ↔ CondInScope (cond_tree c.now) w m) }
{
    is_cond_in_scope(c, scope.words, scope.mems)
}
