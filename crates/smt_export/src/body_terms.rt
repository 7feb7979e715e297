//! What the functions of a definition tell, as S-expressions.

ghost use Rattle.std.specs.Prelude.{◌≡◌, ◌+◌, ◌∷◌, ◌↔◌, [], IfOk, IsTrue, codes, get_or, length, map, slice_get, ◌<◌, ◌≤◌, ◌^◌};
ghost use Rattle.tailrec_lang.specs.Tree.{body_tree, exits_at, group_tree, step_tree, values_tree};
ghost use Rattle.tailrec_lang.specs.inner.Tree.{arm_trees, end_tree};
ghost use Rattle.tailrec_lang.specs.WellFormed.{exit_words, mems_after, words_after};
ghost use Rattle.tailrec_lang.specs.inner.WellFormed.{mems_after_all, words_after_all};
ghost use Rattle.word_terms.specs.Tree.{mem_tree};
ghost use Rattle.smt_terms.specs.Expression.{apply, bound};
ghost use Rattle.smt_terms.specs.Views.{expr};
ghost use Rattle.smt_export.specs.declared.told.Told.TheVariants.{ExitNumber};
ghost use Rattle.smt_export.specs.Told.{dom_name, mem_name};
ghost use Rattle.smt_export.specs.Terms.{dom_expr, mem_expr};
ghost use Rattle.smt_export.specs.Bodies.{arms_expr, body_expr, called, exit_number};
ghost use Rattle.smt_export.specs.inner.Following.{arm_room, room};
ghost use Rattle.smt_export.specs.inner.Steps.{arm_around, arm_by, step_expr, steps_expr};

use crate::branches::branch_term;
use crate::left::{default, exit_number, left_by, with_condition};
use crate::results::{call_results, let_mems, let_words};
use crate::term_trees::{cond_term, dom_term, mem_term, word_term};
use crate::told::{Told, numbered_name};
use crate::values::called;
use rv_words::NoMemory;
use smt_terms::{Tree, bound, ite, two};
use std::alloc::Global;
use tailrec_lang::{Body, End, Exit, Group, Step, Values, exits_of, results_at};
use word_terms::Mem;

/// How many words and memories are in scope.
#[derive(Clone, Copy)]
pub struct Scope {
    pub words: usize,
    pub mems: usize,
}

/// What a body of a definition tells.
#[cycle(bodies)]
#[tactic(auto, using(crate::proofs::BodyTrees::body_behind))]
pub fn body_term(
    alloc: Global,
    g: &Group,
    def: usize,
    body: &Body,
    told: Told,
    scope: Scope,
) -> Result<Tree, NoMemory>
    requires words { scope.words + room (group_tree g.now) (body_tree body.now) < 2 ^ 64 }
    requires mems { scope.mems + room (group_tree g.now) (body_tree body.now) < 2 ^ 64 }
    ensures { IfOk result (λ t.
        expr t
        ≡ body_expr (group_tree g.now) def (body_tree body.now) scope.words scope.mems told) }
{
    let steps = body.steps.as_slice();
    let inner = end_scope(g, body, scope);
    let end = end_term(alloc, g, def, &body.end, told, inner)?;
    steps_around(alloc, steps, told, scope, end)
}

/// What a body that is an end alone tells.
#[cycle(bodies)]
fn end_term(
    alloc: Global,
    g: &Group,
    def: usize,
    end: &End,
    told: Told,
    scope: Scope,
) -> Result<Tree, NoMemory>
    requires words { scope.words + room (group_tree g.now) (end_tree end.now) < 2 ^ 64 }
    requires mems { scope.mems + room (group_tree g.now) (end_tree end.now) < 2 ^ 64 }
    ensures { IfOk result (λ t.
        expr t ≡ body_expr (group_tree g.now) def (end_tree end.now) scope.words scope.mems told) }
{
    match end {
        End::Branch(c, a, b) => {
            let c = cond_term(alloc, c)?;
            let a = body_term(alloc, g, def, a, told, scope)?;
            let b = body_term(alloc, g, def, b, told, scope)?;
            branch_term(alloc, c, a, b)
        }
        End::Call(callee, values, arms) => {
            let ok = called(alloc, *callee as usize, values, Told::Ok)?;
            let rest = arms_term(
                alloc,
                g,
                def,
                *callee as usize,
                values,
                arms.as_slice(),
                told,
                scope,
            )?;
            with_condition(alloc, told, ok, rest)
        }
        End::Again(_) => default(alloc, told),
        End::Leave(exit, values) => {
            let by = exit_at(exits_of(g, def), *exit);
            left_by(alloc, by, *exit as usize, values, told)
        }
    }
}

/// The exit of that number.
fn exit_at(exits: &[Exit], exit: u32) -> Option<Exit>
    ensures { result ≡ slice_get exits.now exit }
{
    exits.get(exit as usize).copied()
}

/// What the arms of a call tell, by the exit by which the call leaves.
#[cycle(bodies)]
fn arms_term(
    alloc: Global,
    g: &Group,
    def: usize,
    callee: usize,
    values: &Values,
    arms: &[Body],
    told: Told,
    scope: Scope,
) -> Result<Tree, NoMemory>
    requires words { scope.words + arm_room (group_tree g.now) (arm_trees arms.now) < 2 ^ 64 }
    requires mems { scope.mems + arm_room (group_tree g.now) (arm_trees arms.now) < 2 ^ 64 }
    ensures { IfOk result (λ t.
        expr t
        ≡ arms_expr (group_tree g.now) def (called callee (values_tree values.now))
        (exits_at (group_tree g.now) callee) (arm_trees arms.now) 0 scope.words scope.mems told) }
{
    let exits = exits_of(g, callee);
    let count = arms.len().min(exits.len());
    let mut term = default(alloc, told)?;
    for i in 0..count {
        let k = count - 1 - i;
        let exit = exit_of(exits, k);
        let inner = arm_scope(g, exit, scope);
        let arm = body_term(alloc, g, def, &arms[k], told, inner)?;
        let last = is_last(exits, k);
        term = arm_term(alloc, g, callee, values, exit, k, last, scope, arm, term)?;
    }
    Ok(term)
}

/// The exit of the number of an arm.
fn exit_of(exits: &[Exit], k: usize) -> Exit
    requires { k < length exits.now }
    ensures { result ≡ get_or exits.now k result }
{
    exits[k]
}

/// Whether that is the number of the last exit.
fn is_last(exits: &[Exit], k: usize) -> bool
    requires { k < length exits.now }
    ensures { IsTrue result ↔ (length exits.now ≡ k + 1) }
{
    exits.len() == k + 1
}

/// The scope of the arm of that exit.
fn arm_scope(g: &Group, exit: Exit, scope: Scope) -> Scope
    requires words { scope.words + exit_words (group_tree g.now) exit < 2 ^ 64 }
    requires mems { scope.mems + g.now.mems < 2 ^ 64 }
    ensures words { result.words ≡ scope.words + exit_words (group_tree g.now) exit }
    ensures mems { result.mems ≡ scope.mems + (group_tree g.now).mems }
{
    Scope {
        words: scope.words + results_at(g, exit),
        mems: scope.mems + g.mems as usize,
    }
}

/// What is told by the arm of exit `k` where the call left by it, else by the other arms.
fn arm_term(
    alloc: Global,
    g: &Group,
    callee: usize,
    values: &Values,
    exit: Exit,
    k: usize,
    last: bool,
    scope: Scope,
    arm: Tree,
    others: Tree,
) -> Result<Tree, NoMemory>
    requires words { scope.words + exit_words (group_tree g.now) exit < 2 ^ 64 }
    requires mems { scope.mems + g.now.mems < 2 ^ 64 }
    ensures { IfOk result (λ t.
        expr t
        ≡ arm_by last
        (apply (codes "=") (called callee (values_tree values.now) ExitNumber ∷ exit_number k ∷ []))
        (arm_around (group_tree g.now) (called callee (values_tree values.now)) exit scope.words
        scope.mems (expr arm)) (expr others)) }
{
    let arm = arm_around(alloc, g, callee, values, exit, scope, arm)?;
    if last {
        return Ok(arm);
    }
    let exit = called(alloc, callee, values, Told::ExitNumber)?;
    let number = exit_number(alloc, k)?;
    let test = two(alloc, b"=", exit, number)?;
    ite(alloc, test, arm, others)
}

/// A term whose variables are the results of a call.
fn arm_around(
    alloc: Global,
    g: &Group,
    callee: usize,
    values: &Values,
    exit: Exit,
    scope: Scope,
    arm: Tree,
) -> Result<Tree, NoMemory>
    requires words { scope.words + exit_words (group_tree g.now) exit < 2 ^ 64 }
    requires mems { scope.mems + g.now.mems < 2 ^ 64 }
    ensures { IfOk result (λ t.
        expr t
        ≡ arm_around (group_tree g.now) (called callee (values_tree values.now)) exit scope.words
        scope.mems (expr arm)) }
{
    let words = call_results(alloc, g, exit)?;
    let arm = let_mems(alloc, callee, values, 0, g.mems as usize, scope.mems, arm)?;
    let_words(alloc, callee, values, words.as_slice(), scope.words, arm)
}

/// The scope at the end of a body.
fn end_scope(g: &Group, body: &Body, scope: Scope) -> Scope
    requires words { scope.words + room (group_tree g.now) (body_tree body.now) < 2 ^ 64 }
    requires mems { scope.mems + room (group_tree g.now) (body_tree body.now) < 2 ^ 64 }
    ensures words { result.words ≡ words_after_all (map step_tree body.now.steps) scope.words }
    ensures mems { result.mems ≡ mems_after_all (map step_tree body.now.steps) scope.mems }
    ensures words_fit { result.words + room (group_tree g.now) (end_tree body.now.end) < 2 ^ 64 }
    ensures mems_fit { result.mems + room (group_tree g.now) (end_tree body.now.end) < 2 ^ 64 }
{
    let _group = g;
    scope_after(body.steps.as_slice(), scope)
}

/// The scope behind steps.
fn scope_after(steps: &[Step], scope: Scope) -> Scope
    requires words { scope.words + length steps.now < 2 ^ 64 }
    requires mems { scope.mems + length steps.now < 2 ^ 64 }
    ensures words { result.words ≡ words_after_all (map step_tree steps.now) scope.words }
    ensures mems { result.mems ≡ mems_after_all (map step_tree steps.now) scope.mems }
{
    match steps {
        [] => scope,
        [first, rest @ ..] => scope_after(rest, scope_behind(first, scope)),
    }
}

/// The scope behind a step.
fn scope_behind(step: &Step, scope: Scope) -> Scope
    requires words { scope.words + 1 < 2 ^ 64 }
    requires mems { scope.mems + 1 < 2 ^ 64 }
    ensures words { result.words ≡ words_after (step_tree step.now) scope.words }
    ensures mems { result.mems ≡ mems_after (step_tree step.now) scope.mems }
    ensures few_words { result.words ≤ scope.words + 1 }
    ensures few_mems { result.mems ≤ scope.mems + 1 }
{
    match step {
        Step::Bind(_) => Scope {
            words: scope.words + 1,
            mems: scope.mems,
        },
        Step::BindMem(_) => Scope {
            words: scope.words,
            mems: scope.mems + 1,
        },
        Step::Need(_) => scope,
    }
}

/// What a body tells whose rest behind these steps tells this.
fn steps_around(
    alloc: Global,
    steps: &[Step],
    told: Told,
    scope: Scope,
    rest: Tree,
) -> Result<Tree, NoMemory>
    requires words { scope.words + length steps.now < 2 ^ 64 }
    requires mems { scope.mems + length steps.now < 2 ^ 64 }
    ensures { IfOk result (λ t.
        expr t ≡ steps_expr (map step_tree steps.now) scope.words scope.mems told (expr rest)) }
{
    match steps {
        [] => Ok(rest),
        [first, more @ ..] => {
            let after = scope_behind(first, scope);
            let rest = steps_around(alloc, more, told, after, rest)?;
            step_around(alloc, first, told, scope, rest)
        }
    }
}

/// What a body tells whose rest behind this step tells this.
fn step_around(
    alloc: Global,
    step: &Step,
    told: Told,
    scope: Scope,
    rest: Tree,
) -> Result<Tree, NoMemory>
    ensures { IfOk result (λ t.
        expr t ≡ step_expr (step_tree step.now) scope.words scope.mems told (expr rest)) }
{
    match step {
        Step::Bind(t) => {
            let name = numbered_name(alloc, b"w", scope.words)?;
            let term = word_term(alloc, t)?;
            bound(alloc, name.as_slice(), term, rest)
        }
        Step::BindMem(t) => memory_around(alloc, t, scope.mems, rest),
        Step::Need(c) => {
            let c = cond_term(alloc, c)?;
            with_condition(alloc, told, c, rest)
        }
    }
}

/// A term in which the memory variable `m` is that memory.
fn memory_around(alloc: Global, t: &Mem, m: usize, rest: Tree) -> Result<Tree, NoMemory>
    ensures { IfOk result (λ u.
        expr u
        ≡ bound (mem_name m) (mem_expr (mem_tree t.now))
        (bound (dom_name m) (dom_expr (mem_tree t.now)) (expr rest))) }
{
    let rest = domain_around(alloc, t, m, rest)?;
    let name = numbered_name(alloc, b"mem", m)?;
    let term = mem_term(alloc, t)?;
    bound(alloc, name.as_slice(), term, rest)
}

/// A term in which the domain of the memory variable `m` is that memory's.
fn domain_around(alloc: Global, t: &Mem, m: usize, rest: Tree) -> Result<Tree, NoMemory>
    ensures { IfOk result (λ u.
        expr u ≡ bound (dom_name m) (dom_expr (mem_tree t.now)) (expr rest)) }
{
    let name = numbered_name(alloc, b"dom", m)?;
    let term = dom_term(alloc, t)?;
    bound(alloc, name.as_slice(), term, rest)
}
