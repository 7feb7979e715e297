//! The way through one body: its steps, and its branches up to an end.

ghost use Rattle.std.specs.Prelude.{◌≡◌, ◌+◌, ◌<◌, ◌^◌, ℕ, IsTrue, IfOk, OnOk, length, map, true, false, cond};
ghost use Rattle.tailrec_lang.specs.Tree.{BodyTree, GroupTree, body_tree, step_tree, with_steps};
ghost use Rattle.tailrec_lang.specs.inner.Tree.{arm_trees};
ghost use Rattle.tailrec_lang.specs.WellFormed.{BodyIsWellFormed, StepInScope, mems_after, words_after};
ghost use Rattle.tailrec_lang.specs.Eval.{Meaning, NeedFalse, after_step, arm_needs, body_ending, needs, step_holds, step_needs, variables_of};
ghost use Rattle.tailrec_lang.specs.inner.Walk.{WalkFits, needs_passed, steps_need, walk_ending};

use crate::args::{Args, last_values, values_of};
use crate::group::{Body, End, Step};
use crate::passed::{Passed, Skipped};
use rv_words::NoMemory;
use std::alloc::Global;
use word_terms::{memory_of, truth, value};

/// Where a body gives control on.
#[derive(Drop)]
pub enum Transfer<'a> {
    /// It leaves by an exit, with these results.
    Left(u32, Args),
    /// It enters its definition again.
    Again(Args),
    /// It enters another definition, and one of the arms waits.
    Call(u32, Args, &'a [Body]),
    /// A Need is false.
    False,
}

/// Where a body gives control on, its variables there if a call waits with them, and what of its
/// definition stands before that place.
#[derive(Drop)]
pub struct Walk<'a> {
    pub variables: Args,
    pub passed: Passed<'a>,
    pub stop: Transfer<'a>,
}

/// Goes through a body from these variables on, where `passed` of its definition stands before it.
pub fn go_through<'a>(
    alloc: Global,
    body: &'a Body,
    variables: Args,
    passed: Passed<'a>,
) -> Result<Walk<'a>, NoMemory>
    requires scope { (g : GroupTree) × (d : ℕ)
        × BodyIsWellFormed g d (body_tree body.now) (length variables.words)
        (length variables.mems) }
    requires needs { needs_passed passed + needs (body_tree body.now) < 2 ^ 64 }
    ensures ending { IfOk result (λ w.
        (call : Meaning) (d left : ℕ)
        → body_ending call d (body_tree body.now) (variables_of variables)
        (needs_passed passed.entry) left ≡ walk_ending call d w left) }
    ensures fits { IfOk result (λ w.
        (g : GroupTree) (d : ℕ)
        → BodyIsWellFormed g d (body_tree body.now) (length variables.words) (length variables.mems)
        → WalkFits g d w) }
{
    let mut variables = variables;
    let mut passed = passed;
    let steps = body.steps.as_slice();
    if !take_steps(alloc, steps, &mut variables, &mut passed)? {
        let stop = Transfer::False;
        return Ok(Walk {
            variables,
            passed,
            stop,
        });
    }
    match &body.end {
        End::Branch(c, a, b) => {
            if truth(c, &variables.env()) {
                return go_through(alloc, a, variables, passed);
            }
            passed.skip(Skipped::First(a))?;
            go_through(alloc, b, variables, passed)
        }
        End::Call(def, values, arms) => {
            let args = values_of(alloc, values, &variables)?;
            let stop = Transfer::Call(*def, args, arms.as_slice());
            Ok(Walk {
                variables,
                passed,
                stop,
            })
        }
        End::Again(values) => {
            let args = last_values(alloc, values, variables)?;
            let stop = Transfer::Again(args);
            Ok(Walk {
                variables: Args::none(alloc),
                passed,
                stop,
            })
        }
        End::Leave(exit, values) => {
            let results = last_values(alloc, values, variables)?;
            let stop = Transfer::Left(*exit, results);
            Ok(Walk {
                variables: Args::none(alloc),
                passed,
                stop,
            })
        }
    }
}

/// Takes steps up to a Need that is false, or all of them, and tells which.
fn take_steps(
    alloc: Global,
    steps: &[Step],
    variables: &mut Args,
    passed: &mut Passed<'_>,
) -> Result<bool, NoMemory>
    requires scope { (g : GroupTree) × (d : ℕ) × (rest : BodyTree)
        × BodyIsWellFormed g d (with_steps (map step_tree steps.now) rest)
        (length variables.old.words) (length variables.old.mems) }
    requires needs { needs_passed passed.old + steps_need (map step_tree steps.now) < 2 ^ 64 }
    ensures ending { IfOk result (λ all.
        (call : Meaning) (d left : ℕ) (rest : BodyTree)
        → body_ending call d (with_steps (map step_tree steps.now) rest)
        (variables_of variables.old) (needs_passed passed.old) left
        ≡ cond all
        (body_ending call d rest (variables_of variables.new) (needs_passed passed.new) left)
        (NeedFalse d (needs_passed passed.new))) }
    ensures needs { IfOk result (λ all.
        IsTrue all
        → needs_passed passed.new
        ≡ needs_passed passed.old + steps_need (map step_tree steps.now)) }
    ensures few { IfOk result (λ _. needs_passed passed.new < 2 ^ 64) }
    ensures scope { IfOk result (λ all.
        IsTrue all
        → (g : GroupTree) (d : ℕ) (rest : BodyTree)
        → BodyIsWellFormed g d (with_steps (map step_tree steps.now) rest)
        (length variables.old.words) (length variables.old.mems)
        → BodyIsWellFormed g d rest (length variables.new.words) (length variables.new.mems)) }
{
    for step in steps {
        if !holds(step, variables) {
            return Ok(false);
        }
        add_variable(alloc, step, variables)?;
        passed.met += needs_of(step);
    }
    Ok(true)
}

/// Whether evaluation goes on after a step.
fn holds(step: &Step, variables: &Args) -> bool
    requires { StepInScope (step_tree step.now) (length variables.now.words)
        (length variables.now.mems) }
    ensures { result ≡ step_holds (step_tree step.now) (variables_of variables.now) }
{
    match step {
        Step::Bind(_) => true,
        Step::BindMem(_) => true,
        Step::Need(c) => truth(c, &variables.env()),
    }
}

/// Adds the step's variable, if it has one.
#[tactic(auto, using(crate::proofs::Environments::variables_word, crate::proofs::Environments::variables_mem))]
fn add_variable(alloc: Global, step: &Step, variables: &mut Args) -> Result<(), NoMemory>
    requires { StepInScope (step_tree step.now) (length variables.old.words)
        (length variables.old.mems) }
    ensures after { OnOk result (variables_of variables.new
        ≡ after_step (step_tree step.now) (variables_of variables.old)) }
    ensures words { OnOk result (length variables.new.words
        ≡ words_after (step_tree step.now) (length variables.old.words)) }
    ensures mems { OnOk result (length variables.new.mems
        ≡ mems_after (step_tree step.now) (length variables.old.mems)) }
{
    match step {
        Step::Bind(t) => {
            let word = value(t, &variables.env());
            variables.words.push(word)?;
        }
        Step::BindMem(t) => {
            let memory = memory_of(alloc, t, &variables.env())?;
            variables.mems.push(memory)?;
        }
        Step::Need(_) => {}
    }
    Ok(())
}

/// How many Needs a step is.
pub fn needs_of(step: &Step) -> u64
    ensures { result ≡ step_needs (step_tree step.now) }
{
    match step {
        Step::Need(_) => 1,
        _ => 0,
    }
}

/// How many Needs there are in a body.
#[cycle(counts)]
pub fn needs_in(body: &Body) -> u64
    requires { needs (body_tree body.now) < 2 ^ 64 }
    ensures { result ≡ needs (body_tree body.now) }
{
    let mut count = 0;
    let steps = body.steps.as_slice();
    for step in steps {
        count += needs_of(step);
    }
    match &body.end {
        End::Branch(_, a, b) => count + needs_in(a) + needs_in(b),
        End::Call(_, _, arms) => count + needs_in_arms(arms.as_slice()),
        _ => count,
    }
}

/// How many Needs there are in arms.
#[cycle(counts)]
pub fn needs_in_arms(arms: &[Body]) -> u64
    requires { arm_needs (arm_trees arms.now) < 2 ^ 64 }
    ensures { result ≡ arm_needs (arm_trees arms.now) }
{
    let mut count = 0;
    for arm in arms {
        count += needs_in(arm);
    }
    count
}
