//! Functions rewritten until no law matches at any place of any term. Each term is looked at once,
//! so the time is that of reading the group, and for each node of a term that of comparing its
//! children and of a few steps at it.

ghost use Rattle.std.specs.Prelude.{◌≡◌, ◌+◌, IfOk, OnOk, length, map};
ghost use Rattle.word_terms.specs.Tree.{mem_tree, word_tree};
ghost use Rattle.tailrec_lang.specs.Tree.{body_tree, def_tree, group_tree, step_tree, values_tree};
ghost use Rattle.tailrec_lang.specs.inner.Tree.{arm_trees, end_tree};
ghost use Rattle.fun_laws.specs.Certs.{IsCertOf};
ghost use Rattle.fun_laws.specs.Evaluation.{EvaluateAlike};
ghost use Rattle.fun_laws.specs.Simple.{IsSimple};
ghost use Rattle.fun_laws.specs.Rewriting.{AreSimple, arm_term_count, count, step_term};
ghost use Rattle.fun_laws.specs.inner.Simplified.{ArePassed, AreSimpleArms, AreSimpleMems, AreSimpleSteps, AreSimpleValues, AreSimpleWords, IsNext, IsNotedStep, IsSimpleBody, IsSimplifiedDef, arm_parts, body_parts, mem_parts, step_parts, value_parts, word_parts};

use crate::cert::Cert;
use crate::log::Log;
use crate::made::{made_branch, made_call};
use crate::rewriting_laws::law_of_rewriting;
use crate::simple::{simple_cond, simple_mem, simple_word};
use group_terms::{copy_group, has_range};
use rv_words::{List, NoMemory};
use std::alloc::Global;
use tailrec_lang::{Body, Def, End, Group, Step, Values};
use word_terms::{Mem, Word};

/// Goes on to the next term. A definition with 2^32 terms has no certificate, which is told as want
/// of memory.
fn next_term(log: &mut Log) -> Result<(), NoMemory>
    ensures { OnOk result (IsNext log.old log.new) }
{
    match log.term.checked_add(1) {
        Some(term) => {
            log.term = term;
            Ok(())
        }
        None => Err(NoMemory),
    }
}

/// The next number of a definition. A group with 2^32 definitions has no certificate, which is told
/// as out of memory.
fn next_def(def: u32) -> Result<u32, NoMemory>
    ensures { IfOk result (λ next. next ≡ def + 1) }
{
    match def.checked_add(1) {
        Some(next) => Ok(next),
        None => Err(NoMemory),
    }
}

#[tactic(auto, using(crate::proofs::SimpleBodies::words_simple_none, crate::proofs::PartSteps::list_begun, crate::proofs::PartSteps::list_ended))]
fn simple_words(alloc: Global, words: &[Word], log: &mut Log) -> Result<List<Word>, NoMemory>
    ensures passed { IfOk result (λ us.
        ArePassed word_parts (length words.now) log.old log.new (map word_tree words.now)
        (map word_tree us)) }
    ensures simple { IfOk result (λ us. AreSimpleWords (map word_tree us)) }
{
    let mut made = List::new(alloc);
    for t in words {
        let u = simple_word(alloc, t, log)?;
        next_term(log)?;
        made.push(u)?;
    }
    Ok(made)
}

#[tactic(auto, using(crate::proofs::SimpleBodies::mems_simple_none, crate::proofs::PartSteps::list_begun, crate::proofs::PartSteps::list_ended))]
fn simple_mems(alloc: Global, mems: &[Mem], log: &mut Log) -> Result<List<Mem>, NoMemory>
    ensures passed { IfOk result (λ ns.
        ArePassed mem_parts (length mems.now) log.old log.new (map mem_tree mems.now)
        (map mem_tree ns)) }
    ensures simple { IfOk result (λ ns. AreSimpleMems (map mem_tree ns)) }
{
    let mut made = List::new(alloc);
    for m in mems {
        let n = simple_mem(alloc, m, log)?;
        next_term(log)?;
        made.push(n)?;
    }
    Ok(made)
}

#[tactic(auto, using(crate::proofs::Ends::values_simplified))]
fn simple_values(alloc: Global, values: &Values, log: &mut Log) -> Result<Values, NoMemory>
    ensures passed { IfOk result (λ w.
        ArePassed value_parts (length values.now.words + length values.now.mems) log.old log.new
        (values_tree values.now) (values_tree w)) }
    ensures simple { IfOk result (λ w. AreSimpleValues (values_tree w)) }
{
    let words = simple_words(alloc, values.words.as_slice(), log)?;
    let mems = simple_mems(alloc, values.mems.as_slice(), log)?;
    Ok(Values { words, mems })
}

fn simple_step(alloc: Global, step: &Step, log: &mut Log) -> Result<Step, NoMemory>
    ensures noted { IfOk result (λ s.
        IsNotedStep log.old log.new (step_tree step.now) (step_tree s)) }
    ensures simple { IfOk result (λ s. IsSimple (step_term (step_tree s))) }
{
    match step {
        Step::Bind(t) => {
            let u = simple_word(alloc, t, log)?;
            Ok(Step::Bind(u))
        }
        Step::BindMem(m) => {
            let n = simple_mem(alloc, m, log)?;
            Ok(Step::BindMem(n))
        }
        Step::Need(c) => {
            let d = simple_cond(alloc, c, log)?;
            Ok(Step::Need(d))
        }
    }
}

#[tactic(auto, using(crate::proofs::SimpleBodies::steps_simple_none, crate::proofs::PartSteps::list_begun, crate::proofs::PartSteps::list_ended))]
fn simple_steps(alloc: Global, steps: &[Step], log: &mut Log) -> Result<List<Step>, NoMemory>
    ensures passed { IfOk result (λ ss.
        ArePassed step_parts (length steps.now) log.old log.new (map step_tree steps.now)
        (map step_tree ss)) }
    ensures simple { IfOk result (λ ss. AreSimpleSteps (map step_tree ss)) }
{
    let mut made = List::new(alloc);
    for step in steps {
        let s = simple_step(alloc, step, log)?;
        next_term(log)?;
        made.push(s)?;
    }
    Ok(made)
}

#[cycle(simplifying)]
#[tactic(auto, using(crate::proofs::Ends::body_simplified, crate::proofs::Ends::body_simple))]
fn simple_body(alloc: Global, body: &Body, log: &mut Log) -> Result<Body, NoMemory>
    ensures passed { IfOk result (λ b.
        ArePassed body_parts (count (body_tree body.now)) log.old log.new (body_tree body.now)
        (body_tree b)) }
    ensures simple { IfOk result (λ b. IsSimpleBody (body_tree b)) }
{
    let steps = simple_steps(alloc, body.steps.as_slice(), log)?;
    let end = simple_end(alloc, &body.end, log)?;
    Ok(Body { steps, end })
}

#[cycle(simplifying)]
#[tactic(auto, using(crate::proofs::Ends::branch_simplified, crate::proofs::Ends::call_simplified, crate::proofs::Ends::again_simplified, crate::proofs::Ends::leave_simplified, crate::proofs::Ends::branch_simple, crate::proofs::Ends::call_simple, crate::proofs::Ends::again_simple, crate::proofs::Ends::leave_simple))]
fn simple_end(alloc: Global, end: &End, log: &mut Log) -> Result<End, NoMemory>
    ensures passed { IfOk result (λ e.
        ArePassed body_parts (count (end_tree end.now)) log.old log.new (end_tree end.now)
        (end_tree e)) }
    ensures simple { IfOk result (λ e. IsSimpleBody (end_tree e)) }
{
    match end {
        End::Branch(c, a, b) => {
            let d = simple_cond(alloc, c, log)?;
            next_term(log)?;
            let x = simple_body(alloc, a, log)?;
            let y = simple_body(alloc, b, log)?;
            let e = made_branch(alloc, d, x, y)?;
            Ok(e)
        }
        End::Call(def, values, arms) => {
            let v = simple_values(alloc, values, log)?;
            let bs = simple_arms(alloc, arms.as_slice(), log)?;
            let e = made_call(*def, v, bs);
            Ok(e)
        }
        End::Again(values) => {
            let v = simple_values(alloc, values, log)?;
            Ok(End::Again(v))
        }
        End::Leave(exit, values) => {
            let v = simple_values(alloc, values, log)?;
            Ok(End::Leave(*exit, v))
        }
    }
}

#[cycle(simplifying)]
#[tactic(auto, using(crate::proofs::PartSteps::arms_more, crate::proofs::PartSteps::arms_begun, crate::proofs::PartSteps::arms_ended, crate::proofs::SimpleBodies::arms_simple_more))]
fn simple_arms(alloc: Global, arms: &[Body], log: &mut Log) -> Result<List<Body>, NoMemory>
    ensures passed { IfOk result (λ bs.
        ArePassed arm_parts (arm_term_count (arm_trees arms.now)) log.old log.new
        (arm_trees arms.now) (arm_trees bs)) }
    ensures simple { IfOk result (λ bs. AreSimpleArms (arm_trees bs)) }
{
    let mut made = List::new(alloc);
    for arm in arms {
        let b = simple_body(alloc, arm, log)?;
        made.push(b)?;
    }
    Ok(made)
}

fn simple_def(alloc: Global, def: &Def, log: &mut Log) -> Result<Def, NoMemory>
    ensures { IfOk result (λ d. IsSimplifiedDef log.old log.new (def_tree def.now) (def_tree d)) }
{
    let exits = List::from_slice(alloc, def.exits.as_slice())?;
    let body = simple_body(alloc, &def.body, log)?;
    Ok(Def {
        entry: def.entry,
        exits,
        body,
    })
}

/// The group's definitions rewritten until no law matches anywhere, with a certificate of it.
pub fn simplify(alloc: Global, g: &Group) -> Result<Cert, NoMemory>
    ensures accepted { IfOk result (λ c. IsCertOf (group_tree g.now) c) }
    ensures simple { IfOk result (λ c. AreSimple (map def_tree c.result)) }
    ensures same { IfOk result (λ c. EvaluateAlike (group_tree g.now) (map def_tree c.result)) }
{
    law_of_rewriting();
    has_range(g);
    let mut log = Log {
        def: 0,
        term: 0,
        place: List::new(alloc),
        steps: List::new(alloc),
    };
    let mut result = List::new(alloc);
    for def in g.defs.as_slice() {
        log.term = 0;
        let d = simple_def(alloc, def, &mut log)?;
        result.push(d)?;
        log.def = next_def(log.def)?;
    }
    let old = copy_group(alloc, g)?;
    Ok(Cert {
        old,
        steps: log.steps,
        result,
    })
}
