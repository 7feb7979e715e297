//! Groups copied into memory of their own.

ghost use Rattle.std.specs.Prelude.{◌≡◌, IfOk, map};
ghost use Rattle.tailrec_lang.specs.Tree.{body_tree, def_tree, group_tree, step_tree};
ghost use Rattle.tailrec_lang.specs.inner.Tree.{end_tree};

use rv_words::{List, NoMemory};
use std::alloc::Global;
use tailrec_lang::{Body, Def, End, Group, Step, copy_values};
use word_terms::{copy_code, copy_cond, copy_mem, copy_word};

/// The same step in memory of its own.
fn copy_step(alloc: Global, step: &Step) -> Result<Step, NoMemory>
    ensures { IfOk result (λ copy. step_tree copy ≡ step_tree step.now) }
{
    match step {
        Step::Bind(t) => {
            let t = copy_word(alloc, t)?;
            Ok(Step::Bind(t))
        }
        Step::BindMem(m) => {
            let m = copy_mem(alloc, m)?;
            Ok(Step::BindMem(m))
        }
        Step::Need(c) => {
            let c = copy_cond(alloc, c)?;
            Ok(Step::Need(c))
        }
    }
}

/// The same steps in memory of their own.
#[tactic(auto, using(word_terms::proofs::Copies::image_pushed))]
fn copy_steps(alloc: Global, steps: &[Step]) -> Result<List<Step>, NoMemory>
    ensures { IfOk result (λ copies. map step_tree copies ≡ map step_tree steps.now) }
{
    let mut copies = List::new(alloc);
    for step in steps {
        let copy = copy_step(alloc, step)?;
        copies.push(copy)?;
    }
    Ok(copies)
}

/// The same body in memory of its own.
#[cycle(copies)]
#[tactic(auto, using(crate::proofs::Bodies::body_made))]
fn copy_body(alloc: Global, body: &Body) -> Result<Body, NoMemory>
    ensures { IfOk result (λ copy. body_tree copy ≡ body_tree body.now) }
{
    let steps = copy_steps(alloc, body.steps.as_slice())?;
    let end = copy_end(alloc, &body.end)?;
    Ok(Body { steps, end })
}

/// The same end in memory of its own.
#[cycle(copies)]
fn copy_end(alloc: Global, end: &End) -> Result<End, NoMemory>
    ensures { IfOk result (λ copy. end_tree copy ≡ end_tree end.now) }
{
    match end {
        End::Branch(c, a, b) => {
            let c = copy_cond(alloc, c)?;
            let a = copy_body(alloc, a)?;
            let b = copy_body(alloc, b)?;
            let a = Box::new(alloc, a)?;
            let b = Box::new(alloc, b)?;
            Ok(End::Branch(c, a, b))
        }
        End::Call(def, values, arms) => {
            let values = copy_values(alloc, values)?;
            let arms = copy_arms(alloc, arms.as_slice())?;
            Ok(End::Call(*def, values, arms))
        }
        End::Again(values) => {
            let values = copy_values(alloc, values)?;
            Ok(End::Again(values))
        }
        End::Leave(exit, values) => {
            let values = copy_values(alloc, values)?;
            Ok(End::Leave(*exit, values))
        }
    }
}

/// The same bodies in memory of their own.
#[cycle(copies)]
#[tactic(auto, using(word_terms::proofs::Copies::image_pushed))]
fn copy_arms(alloc: Global, arms: &[Body]) -> Result<List<Body>, NoMemory>
    ensures { IfOk result (λ copies. map body_tree copies ≡ map body_tree arms.now) }
{
    let mut copies = List::new(alloc);
    for arm in arms {
        let copy = copy_body(alloc, arm)?;
        copies.push(copy)?;
    }
    Ok(copies)
}

/// The same definition in memory of its own.
fn copy_def(alloc: Global, def: &Def) -> Result<Def, NoMemory>
    ensures { IfOk result (λ copy. def_tree copy ≡ def_tree def.now) }
{
    let exits = List::from_slice(alloc, def.exits.as_slice())?;
    let body = copy_body(alloc, &def.body)?;
    Ok(Def {
        entry: def.entry,
        exits,
        body,
    })
}

/// The same definitions in memory of their own.
#[tactic(auto, using(word_terms::proofs::Copies::image_pushed))]
fn copy_defs(alloc: Global, defs: &[Def]) -> Result<List<Def>, NoMemory>
    ensures { IfOk result (λ copies. map def_tree copies ≡ map def_tree defs.now) }
{
    let mut copies = List::new(alloc);
    for def in defs {
        let copy = copy_def(alloc, def)?;
        copies.push(copy)?;
    }
    Ok(copies)
}

/// The same group in memory of its own.
pub fn copy_group(alloc: Global, g: &Group) -> Result<Group, NoMemory>
    ensures { IfOk result (λ copy. group_tree copy ≡ group_tree g.now) }
{
    let name = List::from_slice(alloc, g.name.as_slice())?;
    let regs = List::from_slice(alloc, g.regs.as_slice())?;
    let code = copy_code(alloc, &g.code)?;
    let defs = copy_defs(alloc, g.defs.as_slice())?;
    Ok(Group {
        name,
        regs,
        mems: g.mems,
        code,
        defs,
    })
}
