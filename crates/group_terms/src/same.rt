//! Whether groups and definitions are the same trees.

ghost use Rattle.std.specs.Prelude.{◌≡◌, ◌↔◌, IsTrue, false, map};
ghost use Rattle.word_terms.specs.Tree.{word_tree};
ghost use Rattle.tailrec_lang.specs.Tree.{body_tree, def_tree, group_tree, step_tree, values_tree};
ghost use Rattle.tailrec_lang.specs.inner.Tree.{arm_trees, end_tree};
ghost use Rattle.group_terms.specs.inner.Steps.{is_do};

use sep_assert::{same_code, same_mems};
use tailrec_lang::{Body, Def, End, Exit, Group, Step, Values};
use word_terms::{Word, same_cond, same_mem, same_word};

#[tactic(auto, using(sep_assert::proofs::SameLists::map_differs))]
fn same_words(a: &[Word], b: &[Word]) -> bool
    ensures { IsTrue result ↔ (map word_tree a.now ≡ map word_tree b.now) }
{
    if a.len() != b.len() {
        return false;
    }
    for i in 0..a.len() {
        if !same_word(&a[i], &b[i]) {
            return false;
        }
    }
    true
}

fn same_values(a: &Values, b: &Values) -> bool
    ensures { IsTrue result ↔ (values_tree a.now ≡ values_tree b.now) }
{
    same_words(a.words.as_slice(), b.words.as_slice())
        && same_mems(a.mems.as_slice(), b.mems.as_slice())
}

fn same_step(a: &Step, b: &Step) -> bool
    ensures { IsTrue result ↔ (step_tree a.now ≡ step_tree b.now) }
{
    match a {
        Step::Bind(t) => match b {
            Step::Bind(u) => same_word(t, u),
            _ => false,
        },
        Step::BindMem(t) => match b {
            Step::BindMem(u) => same_mem(t, u),
            _ => false,
        },
        Step::Need(t) => match b {
            Step::Need(u) => same_cond(t, u),
            _ => false,
        },
    }
}

#[tactic(auto, using(sep_assert::proofs::SameLists::map_differs))]
fn same_steps(a: &[Step], b: &[Step]) -> bool
    ensures { IsTrue result ↔ (map step_tree a.now ≡ map step_tree b.now) }
{
    if a.len() != b.len() {
        return false;
    }
    for i in 0..a.len() {
        if !same_step(&a[i], &b[i]) {
            return false;
        }
    }
    true
}

/// An end is no step.
fn no_step(end: &End)
    ensures { is_do (end_tree end.now) ≡ false }
{
    match end {
        End::Branch(_, _, _) => (),
        End::Call(_, _, _) => (),
        End::Again(_) => (),
        End::Leave(_, _) => (),
    }
}

/// Whether two bodies are the same trees.
#[cycle(sames)]
#[tactic(auto, using(crate::proofs::SameBodies::bodies_same))]
fn same_body(a: &Body, b: &Body) -> bool
    ensures { IsTrue result ↔ (body_tree a.now ≡ body_tree b.now) }
{
    no_step(&a.end);
    no_step(&b.end);
    same_steps(a.steps.as_slice(), b.steps.as_slice()) && same_end(&a.end, &b.end)
}

#[cycle(sames)]
fn same_end(a: &End, b: &End) -> bool
    ensures { IsTrue result ↔ (end_tree a.now ≡ end_tree b.now) }
{
    match a {
        End::Branch(c, x, y) => match b {
            End::Branch(d, u, v) => same_cond(c, d) && same_body(x, u) && same_body(y, v),
            _ => false,
        },
        End::Call(d, v, x) => match b {
            End::Call(e, w, y) => *d == *e
                && same_values(v, w)
                && same_arms(x.as_slice(), y.as_slice()),
            _ => false,
        },
        End::Again(v) => match b {
            End::Again(w) => same_values(v, w),
            _ => false,
        },
        End::Leave(d, v) => match b {
            End::Leave(e, w) => *d == *e && same_values(v, w),
            _ => false,
        },
    }
}

#[cycle(sames)]
#[tactic(auto, using(sep_assert::proofs::SameLists::map_differs, crate::proofs::SameBodies::arms_same))]
fn same_arms(a: &[Body], b: &[Body]) -> bool
    ensures { IsTrue result ↔ (arm_trees a.now ≡ arm_trees b.now) }
{
    if a.len() != b.len() {
        return false;
    }
    for i in 0..a.len() {
        if !same_body(&a[i], &b[i]) {
            return false;
        }
    }
    true
}

fn same_exits(a: &[Exit], b: &[Exit]) -> bool
    ensures { IsTrue result ↔ (a.now ≡ b.now) }
{
    if a.len() != b.len() {
        return false;
    }
    for i in 0..a.len() {
        if !same_exit(a[i], b[i]) {
            return false;
        }
    }
    true
}

fn same_exit(a: Exit, b: Exit) -> bool
    ensures { IsTrue result ↔ (a ≡ b) }
{
    match a {
        Exit::At(x) => match b {
            Exit::At(y) => x == y,
            Exit::Ret => false,
        },
        Exit::Ret => match b {
            Exit::At(_) => false,
            Exit::Ret => true,
        },
    }
}

/// Whether two definitions are the same trees.
pub fn same_def(a: &Def, b: &Def) -> bool
    ensures { IsTrue result ↔ (def_tree a.now ≡ def_tree b.now) }
{
    a.entry == b.entry
        && same_exits(a.exits.as_slice(), b.exits.as_slice())
        && same_body(&a.body, &b.body)
}

/// Whether two lists of definitions are the same trees.
#[tactic(auto, using(sep_assert::proofs::SameLists::map_differs))]
fn same_defs(a: &[Def], b: &[Def]) -> bool
    ensures { IsTrue result ↔ (map def_tree a.now ≡ map def_tree b.now) }
{
    if a.len() != b.len() {
        return false;
    }
    for i in 0..a.len() {
        if !same_def(&a[i], &b[i]) {
            return false;
        }
    }
    true
}

/// Whether two groups are the same trees.
pub fn same_group(a: &Group, b: &Group) -> bool
    ensures { IsTrue result ↔ (group_tree a.now ≡ group_tree b.now) }
{
    a.name.as_slice() == b.name.as_slice()
        && a.regs.as_slice() == b.regs.as_slice()
        && a.mems == b.mems
        && same_code(&a.code, &b.code)
        && same_defs(a.defs.as_slice(), b.defs.as_slice())
}
