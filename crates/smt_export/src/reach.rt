//! Which definitions a definition reaches by calls.

ghost use Rattle.std.specs.Prelude.{◌≡◌, ℕ, ◌+◌, ◌-◌, ◌<◌, ◌≤◌, ◌↔◌, ◌^◌, IfNone, IfOk, IfSome, IsTrue, get_or, length, false, true};
ghost use Rattle.tailrec_lang.specs.Tree.{body_tree, group_tree};
ghost use Rattle.tailrec_lang.specs.inner.Tree.{arm_trees, end_tree};
ghost use Rattle.tailrec_lang.specs.WellFormed.{IsWellFormed};
ghost use Rattle.smt_export.specs.Reach.{Calls, IsLeastLoop, EntersAgain, ReachesByCalls, arms_call, arms_enter, calls, enters};
ghost use Rattle.smt_export.specs.inner.Reach.{AreMarks, IsCalled};

use rv_words::{List, NoMemory};
use std::alloc::Global;
use tailrec_lang::{Body, End, Group, def_at};

/// Whether a body calls that definition.
#[cycle(calls)]
#[tactic(auto, using(crate::proofs::Reached::calls_behind))]
fn calls(body: &Body, def: usize) -> bool
    ensures { result ≡ calls (body_tree body.now) def }
{
    end_calls(&body.end, def)
}

#[cycle(calls)]
fn end_calls(end: &End, def: usize) -> bool
    ensures { result ≡ calls (end_tree end.now) def }
{
    match end {
        End::Branch(_, a, b) => calls(a, def) || calls(b, def),
        End::Call(callee, _, arms) => *callee as usize == def || arms_call(arms.as_slice(), def),
        End::Again(_) => false,
        End::Leave(_, _) => false,
    }
}

#[cycle(calls)]
#[tactic(auto, using(crate::proofs::Reached::call_next, crate::proofs::Reached::call_found, crate::proofs::Reached::call_nowhere))]
fn arms_call(arms: &[Body], def: usize) -> bool
    ensures { result ≡ arms_call (arm_trees arms.now) def }
{
    for arm in arms {
        if calls(arm, def) {
            return true;
        }
    }
    false
}

/// Whether a body enters its definition again.
#[cycle(enters)]
#[tactic(auto, using(crate::proofs::Reached::enters_behind))]
fn enters(body: &Body) -> bool
    ensures { result ≡ enters (body_tree body.now) }
{
    end_enters(&body.end)
}

#[cycle(enters)]
fn end_enters(end: &End) -> bool
    ensures { result ≡ enters (end_tree end.now) }
{
    match end {
        End::Branch(_, a, b) => enters(a) || enters(b),
        End::Call(_, _, arms) => arms_enter(arms.as_slice()),
        End::Again(_) => true,
        End::Leave(_, _) => false,
    }
}

#[cycle(enters)]
#[tactic(auto, using(crate::proofs::Reached::enters_next, crate::proofs::Reached::enters_found, crate::proofs::Reached::enters_nowhere))]
fn arms_enter(arms: &[Body]) -> bool
    ensures { result ≡ arms_enter (arm_trees arms.now) }
{
    for arm in arms {
        if enters(arm) {
            return true;
        }
    }
    false
}

/// Whether a definition calls another.
fn def_calls(g: &Group, def: usize, callee: usize) -> bool
    ensures { IsTrue result ↔ Calls (group_tree g.now) def callee }
{
    match def_at(g, def) {
        Some(def) => calls(&def.body, callee),
        None => false,
    }
}

/// Whether a definition enters itself again.
pub fn enters_again(g: &Group, def: usize) -> bool
    ensures { IsTrue result ↔ EntersAgain (group_tree g.now) def }
{
    match def_at(g, def) {
        Some(def) => enters(&def.body),
        None => false,
    }
}

/// Of each definition from `def` down to 0, whether `def` reaches it.
#[tactic(auto, using(crate::proofs::Reached::marks_begin, crate::proofs::Reached::marks_next))]
pub fn reached(alloc: Global, g: &Group, def: usize) -> Result<List<bool>, NoMemory>
    requires well_formed { IsWellFormed (group_tree g.now) }
    requires there { def < length g.now.defs }
    ensures count { IfOk result (λ marks. length marks ≡ def + 1) }
    ensures marks { IfOk result (λ marks. AreMarks (group_tree g.now) def marks) }
{
    let mut marks = List::new(alloc);
    marks.push(true)?;
    for i in 0..def {
        let next = def - 1 - i;
        let mark = is_called(g, def, marks.as_slice(), next);
        marks.push(mark)?;
    }
    Ok(marks)
}

/// Whether one of the marked definitions calls that one.
#[tactic(auto, using(crate::proofs::Reached::called_next, crate::proofs::Reached::called_found, crate::proofs::Reached::called_nowhere))]
fn is_called(g: &Group, def: usize, marks: &[bool], callee: usize) -> bool
    requires { length marks.now ≤ def + 1 }
    ensures { IsTrue result ↔ IsCalled (group_tree g.now) def marks.now callee }
{
    for i in 0..marks.len() {
        if is_caller(g, def, marks, i, callee) {
            return true;
        }
    }
    false
}

/// Whether the definition of that mark is marked, and calls that one.
#[tactic(auto, using(crate::proofs::Reached::caller_marked))]
fn is_caller(g: &Group, def: usize, marks: &[bool], i: usize, callee: usize) -> bool
    requires { (i < length marks.now) × (length marks.now ≤ def + 1) }
    ensures { IsTrue result
        ↔ ((get_or marks.now i false ≡ true) × Calls (group_tree g.now) (def - i) callee) }
{
    let mark = marks[i];
    let calls = def_calls(g, def - i, callee);
    both(mark, calls)
}

fn both(a: bool, b: bool) -> bool
    ensures { IsTrue result ↔ (IsTrue a × IsTrue b) }
{
    a && b
}

/// The least of the marked definitions that enters itself again.
#[tactic(auto, using(crate::proofs::Reached::loops_next, crate::proofs::Reached::loop_found, crate::proofs::Reached::loops_nowhere))]
pub fn first_loop(g: &Group, def: usize, marks: &[bool]) -> Option<u32>
    requires well_formed { IsWellFormed (group_tree g.now) }
    requires few { def < 2 ^ 32 }
    requires count { length marks.now ≡ def + 1 }
    requires marks { AreMarks (group_tree g.now) def marks.now }
    ensures some { IfSome result (λ l. IsLeastLoop (group_tree g.now) def l) }
    ensures none { IfNone result ((d : ℕ)
        → ReachesByCalls (group_tree g.now) def d
        → EntersAgain (group_tree g.now) d
        → ⊥) }
{
    for d in 0..marks.len() {
        if is_reached_loop(g, def, marks, d) {
            return Some(d as u32);
        }
    }
    None
}

/// Whether that definition is marked, and enters itself again.
#[tactic(auto, using(crate::proofs::Reached::loop_marked))]
fn is_reached_loop(g: &Group, def: usize, marks: &[bool], d: usize) -> bool
    requires count { (d < length marks.now) × (length marks.now ≡ def + 1) }
    requires marks { AreMarks (group_tree g.now) def marks.now }
    ensures { IsTrue result
        ↔ (ReachesByCalls (group_tree g.now) def d × EntersAgain (group_tree g.now) d) }
{
    let mark = marks[def - d];
    let enters = enters_again(g, d);
    both(mark, enters)
}
