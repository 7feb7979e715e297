//! Definitions taken apart: a skeleton, in which a fixed term of its kind stands for each one, and
//! the terms in the order of the text.

ghost use Rattle.std.specs.Prelude.{◌≡◌, ◌++◌, ◌∷◌, [], ◌↔◌, IfOk, IsTrue, map};
ghost use Rattle.word_terms.specs.Tree.{cond_tree, mem_tree, word_tree};
ghost use Rattle.tailrec_lang.specs.Tree.{body_tree, def_tree, step_tree, values_tree};
ghost use Rattle.tailrec_lang.specs.inner.Tree.{arm_trees, end_tree};
ghost use Rattle.fun_laws.specs.Laws.{OfMem, OfWord};
ghost use Rattle.fun_laws.specs.Rewriting.{step_term};
ghost use Rattle.fun_laws.specs.inner.Apart.{arm_skeletons, arm_terms, blank_cond, blank_mem, blank_step, blank_values, blank_word, skeleton, taken_apart, terms, value_terms};
ghost use Rattle.fun_laws.specs.inner.Taken.{apart_tree, term_of};

use crate::made::{made_branch, made_call};
use group_terms::same_def;
use rv_words::{Cmp, List, NoMemory};
use std::alloc::Global;
use tailrec_lang::{Body, Def, End, Step, Values};
use word_terms::{Cond, Mem, Word, copy_cond, copy_mem, copy_word, same_cond, same_mem, same_word};

/// A term of a definition.
#[derive(Drop)]
pub enum BodyTerm {
    Word(Word),
    Mem(Mem),
    Cond(Cond),
}

/// A definition taken apart.
#[derive(Drop)]
pub struct ApartDef {
    pub skeleton: Def,
    pub terms: List<BodyTerm>,
}

/// The condition that stands for each one in a skeleton.
fn no_cond(alloc: Global) -> Result<Cond, NoMemory>
    ensures { IfOk result (λ c. cond_tree c ≡ blank_cond) }
{
    let a = Box::new(alloc, Word::Const(0))?;
    let b = Box::new(alloc, Word::Const(0))?;
    Ok(Cond::Compare(Cmp::Eq, a, b))
}

#[tactic(auto, using(crate::proofs::Takes::blank_pushed, crate::proofs::Takes::term_pushed))]
fn take_words(
    alloc: Global,
    words: &[Word],
    found: &mut List<BodyTerm>,
) -> Result<List<Word>, NoMemory>
    ensures skeleton { IfOk result (λ us.
        map word_tree us ≡ map blank_word (map word_tree words.now)) }
    ensures terms { IfOk result (λ us.
        map term_of found.new ≡ map term_of found.old ++ map OfWord (map word_tree words.now)) }
{
    let mut blanks = List::new(alloc);
    for t in words {
        let copy = copy_word(alloc, t)?;
        found.push(BodyTerm::Word(copy))?;
        blanks.push(Word::Const(0))?;
    }
    Ok(blanks)
}

#[tactic(auto, using(crate::proofs::Takes::blank_pushed, crate::proofs::Takes::term_pushed))]
fn take_mems(alloc: Global, mems: &[Mem], found: &mut List<BodyTerm>) -> Result<List<Mem>, NoMemory>
    ensures skeleton { IfOk result (λ ns. map mem_tree ns ≡ map blank_mem (map mem_tree mems.now)) }
    ensures terms { IfOk result (λ ns.
        map term_of found.new ≡ map term_of found.old ++ map OfMem (map mem_tree mems.now)) }
{
    let mut blanks = List::new(alloc);
    for m in mems {
        let copy = copy_mem(alloc, m)?;
        found.push(BodyTerm::Mem(copy))?;
        blanks.push(Mem::Var(0))?;
    }
    Ok(blanks)
}

#[tactic(auto, using(crate::proofs::Takes::values_found))]
fn take_values(
    alloc: Global,
    values: &Values,
    found: &mut List<BodyTerm>,
) -> Result<Values, NoMemory>
    ensures skeleton { IfOk result (λ w. values_tree w ≡ blank_values (values_tree values.now)) }
    ensures terms { IfOk result (λ w.
        map term_of found.new ≡ map term_of found.old ++ value_terms (values_tree values.now)) }
{
    let words = take_words(alloc, values.words.as_slice(), found)?;
    let mems = take_mems(alloc, values.mems.as_slice(), found)?;
    Ok(Values { words, mems })
}

#[tactic(auto, using(crate::proofs::Takes::one_pushed))]
fn take_step(alloc: Global, step: &Step, found: &mut List<BodyTerm>) -> Result<Step, NoMemory>
    ensures skeleton { IfOk result (λ s. step_tree s ≡ blank_step (step_tree step.now)) }
    ensures terms { IfOk result (λ s.
        map term_of found.new ≡ map term_of found.old ++ step_term (step_tree step.now) ∷ []) }
{
    match step {
        Step::Bind(t) => {
            let copy = copy_word(alloc, t)?;
            found.push(BodyTerm::Word(copy))?;
            Ok(Step::Bind(Word::Const(0)))
        }
        Step::BindMem(m) => {
            let copy = copy_mem(alloc, m)?;
            found.push(BodyTerm::Mem(copy))?;
            Ok(Step::BindMem(Mem::Var(0)))
        }
        Step::Need(c) => {
            let copy = copy_cond(alloc, c)?;
            found.push(BodyTerm::Cond(copy))?;
            let blank = no_cond(alloc)?;
            Ok(Step::Need(blank))
        }
    }
}

#[tactic(auto, using(crate::proofs::Takes::blank_pushed, crate::proofs::Takes::term_more))]
fn take_steps(
    alloc: Global,
    steps: &[Step],
    found: &mut List<BodyTerm>,
) -> Result<List<Step>, NoMemory>
    ensures skeleton { IfOk result (λ ss.
        map step_tree ss ≡ map blank_step (map step_tree steps.now)) }
    ensures terms { IfOk result (λ ss.
        map term_of found.new ≡ map term_of found.old ++ map step_term (map step_tree steps.now)) }
{
    let mut blanks = List::new(alloc);
    for step in steps {
        let blank = take_step(alloc, step, found)?;
        blanks.push(blank)?;
    }
    Ok(blanks)
}

/// The body's skeleton. Its terms are added to those that were found before.
#[cycle(taking)]
#[tactic(auto, using(crate::proofs::Takes::body_skeleton, crate::proofs::Takes::body_found))]
fn take_body(alloc: Global, body: &Body, found: &mut List<BodyTerm>) -> Result<Body, NoMemory>
    ensures skeleton { IfOk result (λ b. body_tree b ≡ skeleton (body_tree body.now)) }
    ensures terms { IfOk result (λ b.
        map term_of found.new ≡ map term_of found.old ++ terms (body_tree body.now)) }
{
    let steps = take_steps(alloc, body.steps.as_slice(), found)?;
    let end = take_end(alloc, &body.end, found)?;
    Ok(Body { steps, end })
}

#[cycle(taking)]
#[tactic(auto, using(crate::proofs::Takes::branch_skeleton, crate::proofs::Takes::branch_found, crate::proofs::Takes::one_pushed, crate::proofs::Takes::call_skeleton, crate::proofs::Takes::call_found, crate::proofs::Takes::again_skeleton, crate::proofs::Takes::again_found, crate::proofs::Takes::leave_skeleton, crate::proofs::Takes::leave_found))]
fn take_end(alloc: Global, end: &End, found: &mut List<BodyTerm>) -> Result<End, NoMemory>
    ensures skeleton { IfOk result (λ e. end_tree e ≡ skeleton (end_tree end.now)) }
    ensures terms { IfOk result (λ e.
        map term_of found.new ≡ map term_of found.old ++ terms (end_tree end.now)) }
{
    match end {
        End::Branch(c, a, b) => {
            let copy = copy_cond(alloc, c)?;
            found.push(BodyTerm::Cond(copy))?;
            let x = take_body(alloc, a, found)?;
            let y = take_body(alloc, b, found)?;
            let blank = no_cond(alloc)?;
            let e = made_branch(alloc, blank, x, y)?;
            Ok(e)
        }
        End::Call(def, values, arms) => {
            let v = take_values(alloc, values, found)?;
            let bs = take_arms(alloc, arms.as_slice(), found)?;
            let e = made_call(*def, v, bs);
            Ok(e)
        }
        End::Again(values) => {
            let v = take_values(alloc, values, found)?;
            Ok(End::Again(v))
        }
        End::Leave(exit, values) => {
            let v = take_values(alloc, values, found)?;
            Ok(End::Leave(*exit, v))
        }
    }
}

#[cycle(taking)]
#[tactic(auto, using(crate::proofs::Takes::blank_pushed, crate::proofs::Takes::arms_skeleton, crate::proofs::Takes::arm_more, crate::proofs::Takes::arms_found))]
fn take_arms(
    alloc: Global,
    arms: &[Body],
    found: &mut List<BodyTerm>,
) -> Result<List<Body>, NoMemory>
    ensures skeleton { IfOk result (λ bs. arm_trees bs ≡ arm_skeletons (arm_trees arms.now)) }
    ensures terms { IfOk result (λ bs.
        map term_of found.new ≡ map term_of found.old ++ arm_terms (arm_trees arms.now)) }
{
    let mut blanks = List::new(alloc);
    for arm in arms {
        let blank = take_body(alloc, arm, found)?;
        blanks.push(blank)?;
    }
    Ok(blanks)
}

fn take_def(alloc: Global, def: &Def) -> Result<ApartDef, NoMemory>
    ensures { IfOk result (λ p. apart_tree p ≡ taken_apart (def_tree def.now)) }
{
    let mut found = List::new(alloc);
    let exits = List::from_slice(alloc, def.exits.as_slice())?;
    let body = take_body(alloc, &def.body, &mut found)?;
    let skeleton = Def {
        entry: def.entry,
        exits,
        body,
    };
    Ok(ApartDef {
        skeleton,
        terms: found,
    })
}

/// The definitions taken apart.
#[tactic(auto, using(crate::proofs::Takes::blank_pushed))]
pub fn take_defs(alloc: Global, defs: &[Def]) -> Result<Vec<ApartDef>, NoMemory>
    ensures { IfOk result (λ ps.
        map apart_tree ps.items ≡ map taken_apart (map def_tree defs.now)) }
{
    let mut parts = Vec::new(alloc);
    for def in defs {
        let p = take_def(alloc, def)?;
        parts.push(p)?;
    }
    Ok(parts)
}

fn same_term(a: &BodyTerm, b: &BodyTerm) -> bool
    ensures { IsTrue result ↔ (term_of a.now ≡ term_of b.now) }
{
    match a {
        BodyTerm::Word(t) => match b {
            BodyTerm::Word(u) => same_word(t, u),
            _ => false,
        },
        BodyTerm::Mem(t) => match b {
            BodyTerm::Mem(u) => same_mem(t, u),
            _ => false,
        },
        BodyTerm::Cond(t) => match b {
            BodyTerm::Cond(u) => same_cond(t, u),
            _ => false,
        },
    }
}

#[tactic(auto, using(sep_assert::proofs::SameLists::map_differs))]
fn same_terms(a: &[BodyTerm], b: &[BodyTerm]) -> bool
    ensures { IsTrue result ↔ (map term_of a.now ≡ map term_of b.now) }
{
    if a.len() != b.len() {
        return false;
    }
    for i in 0..a.len() {
        if !same_term(&a[i], &b[i]) {
            return false;
        }
    }
    true
}

fn is_same(a: &ApartDef, b: &ApartDef) -> bool
    ensures { IsTrue result ↔ (apart_tree a.now ≡ apart_tree b.now) }
{
    same_def(&a.skeleton, &b.skeleton) && same_terms(a.terms.as_slice(), b.terms.as_slice())
}

/// Whether definitions that were taken apart are the same.
#[tactic(auto, using(sep_assert::proofs::SameLists::map_differs))]
pub fn are_same(a: &[ApartDef], b: &[ApartDef]) -> bool
    ensures { IsTrue result ↔ (map apart_tree a.now ≡ map apart_tree b.now) }
{
    if a.len() != b.len() {
        return false;
    }
    for i in 0..a.len() {
        if !is_same(&a[i], &b[i]) {
            return false;
        }
    }
    true
}
