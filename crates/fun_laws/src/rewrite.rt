//! Steps of rewriting, applied to the terms of definitions.

ghost use Rattle.std.specs.Prelude.{◌≡◌, IfErr, IfNone, IfOk, IfSome, map, slice_set};
ghost use Rattle.tailrec_lang.specs.Tree.{def_tree};
ghost use Rattle.fun_laws.specs.Laws.{Term};
ghost use Rattle.fun_laws.specs.Places.{Rewrites};
ghost use Rattle.fun_laws.specs.inner.Shapes.{law_of};
ghost use Rattle.fun_laws.specs.inner.Apart.{AreRewritten, IsNewTerm, with_new_term};
ghost use Rattle.fun_laws.specs.inner.Stops.{StopsAt};
ghost use Rattle.fun_laws.specs.inner.Taken.{apart_tree, term_of};

use crate::apart::{ApartDef, BodyTerm, take_defs};
use crate::place::{rewrite_cond, rewrite_mem, rewrite_word};
use crate::shape::{Shape, shape_of};
use crate::step::Rw;
use rv_words::{List, NoMemory};
use std::alloc::Global;
use tailrec_lang::Def;

/// Why steps don't rewrite definitions.
#[derive(Clone, Copy)]
pub enum StepFault {
    /// The definition, the term or the place of the step of that number isn't there, or its law
    /// doesn't match.
    At(usize),
    NoMemory,
}

impl From<NoMemory> for StepFault {
    ghost use Rattle.fun_laws.specs.declared.rewrite.StepFault.TheVariants.{NoMemory};

    ghost from_gives = { λ _ e. e ≡ NoMemory };

    fn from(_e: NoMemory) -> StepFault {
        StepFault::NoMemory
    }
}

/// The term with the law applied at that place, if the place is there and the law matches.
fn rewrite_term(
    alloc: Global,
    t: &BodyTerm,
    shape: Shape,
    place: &[u8],
) -> Result<Option<BodyTerm>, NoMemory>
    ensures some { IfOk result (λ o.
        IfSome o (λ u. Rewrites (law_of shape) place.now (term_of t.now) (term_of u))) }
    ensures none { IfOk result (λ o.
        IfNone o ((u : Term) → Rewrites (law_of shape) place.now (term_of t.now) u → ⊥)) }
{
    match t {
        BodyTerm::Word(t) => match rewrite_word(alloc, t, shape, place)? {
            Some(u) => Ok(Some(BodyTerm::Word(u))),
            None => Ok(None),
        },
        BodyTerm::Mem(t) => match rewrite_mem(alloc, t, shape, place)? {
            Some(u) => Ok(Some(BodyTerm::Mem(u))),
            None => Ok(None),
        },
        BodyTerm::Cond(t) => match rewrite_cond(alloc, t, shape, place)? {
            Some(u) => Ok(Some(BodyTerm::Cond(u))),
            None => Ok(None),
        },
    }
}

/// The term that the step gives, if it rewrites one.
#[tactic(auto, using(crate::proofs::StepLemmas::no_law, crate::proofs::StepLemmas::no_def, crate::proofs::StepLemmas::no_term, crate::proofs::StepLemmas::no_rewrite))]
fn new_term(alloc: Global, parts: &[ApartDef], r: &Rw) -> Result<Option<BodyTerm>, NoMemory>
    ensures some { IfOk result (λ o.
        IfSome o (λ u. IsNewTerm r.now (map apart_tree parts.now) (term_of u))) }
    ensures none { IfOk result (λ o.
        IfNone o ((u : Term) → IsNewTerm r.now (map apart_tree parts.now) u → ⊥)) }
{
    let Some(shape) = shape_of(r.law) else {
        return Ok(None);
    };
    let Some(def) = parts.get(r.def as usize) else {
        return Ok(None);
    };
    let Some(t) = def.terms.get(r.term as usize) else {
        return Ok(None);
    };
    let Some(new) = rewrite_term(alloc, t, shape, r.place.as_slice())? else {
        return Ok(None);
    };
    Ok(Some(new))
}

/// Writes the item at place `i`, if the place is there.
#[tactic(auto, using(crate::proofs::Parts::set_beyond))]
fn replace<T: Drop>(list: &mut List<T>, i: usize, item: T)
    ensures { list.new ≡ slice_set list.old i item }
{
    if i < list.len() {
        list.set(i, item);
    }
}

/// Puts a term into the place of the one of that number, if there is one.
#[tactic(auto, using(crate::proofs::StepLemmas::term_put, crate::proofs::StepLemmas::not_put))]
fn put_term(parts: &mut Vec<ApartDef>, d: usize, k: usize, x: BodyTerm)
    ensures { map apart_tree parts.new.items
        ≡ with_new_term (map apart_tree parts.old.items) d k (term_of x) }
{
    if d < parts.len() {
        let def = &mut parts[d];
        replace(&mut def.terms, k, x);
    }
}

/// What the steps make of the definitions, taken apart, or the first step that doesn't rewrite
/// them. A step costs as much time as the term that it rewrites is long.
#[tactic(auto, using(crate::proofs::StepLemmas::begun, crate::proofs::StepLemmas::stepped, crate::proofs::StepLemmas::stopped))]
pub fn rewritten_all(alloc: Global, defs: &[Def], steps: &[Rw]) -> Result<Vec<ApartDef>, StepFault>
    ensures ok { IfOk result (λ ps.
        AreRewritten steps.now (map def_tree defs.now) (map apart_tree ps.items)) }
    ensures err { IfErr result (λ e. StopsAt steps.now (map def_tree defs.now) e) }
{
    let mut parts = take_defs(alloc, defs)?;
    for i in 0..steps.len() {
        let r = &steps[i];
        match new_term(alloc, parts.as_slice(), r)? {
            Some(x) => put_term(&mut parts, r.def as usize, r.term as usize, x),
            None => return Err(StepFault::At(i)),
        }
    }
    Ok(parts)
}
