//! The rules that change facts and assertions. Each compares the stated triple with its premise in
//! place, and takes no memory.

ghost use Rattle.std.specs.Prelude.{◌≡◌, ◌↔◌, IsTrue, IsOk, IfOk};
ghost use Rattle.word_terms.specs.Substitution.{substitution_of};
ghost use Rattle.triple_kernel.specs.Tree.{triple_tree};
ghost use Rattle.triple_kernel.specs.Rules.{IsInst, IsStrengthened, IsWeakened, IsDischarged};

use crate::facts::are_among;
use crate::following::are_among_or_follow;
use crate::image::{are_fact_images, is_assertion_image};
use crate::swap::swap_assertion;
use crate::thm::Thm;
use crate::triple::Triple;
use sep_assert::{same_assertion, same_code};
use word_terms::Sub;

/// The stated conclusion is no instance of the rule on these premises.
#[derive(Clone, Copy, Debug, PartialEq, Eq)]
pub struct NoInstance;

/// Terms for the variables of a theorem, all put in at once. Its code stays.
pub fn inst<'g>(p: &Thm<'g>, s: &Sub, stated: Triple) -> Result<Thm<'g>, NoInstance>
    ensures ok { IfOk result (λ t. t ≡ (p.now.0, stated)) }
    ensures exact { IsOk result
        ↔ IsInst (substitution_of s.now) (triple_tree p.now.1) (triple_tree stated) }
{
    if is_inst(p.triple(), s, &stated) {
        Ok(p.concludes(stated))
    } else {
        Err(NoInstance)
    }
}

fn is_inst(p: &Triple, s: &Sub, stated: &Triple) -> bool
    ensures { IsTrue result
        ↔ IsInst (substitution_of s.now) (triple_tree p.now) (triple_tree stated.now) }
{
    are_fact_images(p.facts.as_slice(), s, stated.facts.as_slice())
        && is_assertion_image(&p.pre, s, &stated.pre)
        && same_code(&p.code, &stated.code)
        && is_assertion_image(&p.post, s, &stated.post)
}

/// More facts, and another precondition that they make the same.
pub fn strengthen<'g>(p: &Thm<'g>, stated: Triple) -> Result<Thm<'g>, NoInstance>
    ensures ok { IfOk result (λ t. t ≡ (p.now.0, stated)) }
    ensures exact { IsOk result ↔ IsStrengthened (triple_tree p.now.1) (triple_tree stated) }
{
    if is_strengthened(p.triple(), &stated) {
        Ok(p.concludes(stated))
    } else {
        Err(NoInstance)
    }
}

fn is_strengthened(p: &Triple, stated: &Triple) -> bool
    ensures { IsTrue result ↔ IsStrengthened (triple_tree p.now) (triple_tree stated.now) }
{
    same_code(&p.code, &stated.code)
        && same_assertion(&p.post, &stated.post)
        && are_among(p.facts.as_slice(), stated.facts.as_slice())
        && swap_assertion(stated.facts.as_slice(), &p.pre, &stated.pre)
}

/// More facts, and another postcondition that they make the same.
pub fn weaken<'g>(p: &Thm<'g>, stated: Triple) -> Result<Thm<'g>, NoInstance>
    ensures ok { IfOk result (λ t. t ≡ (p.now.0, stated)) }
    ensures exact { IsOk result ↔ IsWeakened (triple_tree p.now.1) (triple_tree stated) }
{
    if is_weakened(p.triple(), &stated) {
        Ok(p.concludes(stated))
    } else {
        Err(NoInstance)
    }
}

fn is_weakened(p: &Triple, stated: &Triple) -> bool
    ensures { IsTrue result ↔ IsWeakened (triple_tree p.now) (triple_tree stated.now) }
{
    same_code(&p.code, &stated.code)
        && same_assertion(&p.pre, &stated.pre)
        && are_among(p.facts.as_slice(), stated.facts.as_slice())
        && swap_assertion(stated.facts.as_slice(), &p.post, &stated.post)
}

/// Other facts, from which those of the theorem follow.
pub fn discharge<'g>(p: &Thm<'g>, stated: Triple) -> Result<Thm<'g>, NoInstance>
    ensures ok { IfOk result (λ t. t ≡ (p.now.0, stated)) }
    ensures exact { IsOk result ↔ IsDischarged (triple_tree p.now.1) (triple_tree stated) }
{
    if is_discharged(p.triple(), &stated) {
        Ok(p.concludes(stated))
    } else {
        Err(NoInstance)
    }
}

fn is_discharged(p: &Triple, stated: &Triple) -> bool
    ensures { IsTrue result ↔ IsDischarged (triple_tree p.now) (triple_tree stated.now) }
{
    same_assertion(&p.pre, &stated.pre)
        && same_code(&p.code, &stated.code)
        && same_assertion(&p.post, &stated.post)
        && are_among_or_follow(p.facts.as_slice(), stated.facts.as_slice())
}
