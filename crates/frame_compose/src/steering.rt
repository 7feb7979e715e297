//! The rule on where a triple leads. It compares the stated triple with its premise in place, and
//! takes no memory.

ghost use Rattle.std.specs.Prelude.{◌≡◌, ◌↔◌, IsTrue, IsOk, IfOk, map};
ghost use Rattle.std.specs.List.{Contains};
ghost use Rattle.rv_words.specs.declared.comparison.Cmp.TheVariants.{Eq};
ghost use Rattle.word_terms.specs.Tree.{Compare, word_tree};
ghost use Rattle.triple_kernel.specs.Tree.{So, fact_tree, triple_tree};
ghost use Rattle.frame_compose.specs.Rules.{IsSteered};

use rv_words::Cmp;
use sep_assert::{same_assertion, same_code, same_mems, same_registers};
use triple_kernel::{Fact, NoInstance, Thm, Triple, are_among};
use word_terms::{Cond, Word, same_word};

/// More facts, and another last program counter, which one of them says to be the same.
pub fn steer<'g>(p: &Thm<'g>, stated: Triple) -> Result<Thm<'g>, NoInstance>
    ensures ok { IfOk result (λ t. t ≡ (p.now.0, stated)) }
    ensures exact { IsOk result ↔ IsSteered (triple_tree p.now.1) (triple_tree stated) }
{
    if is_steered(p.triple(), &stated) {
        Ok(p.concludes(stated))
    } else {
        Err(NoInstance)
    }
}

fn is_steered(p: &Triple, stated: &Triple) -> bool
    ensures { IsTrue result ↔ IsSteered (triple_tree p.now) (triple_tree stated.now) }
{
    same_assertion(&p.pre, &stated.pre)
        && same_code(&p.code, &stated.code)
        && are_among(p.facts.as_slice(), stated.facts.as_slice())
        && are_equal_by(stated.facts.as_slice(), &p.post.pc, &stated.post.pc)
        && same_registers(p.post.regs.as_slice(), stated.post.regs.as_slice())
        && same_mems(p.post.mems.as_slice(), stated.post.mems.as_slice())
}

/// Whether one of the facts is that the two words are equal, in that order.
#[tactic(auto, using(triple_kernel::proofs::Among::is_among, triple_kernel::proofs::Among::not_among_more))]
fn are_equal_by(facts: &[Fact], a: &Word, b: &Word) -> bool
    ensures { IsTrue result
        ↔ Contains (map fact_tree facts.now) (So (Compare Eq (word_tree a.now) (word_tree b.now))) }
{
    for fact in facts {
        if is_equality(fact, a, b) {
            return true;
        }
    }
    false
}

fn is_equality(fact: &Fact, a: &Word, b: &Word) -> bool
    ensures { IsTrue result
        ↔ (fact_tree fact.now ≡ So (Compare Eq (word_tree a.now) (word_tree b.now))) }
{
    match fact {
        Fact::So(Cond::Compare(Cmp::Eq, x, y)) => same_word(x, a) && same_word(y, b),
        _ => false,
    }
}
