//! Facts and triples compared as trees.

ghost use Rattle.std.specs.Prelude.{◌≡◌, ◌↔◌, IsTrue, map};
ghost use Rattle.std.specs.List.{Contains};
ghost use Rattle.word_terms.specs.Tree.{word_tree};
ghost use Rattle.tailrec_lang.specs.Tree.{values_tree};
ghost use Rattle.triple_kernel.specs.Tree.{fact_tree, triple_tree};
ghost use Rattle.triple_kernel.specs.Rules.{AreAmong};

use crate::triple::{Fact, Triple};
use sep_assert::{same_assertion, same_code, same_mems};
use tailrec_lang::Values;
use word_terms::{Word, same_cond, same_mem, same_word};

/// Whether each of the facts is among the others.
pub fn are_among(facts: &[Fact], others: &[Fact]) -> bool
    ensures { IsTrue result ↔ AreAmong (map fact_tree facts.now) (map fact_tree others.now) }
{
    for fact in facts {
        if !is_among(fact, others) {
            return false;
        }
    }
    true
}

/// Whether the fact is among the others.
#[tactic(auto, using(crate::proofs::Among::is_among, crate::proofs::Among::not_among_more))]
pub fn is_among(fact: &Fact, others: &[Fact]) -> bool
    ensures { IsTrue result ↔ Contains (map fact_tree others.now) (fact_tree fact.now) }
{
    for other in others {
        if same_fact(other, fact) {
            return true;
        }
    }
    false
}

/// Whether two triples are the same tree.
pub fn same_triple(a: &Triple, b: &Triple) -> bool
    ensures { IsTrue result ↔ (triple_tree a.now ≡ triple_tree b.now) }
{
    same_facts(a.facts.as_slice(), b.facts.as_slice())
        && same_assertion(&a.pre, &b.pre)
        && same_code(&a.code, &b.code)
        && same_assertion(&a.post, &b.post)
}

/// Whether two lists of facts are the same trees in the same order.
#[tactic(auto, using(sep_assert::proofs::SameLists::map_differs))]
pub fn same_facts(a: &[Fact], b: &[Fact]) -> bool
    ensures { IsTrue result ↔ (map fact_tree a.now ≡ map fact_tree b.now) }
{
    if a.len() != b.len() {
        return false;
    }
    for i in 0..a.len() {
        if !same_fact(&a[i], &b[i]) {
            return false;
        }
    }
    true
}

/// Whether two facts are the same tree.
pub fn same_fact(a: &Fact, b: &Fact) -> bool
    ensures { IsTrue result ↔ (fact_tree a.now ≡ fact_tree b.now) }
{
    match a {
        Fact::WordIs(x, y) => match b {
            Fact::WordIs(u, v) => same_word(x, u) && same_word(y, v),
            _ => false,
        },
        Fact::MemIs(x, y) => match b {
            Fact::MemIs(u, v) => same_mem(x, u) && same_mem(y, v),
            _ => false,
        },
        Fact::So(x) => match b {
            Fact::So(u) => same_cond(x, u),
            _ => false,
        },
        Fact::Gives {
            def,
            exit,
            args,
            results,
        } => match b {
            Fact::Gives {
                def: d,
                exit: e,
                args: x,
                results: y,
            } => *def == *d && *exit == *e && same_values(args, x) && same_values(results, y),
            _ => false,
        },
    }
}

fn same_values(a: &Values, b: &Values) -> bool
    ensures { IsTrue result ↔ (values_tree a.now ≡ values_tree b.now) }
{
    same_words(a.words.as_slice(), b.words.as_slice())
        && same_mems(a.mems.as_slice(), b.mems.as_slice())
}

#[tactic(auto, using(sep_assert::proofs::SameLists::map_differs))]
fn same_words(a: &[Word], b: &[Word]) -> bool
    ensures { IsTrue result ↔ (map word_tree a.now ≡ map word_tree b.now) }
{
    if a.len() != b.len() {
        return false;
    }
    for i in 0..a.len() {
        if !same_word(&a[i], &b[i]) {
            return false;
        }
    }
    true
}
