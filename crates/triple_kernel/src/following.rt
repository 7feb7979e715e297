//! Facts that follow from others.

ghost use Rattle.std.specs.Prelude.{◌≡◌, ◌↔◌, IsTrue, map};
ghost use Rattle.std.specs.List.{Contains};
ghost use Rattle.word_terms.specs.Tree.{CondTree, cond_tree, mem_tree};
ghost use Rattle.triple_kernel.specs.Tree.{So, fact_tree};
ghost use Rattle.triple_kernel.specs.Rules.{Alike, AreAmongOrFollow, Follows, IsAlwaysTrue, SameAddresses, before_stores};

use crate::facts::is_among;
use crate::swap::{swap_mem, swap_word};
use crate::triple::Fact;
use word_terms::{Cond, Env, Mem, is_cond_in_scope, truth};

/// Whether each of the facts is among the others or follows from them.
pub fn are_among_or_follow(facts: &[Fact], others: &[Fact]) -> bool
    ensures { IsTrue result
        ↔ AreAmongOrFollow (map fact_tree facts.now) (map fact_tree others.now) }
{
    for fact in facts {
        if !(is_among(fact, others) || follows(fact, others)) {
            return false;
        }
    }
    true
}

/// Whether the fact follows from the others.
fn follows(fact: &Fact, others: &[Fact]) -> bool
    ensures { IsTrue result ↔ Follows (map fact_tree others.now) (fact_tree fact.now) }
{
    match fact {
        Fact::WordIs(a, b) => swap_word(others, a, b),
        Fact::MemIs(a, b) => swap_mem(others, a, b),
        Fact::So(c) => is_always_true(c) || is_like_some(c, others),
        Fact::Gives { .. } => false,
    }
}

/// Whether the condition has no variables and is true.
#[tactic(auto, using(word_terms::proofs::Variables::no_variables_are))]
fn is_always_true(c: &Cond) -> bool
    ensures { IsTrue result ↔ IsAlwaysTrue (cond_tree c.now) }
{
    let nothing = Env {
        words: &[],
        mems: &[],
    };
    is_cond_in_scope(c, 0, 0) && truth(c, &nothing)
}

/// Whether one of the facts says that a condition of the same kind is true.
fn is_like_some(c: &Cond, facts: &[Fact]) -> bool
    ensures { IsTrue result
        ↔ ((d : CondTree)
        × Contains (map fact_tree facts.now) (So d)
        × Alike (map fact_tree facts.now) (cond_tree c.now) d) }
{
    for fact in facts {
        if is_like(c, fact, facts) {
            return true;
        }
    }
    false
}

fn is_like(c: &Cond, fact: &Fact, facts: &[Fact]) -> bool
    ensures { IsTrue result
        ↔ ((d : CondTree)
        × (fact_tree fact.now ≡ So d)
        × Alike (map fact_tree facts.now) (cond_tree c.now) d) }
{
    match fact {
        Fact::So(d) => are_alike(facts, c, d),
        _ => false,
    }
}

/// Whether two conditions have one form, and children that may be swapped. Of a memory of which a
/// condition asks whether it has some bytes, only the addresses count.
fn are_alike(facts: &[Fact], c: &Cond, d: &Cond) -> bool
    ensures { IsTrue result ↔ Alike (map fact_tree facts.now) (cond_tree c.now) (cond_tree d.now) }
{
    match c {
        Cond::Compare(cmp, x, y) => match d {
            Cond::Compare(o, u, v) => {
                *cmp == *o && swap_word(facts, x, u) && swap_word(facts, y, v)
            }
            _ => false,
        },
        Cond::Neg(x) => match d {
            Cond::Neg(u) => are_alike(facts, x, u),
            _ => false,
        },
        Cond::Inside(width, m, x) => match d {
            Cond::Inside(w, n, u) => {
                *width == *w && have_same_addresses(facts, m, n) && swap_word(facts, x, u)
            }
            _ => false,
        },
    }
}

fn have_same_addresses(facts: &[Fact], m: &Mem, n: &Mem) -> bool
    ensures { IsTrue result
        ↔ SameAddresses (map fact_tree facts.now) (mem_tree m.now) (mem_tree n.now) }
{
    swap_mem(facts, m, n) || swap_mem(facts, before_stores(m), before_stores(n))
}

/// The memory before all of its outer stores.
fn before_stores(m: &Mem) -> &Mem
    ensures { mem_tree result.now ≡ before_stores (mem_tree m.now) }
{
    match m {
        Mem::Var(_) => m,
        Mem::Store(_, old, _, _) => before_stores(old),
    }
}
