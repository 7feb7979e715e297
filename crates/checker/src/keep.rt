//! Parts of what a bench keeps: how many facts a theorem has, its code in one place, and which
//! definitions are closed.

ghost use Rattle.std.specs.Prelude.{◌≡◌, ◌+◌, ◌≤◌, IfOk, IsTrue, false, replicate};
ghost use Rattle.triple_kernel.specs.Tree.{triple_tree};
ghost use Rattle.proof_text.specs.Line.{triple_or_own};
ghost use Rattle.term_arena.specs.Arena.{Extends};
ghost use Rattle.held_terms.specs.Terms.{nodes_of, triple_terms};
ghost use Rattle.held_definitions.specs.inner.Marks.{held_over};
ghost use Rattle.held_terms.specs.inner.Put.{IsHeldPut};

use held_terms::{Held, Shared, put_triple};
use rv_words::{List, NoMemory};
use std::alloc::Global;
use std::sync::ledger::Ledger;
use term_arena::{Arena, Steps};
use triple_kernel::Triple;
use word_terms::Code;

/// How many facts a theorem has that it shares with no other, if there is one.
pub(crate) fn count_facts(theorem: &Option<Held>) -> u64 {
    match theorem {
        Some(h) => own_facts(h),
        None => 0,
    }
}

/// How many facts a theorem has that it shares with no other.
pub(crate) fn own_facts(h: &Held) -> u64 {
    if h.facts.is_shared() {
        0
    } else {
        h.facts.len() as u64
    }
}

/// So many definitions, none of them closed.
#[tactic(auto, using(std::proofs::lemmas::List::replicate_more))]
pub(crate) fn none_closed(alloc: Global, count: usize) -> Result<List<bool>, NoMemory>
    ensures { IfOk result (λ closed. closed ≡ replicate count false) }
{
    let mut closed = List::new(alloc);
    for _ in 0..count {
        closed.push(false)?;
    }
    Ok(closed)
}

/// The numbers of a triple's terms. Its code is the one given where `own` says so.
pub(crate) fn put_over<L: Ledger>(
    alloc: Global,
    arena: &mut Arena,
    stated: &Triple,
    own: bool,
    code: &Shared<Code>,
    steps: &mut Steps<L>,
) -> Result<Held, NoMemory>
    ensures put { IfOk result (λ h.
        IsHeldPut arena.new h (triple_or_own code.now.ranges own (triple_tree stated.now))) }
    ensures own { IfOk result (λ h. IsTrue own → h.code.ranges ≡ code.now.ranges) }
    ensures grows { Extends arena.old arena.new }
    ensures steps { steps.new ≤ steps.old + nodes_of (triple_terms (triple_tree stated.now)) }
{
    let put = put_triple(alloc, arena, stated, steps)?;
    if own { over_code(put, code) } else { Ok(put) }
}

/// The same triple, with its code in another place.
pub(crate) fn with_code(h: Held, code: &Shared<Code>) -> Result<Held, NoMemory>
    requires { code.now.ranges ≡ h.code.ranges }
    ensures { IfOk result (λ shared. shared ≡ h) }
{
    over_code(h, code)
}

/// The triple over that code, which it shares.
pub(crate) fn over_code(h: Held, code: &Shared<Code>) -> Result<Held, NoMemory>
    ensures { IfOk result (λ over. over ≡ held_over code.now h) }
{
    let code = code.share()?;
    Ok(Held {
        facts: h.facts,
        pre: h.pre,
        code,
        post: h.post,
    })
}
