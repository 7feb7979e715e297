//! Triples that a line computes, which may be deeper than what is written.

ghost use Rattle.std.specs.Prelude.{◌≡◌, ◌≤◌, ◌+◌, ◌*◌, IfOk, List as Items, Some as Just, length};
ghost use Rattle.tailrec_lang.specs.Tree.{group_tree};
ghost use Rattle.triple_kernel.specs.Tree.{TripleTree};
ghost use Rattle.triple_kernel.specs.Rules.{IsInst};
ghost use Rattle.instr_axioms.specs.Axiom.{axiom_of};
ghost use Rattle.loop_rule.specs.Rule.{IsExit};
ghost use Rattle.proof_text.specs.inner.OwnCode.{IsOwnCode};
ghost use Rattle.term_arena.specs.Arena.{Extends, Tree};
ghost use Rattle.held_terms.specs.Held.{IsHeldAt, triple_of};
ghost use Rattle.held_instances.specs.Image.{IsSubAt, put_for_numbers};
ghost use Rattle.derived_triples.specs.Fine.{IsFineHeld};
ghost use Rattle.held_terms.specs.Terms.{HasSubterms, pair_steps, theorem_terms, triple_terms};
ghost use Rattle.derived_triples.specs.inner.Making.{MadeIf};

use crate::limits::is_within;
use held_definitions::exit_held;
use held_instances::{ImageTable, instance};
use held_terms::{Held, Shared, put_triple};
use instr_axioms::axiom_triple;
use rv_words::NoMemory;
use std::alloc::Global;
use std::sync::ledger::Ledger;
use tailrec_lang::Group;
use term_arena::{Arena, Steps};
use triple_kernel::Form;
use word_terms::Code;

/// The triple, if it is within the limits.
fn if_within(arena: &Arena, h: Held) -> Option<Held>
    requires there { IsHeldAt arena.now h }
    requires code { IsOwnCode h.code.ranges }
    ensures { MadeIf arena.now (λ t. t ≡ triple_of arena.now h) result }
{
    if is_within(arena, &h) { Some(h) } else { None }
}

/// Terms for the variables of a theorem, all put in at once.
pub fn put_in<L: Ledger>(
    alloc: Global,
    arena: &mut Arena,
    images: &mut ImageTable,
    p: &Held,
    words: &[(u32, u64)],
    mems: &[(u32, u64)],
    steps: &mut Steps<L>,
) -> Result<Option<Held>, NoMemory>
    requires p { IsFineHeld arena.old p.now }
    requires sub { IsSubAt arena.old words.now mems.now }
    ensures made { IfOk result (λ o. MadeIf arena.new
        (λ t. IsInst (put_for_numbers arena.old words.now mems.now) (triple_of arena.old p.now) t)
        o) }
    ensures grows { Extends arena.old arena.new }
    ensures steps { (ts : Items Tree)
        → HasSubterms ts (triple_terms (triple_of arena.old p.now))
        → steps.new ≤ steps.old + 2 * length ts }
{
    let h = instance(alloc, arena, images, p, words, mems, steps)?;
    Ok(if_within(arena, h))
}

/// The axiom of the instruction word at an address, in a form.
pub fn axiom<L: Ledger>(
    alloc: Global,
    arena: &mut Arena,
    addr: u64,
    word: u32,
    form: Form,
    steps: &mut Steps<L>,
) -> Result<Option<Held>, NoMemory>
    ensures made { IfOk result (λ o. MadeIf arena.new (λ t. axiom_of addr word form ≡ Just t) o) }
    ensures grows { Extends arena.old arena.new }
    ensures steps { (ts : Items Tree)
        → HasSubterms ts (theorem_terms (axiom_of addr word form))
        → steps.new ≤ steps.old + pair_steps ts }
{
    let found = axiom_triple(alloc, addr, word, form)?;
    let Some(t) = found else {
        return Ok(None);
    };
    let h = put_triple(alloc, arena, &t, steps)?;
    Ok(if_within(arena, h))
}

/// The triple of an exit of a definition, which shares that code.
pub fn exit<L: Ledger>(
    alloc: Global,
    arena: &mut Arena,
    g: &Group,
    code: &Shared<Code>,
    def: u32,
    number: u32,
    steps: &mut Steps<L>,
) -> Result<Option<Held>, NoMemory>
    requires code { IsOwnCode g.now.code.ranges }
    requires shared { code.now.ranges ≡ g.now.code.ranges }
    ensures made { IfOk result (λ o.
        MadeIf arena.new (λ t. IsExit (group_tree g.now) def number t) o) }
    ensures grows { Extends arena.old arena.new }
    ensures steps { (ts : Items Tree)
        → ((t : TripleTree)
        → IsExit (group_tree g.now) def number t
        → HasSubterms ts (triple_terms t))
        → steps.new ≤ steps.old + (4 * length ts + 2) }
{
    let found = exit_held(alloc, arena, g, code, def, number, steps)?;
    let Some(h) = found else {
        return Ok(None);
    };
    Ok(if_within(arena, h))
}
