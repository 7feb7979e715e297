//! Definitions that are closed by theorems over numbers.
#![tactic(auto, using(held_terms::proofs::GrowthLemmas::extends_next, held_terms::proofs::GrowthLemmas::extends_none))]

ghost use Rattle.std.specs.Prelude.{◌≡◌, ◌↔◌, ◌⊎◌, ◌+◌, ◌<◌, ◌≤◌, ◌∷◌, [], ℕ, IfOk, IsErrOf, IsOk, IsSome, IsTrue, List as Items, OnOk, drop, false, flat_map, length, map, slice_get};
ghost use Rattle.std.specs.BTreeMap.{get};
ghost use Rattle.std.specs.Ordering.{nat_cmp};
ghost use Rattle.tailrec_lang.specs.Tree.{def_tree, group_tree};
ghost use Rattle.triple_kernel.specs.Tree.{fact_tree};
ghost use Rattle.triple_kernel.specs.Rules.{AreAmong};
ghost use Rattle.loop_rule.specs.Rule.{IsClosedBy, IsLedTo};
ghost use Rattle.term_arena.specs.Arena.{Extends};
ghost use Rattle.held_terms.specs.Held.{AreFactsAt, IsHeldAt, IsSideAt, fact_of, triple_of};
ghost use Rattle.held_definitions.specs.Theorems.{AreHeldAt, theorem_at};
ghost use Rattle.held_definitions.specs.ClosingTerms.{closing_terms};
ghost use Rattle.held_terms.specs.Terms.{fact_terms, nodes_of};
ghost use Rattle.held_definitions.specs.inner.Asked.{AreAsked, AreFound, Begins, KnowsOf, KnowsPlaces, LeadsOver, StaysAsked, StaysFor, closing_with};
ghost use Rattle.held_terms.specs.inner.Put.{AreFactsPut};
ghost use Rattle.held_definitions.specs.inner.Leaves.{AreFirstOf, leaf_over};
ghost use Rattle.held_definitions.specs.inner.Marks.{AreMarked, HasWithin};
ghost use Rattle.rv_words.specs.Ranges.{range_bytes};
ghost use Rattle.sep_assert.specs.Code.{IsWithin};

use crate::asked::{Asked, Places};
use crate::exits::is_entry;
use crate::marks::Marks;
use crate::theorems::theorem;
use held_terms::{Held, HeldFact, HeldSide, Way, put_facts, put_side, same_side};
use loop_rule::{JudgeLeaves, cite_for_leaves};
use rv_words::{List, NoMemory};
use sep_assert::{Assertion, code_within};
use std::alloc::Global;
use std::collections::BTreeMap;
use std::sync::ledger::Ledger;
use tailrec_lang::{Def, Group, def_at};
use term_arena::{Arena, Steps};
use triple_kernel::{Fact, RuleFault};

/// Judges the leaves of a definition by theorems over numbers. A fact of the way is put into the
/// arena where the first leaf behind it is judged, and once for all leaves behind it.
#[derive(Drop)]
pub(crate) struct HeldLeaves<'a, L: Ledger> {
    pub arena: &'a mut Arena,
    pub group: &'a Group,
    pub def: &'a Def,
    pub held: &'a BTreeMap<u64, Held>,
    /// Which of them have the group's own code, and whose code lies within it.
    pub marked: &'a Marks,
    /// The facts of the way.
    pub way: &'a mut List<Fact>,
    /// The first of them, of the numbers of their terms.
    pub put: &'a mut Way,
    /// What was asked for earlier leaves.
    pub asked: &'a mut Asked,
    pub steps: &'a mut Steps<L>,
}

impl<'a, L: Ledger> JudgeLeaves for HeldLeaves<'a, L> {
    ghost use Rattle.held_definitions.specs.inner.Leaves.{held_judge};

    ghost judge = { held_judge };

    fn length(&self) -> usize {
        self.way.len()
    }

    fn push(&mut self, fact: Fact) -> Result<(), NoMemory> {
        self.way.push(fact)?;
        self.asked.push()
    }

    fn shorten(&mut self, length: usize) {
        self.way.truncate(length);
        self.put.shorten(length);
        self.asked.shorten(length);
    }

    fn is_led(&mut self, alloc: Global, post: &Assertion, number: u64) -> Result<bool, NoMemory> {
        put_way(alloc, self.arena, self.way.as_slice(), self.put, self.steps)?;
        let end = put_side(alloc, self.arena, post, self.steps)?;
        led_by(
            alloc,
            self.arena,
            self.group,
            self.def,
            self.put,
            &end,
            self.held,
            self.marked,
            number,
            self.asked,
            self.steps,
        )
    }
}

/// Whether the definition of that number is closed by the theorems that are cited, one for each of
/// its leaves.
pub fn is_closed_by<L: Ledger>(
    alloc: Global,
    g: &Group,
    arena: &mut Arena,
    held: &BTreeMap<u64, Held>,
    marked: &Marks,
    def: u32,
    cited: &[u64],
    steps: &mut Steps<L>,
) -> Result<bool, NoMemory>
    requires held { AreHeldAt arena.old held.now.entries }
    requires marked { AreMarked g.now.code.ranges held.now.entries marked.now }
    ensures answer { IfOk result (λ r.
        IsTrue r
        ↔ IsClosedBy (group_tree g.now) def (map (theorem_at arena.old held.now.entries)
        cited.now)) }
    ensures grows { Extends arena.old arena.new }
    ensures steps { steps.new
        ≤ steps.old + nodes_of (closing_terms (group_tree g.now) (slice_get (group_tree g.now).defs
        def)) }
{
    let Some(d) = def_at(g, def as usize) else {
        return Ok(false);
    };
    let mut way = List::new(alloc);
    let mut put = Way::new(alloc);
    let mut asked = Asked::new(alloc);
    let mut leaves = HeldLeaves {
        arena,
        group: g,
        def: d,
        held,
        marked,
        way: &mut way,
        put: &mut put,
        asked: &mut asked,
        steps,
    };
    let led = was_led(cite_for_leaves(alloc, g, d, cited, &mut leaves))?;
    Ok(led)
}

/// Whether theorems were found to lead to leaves, if there was memory.
fn was_led(cited: Result<(), RuleFault>) -> Result<bool, NoMemory>
    ensures led { IfOk result (λ r. IsTrue r → IsOk cited) }
    ensures not_led { IfOk result (λ r. r ≡ false → IsErrOf cited RuleFault.NoInstance) }
{
    match cited {
        Ok(()) => Ok(true),
        Err(RuleFault::NoInstance) => Ok(false),
        Err(RuleFault::NoMemory) => Err(NoMemory),
    }
}

/// Puts the facts of the way that aren't put yet.
fn put_way<L: Ledger>(
    alloc: Global,
    arena: &mut Arena,
    way: &[Fact],
    put: &mut Way,
    steps: &mut Steps<L>,
) -> Result<(), NoMemory>
    requires { AreFirstOf arena.old put.old (map fact_tree way.now) }
    ensures all { OnOk result (AreFactsPut arena.new put.new (map fact_tree way.now)) }
    ensures first { AreFirstOf arena.new put.new (map fact_tree way.now) }
    ensures grows { Extends arena.old arena.new }
    ensures steps { steps.new ≤ steps.old + nodes_of (flat_map fact_terms (map fact_tree way.now)) }
{
    let more = put_facts(alloc, arena, from_place(way, put.len()), steps)?;
    put.append(more)?;
    Ok(())
}

/// The items from that place on.
fn from_place(items: &[Fact], place: usize) -> &[Fact]
    requires { place ≤ length items.now }
    ensures { result.now ≡ drop place items.now }
{
    &items[place..]
}

/// Whether the theorem of that number leads to the leaf, if there is one.
fn led_by<L: Ledger>(
    alloc: Global,
    arena: &Arena,
    g: &Group,
    def: &Def,
    way: &mut Way,
    post: &HeldSide,
    held: &BTreeMap<u64, Held>,
    marked: &Marks,
    number: u64,
    asked: &mut Asked,
    steps: &mut Steps<L>,
) -> Result<bool, NoMemory>
    requires held { AreHeldAt arena.now held.now.entries }
    requires marked { AreMarked g.now.code.ranges held.now.entries marked.now }
    requires way { AreFactsAt arena.now way.old }
    requires post { IsSideAt arena.now post.now }
    requires asked { AreAsked
        (closing_with (group_tree g.now) (def_tree def.now) (theorem_at arena.now held.now.entries))
        (map (fact_of arena.now) way.old) asked.old }
    ensures answer { IfOk result (λ r.
        IsTrue r
        ↔ IsLedTo (group_tree g.now) (def_tree def.now) (leaf_over arena.now way.old post.now)
        (theorem_at arena.now held.now.entries number)) }
    ensures way { way.new ≡ way.old }
    ensures asked { AreAsked
        (closing_with (group_tree g.now) (def_tree def.now) (theorem_at arena.now held.now.entries))
        (map (fact_of arena.now) way.old) asked.new }
    ensures steps { steps.new ≤ steps.old + (1 + (length g.now.regs + g.now.mems)) }
{
    match theorem(arena, held, number) {
        Some(p) => {
            let within = marked.is_within(number);
            Ok(
                same_side(arena, &p.post, post)
                    && leads(alloc, arena, g, def, way, p, within, number, asked, steps)?,
            )
        }
        None => Ok(false),
    }
}

/// Whether the theorem, which has that number, leads from the definition's entry over the way. Its
/// code lies within the group's own where `within` says so.
fn leads<L: Ledger>(
    alloc: Global,
    arena: &Arena,
    g: &Group,
    def: &Def,
    way: &mut Way,
    p: &Held,
    within: bool,
    number: u64,
    asked: &mut Asked,
    steps: &mut Steps<L>,
) -> Result<bool, NoMemory>
    requires way { AreFactsAt arena.now way.old }
    requires p { IsHeldAt arena.now p.now }
    requires within { IsTrue within → HasWithin g.now.code.ranges p.now }
    requires known { KnowsOf (group_tree g.now) (def_tree def.now) (map (fact_of arena.now) way.old)
        number asked.old (triple_of arena.now p.now) }
    ensures answer { IfOk result (λ r.
        IsTrue r
        ↔ LeadsOver (group_tree g.now) (def_tree def.now) (map (fact_of arena.now) way.old)
        (triple_of arena.now p.now)) }
    ensures way { way.new ≡ way.old }
    ensures asked { StaysAsked (group_tree g.now) (def_tree def.now)
        (map (fact_of arena.now) way.old) number (triple_of arena.now p.now) asked.old asked.new }
    ensures steps { steps.new ≤ steps.old + (1 + (length g.now.regs + g.now.mems)) }
{
    if asked.leads(number) {
        return Ok(true);
    }
    if begins(arena, g, def, p, within, number, asked, steps) {
        return has_facts(alloc, arena, way, p, number, asked);
    }
    Ok(false)
}

/// Whether the theorem, which has that number, begins at the definition's entry, within the group's
/// code.
fn begins<L: Ledger>(
    arena: &Arena,
    g: &Group,
    def: &Def,
    p: &Held,
    within: bool,
    number: u64,
    asked: &Asked,
    steps: &mut Steps<L>,
) -> bool
    requires p { IsHeldAt arena.now p.now }
    requires within { IsTrue within → HasWithin g.now.code.ranges p.now }
    ensures found { IsTrue result
        → IsSome (get nat_cmp asked.now.theorems number)
        ⊎ Begins (group_tree g.now) (def_tree def.now) (triple_of arena.now p.now) }
    ensures none { result ≡ false
        → Begins (group_tree g.now) (def_tree def.now) (triple_of arena.now p.now)
        → ⊥ }
    ensures steps { steps.new ≤ steps.old + (1 + (length g.now.regs + g.now.mems)) }
{
    asked.begins(number) || is_entry(arena, g, def, &p.pre, steps) && is_within_own(g, within, p)
}

/// Whether the theorem's facts are on the way, where it is one of that number which begins at the
/// entry. Those that still stand where they were found aren't looked up.
fn has_facts(
    alloc: Global,
    arena: &Arena,
    way: &mut Way,
    p: &Held,
    number: u64,
    asked: &mut Asked,
) -> Result<bool, NoMemory>
    requires way { AreFactsAt arena.now way.old }
    requires p { IsHeldAt arena.now p.now }
    requires known { KnowsPlaces (map (fact_of arena.now) way.old) number asked.old
        (map (fact_of arena.now) p.now.facts) }
    ensures answer { IfOk result (λ r.
        IsTrue r
        ↔ AreAmong (map (fact_of arena.now) p.now.facts) (map (fact_of arena.now) way.old)) }
    ensures way { way.new ≡ way.old }
    ensures asked { StaysFor (map (fact_of arena.now) way.old) number (triple_of arena.now p.now)
        asked.old asked.new }
{
    way.index(arena);
    let facts = p.facts.as_slice();
    let (mut places, left) = asked.take(alloc, number, facts.len())?;
    if !find_facts(arena, way, facts, left.as_slice(), asked, &mut places)? {
        return Ok(false);
    }
    asked.keep(number, places);
    Ok(true)
}

/// Whether the facts of those numbers are on the way too, where the others were found at the
/// places. Notes where they are.
fn find_facts(
    arena: &Arena,
    way: &Way,
    facts: &[HeldFact],
    left: &[usize],
    asked: &Asked,
    places: &mut Places,
) -> Result<bool, NoMemory>
    requires way { AreFactsAt arena.now way.now }
    requires facts { AreFactsAt arena.now facts.now }
    requires found { AreFound asked.now.stamps (map (fact_of arena.now) way.now)
        (map (fact_of arena.now) facts.now) places.old left.now }
    ensures yes { IfOk result (λ r.
        IsTrue r
        → AreFound asked.now.stamps (map (fact_of arena.now) way.now)
        (map (fact_of arena.now) facts.now) places.new []) }
    ensures no { IfOk result (λ r.
        r ≡ false
        → AreAmong (map (fact_of arena.now) facts.now) (map (fact_of arena.now) way.now)
        → ⊥) }
{
    for fact in left {
        if !find_fact(arena, way, facts, *fact, asked, places)? {
            return Ok(false);
        }
    }
    Ok(true)
}

/// Whether the fact of that number is on the way. Notes where it is.
fn find_fact(
    arena: &Arena,
    way: &Way,
    facts: &[HeldFact],
    fact: usize,
    asked: &Asked,
    places: &mut Places,
) -> Result<bool, NoMemory>
    requires way { AreFactsAt arena.now way.now }
    requires facts { AreFactsAt arena.now facts.now }
    requires low { fact < length facts.now }
    ensures yes { IfOk result (λ r.
        IsTrue r
        → (rest : Items ℕ)
        → AreFound asked.now.stamps (map (fact_of arena.now) way.now)
        (map (fact_of arena.now) facts.now) places.old (fact ∷ rest)
        → AreFound asked.now.stamps (map (fact_of arena.now) way.now)
        (map (fact_of arena.now) facts.now) places.new rest) }
    ensures no { IfOk result (λ r.
        r ≡ false
        → AreAmong (map (fact_of arena.now) facts.now) (map (fact_of arena.now) way.now)
        → ⊥) }
{
    let Some(place) = way.place(arena, &facts[fact]) else {
        return Ok(false);
    };
    asked.note(places, place, fact)?;
    Ok(true)
}

/// Whether the theorem's code lies within the group's own. Where that is known, nothing is
/// compared.
fn is_within_own(g: &Group, known: bool, p: &Held) -> bool
    requires { IsTrue known → HasWithin g.now.code.ranges p.now }
    ensures { IsTrue result
        ↔ IsWithin (range_bytes p.now.code.ranges) (range_bytes g.now.code.ranges) }
{
    known || code_within(p.code.as_ref(), &g.code)
}
