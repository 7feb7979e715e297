//! What is kept of the lines of a group's proof, over numbers.

ghost use Rattle.std.specs.Prelude.{◌≡◌, ◌+◌, ◌<◌, ◌≤◌, ◌↔◌, IfOk, IfSome, IsSomeAnd, IsTrue, List as Items, OnErr, OnOk, [], is_some, length, map, option_map, slice_get, true};
ghost use Rattle.std.specs.Option.{option_copied};
ghost use Rattle.tailrec_lang.specs.Tree.{group_tree};
ghost use Rattle.tailrec_lang.specs.WellFormed.{IsWellFormed};
ghost use Rattle.triple_kernel.specs.Tree.{triple_tree};
ghost use Rattle.loop_rule.specs.Rule.{IsClosedBy};
ghost use Rattle.proof_text.specs.Line.{rule_tree, triple_or_own};
ghost use Rattle.term_arena.specs.Arena.{AreChildren, Extends, IsAdded, Tree};
ghost use Rattle.held_terms.specs.Held.{IsHeldAt, triple_of};
ghost use Rattle.verdicts.specs.Further.{further_of};
ghost use Rattle.verdicts.specs.Instance.{Meets, no_lines, with_closed, with_theorem, without};
ghost use Rattle.verdicts.specs.Sound.{Sound};
ghost use Rattle.checker.specs.Bench.{CanCite, state_group, state_history, state_nodes};
ghost use Rattle.proof_text.specs.inner.OwnCode.{IsOwnCode};
ghost use Rattle.short_text.specs.SpelledShort.{short_or_own};
ghost use Rattle.checker.specs.Short.{AreWithin, IsFineShort, IsStatedBy};
ghost use Rattle.checker.specs.LineTerms.{HasShort, compares_numbers, is_copied, premise_terms, put_in_terms};
ghost use Rattle.held_terms.specs.Terms.{HasSubterms, nodes_of, pair_steps, theorem_terms, triple_terms};
ghost use Rattle.held_definitions.specs.ClosingTerms.{closing_terms};
ghost use Rattle.derived_triples.specs.inner.Making.{MadeIf};
ghost use Rattle.held_terms.specs.inner.Put.{IsHeldPut};
ghost use Rattle.checker.specs.inner.Sharing.{IsGiven, IsOwnStated};
ghost use Rattle.held_definitions.specs.inner.Marks.{HasCode, HasWithin};

use crate::keep::{count_facts, none_closed, own_facts, put_over, with_code};
use crate::known::{is_found_within, is_known, states_own};
use crate::rules::{by_further, is_closed, meets};
use crate::stating::stated_by;
use crate::trees::triple_from;
use group_text::Version;
use held_definitions::{Marks, is_closed_by, theorem};
use held_instances::ImageTable;
use held_terms::{Held, Shared, copy_to_share};
use proof_text::Rule;
use rv_words::{List, NoMemory};
use sep_assert::same_code;
use short_text::Short;
use std::alloc::Global;
use std::collections::BTreeMap;
use std::marker::Model;
use std::sync::ledger::Ledger;
use tailrec_lang::Group;
use term_arena::{Arena, Node, Steps};
use triple_kernel::{RuleFault, Thm, Triple};
use verdicts::law_of_lines;
use word_terms::Code;

/// How many facts the theorems that are kept may have together, where those that theorems share
/// count once: more than a text of version 1 within the limit of a file can state. In version 2 two
/// lines can double the facts of a theorem.
const FACTS_LIMIT: u64 = 1 << 25;

/// Judges the lines of a group's proof, one after the other. It keeps their terms once each, room
/// for the images that an instance makes, the theorems that can still be cited as numbers of terms,
/// which definitions are closed, the group's code, for theorems to share, and which of them are
/// known to have it. A theorem that is forgotten leaves no place behind it, while the arena keeps
/// its terms.
#[derive(Drop)]
pub struct Bench<'g> {
    group: &'g Group,
    arena: Arena,
    images: ImageTable,
    held: BTreeMap<u64, Held>,
    next: u64,
    /// How many facts the theorems that are kept have, where those that theorems share count once.
    facts: u64,
    closed: List<bool>,
    code: Shared<Code>,
    /// Which theorems have the group's own code, where a line states so, and which have code that
    /// lies within it, as far as there is room to keep that.
    marked: Marks,
}

impl<'g> Model for Bench<'g> {
    ghost use Rattle.std.specs.Coded.{codes};
    ghost use Rattle.word_terms.specs.contracts.term.Word as word;
    ghost use Rattle.word_terms.specs.contracts.term.Mem as mem;
    ghost use Rattle.word_terms.specs.contracts.term.Cond as cond;
    ghost use Rattle.tailrec_lang.specs.contracts.group.Body as body;
    ghost use Rattle.tailrec_lang.specs.contracts.group.End as end;
    ghost use Rattle.checker.specs.Bench.{BenchState};
    ghost use Rattle.checker.specs.inner.Bench.{IsSoundState};
    ghost use Rattle.held_definitions.specs.inner.Marks.{IsOwnKept};

    ghost Value = { BenchState };

    ghost coded = { Prim.hlevel (codes, word.the_row.coded, mem.the_row.coded, cond.the_row.coded, body.the_row.coded, end.the_row.coded) };

    ghost view = { λ b. (b.group.now, b.arena, b.held.entries, b.next, b.closed) };

    ghost invariant = { λ b. IsSoundState (b.group.now, b.arena, b.held.entries, b.next, b.closed) × IsOwnKept b.group.now b.code b.held.entries b.marked };
}

impl<'g> Bench<'g> {
    /// A bench before the first line.
    pub fn new(alloc: Global, group: &'g Group) -> Result<Bench<'g>, NoMemory>
        requires { IsWellFormed (group_tree group.now) }
        ensures group { IfOk result (λ b. b.0 ≡ group.now) }
        ensures none { IfOk result (λ b. state_history b ≡ no_lines) }
        ensures empty { IfOk result (λ b. state_nodes b ≡ []) }
    {
        let closed = none_closed(alloc, group.defs.len())?;
        let code = copy_to_share(alloc, &group.code)?;
        Ok(Bench {
            group,
            arena: Arena::new(alloc),
            images: ImageTable::new(alloc),
            held: BTreeMap::new(alloc),
            next: 0,
            facts: 0,
            closed,
            code,
            marked: Marks::new(alloc),
        })
    }

    /// The number of the term of that outermost form. It takes one step.
    pub fn add<L: Ledger>(&mut self, n: Node, steps: &mut Steps<L>) -> Result<u64, NoMemory>
        requires { AreChildren (state_nodes self.old) n }
        ensures ok { IfOk result (λ k. IsAdded (state_nodes self.old) n k (state_nodes self.new)) }
        ensures grows { Extends (state_nodes self.old) (state_nodes self.new) }
        ensures steps { steps.new ≡ steps.old + 1 }
        ensures err { OnErr result (self.new ≡ self.old) }
        ensures group { self.new.0 ≡ self.old.0 }
        ensures same { state_history self.new ≡ state_history self.old }
    {
        self.arena.add(n, steps)
    }

    /// How many terms there are.
    pub fn terms(&self) -> u64
        ensures { result ≡ length (state_nodes self.now) }
    {
        self.arena.len()
    }

    /// Whether a definition of the group is closed.
    pub fn is_closed(&self, def: u32) -> bool
        ensures { result ≡ (state_history self.now).closed def }
    {
        is_closed(self.closed.as_slice(), def)
    }

    /// The theorem of that number, if it exists and wasn't forgotten. It takes at most a step for
    /// each node of its terms.
    pub fn theorem<L: Ledger>(
        &self,
        alloc: Global,
        k: u64,
        steps: &mut Steps<L>,
    ) -> Result<Option<Thm<'g>>, NoMemory>
        ensures theorem { IfOk result (λ o.
            option_map (λ t. triple_tree t.1) o ≡ (state_history self.now).theorem k) }
        ensures group { IfOk result (λ o.
            IfSome o (λ t. group_tree t.0 ≡ state_group self.now)) }
        ensures steps { steps.new
            ≤ steps.old + nodes_of (theorem_terms ((state_history self.now).theorem k)) }
    {
        self.law_of_bench();
        match self.held(k) {
            Some(h) => {
                let triple = triple_from(alloc, &self.arena, h, steps)?;
                Ok(Some(Thm::from_valid(self.group, triple)))
            }
            None => Ok(None),
        }
    }

    /// The theorem of that number, if it exists and wasn't forgotten, over the numbers of the
    /// bench's terms.
    pub fn held(&self, k: u64) -> Option<&Held>
        ensures theorem { option_map (triple_of (state_nodes self.now)) (option_copied result)
            ≡ (state_history self.now).theorem k }
        ensures there { IfSome (option_copied result) (λ h. IsHeldAt (state_nodes self.now) h) }
    {
        theorem(&self.arena, &self.held, k)
    }

    /// How many theorems are kept: those that were stated and not forgotten.
    pub fn kept(&self) -> u64
        ensures { CanCite (state_history self.now) result }
    {
        self.held.len() as u64
    }

    /// Whether the theorem of that number exists and wasn't forgotten.
    pub fn is_held(&self, k: u64) -> bool
        ensures { result ≡ is_some ((state_history self.now).theorem k) }
    {
        self.held(k).is_some()
    }

    /// What holds of each bench: its theorems are valid, and the definitions that it has as closed
    /// are right.
    pub fn law_of_bench(&self)
        ensures well_formed { IsWellFormed (state_group self.now) }
        ensures sound { Sound (state_group self.now) (state_history self.now) }
        ensures count { length self.now.4 ≡ length self.now.0.defs }
    {
        let _held = &self.held;
    }

    /// Whether the triple that the line states, where it is right, is known to have the group's own
    /// code.
    pub(crate) fn states_own(&self, line: &Short, all: bool) -> bool
        requires { IsOwnCode (state_group self.now).code }
        ensures { IsTrue result
            → IsOwnStated (state_group self.now) (state_history self.now) (state_nodes self.now)
            (short_or_own (state_group self.now).code all line.now) }
    {
        states_own(&self.marked, line, all)
    }

    /// The triple that the line states, if it is right.
    pub(crate) fn stated_by<L: Ledger>(
        &mut self,
        alloc: Global,
        line: &Short,
        all: bool,
        steps: &mut Steps<L>,
    ) -> Result<Option<Held>, NoMemory>
        requires code { IsOwnCode (state_group self.old).code }
        requires within { AreWithin (state_history self.old) }
        requires line { IsFineShort (state_nodes self.old) (short_or_own (state_group self.old).code
            all line.now) }
        ensures made { IfOk result (λ o.
            MadeIf (state_nodes self.new)
            (IsStatedBy (state_group self.old) (state_history self.old) (state_nodes self.old)
            (short_or_own (state_group self.old).code all line.now)) o) }
        ensures group { self.new.0 ≡ self.old.0 }
        ensures same { state_history self.new ≡ state_history self.old }
        ensures grows { Extends (state_nodes self.old) (state_nodes self.new) }
        ensures steps { is_copied line.now ≡ true → steps.new ≡ steps.old }
        ensures most { (ts : Items Tree)
            → HasShort (state_group self.old) (state_history self.old).theorem
            (state_nodes self.old) line.now ts
            → steps.new ≤ steps.old + pair_steps ts }
    {
        stated_by(
            alloc,
            self.group,
            &self.code,
            &mut self.arena,
            &mut self.images,
            &self.held,
            &self.marked,
            self.closed.as_slice(),
            line,
            all,
            steps,
        )
    }

    /// The numbers of a triple's terms. Its code is the group's own where `own` says so.
    pub(crate) fn put<L: Ledger>(
        &mut self,
        alloc: Global,
        stated: &Triple,
        own: bool,
        steps: &mut Steps<L>,
    ) -> Result<Held, NoMemory>
        ensures put { IfOk result (λ h.
            IsHeldPut (state_nodes self.new) h (triple_or_own (state_group self.old).code own
            (triple_tree stated.now))) }
        ensures own { IfOk result (λ h. IsTrue own → h.code.ranges ≡ (state_group self.old).code) }
        ensures group { self.new.0 ≡ self.old.0 }
        ensures same { state_history self.new ≡ state_history self.old }
        ensures grows { Extends (state_nodes self.old) (state_nodes self.new) }
        ensures steps { steps.new ≤ steps.old + nodes_of (triple_terms (triple_tree stated.now)) }
    {
        put_over(alloc, &mut self.arena, stated, own, &self.code, steps)
    }

    /// Whether the triple whose numbers those are meets the row of the rule.
    pub(crate) fn meets<L: Ledger>(
        &mut self,
        alloc: Global,
        rule: &Rule,
        stated: &Triple,
        own: bool,
        put: &Held,
        steps: &mut Steps<L>,
    ) -> Result<bool, NoMemory>
        requires put { IsHeldPut (state_nodes self.old) put.now
            (triple_or_own (state_group self.old).code own (triple_tree stated.now)) }
        requires own { IsTrue own → put.now.code.ranges ≡ (state_group self.old).code }
        ensures answer { IfOk result (λ r.
            IsTrue r
            ↔ Meets (state_group self.old) (state_history self.old) (rule_tree rule.now)
            (triple_or_own (state_group self.old).code own (triple_tree stated.now))) }
        ensures group { self.new.0 ≡ self.old.0 }
        ensures same { state_history self.new ≡ state_history self.old }
        ensures grows { Extends (state_nodes self.old) (state_nodes self.new) }
        ensures steps { compares_numbers (rule_tree rule.now) ≡ true → steps.new ≡ steps.old }
        ensures most { (ts : Items Tree)
            → HasSubterms ts (triple_terms (triple_tree stated.now))
            → HasSubterms ts (premise_terms (state_history self.old).theorem (rule_tree rule.now))
            → steps.new
            ≤ steps.old + (nodes_of (put_in_terms (rule_tree rule.now)) + pair_steps ts) }
    {
        meets(
            alloc,
            self.group,
            &mut self.arena,
            &mut self.images,
            &self.held,
            &self.marked,
            self.closed.as_slice(),
            rule,
            stated,
            own,
            put,
            steps,
        )
    }

    /// Whether the further rule of that version states the triple of those numbers from the theorem
    /// of that number.
    pub(crate) fn by_further<L: Ledger>(
        &mut self,
        alloc: Global,
        version: Version,
        cited: u64,
        put: &Held,
        own: bool,
        steps: &mut Steps<L>,
    ) -> Result<bool, NoMemory>
        requires put { IsHeldAt (state_nodes self.old) put.now }
        requires own { IsTrue own → put.now.code.ranges ≡ (state_group self.old).code }
        ensures answer { IfOk result (λ r.
            IsTrue r
            ↔ IsSomeAnd ((state_history self.old).theorem cited) (λ p.
            further_of version p (triple_of (state_nodes self.old) put.now))) }
        ensures group { self.new.0 ≡ self.old.0 }
        ensures same { state_history self.new ≡ state_history self.old }
        ensures grows { Extends (state_nodes self.old) (state_nodes self.new) }
        ensures steps { steps.new ≤ steps.old + 1 }
    {
        let known = is_known(self.group, &self.held, &self.marked, own, cited, put);
        by_further(
            alloc,
            version,
            &mut self.arena,
            &self.held,
            cited,
            put,
            known,
            steps,
        )
    }

    /// Keeps the next theorem, which is valid, and, as far as there is room for that, what is known
    /// of its code: that it is the group's own where `own` says so, and that it lies within that
    /// where `within` does.
    fn keep(&mut self, h: Held, own: bool, within: bool) -> Result<(), NoMemory>
        requires there { IsHeldAt (state_nodes self.old) h }
        requires sound { Sound (state_group self.old) (with_theorem
            (triple_of (state_nodes self.old) h) (state_history self.old)) }
        requires own { IsTrue own → HasCode (state_group self.old).code h }
        requires within { IsTrue within → HasWithin (state_group self.old).code h }
        ensures group { self.new.0 ≡ self.old.0 }
        ensures nodes { state_nodes self.new ≡ state_nodes self.old }
        ensures after { OnOk result (state_history self.new
            ≡ with_theorem (triple_of (state_nodes self.old) h) (state_history self.old)) }
        ensures same { OnErr result (self.new ≡ self.old) }
    {
        let Some(next) = self.next.checked_add(1) else {
            return Err(NoMemory);
        };
        let facts = self.facts.saturating_add(own_facts(&h));
        if facts > FACTS_LIMIT {
            return Err(NoMemory);
        }
        let number = self.next;
        self.marked.remove(number);
        self.held.insert(number, h)?;
        self.next = next;
        self.facts = facts;
        self.marked.add(number, own, within);
        Ok(())
    }

    /// Keeps the next theorem, which is valid, without a copy of code that is kept already. It has
    /// the code of the theorem that gives it, if there is one, and the group's own where `own` says
    /// so.
    pub(crate) fn keep_given(
        &mut self,
        h: Held,
        giver: Option<u64>,
        own: bool,
    ) -> Result<(), NoMemory>
        requires there { IsHeldAt (state_nodes self.old) h }
        requires sound { Sound (state_group self.old) (with_theorem
            (triple_of (state_nodes self.old) h) (state_history self.old)) }
        requires given { IsGiven (state_history self.old) giver h.code.ranges }
        requires own { IsTrue own → HasCode (state_group self.old).code h }
        ensures group { self.new.0 ≡ self.old.0 }
        ensures nodes { state_nodes self.new ≡ state_nodes self.old }
        ensures after { OnOk result (state_history self.new
            ≡ with_theorem (triple_of (state_nodes self.old) h) (state_history self.old)) }
        ensures same { OnErr result (self.new ≡ self.old) }
    {
        if own {
            return self.keep(h, true, false);
        }
        let within = self.lies_within(&h, giver);
        let shared = self.with_shared_code(h, giver)?;
        self.keep(shared, false, within)
    }

    /// Whether the triple's code is known or found to lie within the group's own.
    fn lies_within(&self, h: &Held, giver: Option<u64>) -> bool
        requires { IsGiven (state_history self.now) giver h.now.code.ranges }
        ensures { IsTrue result → HasWithin (state_group self.now).code h.now }
    {
        match giver {
            Some(p) => self.marked.is_within(p),
            None => is_found_within(self.group, h),
        }
    }

    /// The same triple. Its code is in the place of that of the theorem that gives it, else in that
    /// of the bench's.
    fn with_shared_code(&self, h: Held, giver: Option<u64>) -> Result<Held, NoMemory>
        requires { IsGiven (state_history self.now) giver h.code.ranges }
        ensures { IfOk result (λ shared. shared ≡ h) }
    {
        match giver {
            Some(p) => self.with_code_of(p, h),
            None => self.with_own_code(h),
        }
    }

    /// The same triple. Its code is in the place of that of a theorem, which is the same.
    fn with_code_of(&self, p: u64, h: Held) -> Result<Held, NoMemory>
        requires { IsSomeAnd ((state_history self.now).theorem p) (λ q. q.code ≡ h.code.ranges) }
        ensures { IfOk result (λ shared. shared ≡ h) }
    {
        match self.held(p) {
            Some(q) => with_code(h, &q.code),
            None => Ok(h),
        }
    }

    /// The same triple. Where its code is the bench's, it is in the same place.
    fn with_own_code(&self, h: Held) -> Result<Held, NoMemory>
        ensures { IfOk result (λ shared. shared ≡ h) }
    {
        if same_code(h.code.as_ref(), self.code.as_ref()) {
            with_code(h, &self.code)
        } else {
            Ok(h)
        }
    }

    /// Whether the definition of that number is closed by the theorems that are cited, one for each
    /// of its leaves.
    pub(crate) fn is_closed_by<L: Ledger>(
        &mut self,
        alloc: Global,
        def: u32,
        cited: &[u64],
        steps: &mut Steps<L>,
    ) -> Result<bool, NoMemory>
        ensures answer { IfOk result (λ r.
            IsTrue r
            ↔ IsClosedBy (state_group self.old) def
            (map (state_history self.old).theorem cited.now)) }
        ensures group { self.new.0 ≡ self.old.0 }
        ensures same { state_history self.new ≡ state_history self.old }
        ensures grows { Extends (state_nodes self.old) (state_nodes self.new) }
        ensures steps { steps.new
            ≤ steps.old + nodes_of (closing_terms (state_group self.old)
            (slice_get (state_group self.old).defs def)) }
    {
        is_closed_by(
            alloc,
            self.group,
            &mut self.arena,
            &self.held,
            &self.marked,
            def,
            cited,
            steps,
        )
    }

    /// Keeps that a definition is closed, which is right.
    pub(crate) fn set_closed(&mut self, def: u32)
        requires within { def < length self.old.4 }
        requires sound { Sound (state_group self.old) (with_closed def (state_history self.old)) }
        ensures group { self.new.0 ≡ self.old.0 }
        ensures nodes { state_nodes self.new ≡ state_nodes self.old }
        ensures after { state_history self.new ≡ with_closed def (state_history self.old) }
    {
        self.closed.set(def as usize, true);
    }

    /// Forgets a theorem.
    pub(crate) fn forget(&mut self, k: u64) -> Result<(), RuleFault>
        ensures group { self.new.0 ≡ self.old.0 }
        ensures nodes { state_nodes self.new ≡ state_nodes self.old }
        ensures instance { OnOk result (is_some ((state_history self.old).theorem k) ≡ true) }
        ensures after { OnOk result (state_history self.new ≡ without k (state_history self.old)) }
        ensures no_instance { OnErr result (is_some ((state_history self.old).theorem k) ≡ true
            → ⊥) }
        ensures same { OnErr result (self.new ≡ self.old) }
    {
        law_of_lines();
        self.law_of_bench();
        if !self.is_held(k) {
            return Err(RuleFault::NoInstance);
        }
        let gone = self.held.remove(&k);
        self.facts = self.facts.saturating_sub(count_facts(&gone));
        self.marked.remove(k);
        Ok(())
    }
}
