//! The judge of lines that state whole triples, one after the other.

ghost use Rattle.std.specs.Prelude.{◌≡◌, ◌+◌, ◌≤◌, ◌++◌, IsErrOf, IsSomeAnd, List as Items, OnErr, OnOk, false, map, slice_get, true};
ghost use Rattle.triple_kernel.specs.Tree.{triple_tree};
ghost use Rattle.triple_kernel.specs.Valid.{Valid};
ghost use Rattle.loop_rule.specs.Rule.{IsClosedBy};
ghost use Rattle.proof_text.specs.Line.{line_or_own, line_tree, rule_tree, triple_or_own};
ghost use Rattle.term_arena.specs.Arena.{Extends, Tree};
ghost use Rattle.verdicts.specs.Further.{further_of};
ghost use Rattle.verdicts.specs.Instance.{Instance, InstanceBy, Meets, after_line, with_closed, with_theorem};
ghost use Rattle.checker.specs.Bench.{state_group, state_history, state_nodes};
ghost use Rattle.checker.specs.LineTerms.{HasLine, compares_numbers, is_compared, is_loop, loop_terms, premise_terms, put_in_terms, stated_triple_terms, whole_line_terms};
ghost use Rattle.held_terms.specs.Terms.{HasSubterms, nodes_of, pair_steps, triple_terms};
ghost use Rattle.held_definitions.specs.ClosingTerms.{closing_terms};

use crate::bench::Bench;
use crate::rules::code_giver;
use group_text::Version;
use proof_text::{Line, Rule};
use rv_words::NoMemory;
use std::alloc::Global;
use std::marker::Brand;
use std::sync::ledger::{Blank, Ledger};
use term_arena::Steps;
use triple_kernel::{RuleFault, Triple};
use verdicts::law_of_lines;

impl<'g> Bench<'g> {
    /// Judges the next line, where there is no further rule. After a refusal the theorems and the
    /// closed definitions are as before; the arena may have more terms. A theorem whose number's
    /// successor has more than 64 bits is refused as for lack of memory. A line by `frame`,
    /// `compose` or `extend` takes at most a step for each node of the triple that it states, and
    /// one that forgets takes none. One by any other rule takes at most one for each node of its
    /// terms and 4 (T + 1)^2 more, where T is how many different terms its triple and the theorem
    /// that it cites have. One that closes a definition takes at most one for each node of what
    /// each of its theorems has to state: the entry, the facts of the way and its end.
    pub fn judge<L: Ledger>(
        &mut self,
        alloc: Global,
        line: &Line,
        steps: &mut Steps<L>,
    ) -> Result<(), RuleFault>
        ensures group { self.new.0 ≡ self.old.0 }
        ensures instance { OnOk result (Instance (state_group self.old) (state_history self.old)
            (line_tree line.now)) }
        ensures after { OnOk result (state_history self.new
            ≡ after_line (state_history self.old) (line_tree line.now)) }
        ensures no_instance { IsErrOf result RuleFault.NoInstance
            → Instance (state_group self.old) (state_history self.old) (line_tree line.now)
            → ⊥ }
        ensures same { OnErr result (state_history self.new ≡ state_history self.old) }
        ensures grows { Extends (state_nodes self.old) (state_nodes self.new) }
        ensures steps { is_compared (line_tree line.now) ≡ true
            → steps.new ≤ steps.old + nodes_of (stated_triple_terms (line_tree line.now)) }
        ensures most { is_loop (line_tree line.now) ≡ false
            → (ts : Items Tree)
            → HasLine (state_history self.old).theorem (line_tree line.now) ts
            → steps.new
            ≤ steps.old + (nodes_of (whole_line_terms (line_tree line.now)) + pair_steps ts) }
        ensures closing { is_loop (line_tree line.now) ≡ true
            → steps.new
            ≤ steps.old + nodes_of (loop_terms (state_group self.old) (line_tree line.now)) }
    {
        self.judge_spelled(alloc, Version::One, line, false, steps)
    }

    /// Judges the next line of a text of that version, by its further rule too, as it is spelled:
    /// where `all` says so, the code of its triple is the group's own, which is left out. What it
    /// takes is said of `judge`.
    pub fn judge_spelled<L: Ledger>(
        &mut self,
        alloc: Global,
        version: Version,
        line: &Line,
        all: bool,
        steps: &mut Steps<L>,
    ) -> Result<(), RuleFault>
        ensures group { self.new.0 ≡ self.old.0 }
        ensures instance { OnOk result (InstanceBy (further_of version) (state_group self.old)
            (state_history self.old)
            (line_or_own (state_group self.old).code all (line_tree line.now))) }
        ensures after { OnOk result (state_history self.new
            ≡ after_line (state_history self.old) (line_or_own (state_group self.old).code all
            (line_tree line.now))) }
        ensures no_instance { IsErrOf result RuleFault.NoInstance
            → InstanceBy (further_of version) (state_group self.old) (state_history self.old)
            (line_or_own (state_group self.old).code all (line_tree line.now))
            → ⊥ }
        ensures same { OnErr result (state_history self.new ≡ state_history self.old) }
        ensures grows { Extends (state_nodes self.old) (state_nodes self.new) }
        ensures steps { is_compared (line_or_own (state_group self.old).code all
            (line_tree line.now)) ≡ true
            → steps.new
            ≤ steps.old + nodes_of (stated_triple_terms (line_or_own (state_group self.old).code all
            (line_tree line.now))) }
        ensures most { is_loop (line_or_own (state_group self.old).code all (line_tree line.now))
            ≡ false
            → (ts : Items Tree)
            → HasLine (state_history self.old).theorem
            (line_or_own (state_group self.old).code all (line_tree line.now)) ts
            → steps.new
            ≤ steps.old + (nodes_of
            (whole_line_terms (line_or_own (state_group self.old).code all (line_tree line.now))) +
            pair_steps ts) }
        ensures closing { is_loop (line_or_own (state_group self.old).code all (line_tree line.now))
            ≡ true
            → steps.new
            ≤ steps.old + nodes_of (loop_terms (state_group self.old) (line_or_own
            (state_group self.old).code all (line_tree line.now))) }
    {
        match line {
            Line::States { rule, stated } => self.state(alloc, rule, stated, all, steps),
            Line::Loop { def, cited } => self.close(alloc, *def, cited.as_slice(), steps),
            Line::Forget(k) => self.forget(*k),
            Line::Further { cited, stated } => {
                self.state_further(alloc, version, *cited, stated, all, steps)
            }
        }
    }

    /// States a triple by a rule.
    #[tactic(auto, using(held_terms::proofs::GrowthLemmas::extends_next))]
    fn state<L: Ledger>(
        &mut self,
        alloc: Global,
        rule: &Rule,
        stated: &Triple,
        own: bool,
        steps: &mut Steps<L>,
    ) -> Result<(), RuleFault>
        ensures group { self.new.0 ≡ self.old.0 }
        ensures instance { OnOk result (Meets (state_group self.old) (state_history self.old)
            (rule_tree rule.now)
            (triple_or_own (state_group self.old).code own (triple_tree stated.now))) }
        ensures after { OnOk result (state_history self.new
            ≡ with_theorem (triple_or_own (state_group self.old).code own (triple_tree stated.now))
            (state_history self.old)) }
        ensures no_instance { IsErrOf result RuleFault.NoInstance
            → Meets (state_group self.old) (state_history self.old) (rule_tree rule.now)
            (triple_or_own (state_group self.old).code own (triple_tree stated.now))
            → ⊥ }
        ensures same { OnErr result (state_history self.new ≡ state_history self.old) }
        ensures grows { Extends (state_nodes self.old) (state_nodes self.new) }
        ensures steps { compares_numbers (rule_tree rule.now) ≡ true
            → steps.new
            ≤ steps.old + nodes_of (triple_terms (triple_or_own (state_group self.old).code own
            (triple_tree stated.now))) }
        ensures most { (ts : Items Tree)
            → HasSubterms ts (triple_terms (triple_or_own (state_group self.old).code own
            (triple_tree stated.now)))
            → HasSubterms ts (premise_terms (state_history self.old).theorem (rule_tree rule.now))
            → steps.new
            ≤ steps.old + (nodes_of
            (triple_terms (triple_or_own (state_group self.old).code own (triple_tree stated.now))
            ++ put_in_terms (rule_tree rule.now)) + pair_steps ts) }
    {
        law_of_lines();
        self.law_of_bench();
        let put = self.put(alloc, stated, own, steps)?;
        let so = self.meets(alloc, rule, stated, own, &put, steps)?;
        if !so {
            return Err(RuleFault::NoInstance);
        }
        self.keep_given(put, code_giver(rule), own)?;
        Ok(())
    }

    /// States a triple by the further rule of that version.
    #[tactic(auto, using(held_terms::proofs::GrowthLemmas::extends_next))]
    fn state_further<L: Ledger>(
        &mut self,
        alloc: Global,
        version: Version,
        cited: u64,
        stated: &Triple,
        own: bool,
        steps: &mut Steps<L>,
    ) -> Result<(), RuleFault>
        ensures group { self.new.0 ≡ self.old.0 }
        ensures instance { OnOk result (IsSomeAnd ((state_history self.old).theorem cited)
            (λ p.
            further_of version p (triple_or_own (state_group self.old).code own
            (triple_tree stated.now)))) }
        ensures after { OnOk result (state_history self.new
            ≡ with_theorem (triple_or_own (state_group self.old).code own (triple_tree stated.now))
            (state_history self.old)) }
        ensures no_instance { IsErrOf result RuleFault.NoInstance
            → IsSomeAnd ((state_history self.old).theorem cited) (λ p.
            further_of version p (triple_or_own (state_group self.old).code own
            (triple_tree stated.now)))
            → ⊥ }
        ensures same { OnErr result (state_history self.new ≡ state_history self.old) }
        ensures grows { Extends (state_nodes self.old) (state_nodes self.new) }
        ensures steps { steps.new
            ≤ steps.old + (nodes_of
            (triple_terms (triple_or_own (state_group self.old).code own (triple_tree stated.now)))
            + 1) }
    {
        law_of_lines();
        self.law_of_bench();
        let put = self.put(alloc, stated, own, steps)?;
        let so = self.by_further(alloc, version, cited, &put, own, steps)?;
        if !so {
            return Err(RuleFault::NoInstance);
        }
        self.keep_given(put, None, own)?;
        Ok(())
    }

    /// Closes a definition by a theorem for each of its leaves.
    pub(crate) fn close<L: Ledger>(
        &mut self,
        alloc: Global,
        def: u32,
        cited: &[u64],
        steps: &mut Steps<L>,
    ) -> Result<(), RuleFault>
        ensures group { self.new.0 ≡ self.old.0 }
        ensures instance { OnOk result (IsClosedBy (state_group self.old) def
            (map (state_history self.old).theorem cited.now)) }
        ensures after { OnOk result (state_history self.new
            ≡ with_closed def (state_history self.old)) }
        ensures no_instance { IsErrOf result RuleFault.NoInstance
            → IsClosedBy (state_group self.old) def (map (state_history self.old).theorem cited.now)
            → ⊥ }
        ensures same { OnErr result (state_history self.new ≡ state_history self.old) }
        ensures grows { Extends (state_nodes self.old) (state_nodes self.new) }
        ensures steps { steps.new
            ≤ steps.old + nodes_of (closing_terms (state_group self.old)
            (slice_get (state_group self.old).defs def)) }
    {
        law_of_lines();
        self.law_of_bench();
        let so = self.is_closed_by(alloc, def, cited, steps)?;
        if !so {
            return Err(RuleFault::NoInstance);
        }
        self.law_of_bench();
        self.set_closed(def);
        Ok(())
    }

    /// Adds a triple that is valid for the group as the next theorem. After a refusal the theorems
    /// and the closed definitions are as before; the arena may have more terms. A theorem whose
    /// number's successor has more than 64 bits is refused as for lack of memory.
    pub fn admit(&mut self, alloc: Global, t: &Triple) -> Result<(), NoMemory>
        requires { Valid (state_group self.old) (triple_tree t.now) }
        ensures group { self.new.0 ≡ self.old.0 }
        ensures after { OnOk result (state_history self.new
            ≡ with_theorem (triple_tree t.now) (state_history self.old)) }
        ensures same { OnErr result (state_history self.new ≡ state_history self.old) }
        ensures grows { Extends (state_nodes self.old) (state_nodes self.new) }
    {
        self.admit_counted::<Brand>(alloc, t, Blank::new(1))
    }

    /// .. with a counter.
    #[tactic(auto, using(held_terms::proofs::GrowthLemmas::extends_next))]
    fn admit_counted<L: Ledger>(
        &mut self,
        alloc: Global,
        t: &Triple,
        blank: Blank,
    ) -> Result<(), NoMemory>
        requires name { blank.name ≡ L.name }
        requires parts { blank.parts ≡ L.parts }
        requires one { L.parts ≡ 1 }
        requires valid { Valid (state_group self.old) (triple_tree t.now) }
        ensures group { self.new.0 ≡ self.old.0 }
        ensures after { OnOk result (state_history self.new
            ≡ with_theorem (triple_tree t.now) (state_history self.old)) }
        ensures same { OnErr result (state_history self.new ≡ state_history self.old) }
        ensures grows { Extends (state_nodes self.old) (state_nodes self.new) }
    {
        self.law_of_bench();
        let put = self.put(alloc, t, false, &mut Steps::<L>::new(blank))?;
        self.keep_given(put, None, false)
    }
}
