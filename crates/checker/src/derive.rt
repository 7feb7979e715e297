//! The judge of short lines, which leave out what can be computed.

ghost use Rattle.std.specs.Prelude.{◌≡◌, ◌+◌, ◌≤◌, ℕ, IsErrOf, List as Items, OnErr, OnOk, slice_get, true};
ghost use Rattle.term_arena.specs.Arena.{Extends, Tree};
ghost use Rattle.checker.specs.Bench.{state_group, state_history, state_nodes};
ghost use Rattle.proof_text.specs.inner.OwnCode.{IsOwnCode};
ghost use Rattle.short_text.specs.SpelledShort.{short_or_own};
ghost use Rattle.short_text.specs.declared.short.Short.TheVariants as short;
ghost use Rattle.checker.specs.Short.{AreWithin, IsFineShort, IsNeverStated, IsShortInstance, LeavesBehind};
ghost use Rattle.checker.specs.LineTerms.{HasShort, is_copied};
ghost use Rattle.held_terms.specs.Terms.{nodes_of, pair_steps};
ghost use Rattle.held_definitions.specs.ClosingTerms.{closing_terms};

use crate::bench::Bench;
use crate::known::short_giver;
use short_text::Short;
use std::alloc::Global;
use std::sync::ledger::Ledger;
use term_arena::Steps;
use triple_kernel::RuleFault;
use verdicts::law_of_lines;

impl<'g> Bench<'g> {
    /// Judges the next line, which is short and over the numbers of the bench's terms: whether
    /// there is a triple within the limits of texts that makes it right, which then is the next
    /// theorem. After a refusal the theorems and the closed definitions are as before; the arena
    /// may have more terms. A line by `frame`, `compose` or `extend` takes no step, nor does one
    /// that forgets. One that closes a definition takes as many as `judge` says. One by any
    /// other rule takes at most 4 (T + 1)^2, where T is how many different terms are looked at
    /// (`HasShort`), whatever else the arena has.
    pub fn derive<L: Ledger>(
        &mut self,
        alloc: Global,
        line: &Short,
        steps: &mut Steps<L>,
    ) -> Result<(), RuleFault>
        requires code { IsOwnCode (state_group self.old).code }
        requires within { AreWithin (state_history self.old) }
        requires line { IsFineShort (state_nodes self.old) line.now }
        ensures group { self.new.0 ≡ self.old.0 }
        ensures left { OnOk result (LeavesBehind (state_group self.old) (state_history self.old)
            (state_nodes self.old) line.now (state_history self.new)) }
        ensures no_instance { IsErrOf result RuleFault.NoInstance
            → IsShortInstance (state_group self.old) (state_history self.old) (state_nodes self.old)
            line.now
            → ⊥ }
        ensures same { OnErr result (state_history self.new ≡ state_history self.old) }
        ensures grows { Extends (state_nodes self.old) (state_nodes self.new) }
        ensures steps { is_copied line.now ≡ true → steps.new ≡ steps.old }
        ensures most { (ts : Items Tree)
            → HasShort (state_group self.old) (state_history self.old).theorem
            (state_nodes self.old) line.now ts
            → steps.new ≤ steps.old + pair_steps ts }
        ensures closing { (def : ℕ) (cited : Items ℕ)
            → line.now ≡ short.Loop def cited
            → steps.new
            ≤ steps.old + nodes_of (closing_terms (state_group self.old)
            (slice_get (state_group self.old).defs def)) }
    {
        self.derive_spelled(alloc, line, false, steps)
    }

    /// Judges the next line, likewise, as it is spelled: where `all` says so, the code by which it
    /// extends that of a theorem is the group's own, which is left out.
    pub fn derive_spelled<L: Ledger>(
        &mut self,
        alloc: Global,
        line: &Short,
        all: bool,
        steps: &mut Steps<L>,
    ) -> Result<(), RuleFault>
        requires code { IsOwnCode (state_group self.old).code }
        requires within { AreWithin (state_history self.old) }
        requires line { IsFineShort (state_nodes self.old) (short_or_own (state_group self.old).code
            all line.now) }
        ensures group { self.new.0 ≡ self.old.0 }
        ensures left { OnOk result (LeavesBehind (state_group self.old) (state_history self.old)
            (state_nodes self.old) (short_or_own (state_group self.old).code all line.now)
            (state_history self.new)) }
        ensures no_instance { IsErrOf result RuleFault.NoInstance
            → IsShortInstance (state_group self.old) (state_history self.old) (state_nodes self.old)
            (short_or_own (state_group self.old).code all line.now)
            → ⊥ }
        ensures same { OnErr result (state_history self.new ≡ state_history self.old) }
        ensures grows { Extends (state_nodes self.old) (state_nodes self.new) }
        ensures steps { is_copied line.now ≡ true → steps.new ≡ steps.old }
        ensures most { (ts : Items Tree)
            → HasShort (state_group self.old) (state_history self.old).theorem
            (state_nodes self.old) line.now ts
            → steps.new ≤ steps.old + pair_steps ts }
        ensures closing { (def : ℕ) (cited : Items ℕ)
            → line.now ≡ short.Loop def cited
            → steps.new
            ≤ steps.old + nodes_of (closing_terms (state_group self.old)
            (slice_get (state_group self.old).defs def)) }
    {
        match line {
            Short::Loop(def, cited) => self.close(alloc, *def, cited.as_slice(), steps),
            Short::Forget(k) => self.forget(*k),
            _ => self.derive_triple(alloc, line, all, steps),
        }
    }

    /// Keeps the triple that the line states, if it is right.
    fn derive_triple<L: Ledger>(
        &mut self,
        alloc: Global,
        line: &Short,
        all: bool,
        steps: &mut Steps<L>,
    ) -> Result<(), RuleFault>
        requires code { IsOwnCode (state_group self.old).code }
        requires within { AreWithin (state_history self.old) }
        requires line { IsFineShort (state_nodes self.old) (short_or_own (state_group self.old).code
            all line.now) }
        ensures group { self.new.0 ≡ self.old.0 }
        ensures left { OnOk result (LeavesBehind (state_group self.old) (state_history self.old)
            (state_nodes self.old) (short_or_own (state_group self.old).code all line.now)
            (state_history self.new)) }
        ensures no_instance { IsErrOf result RuleFault.NoInstance
            → IsNeverStated (state_group self.old) (state_history self.old) (state_nodes self.old)
            (short_or_own (state_group self.old).code all line.now) }
        ensures same { OnErr result (state_history self.new ≡ state_history self.old) }
        ensures grows { Extends (state_nodes self.old) (state_nodes self.new) }
        ensures steps { is_copied line.now ≡ true → steps.new ≡ steps.old }
        ensures most { (ts : Items Tree)
            → HasShort (state_group self.old) (state_history self.old).theorem
            (state_nodes self.old) line.now ts
            → steps.new ≤ steps.old + pair_steps ts }
    {
        law_of_lines();
        self.law_of_bench();
        let own = self.states_own(line, all);
        let made = self.stated_by(alloc, line, all, steps)?;
        let Some(h) = made else {
            return Err(RuleFault::NoInstance);
        };
        self.keep_given(h, short_giver(line), own)?;
        Ok(())
    }
}
