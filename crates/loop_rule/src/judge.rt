//! What judges whether theorems lead to the leaves of a definition.

ghost use Rattle.std.specs.Prelude.{◌≡◌, ◌↔◌, ◌++◌, ◌∷◌, [], IfOk, IfSome, IsTrue, OnOk, length, take};
ghost use Rattle.triple_kernel.specs.Tree.{fact_tree};
ghost use Rattle.loop_rule.specs.Rule.{IsLedTo};
ghost use Rattle.loop_rule.specs.Judge.{Judge, Went};
ghost use Rattle.loop_rule.specs.Tree.{leaf_with};

use rv_words::NoMemory;
use sep_assert::Assertion;
use std::alloc::Global;
use triple_kernel::Fact;

/// Judges whether theorems lead to the leaves of a definition. It keeps the facts of the way to
/// where a walk is, which go with each leaf behind them.
pub trait JudgeLeaves {
    /// What is told of it.
    ghost judge: { Judge Self };

    /// How many facts the way has.
    fn length(&self) -> usize
        ensures { result ≡ length (judge.way self.now) };

    /// Adds a fact at the end of the way.
    fn push(&mut self, fact: Fact) -> Result<(), NoMemory>
        requires { judge.IsReady self.old }
        ensures way { OnOk result (judge.way self.new ≡ judge.way self.old ++ fact_tree fact ∷ []) }
        ensures went { Went judge [] self.old self.new };

    /// Drops the last facts of the way, up to that many.
    fn shorten(&mut self, length: usize)
        requires { judge.IsReady self.old }
        ensures way { judge.way self.new ≡ take length (judge.way self.old) }
        ensures went { Went judge [] self.old self.new };

    /// Whether the theorem of that number leads from the definition's entry to the leaf at the end
    /// of the way, where that has to hold.
    fn is_led(&mut self, alloc: Global, post: &Assertion, number: u64) -> Result<bool, NoMemory>
        requires { judge.IsReady self.old }
        ensures answer { IfOk result (λ r.
            IsTrue r
            ↔ IsLedTo (judge.closing self.old).group (judge.closing self.old).def
            (leaf_with (judge.way self.old) post.now) ((judge.closing self.old).theorem number)) }
        ensures holds { IfOk result (λ r.
            IsTrue r
            → IfSome ((judge.closing self.old).theorem number) (λ p.
            judge.Holds (judge.closing self.old).group p)) }
        ensures way { OnOk result (judge.way self.new ≡ judge.way self.old) }
        ensures went { Went judge (leaf_with (judge.way self.old) post.now ∷ []) self.old
            self.new };
}
