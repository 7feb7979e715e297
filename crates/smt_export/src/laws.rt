//! The law of exported definitions. A function that does nothing: its contract is the law.

ghost use Rattle.std.specs.Prelude.{◌≡◌, ℕ, ◌<◌, ◌≤◌, Bool, true, length};
ghost use Rattle.tailrec_lang.specs.Tree.{GroupTree};
ghost use Rattle.smt_terms.specs.Sorts.{IsScript};
ghost use Rattle.smt_export.specs.Telling.{HasFuns, TellsEval};
ghost use Rattle.smt_export.specs.Scripts.{script};
ghost use Rattle.smt_export.specs.inner.Exported.{HasRange, IsClosed};

/// A script is well-sorted, and tells the outcomes of its definitions.
pub fn law_of_scripts()
    ensures script { (g : GroupTree) (test : ℕ → Bool) (d : ℕ)
        → HasRange g
        → IsClosed g test
        → IsScript (script g test d) }
    ensures sorts { (g : GroupTree) (test : ℕ → Bool) (d e : ℕ)
        → d < length g.defs
        → e ≤ d
        → test e ≡ true
        → HasFuns g (script g test d) e }
    ensures tells { (g : GroupTree) (test : ℕ → Bool) (d e : ℕ)
        → HasRange g
        → IsClosed g test
        → d < length g.defs
        → e ≤ d
        → test e ≡ true
        → TellsEval g e (script g test d) }
{}
