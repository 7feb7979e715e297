//! Laws of rewriting. These functions do nothing: their contracts are the laws.

ghost use Rattle.std.specs.Prelude.{◌≡◌, List};
ghost use Rattle.tailrec_lang.specs.Tree.{DefTree, GroupTree};
ghost use Rattle.group_terms.specs.Range.{GroupInRange};
ghost use Rattle.fun_laws.specs.declared.step.Rw.{Rw};
ghost use Rattle.fun_laws.specs.Evaluation.{EvaluateAlike};
ghost use Rattle.fun_laws.specs.Rewriting.{AreRewritingSteps};

/// Steps of rewriting leave the outcome of each evaluation, with the turns that are left and the
/// numbers of Needs.
pub fn law_of_rewriting()
    ensures { (rs : List Rw) (g : GroupTree) (es : List DefTree)
        → GroupInRange g
        → AreRewritingSteps rs g.defs es
        → EvaluateAlike g es }
{}

/// Steps have one result at most.
pub fn law_of_one_result()
    ensures { (rs : List Rw) (ds es fs : List DefTree)
        → AreRewritingSteps rs ds es
        → AreRewritingSteps rs ds fs
        → es ≡ fs }
{}
