//! The laws on rewritten functions and on scripts. These functions do nothing: their contracts are
//! the laws, which speak of the definitions alone.

ghost use Rattle.std.specs.Prelude.{ℕ, List, []};
ghost use Rattle.rv_machine.specs.State.{IsState};
ghost use Rattle.tailrec_lang.specs.Tree.{DefTree, GroupTree, listed_def};
ghost use Rattle.tailrec_lang.specs.WellFormed.{IsWellFormed};
ghost use Rattle.fun_laws.specs.declared.step.Rw.{Rw};
ghost use Rattle.fun_laws.specs.Evaluation.{EvaluateAlike};
ghost use Rattle.fun_laws.specs.Rewriting.{AreRewritingSteps, with_defs};
ghost use Rattle.smt_terms.specs.Meaning.{FunTree};
ghost use Rattle.smt_export.specs.Reach.{IsLoopFree};
ghost use Rattle.smt_export.specs.Telling.{TellsEval};
ghost use Rattle.claims.specs.Headline.{IsRight};
ghost use Rattle.claims.specs.Exact.{Exact, FirstReturns};
ghost use Rattle.elf_image.specs.Image.{code_of_file};
ghost use Rattle.claims.specs.LinkExact.{FirstReturnsIn, LinkExact};
ghost use Rattle.claims.specs.Turns.{InFirstMemory, RunsBack};
ghost use Rattle.stack_offsets.specs.SplitExact.{SplitExact, UsesSplit};
ghost use Rattle.mcdec_commands.specs.Scripts.{TellsClaims};
ghost use Rattle.mcdec_commands.specs.Within.{IsExactIn, IsRightIn};

/// Where steps of rewriting lead from the definitions of a group to others, which evaluate alike,
/// what is claimed of the group's function holds of the function of these, in each state of the
/// machine.
pub fn law_of_rewritten_functions()
    ensures right { (file : List ℕ) (g : GroupTree) (rs : List Rw) (es : List DefTree)
        → AreRewritingSteps rs g.defs es
        → EvaluateAlike g es
        → IsRight file g
        → IsRightIn IsState file (with_defs g es) }
    ensures exact { (file : List ℕ) (g : GroupTree) (rs : List Rw) (es : List DefTree)
        → AreRewritingSteps rs g.defs es
        → EvaluateAlike g es
        → Exact file g
        → IsExactIn IsState FirstReturns file (with_defs g es) }
    ensures linked { (file : List ℕ) (g : GroupTree) (rs : List Rw) (es : List DefTree)
        → AreRewritingSteps rs g.defs es
        → EvaluateAlike g es
        → LinkExact InFirstMemory file g
        → IsExactIn IsState (RunsBack InFirstMemory) file
        (with_defs g es) }
    ensures split { (file : List ℕ) (g : GroupTree) (rs : List Rw) (es : List DefTree) (e : ℕ)
        → AreRewritingSteps rs g.defs es
        → EvaluateAlike g es
        → SplitExact file e g
        → IsExactIn IsState (FirstReturnsIn (UsesSplit (code_of_file file) e)) file
        (with_defs g es) }
{}

/// Where a script tells the evaluation of a group's function, from which no loop is reached, it
/// tells what the machine does, as far as that is claimed of the function.
pub fn law_of_exported_functions()
    ensures { (g : GroupTree) (funs : List FunTree)
        → IsWellFormed g
        → IsLoopFree g (listed_def g)
        → TellsEval g (listed_def g) funs
        → TellsClaims g funs }
{}
