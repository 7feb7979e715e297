//! Worked examples of the claims: the headline, that nothing is lost, that turns count steps,
//! calls, stack accesses, rewriting and scripts. What each asks can be met, and it is false of
//! something that is made wrong. These functions do nothing: their contracts are the laws.
#![tactic(auto)]

ghost use Rattle.std.specs.Prelude.{◌≡◌, [], ◌∷◌};
ghost use Rattle.elf_image.specs.Image.{code_of_file};
ghost use Rattle.rv_machine.specs.State.{State};
ghost use Rattle.triple_kernel.specs.Valid.{Reaches};
ghost use Rattle.tailrec_lang.specs.Tree.{listed_def};
ghost use Rattle.tailrec_lang.specs.Eval.{Done, eval};
ghost use Rattle.claims.specs.Headline.{Ends, IsRight, Starts, held_in};
ghost use Rattle.claims.specs.Exact.{Exact, FirstReturns, Gives};
ghost use Rattle.claims.specs.LinkExact.{FirstReturnsIn, LinkExact, ReturnsBack};
ghost use Rattle.claims.specs.Turns.{CountsSteps, InFirstMemory};
ghost use Rattle.stack_offsets.specs.SplitExact.{SplitExact, UsesSplit};
ghost use Rattle.fun_laws.specs.Evaluation.{EvaluateAlike};
ghost use Rattle.smt_export.specs.Telling.{HasFuns, TellsEval};
ghost use Rattle.claim_examples.specs.Sum.{narrow, needing, sum, sum_file, sum_results, sum_start, wrong};
ghost use Rattle.claim_examples.specs.Store.{at_place, keeps, quiet, store_file, store_start, stores};
ghost use Rattle.claim_examples.specs.Words.{and_one, and_two, backwards, dividing_script, forwards, leaves_word, signed_division, unsigned_division, word_group};
ghost use Rattle.claim_examples.specs.Call.{call_file, call_start, nothing_called, sum_called};
ghost use Rattle.claim_examples.specs.Split.{all_in_first, split_file, split_start, stores_apart, two_regions};

/// A function that adds two registers: the premises are met, its evaluation is done in one turn,
/// and the machine comes to a state as is claimed.
pub fn law_of_sum()
    ensures starts { Starts sum_file sum sum_start [] }
    ensures done { eval sum (listed_def sum) (held_in sum_start sum []) 1
        ≡ Done 0 0x2000 (sum_results 5) 0 }
    ensures ends { (t : State)
        × Reaches sum_start t
        × Ends sum [] sum_start 0x2000 (sum_results 5) t }
{}

/// A function that leaves another word in x10 is not right.
pub fn law_of_a_wrong_result()
    ensures { IsRight sum_file wrong → ⊥ }
{}

/// A function that doesn't list a register that its code writes is not right.
pub fn law_of_an_unlisted_register()
    ensures { IsRight sum_file narrow → ⊥ }
{}

/// A run that returns, and what evaluation gives of it within twice as many turns: what `Exact`
/// asks of a run can be met, and so can what it says of it.
pub fn law_of_a_return()
    ensures { (t : State) × FirstReturns [] sum_start 2 t × Gives sum [] sum_start 4 t }
{}

/// A turn of its evaluation is two steps of that run: it is false that each is at most one.
pub fn law_of_a_turn()
    ensures { CountsSteps 1 FirstReturns sum_file sum → ⊥ }
{}

/// A function that needs what is never true is right, since it gives nothing, but it isn't exact.
pub fn law_of_a_false_need()
    ensures right { IsRight sum_file needing }
    ensures exact { Exact sum_file needing → ⊥ }
{}

/// A function that stores into a region of memory, and one over the same region that tells that the
/// region stays as it is: the premises are met.
pub fn law_of_regions()
    ensures stores { Starts store_file stores store_start (at_place ∷ []) }
    ensures keeps { Starts store_file keeps store_start (at_place ∷ []) }
{}

/// A function that tells of a region that its code stores into that it stays as it is, is not
/// right.
pub fn law_of_a_kept_region()
    ensures { IsRight store_file keeps → ⊥ }
{}

/// A function without a memory whose code stores is not right.
pub fn law_of_an_untold_store()
    ensures { IsRight store_file quiet → ⊥ }
{}

/// Definitions with another order of a sum's terms evaluate alike, and those with another constant
/// don't.
pub fn law_of_sums()
    ensures order { EvaluateAlike (word_group forwards) (leaves_word backwards ∷ []) }
    ensures constant { EvaluateAlike (word_group and_one) (leaves_word and_two ∷ []) → ⊥ }
{}

/// A script that divides by `bvudiv` tells a division of numbers without a sign. It doesn't tell
/// one of numbers with a sign, though its functions have the right sorts.
pub fn law_of_divisions()
    ensures unsigned { TellsEval (word_group unsigned_division) 0 dividing_script }
    ensures sorts { HasFuns (word_group signed_division) dividing_script 0 }
    ensures signed { TellsEval (word_group signed_division) 0 dividing_script → ⊥ }
{}

/// A function that calls another by `jal x1`, which returns to it: a run that comes back, and what
/// evaluation gives of it.
pub fn law_of_a_call()
    ensures { (t : State)
        × ReturnsBack InFirstMemory [] t [] 6 call_start
        × Gives sum_called [] call_start 12 t }
{}

/// Where the called function is told to leave x10 as it is, something is lost.
pub fn law_of_a_lost_call()
    ensures { LinkExact InFirstMemory call_file nothing_called → ⊥ }
{}

/// A function with a stack access and one that is none: a run in which each stays in its region,
/// and what evaluation gives of it.
pub fn law_of_two_regions()
    ensures { (t : State)
        × FirstReturnsIn (UsesSplit (code_of_file split_file) 0x10000) two_regions split_start 3 t
        × Gives stores_apart two_regions split_start 6 t }
{}

/// Where the stack access is told to be in the first memory, something is lost.
pub fn law_of_a_lost_access()
    ensures { SplitExact split_file 0x10000 all_in_first → ⊥ }
{}
