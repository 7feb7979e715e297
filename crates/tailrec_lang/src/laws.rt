//! Laws of evaluation. These functions do nothing: their contracts are the laws.

ghost use Rattle.std.specs.Prelude.{◌≡◌, ◌+◌, ◌<◌, ℕ, Some, slice_get, suc};
ghost use Rattle.word_terms.specs.Environment.{no_variables};
ghost use Rattle.tailrec_lang.specs.Tree.{DefTree, GroupTree, exits_at};
ghost use Rattle.tailrec_lang.specs.WellFormed.{IsWellFormed};
ghost use Rattle.tailrec_lang.specs.Eval.{Arguments, Done, ExitFits, Exited, NeedFalse, SideFalse, body_ending, ending, eval, with_arguments};

/// What an evaluation comes to within some turns, it comes to within more. The further turns are
/// left over.
pub fn law_of_more_turns()
    ensures done { (g : GroupTree) (d : ℕ) (x : Arguments) (turns more exit pc : ℕ)
        (results : Arguments) (left : ℕ)
        → eval g d x turns ≡ Done exit pc results left
        → eval g d x (turns + more) ≡ Done exit pc results (left + more) }
    ensures side_false { (g : GroupTree) (d : ℕ) (x : Arguments) (turns more def ordinal : ℕ)
        → eval g d x turns ≡ SideFalse def ordinal
        → eval g d x (turns + more) ≡ SideFalse def ordinal }
{}

/// How an entry of a definition ends. With one turn more it ends as the definition's body does.
/// Where it leaves by an exit, a turn was used, and in a well-formed group there is that exit and
/// as many results as the exit has. With more turns it ends in the same way, and these are left
/// over.
pub fn law_of_turns()
    ensures enters { (g : GroupTree) (d : ℕ) (x : Arguments) (left : ℕ) (def : DefTree)
        → slice_get g.defs d ≡ Some def
        → ending g d x (suc left)
        ≡ body_ending (ending g) d def.body (with_arguments no_variables x) 0 left }
    ensures falls { (g : GroupTree) (d : ℕ) (x : Arguments) (turns exit : ℕ) (results : Arguments)
        (left : ℕ)
        → ending g d x turns ≡ Exited exit results left
        → left < turns }
    ensures fits { (g : GroupTree) (d : ℕ) (x : Arguments) (turns exit : ℕ) (results : Arguments)
        (left : ℕ)
        → IsWellFormed g
        → ending g d x turns ≡ Exited exit results left
        → ExitFits g (slice_get (exits_at g d) exit) results }
    ensures exited { (g : GroupTree) (d : ℕ) (x : Arguments) (turns more exit : ℕ)
        (results : Arguments) (left : ℕ)
        → ending g d x turns ≡ Exited exit results left
        → ending g d x (turns + more) ≡ Exited exit results (left + more) }
    ensures need_false { (g : GroupTree) (d : ℕ) (x : Arguments) (turns more def ordinal : ℕ)
        → ending g d x turns ≡ NeedFalse def ordinal
        → ending g d x (turns + more) ≡ NeedFalse def ordinal }
{}
