//! Laws of validity. These functions do nothing: their contracts are the laws. Each speaks of the
//! definitions alone.

ghost use Rattle.std.specs.Prelude.{List};
ghost use Rattle.rv_words.specs.declared.range.Range.{Range};
ghost use Rattle.rv_words.specs.Ranges.{range_bytes};
ghost use Rattle.word_terms.specs.Substitution.{Substitution};
ghost use Rattle.tailrec_lang.specs.Tree.{GroupTree};
ghost use Rattle.rv_machine.specs.State.{State};
ghost use Rattle.sep_assert.specs.Code.{IsWithin};
ghost use Rattle.sep_assert.specs.Part.{Exists};
ghost use Rattle.triple_kernel.specs.Tree.{TripleTree};
ghost use Rattle.triple_kernel.specs.Valid.{Reaches, Valid, IsValidForFinite, state_part};
ghost use Rattle.triple_kernel.specs.Rules.{IsInst, IsStrengthened, IsWeakened, IsDischarged};

/// The part that a state is exists: nothing clashes in it.
pub fn law_of_states()
    ensures { (s : State) → Exists (state_part s) }
{}

/// The machine comes from each state to itself, and from a first state to a third one where it
/// comes from the first to a second and from there to the third.
pub fn law_of_reaching()
    ensures none { (s : State) → Reaches s s }
    ensures further { (s t u : State) → Reaches s t → Reaches t u → Reaches s u }
{}

/// More code keeps a triple valid.
pub fn law_of_more_code()
    ensures { (g : GroupTree) (t : TripleTree) (code : List Range)
        → IsWithin (range_bytes t.code) (range_bytes code)
        → Valid g t
        → Valid g (record t { code = code }) }
{}

/// What a valid triple claims of 64-bit words and of finite parts.
pub fn law_of_validity()
    ensures { (g : GroupTree) (t : TripleTree) → Valid g t → IsValidForFinite g t }
{}

/// Terms put in for the variables of a valid triple keep it valid.
pub fn law_of_inst()
    ensures { (g : GroupTree) (s : Substitution) (p t : TripleTree)
        → IsInst s p t
        → Valid g p
        → Valid g t }
{}

/// More facts, and a precondition that is the same by them, keep a triple valid.
pub fn law_of_strengthening()
    ensures { (g : GroupTree) (p t : TripleTree) → IsStrengthened p t → Valid g p → Valid g t }
{}

/// More facts, and a postcondition that is the same by them, keep a triple valid.
pub fn law_of_weakening()
    ensures { (g : GroupTree) (p t : TripleTree) → IsWeakened p t → Valid g p → Valid g t }
{}

/// Facts that follow from the others may be left out of a valid triple.
pub fn law_of_discharge()
    ensures { (g : GroupTree) (p t : TripleTree) → IsDischarged p t → Valid g p → Valid g t }
{}
