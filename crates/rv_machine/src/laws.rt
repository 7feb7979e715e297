//! Laws of steps and runs. These functions do nothing: their contracts are the laws. Each speaks of
//! the definitions alone.

ghost use Rattle.std.specs.Prelude.{◌≡◌, ℕ, ◌+◌, ◌^◌, ◌<◌, true, false, ◌↔◌, Some, None, IsSome, is_some};
ghost use Rattle.rv_words.specs.Bytes.{Bytes};
ghost use Rattle.rv_decode.specs.declared.instruction.Instr.{Instr};
ghost use Rattle.rv_decode.specs.Registers.{destination, is_written};
ghost use Rattle.rvc.specs.Number.{instruction_of, length_of, number_at};
ghost use Rattle.rv_machine.specs.declared.running.RunEnd.{RunEnd};
ghost use Rattle.rv_machine.specs.State.{IsState, State};
ghost use Rattle.rv_machine.specs.Step.{act, instruction_at, is_even, length_at, only_if, step, stuck};
ghost use Rattle.rv_machine.specs.Update.{HaveSame, is_possible, updated};
ghost use Rattle.rv_machine.specs.Run.{EndsIn, run};
ghost use Rattle.rv_machine.specs.Touches.{AreSameOn, IsStepWith, IsTouched, fetches, touches};

/// An instruction gives its update exactly where its test is true, and a step is that of the
/// instruction at the program counter.
pub fn law_of_steps()
    ensures act { (i : Instr) (n : ℕ) (s : State)
        → act i n s ≡ only_if (is_possible i s) (updated i n s) }
    ensures step { (i : Instr) (s : State)
        → instruction_at s ≡ Some i
        → step s ≡ act i (length_at s) s }
    ensures update { (i : Instr) (s : State)
        → instruction_at s ≡ Some i
        → is_possible i s ≡ true
        → step s ≡ Some (updated i (length_at s) s) }
    ensures instruction { (s t : State)
        → step s ≡ Some t
        → (i : Instr)
        × (instruction_at s ≡ Some i)
        × (is_possible i s ≡ true)
        × (t ≡ updated i (length_at s) s) }
    ensures fetch { (i : Instr) (s : State)
        → (instruction_at s ≡ Some i)
        ↔ ((w : ℕ)
        × (is_even s.pc ≡ true)
        × (number_at s.mem s.pc ≡ Some w)
        × (instruction_of w ≡ Some i)) }
    ensures length { (s : State) (w : ℕ)
        → number_at s.mem s.pc ≡ Some w
        → length_at s ≡ length_of w }
    ensures exactly { (s : State) → (stuck s ≡ None) ↔ IsSome (step s) }
{}

/// A run of j + k steps is one of j steps and then one of k. A run has one end.
pub fn law_of_runs()
    ensures none { (s : State) → run s 0 ≡ Some s }
    ensures one { (s : State) → run s 1 ≡ step s }
    ensures joined { (s t u : State) (j k : ℕ)
        → run s j ≡ Some t
        → run t k ≡ Some u
        → run s (j + k) ≡ Some u }
    ensures parted { (s u : State) (j k : ℕ)
        → run s (j + k) ≡ Some u
        → (t : State) × (run s j ≡ Some t) × (run t k ≡ Some u) }
    ensures one_end { (until steps : ℕ) (s t u : State) (e f : RunEnd)
        → EndsIn until steps s t e → EndsIn until steps s u f → (t ≡ u) × (e ≡ f) }
{}

/// A step leaves the bytes that it doesn't touch, and all that it touches is present. It changes
/// neither x0 nor which addresses are present, and it depends on no byte but those at the program
/// counter and those that it touches.
pub fn law_of_touches()
    ensures untouched { (s t : State) (q : ℕ)
        → step s ≡ Some t
        → (IsTouched (touches s) q → ⊥)
        → t.mem q ≡ s.mem q }
    ensures there { (s t : State) (q : ℕ)
        → step s ≡ Some t
        → IsTouched (touches s) q
        → is_some (s.mem q) ≡ true }
    ensures present { (s t : State)
        → step s ≡ Some t
        → (q : ℕ)
        → is_some (t.mem q) ≡ is_some (s.mem q) }
    ensures zero { (s t : State) → step s ≡ Some t → t.reg 0 ≡ s.reg 0 }
    ensures alike { (s t : State) (m : Bytes) → s.pc < 2 ^ 64 → step s ≡ Some t
        → AreSameOn (fetches s) m s.mem → AreSameOn (touches s) m s.mem → IsStepWith s t m }
{}

/// Steps and runs of a machine's states lead to such states, and a step to an even address.
pub fn law_of_states()
    ensures step { (s t : State) → IsState s → step s ≡ Some t → IsState t }
    ensures even { (s t : State) → IsState s → step s ≡ Some t → is_even t.pc ≡ true }
    ensures run { (s t : State) (k : ℕ) → IsState s → run s k ≡ Some t → IsState t }
{}

/// An instruction changes no register but the one that it writes, and what it does depends on no
/// register but those that it reads.
pub fn law_of_registers()
    ensures unwritten { (i : Instr) (n : ℕ) (s : State) (r : ℕ)
        → is_written i r ≡ false
        → (updated i n s).reg r ≡ s.reg r }
    ensures possible { (i : Instr) (s u : State)
        → HaveSame i s u
        → is_possible i u ≡ is_possible i s }
    ensures pc { (i : Instr) (n : ℕ) (s u : State)
        → HaveSame i s u
        → (updated i n u).pc ≡ (updated i n s).pc }
    ensures word { (i : Instr) (n : ℕ) (s u : State) → HaveSame i s u → (destination i ≡ 0 → ⊥)
        → (updated i n u).reg (destination i) ≡ (updated i n s).reg (destination i) }
    ensures mem { (i : Instr) (n : ℕ) (s u : State)
        → HaveSame i s u
        → (updated i n u).mem ≡ (updated i n s).mem }
{}
