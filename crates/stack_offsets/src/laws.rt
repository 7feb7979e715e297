//! Laws of offsets. These functions do nothing: their contracts are the laws. Each speaks of the
//! definitions alone.

ghost use Rattle.std.specs.Prelude.{◌≡◌, ◌+◌, ◌%◌, ◌^◌, ◌<◌, ℕ, Some};
ghost use Rattle.rv_words.specs.Bytes.{Bytes};
ghost use Rattle.rv_machine.specs.Run.{run};
ghost use Rattle.rv_machine.specs.State.{State};
ghost use Rattle.stack_offsets.specs.Offsets.{HasOffset, LeadsIn};
ghost use Rattle.stack_offsets.specs.Runs.{RunsAlong};

/// Where a run along a function's code comes to, a register that has an offset there holds the word
/// that x2 had at the entry, plus this.
pub fn law_of_offsets()
    ensures { (code : Bytes) (s t : State) (k r c : ℕ)
        → s.reg 2 < 2 ^ 64
        → RunsAlong code s k
        → run s k ≡ Some t
        → HasOffset (LeadsIn code) s.pc t.pc r c
        → t.reg r ≡ (s.reg 2 + c) % 2 ^ 64 }
{}
