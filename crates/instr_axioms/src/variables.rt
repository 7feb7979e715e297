//! Which variables stand for the words in registers and for the memory.

ghost use Rattle.std.specs.Prelude.{◌≡◌, ◌+◌, ◌<◌, ◌≤◌, ◌^◌, ◌==◌, ℕ, length};
ghost use Rattle.std.specs.List.{All, position_or_len};
ghost use Rattle.instr_axioms.specs.Variables.{variable_of};

use crate::registers::place_of;

/// The variable of the word in each register, and that of the memory.
#[derive(Clone, Copy, Debug)]
pub struct Variables {
    pub words: [u32; 32],
    pub memory: u32,
}

impl Variables {
    /// The variables from `first` on for these registers, in their order, and the one after them
    /// for all others.
    pub fn numbered(regs: &[u8], first: u32, memory: u32) -> Variables
        requires registers { All (λ r. (0 < r) × (r < 32)) regs.now }
        requires few { length regs.now ≤ 31 }
        requires room { first + length regs.now < 2 ^ 32 }
        ensures words { (r : ℕ)
            → variable_of result.words r ≡ first + position_or_len (λ q. q == r) regs.now }
        ensures memory { result.memory ≡ memory }
    {
        let mut words = [0; 32];
        for r in 0..32 {
            words[r as usize] = first + place_of(regs, r);
        }
        Variables { words, memory }
    }

    /// The variable of a register.
    pub fn word(&self, r: u8) -> u32
        ensures { result ≡ variable_of self.now.words r }
    {
        if r < 32 {
            self.words[r as usize]
        } else {
            self.words[0]
        }
    }
}
