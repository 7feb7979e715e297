//! The registers.

ghost use Rattle.std.specs.Prelude.{◌≡◌, ℕ, ◌^◌, ◌<◌, replicate, slice_index};
ghost use Rattle.rv_machine.specs.State.{register, with_register};

use std::marker::Model;

/// The 32 registers, of which x0 is 0.
#[derive(Debug, Drop)]
pub struct Registers {
    words: [u64; 32],
}

impl Model for Registers {
    ghost use Rattle.std.specs.Prelude.{ℕ, List};
    ghost use Rattle.rv_machine.specs.inner.State.{AreRegisters};

    ghost Value = { List ℕ };

    ghost view = { λ r. r.words };

    ghost invariant = { λ r. AreRegisters r.words };
}

impl Registers {
    /// All registers hold 0.
    pub fn new() -> Registers
        ensures { result ≡ replicate 32 0 }
    {
        Registers { words: [0; 32] }
    }

    /// Every value holds words.
    pub fn law_of_values(&self)
        ensures { (r : ℕ) → slice_index self.now r < 2 ^ 64 }
    {
        let _ = &self.words;
    }

    pub fn get(&self, n: u8) -> u64
        requires { n < 32 }
        ensures { result ≡ register self.now n }
    {
        self.words[n as usize]
    }

    /// Writes a register. A write to x0 changes nothing.
    pub fn set(&mut self, n: u8, word: u64)
        requires { n < 32 }
        ensures { register self.new ≡ with_register n word (register self.old) }
    {
        if n != 0 {
            self.words[n as usize] = word;
        }
    }
}
