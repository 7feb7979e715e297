//! Addresses and the words that immediates are. Sums are modulo 2^64.

ghost use Rattle.std.specs.Prelude.{◌≡◌};
ghost use Rattle.rv_words.specs.Operation.{word_of};
ghost use Rattle.rv_machine.specs.Step as spec;

use rv_words::{Ext, extend};

/// An immediate as a word.
pub fn immediate_word(imm: i32) -> u64
    ensures { result ≡ word_of imm }
{
    i64::from(imm).cast_unsigned()
}

/// The sum of a word and an immediate.
pub fn plus_immediate(word: u64, imm: i32) -> u64
    ensures { result ≡ spec.plus word imm }
{
    word.wrapping_add(immediate_word(imm))
}

/// The target of a jump to a word plus an immediate.
pub fn jump_target(word: u64, imm: i32) -> u64
    ensures { result ≡ spec.jump_target word imm }
{
    plus_immediate(word, imm) & 0xffff_ffff_ffff_fffe
}

/// The word that LUI writes, and AUIPC adds to the program counter: the 20 bits of the immediate
/// are bits 31 to 12, those below are 0, and bit 31 is extended to the bits above (sections 2.4 and
/// 5.2 of the manual).
pub fn upper_word(imm: u32) -> u64
    ensures { result ≡ spec.upper imm }
{
    extend(Ext::Sx4, u64::from(imm) * 4096)
}
