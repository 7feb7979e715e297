//! Addresses of instructions.

ghost use Rattle.std.specs.Prelude.{◌≡◌};
ghost use Rattle.instr_axioms.specs.Axiom as spec;
ghost use Rattle.rv_words.specs.Bytes.{away};

use rvc::length_of;

/// Whether an instruction of that parcel or word may stand there.
pub fn has_room(a: u64, number: u32) -> bool
    ensures { result ≡ spec.has_room a number }
{
    a % 2 == 0 && u64::from(length_of(number)) - 1 <= u64::MAX - a
}

/// The address of the next instruction, behind one of that many bytes.
pub fn next(a: u64, length: u8) -> u64
    ensures { result ≡ away a length }
{
    a.wrapping_add(u64::from(length))
}
