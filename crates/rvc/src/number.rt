//! The instruction of a parcel or a word.

ghost use Rattle.std.specs.Prelude.{◌≡◌, IfSome, IsTrue};
ghost use Rattle.rv_decode.specs.Decodes.{NamesRegisters};
ghost use Rattle.rv_decode.specs.Ranges.{is_encodable};
ghost use Rattle.rvc.specs.Number as spec;

use crate::expansion::decode_compressed;
use rv_decode::{Instr, decode};

/// Whether it is a word of four bytes.
pub fn is_word(w: u32) -> bool
    ensures { result ≡ spec.is_word w }
{
    w % 4 == 3
}

/// How many bytes a parcel or a word has.
pub fn length_of(w: u32) -> u8
    ensures { result ≡ spec.length_of w }
{
    if is_word(w) { 4 } else { 2 }
}

/// The instruction that a parcel or a word is, if it is one.
pub fn instruction_of(w: u32) -> Option<Instr>
    ensures value { result ≡ spec.instruction_of w }
    ensures registers { IfSome result NamesRegisters }
    ensures ranges { IfSome result (λ i. IsTrue (is_encodable i)) }
{
    if is_word(w) {
        return decode(w);
    }
    if w < 65536 {
        return decode_compressed(w as u16);
    }
    None
}
