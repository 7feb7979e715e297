//! Bytes that an atom spells.

ghost use Rattle.std.specs.Prelude.{◌≡◌, ◌≢◌, ◌↔◌, [], IfOk, IsSome, IsTrue};
ghost use Rattle.std.specs.List.{AllPass};
ghost use Rattle.hex.specs.Hex.{encode_lower, decode_of};
ghost use Rattle.mc_text.specs.Number.{is_hex_digit, AreSomeBytes, AreDigitPairs, Spelled, bytes_of_digits};
ghost use Rattle.mc_text.specs.inner.Number.{value_of};

use hex::FromHexError;
use rv_words::{Bytes, NoMemory};
use std::alloc::Global;

/// The bytes that an even, positive number of lower-case hexadecimal digits spell.
pub fn hex_bytes(alloc: Global, atom: &[u8]) -> Result<Option<Bytes>, NoMemory>
    ensures spelled { IfOk result (λ found. Spelled AreSomeBytes encode_lower atom.now found) }
    ensures found { IfOk result (λ found. IsSome found ↔ AreDigitPairs atom.now) }
    ensures read { IfOk result (λ found. found ≡ bytes_of_digits atom.now) }
{
    if are_hex_digits(atom) {
        decoded(alloc, atom)
    } else {
        Ok(None)
    }
}

/// What the hex crate decodes, which takes upper-case digits too.
fn decoded(alloc: Global, digits: &[u8]) -> Result<Option<Bytes>, NoMemory>
    ensures { IfOk result (λ found. found ≡ value_of (decode_of digits.now)) }
{
    match hex::decode(alloc, digits) {
        Ok(bytes) => Ok(Some(Bytes::from_vec(bytes))),
        Err(FromHexError::OutOfMemory) => Err(NoMemory),
        Err(_) => Ok(None),
    }
}

/// Whether there are bytes, and all are lower-case hexadecimal digits.
fn are_hex_digits(text: &[u8]) -> bool
    ensures { IsTrue result ↔ ((text.now ≢ []) × AllPass is_hex_digit text.now) }
{
    !text.is_empty() && text.iter().all(|byte| is_hex_digit(*byte))
}

fn is_hex_digit(byte: u8) -> bool
    ensures { result ≡ is_hex_digit byte }
{
    (byte >= b'0' && byte <= b'9') || (byte >= b'a' && byte <= b'f')
}
