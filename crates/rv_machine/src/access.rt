//! Reading memory. Addresses go on from 0 after the last one.

ghost use Rattle.std.specs.Prelude.{◌≡◌, ◌≤◌, Some, None, if◌then◌else◌};
ghost use Rattle.std.specs.FinMap.{get};
ghost use Rattle.rv_words.specs.Bytes.{bytes_of, inside, load};
ghost use Rattle.rvc.specs.Number.{number_at};
ghost use Rattle.rv_machine.specs.Step as spec;

use rv_words::{ByteMap, Ext, Width, extend};
use rvc::is_word;

/// The parcel or the word that stands at `a`, if its bytes are present.
#[tactic(auto, using(rvc::proofs::NumberLemmas::long_number, rvc::proofs::NumberLemmas::first_number, rvc::proofs::NumberLemmas::half_number, rvc::proofs::NumberLemmas::short_number, rvc::proofs::NumberLemmas::no_number))]
pub fn fetch(memory: &ByteMap, a: u64) -> Option<u32>
    ensures { result ≡ number_at (get memory.now) a }
{
    memory.law_of_values();
    if let Some(word) = number(memory, a, Width::B4) {
        return Some(if is_word(word) { word } else { word % 65536 });
    }
    let parcel = number(memory, a, Width::B2)?;
    if is_word(parcel) { None } else { Some(parcel) }
}

/// The number that at most four bytes from `a` on make, if they are present.
fn number(memory: &ByteMap, a: u64, width: Width) -> Option<u32>
    requires { bytes_of width ≤ 4 }
    ensures { result
        ≡ if spec.has width (get memory.now) a then Some (load (bytes_of width) (get memory.now) a)
        else None }
{
    memory.law_of_values();
    let number = memory.read(a, width)?;
    Some(number as u32)
}

/// The word that a load from `a` gives, if its bytes are present.
pub fn load(memory: &ByteMap, a: u64, width: Width, signed: bool) -> Option<u64>
    ensures { result
        ≡ if spec.has width (get memory.now) a then Some
        (spec.loaded width signed (get memory.now) a) else None }
{
    let number = memory.read(a, width)?;
    Some(if signed {
        sign_extended(number, width)
    } else {
        number
    })
}

/// The number of a width's bytes with its sign extended.
fn sign_extended(number: u64, width: Width) -> u64
    ensures { result ≡ spec.sign_extended width number }
{
    match width {
        Width::B1 => extend(Ext::Sx1, number),
        Width::B2 => extend(Ext::Sx2, number),
        Width::B4 => extend(Ext::Sx4, number),
        Width::B8 => number,
    }
}

/// The first absent one of `n` addresses from `a` on.
pub fn first_absent(memory: &ByteMap, a: u64, n: u8) -> Option<u64>
    ensures { result
        ≡ if inside n (get memory.now) a then None else Some
        (spec.first_absent n (get memory.now) a) }
{
    if n == 0 {
        return None;
    }
    if memory.byte(a).is_none() {
        return Some(a);
    }
    first_absent(memory, a.wrapping_add(1), n - 1)
}
