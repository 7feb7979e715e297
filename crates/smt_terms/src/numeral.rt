//! Numerals.

ghost use Rattle.std.specs.Prelude.{◌≡◌, ℕ, ◌%◌, ◌^◌, min, if◌then◌else◌, option_map};
ghost use Rattle.std.specs.Char.{digit_value, is_digit};
ghost use Rattle.smt_terms.specs.Meaning.{has_leading_zero, literal_number, numeral};

/// The value of a decimal digit.
fn digit(byte: u8) -> Option<u8>
    ensures { result ≡ (if is_digit byte 10 then Some (digit_value byte) else None) }
{
    if byte.is_ascii_digit() {
        Some(byte - b'0')
    } else {
        None
    }
}

/// Whether digits begin with a zero that more follow: these are no numeral.
#[tactic(auto, using(crate::proofs::ReadNumerals::zero_first, crate::proofs::ReadNumerals::zero_alone))]
fn has_leading_zero(text: &[u8]) -> bool
    ensures { result ≡ has_leading_zero text.now }
{
    match text {
        [first, _, ..] => *first == b'0',
        _ => false,
    }
}

/// The number that a numeral writes, modulo 2^128.
#[tactic(auto, using(crate::proofs::ReadNumerals::wrapped_first, crate::proofs::ReadNumerals::wrapped_more, crate::proofs::ReadNumerals::wrapped_none, crate::proofs::ReadNumerals::wrapped_done, crate::proofs::ReadNumerals::leading_zero))]
fn numeral_wrapped(text: &[u8]) -> Option<u128>
    ensures { result ≡ option_map (λ (n : ℕ). n % 2 ^ 128) (numeral text.now) }
{
    if text.is_empty() || has_leading_zero(text) {
        return None;
    }
    let mut number = 0u128;
    for &byte in text {
        match digit(byte) {
            Some(digit) => number = number.wrapping_mul(10).wrapping_add(u128::from(digit)),
            None => return None,
        }
    }
    Some(number)
}

/// The number that a numeral writes, or 129 where that is larger: no bit-vector has so many bits.
#[tactic(auto, using(crate::proofs::ReadNumerals::small_first, crate::proofs::ReadNumerals::small_more, crate::proofs::ReadNumerals::small_none, crate::proofs::ReadNumerals::small_done, crate::proofs::ReadNumerals::leading_zero))]
pub fn small_numeral(text: &[u8]) -> Option<u32>
    ensures { result ≡ option_map (λ (n : ℕ). min n 129) (numeral text.now) }
{
    if text.is_empty() || has_leading_zero(text) {
        return None;
    }
    let mut number = 0u32;
    for &byte in text {
        match digit(byte) {
            Some(digit) => number = (number * 10 + u32::from(digit)).min(129),
            None => return None,
        }
    }
    Some(number)
}

/// The number of a literal `bvN`, modulo 2^128.
pub fn literal_number(name: &[u8]) -> Option<u128>
    ensures { result ≡ option_map (λ (n : ℕ). n % 2 ^ 128) (literal_number name.now) }
{
    match name.strip_prefix(b"bv") {
        Some(digits) => numeral_wrapped(digits),
        None => None,
    }
}
