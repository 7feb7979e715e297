//! Numbers that an atom spells.

ghost use Rattle.std.specs.Prelude.{◌≡◌, ◌≤◌, ◌<◌, ◌^◌, MatchOption, true, false, length, take, drop, codes};
ghost use Rattle.std.specs.List.{AllPass};
ghost use Rattle.std.specs.Str.Parse.{digits_value};
ghost use Rattle.std.specs.Char.{digit_value};
ghost use Rattle.std.specs.Str.{bytes_eq};
ghost use Rattle.std.specs.Fmt.{decimal};
ghost use Rattle.mc_text.specs.Number.{hex, IsNumber, Spelled, number_of, hex_of};
ghost use Rattle.mc_text.specs.inner.Number.{base_number, is_digit_of, is_padded, ReadsDigits};

/// The bases in which numbers are written.
#[derive(Clone, Copy, PartialEq, Eq)]
pub enum Base {
    Decimal,
    Hexadecimal,
}

impl Base {
    fn radix(self) -> u64
        ensures { result ≡ base_number self }
    {
        match self {
            Base::Decimal => 10,
            Base::Hexadecimal => 16,
        }
    }
}

/// The number that an atom spells in decimal digits, without a leading zero.
pub fn dec(atom: &[u8]) -> Option<u64>
    ensures spelled { Spelled IsNumber decimal atom.now result }
    ensures read { result ≡ number_of 10 atom.now }
{
    number_of(Base::Decimal, atom)
}

/// The number that an atom spells by `0x` and lower-case hexadecimal digits, without a leading
/// zero.
#[tactic(auto, unfolding(crate::specs::Number::hex_of))]
pub fn hexnum(atom: &[u8]) -> Option<u64>
    ensures spelled { Spelled IsNumber hex atom.now result }
    ensures read { result ≡ hex_of atom.now }
{
    match hex_part(atom) {
        None => None,
        Some(digits) => number_of(Base::Hexadecimal, digits),
    }
}

/// What stands after `0x`.
fn hex_part(atom: &[u8]) -> Option<&[u8]>
    ensures { MatchOption result (bytes_eq (take 2 atom.now) (codes "0x") ≡ false)
        (λ rest. (bytes_eq (take 2 atom.now) (codes "0x") ≡ true) × (rest.now ≡ drop 2 atom.now)) }
{
    atom.strip_prefix(b"0x".as_slice())
}

/// The number that digits of that base spell.
fn number_of(base: Base, digits: &[u8]) -> Option<u64>
    ensures { result ≡ number_of (base_number base) digits.now }
{
    if digits.is_empty() || is_padded(digits) {
        return None;
    }
    value_of(base, digits)
}

/// Whether a zero stands in front of another digit.
#[inline(always)]
pub(crate) fn is_padded(digits: &[u8]) -> bool
    ensures { result ≡ is_padded digits.now }
{
    digits.len() > 1 && digits[0] == b'0'
}

/// The number that digits of that base write, also with zeros in front.
fn value_of(base: Base, digits: &[u8]) -> Option<u64>
    ensures { ReadsDigits (base_number base) digits.now result }
{
    let mut value: u64 = 0;
    'digits: for byte in digits {
        let digit = digit_of(base, *byte)?;
        value = value.checked_mul(base.radix())?.checked_add(digit)?;
    }
    Some(value)
}

/// How many of the bytes at the beginning are decimal digits, and the number that they write, also
/// with zeros in front. From 400,000,000 on no further digit is looked at.
#[inline(always)]
pub(crate) fn small_digits(bytes: &[u8]) -> (usize, u64)
    ensures within { result.0 ≤ length bytes.now }
    ensures digits { AllPass (is_digit_of 10) (take result.0 bytes.now) }
    ensures value { result.1 ≡ digits_value 10 (take result.0 bytes.now) }
    ensures small { result.1 < 2 ^ 32 }
{
    let mut value: u64 = 0;
    'digits: for (i, byte) in bytes.iter().enumerate() {
        match digit_of(Base::Decimal, *byte) {
            Some(digit) if value < 400_000_000 => value = value * 10 + digit,
            _ => return (i, value),
        }
    }
    (bytes.len(), value)
}

/// The value of a digit of that base, of which letters are in lower case.
#[inline(always)]
fn digit_of(base: Base, byte: u8) -> Option<u64>
    ensures { MatchOption result (is_digit_of (base_number base) byte ≡ false)
        (λ digit. (is_digit_of (base_number base) byte ≡ true) × (digit ≡ digit_value byte)) }
{
    match byte {
        b'0'..=b'9' => Some(u64::from(byte - b'0')),
        b'a'..=b'f' if matches!(base, Base::Hexadecimal) => Some(u64::from(byte - b'a') + 10),
        _ => None,
    }
}
