//! The tokens of a text, one by one.

ghost use Rattle.std.specs.Prelude.{◌≡◌, ◌∷◌, ◌≤◌, ◌<◌, ◌^◌, ℕ, List, length, slice_index, IfOk, IfErr, OnErr, IfSome, IfNone, Some as Just, ◌++◌, [], true, false, IsTrue, ◌↔◌};
ghost use Rattle.std.specs.List.{AllPass};
ghost use Rattle.std.specs.Fmt.{decimal};
ghost use Rattle.mc_text.specs.Tokens.{is_atom_byte, IsAtom, Tok, Left, Right, Atom, before_next, Done, tok, gap, token_bytes, token_text, eol, HasNoAtomByte, Position, Passes, Stands};
ghost use Rattle.mc_text.specs.Scanning.{lex, At, Within, or_stuck, loose, class_of, tokens_at, Scanned};
ghost use Rattle.mc_text.specs.Reading.{begins_atom, goes_on, is_open};
ghost use Rattle.mc_text.specs.Number.{number_of};
ghost use Rattle.mc_text.specs.Outcome.{last_line};
ghost use Rattle.mc_text.specs.inner.Scanning.{state_of, Found, IsWhole, IsSettled, IsInside, space_text};
ghost use Rattle.mc_text.specs.declared.token.Before.TheVariants.{Start, Later};

use crate::number::{is_padded, small_digits};
use crate::token::{BadText, Before, Class, Token};
use std::marker::Model;

/// Goes over the tokens of a text.
#[derive(Debug, Drop)]
pub struct Scan<'a> {
    rest: &'a [u8],
    before: Before,
    line: u64,
}

impl<'a> Model for Scan<'a> {
    ghost use Rattle.std.specs.Prelude.{◌+◌, ◌≤◌, ◌^◌, length};
    ghost use Rattle.mc_text.specs.Tokens.{Position};

    ghost Value = { Position };

    ghost view = { λ s. record { before = s.before; rest = s.rest.now; line = s.line } };

    ghost invariant = { λ s. s.line + length s.rest.now ≤ 2 ^ 63 };
}

impl<'a> Scan<'a> {
    /// Stands at the first byte.
    pub fn new(text: &'a [u8]) -> Scan<'a>
        ensures { result ≡ record { before = Start; rest = text.now; line = 1 } }
    {
        Scan {
            rest: text,
            before: Before::Start,
            line: 1,
        }
    }

    /// The next token. The end of the text is met again and again.
    #[inline(always)]
    pub fn next(&mut self) -> Result<Token<'a>, BadText>
        ensures ok { IfOk result (λ t. Passes (tok t) self.old self.new) }
        ensures none { OnErr result ((t : Tok) (rest : List ℕ)
            → Stands self.old.before self.old.rest t rest
            → ⊥) }
        ensures line { IfErr result (λ e. e.line ≡ self.old.line) }
        ensures same { OnErr result (self.new ≡ self.old) }
        ensures tokens { Scanned result self.old self.new }
    {
        if begins_line(self.before) && self.rest.is_empty() {
            return Ok(Token::Done);
        }
        let (bytes, spaced) = skip_space(self.rest, self.before);
        match token_at(bytes, self.before, spaced) {
            None => Err(BadText { line: self.line }),
            Some((token, rest)) => {
                self.rest = rest;
                self.before = before_next(token);
                self.line += ends_line(token);
                Ok(token)
            }
        }
    }

    /// Passes over a left parenthesis, if one stands here.
    #[inline(always)]
    pub(crate) fn pass_left(&mut self) -> bool
        ensures passes { IsTrue result → Passes Left self.old self.new }
        ensures none { result ≡ false
            → (rest : List ℕ)
            → Stands self.old.before self.old.rest Left rest
            → ⊥ }
        ensures same { result ≡ false → self.new ≡ self.old }
    {
        match behind_left(self.rest, self.before) {
            Some(rest) => {
                self.rest = rest;
                self.before = Before::Open;
                true
            }
            None => false,
        }
    }

    /// Passes over a right parenthesis, if one stands here.
    #[inline(always)]
    pub(crate) fn pass_right(&mut self) -> bool
        ensures passes { IsTrue result → Passes Right self.old self.new }
        ensures none { result ≡ false
            → (rest : List ℕ)
            → Stands self.old.before self.old.rest Right rest
            → ⊥ }
        ensures same { result ≡ false → self.new ≡ self.old }
    {
        match behind_right(self.rest) {
            Some(rest) => {
                self.rest = rest;
                self.before = Before::Later;
                true
            }
            None => false,
        }
    }

    /// Whether a left parenthesis stands here.
    #[inline(always)]
    pub(crate) fn is_at_left(&self) -> bool
        ensures { result ≡ goes_on is_open (tokens_at self.now) }
    {
        behind_left(self.rest, self.before).is_some()
    }

    /// The atom that stands here, and a scanner after it.
    #[inline(always)]
    pub fn atom_ahead(&self) -> Option<(&'a [u8], Scan<'a>)>
        ensures ahead { IfSome result (λ q. tokens_at self.now ≡ Atom q.0.now ∷ tokens_at q.1) }
        ensures passes { IfSome result (λ q. Passes (Atom q.0.now) self.now q.1) }
        ensures last { IfSome result (λ q. last_line q.1 ≡ last_line self.now) }
        ensures none { IfNone result (goes_on begins_atom (tokens_at self.now) ≡ false) }
    {
        match behind_gap(self.rest, self.before) {
            None => None,
            Some(bytes) => {
                let (atom, rest) = atom_at(bytes);
                if atom.is_empty() {
                    return None;
                }
                let ahead = Scan {
                    rest,
                    before: Before::Later,
                    line: self.line,
                };
                Some((atom, ahead))
            }
        }
    }

    /// The decimal number below 2^32 that stands here, and a scanner after it. Where it says that
    /// there is none, one may stand here all the same.
    #[inline(always)]
    pub(crate) fn number_ahead(&self) -> Option<(u64, Scan<'a>)>
        ensures passes { IfSome result (λ q. Passes (Atom (decimal q.0)) self.now q.1) }
        ensures number { IfSome result (λ q. number_of 10 (decimal q.0) ≡ Just q.0) }
        ensures ahead { IfSome result (λ q.
            tokens_at self.now ≡ Atom (decimal q.0) ∷ tokens_at q.1) }
        ensures small { IfSome result (λ q. q.0 < 2 ^ 32) }
        ensures last { IfSome result (λ q. last_line q.1 ≡ last_line self.now) }
    {
        let bytes = behind_gap(self.rest, self.before)?;
        let (number, rest) = digits_at(bytes)?;
        let ahead = Scan {
            rest,
            before: Before::Later,
            line: self.line,
        };
        Some((number, ahead))
    }

    /// The decimal number below 2^32 behind a letter that stands here, and a scanner after it.
    /// Where it says that there is none, one may stand here all the same.
    #[inline(always)]
    pub fn numbered_ahead(&self, letter: u8) -> Option<(u64, Scan<'a>)>
        requires { is_atom_byte letter ≡ true }
        ensures passes { IfSome result (λ q. Passes (Atom (letter ∷ decimal q.0)) self.now q.1) }
        ensures number { IfSome result (λ q. number_of 10 (decimal q.0) ≡ Just q.0) }
        ensures ahead { IfSome result (λ q.
            tokens_at self.now ≡ Atom (letter ∷ decimal q.0) ∷ tokens_at q.1) }
        ensures small { IfSome result (λ q. q.0 < 2 ^ 32) }
        ensures last { IfSome result (λ q. last_line q.1 ≡ last_line self.now) }
    {
        let bytes = behind_gap(self.rest, self.before)?;
        let (number, rest) = numbered_at(bytes, letter)?;
        let ahead = Scan {
            rest,
            before: Before::Later,
            line: self.line,
        };
        Some((number, ahead))
    }

    /// Another scanner at the same place.
    pub fn fork(&self) -> Scan<'a>
        ensures { result ≡ self.now }
    {
        Scan {
            rest: self.rest,
            before: self.before,
            line: self.line,
        }
    }

    /// The bytes after the place.
    pub fn rest(&self) -> &'a [u8]
        ensures { result.now ≡ self.now.rest }
    {
        self.rest
    }

    /// The line of the place, from 1.
    pub fn line(&self) -> u64
        ensures { result ≡ self.now.line }
    {
        self.line
    }
}

/// Whether a line begins at a place.
#[inline(always)]
fn begins_line(before: Before) -> bool
    ensures { IsTrue result ↔ (before ≡ Start) }
{
    matches!(before, Before::Start)
}

/// The bytes after a left parenthesis, and after the space before it where one belongs.
#[inline(always)]
fn behind_left(bytes: &[u8], before: Before) -> Option<&[u8]>
    ensures parts { IfSome result (λ rest. bytes.now ≡ token_text before Left ++ rest.now) }
    ensures shorter { IfSome result (λ rest. length rest.now ≤ length bytes.now) }
    ensures none { IfNone result ((rest : List ℕ)
        → bytes.now ≡ token_text before Left ++ rest
        → ⊥) }
{
    match before {
        Before::Later => match bytes {
            [b' ', b'(', rest @ ..] => Some(rest),
            _ => None,
        },
        _ => match bytes {
            [b'(', rest @ ..] => Some(rest),
            _ => None,
        },
    }
}

/// The bytes after a right parenthesis.
#[inline(always)]
fn behind_right(bytes: &[u8]) -> Option<&[u8]>
    ensures parts { IfSome result (λ rest. bytes.now ≡ token_bytes Right ++ rest.now) }
    ensures shorter { IfSome result (λ rest. length rest.now ≤ length bytes.now) }
    ensures none { IfNone result ((rest : List ℕ) → bytes.now ≡ token_bytes Right ++ rest → ⊥) }
{
    match bytes {
        [b')', rest @ ..] => Some(rest),
        _ => None,
    }
}

/// The bytes after the space that belongs before an atom.
#[inline(always)]
fn behind_gap(bytes: &[u8], before: Before) -> Option<&[u8]>
    ensures parts { IfSome result (λ rest. bytes.now ≡ gap before (Atom []) ++ rest.now) }
    ensures shorter { IfSome result (λ rest. length rest.now ≤ length bytes.now) }
    ensures none { IfNone result ((rest : List ℕ) → bytes.now ≡ gap before (Atom []) ++ rest → ⊥) }
{
    match before {
        Before::Later => match bytes {
            [b' ', rest @ ..] => Some(rest),
            _ => None,
        },
        _ => Some(bytes),
    }
}

/// The place after the space between two tokens, if one stands here.
#[inline(always)]
fn skip_space(bytes: &[u8], before: Before) -> (&[u8], bool)
    requires { IsInside bytes.now (At before) }
    ensures shorter { length result.0.now ≤ length bytes.now }
    ensures parts { bytes.now ≡ space_text result.1 ++ result.0.now }
    ensures spaced { result.1 ≡ true → before ≡ Later }
    ensures same { lex result.0.now (state_of before result.1) ≡ lex bytes.now (At before) }
    ensures settled { IsSettled result.0.now (state_of before result.1) }
{
    match before {
        Before::Later => match bytes {
            [first, rest @ ..] if *first == b' ' => (rest, true),
            _ => (bytes, false),
        },
        _ => (bytes, false),
    }
}

/// The token at a place that isn't the space after another token, and the bytes after it.
#[inline(always)]
fn token_at<'a>(bytes: &'a [u8], before: Before, spaced: bool) -> Option<(Token<'a>, &'a [u8])>
    requires { IsSettled bytes.now (state_of before spaced) }
    ensures found { Found (λ r. r.now) result (lex bytes.now (state_of before spaced)) }
    ensures parts { IfSome result (λ p. bytes.now ≡ token_bytes (tok p.0) ++ p.1.now) }
    ensures whole { IfSome result (λ p. IsWhole (tok p.0) p.1.now) }
    ensures shorter { IfSome result (λ p. length p.1.now < length bytes.now) }
{
    match bytes {
        [] => None,
        [first, rest @ ..] => match class(*first) {
            Class::LeftMark => if_some(is_loose(before, spaced), Token::Left, rest),
            Class::RightMark => if_some(!spaced, Token::Right, rest),
            Class::SemiMark => if_some(is_loose(before, spaced), Token::Semi, rest),
            Class::Newline => if_some(!spaced, Token::Eol, rest),
            Class::Letter => {
                if is_loose(before, spaced) {
                    let (atom, rest) = atom_at(bytes);
                    Some((Token::Atom(atom), rest))
                } else {
                    None
                }
            }
            Class::Space => None,
            Class::Other => None,
        },
    }
}

#[inline(always)]
fn class(byte: u8) -> Class
    ensures { result ≡ class_of byte }
{
    match byte {
        b'(' => Class::LeftMark,
        b')' => Class::RightMark,
        b';' => Class::SemiMark,
        b'\n' => Class::Newline,
        b' ' => Class::Space,
        33..=126 => Class::Letter,
        _ => Class::Other,
    }
}

/// Whether a token that wants a space before it may stand there.
#[inline(always)]
fn is_loose(before: Before, spaced: bool) -> bool
    ensures { result ≡ loose (state_of before spaced) }
{
    spaced || before != Before::Later
}

#[inline(always)]
fn if_some<'a>(fits: bool, token: Token<'a>, rest: &'a [u8]) -> Option<(Token<'a>, &'a [u8])>
    requires { tok token ≡ Done → ⊥ }
    ensures same { IfSome result (λ p. p ≡ (token.entry, rest.entry)) }
    ensures found { Found (λ r. r.now) result (or_stuck fits (tok token.entry
        ∷ lex rest.now (At (before_next (tok token.entry))))) }
{
    if fits { Some((token, rest)) } else { None }
}

/// The atom at the beginning, and the bytes after it.
#[inline(always)]
fn atom_at(bytes: &[u8]) -> (&[u8], &[u8])
    ensures atom { lex bytes.now Within ≡ Atom result.0.now ∷ lex result.1.now (At Later) }
    ensures parts { result.0.now ++ result.1.now ≡ bytes.now }
    ensures fits { AllPass is_atom_byte result.0.now }
    ensures whole { HasNoAtomByte result.1.now }
    ensures some { 0 < length bytes.now
        → IsTrue (is_atom_byte (slice_index bytes.now 0))
        → 0 < length result.0.now }
{
    bytes.split_at(atom_len(bytes))
}

/// How many bytes at the beginning are part of an atom.
fn atom_len(bytes: &[u8]) -> usize
    ensures within { result ≤ length bytes.now }
    ensures before { (k : ℕ) → k < result → is_atom_byte (slice_index bytes.now k) ≡ true }
    ensures end { result < length bytes.now → is_atom_byte (slice_index bytes.now result) ≡ false }
{
    for (i, byte) in bytes.iter().enumerate() {
        if !is_atom_byte(*byte) {
            return i;
        }
    }
    bytes.len()
}

/// The decimal number below 2^32 at the beginning, and the bytes after it, if no atom goes on
/// there. It may leave out a large one.
#[inline(always)]
fn digits_at(bytes: &[u8]) -> Option<(u64, &[u8])>
    ensures parts { IfSome result (λ p. decimal p.0 ++ p.1.now ≡ bytes.now) }
    ensures small { IfSome result (λ p. p.0 < 2 ^ 32) }
    ensures whole { IfSome result (λ p. HasNoAtomByte p.1.now) }
{
    let (count, number) = small_digits(bytes);
    let (digits, rest) = bytes.split_at(count);
    if digits.is_empty() || is_padded(digits) || begins_atom(rest) {
        return None;
    }
    Some((number, rest))
}

/// A letter and the decimal number below 2^32 behind it, likewise.
#[inline(always)]
fn numbered_at(bytes: &[u8], letter: u8) -> Option<(u64, &[u8])>
    ensures parts { IfSome result (λ p. (letter ∷ decimal p.0) ++ p.1.now ≡ bytes.now) }
    ensures small { IfSome result (λ p. p.0 < 2 ^ 32) }
    ensures whole { IfSome result (λ p. HasNoAtomByte p.1.now) }
{
    match bytes {
        [first, digits @ ..] if *first == letter => digits_at(digits),
        _ => None,
    }
}

/// Whether the first byte is part of an atom.
#[inline(always)]
fn begins_atom(bytes: &[u8]) -> bool
    ensures { result ≡ false → HasNoAtomByte bytes.now }
{
    match bytes {
        [first, ..] => is_atom_byte(*first),
        _ => false,
    }
}

/// Whether the bytes are those of an atom.
pub fn is_atom(bytes: &[u8]) -> bool
    ensures { IsTrue result ↔ IsAtom bytes.now }
{
    !bytes.is_empty() && are_atom_bytes(bytes)
}

fn are_atom_bytes(bytes: &[u8]) -> bool
    ensures { IsTrue result ↔ AllPass is_atom_byte bytes.now }
{
    bytes.iter().all(|byte| is_atom_byte(*byte))
}

/// Whether an atom may have this byte.
pub fn is_atom_byte(byte: u8) -> bool
    ensures { result ≡ is_atom_byte byte }
{
    33 <= byte && byte <= 126 && byte != b'(' && byte != b')' && byte != b';'
}

/// What stands before the place after a token.
#[inline(always)]
fn before_next(token: Token<'_>) -> Before
    ensures { result ≡ before_next (tok token.entry) }
{
    match token {
        Token::Left => Before::Open,
        Token::Eol => Before::Start,
        Token::Done => Before::Start,
        Token::Right => Before::Later,
        Token::Semi => Before::Later,
        Token::Atom(_) => Before::Later,
    }
}

/// How many lines end with a token.
#[inline(always)]
fn ends_line(token: Token<'_>) -> u64
    ensures count { result ≡ eol (tok token.entry) }
    ensures one { result ≤ 1 }
{
    match token {
        Token::Eol => 1,
        _ => 0,
    }
}
