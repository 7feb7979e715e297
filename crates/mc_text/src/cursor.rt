//! Reading single tokens.

ghost use Rattle.std.specs.Prelude.{◌≡◌, ◌<◌, IfSome, IfOk, OnOk};
ghost use Rattle.mc_text.specs.declared.token.Before.TheVariants.{Start};
ghost use Rattle.mc_text.specs.Tokens.{tok, before_next};
ghost use Rattle.mc_text.specs.Scanning.{tokens_at};
ghost use Rattle.mc_text.specs.Reading.{one, is_left, is_right, below, goes_on, address_at, bytes_at, is_open};
ghost use Rattle.mc_text.specs.inner.Reading.{is_semi, is_eol, is_atom, is_word, number_at};
ghost use Rattle.mc_text.specs.Outcome.{Gives, last_line};
ghost use Rattle.mc_text.specs.inner.Outcome.{IsAhead, Accepts};
ghost use Rattle.mc_text.specs.declared.cursor.TokenError.TheVariants.{NoMemory};

use crate::bytes::hex_bytes;
use crate::number::{dec, hexnum};
use crate::scan::Scan;
use crate::token::Token;
use rv_words::{Bytes, NoMemory as OutOfMemory};
use std::alloc::{AllocError, AllocFailed, Global};

/// Why reading stopped.
#[derive(Clone, Copy, Debug, PartialEq, Eq)]
pub enum TokenError {
    /// The next token fits nothing.
    Bad,
    NoMemory,
}

impl From<OutOfMemory> for TokenError {
    ghost from_gives = { λ _ e. e ≡ NoMemory };

    fn from(_e: OutOfMemory) -> TokenError {
        TokenError::NoMemory
    }
}

impl From<AllocError> for TokenError {
    ghost from_gives = { λ _ e. e ≡ NoMemory };

    fn from(_e: AllocError) -> TokenError {
        TokenError::NoMemory
    }
}

impl<T: Drop> From<AllocFailed<T>> for TokenError {
    ghost from_gives = { λ _ e. e ≡ NoMemory };

    fn from(_e: AllocFailed<T>) -> TokenError {
        TokenError::NoMemory
    }
}

/// The next token, and a scanner after it; none where no token begins.
#[inline(always)]
#[tactic(auto, using(crate::proofs::Ahead::ahead_is, crate::proofs::Ahead::ahead_last))]
pub fn peek<'a>(scan: &Scan<'a>) -> Option<(Token<'a>, Scan<'a>)>
    ensures ahead { IsAhead result scan.now }
    ensures before { IfSome result (λ q. q.1.before ≡ before_next (tok q.0)) }
    ensures last { IfSome result (λ q. last_line q.1 ≡ last_line scan.now) }
{
    let mut ahead = scan.fork();
    match ahead.next() {
        Ok(token) => Some((token, ahead)),
        Err(_) => None,
    }
}

/// Stands after the token where it gave something. Else it is bad.
pub fn accept<'a, T>(
    scan: &mut Scan<'a>,
    ahead: Scan<'a>,
    found: Option<T>,
) -> Result<T, TokenError>
    ensures { Accepts found result scan.old ahead.entry scan.new }
{
    match found {
        Some(item) => {
            *scan = ahead;
            Ok(item)
        }
        None => Err(TokenError::Bad),
    }
}

/// Passes over a left parenthesis.
pub fn left<'a>(scan: &mut Scan<'a>) -> Result<(), TokenError>
    ensures gives { Gives (λ _. tt) result scan.old scan.new (one is_left) }
    ensures last { last_line scan.new ≡ last_line scan.old }
{
    if scan.pass_left() {
        Ok(())
    } else {
        Err(TokenError::Bad)
    }
}

/// Passes over a right parenthesis.
pub fn right<'a>(scan: &mut Scan<'a>) -> Result<(), TokenError>
    ensures gives { Gives (λ _. tt) result scan.old scan.new (one is_right) }
    ensures last { last_line scan.new ≡ last_line scan.old }
{
    if scan.pass_right() {
        Ok(())
    } else {
        Err(TokenError::Bad)
    }
}

/// Passes over a semicolon.
#[tactic(auto, unfolding(crate::specs::Reading::one))]
pub fn semi<'a>(scan: &mut Scan<'a>) -> Result<(), TokenError>
    ensures gives { Gives (λ _. tt) result scan.old scan.new (one is_semi) }
    ensures last { last_line scan.new ≡ last_line scan.old }
{
    match peek(scan) {
        Some((Token::Semi, ahead)) => accept(scan, ahead, Some(())),
        _ => Err(TokenError::Bad),
    }
}

/// Passes over the end of a line.
#[tactic(auto, unfolding(crate::specs::Reading::one))]
pub fn eol<'a>(scan: &mut Scan<'a>) -> Result<(), TokenError>
    ensures gives { Gives (λ _. tt) result scan.old scan.new (one is_eol) }
    ensures last { last_line scan.new ≡ last_line scan.old }
    ensures start { OnOk result (scan.new.before ≡ Start) }
{
    match peek(scan) {
        Some((Token::Eol, ahead)) => accept(scan, ahead, Some(())),
        _ => Err(TokenError::Bad),
    }
}

/// An atom, whatever it spells.
#[tactic(auto, unfolding(crate::specs::Reading::one), using(crate::proofs::AtomAhead::no_atom))]
pub fn atom<'a>(scan: &mut Scan<'a>) -> Result<&'a [u8], TokenError>
    ensures gives { Gives (λ a. a.now) result scan.old scan.new (one is_atom) }
    ensures last { last_line scan.new ≡ last_line scan.old }
{
    match scan.atom_ahead() {
        Some((atom, ahead)) => accept(scan, ahead, Some(atom)),
        None => Err(TokenError::Bad),
    }
}

/// Passes over this word.
#[tactic(auto, unfolding(crate::specs::Reading::one), using(crate::proofs::AtomAhead::no_word))]
pub fn keyword<'a>(scan: &mut Scan<'a>, text: &[u8]) -> Result<(), TokenError>
    ensures gives { Gives (λ _. tt) result scan.old scan.new (one (is_word text.now)) }
    ensures last { last_line scan.new ≡ last_line scan.old }
{
    match scan.atom_ahead() {
        Some((atom, ahead)) if atom == text => accept(scan, ahead, Some(())),
        _ => Err(TokenError::Bad),
    }
}

/// A decimal number below the limit.
#[tactic(auto, unfolding(crate::specs::Reading::one), using(crate::proofs::AtomAhead::no_atom_of))]
pub fn number<'a>(scan: &mut Scan<'a>, limit: u64) -> Result<u64, TokenError>
    ensures gives { Gives (λ n. n) result scan.old scan.new (number_at limit) }
    ensures small { IfOk result (λ n. n < limit) }
    ensures last { last_line scan.new ≡ last_line scan.old }
{
    if let Some((n, ahead)) = scan.number_ahead() {
        return accept(scan, ahead, below(limit, Some(n)));
    }
    match scan.atom_ahead() {
        Some((atom, ahead)) => accept(scan, ahead, below(limit, dec(atom))),
        None => Err(TokenError::Bad),
    }
}

/// The number where it is below the limit.
#[inline(always)]
fn below(limit: u64, number: Option<u64>) -> Option<u64>
    ensures below { result ≡ below limit number }
    ensures small { IfSome result (λ n. n < limit) }
{
    match number {
        Some(n) if n < limit => Some(n),
        _ => None,
    }
}

/// An address, in hexadecimal digits.
#[tactic(auto, unfolding(crate::specs::Reading::one), using(crate::proofs::AtomAhead::no_atom_of))]
pub fn address<'a>(scan: &mut Scan<'a>) -> Result<u64, TokenError>
    ensures gives { Gives (λ n. n) result scan.old scan.new address_at }
    ensures last { last_line scan.new ≡ last_line scan.old }
{
    match scan.atom_ahead() {
        Some((atom, ahead)) => accept(scan, ahead, hexnum(atom)),
        None => Err(TokenError::Bad),
    }
}

/// One byte or more, in two hexadecimal digits each.
#[tactic(auto, unfolding(crate::specs::Reading::one), using(crate::proofs::AtomAhead::no_atom_of))]
pub fn bytes<'a>(alloc: Global, scan: &mut Scan<'a>) -> Result<Bytes, TokenError>
    ensures gives { Gives (λ bytes. bytes) result scan.old scan.new bytes_at }
    ensures last { last_line scan.new ≡ last_line scan.old }
{
    match scan.atom_ahead() {
        Some((atom, ahead)) => accept(scan, ahead, hex_bytes(alloc, atom)?),
        None => Err(TokenError::Bad),
    }
}

/// Whether a left parenthesis follows.
pub fn is_open(scan: &Scan<'_>) -> bool
    ensures { result ≡ goes_on is_open (tokens_at scan.now) }
{
    scan.is_at_left()
}
