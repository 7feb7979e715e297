//! Reading terms and ranges of bytes.

ghost use Rattle.std.specs.Prelude.{◌≡◌, ◌^◌, ◌∷◌, IfSome, Some as Just, option_map};
ghost use Rattle.std.specs.Fmt.{decimal};
ghost use Rattle.mc_text.specs.Tokens.{Atom};
ghost use Rattle.mc_text.specs.Scanning.{tokens_at};
ghost use Rattle.mc_text.specs.Reading.{one, atom_of, below};
ghost use Rattle.word_terms.specs.Tree.{word_tree, mem_tree, cond_tree, Var};
ghost use Rattle.mc_text.specs.Outcome.{Gives, last_line};
ghost use Rattle.mc_text.specs.Item.{ReadsItem};
ghost use Rattle.group_text.specs.TermLimits.{FitsCond, FitsMem, FitsWord, IsRange};
ghost use Rattle.group_text.specs.TermSpelling.{cond_tokens, mem_tokens, range_tokens, word_tokens};
ghost use Rattle.group_text.specs.TermReading.{variable_of, word_leaf_of, mem_leaf_of, word_head_of, cond_head_of, store_of, word_parts, mem_parts, cond_parts, word_at, mem_at, cond_at, range_at};

use crate::term_heads::{CondHead, WordHead, cond_head_of, store_of, word_head_of};
use mc_text::cursor::{accept, address, bytes, is_open, left, right};
use mc_text::{Scan, TokenError, dec, hexnum};
use rv_words::{Range, Width};
use std::alloc::Global;
use word_terms::{Cond, Mem, Word};

/// The number where it has at most 32 bits.
fn low_half(number: Option<u64>) -> Option<u32>
    ensures { result ≡ below (2 ^ 32) number }
{
    match number {
        Some(n) if n < 1 << 32 => Some(n as u32),
        _ => None,
    }
}

/// The number of a variable, after its letter.
pub fn variable_of(letter: u8, atom: &[u8]) -> Option<u32>
    ensures { result ≡ variable_of letter atom.now }
{
    match atom {
        [first, digits @ ..] if *first == letter => low_half(dec(digits)),
        _ => None,
    }
}

/// The variable or constant that an atom spells.
#[tactic(auto, unfolding(crate::specs::TermReading::word_leaf_of))]
fn word_leaf_of(atom: &[u8]) -> Option<Word>
    ensures { option_map word_tree result ≡ word_leaf_of atom.now }
{
    match variable_of(b'v', atom) {
        Some(i) => Some(Word::Var(i)),
        None => match hexnum(atom) {
            Some(n) => Some(Word::Const(n)),
            None => None,
        },
    }
}

/// The variable for a word that stands here, and a scanner after it. Where it says that there is
/// none, one may stand here all the same.
#[inline(always)]
#[tactic(auto, unfolding(crate::specs::TermReading::word_leaf_of))]
fn variable_ahead<'a>(scan: &Scan<'a>) -> Option<(u32, Scan<'a>)>
    ensures ahead { IfSome result (λ q.
        tokens_at scan.now ≡ Atom (118 ∷ decimal q.0) ∷ tokens_at q.1) }
    ensures leaf { IfSome result (λ q. word_leaf_of (118 ∷ decimal q.0) ≡ Just (Var q.0)) }
    ensures last { IfSome result (λ q. last_line q.1 ≡ last_line scan.now) }
{
    match scan.numbered_ahead(b'v') {
        Some((i, ahead)) => Some((i as u32, ahead)),
        None => None,
    }
}

/// The variable for a memory that an atom spells.
#[tactic(auto, unfolding(crate::specs::TermReading::mem_leaf_of))]
fn mem_leaf_of(atom: &[u8]) -> Option<Mem>
    ensures { option_map mem_tree result ≡ mem_leaf_of atom.now }
{
    match variable_of(b'm', atom) {
        Some(i) => Some(Mem::Var(i)),
        None => None,
    }
}

/// The name of a form of a word.
#[tactic(auto, unfolding(mc_text::specs::Reading::one), using(mc_text::proofs::AtomAhead::no_atom_of))]
fn word_name<'a>(scan: &mut Scan<'a>) -> Result<WordHead, TokenError>
    ensures gives { Gives (λ h. h) result scan.old scan.new (one (atom_of word_head_of)) }
    ensures last { last_line scan.new ≡ last_line scan.old }
{
    match scan.atom_ahead() {
        Some((name, ahead)) => accept(scan, ahead, word_head_of(name)),
        None => Err(TokenError::Bad),
    }
}

/// The name of a store, for its width.
#[tactic(auto, unfolding(mc_text::specs::Reading::one), using(mc_text::proofs::AtomAhead::no_atom_of))]
fn store_name<'a>(scan: &mut Scan<'a>) -> Result<Width, TokenError>
    ensures gives { Gives (λ h. h) result scan.old scan.new (one (atom_of store_of)) }
    ensures last { last_line scan.new ≡ last_line scan.old }
{
    match scan.atom_ahead() {
        Some((name, ahead)) => accept(scan, ahead, store_of(name)),
        None => Err(TokenError::Bad),
    }
}

/// The name of a form of a condition.
#[tactic(auto, unfolding(mc_text::specs::Reading::one), using(mc_text::proofs::AtomAhead::no_atom_of))]
fn cond_name<'a>(scan: &mut Scan<'a>) -> Result<CondHead, TokenError>
    ensures gives { Gives (λ h. h) result scan.old scan.new (one (atom_of cond_head_of)) }
    ensures last { last_line scan.new ≡ last_line scan.old }
{
    match scan.atom_ahead() {
        Some((name, ahead)) => accept(scan, ahead, cond_head_of(name)),
        None => Err(TokenError::Bad),
    }
}

/// A word of at most that depth, as its reading function gives it.
#[cycle(terms)]
#[tactic(auto, unfolding(crate::specs::TermReading::word_at, mc_text::specs::Reading::one), using(mc_text::proofs::AtomAhead::no_atom_of))]
fn word_within<'a>(alloc: Global, scan: &mut Scan<'a>, room: u32) -> Result<Word, TokenError>
    ensures gives { Gives word_tree result scan.old scan.new (word_at room) }
    ensures last { last_line scan.new ≡ last_line scan.old }
{
    if room == 0 {
        return Err(TokenError::Bad);
    }
    if let Some((i, ahead)) = variable_ahead(scan) {
        return accept(scan, ahead, Some(Word::Var(i)));
    }
    if let Some((atom, ahead)) = scan.atom_ahead() {
        return accept(scan, ahead, word_leaf_of(atom));
    }
    if !is_open(scan) {
        return Err(TokenError::Bad);
    }
    left(scan)?;
    let head = word_name(scan)?;
    word_parts(alloc, scan, room - 1, head)
}

/// What stands after the name of a form.
#[cycle(terms)]
fn word_parts<'a>(
    alloc: Global,
    scan: &mut Scan<'a>,
    room: u32,
    head: WordHead,
) -> Result<Word, TokenError>
    ensures gives { Gives word_tree result scan.old scan.new
        (word_parts (word_at room) (mem_at room) head) }
    ensures last { last_line scan.new ≡ last_line scan.old }
{
    match head {
        WordHead::Bin(op) => {
            let a = word_within(alloc, scan, room)?;
            let b = word_within(alloc, scan, room)?;
            right(scan)?;
            Ok(Word::Bin(op, Box::new(alloc, a)?, Box::new(alloc, b)?))
        }
        WordHead::Extend(ext) => {
            let a = word_within(alloc, scan, room)?;
            right(scan)?;
            Ok(Word::Extend(ext, Box::new(alloc, a)?))
        }
        WordHead::Load(width) => {
            let m = mem_within(alloc, scan, room)?;
            let a = word_within(alloc, scan, room)?;
            right(scan)?;
            Ok(Word::Load(width, Box::new(alloc, m)?, Box::new(alloc, a)?))
        }
    }
}

/// A memory of at most that depth, as its reading function gives it.
#[cycle(terms)]
#[tactic(auto, unfolding(crate::specs::TermReading::mem_at, mc_text::specs::Reading::one), using(mc_text::proofs::AtomAhead::no_atom_of))]
fn mem_within<'a>(alloc: Global, scan: &mut Scan<'a>, room: u32) -> Result<Mem, TokenError>
    ensures gives { Gives mem_tree result scan.old scan.new (mem_at room) }
    ensures last { last_line scan.new ≡ last_line scan.old }
{
    if room == 0 {
        return Err(TokenError::Bad);
    }
    if let Some((atom, ahead)) = scan.atom_ahead() {
        return accept(scan, ahead, mem_leaf_of(atom));
    }
    if !is_open(scan) {
        return Err(TokenError::Bad);
    }
    left(scan)?;
    let width = store_name(scan)?;
    mem_parts(alloc, scan, room - 1, width)
}

/// What stands after the name of a store.
#[cycle(terms)]
fn mem_parts<'a>(
    alloc: Global,
    scan: &mut Scan<'a>,
    room: u32,
    width: Width,
) -> Result<Mem, TokenError>
    ensures gives { Gives mem_tree result scan.old scan.new
        (mem_parts (word_at room) (mem_at room) width) }
    ensures last { last_line scan.new ≡ last_line scan.old }
{
    let m = mem_within(alloc, scan, room)?;
    let a = word_within(alloc, scan, room)?;
    let v = word_within(alloc, scan, room)?;
    right(scan)?;
    Ok(Mem::Store(
        width,
        Box::new(alloc, m)?,
        Box::new(alloc, a)?,
        Box::new(alloc, v)?,
    ))
}

/// A range of bytes, as its reading function gives it.
#[tactic(auto, unfolding(crate::specs::TermReading::range_at))]
fn range_within<'a>(alloc: Global, scan: &mut Scan<'a>) -> Result<Range, TokenError>
    ensures gives { Gives (λ r. r) result scan.old scan.new range_at }
    ensures last { last_line scan.new ≡ last_line scan.old }
{
    left(scan)?;
    let at = address(scan)?;
    let bytes = bytes(alloc, scan)?;
    right(scan)?;
    Ok(Range { at, bytes })
}

/// A condition of at most that depth, as its reading function gives it.
#[cycle(conds)]
#[tactic(auto, unfolding(crate::specs::TermReading::cond_at))]
fn cond_within<'a>(alloc: Global, scan: &mut Scan<'a>, room: u32) -> Result<Cond, TokenError>
    ensures gives { Gives cond_tree result scan.old scan.new (cond_at room) }
    ensures last { last_line scan.new ≡ last_line scan.old }
{
    if room == 0 {
        return Err(TokenError::Bad);
    }
    left(scan)?;
    let head = cond_name(scan)?;
    cond_parts(alloc, scan, room - 1, head)
}

/// What stands after the name of a form of a condition.
#[cycle(conds)]
fn cond_parts<'a>(
    alloc: Global,
    scan: &mut Scan<'a>,
    room: u32,
    head: CondHead,
) -> Result<Cond, TokenError>
    ensures gives { Gives cond_tree result scan.old scan.new
        (cond_parts (word_at room) (mem_at room) (cond_at room) head) }
    ensures last { last_line scan.new ≡ last_line scan.old }
{
    match head {
        CondHead::Compare(cmp) => {
            let a = word_within(alloc, scan, room)?;
            let b = word_within(alloc, scan, room)?;
            right(scan)?;
            Ok(Cond::Compare(cmp, Box::new(alloc, a)?, Box::new(alloc, b)?))
        }
        CondHead::Neg => {
            let c = cond_within(alloc, scan, room)?;
            right(scan)?;
            Ok(Cond::Neg(Box::new(alloc, c)?))
        }
        CondHead::Inside(width) => {
            let m = mem_within(alloc, scan, room)?;
            let a = word_within(alloc, scan, room)?;
            right(scan)?;
            Ok(Cond::Inside(width, Box::new(alloc, m)?, Box::new(alloc, a)?))
        }
    }
}

/// A word of at most that depth.
pub fn read_word<'a>(alloc: Global, scan: &mut Scan<'a>, room: u32) -> Result<Word, TokenError>
    ensures spelled { ReadsItem word_tree (FitsWord room) word_tokens result scan.old scan.new }
    ensures gives { Gives word_tree result scan.old scan.new (word_at room) }
    ensures last { last_line scan.new ≡ last_line scan.old }
{
    word_within(alloc, scan, room)
}

/// A memory of at most that depth.
pub fn read_mem<'a>(alloc: Global, scan: &mut Scan<'a>, room: u32) -> Result<Mem, TokenError>
    ensures spelled { ReadsItem mem_tree (FitsMem room) mem_tokens result scan.old scan.new }
    ensures gives { Gives mem_tree result scan.old scan.new (mem_at room) }
    ensures last { last_line scan.new ≡ last_line scan.old }
{
    mem_within(alloc, scan, room)
}

/// A condition of at most that depth.
pub fn read_cond<'a>(alloc: Global, scan: &mut Scan<'a>, room: u32) -> Result<Cond, TokenError>
    ensures spelled { ReadsItem cond_tree (FitsCond room) cond_tokens result scan.old scan.new }
    ensures gives { Gives cond_tree result scan.old scan.new (cond_at room) }
    ensures last { last_line scan.new ≡ last_line scan.old }
{
    cond_within(alloc, scan, room)
}

/// A range of bytes.
pub fn read_range<'a>(alloc: Global, scan: &mut Scan<'a>) -> Result<Range, TokenError>
    ensures spelled { ReadsItem (λ r. r) IsRange range_tokens result scan.old scan.new }
    ensures gives { Gives (λ r. r) result scan.old scan.new range_at }
    ensures last { last_line scan.new ≡ last_line scan.old }
{
    range_within(alloc, scan)
}
