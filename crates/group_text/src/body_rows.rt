//! Reading the rows of bodies, each by itself.

ghost use Rattle.std.specs.Prelude.{◌≡◌, ◌^◌};
ghost use Rattle.mc_text.specs.Reading.{goes_on, pair};
ghost use Rattle.mc_text.specs.inner.Reading.{eol, number_at};
ghost use Rattle.mc_text.specs.Scanning.{tokens_at};
ghost use Rattle.mc_text.specs.Outcome.{Gives, last_line};
ghost use Rattle.word_terms.specs.Tree.{cond_tree, mem_tree, word_tree};
ghost use Rattle.group_text.specs.TermLimits.{depth_limit};
ghost use Rattle.group_text.specs.TermReading.{cond_at, mem_at, word_at};
ghost use Rattle.tailrec_lang.specs.Tree.{step_tree, values_tree};
ghost use Rattle.group_text.specs.inner.Reading.{arm_bound, is_step, mark_row, step_at, values_at};
ghost use Rattle.group_text.specs.inner.BodyRows.{call_of, end_row, end_row_tree, leave_by};

use crate::heads::EXIT_LIMIT;
use crate::read_terms::{read_cond, read_mem, read_word};
use crate::term_lists::{read_mems, read_words};
use mc_text::cursor::{eol, keyword, number, peek, semi};
use mc_text::{Scan, Token, TokenError};
use std::alloc::Global;
use tailrec_lang::{Step, Values};
use word_terms::{Cond, DEPTH_LIMIT, Mem, Word};

/// A line that is one word.
pub fn read_mark<'a>(scan: &mut Scan<'a>, name: &[u8]) -> Result<(), TokenError>
    ensures gives { Gives (λ _. (tt, tt)) result scan.old scan.new (mark_row name.now) }
    ensures last { last_line scan.new ≡ last_line scan.old }
{
    keyword(scan, name)?;
    eol(scan)?;
    Ok(())
}

/// Words and memories, with the end of their line.
#[tactic(auto, unfolding(crate::specs::inner::Reading::values_at))]
pub fn read_values<'a>(alloc: Global, scan: &mut Scan<'a>) -> Result<Values, TokenError>
    ensures gives { Gives values_tree result scan.old scan.new values_at }
    ensures last { last_line scan.new ≡ last_line scan.old }
{
    let words = read_words(alloc, scan)?;
    semi(scan)?;
    let mems = read_mems(alloc, scan)?;
    eol(scan)?;
    Ok(Values { words, mems })
}

/// A word and the end of its line.
fn word_row<'a>(alloc: Global, scan: &mut Scan<'a>) -> Result<Word, TokenError>
    ensures gives { Gives (λ t. (word_tree t, tt)) result scan.old scan.new
        (pair (word_at depth_limit) eol) }
    ensures last { last_line scan.new ≡ last_line scan.old }
{
    let word = read_word(alloc, scan, DEPTH_LIMIT)?;
    eol(scan)?;
    Ok(word)
}

/// A memory and the end of its line.
fn mem_row<'a>(alloc: Global, scan: &mut Scan<'a>) -> Result<Mem, TokenError>
    ensures gives { Gives (λ m. (mem_tree m, tt)) result scan.old scan.new
        (pair (mem_at depth_limit) eol) }
    ensures last { last_line scan.new ≡ last_line scan.old }
{
    let mem = read_mem(alloc, scan, DEPTH_LIMIT)?;
    eol(scan)?;
    Ok(mem)
}

/// A condition and the end of its line.
pub fn cond_row<'a>(alloc: Global, scan: &mut Scan<'a>) -> Result<Cond, TokenError>
    ensures gives { Gives (λ c. (cond_tree c, tt)) result scan.old scan.new
        (pair (cond_at depth_limit) eol) }
    ensures last { last_line scan.new ≡ last_line scan.old }
{
    let cond = read_cond(alloc, scan, DEPTH_LIMIT)?;
    eol(scan)?;
    Ok(cond)
}

/// A step's line.
#[tactic(auto, unfolding(crate::specs::inner::Reading::step_at))]
pub fn read_step<'a>(alloc: Global, scan: &mut Scan<'a>) -> Result<Step, TokenError>
    ensures gives { Gives step_tree result scan.old scan.new step_at }
    ensures last { last_line scan.new ≡ last_line scan.old }
{
    match peek(scan) {
        Some((Token::Atom(name), ahead)) => {
            if name == b"let".as_slice() {
                *scan = ahead;
                Ok(Step::Bind(word_row(alloc, scan)?))
            } else if name == b"letm".as_slice() {
                *scan = ahead;
                Ok(Step::BindMem(mem_row(alloc, scan)?))
            } else if name == b"need".as_slice() {
                *scan = ahead;
                Ok(Step::Need(cond_row(alloc, scan)?))
            } else {
                Err(TokenError::Bad)
            }
        }
        _ => Err(TokenError::Bad),
    }
}

/// Whether a step follows, to go by its first word.
pub fn begins_step(scan: &Scan<'_>) -> bool
    ensures { result ≡ goes_on is_step (tokens_at scan.now) }
{
    match peek(scan) {
        Some((Token::Atom(name), _)) => {
            name == b"let".as_slice() || name == b"letm".as_slice() || name == b"need".as_slice()
        }
        _ => false,
    }
}

// ---- the last row of a body

/// The number of a definition or an exit.
pub fn read_index<'a>(scan: &mut Scan<'a>) -> Result<u32, TokenError>
    ensures gives { Gives (λ n. n) result scan.old scan.new (number_at (2 ^ 32)) }
    ensures last { last_line scan.new ≡ last_line scan.old }
{
    let index = number(scan, 1 << 32)?;
    Ok(index as u32)
}

/// A call's number of arms is below this: it has at most 16, and none where no body may stand
/// inside.
fn arm_bound(room: u32) -> u64
    ensures { result ≡ arm_bound room }
{
    if room == 0 { 1 } else { EXIT_LIMIT as u64 + 1 }
}

/// How many arms a call has.
fn read_arm_count<'a>(scan: &mut Scan<'a>, room: u32) -> Result<u64, TokenError>
    ensures gives { Gives (λ n. n) result scan.old scan.new (number_at (arm_bound room)) }
    ensures last { last_line scan.new ≡ last_line scan.old }
{
    number(scan, arm_bound(room))
}

/// The last row of a body.
#[derive(Drop)]
pub enum EndRow {
    If(Cond),
    /// The definition, how many arms, and the arguments.
    Call(u32, u64, Values),
    Again(Values),
    Leave(u32, Values),
}

/// What stands after the word of a call.
fn call_row<'a>(alloc: Global, scan: &mut Scan<'a>, room: u32) -> Result<EndRow, TokenError>
    ensures gives { Gives end_row_tree result scan.old scan.new (call_of (arm_bound room)) }
    ensures last { last_line scan.new ≡ last_line scan.old }
{
    let def = read_index(scan)?;
    let count = read_arm_count(scan, room)?;
    let values = read_values(alloc, scan)?;
    Ok(EndRow::Call(def, count, values))
}

/// What stands after the word of an exit.
fn leave_row<'a>(alloc: Global, scan: &mut Scan<'a>) -> Result<EndRow, TokenError>
    ensures gives { Gives end_row_tree result scan.old scan.new leave_by }
    ensures last { last_line scan.new ≡ last_line scan.old }
{
    let exit = read_index(scan)?;
    let values = read_values(alloc, scan)?;
    Ok(EndRow::Leave(exit, values))
}

/// How a body ends. Bodies stand inside only where there is room.
#[tactic(auto, unfolding(crate::specs::inner::BodyRows::end_row))]
pub fn read_end_row<'a>(alloc: Global, scan: &mut Scan<'a>, room: u32) -> Result<EndRow, TokenError>
    ensures gives { Gives end_row_tree result scan.old scan.new (end_row room) }
    ensures last { last_line scan.new ≡ last_line scan.old }
{
    match peek(scan) {
        Some((Token::Atom(name), ahead)) => {
            if name == b"call".as_slice() {
                *scan = ahead;
                call_row(alloc, scan, room)
            } else if name == b"again".as_slice() {
                *scan = ahead;
                Ok(EndRow::Again(read_values(alloc, scan)?))
            } else if name == b"leave".as_slice() {
                *scan = ahead;
                leave_row(alloc, scan)
            } else if name == b"if".as_slice() && room > 0 {
                *scan = ahead;
                Ok(EndRow::If(cond_row(alloc, scan)?))
            } else {
                Err(TokenError::Bad)
            }
        }
        _ => Err(TokenError::Bad),
    }
}
