//! Reading terms and ranges one after the other, as long as one follows.

ghost use Rattle.std.specs.Prelude.{◌≡◌, map};
ghost use Rattle.mc_text.specs.Reading.{star, is_open};
ghost use Rattle.word_terms.specs.Tree.{word_tree, mem_tree};
ghost use Rattle.group_text.specs.TermLimits.{depth_limit};
ghost use Rattle.mc_text.specs.Outcome.{Gives, last_line};
ghost use Rattle.group_text.specs.TermReading.{begins_word, begins_mem, word_at, mem_at, range_at};

use crate::read_terms::{read_mem, read_range, read_word};
use crate::term_ahead::{begins_mem, begins_word};
use mc_text::cursor::is_open;
use mc_text::{Scan, TokenError};
use rv_words::{List, Range};
use std::alloc::Global;
use word_terms::{DEPTH_LIMIT, Mem, Word};

/// The words up to a token that none begins with.
pub fn read_words<'a>(alloc: Global, scan: &mut Scan<'a>) -> Result<List<Word>, TokenError>
    ensures gives { Gives (λ words. map word_tree words) result scan.old scan.new
        (star begins_word (word_at depth_limit)) }
    ensures last { last_line scan.new ≡ last_line scan.old }
{
    let mut words = List::new(alloc);
    'words: while begins_word(scan) {
        match read_word(alloc, scan, DEPTH_LIMIT) {
            Ok(word) => words.push(word)?,
            Err(stop) => return Err(stop),
        }
    }
    Ok(words)
}

/// The memories up to a token that none begins with.
pub fn read_mems<'a>(alloc: Global, scan: &mut Scan<'a>) -> Result<List<Mem>, TokenError>
    ensures gives { Gives (λ mems. map mem_tree mems) result scan.old scan.new
        (star begins_mem (mem_at depth_limit)) }
    ensures last { last_line scan.new ≡ last_line scan.old }
{
    let mut mems = List::new(alloc);
    'mems: while begins_mem(scan) {
        match read_mem(alloc, scan, DEPTH_LIMIT) {
            Ok(mem) => mems.push(mem)?,
            Err(stop) => return Err(stop),
        }
    }
    Ok(mems)
}

/// The ranges up to a token other than a left parenthesis. They need not rise.
pub fn read_ranges<'a>(alloc: Global, scan: &mut Scan<'a>) -> Result<List<Range>, TokenError>
    ensures gives { Gives (λ ranges. ranges) result scan.old scan.new (star is_open range_at) }
    ensures last { last_line scan.new ≡ last_line scan.old }
{
    let mut ranges = List::new(alloc);
    'each: while is_open(scan) {
        match read_range(alloc, scan) {
            Ok(range) => ranges.push(range)?,
            Err(stop) => return Err(stop),
        }
    }
    Ok(ranges)
}
