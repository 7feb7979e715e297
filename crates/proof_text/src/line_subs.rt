//! Reading substitutions.

ghost use Rattle.std.specs.Prelude.{◌≡◌, IfOk, map};
ghost use Rattle.mc_text.specs.Reading.{atom_of, is_open, one, star};
ghost use Rattle.mc_text.specs.Outcome.{Gives, last_line};
ghost use Rattle.proof_text.specs.Line.{mem_put_in, word_put_in};
ghost use Rattle.proof_text.specs.inner.LineReading.{mems_of, sub_at, sub_head_of, sub_parts, subs_rise, words_of};
ghost use Rattle.proof_text.specs.inner.Subs.{put_tree};

use crate::line_heads::{SubHead, sub_head_of};
use group_text::{read_mem, read_word};
use mc_text::cursor::{accept, is_open, left, right};
use mc_text::{Scan, TokenError};
use rv_words::{List, NoMemory};
use std::alloc::Global;
use word_terms::{DEPTH_LIMIT, Mem, Sub, Word};

/// A term that is put in for a variable.
#[derive(Drop)]
pub enum Put {
    Word(u32, Word),
    Mem(u32, Mem),
}

/// The variable, after its parenthesis.
#[tactic(auto, unfolding(mc_text::specs::Reading::one), using(mc_text::proofs::AtomAhead::no_atom_of))]
fn sub_name<'a>(scan: &mut Scan<'a>) -> Result<SubHead, TokenError>
    ensures gives { Gives (λ h. h) result scan.old scan.new (one (atom_of sub_head_of)) }
    ensures last { last_line scan.new ≡ last_line scan.old }
{
    match scan.atom_ahead() {
        Some((name, ahead)) => accept(scan, ahead, sub_head_of(name)),
        None => Err(TokenError::Bad),
    }
}

/// The term for a variable, with the parenthesis behind it.
fn read_sub_parts<'a>(alloc: Global, scan: &mut Scan<'a>, head: SubHead) -> Result<Put, TokenError>
    ensures gives { Gives put_tree result scan.old scan.new (sub_parts head) }
    ensures last { last_line scan.new ≡ last_line scan.old }
{
    match head {
        SubHead::Word(i) => {
            let word = read_word(alloc, scan, DEPTH_LIMIT)?;
            right(scan)?;
            Ok(Put::Word(i, word))
        }
        SubHead::Mem(i) => {
            let mem = read_mem(alloc, scan, DEPTH_LIMIT)?;
            right(scan)?;
            Ok(Put::Mem(i, mem))
        }
    }
}

#[tactic(auto, unfolding(crate::specs::inner::LineReading::sub_at))]
fn read_sub<'a>(alloc: Global, scan: &mut Scan<'a>) -> Result<Put, TokenError>
    ensures gives { Gives put_tree result scan.old scan.new sub_at }
    ensures last { last_line scan.new ≡ last_line scan.old }
{
    left(scan)?;
    let head = sub_name(scan)?;
    read_sub_parts(alloc, scan, head)
}

/// The terms for variables up to a token other than a left parenthesis.
pub fn read_subs<'a>(alloc: Global, scan: &mut Scan<'a>) -> Result<Vec<Put>, TokenError>
    ensures gives { Gives (λ puts. map put_tree puts.items) result scan.old scan.new
        (star is_open sub_at) }
    ensures last { last_line scan.new ≡ last_line scan.old }
{
    let mut puts = Vec::new(alloc);
    'puts: while is_open(scan) {
        match read_sub(alloc, scan) {
            Ok(put) => puts.push(put)?,
            Err(stop) => return Err(stop),
        }
    }
    Ok(puts)
}

/// Whether all words stand before all memories, and the variables of each kind rise.
pub fn puts_rise(puts: &[Put]) -> bool
    ensures { result ≡ subs_rise 0 (map put_tree puts.now) }
{
    let mut mems = false;
    let mut least: u64 = 0;
    for put in puts {
        let (is_mem, i) = match put {
            Put::Word(i, _) => (false, u64::from(*i)),
            Put::Mem(i, _) => (true, u64::from(*i)),
        };
        let follows = if is_mem == mems { least <= i } else { is_mem };
        if !follows {
            return false;
        }
        mems = is_mem;
        least = i + 1;
    }
    true
}

/// The words and the memories of these, each in their order.
pub fn sub_of(alloc: Global, puts: Vec<Put>) -> Result<Sub, NoMemory>
    ensures words { IfOk result (λ sub.
        map word_put_in sub.words ≡ words_of (map put_tree puts.items)) }
    ensures mems { IfOk result (λ sub.
        map mem_put_in sub.mems ≡ mems_of (map put_tree puts.items)) }
{
    let mut words = List::new(alloc);
    let mut mems = List::new(alloc);
    for put in puts {
        match put {
            Put::Word(i, word) => words.push((i, word))?,
            Put::Mem(i, mem) => mems.push((i, mem))?,
        }
    }
    Ok(Sub { words, mems })
}
