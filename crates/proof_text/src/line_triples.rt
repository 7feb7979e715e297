//! Reading triples, after their first word.

ghost use Rattle.std.specs.Prelude.{◌≡◌, codes, map};
ghost use Rattle.mc_text.specs.Reading.{is_open, made, star};
ghost use Rattle.mc_text.specs.inner.Reading.{checked, word};
ghost use Rattle.mc_text.specs.Outcome.{Gives, last_line};
ghost use Rattle.sep_assert.specs.Tree.{assertion_tree, register_tree};
ghost use Rattle.triple_kernel.specs.Tree.{triple_tree};
ghost use Rattle.group_text.specs.inner.Reading.{registers_rise};
ghost use Rattle.proof_text.specs.Line.{code_or_own, triple_or_own};
ghost use Rattle.proof_text.specs.inner.LineReading.{assertion_at, code_at, has_rising, is_other_code, ranges_to_post, register_at, triple_at};

use crate::line_facts::read_facts;
use crate::put_lines::is_own;
use group_text::{ranges_rise, read_mems, read_ranges, read_register, read_word};
use mc_text::cursor::{is_open, keyword, left, peek, right, semi};
use mc_text::{Scan, Token, TokenError};
use rv_words::{List, NoMemory};
use sep_assert::Assertion;
use std::alloc::Global;
use triple_kernel::Triple;
use word_terms::{Code, DEPTH_LIMIT, Word};

/// A register and its term.
#[tactic(auto, unfolding(crate::specs::inner::LineReading::register_at))]
fn read_register_term<'a>(alloc: Global, scan: &mut Scan<'a>) -> Result<(u8, Word), TokenError>
    ensures gives { Gives register_tree result scan.old scan.new register_at }
    ensures last { last_line scan.new ≡ last_line scan.old }
{
    left(scan)?;
    let register = read_register(scan)?;
    let word = read_word(alloc, scan, DEPTH_LIMIT)?;
    right(scan)?;
    Ok((register, word))
}

/// The registers up to a token other than a left parenthesis. There is memory for that many at
/// once.
fn read_register_terms<'a>(
    alloc: Global,
    scan: &mut Scan<'a>,
    expected: usize,
) -> Result<List<(u8, Word)>, TokenError>
    ensures gives { Gives (λ regs. map register_tree regs) result scan.old scan.new
        (star is_open register_at) }
    ensures last { last_line scan.new ≡ last_line scan.old }
{
    let mut regs = List::with_capacity(alloc, expected)?;
    'regs: while is_open(scan) {
        match read_register_term(alloc, scan) {
            Ok(register) => regs.push(register)?,
            Err(stop) => return Err(stop),
        }
    }
    Ok(regs)
}

/// Whether an assertion's registers rise from 1 to 31.
fn has_rising(a: &Assertion) -> bool
    ensures { result ≡ has_rising (assertion_tree a.now) }
{
    registers_rise(a.regs.as_slice())
}

/// Whether registers rise from 1 to 31, whatever their terms.
fn registers_rise(registers: &[(u8, Word)]) -> bool
    ensures { result ≡ registers_rise 1 (map (λ r. r.0) (map register_tree registers.now)) }
{
    let mut least = 1;
    for register in registers {
        if register.0 < least || register.0 > 31 {
            return false;
        }
        least = register.0 + 1;
    }
    true
}

/// An assertion, with memory for that many registers at once.
#[tactic(auto, unfolding(crate::specs::inner::LineReading::assertion_at))]
fn read_assertion<'a>(
    alloc: Global,
    scan: &mut Scan<'a>,
    expected: usize,
) -> Result<Assertion, TokenError>
    ensures gives { Gives assertion_tree result scan.old scan.new assertion_at }
    ensures last { last_line scan.new ≡ last_line scan.old }
{
    left(scan)?;
    let pc = read_word(alloc, scan, DEPTH_LIMIT)?;
    let regs = read_register_terms(alloc, scan, expected)?;
    semi(scan)?;
    let mems = read_mems(alloc, scan)?;
    right(scan)?;
    let assertion = Assertion { pc, regs, mems };
    if !has_rising(&assertion) {
        return Err(TokenError::Bad);
    }
    Ok(assertion)
}

// ---- code

/// Whether these are rising ranges other than the group's own.
pub fn is_other_code(own: &Code, code: &Code) -> bool
    ensures { result ≡ is_other_code own.now.ranges code.now.ranges }
{
    ranges_rise(code.ranges.as_slice()) && !is_own(own, code)
}

/// Ranges, with the word behind them.
fn read_ranges_to_post<'a>(alloc: Global, scan: &mut Scan<'a>) -> Result<Code, TokenError>
    ensures gives { Gives (λ code. code.ranges) result scan.old scan.new ranges_to_post }
    ensures last { last_line scan.new ≡ last_line scan.old }
{
    let ranges = read_ranges(alloc, scan)?;
    keyword(scan, b"post")?;
    Ok(Code { ranges })
}

/// Code other than the group's own, with the word behind it.
fn read_other<'a>(
    alloc: Global,
    scan: &mut Scan<'a>,
    own: &Code,
) -> Result<(Code, bool), TokenError>
    ensures gives { Gives (λ c. code_or_own own.now.ranges c.1 c.0.ranges) result scan.old scan.new
        (checked (is_other_code own.now.ranges) ranges_to_post) }
    ensures last { last_line scan.new ≡ last_line scan.old }
{
    let code = read_ranges_to_post(alloc, scan)?;
    if !is_other_code(own, &code) {
        return Err(TokenError::Bad);
    }
    Ok((code, false))
}

/// What stands for the group's own code, after the word for that, with the word behind it: that
/// code is left out.
fn read_own<'a>(alloc: Global, scan: &mut Scan<'a>, own: &Code) -> Result<(Code, bool), TokenError>
    ensures gives { Gives (λ c. code_or_own own.now.ranges c.1 c.0.ranges) result scan.old scan.new
        (made (λ _. own.now.ranges) (word (codes "post"))) }
    ensures last { last_line scan.new ≡ last_line scan.old }
{
    keyword(scan, b"post")?;
    let ranges = List::new(alloc);
    Ok((Code { ranges }, true))
}

/// Code, with the word behind it, and whether it is the group's own, which is left out.
#[tactic(auto, unfolding(crate::specs::inner::LineReading::code_at))]
fn read_code<'a>(alloc: Global, scan: &mut Scan<'a>, own: &Code) -> Result<(Code, bool), TokenError>
    ensures gives { Gives (λ c. code_or_own own.now.ranges c.1 c.0.ranges) result scan.old scan.new
        (code_at own.now.ranges) }
    ensures last { last_line scan.new ≡ last_line scan.old }
{
    match peek(scan) {
        Some((Token::Atom(name), ahead)) => {
            if name == b"all".as_slice() {
                *scan = ahead;
                read_own(alloc, scan, own)
            } else {
                read_other(alloc, scan, own)
            }
        }
        _ => read_other(alloc, scan, own),
    }
}

/// A triple, after its first word, and whether its code is the group's own, which is left out.
/// Mostly both sides have as many registers.
#[tactic(auto, unfolding(crate::specs::inner::LineReading::triple_at))]
pub fn read_triple<'a>(
    alloc: Global,
    scan: &mut Scan<'a>,
    own: &Code,
) -> Result<(Triple, bool), TokenError>
    ensures gives { Gives (λ t. triple_or_own own.now.ranges t.1 (triple_tree t.0)) result scan.old
        scan.new (triple_at own.now.ranges) }
    ensures last { last_line scan.new ≡ last_line scan.old }
{
    let facts = read_facts(alloc, scan)?;
    keyword(scan, b"pre")?;
    let pre = read_assertion(alloc, scan, 0)?;
    keyword(scan, b"code")?;
    let (code, all) = read_code(alloc, scan, own)?;
    let post = read_assertion(alloc, scan, pre.regs.len())?;
    let triple = Triple {
        facts,
        pre,
        code,
        post,
    };
    Ok((triple, all))
}
