//! Reading the lines of proofs.

ghost use Rattle.std.specs.Prelude.{◌≡◌};
ghost use Rattle.mc_text.specs.Reading.{goes_on, star};
ghost use Rattle.mc_text.specs.Scanning.{tokens_at};
ghost use Rattle.mc_text.specs.Outcome.{Gives, last_line};
ghost use Rattle.proof_text.specs.Line.{line_tree, spelled_tree};
ghost use Rattle.group_text.specs.Version.{version_of};
ghost use Rattle.group_text.specs.inner.Reading.{has_atom};
ghost use Rattle.proof_text.specs.inner.LineReaders.{ends_proof};
ghost use Rattle.proof_text.specs.inner.LineReading.{forget_row, further_row, line_at, loop_row, stated_row, theorem_at};

use crate::line::{Line, SpelledLine};
use crate::line_rules::{read_cited, read_rule, read_theorem};
use crate::line_triples::read_triple;
use group_text::{Version, has_atom, read_index};
use mc_text::cursor::{eol, peek};
use mc_text::{Scan, Token, TokenError};
use rv_words::List;
use std::alloc::Global;
use word_terms::Code;

/// The numbers of theorems up to the end of the line.
pub fn read_theorems<'a>(alloc: Global, scan: &mut Scan<'a>) -> Result<List<u64>, TokenError>
    ensures gives { Gives (λ theorems. theorems) result scan.old scan.new
        (star has_atom theorem_at) }
    ensures last { last_line scan.new ≡ last_line scan.old }
{
    let mut theorems = List::new(alloc);
    'each: while has_atom(scan) {
        match read_theorem(scan) {
            Ok(theorem) => theorems.push(theorem)?,
            Err(stop) => return Err(stop),
        }
    }
    Ok(theorems)
}

/// What stands after the word of a line that closes a definition.
fn read_loop<'a>(alloc: Global, scan: &mut Scan<'a>, own: &Code) -> Result<SpelledLine, TokenError>
    ensures gives { Gives (spelled_tree own.now.ranges) result scan.old scan.new loop_row }
    ensures last { last_line scan.new ≡ last_line scan.old }
{
    let def = read_index(scan)?;
    let cited = read_theorems(alloc, scan)?;
    eol(scan)?;
    let line = Line::Loop { def, cited };
    Ok(SpelledLine { line, all: false })
}

/// What stands after the word of a line that forgets a theorem.
fn read_forget<'a>(scan: &mut Scan<'a>, own: &Code) -> Result<SpelledLine, TokenError>
    ensures gives { Gives (spelled_tree own.now.ranges) result scan.old scan.new forget_row }
    ensures last { last_line scan.new ≡ last_line scan.old }
{
    let k = read_theorem(scan)?;
    eol(scan)?;
    let line = Line::Forget(k);
    Ok(SpelledLine { line, all: false })
}

/// A line that states a triple, by the group's own code.
fn read_stated<'a>(
    alloc: Global,
    scan: &mut Scan<'a>,
    own: &Code,
) -> Result<SpelledLine, TokenError>
    ensures gives { Gives (spelled_tree own.now.ranges) result scan.old scan.new
        (stated_row own.now.ranges) }
    ensures last { last_line scan.new ≡ last_line scan.old }
{
    let rule = read_rule(alloc, scan)?;
    let (stated, all) = read_triple(alloc, scan, own)?;
    eol(scan)?;
    let line = Line::States { rule, stated };
    Ok(SpelledLine { line, all })
}

/// What stands after the word of a line by the further rule, by the group's own code.
fn read_further<'a>(
    alloc: Global,
    scan: &mut Scan<'a>,
    own: &Code,
) -> Result<SpelledLine, TokenError>
    ensures gives { Gives (spelled_tree own.now.ranges) result scan.old scan.new
        (further_row own.now.ranges) }
    ensures last { last_line scan.new ≡ last_line scan.old }
{
    let cited = read_cited(scan)?;
    let (stated, all) = read_triple(alloc, scan, own)?;
    eol(scan)?;
    let line = Line::Further { cited, stated };
    Ok(SpelledLine { line, all })
}

/// A line of a text of that version, with the group's own code where `all` stands for that.
pub fn read_line<'a>(
    alloc: Global,
    scan: &mut Scan<'a>,
    version: Version,
    own: &Code,
) -> Result<Line, TokenError>
    ensures gives { Gives line_tree result scan.old scan.new
        (line_at (version_of version) own.now.ranges) }
    ensures last { last_line scan.new ≡ last_line scan.old }
{
    let spelled = read_spelled(alloc, scan, version, own)?;
    let line = spelled.with_own(alloc, own)?;
    Ok(line)
}

/// A line of a text of that version, as it is spelled beside the group's own code.
#[tactic(auto, unfolding(crate::specs::inner::LineReading::line_at))]
pub fn read_spelled<'a>(
    alloc: Global,
    scan: &mut Scan<'a>,
    version: Version,
    own: &Code,
) -> Result<SpelledLine, TokenError>
    ensures gives { Gives (spelled_tree own.now.ranges) result scan.old scan.new
        (line_at (version_of version) own.now.ranges) }
    ensures last { last_line scan.new ≡ last_line scan.old }
{
    match peek(scan) {
        Some((Token::Atom(name), ahead)) => {
            if name == b"loop".as_slice() {
                *scan = ahead;
                read_loop(alloc, scan, own)
            } else if name == b"forget".as_slice() {
                *scan = ahead;
                read_forget(scan, own)
            } else if version.is_further(name) {
                *scan = ahead;
                read_further(alloc, scan, own)
            } else {
                read_stated(alloc, scan, own)
            }
        }
        _ => read_stated(alloc, scan, own),
    }
}

/// Whether the next group follows or the line that ends the text, to go by the first word.
#[tactic(auto, using(crate::proofs::NoAtom::no_end))]
pub fn ends_proof(scan: &Scan<'_>) -> bool
    ensures { result ≡ goes_on ends_proof (tokens_at scan.now) }
{
    match scan.atom_ahead() {
        Some((name, _)) => name == b"group".as_slice() || name == b"end".as_slice(),
        None => false,
    }
}
