//! Reading short lines.

ghost use Rattle.std.specs.Prelude.{◌≡◌};
ghost use Rattle.mc_text.specs.Reading.{atom_of, made, one};
ghost use Rattle.mc_text.specs.inner.Reading.{eol};
ghost use Rattle.mc_text.specs.Outcome.{Gives, last_line};
ghost use Rattle.proof_text.specs.Line.{code_or_own};
ghost use Rattle.short_text.specs.SpelledShort.{short_or_own};
ghost use Rattle.short_text.specs.inner.ShortReading.{axiom_line, changed_row, closing_line, code_to_end, composition_line, discharge_line, extension_line, facts_to, forget_line, frame_line, inst_row, ranges_to_end, short_at, short_head_of, short_parts, use_line};

use crate::facts::read_held_facts;
use crate::heads::{ShortHead, short_head_of};
use crate::kind::Kind;
use crate::places::{Place, mem_places, read_places, word_places};
use crate::short::Short;
use crate::sides::{read_held_side, read_rising};
use crate::terms::read_terms;
use group_text::{read_index, read_ranges};
use held_terms::{HeldFact, HeldSide};
use mc_text::cursor::{accept, address, eol, keyword, peek};
use mc_text::{Scan, Token, TokenError};
use proof_text::{is_other_code, read_form, read_instruction, read_theorem, read_theorems};
use rv_words::List;
use std::alloc::Global;
use term_arena::Node;
use word_terms::Code;

// ---- code

/// Code other than the group's own, with the end of the line.
fn read_other<'a>(
    alloc: Global,
    scan: &mut Scan<'a>,
    own: &Code,
) -> Result<(Code, bool), TokenError>
    ensures gives { Gives (λ c. code_or_own own.now.ranges c.1 c.0.ranges) result scan.old scan.new
        (ranges_to_end own.now.ranges) }
    ensures last { last_line scan.new ≡ last_line scan.old }
{
    let ranges = read_ranges(alloc, scan)?;
    let code = Code { ranges };
    if !is_other_code(own, &code) {
        return Err(TokenError::Bad);
    }
    eol(scan)?;
    Ok((code, false))
}

/// What stands for the group's own code, after the word for that, with the end of the line: that
/// code is left out.
fn read_own<'a>(alloc: Global, scan: &mut Scan<'a>, own: &Code) -> Result<(Code, bool), TokenError>
    ensures gives { Gives (λ c. code_or_own own.now.ranges c.1 c.0.ranges) result scan.old scan.new
        (made (λ _. own.now.ranges) eol) }
    ensures last { last_line scan.new ≡ last_line scan.old }
{
    eol(scan)?;
    let ranges = List::new(alloc);
    Ok((Code { ranges }, true))
}

/// Code, with the end of the line, and whether it is the group's own, which is left out.
#[tactic(auto, unfolding(crate::specs::inner::ShortReading::code_to_end))]
fn read_code<'a>(alloc: Global, scan: &mut Scan<'a>, own: &Code) -> Result<(Code, bool), TokenError>
    ensures gives { Gives (λ c. code_or_own own.now.ranges c.1 c.0.ranges) result scan.old scan.new
        (code_to_end own.now.ranges) }
    ensures last { last_line scan.new ≡ last_line scan.old }
{
    match peek(scan) {
        Some((Token::Atom(name), ahead)) => {
            if name == b"all".as_slice() {
                *scan = ahead;
                read_own(alloc, scan, own)
            } else {
                read_other(alloc, scan, own)
            }
        }
        _ => read_other(alloc, scan, own),
    }
}

// ---- the parts of lines

fn read_axiom<'a>(scan: &mut Scan<'a>) -> Result<Short, TokenError>
    ensures gives { Gives (λ l. l) result scan.old scan.new axiom_line }
    ensures last { last_line scan.new ≡ last_line scan.old }
{
    let address = address(scan)?;
    let word = read_instruction(scan)?;
    let form = read_form(scan)?;
    eol(scan)?;
    Ok(Short::Axiom(address, word, form))
}

fn read_inst<'a>(
    alloc: Global,
    scan: &mut Scan<'a>,
    table: &[Node],
) -> Result<(u64, List<(Place, u64)>), TokenError>
    ensures gives { Gives (λ p. (p.0, (p.1, tt))) result scan.old scan.new (inst_row table.now) }
    ensures last { last_line scan.new ≡ last_line scan.old }
{
    let p = read_theorem(scan)?;
    let places = read_places(alloc, scan, table)?;
    eol(scan)?;
    Ok((p, places))
}

fn read_frame<'a>(alloc: Global, scan: &mut Scan<'a>, table: &[Node]) -> Result<Short, TokenError>
    ensures gives { Gives (λ l. l) result scan.old scan.new (frame_line table.now) }
    ensures last { last_line scan.new ≡ last_line scan.old }
{
    let p = read_theorem(scan)?;
    let regs = read_rising(alloc, scan, table)?;
    let mems = read_terms(alloc, scan, table, Kind::Mem)?;
    eol(scan)?;
    Ok(Short::Frame(p, regs, mems))
}

/// A line that extends a theorem's code, and whether that by which it does is the group's own,
/// which is left out.
fn read_extension<'a>(
    alloc: Global,
    scan: &mut Scan<'a>,
    own: &Code,
) -> Result<(Short, bool), TokenError>
    ensures gives { Gives (λ l. short_or_own own.now.ranges l.1 l.0) result scan.old scan.new
        (extension_line own.now.ranges) }
    ensures last { last_line scan.new ≡ last_line scan.old }
{
    let p = read_theorem(scan)?;
    keyword(scan, b"code")?;
    let (code, all) = read_code(alloc, scan, own)?;
    Ok((Short::ExtendCode(p, code), all))
}

fn read_composition<'a>(scan: &mut Scan<'a>) -> Result<Short, TokenError>
    ensures gives { Gives (λ l. l) result scan.old scan.new composition_line }
    ensures last { last_line scan.new ≡ last_line scan.old }
{
    let p = read_theorem(scan)?;
    let q = read_theorem(scan)?;
    eol(scan)?;
    Ok(Short::Compose(p, q))
}

/// Facts, with the word behind them.
fn read_facts_to<'a>(
    alloc: Global,
    scan: &mut Scan<'a>,
    table: &[Node],
    name: &[u8],
) -> Result<List<HeldFact>, TokenError>
    ensures gives { Gives (λ facts. (facts, tt)) result scan.old scan.new
        (facts_to table.now name.now) }
    ensures last { last_line scan.new ≡ last_line scan.old }
{
    let facts = read_held_facts(alloc, scan, table)?;
    keyword(scan, name)?;
    Ok(facts)
}

/// A theorem, facts, and the side that follows that word.
fn read_changed<'a>(
    alloc: Global,
    scan: &mut Scan<'a>,
    table: &[Node],
    name: &[u8],
) -> Result<(u64, (List<HeldFact>, HeldSide)), TokenError>
    ensures gives { Gives (λ x. (x.0, (tt, ((x.1.0, tt), (x.1.1, tt))))) result scan.old scan.new
        (changed_row table.now name.now) }
    ensures last { last_line scan.new ≡ last_line scan.old }
{
    let p = read_theorem(scan)?;
    keyword(scan, b"facts")?;
    let facts = read_facts_to(alloc, scan, table, name)?;
    let side = read_held_side(alloc, scan, table)?;
    eol(scan)?;
    Ok((p, (facts, side)))
}

fn read_discharge<'a>(
    alloc: Global,
    scan: &mut Scan<'a>,
    table: &[Node],
) -> Result<Short, TokenError>
    ensures gives { Gives (λ l. l) result scan.old scan.new (discharge_line table.now) }
    ensures last { last_line scan.new ≡ last_line scan.old }
{
    let p = read_theorem(scan)?;
    keyword(scan, b"facts")?;
    let facts = read_held_facts(alloc, scan, table)?;
    eol(scan)?;
    Ok(Short::Discharge(p, facts))
}

fn read_use<'a>(scan: &mut Scan<'a>) -> Result<Short, TokenError>
    ensures gives { Gives (λ l. l) result scan.old scan.new use_line }
    ensures last { last_line scan.new ≡ last_line scan.old }
{
    let def = read_index(scan)?;
    let exit = read_index(scan)?;
    eol(scan)?;
    Ok(Short::UseExit(def, exit))
}

fn read_loop<'a>(alloc: Global, scan: &mut Scan<'a>) -> Result<Short, TokenError>
    ensures gives { Gives (λ l. l) result scan.old scan.new closing_line }
    ensures last { last_line scan.new ≡ last_line scan.old }
{
    let def = read_index(scan)?;
    let cited = read_theorems(alloc, scan)?;
    eol(scan)?;
    Ok(Short::Loop(def, cited))
}

fn read_forget<'a>(scan: &mut Scan<'a>) -> Result<Short, TokenError>
    ensures gives { Gives (λ l. l) result scan.old scan.new forget_line }
    ensures last { last_line scan.new ≡ last_line scan.old }
{
    let k = read_theorem(scan)?;
    eol(scan)?;
    Ok(Short::Forget(k))
}

// ---- lines

/// The first word of a line.
#[tactic(auto, unfolding(mc_text::specs::Reading::one), using(mc_text::proofs::AtomAhead::no_atom_of))]
fn short_name<'a>(scan: &mut Scan<'a>) -> Result<ShortHead, TokenError>
    ensures gives { Gives (λ h. h) result scan.old scan.new (one (atom_of short_head_of)) }
    ensures last { last_line scan.new ≡ last_line scan.old }
{
    match scan.atom_ahead() {
        Some((name, ahead)) => accept(scan, ahead, short_head_of(name)),
        None => Err(TokenError::Bad),
    }
}

/// What stands after the first word of a line, and whether its code is the group's own, which is
/// left out.
fn read_parts<'a>(
    alloc: Global,
    scan: &mut Scan<'a>,
    table: &[Node],
    own: &Code,
    head: ShortHead,
) -> Result<(Short, bool), TokenError>
    ensures gives { Gives (λ l. short_or_own own.now.ranges l.1 l.0) result scan.old scan.new
        (short_parts table.now own.now.ranges head) }
    ensures last { last_line scan.new ≡ last_line scan.old }
{
    let line = match head {
        ShortHead::Axiom => read_axiom(scan)?,
        ShortHead::Inst => {
            let (p, places) = read_inst(alloc, scan, table)?;
            let words = word_places(alloc, places.as_slice())?;
            let mems = mem_places(alloc, places.as_slice())?;
            Short::Inst(p, words, mems)
        }
        ShortHead::Frame => read_frame(alloc, scan, table)?,
        ShortHead::ExtendCode => return read_extension(alloc, scan, own),
        ShortHead::Compose => read_composition(scan)?,
        ShortHead::Strengthen => {
            let (p, (facts, pre)) = read_changed(alloc, scan, table, b"pre")?;
            Short::Strengthen(p, facts, pre)
        }
        ShortHead::Weaken => {
            let (p, (facts, post)) = read_changed(alloc, scan, table, b"post")?;
            Short::Weaken(p, facts, post)
        }
        ShortHead::Discharge => read_discharge(alloc, scan, table)?,
        ShortHead::UseExit => read_use(scan)?,
        ShortHead::Loop => read_loop(alloc, scan)?,
        ShortHead::Forget => read_forget(scan)?,
    };
    Ok((line, false))
}

/// A short line, by the table, and whether its code is the group's own, which is left out.
#[tactic(auto, unfolding(crate::specs::inner::ShortReading::short_at))]
pub fn read_short<'a>(
    alloc: Global,
    scan: &mut Scan<'a>,
    table: &[Node],
    own: &Code,
) -> Result<(Short, bool), TokenError>
    ensures gives { Gives (λ l. short_or_own own.now.ranges l.1 l.0) result scan.old scan.new
        (short_at table.now own.now.ranges) }
    ensures last { last_line scan.new ≡ last_line scan.old }
{
    let head = short_name(scan)?;
    read_parts(alloc, scan, table, own, head)
}
