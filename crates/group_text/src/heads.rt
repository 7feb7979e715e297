//! Reading the rows of definitions and of what stands before them, each by itself.

ghost use Rattle.std.specs.Prelude.{◌≡◌};
ghost use Rattle.mc_text.specs.Reading.{atom_of, goes_on, one, star};
ghost use Rattle.mc_text.specs.inner.Reading.{number_at};
ghost use Rattle.mc_text.specs.Scanning.{tokens_at};
ghost use Rattle.mc_text.specs.Outcome.{Gives, last_line};
ghost use Rattle.group_text.specs.Limits.{returns};
ghost use Rattle.group_text.specs.Version.{version_of};
ghost use Rattle.group_text.specs.inner.GroupRows.{end_of, first_row, first_row_tree, name_row};
ghost use Rattle.group_text.specs.inner.Reading.{are_atom_bytes, are_few_exits, code_row, def_row, def_start, exit_of, has_atom, is_def, is_name, mems_row, name_of, ranges_rise, registers_rise, regs_row, title_row};

use crate::body_rows::read_mark;
use crate::term_lists::read_ranges;
use crate::version::Version;
use mc_text::cursor::{address, eol, keyword, number, peek};
use mc_text::{Scan, Token, TokenError, hexnum, is_atom_byte};
use rv_words::{List, Range, Text};
use std::alloc::Global;
use tailrec_lang::Exit;
use word_terms::Code;

/// A definition has at most so many exits, and a call so many arms.
pub(crate) const EXIT_LIMIT: usize = 16;

/// Whether an atom follows.
pub fn has_atom(scan: &Scan<'_>) -> bool
    ensures { result ≡ goes_on has_atom (tokens_at scan.now) }
{
    matches!(peek(scan), Some((Token::Atom(_), _)))
}

// ---- exits

/// The exit that an atom spells.
#[tactic(auto, unfolding(crate::specs::inner::Reading::exit_of))]
fn exit_of(atom: &[u8]) -> Option<Exit>
    ensures { result ≡ exit_of atom.now }
{
    if atom == b"ret".as_slice() {
        Some(Exit::Ret)
    } else {
        match hexnum(atom) {
            Some(address) => Some(Exit::At(address)),
            None => None,
        }
    }
}

#[tactic(auto, unfolding(mc_text::specs::Reading::one))]
fn read_exit<'a>(scan: &mut Scan<'a>) -> Result<Exit, TokenError>
    ensures gives { Gives (λ exit. exit) result scan.old scan.new (one (atom_of exit_of)) }
    ensures last { last_line scan.new ≡ last_line scan.old }
{
    match peek(scan) {
        Some((Token::Atom(atom), ahead)) => match exit_of(atom) {
            Some(exit) => {
                *scan = ahead;
                Ok(exit)
            }
            None => Err(TokenError::Bad),
        },
        _ => Err(TokenError::Bad),
    }
}

/// The exits up to the end of the line.
fn read_exits<'a>(alloc: Global, scan: &mut Scan<'a>) -> Result<List<Exit>, TokenError>
    ensures gives { Gives (λ exits. exits) result scan.old scan.new
        (star has_atom (one (atom_of exit_of))) }
    ensures last { last_line scan.new ≡ last_line scan.old }
{
    let mut exits = List::new(alloc);
    'each: while has_atom(scan) {
        match read_exit(scan) {
            Ok(exit) => exits.push(exit)?,
            Err(stop) => return Err(stop),
        }
    }
    Ok(exits)
}

/// Whether there are at most 16 exits, and at most one of them returns.
fn are_few_exits(exits: &[Exit]) -> bool
    ensures { result ≡ are_few_exits exits.now }
{
    exits.len() <= EXIT_LIMIT && returns(exits) <= 1
}

/// How many exits return.
fn returns(exits: &[Exit]) -> usize
    ensures { result ≡ returns exits.now }
{
    let mut count = 0;
    for exit in exits {
        if matches!(exit, Exit::Ret) {
            count += 1;
        }
    }
    count
}

// ---- definitions

/// The entry and the exits, with the end of their line.
#[tactic(auto, unfolding(crate::specs::inner::Reading::def_row))]
fn read_def_row<'a>(alloc: Global, scan: &mut Scan<'a>) -> Result<(u64, List<Exit>), TokenError>
    ensures gives { Gives (λ row. (row.0, (row.1, tt))) result scan.old scan.new def_row }
    ensures last { last_line scan.new ≡ last_line scan.old }
{
    let entry = address(scan)?;
    let exits = read_exits(alloc, scan)?;
    if !are_few_exits(exits.as_slice()) {
        return Err(TokenError::Bad);
    }
    eol(scan)?;
    Ok((entry, exits))
}

/// The row of a definition.
pub fn read_def_start<'a>(
    alloc: Global,
    scan: &mut Scan<'a>,
) -> Result<(u64, List<Exit>), TokenError>
    ensures gives { Gives (λ row. (tt, (row.0, (row.1, tt)))) result scan.old scan.new def_start }
    ensures last { last_line scan.new ≡ last_line scan.old }
{
    keyword(scan, b"def")?;
    let row = read_def_row(alloc, scan)?;
    Ok(row)
}

/// Whether a definition follows, to go by its first word.
pub fn begins_def(scan: &Scan<'_>) -> bool
    ensures { result ≡ goes_on is_def (tokens_at scan.now) }
{
    match peek(scan) {
        Some((Token::Atom(name), _)) => name == b"def".as_slice(),
        _ => false,
    }
}

// ---- the head of a group

/// Whether the bytes are 1 to 4,096 that a name may have.
fn is_name(atom: &[u8]) -> bool
    ensures { result ≡ is_name atom.now }
{
    atom.len() >= 1 && atom.len() <= 4096 && are_atom_bytes(atom)
}

fn are_atom_bytes(atom: &[u8]) -> bool
    ensures { result ≡ are_atom_bytes atom.now }
{
    for byte in atom {
        if !is_atom_byte(*byte) {
            return false;
        }
    }
    true
}

/// The name of a group.
#[tactic(auto, unfolding(mc_text::specs::Reading::one, crate::specs::inner::Reading::name_of))]
pub fn read_name<'a>(alloc: Global, scan: &mut Scan<'a>) -> Result<Text, TokenError>
    ensures gives { Gives (λ name. name) result scan.old scan.new (one (atom_of name_of)) }
    ensures last { last_line scan.new ≡ last_line scan.old }
{
    match peek(scan) {
        Some((Token::Atom(atom), ahead)) if is_name(atom) => {
            let name = List::from_slice(alloc, atom)?;
            *scan = ahead;
            Ok(name)
        }
        _ => Err(TokenError::Bad),
    }
}

/// The number of a register.
pub fn read_register<'a>(scan: &mut Scan<'a>) -> Result<u8, TokenError>
    ensures gives { Gives (λ n. n) result scan.old scan.new (number_at 32) }
    ensures last { last_line scan.new ≡ last_line scan.old }
{
    let register = number(scan, 32)?;
    Ok(register as u8)
}

/// The registers up to the end of the line.
fn read_registers<'a>(alloc: Global, scan: &mut Scan<'a>) -> Result<List<u8>, TokenError>
    ensures gives { Gives (λ registers. registers) result scan.old scan.new
        (star has_atom (number_at 32)) }
    ensures last { last_line scan.new ≡ last_line scan.old }
{
    let mut registers = List::new(alloc);
    'each: while has_atom(scan) {
        match read_register(scan) {
            Ok(register) => registers.push(register)?,
            Err(stop) => return Err(stop),
        }
    }
    Ok(registers)
}

/// Whether registers rise from 1 to 31.
fn registers_rise(registers: &[u8]) -> bool
    ensures { result ≡ registers_rise 1 registers.now }
{
    let mut least = 1;
    for register in registers {
        if *register < least || *register > 31 {
            return false;
        }
        least = *register + 1;
    }
    true
}

/// Whether ranges rise, neither overlap nor touch, and end at most at 2^64.
pub fn ranges_rise(ranges: &[Range]) -> bool
    ensures { result ≡ ranges_rise 0 ranges.now }
{
    let mut least = 0;
    for range in ranges {
        let start = u128::from(range.at);
        let end = start + range.bytes.len() as u128;
        if start < least || end > 1 << 64 {
            return false;
        }
        least = end + 1;
    }
    true
}

/// The line of registers.
#[tactic(auto, unfolding(crate::specs::inner::Reading::regs_row))]
pub fn read_regs_row<'a>(alloc: Global, scan: &mut Scan<'a>) -> Result<List<u8>, TokenError>
    ensures gives { Gives (λ regs. (tt, (regs, tt))) result scan.old scan.new regs_row }
    ensures last { last_line scan.new ≡ last_line scan.old }
{
    keyword(scan, b"regs")?;
    let registers = read_registers(alloc, scan)?;
    if !registers_rise(registers.as_slice()) {
        return Err(TokenError::Bad);
    }
    eol(scan)?;
    Ok(registers)
}

/// The line of the number of memories.
#[tactic(auto, unfolding(crate::specs::inner::Reading::mems_row))]
pub fn read_mems_row<'a>(scan: &mut Scan<'a>, version: Version) -> Result<u8, TokenError>
    ensures gives { Gives (λ mems. (tt, (mems, tt))) result scan.old scan.new
        (mems_row (version_of version)) }
    ensures last { last_line scan.new ≡ last_line scan.old }
{
    keyword(scan, b"mems")?;
    let mems = number(scan, 3)?;
    if !version.has_mems(mems) {
        return Err(TokenError::Bad);
    }
    eol(scan)?;
    Ok(mems as u8)
}

/// The line of the code.
#[tactic(auto, unfolding(crate::specs::inner::Reading::code_row))]
pub fn read_code_row<'a>(alloc: Global, scan: &mut Scan<'a>) -> Result<Code, TokenError>
    ensures gives { Gives (λ code. (tt, (code.ranges, tt))) result scan.old scan.new code_row }
    ensures last { last_line scan.new ≡ last_line scan.old }
{
    keyword(scan, b"code")?;
    let ranges = read_ranges(alloc, scan)?;
    if !ranges_rise(ranges.as_slice()) {
        return Err(TokenError::Bad);
    }
    eol(scan)?;
    Ok(Code { ranges })
}

/// What stands before a group's definitions.
#[derive(Debug, Drop)]
pub struct Head {
    pub name: Text,
    pub regs: List<u8>,
    pub mems: u8,
    pub code: Code,
}

// ---- the rows of groups

/// The row of a group's name, or the one that ends the text.
#[derive(Drop)]
pub enum FirstRow {
    End,
    Group(Text),
}

/// What stands after the word of a group.
fn name_row<'a>(alloc: Global, scan: &mut Scan<'a>) -> Result<FirstRow, TokenError>
    ensures gives { Gives first_row_tree result scan.old scan.new name_row }
    ensures last { last_line scan.new ≡ last_line scan.old }
{
    let name = read_name(alloc, scan)?;
    eol(scan)?;
    Ok(FirstRow::Group(name))
}

/// What stands after the word of the text's end.
fn end_of<'a>(scan: &mut Scan<'a>) -> Result<FirstRow, TokenError>
    ensures gives { Gives first_row_tree result scan.old scan.new end_of }
    ensures last { last_line scan.new ≡ last_line scan.old }
{
    eol(scan)?;
    Ok(FirstRow::End)
}

/// The row of a group's name, or the one that ends the text.
#[tactic(auto, unfolding(crate::specs::inner::GroupRows::first_row))]
pub fn read_first_row<'a>(alloc: Global, scan: &mut Scan<'a>) -> Result<FirstRow, TokenError>
    ensures gives { Gives first_row_tree result scan.old scan.new first_row }
    ensures last { last_line scan.new ≡ last_line scan.old }
{
    match peek(scan) {
        Some((Token::Atom(name), ahead)) => {
            if name == b"end".as_slice() {
                *scan = ahead;
                end_of(scan)
            } else if name == b"group".as_slice() {
                *scan = ahead;
                name_row(alloc, scan)
            } else {
                Err(TokenError::Bad)
            }
        }
        _ => Err(TokenError::Bad),
    }
}

/// The row before the first group.
pub fn read_title<'a>(scan: &mut Scan<'a>, version: Version) -> Result<(), TokenError>
    ensures gives { Gives (λ _. (tt, (tt, tt))) result scan.old scan.new
        (title_row (version_of version)) }
    ensures last { last_line scan.new ≡ last_line scan.old }
{
    keyword(scan, b"mcproof")?;
    read_mark(scan, version.title())?;
    Ok(())
}
