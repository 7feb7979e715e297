//! Reading the rows of certificates, each by itself.

ghost use Rattle.std.specs.Prelude.{◌≡◌, IfOk};
ghost use Rattle.mc_text.specs.Reading.{atom_of, one};
ghost use Rattle.mc_text.specs.Outcome.{Gives, last_line};
ghost use Rattle.group_text.specs.inner.RowReader.{read_as};
ghost use Rattle.fun_laws.specs.inner.Reading.{are_digits, is_number, is_step, name_row, numbers, place_of, step_at, title_row};
ghost use Rattle.fun_laws.specs.inner.Views.{name_view};

use crate::step::Rw;
use group_text::{ReadRow, RowStart, read_index, read_name};
use mc_text::cursor::{eol, keyword, peek};
use mc_text::{Scan, Token, TokenError};
use rv_words::{Bytes, List, NoMemory, Text};
use std::alloc::Global;

/// Whether the bytes are digits.
fn are_digits(bytes: &[u8]) -> bool
    ensures { result ≡ are_digits bytes.now }
{
    for byte in bytes {
        if !(*byte >= b'0' && *byte <= b'9') {
            return false;
        }
    }
    true
}

/// Whether the bytes are one digit or more.
fn is_number(bytes: &[u8]) -> bool
    ensures { result ≡ is_number bytes.now }
{
    bytes.len() >= 1 && are_digits(bytes)
}

/// The numbers that digits stand for.
fn numbers(alloc: Global, digits: &[u8]) -> Result<Bytes, NoMemory>
    ensures { IfOk result (λ ks. ks ≡ numbers digits.now) }
{
    let mut ks = List::new(alloc);
    for digit in digits {
        ks.push(digit.saturating_sub(b'0'))?;
    }
    Ok(ks)
}

/// The place in a term that an atom spells.
#[tactic(auto, unfolding(mc_text::specs::Reading::one, crate::specs::inner::Reading::place_of))]
fn read_place<'a>(alloc: Global, scan: &mut Scan<'a>) -> Result<Bytes, TokenError>
    ensures gives { Gives (λ ks. ks) result scan.old scan.new (one (atom_of place_of)) }
    ensures last { last_line scan.new ≡ last_line scan.old }
{
    match peek(scan) {
        Some((Token::Atom(atom), ahead)) => {
            if atom == b"-".as_slice() {
                *scan = ahead;
                Ok(List::new(alloc))
            } else if is_number(atom) {
                let ks = numbers(alloc, atom)?;
                *scan = ahead;
                Ok(ks)
            } else {
                Err(TokenError::Bad)
            }
        }
        _ => Err(TokenError::Bad),
    }
}

/// The row of a step.
#[tactic(auto, unfolding(crate::specs::inner::Reading::step_at))]
fn read_step<'a>(alloc: Global, scan: &mut Scan<'a>) -> Result<Rw, TokenError>
    ensures gives { Gives (λ r. r) result scan.old scan.new step_at }
    ensures last { last_line scan.new ≡ last_line scan.old }
{
    keyword(scan, b"rw")?;
    let def = read_index(scan)?;
    let term = read_index(scan)?;
    let place = read_place(alloc, scan)?;
    let law = read_index(scan)?;
    eol(scan)?;
    Ok(Rw {
        def,
        term,
        place,
        law,
    })
}

/// The first row.
#[tactic(auto, unfolding(crate::specs::inner::Reading::title_row))]
fn read_title<'a>(scan: &mut Scan<'a>) -> Result<(), TokenError>
    ensures gives { Gives (λ _. (tt, (tt, tt))) result scan.old scan.new title_row }
    ensures last { last_line scan.new ≡ last_line scan.old }
{
    keyword(scan, b"mclaws")?;
    keyword(scan, b"1")?;
    eol(scan)?;
    Ok(())
}

/// The row of the group's name.
#[tactic(auto, unfolding(crate::specs::inner::Reading::name_row))]
fn read_name_row<'a>(alloc: Global, scan: &mut Scan<'a>) -> Result<Text, TokenError>
    ensures gives { Gives name_view result scan.old scan.new name_row }
    ensures last { last_line scan.new ≡ last_line scan.old }
{
    keyword(scan, b"group")?;
    let name = read_name(alloc, scan)?;
    eol(scan)?;
    Ok(name)
}

/// The row of a step.
#[derive(Drop)]
pub struct StepRow;

impl ReadRow<Rw> for StepRow {
    ghost reads = { λ _. read_as (λ r. r) step_at };

    fn read<'a>(&self, alloc: Global, scan: &mut Scan<'a>) -> Result<Rw, TokenError> {
        read_step(alloc, scan)
    }
}

impl RowStart for StepRow {
    ghost goes = { is_step };

    fn begins(&self, scan: &Scan<'_>) -> bool {
        match peek(scan) {
            Some((Token::Atom(name), _)) => name == b"rw".as_slice(),
            _ => false,
        }
    }
}

/// The title.
#[derive(Drop)]
pub struct TitleRow;

impl ReadRow<()> for TitleRow {
    ghost reads = { λ _. read_as (λ _. (tt, (tt, tt))) title_row };

    fn read<'a>(&self, _alloc: Global, scan: &mut Scan<'a>) -> Result<(), TokenError> {
        read_title(scan)
    }
}

/// The row of the group's name.
#[derive(Drop)]
pub struct NameRow;

impl ReadRow<Text> for NameRow {
    ghost reads = { λ _. read_as name_view name_row };

    fn read<'a>(&self, alloc: Global, scan: &mut Scan<'a>) -> Result<Text, TokenError> {
        read_name_row(alloc, scan)
    }
}
