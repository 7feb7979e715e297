//! Reading assertions over a table's terms.

ghost use Rattle.std.specs.Prelude.{◌≡◌};
ghost use Rattle.mc_text.specs.Reading.{is_open, star};
ghost use Rattle.mc_text.specs.Outcome.{Gives, last_line};
ghost use Rattle.short_text.specs.inner.ShortReading.{held_register_at, held_side_at, numbers_rise, registers_to_semi, side_rises};

use crate::kind::Kind;
use crate::terms::{read_term, read_terms};
use group_text::read_register;
use held_terms::HeldSide;
use mc_text::cursor::{is_open, left, right, semi};
use mc_text::{Scan, TokenError};
use rv_words::List;
use std::alloc::Global;
use term_arena::Node;

/// A register and what it holds.
#[tactic(auto, unfolding(crate::specs::inner::ShortReading::held_register_at))]
fn read_held_register<'a>(scan: &mut Scan<'a>, table: &[Node]) -> Result<(u8, u64), TokenError>
    ensures gives { Gives (λ r. r) result scan.old scan.new (held_register_at table.now) }
    ensures last { last_line scan.new ≡ last_line scan.old }
{
    left(scan)?;
    let register = read_register(scan)?;
    let word = read_term(scan, table, Kind::Word)?;
    right(scan)?;
    Ok((register, word))
}

/// The registers up to a token other than a left parenthesis.
fn read_held_registers<'a>(
    alloc: Global,
    scan: &mut Scan<'a>,
    table: &[Node],
) -> Result<List<(u8, u64)>, TokenError>
    ensures gives { Gives (λ regs. regs) result scan.old scan.new
        (star is_open (held_register_at table.now)) }
    ensures last { last_line scan.new ≡ last_line scan.old }
{
    let mut regs = List::new(alloc);
    'regs: while is_open(scan) {
        match read_held_register(scan, table) {
            Ok(register) => regs.push(register)?,
            Err(stop) => return Err(stop),
        }
    }
    Ok(regs)
}

/// Whether registers rise from 1 to 31, whatever they hold.
fn numbers_rise(registers: &[(u8, u64)]) -> bool
    ensures { result ≡ numbers_rise registers.now }
{
    let mut least = 1;
    for register in registers {
        if register.0 < least || register.0 > 31 {
            return false;
        }
        least = register.0 + 1;
    }
    true
}

/// Registers that rise, with the semicolon behind them.
pub fn read_rising<'a>(
    alloc: Global,
    scan: &mut Scan<'a>,
    table: &[Node],
) -> Result<List<(u8, u64)>, TokenError>
    ensures gives { Gives (λ regs. (regs, tt)) result scan.old scan.new
        (registers_to_semi table.now) }
    ensures last { last_line scan.new ≡ last_line scan.old }
{
    let regs = read_held_registers(alloc, scan, table)?;
    semi(scan)?;
    if !numbers_rise(regs.as_slice()) {
        return Err(TokenError::Bad);
    }
    Ok(regs)
}

fn side_rises(side: &HeldSide) -> bool
    ensures { result ≡ side_rises side.now }
{
    numbers_rise(side.regs.as_slice())
}

/// An assertion.
#[tactic(auto, unfolding(crate::specs::inner::ShortReading::held_side_at))]
pub fn read_held_side<'a>(
    alloc: Global,
    scan: &mut Scan<'a>,
    table: &[Node],
) -> Result<HeldSide, TokenError>
    ensures gives { Gives (λ s. s) result scan.old scan.new (held_side_at table.now) }
    ensures last { last_line scan.new ≡ last_line scan.old }
{
    left(scan)?;
    let pc = read_term(scan, table, Kind::Word)?;
    let regs = read_held_registers(alloc, scan, table)?;
    semi(scan)?;
    let mems = read_terms(alloc, scan, table, Kind::Mem)?;
    right(scan)?;
    let side = HeldSide::new(alloc, pc, regs, mems)?;
    if !side_rises(&side) {
        return Err(TokenError::Bad);
    }
    Ok(side)
}
