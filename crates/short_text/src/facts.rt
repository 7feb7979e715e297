//! Reading facts over a table's terms.

ghost use Rattle.std.specs.Prelude.{◌≡◌};
ghost use Rattle.mc_text.specs.Reading.{atom_of, is_open, is_right, one, star};
ghost use Rattle.mc_text.specs.inner.Reading.{is_semi};
ghost use Rattle.mc_text.specs.Outcome.{Gives, last_line};
ghost use Rattle.short_text.specs.inner.ShortReading.{fact_name_of, held_fact_at, held_fact_parts, held_values_with};

use crate::heads::{FactName, fact_name_of};
use crate::kind::Kind;
use crate::terms::{read_term, read_terms};
use group_text::read_index;
use held_terms::{HeldFact, HeldValues};
use mc_text::cursor::{accept, is_open, left, right, semi};
use mc_text::{Scan, TokenError};
use rv_words::List;
use std::alloc::Global;
use term_arena::Node;

/// Words and memories, with the semicolon behind them.
fn read_arguments<'a>(
    alloc: Global,
    scan: &mut Scan<'a>,
    table: &[Node],
) -> Result<HeldValues, TokenError>
    ensures gives { Gives (λ v. v) result scan.old scan.new
        (held_values_with table.now (one is_semi)) }
    ensures last { last_line scan.new ≡ last_line scan.old }
{
    let words = read_terms(alloc, scan, table, Kind::Word)?;
    semi(scan)?;
    let mems = read_terms(alloc, scan, table, Kind::Mem)?;
    semi(scan)?;
    Ok(HeldValues { words, mems })
}

/// Words and memories, with the parenthesis behind them.
fn read_results<'a>(
    alloc: Global,
    scan: &mut Scan<'a>,
    table: &[Node],
) -> Result<HeldValues, TokenError>
    ensures gives { Gives (λ v. v) result scan.old scan.new
        (held_values_with table.now (one is_right)) }
    ensures last { last_line scan.new ≡ last_line scan.old }
{
    let words = read_terms(alloc, scan, table, Kind::Word)?;
    semi(scan)?;
    let mems = read_terms(alloc, scan, table, Kind::Mem)?;
    right(scan)?;
    Ok(HeldValues { words, mems })
}

/// The name of a form of a fact.
#[tactic(auto, unfolding(mc_text::specs::Reading::one), using(mc_text::proofs::AtomAhead::no_atom_of))]
fn fact_name<'a>(scan: &mut Scan<'a>) -> Result<FactName, TokenError>
    ensures gives { Gives (λ h. h) result scan.old scan.new (one (atom_of fact_name_of)) }
    ensures last { last_line scan.new ≡ last_line scan.old }
{
    match scan.atom_ahead() {
        Some((name, ahead)) => accept(scan, ahead, fact_name_of(name)),
        None => Err(TokenError::Bad),
    }
}

/// What stands after the name of a form.
fn read_parts<'a>(
    alloc: Global,
    scan: &mut Scan<'a>,
    table: &[Node],
    name: FactName,
) -> Result<HeldFact, TokenError>
    ensures gives { Gives (λ f. f) result scan.old scan.new (held_fact_parts table.now name) }
    ensures last { last_line scan.new ≡ last_line scan.old }
{
    match name {
        FactName::WordIs => {
            let a = read_term(scan, table, Kind::Word)?;
            let b = read_term(scan, table, Kind::Word)?;
            right(scan)?;
            Ok(HeldFact::WordIs(a, b))
        }
        FactName::MemIs => {
            let a = read_term(scan, table, Kind::Mem)?;
            let b = read_term(scan, table, Kind::Mem)?;
            right(scan)?;
            Ok(HeldFact::MemIs(a, b))
        }
        FactName::So => {
            let c = read_term(scan, table, Kind::Cond)?;
            right(scan)?;
            Ok(HeldFact::So(c))
        }
        FactName::Gives => {
            let def = read_index(scan)?;
            let exit = read_index(scan)?;
            let args = read_arguments(alloc, scan, table)?;
            let results = read_results(alloc, scan, table)?;
            Ok(HeldFact::Gives {
                def,
                exit,
                args,
                results,
            })
        }
    }
}

#[tactic(auto, unfolding(crate::specs::inner::ShortReading::held_fact_at))]
fn read_fact<'a>(alloc: Global, scan: &mut Scan<'a>, table: &[Node]) -> Result<HeldFact, TokenError>
    ensures gives { Gives (λ f. f) result scan.old scan.new (held_fact_at table.now) }
    ensures last { last_line scan.new ≡ last_line scan.old }
{
    left(scan)?;
    let name = fact_name(scan)?;
    read_parts(alloc, scan, table, name)
}

/// The facts up to a token other than a left parenthesis.
pub fn read_held_facts<'a>(
    alloc: Global,
    scan: &mut Scan<'a>,
    table: &[Node],
) -> Result<List<HeldFact>, TokenError>
    ensures gives { Gives (λ facts. facts) result scan.old scan.new
        (star is_open (held_fact_at table.now)) }
    ensures last { last_line scan.new ≡ last_line scan.old }
{
    let mut facts = List::new(alloc);
    'facts: while is_open(scan) {
        match read_fact(alloc, scan, table) {
            Ok(fact) => facts.push(fact)?,
            Err(stop) => return Err(stop),
        }
    }
    Ok(facts)
}
