//! Reading the numbers of a table's terms.

ghost use Rattle.std.specs.Prelude.{◌≡◌};
ghost use Rattle.mc_text.specs.Reading.{star};
ghost use Rattle.mc_text.specs.Outcome.{Gives, last_line};
ghost use Rattle.group_text.specs.inner.Reading.{has_atom};
ghost use Rattle.short_text.specs.inner.ShortReading.{any_term_at, lettered, number_of_kind, term_at, where_kind};

use crate::kind::{Kind, has_kind};
use group_text::has_atom;
use mc_text::cursor::accept;
use mc_text::{Scan, TokenError, dec};
use rv_words::List;
use std::alloc::Global;
use term_arena::Node;

/// The number behind a term's letter.
fn lettered(atom: &[u8]) -> Option<u64>
    ensures { result ≡ lettered atom.now }
{
    match atom {
        [first, digits @ ..] if *first == b't' => dec(digits),
        _ => None,
    }
}

/// The number, where the table has a term of that kind there.
fn where_kind(table: &[Node], kind: Kind, number: Option<u64>) -> Option<u64>
    ensures { result ≡ where_kind table.now kind number }
{
    match number {
        Some(k) if has_kind(table, kind, k) => Some(k),
        _ => None,
    }
}

/// The number of a term of that kind that an atom spells.
#[tactic(auto, unfolding(crate::specs::inner::ShortReading::number_of_kind))]
fn number_of_kind(table: &[Node], kind: Kind, atom: &[u8]) -> Option<u64>
    ensures { result ≡ number_of_kind table.now kind atom.now }
{
    where_kind(table, kind, lettered(atom))
}

/// The number of a term of that kind.
#[tactic(auto, unfolding(mc_text::specs::Reading::one), using(mc_text::proofs::AtomAhead::no_atom_of))]
pub fn read_term<'a>(scan: &mut Scan<'a>, table: &[Node], kind: Kind) -> Result<u64, TokenError>
    ensures gives { Gives (λ k. k) result scan.old scan.new (term_at table.now kind) }
    ensures last { last_line scan.new ≡ last_line scan.old }
{
    match scan.atom_ahead() {
        Some((atom, ahead)) => accept(scan, ahead, number_of_kind(table, kind, atom)),
        None => Err(TokenError::Bad),
    }
}

/// The number of a term, whatever the table has there.
#[tactic(auto, unfolding(mc_text::specs::Reading::one), using(mc_text::proofs::AtomAhead::no_atom_of))]
pub fn read_any_term<'a>(scan: &mut Scan<'a>) -> Result<u64, TokenError>
    ensures gives { Gives (λ k. k) result scan.old scan.new any_term_at }
    ensures last { last_line scan.new ≡ last_line scan.old }
{
    match scan.atom_ahead() {
        Some((atom, ahead)) => accept(scan, ahead, lettered(atom)),
        None => Err(TokenError::Bad),
    }
}

/// The numbers of terms of that kind up to a token that is no atom.
pub fn read_terms<'a>(
    alloc: Global,
    scan: &mut Scan<'a>,
    table: &[Node],
    kind: Kind,
) -> Result<List<u64>, TokenError>
    ensures gives { Gives (λ numbers. numbers) result scan.old scan.new
        (star has_atom (term_at table.now kind)) }
    ensures last { last_line scan.new ≡ last_line scan.old }
{
    let mut numbers = List::new(alloc);
    'each: while has_atom(scan) {
        match read_term(scan, table, kind) {
            Ok(number) => numbers.push(number)?,
            Err(stop) => return Err(stop),
        }
    }
    Ok(numbers)
}
