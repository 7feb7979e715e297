//! Reading a table's terms for variables.

ghost use Rattle.std.specs.Prelude.{◌≡◌, IfOk};
ghost use Rattle.mc_text.specs.Reading.{atom_of, is_open, one, star};
ghost use Rattle.mc_text.specs.inner.Reading.{checked};
ghost use Rattle.mc_text.specs.Outcome.{Gives, last_line};
ghost use Rattle.short_text.specs.inner.ShortReading.{mem_places, place_at, place_of, place_parts, places_rise, word_places};

use crate::kind::Kind;
use crate::terms::read_term;
use group_text::variable_of;
use mc_text::cursor::{accept, is_open, left, right};
use mc_text::{Scan, TokenError};
use rv_words::{List, NoMemory};
use std::alloc::Global;
use term_arena::Node;

/// A variable of a word or of a memory.
#[derive(Clone, Copy, PartialEq, Eq)]
pub enum Place {
    ForWord(u32),
    ForMem(u32),
}

/// The variable of that name.
#[tactic(auto, unfolding(crate::specs::inner::ShortReading::place_of))]
fn place_of(name: &[u8]) -> Option<Place>
    ensures { result ≡ place_of name.now }
{
    if let Some(i) = variable_of(b'v', name) {
        Some(Place::ForWord(i))
    } else if let Some(i) = variable_of(b'm', name) {
        Some(Place::ForMem(i))
    } else {
        None
    }
}

/// The variable, after its parenthesis.
#[tactic(auto, unfolding(mc_text::specs::Reading::one), using(mc_text::proofs::AtomAhead::no_atom_of))]
fn place_name<'a>(scan: &mut Scan<'a>) -> Result<Place, TokenError>
    ensures gives { Gives (λ h. h) result scan.old scan.new (one (atom_of place_of)) }
    ensures last { last_line scan.new ≡ last_line scan.old }
{
    match scan.atom_ahead() {
        Some((name, ahead)) => accept(scan, ahead, place_of(name)),
        None => Err(TokenError::Bad),
    }
}

/// The term for a variable, with the parenthesis behind it.
fn read_parts<'a>(
    scan: &mut Scan<'a>,
    table: &[Node],
    place: Place,
) -> Result<(Place, u64), TokenError>
    ensures gives { Gives (λ p. p) result scan.old scan.new (place_parts table.now place) }
    ensures last { last_line scan.new ≡ last_line scan.old }
{
    match place {
        Place::ForWord(i) => {
            let word = read_term(scan, table, Kind::Word)?;
            right(scan)?;
            Ok((Place::ForWord(i), word))
        }
        Place::ForMem(i) => {
            let mem = read_term(scan, table, Kind::Mem)?;
            right(scan)?;
            Ok((Place::ForMem(i), mem))
        }
    }
}

#[tactic(auto, unfolding(crate::specs::inner::ShortReading::place_at))]
fn read_place<'a>(scan: &mut Scan<'a>, table: &[Node]) -> Result<(Place, u64), TokenError>
    ensures gives { Gives (λ p. p) result scan.old scan.new (place_at table.now) }
    ensures last { last_line scan.new ≡ last_line scan.old }
{
    left(scan)?;
    let place = place_name(scan)?;
    read_parts(scan, table, place)
}

/// The terms for variables up to a token other than a left parenthesis.
fn read_all_places<'a>(
    alloc: Global,
    scan: &mut Scan<'a>,
    table: &[Node],
) -> Result<List<(Place, u64)>, TokenError>
    ensures gives { Gives (λ places. places) result scan.old scan.new
        (star is_open (place_at table.now)) }
    ensures last { last_line scan.new ≡ last_line scan.old }
{
    let mut places = List::new(alloc);
    'places: while is_open(scan) {
        match read_place(scan, table) {
            Ok(place) => places.push(place)?,
            Err(stop) => return Err(stop),
        }
    }
    Ok(places)
}

/// Whether all variables of words stand before all of memories, and those of each kind rise.
fn places_rise(places: &[(Place, u64)]) -> bool
    ensures { result ≡ places_rise 0 places.now }
{
    let mut mems = false;
    let mut least: u64 = 0;
    for place in places {
        let (is_mem, i) = match place.0 {
            Place::ForWord(i) => (false, u64::from(i)),
            Place::ForMem(i) => (true, u64::from(i)),
        };
        let follows = if is_mem == mems { least <= i } else { is_mem };
        if !follows {
            return false;
        }
        mems = is_mem;
        least = i + 1;
    }
    true
}

/// The terms for variables, all words before all memories, those of each kind rising.
pub fn read_places<'a>(
    alloc: Global,
    scan: &mut Scan<'a>,
    table: &[Node],
) -> Result<List<(Place, u64)>, TokenError>
    ensures gives { Gives (λ places. places) result scan.old scan.new
        (checked (places_rise 0) (star is_open (place_at table.now))) }
    ensures last { last_line scan.new ≡ last_line scan.old }
{
    let places = read_all_places(alloc, scan, table)?;
    if !places_rise(places.as_slice()) {
        return Err(TokenError::Bad);
    }
    Ok(places)
}

/// The variables of words with their terms, in their order.
pub fn word_places(alloc: Global, places: &[(Place, u64)]) -> Result<List<(u32, u64)>, NoMemory>
    ensures { IfOk result (λ words. words ≡ word_places places.now) }
{
    let mut words = List::new(alloc);
    for place in places {
        match place.0 {
            Place::ForWord(i) => words.push((i, place.1))?,
            Place::ForMem(_) => {}
        }
    }
    Ok(words)
}

/// The variables of memories with their terms, in their order.
pub fn mem_places(alloc: Global, places: &[(Place, u64)]) -> Result<List<(u32, u64)>, NoMemory>
    ensures { IfOk result (λ mems. mems ≡ mem_places places.now) }
{
    let mut mems = List::new(alloc);
    for place in places {
        match place.0 {
            Place::ForWord(_) => {}
            Place::ForMem(i) => mems.push((i, place.1))?,
        }
    }
    Ok(mems)
}
