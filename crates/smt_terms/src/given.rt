//! Values that are given and told, as what terms stand for.

ghost use Rattle.std.specs.Prelude.{◌≡◌, ◌^◌, ◌↔◌, true, IfOk, IsTrue};
ghost use Rattle.std.specs.FinMap.{get};
ghost use Rattle.rv_words.specs.Limits.{AreBytesBelow};
ghost use Rattle.std.specs.List.{AllByRecursion};
ghost use Rattle.smt_terms.specs.Operators.{is_width};
ghost use Rattle.smt_terms.specs.Sorts.{is_sort};
ghost use Rattle.smt_terms.specs.Values.{IsOfSort, smt_value_at};
ghost use Rattle.smt_terms.specs.inner.Datum.{meaning, sort_of_datum};
ghost use Rattle.smt_terms.specs.inner.Taking.{Takes, TakesAll};

use crate::array::Array;
use crate::datum::Datum;
use crate::smt::Smt;
use crate::sort::Sort;
use crate::vector::Vector;
use rv_words::{ByteMap, List, NoMemory, Text};
use std::alloc::Global;
use std::rc::Rc;

/// What inputs stand for, if they are as many as the parameters and each is of its parameter's
/// sort.
#[tactic(auto, using(crate::proofs::Taking::taken_first, crate::proofs::Taking::taken_more, crate::proofs::Taking::taken_none, crate::proofs::Taking::taken_done, crate::proofs::Taking::taken_unequal, crate::proofs::Taking::sort_at))]
pub fn taken(
    alloc: Global,
    params: &[(Text, Sort)],
    inputs: &[Smt],
) -> Result<Option<List<Datum>>, NoMemory>
    requires { AllByRecursion (λ p. is_sort p.1 ≡ true) params.now }
    ensures { IfOk result (λ ds. TakesAll params.now inputs.now ds) }
{
    if params.len() != inputs.len() {
        return Ok(None);
    }
    let mut args = List::new(alloc);
    for i in 0..params.len() {
        match datum_of(alloc, params[i].1, &inputs[i])? {
            Some(datum) => args.push(datum)?,
            None => return Ok(None),
        }
    }
    Ok(Some(args))
}

/// What an input stands for at a sort, if it is of it.
fn datum_of(alloc: Global, sort: Sort, input: &Smt) -> Result<Option<Datum>, NoMemory>
    requires { is_sort sort ≡ true }
    ensures { IfOk result (λ d. Takes sort input.now d) }
{
    match sort {
        Sort::Bool => Ok(truth_of(input)),
        Sort::Bits(width) => Ok(vector_of(width, input)),
        Sort::Array(width) => array_of(alloc, width, input),
    }
}

fn truth_of(input: &Smt) -> Option<Datum>
    ensures { Takes Sort.Bool input.now result }
{
    match input {
        Smt::Bool(b) => Some(Datum::Truth(*b)),
        _ => None,
    }
}

#[tactic(auto, using(crate::proofs::Vectors::low_small))]
fn vector_of(width: u32, input: &Smt) -> Option<Datum>
    requires { is_width width ≡ true }
    ensures { Takes (Sort.Bits width) input.now result }
{
    match input {
        Smt::Bits(w, number) => {
            if *w != width {
                return None;
            }
            let vector = Vector::new(width, *number);
            if vector.number != *number {
                return None;
            }
            Some(Datum::Bits(vector))
        }
        _ => None,
    }
}

#[tactic(auto, using(crate::proofs::Arrays::copied_below))]
fn array_of(alloc: Global, width: u32, input: &Smt) -> Result<Option<Datum>, NoMemory>
    requires { is_sort (Sort.Array width) ≡ true }
    ensures { IfOk result (λ d. Takes (Sort.Array width) input.now d) }
{
    match input {
        Smt::Bytes(map) => {
            if !has_width(map, width) {
                return Ok(None);
            }
            let copy = map.copy(alloc)?;
            let bytes = Rc::new(alloc, copy)?;
            Ok(Some(Datum::Array(Array { width, bytes })))
        }
        _ => Ok(None),
    }
}

/// Whether each byte of the map is an element of that width, of 1 or 8 bits.
fn has_width(map: &ByteMap, width: u32) -> bool
    requires { is_sort (Sort.Array width) ≡ true }
    ensures { IsTrue result ↔ AreBytesBelow (2 ^ width) (get map.now) }
{
    map.law_of_values();
    if width == 8 {
        return true;
    }
    map.is_below(2)
}

/// What a term stands for, as a value.
#[tactic(auto, using(crate::proofs::Arrays::same_below))]
pub fn told(alloc: Global, datum: &Datum) -> Result<Smt, NoMemory>
    ensures sort { IfOk result (λ x. IsOfSort (sort_of_datum datum.now) x) }
    ensures value { IfOk result (λ x.
        smt_value_at (sort_of_datum datum.now) x ≡ meaning datum.now) }
{
    match datum {
        Datum::Truth(b) => Ok(Smt::Bool(*b)),
        Datum::Bits(v) => Ok(Smt::Bits(v.width, v.number)),
        Datum::Array(a) => {
            let bytes = a.bytes.copy(alloc)?;
            Ok(Smt::Bytes(bytes))
        }
    }
}
