//! What stands at the addresses of one function: calls and faults.

ghost use Rattle.std.specs.Prelude.{◌≡◌, ◌↔◌, IsTrue, OnOk, Some, length, true};
ghost use Rattle.elf_image.specs.Image.{code_in};
ghost use Rattle.flow_graph.specs.Flow.{look};
ghost use Rattle.code_parts.specs.Calls as spec;
ghost use Rattle.code_parts.specs.inner.Finding as finding;
ghost use Rattle.code_parts.specs.inner.Finding.{IsCalledAt, NotesCallees};

use elf_image::Image;
use flow_graph::{Outside, Visited, called_by, look};
use rv_decode::Instr;
use rv_words::NoMemory;

/// The function that is called at an address.
fn call_at(image: &Image, a: u64) -> Option<u64>
    ensures { result ≡ spec.call_at (code_in image.now.pieces) a }
{
    match look(true, image, a) {
        Ok(instruction) => called_by(a, instruction),
        Err(_) => None,
    }
}

/// Whether t is called at an address.
fn calls_at(image: &Image, a: u64, t: u64) -> bool
    ensures { IsTrue result ↔ (spec.call_at (code_in image.now.pieces) a ≡ Some t) }
{
    match call_at(image, a) {
        Some(callee) => callee == t,
        None => false,
    }
}

/// Whether t is called at one of these addresses.
pub fn calls(image: &Image, addresses: &Visited, t: u64) -> bool
    ensures { IsTrue result
        ↔ IsCalledAt (code_in image.now.pieces) addresses.now (length addresses.now) t }
{
    let mut i = 0;
    'addresses: while i < addresses.len() {
        if calls_at(image, addresses.get(i), t) {
            return true;
        }
        i += 1;
    }
    false
}

/// Adds the function that is called at an address.
fn note_callee(image: &Image, a: u64, functions: &mut Visited) -> Result<(), NoMemory>
    ensures { OnOk result (finding.NotesCallee (spec.call_at (code_in image.now.pieces) a)
        functions.old functions.new) }
{
    if let Some(callee) = call_at(image, a) {
        functions.add(callee)?;
    }
    Ok(())
}

/// Adds the functions that are called at these addresses.
pub fn note_callees(
    image: &Image,
    addresses: &Visited,
    functions: &mut Visited,
) -> Result<(), NoMemory>
    ensures { OnOk result (NotesCallees (code_in image.now.pieces) addresses.now
        (length addresses.now) functions.old functions.new) }
{
    let mut i = 0;
    'addresses: while i < addresses.len() {
        note_callee(image, addresses.get(i), functions)?;
        i += 1;
    }
    Ok(())
}

/// Whether an address has a fault.
fn is_refused(image: &Image, a: u64) -> bool
    ensures { result ≡ finding.is_refused (look true (code_in image.now.pieces) a) }
{
    look(true, image, a).is_err()
}

/// The lower of an address and the least one so far.
fn lower(a: u64, least: Option<u64>) -> Option<u64>
    ensures { result ≡ finding.lower a least }
{
    match least {
        Some(b) => { if a < b { Some(a) } else { Some(b) } }
        None => Some(a),
    }
}

/// The lower of an address and the least one so far, where the address has a fault.
fn lowest_with(image: &Image, a: u64, least: Option<u64>) -> Option<u64>
    ensures { result ≡ finding.lowest_with (code_in image.now.pieces) a least }
{
    if is_refused(image, a) {
        lower(a, least)
    } else {
        least
    }
}

/// The least of these addresses that has a fault, and of the least one so far.
pub fn lowest_fault(image: &Image, addresses: &Visited, least: Option<u64>) -> Option<u64>
    ensures { result ≡ finding.lowest (code_in image.now.pieces) addresses.now least }
{
    let mut lowest = least;
    let mut i = 0;
    'addresses: while i < addresses.len() {
        lowest = lowest_with(image, addresses.get(i), lowest);
        i += 1;
    }
    lowest
}

/// The fault at an address, if there is one.
pub fn fault_at(image: &Image, address: Option<u64>) -> Option<Outside>
    ensures { result ≡ finding.fault_at (code_in image.now.pieces) address }
{
    match address {
        Some(a) => fault_of(look(true, image, a)),
        None => None,
    }
}

/// The fault that was found.
fn fault_of(found: Result<Instr, Outside>) -> Option<Outside>
    ensures { result ≡ finding.fault_of found }
{
    match found {
        Ok(_) => None,
        Err(why) => Some(why),
    }
}
