//! The functions that can be linked.

ghost use Rattle.std.specs.Prelude.{◌≡◌, ◌∷◌, ◌++◌, [], ℕ, IfOk, IfErr, OnOk, length};
ghost use Rattle.std.specs.List.Sorted.{IsNonDecreasingBy, IsPermutation};
ghost use Rattle.elf_image.specs.Image.{code_in};
ghost use Rattle.code_parts.specs.Causes.{IsCallGraphFault};
ghost use Rattle.code_parts.specs.Functions.{AreFunctions};
ghost use Rattle.code_parts.specs.inner.Finding as finding;
ghost use Rattle.code_parts.specs.inner.Finding.{AreMade, AreRanks, IsFine};

use crate::call_fault::{CallGraphFault, LinkWhy};
use crate::call_search::search;
use crate::called_addresses::fault_at;
use crate::linked_function::{Function, function_at};
use crate::ranks::ranks;
use elf_image::Image;
use flow_graph::{FlowFault, Outside, Visited};
use rv_words::{List, NoMemory};
use std::alloc::Global;

/// The entries of the functions that calls lead to, rising, or that there is too much code, or the
/// fault of the least address that has one.
fn entries(alloc: Global, image: &Image, entry: u64) -> Result<Visited, CallGraphFault>
    ensures ok { IfOk result (IsFine (code_in image.now.pieces) entry) }
    ensures err { IfErr result (IsCallGraphFault (code_in image.now.pieces) entry) }
{
    let Some(found) = search(alloc, image, entry)? else {
        return Err(CallGraphFault::Refused(LinkWhy::Outside(Outside::TooLarge)));
    };
    let mut functions = found.functions;
    match fault_at(image, found.fault) {
        Some(why) => Err(CallGraphFault::Refused(LinkWhy::Outside(why))),
        None => {
            functions.sort()?;
            Ok(functions)
        }
    }
}

/// Why functions aren't given, where this is why one of them isn't.
fn refusal(why: FlowFault) -> CallGraphFault
    ensures { result ≡ finding.refusal why }
{
    match why {
        FlowFault::Outside(why) => CallGraphFault::Refused(LinkWhy::Outside(why)),
        FlowFault::NoMemory => CallGraphFault::NoMemory,
    }
}

/// Adds a function at the end.
fn add(functions: &mut Vec<Function>, function: Function) -> Result<(), NoMemory>
    ensures { OnOk result (functions.new.items ≡ functions.old.items ++ function ∷ []) }
{
    functions.push(function)?;
    Ok(())
}

/// The functions with these entries and ranks, or the fault of the first of these that has one.
fn functions_at(
    alloc: Global,
    image: &Image,
    entries: &Visited,
    ranks: &[usize],
) -> Result<Vec<Function>, CallGraphFault>
    requires { length ranks.now ≡ length entries.now }
    ensures ok { IfOk result (λ fs.
        AreMade (code_in image.now.pieces) entries.now ranks.now fs.items (length entries.now)) }
    ensures err { (e : ℕ)
        → IsFine (code_in image.now.pieces) e entries.now
        → AreRanks (code_in image.now.pieces) entries.now ranks.now (length entries.now)
        → IfErr result (IsCallGraphFault (code_in image.now.pieces) e) }
{
    let mut functions = Vec::new(alloc);
    let mut i = 0;
    'functions: while i < entries.len() {
        match function_at(alloc, image, entries.get(i), ranks[i]) {
            Ok(function) => add(&mut functions, function)?,
            Err(why) => return Err(refusal(why)),
        }
        i += 1;
    }
    Ok(functions)
}

/// Sorts functions by rank.
fn sort(functions: &mut Vec<Function>) -> Result<(), NoMemory>
    ensures moved { IsPermutation functions.old.items functions.new.items }
    ensures sorted { OnOk result (IsNonDecreasingBy (λ f. f.rank) functions.new.items) }
{
    functions.sort_by_key(|f| f.rank)?;
    Ok(())
}

/// The functions that calls lead to from an entry, each once with its graph and its loops: what a
/// function calls stands before it, the one at the entry last. Or the first reason for which they
/// can't be linked.
pub fn linked_functions(
    alloc: Global,
    image: &Image,
    entry: u64,
) -> Result<List<Function>, CallGraphFault>
    ensures ok { IfOk result (AreFunctions (code_in image.now.pieces) entry) }
    ensures err { IfErr result (IsCallGraphFault (code_in image.now.pieces) entry) }
{
    let entries = entries(alloc, image, entry)?;
    let ranks = ranks(alloc, image, &entries)?;
    let mut functions = functions_at(alloc, image, &entries, ranks.as_slice())?;
    sort(&mut functions)?;
    Ok(List::from_vec(functions))
}
