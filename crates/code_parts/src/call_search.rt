//! The search for the functions of an entry.

ghost use Rattle.std.specs.Prelude.{IfOk, IfSome, IfNone};
ghost use Rattle.elf_image.specs.Image.{code_in};
ghost use Rattle.flow_graph.specs.Reach.{reach_limit};
ghost use Rattle.code_parts.specs.Causes.{SizesOver};
ghost use Rattle.code_parts.specs.inner.Finding.{IsFound};

use crate::called_addresses::{calls, lowest_fault, note_callees};
use elf_image::Image;
use flow_graph::{REACH_LIMIT, Visited, reached};
use rv_words::NoMemory;
use std::alloc::Global;

/// What a search from an entry finds.
#[derive(Drop)]
pub struct Found {
    /// The functions, in the order in which they were met.
    pub functions: Visited,
    /// Whether one of them calls the one that was searched from.
    pub called: bool,
    /// The least of their addresses that has a fault.
    pub fault: Option<u64>,
}

/// The functions of an entry, or `None` where their sizes sum to more than 1,024. What is reached
/// behind a fault counts too.
pub fn search(alloc: Global, image: &Image, entry: u64) -> Result<Option<Found>, NoMemory>
    ensures found { IfOk result (λ o. IfSome o (IsFound (code_in image.now.pieces) entry)) }
    ensures large { IfOk result (λ o.
        IfNone o (SizesOver (code_in image.now.pieces) entry reach_limit)) }
{
    let mut functions = Visited::new(alloc);
    functions.add(entry)?;
    let mut called = false;
    let mut fault = None;
    let mut total = 0;
    let mut i = 0;
    'functions: while i < functions.len() {
        let Some(addresses) = reached(alloc, true, image, functions.get(i))? else {
            return Ok(None);
        };
        total += addresses.len();
        if total > REACH_LIMIT {
            return Ok(None);
        }
        called |= calls(image, &addresses, entry);
        fault = lowest_fault(image, &addresses, fault);
        note_callees(image, &addresses, &mut functions)?;
        i += 1;
    }
    Ok(Some(Found {
        functions,
        called,
        fault,
    }))
}
