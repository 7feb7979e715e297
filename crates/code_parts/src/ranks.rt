//! How many functions calls lead to, from each of some functions.

ghost use Rattle.std.specs.Prelude.{ℕ, IfOk, IfErr, length};
ghost use Rattle.elf_image.specs.Image.{code_in};
ghost use Rattle.code_parts.specs.Causes.{IsCallGraphFault};
ghost use Rattle.code_parts.specs.inner.Finding.{AreRanks, IsFine, IsRanked, IsUnranked};

use crate::call_fault::{CallGraphFault, LinkWhy};
use crate::call_search::search;
use elf_image::Image;
use flow_graph::{Outside, Visited};
use rv_words::List;
use std::alloc::Global;

/// The rank of a function that doesn't call itself, or why it has none.
fn rank(alloc: Global, image: &Image, entry: u64) -> Result<usize, CallGraphFault>
    ensures ok { IfOk result (IsRanked (code_in image.now.pieces) entry) }
    ensures err { IfErr result (IsUnranked (code_in image.now.pieces) entry) }
{
    let Some(found) = search(alloc, image, entry)? else {
        return Err(CallGraphFault::Refused(LinkWhy::Outside(Outside::TooLarge)));
    };
    if found.called {
        return Err(CallGraphFault::Refused(LinkWhy::Recursive(entry)));
    }
    Ok(found.functions.len())
}

/// The ranks of functions, or the first of these that calls itself.
pub fn ranks(alloc: Global, image: &Image, entries: &Visited) -> Result<List<usize>, CallGraphFault>
    ensures ok { IfOk result (λ rs.
        AreRanks (code_in image.now.pieces) entries.now rs (length entries.now)) }
    ensures err { (e : ℕ)
        → IsFine (code_in image.now.pieces) e entries.now
        → IfErr result (IsCallGraphFault (code_in image.now.pieces) e) }
{
    let mut ranks = List::new(alloc);
    let mut i = 0;
    'functions: while i < entries.len() {
        match rank(alloc, image, entries.get(i)) {
            Ok(n) => ranks.push(n)?,
            Err(why) => return Err(why),
        }
        i += 1;
    }
    Ok(ranks)
}
