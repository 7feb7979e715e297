//! Reached addresses.
ghost use Rattle.std.specs.Prelude.{◌≡◌, ◌<◌, ◌≤◌, OnOk, IfOk, IfSome, IfNone, length};
ghost use Rattle.elf_image.specs.Image.{code_in};
ghost use Rattle.flow_graph.specs.Flow as spec;
ghost use Rattle.flow_graph.specs.Flow.{Next};
ghost use Rattle.flow_graph.specs.Reach.{IsReach, ReachesOver};
ghost use Rattle.flow_graph.specs.inner.Reached.{GrowsBy, targets_of};

use crate::flow::{Targets, length_at, look, targets_at};
use crate::visited::Visited;
use elf_image::Image;
use rv_words::NoMemory;
use std::alloc::Global;

/// How many addresses a graph may have.
pub const REACH_LIMIT: usize = 1024;

/// Where the address leads.
fn next(linked: bool, image: &Image, a: u64) -> Targets
    ensures { targets_of result ≡ spec.next linked (code_in image.now.pieces) a }
{
    match look(linked, image, a) {
        Ok(instruction) => targets_at(a, length_at(image, a), instruction),
        Err(_) => Targets::Nowhere,
    }
}

/// Adds these addresses.
fn note_targets(seen: &mut Visited, targets: Targets) -> Result<(), NoMemory>
    ensures { OnOk result (GrowsBy seen.old (targets_of targets) seen.new) }
{
    match targets {
        Targets::Nowhere => {}
        Targets::One(a) => {
            seen.add(a)?;
        }
        Targets::Two(a, b) => {
            seen.add(a)?;
            seen.add(b)?;
        }
    }
    Ok(())
}

/// The addresses that are reached from the entry, or `None` where there are more than 1,024. Those
/// with a fault are among them. Where functions are linked, a call comes back.
pub fn reached(
    alloc: Global,
    linked: bool,
    image: &Image,
    entry: u64,
) -> Result<Option<Visited>, NoMemory>
    ensures reach { IfOk result (λ o.
        IfSome o (IsReach (Next linked (code_in image.now.pieces)) entry)) }
    ensures few { IfOk result (λ o. IfSome o (λ v. length v ≤ REACH_LIMIT)) }
    ensures large { IfOk result (λ o.
        IfNone o (ReachesOver (Next linked (code_in image.now.pieces)) entry REACH_LIMIT)) }
{
    let mut seen = Visited::new(alloc);
    note_targets(&mut seen, Targets::One(entry))?;
    let mut i = 0;
    'seen: while i < seen.len() {
        if seen.len() > REACH_LIMIT {
            return Ok(None);
        }
        let targets = next(linked, image, seen.get(i));
        note_targets(&mut seen, targets)?;
        i += 1;
    }
    Ok(Some(seen))
}
