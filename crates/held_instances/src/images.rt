//! Terms put in for variables: the number of the image of a term.

ghost use Rattle.std.specs.Prelude.{◌≡◌, ◌<◌, ◌+◌, IfOk, OnOk, Some as Just, length, slice_get};
ghost use Rattle.term_arena.specs.Arena.{Extends};
ghost use Rattle.held_instances.specs.Image.{IsImage, IsReady, put_for_numbers};
ghost use Rattle.held_instances.specs.inner.ImageNode.{ImageNode};
ghost use Rattle.held_instances.specs.inner.Imaging.{AreEnded, Imaged, IsFree};
ghost use Rattle.held_terms.specs.Subterms.{HasTerm};

use crate::image_table::ImageTable;
use crate::listing::Listing;
use rv_words::NoMemory;
use std::sync::ledger::Ledger;
use term_arena::{Arena, Node, Steps, law_of_arenas};

/// The number of the image of a term. Each number whose image is asked for is kept, so it is read
/// once, and one node is added for it.
#[cycle(images)]
#[tactic(auto, using(crate::proofs::ImageLemmas::image_stays, crate::proofs::ImageLemmas::get_stays, held_terms::proofs::GrowthLemmas::longer))]
pub fn image<L: Ledger>(
    arena: &mut Arena,
    words: &Listing,
    mems: &Listing,
    known: &mut ImageTable,
    x: u64,
    steps: &mut Steps<L>,
) -> Result<u64, NoMemory>
    requires there { x < length arena.old }
    requires ready { IsReady arena.old words.now mems.now known.old }
    requires free { IsFree known.old (x + 1) }
    ensures image { IfOk result (λ y.
        IsImage arena.new (put_for_numbers arena.new words.now mems.now) x y) }
    ensures ready { IsReady arena.new words.now mems.now known.new }
    ensures grows { Extends arena.old arena.new }
    ensures ended { OnOk result (AreEnded known.old known.new) }
    ensures imaged { Imaged arena.old arena.new (HasTerm arena.old x) known.old known.new steps.old
        steps.new }
{
    if let Some(y) = known.get(x) {
        return Ok(y);
    }
    known.insert(x, None)?;
    let y = image_over(arena, words, mems, known, x, steps)?;
    known.insert(x, Some(y))?;
    Ok(y)
}

/// The number of the image of a term, which isn't known.
#[cycle(images)]
#[tactic(auto, using(crate::proofs::ImageLemmas::image_stays, crate::proofs::ImageLemmas::get_stays, held_terms::proofs::GrowthLemmas::longer, crate::proofs::ImagingLemmas::free_less, crate::proofs::ImagingLemmas::free_next, crate::proofs::ImagingLemmas::free_after, crate::proofs::ImagingLemmas::ended_none, crate::proofs::ImagingLemmas::ended_both))]
fn image_over<L: Ledger>(
    arena: &mut Arena,
    words: &Listing,
    mems: &Listing,
    known: &mut ImageTable,
    x: u64,
    steps: &mut Steps<L>,
) -> Result<u64, NoMemory>
    requires there { x < length arena.old }
    requires ready { IsReady arena.old words.now mems.now known.old }
    requires free { IsFree known.old x }
    ensures image { IfOk result (λ y.
        IsImage arena.new (put_for_numbers arena.new words.now mems.now) x y) }
    ensures ready { IsReady arena.new words.now mems.now known.new }
    ensures grows { Extends arena.old arena.new }
    ensures ended { OnOk result (AreEnded known.old known.new) }
    ensures imaged { Imaged arena.old arena.new (HasTerm arena.old x) known.old known.new
        (steps.old + 2) steps.new }
{
    let n = arena.node(x, steps);
    match n {
        Node::Const(_) => Ok(x),
        Node::WordVar(i) => Ok(words.number_for(i, x)),
        Node::MemVar(i) => Ok(mems.number_for(i, x)),
        Node::Bin(op, a, b) => {
            let a = image(arena, words, mems, known, a, steps)?;
            let b = image(arena, words, mems, known, b, steps)?;
            made(arena, words, mems, known, x, n, Node::Bin(op, a, b), steps)
        }
        Node::Extend(ext, a) => {
            let a = image(arena, words, mems, known, a, steps)?;
            made(arena, words, mems, known, x, n, Node::Extend(ext, a), steps)
        }
        Node::Load(width, m, a) => {
            let m = image(arena, words, mems, known, m, steps)?;
            let a = image(arena, words, mems, known, a, steps)?;
            made(
                arena,
                words,
                mems,
                known,
                x,
                n,
                Node::Load(width, m, a),
                steps,
            )
        }
        Node::Store(width, m, a, v) => {
            let m = image(arena, words, mems, known, m, steps)?;
            let a = image(arena, words, mems, known, a, steps)?;
            let v = image(arena, words, mems, known, v, steps)?;
            made(
                arena,
                words,
                mems,
                known,
                x,
                n,
                Node::Store(width, m, a, v),
                steps,
            )
        }
        Node::Compare(cmp, a, b) => {
            let a = image(arena, words, mems, known, a, steps)?;
            let b = image(arena, words, mems, known, b, steps)?;
            made(
                arena,
                words,
                mems,
                known,
                x,
                n,
                Node::Compare(cmp, a, b),
                steps,
            )
        }
        Node::Neg(c) => {
            let c = image(arena, words, mems, known, c, steps)?;
            made(arena, words, mems, known, x, n, Node::Neg(c), steps)
        }
        Node::Inside(width, m, a) => {
            let m = image(arena, words, mems, known, m, steps)?;
            let a = image(arena, words, mems, known, a, steps)?;
            made(
                arena,
                words,
                mems,
                known,
                x,
                n,
                Node::Inside(width, m, a),
                steps,
            )
        }
    }
}

/// Adds the image of a node, whose children's images were made.
fn made<L: Ledger>(
    arena: &mut Arena,
    words: &Listing,
    mems: &Listing,
    known: &ImageTable,
    x: u64,
    n: Node,
    m: Node,
    steps: &mut Steps<L>,
) -> Result<u64, NoMemory>
    requires at { slice_get arena.old x ≡ Just n }
    requires node { ImageNode arena.old (put_for_numbers arena.old words.now mems.now) n m }
    requires ready { IsReady arena.old words.now mems.now known.now }
    ensures image { IfOk result (λ y.
        IsImage arena.new (put_for_numbers arena.new words.now mems.now) x y) }
    ensures ready { IsReady arena.new words.now mems.now known.now }
    ensures grows { Extends arena.old arena.new }
    ensures steps { steps.new ≡ steps.old + 1 }
{
    law_of_arenas();
    arena.law_of_nodes();
    let y = arena.add(m, steps)?;
    Ok(y)
}
