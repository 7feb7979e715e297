//! Terms put in for the variables of a whole triple.
#![tactic(auto, using(crate::proofs::ImageLemmas::image_stays, held_terms::proofs::GrowthLemmas::longer, held_terms::proofs::GrowthLemmas::extends_next, crate::proofs::ImagingLemmas::free_all, crate::proofs::ImagingLemmas::made_still))]

ghost use Rattle.std.specs.Prelude.{◌≤◌, ◌+◌, ◌*◌, IfOk, List as Items, OnOk, length, ◌≡◌, ◌↔◌, IsTrue};
ghost use Rattle.std.specs.List.{AllZip};
ghost use Rattle.term_arena.specs.Arena.{Extends, Tree};
ghost use Rattle.triple_kernel.specs.Rules.{IsInst};
ghost use Rattle.held_terms.specs.Held.{AreFactsAt, AreRegistersAt, AreValuesAt, IsFactAt, IsHeldAt, IsSideAt, triple_of};
ghost use Rattle.held_instances.specs.Image.{IsReady, IsSubAt, put_for_numbers};
ghost use Rattle.held_terms.specs.Subterms.{HasFact, HasFacts, HasHeld, HasRegisters, HasSide, HasTerms, HasValues};
ghost use Rattle.held_instances.specs.inner.Imaging.{AreMade, Imaged};
ghost use Rattle.held_instances.specs.inner.Instances.{AreImagesOf, AreWithin, IsFactImage, IsRegisterImage, IsSideImage, IsValuesImage};

use crate::image_table::ImageTable;
use crate::images::image;
use crate::listing::Listing;
use held_terms::{Held, HeldFact, HeldSide, HeldValues, same_triple};
use rv_words::{List, NoMemory};
use std::alloc::Global;
use std::sync::ledger::Ledger;
use term_arena::{Arena, Steps};

/// The triple with all listed variables replaced at once, but for its code. Each different term of
/// the triple takes two steps at most. The table is for the images that are made on the way; what
/// it had of other triples is forgotten.
pub fn instance<L: Ledger>(
    alloc: Global,
    arena: &mut Arena,
    known: &mut ImageTable,
    p: &Held,
    words: &[(u32, u64)],
    mems: &[(u32, u64)],
    steps: &mut Steps<L>,
) -> Result<Held, NoMemory>
    requires p { IsHeldAt arena.old p.now }
    requires sub { IsSubAt arena.old words.now mems.now }
    ensures there { IfOk result (λ q. IsHeldAt arena.new q) }
    ensures instance { IfOk result (λ q.
        IsInst (put_for_numbers arena.old words.now mems.now) (triple_of arena.old p.now)
        (triple_of arena.new q)) }
    ensures grows { Extends arena.old arena.new }
    ensures steps { (ts : Items Tree)
        → HasHeld arena.old p.now ts
        → steps.new ≤ steps.old + 2 * length ts }
{
    known.clear();
    let word_terms = Listing::new(alloc, words);
    let mem_terms = Listing::new(alloc, mems);
    let q = held_image(alloc, arena, &word_terms, &mem_terms, known, p, steps);
    arena.law_of_nodes();
    q
}

fn held_image<L: Ledger>(
    alloc: Global,
    arena: &mut Arena,
    words: &Listing,
    mems: &Listing,
    known: &mut ImageTable,
    p: &Held,
    steps: &mut Steps<L>,
) -> Result<Held, NoMemory>
    requires p { IsHeldAt arena.old p.now }
    requires ready { IsReady arena.old words.now mems.now known.old }
    requires made { AreMade known.old }
    ensures there { IfOk result (λ q. IsHeldAt arena.new q) }
    ensures instance { IfOk result (λ q.
        IsInst (put_for_numbers arena.old words.now mems.now) (triple_of arena.old p.now)
        (triple_of arena.new q)) }
    ensures grows { Extends arena.old arena.new }
    ensures imaged { Imaged arena.old arena.new (HasHeld arena.old p.now) known.old known.new
        steps.old steps.new }
{
    let facts = fact_images(alloc, arena, words, mems, known, p.facts.as_slice(), steps)?;
    let pre = side_image(alloc, arena, words, mems, known, &p.pre, steps)?;
    let post = side_image(alloc, arena, words, mems, known, &p.post, steps)?;
    let code = p.code.share()?;
    Held::new(alloc, facts, pre, code, post)
}

/// The images of numbers, in order.
fn images<L: Ledger>(
    alloc: Global,
    arena: &mut Arena,
    words: &Listing,
    mems: &Listing,
    known: &mut ImageTable,
    xs: &[u64],
    steps: &mut Steps<L>,
) -> Result<List<u64>, NoMemory>
    requires within { AreWithin arena.old xs.now }
    requires ready { IsReady arena.old words.now mems.now known.old }
    requires made { AreMade known.old }
    ensures images { IfOk result (λ ys.
        AreImagesOf arena.new (put_for_numbers arena.new words.now mems.now) xs.now ys) }
    ensures ready { IsReady arena.new words.now mems.now known.new }
    ensures grows { Extends arena.old arena.new }
    ensures made { OnOk result (AreMade known.new) }
    ensures imaged { Imaged arena.old arena.new (HasTerms arena.old xs.now) known.old known.new
        steps.old steps.new }
{
    let mut ys = List::with_capacity(alloc, xs.len())?;
    for i in 0..xs.len() {
        let y = image(arena, words, mems, known, xs[i], steps)?;
        ys.push(y)?;
    }
    Ok(ys)
}

/// The registers with the images of their terms.
fn register_images<L: Ledger>(
    alloc: Global,
    arena: &mut Arena,
    words: &Listing,
    mems: &Listing,
    known: &mut ImageTable,
    registers: &[(u8, u64)],
    steps: &mut Steps<L>,
) -> Result<List<(u8, u64)>, NoMemory>
    requires registers { AreRegistersAt arena.old registers.now }
    requires ready { IsReady arena.old words.now mems.now known.old }
    requires made { AreMade known.old }
    ensures images { IfOk result (λ qs.
        AllZip (IsRegisterImage arena.new (put_for_numbers arena.new words.now mems.now))
        registers.now qs) }
    ensures ready { IsReady arena.new words.now mems.now known.new }
    ensures grows { Extends arena.old arena.new }
    ensures made { OnOk result (AreMade known.new) }
    ensures imaged { Imaged arena.old arena.new (HasRegisters arena.old registers.now) known.old
        known.new steps.old steps.new }
{
    let mut images = List::with_capacity(alloc, registers.len())?;
    for i in 0..registers.len() {
        let y = image(arena, words, mems, known, registers[i].1, steps)?;
        images.push((registers[i].0, y))?;
    }
    Ok(images)
}

fn values_image<L: Ledger>(
    alloc: Global,
    arena: &mut Arena,
    words: &Listing,
    mems: &Listing,
    known: &mut ImageTable,
    values: &HeldValues,
    steps: &mut Steps<L>,
) -> Result<HeldValues, NoMemory>
    requires values { AreValuesAt arena.old values.now }
    requires ready { IsReady arena.old words.now mems.now known.old }
    requires made { AreMade known.old }
    ensures image { IfOk result (λ w.
        IsValuesImage arena.new (put_for_numbers arena.new words.now mems.now) values.now w) }
    ensures ready { IsReady arena.new words.now mems.now known.new }
    ensures grows { Extends arena.old arena.new }
    ensures made { OnOk result (AreMade known.new) }
    ensures imaged { Imaged arena.old arena.new (HasValues arena.old values.now) known.old known.new
        steps.old steps.new }
{
    let first = images(
        alloc,
        arena,
        words,
        mems,
        known,
        values.words.as_slice(),
        steps,
    )?;
    let second = images(
        alloc,
        arena,
        words,
        mems,
        known,
        values.mems.as_slice(),
        steps,
    )?;
    Ok(HeldValues {
        words: first,
        mems: second,
    })
}

fn fact_image<L: Ledger>(
    alloc: Global,
    arena: &mut Arena,
    words: &Listing,
    mems: &Listing,
    known: &mut ImageTable,
    fact: &HeldFact,
    steps: &mut Steps<L>,
) -> Result<HeldFact, NoMemory>
    requires fact { IsFactAt arena.old fact.now }
    requires ready { IsReady arena.old words.now mems.now known.old }
    requires made { AreMade known.old }
    ensures image { IfOk result (λ f.
        IsFactImage arena.new (put_for_numbers arena.new words.now mems.now) fact.now f) }
    ensures ready { IsReady arena.new words.now mems.now known.new }
    ensures grows { Extends arena.old arena.new }
    ensures made { OnOk result (AreMade known.new) }
    ensures imaged { Imaged arena.old arena.new (HasFact arena.old fact.now) known.old known.new
        steps.old steps.new }
{
    match fact {
        HeldFact::WordIs(a, b) => {
            let x = image(arena, words, mems, known, *a, steps)?;
            let y = image(arena, words, mems, known, *b, steps)?;
            Ok(HeldFact::WordIs(x, y))
        }
        HeldFact::MemIs(a, b) => {
            let x = image(arena, words, mems, known, *a, steps)?;
            let y = image(arena, words, mems, known, *b, steps)?;
            Ok(HeldFact::MemIs(x, y))
        }
        HeldFact::So(c) => {
            let x = image(arena, words, mems, known, *c, steps)?;
            Ok(HeldFact::So(x))
        }
        HeldFact::Gives {
            def,
            exit,
            args,
            results,
        } => {
            let x = values_image(alloc, arena, words, mems, known, args, steps)?;
            let y = values_image(alloc, arena, words, mems, known, results, steps)?;
            Ok(HeldFact::Gives {
                def: *def,
                exit: *exit,
                args: x,
                results: y,
            })
        }
    }
}

fn fact_images<L: Ledger>(
    alloc: Global,
    arena: &mut Arena,
    words: &Listing,
    mems: &Listing,
    known: &mut ImageTable,
    facts: &[HeldFact],
    steps: &mut Steps<L>,
) -> Result<List<HeldFact>, NoMemory>
    requires facts { AreFactsAt arena.old facts.now }
    requires ready { IsReady arena.old words.now mems.now known.old }
    requires made { AreMade known.old }
    ensures images { IfOk result (λ gs.
        AllZip (IsFactImage arena.new (put_for_numbers arena.new words.now mems.now)) facts.now
        gs) }
    ensures ready { IsReady arena.new words.now mems.now known.new }
    ensures grows { Extends arena.old arena.new }
    ensures made { OnOk result (AreMade known.new) }
    ensures imaged { Imaged arena.old arena.new (HasFacts arena.old facts.now) known.old known.new
        steps.old steps.new }
{
    let mut images = List::with_capacity(alloc, facts.len())?;
    for fact in facts {
        let image = fact_image(alloc, arena, words, mems, known, fact, steps)?;
        images.push(image)?;
    }
    Ok(images)
}

fn side_image<L: Ledger>(
    alloc: Global,
    arena: &mut Arena,
    words: &Listing,
    mems: &Listing,
    known: &mut ImageTable,
    side: &HeldSide,
    steps: &mut Steps<L>,
) -> Result<HeldSide, NoMemory>
    requires side { IsSideAt arena.old side.now }
    requires ready { IsReady arena.old words.now mems.now known.old }
    requires made { AreMade known.old }
    ensures image { IfOk result (λ b.
        IsSideImage arena.new (put_for_numbers arena.new words.now mems.now) side.now b) }
    ensures ready { IsReady arena.new words.now mems.now known.new }
    ensures grows { Extends arena.old arena.new }
    ensures made { OnOk result (AreMade known.new) }
    ensures imaged { Imaged arena.old arena.new (HasSide arena.old side.now) known.old known.new
        steps.old steps.new }
{
    let pc = image(arena, words, mems, known, side.pc, steps)?;
    let regs = register_images(
        alloc,
        arena,
        words,
        mems,
        known,
        side.regs.as_slice(),
        steps,
    )?;
    let memories = images(
        alloc,
        arena,
        words,
        mems,
        known,
        side.mems.as_slice(),
        steps,
    )?;
    HeldSide::new(alloc, pc, regs, memories)
}

/// Terms for the variables of a theorem, all put in at once. Its code stays: whether the stated one
/// is the same is told by the caller. Each different term of the theorem takes two steps at most.
pub fn is_instance<L: Ledger>(
    alloc: Global,
    arena: &mut Arena,
    known: &mut ImageTable,
    p: &Held,
    words: &[(u32, u64)],
    mems: &[(u32, u64)],
    stated: &Held,
    same_code: bool,
    steps: &mut Steps<L>,
) -> Result<bool, NoMemory>
    requires p { IsHeldAt arena.old p.now }
    requires sub { IsSubAt arena.old words.now mems.now }
    requires stated { IsHeldAt arena.old stated.now }
    requires code { IsTrue same_code ↔ (p.now.code.ranges ≡ stated.now.code.ranges) }
    ensures answer { IfOk result (λ r.
        IsTrue r
        ↔ IsInst (put_for_numbers arena.old words.now mems.now) (triple_of arena.old p.now)
        (triple_of arena.old stated.now)) }
    ensures grows { Extends arena.old arena.new }
    ensures steps { (ts : Items Tree)
        → HasHeld arena.old p.now ts
        → steps.new ≤ steps.old + 2 * length ts }
{
    let put_in = instance(alloc, arena, known, p, words, mems, steps)?;
    Ok(same_triple(arena, &put_in, stated, same_code))
}
