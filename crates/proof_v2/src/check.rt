//! The check of a proof text in the version that its first line names.

ghost use Rattle.std.specs.Prelude.{◌≡◌, ◌⊎◌, ◌<◌, ◌^◌, ℕ, List as Items, take, true};
ghost use Rattle.elf_image.specs.Fault.{IsReadable};
ghost use Rattle.elf_image.specs.Image.{image_of};
ghost use Rattle.mc_shelf.specs.inner.OnlyReads.{OnlyReads};
ghost use Rattle.tailrec_lang.specs.Tree.{GroupTree};
ghost use Rattle.group_text.specs.Version.{version_3, version_4};
ghost use Rattle.proof_text.specs.Line.{ProofTree};
ghost use Rattle.proof_text.specs.LineGrammar.{whole_lines};
ghost use Rattle.proof_text.specs.Proofs.{groups_of};
ghost use Rattle.proof_text.specs.inner.PulledRows.{IfFile};
ghost use Rattle.claims.specs.Headline.{Headline};
ghost use Rattle.verdicts.specs.Pulled.{IfVerdict, is_outside};
ghost use Rattle.verdicts.specs.Verdicts.{IsAcceptance, IsTextOver, SaysBy};
ghost use Rattle.verdicts.specs.declared.verdict.Verdict.{Verdict as VerdictOf};
ghost use Rattle.frame_compose.specs.Rules.{IsExchanged, IsSteered};
ghost use Rattle.proof_v2.specs.AnyText.{ListsIn};
ghost use Rattle.proof_v2.specs.AnyVerdicts.{IsTextListing, SaysAny, SaysIn, SaysOf};
ghost use Rattle.proof_v2.specs.Titles.{any_version};

use crate::title::{any_version, as_any, held_version, is_short};
use checker::{check_pulled, check_pulled_short, check_short, check_text};
use elf_image::Image;
use mc_shelf::{LineFault, Lines, Shelf};
use proof_text::{Pull, Reader, Version};
use std::alloc::Global;
use verdicts::{Pulled, Verdict};

// ---- texts in memory

/// Checks a proof text of version 1 or 2 for an ELF file.
pub fn check_any_bytes(alloc: Global, elf: &[u8], proof: &[u8]) -> Verdict
    // What the verdict says of them.
    ensures verdict { SaysAny elf.now proof.now result }

    // Where they are accepted, the functions of the text are right.
    ensures headline { IsAcceptance result
        → (gs : Items GroupTree)
        → ListsIn (any_version proof.now) proof.now gs
        → Headline elf.now gs }

    // A verdict that says what is so comes, but for lack of memory.
    ensures exact { (v : VerdictOf)
        → SaysAny elf.now proof.now v
        → (result ≡ v) ⊎ (v ≡ Verdict.NoMemory) ⊎ (result ≡ Verdict.NoMemory) }
{
    check_in(alloc, elf, proof, any_version(proof))
}

/// Checks a proof text of that version for an ELF file.
fn check_in(alloc: Global, elf: &[u8], proof: &[u8], version: Version) -> Verdict
    ensures { SaysIn version elf.now proof.now result }
{
    if is_short(version) {
        let mut reader = Reader::of_version(proof, version);
        check_short(alloc, elf, &mut reader)
    } else {
        check_text(alloc, elf, proof, version)
    }
}

/// Checks a proof text of version 3, whose lines may state a triple by `steer`, for an ELF file.
pub fn check_linked(alloc: Global, elf: &[u8], proof: &[u8]) -> Verdict
    // What the verdict says of them.
    ensures verdict { SaysBy IsSteered version_3 elf.now proof.now result }

    // Where they are accepted, the functions of the text are right.
    ensures headline { IsAcceptance result
        → (ps : Items ProofTree)
        → IsTextOver whole_lines version_3 proof.now ps
        → Headline elf.now (groups_of ps) }

    // A verdict that says what is so comes, but for lack of memory.
    ensures exact { (v : VerdictOf)
        → SaysBy IsSteered version_3 elf.now proof.now v
        → (result ≡ v) ⊎ (v ≡ Verdict.NoMemory) ⊎ (result ≡ Verdict.NoMemory) }
{
    check_text(alloc, elf, proof, Version::Three)
}

/// Checks a proof text of version 4, whose lines may state a triple by `exchange`, for an ELF file.
pub fn check_split(alloc: Global, elf: &[u8], proof: &[u8]) -> Verdict
    // What the verdict says of them.
    ensures verdict { SaysBy IsExchanged version_4 elf.now proof.now result }

    // Where they are accepted, the functions of the text are right: over any two regions that are
    // apart, one for each memory.
    ensures headline { IsAcceptance result
        → (ps : Items ProofTree)
        → IsTextOver whole_lines version_4 proof.now ps
        → Headline elf.now (groups_of ps) }

    // A verdict that says what is so comes, but for lack of memory.
    ensures exact { (v : VerdictOf)
        → SaysBy IsExchanged version_4 elf.now proof.now v
        → (result ≡ v) ⊎ (v ≡ Verdict.NoMemory) ⊎ (result ≡ Verdict.NoMemory) }
{
    check_text(alloc, elf, proof, Version::Four)
}

// ---- texts in files

/// Checks the proof text that a name holds, up to so many bytes, for an ELF file that was read. The
/// text is read line by line, in the version that its first line names.
pub fn check_file<S: Shelf>(
    alloc: Global,
    image: &Image,
    name: &str,
    size: u64,
    shelf: &mut S,
) -> Pulled
    requires few { size < 2 ^ 63 }

    // Where it is told what the name holds: what the verdict says of the files, that the functions
    // of a text that is accepted are right, and that a verdict that says what is so comes, but for
    // out of memory.
    ensures verdict { (elf : Items ℕ)
        → IsReadable elf
        → image.now ≡ image_of elf
        → IfVerdict result (λ v.
        IfFile (S.contents shelf.old) name.now (λ file. SaysOf elf (take size file) v)) }
    ensures headline { (elf : Items ℕ)
        → IsReadable elf
        → image.now ≡ image_of elf
        → IfVerdict result (λ v. IfFile (S.contents shelf.old) name.now (λ file.
        IsAcceptance v
        → (gs : Items GroupTree)
        → IsTextListing (take size file) gs
        → Headline elf gs)) }
    ensures exact { (elf : Items ℕ)
        → IsReadable elf
        → image.now ≡ image_of elf
        → IfVerdict result (λ w. IfFile (S.contents shelf.old) name.now (λ file.
        (v : VerdictOf)
        → SaysOf elf (take size file) v
        → (w ≡ v) ⊎ (v ≡ Verdict.NoMemory) ⊎ (w ≡ Verdict.NoMemory))) }

    // Over every shelf: it only reads, and tells a fault only where one was counted.
    ensures shelf { OnlyReads S.contents S.read_faults S.write_faults S.IsSure
        (is_outside result ≡ true) name.now shelf.old shelf.new }
{
    match held_version(alloc, name, size, shelf) {
        Ok(version) => check_held(alloc, image, name, size, version, shelf),
        Err(LineFault::Fault) => Pulled::Fault,
        Err(LineFault::NoMemory) => Pulled::Verdict(Verdict::NoMemory),
    }
}

/// Checks the proof text of version 1 or 2 that a name holds, up to so many bytes, for an ELF file
/// that was read. The text is read line by line, in the version that its first line names.
pub fn check_any<S: Shelf>(
    alloc: Global,
    image: &Image,
    name: &str,
    size: u64,
    shelf: &mut S,
) -> Pulled
    requires few { size < 2 ^ 63 }

    // Where it is told what the name holds: what the verdict says of the files, that the functions
    // of a text that is accepted are right, and that a verdict that says what is so comes, but for
    // out of memory.
    ensures verdict { (elf : Items ℕ)
        → IsReadable elf
        → image.now ≡ image_of elf
        → IfVerdict result (λ v.
        IfFile (S.contents shelf.old) name.now (λ file. SaysAny elf (take size file) v)) }
    ensures headline { (elf : Items ℕ)
        → IsReadable elf
        → image.now ≡ image_of elf
        → IfVerdict result (λ v. IfFile (S.contents shelf.old) name.now (λ file.
        IsAcceptance v
        → (gs : Items GroupTree)
        → ListsIn (any_version (take size file)) (take size file) gs
        → Headline elf gs)) }
    ensures exact { (elf : Items ℕ)
        → IsReadable elf
        → image.now ≡ image_of elf
        → IfVerdict result (λ w. IfFile (S.contents shelf.old) name.now (λ file.
        (v : VerdictOf)
        → SaysAny elf (take size file) v
        → (w ≡ v) ⊎ (v ≡ Verdict.NoMemory) ⊎ (w ≡ Verdict.NoMemory))) }

    // Over every shelf: it only reads, and tells a fault only where one was counted.
    ensures shelf { OnlyReads S.contents S.read_faults S.write_faults S.IsSure
        (is_outside result ≡ true) name.now shelf.old shelf.new }
{
    match held_version(alloc, name, size, shelf) {
        Ok(named) => {
            let version = as_any(named);
            check_held(alloc, image, name, size, version, shelf)
        }
        Err(LineFault::Fault) => Pulled::Fault,
        Err(LineFault::NoMemory) => Pulled::Verdict(Verdict::NoMemory),
    }
}

/// Checks the text that a name holds, up to so many bytes, as one of that version, for an ELF file
/// that was read.
fn check_held<S: Shelf>(
    alloc: Global,
    image: &Image,
    name: &str,
    size: u64,
    version: Version,
    shelf: &mut S,
) -> Pulled
    requires few { size < 2 ^ 63 }
    ensures verdict { (elf : Items ℕ)
        → IsReadable elf
        → image.now ≡ image_of elf
        → IfVerdict result (λ v.
        IfFile (S.contents shelf.old) name.now (λ file. SaysIn version elf (take size file) v)) }
    ensures shelf { OnlyReads S.contents S.read_faults S.write_faults S.IsSure
        (is_outside result ≡ true) name.now shelf.old shelf.new }
{
    let lines = Lines::new(name, size);
    let mut pull = Pull::of_version(lines, version);
    if is_short(version) {
        check_pulled_short(alloc, image, &mut pull, shelf)
    } else {
        check_pulled(alloc, image, &mut pull, version, shelf)
    }
}
