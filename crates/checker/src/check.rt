//! The check of proof texts whose lines state whole triples, with the further rule of their
//! version.

ghost use Rattle.std.specs.Prelude.{◌≡◌, [], ◌⊎◌, ◌<◌, ◌≤◌, ◌^◌, ℕ, List as Items, None, IfSome, true, false};
ghost use Rattle.elf_image.specs.Fault.{IsReadable};
ghost use Rattle.elf_image.specs.Image.{image_of};
ghost use Rattle.mc_shelf.specs.inner.OnlyReads.{OnlyReads};
ghost use Rattle.group_text.specs.Version.{version_of};
ghost use Rattle.proof_text.specs.FirstProofs.{HasGiven};
ghost use Rattle.proof_text.specs.Line.{ProofTree};
ghost use Rattle.proof_text.specs.LineGrammar.{whole_lines};
ghost use Rattle.proof_text.specs.Proofs.{groups_of};
ghost use Rattle.proof_text.specs.Pulling.{held_text, left_of, progress_in};
ghost use Rattle.proof_text.specs.inner.PulledRows.{IfFile};
ghost use Rattle.verdicts.specs.declared.verdict.Verdict.{Verdict as VerdictOf};
ghost use Rattle.claims.specs.Headline.{Headline};
ghost use Rattle.verdicts.specs.Further.{further_of};
ghost use Rattle.verdicts.specs.Pulled.{IfVerdict, as_verdict, is_outside};
ghost use Rattle.verdicts.specs.Verdicts.{IsAcceptance, IsTextOf, IsTextOver, Says, SaysBy};

use crate::whole_judge::{OverNumbers, WholeLines};
use elf_image::{ElfFault, Image, read};
use group_text::Version;
use mc_shelf::Shelf;
use proof_text::{ProofSource, Pull, Reader};
use std::alloc::Global;
use verdicts::{Pulled, RuledReader, Verdict, check_source};

/// Checks a proof text of version 1 for an ELF file, from the bytes of both.
pub fn check_bytes(alloc: Global, elf: &[u8], proof: &[u8]) -> Verdict
    // What the verdict says of them.
    ensures verdict { Says elf.now proof.now result }

    // Where they are accepted, the functions of the text are right.
    ensures headline { IsAcceptance result
        → (ps : Items ProofTree)
        → IsTextOf proof.now ps
        → Headline elf.now (groups_of ps) }

    // A verdict that says what is so comes, but for lack of memory.
    ensures exact { (v : VerdictOf)
        → Says elf.now proof.now v
        → (result ≡ v) ⊎ (v ≡ Verdict.NoMemory) ⊎ (result ≡ Verdict.NoMemory) }
{
    check_text(alloc, elf, proof, Version::One)
}

/// Checks a proof text of that version, whose lines state whole triples, for an ELF file.
pub fn check_text(alloc: Global, elf: &[u8], proof: &[u8], version: Version) -> Verdict
    // What the verdict says of them.
    ensures verdict { SaysBy (further_of version) (version_of version) elf.now proof.now result }

    // Where they are accepted, in a version with one memory at most, the functions of the text are
    // right.
    ensures headline { (version_of version).most_mems ≤ 1
        → IsAcceptance result
        → (ps : Items ProofTree)
        → IsTextOver whole_lines (version_of version) proof.now ps
        → Headline elf.now (groups_of ps) }

    // A verdict that says what is so comes, but for lack of memory.
    ensures exact { (v : VerdictOf)
        → SaysBy (further_of version) (version_of version) elf.now proof.now v
        → (result ≡ v) ⊎ (v ≡ Verdict.NoMemory) ⊎ (result ≡ Verdict.NoMemory) }
{
    match read(alloc, elf) {
        Ok(image) => check_image(alloc, &image, proof, version),
        Err(ElfFault::NoMemory) => Verdict::NoMemory,
        Err(fault) => Verdict::BadElf(fault),
    }
}

/// Checks a proof text of that version, whose lines state whole triples, for an ELF file that was
/// read.
pub fn check_image(alloc: Global, image: &Image, proof: &[u8], version: Version) -> Verdict
    // What the verdict says of them.
    ensures verdict { (elf : Items ℕ)
        → IsReadable elf
        → image.now ≡ image_of elf
        → SaysBy (further_of version) (version_of version) elf proof.now result }

    // Where they are accepted, in a version with one memory at most, the functions of the text are
    // right.
    ensures headline { (elf : Items ℕ)
        → IsReadable elf
        → image.now ≡ image_of elf
        → (version_of version).most_mems ≤ 1
        → IsAcceptance result
        → (ps : Items ProofTree)
        → IsTextOver whole_lines (version_of version) proof.now ps
        → Headline elf (groups_of ps) }

    // A verdict that says what is so comes, but for lack of memory.
    ensures exact { (elf : Items ℕ)
        → IsReadable elf
        → image.now ≡ image_of elf
        → (v : VerdictOf)
        → SaysBy (further_of version) (version_of version) elf proof.now v
        → (result ≡ v) ⊎ (v ≡ Verdict.NoMemory) ⊎ (result ≡ Verdict.NoMemory) }
{
    judge_image(alloc, image, proof, version)
}

/// The verdict on a proof text of that version for an ELF file that was read.
fn judge_image(alloc: Global, image: &Image, proof: &[u8], version: Version) -> Verdict
    ensures verdict { (elf : Items ℕ)
        → IsReadable elf
        → image.now ≡ image_of elf
        → SaysBy (further_of version) (version_of version) elf proof.now result }
{
    let mut reader = Reader::of_version(proof, version);
    match judge_source(alloc, image, &mut reader, &mut (), version) {
        Pulled::Verdict(verdict) => verdict,
        Pulled::Fault => Verdict::NoMemory,
    }
}

/// Checks the text of a file of that version that is read line by line, and whose lines state whole
/// triples, for an ELF file that was read.
pub fn check_pulled<S: Shelf>(
    alloc: Global,
    image: &Image,
    pull: &mut Pull<'_>,
    version: Version,
    shelf: &mut S,
) -> Pulled
    requires version { pull.old.version ≡ version }
    requires going { (pull.old.refused ≡ None) × (pull.old.ended ≡ false) }
    requires given { (file : Items ℕ) → HasGiven [] (progress_in pull.old file) }
    requires few { left_of pull.old < 2 ^ 63 }

    // Where it is told what the name holds: what the verdict says of the files, that the functions
    // of a text that is accepted are right, in a version with one memory at most, and that a
    // verdict that says what is so comes, but for lack of memory.
    ensures verdict { (elf : Items ℕ)
        → IsReadable elf
        → image.now ≡ image_of elf
        → IfVerdict result (λ v.
        IfFile (S.contents shelf.old) pull.old.rows.lines.name (λ file.
        SaysBy (further_of version) (version_of version) elf (held_text pull.old file) v)) }
    ensures headline { (elf : Items ℕ)
        → IsReadable elf
        → image.now ≡ image_of elf
        → (version_of version).most_mems ≤ 1
        → IfVerdict result (λ v.
        IfFile (S.contents shelf.old) pull.old.rows.lines.name (λ file.
        IsAcceptance v
        → (ps : Items ProofTree)
        → IsTextOver whole_lines (version_of version) (held_text pull.old file) ps
        → Headline elf (groups_of ps))) }
    ensures exact { (elf : Items ℕ)
        → IsReadable elf
        → image.now ≡ image_of elf
        → IfVerdict result (λ w.
        IfFile (S.contents shelf.old) pull.old.rows.lines.name (λ file.
        (v : VerdictOf)
        → SaysBy (further_of version) (version_of version) elf (held_text pull.old file) v
        → (w ≡ v) ⊎ (v ≡ Verdict.NoMemory) ⊎ (w ≡ Verdict.NoMemory))) }

    // Over every shelf: it only reads, and tells a fault only where one was counted.
    ensures shelf { OnlyReads S.contents S.read_faults S.write_faults S.IsSure
        (is_outside result ≡ true) pull.old.rows.lines.name shelf.old shelf.new }
{
    judge_source(alloc, image, pull, shelf, version)
}

/// The verdict on a text of that version for an ELF file that was read.
fn judge_source<E, P: ProofSource<E, RuledReader<WholeLines>>>(
    alloc: Global,
    image: &Image,
    source: &mut P,
    from: &mut E,
    version: Version,
) -> Pulled
    requires version { P.version source.old ≡ version }
    requires going { P.Goes source.old }
    requires given { IfSome (P.told source.old from.old) (HasGiven []) }
    requires few { P.left source.old < 2 ^ 63 }
    ensures verdict { (elf : Items ℕ)
        → IsReadable elf
        → image.now ≡ image_of elf
        → IfSome (P.told source.old from.old) (λ r.
        SaysBy (further_of version) (version_of version) elf r.text (as_verdict result)) }
    ensures lends { P.Lends (is_outside result) source.old from.old source.new from.new }
{
    let mut kept = RuledReader { lines: WholeLines };
    check_source(alloc, image, source, from, &mut kept, &OverNumbers, version)
}
