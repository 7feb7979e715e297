//! The check of proof texts of version 2: behind each group stands a table of terms, and behind it
//! lines over that.

ghost use Rattle.std.specs.Prelude.{◌≡◌, [], ◌⊎◌, ◌<◌, ◌^◌, ℕ, List as Items, None, IfSome, length, true, false};
ghost use Rattle.elf_image.specs.Fault.{IsReadable};
ghost use Rattle.elf_image.specs.Image.{image_of};
ghost use Rattle.mc_shelf.specs.inner.OnlyReads.{OnlyReads};
ghost use Rattle.group_text.specs.Version.{version_2, version_of};
ghost use Rattle.group_text.specs.declared.version.Version.TheVariants.{Two};
ghost use Rattle.proof_text.specs.FirstProofs.{HasGiven, HasGivenOver};
ghost use Rattle.proof_text.specs.Proofs.{groups_of};
ghost use Rattle.proof_text.specs.Pulling.{held_text, left_of, progress_in};
ghost use Rattle.proof_text.specs.inner.PulledRows.{IfFile};
ghost use Rattle.short_text.specs.ShortProofs.{ShortProof, short_lines};
ghost use Rattle.verdicts.specs.declared.verdict.Verdict.{Verdict as VerdictOf};
ghost use Rattle.claims.specs.Headline.{Headline};
ghost use Rattle.verdicts.specs.Pulled.{IfVerdict, as_verdict, is_outside};
ghost use Rattle.verdicts.specs.Verdicts.{IsAcceptance, IsTextOver, SaysOver};
ghost use Rattle.checker.specs.ShortRules.{short_rules};

use crate::short_judge::{ByTable, OverTables};
use elf_image::{ElfFault, Image, read};
use group_text::Version;
use mc_shelf::Shelf;
use proof_text::{ProofSource, Pull, Reader};
use short_text::law_of_short_lines;
use std::alloc::Global;
use verdicts::{Pulled, RuledReader, Verdict, check_source};

/// Checks the text of a reader of version 2 for an ELF file. The reader stands before the first
/// line of a slice.
pub fn check_short(alloc: Global, elf: &[u8], reader: &mut Reader<'_>) -> Verdict
    requires version { reader.old.version ≡ Two }
    requires given { HasGiven [] reader.old }
    requires few { length reader.old.text < 2 ^ 63 }

    // What the verdict says of them.
    ensures verdict { SaysOver short_rules version_2 elf.now reader.old.text result }

    // Where they are accepted, the functions of the text are right.
    ensures headline { IsAcceptance result
        → (ps : Items ShortProof)
        → IsTextOver short_lines version_2 reader.old.text ps
        → Headline elf.now (groups_of ps) }

    // A verdict that says what is so comes, but for lack of memory.
    ensures exact { (v : VerdictOf) → SaysOver short_rules version_2 elf.now reader.old.text v
        → (result ≡ v) ⊎ (v ≡ Verdict.NoMemory) ⊎ (result ≡ Verdict.NoMemory) }
{
    match read(alloc, elf) {
        Ok(image) => check_image(alloc, &image, reader),
        Err(ElfFault::NoMemory) => Verdict::NoMemory,
        Err(fault) => Verdict::BadElf(fault),
    }
}

/// Checks the text of a reader of version 2 for an ELF file that was read.
fn check_image(alloc: Global, image: &Image, reader: &mut Reader<'_>) -> Verdict
    requires version { reader.old.version ≡ Two }
    requires given { HasGiven [] reader.old }
    requires few { length reader.old.text < 2 ^ 63 }
    ensures verdict { (elf : Items ℕ)
        → IsReadable elf
        → image.now ≡ image_of elf
        → SaysOver short_rules version_2 elf reader.old.text result }
    ensures headline { (elf : Items ℕ)
        → IsReadable elf
        → image.now ≡ image_of elf
        → IsAcceptance result
        → (ps : Items ShortProof)
        → IsTextOver short_lines version_2 reader.old.text ps
        → Headline elf (groups_of ps) }
    ensures exact { (elf : Items ℕ)
        → IsReadable elf
        → image.now ≡ image_of elf
        → (v : VerdictOf)
        → SaysOver short_rules version_2 elf reader.old.text v
        → (result ≡ v) ⊎ (v ≡ Verdict.NoMemory) ⊎ (result ≡ Verdict.NoMemory) }
{
    judge_image(alloc, image, reader)
}

/// The verdict on the text of a reader of version 2 for an ELF file that was read.
fn judge_image(alloc: Global, image: &Image, reader: &mut Reader<'_>) -> Verdict
    requires version { reader.old.version ≡ Two }
    requires given { HasGiven [] reader.old }
    requires few { length reader.old.text < 2 ^ 63 }
    ensures verdict { (elf : Items ℕ)
        → IsReadable elf
        → image.now ≡ image_of elf
        → SaysOver short_rules version_2 elf reader.old.text result }
{
    match judge_source(alloc, image, reader, &mut ()) {
        Pulled::Verdict(verdict) => verdict,
        Pulled::Fault => Verdict::NoMemory,
    }
}

/// Checks the text of a file of version 2 that is read line by line, for an ELF file that was read.
pub fn check_pulled_short<S: Shelf>(
    alloc: Global,
    image: &Image,
    pull: &mut Pull<'_>,
    shelf: &mut S,
) -> Pulled
    requires version { pull.old.version ≡ Two }
    requires going { (pull.old.refused ≡ None) × (pull.old.ended ≡ false) }
    requires given { (file : Items ℕ) → HasGiven [] (progress_in pull.old file) }
    requires few { left_of pull.old < 2 ^ 63 }

    // Where it is told what the name holds: what the verdict says of the files, that the functions
    // of a text that is accepted are right, and that a verdict that says what is so comes, but for
    // out of memory.
    ensures verdict { (elf : Items ℕ)
        → IsReadable elf
        → image.now ≡ image_of elf
        → IfVerdict result (λ v. IfFile (S.contents shelf.old) pull.old.rows.lines.name
        (λ file. SaysOver short_rules version_2 elf (held_text pull.old file) v)) }
    ensures headline { (elf : Items ℕ)
        → IsReadable elf
        → image.now ≡ image_of elf
        → IfVerdict result (λ v.
        IfFile (S.contents shelf.old) pull.old.rows.lines.name (λ file.
        IsAcceptance v
        → (ps : Items ShortProof)
        → IsTextOver short_lines version_2 (held_text pull.old file) ps
        → Headline elf (groups_of ps))) }
    ensures exact { (elf : Items ℕ)
        → IsReadable elf
        → image.now ≡ image_of elf
        → IfVerdict result (λ w.
        IfFile (S.contents shelf.old) pull.old.rows.lines.name (λ file.
        (v : VerdictOf)
        → SaysOver short_rules version_2 elf (held_text pull.old file) v
        → (w ≡ v) ⊎ (v ≡ Verdict.NoMemory) ⊎ (w ≡ Verdict.NoMemory))) }

    // Over every shelf: it only reads, and tells a fault only where one was counted.
    ensures shelf { OnlyReads S.contents S.read_faults S.write_faults S.IsSure
        (is_outside result ≡ true) pull.old.rows.lines.name shelf.old shelf.new }
{
    judge_source(alloc, image, pull, shelf)
}

/// The verdict on a text for an ELF file that was read.
fn judge_source<E, P: ProofSource<E, RuledReader<ByTable>>>(
    alloc: Global,
    image: &Image,
    source: &mut P,
    from: &mut E,
) -> Pulled
    requires going { P.Goes source.old }
    requires given { IfSome (P.told source.old from.old) (HasGivenOver short_lines []) }
    requires few { P.left source.old < 2 ^ 63 }
    ensures verdict { (elf : Items ℕ)
        → IsReadable elf
        → image.now ≡ image_of elf
        → IfSome (P.told source.old from.old) (λ r.
        SaysOver short_rules (version_of r.version) elf r.text (as_verdict result)) }
    ensures lends { P.Lends (is_outside result) source.old from.old source.new from.new }
{
    law_of_short_lines();
    let mut kept = RuledReader {
        lines: ByTable::new(alloc),
    };
    check_source(
        alloc,
        image,
        source,
        from,
        &mut kept,
        &OverTables,
        Version::Two,
    )
}
