//! The command `migrate`.

ghost use Rattle.std.specs.Prelude.{◌≡◌, ℕ, IfSome, List as Items, Some};
ghost use Rattle.mc_shelf.specs.Fault.{Rose, WhereTold};
ghost use Rattle.mc_shelf.specs.Shelf.{TellsName};
ghost use Rattle.elf_image.specs.Fault.{IsReadable};
ghost use Rattle.elf_image.specs.Image.{image_of};
ghost use Rattle.verdicts.specs.Verdicts.{IsAcceptance};
ghost use Rattle.mcdec_answers.specs.Printed.{status};
ghost use Rattle.mcdec_commands.specs.Answer.{Gives};
ghost use Rattle.mcdec_commands.specs.MigrateAnswer.{IsMigrationFor};
ghost use Rattle.mcdec_commands.specs.RunAnswer.{IsLoaded};
ghost use Rattle.mcdec_commands.specs.inner.Loading.{not_loaded};
ghost use Rattle.mcdec_commands.specs.inner.Migrating.{FileMigrates, refusal_of};
ghost use Rattle.mcdec_commands.specs.inner.Writing.{WritesOut};
ghost use Rattle.mcdec_answers.specs.CommandReading.{IsReadMigrate};
ghost use Rattle.mcdec_commands.specs.inner.Shelves.{ReadsThenWrites};

use crate::load::{LoadFault, PROOF_LIMIT, load_image, not_read};
use crate::output::write_answer;
use elf_image::Image;
use mc_shelf::{Shelf, read_file};
use mcdec_answers::{Answer, Migrate, MigrateAnswer};
use proof_v2::migrate_image;
use std::alloc::Global;
use verdicts::Verdict;

/// The answer to `migrate`.
pub fn answer_migrate<S: Shelf>(alloc: Global, m: &Migrate<'_>, shelf: &mut S) -> Answer
    ensures gives { (ws : Items (Items ℕ))
        → IsReadMigrate ws m.now
        → Gives (S.contents shelf.old) ws (Rose (S.read_faults shelf.old) (S.read_faults shelf.new))
        (Rose (S.write_faults shelf.old) (S.write_faults shelf.new)) result }

    ensures written { WhereTold (S.contents shelf.old) (S.contents shelf.new)
        (WritesOut (λ files. IsMigrationFor files m.now.elf.now m.now.proof.now) m.now.out.now
        result) }
    ensures shelf { ReadsThenWrites S.contents S.read_faults S.write_faults S.IsSure
        (status result ≡ 5) (λ told. TellsName told m.now.elf.now × TellsName told m.now.proof.now)
        shelf.old shelf.new }
{
    match load_image(alloc, shelf, m.elf) {
        Ok(image) => migrate_text(alloc, &image, m, shelf),
        Err(fault) => not_loaded(fault),
    }
}

/// The answer where there is no image of the ELF file.
fn not_loaded(fault: LoadFault) -> Answer
    ensures answer { result
        ≡ not_loaded (Answer.Migrate MigrateAnswer.ElfOverLimit)
        (λ why. Answer.Migrate (MigrateAnswer.Refused (Verdict.BadElf why))) fault }
    ensures refused { status result ≡ 0 → ⊥ }
    ensures no_fault { status result ≡ 5 → ⊥ }
{
    match fault {
        LoadFault::Unread(end) => not_read(end, Answer::Migrate(MigrateAnswer::ElfOverLimit)),
        LoadFault::Unreadable(why) => Answer::Migrate(MigrateAnswer::Refused(Verdict::BadElf(why))),
    }
}

/// The answer to `migrate` where this is the image of the ELF file. All that takes memory is made
/// before the text is written.
fn migrate_text<S: Shelf>(alloc: Global, image: &Image, m: &Migrate<'_>, shelf: &mut S) -> Answer
    requires image { (file : Items ℕ) × IsReadable file × (image.now ≡ image_of file) }
    ensures gives { (file : Items ℕ)
        → IsLoaded file
        → image.now ≡ image_of file
        → FileMigrates (S.contents shelf.old) m.now.proof.now file
        (Rose (S.read_faults shelf.old) (S.read_faults shelf.new)) result }

    ensures written { (file : Items ℕ)
        → IsLoaded file
        → image.now ≡ image_of file
        → IfSome (S.contents shelf.old) (λ files. files m.now.elf.now ≡ Some file)
        → WhereTold (S.contents shelf.old) (S.contents shelf.new)
        (WritesOut (λ files. IsMigrationFor files m.now.elf.now m.now.proof.now) m.now.out.now
        result) }
    ensures shelf { ReadsThenWrites S.contents S.read_faults S.write_faults S.IsSure
        (status result ≡ 5) (λ told. TellsName told m.now.proof.now) shelf.old shelf.new }
{
    let text = match read_file(alloc, shelf, m.proof, PROOF_LIMIT) {
        Ok(text) => text,
        Err(end) => return not_read(end, Answer::Migrate(MigrateAnswer::ProofOverLimit)),
    };
    match migrate_image(alloc, image, text.as_slice()) {
        Ok(migrated) => {
            let told = Answer::Migrate(MigrateAnswer::Migrated {
                functions: migrated.functions,
                lines: migrated.lines,
            });
            write_answer(shelf, m.out, migrated.text.as_slice(), told)
        }
        Err(why) => refuse(why),
    }
}

/// The answer where this verdict refuses the text.
fn refuse(why: Verdict) -> Answer
    requires { IsAcceptance why → ⊥ }
    ensures answer { result ≡ refusal_of why }
    ensures refused { status result ≡ 0 → ⊥ }
    ensures no_fault { status result ≡ 5 → ⊥ }
{
    match why {
        Verdict::NoMemory => Answer::NoMemory,
        why => Answer::Migrate(MigrateAnswer::Refused(why)),
    }
}
