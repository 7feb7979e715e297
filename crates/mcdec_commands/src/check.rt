//! The command `check`.

ghost use Rattle.std.specs.Prelude.{◌≡◌, ℕ, List};
ghost use Rattle.mc_shelf.specs.Fault.{Rose};
ghost use Rattle.mc_shelf.specs.Shelf.{TellsName};
ghost use Rattle.mcdec_commands.specs.Answer.{Gives};
ghost use Rattle.elf_image.specs.Image.{image_of};
ghost use Rattle.mcdec_answers.specs.CommandReading.{IsReadCheck};
ghost use Rattle.mcdec_commands.specs.inner.Checking.{ImageGives, answer_to};
ghost use Rattle.mcdec_commands.specs.inner.Loading.{not_loaded};
ghost use Rattle.mcdec_commands.specs.RunAnswer.{IsLoaded};
ghost use Rattle.mcdec_commands.specs.inner.Shelves.{ReadsFiles};

use crate::load::{LoadFault, PROOF_LIMIT, load_image, not_read};
use elf_image::Image;
use mc_shelf::{MeasureEnd, Shelf, measure};
use mcdec_answers::{Answer, Check, CheckAnswer};
use proof_v2::check_file;
use std::alloc::Global;
use verdicts::{Pulled, Verdict};

/// The answer to `check`.
pub fn answer_check<S: Shelf>(alloc: Global, c: &Check<'_>, shelf: &mut S) -> Answer
    ensures gives { (ws : List (List ℕ))
        → IsReadCheck ws c.now
        → Gives (S.contents shelf.old) ws (Rose (S.read_faults shelf.old) (S.read_faults shelf.new))
        (Rose (S.write_faults shelf.old) (S.write_faults shelf.new)) result }

    ensures shelf { ReadsFiles S.contents S.read_faults S.write_faults S.IsSure
        (λ told. TellsName told c.now.elf.now × TellsName told c.now.proof.now) shelf.old
        shelf.new }
{
    match load_image(alloc, shelf, c.elf) {
        Ok(image) => check_image(alloc, &image, c, shelf),
        Err(fault) => not_loaded(fault),
    }
}

/// The answer where there is no image of the ELF file.
fn not_loaded(fault: LoadFault) -> Answer
    ensures { result
        ≡ not_loaded (Answer.Check CheckAnswer.ElfOverLimit)
        (λ why. Answer.Check (CheckAnswer.Judged (Verdict.BadElf why))) fault }
{
    match fault {
        LoadFault::Unread(end) => not_read(end, Answer::Check(CheckAnswer::ElfOverLimit)),
        LoadFault::Unreadable(why) => Answer::Check(CheckAnswer::Judged(Verdict::BadElf(why))),
    }
}

/// The answer to `check` where this is the image of the ELF file. The proof file is measured first,
/// and then judged line by line.
fn check_image<S: Shelf>(alloc: Global, image: &Image, c: &Check<'_>, shelf: &mut S) -> Answer
    ensures gives { (file : List ℕ)
        → IsLoaded file
        → image.now ≡ image_of file
        → ImageGives (S.contents shelf.old) c.now.proof.now file
        (Rose (S.read_faults shelf.old) (S.read_faults shelf.new)) result }

    ensures shelf { ReadsFiles S.contents S.read_faults S.write_faults S.IsSure
        (λ told. TellsName told c.now.proof.now) shelf.old shelf.new }
{
    let size = match measure(shelf, c.proof, PROOF_LIMIT) {
        Ok(size) => size,
        Err(MeasureEnd::Fault) => return Answer::ReadFault,
        Err(MeasureEnd::TooLong) => return Answer::Check(CheckAnswer::ProofOverLimit),
    };
    answer_to(check_file(alloc, image, c.proof, size, shelf))
}

/// The answer that a check comes to.
fn answer_to(pulled: Pulled) -> Answer
    ensures { result ≡ answer_to pulled }
{
    match pulled {
        Pulled::Fault => Answer::ReadFault,
        Pulled::Verdict(Verdict::NoMemory) => Answer::NoMemory,
        Pulled::Verdict(judged) => Answer::Check(CheckAnswer::Judged(judged)),
    }
}
