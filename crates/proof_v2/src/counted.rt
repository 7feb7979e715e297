//! A text of version 2, with how many groups and proof lines it has.

ghost use Rattle.std.specs.Prelude.{◌≡◌, ℕ, List as Items, IfErr, IfOk};
ghost use Rattle.elf_image.specs.Fault.{IsReadable};
ghost use Rattle.elf_image.specs.Image.{image_of};
ghost use Rattle.group_text.specs.Version.{version_2};
ghost use Rattle.verdicts.specs.Verdicts.{IsAcceptance, IsAcceptedOver, Says};
ghost use Rattle.checker.specs.ShortRules.{short_rules};
ghost use Rattle.proof_v2.specs.MigratedText.{IsMigratedText};

use crate::texts::rewritten;
use checker::check_image;
use elf_image::Image;
use proof_text::Version;
use rv_words::Bytes;
use std::alloc::Global;
use verdicts::Verdict;

/// A text of version 2, with how many groups and proof lines it has.
#[derive(Drop)]
pub struct CountedText {
    pub text: Bytes,
    pub functions: u64,
    pub lines: u64,
}

/// What `migrate` gives for an ELF file that was read, counted.
pub fn migrate_image(alloc: Global, image: &Image, proof: &[u8]) -> Result<CountedText, Verdict>
    requires { (elf : Items ℕ) × IsReadable elf × (image.now ≡ image_of elf) }
    ensures text { (elf : Items ℕ)
        → IsReadable elf
        → image.now ≡ image_of elf
        → IfOk result (λ m. IsMigratedText elf proof.now m.text) }

    // It has as many groups and lines as the text of version 1.
    ensures counted { (elf : Items ℕ)
        → IsReadable elf
        → image.now ≡ image_of elf
        → IfOk result (λ m. Says elf proof.now (Verdict.Accepted m.functions m.lines)) }

    // It is accepted, with these numbers.
    ensures accepted { (elf : Items ℕ)
        → IsReadable elf
        → image.now ≡ image_of elf
        → IfOk result (λ m. IsAcceptedOver short_rules version_2 elf m.text m.functions m.lines) }

    // The verdict that refuses it says what is so.
    ensures refused { (elf : Items ℕ)
        → IsReadable elf
        → image.now ≡ image_of elf
        → IfErr result (λ v. Says elf proof.now v) }
    ensures no_acceptance { IfErr result (λ v. IsAcceptance v → ⊥) }
{
    match check_image(alloc, image, proof, Version::One) {
        Verdict::Accepted { functions, lines } => match rewritten(alloc, proof) {
            Ok(text) => Ok(CountedText {
                text,
                functions,
                lines,
            }),
            Err(why) => Err(why),
        },
        refusal => Err(refusal),
    }
}
