//! The law on what `decompile`, `link` and `split` write. The function does nothing: its contract
//! is the law.

ghost use Rattle.std.specs.Prelude.{◌≡◌, ℕ, List, Some};
ghost use Rattle.mc_shelf.specs.Shelf.{Contents};
ghost use Rattle.verdicts.specs.declared.verdict.Verdict.{Verdict as VerdictOf};
ghost use Rattle.proof_v2.specs.AnyVerdicts.{SaysOf};
ghost use Rattle.mcdec_answers.specs.declared.command.Form.{Form as FormOf};
ghost use Rattle.mcdec_answers.specs.declared.answer.Answer.{Answer as AnswerOf};
ghost use Rattle.mcdec_commands.specs.DecompileAnswer.{IsTextFor};

use call_link::law_of_linked_items;
use decompiler::law_of_items;
use stack_split::law_of_split_items;
use verdicts::Verdict;

/// A text that is written for names of an ELF file is accepted for that file, by the definition of
/// the verdict that `check` comes to for any text within its limit.
pub fn law_of_written_texts()
    ensures { (form : FormOf) (files : Contents) (elf : List ℕ) (names : List (List ℕ))
        (a : AnswerOf) (text file : List ℕ)
        → IsTextFor form files elf names a text
        → files elf ≡ Some file
        → (functions : ℕ) × (lines : ℕ) × SaysOf file text (Verdict.Accepted functions lines) }
{
    law_of_items();
    law_of_linked_items();
    law_of_split_items();
}
