//! Laws of migrated texts. These functions do nothing: their contracts are the laws.

ghost use Rattle.std.specs.Prelude.{◌≡◌, ℕ, List, length};
ghost use Rattle.group_text.specs.Version.{version_2};
ghost use Rattle.proof_text.specs.Line.{ProofTree};
ghost use Rattle.proof_text.specs.Proofs.{groups_of};
ghost use Rattle.verdicts.specs.Instance.{no_rule};
ghost use Rattle.verdicts.specs.LineRules.{count_over, whole_rules};
ghost use Rattle.verdicts.specs.Verdicts.{IsAcceptedOver, IsTextOf, IsTextOver, Says};
ghost use Rattle.verdicts.specs.declared.verdict.Verdict.TheVariants.{Accepted};
ghost use Rattle.short_text.specs.ShortProofs.{ShortProof, short_lines};
ghost use Rattle.checker.specs.ShortRules.{short_rules};
ghost use Rattle.proof_v2.specs.MigratedText.{IsMigratedText};

/// A text of version 1 that is accepted for a file becomes one of version 2 that is accepted for
/// it, with the same groups and as many lines.
pub fn law_of_migrated_texts()
    ensures accepted { (file text more : List ℕ) (m : IsMigratedText file text more)
        → IsAcceptedOver short_rules version_2 file more (length m.old)
        (count_over (whole_rules no_rule) m.old) }

    // The numbers are those that a verdict on the text of version 1 says.
    ensures counted { (file text more : List ℕ) (functions lines : ℕ)
        → IsMigratedText file text more
        → Says file text (Accepted functions lines)
        → IsAcceptedOver short_rules version_2 file more functions lines }

    // Whatever proofs the two texts are those of: their groups are the same.
    ensures groups { (file text more : List ℕ)
        → IsMigratedText file text more
        → (old : List ProofTree) (new : List ShortProof)
        → IsTextOf text old
        → IsTextOver short_lines version_2 more new
        → groups_of new ≡ groups_of old }
{}
