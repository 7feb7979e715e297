//! Laws of texts of groups. These functions do nothing: their contracts are the laws.

ghost use Rattle.std.specs.Prelude.{◌≡◌, ◌++◌, ℕ, List};
ghost use Rattle.mc_text.specs.Tokens.{spell};
ghost use Rattle.mc_text.specs.declared.token.Before.TheVariants.{Start};
ghost use Rattle.mc_text.specs.Fault.{IsBadAt};
ghost use Rattle.tailrec_lang.specs.Tree.{GroupTree};
ghost use Rattle.group_text.specs.Limits.{proof_texts};
ghost use Rattle.group_text.specs.Spelling.{end_tokens, head_tokens, text_of};
ghost use Rattle.group_text.specs.Parts.{group_texts};

/// The text of groups is what `put_head`, `put_group` of each and `put_end` append, one after the
/// other.
pub fn law_of_parts()
    ensures { (gs : List GroupTree)
        → text_of gs ≡ spell Start head_tokens ++ (group_texts gs ++ spell Start end_tokens) }
{}

/// A text is no proof text from one line on.
pub fn law_of_faults()
    ensures { (text : List ℕ) (m n : ℕ)
        → IsBadAt proof_texts text m
        → IsBadAt proof_texts text n
        → m ≡ n }
{}
