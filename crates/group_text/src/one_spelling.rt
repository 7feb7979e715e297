//! Laws of terms as text. These functions do nothing: their contracts are the laws.

ghost use Rattle.std.specs.Prelude.{◌≡◌, ◌++◌, List};
ghost use Rattle.rv_words.specs.declared.range.Range.{Range};
ghost use Rattle.mc_text.specs.Tokens.{Tok};
ghost use Rattle.word_terms.specs.Tree.{CondTree, MemTree, WordTree};
ghost use Rattle.group_text.specs.TermLimits.{IsCond, IsMem, IsRange, IsWord};
ghost use Rattle.group_text.specs.TermSpelling.{cond_tokens, mem_tokens, range_tokens, word_tokens};

/// Tokens begin with the spelling of one word at most, and so with one memory, condition or range.
pub fn law_of_one_spelling()
    ensures words { (t u : WordTree) (rest more : List Tok)
        → IsWord t
        → IsWord u
        → word_tokens t ++ rest ≡ word_tokens u ++ more
        → (t ≡ u) × (rest ≡ more) }
    ensures mems { (m n : MemTree) (rest more : List Tok)
        → IsMem m
        → IsMem n
        → mem_tokens m ++ rest ≡ mem_tokens n ++ more
        → (m ≡ n) × (rest ≡ more) }
    ensures conds { (c d : CondTree) (rest more : List Tok)
        → IsCond c
        → IsCond d
        → cond_tokens c ++ rest ≡ cond_tokens d ++ more
        → (c ≡ d) × (rest ≡ more) }
    ensures ranges { (q r : Range) (rest more : List Tok)
        → IsRange q
        → IsRange r
        → range_tokens q ++ rest ≡ range_tokens r ++ more
        → (q ≡ r) × (rest ≡ more) }
{}
