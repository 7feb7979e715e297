//! Laws of texts. These functions do nothing: their contracts are the laws.

ghost use Rattle.std.specs.Prelude.{◌≡◌, ◌≤◌, ◌⊎◌, ◌++◌, ℕ, List, length, map};
ghost use Rattle.mc_text.specs.Tokens.{Tok, spell};
ghost use Rattle.mc_text.specs.declared.token.Before.TheVariants.{Start};
ghost use Rattle.mc_text.specs.Fault.{IsBadAt};
ghost use Rattle.tailrec_lang.specs.Tree.{GroupTree};
ghost use Rattle.proof_text.specs.FirstProofs.{AreRead, AreReadIn, BeginsWithItems, items};
ghost use Rattle.group_text.specs.Limits.{AreGroups, AreGroupsIn, IsGroup, IsGroupIn};
ghost use Rattle.proof_text.specs.Line.{LineTree, ProofTree};
ghost use Rattle.proof_text.specs.LineLimits.{IsLine, IsLineIn};
ghost use Rattle.proof_text.specs.LineSpelling.{line_tokens, line_tokens_in};
ghost use Rattle.proof_text.specs.Proofs.{AreProofs, AreProofsIn, bare, proof_texts_in, proof_texts_of, text_of_proofs, text_of_proofs_in, texts_of_proofs, texts_of_proofs_in};
ghost use Rattle.group_text.specs.Spelling.{end_tokens, head_tokens, text_in, text_of, title_tokens};
ghost use Rattle.group_text.specs.Version.{Version, version_of};
ghost use Rattle.group_text.specs.declared.version.Version.{Version as Known};

/// The text of groups with the lines of their proofs is what `put_head`, for each group `put_group`
/// and then `put_line` of each of its lines, and `put_end` append, one after the other.
pub fn law_of_proof_parts()
    ensures { (ps : List ProofTree)
        → text_of_proofs ps
        ≡ spell Start head_tokens ++ (proof_texts_of ps ++ spell Start end_tokens) }
{}

/// Groups alone are proofs without lines.
pub fn law_of_groups_alone()
    ensures text { (v : Version) (gs : List GroupTree)
        → text_of_proofs_in v (map bare gs) ≡ text_in v gs }
    ensures fits { (v : Version) (gs : List GroupTree)
        → AreGroupsIn v gs
        → AreProofsIn v (map bare gs) }
    ensures groups { (v : Version) (gs : List GroupTree)
        → AreProofsIn v (map bare gs)
        → AreGroupsIn v gs }
{}

/// A text is that of one list of groups, and the groups and lines that a reader gives of it are its
/// own, from the first on.
pub fn law_of_one_spelling()
    ensures once { (gs hs : List GroupTree)
        → AreGroups gs
        → AreGroups hs
        → text_of gs ≡ text_of hs
        → gs ≡ hs }
    ensures read { (text : List ℕ) (ps qs : List ProofTree)
        → AreProofs ps
        → text ≡ text_of_proofs ps
        → AreRead text qs
        → BeginsWithItems ps qs }
{}

/// Tokens begin with the spelling of one line of a group's proof at most.
pub fn law_of_one_line()
    ensures { (g : GroupTree)
        → IsGroup g
        → (l m : LineTree) (rest more : List Tok)
        → IsLine l
        → IsLine m
        → line_tokens g.code l ++ rest ≡ line_tokens g.code m ++ more
        → (l ≡ m) × (rest ≡ more) }
{}

/// A text of groups with their lines is that of one list of them, and is none from one line on.
pub fn law_of_proof_texts()
    ensures once { (ps qs : List ProofTree)
        → AreProofs ps
        → AreProofs qs
        → text_of_proofs ps ≡ text_of_proofs qs
        → ps ≡ qs }
    ensures faults { (text : List ℕ) (m n : ℕ)
        → IsBadAt texts_of_proofs text m
        → IsBadAt texts_of_proofs text n
        → m ≡ n }
{}

/// Of two lists of first proofs of a text the items of one begin with those of the other, what
/// these begin with is found too, and there are no more of them than bytes.
pub fn law_of_first_proofs()
    ensures alike { (text : List ℕ) (ps qs : List ProofTree)
        → AreRead text ps
        → AreRead text qs
        → BeginsWithItems ps qs ⊎ BeginsWithItems qs ps }
    ensures fewer { (text : List ℕ) (ps qs : List ProofTree)
        → AreRead text ps
        → BeginsWithItems ps qs
        → AreRead text qs }
    ensures few { (text : List ℕ) (ps : List ProofTree)
        → AreRead text ps
        → length (items ps) ≤ length text }
{}

/// The laws hold in each version: a text is that of one list of groups with their lines, which is
/// printed part by part, the groups and lines that are read of it are its own, and of two lists of
/// first proofs the items of one begin with those of the other.
pub fn law_of_versions()
    ensures parts { (v : Known) (ps : List ProofTree)
        → text_of_proofs_in (version_of v) ps
        ≡ spell Start (title_tokens (version_of v))
        ++ (proof_texts_in (version_of v) ps ++ spell Start end_tokens) }
    ensures once { (v : Known) (ps qs : List ProofTree)
        → AreProofsIn (version_of v) ps
        → AreProofsIn (version_of v) qs
        → text_of_proofs_in (version_of v) ps ≡ text_of_proofs_in (version_of v) qs
        → ps ≡ qs }
    ensures faults { (v : Known) (text : List ℕ) (m n : ℕ)
        → IsBadAt (texts_of_proofs_in (version_of v)) text m
        → IsBadAt (texts_of_proofs_in (version_of v)) text n
        → m ≡ n }
    ensures read { (v : Known) (text : List ℕ) (ps qs : List ProofTree)
        → AreProofsIn (version_of v) ps
        → text ≡ text_of_proofs_in (version_of v) ps
        → AreReadIn (version_of v) text qs
        → BeginsWithItems ps qs }
    ensures line { (v : Known) (g : GroupTree)
        → IsGroupIn (version_of v) g
        → (l m : LineTree) (rest more : List Tok)
        → IsLineIn (version_of v) l
        → IsLineIn (version_of v) m
        → line_tokens_in (version_of v) g.code l ++ rest
        ≡ line_tokens_in (version_of v) g.code m ++ more
        → (l ≡ m) × (rest ≡ more) }
    ensures alike { (v : Known) (text : List ℕ) (ps qs : List ProofTree)
        → AreReadIn (version_of v) text ps
        → AreReadIn (version_of v) text qs
        → BeginsWithItems ps qs ⊎ BeginsWithItems qs ps }
    ensures fewer { (v : Known) (text : List ℕ) (ps qs : List ProofTree)
        → AreReadIn (version_of v) text ps
        → BeginsWithItems ps qs
        → AreReadIn (version_of v) text qs }
    ensures few { (v : Known) (text : List ℕ) (ps : List ProofTree)
        → AreReadIn (version_of v) text ps
        → length (items ps) ≤ length text }
{}
