//! Laws of texts of version 2. These functions do nothing: their contracts are the laws.

ghost use Rattle.std.specs.Prelude.{◌≡◌, ◌≤◌, ◌⊎◌, ◌++◌, ℕ, List, length, map};
ghost use Rattle.std.specs.List.{AllByRecursion};
ghost use Rattle.rv_words.specs.declared.range.Range.{Range};
ghost use Rattle.mc_text.specs.Tokens.{Tok, spell};
ghost use Rattle.mc_text.specs.declared.token.Before.TheVariants.{Start};
ghost use Rattle.mc_text.specs.Fault.{IsBadAt};
ghost use Rattle.term_arena.specs.declared.node.Node.{Node};
ghost use Rattle.group_text.specs.Spelling.{end_tokens, title_tokens};
ghost use Rattle.group_text.specs.Version.{Version, version_2};
ghost use Rattle.proof_text.specs.FirstProofs.{AreReadOver, BeginsWithItems, items};
ghost use Rattle.proof_text.specs.Proofs.{proof_texts_by};
ghost use Rattle.proof_text.specs.inner.LineReaders.{ReadsLines};
ghost use Rattle.proof_text.specs.inner.OwnCode.{IsOwnCode};
ghost use Rattle.short_text.specs.declared.short.Short.{Short};
ghost use Rattle.short_text.specs.declared.short.ShortLine.{ShortLine as Line};
ghost use Rattle.short_text.specs.declared.short.ShortLine.TheVariants.{Proof, Term};
ghost use Rattle.short_text.specs.Table.{IsTable};
ghost use Rattle.short_text.specs.ShortLimits.{IsShort};
ghost use Rattle.short_text.specs.ShortProofs.{AreShortLines, AreShortProofs, IsNextLine, ShortProof, proof_lines, short_line_tokens, short_lines, short_texts, table_of, text_of_short_proofs};
ghost use Rattle.short_text.specs.inner.ShortReaders.{short_readers};

/// Behind a group stands a table, and behind it lines over that.
pub fn law_of_tables()
    ensures apart { (ls : List Line)
        → AreShortLines ls
        → ls ≡ map Term (table_of ls) ++ map Proof (proof_lines ls) }
    ensures joined { (ns : List Node) (ss : List Short)
        → IsTable ns
        → AllByRecursion (IsShort ns) ss
        → AreShortLines (map Term ns ++ map Proof ss) }
    ensures terms { (ns : List Node) (ss : List Short)
        → table_of (map Term ns ++ map Proof ss) ≡ ns }
    ensures lines { (ns : List Node) (ss : List Short)
        → proof_lines (map Term ns ++ map Proof ss) ≡ ss }
{}

/// Lines behind those of a table and a proof are read as they are spelled, and tokens begin with
/// the spelling of one at most.
pub fn law_of_short_lines()
    ensures read { (v : Version) → ReadsLines short_readers v }
    ensures once { (own : List Range)
        → IsOwnCode own
        → (before : List Line)
        → AreShortLines before
        → (l m : Line) (rest more : List Tok)
        → IsNextLine before l
        → IsNextLine before m
        → short_line_tokens own l ++ rest ≡ short_line_tokens own m ++ more
        → (l ≡ m) × (rest ≡ more) }
{}

/// The text of groups with their tables and lines is what `put_title` of version 2, for each group
/// `put_group`, then `put_table_line` of each of its terms and `put_short_line` of each of its
/// lines, and `put_end` append, one after the other.
pub fn law_of_short_parts()
    ensures { (ps : List ShortProof)
        → text_of_short_proofs ps
        ≡ spell Start (title_tokens version_2)
        ++ (proof_texts_by short_line_tokens ps ++ spell Start end_tokens) }
{}

/// A text of version 2 is that of one list of groups with their tables and lines, and is none from
/// one line on. The groups, terms and lines that are read of it are its own, and of two lists of
/// what is first in it one begins with the other.
pub fn law_of_short_texts()
    ensures once { (ps qs : List ShortProof)
        → AreShortProofs ps
        → AreShortProofs qs
        → text_of_short_proofs ps ≡ text_of_short_proofs qs
        → ps ≡ qs }
    ensures faults { (text : List ℕ) (m n : ℕ)
        → IsBadAt short_texts text m
        → IsBadAt short_texts text n
        → m ≡ n }
    ensures read { (text : List ℕ) (ps qs : List ShortProof)
        → AreShortProofs ps
        → text ≡ text_of_short_proofs ps
        → AreReadOver short_lines version_2 text qs
        → BeginsWithItems ps qs }
    ensures alike { (text : List ℕ) (ps qs : List ShortProof)
        → AreReadOver short_lines version_2 text ps
        → AreReadOver short_lines version_2 text qs
        → BeginsWithItems ps qs ⊎ BeginsWithItems qs ps }
    ensures fewer { (text : List ℕ) (ps qs : List ShortProof)
        → AreReadOver short_lines version_2 text ps
        → BeginsWithItems ps qs
        → AreReadOver short_lines version_2 text qs }
    ensures few { (text : List ℕ) (ps : List ShortProof)
        → AreReadOver short_lines version_2 text ps
        → length (items ps) ≤ length text }
{}
