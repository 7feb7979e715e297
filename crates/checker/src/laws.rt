//! Laws of short lines and of proofs with them. These functions do nothing: their contracts are the
//! laws. Each speaks of the definitions alone.

ghost use Rattle.std.specs.Prelude.{◌≡◌, ◌++◌, ◌∷◌, [], ℕ, List, length};
ghost use Rattle.std.specs.List.{AllByRecursion, Contains};
ghost use Rattle.elf_image.specs.Fault.{IsReadable};
ghost use Rattle.tailrec_lang.specs.Tree.{GroupTree};
ghost use Rattle.term_arena.specs.declared.node.Node.{Node};
ghost use Rattle.term_arena.specs.Arena.{Extends, IsAdded};
ghost use Rattle.short_text.specs.declared.short.Short.{Short};
ghost use Rattle.short_text.specs.ShortLimits.{IsShort};
ghost use Rattle.short_text.specs.ShortProofs.{AreShortProofs, ShortProof};
ghost use Rattle.short_text.specs.Table.{IsTable};
ghost use Rattle.proof_text.specs.Line.{LineTree};
ghost use Rattle.proof_text.specs.LineLimits.{IsLineIn};
ghost use Rattle.proof_text.specs.Proofs.{groups_of};
ghost use Rattle.group_text.specs.Version.{Version};
ghost use Rattle.claims.specs.Headline.{Headline};
ghost use Rattle.verdicts.specs.Instance.{History, after_line, no_lines};
ghost use Rattle.verdicts.specs.LineRules.{IsProvedOver};
ghost use Rattle.checker.specs.Short.{AreFullLines, AreWithin, IsFineShort, IsRightFor, IsShortInstance, LeaveAfter, LeavesBehind};
ghost use Rattle.checker.specs.ShortRules.{AreFullAccepted, short_rules};

/// Short lines that are right, one after the other, stand for as many lines of version 1, each of
/// which is right after those before it and within the limits; these leave the same behind them.
/// What they leave is within the limits where what was left before them is.
pub fn law_of_full_lines()
    ensures full { (g : GroupTree) (h : History) (ns : List Node) (lines : List Short)
        (after : History)
        → LeaveAfter g h ns lines after
        → AreFullLines g h ns lines after }
    ensures within { (g : GroupTree) (h : History) (ns : List Node) (lines : List Short)
        (after : History)
        → LeaveAfter g h ns lines after
        → AreWithin h
        → AreWithin after }
{}

/// A short line stands for one line of version 1 at most, after what was left before it.
pub fn law_of_one_full_line()
    ensures { (g : GroupTree) (h : History) (ns : List Node) (line : Short) (l m : LineTree)
        → IsRightFor g h ns line l → IsRightFor g h ns line m → l ≡ m }
{}

/// A line over the terms of a table is the same over those of a larger one, as of a bench that has
/// computed more of them.
pub fn law_of_larger_tables()
    ensures fine { (ns ms : List Node)
        → Extends ns ms
        → (line : Short)
        → IsFineShort ns line
        → IsFineShort ms line }
    ensures instance { (ns ms : List Node)
        → Extends ns ms
        → (g : GroupTree) (h : History) (line : Short)
        → IsFineShort ns line
        → IsShortInstance g h ns line
        → IsShortInstance g h ms line }
    ensures left { (ns ms : List Node)
        → Extends ns ms
        → (g : GroupTree) (h : History) (line : Short) (after : History)
        → IsFineShort ns line
        → LeavesBehind g h ms line after
        → LeavesBehind g h ns line after }
    ensures full { (ns ms : List Node)
        → Extends ns ms
        → (g : GroupTree) (h : History) (line : Short) (l : LineTree)
        → IsFineShort ns line
        → IsRightFor g h ns line l
        → IsRightFor g h ms line l }
{}

/// A line that is read beside a table of terms is within the limits: `derive` may be asked about
/// it, where the bench's first terms are those of the table.
pub fn law_of_read_lines()
    ensures { (ns : List Node) (line : Short) → IsTable ns → IsShort ns line → IsFineShort ns line }
{}

/// A term that is none of those that are there gets the next number. So those of a table, put in
/// one after the other before all others, get their numbers in the table.
pub fn law_of_new_terms()
    ensures { (ns ms : List Node) (n : Node) (k : ℕ)
        → IsAdded ns n k ms
        → (Contains ns n → ⊥)
        → (k ≡ length ns) × (ms ≡ ns ++ n ∷ []) }
{}

/// Each theorem is within the limits before the first line, and after each line that is within
/// them; so after each short line that is right.
pub fn law_of_limits()
    ensures first { AreWithin no_lines }
    ensures full { (v : Version) (h : History) (l : LineTree)
        → IsLineIn v l
        → AreWithin h
        → AreWithin (after_line h l) }
    ensures short { (g : GroupTree) (h : History) (ns : List Node) (line : Short) (after : History)
        → LeavesBehind g h ns line after → AreWithin h → AreWithin after }
{}

/// Proofs of version 2 that are proved for a file stand for proofs of version 1, of the same groups
/// and with as many lines, which are accepted for it. So the functions in them are right.
pub fn law_of_short_proofs()
    ensures full { (file : List ℕ) (ps : List ShortProof)
        → AreShortProofs ps
        → AllByRecursion (IsProvedOver short_rules file) ps
        → AreFullAccepted file ps }
    ensures right { (file : List ℕ) (ps : List ShortProof) → AreShortProofs ps → IsReadable file
        → AllByRecursion (IsProvedOver short_rules file) ps → Headline file (groups_of ps) }
{}
