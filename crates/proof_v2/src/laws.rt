//! Laws of migrated proofs. These functions do nothing: their contracts are the laws.

ghost use Rattle.std.specs.Prelude.{◌≡◌, ◌<◌, ◌^◌, ℕ, All, List, [], length};
ghost use Rattle.verdicts.specs.Accepts.{IsAccepted};
ghost use Rattle.verdicts.specs.LineRules.{IsProvedOver};
ghost use Rattle.proof_text.specs.Line.{ProofTree};
ghost use Rattle.short_text.specs.declared.short.Short.{Short};
ghost use Rattle.short_text.specs.ShortLimits.{IsShort};
ghost use Rattle.short_text.specs.ShortProofs.{AreShortLines, ShortProof};
ghost use Rattle.short_text.specs.Table.{IsTable};
ghost use Rattle.term_arena.specs.declared.node.Node.{Node};
ghost use Rattle.term_arena.specs.Arena.{IsArena, Tree};
ghost use Rattle.checker.specs.Short.{IsFineShort};
ghost use Rattle.checker.specs.ShortRules.{short_rules};
ghost use Rattle.held_terms.specs.Terms.{AreTermsPutIn};
ghost use Rattle.proof_v2.specs.MigratedText.{IsMigratedProof};
ghost use Rattle.proof_v2.specs.Migration.{IsMigrated};
ghost use Rattle.proof_v2.specs.ShortTerms.{IsTerm};

/// A group's proof of version 1 that is accepted becomes one of version 2 that is, with as many
/// lines.
pub fn law_of_migration()
    ensures accepted { (file : List ℕ) (p : ProofTree) (q : ShortProof)
        → IsMigratedProof p q
        → AreShortLines q.lines
        → IsAccepted file p
        → IsProvedOver short_rules file q }
    ensures lines { (p : ProofTree) (ns : List Node) (ss : List Short)
        → IsMigrated p ns ss
        → length ss ≡ length p.lines }
{}

/// An arena into which only terms that have a text were put is a table, if its numbers have 64
/// bits.
pub fn law_of_new_tables()
    ensures { (terms : List Tree) (ns : List Node)
        → IsArena ns
        → length ns < 2 ^ 64
        → All IsTerm terms
        → AreTermsPutIn [] terms ns
        → IsTable ns }
{}

/// A short line that is within the limits has a text beside its table, if that has fewer than 2 ^
/// 64 terms.
pub fn law_of_fine_lines()
    ensures { (ns : List Node) (line : Short)
        → length ns < 2 ^ 64
        → IsFineShort ns line
        → IsShort ns line }
{}
