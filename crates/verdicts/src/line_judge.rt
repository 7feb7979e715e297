//! Lines behind groups: how they are read, when they are right, and what judges them.

ghost use Rattle.std.specs.Prelude.{◌≡◌, ◌∷◌, ◌++◌, ◌+◌, ◌^◌, ◌<◌, ◌≤◌, [], List, IfOk, IsErrOf, OnErr, OnOk};
ghost use Rattle.rv_words.specs.declared.range.Range.{Range};
ghost use Rattle.tailrec_lang.specs.Tree.{GroupTree, group_tree};
ghost use Rattle.tailrec_lang.specs.WellFormed.{IsWellFormed};
ghost use Rattle.mc_text.specs.Outcome.{Gives};
ghost use Rattle.group_text.specs.Limits.{IsGroupIn};
ghost use Rattle.group_text.specs.Version.{version_of};
ghost use Rattle.group_text.specs.declared.version.Version.{Version as Known};
ghost use Rattle.proof_text.specs.inner.LineReaders.{LineReaders, ReadsLines};
ghost use Rattle.verdicts.specs.Instance.{History};
ghost use Rattle.verdicts.specs.LineRules.{LineRules};
ghost use Rattle.verdicts.specs.inner.Checking.{MayFollow, ProofJudged};
ghost use Rattle.verdicts.specs.inner.Sourced.{stops_outside, verdicts};

use crate::verdict::Pulled;
use group_text::Version;
use mc_text::{Scan, TokenError};
use proof_text::{ProofSource, ReadLines};
use std::alloc::Global;
use tailrec_lang::Group;
use triple_kernel::RuleFault;
use word_terms::Code;

/// Lines behind groups that are right by rules: what reads them, one a call. It may keep what it
/// needs of those before.
pub trait RuledLines {
    /// A line.
    type Line;

    /// How lines are written and read.
    ghost readers: { LineReaders };

    /// A line as a tree, by the group's own code.
    ghost tree: { List Range → Self.Line → readers.grammar.Line };

    /// What is kept may be that behind these lines of a group.
    ghost Behind: { Self → List readers.grammar.Line → Type 0 };

    /// When lines of a text of that version are right, and what they leave.
    ghost rules: { Known → LineRules readers.grammar };

    /// Forgets all lines, where a group begins.
    fn start(&mut self, alloc: Global)
        ensures { Behind self.new [] };

    /// The next line of a text of that version, by the group's own code.
    fn read<'a>(
        &mut self,
        alloc: Global,
        scan: &mut Scan<'a>,
        version: Version,
        own: &Code,
    ) -> Result<Self::Line, TokenError>
        ensures gives { (before : List readers.grammar.Line)
            → Behind self.old before
            → Gives (tree own.now.ranges) result scan.old scan.new
            (readers.line_at (version_of version) own.now.ranges before) }
        ensures behind { (before : List readers.grammar.Line)
            → Behind self.old before
            → IfOk result (λ l. Behind self.new (before ++ tree own.now.ranges l ∷ [])) }
        ensures kept { OnErr result ((before : List readers.grammar.Line)
            → Behind self.old before
            → Behind self.new before) };
}

/// What reads lines that are right by rules, for a text of groups with them.
#[derive(Drop)]
pub struct RuledReader<V> {
    pub lines: V,
}

impl<V: RuledLines> ReadLines for RuledReader<V> {
    type Line = V::Line;

    ghost readers = { V.readers };

    ghost tree = { V.tree };

    ghost Behind = { λ s before. V.Behind s.lines before };

    fn start(&mut self, alloc: Global) {
        self.lines.start(alloc);
    }

    fn read<'a>(
        &mut self,
        alloc: Global,
        scan: &mut Scan<'a>,
        version: Version,
        own: &Code,
    ) -> Result<V::Line, TokenError> {
        self.lines.read(alloc, scan, version, own)
    }
}

/// What the lines of a group's proof come to.
#[derive(Clone, Copy, Debug)]
pub struct Judged {
    /// How many of them are counted as lines of the proof.
    pub lines: u64,
    /// Whether the group's function is closed and its code is the file's.
    pub proved: bool,
}

/// Judges the lines of a group's proof, one after the other.
pub trait JudgeLines<V: RuledLines> {
    /// The group.
    ghost group: { Self → GroupTree };

    /// What the lines that were judged leave behind them.
    ghost history: { Self → History };

    /// What is kept to judge lines goes with what is kept to read them.
    ghost GoesWith: { Self → V → Type 0 };

    /// Judges the line of a text of that version that was read last: whether it is counted as a
    /// line of the proof.
    fn judge_line(
        &mut self,
        alloc: Global,
        version: Version,
        lines: &V,
        line: V::Line,
    ) -> Result<bool, RuleFault>
        requires { MayFollow V.readers V.Behind (GoesWith self.old) lines.now
            (V.tree (group self.old).code line) }
        ensures group { group self.new ≡ group self.old }
        ensures leaves { (old : V) (before : List V.readers.grammar.Line)
            → GoesWith self.old old
            → V.Behind old before
            → OnOk result ((V.rules version).Leaves (group self.old) before (history self.old)
            (V.tree (group self.old).code line) (history self.new)) }
        ensures counts { IfOk result (λ counts.
            counts ≡ (V.rules version).counts (V.tree (group self.old).code line)) }
        ensures goes { OnOk result (GoesWith self.new lines.now) }
        ensures wrong { (old : V) (before : List V.readers.grammar.Line)
            → GoesWith self.old old
            → V.Behind old before
            → IsErrOf result RuleFault.NoInstance
            → (next : History)
            → (V.rules version).Leaves (group self.old) before (history self.old)
            (V.tree (group self.old).code line) next
            → ⊥ };

    /// Whether a definition of the group is closed.
    fn is_closed(&self, def: u32) -> bool
        ensures { result ≡ (history self.now).closed def };
}

/// Judges the proofs of groups in a text from that source, each by a bench of its own.
pub trait JudgeProofs<V: RuledLines, E, P: ProofSource<E, RuledReader<V>>> {
    /// Judges the lines of the group that was given last, as those of a text of that version, to
    /// their end. What is kept of lines is that before the first.
    fn judge_proof(
        &self,
        alloc: Global,
        source: &mut P,
        from: &mut E,
        kept: &mut RuledReader<V>,
        version: Version,
        group: &Group,
        code: &Code,
    ) -> Result<Judged, Pulled>
        requires going { P.Goes source.old }
        requires laws { ReadsLines V.readers (version_of (P.version source.old)) }
        requires kept { V.Behind kept.old.lines [] }
        requires group { IsGroupIn (version_of (P.version source.old)) (group_tree group.now) }
        requires well_formed { IsWellFormed (group_tree group.now) }
        requires few { P.left source.old < 2 ^ 63 }
        ensures judged { ProofJudged (V.rules version) (group_tree group.now) code.now.ranges
            (P.told source.old from.old) (P.told source.new from.new) (verdicts result) }
        ensures goes { OnOk result (P.Goes source.new) }
        ensures few { IfOk result (λ j. j.lines + P.left source.new ≤ P.left source.old) }
        ensures version { P.version source.new ≡ P.version source.old }
        ensures lends { P.Lends (stops_outside result) source.old from.old source.new from.new };
}
