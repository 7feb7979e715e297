//! What reads the lines behind groups.

ghost use Rattle.std.specs.Prelude.{◌∷◌, ◌++◌, [], List, IfOk, OnErr};
ghost use Rattle.rv_words.specs.declared.range.Range.{Range};
ghost use Rattle.mc_text.specs.Outcome.{Gives, last_line};
ghost use Rattle.group_text.specs.Version.{version_of};
ghost use Rattle.proof_text.specs.inner.LineReaders.{LineReaders};

use crate::line::{Line, SpelledLine};
use crate::proof_lines::{read_line, read_spelled};
use group_text::Version;
use mc_text::{Scan, TokenError};
use std::alloc::Global;
use word_terms::Code;

/// What reads the lines behind a group's definitions, one a call. It may keep what it needs of
/// those before.
pub trait ReadLines {
    /// A line.
    type Line;

    /// How lines are written and read.
    ghost readers: { LineReaders };

    /// A line as a tree, by the group's own code.
    ghost tree: { List Range → Self.Line → readers.grammar.Line };

    /// What is kept may be that behind these lines of a group.
    ghost Behind: { Self → List readers.grammar.Line → Type 0 };

    /// Forgets all lines, where a group begins.
    fn start(&mut self, alloc: Global)
        ensures { Behind self.new [] };

    /// The next line of a text of that version, by the group's own code.
    fn read<'a>(
        &mut self,
        alloc: Global,
        scan: &mut Scan<'a>,
        version: Version,
        own: &Code,
    ) -> Result<Self::Line, TokenError>
        ensures gives { (before : List readers.grammar.Line)
            → Behind self.old before
            → Gives (tree own.now.ranges) result scan.old scan.new
            (readers.line_at (version_of version) own.now.ranges before) }
        ensures behind { (before : List readers.grammar.Line)
            → Behind self.old before
            → IfOk result (λ l. Behind self.new (before ++ tree own.now.ranges l ∷ [])) }
        ensures kept { OnErr result ((before : List readers.grammar.Line)
            → Behind self.old before
            → Behind self.new before) };
}

/// Reads lines that state whole triples, of which nothing is kept.
#[derive(Clone, Copy, Debug, Drop)]
pub struct WholeLines;

impl ReadLines for WholeLines {
    ghost use Rattle.proof_text.specs.Line.{line_tree};
    ghost use Rattle.proof_text.specs.inner.LineReading.{whole_readers};

    type Line = Line;

    ghost readers = { whole_readers };

    ghost tree = { λ own l. line_tree l };

    ghost Behind = { λ s before. Unit {0} };

    fn start(&mut self, _alloc: Global) {}

    fn read<'a>(
        &mut self,
        alloc: Global,
        scan: &mut Scan<'a>,
        version: Version,
        own: &Code,
    ) -> Result<Line, TokenError> {
        read_line(alloc, scan, version, own)
    }
}

/// Reads lines that state whole triples as they are spelled, so that none has a copy of the group's
/// own code.
#[derive(Clone, Copy, Debug, Drop)]
pub struct SpelledLines;

impl ReadLines for SpelledLines {
    ghost use Rattle.proof_text.specs.Line.{spelled_tree};
    ghost use Rattle.proof_text.specs.inner.LineReading.{whole_readers};

    type Line = SpelledLine;

    ghost readers = { whole_readers };

    ghost tree = { spelled_tree };

    ghost Behind = { λ s before. Unit {0} };

    fn start(&mut self, _alloc: Global) {}

    fn read<'a>(
        &mut self,
        alloc: Global,
        scan: &mut Scan<'a>,
        version: Version,
        own: &Code,
    ) -> Result<SpelledLine, TokenError> {
        read_spelled(alloc, scan, version, own)
    }
}
