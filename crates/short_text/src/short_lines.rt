//! What reads the lines behind the groups of texts of version 2.

ghost use Rattle.std.specs.Prelude.{◌≡◌, ◌∷◌, ◌++◌, [], IfOk, List as Items, OnErr};
ghost use Rattle.mc_text.specs.Outcome.{Gives};
ghost use Rattle.group_text.specs.Version.{version_of};
ghost use Rattle.short_text.specs.ShortProofs.{table_of};
ghost use Rattle.short_text.specs.SpelledShort.{spelled_short};
ghost use Rattle.short_text.specs.Table.{IsTable};
ghost use Rattle.short_text.specs.declared.short.ShortLine.{ShortLine as Line};
ghost use Rattle.short_text.specs.declared.short.ShortLine.TheVariants.{Term};
ghost use Rattle.short_text.specs.inner.ShortReaders.{AreKept, has_begun, short_readers, term_line_at};

use crate::short::{ShortLine, SpelledShort};
use crate::short_rows::read_short;
use crate::table::Table;
use crate::table_rows::{begins_term, read_term_row};
use group_text::Version;
use mc_text::{Scan, TokenError};
use proof_text::ReadLines;
use std::alloc::Global;
use std::marker::Model;
use term_arena::Node;
use word_terms::Code;

/// Reads lines of version 2. Of those behind a group it keeps the table of their terms, and whether
/// the lines of the proof have begun.
#[derive(Drop)]
pub struct ShortLines {
    table: Table,
    begun: bool,
}

impl Model for ShortLines {
    ghost use Rattle.short_text.specs.inner.ShortReaders.{KeptLines};

    ghost Value = { KeptLines };

    ghost view = { λ s. record { table = s.table; begun = s.begun } };
}

impl ShortLines {
    /// No lines yet.
    pub fn new(alloc: Global) -> ShortLines
        ensures { AreKept result [] }
    {
        ShortLines {
            table: Table::new(alloc),
            begun: false,
        }
    }

    /// The terms of the table so far, by their numbers.
    pub fn table(&self) -> &[Node]
        ensures terms { (before : Items Line)
            → AreKept self.now before
            → result.now ≡ table_of before }
        ensures table { IsTable result.now }
    {
        self.table.nodes()
    }

    /// The next line of a text of that version, as it is spelled beside the group's own code.
    pub fn read_spelled<'a>(
        &mut self,
        alloc: Global,
        scan: &mut Scan<'a>,
        version: Version,
        own: &Code,
    ) -> Result<SpelledShort, TokenError>
        ensures gives { (before : Items Line)
            → AreKept self.old before
            → Gives (spelled_short own.now.ranges) result scan.old scan.new
            (short_readers.line_at (version_of version) own.now.ranges before) }
        ensures behind { (before : Items Line)
            → AreKept self.old before
            → IfOk result (λ l. AreKept self.new (before ++ spelled_short own.now.ranges l ∷ [])) }
        ensures kept { OnErr result ((before : Items Line)
            → AreKept self.old before
            → AreKept self.new before) }
    {
        if begins_term(scan) {
            let node = self.read_term(scan)?;
            let line = ShortLine::Term(node);
            Ok(SpelledShort { line, all: false })
        } else {
            let (line, all) = read_short(alloc, scan, self.table.nodes(), own)?;
            self.begun = true;
            let line = ShortLine::Proof(line);
            Ok(SpelledShort { line, all })
        }
    }

    /// The term of the next line, which is put into the table.
    fn read_term<'a>(&mut self, scan: &mut Scan<'a>) -> Result<Node, TokenError>
        ensures gives { (before : Items Line)
            → AreKept self.old before
            → Gives Term result scan.old scan.new (term_line_at (has_begun before)
            (table_of before)) }
        ensures behind { (before : Items Line)
            → AreKept self.old before
            → IfOk result (λ n. AreKept self.new (before ++ Term n ∷ [])) }
        ensures kept { OnErr result ((before : Items Line)
            → AreKept self.old before
            → AreKept self.new before) }
    {
        if self.begun {
            return Err(TokenError::Bad);
        }
        let node = read_term_row(scan, &mut self.table)?;
        Ok(node)
    }
}

impl ReadLines for ShortLines {
    ghost use Rattle.short_text.specs.inner.ShortReaders.{AreKept, short_readers};

    type Line = ShortLine;

    ghost readers = { short_readers };

    ghost tree = { λ own l. l };

    ghost Behind = { AreKept };

    fn start(&mut self, alloc: Global) {
        self.table = Table::new(alloc);
        self.begun = false;
    }

    fn read<'a>(
        &mut self,
        alloc: Global,
        scan: &mut Scan<'a>,
        _version: Version,
        own: &Code,
    ) -> Result<ShortLine, TokenError> {
        if begins_term(scan) {
            let node = self.read_term(scan)?;
            Ok(ShortLine::Term(node))
        } else {
            let (line, all) = read_short(alloc, scan, self.table.nodes(), own)?;
            let line = ShortLine::Proof(line);
            // Without memory for the code nothing is kept of the line.
            let line = SpelledShort { line, all }.with_own(alloc, own)?;
            self.begun = true;
            Ok(line)
        }
    }
}
