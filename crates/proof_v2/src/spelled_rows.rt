//! What reads lines of version 2 as they are spelled.

use group_text::Version;
use mc_text::{Scan, TokenError};
use proof_text::ReadLines;
use short_text::{ShortLines, SpelledShort};
use std::alloc::Global;
use word_terms::Code;

/// Reads lines as they are spelled, so that none has a copy of the group's own code.
#[derive(Drop)]
pub(crate) struct SpelledRows {
    /// What is kept of the lines before.
    pub(crate) lines: ShortLines,
}

impl ReadLines for SpelledRows {
    ghost use Rattle.short_text.specs.SpelledShort.{spelled_short};
    ghost use Rattle.short_text.specs.inner.ShortReaders.{AreKept, short_readers};

    type Line = SpelledShort;

    ghost readers = { short_readers };

    ghost tree = { spelled_short };

    ghost Behind = { λ s before. AreKept s.lines before };

    fn start(&mut self, alloc: Global) {
        self.lines.start(alloc);
    }

    fn read<'a>(
        &mut self,
        alloc: Global,
        scan: &mut Scan<'a>,
        version: Version,
        own: &Code,
    ) -> Result<SpelledShort, TokenError> {
        self.lines.read_spelled(alloc, scan, version, own)
    }
}
