//! Reading a text from a file, one group or line a call. No more of it is held than the row that is
//! next.

ghost use Rattle.std.specs.Prelude.{◌≡◌, ◌≤◌, ◌<◌, length, ◌⊎◌, ℕ, ◌∷◌, ◌++◌, [], List as Items, IfErr, IfNone, IfOk, IfSome, None, Some, false, is_none};
ghost use Rattle.mc_text.specs.Fault.{IsBadAt};
ghost use Rattle.tailrec_lang.specs.Tree.{group_tree};
ghost use Rattle.group_text.specs.Limits.{IsGroupIn};
ghost use Rattle.group_text.specs.Version.{version_of};
ghost use Rattle.group_text.specs.declared.version.Version.TheVariants.{Four, One, Three};
ghost use Rattle.proof_text.specs.Line.{ProofOf, ProofTree, line_tree};
ghost use Rattle.proof_text.specs.LineGrammar.{text_over, texts_over};
ghost use Rattle.proof_text.specs.inner.LineReaders.{IsBehindLines, ReadsLines};
ghost use Rattle.proof_text.specs.LineLimits.{IsLineIn};
ghost use Rattle.proof_text.specs.Proofs.{bare, text_of_proofs_in, texts_of_proofs_in};
ghost use Rattle.proof_text.specs.FirstProofs.{HasGiven, HasGivenOver, MayOpen, ProofEnds, with_line};
ghost use Rattle.proof_text.specs.Answers.{NoItem, NoItemOver};
ghost use Rattle.proof_text.specs.Pulling.{AreFresh, IfBad, Pulls, left_of, progress_in, held_text};
ghost use Rattle.proof_text.specs.inner.PulledRows.{IfFile};

use crate::line::Line;
use crate::pull_fault::PullFault;
use crate::pulled_items::{next_group, next_line};
use crate::pulled_rows::PulledRows;
use crate::read_lines::{ReadLines, WholeLines};
use group_text::Version;
use mc_shelf::{Lines, Shelf};
use std::alloc::Global;
use std::marker::Model;
use tailrec_lang::Group;

/// Goes over the groups of a text in a file and the lines of their proofs. The shelf is lent at
/// each call.
#[derive(Drop)]
pub struct Pull<'s> {
    version: Version,
    rows: PulledRows<'s>,
    place: u64,
    ended: bool,
    refused: Option<PullFault>,
}

impl<'s> Model for Pull<'s> {
    ghost use Rattle.std.specs.Prelude.{◌≡◌, None, false};
    ghost use Rattle.proof_text.specs.Pulling.{PullState};

    ghost Value = { PullState };

    ghost view = { λ p. record { version = p.version; rows = p.rows; place = p.place; ended = p.ended; refused = p.refused } };

    ghost invariant = { λ p. p.refused ≡ None → (p.rows.lines.refused ≡ None) × (p.ended ≡ false → p.place ≡ p.rows.taken) };
}

impl<'s> Pull<'s> {
    /// Stands before the first line of a text of version 1.
    pub fn new(lines: Lines<'s>) -> Pull<'s>
        requires { AreFresh lines }
        ensures version { result.version ≡ One }
        ensures lines { result.rows.lines ≡ lines.entry }
        ensures going { (result.refused ≡ None) × (result.ended ≡ false) }
        ensures left { left_of result ≤ lines.entry.size }
        ensures given { (file : Items ℕ) → HasGiven [] (progress_in result file) }
    {
        Pull::of_version(lines, Version::One)
    }

    /// Stands before the first line of a text of version 3 or 4.
    pub fn newer(lines: Lines<'s>, version: u8) -> Pull<'s>
        requires lines { AreFresh lines }
        requires version { (version ≡ 3) ⊎ (version ≡ 4) }
        ensures three { version ≡ 3 → result.version ≡ Three }
        ensures four { version ≡ 4 → result.version ≡ Four }
        ensures lines { result.rows.lines ≡ lines.entry }
        ensures going { (result.refused ≡ None) × (result.ended ≡ false) }
        ensures left { left_of result ≤ lines.entry.size }
        ensures given { (file : Items ℕ) → HasGiven [] (progress_in result file) }
    {
        if version == 3 {
            Pull::of_version(lines, Version::Three)
        } else {
            Pull::of_version(lines, Version::Four)
        }
    }

    /// Stands before the first line of a text of that version.
    pub fn of_version(lines: Lines<'s>, version: Version) -> Pull<'s>
        requires { AreFresh lines }
        ensures version { result.version ≡ version }
        ensures lines { result.rows.lines ≡ lines.entry }
        ensures going { (result.refused ≡ None) × (result.ended ≡ false) }
        ensures left { left_of result ≤ lines.entry.size }
        ensures begin { (file : Items ℕ)
            → ((progress_in result file).rest ≡ (progress_in result file).text)
            × ((progress_in result file).place ≡ 0) }
        ensures given { (file : Items ℕ) → HasGiven [] (progress_in result file) }
    {
        let rows = PulledRows::new(lines);
        Pull {
            version,
            rows,
            place: 0,
            ended: false,
            refused: None,
        }
    }

    /// The next group of a text with such lines, or none where the text ends well: to be called
    /// where the text begins, or where `next_line` has given none. A refusal and the end are
    /// answered again and again.
    pub fn next_group<S: Shelf, W: ReadLines>(
        &mut self,
        alloc: Global,
        shelf: &mut S,
        kept: &mut W,
    ) -> Result<Option<Group>, PullFault>
        requires { ReadsLines W.readers (version_of self.old.version) }
        // Where it is told what the name holds.
        ensures given { IfOk result (λ found. IfSome found (λ g.
            IfFile (S.contents shelf.old) self.old.rows.lines.name (λ file.
            (ps : Items (ProofOf W.readers.grammar.Line))
            → HasGivenOver W.readers.grammar ps (progress_in self.old file)
            → HasGivenOver W.readers.grammar (ps ++ bare (group_tree g) ∷ [])
            (progress_in self.new file)))) }
        ensures shorter { IfOk result (λ found. IfSome found (λ _.
            IfFile (S.contents shelf.old) self.old.rows.lines.name (λ file.
            length (progress_in self.new file).rest < length (progress_in self.old file).rest))) }
        ensures end { IfOk result (λ found. IfNone found (self.old.ended ≡ false
            → IfFile (S.contents shelf.old) self.old.rows.lines.name (λ file.
            (ps : Items (ProofOf W.readers.grammar.Line))
            → HasGivenOver W.readers.grammar ps (progress_in self.old file)
            → held_text self.old file
            ≡ text_over W.readers.grammar (version_of self.old.version) ps))) }
        ensures bad { IfErr result (λ fault. IfBad fault (λ n.
            self.old.refused ≡ None
            → IfFile (S.contents shelf.old) self.old.rows.lines.name (λ file.
            (ps : Items (ProofOf W.readers.grammar.Line))
            → HasGivenOver W.readers.grammar ps (progress_in self.old file)
            → MayOpen ps (progress_in self.old file).rest
            → IsBadAt (texts_over W.readers.grammar (version_of self.old.version))
            (held_text self.old file) n
            × NoItemOver W.readers.grammar ps (progress_in self.old file)))) }

        // Over every shelf.
        ensures behind { IfOk result (λ found. IfSome found (λ _. W.Behind kept.new [])) }
        ensures fits { IfOk result (λ found.
            IfSome found (λ g. IsGroupIn (version_of self.new.version) (group_tree g))) }
        ensures ended { IfOk result (λ found. self.new.ended ≡ is_none found) }
        ensures pulls { Pulls S.contents S.read_faults S.write_faults S.IsSure result self.old
            shelf.old self.new shelf.new }
    {
        if let Some(fault) = self.refused {
            return Err(fault);
        }
        if self.ended {
            return Ok(None);
        }
        let first = self.place == 0;
        match next_group(alloc, &mut self.rows, shelf, self.version, first) {
            Ok(Some(group)) => {
                self.place = self.rows.passed();
                kept.start(alloc);
                Ok(Some(group))
            }
            Ok(None) => {
                self.ended = true;
                Ok(None)
            }
            Err(fault) => {
                self.refused = Some(fault);
                Err(fault)
            }
        }
    }

    /// The next line behind the definitions of the group that was given last, or none where its
    /// lines end. Both that and a refusal are answered again and again.
    pub fn next_line<S: Shelf, W: ReadLines>(
        &mut self,
        alloc: Global,
        group: &Group,
        shelf: &mut S,
        kept: &mut W,
    ) -> Result<Option<W::Line>, PullFault>
        requires laws { ReadsLines W.readers (version_of self.old.version) }
        requires kept { IsBehindLines W.readers (version_of self.old.version) (W.Behind kept.old) }
        requires group { IsGroupIn (version_of self.old.version) (group_tree group.now) }
        // Where it is told what the name holds.
        ensures given { (before : Items W.readers.grammar.Line)
            → W.Behind kept.old before
            → W.readers.grammar.Are (version_of self.old.version) before
            → IfOk result (λ found. IfSome found (λ l.
            IfFile (S.contents shelf.old) self.old.rows.lines.name (λ file.
            (ps : Items (ProofOf W.readers.grammar.Line)) (p : ProofOf W.readers.grammar.Line)
            → HasGivenOver W.readers.grammar (ps ++ p ∷ []) (progress_in self.old file)
            → p.group ≡ group_tree group.now
            → p.lines ≡ before
            → HasGivenOver W.readers.grammar
            (ps ++ with_line p (W.tree (group_tree group.now).code l) ∷ [])
            (progress_in self.new file)))) }
        ensures shorter { IfOk result (λ found. IfSome found (λ _.
            IfFile (S.contents shelf.old) self.old.rows.lines.name (λ file.
            length (progress_in self.new file).rest < length (progress_in self.old file).rest))) }
        ensures end { IfOk result (λ found. IfNone found (self.old.ended ≡ false
            → IfFile (S.contents shelf.old) self.old.rows.lines.name (λ file.
            (progress_in self.new file ≡ progress_in self.old file)
            × ProofEnds (progress_in self.old file).rest))) }
        ensures bad { (before : Items W.readers.grammar.Line)
            → W.Behind kept.old before
            → W.readers.grammar.Are (version_of self.old.version) before
            → IfErr result (λ fault. IfBad fault (λ n.
            self.old.refused ≡ None
            → IfFile (S.contents shelf.old) self.old.rows.lines.name (λ file.
            (ps : Items (ProofOf W.readers.grammar.Line)) (p : ProofOf W.readers.grammar.Line)
            → HasGivenOver W.readers.grammar (ps ++ p ∷ []) (progress_in self.old file)
            → p.group ≡ group_tree group.now
            → p.lines ≡ before
            → IsBadAt (texts_over W.readers.grammar (version_of self.old.version))
            (held_text self.old file) n
            × NoItemOver W.readers.grammar (ps ++ p ∷ []) (progress_in self.old file)))) }

        // Over every shelf.
        ensures fits { (before : Items W.readers.grammar.Line)
            → W.Behind kept.old before
            → W.readers.grammar.Are (version_of self.old.version) before
            → IfOk result (λ found. IfSome found (λ l.
            W.readers.Fits (version_of self.old.version) before
            (W.tree (group_tree group.now).code l))) }
        ensures behind { (before : Items W.readers.grammar.Line)
            → W.Behind kept.old before
            → IfOk result (λ found. IfSome found (λ l.
            W.Behind kept.new (before ++ W.tree (group_tree group.now).code l ∷ []))) }
        ensures kept { IfErr result (λ _.
            (before : Items W.readers.grammar.Line)
            → W.Behind kept.old before
            → W.Behind kept.new before) }
        ensures ended { self.new.ended ≡ self.old.ended }
        ensures pulls { Pulls S.contents S.read_faults S.write_faults S.IsSure result self.old
            shelf.old self.new shelf.new }
    {
        if let Some(fault) = self.refused {
            return Err(fault);
        }
        if self.ended {
            return Ok(None);
        }
        match next_line(
            alloc,
            &mut self.rows,
            shelf,
            self.version,
            &group.code,
            kept,
        ) {
            Ok(found) => {
                self.place = self.rows.passed();
                Ok(found)
            }
            Err(fault) => {
                self.refused = Some(fault);
                Err(fault)
            }
        }
    }

    /// The next group, or none where the text ends well: to be called where the text begins, or
    /// where `line` has given none. A refusal and the end are answered again and again.
    pub fn group<S: Shelf>(
        &mut self,
        alloc: Global,
        shelf: &mut S,
    ) -> Result<Option<Group>, PullFault>
        // Where it is told what the name holds.
        ensures given { IfOk result (λ found. IfSome found (λ g.
            IfFile (S.contents shelf.old) self.old.rows.lines.name (λ file.
            (ps : Items ProofTree)
            → HasGiven ps (progress_in self.old file)
            → HasGiven (ps ++ bare (group_tree g) ∷ []) (progress_in self.new file)))) }
        ensures shorter { IfOk result (λ found. IfSome found (λ _.
            IfFile (S.contents shelf.old) self.old.rows.lines.name (λ file.
            length (progress_in self.new file).rest < length (progress_in self.old file).rest))) }
        ensures end { IfOk result (λ found. IfNone found (self.old.ended ≡ false
            → IfFile (S.contents shelf.old) self.old.rows.lines.name (λ file.
            (ps : Items ProofTree)
            → HasGiven ps (progress_in self.old file)
            → held_text self.old file ≡ text_of_proofs_in (version_of self.old.version) ps))) }
        ensures bad { IfErr result (λ fault. IfBad fault (λ n.
            self.old.refused ≡ None
            → IfFile (S.contents shelf.old) self.old.rows.lines.name (λ file.
            (ps : Items ProofTree)
            → HasGiven ps (progress_in self.old file)
            → MayOpen ps (progress_in self.old file).rest
            → IsBadAt (texts_of_proofs_in (version_of self.old.version)) (held_text self.old file) n
            × NoItem ps (progress_in self.old file)))) }

        // Over every shelf.
        ensures fits { IfOk result (λ found.
            IfSome found (λ g. IsGroupIn (version_of self.new.version) (group_tree g))) }
        ensures ended { IfOk result (λ found. self.new.ended ≡ is_none found) }
        ensures pulls { Pulls S.contents S.read_faults S.write_faults S.IsSure result self.old
            shelf.old self.new shelf.new }
    {
        self.next_group(alloc, shelf, &mut WholeLines)
    }

    /// The next line of the proof of the group that was given last, or none where its lines end.
    /// Both that and a refusal are answered again and again.
    pub fn line<S: Shelf>(
        &mut self,
        alloc: Global,
        group: &Group,
        shelf: &mut S,
    ) -> Result<Option<Line>, PullFault>
        requires { IsGroupIn (version_of self.old.version) (group_tree group.now) }
        // Where it is told what the name holds.
        ensures given { IfOk result (λ found. IfSome found (λ l.
            IfFile (S.contents shelf.old) self.old.rows.lines.name (λ file.
            (ps : Items ProofTree) (p : ProofTree)
            → HasGiven (ps ++ p ∷ []) (progress_in self.old file)
            → p.group ≡ group_tree group.now
            → HasGiven (ps ++ with_line p (line_tree l) ∷ []) (progress_in self.new file)))) }
        ensures shorter { IfOk result (λ found. IfSome found (λ _.
            IfFile (S.contents shelf.old) self.old.rows.lines.name (λ file.
            length (progress_in self.new file).rest < length (progress_in self.old file).rest))) }
        ensures end { IfOk result (λ found. IfNone found (self.old.ended ≡ false
            → IfFile (S.contents shelf.old) self.old.rows.lines.name (λ file.
            (progress_in self.new file ≡ progress_in self.old file)
            × ProofEnds (progress_in self.old file).rest))) }
        ensures bad { IfErr result (λ fault. IfBad fault (λ n.
            self.old.refused ≡ None
            → IfFile (S.contents shelf.old) self.old.rows.lines.name (λ file.
            (ps : Items ProofTree) (p : ProofTree)
            → HasGiven (ps ++ p ∷ []) (progress_in self.old file)
            → p.group ≡ group_tree group.now
            → IsBadAt (texts_of_proofs_in (version_of self.old.version)) (held_text self.old file) n
            × NoItem (ps ++ p ∷ []) (progress_in self.old file)))) }

        // Over every shelf.
        ensures fits { IfOk result (λ found.
            IfSome found (λ l. IsLineIn (version_of self.new.version) (line_tree l))) }
        ensures ended { self.new.ended ≡ self.old.ended }
        ensures pulls { Pulls S.contents S.read_faults S.write_faults S.IsSure result self.old
            shelf.old self.new shelf.new }
    {
        self.next_line(alloc, group, shelf, &mut WholeLines)
    }

    /// The number of the last line of the group or line that was given last, and 0 before the
    /// first.
    pub fn place(&self) -> u64
        ensures { result ≡ self.now.place }
    {
        self.place
    }
}
