//! Reading a text of each version, one group or line of a proof a call.

ghost use Rattle.std.specs.Prelude.{◌≡◌, ◌≤◌, ◌<◌, [], List as Items, OnErr, length};
ghost use Rattle.tailrec_lang.specs.Eval.{HasFewNeeds};
ghost use Rattle.tailrec_lang.specs.Tree.{group_tree};
ghost use Rattle.group_text.specs.Limits.{IsGroupIn};
ghost use Rattle.group_text.specs.Version.{version_of};
ghost use Rattle.group_text.specs.declared.version.Version.{Version as Known};
ghost use Rattle.group_text.specs.declared.version.Version.TheVariants.{Two};
ghost use Rattle.proof_text.specs.Answers.{OnBad, OnEnd, OnGiven};
ghost use Rattle.proof_text.specs.FirstProofs.{ProofEnds};
ghost use Rattle.verdicts.specs.inner.Checking.{IsSameText};
ghost use Rattle.proof_v2.specs.AnyReading.{AreLinesIn, AreSomeLinesIn, AreTermsIn, EndsAny, GivesGroupAny, GivesLines, HasGivenAny, StopsGroups, StopsLines, as_item, lines_of_last, reading_state, table_in};
ghost use Rattle.proof_v2.specs.AnyText.{AnyProof};
ghost use Rattle.proof_v2.specs.Titles.{any_version, named_version};

use crate::short_reading::{pass_short, short_group, short_line};
use crate::title::{any_version, is_short, named_version};
use group_text::{TextFault, Version};
use proof_text::{Line, Reader};
use short_text::{Short, ShortLines};
use std::alloc::Global;
use std::marker::Model;
use tailrec_lang::Group;
use term_arena::Node;

/// A line of a proof.
#[derive(Debug, Drop)]
pub enum AnyLine {
    /// A line that states a whole triple: of version 1, 3 or 4.
    One(Line),
    /// A line of version 2, over the numbers of its table's terms.
    Two(Short),
}

/// Goes over the groups of a text and the lines of their proofs. In version 2 the terms of a
/// group's table are read by the first call that asks for a line of its proof.
#[derive(Drop)]
pub struct AnyReader<'a> {
    version: Version,
    reader: Reader<'a>,
    lines: ShortLines,
}

impl<'a> Model for AnyReader<'a> {
    ghost use Rattle.std.specs.Prelude.{◌≡◌};
    ghost use Rattle.proof_v2.specs.AnyReading.{AnyState, reading_state};
    ghost use Rattle.proof_v2.specs.inner.ShortReading.{IsOpen};

    ghost Value = { AnyState };

    ghost view = { λ s. reading_state s.reader s.lines };

    ghost invariant = { λ s. (s.version ≡ s.reader.version) × IsOpen s.lines };
}

impl<'a> AnyReader<'a> {
    /// Stands before the first line of a text, to read it as one of version 2 where that line names
    /// it, and else as one of version 1.
    pub fn new(alloc: Global, text: &'a [u8]) -> AnyReader<'a>
        ensures text { result.progress.text ≡ text.now }
        ensures version { result.progress.version ≡ any_version text.now }
        ensures given { HasGivenAny result.progress.version [] result }
    {
        AnyReader::of_version(alloc, text, any_version(text))
    }

    /// Stands before the first line of a text of that version.
    pub fn of_version(alloc: Global, text: &'a [u8], version: Version) -> AnyReader<'a>
        ensures text { result.progress.text ≡ text.now }
        ensures version { result.progress.version ≡ version }
        ensures given { HasGivenAny result.progress.version [] result }
    {
        AnyReader {
            version,
            reader: Reader::of_version(text, version),
            lines: ShortLines::new(alloc),
        }
    }

    /// The next group, or none where the text ends well: to be called where the text begins, or
    /// where no line is left of the last group's proof. A fault and the end are answered again and
    /// again.
    pub fn group(&mut self, alloc: Global) -> Result<Option<Group>, TextFault>
        ensures same { IsSameText self.new.progress self.old.progress }
        ensures given { OnGiven result (λ g. GivesGroupAny (group_tree g) self.old self.new) }
        ensures fits { OnGiven result (λ g.
            IsGroupIn (version_of self.new.progress.version) (group_tree g)) }
        ensures needs { OnGiven result (λ g. HasFewNeeds (group_tree g)) }
        ensures shorter { OnGiven result (λ _.
            length self.new.progress.rest < length self.old.progress.rest) }
        ensures end { OnEnd result (EndsAny self.old) }
        ensures bad { OnBad result (λ n. StopsGroups n self.old) }
        ensures end_same { OnEnd result (self.new ≡ self.old) }
        ensures fault_same { OnErr result (self.new ≡ self.old) }
    {
        if is_short(self.version) {
            short_group(alloc, &mut self.reader, &mut self.lines)
        } else {
            whole_group(alloc, &mut self.reader, &self.lines)
        }
    }

    /// The next line of the proof of the group that was given last, or none where its lines end.
    /// Both that and a fault are answered again and again.
    pub fn line(&mut self, alloc: Global, group: &Group) -> Result<Option<AnyLine>, TextFault>
        requires { IsGroupIn (version_of self.old.progress.version) (group_tree group.now) }
        ensures same { IsSameText self.new.progress self.old.progress }
        ensures given { OnGiven result (λ l.
            GivesLines (group_tree group.now) (λ k. AreLinesIn k l) self.old self.new) }
        ensures shorter { OnGiven result (λ _.
            length self.new.progress.rest < length self.old.progress.rest) }
        ensures end { OnEnd result (ProofEnds self.new.progress.rest
            × GivesLines (group_tree group.now) AreTermsIn self.old self.new) }
        ensures no_longer { length self.new.progress.rest ≤ length self.old.progress.rest }
        ensures bad { OnBad result (λ n. StopsLines (group_tree group.now) n self.old self.new) }
        ensures fault { OnErr result (GivesLines (group_tree group.now) AreTermsIn self.old
            self.new) }
    {
        if is_short(self.version) {
            short_line(alloc, &mut self.reader, &mut self.lines, group)
        } else {
            whole_line(alloc, &mut self.reader, &self.lines, group)
        }
    }

    /// Goes past the next line of the proof of the group that was given last, and tells whether
    /// there was one. That there is none and a fault are answered again and again. The group's own
    /// code isn't copied for it.
    pub fn pass_line(&mut self, alloc: Global, group: &Group) -> Result<bool, TextFault>
        requires { IsGroupIn (version_of self.old.progress.version) (group_tree group.now) }
        ensures same { IsSameText self.new.progress self.old.progress }
        ensures given { OnGiven (as_item result) (λ _.
            GivesLines (group_tree group.now) AreSomeLinesIn self.old self.new) }
        ensures shorter { OnGiven (as_item result) (λ _.
            length self.new.progress.rest < length self.old.progress.rest) }
        ensures end { OnEnd (as_item result) (ProofEnds self.new.progress.rest
            × GivesLines (group_tree group.now) AreTermsIn self.old self.new) }
        ensures no_longer { length self.new.progress.rest ≤ length self.old.progress.rest }
        ensures bad { OnBad (as_item result) (λ n.
            StopsLines (group_tree group.now) n self.old self.new) }
        ensures fault { OnErr result (GivesLines (group_tree group.now) AreTermsIn self.old
            self.new) }
    {
        if is_short(self.version) {
            pass_short(alloc, &mut self.reader, &mut self.lines, group)
        } else {
            pass_whole(alloc, &mut self.reader, &self.lines, group)
        }
    }

    /// The terms of the last group's table that were read, by their numbers. Only texts of version
    /// 2 have them, and there the first call for a line of a proof reads all.
    pub fn table(&self) -> &[Node]
        ensures { (k : Known) (ps : Items (AnyProof k))
            → HasGivenAny k ps self.now
            → result.now ≡ table_in k (lines_of_last ps) }
    {
        self.lines.table()
    }

    /// The number of the last line of the group, or the line of a proof or of its table, that was
    /// read last, and 0 before the first.
    pub fn place(&self) -> u64
        ensures { result ≡ self.now.progress.place }
    {
        self.reader.place()
    }
}

/// Stands before the first line of a text, to read it in the version that this line names.
pub fn reader_of<'a>(alloc: Global, text: &'a [u8]) -> AnyReader<'a>
    ensures text { result.progress.text ≡ text.now }
    ensures version { result.progress.version ≡ named_version text.now }
    ensures given { HasGivenAny result.progress.version [] result }
{
    AnyReader::of_version(alloc, text, named_version(text))
}

/// The next group of a text whose lines state whole triples. Nothing is kept of these.
fn whole_group(
    alloc: Global,
    reader: &mut Reader<'_>,
    lines: &ShortLines,
) -> Result<Option<Group>, TextFault>
    requires { reader.old.version ≡ Two → ⊥ }
    ensures same { IsSameText reader.new reader.old }
    ensures given { OnGiven result (λ g.
        GivesGroupAny (group_tree g) (reading_state reader.old lines.now)
        (reading_state reader.new lines.now)) }
    ensures fits { OnGiven result (λ g. IsGroupIn (version_of reader.new.version) (group_tree g)) }
    ensures needs { OnGiven result (λ g. HasFewNeeds (group_tree g)) }
    ensures shorter { OnGiven result (λ _. length reader.new.rest < length reader.old.rest) }
    ensures end { OnEnd result (EndsAny (reading_state reader.old lines.now)) }
    ensures bad { OnBad result (λ n. StopsGroups n (reading_state reader.old lines.now)) }
    ensures end_same { OnEnd result (reader.new ≡ reader.old) }
    ensures fault_same { OnErr result (reader.new ≡ reader.old) }
{
    reader.group(alloc)
}

/// The next line of a proof whose lines state whole triples.
fn whole_line(
    alloc: Global,
    reader: &mut Reader<'_>,
    lines: &ShortLines,
    group: &Group,
) -> Result<Option<AnyLine>, TextFault>
    requires version { reader.old.version ≡ Two → ⊥ }
    requires group { IsGroupIn (version_of reader.old.version) (group_tree group.now) }
    ensures same { IsSameText reader.new reader.old }
    ensures given { OnGiven result (λ l. GivesLines (group_tree group.now) (λ k. AreLinesIn k l)
        (reading_state reader.old lines.now) (reading_state reader.new lines.now)) }
    ensures shorter { OnGiven result (λ _. length reader.new.rest < length reader.old.rest) }
    ensures end { OnEnd result (ProofEnds reader.new.rest
        × GivesLines (group_tree group.now) AreTermsIn (reading_state reader.old lines.now)
        (reading_state reader.new lines.now)) }
    ensures no_longer { length reader.new.rest ≤ length reader.old.rest }
    ensures bad { OnBad result (λ n.
        StopsLines (group_tree group.now) n (reading_state reader.old lines.now)
        (reading_state reader.new lines.now)) }
    ensures fault { OnErr result (GivesLines (group_tree group.now) AreTermsIn
        (reading_state reader.old lines.now) (reading_state reader.new lines.now)) }
{
    match reader.line(alloc, group) {
        Ok(Some(line)) => Ok(Some(AnyLine::One(line))),
        Ok(None) => Ok(None),
        Err(fault) => Err(fault),
    }
}

/// Goes past the next line of a proof whose lines state whole triples.
fn pass_whole(
    alloc: Global,
    reader: &mut Reader<'_>,
    lines: &ShortLines,
    group: &Group,
) -> Result<bool, TextFault>
    requires version { reader.old.version ≡ Two → ⊥ }
    requires group { IsGroupIn (version_of reader.old.version) (group_tree group.now) }
    ensures same { IsSameText reader.new reader.old }
    ensures given { OnGiven (as_item result) (λ _.
        GivesLines (group_tree group.now) AreSomeLinesIn (reading_state reader.old lines.now)
        (reading_state reader.new lines.now)) }
    ensures shorter { OnGiven (as_item result) (λ _.
        length reader.new.rest < length reader.old.rest) }
    ensures end { OnEnd (as_item result) (ProofEnds reader.new.rest
        × GivesLines (group_tree group.now) AreTermsIn (reading_state reader.old lines.now)
        (reading_state reader.new lines.now)) }
    ensures no_longer { length reader.new.rest ≤ length reader.old.rest }
    ensures bad { OnBad (as_item result) (λ n.
        StopsLines (group_tree group.now) n (reading_state reader.old lines.now)
        (reading_state reader.new lines.now)) }
    ensures fault { OnErr result (GivesLines (group_tree group.now) AreTermsIn
        (reading_state reader.old lines.now) (reading_state reader.new lines.now)) }
{
    match reader.spelled_line(alloc, group) {
        Ok(Some(_line)) => Ok(true),
        Ok(None) => Ok(false),
        Err(fault) => Err(fault),
    }
}
