//! Reading a text, one group or line a call.

ghost use Rattle.std.specs.Prelude.{◌≡◌, ◌<◌, ◌↔◌, ◌⊎◌, ◌∷◌, ◌++◌, [], List as Items, OnErr, length};
ghost use Rattle.proof_text.specs.LineGrammar.{text_over, texts_over};
ghost use Rattle.proof_text.specs.inner.LineReaders.{IsBehindLines, ReadsLines};
ghost use Rattle.mc_text.specs.Fault.{IsBadAt};
ghost use Rattle.tailrec_lang.specs.Eval.{HasFewNeeds};
ghost use Rattle.tailrec_lang.specs.Tree.{group_tree};
ghost use Rattle.group_text.specs.Limits.{IsGroupIn};
ghost use Rattle.group_text.specs.Version.{version_of};
ghost use Rattle.group_text.specs.declared.version.Version.TheVariants.{Four, One, Three};
ghost use Rattle.proof_text.specs.Line.{ProofOf, ProofTree, line_tree, spelled_tree};
ghost use Rattle.proof_text.specs.LineLimits.{IsLineIn};
ghost use Rattle.proof_text.specs.Proofs.{bare, text_of_proofs_in, texts_of_proofs_in};
ghost use Rattle.proof_text.specs.FirstProofs.{HasGiven, HasGivenOver, MayOpen, ProofEnds, with_line};
ghost use Rattle.proof_text.specs.Answers.{IsEnd, NoItem, NoItemOver, OnBad, OnEnd, OnGiven};

use crate::line::{Line, SpelledLine};
use crate::line_turns::read_turn as read_line_turn;
use crate::read_lines::{ReadLines, SpelledLines, WholeLines};
use group_text::{ReadError, Rows, TextFault, TextRows, Version, is_end, read_turn, whole_lines};
use std::alloc::Global;
use std::marker::Model;
use tailrec_lang::Group;

/// Goes over the groups of a text and the lines of their proofs.
#[derive(Debug, Drop)]
pub struct Reader<'a> {
    version: Version,
    text: &'a [u8],
    lines: &'a [u8],
    tail: &'a [u8],
    place: u64,
}

impl<'a> Model for Reader<'a> {
    ghost use Rattle.std.specs.Prelude.{◌≡◌, ◌+◌, ◌≤◌, ◌^◌, ◌++◌, length};
    ghost use Rattle.mc_text.specs.Fault.{newlines};
    ghost use Rattle.group_text.specs.inner.Cut.{AreWholeLines};
    ghost use Rattle.proof_text.specs.FirstProofs.{Progress};

    ghost Value = { Progress };

    ghost view = { λ s. record { version = s.version; text = s.text.now; rest = s.lines.now ++ s.tail.now; place = s.place } };

    ghost invariant = { λ s. AreWholeLines s.lines.now × (newlines s.tail.now ≡ 0) × (s.place + length s.lines.now ≤ 2 ^ 63) };
}

impl<'a> Reader<'a> {
    /// Stands before the first line of a text of version 1.
    pub fn new(text: &'a [u8]) -> Reader<'a>
        ensures text { result.text ≡ text.now }
        ensures version { result.version ≡ One }
        ensures given { HasGiven [] result }
    {
        Reader::of_version(text, Version::One)
    }

    /// Stands before the first line of a text of version 3 or 4.
    pub fn newer(text: &'a [u8], version: u8) -> Reader<'a>
        requires { (version ≡ 3) ⊎ (version ≡ 4) }
        ensures text { result.text ≡ text.now }
        ensures three { version ≡ 3 → result.version ≡ Three }
        ensures four { version ≡ 4 → result.version ≡ Four }
        ensures given { HasGiven [] result }
    {
        if version == 3 {
            Reader::of_version(text, Version::Three)
        } else {
            Reader::of_version(text, Version::Four)
        }
    }

    /// Stands before the first line of a text of that version.
    pub fn of_version(text: &'a [u8], version: Version) -> Reader<'a>
        ensures text { result.text ≡ text.now }
        ensures version { result.version ≡ version }
        ensures begin { (result.rest ≡ result.text) × (result.place ≡ 0) }
        ensures given { HasGiven [] result }
    {
        let (lines, tail) = whole_lines(text);
        Reader {
            version,
            text,
            lines,
            tail,
            place: 0,
        }
    }

    /// The next group of a text with such lines, or none where the text ends well: to be called
    /// where the text begins, or where `next_line` has given none. A fault and the end are answered
    /// again and again.
    pub fn next_group<W: ReadLines>(
        &mut self,
        alloc: Global,
        kept: &mut W,
    ) -> Result<Option<Group>, TextFault>
        requires { ReadsLines W.readers (version_of self.old.version) }
        ensures text { self.new.text ≡ self.old.text }
        ensures version { self.new.version ≡ self.old.version }
        ensures given { OnGiven result (λ g.
            (ps : Items (ProofOf W.readers.grammar.Line))
            → HasGivenOver W.readers.grammar ps self.old
            → HasGivenOver W.readers.grammar (ps ++ bare (group_tree g) ∷ []) self.new) }
        ensures behind { OnGiven result (λ _. W.Behind kept.new []) }
        ensures fits { OnGiven result (λ g.
            IsGroupIn (version_of self.new.version) (group_tree g)) }
        ensures needs { OnGiven result (λ g. HasFewNeeds (group_tree g)) }
        ensures shorter { OnGiven result (λ _. length self.new.rest < length self.old.rest) }
        ensures end { OnEnd result ((ps : Items (ProofOf W.readers.grammar.Line))
            → HasGivenOver W.readers.grammar ps self.old
            → self.old.text ≡ text_over W.readers.grammar (version_of self.old.version) ps) }
        ensures bad { OnBad result (λ n.
            (ps : Items (ProofOf W.readers.grammar.Line))
            → HasGivenOver W.readers.grammar ps self.old
            → MayOpen ps self.old.rest
            → IsBadAt (texts_over W.readers.grammar (version_of self.old.version)) self.old.text
            n) }
        ensures no_item { OnBad result (λ n.
            (ps : Items (ProofOf W.readers.grammar.Line))
            → HasGivenOver W.readers.grammar ps self.old
            → MayOpen ps self.old.rest
            → NoItemOver W.readers.grammar ps self.old) }
        ensures end_same { OnEnd result (self.new ≡ self.old) }
        ensures fault_same { OnErr result (self.new ≡ self.old) }
    {
        let mut rows = TextRows::new(self.lines);
        match read_turn(alloc, &mut rows, &mut (), self.version, self.place == 0) {
            Ok(Some(group)) => {
                let passed = rows.taken(&());
                self.lines = rows.rest();
                self.place += passed;
                kept.start(alloc);
                Ok(Some(group))
            }
            Ok(None) => {
                if is_end(rows.rest(), self.tail) {
                    Ok(None)
                } else {
                    Err(TextFault::Bad(self.place + rows.taken(&()) + 1))
                }
            }
            Err(ReadError::Bad) => Err(TextFault::Bad(self.place + rows.taken(&()) + 1)),
            Err(ReadError::Fault) => Err(TextFault::NoMemory),
            Err(ReadError::NoMemory) => Err(TextFault::NoMemory),
        }
    }

    /// The next line behind the definitions of the group that was given last, or none where its
    /// lines end. Both that and a fault are answered again and again.
    pub fn next_line<W: ReadLines>(
        &mut self,
        alloc: Global,
        group: &Group,
        kept: &mut W,
    ) -> Result<Option<W::Line>, TextFault>
        requires laws { ReadsLines W.readers (version_of self.old.version) }
        requires kept { IsBehindLines W.readers (version_of self.old.version) (W.Behind kept.old) }
        requires group { IsGroupIn (version_of self.old.version) (group_tree group.now) }
        ensures text { self.new.text ≡ self.old.text }
        ensures version { self.new.version ≡ self.old.version }
        // Behind lines that may be those of which was kept.
        ensures given { (before : Items W.readers.grammar.Line)
            → W.Behind kept.old before
            → OnGiven result (λ l.
            (ps : Items (ProofOf W.readers.grammar.Line)) (p : ProofOf W.readers.grammar.Line)
            → HasGivenOver W.readers.grammar (ps ++ p ∷ []) self.old
            → p.group ≡ group_tree group.now
            → p.lines ≡ before
            → HasGivenOver W.readers.grammar
            (ps ++ with_line p (W.tree (group_tree group.now).code l) ∷ []) self.new) }
        ensures behind { (before : Items W.readers.grammar.Line)
            → W.Behind kept.old before
            → OnGiven result (λ l.
            W.Behind kept.new (before ++ W.tree (group_tree group.now).code l ∷ [])) }
        ensures fits { (before : Items W.readers.grammar.Line)
            → W.Behind kept.old before
            → W.readers.grammar.Are (version_of self.old.version) before
            → OnGiven result (λ l.
            W.readers.Fits (version_of self.old.version) before
            (W.tree (group_tree group.now).code l)) }
        ensures bad { (before : Items W.readers.grammar.Line)
            → W.Behind kept.old before
            → OnBad result (λ n.
            (ps : Items (ProofOf W.readers.grammar.Line)) (p : ProofOf W.readers.grammar.Line)
            → HasGivenOver W.readers.grammar (ps ++ p ∷ []) self.old
            → p.group ≡ group_tree group.now
            → p.lines ≡ before
            → IsBadAt (texts_over W.readers.grammar (version_of self.old.version)) self.old.text
            n) }
        ensures no_item { (before : Items W.readers.grammar.Line)
            → W.Behind kept.old before
            → OnBad result (λ n.
            (ps : Items (ProofOf W.readers.grammar.Line)) (p : ProofOf W.readers.grammar.Line)
            → HasGivenOver W.readers.grammar (ps ++ p ∷ []) self.old
            → p.group ≡ group_tree group.now
            → p.lines ≡ before
            → NoItemOver W.readers.grammar (ps ++ p ∷ []) self.old) }
        ensures kept { OnErr result ((before : Items W.readers.grammar.Line)
            → W.Behind kept.old before
            → W.Behind kept.new before) }
        // Whatever was kept.
        ensures kept_end { OnEnd result (kept.new ≡ kept.old) }
        ensures end { IsEnd result ↔ ProofEnds self.old.rest }
        ensures shorter { OnGiven result (λ _. length self.new.rest < length self.old.rest) }
        ensures end_same { OnEnd result (self.new ≡ self.old) }
        ensures fault_same { OnErr result (self.new ≡ self.old) }
    {
        let mut ahead = TextRows::new(self.lines);
        match read_line_turn(alloc, &mut ahead, &mut (), self.version, &group.code, kept) {
            Ok(Some(line)) => {
                let passed = ahead.taken(&());
                self.lines = ahead.rest();
                self.place += passed;
                Ok(Some(line))
            }
            Ok(None) => Ok(None),
            Err(ReadError::Bad) => Err(TextFault::Bad(self.place + ahead.taken(&()) + 1)),
            Err(ReadError::Fault) => Err(TextFault::NoMemory),
            Err(ReadError::NoMemory) => Err(TextFault::NoMemory),
        }
    }

    /// The next group, or none where the text ends well: to be called where the text begins, or
    /// where `line` has given none. A fault and the end are answered again and again.
    pub fn group(&mut self, alloc: Global) -> Result<Option<Group>, TextFault>
        ensures text { self.new.text ≡ self.old.text }
        ensures version { self.new.version ≡ self.old.version }
        ensures given { OnGiven result (λ g.
            (ps : Items ProofTree)
            → HasGiven ps self.old
            → HasGiven (ps ++ bare (group_tree g) ∷ []) self.new) }
        ensures fits { OnGiven result (λ g.
            IsGroupIn (version_of self.new.version) (group_tree g)) }
        ensures needs { OnGiven result (λ g. HasFewNeeds (group_tree g)) }
        ensures shorter { OnGiven result (λ _. length self.new.rest < length self.old.rest) }
        ensures end { OnEnd result ((ps : Items ProofTree)
            → HasGiven ps self.old
            → self.old.text ≡ text_of_proofs_in (version_of self.old.version) ps) }
        ensures bad { OnBad result (λ n.
            (ps : Items ProofTree)
            → HasGiven ps self.old
            → MayOpen ps self.old.rest
            → IsBadAt (texts_of_proofs_in (version_of self.old.version)) self.old.text n) }
        ensures no_item { OnBad result (λ n.
            (ps : Items ProofTree)
            → HasGiven ps self.old
            → MayOpen ps self.old.rest
            → NoItem ps self.old) }
        ensures end_same { OnEnd result (self.new ≡ self.old) }
        ensures fault_same { OnErr result (self.new ≡ self.old) }
    {
        self.next_group(alloc, &mut WholeLines)
    }

    /// The next line of the proof of the group that was given last, or none where its lines end.
    /// Both that and a fault are answered again and again.
    pub fn line(&mut self, alloc: Global, group: &Group) -> Result<Option<Line>, TextFault>
        requires { IsGroupIn (version_of self.old.version) (group_tree group.now) }
        ensures text { self.new.text ≡ self.old.text }
        ensures version { self.new.version ≡ self.old.version }
        ensures given { OnGiven result (λ l.
            (ps : Items ProofTree) (p : ProofTree)
            → HasGiven (ps ++ p ∷ []) self.old
            → p.group ≡ group_tree group.now
            → HasGiven (ps ++ with_line p (line_tree l) ∷ []) self.new) }
        ensures fits { OnGiven result (λ l. IsLineIn (version_of self.new.version) (line_tree l)) }
        ensures shorter { OnGiven result (λ _. length self.new.rest < length self.old.rest) }
        ensures end { IsEnd result ↔ ProofEnds self.old.rest }
        ensures bad { OnBad result (λ n.
            (ps : Items ProofTree) (p : ProofTree)
            → HasGiven (ps ++ p ∷ []) self.old
            → p.group ≡ group_tree group.now
            → IsBadAt (texts_of_proofs_in (version_of self.old.version)) self.old.text n) }
        ensures no_item { OnBad result (λ n.
            (ps : Items ProofTree) (p : ProofTree)
            → HasGiven (ps ++ p ∷ []) self.old
            → p.group ≡ group_tree group.now
            → NoItem (ps ++ p ∷ []) self.old) }
        ensures end_same { OnEnd result (self.new ≡ self.old) }
        ensures fault_same { OnErr result (self.new ≡ self.old) }
    {
        self.next_line(alloc, group, &mut WholeLines)
    }

    /// The next line of the proof of the group that was given last, or none where its lines end, as
    /// it is spelled. Both that and a fault are answered again and again.
    pub fn spelled_line(
        &mut self,
        alloc: Global,
        group: &Group,
    ) -> Result<Option<SpelledLine>, TextFault>
        requires { IsGroupIn (version_of self.old.version) (group_tree group.now) }
        ensures text { self.new.text ≡ self.old.text }
        ensures version { self.new.version ≡ self.old.version }
        ensures given { OnGiven result (λ l.
            (ps : Items ProofTree) (p : ProofTree)
            → HasGiven (ps ++ p ∷ []) self.old
            → p.group ≡ group_tree group.now
            → HasGiven (ps ++ with_line p (spelled_tree (group_tree group.now).code l) ∷ [])
            self.new) }
        ensures fits { OnGiven result (λ l.
            IsLineIn (version_of self.new.version) (spelled_tree (group_tree group.now).code l)) }
        ensures shorter { OnGiven result (λ _. length self.new.rest < length self.old.rest) }
        ensures end { IsEnd result ↔ ProofEnds self.old.rest }
        ensures bad { OnBad result (λ n.
            (ps : Items ProofTree) (p : ProofTree)
            → HasGiven (ps ++ p ∷ []) self.old
            → p.group ≡ group_tree group.now
            → IsBadAt (texts_of_proofs_in (version_of self.old.version)) self.old.text n) }
        ensures no_item { OnBad result (λ n.
            (ps : Items ProofTree) (p : ProofTree)
            → HasGiven (ps ++ p ∷ []) self.old
            → p.group ≡ group_tree group.now
            → NoItem (ps ++ p ∷ []) self.old) }
        ensures end_same { OnEnd result (self.new ≡ self.old) }
        ensures fault_same { OnErr result (self.new ≡ self.old) }
    {
        self.next_line(alloc, group, &mut SpelledLines)
    }

    /// The number of the last line of the group or line that was given last, and 0 before the
    /// first.
    pub fn place(&self) -> u64
        ensures { result ≡ self.now.place }
    {
        self.place
    }
}
