//! Where the groups of a text and the lines of their proofs come from.

ghost use Rattle.std.specs.Prelude.{◌≡◌, ◌∷◌, ◌++◌, [], ℕ, List, ◌<◌, ◌≤◌, Bool, Option, IfErr, IfNone, IfOk, IfSome, IsSome, false};
ghost use Rattle.tailrec_lang.specs.Tree.{group_tree};
ghost use Rattle.group_text.specs.Limits.{IsGroupIn};
ghost use Rattle.group_text.specs.Version.{version_of};
ghost use Rattle.group_text.specs.declared.version.Version.{Version as Known};
ghost use Rattle.proof_text.specs.inner.LineReaders.{IsBehindLines, ReadsLines};
ghost use Rattle.proof_text.specs.FirstProofs.{Progress};
ghost use Rattle.proof_text.specs.Pulling.{IfBad, is_fault};
ghost use Rattle.proof_text.specs.Sources.{BadGroupAt, BadLineAt, Both, EndsLines, EndsText, GivesGroup, GivesLine, pull_fault};

use crate::pull::Pull;
use crate::pull_fault::PullFault;
use crate::read_lines::ReadLines;
use crate::reader::Reader;
use group_text::TextFault;
use mc_shelf::Shelf;
use std::alloc::Global;
use tailrec_lang::Group;

/// A text that is read one group or line a call. What is lent at each call is where it stands.
pub trait ProofSource<E, W: ReadLines> {
    /// How far it was read, where that is told.
    ghost told: { Self → E → Option Progress };

    /// The version of the text.
    ghost version: { Self → Known };

    /// No call was refused, and the end of the text wasn't found.
    ghost Goes: { Self → Type 0 };

    /// A bound on the groups and lines that may still be given.
    ghost left: { Self → ℕ };

    /// What calls may do to the text and to what is lent, by whether the outside failed in the last
    /// of them.
    ghost Lends: { Bool → Self → E → Self → E → Type 0 };

    /// The next group, or none where the text ends well: to be called where the text begins, or
    /// where `next_line` has given none.
    fn next_group(
        &mut self,
        alloc: Global,
        from: &mut E,
        kept: &mut W,
    ) -> Result<Option<Group>, PullFault>
        requires going { Goes self.old }
        requires laws { ReadsLines W.readers (version_of (version self.old)) }
        ensures given { IfOk result (λ found. IfSome found (λ g.
            Both (told self.old from.old) (told self.new from.new)
            (GivesGroup W.readers.grammar (group_tree g)))) }
        ensures behind { IfOk result (λ found. IfSome found (λ _. W.Behind kept.new [])) }
        ensures fits { IfOk result (λ found.
            IfSome found (λ g. IsGroupIn (version_of (version self.new)) (group_tree g))) }
        ensures end { IfOk result (λ found.
            IfNone found (IfSome (told self.old from.old) (EndsText W.readers.grammar))) }
        ensures bad { IfErr result (λ fault.
            IfBad fault (λ n. IfSome (told self.old from.old) (BadGroupAt W.readers.grammar n))) }
        ensures goes { IfOk result (λ found. IfSome found (λ _. Goes self.new)) }
        ensures fewer { IfOk result (λ found. IfSome found (λ _. left self.new < left self.old)) }
        ensures version { version self.new ≡ version self.old }
        ensures lends { Lends (is_fault result) self.old from.old self.new from.new };

    /// The next line of the proof of the group that was given last, or none where its lines end.
    fn next_line(
        &mut self,
        alloc: Global,
        group: &Group,
        from: &mut E,
        kept: &mut W,
    ) -> Result<Option<W::Line>, PullFault>
        requires going { Goes self.old }
        requires laws { ReadsLines W.readers (version_of (version self.old)) }
        requires kept { IsBehindLines W.readers (version_of (version self.old))
            (W.Behind kept.old) }
        requires group { IsGroupIn (version_of (version self.old)) (group_tree group.now) }
        ensures given { (before : List W.readers.grammar.Line)
            → W.Behind kept.old before
            → W.readers.grammar.Are (version_of (version self.old)) before
            → IfOk result (λ found. IfSome found (λ l.
            Both (told self.old from.old) (told self.new from.new)
            (GivesLine W.readers.grammar (group_tree group.now) before
            (W.tree (group_tree group.now).code l)))) }
        ensures behind { (before : List W.readers.grammar.Line)
            → W.Behind kept.old before
            → IfOk result (λ found. IfSome found (λ l.
            W.Behind kept.new (before ++ W.tree (group_tree group.now).code l ∷ []))) }
        ensures fits { (before : List W.readers.grammar.Line)
            → W.Behind kept.old before
            → W.readers.grammar.Are (version_of (version self.old)) before
            → IfOk result (λ found. IfSome found (λ l.
            W.readers.Fits (version_of (version self.old)) before
            (W.tree (group_tree group.now).code l))) }
        ensures end { IfOk result (λ found.
            IfNone found (Both (told self.old from.old) (told self.new from.new) EndsLines)) }
        ensures bad { (before : List W.readers.grammar.Line)
            → W.Behind kept.old before
            → W.readers.grammar.Are (version_of (version self.old)) before
            → IfErr result (λ fault. IfBad fault (λ n.
            IfSome (told self.old from.old) (BadLineAt W.readers.grammar (group_tree group.now)
            before n))) }
        ensures goes { IfOk result (λ _. Goes self.new) }
        ensures left { left self.new ≤ left self.old }
        ensures fewer { IfOk result (λ found. IfSome found (λ _. left self.new < left self.old)) }
        ensures version { version self.new ≡ version self.old }
        ensures lends { Lends (is_fault result) self.old from.old self.new from.new };

    /// The number of the last line of the group or line that was given last, and 0 before the
    /// first.
    fn last_place(&self) -> u64
        ensures { (e : E) → IfSome (told self.now e) (λ r. result ≡ r.place) };

    /// No call does nothing.
    ghost lends_nothing: { (a : Self) (d : E) → Lends false a d a d };

    /// Calls after calls in which the outside didn't fail.
    ghost lends_then: { (failed : Bool) (a b c : Self) (d e f : E) → Lends false a d b e → Lends failed b e c f → Lends failed a d c f };

    /// Where it was told before, it is told afterwards.
    ghost lends_tells: { (failed : Bool) (a b : Self) (d e : E) → Lends failed a d b e → IfSome (told a d) (λ _. IsSome (told b e)) };

    /// What is told is of its version.
    ghost told_version: { (a : Self) (d : E) → IfSome (told a d) (λ r. r.version ≡ version a) };
}

/// Why a text in memory can't be read.
fn fault_of_text(fault: TextFault) -> PullFault
    ensures { result ≡ pull_fault fault }
{
    match fault {
        TextFault::Bad(place) => PullFault::Bad(place),
        TextFault::NoMemory => PullFault::NoMemory,
    }
}

impl<'a, W: ReadLines> ProofSource<(), W> for Reader<'a> {
    ghost use Rattle.std.specs.Prelude.{◌≡◌, Some, false, length, refl};

    ghost told = { λ s e. Some s };

    ghost version = { λ s. s.version };

    ghost Goes = { λ s. Unit {0} };

    ghost left = { λ s. length s.rest };

    // The outside doesn't fail.
    ghost Lends = { λ failed s d t e. failed ≡ false };

    ghost lends_nothing = { λ a d. refl };

    ghost lends_then = { λ failed a b c d e f first further. further };

    ghost lends_tells = { λ failed a b d e calls. refl };

    ghost told_version = { λ a d. refl };

    fn next_group(
        &mut self,
        alloc: Global,
        _from: &mut (),
        kept: &mut W,
    ) -> Result<Option<Group>, PullFault> {
        match self.next_group(alloc, kept) {
            Ok(found) => Ok(found),
            Err(fault) => Err(fault_of_text(fault)),
        }
    }

    fn next_line(
        &mut self,
        alloc: Global,
        group: &Group,
        _from: &mut (),
        kept: &mut W,
    ) -> Result<Option<W::Line>, PullFault> {
        match self.next_line(alloc, group, kept) {
            Ok(found) => Ok(found),
            Err(fault) => Err(fault_of_text(fault)),
        }
    }

    fn last_place(&self) -> u64 {
        self.place()
    }
}

impl<'s, S: Shelf, W: ReadLines> ProofSource<S, W> for Pull<'s> {
    ghost use Rattle.std.specs.Prelude.{◌≡◌, None, false};
    ghost use Rattle.proof_text.specs.Pulling.{left_of};
    ghost use Rattle.proof_text.specs.Sources.{told_progress};
    ghost use Rattle.proof_text.specs.inner.Sourcing.{PullsSo, pulls_nothing, pulls_then, pulls_tell, told_of_version};

    ghost told = { λ s e. told_progress (S.contents e) s };

    ghost version = { λ s. s.version };

    ghost Goes = { λ s. (s.refused ≡ None) × (s.ended ≡ false) };

    ghost left = { left_of };

    ghost Lends = { PullsSo S.contents S.read_faults S.write_faults S.IsSure };

    ghost lends_nothing = { pulls_nothing S.contents S.read_faults S.write_faults S.IsSure };

    ghost lends_then = { λ failed a b c d e f first further. pulls_then first further };

    ghost lends_tells = { λ failed a b d e calls. pulls_tell calls };

    ghost told_version = { λ a d. told_of_version (S.contents d) a };

    fn next_group(
        &mut self,
        alloc: Global,
        from: &mut S,
        kept: &mut W,
    ) -> Result<Option<Group>, PullFault> {
        self.next_group(alloc, from, kept)
    }

    fn next_line(
        &mut self,
        alloc: Global,
        group: &Group,
        from: &mut S,
        kept: &mut W,
    ) -> Result<Option<W::Line>, PullFault> {
        self.next_line(alloc, group, from, kept)
    }

    fn last_place(&self) -> u64 {
        self.place()
    }
}
