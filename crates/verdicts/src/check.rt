//! The check of a proof text for an ELF file. One loop serves each version.

ghost use Rattle.std.specs.Prelude.{◌≡◌, ◌∷◌, ◌++◌, [], ◌+◌, ◌<◌, ◌≤◌, ◌^◌, ◌↔◌, ℕ, List as Items, IfOk, IfErr, IfSome, OnOk, IsTrue, length, true, false, if◌then◌else◌};
ghost use Rattle.elf_image.specs.Fault.{IsReadable};
ghost use Rattle.elf_image.specs.Image.{image_of};
ghost use Rattle.rv_words.specs.Ranges.{range_bytes};
ghost use Rattle.sep_assert.specs.Code.{IsWithin};
ghost use Rattle.tailrec_lang.specs.Tree.{group_tree, listed_def};
ghost use Rattle.tailrec_lang.specs.WellFormed.{IsWellFormed};
ghost use Rattle.proof_text.specs.inner.LineReaders.{ReadsLines};
ghost use Rattle.group_text.specs.Limits.{IsGroupIn, def_limit};
ghost use Rattle.group_text.specs.Version.{version_of};
ghost use Rattle.proof_text.specs.FirstProofs.{HasGivenOver};
ghost use Rattle.verdicts.specs.Instance.{no_lines};
ghost use Rattle.verdicts.specs.Verdicts.{SaysOver};
ghost use Rattle.verdicts.specs.inner.Checking.{IsCodeOf, LineJudged, LinesJudged, MayFollow, NextGroup, NextLine, ProofJudged, StandBehind, TextJudged, verdict_of, with_group};
ghost use Rattle.verdicts.specs.inner.Sourced.{pulled_by, stops_outside, verdicts};
ghost use Rattle.verdicts.specs.Pulled.{as_verdict, is_outside};
ghost use Rattle.proof_text.specs.Sources.{Both};

use crate::file_code::code_of_image;
use crate::line_judge::{JudgeLines, JudgeProofs, Judged, RuledLines, RuledReader};
use crate::verdict::{Pulled, Verdict};
use elf_image::{Image, law_of_image};
use group_text::Version;
use proof_text::{ProofSource, PullFault};
use rv_words::NoMemory;
use sep_assert::code_within;
use std::alloc::Global;
use tailrec_lang::{Group, well_formed};
use triple_kernel::RuleFault;
use word_terms::Code;

/// What was judged of a text so far.
#[derive(Clone, Copy)]
pub(crate) struct Tally {
    pub groups: u64,
    pub lines: u64,
    /// The first group that isn't proved.
    pub not_proved: Option<u64>,
}

/// Checks a text for an ELF file that was read, whatever lines stand behind its groups, by the
/// rules of that version. The source stands before the first line of a text.
pub fn check_source<E, V: RuledLines, P: ProofSource<E, RuledReader<V>>, J: JudgeProofs<V, E, P>>(
    alloc: Global,
    image: &Image,
    source: &mut P,
    from: &mut E,
    kept: &mut RuledReader<V>,
    judge: &J,
    version: Version,
) -> Pulled
    requires going { P.Goes source.old }
    requires laws { ReadsLines V.readers (version_of (P.version source.old)) }
    requires given { IfSome (P.told source.old from.old) (HasGivenOver V.readers.grammar []) }
    requires few { P.left source.old < 2 ^ 63 }

    // What the verdict says of them.
    ensures verdict { (elf : Items ℕ)
        → IsReadable elf
        → image.now ≡ image_of elf
        → IfSome (P.told source.old from.old) (λ r.
        SaysOver (V.rules version) (version_of r.version) elf r.text (as_verdict result)) }

    // What the check does to the source and to what is lent.
    ensures lends { P.Lends (is_outside result) source.old from.old source.new from.new }
{
    match judge_file(alloc, image, source, from, kept, judge, version) {
        Ok(tally) => Pulled::Verdict(conclude(tally)),
        Err(pulled) => pulled,
    }
}

/// The verdict on a text in which nothing is wrong.
fn conclude(tally: Tally) -> Verdict
    ensures { result ≡ verdict_of tally }
{
    match tally.not_proved {
        None => Verdict::Accepted {
            functions: tally.groups,
            lines: tally.lines,
        },
        Some(group) => Verdict::NotProved(group),
    }
}

/// Judges a text for a file's image.
fn judge_file<E, V: RuledLines, P: ProofSource<E, RuledReader<V>>, J: JudgeProofs<V, E, P>>(
    alloc: Global,
    image: &Image,
    source: &mut P,
    from: &mut E,
    kept: &mut RuledReader<V>,
    judge: &J,
    version: Version,
) -> Result<Tally, Pulled>
    requires going { P.Goes source.old }
    requires laws { ReadsLines V.readers (version_of (P.version source.old)) }
    requires given { IfSome (P.told source.old from.old) (HasGivenOver V.readers.grammar []) }
    requires few { P.left source.old < 2 ^ 63 }
    ensures judged { IfOk result (λ t.
        (file : Items ℕ)
        → image.now ≡ image_of file
        → IfSome (P.told source.old from.old) (λ r.
        TextJudged (V.rules version) (version_of r.version) file r.text t)) }
    ensures fault { IfErr result (λ e.
        (file : Items ℕ)
        → IsReadable file
        → IfSome (P.told source.old from.old) (λ r.
        SaysOver (V.rules version) (version_of r.version) file r.text (as_verdict e))) }
    ensures lends { P.Lends (stops_outside result) source.old from.old source.new from.new }
{
    law_of_image(image);
    match code_of_image(alloc, image) {
        Ok(code) => judge_text(alloc, &code, source, from, kept, judge, version),
        Err(NoMemory) => Err(Pulled::Verdict(Verdict::NoMemory)),
    }
}

/// Judges a text group by group. Which group isn't proved is told when all are judged.
fn judge_text<E, V: RuledLines, P: ProofSource<E, RuledReader<V>>, J: JudgeProofs<V, E, P>>(
    alloc: Global,
    code: &Code,
    source: &mut P,
    from: &mut E,
    kept: &mut RuledReader<V>,
    judge: &J,
    version: Version,
) -> Result<Tally, Pulled>
    requires going { P.Goes source.old }
    requires laws { ReadsLines V.readers (version_of (P.version source.old)) }
    requires given { IfSome (P.told source.old from.old) (HasGivenOver V.readers.grammar []) }
    requires few { P.left source.old < 2 ^ 63 }
    ensures judged { IfOk result (λ t.
        (file : Items ℕ)
        → IsCodeOf code.now.ranges file
        → IfSome (P.told source.old from.old) (λ r.
        TextJudged (V.rules version) (version_of r.version) file r.text t)) }
    ensures fault { IfErr result (λ e.
        (file : Items ℕ)
        → IsReadable file
        → IfSome (P.told source.old from.old) (λ r.
        SaysOver (V.rules version) (version_of r.version) file r.text (as_verdict e))) }
    ensures lends { P.Lends (stops_outside result) source.old from.old source.new from.new }
{
    let mut tally = Tally {
        groups: 0,
        lines: 0,
        not_proved: None,
    };
    while let Some(group) = next_group(alloc, source, from, kept, tally.groups)? {
        let judged = judge.judge_proof(alloc, source, from, kept, version, &group, code)?;
        tally = counted(tally, judged);
    }
    Ok(tally)
}

/// One group more.
fn counted(tally: Tally, judged: Judged) -> Tally
    requires groups { tally.groups + 1 < 2 ^ 64 }
    requires lines { tally.lines + judged.lines < 2 ^ 64 }
    ensures { result ≡ with_group tally judged }
{
    let not_proved = match tally.not_proved {
        Some(group) => Some(group),
        None => {
            if judged.proved {
                None
            } else {
                Some(tally.groups)
            }
        }
    };
    Tally {
        groups: tally.groups + 1,
        lines: tally.lines + judged.lines,
        not_proved,
    }
}

/// The next group, if its definitions are well-formed. Its number is told of one in which they
/// aren't.
fn next_group<E, V: RuledLines, P: ProofSource<E, RuledReader<V>>>(
    alloc: Global,
    source: &mut P,
    from: &mut E,
    kept: &mut RuledReader<V>,
    number: u64,
) -> Result<Option<Group>, Pulled>
    requires going { P.Goes source.old }
    requires laws { ReadsLines V.readers (version_of (P.version source.old)) }
    ensures told { Both (P.told source.old from.old) (P.told source.new from.new)
        (λ old new. NextGroup V.readers.grammar number old new (verdicts result)) }
    ensures kept { IfOk result (λ found. IfSome found (λ _. V.Behind kept.new.lines [])) }
    ensures fits { IfOk result (λ found.
        IfSome found (λ g. IsGroupIn (version_of (P.version source.new)) (group_tree g))) }
    ensures well_formed { IfOk result (λ found. IfSome found (λ g. IsWellFormed (group_tree g))) }
    ensures goes { IfOk result (λ found. IfSome found (λ _. P.Goes source.new)) }
    ensures fewer { IfOk result (λ found.
        IfSome found (λ _. P.left source.new < P.left source.old)) }
    ensures version { P.version source.new ≡ P.version source.old }
    ensures lends { P.Lends (stops_outside result) source.old from.old source.new from.new }
{
    match source.next_group(alloc, from, kept) {
        Ok(None) => Ok(None),
        Ok(Some(group)) => match well_formed(&group) {
            Ok(()) => Ok(Some(group)),
            Err(bad) => Err(Pulled::Verdict(Verdict::BadDef(number, bad.def))),
        },
        Err(fault) => Err(pulled_of(fault)),
    }
}

/// What a text comes to that can't be read.
fn pulled_of(fault: PullFault) -> Pulled
    ensures { result ≡ pulled_by fault }
{
    match fault {
        PullFault::Bad(line) => Pulled::Verdict(Verdict::BadText(line)),
        PullFault::Fault => Pulled::Fault,
        PullFault::NoMemory => Pulled::Verdict(Verdict::NoMemory),
    }
}

/// Judges the lines of the group that was given last by its bench, which has judged none. What is
/// kept of lines is that before the first.
pub fn judge_group<E, V: RuledLines, P: ProofSource<E, RuledReader<V>>, B: JudgeLines<V>>(
    alloc: Global,
    source: &mut P,
    from: &mut E,
    kept: &mut RuledReader<V>,
    bench: &mut B,
    version: Version,
    group: &Group,
    code: &Code,
) -> Result<Judged, Pulled>
    requires going { P.Goes source.old }
    requires laws { ReadsLines V.readers (version_of (P.version source.old)) }
    requires kept { V.Behind kept.old.lines [] }
    requires bench { B.GoesWith bench.old kept.old.lines }
    requires none { B.history bench.old ≡ no_lines }
    requires same { B.group bench.old ≡ group_tree group.now }
    requires group { IsGroupIn (version_of (P.version source.old)) (group_tree group.now) }
    requires few { P.left source.old < 2 ^ 63 }
    ensures judged { ProofJudged (V.rules version) (group_tree group.now) code.now.ranges
        (P.told source.old from.old) (P.told source.new from.new) (verdicts result) }
    ensures goes { OnOk result (P.Goes source.new) }
    ensures few { IfOk result (λ j. j.lines + P.left source.new ≤ P.left source.old) }
    ensures version { P.version source.new ≡ P.version source.old }
    ensures lends { P.Lends (stops_outside result) source.old from.old source.new from.new }
{
    let lines = judge_lines(alloc, source, from, kept, bench, version, group)?;
    let proved = is_proved::<V, B>(bench, group, code);
    Ok(Judged { lines, proved })
}

/// Whether the group's function is closed and its code is the file's.
fn is_proved<V: RuledLines, B: JudgeLines<V>>(bench: &B, group: &Group, code: &Code) -> bool
    requires some { 1 ≤ length group.now.defs }
    requires few { length group.now.defs ≤ def_limit }
    ensures { IsTrue result
        ↔ (((B.history bench.now).closed (listed_def (group_tree group.now)) ≡ true)
        × IsWithin (range_bytes (group_tree group.now).code) (range_bytes code.now.ranges)) }
{
    let last = (group.defs.len() - 1) as u32;
    bench.is_closed(last) && code_within(&group.code, code)
}

/// Judges the lines of a group's proof: how many of them are counted.
fn judge_lines<E, V: RuledLines, P: ProofSource<E, RuledReader<V>>, B: JudgeLines<V>>(
    alloc: Global,
    source: &mut P,
    from: &mut E,
    kept: &mut RuledReader<V>,
    bench: &mut B,
    version: Version,
    group: &Group,
) -> Result<u64, Pulled>
    requires going { P.Goes source.old }
    requires laws { ReadsLines V.readers (version_of (P.version source.old)) }
    requires kept { V.Behind kept.old.lines [] }
    requires bench { B.GoesWith bench.old kept.old.lines }
    requires none { B.history bench.old ≡ no_lines }
    requires same { B.group bench.old ≡ group_tree group.now }
    requires group { IsGroupIn (version_of (P.version source.old)) (group_tree group.now) }
    requires few { P.left source.old < 2 ^ 63 }
    ensures judged { LinesJudged (V.rules version) (group_tree group.now) (B.history bench.new)
        (P.told source.old from.old) (P.told source.new from.new) (verdicts result) }
    ensures goes { OnOk result (P.Goes source.new) }
    ensures few { IfOk result (λ count. count + P.left source.new ≤ P.left source.old) }
    ensures version { P.version source.new ≡ P.version source.old }
    ensures lends { P.Lends (stops_outside result) source.old from.old source.new from.new }
{
    let mut lines = 0;
    while let Some(counts) = next_line(alloc, source, from, kept, bench, version, group)? {
        lines = with_line(lines, counts);
    }
    Ok(lines)
}

/// One line more, which may be counted.
fn with_line(lines: u64, counts: bool) -> u64
    requires { lines + 1 < 2 ^ 64 }
    ensures counted { result ≡ lines + (if counts then 1 else 0) }
    ensures few { result ≤ lines + 1 }
{
    if counts { lines + 1 } else { lines }
}

/// Reads and judges the next line, if there is one: whether it is counted.
fn next_line<E, V: RuledLines, P: ProofSource<E, RuledReader<V>>, B: JudgeLines<V>>(
    alloc: Global,
    source: &mut P,
    from: &mut E,
    kept: &mut RuledReader<V>,
    bench: &mut B,
    version: Version,
    group: &Group,
) -> Result<Option<bool>, Pulled>
    requires going { P.Goes source.old }
    requires laws { ReadsLines V.readers (version_of (P.version source.old)) }
    requires behind { (before : Items V.readers.grammar.Line)
        × StandBehind V.readers.grammar (version_of (P.version source.old))
        (V.Behind kept.old.lines) (B.GoesWith bench.old kept.old.lines) before }
    requires group { IsGroupIn (version_of (P.version source.old)) (group_tree group.now) }
    requires same { B.group bench.old ≡ group_tree group.now }
    ensures judged { (before : Items V.readers.grammar.Line)
        → StandBehind V.readers.grammar (version_of (P.version source.old))
        (V.Behind kept.old.lines) (B.GoesWith bench.old kept.old.lines) before
        → NextLine (V.rules version) (group_tree group.now) before (B.history bench.old)
        (B.history bench.new)
        (StandBehind V.readers.grammar (version_of (P.version source.old)) (V.Behind kept.new.lines)
        (B.GoesWith bench.new kept.new.lines)) (P.told source.old from.old)
        (P.told source.new from.new) (verdicts result) }
    ensures goes { OnOk result (P.Goes source.new) }
    ensures group { B.group bench.new ≡ B.group bench.old }
    ensures left { P.left source.new ≤ P.left source.old }
    ensures fewer { IfOk result (λ found.
        IfSome found (λ _. P.left source.new < P.left source.old)) }
    ensures version { P.version source.new ≡ P.version source.old }
    ensures lends { P.Lends (stops_outside result) source.old from.old source.new from.new }
{
    match source.next_line(alloc, group, from, kept) {
        Ok(Some(line)) => judge_line(
            alloc,
            bench,
            version,
            &kept.lines,
            line,
            source.last_place(),
        ),
        Ok(None) => Ok(None),
        Err(fault) => Err(pulled_of(fault)),
    }
}

/// Judges the line that was read last, whose place in the text is told if it is wrong.
fn judge_line<V: RuledLines, B: JudgeLines<V>>(
    alloc: Global,
    bench: &mut B,
    version: Version,
    lines: &V,
    line: V::Line,
    place: u64,
) -> Result<Option<bool>, Pulled>
    requires { MayFollow V.readers V.Behind (B.GoesWith bench.old) lines.now
        (V.tree (B.group bench.old).code line) }
    ensures judged { (old : V) (before : Items V.readers.grammar.Line)
        → B.GoesWith bench.old old
        → V.Behind old before
        → LineJudged (V.rules version) (B.group bench.old) before (B.history bench.old)
        (V.tree (B.group bench.old).code line) (B.history bench.new) place (verdicts result) }
    ensures goes { OnOk result (B.GoesWith bench.new lines.now) }
    ensures group { B.group bench.new ≡ B.group bench.old }
    ensures inside { stops_outside result ≡ false }
{
    match bench.judge_line(alloc, version, lines, line) {
        Ok(counts) => Ok(Some(counts)),
        Err(RuleFault::NoInstance) => Err(Pulled::Verdict(Verdict::BadLine(place))),
        Err(RuleFault::NoMemory) => Err(Pulled::Verdict(Verdict::NoMemory)),
    }
}
