//! A text of version 1 as one of version 2.

ghost use Rattle.std.specs.Prelude.{◌≡◌, ◌⊎◌, ◌++◌, ◌∷◌, ◌<◌, ◌^◌, ℕ, [], List as Items, IfErr, IfOk, OnOk, Err as Error, length};
ghost use Rattle.group_text.specs.Limits.{IsGroupIn};
ghost use Rattle.group_text.specs.Version.{version_1, version_2};
ghost use Rattle.group_text.specs.declared.version.Version.TheVariants.{One};
ghost use Rattle.tailrec_lang.specs.Tree.{group_tree};
ghost use Rattle.proof_text.specs.FirstProofs.{HasGiven, ProofEnds};
ghost use Rattle.proof_text.specs.Line.{ProofTree, spelled_tree};
ghost use Rattle.proof_text.specs.Proofs.{line_texts_by};
ghost use Rattle.verdicts.specs.declared.verdict.Verdict.{Verdict as VerdictOf};
ghost use Rattle.verdicts.specs.Instance.{History};
ghost use Rattle.verdicts.specs.Verdicts.{IsAcceptance, IsAcceptedOver, Says};
ghost use Rattle.short_text.specs.ShortSpelling.{table_line};
ghost use Rattle.term_arena.specs.Arena.{Extends, IsArena};
ghost use Rattle.checker.specs.ShortRules.{short_rules};
ghost use Rattle.proof_v2.specs.MigratedText.{IsMigratedText};
ghost use Rattle.proof_v2.specs.Preconditions.{MayFollow};
ghost use Rattle.proof_v2.specs.inner.Rewriting.{BecomesText, GroupIsNext, HasOpened, HasPassed, IsRightText, LineIsNext, LineIsPut, LinesAreShort, ProofIsPut};

use crate::lines::short_line;
use crate::preconditions::keep;
use checker::check_bytes;
use proof_text::{Reader, SpelledLine, TextFault, Version, put_end, put_group, put_title};
use rv_words::{Bytes, List, NoMemory};
use sep_assert::Assertion;
use short_text::{law_of_short_parts, put_short_line, put_table_line};
use std::alloc::Global;
use std::marker::Brand;
use std::sync::ledger::{Blank, Ledger};
use tailrec_lang::Group;
use term_arena::{Arena, Steps};
use verdicts::Verdict;

/// The text of version 2 that a text of version 1 becomes, where it is accepted for an ELF file: a
/// table for each group, of the terms of its lines in the order in which they are first used, and a
/// short line for each line. It is refused exactly as by `check_bytes`.
pub fn migrate(alloc: Global, elf: &[u8], proof: &[u8]) -> Result<Bytes, Verdict>
    ensures text { IfOk result (λ text. IsMigratedText elf.now proof.now text) }

    // Both texts are accepted, that of version 2 with as many groups and lines.
    ensures accepted { IfOk result (λ text.
        (functions : ℕ) × (lines : ℕ)
        × Says elf.now proof.now (Verdict.Accepted functions lines)
        × IsAcceptedOver short_rules version_2 elf.now text functions lines) }

    // The verdict that refuses it says what is so.
    ensures refused { IfErr result (λ v. Says elf.now proof.now v × (IsAcceptance v → ⊥)) }

    // A verdict that refuses it and says what is so comes, but for lack of memory.
    ensures exact { (v : VerdictOf)
        → Says elf.now proof.now v
        → (IsAcceptance v → ⊥)
        → (result ≡ Error v) ⊎ (v ≡ Verdict.NoMemory) ⊎ (result ≡ Error Verdict.NoMemory) }
{
    match check_bytes(alloc, elf, proof) {
        Verdict::Accepted { .. } => rewritten(alloc, proof),
        refusal => Err(refusal),
    }
}

/// .. of a text in which all lines are right.
pub(crate) fn rewritten(alloc: Global, proof: &[u8]) -> Result<Bytes, Verdict>
    requires { IsRightText proof.now }
    ensures text { IfOk result (λ text. BecomesText proof.now text) }
    ensures refused { IfErr result (λ v. v ≡ Verdict.NoMemory) }
{
    match put_text(alloc, proof) {
        Ok(text) => Ok(text),
        Err(NoMemory) => Err(Verdict::NoMemory),
    }
}

fn put_text(alloc: Global, proof: &[u8]) -> Result<Bytes, NoMemory>
    requires { IsRightText proof.now }
    ensures { IfOk result (λ text. BecomesText proof.now text) }
{
    law_of_short_parts();
    let mut reader = Reader::new(proof);
    let mut out = List::new(alloc);
    put_title(&mut out, Version::Two)?;
    while let Some(group) = next_group(alloc, &mut reader)? {
        put_proof(alloc, &mut reader, &group, &mut out)?;
    }
    put_end(&mut out)?;
    Ok(out)
}

/// The next group of a text in which all lines are right.
fn next_group(alloc: Global, reader: &mut Reader<'_>) -> Result<Option<Group>, NoMemory>
    requires text { IsRightText reader.old.text }
    requires version { reader.old.version ≡ One }
    requires passed { HasPassed reader.old }
    ensures { IfOk result (λ found. GroupIsNext reader.old reader.new found) }
{
    match reader.group(alloc) {
        Ok(found) => Ok(found),
        Err(TextFault::Bad(_)) => unreachable!(),
        Err(TextFault::NoMemory) => Err(NoMemory),
    }
}

/// Writes the group that was given last, the table of its proof's terms, and the short lines.
fn put_proof(
    alloc: Global,
    reader: &mut Reader<'_>,
    group: &Group,
    out: &mut Bytes,
) -> Result<(), NoMemory>
    requires text { IsRightText reader.old.text }
    requires version { reader.old.version ≡ One }
    requires fits { IsGroupIn version_1 (group_tree group.now) }
    requires given { HasOpened (group_tree group.now) reader.old }
    ensures { OnOk result (ProofIsPut (group_tree group.now) reader.old reader.new out.old
        out.new) }
{
    put_counted::<Brand>(alloc, reader, group, out, Blank::new(1))
}

/// .. with a counter of its own.
fn put_counted<L: Ledger>(
    alloc: Global,
    reader: &mut Reader<'_>,
    group: &Group,
    out: &mut Bytes,
    blank: Blank,
) -> Result<(), NoMemory>
    requires name { blank.name ≡ L.name }
    requires parts { blank.parts ≡ L.parts }
    requires one { L.parts ≡ 1 }
    requires text { IsRightText reader.old.text }
    requires version { reader.old.version ≡ One }
    requires fits { IsGroupIn version_1 (group_tree group.now) }
    requires given { HasOpened (group_tree group.now) reader.old }
    ensures { OnOk result (ProofIsPut (group_tree group.now) reader.old reader.new out.old
        out.new) }
{
    let mut steps = Steps::<L>::new(blank);
    let mut arena = Arena::new(alloc);
    let lines = short_lines(alloc, reader, group, &mut arena, &mut steps)?;
    put_group(out, group)?;
    put_table(out, &arena, &mut steps)?;
    out.append(lines)
}

/// The text of the short lines of the group's proof, over a table in which their terms stand from
/// then on. Of the lines before a line only the preconditions of their theorems are kept.
fn short_lines<L: Ledger>(
    alloc: Global,
    reader: &mut Reader<'_>,
    group: &Group,
    arena: &mut Arena,
    steps: &mut Steps<L>,
) -> Result<Bytes, NoMemory>
    requires text { IsRightText reader.old.text }
    requires version { reader.old.version ≡ One }
    requires fits { IsGroupIn version_1 (group_tree group.now) }
    requires given { HasOpened (group_tree group.now) reader.old }
    requires empty { arena.old ≡ [] }
    ensures short { IfOk result (λ text.
        LinesAreShort (group_tree group.now) reader.old reader.new arena.new text) }
    ensures over { OnOk result (ProofEnds reader.new.rest) }
{
    let mut kept = List::new(alloc);
    let mut lines = List::new(alloc);
    while let Some(line) = next_line(alloc, reader, group)? {
        put_short(
            alloc,
            arena,
            kept.as_slice(),
            group,
            &line,
            &mut lines,
            steps,
        )?;
        keep(&mut kept, line.line)?;
    }
    Ok(lines)
}

/// Writes the short line of a line of the group's proof, over a table in which its terms stand from
/// then on.
fn put_short<L: Ledger>(
    alloc: Global,
    arena: &mut Arena,
    kept: &[Option<Assertion>],
    group: &Group,
    line: &SpelledLine,
    out: &mut Bytes,
    steps: &mut Steps<L>,
) -> Result<(), NoMemory>
    requires { (h : History) × MayFollow kept.now line.now (group_tree group.now) h }
    ensures put { OnOk result ((h : History)
        → MayFollow kept.now line.now (group_tree group.now) h
        → LineIsPut (group_tree group.now) h (spelled_tree (group_tree group.now).code line.now)
        arena.old arena.new out.old out.new) }
    ensures grows { Extends arena.old arena.new }
{
    let short = short_line(alloc, arena, kept, line, steps)?;
    put_short_line(out, group, &short, line.all)
}

/// The next line of the group's proof, as it is spelled.
fn next_line(
    alloc: Global,
    reader: &mut Reader<'_>,
    group: &Group,
) -> Result<Option<SpelledLine>, NoMemory>
    requires text { IsRightText reader.old.text }
    requires version { reader.old.version ≡ One }
    requires fits { IsGroupIn version_1 (group_tree group.now) }
    requires given { (ps : Items ProofTree) × (p : ProofTree)
        × HasGiven (ps ++ p ∷ []) reader.old
        × (p.group ≡ group_tree group.now) }
    ensures { IfOk result (λ found. LineIsNext (group_tree group.now) reader.old reader.new found) }
{
    match reader.spelled_line(alloc, group) {
        Ok(found) => Ok(found),
        Err(TextFault::Bad(_)) => unreachable!(),
        Err(TextFault::NoMemory) => Err(NoMemory),
    }
}

/// Writes the terms of an arena as a table.
fn put_table<L: Ledger>(
    out: &mut Bytes,
    arena: &Arena,
    steps: &mut Steps<L>,
) -> Result<(), NoMemory>
    ensures put { OnOk result (out.new ≡ out.old ++ line_texts_by table_line arena.now) }
    ensures table { IsArena arena.now × (length arena.now < 2 ^ 64) }
{
    arena.law_of_nodes();
    let count = arena.len();
    for k in 0..count {
        let node = arena.node(k, steps);
        put_table_line(out, node)?;
    }
    Ok(())
}
