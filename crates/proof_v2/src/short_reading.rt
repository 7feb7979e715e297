//! Reading a text of version 2, one group or line of a proof a call.

ghost use Rattle.std.specs.Prelude.{◌≡◌, ◌≤◌, ◌<◌, ◌∷◌, ◌++◌, [], List as Items, OnErr, length};
ghost use Rattle.mc_text.specs.Fault.{IsBadAt};
ghost use Rattle.tailrec_lang.specs.Eval.{HasFewNeeds};
ghost use Rattle.tailrec_lang.specs.Tree.{group_tree};
ghost use Rattle.group_text.specs.Limits.{IsGroupIn};
ghost use Rattle.group_text.specs.Version.{version_of};
ghost use Rattle.group_text.specs.declared.version.Version.TheVariants.{Two};
ghost use Rattle.proof_text.specs.Answers.{NoItemOver, OnBad, OnEnd, OnGiven};
ghost use Rattle.proof_text.specs.FirstProofs.{ProofEnds, with_line};
ghost use Rattle.short_text.specs.ShortProofs.{ShortProof, short_lines, short_texts};
ghost use Rattle.short_text.specs.SpelledShort.{spelled_short};
ghost use Rattle.verdicts.specs.inner.Checking.{IsSameText};
ghost use Rattle.proof_v2.specs.AnyReading.{AreLinesIn, AreSomeLinesIn, AreTermsIn, EndsAny, GivesGroupAny, GivesLines, HasGivenAny, StopsGroups, StopsLines, as_item, reading_state};
ghost use Rattle.proof_v2.specs.inner.ShortReading.{IsOpen, Stays};

use crate::any_reader::AnyLine;
use crate::spelled_rows::SpelledRows;
use group_text::TextFault;
use proof_text::Reader;
use short_text::{ShortLine, ShortLines, SpelledShort, law_of_short_lines};
use std::alloc::Global;
use std::mem;
use tailrec_lang::Group;

/// The next group. What was kept of lines is let go where there is one.
pub(crate) fn short_group(
    alloc: Global,
    reader: &mut Reader<'_>,
    lines: &mut ShortLines,
) -> Result<Option<Group>, TextFault>
    requires version { reader.old.version ≡ Two }
    requires open { IsOpen lines.old }
    ensures open { IsOpen lines.new }
    ensures same { IsSameText reader.new reader.old }
    ensures given { OnGiven result (λ g.
        GivesGroupAny (group_tree g) (reading_state reader.old lines.old)
        (reading_state reader.new lines.new)) }
    ensures fits { OnGiven result (λ g. IsGroupIn (version_of reader.new.version) (group_tree g)) }
    ensures needs { OnGiven result (λ g. HasFewNeeds (group_tree g)) }
    ensures shorter { OnGiven result (λ _. length reader.new.rest < length reader.old.rest) }
    ensures end { OnEnd result (EndsAny (reading_state reader.old lines.old)) }
    ensures bad { OnBad result (λ n. StopsGroups n (reading_state reader.old lines.old)) }
    ensures end_same { OnEnd result (reading_state reader.new lines.new
        ≡ reading_state reader.old lines.old) }
    ensures fault_same { OnErr result (reading_state reader.new lines.new
        ≡ reading_state reader.old lines.old) }
{
    law_of_short_lines();
    let mut fresh = ShortLines::new(alloc);
    match reader.next_group(alloc, &mut fresh) {
        Ok(Some(group)) => {
            *lines = fresh;
            Ok(Some(group))
        }
        Ok(None) => Ok(None),
        Err(fault) => Err(fault),
    }
}

/// The next line of a proof, behind the terms that stand before it.
pub(crate) fn short_line(
    alloc: Global,
    reader: &mut Reader<'_>,
    lines: &mut ShortLines,
    group: &Group,
) -> Result<Option<AnyLine>, TextFault>
    requires version { reader.old.version ≡ Two }
    requires open { IsOpen lines.old }
    requires group { IsGroupIn (version_of reader.old.version) (group_tree group.now) }
    ensures open { IsOpen lines.new }
    ensures same { IsSameText reader.new reader.old }
    ensures given { OnGiven result (λ l. GivesLines (group_tree group.now) (λ k. AreLinesIn k l)
        (reading_state reader.old lines.old)
        (reading_state reader.new lines.new)) }
    ensures shorter { OnGiven result (λ _. length reader.new.rest < length reader.old.rest) }
    ensures end { OnEnd result (ProofEnds reader.new.rest
        × GivesLines (group_tree group.now) AreTermsIn (reading_state reader.old lines.old)
        (reading_state reader.new lines.new)) }
    ensures no_longer { length reader.new.rest ≤ length reader.old.rest }
    ensures bad { OnBad result (λ n.
        StopsLines (group_tree group.now) n (reading_state reader.old lines.old)
        (reading_state reader.new lines.new)) }
    ensures fault { OnErr result (GivesLines (group_tree group.now) AreTermsIn
        (reading_state reader.old lines.old)
        (reading_state reader.new lines.new)) }
{
    while let Some(line) = next_short(alloc, reader, lines, group)? {
        if let ShortLine::Proof(short) = line {
            return Ok(Some(AnyLine::Two(short)));
        }
    }
    Ok(None)
}

/// Goes past the next line of a proof, and the terms that stand before it. The group's own code
/// isn't copied.
pub(crate) fn pass_short(
    alloc: Global,
    reader: &mut Reader<'_>,
    lines: &mut ShortLines,
    group: &Group,
) -> Result<bool, TextFault>
    requires version { reader.old.version ≡ Two }
    requires open { IsOpen lines.old }
    requires group { IsGroupIn (version_of reader.old.version) (group_tree group.now) }
    ensures open { IsOpen lines.new }
    ensures same { IsSameText reader.new reader.old }
    ensures given { OnGiven (as_item result) (λ _.
        GivesLines (group_tree group.now) AreSomeLinesIn
        (reading_state reader.old lines.old)
        (reading_state reader.new lines.new)) }
    ensures shorter { OnGiven (as_item result) (λ _.
        length reader.new.rest < length reader.old.rest) }
    ensures end { OnEnd (as_item result) (ProofEnds reader.new.rest
        × GivesLines (group_tree group.now) AreTermsIn (reading_state reader.old lines.old)
        (reading_state reader.new lines.new)) }
    ensures no_longer { length reader.new.rest ≤ length reader.old.rest }
    ensures bad { OnBad (as_item result) (λ n.
        StopsLines (group_tree group.now) n (reading_state reader.old lines.old)
        (reading_state reader.new lines.new)) }
    ensures fault { OnErr result (GivesLines (group_tree group.now) AreTermsIn
        (reading_state reader.old lines.old)
        (reading_state reader.new lines.new)) }
{
    while let Some(spelled) = next_spelled(alloc, reader, lines, group)? {
        if let ShortLine::Proof(_line) = spelled.line {
            return Ok(true);
        }
    }
    Ok(false)
}

/// The next term of a table or line of a proof.
fn next_short(
    alloc: Global,
    reader: &mut Reader<'_>,
    lines: &mut ShortLines,
    group: &Group,
) -> Result<Option<ShortLine>, TextFault>
    requires version { reader.old.version ≡ Two }
    requires open { IsOpen lines.old }
    requires group { IsGroupIn (version_of reader.old.version) (group_tree group.now) }
    ensures open { IsOpen lines.new }
    ensures same { IsSameText reader.new reader.old }
    ensures given { OnGiven result (λ l.
        (ps : Items ShortProof) (p : ShortProof)
        → HasGivenAny Two (ps ++ p ∷ []) (reading_state reader.old lines.old)
        → p.group ≡ group_tree group.now
        → HasGivenAny Two (ps ++ with_line p l ∷ [])
        (reading_state reader.new lines.new)) }
    ensures shorter { OnGiven result (λ _. length reader.new.rest < length reader.old.rest) }
    ensures end { OnEnd result (ProofEnds reader.new.rest
        × Stays (reading_state reader.old lines.old)
        (reading_state reader.new lines.new)) }
    ensures bad { OnBad result (λ n.
        (ps : Items ShortProof) (p : ShortProof)
        → HasGivenAny Two (ps ++ p ∷ []) (reading_state reader.old lines.old)
        → p.group ≡ group_tree group.now
        → IsBadAt short_texts reader.old.text n
        × NoItemOver short_lines (ps ++ p ∷ []) reader.old) }
    ensures fault { OnErr result (Stays (reading_state reader.old lines.old)
        (reading_state reader.new lines.new)) }
{
    law_of_short_lines();
    reader.next_line(alloc, group, lines)
}

/// The next term of a table or line of a proof, as it is spelled.
fn next_spelled(
    alloc: Global,
    reader: &mut Reader<'_>,
    lines: &mut ShortLines,
    group: &Group,
) -> Result<Option<SpelledShort>, TextFault>
    requires version { reader.old.version ≡ Two }
    requires open { IsOpen lines.old }
    requires group { IsGroupIn (version_of reader.old.version) (group_tree group.now) }
    ensures open { IsOpen lines.new }
    ensures same { IsSameText reader.new reader.old }
    ensures given { OnGiven result (λ l.
        (ps : Items ShortProof) (p : ShortProof)
        → HasGivenAny Two (ps ++ p ∷ []) (reading_state reader.old lines.old)
        → p.group ≡ group_tree group.now
        → HasGivenAny Two (ps ++ with_line p (spelled_short (group_tree group.now).code l) ∷ [])
        (reading_state reader.new lines.new)) }
    ensures shorter { OnGiven result (λ _. length reader.new.rest < length reader.old.rest) }
    ensures end { OnEnd result (ProofEnds reader.new.rest
        × Stays (reading_state reader.old lines.old)
        (reading_state reader.new lines.new)) }
    ensures bad { OnBad result (λ n.
        (ps : Items ShortProof) (p : ShortProof)
        → HasGivenAny Two (ps ++ p ∷ []) (reading_state reader.old lines.old)
        → p.group ≡ group_tree group.now
        → IsBadAt short_texts reader.old.text n
        × NoItemOver short_lines (ps ++ p ∷ []) reader.old) }
    ensures fault { OnErr result (Stays (reading_state reader.old lines.old)
        (reading_state reader.new lines.new)) }
{
    law_of_short_lines();
    let mut rows = SpelledRows {
        lines: mem::replace(lines, ShortLines::new(alloc)),
    };
    let next = reader.next_line(alloc, group, &mut rows);
    *lines = rows.lines;
    next
}
