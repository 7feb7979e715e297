//! The next group or the next line of rows that are pulled.

ghost use Rattle.std.specs.Prelude.{◌≡◌, ◌+◌, ◌-◌, ◌<◌, ◌≤◌, ◌⊎◌, ◌∷◌, ◌++◌, [], ℕ, List, IfErr, IfNone, IfOk, IfSome, None, Some, true, false};
ghost use Rattle.tailrec_lang.specs.Tree.{group_tree};
ghost use Rattle.group_text.specs.Limits.{IsGroupIn};
ghost use Rattle.group_text.specs.Version.{version_of};
ghost use Rattle.group_text.specs.inner.Reading.{turn_at};
ghost use Rattle.proof_text.specs.Pulling.{IfBad};
ghost use Rattle.group_text.specs.declared.read_error.ReadError.TheVariants.{Bad};
ghost use Rattle.group_text.specs.declared.read_error.RowError.TheVariants.{NoMemory};
ghost use Rattle.group_text.specs.inner.Rows.{row_error};
ghost use Rattle.proof_text.specs.inner.LineReaders.{ReadsLines, turn_over};
ghost use Rattle.proof_text.specs.inner.OwnCode.{IsOwnCode};
ghost use Rattle.proof_text.specs.inner.PulledRows.{Draws, EndsSo, IfFile, not_passed, rows_left};
ghost use Rattle.proof_text.specs.inner.Pulling.{EndsBehind, ReadFrom, StoppedAt, fault_lost, pull_lost};

use crate::line_turns::read_turn as read_line_turn;
use crate::pull_fault::PullFault;
use crate::pulled_rows::PulledRows;
use crate::read_lines::ReadLines;
use group_text::{ReadError, RowError, Version, read_turn};
use mc_shelf::Shelf;
use std::alloc::Global;
use tailrec_lang::Group;
use word_terms::Code;

/// The fault of the row behind so many.
fn bad_behind(passed: u64) -> PullFault
    ensures place { IfBad result (λ n. n ≡ passed + 1) }
    ensures lost { (fault_lost result ≡ None) ⊎ (fault_lost result ≡ Some NoMemory) }
{
    match passed.checked_add(1) {
        Some(place) => PullFault::Bad(place),
        None => PullFault::NoMemory,
    }
}

/// The fault of a row that was lost.
fn fault_of_loss(lost: RowError) -> PullFault
    ensures bad { IfBad result (λ _. ⊥) }
    ensures lost { fault_lost result ≡ Some lost }
{
    match lost {
        RowError::Fault => PullFault::Fault,
        RowError::NoMemory => PullFault::NoMemory,
    }
}

/// The fault of reading that stopped behind so many rows.
fn fault_behind(halt: ReadError, passed: u64) -> PullFault
    ensures bad { IfBad result (λ n. (halt ≡ Bad) × (n ≡ passed + 1)) }
    ensures lost { (fault_lost result ≡ row_error halt)
        ⊎ ((row_error halt ≡ None) × (fault_lost result ≡ Some NoMemory)) }
{
    match halt {
        ReadError::Bad => bad_behind(passed),
        ReadError::Fault => PullFault::Fault,
        ReadError::NoMemory => PullFault::NoMemory,
    }
}

/// None at the end of the text, which lies behind so many rows.
fn none_at(end: bool, passed: u64) -> Result<Option<Group>, PullFault>
    ensures end { IfOk result (λ found. (found ≡ None) × (end ≡ true)) }
    ensures more { IfErr result (λ fault. IfBad fault (λ n. (end ≡ false) × (n ≡ passed + 1))) }
    ensures lost { (pull_lost result ≡ None) ⊎ (pull_lost result ≡ Some NoMemory) }
{
    if end {
        Ok(None)
    } else {
        Err(bad_behind(passed))
    }
}

/// None, where the text ends behind the row that was passed last.
fn read_end<S: Shelf>(
    alloc: Global,
    rows: &mut PulledRows<'_>,
    shelf: &mut S,
) -> Result<Option<Group>, PullFault>
    ensures none { IfOk result (λ found. found ≡ None) }
    ensures end { IfOk result (λ _.
        rows.old.lines.refused ≡ None
        → IfFile (S.contents shelf.old) rows.old.lines.name (λ file.
        EndsSo true (not_passed rows.old file))) }
    ensures more { IfErr result (λ fault. IfBad fault (λ n.
        (n ≡ rows.old.taken + 1)
        × (rows.old.lines.refused ≡ None
        → IfFile (S.contents shelf.old) rows.old.lines.name (λ file.
        EndsSo false (not_passed rows.old file))))) }
    ensures draws { Draws S.contents S.read_faults S.write_faults S.IsSure (pull_lost result)
        rows.old shelf.old rows.new shelf.new }
    ensures left { rows_left rows.new ≤ rows_left rows.old }
{
    let taken = rows.passed();
    match rows.at_end(alloc, shelf) {
        Ok(end) => none_at(end, taken),
        Err(lost) => Err(fault_of_loss(lost)),
    }
}

/// The next group of a text of that version, or none where the text ends well, after its title
/// where it begins here.
pub(crate) fn next_group<S: Shelf>(
    alloc: Global,
    rows: &mut PulledRows<'_>,
    shelf: &mut S,
    version: Version,
    first: bool,
) -> Result<Option<Group>, PullFault>
    requires { rows.old.lines.refused ≡ None }
    ensures given { IfOk result (λ found. IfSome found (λ g.
        IfFile (S.contents shelf.old) rows.old.lines.name
        (ReadFrom (turn_at (version_of version) first) (Some (group_tree g)) rows.old rows.new))) }
    ensures fits { IfOk result (λ found.
        IfSome found (λ g. IsGroupIn (version_of version) (group_tree g))) }
    ensures end { IfOk result (λ found.
        IfNone found (IfFile (S.contents shelf.old) rows.old.lines.name (λ file.
        (n : ℕ) × EndsBehind (turn_at (version_of version) first) rows.old file n (EndsSo true)))) }
    ensures bad { IfErr result (λ fault. IfBad fault (λ n.
        IfFile (S.contents shelf.old) rows.old.lines.name (λ file.
        StoppedAt (turn_at (version_of version) first) rows.old n file
        ⊎ ((m : ℕ)
        × (n ≡ m + 1)
        × EndsBehind (turn_at (version_of version) first) rows.old file m (EndsSo false))))) }
    ensures draws { Draws S.contents S.read_faults S.write_faults S.IsSure (pull_lost result)
        rows.old shelf.old rows.new shelf.new }
    ensures left { rows_left rows.new ≤ rows_left rows.old }
    ensures fewer { IfOk result (λ found.
        IfSome found (λ _. rows_left rows.new < rows_left rows.old)) }
{
    match read_turn(alloc, rows, shelf, version, first) {
        Ok(Some(group)) => Ok(Some(group)),
        Ok(None) => read_end(alloc, rows, shelf),
        Err(halt) => Err(fault_behind(halt, rows.passed())),
    }
}

/// The next line behind a group in a text of that version, by the group's own code, or none where
/// the proof ends.
pub(crate) fn next_line<S: Shelf, W: ReadLines>(
    alloc: Global,
    rows: &mut PulledRows<'_>,
    shelf: &mut S,
    version: Version,
    own: &Code,
    kept: &mut W,
) -> Result<Option<W::Line>, PullFault>
    requires going { rows.old.lines.refused ≡ None }
    requires own { IsOwnCode own.now.ranges }
    requires laws { ReadsLines W.readers (version_of version) }
    ensures given { (before : List W.readers.grammar.Line)
        → W.Behind kept.old before
        → W.readers.grammar.Are (version_of version) before
        → IfOk result (λ found. IfSome found (λ l.
        IfFile (S.contents shelf.old) rows.old.lines.name
        (ReadFrom (turn_over W.readers (version_of version) own.now.ranges before)
        (Some (W.tree own.now.ranges l)) rows.old rows.new))) }
    ensures behind { (before : List W.readers.grammar.Line)
        → W.Behind kept.old before
        → IfOk result (λ found.
        IfSome found (λ l. W.Behind kept.new (before ++ W.tree own.now.ranges l ∷ []))) }
    ensures fits { (before : List W.readers.grammar.Line)
        → W.Behind kept.old before
        → W.readers.grammar.Are (version_of version) before
        → IfOk result (λ found.
        IfSome found (λ l. W.readers.Fits (version_of version) before (W.tree own.now.ranges l))) }
    ensures end { (before : List W.readers.grammar.Line)
        → W.Behind kept.old before
        → W.readers.grammar.Are (version_of version) before
        → IfOk result (λ found.
        IfNone found (IfFile (S.contents shelf.old) rows.old.lines.name
        (ReadFrom (turn_over W.readers (version_of version) own.now.ranges before) None rows.old
        rows.new))) }
    ensures bad { (before : List W.readers.grammar.Line)
        → W.Behind kept.old before
        → W.readers.grammar.Are (version_of version) before
        → IfErr result (λ fault. IfBad fault (λ n.
        IfFile (S.contents shelf.old) rows.old.lines.name
        (StoppedAt (turn_over W.readers (version_of version) own.now.ranges before) rows.old n))) }
    ensures kept { IfErr result (λ _.
        (before : List W.readers.grammar.Line)
        → W.Behind kept.old before
        → W.Behind kept.new before) }
    ensures draws { Draws S.contents S.read_faults S.write_faults S.IsSure (pull_lost result)
        rows.old shelf.old rows.new shelf.new }
    ensures left { rows_left rows.new ≤ rows_left rows.old }
    ensures fewer { IfOk result (λ found.
        IfSome found (λ _. rows_left rows.new < rows_left rows.old)) }
{
    match read_line_turn(alloc, rows, shelf, version, own, kept) {
        Ok(Some(line)) => Ok(Some(line)),
        Ok(None) => Ok(None),
        Err(halt) => Err(fault_behind(halt, rows.passed())),
    }
}
