//! The preconditions of a proof's theorems, by their numbers: all that short lines need of the
//! lines before.

ghost use Rattle.std.specs.Prelude.{◌≡◌, Bool, List as Items, OnOk, option_map};
ghost use Rattle.std.specs.Option.{option_copied};
ghost use Rattle.rv_words.specs.declared.range.Range.{Range};
ghost use Rattle.sep_assert.specs.Tree.{assertion_tree};
ghost use Rattle.proof_text.specs.Line.{line_or_own, line_tree};
ghost use Rattle.verdicts.specs.Instance.{History, after_line, without};
ghost use Rattle.proof_v2.specs.Preconditions.{ArePreconditions, pre_at};

use proof_text::Line;
use rv_words::{List, NoMemory};
use sep_assert::Assertion;

/// The precondition of the theorem of that number, if it was stated and not forgotten.
pub(crate) fn precondition(kept: &[Option<Assertion>], k: u64) -> Option<&Assertion>
    ensures { option_map assertion_tree (option_copied result) ≡ pre_at kept.now k }
{
    match kept.get(k as usize) {
        Some(Some(pre)) => Some(pre),
        _ => None,
    }
}

/// ArePreconditions the precondition of the theorem that a line states, and forgets that of one
/// that it forgets.
pub(crate) fn keep(kept: &mut List<Option<Assertion>>, line: Line) -> Result<(), NoMemory>
    ensures { OnOk result ((own : Items Range) (all : Bool) (h : History)
        → ArePreconditions kept.old h
        → ArePreconditions kept.new (after_line h (line_or_own own all (line_tree line)))) }
{
    match line {
        Line::States { stated, .. } => kept.push(Some(stated.pre)),
        Line::Further { stated, .. } => kept.push(Some(stated.pre)),
        Line::Loop { .. } => Ok(()),
        Line::Forget(k) => {
            forget(kept, k);
            Ok(())
        }
    }
}

/// Forgets the precondition of the theorem of that number.
fn forget(kept: &mut List<Option<Assertion>>, k: u64)
    ensures { (h : History)
        → ArePreconditions kept.old h
        → ArePreconditions kept.new (without k h) }
{
    let place = k as usize;
    if place < kept.len() {
        kept.set(place, None);
    }
}
