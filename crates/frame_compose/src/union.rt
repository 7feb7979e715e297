//! The union of two codes.

ghost use Rattle.std.specs.Prelude.{◌≡◌, ◌↔◌, IsTrue};
ghost use Rattle.rv_words.specs.Bytes.{over};
ghost use Rattle.rv_words.specs.Ranges.{range_bytes};
ghost use Rattle.sep_assert.specs.Code.{Agree, IsWithin};

use sep_assert::{code_within, code_within_either, same_code};
use word_terms::Code;

/// Whether two codes agree and a third is their union.
pub fn is_union(a: &Code, b: &Code, all: &Code) -> bool
    ensures { IsTrue result
        ↔ (Agree (range_bytes a.now.ranges) (range_bytes b.now.ranges)
        × (over (range_bytes a.now.ranges) (range_bytes b.now.ranges)
        ≡ range_bytes all.now.ranges)) }
{
    are_within(a, b, all) && is_covered(all, a, b)
}

fn are_within(a: &Code, b: &Code, all: &Code) -> bool
    ensures { IsTrue result
        ↔ (IsWithin (range_bytes a.now.ranges) (range_bytes all.now.ranges)
        × IsWithin (range_bytes b.now.ranges) (range_bytes all.now.ranges)) }
{
    code_within(a, all) && code_within(b, all)
}

/// Whether every byte of a code is in one of two that lie in it. Mostly it is one of them.
#[tactic(auto, using(crate::proofs::UnionLemmas::covered_by_first, crate::proofs::UnionLemmas::covered_by_second))]
fn is_covered(all: &Code, a: &Code, b: &Code) -> bool
    requires first { IsWithin (range_bytes a.now.ranges) (range_bytes all.now.ranges) }
    ensures { IsTrue result
        ↔ IsWithin (range_bytes all.now.ranges)
        (over (range_bytes a.now.ranges) (range_bytes b.now.ranges)) }
{
    same_code(all, a) || same_code(all, b) || code_within_either(all, a, b)
}
