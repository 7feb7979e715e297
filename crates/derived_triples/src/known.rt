//! What is known of the codes of theorems without a look at their bytes.

ghost use Rattle.std.specs.Prelude.{◌≡◌, ◌↔◌, IsTrue};
ghost use Rattle.rv_words.specs.Ranges.{range_bytes};
ghost use Rattle.sep_assert.specs.Code.{Agree, IsWithin};

use held_terms::Held;
use sep_assert::{code_agree, code_within};

/// Whether the theorem's code lies within that of the triple. Where that is known, nothing is
/// compared.
pub fn has_code_within(known: bool, p: &Held, stated: &Held) -> bool
    requires { IsTrue known
        → IsWithin (range_bytes p.now.code.ranges) (range_bytes stated.now.code.ranges) }
    ensures { IsTrue result
        ↔ IsWithin (range_bytes p.now.code.ranges) (range_bytes stated.now.code.ranges) }
{
    known || code_within(p.code.as_ref(), stated.code.as_ref())
}

/// Whether the codes of two theorems agree. Where they are known to be the same, nothing is
/// compared.
#[tactic(auto, using(held_definitions::proofs::MarkLemmas::agree_same))]
pub(crate) fn have_agreement(known: bool, p: &Held, q: &Held) -> bool
    requires { IsTrue known → p.now.code.ranges ≡ q.now.code.ranges }
    ensures { IsTrue result
        ↔ Agree (range_bytes p.now.code.ranges) (range_bytes q.now.code.ranges) }
{
    known || code_agree(p.code.as_ref(), q.code.as_ref())
}
