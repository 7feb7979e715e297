//! What is known of code without a look at its bytes: which theorems have the group's own or code
//! that lies within it, and whether a stated triple has it.

ghost use Rattle.std.specs.Prelude.{◌≡◌, ◌↔◌, IfSome, IsTrue};
ghost use Rattle.std.specs.BTreeSet.{contains};
ghost use Rattle.std.specs.Ordering.{nat_cmp};
ghost use Rattle.rv_words.specs.Bytes.{over};
ghost use Rattle.rv_words.specs.Ranges.{range_bytes};
ghost use Rattle.sep_assert.specs.Code.{Agree};
ghost use Rattle.held_definitions.specs.Theorems.{held_by_number};
ghost use Rattle.held_definitions.specs.inner.Marks.{AreMarked, HasWithin, HaveSameCode};
ghost use Rattle.checker.specs.inner.Sharing.{short_giver, states_own};

use derived_triples::has_code_within;
use frame_compose::is_union;
use held_definitions::Marks;
use held_terms::Held;
use sep_assert::{code_within, same_code};
use short_text::Short;
use std::collections::BTreeMap;
use tailrec_lang::Group;
use word_terms::Code;

/// Whether the theorem of that number is known to have the code of the triple, since the theorem is
/// marked and the triple, as `own` says, has the group's own code.
pub(crate) fn is_known(
    g: &Group,
    held: &BTreeMap<u64, Held>,
    marked: &Marks,
    own: bool,
    p: u64,
    stated: &Held,
) -> bool
    requires marked { AreMarked g.now.code.ranges held.now.entries marked.now }
    requires own { IsTrue own → stated.now.code.ranges ≡ g.now.code.ranges }
    ensures { IsTrue result
        → IfSome (held_by_number held.now.entries p) (λ q. q.code.ranges ≡ stated.now.code.ranges) }
{
    own && marked.is_own(p)
}

/// Whether its code is known to lie within that of the triple, likewise.
pub(crate) fn is_within(
    g: &Group,
    held: &BTreeMap<u64, Held>,
    marked: &Marks,
    own: bool,
    p: u64,
    stated: &Held,
) -> bool
    requires marked { AreMarked g.now.code.ranges held.now.entries marked.now }
    requires own { IsTrue own → stated.now.code.ranges ≡ g.now.code.ranges }
    ensures { IsTrue result
        → IfSome (held_by_number held.now.entries p) (HasWithin stated.now.code.ranges) }
{
    own && marked.is_within(p)
}

/// Whether the theorems of those numbers are known to have the same code, since both are marked.
pub(crate) fn are_known(
    g: &Group,
    held: &BTreeMap<u64, Held>,
    marked: &Marks,
    p: u64,
    q: u64,
) -> bool
    requires { AreMarked g.now.code.ranges held.now.entries marked.now }
    ensures { IsTrue result
        → HaveSameCode (held_by_number held.now.entries p) (held_by_number held.now.entries q) }
{
    marked.is_own(p) && marked.is_own(q)
}

/// Whether the theorem has the code of the triple. Where that is known, nothing is compared.
pub(crate) fn has_code(known: bool, p: &Held, stated: &Held) -> bool
    requires { IsTrue known → p.now.code.ranges ≡ stated.now.code.ranges }
    ensures { IsTrue result ↔ (p.now.code.ranges ≡ stated.now.code.ranges) }
{
    known || same_code(p.code.as_ref(), stated.code.as_ref())
}

/// Whether the codes of two theorems agree and are that of the triple together. Where that of one
/// of them is known to be that, it is left to see whether the other's lies within it, unless that
/// is known too.
pub(crate) fn have_union(
    first_known: bool,
    second_known: bool,
    first_within: bool,
    second_within: bool,
    p: &Held,
    q: &Held,
    stated: &Held,
) -> bool
    requires first { IsTrue first_known → p.now.code.ranges ≡ stated.now.code.ranges }
    requires second { IsTrue second_known → q.now.code.ranges ≡ stated.now.code.ranges }
    requires first_within { IsTrue first_within → HasWithin stated.now.code.ranges p.now }
    requires second_within { IsTrue second_within → HasWithin stated.now.code.ranges q.now }
    ensures { IsTrue result
        ↔ (Agree (range_bytes p.now.code.ranges) (range_bytes q.now.code.ranges)
        × (over (range_bytes p.now.code.ranges) (range_bytes q.now.code.ranges)
        ≡ range_bytes stated.now.code.ranges)) }
{
    if first_known {
        has_code_within(second_within, q, stated)
    } else if second_known {
        has_code_within(first_within, p, stated)
    } else {
        is_union(p.code.as_ref(), q.code.as_ref(), stated.code.as_ref())
    }
}

/// Whether the triple has the group's own code. Where that is known, nothing is compared.
pub(crate) fn has_own_code(g: &Group, own: bool, stated: &Held) -> bool
    requires { IsTrue own → stated.now.code.ranges ≡ g.now.code.ranges }
    ensures { IsTrue result ↔ (stated.now.code.ranges ≡ g.now.code.ranges) }
{
    own || same_code(stated.code.as_ref(), &g.code)
}

/// Whether the triple that the line states, where it is right, is known to have the group's own
/// code, since it has that of theorems that are marked, or is that of an exit, or `all` stands for
/// it.
pub(crate) fn states_own(marked: &Marks, line: &Short, all: bool) -> bool
    ensures { result ≡ states_own (contains nat_cmp marked.now.own) all line.now }
{
    match line {
        Short::Axiom(_, _, _) => false,
        Short::Inst(p, _, _) => marked.is_own(*p),
        Short::Frame(p, _, _) => marked.is_own(*p),
        Short::ExtendCode(_, _) => all,
        Short::Compose(p, q) => marked.is_own(*p) && marked.is_own(*q),
        Short::Strengthen(p, _, _) => marked.is_own(*p),
        Short::Weaken(p, _, _) => marked.is_own(*p),
        Short::Discharge(p, _) => marked.is_own(*p),
        Short::UseExit(_, _) => true,
        Short::Loop(_, _) => false,
        Short::Forget(_) => false,
    }
}

/// The theorem whose code the triple has that the line states, if it has that of one.
pub(crate) fn short_giver(line: &Short) -> Option<u64>
    ensures { result ≡ short_giver line.now }
{
    match line {
        Short::Inst(p, _, _) => Some(*p),
        Short::Frame(p, _, _) => Some(*p),
        Short::Strengthen(p, _, _) => Some(*p),
        Short::Weaken(p, _, _) => Some(*p),
        Short::Discharge(p, _) => Some(*p),
        _ => None,
    }
}

/// An instruction has so many bytes at most: they are compared as quickly as a mark is found.
const FEW_BYTES: usize = 4;

/// Whether the triple's code is found to lie within the group's own. It isn't looked at where it is
/// that of one instruction, and where the group's has more ranges than it has bytes, so that this
/// takes no more time than to read it.
pub(crate) fn is_found_within(g: &Group, h: &Held) -> bool
    ensures { IsTrue result → HasWithin g.now.code.ranges h.now }
{
    let bytes = count_bytes(h.code.as_ref());
    bytes > FEW_BYTES && bytes >= g.code.ranges.len() && code_within(h.code.as_ref(), &g.code)
}

/// How many bytes a code has.
fn count_bytes(code: &Code) -> usize {
    let mut count: usize = 0;
    for range in code.ranges.as_slice() {
        count = count.saturating_add(range.bytes.len());
    }
    count
}
