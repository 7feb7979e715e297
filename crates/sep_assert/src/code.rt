//! Code compared and joined byte by byte.

ghost use Rattle.std.specs.Prelude.{◌≡◌, ◌↔◌, IsTrue};
ghost use Rattle.rv_words.specs.Bytes.{over};
ghost use Rattle.rv_words.specs.Ranges.{range_bytes};
ghost use Rattle.sep_assert.specs.Code.{Agree, IsWithin};
ghost use Rattle.sep_assert.specs.inner.Code.{AreSameAt};

use crate::pieces::are_pieces_of;
use crate::search::Search;
use rv_words::Range;
use word_terms::Code;

/// Whether every byte of `a` is that byte of `b`. Mostly they are the same ranges, which is seen at
/// once.
#[tactic(auto, using(crate::proofs::CodeLemmas::over_none, crate::proofs::CodeLemmas::within_same))]
pub fn code_within(a: &Code, b: &Code) -> bool
    ensures { IsTrue result ↔ IsWithin (range_bytes a.now.ranges) (range_bytes b.now.ranges) }
{
    same_code(a, b) || are_bytes_of(a.ranges.as_slice(), b.ranges.as_slice(), &[])
}

/// Whether no address has two different bytes.
#[tactic(auto, using(crate::proofs::CodeLemmas::within_of_agree, crate::proofs::CodeLemmas::agree_of_within))]
pub fn code_agree(a: &Code, b: &Code) -> bool
    ensures { IsTrue result ↔ Agree (range_bytes a.now.ranges) (range_bytes b.now.ranges) }
{
    let a = a.ranges.as_slice();
    are_bytes_of(a, b.ranges.as_slice(), a)
}

/// Whether every byte of `a` is that byte of `b` or, where `b` has none, of `c`.
pub fn code_within_either(a: &Code, b: &Code, c: &Code) -> bool
    ensures { IsTrue result
        ↔ IsWithin (range_bytes a.now.ranges) (over (range_bytes b.now.ranges)
        (range_bytes c.now.ranges)) }
{
    are_bytes_of(
        a.ranges.as_slice(),
        b.ranges.as_slice(),
        c.ranges.as_slice(),
    )
}

/// Whether every byte of `a` is that byte of `b` or, where `b` has none, of `c`. Mostly each has
/// one range, which is compared at once.
fn are_bytes_of(a: &[Range], b: &[Range], c: &[Range]) -> bool
    ensures { IsTrue result
        ↔ IsWithin (range_bytes a.now) (over (range_bytes b.now) (range_bytes c.now)) }
{
    are_pieces_of(a, b, c) || are_found_in(a, b, c)
}

/// The same, byte by byte. Where the ranges rise, each is looked at once.
fn are_found_in(a: &[Range], b: &[Range], c: &[Range]) -> bool
    ensures { IsTrue result
        ↔ IsWithin (range_bytes a.now) (over (range_bytes b.now) (range_bytes c.now)) }
{
    let mut in_a = Search::new(a);
    let mut in_b = Search::new(b);
    let mut in_c = Search::new(c);
    for range in a {
        if !are_bytes_at(range, &mut in_a, &mut in_b, &mut in_c) {
            return false;
        }
    }
    true
}

/// Whether the bytes of `a` at the addresses of a range are those of `b` or of `c`.
fn are_bytes_at(range: &Range, a: &mut Search, b: &mut Search, c: &mut Search) -> bool
    ensures is { IsTrue result
        ↔ AreSameAt (range_bytes a.old) (over (range_bytes b.old) (range_bytes c.old)) range.now }
    ensures first { a.new ≡ a.old }
    ensures second { b.new ≡ b.old }
    ensures third { c.new ≡ c.old }
{
    for i in 0..range.bytes.len() {
        let address = u128::from(range.at) + i as u128;
        if a.byte(address) != b.byte(address).or(c.byte(address)) {
            return false;
        }
    }
    true
}

/// Whether two codes are the same ranges.
pub fn same_code(a: &Code, b: &Code) -> bool
    ensures { IsTrue result ↔ (a.now.ranges ≡ b.now.ranges) }
{
    let a = a.ranges.as_slice();
    let b = b.ranges.as_slice();
    if a.len() != b.len() {
        return false;
    }
    for i in 0..a.len() {
        if !same_range(&a[i], &b[i]) {
            return false;
        }
    }
    true
}

fn same_range(a: &Range, b: &Range) -> bool
    ensures { IsTrue result ↔ (a.now ≡ b.now) }
{
    a.at == b.at && a.bytes.as_slice() == b.bytes.as_slice()
}
