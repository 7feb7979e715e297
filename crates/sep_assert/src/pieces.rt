//! Ranges compared with others at once, where they lie in them.

ghost use Rattle.std.specs.Prelude.{◌≡◌, ◌+◌, ◌<◌, ◌≤◌, IsTrue, IfSome, length, take, drop};
ghost use Rattle.rv_words.specs.Bytes.{bytes_from, over};
ghost use Rattle.rv_words.specs.Ranges.{range_bytes};
ghost use Rattle.sep_assert.specs.Code.{IsWithin};

use rv_words::Range;

/// Whether each range of `a` lies in the first one of `b` or, where `b` has no other, in it and the
/// first one of `c` together. Where it doesn't say so, `a` may still lie in both.
pub(crate) fn are_pieces_of(a: &[Range], b: &[Range], c: &[Range]) -> bool
    ensures { IsTrue result
        → IsWithin (range_bytes a.now) (over (range_bytes b.now) (range_bytes c.now)) }
{
    for range in a {
        if !is_piece(range, b, c) {
            return false;
        }
    }
    true
}

fn is_piece(range: &Range, b: &[Range], c: &[Range]) -> bool
    ensures { IsTrue result
        → IsWithin (bytes_from range.now.at range.now.bytes)
        (over (range_bytes b.now) (range_bytes c.now)) }
{
    if b.is_empty() {
        return false;
    }
    let first = &b[0];
    if lie_in(u128::from(range.at), range.bytes.as_slice(), first) {
        return true;
    }
    if b.len() > 1 {
        return false;
    }
    if c.is_empty() {
        return false;
    }
    is_joined(range, first, &c[0])
}

/// Whether bytes from an address on lie in a range. None lie anywhere.
fn lie_in(at: u128, bytes: &[u8], range: &Range) -> bool
    ensures { IsTrue result
        → IsWithin (bytes_from at bytes.now) (bytes_from range.now.at range.now.bytes) }
{
    if bytes.is_empty() {
        return true;
    }
    let start = u128::from(range.at);
    if at < start {
        return false;
    }
    match part(range.bytes.as_slice(), at - start, bytes.len()) {
        Some(there) => there == bytes,
        None => false,
    }
}

/// So many bytes from a place on.
fn part(bytes: &[u8], place: u128, count: usize) -> Option<&[u8]>
    ensures is { IfSome result (λ there. there.now ≡ take count (drop place bytes.now)) }
    ensures fits { IfSome result (λ _. place + count ≤ length bytes.now) }
{
    let len = bytes.len() as u128;
    if place > len || count as u128 > len - place {
        return None;
    }
    let (_, rest) = bytes.split_at(place as usize);
    let (there, _) = rest.split_at(count);
    Some(there)
}

/// Whether a range lies in one range and, before and behind that, in another.
fn is_joined(range: &Range, first: &Range, second: &Range) -> bool
    ensures { IsTrue result
        → IsWithin (bytes_from range.now.at range.now.bytes)
        (over (bytes_from first.now.at first.now.bytes)
        (bytes_from second.now.at second.now.bytes)) }
{
    let at = u128::from(range.at);
    let start = u128::from(first.at);
    let bytes = range.bytes.as_slice();
    let before = count_below(at, bytes.len(), start);
    let (front, rest) = bytes.split_at(before);
    let from = at + before as u128;
    let within = count_below(from, rest.len(), start + first.bytes.len() as u128);
    let (middle, back) = rest.split_at(within);
    if !lie_in(at, front, second) {
        return false;
    }
    if !lie_in(from, middle, first) {
        return false;
    }
    lie_in(from + within as u128, back, second)
}

/// How many of so many addresses from one on lie below another.
fn count_below(at: u128, count: usize, end: u128) -> usize
    ensures within { result ≤ count }
    ensures below { 0 < result → at + result ≤ end }
    ensures rest { result < count → end ≤ at + result }
{
    if at >= end {
        return 0;
    }
    let room = end - at;
    if room < count as u128 {
        room as usize
    } else {
        count
    }
}
