//! Two codes joined.

ghost use Rattle.std.specs.Prelude.{◌≡◌, ◌<◌, ◌≤◌, ◌+◌, ◌-◌, ◌++◌, ◌⊎◌, All, IfOk, OnOk, IsTrue, IsFalse, drop, length};
ghost use Rattle.rv_words.specs.Bytes.{over};
ghost use Rattle.rv_words.specs.Ranges.{AreRanges};
ghost use Rattle.rv_words.specs.Ranges.{range_bytes};
ghost use Rattle.sep_assert.specs.Code.{Agree};
ghost use Rattle.sep_assert.specs.inner.Code.{BeginsBy, BeginsFirst, IsRange, Joins};

use rv_words::{List, NoMemory, Range};
use std::alloc::Global;
use word_terms::Code;

/// The bytes of both codes, which have no two different bytes at one address. Ranges that touch
/// become one.
pub fn code_join(alloc: Global, a: &Code, b: &Code) -> Result<Code, NoMemory>
    requires first { AreRanges a.now.ranges }
    requires second { AreRanges b.now.ranges }
    requires agree { Agree (range_bytes a.now.ranges) (range_bytes b.now.ranges) }
    ensures bytes { IfOk result (λ c.
        range_bytes c.ranges ≡ over (range_bytes a.now.ranges) (range_bytes b.now.ranges)) }
    ensures ranges { IfOk result (λ c. AreRanges c.ranges) }
{
    let a = a.ranges.as_slice();
    let b = b.ranges.as_slice();
    let mut ranges = List::new(alloc);
    let mut i = 0;
    let mut j = 0;
    while i < a.len() || j < b.len() {
        if begins_first(a, i, b, j) {
            add_range(alloc, &mut ranges, &a[i])?;
            i += 1;
        } else {
            add_range(alloc, &mut ranges, &b[j])?;
            j += 1;
        }
    }
    Ok(Code { ranges })
}

/// Whether the range of `a` at `i` begins no later than that of `b` at `j`. One of them is there.
fn begins_first(a: &[Range], i: usize, b: &[Range], j: usize) -> bool
    requires within { (i < length a.now) ⊎ (j < length b.now) }
    ensures yes { IsTrue result → BeginsFirst a.now i b.now j }
    ensures no { IsFalse result → BeginsFirst b.now j a.now i }
{
    if j >= b.len() {
        return true;
    }
    if i >= a.len() {
        return false;
    }
    a[i].at <= b[j].at
}

/// Adds a range that begins nowhere before the others. The bytes that they have already stay.
fn add_range(alloc: Global, ranges: &mut List<Range>, range: &Range) -> Result<(), NoMemory>
    requires ranges { AreRanges ranges.old }
    requires range { IsRange range.now }
    requires order { All (BeginsBy range.now.at) ranges.old }
    ensures { OnOk result (Joins ranges.old range.now ranges.new) }
{
    let Some(last) = ranges.pop() else {
        return ranges.push(copied(alloc, range)?);
    };
    let distance = (range.at - last.at) as usize;
    if distance > last.bytes.len() {
        ranges.push(last)?;
        return ranges.push(copied(alloc, range)?);
    }
    let longer = lengthened(alloc, last, range)?;
    ranges.push(longer)
}

/// The same range in memory of its own.
fn copied(alloc: Global, range: &Range) -> Result<Range, NoMemory>
    ensures { IfOk result (λ copy. copy ≡ range.now) }
{
    let bytes = List::from_slice(alloc, range.bytes.as_slice())?;
    Ok(Range {
        at: range.at,
        bytes,
    })
}

/// The first range with those bytes of the second that lie behind it. The second begins in the
/// first, or right behind it.
fn lengthened(alloc: Global, first: Range, second: &Range) -> Result<Range, NoMemory>
    requires order { first.at ≤ second.now.at }
    requires touch { second.now.at ≤ first.at + length first.bytes }
    ensures at { IfOk result (λ r. r.at ≡ first.at) }
    ensures bytes { IfOk result (λ r.
        r.bytes
        ≡ first.bytes ++ drop (first.at + length first.bytes - second.now.at) second.now.bytes) }
{
    let known = first.bytes.len() - (second.at - first.at) as usize;
    let more = List::from_slice(alloc, behind(second.bytes.as_slice(), known))?;
    let mut bytes = first.bytes;
    bytes.append(more)?;
    Ok(Range {
        at: first.at,
        bytes,
    })
}

/// The bytes from a place on.
fn behind(bytes: &[u8], place: usize) -> &[u8]
    ensures { result.now ≡ drop place bytes.now }
{
    bytes.get(place..).unwrap_or(&[])
}
