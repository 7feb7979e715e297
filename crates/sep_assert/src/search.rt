//! A search in code for bytes at addresses that mostly rise.

ghost use Rattle.std.specs.Prelude.{◌≡◌, ◌+◌, ◌<◌, ◌↔◌, IsTrue, length, drop, slice_index_or};
ghost use Rattle.rv_words.specs.Bytes.{bytes_from};
ghost use Rattle.rv_words.specs.Ranges.{range_bytes};
ghost use Rattle.rv_words.specs.declared.range.Range.{Range};
ghost use Rattle.sep_assert.specs.inner.Search.{EndsBy, RiseFrom, Stands};

use rv_words::Range;
use std::marker::Model;

/// A search that goes on where the last one ended, or begins anew where its address is lower.
#[derive(Drop)]
pub struct Search<'a> {
    ranges: &'a [Range],
    in_order: bool,
    place: usize,
    last: u128,
}

impl<'a> Model for Search<'a> {
    ghost use Rattle.std.specs.Prelude.{List, IsTrue};
    ghost use Rattle.rv_words.specs.declared.range.Range.{Range as TheRange};
    ghost use Rattle.sep_assert.specs.inner.Search.{RiseFrom, Stands};

    ghost Value = { List TheRange };

    ghost view = { λ s. s.ranges.now };

    ghost invariant = { λ s. (IsTrue s.in_order → RiseFrom 0 s.ranges.now) × Stands s.ranges.now s.place s.last };
}

impl<'a> Search<'a> {
    /// A search that begins at the first range.
    pub fn new(ranges: &'a [Range]) -> Search<'a>
        ensures { result ≡ ranges.now }
    {
        Search {
            ranges,
            in_order: are_in_order(ranges),
            place: 0,
            last: 0,
        }
    }

    /// The byte at an address, which may lie past the last one.
    pub fn byte(&mut self, address: u128) -> Option<u8>
        ensures is { result ≡ range_bytes self.old address }
        ensures same { self.new ≡ self.old }
    {
        let start = if address < self.last { 0 } else { self.place };
        self.place = place_of(self.ranges, start, address);
        self.last = address;
        byte_from(self.ranges, self.place, self.in_order, address)
    }
}

/// The place of the first range from `start` on that ends behind the address, or how many there
/// are.
fn place_of(ranges: &[Range], start: usize, address: u128) -> usize
    requires { Stands ranges.now start address }
    ensures stands { Stands ranges.now result address }
    ensures next { (r : Range)
        → result < length ranges.now
        → r ≡ slice_index_or ranges.now result r
        → address < r.at + length r.bytes }
{
    for place in start..ranges.len() {
        if !ends_by(&ranges[place], address) {
            return place;
        }
    }
    ranges.len()
}

fn ends_by(range: &Range, address: u128) -> bool
    ensures { IsTrue result ↔ EndsBy address range.now }
{
    u128::from(range.at) + range.bytes.len() as u128 <= address
}

/// Whether each range begins where the one before it ends, or behind.
fn are_in_order(ranges: &[Range]) -> bool
    ensures { IsTrue result → RiseFrom 0 ranges.now }
{
    let mut least = 0;
    for range in ranges {
        let at = u128::from(range.at);
        if at < least {
            return false;
        }
        least = at + range.bytes.len() as u128;
    }
    true
}

/// The byte at an address, before which the ranges before a place end. The one at the place ends
/// behind it.
fn byte_from(ranges: &[Range], place: usize, in_order: bool, address: u128) -> Option<u8>
    requires order { IsTrue in_order → RiseFrom 0 ranges.now }
    requires stands { Stands ranges.now place address }
    requires next { (r : Range)
        → place < length ranges.now
        → r ≡ slice_index_or ranges.now place r
        → address < r.at + length r.bytes }
    ensures { result ≡ range_bytes ranges.now address }
{
    if place >= ranges.len() {
        return None;
    }
    if let Some(byte) = byte_in(&ranges[place], address) {
        return Some(byte);
    }
    if in_order {
        return None;
    }
    byte_of(behind(ranges, place + 1), address)
}

/// The ranges from a place on.
fn behind(ranges: &[Range], place: usize) -> &[Range]
    ensures { result.now ≡ drop place ranges.now }
{
    ranges.get(place..).unwrap_or(&[])
}

/// The byte at an address, looked for in all ranges.
fn byte_of(ranges: &[Range], address: u128) -> Option<u8>
    ensures { result ≡ range_bytes ranges.now address }
{
    for range in ranges {
        if let Some(byte) = byte_in(range, address) {
            return Some(byte);
        }
    }
    None
}

fn byte_in(range: &Range, address: u128) -> Option<u8>
    ensures { result ≡ bytes_from range.now.at range.now.bytes address }
{
    let at = u128::from(range.at);
    if address < at {
        return None;
    }
    let place = address - at;
    if place < range.bytes.len() as u128 {
        return range.bytes.get(place as usize).copied();
    }
    None
}
