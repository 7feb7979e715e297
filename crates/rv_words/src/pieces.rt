//! Pieces of memory: they rise and don't overlap. Two may touch: a piece grows at its end in place,
//! and where new bytes stand right in front of one, it is copied behind them only if it is short.

ghost use Rattle.std.specs.Prelude.{◌≡◌, ℕ, Some, None, ◌+◌, ◌-◌, ◌<◌, ◌≤◌, if◌then◌else◌, slice_index_or, slice_get, length, take, drop, replicate, ◌++◌, ◌∷◌, vec_len, IfOk, IfSome, OnOk, OnErr, IsTrue, ◌↔◌, ◌^◌};
ghost use Rattle.rv_words.specs.Bytes.{AreAt, bytes_from, inside, load, number_of, over, put_byte, store};
ghost use Rattle.rv_words.specs.Limits.{AreBytesBelow};
ghost use Rattle.rv_words.specs.inner.Pieces.{ArePieces, ArePiecesFrom, Holds, above, bytes_in, end};

use crate::memory::NoMemory;
use std::alloc::Global;

/// A piece of fewer bytes is joined with new ones right in front of it.
const SHORT: usize = 4096;

/// Bytes from an address on.
#[derive(Debug, Drop)]
pub struct Piece {
    at: u64,
    bytes: Vec<u8>,
}

impl Piece {
    /// The byte at an address from the piece's first one on.
    fn byte(&self, a: u64) -> Option<u8>
        requires { self.now.at ≤ a }
        ensures { result ≡ bytes_from self.now.at self.now.bytes.items a }
    {
        get_byte(&self.bytes, (a - self.at) as usize)
    }

    /// Whether the piece ends at or above an address at or above its first.
    fn reaches(&self, a: u64) -> bool
        requires { self.now.at ≤ a }
        ensures { IsTrue result ↔ (a ≤ end self.now) }
    {
        a - self.at <= self.bytes.len() as u64
    }

    /// Whether the piece has all `n` addresses from `a` on.
    fn holds(&self, a: u64, n: u64) -> bool
        ensures { IsTrue result ↔ ((self.now.at ≤ a) × (a + n ≤ end self.now)) }
    {
        let len = self.bytes.len() as u64;
        self.at <= a && a - self.at <= len && n <= len - (a - self.at)
    }

    /// Whether `n` bytes from `a` on begin in the piece or right behind it, and end no earlier than
    /// it does.
    fn grows(&self, a: u64, n: u64) -> bool
        ensures { IsTrue result → (self.now.at ≤ a) × (a ≤ end self.now) × (end self.now ≤ a + n) }
    {
        let len = self.bytes.len() as u64;
        self.at <= a && a - self.at <= len && len - (a - self.at) <= n
    }

    /// Whether the piece is short and begins right behind `n` bytes from `a` on.
    fn follows(&self, a: u64, n: u64) -> bool
        ensures { IsTrue result → self.now.at ≡ a + n }
    {
        self.bytes.len() < SHORT && a <= self.at && self.at - a == n
    }

    /// The bytes of `n` addresses from `a` on, which the piece has all.
    fn part(&self, a: u64, n: u64) -> &[u8]
        requires at { self.now.at ≤ a }
        requires within { a + n ≤ end self.now }
        ensures { result.now ≡ take n (drop (a - self.now.at) self.now.bytes.items) }
    {
        let first = (a - self.at) as usize;
        &self.bytes[first..first + n as usize]
    }

    /// The piece's bytes before an address.
    fn before(&self, a: u64) -> &[u8]
        ensures { result.now ≡ take (a - self.now.at) self.now.bytes.items }
    {
        let keep = a.saturating_sub(self.at) as usize;
        &self.bytes[..keep.min(self.bytes.len())]
    }

    /// The piece's bytes from `n` above `a` on, an address at or above its first.
    fn after(&self, a: u64, n: u64) -> &[u8]
        requires { self.now.at ≤ a + n }
        ensures { result.now ≡ drop (a + n - self.now.at) self.now.bytes.items }
    {
        let skip = if self.at < a {
            n.saturating_add(a - self.at)
        } else {
            n - (self.at - a)
        };
        let len = self.bytes.len();
        if skip < len as u64 {
            &self.bytes[skip as usize..]
        } else {
            &self.bytes[len..]
        }
    }
}

/// The byte in a place.
fn get_byte(bytes: &[u8], k: usize) -> Option<u8>
    ensures { result ≡ slice_get bytes.now k }
{
    bytes.get(k).copied()
}

/// How many pieces begin at most `n` above `a`, of pieces that rise.
fn count_begun(pieces: &[Piece], a: u64, n: u64) -> usize
    ensures within { result ≤ length pieces.now }
    ensures begun { (d : Piece)
        → 0 < result
        → (slice_index_or pieces.now (result - 1) d).at ≤ a + n }
    ensures later { (d : Piece)
        → result < length pieces.now
        → a + n < (slice_index_or pieces.now result d).at }
{
    let mut low = 0;
    let mut high = pieces.len();
    while low < high {
        let middle = low + (high - low) / 2;
        let at = pieces[middle].at;
        if at <= a || at - a <= n {
            low = middle + 1;
        } else {
            high = middle;
        }
    }
    low
}

/// The byte at an address.
pub fn byte_at(pieces: &[Piece], a: u64) -> Option<u8>
    requires { ArePieces pieces.now }
    ensures { result ≡ bytes_in pieces.now a }
{
    let begun = count_begun(pieces, a, 0);
    if begun == 0 {
        return None;
    }
    pieces[begun - 1].byte(a)
}

/// Whether each of these bytes is below a limit.
#[tactic(auto, using(crate::proofs::LimitLemmas::below_to_more, crate::proofs::LimitLemmas::below_all, crate::proofs::LimitLemmas::not_below))]
fn bytes_below(bytes: &[u8], limit: u8) -> bool
    ensures { IsTrue result ↔ ((k b : ℕ) → slice_get bytes.now k ≡ Some b → b < limit) }
{
    for &byte in bytes {
        if byte >= limit {
            return false;
        }
    }
    true
}

/// Whether each byte in the pieces is below a limit.
#[tactic(auto, using(crate::proofs::LimitLemmas::below_first, crate::proofs::LimitLemmas::below_more, crate::proofs::LimitLemmas::below_done, crate::proofs::LimitLemmas::below_not))]
pub fn are_below(pieces: &[Piece], limit: u8) -> bool
    requires { ArePieces pieces.now }
    ensures { IsTrue result ↔ AreBytesBelow limit (bytes_in pieces.now) }
{
    for piece in pieces {
        if !bytes_below(&piece.bytes, limit) {
            return false;
        }
    }
    true
}

/// Removes the pieces from `from` on that stand before `to`.
fn remove_range(pieces: &mut Vec<Piece>, from: usize, to: usize)
    requires ordered { from ≤ to }
    requires within { to ≤ vec_len pieces.old }
    ensures { pieces.new.items ≡ take from pieces.old.items ++ drop to pieces.old.items }
{
    pieces.drain(from..to);
}

/// The bytes of `left`, `n` zeros and the bytes of `right`. `NoMemory` also where that is 2^64
/// bytes or more, which no memory holds: `n` may be any word.
fn joined(alloc: Global, left: &[u8], n: usize, right: &[u8]) -> Result<Vec<u8>, NoMemory>
    ensures { IfOk result (λ bytes. bytes.items ≡ left.now ++ replicate n 0 ++ right.now) }
{
    let front = left.len().checked_add(n).ok_or(NoMemory)?;
    let whole = front.checked_add(right.len()).ok_or(NoMemory)?;
    let mut bytes = Vec::with_capacity(alloc, whole)?;
    bytes.extend_from_slice(left)?;
    bytes.resize(front, 0)?;
    bytes.extend_from_slice(right)?;
    Ok(bytes)
}

/// That many zeros.
fn zeros(alloc: Global, n: usize) -> Result<Vec<u8>, NoMemory>
    ensures { IfOk result (λ bytes. bytes.items ≡ replicate n 0) }
{
    let mut bytes = Vec::with_capacity(alloc, n)?;
    bytes.resize(n, 0)?;
    Ok(bytes)
}

/// Writes zeros over `n` bytes from a place on.
fn clear(bytes: &mut Vec<u8>, from: usize, n: usize)
    requires { from + n ≤ vec_len bytes.old }
    ensures { bytes.new.items
        ≡ take from bytes.old.items ++ (replicate n 0 ++ drop (from + n) bytes.old.items) }
{
    bytes[from..from + n].fill(0);
}

/// Puts `n` zeros from a place on over all the bytes there and behind the last one. It copies none
/// of those before. `NoMemory` also where they would end at 2^64 or behind it.
fn extend(bytes: &mut Vec<u8>, from: usize, n: usize) -> Result<(), NoMemory>
    requires begins { from ≤ vec_len bytes.old }
    requires ends { vec_len bytes.old ≤ from + n }
    ensures ok { OnOk result (bytes.new.items ≡ take from bytes.old.items ++ replicate n 0) }
    ensures err { OnErr result (bytes.new.items ≡ bytes.old.items) }
{
    let len = from.checked_add(n).ok_or(NoMemory)?;
    bytes.resize(len, 0)?;
    bytes[from..].fill(0);
    Ok(())
}

/// Writes other bytes from a place on.
fn overwrite(bytes: &mut Vec<u8>, from: usize, new: &[u8])
    requires { from + length new.now ≤ vec_len bytes.old }
    ensures { bytes.new.items
        ≡ take from bytes.old.items ++ (new.now ++ drop (from + length new.now) bytes.old.items) }
{
    bytes[from..from + new.len()].copy_from_slice(new);
}

/// Whether piece `i` is there, short, and begins right behind `n` bytes from `a` on.
fn follows_at(pieces: &[Piece], i: usize, a: u64, n: u64) -> bool
    ensures within { IsTrue result → i < length pieces.now }
    ensures at { (d : Piece) → IsTrue result → (slice_index_or pieces.now i d).at ≡ a + n }
{
    i < pieces.len() && pieces[i].follows(a, n)
}

/// The first and the one after the last of the pieces with which `n` bytes from `a` on make one:
/// those that have one of these addresses, and the one that ends at `a`; where there is none of
/// these, a short one right behind.
fn touched(pieces: &[Piece], a: u64, n: u64) -> (usize, usize)
    requires pieces { ArePieces pieces.now }
    requires some { 0 < n }
    ensures ordered { result.0 ≤ result.1 }
    ensures within { result.1 ≤ length pieces.now }
    ensures before { above 0 (take result.0 pieces.now) ≤ a }
    ensures after { ArePiecesFrom (a + n) (drop result.1 pieces.now) }
    ensures reaches { (d : Piece)
        → result.0 < result.1
        → a ≤ end (slice_index_or pieces.now result.0 d) }
    ensures begins { (d : Piece)
        → result.0 < result.1
        → (slice_index_or pieces.now (result.1 - 1) d).at ≤ a + n }
{
    let begun = count_begun(pieces, a, 0);
    let last = count_begun(pieces, a, n - 1);
    if begun > 0 && pieces[begun - 1].reaches(a) {
        return (begun - 1, last);
    }
    if begun == last && follows_at(pieces, last, a, n) {
        return (begun, last + 1);
    }
    (begun, last)
}

/// Puts `n` zeros from `a` on in front of piece `i`, as a piece of their own.
fn insert_zeros(pieces: &mut Vec<Piece>, i: usize, a: u64, n: u64) -> Result<(), NoMemory>
    requires pieces { ArePieces pieces.old.items }
    requires within { i ≤ vec_len pieces.old }
    requires some { 0 < n }
    requires fits { a + n ≤ 2 ^ 64 }
    requires before { above 0 (take i pieces.old.items) ≤ a }
    requires after { ArePiecesFrom (a + n) (drop i pieces.old.items) }
    ensures pieces { ArePieces pieces.new.items }
    ensures cleared { OnOk result (bytes_in pieces.new.items
        ≡ over (bytes_from a (replicate n 0)) (bytes_in pieces.old.items)) }
    ensures held { OnOk result (Holds pieces.new.items i a n) }
    ensures err { OnErr result (pieces.new.items ≡ pieces.old.items) }
{
    let bytes = zeros(*pieces.allocator(), n as usize)?;
    pieces.insert(i, Piece { at: a, bytes })?;
    Ok(())
}

/// Makes one piece of the pieces from `first` on that stand before `last`, with `n` zeros from `a`
/// on.
fn join_zeros(
    pieces: &mut Vec<Piece>,
    first: usize,
    last: usize,
    a: u64,
    n: u64,
) -> Result<(), NoMemory>
    requires pieces { ArePieces pieces.old.items }
    requires ordered { first < last }
    requires within { last ≤ vec_len pieces.old }
    requires some { 0 < n }
    requires fits { a + n ≤ 2 ^ 64 }
    requires before { above 0 (take first pieces.old.items) ≤ a }
    requires after { ArePiecesFrom (a + n) (drop last pieces.old.items) }
    requires reaches { (d : Piece) → a ≤ end (slice_index_or pieces.old.items first d) }
    requires begins { (d : Piece) → (slice_index_or pieces.old.items (last - 1) d).at ≤ a + n }
    ensures pieces { ArePieces pieces.new.items }
    ensures cleared { OnOk result (bytes_in pieces.new.items
        ≡ over (bytes_from a (replicate n 0)) (bytes_in pieces.old.items)) }
    ensures held { OnOk result (Holds pieces.new.items first a n) }
    ensures err { OnErr result (pieces.new.items ≡ pieces.old.items) }
{
    let alloc = *pieces.allocator();
    let head = &pieces[first];
    let tail = &pieces[last - 1];
    let at = a.min(head.at);
    let bytes = joined(alloc, head.before(a), n as usize, tail.after(a, n))?;
    pieces[first] = Piece { at, bytes };
    remove_range(pieces, first + 1, last);
    Ok(())
}

/// Makes piece `i` longer, with `n` zeros from `a` on.
fn extend_zeros(pieces: &mut Vec<Piece>, i: usize, a: u64, n: u64) -> Result<(), NoMemory>
    requires pieces { ArePieces pieces.old.items }
    requires within { i < vec_len pieces.old }
    requires some { 0 < n }
    requires fits { a + n ≤ 2 ^ 64 }
    requires after { ArePiecesFrom (a + n) (drop (i + 1) pieces.old.items) }
    requires grows { (d : Piece)
        → ((slice_index_or pieces.old.items i d).at ≤ a)
        × (a ≤ end (slice_index_or pieces.old.items i d))
        × (end (slice_index_or pieces.old.items i d) ≤ a + n) }
    ensures pieces { ArePieces pieces.new.items }
    ensures cleared { OnOk result (bytes_in pieces.new.items
        ≡ over (bytes_from a (replicate n 0)) (bytes_in pieces.old.items)) }
    ensures held { OnOk result (Holds pieces.new.items i a n) }
    ensures err { OnErr result (bytes_in pieces.new.items ≡ bytes_in pieces.old.items) }
{
    let piece = &mut pieces[i];
    let from = (a - piece.at) as usize;
    extend(&mut piece.bytes, from, n as usize)
}

/// Writes zeros over `n` bytes of piece `i`.
fn clear_in(pieces: &mut [Piece], i: usize, a: u64, n: u64)
    requires pieces { ArePieces pieces.old }
    requires held { Holds pieces.old i a n }
    ensures pieces { ArePieces pieces.new }
    ensures cleared { bytes_in pieces.new
        ≡ over (bytes_from a (replicate n 0)) (bytes_in pieces.old) }
    ensures held { Holds pieces.new i a n }
{
    let piece = &mut pieces[i];
    let from = (a - piece.at) as usize;
    clear(&mut piece.bytes, from, n as usize);
}

/// Writes bytes over those of piece `i`.
fn write_in(pieces: &mut [Piece], i: usize, a: u64, bytes: &[u8])
    requires pieces { ArePieces pieces.old }
    requires held { Holds pieces.old i a (length bytes.now) }
    ensures pieces { ArePieces pieces.new }
    ensures written { bytes_in pieces.new ≡ over (bytes_from a bytes.now) (bytes_in pieces.old) }
{
    let piece = &mut pieces[i];
    let from = (a - piece.at) as usize;
    overwrite(&mut piece.bytes, from, bytes);
}

/// Makes one piece have all `n` addresses from `a` on, with zeros there, and answers which one.
fn cover(pieces: &mut Vec<Piece>, a: u64, n: u64) -> Result<usize, NoMemory>
    requires pieces { ArePieces pieces.old.items }
    requires some { 0 < n }
    requires fits { a + n ≤ 2 ^ 64 }
    ensures pieces { ArePieces pieces.new.items }
    ensures cleared { OnOk result (bytes_in pieces.new.items
        ≡ over (bytes_from a (replicate n 0)) (bytes_in pieces.old.items)) }
    ensures held { IfOk result (λ i. Holds pieces.new.items i a n) }
    ensures err { OnErr result (bytes_in pieces.new.items ≡ bytes_in pieces.old.items) }
{
    let (first, last) = touched(pieces, a, n);
    if first == last {
        insert_zeros(pieces, first, a, n)?;
        return Ok(first);
    }
    if pieces[first].holds(a, n) {
        clear_in(pieces, first, a, n);
        return Ok(first);
    }
    if last == first + 1 && pieces[first].grows(a, n) {
        extend_zeros(pieces, first, a, n)?;
        return Ok(first);
    }
    join_zeros(pieces, first, last, a, n)?;
    Ok(first)
}

/// Puts bytes at the addresses from `a` on.
pub fn put_bytes(pieces: &mut Vec<Piece>, a: u64, bytes: &[u8]) -> Result<(), NoMemory>
    requires pieces { ArePieces pieces.old.items }
    requires fits { a + length bytes.now ≤ 2 ^ 64 }
    ensures pieces { ArePieces pieces.new.items }
    ensures ok { OnOk result (bytes_in pieces.new.items
        ≡ over (bytes_from a bytes.now) (bytes_in pieces.old.items)) }
    ensures err { OnErr result (bytes_in pieces.new.items ≡ bytes_in pieces.old.items) }
{
    if bytes.is_empty() {
        return Ok(());
    }
    let i = cover(pieces, a, bytes.len() as u64)?;
    write_in(pieces, i, a, bytes);
    Ok(())
}

/// Puts `n` zeros at the addresses from `a` on.
pub fn put_zeros(pieces: &mut Vec<Piece>, a: u64, n: u64) -> Result<(), NoMemory>
    requires pieces { ArePieces pieces.old.items }
    requires fits { a + n ≤ 2 ^ 64 }
    ensures pieces { ArePieces pieces.new.items }
    ensures ok { OnOk result (bytes_in pieces.new.items
        ≡ over (bytes_from a (replicate n 0)) (bytes_in pieces.old.items)) }
    ensures err { OnErr result (bytes_in pieces.new.items ≡ bytes_in pieces.old.items) }
{
    if n == 0 {
        return Ok(());
    }
    let _ = cover(pieces, a, n)?;
    Ok(())
}

/// The bytes of the `n` addresses from `a` on, where one piece has them all.
fn bytes_together(pieces: &[Piece], a: u64, n: u8) -> Option<&[u8]>
    requires { ArePieces pieces.now }
    ensures at { IfSome result (λ bytes. AreAt bytes.now (bytes_in pieces.now) a) }
    ensures many { IfSome result (λ bytes. length bytes.now ≡ n) }
{
    let begun = count_begun(pieces, a, 0);
    if begun == 0 {
        return None;
    }
    let piece = &pieces[begun - 1];
    let count = u64::from(n);
    if !piece.holds(a, count) {
        return None;
    }
    Some(piece.part(a, count))
}

/// The number that bytes make, the low one first.
fn number(bytes: &[u8]) -> u64
    requires { length bytes.now ≤ 8 }
    ensures { result ≡ number_of bytes.now }
{
    let mut number = 0;
    let mut left = bytes.len();
    while left > 0 {
        left -= 1;
        number = 256 * number + u64::from(bytes[left]);
    }
    number
}

/// Whether each of `n` addresses from `a` on is present, one after the other.
fn has_each(pieces: &[Piece], a: u64, n: u8) -> bool
    requires { ArePieces pieces.now }
    ensures { result ≡ inside n (bytes_in pieces.now) a }
{
    if n == 0 {
        return true;
    }
    byte_at(pieces, a).is_some() && has_each(pieces, a.wrapping_add(1), n - 1)
}

/// The number of `n` bytes from `a` on, one after the other.
fn load_each(pieces: &[Piece], a: u64, n: u8) -> u64
    requires pieces { ArePieces pieces.now }
    requires few { n ≤ 8 }
    ensures loaded { result ≡ load n (bytes_in pieces.now) a }
    ensures small { result < 256 ^ n }
{
    if n == 0 {
        return 0;
    }
    let low = byte_at(pieces, a).unwrap_or(0);
    let high = load_each(pieces, a.wrapping_add(1), n - 1);
    u64::from(low) + 256 * high
}

/// Whether all of `n` addresses from `a` on are present.
pub fn has_bytes(pieces: &[Piece], a: u64, n: u8) -> bool
    requires { ArePieces pieces.now }
    ensures { result ≡ inside n (bytes_in pieces.now) a }
{
    match bytes_together(pieces, a, n) {
        Some(_bytes) => true,
        None => has_each(pieces, a, n),
    }
}

/// The number of `n` bytes from `a` on, where an absent one counts as 0.
pub fn load_bytes(pieces: &[Piece], a: u64, n: u8) -> u64
    requires pieces { ArePieces pieces.now }
    requires few { n ≤ 8 }
    ensures { result ≡ load n (bytes_in pieces.now) a }
{
    match bytes_together(pieces, a, n) {
        Some(bytes) => number(bytes),
        None => load_each(pieces, a, n),
    }
}

/// The number of `n` bytes from `a` on, if all of these addresses are present.
pub fn read_bytes(pieces: &[Piece], a: u64, n: u8) -> Option<u64>
    requires pieces { ArePieces pieces.now }
    requires few { n ≤ 8 }
    ensures { result
        ≡ if inside n (bytes_in pieces.now) a then Some (load n (bytes_in pieces.now) a) else None }
{
    if let Some(bytes) = bytes_together(pieces, a, n) {
        return Some(number(bytes));
    }
    if has_each(pieces, a, n) {
        Some(load_each(pieces, a, n))
    } else {
        None
    }
}

/// Writes a byte at an address that may be absent.
fn store_byte(pieces: &mut [Piece], a: u64, b: u8)
    requires { ArePieces pieces.old }
    ensures pieces { ArePieces pieces.new }
    ensures stored { bytes_in pieces.new ≡ put_byte (bytes_in pieces.old) a b }
{
    let begun = count_begun(pieces, a, 0);
    if begun == 0 {
        return;
    }
    if pieces[begun - 1].holds(a, 1) {
        write_in(pieces, begun - 1, a, &[b]);
    }
}

/// Writes the low `n` bytes of `v` from `a` on, where addresses are present.
pub fn store_bytes(pieces: &mut [Piece], a: u64, n: u8, v: u64)
    requires { ArePieces pieces.old }
    ensures pieces { ArePieces pieces.new }
    ensures stored { bytes_in pieces.new ≡ store n (bytes_in pieces.old) a v }
{
    if n > 0 {
        store_bytes(pieces, a.wrapping_add(1), n - 1, v / 256);
        store_byte(pieces, a, (v % 256) as u8);
    }
}

/// A piece with the same bytes at the same addresses.
fn copy_of(alloc: Global, piece: &Piece) -> Result<Piece, NoMemory>
    ensures at { IfOk result (λ copy. copy.at ≡ piece.now.at) }
    ensures bytes { IfOk result (λ copy. copy.bytes.items ≡ piece.now.bytes.items) }
{
    let bytes = Vec::from_slice(alloc, &piece.bytes)?;
    Ok(Piece {
        at: piece.at,
        bytes,
    })
}

/// Pieces with the same bytes at the same addresses.
pub fn copy_all(alloc: Global, pieces: &[Piece]) -> Result<Vec<Piece>, NoMemory>
    requires { ArePieces pieces.now }
    ensures pieces { IfOk result (λ copies. ArePieces copies.items) }
    ensures bytes { IfOk result (λ copies. bytes_in copies.items ≡ bytes_in pieces.now) }
{
    let mut copies = Vec::with_capacity(alloc, pieces.len())?;
    for piece in pieces {
        copies.push(copy_of(alloc, piece)?)?;
    }
    Ok(copies)
}
