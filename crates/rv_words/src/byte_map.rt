//! Memory: a finite map from addresses to bytes.

ghost use Rattle.std.specs.Prelude.{◌≡◌, ◌+◌, ◌^◌, ◌≤◌, Some, None, if◌then◌else◌, length, replicate, ◌↔◌, IfOk, IsTrue, OnOk, OnErr};
ghost use Rattle.std.specs.FinMap.{empty, get};
ghost use Rattle.rv_words.specs.Limits.{AreBytesBelow};
ghost use Rattle.rv_words.specs.Bytes.{IsMemory, bytes_from, bytes_of, inside, load, over, store};

use crate::memory::NoMemory;
use crate::pieces::{
    Piece, are_below, byte_at, copy_all, has_bytes, load_bytes, put_bytes, put_zeros, read_bytes,
    store_bytes,
};
use crate::width::Width;
use std::alloc::Global;
use std::marker::Model;

/// The bytes that are present, at addresses below 2^64. It is kept as rising pieces that don't
/// overlap, so that a look-up takes time in the logarithm of their number.
#[derive(Debug, Drop)]
pub struct ByteMap {
    pieces: Vec<Piece>,
}

impl Model for ByteMap {
    ghost use Rattle.std.specs.Prelude.{ℕ};
    ghost use Rattle.std.specs.Ordering.{nat_cmp};
    ghost use Rattle.std.specs.Coded.{coded_ℕ};
    ghost use Rattle.std.specs.FinMap as map;

    ghost Value = { map.FinMap nat_cmp ℕ };

    ghost coded = { map.code coded_ℕ coded_ℕ };

    ghost use Rattle.rv_words.specs.inner.Pieces.{AreKept, map_of};

    ghost view = { λ m. map_of m.pieces.items };

    ghost invariant = { λ m. AreKept m.pieces.items };
}

impl ByteMap {
    /// The empty map. It takes no memory yet.
    pub fn new(alloc: Global) -> ByteMap
        ensures { result ≡ empty }
    {
        ByteMap {
            pieces: Vec::new(alloc),
        }
    }

    /// Every value holds bytes below 256, at addresses below 2^64.
    pub fn law_of_values(&self)
        ensures { IsMemory (get self.now) }
    {
        let _ = &self.pieces;
    }

    /// The byte at an address, if it is present.
    pub fn byte(&self, a: u64) -> Option<u8>
        ensures { result ≡ get self.now a }
    {
        byte_at(&self.pieces, a)
    }

    /// Whether each byte that is present is below a limit.
    pub fn is_below(&self, limit: u8) -> bool
        ensures { IsTrue result ↔ AreBytesBelow limit (get self.now) }
    {
        are_below(&self.pieces, limit)
    }

    /// Whether all addresses of the width from `a` on are present. They go on from 0 after the last
    /// one.
    pub fn has(&self, a: u64, w: Width) -> bool
        ensures { result ≡ inside (bytes_of w) (get self.now) a }
    {
        has_bytes(&self.pieces, a, w.bytes())
    }

    /// The number of the width's bytes from `a` on, the low one first. An absent byte counts as 0.
    pub fn load(&self, a: u64, w: Width) -> u64
        ensures { result ≡ load (bytes_of w) (get self.now) a }
    {
        load_bytes(&self.pieces, a, w.bytes())
    }

    /// The number of the width's bytes from `a` on, the low one first, if all of these addresses
    /// are present.
    pub fn read(&self, a: u64, w: Width) -> Option<u64>
        ensures { result
            ≡ if inside (bytes_of w) (get self.now) a then Some (load (bytes_of w) (get self.now) a)
            else None }
    {
        read_bytes(&self.pieces, a, w.bytes())
    }

    /// Writes the low bytes of `v` at those addresses of the width from `a` on that are present. It
    /// takes no memory.
    pub fn store(&mut self, a: u64, w: Width, v: u64)
        ensures { get self.new ≡ store (bytes_of w) (get self.old) a v }
    {
        store_bytes(&mut self.pieces, a, w.bytes(), v);
    }

    /// Puts bytes at the addresses from `a` on, over those that are present. Where none of these
    /// is, that takes time in proportion to the number of bytes and, behind them, of pieces.
    pub fn place(&mut self, a: u64, bytes: &[u8]) -> Result<(), NoMemory>
        requires { a + length bytes.now ≤ 2 ^ 64 }
        ensures ok { OnOk result (get self.new ≡ over (bytes_from a bytes.now) (get self.old)) }
        ensures err { OnErr result (self.new ≡ self.old) }
    {
        put_bytes(&mut self.pieces, a, bytes)
    }

    /// Puts `n` zeros at the addresses from `a` on. Where none of these is present, that takes one
    /// allocation.
    pub fn place_zeros(&mut self, a: u64, n: u64) -> Result<(), NoMemory>
        requires { a + n ≤ 2 ^ 64 }
        ensures ok { OnOk result (get self.new
            ≡ over (bytes_from a (replicate n 0)) (get self.old)) }
        ensures err { OnErr result (self.new ≡ self.old) }
    {
        put_zeros(&mut self.pieces, a, n)
    }

    /// An equal map in memory of its own.
    pub fn copy(&self, alloc: Global) -> Result<ByteMap, NoMemory>
        ensures { IfOk result (λ copy. copy ≡ self.now) }
    {
        let pieces = copy_all(alloc, &self.pieces)?;
        Ok(ByteMap { pieces })
    }
}
