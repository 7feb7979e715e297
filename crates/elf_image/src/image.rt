//! What a file puts into memory.

ghost use Rattle.std.specs.Prelude.{◌≡◌, All, AllPairs, IfSome, Some, slice_get};
ghost use Rattle.rv_words.specs.Bytes.{bytes_from};
ghost use Rattle.elf_image.specs.Image.{ArePlaced, IsApart, IsPlaced, bytes_in, code_in, code_of, padded, word_in};
ghost use Rattle.elf_image.specs.inner.Word.{word_of};

use crate::symbol::{NameFault, Symbols};
use byteorder::{ByteOrder, LittleEndian};
use rv_words::{Bytes, List};
use std::marker::Model;

/// What one PT_LOAD puts into memory: the file's bytes, and zeros after them up to `size`.
#[derive(Debug, Drop)]
pub struct Piece {
    pub at: u64,
    pub flags: u32,
    pub size: u64,
    pub from: Bytes,
}

impl Piece {
    /// The code byte at an address.
    fn code_byte(&self, a: u64) -> Option<u8>
        ensures { result ≡ code_of self.now a }
    {
        if self.flags % 2 != 1 || a < self.at {
            return None;
        }
        byte_from(self.from.as_slice(), a - self.at)
    }

    /// The byte at an address, zeros included.
    fn byte(&self, a: u64) -> Option<u8>
        ensures { result ≡ bytes_from self.now.at (padded self.now) a }
    {
        if a < self.at {
            return None;
        }
        let k = a - self.at;
        if k < self.from.len() as u64 {
            return byte_from(self.from.as_slice(), k);
        }
        if k < self.size {
            return Some(0);
        }
        None
    }
}

/// The byte in an offset.
fn byte_from(bytes: &[u8], k: u64) -> Option<u8>
    ensures { result ≡ slice_get bytes.now k }
{
    bytes.get(k as usize).copied()
}

/// The byte at an address of the pieces.
fn byte_of_pieces(pieces: &[Piece], a: u64) -> Option<u8>
    ensures { result ≡ bytes_in pieces.now a }
{
    for piece in pieces {
        if let Some(b) = piece.byte(a) {
            return Some(b);
        }
    }
    None
}

/// The code byte at an address of the pieces.
fn code_of_pieces(pieces: &[Piece], a: u64) -> Option<u8>
    ensures { result ≡ code_in pieces.now a }
{
    for piece in pieces {
        if let Some(b) = piece.code_byte(a) {
            return Some(b);
        }
    }
    None
}

/// What a file puts into memory: pieces in rising order of address, those of one address in table
/// order. Beside them, the file's functions by name.
#[derive(Debug, Drop)]
pub struct Image {
    pieces: List<Piece>,
    symbols: Symbols,
}

impl Model for Image {
    ghost use Rattle.elf_image.specs.Image.{ArePlaced, ImageOf};

    ghost Value = { ImageOf };

    ghost view = { λ i. record { pieces = i.pieces; symbols = i.symbols } };

    ghost invariant = { λ i. ArePlaced i.pieces };
}

impl Image {
    ghost use Rattle.elf_image.specs.Symbol.{value_of_name};

    /// An image of these pieces and symbols.
    pub(crate) fn of(pieces: Vec<Piece>, symbols: Symbols) -> Image
        requires { ArePlaced pieces.items }
        ensures pieces { result.pieces ≡ pieces.items }
        ensures symbols { result.symbols ≡ symbols }
    {
        Image {
            pieces: List::from_vec(pieces),
            symbols,
        }
    }

    /// The pieces, in rising order of address.
    pub fn pieces(&self) -> &[Piece]
        ensures pieces { result.now ≡ self.now.pieces }
        ensures placed { All IsPlaced result.now }
        ensures apart { AllPairs IsApart result.now }
    {
        self.pieces.as_slice()
    }

    /// The file's byte at an address in a piece that may be executed. Zeros after the file's bytes
    /// are no code.
    pub fn code_byte(&self, a: u64) -> Option<u8>
        ensures code { result ≡ code_in self.now.pieces a }
        ensures byte { IfSome result (λ b. bytes_in self.now.pieces a ≡ Some b) }
    {
        code_of_pieces(self.pieces.as_slice(), a)
    }

    /// The byte at an address of any piece, zeros included.
    pub fn byte_at(&self, a: u64) -> Option<u8>
        ensures { result ≡ bytes_in self.now.pieces a }
    {
        byte_of_pieces(self.pieces.as_slice(), a)
    }

    /// The word of the four code bytes from an address on, the low byte first.
    pub fn word_at(&self, a: u64) -> Option<u32>
        ensures { result ≡ word_in (code_in self.now.pieces) a }
    {
        if a > u64::MAX - 3 {
            return None;
        }
        joined(
            self.code_byte(a),
            self.code_byte(a + 1),
            self.code_byte(a + 2),
            self.code_byte(a + 3),
        )
    }

    /// The value of the symbols of a name: of those of type STT_FUNC in a section. A name may have
    /// any bytes, and ends before the first zero byte in the file.
    pub fn symbol(&self, name: &[u8]) -> Result<u64, NameFault>
        ensures { result ≡ value_of_name name.now self.now.symbols }
    {
        self.symbols.find(name)
    }
}

/// The number of four bytes, the low one first, if all are there.
fn joined(b0: Option<u8>, b1: Option<u8>, b2: Option<u8>, b3: Option<u8>) -> Option<u32>
    ensures { result ≡ word_of b0 b1 b2 b3 }
{
    match (b0, b1, b2, b3) {
        (Some(b0), Some(b1), Some(b2), Some(b3)) => {
            Some(LittleEndian::read_u32(&[b0, b1, b2, b3]))
        }
        _ => None,
    }
}
