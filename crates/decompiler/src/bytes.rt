//! The code of an image is made of bytes. These functions do nothing: they tell what the types say.

ghost use Rattle.std.specs.Prelude.{◌<◌, All};
ghost use Rattle.rv_words.specs.Bytes.{AreBytes};
ghost use Rattle.elf_image.specs.Image.{code_in};
ghost use Rattle.decompiler.specs.inner.CodeBytes.{HasBytes};

use elf_image::{Image, Piece};

/// Bytes are below 256.
fn law_of_numbers(bytes: &[u8])
    ensures { All (λ b. b < 256) bytes.now }
{}

/// So are the bytes of a piece's code.
fn law_of_piece(piece: &Piece)
    ensures { HasBytes piece.now }
{
    law_of_numbers(piece.from.as_slice());
}

/// .. of each of these pieces.
fn law_of_each(pieces: &[Piece])
    ensures { All HasBytes pieces.now }
{
    for piece in pieces {
        law_of_piece(piece);
    }
}

/// .. of an image.
pub fn law_of_bytes(image: &Image)
    ensures { AreBytes (code_in image.now.pieces) }
{
    law_of_each(image.pieces());
}
