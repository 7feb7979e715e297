//! The code of a file, to which that of a group is compared.

ghost use Rattle.std.specs.Prelude.{◌≡◌, IfOk, OnOk};
ghost use Rattle.rv_words.specs.Bytes.{over};
ghost use Rattle.rv_words.specs.Ranges.{range_bytes};
ghost use Rattle.elf_image.specs.Image.{code_in, code_of};

use elf_image::{Image, Piece};
use rv_words::{List, NoMemory, Range};
use sep_assert::law_of_code;
use std::alloc::Global;
use word_terms::Code;

/// The bytes of a file that may be executed.
pub fn code_of_image(alloc: Global, image: &Image) -> Result<Code, NoMemory>
    ensures { IfOk result (λ code. range_bytes code.ranges ≡ code_in image.now.pieces) }
{
    let ranges = code_of_pieces(alloc, image.pieces())?;
    Ok(Code { ranges })
}

fn code_of_pieces(alloc: Global, pieces: &[Piece]) -> Result<List<Range>, NoMemory>
    ensures { IfOk result (λ ranges. range_bytes ranges ≡ code_in pieces.now) }
{
    let mut ranges = List::new(alloc);
    for piece in pieces {
        push_code(alloc, &mut ranges, piece)?;
    }
    Ok(ranges)
}

/// Adds the piece's bytes from the file, if they may be executed.
fn push_code(alloc: Global, ranges: &mut List<Range>, piece: &Piece) -> Result<(), NoMemory>
    ensures { OnOk result (range_bytes ranges.new
        ≡ over (range_bytes ranges.old) (code_of piece.now)) }
{
    law_of_code();
    if piece.flags % 2 != 1 {
        return Ok(());
    }
    let bytes = List::from_slice(alloc, piece.from.as_slice())?;
    ranges.push(Range {
        at: piece.at,
        bytes,
    })
}
