//! Whole files, read in pieces.

ghost use Rattle.std.specs.Prelude.{◌≡◌, ◌<◌, ◌≤◌, length, vec_len, IfSome, IsSomeAnd, IfOk, IsErrOf};
ghost use Rattle.mc_shelf.specs.Fault.{Rose};
ghost use Rattle.mc_shelf.specs.Shelf.{TellsName};
ghost use Rattle.mc_shelf.specs.declared.reading.ReadEnd.TheVariants.{NoMemory as NoRoom};
ghost use Rattle.mc_shelf.specs.inner.Ends.{read_end};

use crate::measuring::{MeasureEnd, read_piece};
use crate::shelf::Shelf;
use rv_words::{Bytes, List};
use std::alloc::{AllocError, Global};

/// How many bytes one read asks for.
const PIECE: usize = 65_536;

/// Why a file was not read.
#[derive(Clone, Copy, Debug, PartialEq, Eq)]
pub enum ReadEnd {
    /// The outside failed, or the name is missing.
    Fault,
    /// The file has more bytes than the limit.
    TooLong,
    /// There was no memory.
    NoMemory,
}

impl From<MeasureEnd> for ReadEnd {
    ghost from_gives = { λ end e. e ≡ read_end end };

    fn from(end: MeasureEnd) -> ReadEnd {
        match end {
            MeasureEnd::Fault => ReadEnd::Fault,
            MeasureEnd::TooLong => ReadEnd::TooLong,
        }
    }
}

impl From<AllocError> for ReadEnd {
    ghost from_gives = { λ _ e. e ≡ NoRoom };

    fn from(_e: AllocError) -> ReadEnd {
        ReadEnd::NoMemory
    }
}

/// Room for one piece.
fn room_for_piece(alloc: Global) -> Result<Vec<u8>, AllocError>
    ensures { IfOk result (λ room. 0 < vec_len room) }
{
    Ok(vec![in alloc; 0u8; PIECE]?)
}

/// Reads the file from its front, up to and with a read that gives nothing. It stops at the first
/// piece that goes over the limit.
pub fn read_file<S: Shelf>(
    alloc: Global,
    shelf: &mut S,
    name: &str,
    limit: u64,
) -> Result<Bytes, ReadEnd>
    // The answer is what the name holds, where that is told, and no more than the limit.
    ensures whole { IfOk result (λ bytes.
        IfSome (S.contents shelf.old) (λ files. files name.now ≡ Some bytes)) }
    ensures within { IfOk result (λ bytes. length bytes ≤ limit) }

    ensures too_long { IsErrOf result ReadEnd.TooLong
        → IfSome (S.contents shelf.old) (λ files.
        IsSomeAnd (files name.now) (λ file. limit < length file)) }
    ensures cause { IsErrOf result ReadEnd.Fault
        → Rose (S.read_faults shelf.old) (S.read_faults shelf.new) }

    ensures kept { S.contents shelf.new ≡ S.contents shelf.old }
    ensures writes { S.write_faults shelf.new ≡ S.write_faults shelf.old }
    ensures counted { (S.read_faults shelf.old ≤ S.read_faults shelf.new)
        × (S.write_faults shelf.old ≤ S.write_faults shelf.new) }

    ensures stays_sure { S.IsSure shelf.old → S.IsSure shelf.new }
    ensures sure_fault { S.IsSure shelf.old
        → TellsName (S.contents shelf.old) name.now
        → IsErrOf result ReadEnd.Fault
        → ⊥ }
    ensures sure_counts { S.IsSure shelf.old
        → TellsName (S.contents shelf.old) name.now
        → (S.read_faults shelf.new ≡ S.read_faults shelf.old)
        × (S.write_faults shelf.new ≡ S.write_faults shelf.old) }
{
    let mut buffer = room_for_piece(alloc)?;
    let mut bytes = Vec::new(alloc);
    let mut at = 0;
    loop {
        let count = read_piece(shelf, name, at, limit, &mut buffer)?;
        if count == 0 {
            return Ok(List::from_vec(bytes));
        }
        bytes.extend_from_slice(&buffer[..count])?;
        at += count as u64;
    }
}
