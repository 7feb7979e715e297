//! Files, read piece by piece.

ghost use Rattle.std.specs.Prelude.{◌≡◌, ◌+◌, ◌<◌, ◌≤◌, length, IfSome, IsSomeAnd, IfOk, IsErrOf};
ghost use Rattle.mc_shelf.specs.Fault.{Rose};
ghost use Rattle.mc_shelf.specs.Shelf.{ReadsName, TellsName};
ghost use Rattle.mc_shelf.specs.inner.OnlyReads.{OnlyReads};
ghost use Rattle.mc_shelf.specs.declared.measuring.MeasureEnd.TheVariants.{Fault};

use crate::ahead::empty_block;
use crate::shelf::Shelf;
use crate::sink::Failed;

/// Why a file was not measured.
#[derive(Clone, Copy, Debug, PartialEq, Eq)]
pub enum MeasureEnd {
    /// The outside failed, or the name is missing.
    Fault,
    /// The file has more bytes than the limit.
    TooLong,
}

impl From<Failed> for MeasureEnd {
    ghost from_gives = { λ _ e. e ≡ Fault };

    fn from(_e: Failed) -> MeasureEnd {
        MeasureEnd::Fault
    }
}

/// Reads a piece of the file from a place on, and gives how many bytes it has. It is not to go over
/// the limit.
pub(crate) fn read_piece<S: Shelf>(
    shelf: &mut S,
    name: &str,
    at: u64,
    limit: u64,
    into: &mut [u8],
) -> Result<usize, MeasureEnd>
    requires room { 0 < length into.old }
    requires below { at ≤ limit }
    ensures fits { IfOk result (λ n. n ≤ length into.old) }
    ensures within { IfOk result (λ n. at + n ≤ limit) }
    ensures copied { IfOk result (λ n. IfSome (S.contents shelf.old) (λ files.
        ReadsName (files name.now) at n into.old into.new)) }
    ensures too_long { IsErrOf result MeasureEnd.TooLong
        → IfSome (S.contents shelf.old) (λ files.
        IsSomeAnd (files name.now) (λ file. limit < length file)) }
    ensures shelf { OnlyReads S.contents S.read_faults S.write_faults S.IsSure
        (IsErrOf result MeasureEnd.Fault) name.now shelf.old shelf.new }
{
    let count = shelf.read(name, at, into)?;
    if count as u64 > limit - at {
        return Err(MeasureEnd::TooLong);
    }
    Ok(count)
}

/// How many bytes the file has. It is read from its front, up to and with a read that gives
/// nothing, in pieces of 4,096 bytes. It stops at the first piece that goes over the limit.
pub fn measure<S: Shelf>(shelf: &mut S, name: &str, limit: u64) -> Result<u64, MeasureEnd>
    // The answer is the length of what the name holds, where that is told, and no more than the
    // limit.
    ensures whole { IfOk result (λ size. IfSome (S.contents shelf.old) (λ files.
        IsSomeAnd (files name.now) (λ file. size ≡ length file))) }
    ensures within { IfOk result (λ size. size ≤ limit) }

    ensures too_long { IsErrOf result MeasureEnd.TooLong
        → IfSome (S.contents shelf.old) (λ files.
        IsSomeAnd (files name.now) (λ file. limit < length file)) }
    ensures cause { IsErrOf result MeasureEnd.Fault
        → Rose (S.read_faults shelf.old) (S.read_faults shelf.new) }

    ensures kept { S.contents shelf.new ≡ S.contents shelf.old }
    ensures writes { S.write_faults shelf.new ≡ S.write_faults shelf.old }
    ensures counted { (S.read_faults shelf.old ≤ S.read_faults shelf.new)
        × (S.write_faults shelf.old ≤ S.write_faults shelf.new) }

    ensures stays_sure { S.IsSure shelf.old → S.IsSure shelf.new }
    ensures sure_fault { S.IsSure shelf.old
        → TellsName (S.contents shelf.old) name.now
        → IsErrOf result MeasureEnd.Fault
        → ⊥ }
    ensures sure_counts { S.IsSure shelf.old
        → TellsName (S.contents shelf.old) name.now
        → (S.read_faults shelf.new ≡ S.read_faults shelf.old)
        × (S.write_faults shelf.new ≡ S.write_faults shelf.old) }
{
    let mut piece = empty_block();
    let mut size = 0;
    loop {
        let count = read_piece(shelf, name, size, limit, &mut piece)?;
        if count == 0 {
            return Ok(size);
        }
        size += count as u64;
    }
}
