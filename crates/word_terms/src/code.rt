//! Machine code as bytes at addresses.

ghost use Rattle.std.specs.Prelude.{◌≡◌, IfOk};

use rv_words::{List, NoMemory, Range};
use std::alloc::Global;

/// The bytes of a function's code, as ranges. Those of a text aren't empty, rise, neither overlap
/// nor touch, and end at most at 2^64 (`AreRanges`); the type doesn't ask for it.
#[derive(Debug, Drop)]
pub struct Code {
    pub ranges: List<Range>,
}

/// The same code in memory of its own.
pub fn copy_code(alloc: Global, code: &Code) -> Result<Code, NoMemory>
    ensures { IfOk result (λ copy. copy.ranges ≡ code.now.ranges) }
{
    let ranges = copy_ranges(alloc, code.ranges.as_slice())?;
    Ok(Code { ranges })
}

fn copy_ranges(alloc: Global, ranges: &[Range]) -> Result<List<Range>, NoMemory>
    ensures { IfOk result (λ copies. copies ≡ ranges.now) }
{
    let mut copies = List::new(alloc);
    for range in ranges {
        let copy = copy_range(alloc, range)?;
        copies.push(copy)?;
    }
    Ok(copies)
}

fn copy_range(alloc: Global, range: &Range) -> Result<Range, NoMemory>
    ensures { IfOk result (λ copy. copy ≡ range.now) }
{
    let bytes = List::from_slice(alloc, range.bytes.as_slice())?;
    Ok(Range {
        at: range.at,
        bytes,
    })
}
