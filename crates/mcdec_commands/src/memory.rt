//! Ranges of bytes in memories.

ghost use Rattle.std.specs.Prelude.{◌≡◌, ◌+◌, ◌≤◌, ◌^◌, All, IfOk, None, OnOk, length, map, slice_get};
ghost use Rattle.std.specs.FinMap.{get};
ghost use Rattle.mcdec_answers.specs.Command.{IsMemory};
ghost use Rattle.mcdec_commands.specs.EvalAnswer.{memories_given};
ghost use Rattle.mcdec_commands.specs.Memory.{held_at, placed, ranges_in};

use crate::places::starts_by_address;
use rv_words::{ByteMap, List, NoMemory, Range};
use std::alloc::Global;

/// As many memories, each with its ranges' bytes alone.
pub fn memories(
    alloc: Global,
    count: u8,
    memory: &[Range],
    stack: &[Range],
) -> Result<List<ByteMap>, NoMemory>
    requires few { count ≤ 2 }
    requires memory { All IsMemory memory.now }
    requires stack { All IsMemory stack.now }
    ensures { IfOk result (λ list. map get list ≡ memories_given count memory.now stack.now) }
{
    let mut list = List::new(alloc);
    if count >= 1 {
        list.push(memory_of(alloc, memory)?)?;
    }
    if count == 2 {
        list.push(memory_of(alloc, stack)?)?;
    }
    Ok(list)
}

/// A memory with the ranges' bytes alone, one range put over the other. They are put there by
/// address first, so that none is put in front of another.
fn memory_of(alloc: Global, ranges: &[Range]) -> Result<ByteMap, NoMemory>
    requires { All IsMemory ranges.now }
    ensures { IfOk result (λ memory. get memory ≡ placed ranges.now (λ a. None)) }
{
    let mut memory = ByteMap::new(alloc);
    place_rising(alloc, &mut memory, ranges)?;
    place_each(&mut memory, ranges)?;
    Ok(memory)
}

/// Puts the ranges into memory by address. Where each is put over them afterwards, that makes no
/// difference.
fn place_rising(alloc: Global, memory: &mut ByteMap, ranges: &[Range]) -> Result<(), NoMemory>
    requires { All IsMemory ranges.now }
    ensures { OnOk result (placed ranges.now (get memory.new)
        ≡ placed ranges.now (get memory.old)) }
{
    let starts = starts_by_address(alloc, ranges)?;
    for start in &starts {
        if let Some(range) = ranges.get(start.place) {
            memory.place(range.at, range.bytes.as_slice())?;
        }
    }
    Ok(())
}

/// Puts the ranges into memory, one over the other.
fn place_each(memory: &mut ByteMap, ranges: &[Range]) -> Result<(), NoMemory>
    requires { All IsMemory ranges.now }
    ensures { OnOk result (get memory.new ≡ placed ranges.now (get memory.old)) }
{
    for range in ranges {
        memory.place(range.at, range.bytes.as_slice())?;
    }
    Ok(())
}

/// The ranges with the bytes that the memory of that number has there now; none where there is no
/// such memory.
pub fn ranges_in(
    alloc: Global,
    memories: &[ByteMap],
    number: usize,
    ranges: &[Range],
) -> Result<List<Range>, NoMemory>
    requires { All IsMemory ranges.now }
    ensures { IfOk result (λ now.
        now ≡ ranges_in (slice_get (map get memories.now) number) ranges.now) }
{
    match memories.get(number) {
        Some(memory) => ranges_now(alloc, memory, ranges),
        None => Ok(List::new(alloc)),
    }
}

/// The ranges with the bytes that are in memory now.
pub fn ranges_now(
    alloc: Global,
    memory: &ByteMap,
    ranges: &[Range],
) -> Result<List<Range>, NoMemory>
    requires { All IsMemory ranges.now }
    ensures { IfOk result (λ now. now ≡ map (held_at (get memory.now)) ranges.now) }
{
    let mut now = List::new(alloc);
    for range in ranges {
        now.push(range_now(alloc, memory, range)?)?;
    }
    Ok(now)
}

/// The range with the bytes that are in memory now.
fn range_now(alloc: Global, memory: &ByteMap, range: &Range) -> Result<Range, NoMemory>
    requires { range.now.at + length range.now.bytes ≤ 2 ^ 64 }
    ensures { IfOk result (λ now. now ≡ held_at (get memory.now) range.now) }
{
    let mut bytes = List::new(alloc);
    for k in 0..range.bytes.len() {
        let byte = memory.byte(range.at + k as u64);
        bytes.push(byte.unwrap_or(0))?;
    }
    Ok(Range {
        at: range.at,
        bytes,
    })
}
