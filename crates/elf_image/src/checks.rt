//! The conditions under which a file is not read.

ghost use Rattle.std.specs.Prelude.{◌≡◌, ◌+◌, ◌*◌, ◌<◌, ◌≤◌, None, length, map};
ghost use Rattle.std.specs.List.{range_with_len};
ghost use Rattle.elf_image.specs.Fault.{cut_at, first, first_overlap, header_faults, load_fault, overlaps, total_size};
ghost use Rattle.elf_image.specs.Header.{header_count};
ghost use Rattle.elf_image.specs.inner.Faults.{cut_header, loads_faults};

use crate::fault::ElfFault;
use crate::header::{ProgramHeader, double_at, half_at};
use crate::numbers::{
    E_MACHINE, E_PHENTSIZE, E_PHNUM, E_PHOFF, E_TYPE, EI_CLASS, EI_DATA, ELFCLASS64, ELFDATA2LSB,
    ELFMAG, EM_RISCV, ET_DYN, ET_EXEC, HEADER_SIZE, PROGRAM_HEADER_SIZE,
};

/// How many PT_LOADs a file that is read has at most.
const LOAD_LIMIT: usize = 64;

/// How many bytes of memory the PT_LOADs of a file that is read take at most.
const MEMORY_LIMIT: u128 = 1_073_741_824;

/// The first fault that the header shows.
pub fn header_fault(file: &[u8]) -> Option<ElfFault>
    ensures { result ≡ first (header_faults file.now) }
{
    if !file.starts_with(ELFMAG) {
        return Some(ElfFault::NotElf);
    }
    if file.len() < HEADER_SIZE {
        return Some(ElfFault::Cut(0));
    }
    if file[EI_CLASS] != ELFCLASS64 {
        return Some(ElfFault::Class);
    }
    if file[EI_DATA] != ELFDATA2LSB {
        return Some(ElfFault::Order);
    }
    let kind = half_at(file, E_TYPE);
    if kind != ET_EXEC && kind != ET_DYN {
        return Some(ElfFault::Kind(u64::from(kind)));
    }
    let machine = half_at(file, E_MACHINE);
    if machine != EM_RISCV {
        return Some(ElfFault::Machine(u64::from(machine)));
    }
    let entry_size = u64::from(half_at(file, E_PHENTSIZE));
    if half_at(file, E_PHNUM) != 0 && entry_size != PROGRAM_HEADER_SIZE {
        return Some(ElfFault::Entry(entry_size));
    }
    None
}

/// The fault of the first of the headers of a table that doesn't lie in the file. Each takes `size`
/// bytes.
pub fn first_cut(file: &[u8], table: u64, size: u64, count: u64) -> Option<ElfFault>
    requires some { 0 < size }
    requires long { size ≤ length file.now }
    ensures { result
        ≡ first (map (λ i. cut_at file.now (table + size * i) size) (range_with_len 0 count)) }
{
    let last = file.len() as u64 - size;
    for i in 0..count {
        let offset = table.saturating_add(size.saturating_mul(i));
        if offset > last {
            return Some(ElfFault::Cut(offset));
        }
    }
    None
}

/// The fault of the first program header that doesn't lie in the file.
pub fn table_fault(file: &[u8]) -> Option<ElfFault>
    requires { 64 ≤ length file.now }
    ensures { result
        ≡ first (map (cut_header file.now) (range_with_len 0 (header_count file.now))) }
{
    let count = u64::from(half_at(file, E_PHNUM));
    first_cut(file, double_at(file, E_PHOFF), PROGRAM_HEADER_SIZE, count)
}

/// The fault of one PT_LOAD by itself.
fn fault_of_load(file: &[u8], header: ProgramHeader) -> Option<ElfFault>
    ensures { result ≡ load_fault file.now header }
{
    if header.file_size > header.memory_size {
        return Some(ElfFault::Sizes(header.index));
    }
    let len = file.len() as u64;
    if header.offset > len || header.file_size > len - header.offset {
        return Some(ElfFault::Cut(header.offset));
    }
    if header.memory_size > 0 && header.memory_size - 1 > u64::MAX - header.address {
        return Some(ElfFault::Wraps(header.index));
    }
    None
}

/// The fault of the first PT_LOAD that has one by itself.
fn fault_of_loads(file: &[u8], loads: &[ProgramHeader]) -> Option<ElfFault>
    ensures { result ≡ first (map (load_fault file.now) loads.now) }
{
    for header in loads {
        if let Some(fault) = fault_of_load(file, *header) {
            return Some(fault);
        }
    }
    None
}

/// The memory that PT_LOADs take together.
fn total(loads: &[ProgramHeader]) -> u128
    requires { length loads.now ≤ 64 }
    ensures { result ≡ total_size loads.now }
{
    let mut sum = 0u128;
    for header in loads {
        sum += u128::from(header.memory_size);
    }
    sum
}

/// The fault of two PT_LOADs that share an address.
fn overlap_of(a: &ProgramHeader, b: &ProgramHeader) -> Option<ElfFault>
    ensures { result ≡ overlaps a.now b.now }
{
    let low = a.address.max(b.address);
    let high = end(a).min(end(b));
    if u128::from(low) < high {
        return Some(ElfFault::Overlap(a.index, b.index));
    }
    None
}

/// The address after a PT_LOAD.
fn end(header: &ProgramHeader) -> u128
    ensures { result ≡ header.now.address + header.now.memory_size }
{
    u128::from(header.address) + u128::from(header.memory_size)
}

/// The fault of the first of some PT_LOADs that shares an address with a given one.
fn overlap_with(a: &ProgramHeader, others: &[ProgramHeader]) -> Option<ElfFault>
    ensures { result ≡ first (map (overlaps a.now) others.now) }
{
    for b in others {
        if let Some(fault) = overlap_of(a, b) {
            return Some(fault);
        }
    }
    None
}

/// The fault of the first two PT_LOADs that share an address.
fn first_shared(loads: &[ProgramHeader]) -> Option<ElfFault>
    ensures { result ≡ first_overlap loads.now }
{
    for i in 0..loads.len() {
        if let Some(fault) = overlap_with(&loads[i], &loads[i + 1..]) {
            return Some(fault);
        }
    }
    None
}

/// The fault of the PT_LOADs.
pub fn loads_fault(file: &[u8], loads: &[ProgramHeader]) -> Option<ElfFault>
    ensures { result ≡ first (loads_faults file.now loads.now) }
{
    if loads.len() > LOAD_LIMIT {
        return Some(ElfFault::TooMany(loads.len() as u64));
    }
    if let Some(fault) = fault_of_loads(file, loads) {
        return Some(fault);
    }
    let total = total(loads);
    if total > MEMORY_LIMIT {
        return Some(ElfFault::TooBig(total));
    }
    first_shared(loads)
}
