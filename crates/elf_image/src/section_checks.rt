//! The conditions on sections and symbols under which a file is not read.

ghost use Rattle.std.specs.Prelude.{◌≡◌, ◌+◌, ◌≤◌, ℕ, None, length, map, nat_lt, not};
ghost use Rattle.std.specs.List.{list_any, range_with_len};
ghost use Rattle.elf_image.specs.Fault.{cut_at, first, section_faults, symbol_faults};
ghost use Rattle.elf_image.specs.Header.{section_count};
ghost use Rattle.elf_image.specs.Symbol.{functions, is_ended};
ghost use Rattle.elf_image.specs.inner.Faults.{cut_section};

use crate::checks::first_cut;
use crate::fault::ElfFault;
use crate::header::{double_at, half_at};
use crate::numbers::{E_SHENTSIZE, E_SHOFF, SECTION_HEADER_SIZE, SYMBOL_SIZE};
use crate::section::{SectionHeader, count_sections, find_symbol_table, read_entry, read_section};

/// The first fault that the sections show.
pub fn section_fault(file: &[u8]) -> Option<ElfFault>
    requires { 64 ≤ length file.now }
    ensures { result ≡ first (section_faults file.now) }
{
    let entry_size = u64::from(half_at(file, E_SHENTSIZE));
    if count_sections(file) != 0 && entry_size != SECTION_HEADER_SIZE {
        return Some(ElfFault::Entry(entry_size));
    }
    if let Some(fault) = sections_fault(file) {
        return Some(fault);
    }
    let table = find_symbol_table(file)?;
    symbols_fault(file, &table)
}

/// The fault of the first section header that doesn't lie in the file.
fn sections_fault(file: &[u8]) -> Option<ElfFault>
    requires { 64 ≤ length file.now }
    ensures { result
        ≡ first (map (cut_section file.now) (range_with_len 0 (section_count file.now))) }
{
    let table = double_at(file, E_SHOFF);
    first_cut(file, table, SECTION_HEADER_SIZE, count_sections(file))
}

/// The first fault of a symbol table and of its string table.
fn symbols_fault(file: &[u8], table: &SectionHeader) -> Option<ElfFault>
    requires long { 64 ≤ length file.now }
    requires whole { first (map (cut_section file.now) (range_with_len 0 (section_count file.now)))
        ≡ None }
    ensures { result ≡ first (symbol_faults file.now table.now) }
{
    if table.entry_size != SYMBOL_SIZE {
        return Some(ElfFault::Entry(table.entry_size));
    }
    if let Some(fault) = bytes_fault(file, table) {
        return Some(fault);
    }
    let link = u64::from(table.link);
    if link >= count_sections(file) {
        return Some(ElfFault::Symbols);
    }
    let strings = read_section(file, link);
    if let Some(fault) = bytes_fault(file, &strings) {
        return Some(fault);
    }
    let start = strings.offset as usize;
    if has_endless_name(file, table, &file[start..start + strings.size as usize]) {
        return Some(ElfFault::Symbols);
    }
    None
}

/// The fault of a section whose bytes don't lie in the file.
fn bytes_fault(file: &[u8], section: &SectionHeader) -> Option<ElfFault>
    ensures { result ≡ cut_at file.now section.now.offset section.now.size }
{
    let len = file.len() as u64;
    if section.offset > len || section.size > len - section.offset {
        return Some(ElfFault::Cut(section.offset));
    }
    None
}

/// Whether the name of a function of a symbol table has no end in the string table.
fn has_endless_name(file: &[u8], table: &SectionHeader, strings: &[u8]) -> bool
    requires { table.now.offset + table.now.size ≤ length file.now }
    ensures { result
        ≡ list_any (λ e. not (is_ended strings.now e.name)) (functions file.now table.now) }
{
    let end = end_of_strings(strings);
    for i in 0..table.size / SYMBOL_SIZE {
        let entry = read_entry(file, table, i);
        if entry.is_function() && entry.name as usize >= end {
            return true;
        }
    }
    false
}

/// The offset after the last zero byte: a string has an end where it begins below that offset.
fn end_of_strings(strings: &[u8]) -> usize
    ensures { (offset : ℕ) → is_ended strings.now offset ≡ nat_lt offset result }
{
    let mut end = strings.len();
    while end > 0 && strings[end - 1] != 0 {
        end -= 1;
    }
    end
}
