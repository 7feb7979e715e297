//! The fields of the section headers and of the symbols.

ghost use Rattle.std.specs.Prelude.{◌≡◌, ◌+◌, ◌*◌, ◌<◌, ◌≤◌, ◌/◌, None, length, map};
ghost use Rattle.std.specs.List.{range_with_len};
ghost use Rattle.elf_image.specs.Fault.{first};
ghost use Rattle.elf_image.specs.Header.{section_at, section_count, section_place, symbol_table};
ghost use Rattle.elf_image.specs.Symbol.{entry_at};
ghost use Rattle.elf_image.specs.inner.Faults.{cut_section};

use crate::header::{double_at, half_at, word_at};
use crate::numbers::{
    E_SHNUM, E_SHOFF, SECTION_HEADER_SIZE, SHN_UNDEF, SHT_SYMTAB, STT_FUNC, SYMBOL_SIZE,
};

/// What is read of a section header.
#[derive(Clone, Copy)]
pub struct SectionHeader {
    pub kind: u32,
    pub offset: u64,
    pub size: u64,
    pub link: u32,
    pub entry_size: u64,
}

/// What is read of an entry of a symbol table. `name` is an offset in the string table.
#[derive(Clone, Copy, Debug)]
pub struct SymbolEntry {
    pub name: u32,
    pub info: u8,
    pub section: u16,
    pub value: u64,
}

impl SymbolEntry {
    ghost use Rattle.elf_image.specs.Symbol.{is_function};

    /// Whether it is a function in a section.
    pub fn is_function(&self) -> bool
        ensures { result ≡ is_function self.now }
    {
        self.info % 16 == STT_FUNC && self.section != SHN_UNDEF
    }
}

/// How many section headers there are.
pub fn count_sections(file: &[u8]) -> u64
    requires { 64 ≤ length file.now }
    ensures { result ≡ section_count file.now }
{
    if double_at(file, E_SHOFF) == 0 {
        return 0;
    }
    u64::from(half_at(file, E_SHNUM))
}

/// Section header `index`.
pub fn read_section(file: &[u8], index: u64) -> SectionHeader
    requires long { 64 ≤ length file.now }
    requires whole { section_place file.now index + 64 ≤ length file.now }
    ensures { result ≡ section_at file.now index }
{
    let offset = (double_at(file, E_SHOFF) + SECTION_HEADER_SIZE * index) as usize;
    SectionHeader {
        kind: word_at(file, offset + 4),
        offset: double_at(file, offset + 24),
        size: double_at(file, offset + 32),
        link: word_at(file, offset + 40),
        entry_size: double_at(file, offset + 56),
    }
}

/// The first section of type SHT_SYMTAB.
pub fn find_symbol_table(file: &[u8]) -> Option<SectionHeader>
    requires long { 64 ≤ length file.now }
    requires whole { first (map (cut_section file.now) (range_with_len 0 (section_count file.now)))
        ≡ None }
    ensures { result ≡ symbol_table file.now }
{
    let count = count_sections(file);
    for i in 0..count {
        let section = read_section(file, i);
        if section.kind == SHT_SYMTAB {
            return Some(section);
        }
    }
    None
}

/// Entry `index` of a symbol table.
pub fn read_entry(file: &[u8], table: &SectionHeader, index: u64) -> SymbolEntry
    requires inside { table.now.offset + table.now.size ≤ length file.now }
    requires whole { index < table.now.size / 24 }
    ensures { result ≡ entry_at file.now table.now index }
{
    let offset = (table.offset + SYMBOL_SIZE * index) as usize;
    SymbolEntry {
        name: word_at(file, offset),
        info: file[offset + 4],
        section: half_at(file, offset + 6),
        value: double_at(file, offset + 8),
    }
}
