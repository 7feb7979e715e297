//! The fields of the header and of the program headers.

ghost use Rattle.std.specs.Prelude.{◌≡◌, ◌+◌, ◌*◌, ◌≤◌, length};
ghost use Rattle.elf_image.specs.Header.{header_at, header_place, number_at};

use crate::numbers::{E_PHOFF, PROGRAM_HEADER_SIZE};
use byteorder::{ByteOrder, LittleEndian};

/// What is read of a program header, and its offset in the table.
#[derive(Clone, Copy)]
pub struct ProgramHeader {
    pub index: u64,
    pub kind: u32,
    pub flags: u32,
    pub offset: u64,
    pub address: u64,
    pub file_size: u64,
    pub memory_size: u64,
}

/// The number of two bytes at an offset.
#[tactic(auto, unfolding(crate::specs::Header::number_at))]
pub fn half_at(file: &[u8], offset: usize) -> u16
    requires { offset + 2 ≤ length file.now }
    ensures { result ≡ number_at offset 2 file.now }
{
    LittleEndian::read_u16(&file[offset..])
}

/// The number of four bytes at an offset.
#[tactic(auto, unfolding(crate::specs::Header::number_at))]
pub fn word_at(file: &[u8], offset: usize) -> u32
    requires { offset + 4 ≤ length file.now }
    ensures { result ≡ number_at offset 4 file.now }
{
    LittleEndian::read_u32(&file[offset..])
}

/// The number of eight bytes at an offset.
#[tactic(auto, unfolding(crate::specs::Header::number_at))]
pub fn double_at(file: &[u8], offset: usize) -> u64
    requires { offset + 8 ≤ length file.now }
    ensures { result ≡ number_at offset 8 file.now }
{
    LittleEndian::read_u64(&file[offset..])
}

/// Program header `index`.
pub fn read_header(file: &[u8], index: u64) -> ProgramHeader
    requires long { 64 ≤ length file.now }
    requires whole { header_place file.now index + 56 ≤ length file.now }
    ensures { result ≡ header_at file.now index }
{
    let offset = (double_at(file, E_PHOFF) + PROGRAM_HEADER_SIZE * index) as usize;
    ProgramHeader {
        index,
        kind: word_at(file, offset),
        flags: word_at(file, offset + 4),
        offset: double_at(file, offset + 8),
        address: double_at(file, offset + 16),
        file_size: double_at(file, offset + 32),
        memory_size: double_at(file, offset + 40),
    }
}
