//! The ELF file of a program (System V gABI, "ELF Header" and "Program Header").

ghost use Rattle.std.specs.Prelude.{◌≡◌, ◌++◌, ◌≤◌, ◌^◌, IfOk, OnOk, length};
ghost use Rattle.std.specs.List.{flat_map};
ghost use Rattle.code_gen.specs.ElfFile as spec;
ghost use Rattle.code_gen.specs.ElfFile.{elf_of, field_bytes, little};

use rv_words::{Bytes, List, NoMemory};
use std::alloc::Global;

/// A number of so many bytes.
#[derive(Clone, Copy)]
pub struct Field {
    pub size: usize,
    pub value: u64,
}

/// Where the program stands in memory.
pub const START: u64 = 0x10000;

/// The file of these instruction words, which stand from address 0x10000 on and are entered there.
#[tactic(auto, unfolding(crate::specs::ElfFile::elf_of))]
pub fn elf_file(alloc: Global, words: &List<u32>) -> Result<Bytes, NoMemory>
    requires { length words.now ≤ 2 ^ 20 }
    ensures { IfOk result (λ bytes. bytes ≡ elf_of words.now) }
{
    let mut bytes = identification(alloc)?;
    put_fields(&mut bytes, &fields(4 * words.len() as u64))?;
    put_words(&mut bytes, words.as_slice())?;
    Ok(bytes)
}

/// The first bytes of the file: the letters, 64-bit numbers with the low byte first, the version.
fn identification(alloc: Global) -> Result<Bytes, NoMemory>
    ensures { IfOk result (λ bytes. bytes ≡ spec.identification) }
{
    let letters = [0x7f, 0x45, 0x4c, 0x46, 2, 1, 1, 0, 0, 0, 0, 0, 0, 0, 0, 0];
    Bytes::from_slice(alloc, &letters)
}

/// The rest of the header, and the program header of so many bytes that stand after it.
fn fields(size: u64) -> [Field; 21]
    ensures { result ≡ spec.fields size }
{
    [
        of_size(2, 2),
        of_size(2, 243),
        of_size(4, 1),
        of_size(8, START),
        of_size(8, 64),
        of_size(8, 0),
        of_size(4, 0),
        of_size(2, 64),
        of_size(2, 56),
        of_size(2, 1),
        of_size(2, 64),
        of_size(2, 0),
        of_size(2, 0),
        of_size(4, 1),
        of_size(4, 5),
        of_size(8, 120),
        of_size(8, START),
        of_size(8, START),
        of_size(8, size),
        of_size(8, size),
        of_size(8, 4),
    ]
}

fn of_size(size: usize, value: u64) -> Field
    ensures { result ≡ spec.of_size size value }
{
    Field { size, value }
}

fn put_fields(bytes: &mut Bytes, fields: &[Field]) -> Result<(), NoMemory>
    ensures { OnOk result (bytes.new ≡ bytes.old ++ flat_map field_bytes fields.now) }
{
    for field in fields {
        put_number(bytes, field.size, field.value)?;
    }
    Ok(())
}

fn put_words(bytes: &mut Bytes, words: &[u32]) -> Result<(), NoMemory>
    ensures { OnOk result (bytes.new ≡ bytes.old ++ flat_map (little 4) words.now) }
{
    for &word in words {
        put_number(bytes, 4, u64::from(word))?;
    }
    Ok(())
}

/// Adds a number as so many bytes, the low one first.
fn put_number(bytes: &mut Bytes, size: usize, number: u64) -> Result<(), NoMemory>
    ensures { OnOk result (bytes.new ≡ bytes.old ++ little size number) }
{
    let mut rest = number;
    for _ in 0..size {
        bytes.push((rest % 256) as u8)?;
        rest /= 256;
    }
    Ok(())
}
