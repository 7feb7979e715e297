//! Reading a file.

ghost use Rattle.std.specs.Prelude.{◌≡◌, ◌≢◌, ℕ, ◌+◌, ◌≤◌, None, Some, IfOk, IfErr, OnOk, length, map, nat_lt};
ghost use Rattle.std.specs.List.{prefix_len, range_with_len};
ghost use Rattle.elf_image.specs.Fault.{IsReadable, fault_of, first, first_overlap, load_fault, section_faults};
ghost use Rattle.elf_image.specs.Header.{header_count, loads};
ghost use Rattle.elf_image.specs.Image.{ArePlaced, IsPlaced, IsRising, before, image_of, piece_of, pieces_at, pieces_of, rising};
ghost use Rattle.elf_image.specs.Symbol.{functions, symbols_of};
ghost use Rattle.elf_image.specs.inner.Faults.{cut_header};

use crate::checks::{header_fault, loads_fault, table_fault};
use crate::fault::ElfFault;
use crate::header::{ProgramHeader, half_at, read_header};
use crate::image::{Image, Piece};
use crate::numbers::{E_PHNUM, PT_LOAD, SYMBOL_SIZE};
use crate::section::{SectionHeader, SymbolEntry, find_symbol_table, read_entry, read_section};
use crate::section_checks::section_fault;
use crate::symbol::Symbols;
use rv_words::{Bytes, List, NoMemory};
use std::alloc::Global;

/// The program headers of type PT_LOAD, in table order.
fn read_loads(alloc: Global, file: &[u8]) -> Result<Vec<ProgramHeader>, NoMemory>
    requires long { 64 ≤ length file.now }
    requires whole { first (map (cut_header file.now) (range_with_len 0 (header_count file.now)))
        ≡ None }
    ensures { IfOk result (λ headers. headers.items ≡ loads file.now) }
{
    let mut headers = Vec::new(alloc);
    let count = u64::from(half_at(file, E_PHNUM));
    for i in 0..count {
        let header = read_header(file, i);
        if header.kind == PT_LOAD {
            headers.push(header)?;
        }
    }
    Ok(headers)
}

/// What a PT_LOAD puts into memory.
fn read_piece(alloc: Global, file: &[u8], header: ProgramHeader) -> Result<Piece, NoMemory>
    requires { load_fault file.now header ≡ None }
    ensures piece { IfOk result (λ piece. piece ≡ piece_of file.now header) }
    ensures placed { IfOk result IsPlaced }
{
    let start = header.offset as usize;
    let from = Bytes::from_slice(alloc, &file[start..start + header.file_size as usize])?;
    Ok(Piece {
        at: header.address,
        flags: header.flags,
        size: header.memory_size,
        from,
    })
}

/// How many pieces there are before the first that doesn't begin below an address.
fn count_below(pieces: &[Piece], at: u64) -> usize
    ensures within { result ≤ length pieces.now }
    ensures below { result ≡ prefix_len (λ p. nat_lt p.at at) pieces.now }
{
    pieces.iter().take_while(|piece| piece.at < at).count()
}

/// Puts a piece in front of the first that doesn't begin below it.
fn insert_before(pieces: &mut Vec<Piece>, piece: Piece) -> Result<(), NoMemory>
    ensures ok { OnOk result (pieces.new.items ≡ before piece pieces.old.items) }
{
    let i = count_below(pieces, piece.at);
    pieces.insert(i, piece)?;
    Ok(())
}

/// What PT_LOADs put into memory, in rising order of address.
fn read_pieces(
    alloc: Global,
    file: &[u8],
    headers: &[ProgramHeader],
) -> Result<Vec<Piece>, NoMemory>
    requires each { first (map (load_fault file.now) headers.now) ≡ None }
    requires together { first_overlap headers.now ≡ None }
    ensures pieces { IfOk result (λ pieces.
        pieces.items ≡ rising (map (piece_of file.now) headers.now)) }
    ensures placed { IfOk result (λ pieces. ArePlaced pieces.items) }
{
    let mut pieces = Vec::with_capacity(alloc, headers.len())?;
    let mut i = headers.len();
    while i > 0 {
        i -= 1;
        let piece = read_piece(alloc, file, headers[i])?;
        insert_before(&mut pieces, piece)?;
    }
    Ok(pieces)
}

/// The functions of a symbol table, in table order.
fn read_functions(
    alloc: Global,
    file: &[u8],
    table: &SectionHeader,
) -> Result<List<SymbolEntry>, NoMemory>
    requires { table.now.offset + table.now.size ≤ length file.now }
    ensures { IfOk result (λ list. list ≡ functions file.now table.now) }
{
    let count = table.size / SYMBOL_SIZE;
    let mut entries = Vec::with_capacity(alloc, count as usize)?;
    for i in 0..count {
        let entry = read_entry(file, table, i);
        if entry.is_function() {
            entries.push(entry)?;
        }
    }
    Ok(List::from_vec(entries))
}

/// The function symbols of a file.
fn read_symbols(alloc: Global, file: &[u8]) -> Result<Symbols, NoMemory>
    requires long { 64 ≤ length file.now }
    requires faultless { first (section_faults file.now) ≡ None }
    ensures { IfOk result (λ symbols. symbols ≡ symbols_of file.now) }
{
    let Some(table) = find_symbol_table(file) else {
        return Ok(Symbols::of(List::new(alloc), List::new(alloc)));
    };
    let strings = read_section(file, u64::from(table.link));
    let start = strings.offset as usize;
    let strings = Bytes::from_slice(alloc, &file[start..start + strings.size as usize])?;
    let functions = read_functions(alloc, file, &table)?;
    Ok(Symbols::of(strings, functions))
}

/// What a file (System V ABI, ELF-64 object files; RISC-V ELF psABI) puts into memory, and its
/// function symbols, or why it is not read.
pub fn read(alloc: Global, file: &[u8]) -> Result<Image, ElfFault>
    ensures readable { OnOk result (IsReadable file.now) }
    ensures image { IfOk result (λ image. image ≡ image_of file.now) }
    ensures rising { IfOk result (λ image. IsRising image.pieces) }
    ensures table_order { IfOk result (λ image.
        (a : ℕ) → pieces_at a image.pieces ≡ pieces_at a (pieces_of file.now)) }
    ensures fault { IfErr result (λ fault.
        fault ≢ ElfFault.NoMemory → fault_of file.now ≡ Some fault) }
{
    if let Some(fault) = header_fault(file) {
        return Err(fault);
    }
    if let Some(fault) = table_fault(file) {
        return Err(fault);
    }
    let headers = read_loads(alloc, file)?;
    if let Some(fault) = loads_fault(file, &headers) {
        return Err(fault);
    }
    if let Some(fault) = section_fault(file) {
        return Err(fault);
    }
    let pieces = read_pieces(alloc, file, &headers)?;
    let symbols = read_symbols(alloc, file)?;
    Ok(Image::of(pieces, symbols))
}
