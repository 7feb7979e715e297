//! Numbers of the standard by its names (System V gABI, "ELF Header", "Sections", "Symbol Table"
//! and "Program Header"; `EM_RISCV` by the RISC-V ELF psABI): values of fields, sizes in bytes, and
//! where the fields stand.

/// The first bytes of each ELF file.
pub const ELFMAG: &[u8] = b"\x7fELF";

/// Where the first bytes have the class.
pub const EI_CLASS: usize = 4;

/// Objects of 64 bits.
pub const ELFCLASS64: u8 = 2;

/// Where they have the order of bytes.
pub const EI_DATA: usize = 5;

/// Low byte first.
pub const ELFDATA2LSB: u8 = 1;

/// How many bytes the header takes.
pub const HEADER_SIZE: usize = 64;

/// Where the header has the kind of file.
pub const E_TYPE: usize = 16;

/// Where it has the machine.
pub const E_MACHINE: usize = 18;

/// Where it has the place of the program headers.
pub const E_PHOFF: usize = 32;

/// Where it has the place of the section headers.
pub const E_SHOFF: usize = 40;

/// Where it has the size of a program header.
pub const E_PHENTSIZE: usize = 54;

/// Where it has the number of program headers.
pub const E_PHNUM: usize = 56;

/// Where it has the size of a section header.
pub const E_SHENTSIZE: usize = 58;

/// Where it has the number of section headers.
pub const E_SHNUM: usize = 60;

/// An executable file.
pub const ET_EXEC: u16 = 2;

/// A shared object, or an executable file that is loaded anywhere.
pub const ET_DYN: u16 = 3;

/// RISC-V.
pub const EM_RISCV: u16 = 243;

/// How many bytes a program header takes.
pub const PROGRAM_HEADER_SIZE: u64 = 56;

/// A segment that is loaded.
pub const PT_LOAD: u32 = 1;

/// How many bytes a section header takes.
pub const SECTION_HEADER_SIZE: u64 = 64;

/// A symbol table.
pub const SHT_SYMTAB: u32 = 2;

/// How many bytes an entry of a symbol table takes.
pub const SYMBOL_SIZE: u64 = 24;

/// A function.
pub const STT_FUNC: u8 = 2;

/// No section.
pub const SHN_UNDEF: u16 = 0;
