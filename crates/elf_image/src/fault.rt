//! Why a file is not read.

ghost use Rattle.std.specs.Prelude.{◌≡◌};
ghost use Rattle.elf_image.specs.declared.fault.ElfFault.TheVariants.{NoMemory as out_of_memory};

use rv_words::NoMemory;
use thiserror::Error;

/// Why a file is not read. Indices count all program headers from 0. Each variant but the last
/// stands for a condition on the file, and the first condition that holds is the fault.
#[derive(Clone, Copy, Debug, PartialEq, Eq, Error)]
pub enum ElfFault {
    /// The first four bytes aren't those of an ELF file.
    #[error("not-elf")]
    NotElf,
    /// It isn't a file of 64-bit objects.
    #[error("class")]
    Class,
    /// Its numbers don't stand low byte first.
    #[error("order")]
    Order,
    /// Its type, which is neither that of a program nor that of a shared object.
    #[error("kind {0}")]
    Kind(u64),
    /// Its machine, which isn't RISC-V.
    #[error("machine {0}")]
    Machine(u64),
    /// The offset at which a header, or what a header places, begins that doesn't lie in the file
    /// as a whole: 0 for the file's own header, 2^64 - 1 for what begins beyond that.
    #[error("cut {0}")]
    Cut(u64),
    /// The indices of two PT_LOADs that share an address.
    #[error("overlap {0} {1}")]
    Overlap(u64, u64),
    /// The index of a PT_LOAD that goes past the last address.
    #[error("wraps {0}")]
    Wraps(u64),
    /// The number of PT_LOADs.
    #[error("too-many {0}")]
    TooMany(u64),
    /// The symbol table links to no section, or the name of a function begins or ends nowhere in
    /// its string table.
    #[error("symbols")]
    Symbols,
    /// The size of a program header, a section header or a symbol that the file gives.
    #[error("entry {0}")]
    Entry(u64),
    /// The index of a PT_LOAD with more bytes in the file than in memory.
    #[error("sizes {0}")]
    Sizes(u64),
    /// The bytes of memory that the PT_LOADs take together.
    #[error("too-big {0}")]
    TooBig(u128),
    /// There was no memory. This says nothing of the file.
    #[error("no memory")]
    NoMemory,
}

impl From<NoMemory> for ElfFault {
    ghost from_gives = { λ _ fault. fault ≡ out_of_memory };

    fn from(_e: NoMemory) -> ElfFault {
        ElfFault::NoMemory
    }
}
