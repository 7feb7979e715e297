//! The files that commands read: an ELF file's image, and the answer where a file isn't read.

ghost use Rattle.std.specs.Prelude.{◌≡◌, IfErr, IfOk};
ghost use Rattle.mc_shelf.specs.Fault.{Rose};
ghost use Rattle.mc_shelf.specs.Shelf.{TellsName};
ghost use Rattle.mcdec_answers.specs.Printed.{status};
ghost use Rattle.mcdec_commands.specs.inner.Loading.{IsImageIn, IsNotLoaded, not_read};
ghost use Rattle.mcdec_commands.specs.inner.Shelves.{ReadsFiles};

use elf_image::{ElfFault, Image, read};
use mc_shelf::{ReadEnd, Shelf, read_file};
use mcdec_answers::Answer;
use std::alloc::Global;

/// The most bytes of an ELF file that are read.
const ELF_LIMIT: u64 = 67_108_864;

/// The most bytes of a proof file that are read.
pub const PROOF_LIMIT: u64 = 268_435_456;

/// The most bytes of a certificate's file that are read.
pub const CERT_LIMIT: u64 = 268_435_456;

/// Why there is no image of an ELF file.
#[derive(Clone, Copy)]
pub enum LoadFault {
    /// The file wasn't read, or there was no memory.
    Unread(ReadEnd),
    /// The file has this fault.
    Unreadable(ElfFault),
}

/// The image of the ELF file that a name holds. The file is let go.
pub fn load_image<S: Shelf>(alloc: Global, shelf: &mut S, elf: &str) -> Result<Image, LoadFault>
    // It is that of what the name holds, where that is told.
    ensures image { IfOk result (IsImageIn (S.contents shelf.old) elf.now) }
    ensures fault { IfErr result (IsNotLoaded (S.contents shelf.old) elf.now
        (Rose (S.read_faults shelf.old) (S.read_faults shelf.new))) }

    ensures shelf { ReadsFiles S.contents S.read_faults S.write_faults S.IsSure
        (λ told. TellsName told elf.now) shelf.old shelf.new }
{
    let file = match read_file(alloc, shelf, elf, ELF_LIMIT) {
        Ok(file) => file,
        Err(end) => return Err(LoadFault::Unread(end)),
    };
    match read(alloc, file.as_slice()) {
        Ok(image) => Ok(image),
        Err(ElfFault::NoMemory) => Err(LoadFault::Unread(ReadEnd::NoMemory)),
        Err(why) => Err(LoadFault::Unreadable(why)),
    }
}

/// The answer where a file wasn't read, by the one that tells that it is over its limit.
pub fn not_read(end: ReadEnd, over_limit: Answer) -> Answer
    requires { status over_limit ≡ 7 }
    ensures answer { result ≡ not_read over_limit end }
    ensures refused { status result ≡ 0 → ⊥ }
    ensures no_fault { status result ≡ 5 → ⊥ }
{
    match end {
        ReadEnd::Fault => Answer::ReadFault,
        ReadEnd::TooLong => over_limit,
        ReadEnd::NoMemory => Answer::NoMemory,
    }
}
