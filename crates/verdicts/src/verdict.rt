//! What a check comes to.

use elf_image::ElfFault;

/// The verdict on a file and a text.
#[derive(Clone, Copy, Debug, PartialEq, Eq)]
pub enum Verdict {
    /// All is right: so many groups, each of which lists a function, with so many lines of proofs.
    Accepted { functions: u64, lines: u64 },
    /// The ELF file can't be read. The fault is never `NoMemory`.
    BadElf(ElfFault),
    /// The text's line of that number is missing, or no text of proofs goes on with it.
    BadText(u64),
    /// In the group of that number, this definition isn't well-formed.
    BadDef(u64, u32),
    /// The text's line of that number states what doesn't follow.
    BadLine(u64),
    /// The group of that number isn't proved, or its code isn't the file's.
    NotProved(u64),
    NoMemory,
}

/// What the check of a text in a file comes to.
#[derive(Clone, Copy, Debug, PartialEq, Eq)]
pub enum Pulled {
    Verdict(Verdict),
    /// The outside failed while the text was read.
    Fault,
}
