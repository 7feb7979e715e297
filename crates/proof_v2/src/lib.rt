//! Proof texts of each version, read and checked by their first lines, and those of version 1 as
//! texts of version 2.
//!
//! `check_file(alloc, &image, name, size, &mut shelf)` judges the text that a name holds, line by
//! line, for an ELF file that was read, in the version that its first line names: a text of version
//! 2 by its tables, and each other with the further rule of its version. This is the program's
//! check. No crate of the decompiler is below it. `check_any_bytes`, `check_linked` and
//! `check_split` judge a text in memory, of the versions 1 and 2, 3, and 4. `reader_of(alloc,
//! &text)` reads a text in the version that it names.
//!
//! `short_line` gives the short line for a line of version 1 that is right after the lines before
//! it, and puts its terms into the table of its group, in the order in which they are first used.
#![tactic(auto)]

mod any_reader;
mod check;
mod counted;
mod further;
mod laws;
mod lines;
mod preconditions;
mod short_reading;
mod spelled_rows;
mod text_laws;
mod texts;
mod title;

pub use any_reader::{AnyLine, AnyReader, reader_of};
pub use check::{check_any, check_any_bytes, check_file, check_linked, check_split};
pub use counted::{CountedText, migrate_image};
pub use laws::{law_of_fine_lines, law_of_migration, law_of_new_tables};
pub use lines::short_line;
pub use text_laws::law_of_migrated_texts;
pub use texts::migrate;
pub use title::named_version;
