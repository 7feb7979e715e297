//! Proof texts of version 2: terms stand once in a table behind their group, and lines leave out
//! what can be computed.
//!
//! A [`ShortLine`] is what stands in one line behind a group's definitions: a term of the table, as
//! a [`term_arena::Node`] over the numbers of terms above it, or a [`Short`], a line of the proof
//! over the table. [`ShortLines`] reads them: it is lent at each call of `proof_text`'s readers,
//! and keeps the table of the group that is open. Its `read_spelled` gives a line as a
//! [`SpelledShort`], which has no copy of the group's own code.
//!
//! `let mut lines = ShortLines::new(alloc); let mut reader = Reader::of_version(text,
//! Version::Two);` Then `reader.next_group(alloc, &mut
//! lines)?` gives a group, and `reader.next_line(alloc, &group, &mut lines)?` its lines one by one.
//! What callers pass as the law of the lines is [`law_of_short_lines`]; [`law_of_short_texts`] says
//! that a text is that of one list of groups with their tables and lines.
#![tactic(auto)]

mod facts;
mod heads;
mod kind;
mod laws;
mod nodes;
mod places;
mod put;
mod short;
mod short_lines;
mod short_rows;
mod sides;
mod table;
mod table_rows;
mod terms;

pub use laws::{law_of_short_lines, law_of_short_parts, law_of_short_texts, law_of_tables};
pub use put::{put_short_line, put_table_line};
pub use short::{Short, ShortLine, SpelledShort};
pub use short_lines::ShortLines;
