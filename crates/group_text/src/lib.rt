//! Terms, and groups of definitions, as text, each written in one way, and the rows of which such a
//! text is made.
//!
//! `read_word(alloc, &mut scan, room)?` reads a term that is at most `room` deep, and
//! `put_word(&mut pen, &t)?` writes it; likewise `mem`, `cond` and `range`. Their grammar stands at
//! the head of `specs/TermSpelling.antt`.
//!
//! `read_turn` gives the next group of a text, row by row, from any `Rows`: `TextRows` are those of
//! a text in memory. `put_title`, `put_group` and `put_end` write a text. A `Version` is what the
//! versions of a text differ in. The grammar stands at the head of `specs/Spelling.antt`, and what
//! numbers and sizes a group may have in `specs/Limits.antt`.
//!
//! The laws that matter are `law_of_parts`, that a text is what these calls append, one after the
//! other; `law_of_faults`, that a text which is none is so from one line on; and
//! `law_of_one_spelling`: tokens begin with the spelling of one term at most.
#![tactic(auto)]

mod bodies;
mod body_rows;
mod group;
mod heads;
mod laws;
mod lines;
mod next_rows;
mod one_spelling;
mod put;
mod put_terms;
mod read_error;
mod read_terms;
mod rows;
mod term_ahead;
mod term_heads;
mod term_lists;
mod term_names;
mod text_rows;
mod version;

pub use body_rows::read_index;
pub use group::{read_defs, read_head, read_turn};
pub use heads::{Head, has_atom, ranges_rise, read_name, read_register};
pub use laws::{law_of_faults, law_of_parts};
pub use lines::{is_end, whole_lines};
pub use next_rows::{MarkRow, ReadRow, RowStart, next_row, row_begins};
pub use one_spelling::law_of_one_spelling;
pub use put::{
    put_bare_line, put_defs, put_end, put_group, put_group_lines, put_head, put_mems, put_ranges,
    put_title, put_values,
};
pub use put_terms::{put_cond, put_mem, put_range, put_word};
pub use read_error::{ReadError, RowError, TextFault};
pub use read_terms::{read_cond, read_mem, read_range, read_word, variable_of};
pub use rows::Rows;
pub use term_ahead::{begins_mem, begins_word};
pub use term_lists::{read_mems, read_ranges, read_words};
pub use term_names::{
    name_of_comparison, name_of_extension, name_of_inside, name_of_load, name_of_operation,
    name_of_store,
};
pub use text_rows::TextRows;
pub use version::Version;
