//! Texts made of lines of tokens: their tokens, numbers and bytes, read and written in one
//! spelling.
//!
//! A `Scan` goes over a text: `scan.next()?` gives the next `Token`, or `BadText` where none
//! begins. `cursor` has what reads rows of them: `keyword(&mut scan, b"def")?`,
//! `number(&mut scan, limit)?`, `address(&mut scan)?`. A `Pen` writes them: `pen.open(b"add")?`,
//! `pen.hex(n)?`, `pen.eol()?`. `dec` and `hexnum` read numbers, `put_dec` and `put_hex` write
//! them.
//!
//! The laws that matter are `law_of_one_spelling`, that numbers and bytes have one spelling each,
//! and `law_of_tokens`, that at most one token stands at a place of a text.
#![tactic(auto)]

mod bytes;
pub mod cursor;
mod digits;
mod laws;
mod number;
mod pen;
mod put;
mod scan;
mod token;

pub use bytes::hex_bytes;
pub use cursor::TokenError;
pub use laws::{law_of_one_spelling, law_of_tokens};
pub use number::{dec, hexnum};
pub use pen::Pen;
pub use put::{dec_into, digit_pair, hex_into, put_atom, put_bytes, put_dec, put_hex};
pub use scan::{Scan, is_atom, is_atom_byte};
pub use token::{BadText, Token};
