//! Tokens.

/// A token of a text.
#[derive(Clone, Copy, Debug, PartialEq, Eq)]
pub enum Token<'a> {
    /// `(`
    Left,
    /// `)`
    Right,
    /// `;`
    Semi,
    /// A run of bytes from 0x21 to 0x7e other than these three.
    Atom(&'a [u8]),
    /// The end of a line: the byte 10.
    Eol,
    /// The end of the text, at the beginning of a line.
    Done,
}

/// No token begins at the scanner's place.
#[derive(Clone, Copy, Debug, PartialEq, Eq)]
pub struct BadText {
    /// The line of that place, from 1.
    pub line: u64,
}

/// What stands before a place of a line.
#[derive(Clone, Copy, Debug, PartialEq, Eq)]
pub enum Before {
    /// Nothing: the line begins here.
    Start,
    /// A left parenthesis.
    Open,
    /// Another token.
    Later,
}

/// What a byte is part of.
#[derive(Clone, Copy, PartialEq, Eq)]
pub enum Class {
    Letter,
    LeftMark,
    RightMark,
    SemiMark,
    Newline,
    Space,
    Other,
}
