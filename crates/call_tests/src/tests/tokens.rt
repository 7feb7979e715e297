//! What no clause says: that calls succeed while there is memory. The texts are written by hand.

use super::rows::{all, each};
use mc_text::*;
use rv_words::Bytes;
use std::alloc::Global;

/// A text, its tokens, and the line of the first place at which no token begins, if there is one.
type Text = (&'static [u8], &'static [Token<'static>], Option<u64>);

static TEXTS: [Text; 18] = [
    (b"", &[], None),
    (b"\n", &[Token::Eol], None),
    (b"\n\n", &[Token::Eol, Token::Eol], None),
    (
        b"ab c\n",
        &[Token::Atom(b"ab"), Token::Atom(b"c"), Token::Eol],
        None,
    ),
    (
        b"(a (b) ;)\n",
        &[
            Token::Left,
            Token::Atom(b"a"),
            Token::Left,
            Token::Atom(b"b"),
            Token::Right,
            Token::Semi,
            Token::Right,
            Token::Eol,
        ],
        None,
    ),
    (b"(;\n", &[Token::Left, Token::Semi, Token::Eol], None),
    (
        b"!\n~\n",
        &[Token::Atom(b"!"), Token::Eol, Token::Atom(b"~"), Token::Eol],
        None,
    ),
    (b"a", &[Token::Atom(b"a")], Some(1)),
    (
        b"a\nb",
        &[Token::Atom(b"a"), Token::Eol, Token::Atom(b"b")],
        Some(2),
    ),
    (b"a  b\n", &[Token::Atom(b"a")], Some(1)),
    (b"a \n", &[Token::Atom(b"a")], Some(1)),
    (b"\n a\n", &[Token::Eol], Some(2)),
    (b"( a\n", &[Token::Left], Some(1)),
    (b"(a )\n", &[Token::Left, Token::Atom(b"a")], Some(1)),
    (b"a;\n", &[Token::Atom(b"a")], Some(1)),
    (b")a\n", &[Token::Right], Some(1)),
    (b"a\tb\n", &[Token::Atom(b"a")], Some(1)),
    (b"\n\n\x7f\n", &[Token::Eol, Token::Eol], Some(3)),
];

/// Whether the text has these tokens, and then a place where no token begins or its end, however
/// often one asks.
fn scans_as((text, tokens, bad): Text) -> bool {
    let mut scan = Scan::new(text);
    for token in tokens {
        match scan.next() {
            Ok(found) if found == *token => {}
            _ => return false,
        }
    }
    match bad {
        None => scan.next() == Ok(Token::Done) && scan.next() == Ok(Token::Done),
        Some(line) => {
            let refused = Err(BadText { line });
            scan.next() == refused && scan.next() == refused && scan.line() == line
        }
    }
}

#[test]
fn texts_have_their_tokens(rt: HostRuntime) {
    assert!(rt; all(&TEXTS, scans_as));
}

/// An atom, and the number that it spells in decimal and in hexadecimal digits.
type Atom = (&'static [u8], Option<u64>, Option<u64>);

static NUMBERS: [Atom; 17] = [
    (b"0", Some(0), None),
    (b"10", Some(10), None),
    (b"18446744073709551615", Some(u64::MAX), None),
    (b"18446744073709551616", None, None),
    (b"", None, None),
    (b"00", None, None),
    (b"01", None, None),
    (b"+1", None, None),
    (b"-1", None, None),
    (b"1a", None, None),
    (b"0x", None, None),
    (b"0x0", None, Some(0)),
    (b"0x1f", None, Some(31)),
    (b"0x0a", None, None),
    (b"0xA", None, None),
    (b"0xffffffffffffffff", None, Some(u64::MAX)),
    (b"0x10000000000000000", None, None),
];

fn spells_numbers((atom, decimal, hexadecimal): Atom) -> bool {
    dec(atom) == decimal && hexnum(atom) == hexadecimal
}

/// An atom, and the bytes that it spells.
type Digits = (&'static [u8], Option<&'static [u8]>);

static BYTES: [Digits; 7] = [
    (b"00", Some(&[0])),
    (b"0fa0", Some(&[15, 160])),
    (b"", None),
    (b"0", None),
    (b"0fa", None),
    (b"0F", None),
    (b"0g", None),
];

/// Whether the atom spells these bytes, or none.
fn spells_bytes(alloc: Global, (atom, bytes): Digits) -> bool {
    match (hex_bytes(alloc, atom), bytes) {
        (Ok(Some(found)), Some(bytes)) => found.as_slice() == bytes,
        (Ok(None), None) => true,
        _ => false,
    }
}

#[test]
fn atoms_spell_numbers_and_bytes(rt: HostRuntime) {
    assert!(rt; all(&NUMBERS, spells_numbers));
    assert!(rt; each(rt.alloc(), &BYTES, spells_bytes));
}

/// Whether an atom, numbers and bytes are put at the end.
fn some_are_put(alloc: Global) -> bool {
    let mut out = Bytes::new(alloc);
    let word = put_atom(&mut out, b"a ").is_ok() & put_dec(&mut out, u64::MAX).is_ok();
    let number = put_atom(&mut out, b" ").is_ok() & put_hex(&mut out, 0x30_00f0).is_ok();
    let bytes = put_bytes(&mut out, &[]).is_ok() & put_bytes(&mut out, &[0, 0xfe]).is_ok();
    let is_text = out.as_slice() == b"a 18446744073709551615 0x3000f000fe".as_slice();
    word & number & bytes & is_text
}

/// Whether numbers stand at the front in decimal digits.
fn decimals_stand() -> bool {
    let mut digits = [b'.'; 20];
    let small = (dec_into(407, &mut digits) == 3) & digits.starts_with(b"407.");
    small & (dec_into(u64::MAX, &mut digits) == 20) & digits.ends_with(b"615")
}

/// .. in hexadecimal digits.
fn hexadecimals_stand() -> bool {
    let mut digits = [b'.'; 18];
    let small = (hex_into(0, &mut digits) == 3) & digits.starts_with(b"0x0.");
    small & (hex_into(u64::MAX, &mut digits) == 18) & digits.ends_with(b"fff")
}

/// Whether a fork goes on by itself.
fn a_fork_goes_on() -> bool {
    let mut scan = Scan::new(b"a b\n");
    let mut fork = scan.fork();
    let first = (fork.next() == Ok(Token::Atom(b"a"))) & (fork.rest() == b" b\n".as_slice());
    let rest = scan.rest() == b"a b\n".as_slice();
    first & rest & (scan.next() == Ok(Token::Atom(b"a")))
}

#[test]
fn what_is_put_stands_in_its_place(rt: HostRuntime) {
    assert!(rt; some_are_put(rt.alloc()));
    assert!(rt; decimals_stand() & hexadecimals_stand());
    assert!(rt; a_fork_goes_on());
}
