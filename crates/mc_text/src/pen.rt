//! Writing tokens, one after the other.
#![tactic(auto, unfolding(crate::specs::Printing::put), using(crate::proofs::Printed::writes))]

ghost use Rattle.std.specs.Prelude.{◌≡◌, ◌++◌, ◌∷◌, OnOk};
ghost use Rattle.std.specs.Fmt.{decimal};
ghost use Rattle.hex.specs.Hex.{encode_lower};
ghost use Rattle.mc_text.specs.Number.{hex as hex_text};
ghost use Rattle.mc_text.specs.Tokens.{Left, Right, Semi, Atom, Eol};
ghost use Rattle.mc_text.specs.Printing.{Keeps, begun, page, put};
ghost use Rattle.mc_text.specs.inner.Printing.{space};
ghost use Rattle.mc_text.specs.declared.token.Before.TheVariants.{Later};

use crate::put::{put_atom, put_bytes, put_dec, put_hex};
use crate::token::Before;
use rv_words::{Bytes, NoMemory};

/// Writes tokens at the end of a text, with a space between two of them where one belongs. Out of
/// memory, the text begins with what stood there before.
#[derive(Debug, Drop)]
pub struct Pen<'a> {
    out: &'a mut Bytes,
    before: Before,
}

impl<'a> Pen<'a> {
    /// Begins a line at the end of a text.
    pub fn new(out: &'a mut Bytes) -> Pen<'a>
        ensures { page result ≡ begun out.entry.ghost_name out.old }
    {
        Pen {
            out,
            before: Before::Start,
        }
    }

    /// Writes `(`.
    pub fn left(&mut self) -> Result<(), NoMemory>
        ensures ok { OnOk result (page self.new ≡ put Left (page self.old)) }
        ensures kept { Keeps (page self.old) (page self.new) }
    {
        self.space()?;
        self.out.push(b'(')?;
        self.before = Before::Open;
        Ok(())
    }

    /// Writes `)`.
    pub fn right(&mut self) -> Result<(), NoMemory>
        ensures ok { OnOk result (page self.new ≡ put Right (page self.old)) }
        ensures kept { Keeps (page self.old) (page self.new) }
    {
        self.out.push(b')')?;
        self.before = Before::Later;
        Ok(())
    }

    /// Writes `;`.
    pub fn semi(&mut self) -> Result<(), NoMemory>
        ensures ok { OnOk result (page self.new ≡ put Semi (page self.old)) }
        ensures kept { Keeps (page self.old) (page self.new) }
    {
        self.space()?;
        self.out.push(b';')
    }

    /// Writes `(` and the name after it.
    pub fn open(&mut self, name: &[u8]) -> Result<(), NoMemory>
        ensures ok { OnOk result (page self.new ≡ put (Atom name.now) (put Left (page self.old))) }
        ensures kept { Keeps (page self.old) (page self.new) }
    {
        self.left()?;
        self.atom(name)
    }

    /// Ends a line.
    pub fn eol(&mut self) -> Result<(), NoMemory>
        ensures ok { OnOk result (page self.new ≡ put Eol (page self.old)) }
        ensures kept { Keeps (page self.old) (page self.new) }
    {
        self.out.push(b'\n')?;
        self.before = Before::Start;
        Ok(())
    }

    /// Writes an atom.
    pub fn atom(&mut self, atom: &[u8]) -> Result<(), NoMemory>
        ensures ok { OnOk result (page self.new ≡ put (Atom atom.now) (page self.old)) }
        ensures kept { Keeps (page self.old) (page self.new) }
    {
        self.space()?;
        put_atom(self.out, atom)
    }

    /// Writes a number in decimal digits.
    pub fn dec(&mut self, n: u64) -> Result<(), NoMemory>
        ensures ok { OnOk result (page self.new ≡ put (Atom (decimal n)) (page self.old)) }
        ensures kept { Keeps (page self.old) (page self.new) }
    {
        self.space()?;
        put_dec(self.out, n)
    }

    /// Writes a number as `0x` and hexadecimal digits.
    pub fn hex(&mut self, n: u64) -> Result<(), NoMemory>
        ensures ok { OnOk result (page self.new ≡ put (Atom (hex_text n)) (page self.old)) }
        ensures kept { Keeps (page self.old) (page self.new) }
    {
        self.space()?;
        put_hex(self.out, n)
    }

    /// Writes bytes as one atom of two lower-case hexadecimal digits each.
    pub fn bytes(&mut self, bytes: &[u8]) -> Result<(), NoMemory>
        ensures ok { OnOk result (page self.new
            ≡ put (Atom (encode_lower bytes.now)) (page self.old)) }
        ensures kept { Keeps (page self.old) (page self.new) }
    {
        self.space()?;
        put_bytes(self.out, bytes)
    }

    /// Writes a letter and a number in decimal digits as one atom.
    pub fn numbered(&mut self, letter: u8, n: u32) -> Result<(), NoMemory>
        ensures ok { OnOk result (page self.new ≡ put (Atom (letter ∷ decimal n)) (page self.old)) }
        ensures kept { Keeps (page self.old) (page self.new) }
    {
        self.space()?;
        self.out.push(letter)?;
        put_dec(self.out, u64::from(n))
    }

    /// Writes the space between two tokens, where one belongs.
    fn space(&mut self) -> Result<(), NoMemory>
        ensures ok { OnOk result (page self.new
            ≡ record {
              place = (page self.old).place;
              bytes = (page self.old).bytes
                  ++ space (page self.old).before;
              before = Later;
            }) }
        ensures kept { Keeps (page self.old) (page self.new) }
    {
        if matches!(self.before, Before::Later) {
            self.out.push(b' ')?;
        }
        self.before = Before::Later;
        Ok(())
    }
}
