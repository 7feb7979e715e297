//! Writing numbers, atoms and bytes.

ghost use Rattle.std.specs.Prelude.{◌≡◌, ◌++◌, ◌∷◌, [], take, drop, length, OnOk, OnErr};
ghost use Rattle.std.specs.Fmt.{decimal};
ghost use Rattle.hex.specs.Hex.{encode_lower};
ghost use Rattle.mc_text.specs.Number.{hex as hex_text};

use crate::digits::HexBuffer;
use itoa::Buffer;
use rv_words::{Bytes, NoMemory};

/// Writes a number in decimal digits at the beginning, and gives how many bytes those are.
pub fn dec_into(n: u64, into: &mut [u8; 20]) -> usize
    ensures length { result ≡ length (decimal n) }
    ensures written { take result into.new ≡ decimal n }
    ensures kept { drop result into.new ≡ drop result into.old }
{
    let mut buffer = Buffer::new();
    let digits = buffer.format(n).as_bytes();
    into[..digits.len()].copy_from_slice(digits);
    digits.len()
}

/// Writes a number as `0x` and hexadecimal digits at the beginning, and gives how many bytes those
/// are.
pub fn hex_into(n: u64, into: &mut [u8; 18]) -> usize
    ensures length { result ≡ length (hex_text n) }
    ensures written { take result into.new ≡ hex_text n }
    ensures kept { drop result into.new ≡ drop result into.old }
{
    let mut buffer = HexBuffer::new();
    let digits = buffer.format(n);
    let end = digits.len() + 2;
    into[..2].copy_from_slice(b"0x");
    into[2..end].copy_from_slice(digits);
    end
}

/// Appends a number in decimal digits.
pub fn put_dec(out: &mut Bytes, n: u64) -> Result<(), NoMemory>
    ensures ok { OnOk result (out.new ≡ out.old ++ decimal n) }
    ensures err { OnErr result (out.new ≡ out.old) }
{
    let mut buffer = Buffer::new();
    put_atom(out, buffer.format(n).as_bytes())
}

/// Appends a number as `0x` and hexadecimal digits.
pub fn put_hex(out: &mut Bytes, n: u64) -> Result<(), NoMemory>
    ensures ok { OnOk result (out.new ≡ out.old ++ hex_text n) }
    ensures err { OnErr result (out.new ≡ out.old) }
{
    let mut buffer = [0; 18];
    let end = hex_into(n, &mut buffer);
    put_atom(out, &buffer[..end])
}

/// Appends the bytes of an atom.
pub fn put_atom(out: &mut Bytes, atom: &[u8]) -> Result<(), NoMemory>
    ensures ok { OnOk result (out.new ≡ out.old ++ atom.now) }
    ensures err { OnErr result (out.new ≡ out.old) }
{
    out.extend_from_slice(atom)
}

/// Appends two lower-case hexadecimal digits for each byte.
pub fn put_bytes(out: &mut Bytes, bytes: &[u8]) -> Result<(), NoMemory>
    ensures ok { OnOk result (out.new ≡ out.old ++ encode_lower bytes.now) }
    ensures err { OnErr result (out.new ≡ out.old) }
{
    let start = out.len();
    for byte in bytes {
        match put_atom(out, &digit_pair(*byte)) {
            Ok(()) => {}
            Err(NoMemory) => {
                out.truncate(start);
                return Err(NoMemory);
            }
        }
    }
    Ok(())
}

/// The two lower-case hexadecimal digits of a byte.
pub fn digit_pair(byte: u8) -> [u8; 2]
    ensures { result ≡ encode_lower (byte ∷ []) }
{
    let mut pair = [0; 2];
    match hex::encode_to_slice([byte], &mut pair) {
        Ok(()) => pair,
        Err(_) => unreachable!(),
    }
}
