//! Hexadecimal digits of a number.

ghost use Rattle.std.specs.Prelude.{◌≡◌, ◌<◌, ◌≤◌, false, drop, length};
ghost use Rattle.std.specs.Fmt.{digits, digit_glyph};

/// A hexadecimal digit, in lower case.
fn hex_digit(value: u8) -> u8
    requires { value < 16 }
    ensures { result ≡ digit_glyph false value }
{
    if value < 10 {
        b'0' + value
    } else {
        b'a' + (value - 10)
    }
}

/// A place for hexadecimal digits, as `itoa::Buffer` is for decimal ones.
#[derive(Drop)]
pub struct HexBuffer {
    bytes: [u8; 16],
}

impl HexBuffer {
    pub fn new() -> HexBuffer {
        HexBuffer { bytes: [0; 16] }
    }

    /// The hexadecimal digits of a number, in lower case and without a leading zero.
    pub fn format(&mut self, n: u64) -> &[u8]
        ensures text { result.now ≡ digits 16 false n }
        ensures short { length result.now ≤ 16 }
    {
        let start = hex_digits(n, &mut self.bytes);
        &self.bytes[start..]
    }
}

/// Writes the hexadecimal digits of a number at the end of the buffer, and gives the place of the
/// first.
fn hex_digits(n: u64, into: &mut [u8; 16]) -> usize
    ensures within { result ≤ 16 }
    ensures written { drop result into.new ≡ digits 16 false n }
{
    let mut rest = n;
    let mut start = 16;
    while start > 0 {
        start -= 1;
        into[start] = hex_digit((rest % 16) as u8);
        rest /= 16;
        if rest == 0 {
            return start;
        }
    }
    start
}
