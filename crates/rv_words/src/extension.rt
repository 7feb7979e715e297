//! Extensions of a sign (RISC-V Unprivileged ISA 20191213, sections 2.6 and 5.3).

ghost use Rattle.std.specs.Prelude.{◌≡◌};
ghost use Rattle.rv_words.specs.Operation.{extension_value};

/// Which part of a word keeps its sign: the low 1, 2 or 4 bytes.
#[derive(Clone, Copy, Debug, PartialEq, Eq)]
pub enum Ext {
    Sx1,
    Sx2,
    Sx4,
}

/// The low part of `a` with its sign extended to a word.
pub fn extend(kind: Ext, a: u64) -> u64
    ensures { result ≡ extension_value kind a }
{
    match kind {
        Ext::Sx1 => i64::from(((a % (1 << 8)) as u8).cast_signed()).cast_unsigned(),
        Ext::Sx2 => i64::from(((a % (1 << 16)) as u16).cast_signed()).cast_unsigned(),
        Ext::Sx4 => i64::from(((a % (1 << 32)) as u32).cast_signed()).cast_unsigned(),
    }
}
