//! Comparisons of words (RISC-V Unprivileged ISA 20191213, section 2.5).

ghost use Rattle.std.specs.Prelude.{◌≡◌};
ghost use Rattle.rv_words.specs.Operation.{comparison_holds};

/// A comparison of two words. `Lt` and `Ge` take them as signed numbers, `Ltu` and `Geu` as
/// unsigned ones.
#[derive(Clone, Copy, Debug, PartialEq, Eq)]
pub enum Cmp {
    Eq,
    Ne,
    Lt,
    Ge,
    Ltu,
    Geu,
}

/// Whether the comparison is true of `a` and `b`.
pub fn compare(c: Cmp, a: u64, b: u64) -> bool
    ensures { result ≡ comparison_holds c a b }
{
    match c {
        Cmp::Eq => a == b,
        Cmp::Ne => a != b,
        Cmp::Lt => a.cast_signed() < b.cast_signed(),
        Cmp::Ge => a.cast_signed() >= b.cast_signed(),
        Cmp::Ltu => a < b,
        Cmp::Geu => a >= b,
    }
}
