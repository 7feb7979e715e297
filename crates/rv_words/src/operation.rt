//! The operations on words (RISC-V Unprivileged ISA 20191213, chapters 2, 5 and 7).

ghost use Rattle.std.specs.Prelude.{◌≡◌, ◌^◌, pos, ◌*ℤ◌};
ghost use Rattle.rv_words.specs.Operation.{operation_value, word_of, floor_of, quotient, remainder, low, extended};

/// An operation on two words. Those whose names end in `w` work on the low halves.
#[derive(Clone, Copy, Debug, PartialEq, Eq)]
pub enum Op {
    Add,
    Sub,
    Sll,
    Slt,
    Sltu,
    Xor,
    Srl,
    Sra,
    Or,
    And,
    Mul,
    Mulh,
    Mulhsu,
    Mulhu,
    Div,
    Divu,
    Rem,
    Remu,
    Addw,
    Subw,
    Sllw,
    Srlw,
    Sraw,
    Mulw,
    Divw,
    Divuw,
    Remw,
    Remuw,
}

/// The operation's value on `a` and `b`.
pub fn apply(op: Op, a: u64, b: u64) -> u64
    ensures { result ≡ operation_value op a b }
{
    match op {
        Op::Add => a.wrapping_add(b),
        Op::Sub => a.wrapping_sub(b),
        Op::Sll => a << (b % 64),
        Op::Slt => u64::from(a.cast_signed() < b.cast_signed()),
        Op::Sltu => u64::from(a < b),
        Op::Xor => a ^ b,
        Op::Srl => a >> (b % 64),
        Op::Sra => (a.cast_signed() >> (b % 64)).cast_unsigned(),
        Op::Or => a | b,
        Op::And => a & b,
        Op::Mul => a.wrapping_mul(b),
        Op::Mulh => high_signed(a.cast_signed(), b.cast_signed()),
        Op::Mulhsu => high_mixed(a.cast_signed(), b),
        Op::Mulhu => high_unsigned(a, b),
        Op::Div => quotient_signed(a.cast_signed(), b.cast_signed()),
        Op::Divu => quotient_unsigned(a, b),
        Op::Rem => remainder_signed(a.cast_signed(), b.cast_signed()),
        Op::Remu => remainder_unsigned(a, b),
        Op::Addw => from_half(half(a).wrapping_add(half(b))),
        Op::Subw => from_half(half(a).wrapping_sub(half(b))),
        Op::Sllw => from_half(half(a) << (b % 32)),
        Op::Srlw => from_half(half(a) >> (b % 32)),
        Op::Sraw => from_half((half(a).cast_signed() >> (b % 32)).cast_unsigned()),
        Op::Mulw => from_half(half(a).wrapping_mul(half(b))),
        Op::Divw => half_quotient_signed(half(a).cast_signed(), half(b).cast_signed()),
        Op::Divuw => half_quotient_unsigned(half(a), half(b)),
        Op::Remw => half_remainder_signed(half(a).cast_signed(), half(b).cast_signed()),
        Op::Remuw => half_remainder_unsigned(half(a), half(b)),
    }
}

/// The high word of the product of two signed numbers.
fn high_signed(a: i64, b: i64) -> u64
    ensures { result ≡ word_of (floor_of (a *ℤ b) (2 ^ 64)) }
{
    (((i128::from(a) * i128::from(b)) >> 64) as i64).cast_unsigned()
}

/// The high word of the product of a signed and an unsigned number.
fn high_mixed(a: i64, b: u64) -> u64
    ensures { result ≡ word_of (floor_of (a *ℤ pos b) (2 ^ 64)) }
{
    (((i128::from(a) * i128::from(b)) >> 64) as i64).cast_unsigned()
}

/// The high word of the product of two unsigned numbers.
fn high_unsigned(a: u64, b: u64) -> u64
    ensures { result ≡ word_of (floor_of (pos a *ℤ pos b) (2 ^ 64)) }
{
    ((u128::from(a) * u128::from(b)) >> 64) as u64
}

/// The quotient of two signed numbers.
fn quotient_signed(a: i64, b: i64) -> u64
    ensures { result ≡ word_of (quotient a b) }
{
    if b == 0 {
        return u64::MAX;
    }
    a.wrapping_div(b).cast_unsigned()
}

/// The quotient of two unsigned numbers.
fn quotient_unsigned(a: u64, b: u64) -> u64
    ensures { result ≡ word_of (quotient (pos a) (pos b)) }
{
    if b == 0 {
        return u64::MAX;
    }
    a / b
}

/// The remainder of two signed numbers.
fn remainder_signed(a: i64, b: i64) -> u64
    ensures { result ≡ word_of (remainder a b) }
{
    if b == 0 {
        return a.cast_unsigned();
    }
    a.wrapping_rem(b).cast_unsigned()
}

/// The remainder of two unsigned numbers.
fn remainder_unsigned(a: u64, b: u64) -> u64
    ensures { result ≡ word_of (remainder (pos a) (pos b)) }
{
    if b == 0 {
        return a;
    }
    a % b
}

/// The low half of a word.
fn half(a: u64) -> u32
    ensures { result ≡ low a }
{
    (a % (1 << 32)) as u32
}

/// The word that a half is with its sign extended.
fn from_half(a: u32) -> u64
    ensures { result ≡ extended 32 a }
{
    i64::from(a.cast_signed()).cast_unsigned()
}

/// The quotient of two signed halves.
fn half_quotient_signed(a: i32, b: i32) -> u64
    ensures { result ≡ extended 32 (word_of (quotient a b)) }
{
    if b == 0 {
        return u64::MAX;
    }
    from_half(a.wrapping_div(b).cast_unsigned())
}

/// The quotient of two unsigned halves.
fn half_quotient_unsigned(a: u32, b: u32) -> u64
    ensures { result ≡ extended 32 (word_of (quotient (pos a) (pos b))) }
{
    if b == 0 {
        return u64::MAX;
    }
    from_half(a / b)
}

/// The remainder of two signed halves.
fn half_remainder_signed(a: i32, b: i32) -> u64
    ensures { result ≡ extended 32 (word_of (remainder a b)) }
{
    if b == 0 {
        return from_half(a.cast_unsigned());
    }
    from_half(a.wrapping_rem(b).cast_unsigned())
}

/// The remainder of two unsigned halves.
fn half_remainder_unsigned(a: u32, b: u32) -> u64
    ensures { result ≡ extended 32 (word_of (remainder (pos a) (pos b))) }
{
    if b == 0 {
        return from_half(a);
    }
    from_half(a % b)
}
