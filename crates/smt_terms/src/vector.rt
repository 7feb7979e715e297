//! Bit-vectors, and SMT-LIB's operators on them (theory FixedSizeBitVectors, logic QF_BV).
#![tactic(auto, using(crate::proofs::Vectors::low_wrapped, crate::proofs::Vectors::low_small))]

ghost use Rattle.std.specs.Prelude.{◌≡◌, ◌+◌, ◌-◌, ◌*◌, ◌/◌, ◌%◌, ◌^◌, ◌<◌, ◌≤◌, ◌==◌, true, nat_lt, bit_and, bit_or, bit_xor, if◌then◌else◌};
ghost use Rattle.smt_terms.specs.Operators.{extended_by, is_negative, is_width, less_signed, shifted_right};

/// A bit-vector: its width, from 1 to 128, and the number below 2 to that power whose bits it has.
#[derive(Clone, Copy)]
pub struct Vector {
    pub width: u32,
    pub number: u128,
    ghost wide: { is_width width ≡ true },
    ghost below: { number < 2 ^ width },
}

/// `a << b`, also where no bit is left.
fn shifted_left(a: u128, b: u128) -> u128
    ensures { result ≡ a * 2 ^ b % 2 ^ 128 }
{
    if b < 128 { a << b } else { 0 }
}

/// `a >> b`, also where no bit is left.
fn shifted_right(a: u128, b: u128) -> u128
    ensures { result ≡ a / 2 ^ b }
{
    if b < 128 { a >> b } else { 0 }
}

/// The low bits of a number.
fn low_bits(width: u32, number: u128) -> u128
    requires { is_width width ≡ true }
    ensures { result ≡ number % 2 ^ width }
{
    if width == 128 {
        return number;
    }
    number % (1 << width)
}

impl Vector {
    /// The low bits of a number.
    pub fn new(width: u32, number: u128) -> Vector
        requires { is_width width ≡ true }
        ensures width { result.width ≡ width }
        ensures number { result.number ≡ number % 2 ^ width }
    {
        let number = low_bits(width, number);
        Vector { width, number }
    }

    /// `bvadd`
    pub fn add(self, b: Vector) -> Vector
        requires { self.width ≡ b.width }
        ensures width { result.width ≡ self.width }
        ensures number { result.number ≡ (self.number + b.number) % 2 ^ self.width }
    {
        Vector::new(self.width, self.number.wrapping_add(b.number))
    }

    /// `bvsub`
    pub fn sub(self, b: Vector) -> Vector
        requires { self.width ≡ b.width }
        ensures width { result.width ≡ self.width }
        ensures number { result.number
            ≡ (self.number + (2 ^ self.width - b.number)) % 2 ^ self.width }
    {
        Vector::new(self.width, self.number.wrapping_sub(b.number))
    }

    /// `bvneg`
    pub fn neg(self) -> Vector
        ensures width { result.width ≡ self.width }
        ensures number { result.number ≡ (2 ^ self.width - self.number) % 2 ^ self.width }
    {
        Vector::new(self.width, 0u128.wrapping_sub(self.number))
    }

    /// `bvmul`
    pub fn mul(self, b: Vector) -> Vector
        requires { self.width ≡ b.width }
        ensures width { result.width ≡ self.width }
        ensures number { result.number ≡ self.number * b.number % 2 ^ self.width }
    {
        Vector::new(self.width, self.number.wrapping_mul(b.number))
    }

    /// `bvudiv`: by zero all bits are ones.
    pub fn udiv(self, b: Vector) -> Vector
        requires { self.width ≡ b.width }
        ensures width { result.width ≡ self.width }
        ensures number { result.number
            ≡ (if b.number == 0 then 2 ^ self.width - 1 else self.number / b.number) }
    {
        if b.number == 0 {
            return Vector::new(self.width, u128::MAX);
        }
        Vector::new(self.width, self.number / b.number)
    }

    /// `bvurem`: by zero it is the dividend.
    pub fn urem(self, b: Vector) -> Vector
        requires { self.width ≡ b.width }
        ensures width { result.width ≡ self.width }
        ensures number { result.number
            ≡ (if b.number == 0 then self.number else self.number % b.number) }
    {
        if b.number == 0 {
            return self;
        }
        Vector::new(self.width, self.number % b.number)
    }

    /// `bvand`
    pub fn and(self, b: Vector) -> Vector
        requires { self.width ≡ b.width }
        ensures width { result.width ≡ self.width }
        ensures number { result.number ≡ bit_and self.number b.number }
    {
        Vector::new(self.width, self.number & b.number)
    }

    /// `bvor`
    pub fn or(self, b: Vector) -> Vector
        requires { self.width ≡ b.width }
        ensures width { result.width ≡ self.width }
        ensures number { result.number ≡ bit_or self.number b.number }
    {
        Vector::new(self.width, self.number | b.number)
    }

    /// `bvxor`
    pub fn xor(self, b: Vector) -> Vector
        requires { self.width ≡ b.width }
        ensures width { result.width ≡ self.width }
        ensures number { result.number ≡ bit_xor self.number b.number }
    {
        Vector::new(self.width, self.number ^ b.number)
    }

    /// Each bit turned.
    fn not(self) -> Vector
        ensures width { result.width ≡ self.width }
        ensures number { result.number ≡ 2 ^ self.width - 1 - self.number }
    {
        Vector::new(self.width, !self.number)
    }

    /// `bvshl`
    pub fn shl(self, b: Vector) -> Vector
        requires { self.width ≡ b.width }
        ensures width { result.width ≡ self.width }
        ensures number { result.number ≡ self.number * 2 ^ b.number % 2 ^ self.width }
    {
        Vector::new(self.width, shifted_left(self.number, b.number))
    }

    /// `bvlshr`
    pub fn lshr(self, b: Vector) -> Vector
        requires { self.width ≡ b.width }
        ensures width { result.width ≡ self.width }
        ensures number { result.number ≡ self.number / 2 ^ b.number }
    {
        Vector::new(self.width, shifted_right(self.number, b.number))
    }

    /// Whether the highest bit is 1.
    fn is_negative(self) -> bool
        ensures { result ≡ is_negative self.width self.number }
    {
        self.number >= 1 << (self.width - 1)
    }

    /// `bvashr`: the bits that come in are the highest one.
    pub fn ashr(self, b: Vector) -> Vector
        requires { self.width ≡ b.width }
        ensures width { result.width ≡ self.width }
        ensures number { result.number ≡ shifted_right self.width self.number b.number }
    {
        if self.is_negative() {
            self.not().lshr(b).not()
        } else {
            self.lshr(b)
        }
    }

    /// `bvult`
    pub fn ult(self, b: Vector) -> bool
        ensures { result ≡ nat_lt self.number b.number }
    {
        self.number < b.number
    }

    /// `bvslt`
    pub fn slt(self, b: Vector) -> bool
        requires { self.width ≡ b.width }
        ensures { result ≡ less_signed self.width self.number b.number }
    {
        if self.is_negative() {
            !b.is_negative() || self.number < b.number
        } else {
            !b.is_negative() && self.number < b.number
        }
    }

    /// `concat`: the operand's own bits are the higher ones.
    pub fn concat(self, b: Vector) -> Vector
        requires { is_width (self.width + b.width) ≡ true }
        ensures width { result.width ≡ self.width + b.width }
        ensures number { result.number ≡ self.number * 2 ^ b.width + b.number }
    {
        Vector::new(self.width + b.width, (self.number << b.width) + b.number)
    }

    /// `zero_extend` by `k` bits
    pub fn zero_extended(self, k: u32) -> Vector
        requires { is_width (self.width + k) ≡ true }
        ensures width { result.width ≡ self.width + k }
        ensures number { result.number ≡ self.number }
    {
        Vector::new(self.width + k, self.number)
    }

    /// `sign_extend` by `k` bits
    pub fn sign_extended(self, k: u32) -> Vector
        requires { is_width (self.width + k) ≡ true }
        ensures width { result.width ≡ self.width + k }
        ensures number { result.number ≡ extended_by k self.width self.number }
    {
        if self.is_negative() {
            self.not().zero_extended(k).not()
        } else {
            self.zero_extended(k)
        }
    }

    /// `extract`: bits `i` to `j`, `j` the lower one
    pub fn extract(self, i: u32, j: u32) -> Vector
        requires high { i < self.width }
        requires low { j ≤ i }
        ensures width { result.width ≡ i + 1 - j }
        ensures number { result.number ≡ self.number / 2 ^ j % 2 ^ (i + 1 - j) }
    {
        Vector::new(i + 1 - j, self.number >> j)
    }
}
