//! Operators applied to what their operands stand for.

ghost use Rattle.std.specs.Prelude.{◌≡◌, IfOk};
ghost use Rattle.smt_terms.specs.Operators.{Bits};
ghost use Rattle.smt_terms.specs.inner.Applied.{Applied, binary_value};

use crate::datum::{Datum, UNSORTED, share};
use crate::operands::{
    array_and_index, array_index_and_element, one_truth, one_vector, same_widths, two_truths,
    two_vectors,
};
use crate::operator::{Binary, Operator};
use crate::vector::Vector;
use rv_words::NoMemory;
use std::alloc::Global;

/// What an operator's application to these operands stands for.
pub fn apply(alloc: Global, op: Operator, parts: &[Datum]) -> Result<Datum, NoMemory>
    ensures { IfOk result (λ d. Applied op parts.now d) }
{
    match op {
        Operator::Ite => chosen(parts),
        Operator::And => Ok(conjunction(parts)),
        Operator::Not => Ok(negation(parts)),
        Operator::Equal => Ok(equality(parts)),
        Operator::Neg => Ok(opposite(parts)),
        Operator::Binary(op) => Ok(combined(op, parts)),
        Operator::Ult => Ok(below(parts)),
        Operator::Slt => Ok(below_signed(parts)),
        Operator::Concat => Ok(joined(parts)),
        Operator::Select => Ok(selected(parts)),
        Operator::Store => stored(alloc, parts),
        Operator::SignExtend(k) => Ok(sign_extended(k, parts)),
        Operator::ZeroExtend(k) => Ok(zero_extended(k, parts)),
        Operator::Extract(i, j) => Ok(extracted(i, j, parts)),
    }
}

/// `ite`
fn chosen(parts: &[Datum]) -> Result<Datum, NoMemory>
    ensures { IfOk result (λ d. Applied Operator.Ite parts.now d) }
{
    let [condition, a, b] = parts else {
        return Ok(UNSORTED);
    };
    match condition {
        Datum::Truth(true) => share(a),
        Datum::Truth(false) => share(b),
        _ => Ok(UNSORTED),
    }
}

/// `and`
fn conjunction(parts: &[Datum]) -> Datum
    ensures { Applied Operator.And parts.now result }
{
    match two_truths(parts) {
        Some((a, b)) => Datum::Truth(a && b),
        None => UNSORTED,
    }
}

/// `not`
fn negation(parts: &[Datum]) -> Datum
    ensures { Applied Operator.Not parts.now result }
{
    match one_truth(parts) {
        Some(a) => Datum::Truth(!a),
        None => UNSORTED,
    }
}

/// `=`
#[tactic(auto, using(crate::proofs::Applying::unequal_stands))]
fn equality(parts: &[Datum]) -> Datum
    ensures { Applied Operator.Equal parts.now result }
{
    match two_truths(parts) {
        Some((a, b)) => Datum::Truth(a == b),
        None => match same_widths(parts) {
            Some((a, b)) => Datum::Truth(a.number == b.number),
            None => UNSORTED,
        },
    }
}

/// `bvneg`
fn opposite(parts: &[Datum]) -> Datum
    ensures { Applied Operator.Neg parts.now result }
{
    match one_vector(parts) {
        Some(a) => Datum::Bits(a.neg()),
        None => UNSORTED,
    }
}

/// An operator on two bit-vectors of one width that gives one of that width.
fn combined(op: Binary, parts: &[Datum]) -> Datum
    ensures { Applied (Operator.Binary op) parts.now result }
{
    match same_widths(parts) {
        Some((a, b)) => Datum::Bits(combine(op, a, b)),
        None => UNSORTED,
    }
}

fn combine(op: Binary, a: Vector, b: Vector) -> Vector
    requires { a.width ≡ b.width }
    ensures width { result.width ≡ a.width }
    ensures value { Bits a.width result.number ≡ binary_value op a.width a.number b.number }
{
    match op {
        Binary::Add => a.add(b),
        Binary::Sub => a.sub(b),
        Binary::Mul => a.mul(b),
        Binary::Udiv => a.udiv(b),
        Binary::Urem => a.urem(b),
        Binary::And => a.and(b),
        Binary::Or => a.or(b),
        Binary::Xor => a.xor(b),
        Binary::Shl => a.shl(b),
        Binary::Lshr => a.lshr(b),
        Binary::Ashr => a.ashr(b),
    }
}

/// `bvult`
fn below(parts: &[Datum]) -> Datum
    ensures { Applied Operator.Ult parts.now result }
{
    match same_widths(parts) {
        Some((a, b)) => Datum::Truth(a.ult(b)),
        None => UNSORTED,
    }
}

/// `bvslt`
fn below_signed(parts: &[Datum]) -> Datum
    ensures { Applied Operator.Slt parts.now result }
{
    match same_widths(parts) {
        Some((a, b)) => Datum::Truth(a.slt(b)),
        None => UNSORTED,
    }
}

/// `concat`
fn joined(parts: &[Datum]) -> Datum
    ensures { Applied Operator.Concat parts.now result }
{
    match two_vectors(parts) {
        Some((a, b)) if a.width + b.width <= 128 => Datum::Bits(a.concat(b)),
        _ => UNSORTED,
    }
}

/// `select`
fn selected(parts: &[Datum]) -> Datum
    ensures { Applied Operator.Select parts.now result }
{
    match array_and_index(parts) {
        Some((array, i)) => Datum::Bits(array.select(i)),
        None => UNSORTED,
    }
}

/// `store`
fn stored(alloc: Global, parts: &[Datum]) -> Result<Datum, NoMemory>
    ensures { IfOk result (λ d. Applied Operator.Store parts.now d) }
{
    match array_index_and_element(parts) {
        Some((array, i, x)) => {
            let after = array.store(alloc, i, x)?;
            Ok(Datum::Array(after))
        }
        None => Ok(UNSORTED),
    }
}

/// `sign_extend`
fn sign_extended(k: u32, parts: &[Datum]) -> Datum
    ensures { Applied (Operator.SignExtend k) parts.now result }
{
    match one_vector(parts) {
        Some(a) if k <= 128 - a.width => Datum::Bits(a.sign_extended(k)),
        _ => UNSORTED,
    }
}

/// `zero_extend`
fn zero_extended(k: u32, parts: &[Datum]) -> Datum
    ensures { Applied (Operator.ZeroExtend k) parts.now result }
{
    match one_vector(parts) {
        Some(a) if k <= 128 - a.width => Datum::Bits(a.zero_extended(k)),
        _ => UNSORTED,
    }
}

/// `extract`
fn extracted(i: u32, j: u32, parts: &[Datum]) -> Datum
    ensures { Applied (Operator.Extract i j) parts.now result }
{
    match one_vector(parts) {
        Some(a) if i < a.width && j <= i => Datum::Bits(a.extract(i, j)),
        _ => UNSORTED,
    }
}
