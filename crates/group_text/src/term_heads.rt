//! The names of forms, which stand after their parenthesis.

ghost use Rattle.std.specs.Prelude.{◌≡◌};
ghost use Rattle.group_text.specs.TermReading.{operation_of, extension_of, comparison_of, load_of, store_of, inside_of, word_head_of, cond_head_of};

use crate::term_names::name_of_operation;
use rv_words::{Cmp, Ext, Op, Width};

/// The forms of words that have parts.
#[derive(Clone, Copy, PartialEq, Eq)]
pub enum WordHead {
    Bin(Op),
    Extend(Ext),
    Load(Width),
}

/// The forms of conditions.
#[derive(Clone, Copy, PartialEq, Eq)]
pub enum CondHead {
    Compare(Cmp),
    Neg,
    Inside(Width),
}

static OPERATIONS: [Op; 28] = [
    Op::Add,
    Op::Sub,
    Op::Sll,
    Op::Slt,
    Op::Sltu,
    Op::Xor,
    Op::Srl,
    Op::Sra,
    Op::Or,
    Op::And,
    Op::Mul,
    Op::Mulh,
    Op::Mulhsu,
    Op::Mulhu,
    Op::Div,
    Op::Divu,
    Op::Rem,
    Op::Remu,
    Op::Addw,
    Op::Subw,
    Op::Sllw,
    Op::Srlw,
    Op::Sraw,
    Op::Mulw,
    Op::Divw,
    Op::Divuw,
    Op::Remw,
    Op::Remuw,
];

/// The operation of that name.
#[tactic(auto, unfolding(crate::specs::TermReading::operation_of))]
pub fn operation_of(name: &[u8]) -> Option<Op>
    ensures { result ≡ operation_of name.now }
{
    for &op in &OPERATIONS {
        if name_of_operation(op) == name {
            return Some(op);
        }
    }
    None
}

/// The extension of that name.
#[tactic(auto, unfolding(crate::specs::TermReading::extension_of))]
pub fn extension_of(name: &[u8]) -> Option<Ext>
    ensures { result ≡ extension_of name.now }
{
    match name {
        b"sx1" => Some(Ext::Sx1),
        b"sx2" => Some(Ext::Sx2),
        b"sx4" => Some(Ext::Sx4),
        _ => None,
    }
}

/// The comparison of that name.
#[tactic(auto, unfolding(crate::specs::TermReading::comparison_of))]
pub fn comparison_of(name: &[u8]) -> Option<Cmp>
    ensures { result ≡ comparison_of name.now }
{
    match name {
        b"eq" => Some(Cmp::Eq),
        b"ne" => Some(Cmp::Ne),
        b"lt" => Some(Cmp::Lt),
        b"ge" => Some(Cmp::Ge),
        b"ltu" => Some(Cmp::Ltu),
        b"geu" => Some(Cmp::Geu),
        _ => None,
    }
}

/// The width of a load of that name.
#[tactic(auto, unfolding(crate::specs::TermReading::load_of, crate::proofs::NameTests::digits))]
pub fn load_of(name: &[u8]) -> Option<Width>
    ensures { result ≡ load_of name.now }
{
    match name {
        b"ld1" => Some(Width::B1),
        b"ld2" => Some(Width::B2),
        b"ld4" => Some(Width::B4),
        b"ld8" => Some(Width::B8),
        _ => None,
    }
}

/// The width of a store of that name.
#[tactic(auto, unfolding(crate::specs::TermReading::store_of, crate::proofs::NameTests::digits))]
pub fn store_of(name: &[u8]) -> Option<Width>
    ensures { result ≡ store_of name.now }
{
    match name {
        b"st1" => Some(Width::B1),
        b"st2" => Some(Width::B2),
        b"st4" => Some(Width::B4),
        b"st8" => Some(Width::B8),
        _ => None,
    }
}

/// The width that a condition of that name asks for.
#[tactic(auto, unfolding(crate::specs::TermReading::inside_of, crate::proofs::NameTests::digits))]
pub fn inside_of(name: &[u8]) -> Option<Width>
    ensures { result ≡ inside_of name.now }
{
    match name {
        b"in1" => Some(Width::B1),
        b"in2" => Some(Width::B2),
        b"in4" => Some(Width::B4),
        b"in8" => Some(Width::B8),
        _ => None,
    }
}

/// The form of a word that has that name.
#[tactic(auto, unfolding(crate::specs::TermReading::word_head_of))]
pub fn word_head_of(name: &[u8]) -> Option<WordHead>
    ensures { result ≡ word_head_of name.now }
{
    if let Some(op) = operation_of(name) {
        Some(WordHead::Bin(op))
    } else if let Some(ext) = extension_of(name) {
        Some(WordHead::Extend(ext))
    } else if let Some(width) = load_of(name) {
        Some(WordHead::Load(width))
    } else {
        None
    }
}

/// The form of a condition that has that name.
#[tactic(auto, unfolding(crate::specs::TermReading::cond_head_of))]
pub fn cond_head_of(name: &[u8]) -> Option<CondHead>
    ensures { result ≡ cond_head_of name.now }
{
    if let Some(cmp) = comparison_of(name) {
        Some(CondHead::Compare(cmp))
    } else if let Some(width) = inside_of(name) {
        Some(CondHead::Inside(width))
    } else if name == b"not".as_slice() {
        Some(CondHead::Neg)
    } else {
        None
    }
}
