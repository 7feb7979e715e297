//! The forms of nodes, facts and lines, as the words that they begin with tell them apart.

ghost use Rattle.std.specs.Prelude.{◌≡◌};
ghost use Rattle.short_text.specs.inner.ShortReading.{fact_name_of, node_head_name, node_head_of, short_head_of, short_name};

use group_text::{
    name_of_comparison, name_of_extension, name_of_inside, name_of_load, name_of_operation,
    name_of_store,
};
use rv_words::{Cmp, Ext, Op, Width};

/// The forms of terms that have parts.
#[derive(Clone, Copy, PartialEq, Eq)]
pub enum NodeHead {
    Bin(Op),
    Extend(Ext),
    Load(Width),
    Store(Width),
    Compare(Cmp),
    Neg,
    Inside(Width),
}

/// The forms of facts.
#[derive(Clone, Copy, PartialEq, Eq)]
pub enum FactName {
    WordIs,
    MemIs,
    So,
    Gives,
}

/// The forms of lines.
#[derive(Clone, Copy, PartialEq, Eq)]
pub enum ShortHead {
    Axiom,
    Inst,
    Frame,
    ExtendCode,
    Compose,
    Strengthen,
    Weaken,
    Discharge,
    UseExit,
    Loop,
    Forget,
}

static NODE_HEADS: [NodeHead; 50] = [
    NodeHead::Bin(Op::Add),
    NodeHead::Bin(Op::Sub),
    NodeHead::Bin(Op::Sll),
    NodeHead::Bin(Op::Slt),
    NodeHead::Bin(Op::Sltu),
    NodeHead::Bin(Op::Xor),
    NodeHead::Bin(Op::Srl),
    NodeHead::Bin(Op::Sra),
    NodeHead::Bin(Op::Or),
    NodeHead::Bin(Op::And),
    NodeHead::Bin(Op::Mul),
    NodeHead::Bin(Op::Mulh),
    NodeHead::Bin(Op::Mulhsu),
    NodeHead::Bin(Op::Mulhu),
    NodeHead::Bin(Op::Div),
    NodeHead::Bin(Op::Divu),
    NodeHead::Bin(Op::Rem),
    NodeHead::Bin(Op::Remu),
    NodeHead::Bin(Op::Addw),
    NodeHead::Bin(Op::Subw),
    NodeHead::Bin(Op::Sllw),
    NodeHead::Bin(Op::Srlw),
    NodeHead::Bin(Op::Sraw),
    NodeHead::Bin(Op::Mulw),
    NodeHead::Bin(Op::Divw),
    NodeHead::Bin(Op::Divuw),
    NodeHead::Bin(Op::Remw),
    NodeHead::Bin(Op::Remuw),
    NodeHead::Extend(Ext::Sx1),
    NodeHead::Extend(Ext::Sx2),
    NodeHead::Extend(Ext::Sx4),
    NodeHead::Load(Width::B1),
    NodeHead::Load(Width::B2),
    NodeHead::Load(Width::B4),
    NodeHead::Load(Width::B8),
    NodeHead::Store(Width::B1),
    NodeHead::Store(Width::B2),
    NodeHead::Store(Width::B4),
    NodeHead::Store(Width::B8),
    NodeHead::Compare(Cmp::Eq),
    NodeHead::Compare(Cmp::Ne),
    NodeHead::Compare(Cmp::Lt),
    NodeHead::Compare(Cmp::Ge),
    NodeHead::Compare(Cmp::Ltu),
    NodeHead::Compare(Cmp::Geu),
    NodeHead::Neg,
    NodeHead::Inside(Width::B1),
    NodeHead::Inside(Width::B2),
    NodeHead::Inside(Width::B4),
    NodeHead::Inside(Width::B8),
];

static SHORT_HEADS: [ShortHead; 11] = [
    ShortHead::Axiom,
    ShortHead::Inst,
    ShortHead::Frame,
    ShortHead::ExtendCode,
    ShortHead::Compose,
    ShortHead::Strengthen,
    ShortHead::Weaken,
    ShortHead::Discharge,
    ShortHead::UseExit,
    ShortHead::Loop,
    ShortHead::Forget,
];

fn name_of_node_head(head: NodeHead) -> &'static [u8]
    ensures { result.now ≡ node_head_name head }
{
    match head {
        NodeHead::Bin(op) => name_of_operation(op),
        NodeHead::Extend(ext) => name_of_extension(ext),
        NodeHead::Load(width) => name_of_load(width),
        NodeHead::Store(width) => name_of_store(width),
        NodeHead::Compare(cmp) => name_of_comparison(cmp),
        NodeHead::Neg => b"not",
        NodeHead::Inside(width) => name_of_inside(width),
    }
}

/// The form of a term that has that name.
#[tactic(auto, unfolding(crate::specs::inner::ShortReading::node_head_of))]
pub fn node_head_of(name: &[u8]) -> Option<NodeHead>
    ensures { result ≡ node_head_of name.now }
{
    for &head in &NODE_HEADS {
        if name_of_node_head(head) == name {
            return Some(head);
        }
    }
    None
}

/// The form of a fact that has that name.
#[tactic(auto, unfolding(crate::specs::inner::ShortReading::fact_name_of))]
pub fn fact_name_of(name: &[u8]) -> Option<FactName>
    ensures { result ≡ fact_name_of name.now }
{
    match name {
        b"is" => Some(FactName::WordIs),
        b"mis" => Some(FactName::MemIs),
        b"so" => Some(FactName::So),
        b"gives" => Some(FactName::Gives),
        _ => None,
    }
}

fn name_of_short_head(head: ShortHead) -> &'static [u8]
    ensures { result.now ≡ short_name head }
{
    match head {
        ShortHead::Axiom => b"axiom",
        ShortHead::Inst => b"inst",
        ShortHead::Frame => b"frame",
        ShortHead::ExtendCode => b"extend",
        ShortHead::Compose => b"compose",
        ShortHead::Strengthen => b"strengthen",
        ShortHead::Weaken => b"weaken",
        ShortHead::Discharge => b"discharge",
        ShortHead::UseExit => b"use",
        ShortHead::Loop => b"loop",
        ShortHead::Forget => b"forget",
    }
}

/// The form of a line that begins with that word.
#[tactic(auto, unfolding(crate::specs::inner::ShortReading::short_head_of))]
pub fn short_head_of(name: &[u8]) -> Option<ShortHead>
    ensures { result ≡ short_head_of name.now }
{
    for &head in &SHORT_HEADS {
        if name_of_short_head(head) == name {
            return Some(head);
        }
    }
    None
}
