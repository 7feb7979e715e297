//! Nodes that are found by an order of all nodes, since their slots have enough.

ghost use Rattle.std.specs.Prelude.{◌≡◌, ◌↔◌, IsTrue, None, Some as Just};
ghost use Rattle.rv_words.specs.Bytes.{bytes_of};
ghost use Rattle.term_arena.specs.inner.Crowded.{IsPut, comparison_number, extension_number, key_of, number_under, numbers_in, operation_number};

use crate::node::Node;
use rv_words::{Cmp, Ext, Op, Width};
use std::alloc::Global;
use std::collections::BTreeMap;

/// A node's form, the operation or the width that it has, and its further numbers. They tell the
/// node from each other one.
type Key = (u64, u64, u64, u64, u64);

/// The numbers of nodes by the order of their keys.
#[derive(Drop)]
pub(crate) struct Crowded {
    numbers: BTreeMap<Key, u64>,
}

impl Crowded {
    /// No nodes yet.
    pub fn new(alloc: Global) -> Crowded
        ensures { numbers_in result ≡ λ _. None }
    {
        Crowded {
            numbers: BTreeMap::new(alloc),
        }
    }

    /// The number under the node's key, if there is one.
    #[inline(always)]
    pub fn number_of(&self, n: Node) -> Option<u64>
        ensures { result ≡ numbers_in self.now n }
    {
        if self.numbers.is_empty() {
            return None;
        }
        number_under(&self.numbers, n)
    }

    /// Whether the number stands under the node's key.
    #[inline(always)]
    pub fn has(&self, n: Node, k: u64) -> bool
        ensures { IsTrue result ↔ (numbers_in self.now n ≡ Just k) }
    {
        match self.number_of(n) {
            Some(j) => j == k,
            None => false,
        }
    }

    /// Puts the number under the node's key, unless there is one or no memory for it. Tells whether
    /// it did.
    pub fn put(&mut self, n: Node, k: u64) -> bool
        ensures { IsPut n k result (numbers_in self.old) (numbers_in self.new) }
    {
        if self.number_of(n).is_some() {
            return false;
        }
        match self.numbers.insert(key_of(n), k) {
            Ok(_) => true,
            Err(_) => false,
        }
    }
}

/// The number under the node's key.
fn number_under(numbers: &BTreeMap<Key, u64>, n: Node) -> Option<u64>
    ensures { result ≡ number_under numbers.now n }
{
    numbers.get(&key_of(n)).copied()
}

/// The key of a node.
fn key_of(n: Node) -> Key
    ensures { result ≡ key_of n }
{
    match n {
        Node::Const(n) => (0, 0, n, 0, 0),
        Node::WordVar(i) => (1, 0, u64::from(i), 0, 0),
        Node::Bin(op, a, b) => (2, operation_number(op), a, b, 0),
        Node::Extend(ext, a) => (3, extension_number(ext), a, 0, 0),
        Node::Load(width, m, a) => (4, width_number(width), m, a, 0),
        Node::MemVar(i) => (5, 0, u64::from(i), 0, 0),
        Node::Store(width, m, a, v) => (6, width_number(width), m, a, v),
        Node::Compare(cmp, a, b) => (7, comparison_number(cmp), a, b, 0),
        Node::Neg(c) => (8, 0, c, 0, 0),
        Node::Inside(width, m, a) => (9, width_number(width), m, a, 0),
    }
}

fn operation_number(op: Op) -> u64
    ensures { result ≡ operation_number op }
{
    op as u64
}

fn extension_number(ext: Ext) -> u64
    ensures { result ≡ extension_number ext }
{
    ext as u64
}

fn comparison_number(cmp: Cmp) -> u64
    ensures { result ≡ comparison_number cmp }
{
    cmp as u64
}

fn width_number(width: Width) -> u64
    ensures { result ≡ bytes_of width }
{
    u64::from(width.bytes())
}
