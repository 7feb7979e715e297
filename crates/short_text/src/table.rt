//! Tables of terms, which find each of their terms by its node.

ghost use Rattle.std.specs.Prelude.{◌≡◌, ◌<◌, ◌++◌, ◌∷◌, [], ℕ, List as Items, IfOk, OnOk, OnErr};
ghost use Rattle.term_arena.specs.Arena.{AreChildren, IsAdded, IsArena};
ghost use Rattle.term_arena.specs.declared.node.Node.{Node as NodeOf};
ghost use Rattle.short_text.specs.Table.{HasNumbers, IsTable, depth_in, depth_over};
ghost use Rattle.short_text.specs.inner.ShortReading.{has_children};
ghost use Rattle.short_text.specs.inner.TableParts.{Puts};

use crate::kind::{Kind, has_kind};
use mc_text::TokenError;
use rv_words::{List, NoMemory};
use std::alloc::Global;
use std::marker::{Brand, Model};
use std::sync::ledger::{Blank, Ledger};
use term_arena::{Arena, Node, Steps};

/// The greatest depth of a term.
const DEPTH_LIMIT: u64 = 64;

/// The terms of a table by their numbers. What finds the number of a node is an arena, so a term
/// costs no more behind many others than behind few.
#[derive(Drop)]
pub struct Table {
    nodes: List<Node>,
    depths: List<u8>,
    arena: Arena,
}

impl Model for Table {
    ghost use Rattle.std.specs.Prelude.{List as Items};
    ghost use Rattle.term_arena.specs.declared.node.Node.{Node as NodeOf};
    ghost use Rattle.short_text.specs.inner.TableParts.{AreTableParts};

    ghost Value = { Items NodeOf };

    ghost view = { λ t. t.nodes };

    ghost invariant = { λ t. AreTableParts t.nodes t.depths t.arena };
}

impl Table {
    /// No terms yet.
    pub fn new(alloc: Global) -> Table
        ensures { result ≡ [] }
    {
        Table {
            nodes: List::new(alloc),
            depths: List::new(alloc),
            arena: Arena::new(alloc),
        }
    }

    /// The terms' outermost forms, in the order of their numbers.
    pub fn nodes(&self) -> &[Node]
        ensures nodes { result.now ≡ self.now }
        ensures table { IsTable self.now }
    {
        self.nodes.as_slice()
    }

    /// Puts a term behind the others, if it may stand there.
    pub fn put(&mut self, node: Node) -> Result<(), TokenError>
        requires { HasNumbers node }
        ensures { Puts self.old node result self.new }
    {
        if !has_children(self.nodes.as_slice(), node) {
            return Err(TokenError::Bad);
        }
        let depth = depth_over(self.depths.as_slice(), node);
        if depth > DEPTH_LIMIT {
            return Err(TokenError::Bad);
        }
        let next = self.nodes.len() as u64;
        push_both(&mut self.nodes, &mut self.depths, node, depth as u8)?;
        match number_in(&mut self.arena, node) {
            Ok(number) if number == next => Ok(()),
            Ok(_) => {
                pop_both(&mut self.nodes, &mut self.depths);
                Err(TokenError::Bad)
            }
            Err(_) => {
                pop_both(&mut self.nodes, &mut self.depths);
                Err(TokenError::NoMemory)
            }
        }
    }
}

/// Adds a term and its depth at the end, or none of them.
fn push_both(
    nodes: &mut List<Node>,
    depths: &mut List<u8>,
    node: Node,
    depth: u8,
) -> Result<(), NoMemory>
    ensures ok { OnOk result ((nodes.new ≡ nodes.old ++ node ∷ [])
        × (depths.new ≡ depths.old ++ depth ∷ [])) }
    ensures err { OnErr result ((nodes.new ≡ nodes.old) × (depths.new ≡ depths.old)) }
{
    nodes.push(node)?;
    match depths.push(depth) {
        Ok(()) => Ok(()),
        Err(fault) => {
            nodes.pop();
            Err(fault)
        }
    }
}

/// Takes the last term and the last depth away.
fn pop_both(nodes: &mut List<Node>, depths: &mut List<u8>)
    ensures nodes { (ns : Items NodeOf) (n : NodeOf) → nodes.old ≡ ns ++ n ∷ [] → nodes.new ≡ ns }
    ensures depths { (ds : Items ℕ) (d : ℕ) → depths.old ≡ ds ++ d ∷ [] → depths.new ≡ ds }
{
    nodes.pop();
    depths.pop();
}

/// The number of a node, which is added where it isn't there.
fn number_in(arena: &mut Arena, node: Node) -> Result<u64, NoMemory>
    requires { AreChildren arena.old node }
    ensures added { IfOk result (λ k. IsAdded arena.old node k arena.new) }
    ensures same { OnErr result (arena.new ≡ arena.old) }
    ensures arena { IsArena arena.new }
{
    counted_number::<Brand>(arena, node, Blank::new(1))
}

/// The number of a node, with a counter.
fn counted_number<L: Ledger>(arena: &mut Arena, node: Node, blank: Blank) -> Result<u64, NoMemory>
    requires name { blank.name ≡ L.name }
    requires parts { blank.parts ≡ L.parts }
    requires one { L.parts ≡ 1 }
    requires children { AreChildren arena.old node }
    ensures added { IfOk result (λ k. IsAdded arena.old node k arena.new) }
    ensures same { OnErr result (arena.new ≡ arena.old) }
    ensures arena { IsArena arena.new }
{
    let number = arena.add(node, &mut Steps::<L>::new(blank));
    arena.law_of_nodes();
    number
}

// ---- children and depths

/// Whether the children of a node are there, each of its kind.
fn has_children(nodes: &[Node], node: Node) -> bool
    ensures { result ≡ has_children nodes.now node }
{
    match node {
        Node::Const(_) => true,
        Node::WordVar(_) => true,
        Node::Bin(_, a, b) => has_kind(nodes, Kind::Word, a) && has_kind(nodes, Kind::Word, b),
        Node::Extend(_, a) => has_kind(nodes, Kind::Word, a),
        Node::Load(_, m, a) => has_kind(nodes, Kind::Mem, m) && has_kind(nodes, Kind::Word, a),
        Node::MemVar(_) => true,
        Node::Store(_, m, a, v) => {
            has_kind(nodes, Kind::Mem, m)
                && (has_kind(nodes, Kind::Word, a) && has_kind(nodes, Kind::Word, v))
        }
        Node::Compare(_, a, b) => has_kind(nodes, Kind::Word, a) && has_kind(nodes, Kind::Word, b),
        Node::Neg(c) => has_kind(nodes, Kind::Cond, c),
        Node::Inside(_, m, a) => has_kind(nodes, Kind::Mem, m) && has_kind(nodes, Kind::Word, a),
    }
}

/// The depth of the term of that number, and 0 where there is none.
fn depth_in(depths: &[u8], k: u64) -> u64
    ensures value { result ≡ depth_in depths.now k }
    ensures small { result < 256 }
{
    match depths.get(k as usize) {
        Some(depth) => u64::from(*depth),
        None => 0,
    }
}

/// The depth of a node over those of the terms before it.
fn depth_over(depths: &[u8], node: Node) -> u64
    ensures { result ≡ depth_over depths.now node }
{
    match node {
        Node::Const(_) => 1,
        Node::WordVar(_) => 1,
        Node::Bin(_, a, b) => depth_in(depths, a).max(depth_in(depths, b)) + 1,
        Node::Extend(_, a) => depth_in(depths, a) + 1,
        Node::Load(_, m, a) => depth_in(depths, m).max(depth_in(depths, a)) + 1,
        Node::MemVar(_) => 1,
        Node::Store(_, m, a, v) => {
            depth_in(depths, m).max(depth_in(depths, a).max(depth_in(depths, v))) + 1
        }
        Node::Compare(_, a, b) => depth_in(depths, a).max(depth_in(depths, b)) + 1,
        Node::Neg(c) => depth_in(depths, c) + 1,
        Node::Inside(_, m, a) => depth_in(depths, m).max(depth_in(depths, a)) + 1,
    }
}
