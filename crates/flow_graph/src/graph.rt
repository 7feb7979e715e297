//! The graph of the code that is reached from an entry.
ghost use Rattle.std.specs.Prelude.{◌≡◌, ℕ, ◌+◌, ◌<◌, ◌≤◌, ◌^◌, ◌++◌, Bool, false, true, IfOk, IfErr, IfSome, IfNone, List, OnOk, Some, Ok as Fine, length, map, slice_index};
ghost use Rattle.std.specs.List.{Contains};
ghost use Rattle.elf_image.specs.Image.{code_in};
ghost use Rattle.flow_graph.specs.Flow as spec;
ghost use Rattle.rv_words.specs.Bytes.{Bytes};
ghost use Rattle.rv_decode.specs.declared.instruction.Instr.{Instr as TheInstr};
ghost use Rattle.rvc.specs.Number.{length_of as length_in_bytes, number_in};
ghost use Rattle.flow_graph.specs.Graph.{IsFlow, IsGraphOf, IsRefused, edge_to, edges_from, preds_of, succs_of};
ghost use Rattle.flow_graph.specs.inner.Building.{AreOf, HasFault};
ghost use Rattle.flow_graph.specs.inner.Reached.{targets_of};

use crate::flow::{Targets, look, number_at, targets_at};
use crate::links::{Edges, Links};
use crate::outside::{FlowFault, Outside};
use crate::reach::reached;
use crate::visited::Visited;
use elf_image::Image;
use rv_decode::Instr;
use rv_words::NoMemory;
use rvc::length_of;
use std::alloc::Global;
use std::marker::Model;

/// The instructions that are reached from an entry, as nodes that rise by address, and the edges
/// between them.
#[derive(Drop)]
pub struct Graph {
    entry: u32,
    nodes: Visited,
    numbers: Vec<u32>,
    instrs: Vec<Instr>,
    links: Links,
}

impl Model for Graph {
    ghost use Rattle.std.specs.Prelude.{◌≡◌, length};
    ghost use Rattle.flow_graph.specs.Graph.{GraphOf, IsFlow};

    ghost Value = { GraphOf };

    ghost view = { λ g. record { entry = g.entry; addrs = g.nodes; numbers = g.numbers.items; instrs = g.instrs.items; edges = g.links.1 } };

    ghost invariant = { λ g. IsFlow (record { entry = g.entry; addrs = g.nodes; numbers = g.numbers.items; instrs = g.instrs.items; edges = g.links.1 }) × (g.links.0 ≡ length g.nodes) };
}

impl Graph {
    ghost use Rattle.std.specs.Prelude.{slice_get};

    /// How many nodes there are.
    pub fn len(&self) -> u32
        ensures len { result ≡ length self.now.addrs }
        ensures flow { IsFlow self.now }
    {
        self.nodes.len() as u32
    }

    /// The number of the entry's node.
    pub fn entry(&self) -> u32
        ensures { result ≡ self.now.entry }
    {
        self.entry
    }

    /// The address of a node.
    pub fn addr(&self, n: u32) -> u64
        requires { n < length self.now.addrs }
        ensures { result ≡ slice_index self.now.addrs n }
    {
        self.nodes.get(n as usize)
    }

    /// The instruction of a node.
    pub fn instr(&self, n: u32) -> Instr
        requires { n < length self.now.addrs }
        ensures { Some result ≡ slice_get self.now.instrs n }
    {
        self.instrs[n as usize]
    }

    /// The parcel or word that stands at a node's address.
    pub fn number(&self, n: u32) -> u32
        requires { n < length self.now.addrs }
        ensures { Some result ≡ slice_get self.now.numbers n }
    {
        self.numbers[n as usize]
    }

    /// How many bytes the instruction of a node has.
    pub fn length(&self, n: u32) -> u8
        requires { n < length self.now.addrs }
        ensures { result ≡ length_in_bytes (slice_index self.now.numbers n) }
    {
        length_of(self.number(n))
    }

    /// The node at an address.
    pub fn node(&self, a: u64) -> Option<u32>
        ensures some { IfSome result (λ n.
            (n < length self.now.addrs) × (slice_index self.now.addrs n ≡ a)) }
        ensures none { IfNone result (Contains self.now.addrs a → ⊥) }
    {
        match self.nodes.place(a) {
            Some(n) => Some(n as u32),
            None => None,
        }
    }

    /// The nodes to which edges lead from a node.
    pub fn succs(&self, n: u32) -> Edges<'_>
        requires { n < length self.now.addrs }
        ensures { result ≡ succs_of self.now.edges n }
    {
        self.links.succs(n)
    }

    /// The nodes from which edges lead to a node.
    pub fn preds(&self, n: u32) -> Edges<'_>
        requires { n < length self.now.addrs }
        ensures { result ≡ preds_of self.now.edges n }
    {
        self.links.preds(n)
    }
}

/// The instructions at these addresses, or the fault of the first of them that has one.
fn instructions(
    alloc: Global,
    linked: bool,
    image: &Image,
    nodes: &Visited,
) -> Result<Vec<Instr>, FlowFault>
    ensures ok { IfOk result (λ is.
        map (λ i. Fine i) is.items ≡ map (spec.look linked (code_in image.now.pieces)) nodes.now) }
    ensures err { IfErr result (HasFault linked (code_in image.now.pieces) nodes.now) }
{
    let mut instrs = Vec::new(alloc);
    let mut i = 0;
    'nodes: while i < nodes.len() {
        match look(linked, image, nodes.get(i)) {
            Ok(instruction) => {
                if instrs.push(instruction).is_err() {
                    return Err(FlowFault::NoMemory);
                }
            }
            Err(why) => return Err(FlowFault::Outside(why)),
        }
        i += 1;
    }
    Ok(instrs)
}

/// The parcels and words at these addresses.
fn numbers(alloc: Global, image: &Image, nodes: &Visited) -> Result<Vec<u32>, NoMemory>
    requires { (linked : Bool) × (is : List TheInstr)
        × (map (λ i. Fine i) is ≡ map (spec.look linked (code_in image.now.pieces)) nodes.now) }
    ensures { IfOk result (λ ws.
        map (λ w. Some w) ws.items ≡ map (number_in (code_in image.now.pieces)) nodes.now) }
{
    let mut numbers = Vec::new(alloc);
    let mut i = 0;
    'nodes: while i < nodes.len() {
        numbers.push(number_at(image, nodes.get(i)).unwrap_or(0))?;
        i += 1;
    }
    Ok(numbers)
}

/// Adds the edges of a node to these addresses, the last one first.
fn add_edges(links: &mut Links, nodes: &Visited, n: u32, targets: Targets) -> Result<(), NoMemory>
    requires node { n < links.old.0 }
    requires count { links.old.0 ≡ length nodes.now }
    requires few { length nodes.now ≤ 1024 }
    requires room { length links.old.1 < 2 ^ 20 }
    requires closed { (b : ℕ) → Contains (targets_of targets) b → Contains nodes.now b }
    ensures edges { OnOk result (links.new
        ≡ (links.old.0, map (edge_to nodes.now n) (targets_of targets) ++ links.old.1)) }
    ensures grown { OnOk result (length links.new.1 ≤ length links.old.1 + 2) }
{
    match targets {
        Targets::Nowhere => {}
        Targets::One(a) => {
            let to = nodes.number(a);
            links.add(n, to)?;
        }
        Targets::Two(a, b) => {
            let to = nodes.number(b);
            links.add(n, to)?;
            let next = nodes.number(a);
            links.add(n, next)?;
        }
    }
    Ok(())
}

/// The edges between the nodes with these addresses, numbers and instructions.
fn links_between(
    alloc: Global,
    nodes: &Visited,
    numbers: &[u32],
    instrs: &[Instr],
) -> Result<Links, NoMemory>
    requires few { length nodes.now ≤ 1024 }
    requires of { (linked : Bool) × (code : Bytes)
        × AreOf linked code nodes.now numbers.now instrs.now }
    ensures { (linked : Bool) (code : Bytes)
        → AreOf linked code nodes.now numbers.now instrs.now
        → IfOk result (λ l.
        l ≡ (length nodes.now, edges_from (spec.next linked code) nodes.now 0 nodes.now)) }
{
    let mut u = nodes.len();
    let mut links = Links::new(alloc, u)?;
    'nodes: while u > 0 {
        u -= 1;
        add_edges(
            &mut links,
            nodes,
            u as u32,
            targets_at(nodes.get(u), length_of(numbers[u]), instrs[u]),
        )?;
    }
    Ok(links)
}

/// The graph of the code that is reached from an entry, or the first fault of that code.
pub fn build(alloc: Global, image: &Image, entry: u64) -> Result<Graph, FlowFault>
    ensures ok { IfOk result (IsGraphOf false (code_in image.now.pieces) entry) }
    ensures err { IfErr result (IsRefused false (code_in image.now.pieces) entry) }
{
    graph_from(alloc, false, image, entry)
}

/// The graph of one of several linked functions, which call each other by x1 and come back, or the
/// first fault of its code.
pub fn build_linked(alloc: Global, image: &Image, entry: u64) -> Result<Graph, FlowFault>
    ensures ok { IfOk result (IsGraphOf true (code_in image.now.pieces) entry) }
    ensures err { IfErr result (IsRefused true (code_in image.now.pieces) entry) }
{
    graph_from(alloc, true, image, entry)
}

/// The graph of the code that is reached from an entry, of one function or of linked ones, or the
/// first fault of that code.
fn graph_from(alloc: Global, linked: bool, image: &Image, entry: u64) -> Result<Graph, FlowFault>
    ensures ok { IfOk result (IsGraphOf linked (code_in image.now.pieces) entry) }
    ensures err { IfErr result (IsRefused linked (code_in image.now.pieces) entry) }
{
    let Some(mut nodes) = reached(alloc, linked, image, entry)? else {
        return Err(FlowFault::Outside(Outside::TooLarge));
    };
    nodes.sort()?;
    let instrs = instructions(alloc, linked, image, &nodes)?;
    let numbers = numbers(alloc, image, &nodes)?;
    let links = links_between(alloc, &nodes, &numbers, &instrs)?;
    Ok(Graph {
        entry: nodes.number(entry),
        nodes,
        numbers,
        instrs,
        links,
    })
}
