//! What no clause says: the graphs and faults of worked programs, and that a graph is built while
//! there is memory.

use super::programs::{ADD, RETURN, built, graph, image_of, numbers, repeated};
use super::rows::each;
use elf_image::Image;
use flow_graph::*;
use rv_decode::Instr;
use std::alloc::Global;

/// `ecall`
const ENVIRONMENT: u32 = 0x00000073;
/// `jal x1, 8`
const CALL: u32 = 0x008000ef;
/// `beq x0, x0, 0`
const TO_ITSELF: u32 = 0x00000063;

/// A node: its address, and the nodes to which and from which edges lead.
type Row = (u64, &'static [u32], &'static [u32]);

/// Whether these are the nodes that are left.
fn are_left(mut edges: Edges<'_>, nodes: &[u32]) -> bool {
    for n in nodes {
        if edges.next() != Some(*n) {
            return false;
        }
    }
    edges.next().is_none()
}

/// Whether a node is as the row says. Those without successors are returns.
fn is_as(g: &Graph, n: u32, row: &Row) -> bool {
    if n >= g.len() {
        return false;
    }
    let is_there = (g.addr(n) == row.0) & (g.node(row.0) == Some(n));
    let has_edges = are_left(g.succs(n), row.1) & are_left(g.preds(n), row.2);
    is_there & has_edges & (row.1.is_empty() == matches!(g.instr(n), Instr::Jalr { .. }))
}

/// Whether the nodes of a graph are as the rows say.
fn are_as(g: &Graph, rows: &[Row]) -> bool {
    if g.len() as usize != rows.len() {
        return false;
    }
    for (n, row) in rows.iter().enumerate() {
        if !is_as(g, n as u32, row) {
            return false;
        }
    }
    true
}

/// A program at 0x10000, alone or of linked functions, with the nodes of its graph.
type Program = (bool, &'static [u32], &'static [Row]);

static GRAPHS: [Program; 12] = [
    (false, &[RETURN], &[(0x10000, &[], &[])]),
    // a cycle with two entries
    (
        false,
        &[0x00050463, 0x00158593, 0xfe059ee3, RETURN],
        &[
            (0x10000, &[1, 2], &[]),
            (0x10004, &[2], &[0, 2]),
            (0x10008, &[3, 1], &[0, 1]),
            (0x1000c, &[], &[2]),
        ],
    ),
    // a jump to itself
    (false, &[0x0000006f], &[(0x10000, &[0], &[0])]),
    // a branch to itself
    (
        false,
        &[TO_ITSELF, RETURN],
        &[(0x10000, &[1, 0], &[0]), (0x10004, &[], &[0])],
    ),
    // a branch with both edges the same
    (
        false,
        &[0x00000263, RETURN],
        &[(0x10000, &[1, 1], &[]), (0x10004, &[], &[0, 0])],
    ),
    // a jump over a word that is no instruction
    (
        false,
        &[0x0080006f, 0, RETURN],
        &[(0x10000, &[1], &[]), (0x10008, &[], &[0])],
    ),
    // a jump to the instruction before
    (
        false,
        &[0x0080006f, RETURN, 0xffdff06f],
        &[
            (0x10000, &[2], &[]),
            (0x10004, &[], &[2]),
            (0x10008, &[1], &[0]),
        ],
    ),
    // a return with a successor in the file
    (false, &[RETURN, ADD], &[(0x10000, &[], &[])]),
    // c.add x10, x11; c.addi x11, -1; c.bnez x11, -4; c.jr x1
    (
        false,
        &[0x15fd952e, 0x8082fdf5],
        &[
            (0x10000, &[1], &[2]),
            (0x10002, &[2], &[0]),
            (0x10004, &[3, 0], &[1]),
            (0x10006, &[], &[2]),
        ],
    ),
    // beq x10, x0, 6, to c.jr x1 in the upper half of addi x10, x4, -2040
    (
        false,
        &[0x00050363, 0x80820513, RETURN],
        &[
            (0x10000, &[1, 2], &[]),
            (0x10004, &[3], &[0]),
            (0x10006, &[], &[0]),
            (0x10008, &[], &[1]),
        ],
    ),
    // a call that comes back
    (
        true,
        &[CALL, RETURN],
        &[(0x10000, &[1], &[]), (0x10004, &[], &[0])],
    ),
    // a call in a loop: beq x10, x0, 12; jal x1, 8; jal x0, -8
    (
        true,
        &[0x00050663, CALL, 0xff9ff06f, RETURN],
        &[
            (0x10000, &[1, 3], &[2]),
            (0x10004, &[2], &[0]),
            (0x10008, &[0], &[1]),
            (0x1000c, &[], &[0]),
        ],
    ),
];

/// Whether the graph of a program has these nodes, the first of them as its entry.
fn has_nodes(alloc: Global, (linked, words, rows): Program) -> bool {
    match built(alloc, linked, words) {
        Some(Ok(g)) => are_as(&g, rows) & (g.entry() == 0),
        _ => false,
    }
}

/// A program at 0x10000, alone or of linked functions, and the addresses that are reached.
type Reach = (bool, &'static [u32], &'static [u64]);

static REACHED: [Reach; 4] = [
    // beq x10, x0, 8, a call of the environment, a return
    (
        false,
        &[0x00050463, ENVIRONMENT, RETURN],
        &[0x10000, 0x10004, 0x10008],
    ),
    // code that goes on behind its end
    (false, &[ADD], &[0x10000, 0x10004]),
    (false, &[CALL, RETURN], &[0x10000]),
    (true, &[CALL, RETURN], &[0x10000, 0x10004]),
];

/// Whether these are the addresses that were reached.
fn are_found(found: &Visited, addresses: &[u64]) -> bool {
    for &a in addresses {
        if found.place(a).is_none() {
            return false;
        }
    }
    found.len() == addresses.len()
}

/// Whether exactly these addresses of an image are reached.
fn image_reaches(alloc: Global, linked: bool, image: &Image, addresses: &[u64]) -> bool {
    match reached(alloc, linked, image, 0x10000) {
        Ok(Some(found)) => are_found(&found, addresses),
        _ => false,
    }
}

fn are_reached(alloc: Global, (linked, words, addresses): Reach) -> bool {
    match image_of(alloc, words) {
        Some(image) => image_reaches(alloc, linked, &image, addresses),
        None => false,
    }
}

/// The nodes of a branch and what it leads to: the number and the length of the instruction at
/// each.
static NODES: [(u32, u8); 4] = [(0x00050363, 4), (0x80820513, 4), (0x8082, 2), (RETURN, 4)];

/// Whether these are the instructions of the nodes of a graph.
fn nodes_are(g: &Graph) -> bool {
    for (n, &(number, length)) in NODES.iter().enumerate() {
        let n = n as u32;
        if n >= g.len() || g.number(n) != number || g.length(n) != length {
            return false;
        }
    }
    g.len() as usize == NODES.len()
}

fn nodes_are_right(alloc: Global) -> bool {
    match graph(alloc, &[0x00050363, 0x80820513, RETURN]) {
        Some(g) => nodes_are(&g),
        None => false,
    }
}

#[test]
fn graphs_are_built(rt: HostRuntime) {
    assert!(rt; each(rt.alloc(), &GRAPHS, has_nodes));
    assert!(rt; each(rt.alloc(), &REACHED, are_reached));
    assert!(rt; nodes_are_right(rt.alloc()));
}

/// The numbers of the fault of what is reached from an entry, if there is one.
fn refusal(alloc: Global, image: &Image, entry: u64) -> Option<(u32, u64, u64)> {
    match build(alloc, image, entry) {
        Err(FlowFault::Outside(why)) => Some(numbers(&why)),
        _ => None,
    }
}

/// A program at 0x10000, an entry, and the fault with its numbers.
type Fault = (&'static [u32], u64, (u32, u64, u64));

fn is_refused(alloc: Global, (words, entry, fault): Fault) -> bool {
    match image_of(alloc, words) {
        Some(image) => refusal(alloc, &image, entry) == Some(fault),
        None => false,
    }
}

static FAULTS: [Fault; 24] = [
    (&[ADD], 0x10000, (4, 0x10004, 0)),
    (&[RETURN], 0x20000, (4, 0x20000, 0)),
    (&[0x80820007, RETURN], 0x10000, (5, 0x10000, 0x80820007)),
    (&[0], 0x10000, (5, 0x10000, 0)),
    // c.nop, and a parcel that is no instruction
    (&[0x20000001], 0x10000, (5, 0x10002, 0x2000)),
    // c.nop, and half a word
    (&[0x05130001], 0x10000, (4, 0x10002, 0)),
    // c.ebreak, c.jalr x10 and c.jr x10
    (&[0x9002], 0x10000, (6, 0x10000, 0)),
    (&[0x9502], 0x10000, (7, 0x10000, 0)),
    (&[0x8502], 0x10000, (8, 0x10000, 0)),
    (&[ENVIRONMENT], 0x10000, (6, 0x10000, 0)),
    // ebreak
    (&[0x00100073], 0x10000, (6, 0x10000, 0)),
    (&[CALL], 0x10000, (7, 0x10000, 0)),
    (&[CALL, RETURN], 0x10000, (7, 0x10000, 0)),
    // beq x10, x0, 12; jal x1, 8; jal x0, -8
    (
        &[0x00050663, CALL, 0xff9ff06f, RETURN],
        0x10000,
        (7, 0x10004, 0),
    ),
    // jalr x1, 0(x5)
    (&[0x000280e7], 0x10000, (7, 0x10000, 0)),
    // jalr x0, 0(x5)
    (&[0x00028067], 0x10000, (8, 0x10000, 0)),
    // jalr x0, 4(x1)
    (&[0x00408067], 0x10000, (8, 0x10000, 0)),
    // beq x0, x0, 6
    (&[0x00000363], 0x10000, (4, 0x10004, 0)),
    (&[RETURN], 0x10002, (5, 0x10002, 0)),
    (&[RETURN], 0x10001, (9, 0x10001, 0x10001)),
    // jal x0, 6
    (&[0x0060006f], 0x10000, (4, 0x10006, 0)),
    // a call before a target that is no code: jal x1, 6
    (&[0x006000ef], 0x10000, (7, 0x10000, 0)),
    // the least address first: beq x10, x0, 8, then a call of the environment and a call
    (&[0x00050463, ENVIRONMENT, CALL], 0x10000, (6, 0x10004, 0)),
    // .. also where it is found last: jal x0, 12, to beq x10, x0, -8 before a call
    (
        &[0x00c0006f, ENVIRONMENT, RETURN, 0xfe050ce3, CALL],
        0x10000,
        (6, 0x10004, 0),
    ),
];

/// How many nodes the graph of a program has; 0 where it is too large.
fn length_of(alloc: Global, words: &[u32]) -> Option<u32> {
    match built(alloc, false, words) {
        Some(Ok(g)) => Some(g.len()),
        Some(Err(FlowFault::Outside(Outside::TooLarge))) => Some(0),
        _ => None,
    }
}

/// How often a word stands before another one, and the length of the graph.
type Repeated = (u32, usize, u32, u32);

fn has_length(alloc: Global, (word, count, last, length): Repeated) -> bool {
    let words = repeated(alloc, word, count, &[last]);
    length_of(alloc, &words) == Some(length)
}

/// The longest programs, and programs with one address more.
static LONG: [Repeated; 5] = [
    (ADD, 1023, RETURN, 1024),
    (ADD, 1024, RETURN, 0),
    (TO_ITSELF, 1023, RETURN, 1024),
    (TO_ITSELF, 1024, RETURN, 0),
    (ADD, 1024, ENVIRONMENT, 0),
];

#[test]
fn faults_and_lengths_are_told(rt: HostRuntime) {
    assert!(rt; each(rt.alloc(), &FAULTS, is_refused));
    assert!(rt; each(rt.alloc(), &LONG, has_length));
}
