//! What no clause says: the loops, cuts and faults of worked programs, and that a forest is made
//! while there is memory.

ghost use Rattle.std.specs.Prelude.{◌≡◌, ◌<◌, length};

use super::programs::{ADD, RETURN, graph, numbers, repeated};
use super::rows::each;
use flow_graph::{FlowFault, Graph, Outside};
use loop_forest::*;
use rv_decode::{Instr, encode};
use rv_words::Cmp;
use std::alloc::Global;

/// `beq x10, x0, 0`
const TO_ITSELF: u32 = 0x00050063;

/// A loop: its head, its first and last node, all nodes between them being in it, its exits, and
/// its parent.
type Row = (u32, (u32, u32), &'static [u32], Option<u32>);

/// Whether a loop is as the row says, in a graph of so many nodes.
fn is_as(f: &Forest, l: u32, row: &Row, count: u32) -> bool {
    if l >= f.loops() {
        return false;
    }
    for n in 0..count {
        if f.inside(l, n) != (row.1.0 <= n && n <= row.1.1) {
            return false;
        }
    }
    (f.head(l) == row.0) & (f.exits(l) == row.2) & (f.parent(l) == row.3)
}

/// Whether these are the loops of a forest.
fn loops_are(f: &Forest, rows: &[Row], count: u32) -> bool {
    if f.loops() as usize != rows.len() {
        return false;
    }
    for (l, row) in rows.iter().enumerate() {
        if !is_as(f, l as u32, row, count) {
            return false;
        }
    }
    true
}

/// Whether these are the cuts of a forest.
fn cuts_are(g: &Graph, f: &Forest, cuts: &[u32]) -> bool
    requires { length f.now.places ≡ length g.now.addrs }
{
    for n in 0..g.len() {
        if f.is_cut(n) != cuts.contains(&n) {
            return false;
        }
    }
    true
}

/// Whether a graph has these loops and these cuts.
fn graph_has(alloc: Global, g: &Graph, rows: &[Row], cuts: &[u32]) -> bool {
    match find_loops(alloc, g) {
        Ok(f) => loops_are(&f, rows, g.len()) & cuts_are(g, &f, cuts),
        Err(_) => false,
    }
}

/// A program at 0x10000, with its loops and cuts.
type Program = (&'static [u32], &'static [Row], &'static [u32]);

fn has(alloc: Global, (words, rows, cuts): Program) -> bool {
    match graph(alloc, words) {
        Some(g) => graph_has(alloc, &g, rows, cuts),
        None => false,
    }
}

/// Code as a compiler writes it, with a loop, a break, and two branches that join again.
const COMPILED: &[u32] = &[
    0xfd010113, 0x02813423, 0x03010413, 0x00050793, 0xfcf42e23, 0xfe042623, 0xfe042423, 0x0500006f,
    0xfe842783, 0x0007871b, 0x00a00793, 0x04f70c63, 0xfe842783, 0x0017f793, 0x00078e63, 0xfec42783,
    0x00078713, 0xfe842783, 0x00f707bb, 0xfef42623, 0x0100006f, 0xfec42783, 0xfff7879b, 0xfef42623,
    0xfe842783, 0x0017879b, 0xfef42423, 0xfe842783, 0x00078713, 0xfdc42783, 0x0007071b, 0x0007879b,
    0xfaf740e3, 0xfec42783, 0x0007879b, 0x0007d463, 0xfe042623, 0xfec42783, 0x00078513, 0x02813403,
    0x03010113, 0x00008067,
];

/// `beq x10, x0, 40`
const OUT: u32 = 0x02050463;

/// Eight branches out of a loop.
const EIGHT_EXITS: &[u32] = &[
    OUT, OUT, OUT, OUT, OUT, OUT, OUT, OUT, ADD, 0xfddff06f, RETURN, RETURN, RETURN, RETURN,
    RETURN, RETURN, RETURN, RETURN, RETURN,
];

/// .. and nine.
const NINE_EXITS: &[u32] = &[
    OUT, OUT, OUT, OUT, OUT, OUT, OUT, OUT, OUT, 0xfddff06f, RETURN, RETURN, RETURN, RETURN,
    RETURN, RETURN, RETURN, RETURN, RETURN,
];

static FORESTS: [Program; 9] = [
    (&[RETURN], &[], &[0]),
    // nested loops: beq x10, x0, -4 and beq x10, x0, -12
    (
        &[ADD, ADD, ADD, 0xfe050ee3, 0xfe050ae3, RETURN],
        &[(1, (1, 4), &[5], None), (2, (2, 3), &[4], Some(0))],
        &[0, 1, 2, 4, 5],
    ),
    // a loop that goes out to the head of the loop around it
    (
        &[ADD, 0xfe050ee3, 0xfe050ee3, RETURN],
        &[(0, (0, 2), &[3], None), (1, (1, 2), &[0, 3], Some(0))],
        &[0, 1, 3],
    ),
    // two loops with one exit: beq x10, x0, 12 twice, and jal x0, -4
    (
        &[0x00050663, 0x00050663, 0xffdff06f, TO_ITSELF, RETURN],
        &[(1, (1, 2), &[4], None), (3, (3, 3), &[4], None)],
        &[0, 1, 3, 4],
    ),
    (&[TO_ITSELF, RETURN], &[(0, (0, 0), &[1], None)], &[0, 1]),
    // a branch with both edges the same: its target has two incoming edges
    (&[0x00000263, RETURN], &[], &[0, 1]),
    // a jump to itself, which has no exit
    (&[0x0000006f], &[(0, (0, 0), &[], None)], &[0]),
    (
        COMPILED,
        &[(27, (8, 32), &[33], None)],
        &[0, 24, 27, 33, 37],
    ),
    (
        EIGHT_EXITS,
        &[(0, (0, 9), &[10, 11, 12, 13, 14, 15, 16, 17], None)],
        &[0, 10, 11, 12, 13, 14, 15, 16, 17],
    ),
];

/// Why a program has no forest, if it has none.
fn refusal(alloc: Global, words: &[u32]) -> Option<Outside> {
    let g = graph(alloc, words)?;
    match find_loops(alloc, &g) {
        Err(FlowFault::Outside(why)) => Some(why),
        _ => None,
    }
}

/// Whether a fault shows this cycle with two entries and these walks.
fn shows(why: &Outside, cycle: &[u64], walks: [&[u64]; 2]) -> bool {
    match why {
        Outside::TwoEntries {
            cycle: c,
            first,
            second,
        } => {
            c.as_slice() == cycle && first.as_slice() == walks[0] && second.as_slice() == walks[1]
        }
        _ => false,
    }
}

/// A cycle with two entries.
const TWO_ENTRIES: &[u32] = &[0x00050463, 0x00158593, 0xfe059ee3, RETURN];

/// Whether it is refused with that cycle and two walks into it.
fn two_entries_are_shown(alloc: Global) -> bool {
    let walks: [&[u64]; 2] = [&[0x10000, 0x10004], &[0x10000, 0x10008]];
    match refusal(alloc, TWO_ENTRIES) {
        Some(why) => shows(&why, &[0x10004, 0x10008], walks),
        None => false,
    }
}

/// Whether a loop with nine exits is refused with its head.
fn nine_exits_are_refused(alloc: Global) -> bool {
    match refusal(alloc, NINE_EXITS) {
        Some(why) => numbers(&why) == (11, 0x10000, 0),
        None => false,
    }
}

#[test]
fn loops_and_cuts_are_found(rt: HostRuntime) {
    assert!(rt; each(rt.alloc(), &FORESTS, has));
    assert!(rt; nine_exits_are_refused(rt.alloc()));
    assert!(rt; two_entries_are_shown(rt.alloc()));
}

/// How many cuts a forest has.
fn count_of_cuts(g: &Graph, f: &Forest) -> u32
    requires { length f.now.places ≡ length g.now.addrs }
{
    let mut cuts = 0u32;
    for n in 0..g.len() {
        cuts = cuts.wrapping_add(u32::from(f.is_cut(n)));
    }
    cuts
}

/// How many loops and how many cuts a program has.
fn counts(alloc: Global, words: &[u32]) -> Option<(u32, u32)> {
    let g = graph(alloc, words)?;
    match find_loops(alloc, &g) {
        Ok(f) => Some((f.loops(), count_of_cuts(&g, &f))),
        Err(_) => None,
    }
}

/// The word of a branch by an offset.
fn branch(offset: i32) -> u32 {
    let branch = Instr::Branch {
        cmp: Cmp::Eq,
        rs1: 10,
        rs2: 0,
        offset,
    };
    encode(&branch).unwrap_or(0)
}

/// So many loops, each inside the one before, while there is memory.
fn nested(alloc: Global, count: i32) -> Vec<u32> {
    let mut words = Vec::new(alloc);
    for _ in 0..count {
        let _done = words.push(ADD);
    }
    let mut offset = -4i32;
    for _ in 0..count {
        let _done = words.push(branch(offset));
        offset = offset.wrapping_sub(8);
    }
    let _done = words.push(RETURN);
    words
}

/// How often a word stands, and the loops and cuts of that.
type Repeated = (u32, usize, (u32, u32));

/// Straight code, branches to themselves, and branches over one instruction each.
static LONG: [Repeated; 5] = [
    (0x00050463, 1000, (0, 1000)),
    (ADD, 1023, (0, 32)),
    (ADD, 32, (0, 2)),
    (TO_ITSELF, 1023, (1023, 1024)),
    (ADD, 31, (0, 1)),
];

/// Whether so many times one word, and then two returns, have these counts.
fn has_counts(alloc: Global, (word, count, found): Repeated) -> bool {
    let words = repeated(alloc, word, count, &[RETURN, RETURN]);
    counts(alloc, &words) == Some(found)
}

/// The counts of so many loops within one another.
fn counts_of_nested(alloc: Global, count: i32) -> Option<(u32, u32)> {
    let words = nested(alloc, count);
    counts(alloc, &words)
}

/// How deep a node's region is.
fn depth_at(f: &Forest, node: u32) -> u32
    requires { node < length f.now.places }
{
    match f.region(node) {
        Some(l) if l < f.loops() => f.depth(Some(l)),
        _ => f.depth(None),
    }
}

/// Whether these are the regions of a graph's nodes with their depths, and the entry has the
/// largest number.
fn regions_are(g: &Graph, f: &Forest, regions: &[(Option<u32>, u32)]) -> bool
    requires { length f.now.places ≡ length g.now.addrs }
{
    if g.len() as usize != regions.len() {
        return false;
    }
    for (n, &(region, depth)) in regions.iter().enumerate() {
        let node = n as u32;
        if node >= g.len() || f.region(node) != region || depth_at(f, node) != depth {
            return false;
        }
        if node != g.entry() && f.number(node) >= f.number(g.entry()) {
            return false;
        }
    }
    true
}

/// Loops within one another, and the region of each node with its depth.
static REGIONS: [(Option<u32>, u32); 6] = [
    (None, 0),
    (None, 0),
    (Some(0), 1),
    (Some(1), 2),
    (Some(0), 1),
    (None, 0),
];

fn graph_has_regions(alloc: Global, g: &Graph) -> bool {
    match find_loops(alloc, g) {
        Ok(f) => regions_are(g, &f, &REGIONS),
        Err(_) => false,
    }
}

fn regions_are_told(alloc: Global) -> bool {
    match graph(alloc, &[ADD, ADD, ADD, 0xfe050ee3, 0xfe050ae3, RETURN]) {
        Some(g) => graph_has_regions(alloc, &g),
        None => false,
    }
}

#[test]
fn long_and_deep_code_is_cut(rt: HostRuntime) {
    assert!(rt; each(rt.alloc(), &LONG, has_counts));
    assert!(rt; counts_of_nested(rt.alloc(), 500) == Some((500, 1000)));
    assert!(rt; regions_are_told(rt.alloc()));
}
