//! Operations, lists and byte maps: that the calls succeed while there is memory, and that a type
//! may reach itself through a list.

use super::edges::{COMPARISONS, EXTENSIONS, OPERATIONS};
use super::rows::all;
use rv_words::*;
use std::alloc::Global;

fn is_applied((op, a, b, value): (Op, u64, u64, u64)) -> bool {
    apply(op, a, b) == value
}

fn is_extended((kind, a, value): (Ext, u64, u64)) -> bool {
    extend(kind, a) == value
}

fn is_compared((c, a, b, truth): (Cmp, u64, u64, bool)) -> bool {
    compare(c, a, b) == truth
}

#[test]
fn words_have_their_values(rt: HostRuntime) {
    assert!(rt; all(&OPERATIONS, is_applied));
    assert!(rt; all(&EXTENSIONS, is_extended));
    assert!(rt; all(&COMPARISONS, is_compared));
}

/// Whether a list takes what it is given and gives it back.
fn list_is_right(alloc: Global) -> bool {
    let mut list: Bytes = List::new(alloc);
    let was_empty = list.is_empty();
    let is_taken = list.push(7).is_ok() & list.push(8).is_ok();
    if list.is_empty() {
        return false;
    }
    list.set(0, 9);
    let is_held = (list.len() == 2) & (list.get(0) == Some(&9)) & list.get(2).is_none();
    let is_given = (list.pop() == Some(8)) & (list.pop() == Some(9)) & list.pop().is_none();
    was_empty & is_taken & is_held & is_given
}

/// Whether lists are put together.
fn lists_are_joined(alloc: Global) -> bool {
    let mut list: Bytes = List::new(alloc);
    let is_taken = list.extend_from_slice(b"ab").is_ok();
    match List::from_slice(alloc, b"cd") {
        Ok(other) => {
            let is_joined = list.append(other).is_ok() & list.extend_from_slice(b"ef").is_ok();
            is_taken & is_joined & (list.as_slice() == b"abcdef".as_slice())
        }
        Err(_) => false,
    }
}

#[test]
fn a_list_grows_and_shrinks(rt: HostRuntime) {
    assert!(rt; list_is_right(rt.alloc()));
    assert!(rt; lists_are_joined(rt.alloc()));
}

/// A node of a tree, whose children are in a list.
#[derive(Drop)]
struct Node {
    children: List<Node>,
}

/// How many nodes a tree has, while they are below 2^64.
fn nodes(tree: &Node) -> u64 {
    let mut count = 1u64;
    for child in tree.children.as_slice() {
        count = count.saturating_add(nodes(child));
    }
    count
}

/// A node without children.
fn leaf(alloc: Global) -> Node {
    Node {
        children: List::new(alloc),
    }
}

/// How many nodes a node above two leaves has.
fn count_of_three(alloc: Global) -> u64 {
    let mut tree = leaf(alloc);
    let _first = tree.children.push(leaf(alloc));
    let _second = tree.children.push(leaf(alloc));
    nodes(&tree)
}

#[test]
fn a_type_reaches_itself_through_a_list(rt: HostRuntime) {
    assert!(rt; count_of_three(rt.alloc()) == 3);
}

/// Places bytes beside each other, over each other and at both ends of the address space.
fn place_some(map: &mut ByteMap) -> bool {
    let words = map.place(0x1000, b"abcdefgh").is_ok() & map.place(0x1006, b"XYZ").is_ok();
    let zeros = map.place_zeros(0x0fff, 2).is_ok();
    let last = map.place(0xffff_ffff_ffff_fffe, b"yz").is_ok();
    words & zeros & last & map.place_zeros(0, 1).is_ok() & map.place(0x4000, b"").is_ok()
}

fn store_some(map: &mut ByteMap) {
    map.store(0x1001, Width::B4, 0x8877_6655_4433_2211);
    map.store(0xffff_ffff_ffff_ffff, Width::B8, 0x8877_6655_4433_2211);
    map.store(0x1008, Width::B2, 0x4241);
}

/// An address, and its byte before these stores and after them.
static HELD: [(u64, Option<u8>, Option<u8>); 17] = [
    (0x0ffe, None, None),
    (0x0fff, Some(0), Some(0)),
    (0x1000, Some(0), Some(0)),
    (0x1001, Some(b'b'), Some(0x11)),
    (0x1002, Some(b'c'), Some(0x22)),
    (0x1003, Some(b'd'), Some(0x33)),
    (0x1004, Some(b'e'), Some(0x44)),
    (0x1005, Some(b'f'), Some(b'f')),
    (0x1006, Some(b'X'), Some(b'X')),
    (0x1008, Some(b'Z'), Some(b'A')),
    (0x1009, None, None),
    (0x4000, None, None),
    (0xffff_ffff_ffff_fffd, None, None),
    (0xffff_ffff_ffff_fffe, Some(b'y'), Some(b'y')),
    (0xffff_ffff_ffff_ffff, Some(b'z'), Some(0x11)),
    (0, Some(0), Some(0x22)),
    (1, None, None),
];

/// Whether a map has these bytes after the stores, and another those before them.
fn bytes_are(map: &ByteMap, copy: &ByteMap) -> bool {
    for &(a, before, after) in &HELD {
        if map.byte(a) != after || copy.byte(a) != before {
            return false;
        }
    }
    true
}

/// An address and a width, whether all these bytes are there after the stores, and the number that
/// is loaded.
static LOADED: [(u64, Width, bool, u64); 13] = [
    (0x0ffe, Width::B1, false, 0),
    (0x0fff, Width::B1, true, 0),
    (0x0fff, Width::B8, true, 0x5866_4433_2211_0000),
    (0x1001, Width::B2, true, 0x2211),
    (0x1001, Width::B4, true, 0x4433_2211),
    (0x1001, Width::B8, true, 0x4159_5866_4433_2211),
    (0x1002, Width::B8, false, 0x0041_5958_6644_3322),
    (0x1005, Width::B4, true, 0x4159_5866),
    (0x1006, Width::B4, false, 0x0041_5958),
    (0x4000, Width::B8, false, 0),
    (0xffff_ffff_ffff_fffe, Width::B4, false, 0x0022_1179),
    (0xffff_ffff_ffff_ffff, Width::B2, true, 0x2211),
    (0xffff_ffff_ffff_ffff, Width::B4, false, 0x2211),
];

/// Whether the bytes that stand together make these numbers.
fn numbers_are(map: &ByteMap) -> bool {
    for &(a, width, all, number) in &LOADED {
        if map.has(a, width) != all || map.load(a, width) != number {
            return false;
        }
    }
    true
}

/// Whether the stores change these bytes, and not those of a copy.
fn bytes_are_stored(alloc: Global) -> bool {
    let mut map = ByteMap::new(alloc);
    let is_placed = place_some(&mut map);
    match map.copy(alloc) {
        Ok(copy) => {
            store_some(&mut map);
            is_placed & bytes_are(&map, &copy) & numbers_are(&map)
        }
        Err(_) => false,
    }
}

#[test]
fn bytes_are_placed_stored_and_found(rt: HostRuntime) {
    assert!(rt; bytes_are_stored(rt.alloc()));
}
