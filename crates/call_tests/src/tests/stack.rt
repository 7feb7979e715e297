//! What no clause says: the stack accesses of worked programs.

use super::programs::{RETURN, graph};
use super::rows::each;
use flow_graph::Graph;
use stack_offsets::stack_accesses;
use std::alloc::Global;

/// A program at 0x10000, and of each node whether it is a stack access.
type Program = (&'static [u32], &'static [bool]);

static PROGRAMS: [Program; 7] = [
    // addi x2, x2, -16; sd x10, 8(x2); ld x15, 8(x2); sd x15, 0(x11); addi x2, x2, 16
    (
        &[
            0xff010113, 0x00a13423, 0x00813783, 0x00f5b023, 0x01010113, RETURN,
        ],
        &[false, true, true, false, false, false],
    ),
    // add x8, x0, x2; sd x10, -8(x8); add x9, x8, x0; ld x10, -8(x9)
    (
        &[0x00200433, 0xfea43c23, 0x000404b3, 0xff84b503, RETURN],
        &[false, true, false, true, false],
    ),
    // beq x10, x0, 8; addi x2, x2, -16; ld x11, 0(x2), to which two walks lead with other offsets
    (
        &[0x00050463, 0xff010113, 0x00013583, RETURN],
        &[false, false, false, false],
    ),
    // beq x10, x0, 12; addi x8, x2, -16; jal x0, 8; addi x8, x2, -16; ld x11, 0(x8), to which two
    // walks lead with one offset
    (
        &[
            0x00050663, 0xff010413, 0x0080006f, 0xff010413, 0x00043583, RETURN,
        ],
        &[false, false, false, false, true, false],
    ),
    // sd x10, 0(x2); addi x2, x2, -16; bne x10, x0, -8: each turn has another offset
    (
        &[0x00a13023, 0xff010113, 0xfe051ce3, RETURN],
        &[false, false, false, false],
    ),
    // ld x2, 0(x2); ld x10, 0(x2)
    (&[0x00013103, 0x00013503, RETURN], &[true, false, false]),
    // add x8, x0, x0; ld x10, 0(x8); ld x11, 0(x0); add x9, x2, x2; ld x12, 0(x9)
    (
        &[
            0x00000433, 0x00043503, 0x00003583, 0x002104b3, 0x0004b603, RETURN,
        ],
        &[false, false, false, false, false, false],
    ),
];

/// Whether these are told of the nodes of a graph.
fn are_told(alloc: Global, graph: &Graph, accesses: &[bool]) -> bool {
    match stack_accesses(alloc, graph) {
        Ok(told) => told.as_slice() == accesses,
        Err(_) => false,
    }
}

fn has_accesses(alloc: Global, (words, accesses): Program) -> bool {
    match graph(alloc, words) {
        Some(graph) => are_told(alloc, &graph, accesses),
        None => false,
    }
}

#[test]
fn stack_accesses_of_programs(rt: HostRuntime) {
    assert!(rt; each(rt.alloc(), &PROGRAMS, has_accesses));
}
