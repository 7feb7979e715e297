//! Which nodes are stack accesses.
ghost use Rattle.std.specs.Prelude.{◌≡◌, ◌<◌, ◌↔◌, ℕ, IfOk, IsTrue, false, length, slice_index, slice_index_or};
ghost use Rattle.rv_words.specs.Bytes.{AreBytes, Bytes};
ghost use Rattle.flow_graph.specs.Graph.{IsGraphOf};
ghost use Rattle.stack_offsets.specs.Offsets.{base_of as base_by, IsStackAccess};
ghost use Rattle.stack_offsets.specs.inner.Settling.{AreSettled, IsStackNode, NamesAll};

use crate::row::Row;
use crate::table::rows_of;
use flow_graph::Graph;
use rv_decode::Instr;
use rv_words::{List, NoMemory};
use std::alloc::Global;

/// The register from which an instruction loads, or to which it stores.
fn base_of(i: Instr) -> Option<u8>
    ensures { result ≡ base_by i }
{
    match i {
        Instr::Load { rs1, .. } => Some(rs1),
        Instr::Store { rs1, .. } => Some(rs1),
        _ => None,
    }
}

/// Whether the instruction of a node loads from a register that has an offset there, or stores to
/// one.
fn is_stack_node(g: &Graph, rows: &[Option<Row>], n: u32) -> bool
    requires node { n < length g.now.addrs }
    requires settled { AreSettled g.now rows.now }
    ensures { NamesAll g.now → (IsTrue result ↔ IsStackNode g.now n) }
{
    let Some(base) = base_of(g.instr(n)) else {
        return false;
    };
    match rows[n as usize] {
        Some(row) => row.offset(base).is_some(),
        None => false,
    }
}

/// Of each node whether it is one.
fn stack_nodes(alloc: Global, g: &Graph) -> Result<List<bool>, NoMemory>
    ensures len { IfOk result (λ found. length found ≡ length g.now.addrs) }
    ensures each { NamesAll g.now
        → IfOk result (λ found.
        (n : ℕ)
        → n < length g.now.addrs
        → (IsTrue (slice_index_or found n false) ↔ IsStackNode g.now n)) }
{
    let rows = rows_of(alloc, g)?;
    let mut found = List::new(alloc);
    for n in 0..g.len() {
        found.push(is_stack_node(g, &rows, n))?;
    }
    Ok(found)
}

/// Of each node of the graph of a function whether its instruction is a stack access.
pub fn stack_accesses(alloc: Global, graph: &Graph) -> Result<List<bool>, NoMemory>
    ensures len { IfOk result (λ found. length found ≡ length graph.now.addrs) }
    ensures each { (code : Bytes) (e : ℕ)
        → AreBytes code
        → IsGraphOf false code e graph.now
        → IfOk result (λ found.
        (n : ℕ)
        → n < length graph.now.addrs
        → (IsTrue (slice_index_or found n false)
        ↔ IsStackAccess code e (slice_index graph.now.addrs n))) }
{
    stack_nodes(alloc, graph)
}
