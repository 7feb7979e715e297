//! A search in depth.
ghost use Rattle.std.specs.Prelude.{◌≡◌, ◌+◌, ◌<◌, ◌≤◌, IfOk, IfSome, IfNone, length, slice_index, drop, take, false};
ghost use Rattle.std.specs.List.{All, Contains};
ghost use Rattle.flow_graph.specs.Graph.{succs_of, HasEdge};
ghost use Rattle.loop_forest.specs.Cycles.{last_of};
ghost use Rattle.loop_forest.specs.inner.SecondEntry.{EntersBeside};
ghost use Rattle.loop_forest.specs.inner.DepthFirst.{mark_of, is_new, Searching, IsDepthFirst, IsDone};

use crate::second_entry::second_entry;
use flow_graph::{Edges, Graph};
use rv_words::NoMemory;
use std::alloc::Global;

/// How far the search is with a node.
#[derive(Clone, Copy, Drop)]
pub enum Mark {
    New,
    /// On the path, at this place.
    OnPath(usize),
    /// Done, as the node with this number.
    Done(usize),
}

/// What a search in depth finds.
#[derive(Drop)]
pub enum DepthFirst {
    PostOrder(Vec<Mark>),
    Irreducible(Vec<u32>, Vec<u32>, Vec<u32>),
}

/// A walk that enters the cycle from a place of the path, beside that place.
#[derive(Drop)]
struct SecondEntry {
    place: usize,
    walk: Vec<u32>,
}

fn first_new(row: Edges<'_>, marks: &[Mark]) -> Option<u32>
    requires { All (λ v. v < length marks.now) row }
    ensures some { IfSome result (λ v. Contains row.entry v) }
    ensures unseen { IfSome result (λ v. mark_of marks.now v ≡ Mark.New) }
    ensures none { IfNone result (All (λ v. is_new (mark_of marks.now v) ≡ false) row.entry) }
{
    for v in row {
        if let Mark::New = marks[v as usize] {
            return Some(v);
        }
    }
    None
}

/// The nodes from a place on.
fn cycle_from(path: &[u32], i: usize) -> &[u32]
    requires { i ≤ length path.now }
    ensures { result.now ≡ drop i path.now }
{
    &path[i..]
}

fn path_from(alloc: Global, path: &[u32], i: usize) -> Result<Vec<u32>, NoMemory>
    requires { i ≤ length path.now }
    ensures { IfOk result (λ v. v.items ≡ drop i path.now) }
{
    Ok(path[i..].to_vec(alloc)?)
}

fn path_up_to(alloc: Global, path: &[u32], i: usize) -> Result<Vec<u32>, NoMemory>
    requires { i < length path.now }
    ensures { IfOk result (λ v. v.items ≡ take (i + 1) path.now) }
{
    Ok(path[..i + 1].to_vec(alloc)?)
}

/// A walk that enters the cycle from an open successor of the last node of the path, beside it.
fn second_entry_from(
    alloc: Global,
    g: &Graph,
    entry: u32,
    marks: &[Mark],
    path: &[u32],
    u: u32,
    count: usize,
) -> Result<Option<SecondEntry>, NoMemory>
    requires searching { Searching g.now entry marks.now path.now count }
    requires some { 0 < length path.now }
    requires last { u ≡ last_of path.now }
    requires within { u < length g.now.addrs }
    requires seen { All (λ v. is_new (mark_of marks.now v) ≡ false) (succs_of g.now.edges u) }
    ensures none { IfOk result (λ o.
        IfNone o (All (λ v. IsDone g.now entry marks.now count u v) (succs_of g.now.edges u))) }
    ensures place { IfOk result (λ o. IfSome o (λ p. p.place < length path.now)) }
    ensures edge { IfOk result (λ o.
        IfSome o (λ p. HasEdge g.now u (slice_index path.now p.place))) }
    ensures walk { IfOk result (λ o. IfSome o (λ p.
        EntersBeside g.now (drop p.place path.now) entry (slice_index path.now p.place)
        p.walk.items)) }
{
    let _count = g.len();
    for v in g.succs(u) {
        if let Mark::OnPath(i) = marks[v as usize] {
            if let Some(walk) = second_entry(alloc, g, entry, v, u, cycle_from(path, i))? {
                return Ok(Some(SecondEntry { place: i, walk }));
            }
        }
    }
    Ok(None)
}

/// The order in which the nodes are left, or a cycle with two entries.
pub fn post_order(alloc: Global, g: &Graph, entry: u32) -> Result<DepthFirst, NoMemory>
    requires { entry < length g.now.addrs }
    ensures { IfOk result (IsDepthFirst g.now entry) }
{
    let node_count = g.len() as usize;
    let mut marks = vec![in alloc; Mark::New; node_count]?;
    let mut path: Vec<u32> = Vec::new(alloc);
    let mut count = 0;
    marks[entry as usize] = Mark::OnPath(0);
    path.push(entry)?;
    'search: while !path.is_empty() {
        let top = path.len() - 1;
        let u = path[top];
        match first_new(g.succs(u), &marks) {
            Some(v) => {
                marks[v as usize] = Mark::OnPath(path.len());
                path.push(v)?;
            }
            None => {
                if let Some(beside) = second_entry_from(alloc, g, entry, &marks, &path, u, count)? {
                    let cycle = path_from(alloc, &path, beside.place)?;
                    let first = path_up_to(alloc, &path, beside.place)?;
                    return Ok(DepthFirst::Irreducible(cycle, first, beside.walk));
                }
                marks[u as usize] = Mark::Done(count);
                count += 1;
                path.truncate(top);
            }
        }
    }
    Ok(DepthFirst::PostOrder(marks))
}
