//! Sets of nodes.
ghost use Rattle.std.specs.Prelude.{◌≡◌, ℕ, ◌<◌, ◌≤◌, ◌≢◌, ◌↔◌, [], ◌∷◌, ◌++◌, IfOk, OnOk, OnErr, IsTrue, IfSome, None, length, slice_index, if◌then◌else◌};
ghost use Rattle.std.specs.List.{All, Contains};
ghost use Rattle.flow_graph.specs.Graph.{IsRising};
ghost use Rattle.loop_forest.specs.inner.Placed as spec;

use rv_words::NoMemory;
use std::alloc::Global;
use std::marker::Model;

/// Nodes, each once, in the order in which they were added.
#[derive(Drop)]
pub struct NodeSet {
    nodes: Vec<u32>,
    places: Vec<Option<usize>>,
}

impl Model for NodeSet {
    ghost use Rattle.std.specs.Prelude.{ℕ, List};
    ghost use Rattle.loop_forest.specs.inner.Placed.{HasPlaces};

    ghost Value = { List ℕ };

    ghost view = { λ s. s.nodes.items };

    ghost invariant = { λ s. HasPlaces s.nodes.items s.places.items };
}

/// The place of a node in a table.
fn place_in(places: &[Option<usize>], x: u32) -> Option<usize>
    ensures { result ≡ spec.place_in places.now x }
{
    if (x as usize) < places.len() {
        places[x as usize]
    } else {
        None
    }
}

/// Makes a table so long that it has a place for a node.
fn make_room(places: &mut Vec<Option<usize>>, x: u32) -> Result<(), NoMemory>
    ensures same { (y : ℕ) → spec.place_in places.new.items y ≡ spec.place_in places.old.items y }
    ensures long { OnOk result (x < length places.new.items) }
{
    'room: while places.len() <= x as usize {
        places.push(None)?;
    }
    Ok(())
}

impl NodeSet {
    /// No nodes.
    pub fn new(alloc: Global) -> NodeSet
        ensures { result ≡ [] }
    {
        NodeSet {
            nodes: Vec::new(alloc),
            places: Vec::new(alloc),
        }
    }

    /// The place of a node.
    pub fn place(&self, x: u32) -> Option<usize>
        ensures found { IfSome result (λ i. i < length self.now) }
        ensures at { IfSome result (λ i. slice_index self.now i ≡ x) }
        ensures none { result ≡ None → Contains self.now x → ⊥ }
    {
        place_in(&self.places, x)
    }

    /// Whether it has a node.
    pub fn has(&self, x: u32) -> bool
        ensures { IsTrue result ↔ Contains self.now x }
    {
        self.place(x).is_some()
    }

    /// Adds a node, and says whether it is new.
    pub fn add(&mut self, x: u32) -> Result<bool, NoMemory>
        ensures fresh { IfOk result (λ b. IsTrue b ↔ (Contains self.old x → ⊥)) }
        ensures added { IfOk result (λ b. self.new ≡ (if b then self.old ++ x ∷ [] else self.old)) }
        ensures err { OnErr result (self.new ≡ self.old) }
    {
        if self.has(x) {
            return Ok(false);
        }
        make_room(&mut self.places, x)?;
        let place = self.nodes.len();
        self.nodes.push(x)?;
        self.places[x as usize] = Some(place);
        Ok(true)
    }

    /// How many there are.
    pub fn len(&self) -> usize
        ensures len { result ≡ length self.now }
        ensures few { (n : ℕ) → All (λ x. x < n) self.now → length self.now ≤ n }
        ensures different { (j k : ℕ)
            → j < k
            → k < length self.now
            → slice_index self.now j ≢ slice_index self.now k }
    {
        self.nodes.len()
    }

    /// The node at a place.
    pub fn get(&self, i: usize) -> u32
        requires { i < length self.now }
        ensures { result ≡ slice_index self.now i }
    {
        self.nodes[i]
    }

    /// The nodes below a number, rising.
    pub fn rising(&self, alloc: Global, count: u32) -> Result<Vec<u32>, NoMemory>
        ensures members { IfOk result (λ v.
            (x : ℕ) → Contains v.items x ↔ (Contains self.now x × (x < count))) }
        ensures rising { IfOk result (λ v. IsRising v.items) }
    {
        let mut found = Vec::new(alloc);
        for n in 0..count {
            if self.has(n) {
                found.push(n)?;
            }
        }
        Ok(found)
    }
}
