//! What a graph and its forest tell of a function, in the form from which definitions of parts are
//! made.

ghost use Rattle.std.specs.Prelude.{◌≡◌, ◌+◌, ◌<◌, ◌≤◌, ◌==◌, ◌^◌, IfOk, IfSome, None, drop, false, if◌then◌else◌, length, slice_index, true};
ghost use Rattle.std.specs.List.{All, list_any};
ghost use Rattle.loop_forest.specs.Forest.{IsForestOf};
ghost use Rattle.code_parts.specs.Bodies.{size};
ghost use Rattle.code_parts.specs.Graph.{IsAlone, IsCode, IsGraph, IsPart, StandsAt, has_edge};
ghost use Rattle.code_parts.specs.Flows.{AreCodeOf, HaveInstructions, IsReached, IsSetFor, alone, function_at as the_function, place_in, same_part, context_of};
ghost use Rattle.code_parts.specs.Regions.{IsOfRegion, IsRegion};
ghost use Rattle.code_parts.specs.Kept.{IsReachedBy, flow_in};
ghost use Rattle.triple_kernel.specs.declared.form.Form.TheVariants.{Next};
ghost use Rattle.rv_decode.specs.Registers.{destination};

use crate::callee::Callee;
use crate::code::code_of;
use crate::context::Context;
use crate::part::Part;
use crate::uses::{registers, returns, uses_memory};
use flow_graph::{Edges, Graph, called_by};
use instr_axioms::Form;
use loop_forest::Forest;
use rv_decode::Instr;
use rv_words::{List, NoMemory};
use rvc::length_of;
use std::alloc::Global;
use std::marker::Model;
use word_terms::{Code, copy_code};

/// A graph and its forest, with what a flow has beside them, and code that has the instructions.
#[derive(Drop)]
pub struct Flow<'a> {
    graph: &'a Graph,
    forest: &'a Forest,
    base: u32,
    parts: &'a [Part],
    regs: List<u8>,
    mems: u8,
    second: &'a [u64],
    functions: &'a [Callee],
    returns: bool,
    code: Code,
}

impl<'a> Model for Flow<'a> {
    ghost use Rattle.code_parts.specs.Kept.{FlowOf, IsKept};

    ghost Value = { FlowOf };

    ghost view = { λ s. record { graph = s.graph.now; forest = s.forest.now; context = record { base = s.base; parts = s.parts.now; regs = s.regs; mems = s.mems; second = s.second.now; functions = s.functions.now }; code = s.code.ranges } };

    ghost invariant = { λ s. IsKept s.graph.now s.forest.now (record { base = s.base; parts = s.parts.now; regs = s.regs; mems = s.mems; second = s.second.now; functions = s.functions.now }) s.returns s.code.ranges };
}

impl<'a> Flow<'a> {
    /// The flow of a function alone, where these parts have their places as numbers.
    pub fn new(
        alloc: Global,
        graph: &'a Graph,
        forest: &'a Forest,
        parts: &'a [Part],
    ) -> Result<Flow<'a>, NoMemory>
        requires reached { IsReached false graph.now }
        requires forest { IsForestOf graph.now forest.now }
        requires few { length parts.now < 2 ^ 32 }
        ensures graph { IfOk result (λ s. s.graph ≡ graph.now) }
        ensures forest { IfOk result (λ s. s.forest ≡ forest.now) }
        ensures parts { IfOk result (λ s. s.context.parts ≡ parts.now) }
        ensures context { IfOk result (λ s. context_of s.context ≡ alone graph.now parts.now) }
        ensures alone { IfOk result (λ s. IsAlone (flow_in s)) }
        ensures code { IfOk result (λ s. AreCodeOf graph.now s.code) }
    {
        let regs = registers(alloc, graph)?;
        let code = code_of(alloc, graph)?;
        Ok(Flow {
            graph,
            forest,
            base: 0,
            parts,
            regs,
            mems: one_if(uses_memory(graph)),
            second: &[],
            functions: &[],
            returns: returns(graph),
            code,
        })
    }

    /// The flow of a function in a context, and in this code.
    pub fn of(
        alloc: Global,
        graph: &'a Graph,
        forest: &'a Forest,
        context: &Context<'a>,
        code: &Code,
    ) -> Result<Flow<'a>, NoMemory>
        requires reached { IsReachedBy graph.now }
        requires forest { IsForestOf graph.now forest.now }
        requires fits { IsSetFor graph.now (context_of context.now) }
        requires few { context.now.base + length context.now.parts < 2 ^ 32 }
        requires mems { context.now.mems ≤ 2 }
        requires code { HaveInstructions graph.now code.now.ranges }
        ensures graph { IfOk result (λ s. s.graph ≡ graph.now) }
        ensures forest { IfOk result (λ s. s.forest ≡ forest.now) }
        ensures context { IfOk result (λ s. s.context ≡ context.now) }
        ensures code { IfOk result (λ s. s.code ≡ code.now.ranges) }
    {
        let regs = List::from_slice(alloc, context.regs)?;
        let code = copy_code(alloc, code)?;
        Ok(Flow {
            graph,
            forest,
            base: context.base,
            parts: context.parts,
            regs,
            mems: context.mems,
            second: context.second,
            functions: context.functions,
            returns: returns(graph),
            code,
        })
    }

    /// The address of a node.
    pub fn addr(&self, n: u32) -> u64
        requires { n < (flow_in self.now).nodes }
        ensures { result ≡ (flow_in self.now).addr n }
    {
        self.graph.addr(n)
    }

    /// The instruction of a node.
    pub fn instr(&self, n: u32) -> Instr
        requires { n < (flow_in self.now).nodes }
        ensures is { result ≡ (flow_in self.now).instr n }
        ensures named { destination result < 32 }
    {
        let _count = self.graph.len();
        self.graph.instr(n)
    }

    /// The node where a node's instruction goes on in that form.
    pub fn to(&self, n: u32, form: Form) -> u32
        requires node { n < (flow_in self.now).nodes }
        ensures is { result ≡ (flow_in self.now).to n form }
        ensures node { has_edge ((flow_in self.now).instr n) form ≡ true
            → result < (flow_in self.now).nodes }
    {
        let _count = self.graph.len();
        let mut ends = self.graph.succs(n);
        match form {
            Form::Next => next_end(&mut ends),
            Form::Taken => {
                next_end(&mut ends);
                next_end(&mut ends)
            }
        }
    }

    /// Whether a node is a cut.
    pub fn is_cut(&self, n: u32) -> bool
        requires { n < (flow_in self.now).nodes }
        ensures { result ≡ (flow_in self.now).is_cut n }
    {
        self.forest.is_cut(n)
    }

    /// The loop whose head a node is.
    pub fn loop_of(&self, n: u32) -> Option<u32>
        ensures is { result ≡ (flow_in self.now).loop_of n }
        ensures within { IfSome result (λ l. l < (flow_in self.now).loops) }
    {
        for l in 0..self.forest.loops() {
            if self.forest.head(l) == n {
                return Some(l);
            }
        }
        None
    }

    /// The smallest loop that has a node, where a head counts as a node of the region around its
    /// loop.
    pub fn around(&self, n: u32) -> Option<u32>
        requires { n < (flow_in self.now).nodes }
        ensures is { result ≡ (flow_in self.now).around n }
        ensures within { IsRegion (flow_in self.now) result }
    {
        self.forest.region(n)
    }

    /// The head of a loop.
    pub fn head(&self, l: u32) -> u32
        requires { l < (flow_in self.now).loops }
        ensures is { result ≡ (flow_in self.now).head l }
        ensures node { result < (flow_in self.now).nodes }
    {
        self.forest.head(l)
    }

    /// The exit targets of a loop.
    pub fn exits(&self, l: u32) -> &[u32]
        requires { l < (flow_in self.now).loops }
        ensures are { result.now ≡ (flow_in self.now).exits l }
        ensures few { length result.now ≤ 8 }
        ensures nodes { All (λ x. x < (flow_in self.now).nodes) result.now }
    {
        self.forest.exits(l)
    }

    /// Whether an instruction returns.
    pub fn returns(&self) -> bool
        ensures { result ≡ (flow_in self.now).returns }
    {
        self.returns
    }

    /// The number of a part's definition.
    pub fn number(&self, p: Part) -> u32
        ensures { result ≡ (flow_in self.now).number p }
    {
        self.base + place_of(self.parts, p)
    }

    /// The registers that are used.
    pub fn regs(&self) -> &[u8]
        ensures are { result.now ≡ (flow_in self.now).regs }
        ensures few { length result.now ≤ 31 }
        ensures registers { All (λ r. (0 < r) × (r < 32)) result.now }
    {
        self.regs.as_slice()
    }

    /// How many memories there are.
    pub fn mems(&self) -> u8
        ensures is { result ≡ (flow_in self.now).mems }
        ensures few { result ≤ 2 }
    {
        self.mems
    }

    /// The memory that a node loads from or stores to, if it does.
    pub fn uses(&self, n: u32) -> u8
        requires { n < (flow_in self.now).nodes }
        ensures is { result ≡ (flow_in self.now).uses n }
        ensures low { result < 2 }
    {
        one_if(is_among(self.second, self.addr(n)))
    }

    /// The function that a node calls.
    pub fn callee(&self, n: u32) -> Option<Callee>
        requires { n < (flow_in self.now).nodes }
        ensures is { result ≡ (flow_in self.now).callee n }
        ensures edge { IfSome result (λ c. has_edge ((flow_in self.now).instr n) Next ≡ true) }
    {
        match called_by(self.addr(n), self.instr(n)) {
            Some(t) => Some(function_at(self.functions, t)),
            None => None,
        }
    }

    /// The code, which has the instructions.
    pub fn code(&self) -> &Code
        ensures is { result.now.ranges ≡ self.now.code }
        ensures whole { HaveInstructions self.now.graph result.now.ranges }
    {
        &self.code
    }

    /// The parcel or word of a node's instruction.
    pub fn word(&self, n: u32) -> u32
        requires { n < (flow_in self.now).nodes }
        ensures is { result ≡ (flow_in self.now).word n }
        ensures stands { StandsAt (flow_in self.now) self.now.code n }
    {
        let _count = self.graph.len();
        self.graph.number(n)
    }

    /// How many bytes a node's instruction has.
    pub fn size(&self, n: u32) -> u8
        requires { n < (flow_in self.now).nodes }
        ensures { result ≡ size (flow_in self.now) n }
    {
        length_of(self.word(n))
    }

    /// Each instruction stands in the code.
    pub fn law_of_code(&self)
        ensures { IsCode (flow_in self.now) self.now.code }
    {
        let _parts = self.parts;
    }

    /// The regions of parts exist.
    pub fn law_of_regions(&self, p: Part)
        requires { IsPart (flow_in self.now) p }
        ensures { IsOfRegion (flow_in self.now) p }
    {
        let _parts = self.parts;
    }

    /// The flow is what bodies of parts rest on.
    pub fn law_of_graphs(&self)
        ensures { IsGraph (flow_in self.now) }
    {
        let _parts = self.parts;
    }
}

/// 1 where that holds, else 0.
fn one_if(holds: bool) -> u8
    ensures { result ≡ if holds then 1 else 0 }
{
    if holds { 1 } else { 0 }
}

/// The next of these nodes, or 0 where there is none.
fn next_end(ends: &mut Edges<'_>) -> u32
    ensures first { result ≡ slice_index ends.old 0 }
    ensures rest { ends.new ≡ drop 1 ends.old }
{
    ends.next().unwrap_or(0)
}

/// The place of a part among these, or their number.
fn place_of(parts: &[Part], p: Part) -> u32
    requires { length parts.now < 2 ^ 32 }
    ensures is { result ≡ place_in parts.now p }
    ensures low { result ≤ length parts.now }
{
    let mut place = 0;
    for q in parts {
        if same(*q, p) {
            return place;
        }
        place += 1;
    }
    place
}

/// Whether an address is one of these.
fn is_among(addresses: &[u64], a: u64) -> bool
    ensures { result ≡ list_any (λ b. b == a) addresses.now }
{
    for b in addresses {
        if *b == a {
            return true;
        }
    }
    false
}

/// The first of these functions that is entered at an address, or none.
fn function_at(functions: &[Callee], a: u64) -> Callee
    ensures { result ≡ the_function functions.now a }
{
    for f in functions {
        if f.entry == a {
            return *f;
        }
    }
    Callee {
        entry: a,
        def: 0,
        returns: false,
    }
}

/// Whether two parts are the same.
fn same(p: Part, q: Part) -> bool
    ensures { result ≡ same_part p q }
{
    match (p, q) {
        (Part::Loop(l), Part::Loop(k)) => l == k,
        (Part::Rest { region: r, node: n }, Part::Rest { region: s, node: m }) => r == s && n == m,
        _ => false,
    }
}
