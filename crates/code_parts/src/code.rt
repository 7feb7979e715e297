//! The code of a graph, and of several functions.

ghost use Rattle.std.specs.Prelude.{◌+◌, ◌<◌, IfOk, length, List as Items};
ghost use Rattle.std.specs.List.{AllByRecursion};
ghost use Rattle.code_parts.specs.Flows.{AreCodeOf};
ghost use Rattle.code_parts.specs.Kept.{IsReachedBy};
ghost use Rattle.code_parts.specs.inner.Words.{AreCodeTo};
ghost use Rattle.rv_words.specs.Ranges.{AreRanges, range_bytes};
ghost use Rattle.rv_words.specs.declared.range.Range.{Range as TheRange};
ghost use Rattle.sep_assert.specs.Code.{Agree};
ghost use Rattle.code_parts.specs.Groups.{AreCodeOfAll, AreSomeFunctions};
ghost use Rattle.code_parts.specs.inner.Joining.{IsJoined};

use crate::linked_function::Function;
use flow_graph::Graph;
use instr_axioms::word_code;
use rv_words::{List, NoMemory, Range};
use sep_assert::code_join;
use std::alloc::Global;
use word_terms::Code;

/// This code, and that of the next node's instruction.
fn with_node(alloc: Global, graph: &Graph, n: u32, code: &Code) -> Result<Code, NoMemory>
    requires reached { IsReachedBy graph.now }
    requires node { n < length graph.now.addrs }
    requires code { AreCodeTo graph.now n code.now.ranges }
    ensures { IfOk result (λ c. AreCodeTo graph.now (n + 1) c.ranges) }
{
    let more = word_code(alloc, graph.addr(n), graph.number(n))?;
    let all = code_join(alloc, code, &more)?;
    Ok(all)
}

/// The bytes of all instructions, as ranges in order.
pub fn code_of(alloc: Global, graph: &Graph) -> Result<Code, NoMemory>
    requires { IsReachedBy graph.now }
    ensures { IfOk result (λ c. AreCodeOf graph.now c.ranges) }
{
    let mut code = Code {
        ranges: List::new(alloc),
    };
    for n in 0..graph.len() {
        code = with_node(alloc, graph, n, &code)?;
    }
    Ok(code)
}

/// The bytes of code are bytes.
pub fn law_of_bytes(code: &Code)
    ensures { AllByRecursion (λ r. AllByRecursion (λ b. b < 256) r.bytes) code.now.ranges }
{
    law_of_ranges(code.ranges.as_slice());
}

fn law_of_ranges(ranges: &[Range])
    ensures { AllByRecursion (λ r. AllByRecursion (λ b. b < 256) r.bytes) ranges.now }
{
    for range in ranges {
        law_of_items(range.bytes.as_slice());
    }
}

fn law_of_items(bytes: &[u8])
    ensures { AllByRecursion (λ b. b < 256) bytes.now }
{}

/// This code, and that of the instructions of a graph.
fn with_graph(alloc: Global, code: &Code, graph: &Graph) -> Result<Code, NoMemory>
    requires reached { IsReachedBy graph.now }
    requires order { AreRanges code.now.ranges }
    requires agree { (more : Items TheRange)
        → AreCodeOf graph.now more
        → Agree (range_bytes code.now.ranges) (range_bytes more) }
    ensures { IfOk result (λ c. IsJoined graph.now code.now.ranges c.ranges) }
{
    let more = code_of(alloc, graph)?;
    let all = code_join(alloc, code, &more)?;
    Ok(all)
}

/// The bytes of all instructions of these functions, as ranges in order.
pub fn code_of_all(alloc: Global, functions: &[Function]) -> Result<Code, NoMemory>
    requires { AreSomeFunctions functions.now }
    ensures { IfOk result (λ c. AreCodeOfAll functions.now c.ranges) }
{
    let mut code = Code {
        ranges: List::new(alloc),
    };
    for function in functions {
        code = with_graph(alloc, &code, &function.graph)?;
    }
    Ok(code)
}
