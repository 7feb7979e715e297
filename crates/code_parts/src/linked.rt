//! Linked functions, as one group.

ghost use Rattle.std.specs.Prelude.{◌≡◌, IfOk};
ghost use Rattle.code_parts.specs.Groups.{AreSomeFunctions, IsLinkedGroup, functions_of, context_in};

use crate::callee::Callee;
use crate::code::code_of_all;
use crate::context::Context;
use crate::linked_function::Function;
use crate::linked_uses::{memories, registers_of_all};
use crate::part::Part;
use crate::places::places_of;
use rv_words::{List, NoMemory};
use std::alloc::Global;
use word_terms::Code;

/// One of the functions, with its parts in their order.
#[derive(Drop)]
pub struct LinkedFunction<'a> {
    pub function: &'a Function,
    pub parts: List<Part>,
    /// How many definitions stand before those of its parts.
    pub base: u32,
}

/// Linked functions, callees first, and what their definitions have together.
#[derive(Drop)]
pub struct LinkedGroup<'a> {
    pub functions: List<LinkedFunction<'a>>,
    /// How each function is called, in the same order.
    pub callees: List<Callee>,
    /// The registers but x0 that stand in instructions, rising.
    pub regs: List<u8>,
    /// 1 where an instruction loads or stores, else 0.
    pub mems: u8,
    /// The bytes of all instructions.
    pub code: Code,
}

impl<'a> LinkedGroup<'a> {
    /// What the flow of one of the functions has beside its graph.
    pub fn context<'b>(&'b self, function: &'b LinkedFunction<'a>) -> Context<'b>
        ensures { result ≡ context_in self.now function.now }
    {
        Context {
            base: function.base,
            parts: function.parts.as_slice(),
            regs: self.regs.as_slice(),
            mems: self.mems,
            second: &[],
            functions: self.callees.as_slice(),
        }
    }
}

/// Linked functions, callees first, as one group.
pub fn linked_group<'a>(
    alloc: Global,
    functions: &'a [Function],
) -> Result<LinkedGroup<'a>, NoMemory>
    requires { AreSomeFunctions functions.now }
    ensures functions { IfOk result (λ s. functions_of s ≡ functions.now) }
    ensures group { IfOk result IsLinkedGroup }
{
    let regs = registers_of_all(alloc, functions)?;
    let code = code_of_all(alloc, functions)?;
    let places = places_of(alloc, functions)?;
    Ok(LinkedGroup {
        functions: places.functions,
        callees: places.callees,
        regs,
        mems: memories(functions),
        code,
    })
}
