//! What the flow of a function has beside its graph.

use crate::callee::Callee;
use crate::part::Part;
use std::marker::Model;

/// What the flow of a function among others has beside its graph. The group's registers rise, and
/// x0 isn't among them. A function that is called and not listed counts as one that doesn't return.
#[derive(Drop)]
pub struct Context<'a> {
    /// How many definitions stand before those of its parts.
    pub base: u32,
    pub parts: &'a [Part],
    pub regs: &'a [u8],
    pub mems: u8,
    /// The addresses of the loads and stores that use the second memory. Any other uses the first.
    pub second: &'a [u64],
    pub functions: &'a [Callee],
}

impl<'a> Model for Context<'a> {
    ghost use Rattle.code_parts.specs.Flows.{ContextOf};

    ghost Value = { ContextOf };

    ghost view = { λ s. record { base = s.base; parts = s.parts.now; regs = s.regs.now; mems = s.mems; second = s.second.now; functions = s.functions.now } };
}
