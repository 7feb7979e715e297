//! The variables at a place of a body.

ghost use Rattle.code_parts.specs.Low.{AreLow};

use instr_axioms::Variables;

/// How many variables are in scope, and which of them stand for the registers and the memories.
/// That of the first memory is among the names.
#[derive(Clone, Copy, Debug)]
pub struct VariableMap {
    pub words: u32,
    pub mems: u32,
    pub names: Variables,
    /// The variable of the second memory.
    pub second: u32,
    /// Where the variables of memories behind the first two are numbered from.
    pub others: u32,
    ghost low: { AreLow words mems names.words names.memory },
}
