//! Where a way begins.

use code_parts::VariableMap;

/// Where a way begins: the registers that its theorems are over, the program counter, and the
/// variables there.
#[derive(Drop)]
pub struct Origin<'a> {
    pub regs: &'a [u8],
    pub entry: u64,
    pub place: VariableMap,
}
