//! Assertions on a part of a machine's state.

ghost use Rattle.std.specs.Prelude.{◌≡◌, ◌↔◌, IsTrue, map};
ghost use Rattle.word_terms.specs.Tree.{mem_tree};
ghost use Rattle.sep_assert.specs.Tree.{assertion_tree, register_tree};

use rv_words::List;
use word_terms::{Mem, Word, same_mem, same_word};

/// What a part of a machine's state holds: the program counter, some registers, and the bytes of
/// some memories, no two of which share an address. Nothing is said of the rest of the state. In a
/// text the registers rise from 1 to 31; the type doesn't ask for it.
#[derive(Debug, Drop)]
pub struct Assertion {
    pub pc: Word,
    pub regs: List<(u8, Word)>,
    pub mems: List<Mem>,
}

/// Whether two assertions are the same tree.
pub fn same_assertion(a: &Assertion, b: &Assertion) -> bool
    ensures { IsTrue result ↔ (assertion_tree a.now ≡ assertion_tree b.now) }
{
    same_word(&a.pc, &b.pc)
        && same_registers(a.regs.as_slice(), b.regs.as_slice())
        && same_mems(a.mems.as_slice(), b.mems.as_slice())
}

/// Whether two lists of registers are the same, with the same terms.
#[tactic(auto, using(crate::proofs::SameLists::map_differs))]
pub fn same_registers(a: &[(u8, Word)], b: &[(u8, Word)]) -> bool
    ensures { IsTrue result ↔ (map register_tree a.now ≡ map register_tree b.now) }
{
    if a.len() != b.len() {
        return false;
    }
    for i in 0..a.len() {
        if !same_register(&a[i], &b[i]) {
            return false;
        }
    }
    true
}

/// Whether two registers are the same with the same term.
pub fn same_register(a: &(u8, Word), b: &(u8, Word)) -> bool
    ensures { IsTrue result ↔ (register_tree a.now ≡ register_tree b.now) }
{
    a.0 == b.0 && same_word(&a.1, &b.1)
}

/// Whether two lists of memories are the same trees.
#[tactic(auto, using(crate::proofs::SameLists::map_differs))]
pub fn same_mems(a: &[Mem], b: &[Mem]) -> bool
    ensures { IsTrue result ↔ (map mem_tree a.now ≡ map mem_tree b.now) }
{
    if a.len() != b.len() {
        return false;
    }
    for i in 0..a.len() {
        if !same_mem(&a[i], &b[i]) {
            return false;
        }
    }
    true
}
