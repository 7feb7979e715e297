//! The offsets of registers at a node.
ghost use Rattle.std.specs.Prelude.{◌≡◌, ℕ, ◌+◌, ◌%◌, ◌^◌, ◌<◌, ◌≤◌, None, false, true, IsTrue, count_by, is_some, length, option_map};
ghost use Rattle.rv_words.specs.Operation.{word_of};
ghost use Rattle.stack_offsets.specs.Offsets.{entry_offsets, given_offset, offsets_after};
ghost use Rattle.stack_offsets.specs.inner.Rows.{both_same, offsets_of};

use rv_decode::{Instr, destination};
use rv_words::Op;

/// An offset, where there is one, moved by an immediate.
fn moved(offset: Option<u64>, imm: i32) -> Option<u64>
    ensures { result ≡ option_map (λ c. (c + word_of imm) % 2 ^ 64) offset }
{
    match offset {
        Some(c) => Some(c.wrapping_add(i64::from(imm).cast_unsigned())),
        None => None,
    }
}

/// Whether there is an offset, and the other one isn't the same.
fn is_lost(offset: Option<u64>, other: Option<u64>) -> bool
    ensures yes { IsTrue result → (is_some offset ≡ true) × (both_same offset other ≡ None) }
    ensures no { result ≡ false → both_same offset other ≡ offset }
{
    match (offset, other) {
        (None, _) => false,
        (Some(_), None) => true,
        (Some(c), Some(d)) => c != d,
    }
}

/// The offsets of the 32 registers.
#[derive(Clone, Copy, Drop)]
pub struct Row {
    offsets: [Option<u64>; 32],
}

impl Row {
    /// The offsets at the entry of a function.
    pub fn at_entry() -> Row
        ensures { (r : ℕ) → offsets_of result r ≡ entry_offsets r }
    {
        let mut offsets = [None; 32];
        offsets[2] = Some(0);
        Row { offsets }
    }

    /// The offset of a register. Only the 32 have one.
    pub fn offset(&self, r: u8) -> Option<u64>
        ensures { result ≡ offsets_of self.now r }
    {
        if r < 32 {
            self.offsets[r as usize]
        } else {
            None
        }
    }

    /// What an instruction gives the register that it writes.
    fn given(&self, i: Instr) -> Option<u64>
        ensures { result ≡ given_offset i (offsets_of self.now) }
    {
        match i {
            Instr::OpImm {
                op: Op::Add,
                rs1,
                imm,
                ..
            } => moved(self.offset(rs1), imm),
            Instr::Op {
                op: Op::Add,
                rs1,
                rs2,
                ..
            } => {
                if rs1 == 0 {
                    self.offset(rs2)
                } else if rs2 == 0 {
                    self.offset(rs1)
                } else {
                    None
                }
            }
            _ => None,
        }
    }

    /// The offsets after an instruction.
    pub fn after(&self, i: Instr) -> Row
        ensures within { (r : ℕ)
            → r < 32
            → offsets_of result r ≡ offsets_after i (offsets_of self.now) r }
        ensures beyond { (r : ℕ) → 32 ≤ r → offsets_of result r ≡ None }
        ensures few { length result.offsets ≡ 32 }
    {
        let mut offsets = self.offsets;
        let rd = destination(&i);
        if rd != 0 && rd < 32 {
            offsets[rd as usize] = self.given(i);
        }
        Row { offsets }
    }

    /// Keeps the offsets that the other row has too, and says whether one was lost.
    pub fn keep(&mut self, other: &Row) -> bool
        ensures kept { (r : ℕ)
            → offsets_of self.new r ≡ both_same (offsets_of self.old r) (offsets_of other.now r) }
        ensures same { result ≡ false → self.new ≡ self.old }
        ensures less { IsTrue result
            → count_by is_some self.new.offsets < count_by is_some self.old.offsets }
    {
        let mut lost = false;
        for r in 0..32 {
            if is_lost(self.offsets[r], other.offsets[r]) {
                self.offsets[r] = None;
                lost = true;
            }
        }
        lost
    }
}
