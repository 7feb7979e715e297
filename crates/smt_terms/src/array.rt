//! Arrays, and SMT-LIB's operators on them (theory ArraysEx).

ghost use Rattle.std.specs.Prelude.{◌≡◌, ℕ, ◌^◌, ◌==◌, ◌||◌, true, if◌then◌else◌, IfOk};
ghost use Rattle.std.specs.FinMap.{get};
ghost use Rattle.rv_words.specs.Limits.{AreBytesBelow};
ghost use Rattle.smt_terms.specs.Elements.{element};

use crate::vector::Vector;
use rv_words::{ByteMap, NoMemory};
use std::alloc::Global;
use std::rc::Rc;

/// An array from words to bits or bytes: the width of its elements, and they as bytes.
#[derive(Drop)]
pub struct Array {
    pub width: u32,
    pub bytes: Rc<ByteMap>,
    ghost wide: { (width == 1 || width == 8) ≡ true },
    ghost below: { AreBytesBelow (2 ^ width) (get bytes.value) },
}

impl Array {
    /// The same array, which shares the bytes.
    #[tactic(auto, using(crate::proofs::Arrays::same_below))]
    pub fn share(&self) -> Result<Array, NoMemory>
        ensures width { IfOk result (λ a. a.width ≡ self.now.width) }
        ensures bytes { IfOk result (λ a. a.bytes.value ≡ self.now.bytes.value) }
    {
        let bytes = self.bytes.clone()?;
        Ok(Array {
            width: self.width,
            bytes,
        })
    }

    /// `select`
    #[tactic(auto, using(crate::proofs::Arrays::low_element))]
    pub fn select(&self, i: Vector) -> Vector
        requires { i.width ≡ 64 }
        ensures width { result.width ≡ self.now.width }
        ensures number { result.number ≡ element self.now.bytes.value i.number }
    {
        let byte = self.bytes.byte(i.number as u64).unwrap_or(0);
        Vector::new(self.width, u128::from(byte))
    }

    /// `store`
    #[tactic(auto, using(crate::proofs::Arrays::stored_below))]
    pub fn store(&self, alloc: Global, i: Vector, x: Vector) -> Result<Array, NoMemory>
        requires index { i.width ≡ 64 }
        requires element { x.width ≡ self.now.width }
        ensures width { IfOk result (λ a. a.width ≡ self.now.width) }
        ensures bytes { IfOk result (λ a.
            (k : ℕ)
            → element a.bytes.value k
            ≡ (if k == i.number then x.number else element self.now.bytes.value k)) }
    {
        let mut bytes = self.bytes.copy(alloc)?;
        bytes.place(i.number as u64, &[x.number as u8])?;
        let bytes = Rc::new(alloc, bytes)?;
        Ok(Array {
            width: self.width,
            bytes,
        })
    }
}
