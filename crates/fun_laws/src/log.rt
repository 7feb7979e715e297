//! Steps of rewriting, noted as they are found.

ghost use Rattle.std.specs.Prelude.{OnOk};
ghost use Rattle.fun_laws.specs.inner.Steps.{IsEntered, IsLeft, IsOneMore};

use crate::step::Rw;
use rv_words::{Bytes, List, NoMemory};
use std::alloc::Global;

/// The steps that were found so far, and where the term stands that is looked at: in which term of
/// which definition, and at which place in it.
#[derive(Debug, Drop)]
pub struct Log {
    pub def: u32,
    pub term: u32,
    pub place: Bytes,
    pub steps: List<Rw>,
}

impl Log {
    /// Notes that the law of that number rewrites the term.
    pub fn note(&mut self, alloc: Global, law: u32) -> Result<(), NoMemory>
        ensures { OnOk result (IsOneMore law self.old self.new) }
    {
        let place = List::from_slice(alloc, self.place.as_slice())?;
        let step = Rw {
            def: self.def,
            term: self.term,
            place,
            law,
        };
        self.steps.push(step)
    }

    /// Goes on to the child of that number.
    pub fn enter(&mut self, child: u8) -> Result<(), NoMemory>
        ensures { OnOk result (IsEntered child self.old self.new) }
    {
        self.place.push(child)
    }

    /// Goes back from a child.
    pub fn leave(&mut self)
        ensures { IsLeft self.old self.new }
    {
        let _child = self.place.pop();
    }
}
