//! Parts that triples share.

ghost use Rattle.std.specs.Prelude.{◌≡◌, IfOk, length};

use rv_words::{List, NoMemory};
use std::alloc::Global;
use std::marker::Model;
use std::rc::Rc;

/// A part of one triple or of several, which is in memory once.
#[derive(Debug, Drop)]
pub struct Shared<T> {
    part: Rc<T>,
}

impl<T> Model for Shared<T> {
    ghost Value = { T };

    ghost coded = { T.code };

    ghost view = { λ s. s.part.value };
}

impl<T: Drop> Shared<T> {
    /// A part that nothing shares yet.
    pub fn new(alloc: Global, part: T) -> Result<Shared<T>, NoMemory>
        ensures { IfOk result (λ s. s ≡ part) }
    {
        let part = Rc::new(alloc, part)?;
        Ok(Shared { part })
    }

    /// The same part, in the same place.
    pub fn share(&self) -> Result<Shared<T>, NoMemory>
        ensures { IfOk result (λ s. s ≡ self.now) }
    {
        let part = self.part.clone()?;
        Ok(Shared { part })
    }
}

impl<T> Shared<T> {
    /// The part.
    pub fn as_ref(&self) -> &T
        ensures { result.now ≡ self.now }
    {
        self.part.as_ref()
    }

    /// Whether it is shared now.
    pub fn is_shared(&self) -> bool {
        Rc::strong_count(&self.part) > 1
    }
}

impl<T> Shared<List<T>> {
    pub fn len(&self) -> usize
        ensures { result ≡ length self.now }
    {
        self.part.as_ref().len()
    }

    pub fn as_slice(&self) -> &[T]
        ensures { result.now ≡ self.now }
    {
        self.part.as_ref().as_slice()
    }
}
