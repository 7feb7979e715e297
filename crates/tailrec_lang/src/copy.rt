//! Values copied into memory of their own.

ghost use Rattle.std.specs.Prelude.{◌≡◌, IfOk};
ghost use Rattle.tailrec_lang.specs.Tree.{values_tree};

use crate::group::Values;
use rv_words::NoMemory;
use std::alloc::Global;
use word_terms::{copy_mems, copy_words};

/// The same values in memory of their own.
pub fn copy_values(alloc: Global, values: &Values) -> Result<Values, NoMemory>
    ensures { IfOk result (λ copy. values_tree copy ≡ values_tree values.now) }
{
    let words = copy_words(alloc, values.words.as_slice())?;
    let mems = copy_mems(alloc, values.mems.as_slice())?;
    Ok(Values { words, mems })
}
