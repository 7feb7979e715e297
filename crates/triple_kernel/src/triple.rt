//! Hoare triples.

use rv_words::List;
use sep_assert::Assertion;
use tailrec_lang::Values;
use word_terms::{Code, Cond, Mem, Word};

/// What is assumed of the variables.
#[derive(Debug, Drop)]
pub enum Fact {
    /// Two words are equal.
    WordIs(Word, Word),
    /// Two memories have the same bytes.
    MemIs(Mem, Mem),
    /// A condition is true.
    So(Cond),
    /// A definition of the group, entered with these arguments, leaves by that exit with these
    /// results for some number of turns. The returned address is the first result, where there is
    /// one.
    Gives {
        def: u32,
        exit: u32,
        args: Values,
        results: Values,
    },
}

/// A Hoare triple: where the facts hold, the code leads from a state in which `pre` holds to one in
/// which `post` does, and leaves the rest of the state alone.
#[derive(Debug, Drop)]
pub struct Triple {
    pub facts: List<Fact>,
    pub pre: Assertion,
    pub code: Code,
    pub post: Assertion,
}
