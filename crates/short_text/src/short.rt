//! Lines of proofs over a table of terms, without what can be computed.

ghost use Rattle.std.specs.Prelude.{◌≡◌, IfOk, true};
ghost use Rattle.short_text.specs.SpelledShort.{short_line_or_own, short_or_own, spelled_short};

use held_terms::{HeldFact, HeldSide};
use rv_words::{List, NoMemory};
use std::alloc::Global;
use term_arena::Node;
use triple_kernel::Form;
use word_terms::{Code, copy_code};

/// A line of a proof, with numbers of a table's terms in place of terms, and numbers of the
/// theorems that it cites. The triple that it states is the one for which the line of version 1 is
/// an instance.
#[derive(Debug, Drop)]
pub enum Short {
    /// The axiom of the instruction word at an address, and how the instruction goes on.
    Axiom(u64, u32, Form),
    /// The terms for variables of words, and for those of memories, by the variables' numbers.
    Inst(u64, List<(u32, u64)>, List<(u32, u64)>),
    /// The further registers with what they hold, and the further memories.
    Frame(u64, List<(u8, u64)>, List<u64>),
    ExtendCode(u64, Code),
    Compose(u64, u64),
    Strengthen(u64, List<HeldFact>, HeldSide),
    Weaken(u64, List<HeldFact>, HeldSide),
    Discharge(u64, List<HeldFact>),
    /// A closed definition, and one of its exits.
    UseExit(u32, u32),
    /// Closes a definition by a theorem for each leaf of its body.
    Loop(u32, List<u64>),
    /// Forgets a theorem.
    Forget(u64),
}

/// A line behind the definitions of a group in a text of version 2.
#[derive(Debug, Drop)]
pub enum ShortLine {
    /// A term of the group's table, which has the next number.
    Term(Node),
    /// A line of the group's proof, over the table.
    Proof(Short),
}

/// A line of a text of version 2 as it is spelled, without a copy of the group's own code.
#[derive(Debug, Drop)]
pub struct SpelledShort {
    /// The line. Where `all` is true, the code of a line that extends a theorem's code says
    /// nothing.
    pub line: ShortLine,
    /// Whether `all` stands for that code, which is the group's own then.
    pub all: bool,
}

impl SpelledShort {
    /// The line, with the group's own code where it was left out.
    pub fn with_own(self, alloc: Global, own: &Code) -> Result<ShortLine, NoMemory>
        ensures { IfOk result (λ line. line ≡ spelled_short own.now.ranges self) }
    {
        if self.all {
            with_code(alloc, own, self.line)
        } else {
            Ok(self.line)
        }
    }
}

/// The line, which extends a theorem's code by that code if it extends one.
fn with_code(alloc: Global, code: &Code, line: ShortLine) -> Result<ShortLine, NoMemory>
    ensures { IfOk result (λ whole. whole ≡ short_line_or_own code.now.ranges true line) }
{
    match line {
        ShortLine::Proof(line) => {
            let line = short_with_code(alloc, code, line)?;
            Ok(ShortLine::Proof(line))
        }
        line => Ok(line),
    }
}

/// The line of a proof, which extends a theorem's code by that code if it extends one.
fn short_with_code(alloc: Global, code: &Code, line: Short) -> Result<Short, NoMemory>
    ensures { IfOk result (λ whole. whole ≡ short_or_own code.now.ranges true line) }
{
    match line {
        Short::ExtendCode(p, _) => {
            let code = copy_code(alloc, code)?;
            Ok(Short::ExtendCode(p, code))
        }
        line => Ok(line),
    }
}
