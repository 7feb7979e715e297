//! The lines of a proof.

ghost use Rattle.std.specs.Prelude.{◌≡◌, IfOk, true};
ghost use Rattle.triple_kernel.specs.Tree.{triple_tree};
ghost use Rattle.proof_text.specs.Line.{line_or_own, line_tree, spelled_tree, triple_or_own};

use rv_words::{List, NoMemory};
use std::alloc::Global;
use triple_kernel::{Form, Triple};
use word_terms::{Code, Sub, copy_code};

/// The rule by which a triple is stated, with the numbers of the theorems that it is stated from.
#[derive(Debug, Drop)]
pub enum Rule {
    /// The axiom of the instruction word at an address, and how the instruction goes on.
    Axiom(u64, u32, Form),
    Inst(u64, Sub),
    Frame(u64),
    Compose(u64, u64),
    ExtendCode(u64),
    Strengthen(u64),
    Weaken(u64),
    Discharge(u64),
    /// A closed definition, and one of its exits.
    UseExit(u32, u32),
}

/// A line of a proof.
#[derive(Debug, Drop)]
pub enum Line {
    /// States a triple by a rule: the next theorem.
    States { rule: Rule, stated: Triple },
    /// Closes a definition by a theorem for each leaf of its body.
    Loop { def: u32, cited: List<u64> },
    /// Forgets a theorem.
    Forget(u64),
    /// States a triple from a theorem by the further rule of the text's version: the next theorem.
    Further { cited: u64, stated: Triple },
}

/// A line of a proof as it is spelled, without a copy of the group's own code.
#[derive(Debug, Drop)]
pub struct SpelledLine {
    /// The line. Where `all` is true, the code of its triple says nothing.
    pub line: Line,
    /// Whether `all` stands for the code of its triple, which is the group's own then.
    pub all: bool,
}

impl SpelledLine {
    /// The line, with the group's own code where it was left out.
    pub fn with_own(self, alloc: Global, own: &Code) -> Result<Line, NoMemory>
        ensures { IfOk result (λ line. line_tree line ≡ spelled_tree own.now.ranges self) }
    {
        if self.all {
            with_code(alloc, own, self.line)
        } else {
            Ok(self.line)
        }
    }
}

/// The line, whose triple has that code.
fn with_code(alloc: Global, code: &Code, line: Line) -> Result<Line, NoMemory>
    ensures { IfOk result (λ whole.
        line_tree whole ≡ line_or_own code.now.ranges true (line_tree line)) }
{
    match line {
        Line::States { rule, stated } => {
            let stated = triple_of_code(alloc, code, stated)?;
            Ok(Line::States { rule, stated })
        }
        Line::Further { cited, stated } => {
            let stated = triple_of_code(alloc, code, stated)?;
            Ok(Line::Further { cited, stated })
        }
        line => Ok(line),
    }
}

/// The triple, with that code.
fn triple_of_code(alloc: Global, code: &Code, triple: Triple) -> Result<Triple, NoMemory>
    ensures { IfOk result (λ t.
        triple_tree t ≡ triple_or_own code.now.ranges true (triple_tree triple)) }
{
    let code = copy_code(alloc, code)?;
    Ok(Triple {
        facts: triple.facts,
        pre: triple.pre,
        code,
        post: triple.post,
    })
}
