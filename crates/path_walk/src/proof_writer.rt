//! The lines of a part as they are written.

ghost use Rattle.std.specs.Prelude.{◌≡◌, ◌<◌, ◌^◌, [], IfOk, OnOk, is_some, map, true};
ghost use Rattle.triple_kernel.specs.Tree.{fact_tree, triple_tree};
ghost use Rattle.group_text.specs.Version.{version_of};
ghost use Rattle.proof_text.specs.Line.{line_tree, rule_tree};
ghost use Rattle.proof_text.specs.LineLimits.{IsRule, IsTriple};
ghost use Rattle.path_walk.specs.inner.Writers.{IsFineWriter, IsFineCited, Restated, citing, writer_tree, cited_tree, stating, stating_further};

use group_text::Version;
use proof_text::{Line, Rule};
use rv_words::{List, NoMemory};
use std::alloc::Global;
use std::marker::Model;
use triple_kernel::{Fact, Triple, same_triple};
use word_terms::Code;

/// A theorem by its number, with its facts and its code.
#[derive(Drop)]
pub struct CitedTheorem {
    number: u64,
    facts: List<Fact>,
    code: Code,
}

impl Model for CitedTheorem {
    ghost use Rattle.std.specs.Coded.{codes};
    ghost use Rattle.word_terms.specs.contracts.term.Word as word;
    ghost use Rattle.word_terms.specs.contracts.term.Mem as mem;
    ghost use Rattle.word_terms.specs.contracts.term.Cond as cond;
    ghost use Rattle.path_walk.specs.inner.Writers.{IsFineCited, CitedOf, cited_tree};

    ghost Value = { CitedOf };

    ghost coded = { Prim.hlevel (codes, word.the_row.coded, mem.the_row.coded, cond.the_row.coded) };

    ghost view = { λ s. record { number = s.number; facts = s.facts; code = s.code.ranges } };

    ghost invariant = { λ s. IsFineCited (cited_tree (record { number = s.number; facts = s.facts; code = s.code.ranges })) };
}

impl CitedTheorem {
    /// The theorem of that number, which has these facts and this code.
    pub fn new(number: u64, facts: List<Fact>, code: Code) -> CitedTheorem
        requires { IsFineCited (cited_tree (record {
          number = number;
          facts = facts;
          code =
              code.ranges;
        })) }
        ensures { cited_tree result
            ≡ record { number = number; facts = map fact_tree facts; code = code.ranges } }
    {
        CitedTheorem {
            number,
            facts,
            code,
        }
    }

    /// Its number.
    pub fn number(&self) -> u64
        ensures { result ≡ self.now.number }
    {
        self.number
    }

    /// Its facts.
    pub fn facts(&self) -> &[Fact]
        ensures { result.now ≡ self.now.facts }
    {
        self.facts.as_slice()
    }

    /// Its code.
    pub fn code(&self) -> &Code
        ensures { result.now.ranges ≡ self.now.code }
    {
        &self.code
    }

    /// It has a text.
    pub fn law_of_texts(&self)
        ensures { IsFineCited (cited_tree self.now) }
    {
        let _number = self.number;
    }
}

/// The version of the text, lines, the number of the next theorem, and the theorems that are cited
/// for leaves.
#[derive(Drop)]
pub struct ProofWriter {
    version: Version,
    lines: List<Line>,
    next: u64,
    cited: List<u64>,
}

impl Model for ProofWriter {
    ghost use Rattle.std.specs.Prelude.{◌+◌, ◌<◌, ◌^◌, length};
    ghost use Rattle.std.specs.Coded.{codes};
    ghost use Rattle.word_terms.specs.contracts.term.Word as word;
    ghost use Rattle.word_terms.specs.contracts.term.Mem as mem;
    ghost use Rattle.word_terms.specs.contracts.term.Cond as cond;
    ghost use Rattle.path_walk.specs.inner.Writers.{IsFineWriter, WriterOf, writer_tree};

    ghost Value = { WriterOf };

    ghost coded = { Prim.hlevel (codes, word.the_row.coded, mem.the_row.coded, cond.the_row.coded) };

    ghost view = { λ l. record { version = l.version; lines = l.lines; next = l.next; cited = l.cited } };

    ghost invariant = { λ l. IsFineWriter (writer_tree (record { version = l.version; lines = l.lines; next = l.next; cited = l.cited })) × (l.next < 2 ^ 63 + length l.lines) };
}

impl ProofWriter {
    /// No line yet.
    pub fn new(alloc: Global, version: Version, first: u64) -> ProofWriter
        requires { first < 2 ^ 63 }
        ensures { writer_tree result
            ≡ record { version = version; lines = []; next = first; cited = [] } }
    {
        ProofWriter {
            version,
            lines: List::new(alloc),
            next: first,
            cited: List::new(alloc),
        }
    }

    /// States a triple by a rule, and tells the theorem's number.
    pub fn state(&mut self, rule: Rule, stated: Triple) -> Result<u64, NoMemory>
        requires rule { IsRule (rule_tree rule) }
        requires stated { IsTriple (triple_tree stated) }
        ensures number { IfOk result (λ k. k ≡ self.old.next) }
        ensures fits { IfOk result (λ k. k < 2 ^ 64) }
        ensures log { OnOk result (writer_tree self.new
            ≡ stating (rule_tree rule) (triple_tree stated) (writer_tree self.old)) }
    {
        let number = self.next;
        let _lines = self.lines.as_slice();
        let next = number + 1;
        self.lines.push(Line::States { rule, stated })?;
        self.next = next;
        Ok(number)
    }

    /// States a triple by a rule from theorem `held`, unless it is what that one states, and tells
    /// the number of the theorem that states it.
    pub fn restate(
        &mut self,
        held: u64,
        known: &Triple,
        rule: Rule,
        stated: Triple,
    ) -> Result<u64, NoMemory>
        requires rule { IsRule (rule_tree rule) }
        requires stated { IsTriple (triple_tree stated) }
        ensures restated { IfOk result (λ k.
            Restated held (rule_tree rule) (triple_tree known.now) (triple_tree stated)
            (writer_tree self.old) (writer_tree self.new) k) }
        ensures fits { IfOk result (λ k. k < 2 ^ 64) }
    {
        if same_triple(known, &stated) {
            return Ok(held);
        }
        let number = self.state(rule, stated)?;
        Ok(number)
    }

    /// States a triple from that theorem by the further rule of the text, and tells the theorem's
    /// number.
    pub fn state_further(&mut self, cited: u64, stated: Triple) -> Result<u64, NoMemory>
        requires further { is_some (version_of self.old.version).further ≡ true }
        requires stated { IsTriple (triple_tree stated) }
        ensures number { IfOk result (λ k. k ≡ self.old.next) }
        ensures fits { IfOk result (λ k. k < 2 ^ 64) }
        ensures log { OnOk result (writer_tree self.new
            ≡ stating_further cited (triple_tree stated) (writer_tree self.old)) }
    {
        let number = self.next;
        let _lines = self.lines.as_slice();
        let next = number + 1;
        self.lines.push(Line::Further { cited, stated })?;
        self.next = next;
        Ok(number)
    }

    /// Cites a theorem for the next leaf.
    pub fn cite(&mut self, theorem: &CitedTheorem) -> Result<(), NoMemory>
        ensures { OnOk result (writer_tree self.new
            ≡ citing theorem.now.number (writer_tree self.old)) }
    {
        self.cited.push(theorem.number())?;
        Ok(())
    }

    /// The lines, and the theorems that are cited.
    pub fn into_parts(self) -> (List<Line>, List<u64>)
        ensures lines { map line_tree result.0 ≡ (writer_tree self).lines }
        ensures cited { result.1 ≡ (writer_tree self).cited }
        ensures fine { IsFineWriter (writer_tree self) }
    {
        (self.lines, self.cited)
    }
}
