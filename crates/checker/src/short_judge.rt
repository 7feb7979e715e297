//! Lines of version 2, judged by a bench whose first terms are those of their table.

ghost use Rattle.std.specs.Prelude.{◌≡◌, ◌∷◌, ◌++◌, [], IfOk, IsErrOf, OnOk, length};
ghost use Rattle.std.specs.List.{Contains};
ghost use Rattle.tailrec_lang.specs.Tree.{group_tree};
ghost use Rattle.tailrec_lang.specs.WellFormed.{IsWellFormed};
ghost use Rattle.term_arena.specs.Arena.{AreChildren, Extends};
ghost use Rattle.proof_text.specs.inner.OwnCode.{IsOwnCode};
ghost use Rattle.short_text.specs.SpelledShort.{short_or_own};
ghost use Rattle.short_text.specs.inner.ShortReaders.{AreKept};
ghost use Rattle.verdicts.specs.Instance.{no_lines};
ghost use Rattle.checker.specs.Bench.{state_group, state_history, state_nodes};
ghost use Rattle.checker.specs.Short.{AreWithin, IsFineShort, IsShortInstance, LeavesBehind};

use crate::bench::Bench;
use group_text::Version;
use mc_text::{Scan, TokenError};
use proof_text::{ProofSource, ReadLines};
use rv_words::NoMemory;
use short_text::{Short, ShortLine, ShortLines, SpelledShort};
use std::alloc::Global;
use std::marker::Brand;
use std::sync::ledger::{Blank, Ledger};
use tailrec_lang::Group;
use term_arena::{Node, Steps};
use triple_kernel::RuleFault;
use verdicts::{
    JudgeLines, JudgeProofs, Judged, Pulled, RuledLines, RuledReader, Verdict, judge_group,
};
use word_terms::Code;

/// Lines of version 2: the terms of a table, and the lines of a proof over it. The table is kept.
#[derive(Drop)]
pub struct ByTable {
    pub lines: ShortLines,
}

impl ByTable {
    /// What reads such lines, before the first.
    pub fn new(alloc: Global) -> ByTable
        ensures { AreKept result.lines [] }
    {
        ByTable {
            lines: ShortLines::new(alloc),
        }
    }
}

impl RuledLines for ByTable {
    ghost use Rattle.short_text.specs.SpelledShort.{spelled_short};
    ghost use Rattle.short_text.specs.inner.ShortReaders.{AreKept, short_readers};
    ghost use Rattle.checker.specs.ShortRules.{short_rules};

    type Line = SpelledShort;

    ghost readers = { short_readers };

    ghost tree = { spelled_short };

    ghost Behind = { λ s before. AreKept s.lines before };

    ghost rules = { λ v. short_rules };

    fn start(&mut self, alloc: Global) {
        self.lines.start(alloc);
    }

    fn read<'a>(
        &mut self,
        alloc: Global,
        scan: &mut Scan<'a>,
        version: Version,
        own: &Code,
    ) -> Result<SpelledShort, TokenError> {
        self.lines.read_spelled(alloc, scan, version, own)
    }
}

/// Judges the lines behind a group, one after the other: its terms begin with those of the lines'
/// table.
#[derive(Drop)]
pub(crate) struct TableBench<'g> {
    bench: Bench<'g>,
    /// How many terms the table has.
    terms: u64,
}

impl<'g> TableBench<'g> {
    /// A bench before the first line.
    fn new(alloc: Global, group: &'g Group) -> Result<TableBench<'g>, NoMemory>
        requires { IsWellFormed (group_tree group.now) }
        ensures group { IfOk result (λ b. state_group b.bench ≡ group_tree group.now) }
        ensures none { IfOk result (λ b. state_history b.bench ≡ no_lines) }
        ensures empty { IfOk result (λ b. state_nodes b.bench ≡ []) }
        ensures terms { IfOk result (λ b. b.terms ≡ 0) }
    {
        let bench = Bench::new(alloc, group)?;
        Ok(TableBench { bench, terms: 0 })
    }

    /// Puts the next term of the table behind the others.
    fn put_term(&mut self, n: Node) -> Result<(), NoMemory>
        requires children { AreChildren (state_nodes self.old.bench) n }
        requires new { Contains (state_nodes self.old.bench) n → ⊥ }
        ensures group { state_group self.new.bench ≡ state_group self.old.bench }
        ensures same { state_history self.new.bench ≡ state_history self.old.bench }
        ensures nodes { OnOk result (state_nodes self.new.bench
            ≡ state_nodes self.old.bench ++ n ∷ []) }
        ensures terms { OnOk result (self.new.terms ≡ length (state_nodes self.new.bench)) }
    {
        add_counted::<Brand>(&mut self.bench, n, Blank::new(1))?;
        self.terms = self.bench.terms();
        Ok(())
    }

    /// Judges the next line of the proof, as it is spelled.
    fn derive(&mut self, alloc: Global, line: &Short, all: bool) -> Result<(), RuleFault>
        requires code { IsOwnCode (state_group self.old.bench).code }
        requires within { AreWithin (state_history self.old.bench) }
        requires line { IsFineShort (state_nodes self.old.bench)
            (short_or_own (state_group self.old.bench).code all line.now) }
        ensures group { state_group self.new.bench ≡ state_group self.old.bench }
        ensures left { OnOk result (LeavesBehind (state_group self.old.bench)
            (state_history self.old.bench) (state_nodes self.old.bench)
            (short_or_own (state_group self.old.bench).code all line.now)
            (state_history self.new.bench)) }
        ensures no_instance { IsErrOf result RuleFault.NoInstance
            → IsShortInstance (state_group self.old.bench) (state_history self.old.bench)
            (state_nodes self.old.bench)
            (short_or_own (state_group self.old.bench).code all line.now)
            → ⊥ }
        ensures grows { Extends (state_nodes self.old.bench) (state_nodes self.new.bench) }
        ensures terms { self.new.terms ≡ self.old.terms }
    {
        derive_counted::<Brand>(&mut self.bench, alloc, line, all, Blank::new(1))
    }
}

/// The number of a term that isn't there yet, with a counter.
#[tactic(auto, using(crate::proofs::StandingLemmas::nodes_next))]
fn add_counted<L: Ledger>(bench: &mut Bench<'_>, n: Node, blank: Blank) -> Result<(), NoMemory>
    requires name { blank.name ≡ L.name }
    requires parts { blank.parts ≡ L.parts }
    requires one { L.parts ≡ 1 }
    requires children { AreChildren (state_nodes bench.old) n }
    requires new { Contains (state_nodes bench.old) n → ⊥ }
    ensures nodes { OnOk result (state_nodes bench.new ≡ state_nodes bench.old ++ n ∷ []) }
    ensures group { bench.new.0 ≡ bench.old.0 }
    ensures same { state_history bench.new ≡ state_history bench.old }
{
    bench.add(n, &mut Steps::<L>::new(blank))?;
    Ok(())
}

/// Judges the next line of the proof, with a counter.
fn derive_counted<L: Ledger>(
    bench: &mut Bench<'_>,
    alloc: Global,
    line: &Short,
    all: bool,
    blank: Blank,
) -> Result<(), RuleFault>
    requires name { blank.name ≡ L.name }
    requires parts { blank.parts ≡ L.parts }
    requires one { L.parts ≡ 1 }
    requires code { IsOwnCode (state_group bench.old).code }
    requires within { AreWithin (state_history bench.old) }
    requires line { IsFineShort (state_nodes bench.old) (short_or_own (state_group bench.old).code
        all line.now) }
    ensures group { bench.new.0 ≡ bench.old.0 }
    ensures left { OnOk result (LeavesBehind (state_group bench.old) (state_history bench.old)
        (state_nodes bench.old) (short_or_own (state_group bench.old).code all line.now)
        (state_history bench.new)) }
    ensures no_instance { IsErrOf result RuleFault.NoInstance
        → IsShortInstance (state_group bench.old) (state_history bench.old) (state_nodes bench.old)
        (short_or_own (state_group bench.old).code all line.now)
        → ⊥ }
    ensures grows { Extends (state_nodes bench.old) (state_nodes bench.new) }
{
    bench.derive_spelled(alloc, line, all, &mut Steps::<L>::new(blank))
}

impl<'g> JudgeLines<ByTable> for TableBench<'g> {
    ghost use Rattle.checker.specs.Bench.{state_group, state_history};
    ghost use Rattle.checker.specs.inner.Standing.{StandsWith};

    ghost group = { λ b. state_group b.bench };

    ghost history = { λ b. state_history b.bench };

    ghost GoesWith = { λ b s. StandsWith b.bench b.terms s.lines };

    fn judge_line(
        &mut self,
        alloc: Global,
        _version: Version,
        _lines: &ByTable,
        line: SpelledShort,
    ) -> Result<bool, RuleFault> {
        let SpelledShort { line, all } = line;
        match line {
            ShortLine::Term(n) => {
                self.put_term(n)?;
                Ok(false)
            }
            ShortLine::Proof(s) => {
                self.derive(alloc, &s, all)?;
                Ok(true)
            }
        }
    }

    fn is_closed(&self, def: u32) -> bool {
        self.bench.is_closed(def)
    }
}

/// Judges proofs of version 2, each over the terms of its table.
#[derive(Clone, Copy, Debug, Drop)]
pub struct OverTables;

impl<E, P: ProofSource<E, RuledReader<ByTable>>> JudgeProofs<ByTable, E, P> for OverTables {
    fn judge_proof(
        &self,
        alloc: Global,
        source: &mut P,
        from: &mut E,
        kept: &mut RuledReader<ByTable>,
        version: Version,
        group: &Group,
        code: &Code,
    ) -> Result<Judged, Pulled> {
        let Ok(mut bench) = TableBench::new(alloc, group) else {
            return Err(Pulled::Verdict(Verdict::NoMemory));
        };
        judge_group(alloc, source, from, kept, &mut bench, version, group, code)
    }
}
