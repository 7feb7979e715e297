//! Lines that state whole triples, judged by a bench that keeps their terms as numbers.

ghost use Rattle.std.specs.Prelude.{◌≡◌, IsErrOf, OnOk};
ghost use Rattle.proof_text.specs.Line.{spelled_tree};
ghost use Rattle.verdicts.specs.Further.{further_of};
ghost use Rattle.verdicts.specs.Instance.{InstanceBy, after_line};
ghost use Rattle.checker.specs.Bench.{state_group, state_history};

use crate::bench::Bench;
use group_text::Version;
use mc_text::{Scan, TokenError};
use proof_text::{ProofSource, ReadLines, SpelledLine, SpelledLines};
use std::alloc::Global;
use std::marker::Brand;
use std::sync::ledger::{Blank, Ledger};
use tailrec_lang::Group;
use term_arena::Steps;
use triple_kernel::RuleFault;
use verdicts::{
    JudgeLines, JudgeProofs, Judged, Pulled, RuledLines, RuledReader, Verdict, judge_group,
};
use word_terms::Code;

/// Lines that state whole triples, as they are spelled, with the further rule of their version.
/// Nothing is kept of them. A line is boxed, since it is handed on often and is long.
#[derive(Clone, Copy, Debug, Drop)]
pub struct WholeLines;

impl RuledLines for WholeLines {
    ghost use Rattle.proof_text.specs.Line.{spelled_tree};
    ghost use Rattle.proof_text.specs.inner.LineReading.{whole_readers};
    ghost use Rattle.verdicts.specs.Further.{further_of};
    ghost use Rattle.verdicts.specs.LineRules.{whole_rules};

    type Line = Box<SpelledLine>;

    ghost readers = { whole_readers };

    ghost tree = { λ own l. spelled_tree own l.value };

    ghost Behind = { λ s before. Unit {0} };

    ghost rules = { λ v. whole_rules (further_of v) };

    fn start(&mut self, _alloc: Global) {}

    fn read<'a>(
        &mut self,
        alloc: Global,
        scan: &mut Scan<'a>,
        version: Version,
        own: &Code,
    ) -> Result<Box<SpelledLine>, TokenError> {
        match SpelledLines.read(alloc, scan, version, own) {
            Ok(line) => Ok(Box::new(alloc, line)?),
            Err(stop) => Err(stop),
        }
    }
}

impl<'g> JudgeLines<WholeLines> for Bench<'g> {
    ghost use Rattle.checker.specs.Bench.{state_group, state_history};

    ghost group = { state_group };

    ghost history = { state_history };

    ghost GoesWith = { λ b s. Unit {0} };

    fn judge_line(
        &mut self,
        alloc: Global,
        version: Version,
        _lines: &WholeLines,
        line: Box<SpelledLine>,
    ) -> Result<bool, RuleFault> {
        judge_counted::<Brand>(self, alloc, version, &line, Blank::new(1))?;
        Ok(true)
    }

    fn is_closed(&self, def: u32) -> bool {
        self.is_closed(def)
    }
}

/// Judges the next line, with a counter.
fn judge_counted<L: Ledger>(
    bench: &mut Bench<'_>,
    alloc: Global,
    version: Version,
    line: &SpelledLine,
    blank: Blank,
) -> Result<(), RuleFault>
    requires name { blank.name ≡ L.name }
    requires parts { blank.parts ≡ L.parts }
    requires one { L.parts ≡ 1 }
    ensures group { bench.new.0 ≡ bench.old.0 }
    ensures instance { OnOk result (InstanceBy (further_of version) (state_group bench.old)
        (state_history bench.old) (spelled_tree (state_group bench.old).code line.now)) }
    ensures after { OnOk result (state_history bench.new
        ≡ after_line (state_history bench.old)
        (spelled_tree (state_group bench.old).code line.now)) }
    ensures no_instance { IsErrOf result RuleFault.NoInstance
        → InstanceBy (further_of version) (state_group bench.old) (state_history bench.old)
        (spelled_tree (state_group bench.old).code line.now)
        → ⊥ }
{
    bench.judge_spelled(
        alloc,
        version,
        &line.line,
        line.all,
        &mut Steps::<L>::new(blank),
    )
}

/// Judges proofs whose lines state whole triples by benches that keep their terms as numbers.
#[derive(Clone, Copy, Debug, Drop)]
pub struct OverNumbers;

impl<E, P: ProofSource<E, RuledReader<WholeLines>>> JudgeProofs<WholeLines, E, P> for OverNumbers {
    fn judge_proof(
        &self,
        alloc: Global,
        source: &mut P,
        from: &mut E,
        kept: &mut RuledReader<WholeLines>,
        version: Version,
        group: &Group,
        code: &Code,
    ) -> Result<Judged, Pulled> {
        let Ok(mut bench) = Bench::new(alloc, group) else {
            return Err(Pulled::Verdict(Verdict::NoMemory));
        };
        judge_group(alloc, source, from, kept, &mut bench, version, group, code)
    }
}
