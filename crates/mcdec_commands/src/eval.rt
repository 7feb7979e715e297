//! The command `eval`.

ghost use Rattle.std.specs.Prelude.{◌≡◌, ℕ, ◌≤◌, List, All, length, map, IfOk};
ghost use Rattle.mc_shelf.specs.Fault.{Rose};
ghost use Rattle.mc_shelf.specs.Shelf.{TellsName};
ghost use Rattle.tailrec_lang.specs.Tree.{group_tree};
ghost use Rattle.tailrec_lang.specs.Eval.{HasFewNeeds};
ghost use Rattle.tailrec_lang.specs.WellFormed.{IsWellFormed};
ghost use Rattle.mcdec_commands.specs.Answer.{Gives};
ghost use Rattle.mcdec_answers.specs.Command.{Arg, AreArgs, IsMemory};
ghost use Rattle.mcdec_answers.specs.CommandReading.{HoldsArgs, IsReadEval, value_in};
ghost use Rattle.mcdec_commands.specs.EvalAnswer.{EvalGives, proof_limit};
ghost use Rattle.mcdec_commands.specs.inner.Search.{GroupGives, HasText};
ghost use Rattle.mcdec_commands.specs.inner.Shelves.{ReadsFiles};

use crate::load::{PROOF_LIMIT, not_read};
use crate::memory::{memories, ranges_in};
use crate::search::{Refusal, find_group};
use mc_shelf::{Shelf, read_file};
use mcdec_answers::{Answer, Eval, EvalAnswer, Registers, Shown};
use rv_words::{List, NoMemory};
use std::alloc::Global;
use tailrec_lang::{Args, Group, Outcome, eval};

/// The answer to `eval`.
pub fn answer_eval<S: Shelf>(alloc: Global, e: &Eval<'_>, shelf: &mut S) -> Answer
    requires memory { All IsMemory e.now.memory }
    requires stack { All IsMemory e.now.stack }
    ensures gives { (ws : List (List ℕ))
        → IsReadEval ws e.now
        → Gives (S.contents shelf.old) ws (Rose (S.read_faults shelf.old) (S.read_faults shelf.new))
        (Rose (S.write_faults shelf.old) (S.write_faults shelf.new)) result }

    ensures shelf { ReadsFiles S.contents S.read_faults S.write_faults S.IsSure
        (λ told. TellsName told e.now.proof.now) shelf.old shelf.new }
{
    let text = match read_file(alloc, shelf, e.proof, PROOF_LIMIT) {
        Ok(text) => text,
        Err(end) => return not_read(end, Answer::Eval(EvalAnswer::OverLimit)),
    };
    match evaluate_text(alloc, text.as_slice(), e) {
        Ok(answer) => Answer::Eval(answer),
        Err(NoMemory) => Answer::NoMemory,
    }
}

/// The answer to `eval` where its proof file has this text.
fn evaluate_text(alloc: Global, text: &[u8], e: &Eval<'_>) -> Result<EvalAnswer, NoMemory>
    requires memory { All IsMemory e.now.memory }
    requires stack { All IsMemory e.now.stack }
    requires within { length text.now ≤ proof_limit }
    ensures { (args : List Arg)
        → AreArgs args
        → HoldsArgs args e.now.given.values e.now.memory e.now.stack
        → IfOk result (λ a. EvalGives text.now e.now.name.now e.now.turns args a) }
{
    match find_group(alloc, text, e.name) {
        Ok(g) => evaluate_group(alloc, g, e),
        Err(Refusal::Text(line)) => Ok(EvalAnswer::Unreadable(line)),
        Err(Refusal::IllFormed { group, def }) => Ok(EvalAnswer::IllFormed { group, def }),
        Err(Refusal::NoFunction) => Ok(EvalAnswer::NoFunction),
        Err(Refusal::NoMemory) => Err(NoMemory),
    }
}

/// The answer to `eval` of the listed function of this group.
fn evaluate_group(alloc: Global, g: Group, e: &Eval<'_>) -> Result<EvalAnswer, NoMemory>
    requires group { HasText (group_tree g) }
    requires well_formed { IsWellFormed (group_tree g) }
    requires needs { HasFewNeeds (group_tree g) }
    requires memory { All IsMemory e.now.memory }
    requires stack { All IsMemory e.now.stack }
    ensures { (args : List Arg) → HoldsArgs args e.now.given.values e.now.memory e.now.stack
        → IfOk result (λ a. GroupGives (group_tree g) e.now.turns args a) }
{
    let words = arguments(alloc, g.regs.as_slice(), &e.given)?;
    let mems = memories(alloc, g.mems, e.memory.as_slice(), e.stack.as_slice())?;
    let def = (g.defs.len() - 1) as u32;
    match eval(alloc, &g, def, &Args { words, mems }, e.turns)? {
        Outcome::Done { pc, args, left, .. } => {
            let memory = ranges_in(alloc, args.mems.as_slice(), 0, e.memory.as_slice())?;
            let stack = ranges_in(alloc, args.mems.as_slice(), 1, e.stack.as_slice())?;
            Ok(EvalAnswer::Done(Shown {
                count: e.turns - left,
                pc,
                registers: g.regs,
                words: args.words,
                memory,
                stack,
            }))
        }
        Outcome::SideFalse { def, ordinal } => Ok(EvalAnswer::SideFalse { def, ordinal }),
        Outcome::Turns => Ok(EvalAnswer::TurnsUsed),
    }
}

/// The values of the registers.
fn arguments(alloc: Global, registers: &[u8], given: &Registers) -> Result<List<u64>, NoMemory>
    ensures { IfOk result (λ words. words ≡ map (value_in given.now.values) registers.now) }
{
    let mut words = List::new(alloc);
    for register in registers {
        words.push(given.value(*register))?;
    }
    Ok(words)
}
