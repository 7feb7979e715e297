//! The command `smt`.

ghost use Rattle.std.specs.Prelude.{◌≡◌, ℕ, ◌<◌, ◌≤◌, Err, IfSome, List as Items, Some, length};
ghost use Rattle.mc_shelf.specs.Fault.{Rose, WhereTold};
ghost use Rattle.mc_shelf.specs.Shelf.{TellsName};
ghost use Rattle.tailrec_lang.specs.Tree.{group_tree};
ghost use Rattle.tailrec_lang.specs.WellFormed.{IsWellFormed};
ghost use Rattle.mcdec_commands.specs.Answer.{Gives};
ghost use Rattle.mcdec_commands.specs.EvalAnswer.{IsNamed, proof_limit};
ghost use Rattle.mcdec_answers.specs.Printed.{status};
ghost use Rattle.mcdec_answers.specs.CommandReading.{IsReadSmt};
ghost use Rattle.mcdec_commands.specs.SmtAnswer.{IsScriptFor};
ghost use Rattle.mcdec_commands.specs.inner.Exporting.{DefGives};
ghost use Rattle.mcdec_commands.specs.inner.Search.{Finds, HasText};
ghost use Rattle.mcdec_commands.specs.inner.Writing.{IsTold, WritesOut};
ghost use Rattle.mcdec_commands.specs.inner.Shelves.{ReadsThenWrites, WritesFile};

use crate::carried_claims::law_of_exported_functions;
use crate::load::{PROOF_LIMIT, not_read};
use crate::output::write_answer;
use crate::search::{Refusal, find_group};
use mc_shelf::{Shelf, read_file};
use mcdec_answers::{Answer, Smt, SmtAnswer};
use smt_export::{ExportFault, export};
use smt_terms::script_bytes;
use std::alloc::Global;
use tailrec_lang::Group;

/// The answer to `smt`.
pub fn answer_smt<S: Shelf>(alloc: Global, s: &Smt<'_>, shelf: &mut S) -> Answer
    ensures gives { (ws : Items (Items ℕ))
        → IsReadSmt ws s.now
        → Gives (S.contents shelf.old) ws (Rose (S.read_faults shelf.old) (S.read_faults shelf.new))
        (Rose (S.write_faults shelf.old) (S.write_faults shelf.new)) result }

    ensures written { WhereTold (S.contents shelf.old) (S.contents shelf.new)
        (WritesOut (λ files. IsScriptFor files s.now.proof.now s.now.name.now s.now.def)
        s.now.out.now result) }
    ensures shelf { ReadsThenWrites S.contents S.read_faults S.write_faults S.IsSure
        (status result ≡ 5) (λ told. TellsName told s.now.proof.now) shelf.old shelf.new }
{
    let text = match read_file(alloc, shelf, s.proof, PROOF_LIMIT) {
        Ok(text) => text,
        Err(end) => return not_read(end, Answer::Smt(SmtAnswer::OverLimit)),
    };
    match find_group(alloc, text.as_slice(), s.name) {
        Ok(g) => export_def(alloc, &g, s, shelf),
        Err(why) => refuse(why),
    }
}

/// The answer where the proof file has no function of the name.
fn refuse(why: Refusal) -> Answer
    ensures gives { (text name : Items ℕ) (def : ℕ)
        → length text ≤ proof_limit
        → Finds text name (Err why)
        → DefGives text name def result }
    ensures refused { status result ≡ 0 → ⊥ }
    ensures no_fault { status result ≡ 5 → ⊥ }
{
    match why {
        Refusal::Text(line) => Answer::Smt(SmtAnswer::Unreadable(line)),
        Refusal::IllFormed { group, def } => Answer::Smt(SmtAnswer::IllFormed { group, def }),
        Refusal::NoFunction => Answer::Smt(SmtAnswer::NoFunction),
        Refusal::NoMemory => Answer::NoMemory,
    }
}

/// Exports a definition of a group, if it has one of that number and no loop is reached from it,
/// and writes its script into the output file. All that takes memory is made before that.
fn export_def<S: Shelf>(alloc: Global, g: &Group, s: &Smt<'_>, shelf: &mut S) -> Answer
    requires group { HasText (group_tree g.now) }
    requires well_formed { IsWellFormed (group_tree g.now) }
    ensures gives { (text name : Items ℕ)
        → length text ≤ proof_limit
        → IsNamed text name (Some (group_tree g.now))
        → DefGives text name s.now.def result }

    ensures written { (text : Items ℕ)
        → length text ≤ proof_limit
        → IsNamed text s.now.name.now (Some (group_tree g.now))
        → IfSome (S.contents shelf.old) (λ files. files s.now.proof.now ≡ Some text)
        → WhereTold (S.contents shelf.old) (S.contents shelf.new)
        (WritesOut (λ files. IsScriptFor files s.now.proof.now s.now.name.now s.now.def)
        s.now.out.now result) }
    ensures shelf { WritesFile S.contents S.read_faults S.write_faults S.IsSure (status result ≡ 5)
        IsTold shelf.old shelf.new }
{
    if s.def >= g.defs.len() as u64 {
        return Answer::Smt(SmtAnswer::NoDef);
    }
    let def = s.def as u32;
    let script = match export(alloc, g, def) {
        Ok(script) => script,
        Err(ExportFault::Loop(least)) => return Answer::Smt(SmtAnswer::Loop(least)),
        Err(ExportFault::NoMemory) => return Answer::NoMemory,
    };
    let _ = script.funs();
    law_of_exported_functions();
    let Ok(text) = script_bytes(alloc, &script) else {
        return Answer::NoMemory;
    };
    let told = Answer::Smt(SmtAnswer::Exported(def));
    write_answer(shelf, s.out, text.as_slice(), told)
}
