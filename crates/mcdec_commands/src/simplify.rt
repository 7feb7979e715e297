//! The command `simplify`.

ghost use Rattle.std.specs.Prelude.{◌≡◌, ℕ, ◌≤◌, Err, IfSome, List as Items, Some, length};
ghost use Rattle.mc_shelf.specs.Fault.{Rose, WhereTold};
ghost use Rattle.mc_shelf.specs.Shelf.{TellsName};
ghost use Rattle.tailrec_lang.specs.Tree.{group_tree};
ghost use Rattle.mcdec_commands.specs.Answer.{Gives};
ghost use Rattle.mcdec_commands.specs.EvalAnswer.{IsNamed, proof_limit};
ghost use Rattle.mcdec_answers.specs.Printed.{status};
ghost use Rattle.mcdec_answers.specs.CommandReading.{IsReadSimplify};
ghost use Rattle.mcdec_commands.specs.inner.Search.{Finds, HasText};
ghost use Rattle.mcdec_commands.specs.SimplifyAnswer.{IsCertFor};
ghost use Rattle.mcdec_commands.specs.inner.Simplifying.{TextGives};
ghost use Rattle.mcdec_commands.specs.inner.Writing.{IsTold, WritesOut};
ghost use Rattle.mcdec_commands.specs.inner.Shelves.{ReadsThenWrites, WritesFile};

use crate::load::{PROOF_LIMIT, not_read};
use crate::output::write_answer;
use crate::search::{Refusal, find_group};
use fun_laws::{cert_bytes, law_of_limits, simplify};
use mc_shelf::{Shelf, read_file};
use mcdec_answers::{Answer, Simplify, SimplifyAnswer};
use std::alloc::Global;
use tailrec_lang::Group;

/// The answer to `simplify`.
pub fn answer_simplify<S: Shelf>(alloc: Global, s: &Simplify<'_>, shelf: &mut S) -> Answer
    ensures gives { (ws : Items (Items ℕ))
        → IsReadSimplify ws s.now
        → Gives (S.contents shelf.old) ws (Rose (S.read_faults shelf.old) (S.read_faults shelf.new))
        (Rose (S.write_faults shelf.old) (S.write_faults shelf.new)) result }

    ensures written { WhereTold (S.contents shelf.old) (S.contents shelf.new)
        (WritesOut (λ files. IsCertFor files s.now.proof.now s.now.name.now) s.now.out.now result) }
    ensures shelf { ReadsThenWrites S.contents S.read_faults S.write_faults S.IsSure
        (status result ≡ 5) (λ told. TellsName told s.now.proof.now) shelf.old shelf.new }
{
    let text = match read_file(alloc, shelf, s.proof, PROOF_LIMIT) {
        Ok(text) => text,
        Err(end) => return not_read(end, Answer::Simplify(SimplifyAnswer::OverLimit)),
    };
    match find_group(alloc, text.as_slice(), s.name) {
        Ok(g) => simplify_group(alloc, &g, s, shelf),
        Err(why) => refuse(why),
    }
}

/// The answer where the proof file has no function to simplify.
fn refuse(why: Refusal) -> Answer
    ensures gives { (text name : Items ℕ)
        → length text ≤ proof_limit
        → Finds text name (Err why)
        → TextGives text name result }
    ensures refused { status result ≡ 0 → ⊥ }
    ensures no_fault { status result ≡ 5 → ⊥ }
{
    match why {
        Refusal::Text(line) => Answer::Simplify(SimplifyAnswer::Unreadable(line)),
        Refusal::IllFormed { group, def } => Answer::Simplify(SimplifyAnswer::IllFormed {
            group,
            def,
        }),
        Refusal::NoFunction => Answer::Simplify(SimplifyAnswer::NoFunction),
        Refusal::NoMemory => Answer::NoMemory,
    }
}

/// Simplifies a group and writes its certificate into the output file. All that takes memory is
/// made before that.
fn simplify_group<S: Shelf>(alloc: Global, g: &Group, s: &Simplify<'_>, shelf: &mut S) -> Answer
    requires { HasText (group_tree g.now) }
    ensures gives { (text name : Items ℕ)
        → length text ≤ proof_limit
        → IsNamed text name (Some (group_tree g.now))
        → TextGives text name result }

    ensures written { (text : Items ℕ)
        → length text ≤ proof_limit
        → IsNamed text s.now.name.now (Some (group_tree g.now))
        → IfSome (S.contents shelf.old) (λ files. files s.now.proof.now ≡ Some text)
        → WhereTold (S.contents shelf.old) (S.contents shelf.new)
        (WritesOut (λ files. IsCertFor files s.now.proof.now s.now.name.now) s.now.out.now result) }
    ensures shelf { WritesFile S.contents S.read_faults S.write_faults S.IsSure (status result ≡ 5)
        IsTold shelf.old shelf.new }
{
    let Ok(cert) = simplify(alloc, g) else {
        return Answer::NoMemory;
    };
    law_of_limits(&cert);
    let Ok(text) = cert_bytes(alloc, &cert) else {
        return Answer::NoMemory;
    };
    let told = Answer::Simplify(SimplifyAnswer::Simplified(cert.steps.len() as u64));
    write_answer(shelf, s.out, text.as_slice(), told)
}
