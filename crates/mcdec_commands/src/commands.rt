//! The program's commands, over a shelf of files and a sink.

ghost use Rattle.std.specs.Prelude.{◌≡◌, ℕ, ◌≤◌, ◌⊎◌, List, [], ◌∷◌, Some, IfSome, codes};
ghost use Rattle.mc_shelf.specs.Fault.{Rose, WhereTold};
ghost use Rattle.mcdec_commands.specs.Answer.{Gives, IsHindered, KeepsNames, Like, ReadsAreTold};
ghost use Rattle.mcdec_commands.specs.CheckAnswer.{AreRightFiles};
ghost use Rattle.mcdec_commands.specs.LawsAnswer.{CarriesOver};
ghost use Rattle.mcdec_answers.specs.Command.{Command as CommandOf, Words, output_of, texts};
ghost use Rattle.mcdec_commands.specs.Output.{IsOutput, LeavesOut};
ghost use Rattle.mcdec_answers.specs.Printed.{IsDelivered, IsPrinted, status};
ghost use Rattle.mcdec_answers.specs.declared.answer.Answer.{Answer as AnswerOf};

use crate::carried_claims::law_of_rewritten_functions;
use crate::check::answer_check;
use crate::decompile::answer_decompile;
use crate::eval::answer_eval;
use crate::laws::answer_laws;
use crate::migrate::answer_migrate;
use crate::run::answer_run;
use crate::selftest::answer_selftest;
use crate::simplify::answer_simplify;
use crate::smt::answer_smt;
use mc_shelf::{Shelf, Sink};
use mcdec_answers::{Answer, Command, Unread, deliver, read_words};
use std::alloc::Global;

/// Runs the command that the words are, prints the answer's lines and gives its status.
pub fn run_words<S: Shelf, O: Sink>(
    alloc: Global,
    words: &[String],
    shelf: &mut S,
    out: &mut O,
) -> u8
    // The sink gains the lines of an answer that is given to the words, and the status is the
    // answer's.
    ensures lines { (a : AnswerOf)
        × Gives (S.contents shelf.old) (texts words.now)
        (Rose (S.read_faults shelf.old) (S.read_faults shelf.new))
        (Rose (S.write_faults shelf.old) (S.write_faults shelf.new)) a
        × IsDelivered a result (Rose (O.faults out.old) (O.faults out.new))
        (O.written out.old) (O.written out.new) }

    // An answer that the words and the files give comes, or one that differs only in what they
    // leave open, but for faults of the outside and lack of memory.
    ensures exact { IfSome (S.contents shelf.old) (λ files.
        (a : AnswerOf)
        → Gives (Some files) (texts words.now)
        (Rose (S.read_faults shelf.old) (S.read_faults shelf.new))
        (Rose (S.write_faults shelf.old) (S.write_faults shelf.new)) a
        → ((b : AnswerOf) × Like a b × IsPrinted b result (O.written out.old) (O.written out.new))
        ⊎ IsHindered (status a) ⊎ IsHindered result) }

    // Where `check` ends with status 0, the functions of the proof file are right of the ELF file.
    ensures headline { IfSome (S.contents shelf.old) (λ files.
        (elf proof : List ℕ)
        → texts words.now ≡ codes "check" ∷ elf ∷ proof ∷ []
        → result ≡ 0
        → AreRightFiles files elf proof) }

    // Where `laws` ends with status 0, what is claimed of the group's function is claimed of the
    // one with the certificate's definitions.
    ensures rewritten { IfSome (S.contents shelf.old) (λ files.
        (proof cert : List ℕ)
        → texts words.now ≡ codes "laws" ∷ proof ∷ cert ∷ []
        → result ≡ 0
        → CarriesOver files proof cert) }

    // What a command leaves in its output file: with status 0 all of a text that it may write, of
    // which the printed answer tells, with 5 and 6 a front of one or what was there, with any other
    // status what was there.
    ensures written { WhereTold (S.contents shelf.old) (S.contents shelf.new)
        (λ old new.
        (c : CommandOf) (name : List ℕ)
        → Words (texts words.now) c
        → output_of c ≡ Some name
        → LeavesOut (IsOutput old c)
        (λ a. IsPrinted a result (O.written out.old) (O.written out.new)) result
        (old name) (new name)) }

    ensures read_fault { result ≡ 4 → Rose (S.read_faults shelf.old) (S.read_faults shelf.new) }
    ensures write_fault { result ≡ 5
        → Rose (S.write_faults shelf.old) (S.write_faults shelf.new)
        ⊎ Rose (O.faults out.old) (O.faults out.new) }

    ensures kept { WhereTold (S.contents shelf.old) (S.contents shelf.new)
        (KeepsNames (texts words.now)) }
    ensures counted { (S.read_faults shelf.old ≤ S.read_faults shelf.new)
        × (S.write_faults shelf.old ≤ S.write_faults shelf.new)
        × (O.faults out.old ≤ O.faults out.new) }

    ensures sure { S.IsSure shelf.old
        → ReadsAreTold (S.contents shelf.old) (texts words.now)
        → (S.read_faults shelf.new ≡ S.read_faults shelf.old)
        × (S.write_faults shelf.new ≡ S.write_faults shelf.old) }
{
    law_of_rewritten_functions();
    let answer = answer_words(alloc, words, shelf);
    deliver(out, &answer)
}

/// The answer to the words. All is done but the printing.
fn answer_words<S: Shelf>(alloc: Global, words: &[String], shelf: &mut S) -> Answer
    ensures gives { Gives (S.contents shelf.old) (texts words.now)
        (Rose (S.read_faults shelf.old) (S.read_faults shelf.new))
        (Rose (S.write_faults shelf.old) (S.write_faults shelf.new)) result }

    ensures written { WhereTold (S.contents shelf.old) (S.contents shelf.new)
        (λ old new.
        (c : CommandOf) (name : List ℕ)
        → Words (texts words.now) c
        → output_of c ≡ Some name
        → LeavesOut (IsOutput old c) (λ a. a ≡ result) (status result) (old name) (new name)) }
    ensures write_fault { status result ≡ 5
        → Rose (S.write_faults shelf.old) (S.write_faults shelf.new) }

    ensures kept { WhereTold (S.contents shelf.old) (S.contents shelf.new)
        (KeepsNames (texts words.now)) }
    ensures counted { (S.read_faults shelf.old ≤ S.read_faults shelf.new)
        × (S.write_faults shelf.old ≤ S.write_faults shelf.new) }
    ensures sure { S.IsSure shelf.old
        → ReadsAreTold (S.contents shelf.old) (texts words.now)
        → (S.read_faults shelf.new ≡ S.read_faults shelf.old)
        × (S.write_faults shelf.new ≡ S.write_faults shelf.old) }
{
    let command = match read_words(alloc, words) {
        Ok(command) => command,
        Err(Unread::NotACommand) => return Answer::NotACommand,
        Err(Unread::NoMemory) => return Answer::NoMemory,
    };
    match command {
        Command::Eval(e) => answer_eval(alloc, &e, shelf),
        Command::Run(r) => answer_run(alloc, &r, shelf),
        Command::Check(c) => answer_check(alloc, &c, shelf),
        Command::Decompile(d) => answer_decompile(alloc, &d, shelf),
        Command::SelfTest(test) => answer_selftest(alloc, test),
        Command::Simplify(s) => answer_simplify(alloc, &s, shelf),
        Command::Laws(l) => answer_laws(alloc, &l, shelf),
        Command::Smt(s) => answer_smt(alloc, &s, shelf),
        Command::Migrate(m) => answer_migrate(alloc, &m, shelf),
    }
}
