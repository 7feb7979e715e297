//! The command `laws`.

ghost use Rattle.std.specs.Prelude.{◌≡◌, ℕ, ◌≤◌, IfOk, List as Items, Some, length};
ghost use Rattle.mc_shelf.specs.Fault.{Rose};
ghost use Rattle.mc_shelf.specs.Shelf.{TellsName};
ghost use Rattle.tailrec_lang.specs.Tree.{group_tree};
ghost use Rattle.group_text.specs.Spelling.{group_tokens};
ghost use Rattle.mc_text.specs.Tokens.{spell};
ghost use Rattle.mc_text.specs.declared.token.Before.TheVariants.{Start};
ghost use Rattle.fun_laws.specs.Limits.{IsCert, cert_texts};
ghost use Rattle.fun_laws.specs.Spelling.{cert_text, cert_tree};
ghost use Rattle.mc_text.specs.Fault.{IsBadAt, newlines};
ghost use Rattle.mcdec_commands.specs.Answer.{Gives};
ghost use Rattle.mcdec_commands.specs.EvalAnswer.{IsNamed, proof_limit};
ghost use Rattle.mcdec_commands.specs.LawsAnswer.{TextsGive, step_line};
ghost use Rattle.mcdec_commands.specs.inner.Judging.{CertGives};
ghost use Rattle.mcdec_answers.specs.CommandReading.{IsReadLaws};
ghost use Rattle.mcdec_commands.specs.inner.Shelves.{ReadsFiles};

use crate::load::{CERT_LIMIT, PROOF_LIMIT, not_read};
use crate::search::{Refusal, find_group};
use fun_laws::{Cert, CertFault, judge_cert, read_cert};
use group_text::{TextFault, put_group};
use mc_shelf::{Shelf, read_file};
use mcdec_answers::{Answer, Laws, LawsAnswer};
use rv_words::{Bytes, List, NoMemory};
use std::alloc::Global;
use tailrec_lang::Group;

/// The answer to `laws`.
pub fn answer_laws<S: Shelf>(alloc: Global, l: &Laws<'_>, shelf: &mut S) -> Answer
    ensures gives { (ws : Items (Items ℕ))
        → IsReadLaws ws l.now
        → Gives (S.contents shelf.old) ws (Rose (S.read_faults shelf.old) (S.read_faults shelf.new))
        (Rose (S.write_faults shelf.old) (S.write_faults shelf.new)) result }

    ensures shelf { ReadsFiles S.contents S.read_faults S.write_faults S.IsSure
        (λ told. TellsName told l.now.proof.now × TellsName told l.now.cert.now) shelf.old
        shelf.new }
{
    let file = match read_file(alloc, shelf, l.proof, PROOF_LIMIT) {
        Ok(file) => file,
        Err(end) => return not_read(end, Answer::Laws(LawsAnswer::ProofOverLimit)),
    };
    judge_file(alloc, file.as_slice(), l, shelf)
}

/// The answer to `laws` where the proof file has this text.
fn judge_file<S: Shelf>(alloc: Global, file: &[u8], l: &Laws<'_>, shelf: &mut S) -> Answer
    requires { length file.now ≤ proof_limit }
    ensures gives { CertGives (S.contents shelf.old) l.now.cert.now file.now
        (Rose (S.read_faults shelf.old) (S.read_faults shelf.new)) result }

    ensures shelf { ReadsFiles S.contents S.read_faults S.write_faults S.IsSure
        (λ told. TellsName told l.now.cert.now) shelf.old shelf.new }
{
    let text = match read_file(alloc, shelf, l.cert, CERT_LIMIT) {
        Ok(text) => text,
        Err(end) => return not_read(end, Answer::Laws(LawsAnswer::CertOverLimit)),
    };
    match judge_texts(alloc, file, text.as_slice()) {
        Ok(answer) => Answer::Laws(answer),
        Err(NoMemory) => Answer::NoMemory,
    }
}

/// The answer where the one file has this text of proofs and the other this text. The faults of the
/// first are told before those of the second, and both before what the certificate says.
fn judge_texts(alloc: Global, file: &[u8], text: &[u8]) -> Result<LawsAnswer, NoMemory>
    ensures { IfOk result (λ a. TextsGive file.now text.now a) }
{
    match read_cert(alloc, text) {
        Ok(cert) => judge(alloc, file, &cert),
        Err(TextFault::Bad(line)) => unreadable(alloc, file, line),
        Err(TextFault::NoMemory) => Err(NoMemory),
    }
}

/// The answer where the second file is no certificate, from this line on.
fn unreadable(alloc: Global, file: &[u8], line: u64) -> Result<LawsAnswer, NoMemory>
    ensures { (text : Items ℕ)
        → IsBadAt cert_texts text line
        → IfOk result (λ a. TextsGive file.now text a) }
{
    match find_group(alloc, file, b"") {
        Ok(_) => Ok(LawsAnswer::UnreadableCert(line)),
        Err(Refusal::NoFunction) => Ok(LawsAnswer::UnreadableCert(line)),
        Err(Refusal::Text(line)) => Ok(LawsAnswer::Unreadable(line)),
        Err(Refusal::IllFormed { group, def }) => Ok(LawsAnswer::IllFormed { group, def }),
        Err(Refusal::NoMemory) => Err(NoMemory),
    }
}

/// The answer where the second file is this certificate.
fn judge(alloc: Global, file: &[u8], cert: &Cert) -> Result<LawsAnswer, NoMemory>
    requires { IsCert (cert_tree cert.now) }
    ensures { (text : Items ℕ)
        → text ≡ cert_text (cert_tree cert.now)
        → IfOk result (λ a. TextsGive file.now text a) }
{
    match find_group(alloc, file, cert.old.name.as_slice()) {
        Ok(g) => judge_of(alloc, &g, cert),
        Err(Refusal::Text(line)) => Ok(LawsAnswer::Unreadable(line)),
        Err(Refusal::IllFormed { group, def }) => Ok(LawsAnswer::IllFormed { group, def }),
        Err(Refusal::NoFunction) => Ok(LawsAnswer::NoFunction),
        Err(Refusal::NoMemory) => Err(NoMemory),
    }
}

/// The answer where this is the group of the certificate's name.
fn judge_of(alloc: Global, g: &Group, cert: &Cert) -> Result<LawsAnswer, NoMemory>
    requires { IsCert (cert_tree cert.now) }
    ensures { (file text : Items ℕ)
        → text ≡ cert_text (cert_tree cert.now)
        → IsNamed file (cert_tree cert.now).old.name (Some (group_tree g.now))
        → IfOk result (λ a. TextsGive file text a) }
{
    match judge_cert(alloc, g, cert) {
        Ok(()) => Ok(LawsAnswer::Accepted(cert.steps.len() as u64)),
        Err(CertFault::Group) => Ok(LawsAnswer::OtherGroup),
        Err(CertFault::Step(step)) => {
            let line = step_line(alloc, &cert.old, step)?;
            Ok(LawsAnswer::BadStep(line))
        }
        Err(CertFault::Result) => Ok(LawsAnswer::OtherResult),
        Err(CertFault::NoMemory) => Err(NoMemory),
    }
}

/// The line of a step in a certificate of this group: behind the line of the title and those of the
/// group.
fn step_line(alloc: Global, old: &Group, step: u32) -> Result<u64, NoMemory>
    ensures { IfOk result (λ line. line ≡ step_line (group_tree old.now) step) }
{
    let bytes = group_bytes(alloc, old)?;
    Ok(count_lines(bytes.as_slice()) + u64::from(step) + 2)
}

/// The text of a group.
fn group_bytes(alloc: Global, g: &Group) -> Result<Bytes, NoMemory>
    ensures { IfOk result (λ bytes. bytes ≡ spell Start (group_tokens (group_tree g.now))) }
{
    let mut bytes = List::new(alloc);
    put_group(&mut bytes, g)?;
    Ok(bytes)
}

/// How many newlines the text has.
fn count_lines(text: &[u8]) -> u64
    ensures count { result ≡ newlines text.now }
    ensures few { result ≤ length text.now }
{
    let mut count = 0;
    for byte in text {
        if *byte == b'\n' {
            count += 1;
        }
    }
    count
}
