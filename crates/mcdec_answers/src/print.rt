//! Printing an answer into a sink, piece by piece. It takes no memory.

ghost use Rattle.std.specs.Prelude.{◌≡◌, ◌⊎◌, ◌≤◌, flat_map, max, min, codes, ◌++◌};
ghost use Rattle.mcdec_answers.specs.Printed.{check_printed, count_lines, decompile_printed, done_word, eval_printed, fault_words, laws_printed, link_words, listed_line, memory_lines, migrate_printed, name_words, outside_words, printed, range_line, register_line, register_lines, run_printed, self_test_line, shown_lines, simplify_printed, smt_printed, status, stuck_words, verdict_printed, IsDelivered};
ghost use Rattle.std.specs.Fmt.{decimal};
ghost use Rattle.hex.specs.Hex.{encode_lower};
ghost use Rattle.loop_forest.specs.Cycles.{last_of};
ghost use Rattle.mc_shelf.specs.Fault.{Rose};
ghost use Rattle.mc_text.specs.Number.{hex};
ghost use Rattle.mcdec_answers.specs.inner.Printing.{Prints, PrintsAnswer, piece_text, pieces_text};

use crate::answer::{
    Answer, CheckAnswer, DecompileAnswer, EvalAnswer, LawsAnswer, Listed, MigrateAnswer, RunAnswer,
    SelfTestAnswer, Shown, SimplifyAnswer, SmtAnswer,
};
use crate::command::{Form, Memory};
use code_parts::LinkWhy;
use elf_image::{ElfFault, NameFault};
use flow_graph::Outside;
use itoa::Buffer;
use mc_shelf::{Sink, Stop};
use mc_text::{digit_pair, hex_into};
use rv_machine::Stuck;
use rv_words::{List as Items, Range};
use verdicts::Verdict;

/// A piece of a line.
#[derive(Clone, Copy)]
pub enum Piece<'a> {
    /// These bytes.
    Text(&'a [u8]),
    /// A number in decimal digits.
    Decimal(u64),
    /// A number in decimal digits that may pass 64 bits.
    Wide(u128),
    /// A number in hexadecimal digits, behind `0x`.
    Hex(u64),
    /// Bytes, in two hexadecimal digits each.
    Bytes(&'a [u8]),
}

fn put_piece<O: Sink>(out: &mut O, piece: &Piece<'_>) -> Result<(), Stop>
    ensures { Prints result (piece_text piece.now) (O.written out.old) (O.written out.new)
        (O.faults out.old) (O.faults out.new) }
{
    match piece {
        Piece::Text(bytes) => out.put(bytes),
        Piece::Decimal(n) => {
            let mut buffer = Buffer::new();
            out.put(buffer.format(*n).as_bytes())
        }
        Piece::Wide(n) => {
            let mut buffer = Buffer::new();
            out.put(buffer.format(*n).as_bytes())
        }
        Piece::Hex(n) => {
            let mut buffer = [0; 18];
            let end = hex_into(*n, &mut buffer);
            out.put(&buffer[..end])
        }
        Piece::Bytes(bytes) => put_bytes(out, bytes),
    }
}

fn put_bytes<O: Sink>(out: &mut O, bytes: &[u8]) -> Result<(), Stop>
    ensures { Prints result (encode_lower bytes.now) (O.written out.old) (O.written out.new)
        (O.faults out.old) (O.faults out.new) }
{
    for byte in bytes {
        put_text(out, &digit_pair(*byte))?;
    }
    Ok(())
}

fn put_all<O: Sink>(out: &mut O, pieces: &[Piece<'_>]) -> Result<(), Stop>
    ensures { Prints result (pieces_text pieces.now) (O.written out.old) (O.written out.new)
        (O.faults out.old) (O.faults out.new) }
{
    for piece in pieces {
        put_piece(out, piece)?;
    }
    Ok(())
}

/// Prints an answer, and gives the status that the program ends with.
pub fn deliver<O: Sink>(out: &mut O, answer: &Answer) -> u8
    ensures delivered { IsDelivered answer.now result (Rose (O.faults out.old) (O.faults out.new))
        (O.written out.old) (O.written out.new) }
    ensures counted { O.faults out.old ≤ O.faults out.new }
    ensures cause { result ≡ 5
        → Rose (O.faults out.old) (O.faults out.new) ⊎ (status answer.now ≡ 5) }
{
    match put_answer(out, answer) {
        Ok(status) => status,
        Err(Stop::Failed) => 5,
        Err(Stop::NoMemory) => 6,
    }
}

/// Prints the lines of an answer, and gives its status.
fn put_answer<O: Sink>(out: &mut O, answer: &Answer) -> Result<u8, Stop>
    ensures { PrintsAnswer result (printed answer.now) (O.written out.old) (O.written out.new)
        (O.faults out.old) (O.faults out.new) }
{
    match answer {
        Answer::NotACommand => put_text(out, b"not a command\n").and(Ok(2)),
        Answer::ReadFault => put_text(out, b"read fault\n").and(Ok(4)),
        Answer::WriteFault => put_text(out, b"write fault\n").and(Ok(5)),
        Answer::NoMemory => put_text(out, b"no memory\n").and(Ok(6)),
        Answer::Eval(a) => put_eval(out, a),
        Answer::Run(a) => put_run(out, a),
        Answer::Check(a) => put_check(out, a),
        Answer::Decompile(a) => put_decompile(out, a),
        Answer::SelfTest(a) => put_self_test(out, a).and(Ok(0)),
        Answer::Simplify(a) => put_simplify(out, a),
        Answer::Laws(a) => put_laws(out, a),
        Answer::Smt(a) => put_smt(out, a),
        Answer::Migrate(a) => put_migrate(out, a),
    }
}

fn put_eval<O: Sink>(out: &mut O, answer: &EvalAnswer) -> Result<u8, Stop>
    ensures { PrintsAnswer result (eval_printed answer.now) (O.written out.old) (O.written out.new)
        (O.faults out.old) (O.faults out.new) }
{
    match answer {
        EvalAnswer::OverLimit => put_text(out, b"over limit proof\n").and(Ok(7)),
        EvalAnswer::Unreadable(line) => put_numbered(out, b"unreadable text ", *line).and(Ok(3)),
        EvalAnswer::IllFormed { group, def } => put_two_numbered(
            out,
            b"refused def ",
            *group,
            u64::from(*def),
        ).and(Ok(1)),
        EvalAnswer::NoFunction => put_text(out, b"refused no function\n").and(Ok(1)),
        EvalAnswer::SideFalse { def, ordinal } => put_two_numbered(
            out,
            b"refused side ",
            u64::from(*def),
            *ordinal,
        ).and(Ok(1)),
        EvalAnswer::TurnsUsed => put_text(out, b"turns used\n").and(Ok(7)),
        EvalAnswer::Done(shown) => put_shown(out, b"done ", shown).and(Ok(0)),
    }
}

fn put_run<O: Sink>(out: &mut O, answer: &RunAnswer) -> Result<u8, Stop>
    ensures { PrintsAnswer result (run_printed answer.now) (O.written out.old) (O.written out.new)
        (O.faults out.old) (O.faults out.new) }
{
    match answer {
        RunAnswer::OverLimit => put_text(out, b"over limit elf\n").and(Ok(7)),
        RunAnswer::Unreadable(why) => put_unreadable_elf(out, why).and(Ok(3)),
        RunAnswer::StartRefused(start, why) => put_start_refused(out, start.as_slice(), *why).and(
            Ok(1),
        ),
        RunAnswer::Stuck(steps, why) => put_stuck(out, *steps, why).and(Ok(1)),
        RunAnswer::StepsUsed => put_text(out, b"steps used\n").and(Ok(7)),
        RunAnswer::Met(shown) => put_shown(out, b"met ", shown).and(Ok(0)),
    }
}

fn put_check<O: Sink>(out: &mut O, answer: &CheckAnswer) -> Result<u8, Stop>
    ensures { PrintsAnswer result (check_printed answer.now) (O.written out.old) (O.written out.new)
        (O.faults out.old) (O.faults out.new) }
{
    match answer {
        CheckAnswer::ElfOverLimit => put_text(out, b"over limit elf\n").and(Ok(7)),
        CheckAnswer::ProofOverLimit => put_text(out, b"over limit proof\n").and(Ok(7)),
        CheckAnswer::Judged(verdict) => put_verdict(out, verdict),
    }
}

fn put_verdict<O: Sink>(out: &mut O, verdict: &Verdict) -> Result<u8, Stop>
    ensures { PrintsAnswer result (verdict_printed verdict.now) (O.written out.old)
        (O.written out.new) (O.faults out.old) (O.faults out.new) }
{
    match verdict {
        Verdict::Accepted { functions, lines } => put_two_numbered(
            out,
            b"accepted ",
            *functions,
            *lines,
        ).and(Ok(0)),
        Verdict::BadElf(why) => put_unreadable_elf(out, why).and(Ok(3)),
        Verdict::BadText(line) => put_numbered(out, b"unreadable text ", *line).and(Ok(3)),
        Verdict::BadDef(group, def) => put_two_numbered(
            out,
            b"refused def ",
            *group,
            u64::from(*def),
        ).and(Ok(1)),
        Verdict::BadLine(line) => put_numbered(out, b"refused line ", *line).and(Ok(1)),
        Verdict::NotProved(group) => put_numbered(out, b"refused group ", *group).and(Ok(1)),
        Verdict::NoMemory => put_text(out, b"no memory\n").and(Ok(6)),
    }
}

fn put_decompile<O: Sink>(out: &mut O, answer: &DecompileAnswer) -> Result<u8, Stop>
    ensures { PrintsAnswer result (decompile_printed answer.now) (O.written out.old)
        (O.written out.new) (O.faults out.old) (O.faults out.new) }
{
    match answer {
        DecompileAnswer::OverLimit => put_text(out, b"over limit elf\n").and(Ok(7)),
        DecompileAnswer::Unreadable(why) => put_unreadable_elf(out, why).and(Ok(3)),
        DecompileAnswer::Refused(name, why) => put_refused(out, name.as_slice(), why).and(Ok(1)),
        DecompileAnswer::Decompiled(form, listed) => {
            put_all_listed(out, *form, listed.as_slice()).and(Ok(0))
        }
    }
}

fn put_simplify<O: Sink>(out: &mut O, answer: &SimplifyAnswer) -> Result<u8, Stop>
    ensures { PrintsAnswer result (simplify_printed answer.now) (O.written out.old)
        (O.written out.new) (O.faults out.old) (O.faults out.new) }
{
    match answer {
        SimplifyAnswer::OverLimit => put_text(out, b"over limit proof\n").and(Ok(7)),
        SimplifyAnswer::Unreadable(line) => put_numbered(out, b"unreadable text ", *line).and(Ok(
            3,
        )),
        SimplifyAnswer::IllFormed { group, def } => put_two_numbered(
            out,
            b"refused def ",
            *group,
            u64::from(*def),
        ).and(Ok(1)),
        SimplifyAnswer::NoFunction => put_text(out, b"refused no function\n").and(Ok(1)),
        SimplifyAnswer::Simplified(steps) => put_numbered(out, b"simplified ", *steps).and(Ok(0)),
    }
}

fn put_laws<O: Sink>(out: &mut O, answer: &LawsAnswer) -> Result<u8, Stop>
    ensures { PrintsAnswer result (laws_printed answer.now) (O.written out.old) (O.written out.new)
        (O.faults out.old) (O.faults out.new) }
{
    match answer {
        LawsAnswer::ProofOverLimit => put_text(out, b"over limit proof\n").and(Ok(7)),
        LawsAnswer::CertOverLimit => put_text(out, b"over limit laws\n").and(Ok(7)),
        LawsAnswer::Unreadable(line) => put_numbered(out, b"unreadable text ", *line).and(Ok(3)),
        LawsAnswer::IllFormed { group, def } => put_two_numbered(
            out,
            b"refused def ",
            *group,
            u64::from(*def),
        ).and(Ok(1)),
        LawsAnswer::UnreadableCert(line) => put_numbered(out, b"unreadable laws ", *line).and(Ok(
            3,
        )),
        LawsAnswer::NoFunction => put_text(out, b"refused no function\n").and(Ok(1)),
        LawsAnswer::OtherGroup => put_text(out, b"refused group\n").and(Ok(1)),
        LawsAnswer::BadStep(line) => put_numbered(out, b"refused step ", *line).and(Ok(1)),
        LawsAnswer::OtherResult => put_text(out, b"refused result\n").and(Ok(1)),
        LawsAnswer::Accepted(steps) => put_numbered(out, b"accepted ", *steps).and(Ok(0)),
    }
}

fn put_smt<O: Sink>(out: &mut O, answer: &SmtAnswer) -> Result<u8, Stop>
    ensures { PrintsAnswer result (smt_printed answer.now) (O.written out.old) (O.written out.new)
        (O.faults out.old) (O.faults out.new) }
{
    match answer {
        SmtAnswer::OverLimit => put_text(out, b"over limit proof\n").and(Ok(7)),
        SmtAnswer::Unreadable(line) => put_numbered(out, b"unreadable text ", *line).and(Ok(3)),
        SmtAnswer::IllFormed { group, def } => put_two_numbered(
            out,
            b"refused def ",
            *group,
            u64::from(*def),
        ).and(Ok(1)),
        SmtAnswer::NoFunction => put_text(out, b"refused no function\n").and(Ok(1)),
        SmtAnswer::NoDef => put_text(out, b"refused no def\n").and(Ok(1)),
        SmtAnswer::Loop(def) => put_numbered(out, b"refused loop ", u64::from(*def)).and(Ok(1)),
        SmtAnswer::Exported(def) => put_numbered(out, b"exported ", u64::from(*def)).and(Ok(0)),
    }
}

fn put_migrate<O: Sink>(out: &mut O, answer: &MigrateAnswer) -> Result<u8, Stop>
    ensures { PrintsAnswer result (migrate_printed answer.now) (O.written out.old)
        (O.written out.new) (O.faults out.old) (O.faults out.new) }
{
    match answer {
        MigrateAnswer::ElfOverLimit => put_text(out, b"over limit elf\n").and(Ok(7)),
        MigrateAnswer::ProofOverLimit => put_text(out, b"over limit proof\n").and(Ok(7)),
        MigrateAnswer::Refused(verdict) => put_verdict(out, verdict),
        MigrateAnswer::Migrated { functions, lines } => put_two_numbered(
            out,
            b"migrated ",
            *functions,
            *lines,
        ).and(Ok(0)),
    }
}

/// A line that ends in a number.
fn put_numbered<O: Sink>(out: &mut O, words: &[u8], number: u64) -> Result<(), Stop>
    ensures { Prints result (words.now ++ decimal number ++ codes "\n") (O.written out.old)
        (O.written out.new) (O.faults out.old) (O.faults out.new) }
{
    put_all(
        out,
        &[
            Piece::Text(words),
            Piece::Decimal(number),
            Piece::Text(b"\n"),
        ],
    )
}

/// A line that ends in two numbers.
fn put_two_numbered<O: Sink>(out: &mut O, words: &[u8], first: u64, second: u64) -> Result<(), Stop>
    ensures { Prints result
        (words.now ++ decimal first ++ codes " " ++ decimal second ++ codes "\n")
        (O.written out.old) (O.written out.new) (O.faults out.old) (O.faults out.new) }
{
    put_all(
        out,
        &[
            Piece::Text(words),
            Piece::Decimal(first),
            Piece::Text(b" "),
            Piece::Decimal(second),
            Piece::Text(b"\n"),
        ],
    )
}

/// The line of a name that is outside the fragment, or can't be linked.
fn put_refused<O: Sink>(out: &mut O, name: &[u8], why: &LinkWhy) -> Result<(), Stop>
    ensures { Prints result
        (codes "refused " ++ name.now ++ codes " " ++ link_words why.now ++ codes "\n")
        (O.written out.old) (O.written out.new) (O.faults out.old) (O.faults out.new) }
{
    put_refused_name(out, name)?;
    put_why(out, why)?;
    put_text(out, b"\n")
}

fn put_refused_name<O: Sink>(out: &mut O, name: &[u8]) -> Result<(), Stop>
    ensures { Prints result (codes "refused " ++ name.now ++ codes " ") (O.written out.old)
        (O.written out.new) (O.faults out.old) (O.faults out.new) }
{
    put_all(
        out,
        &[
            Piece::Text(b"refused "),
            Piece::Text(name),
            Piece::Text(b" "),
        ],
    )
}

fn put_why<O: Sink>(out: &mut O, why: &LinkWhy) -> Result<(), Stop>
    ensures { Prints result (link_words why.now) (O.written out.old) (O.written out.new)
        (O.faults out.old) (O.faults out.new) }
{
    match why {
        LinkWhy::Outside(why) => put_outside(out, why),
        LinkWhy::Recursive(a) => put_address(out, b"recursive ", *a),
    }
}

fn put_outside<O: Sink>(out: &mut O, why: &Outside) -> Result<(), Stop>
    ensures { Prints result (outside_words why.now) (O.written out.old) (O.written out.new)
        (O.faults out.old) (O.faults out.new) }
{
    match why {
        Outside::NoSuch => put_text(out, b"no-such"),
        Outside::Ambiguous(low, high) => put_two(out, b"ambiguous ", *low, *high),
        Outside::TooLarge => put_text(out, b"too-large"),
        Outside::OutsideCode(a) => put_address(out, b"outside-code ", *a),
        Outside::NotDecoded(a, w) => put_two(out, b"not-decoded ", *a, u64::from(*w)),
        Outside::Environment(a) => put_address(out, b"environment ", *a),
        Outside::Call(a) => put_address(out, b"call ", *a),
        Outside::JumpThrough(a) => put_address(out, b"jump-through ", *a),
        Outside::Misaligned(a, target) => put_two(out, b"misaligned ", *a, *target),
        Outside::TwoEntries { first, second, .. } => put_entries(
            out,
            last_of(first),
            last_of(second),
        ),
        Outside::ManyExits(a) => put_address(out, b"many-exits ", *a),
    }
}

fn put_address<O: Sink>(out: &mut O, word: &[u8], a: u64) -> Result<(), Stop>
    ensures { Prints result (word.now ++ hex a) (O.written out.old) (O.written out.new)
        (O.faults out.old) (O.faults out.new) }
{
    put_all(out, &[Piece::Text(word), Piece::Hex(a)])
}

fn put_two<O: Sink>(out: &mut O, word: &[u8], a: u64, b: u64) -> Result<(), Stop>
    ensures { Prints result (word.now ++ hex a ++ codes " " ++ hex b) (O.written out.old)
        (O.written out.new) (O.faults out.old) (O.faults out.new) }
{
    put_all(
        out,
        &[
            Piece::Text(word),
            Piece::Hex(a),
            Piece::Text(b" "),
            Piece::Hex(b),
        ],
    )
}

/// Two nodes, the lesser first.
fn put_entries<O: Sink>(out: &mut O, a: u64, b: u64) -> Result<(), Stop>
    ensures { Prints result (codes "two-entries " ++ hex (min a b) ++ codes " " ++ hex (max a b))
        (O.written out.old) (O.written out.new) (O.faults out.old) (O.faults out.new) }
{
    put_two(out, b"two-entries ", a.min(b), a.max(b))
}

/// The last node of a walk.
fn last_of(walk: &Items<u64>) -> u64
    ensures { result ≡ last_of walk.now }
{
    match walk.as_slice().last() {
        Some(node) => *node,
        None => 0,
    }
}

/// A line for each name.
fn put_all_listed<O: Sink>(out: &mut O, form: Form, all: &[Listed]) -> Result<(), Stop>
    ensures { Prints result (flat_map (listed_line form) all.now) (O.written out.old)
        (O.written out.new) (O.faults out.old) (O.faults out.new) }
{
    for listed in all {
        put_listed(out, form, listed)?;
    }
    Ok(())
}

fn put_listed<O: Sink>(out: &mut O, form: Form, listed: &Listed) -> Result<(), Stop>
    ensures { Prints result (listed_line form listed.now) (O.written out.old) (O.written out.new)
        (O.faults out.old) (O.faults out.new) }
{
    put_all(
        out,
        &[
            Piece::Text(done_word(form)),
            Piece::Text(listed.name.as_slice()),
            Piece::Text(b" "),
            Piece::Hex(listed.entry),
            Piece::Text(b" "),
            Piece::Decimal(u64::from(listed.reached)),
            Piece::Text(b" "),
            Piece::Decimal(listed.defs),
            Piece::Text(b"\n"),
        ],
    )
}

/// What was done with a name.
fn done_word(form: Form) -> &'static [u8]
    ensures { result.now ≡ done_word form }
{
    match form {
        Form::Alone => b"decompiled ",
        Form::Linked => b"linked ",
        Form::Split => b"split ",
    }
}

fn put_self_test<O: Sink>(out: &mut O, answer: &SelfTestAnswer) -> Result<(), Stop>
    ensures { Prints result (self_test_line answer.now) (O.written out.old) (O.written out.new)
        (O.faults out.old) (O.faults out.new) }
{
    put_all(
        out,
        &[
            Piece::Text(b"selftest "),
            Piece::Decimal(answer.number),
            Piece::Text(b" "),
            Piece::Decimal(u64::from(answer.size)),
            Piece::Text(b" instructions "),
            Piece::Decimal(u64::from(answer.outcome.instructions)),
            Piece::Text(b" defs "),
            Piece::Decimal(answer.outcome.defs),
            Piece::Text(b" steps "),
            Piece::Decimal(answer.outcome.steps),
            Piece::Text(b" turns "),
            Piece::Decimal(answer.outcome.turns),
            Piece::Text(b" x10 "),
            Piece::Hex(answer.outcome.value),
            Piece::Text(b"\n"),
        ],
    )
}

fn put_text<O: Sink>(out: &mut O, text: &[u8]) -> Result<(), Stop>
    ensures { Prints result text.now (O.written out.old) (O.written out.new) (O.faults out.old)
        (O.faults out.new) }
{
    out.put(text)
}

/// The line of a START that stands for no address.
fn put_start_refused<O: Sink>(out: &mut O, start: &[u8], why: NameFault) -> Result<(), Stop>
    ensures { Prints result
        (codes "refused " ++ start.now ++ codes " " ++ name_words why ++ codes "\n")
        (O.written out.old) (O.written out.new) (O.faults out.old) (O.faults out.new) }
{
    match why {
        NameFault::NoSuch => put_all(
            out,
            &[
                Piece::Text(b"refused "),
                Piece::Text(start),
                Piece::Text(b" no-such\n"),
            ],
        ),
        NameFault::Ambiguous(low, high) => put_all(
            out,
            &[
                Piece::Text(b"refused "),
                Piece::Text(start),
                Piece::Text(b" ambiguous "),
                Piece::Hex(low),
                Piece::Text(b" "),
                Piece::Hex(high),
                Piece::Text(b"\n"),
            ],
        ),
    }
}

/// The line of a run that stopped where there was no step.
fn put_stuck<O: Sink>(out: &mut O, steps: u64, why: &Stuck) -> Result<(), Stop>
    ensures { Prints result
        (codes "refused stuck " ++ decimal steps ++ codes " " ++ stuck_words why.now ++ codes "\n")
        (O.written out.old) (O.written out.new) (O.faults out.old) (O.faults out.new) }
{
    let steps = Piece::Decimal(steps);
    match why {
        Stuck::Misaligned(a) => put_all(
            out,
            &[
                Piece::Text(b"refused stuck "),
                steps,
                Piece::Text(b" misaligned "),
                Piece::Hex(*a),
                Piece::Text(b"\n"),
            ],
        ),
        Stuck::NoFetch => put_all(
            out,
            &[
                Piece::Text(b"refused stuck "),
                steps,
                Piece::Text(b" no-fetch\n"),
            ],
        ),
        Stuck::NotDecoded(w) => put_all(
            out,
            &[
                Piece::Text(b"refused stuck "),
                steps,
                Piece::Text(b" not-decoded "),
                Piece::Hex(u64::from(*w)),
                Piece::Text(b"\n"),
            ],
        ),
        Stuck::Environment => put_all(
            out,
            &[
                Piece::Text(b"refused stuck "),
                steps,
                Piece::Text(b" environment\n"),
            ],
        ),
        Stuck::NoByte(a) => put_all(
            out,
            &[
                Piece::Text(b"refused stuck "),
                steps,
                Piece::Text(b" no-byte "),
                Piece::Hex(*a),
                Piece::Text(b"\n"),
            ],
        ),
    }
}

/// The line of an ELF file that isn't read.
fn put_unreadable_elf<O: Sink>(out: &mut O, why: &ElfFault) -> Result<(), Stop>
    ensures { Prints result (codes "unreadable elf " ++ fault_words why.now ++ codes "\n")
        (O.written out.old) (O.written out.new) (O.faults out.old) (O.faults out.new) }
{
    put_text(out, b"unreadable elf ")?;
    put_fault(out, why)?;
    put_text(out, b"\n")
}

fn put_fault<O: Sink>(out: &mut O, why: &ElfFault) -> Result<(), Stop>
    ensures { Prints result (fault_words why.now) (O.written out.old) (O.written out.new)
        (O.faults out.old) (O.faults out.new) }
{
    match why {
        ElfFault::NotElf => put_text(out, b"not-elf"),
        ElfFault::Class => put_text(out, b"class"),
        ElfFault::Order => put_text(out, b"order"),
        ElfFault::Kind(n) => put_number(out, b"kind ", *n),
        ElfFault::Machine(n) => put_number(out, b"machine ", *n),
        ElfFault::Cut(place) => put_number(out, b"cut ", *place),
        ElfFault::Overlap(i, j) => put_overlap(out, *i, *j),
        ElfFault::Wraps(i) => put_number(out, b"wraps ", *i),
        ElfFault::TooMany(n) => put_number(out, b"too-many ", *n),
        ElfFault::Symbols => put_text(out, b"symbols"),
        ElfFault::Entry(n) => put_number(out, b"entry ", *n),
        ElfFault::Sizes(i) => put_number(out, b"sizes ", *i),
        ElfFault::TooBig(n) => put_all(out, &[Piece::Text(b"too-big "), Piece::Wide(*n)]),
        ElfFault::NoMemory => put_text(out, b"no memory"),
    }
}

fn put_number<O: Sink>(out: &mut O, word: &[u8], n: u64) -> Result<(), Stop>
    ensures { Prints result (word.now ++ decimal n) (O.written out.old) (O.written out.new)
        (O.faults out.old) (O.faults out.new) }
{
    put_all(out, &[Piece::Text(word), Piece::Decimal(n)])
}

fn put_overlap<O: Sink>(out: &mut O, i: u64, j: u64) -> Result<(), Stop>
    ensures { Prints result (codes "overlap " ++ decimal i ++ codes " " ++ decimal j)
        (O.written out.old) (O.written out.new) (O.faults out.old) (O.faults out.new) }
{
    put_all(
        out,
        &[
            Piece::Text(b"overlap "),
            Piece::Decimal(i),
            Piece::Text(b" "),
            Piece::Decimal(j),
        ],
    )
}

/// The lines of the end of a run or an evaluation.
fn put_shown<O: Sink>(out: &mut O, word: &[u8], shown: &Shown) -> Result<(), Stop>
    ensures { Prints result (shown_lines word.now shown.now) (O.written out.old) (O.written out.new)
        (O.faults out.old) (O.faults out.new) }
{
    put_end(
        out,
        word,
        shown.count,
        shown.pc,
        shown.registers.as_slice(),
        shown.words.as_slice(),
        shown.memory.as_slice(),
        shown.stack.as_slice(),
    )
}

fn put_end<O: Sink>(
    out: &mut O,
    word: &[u8],
    count: u64,
    pc: u64,
    registers: &[u8],
    words: &[u64],
    memory: &[Range],
    stack: &[Range],
) -> Result<(), Stop>
    ensures { Prints result
        (count_lines word.now count pc ++ register_lines registers.now words.now
        ++ memory_lines memory.now stack.now) (O.written out.old) (O.written out.new)
        (O.faults out.old) (O.faults out.new) }
{
    put_count(out, word, count, pc)?;
    put_registers(out, registers, words)?;
    put_memories(out, memory, stack)
}

/// The lines of the ranges of each memory.
fn put_memories<O: Sink>(out: &mut O, memory: &[Range], stack: &[Range]) -> Result<(), Stop>
    ensures { Prints result (memory_lines memory.now stack.now) (O.written out.old)
        (O.written out.new) (O.faults out.old) (O.faults out.new) }
{
    put_ranges(out, Memory::First, memory)?;
    put_ranges(out, Memory::Second, stack)
}

/// The lines of ranges of a memory.
fn put_ranges<O: Sink>(out: &mut O, memory: Memory, ranges: &[Range]) -> Result<(), Stop>
    ensures { Prints result (flat_map (range_line memory) ranges.now) (O.written out.old)
        (O.written out.new) (O.faults out.old) (O.faults out.new) }
{
    for range in ranges {
        put_range(out, memory, range)?;
    }
    Ok(())
}

fn put_range<O: Sink>(out: &mut O, memory: Memory, range: &Range) -> Result<(), Stop>
    ensures { Prints result (range_line memory range.now) (O.written out.old) (O.written out.new)
        (O.faults out.old) (O.faults out.new) }
{
    put_all(
        out,
        &[
            Piece::Text(memory.name().as_bytes()),
            Piece::Text(b" "),
            Piece::Hex(range.at),
            Piece::Text(b" "),
            Piece::Bytes(range.bytes.as_slice()),
            Piece::Text(b"\n"),
        ],
    )
}

/// How many steps or turns there were, and the program counter after them.
fn put_count<O: Sink>(out: &mut O, word: &[u8], count: u64, pc: u64) -> Result<(), Stop>
    ensures { Prints result (count_lines word.now count pc) (O.written out.old) (O.written out.new)
        (O.faults out.old) (O.faults out.new) }
{
    put_all(
        out,
        &[
            Piece::Text(word),
            Piece::Decimal(count),
            Piece::Text(b"\npc "),
            Piece::Hex(pc),
            Piece::Text(b"\n"),
        ],
    )
}

fn put_register<O: Sink>(out: &mut O, register: u8, word: u64) -> Result<(), Stop>
    ensures { Prints result (register_line register word) (O.written out.old) (O.written out.new)
        (O.faults out.old) (O.faults out.new) }
{
    put_all(
        out,
        &[
            Piece::Text(b"x"),
            Piece::Decimal(u64::from(register)),
            Piece::Text(b" "),
            Piece::Hex(word),
            Piece::Text(b"\n"),
        ],
    )
}

fn put_registers<O: Sink>(out: &mut O, registers: &[u8], words: &[u64]) -> Result<(), Stop>
    ensures { Prints result (register_lines registers.now words.now) (O.written out.old)
        (O.written out.new) (O.faults out.old) (O.faults out.new) }
{
    for (register, word) in registers.iter().zip(words) {
        put_register(out, *register, *word)?;
    }
    Ok(())
}
