//! The text that a command writes into its output file, one line a call.

ghost use Rattle.std.specs.Prelude.{◌≡◌, ◌<◌, ◌≤◌, ◌++◌, IsErrOf, length};
ghost use Rattle.mc_shelf.specs.Fault.{WhereTold};
ghost use Rattle.mc_shelf.specs.Shelf.{TellsName};
ghost use Rattle.mcdec_answers.specs.Printed.{status};
ghost use Rattle.mcdec_commands.specs.inner.Writing.{AddsText, IsTold, ToldOrFault, Writes, WritesOut};
ghost use Rattle.mcdec_commands.specs.inner.Shelves.{WritesFile};

use mc_shelf::{Shelf, Stop};
use mcdec_answers::Answer;

/// Makes the name hold the text and nothing else. The answer is the one that tells of that, or why
/// it failed.
pub fn write_answer<S: Shelf>(shelf: &mut S, name: &str, text: &[u8], told: Answer) -> Answer
    requires { status told ≡ 0 }
    ensures answer { ToldOrFault told result }

    ensures written { WhereTold (S.contents shelf.old) (S.contents shelf.new)
        (WritesOut (λ files b t. (b ≡ told) × (t ≡ text.now)) name.now result) }
    ensures shelf { WritesFile S.contents S.read_faults S.write_faults S.IsSure (status result ≡ 5)
        IsTold shelf.old shelf.new }
{
    match write_text(shelf, name, text) {
        Ok(()) => told,
        Err(Stop::Failed) => Answer::WriteFault,
        Err(Stop::NoMemory) => Answer::NoMemory,
    }
}

/// Makes the name hold the text and nothing else.
fn write_text<S: Shelf>(shelf: &mut S, name: &str, text: &[u8]) -> Result<(), Stop>
    ensures written { WhereTold (S.contents shelf.old) (S.contents shelf.new)
        (Writes result name.now text.now) }

    ensures shelf { WritesFile S.contents S.read_faults S.write_faults S.IsSure
        (IsErrOf result Stop.Failed) IsTold shelf.old shelf.new }
{
    shelf.create(name)?;
    append_lines(shelf, name, text)
}

/// Adds the text to what the name holds, which is there.
fn append_lines<S: Shelf>(shelf: &mut S, name: &str, text: &[u8]) -> Result<(), Stop>
    ensures added { WhereTold (S.contents shelf.old) (S.contents shelf.new)
        (AddsText result name.now text.now) }

    ensures shelf { WritesFile S.contents S.read_faults S.write_faults S.IsSure
        (IsErrOf result Stop.Failed) (λ told. TellsName told name.now) shelf.old shelf.new }
{
    let mut rest = text;
    while !rest.is_empty() {
        let (line, behind) = first_line(rest);
        shelf.append(name, line)?;
        rest = behind;
    }
    Ok(())
}

/// The text up to its first newline, with it, and what stands behind that.
fn first_line(text: &[u8]) -> (&[u8], &[u8])
    ensures parts { text.now ≡ result.0.now ++ result.1.now }
    ensures some { 0 < length text.now → 0 < length result.0.now }
{
    text.split_at(end_of_line(text))
}

/// How many bytes the first line has, with its newline, if there is one.
fn end_of_line(text: &[u8]) -> usize
    ensures within { result ≤ length text.now }
    ensures some { 0 < length text.now → 0 < result }
{
    for i in 0..text.len() {
        if text[i] == b'\n' {
            return i + 1;
        }
    }
    text.len()
}
