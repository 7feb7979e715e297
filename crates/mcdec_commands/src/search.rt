//! The search for a group in the text of a proof file, by its name.

ghost use Rattle.std.specs.Prelude.{◌≡◌, ◌<◌, ◌^◌, List, [], ◌∷◌, ◌++◌, length};
ghost use Rattle.tailrec_lang.specs.Tree.{GroupTree, group_tree};
ghost use Rattle.tailrec_lang.specs.Eval.{HasFewNeeds};
ghost use Rattle.group_text.specs.Limits.{IsGroupIn};
ghost use Rattle.group_text.specs.Version.{version_of};
ghost use Rattle.proof_v2.specs.AnyReading.{HasGivenAny};
ghost use Rattle.proof_v2.specs.Titles.{named_version};
ghost use Rattle.mcdec_commands.specs.inner.Search.{Finds, FoundSo, LineIs, LinesArePassed, NextIs};

use proof_text::TextFault;
use proof_v2::{AnyReader, reader_of};
use std::alloc::Global;
use tailrec_lang::{BadDef, Group, well_formed};

/// Why a text has no function of the name.
#[derive(Clone, Copy, PartialEq, Eq)]
pub enum Refusal {
    /// It isn't a proof file, from this line on.
    Text(u64),
    /// In the group of that number, this definition isn't well-formed.
    IllFormed { group: u64, def: u32 },
    /// No group has the name.
    NoFunction,
    /// There was no memory.
    NoMemory,
}

/// The first group of that name. Each group of the text is read and judged, and the lines of its
/// proof are read.
pub fn find_group(alloc: Global, text: &[u8], name: &[u8]) -> Result<Group, Refusal>
    ensures { Finds text.now name.now result }
{
    let mut reader = reader_of(alloc, text);
    find_in(alloc, &mut reader, name)
}

/// The first group of that name in the reader's text, of which nothing was read.
fn find_in(alloc: Global, reader: &mut AnyReader<'_>, name: &[u8]) -> Result<Group, Refusal>
    requires start { HasGivenAny reader.old.progress.version [] reader.old }
    requires version { reader.old.progress.version ≡ named_version reader.old.progress.text }
    requires within { length reader.old.progress.text < 2 ^ 63 }
    ensures { Finds reader.old.progress.text name.now result }
{
    let mut found = None;
    let mut count = 0;
    while let Some(g) = next_group(alloc, reader, count)? {
        found = first_named(found, g, name);
        count += 1;
    }
    match found {
        Some(g) => Ok(g),
        None => Err(Refusal::NoFunction),
    }
}

/// What is found of a name, with one more group.
fn first_named(found: Option<Group>, next: Group, name: &[u8]) -> Option<Group>
    requires { HasFewNeeds (group_tree next) }
    ensures { (gs : List GroupTree)
        → FoundSo name.now gs found
        → FoundSo name.now (gs ++ group_tree next ∷ []) result }
{
    match found {
        Some(first) => Some(first),
        None => {
            if next.name.as_slice() == name {
                Some(next)
            } else {
                None
            }
        }
    }
}

/// The next group, if it is well-formed, with the lines of its proof passed over. Its number is
/// told of one that isn't.
fn next_group(
    alloc: Global,
    reader: &mut AnyReader<'_>,
    number: u64,
) -> Result<Option<Group>, Refusal>
    ensures { NextIs number reader.old reader.new result }
{
    match reader.group(alloc) {
        Ok(None) => Ok(None),
        Ok(Some(g)) => match well_formed(&g) {
            Ok(()) => {
                pass_lines(alloc, reader, &g)?;
                Ok(Some(g))
            }
            Err(BadDef { def }) => Err(Refusal::IllFormed { group: number, def }),
        },
        Err(TextFault::Bad(line)) => Err(Refusal::Text(line)),
        Err(TextFault::NoMemory) => Err(Refusal::NoMemory),
    }
}

/// Goes past the lines of a group's proof, up to where they end.
fn pass_lines(alloc: Global, reader: &mut AnyReader<'_>, g: &Group) -> Result<(), Refusal>
    requires { IsGroupIn (version_of reader.old.progress.version) (group_tree g.now) }
    ensures { LinesArePassed (group_tree g.now) reader.old reader.new result }
{
    while next_line(alloc, reader, g)? {}
    Ok(())
}

/// Goes past the next line of a group's proof, if they haven't ended.
fn next_line(alloc: Global, reader: &mut AnyReader<'_>, g: &Group) -> Result<bool, Refusal>
    requires { IsGroupIn (version_of reader.old.progress.version) (group_tree g.now) }
    ensures { LineIs (group_tree g.now) reader.old reader.new result }
{
    match reader.pass_line(alloc, g) {
        Ok(more) => Ok(more),
        Err(TextFault::Bad(number)) => Err(Refusal::Text(number)),
        Err(TextFault::NoMemory) => Err(Refusal::NoMemory),
    }
}
