//! The version that a text's first line names.

ghost use Rattle.std.specs.Prelude.{◌≡◌, ◌≤◌, ◌⊎◌, ◌↔◌, ℕ, List as Items, IfOk, IsErrOf, IsTrue, take};
ghost use Rattle.group_text.specs.declared.version.Version.TheVariants.{Two};
ghost use Rattle.mc_shelf.specs.inner.OnlyReads.{OnlyReads};
ghost use Rattle.proof_text.specs.inner.PulledRows.{IfFile};
ghost use Rattle.proof_v2.specs.Titles.{any_version, named_version};

use group_text::Version;
use mc_shelf::{LineFault, Lines, Shelf};
use std::alloc::Global;

/// How many bytes a first line has that names a version.
const TITLE_BYTES: u64 = 10;

/// The version that the first line of a text names, and version 1 where it names none that is
/// taken.
pub fn named_version(text: &[u8]) -> Version
    ensures { result ≡ named_version text.now }
{
    if text.starts_with(b"mcproof 2\n") {
        Version::Two
    } else if text.starts_with(b"mcproof 3\n") {
        Version::Three
    } else if text.starts_with(b"mcproof 4\n") {
        Version::Four
    } else {
        Version::One
    }
}

/// Version 2 where the first line of a text names it, and else version 1.
pub(crate) fn any_version(text: &[u8]) -> Version
    ensures { result ≡ any_version text.now }
{
    if text.starts_with(b"mcproof 2\n") {
        Version::Two
    } else {
        Version::One
    }
}

/// Whether the lines of a text of that version are short ones.
pub(crate) fn is_short(version: Version) -> bool
    ensures { IsTrue result ↔ (version ≡ Two) }
{
    matches!(version, Version::Two)
}

/// The version of a text as one of version 1 or 2, by the version that its first line names.
pub(crate) fn as_any(named: Version) -> Version
    ensures { (text : Items ℕ) → named ≡ named_version text → result ≡ any_version text }
{
    if is_short(named) {
        Version::Two
    } else {
        Version::One
    }
}

/// How many bytes of a text are read for its version.
fn title_size(size: u64) -> u64
    ensures { (result ≡ size) ⊎ ((result ≡ 10) × (10 ≤ size)) }
{
    if size < TITLE_BYTES {
        size
    } else {
        TITLE_BYTES
    }
}

/// The version that the first line of what a name holds names, up to so many bytes.
pub(crate) fn held_version<S: Shelf>(
    alloc: Global,
    name: &str,
    size: u64,
    shelf: &mut S,
) -> Result<Version, LineFault>
    ensures named { IfOk result (λ version. IfFile (S.contents shelf.old) name.now
        (λ file. version ≡ named_version (take size file))) }
    ensures shelf { OnlyReads S.contents S.read_faults S.write_faults S.IsSure
        (IsErrOf result LineFault.Fault) name.now shelf.old shelf.new }
{
    let most = title_size(size);
    let mut lines = Lines::new(name, most);
    match lines.next(alloc, shelf) {
        Ok(Some(line)) => Ok(named_version(line.as_slice())),
        Ok(None) => Ok(Version::One),
        Err(fault) => Err(fault),
    }
}
