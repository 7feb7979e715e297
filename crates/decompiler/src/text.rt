//! The text of a proof.

ghost use Rattle.std.specs.Prelude.{◌≡◌, ◌≤◌, ◌++◌, IfOk, OnOk, Some, length, map};
ghost use Rattle.std.specs.List.{AllByRecursion};
ghost use Rattle.mc_text.specs.Tokens.{spell};
ghost use Rattle.mc_text.specs.declared.token.Before.TheVariants.{Start};
ghost use Rattle.tailrec_lang.specs.Tree.{group_tree, listed_def};
ghost use Rattle.claims.specs.Headline.{entry_at};
ghost use Rattle.proof_text.specs.Line.{line_tree};
ghost use Rattle.proof_text.specs.LineLimits.{IsLineIn};
ghost use Rattle.proof_text.specs.Proofs.{AreProofs, AreProofsIn, IsProofIn, line_texts_in, proof_texts_in, text_of_proofs, text_of_proofs_in};
ghost use Rattle.group_text.specs.Spelling.{group_tokens};
ghost use Rattle.group_text.specs.Version.{version_of};
ghost use Rattle.decompiler.specs.Listing.{proof_of, proofs_of};

use group_text::put_group;
use path_walk::{Item, Proof};
use proof_text::{Line, Version, put_end, put_newer_line, put_title};
use rv_words::{Bytes, List, NoMemory};
use std::alloc::Global;
use tailrec_lang::Group;

/// The entry of the function that an item lists.
pub fn entry_of(item: &Item) -> u64
    requires { 1 ≤ length (group_tree item.now.group).defs }
    ensures { entry_at (group_tree item.now.group) (listed_def (group_tree item.now.group))
        ≡ Some result }
{
    let defs = item.group.defs.as_slice();
    defs[defs.len() - 1].entry
}

/// The text of a proof.
pub fn proof_bytes(alloc: Global, p: &Proof) -> Result<Bytes, NoMemory>
    requires { AreProofs (proofs_of p.now) }
    ensures { IfOk result (λ text. text ≡ text_of_proofs (proofs_of p.now)) }
{
    bytes_in(alloc, Version::One, p)
}

/// The text of a proof in that version.
#[tactic(auto, using(crate::proofs::Texts::text_parts))]
pub fn bytes_in(alloc: Global, version: Version, p: &Proof) -> Result<Bytes, NoMemory>
    requires { AreProofsIn (version_of version) (proofs_of p.now) }
    ensures { IfOk result (λ text.
        text ≡ text_of_proofs_in (version_of version) (proofs_of p.now)) }
{
    let mut out = List::new(alloc);
    put_title(&mut out, version)?;
    put_items(&mut out, version, p.items.as_slice())?;
    put_end(&mut out)?;
    Ok(out)
}

/// Appends each group's text, and those of its lines after it.
fn put_items(out: &mut Bytes, version: Version, items: &[Item]) -> Result<(), NoMemory>
    requires { AreProofsIn (version_of version) (map proof_of items.now) }
    ensures { OnOk result (out.new
        ≡ out.old ++ proof_texts_in (version_of version) (map proof_of items.now)) }
{
    for item in items {
        put_item(out, version, item)?;
    }
    Ok(())
}

/// Appends a group's text, and those of its lines after it.
pub fn put_item(out: &mut Bytes, version: Version, item: &Item) -> Result<(), NoMemory>
    requires { IsProofIn (version_of version) (proof_of item.now) }
    ensures { OnOk result (out.new
        ≡ out.old
        ++ (spell Start (group_tokens (group_tree item.now.group))
        ++ line_texts_in (version_of version) item.now.group.code.ranges
        (map line_tree item.now.lines))) }
{
    put_group(out, &item.group)?;
    put_lines(out, version, &item.group, item.lines.as_slice())
}

/// Appends the texts of the lines of a group's proof.
fn put_lines(
    out: &mut Bytes,
    version: Version,
    group: &Group,
    lines: &[Line],
) -> Result<(), NoMemory>
    requires { AllByRecursion (IsLineIn (version_of version)) (map line_tree lines.now) }
    ensures { OnOk result (out.new
        ≡ out.old
        ++ line_texts_in (version_of version) group.now.code.ranges (map line_tree lines.now)) }
{
    for line in lines {
        put_newer_line(out, version, group, line)?;
    }
    Ok(())
}
