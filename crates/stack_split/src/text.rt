//! The text of a proof of functions whose stack accesses have a memory of their own.

ghost use Rattle.std.specs.Prelude.{◌≡◌, IfOk};
ghost use Rattle.group_text.specs.Version.{version_4};
ghost use Rattle.proof_text.specs.Proofs.{AreProofsIn, text_of_proofs_in};
ghost use Rattle.decompiler.specs.Listing.{proofs_of};

use decompiler::bytes_in;
use path_walk::Proof;
use proof_text::Version;
use rv_words::{Bytes, NoMemory};
use std::alloc::Global;

/// The text of a proof, in version 4.
pub fn split_bytes(alloc: Global, p: &Proof) -> Result<Bytes, NoMemory>
    requires { AreProofsIn version_4 (proofs_of p.now) }
    ensures { IfOk result (λ text. text ≡ text_of_proofs_in version_4 (proofs_of p.now)) }
{
    bytes_in(alloc, Version::Four, p)
}
