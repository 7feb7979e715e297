//! Laws of items of linked functions. This function does nothing: its contract is the law, which
//! speaks of the definitions alone.

ghost use Rattle.std.specs.Prelude.{ℕ, List};
ghost use Rattle.elf_image.specs.Fault.{IsReadable};
ghost use Rattle.group_text.specs.Version.{version_3};
ghost use Rattle.proof_text.specs.Proofs.{AreProofsIn};
ghost use Rattle.frame_compose.specs.Rules.{IsSteered};
ghost use Rattle.verdicts.specs.Accepts.{AcceptsBy};
ghost use Rattle.decompiler.specs.Listing.{AreItemsBy, proofs_of};
ghost use Rattle.call_link.specs.Listing.{linked_form};
ghost use Rattle.path_walk.specs.declared.proof.Proof.{Proof as TheProof};

/// Items for names of a file that can be read are accepted for it, and have a text.
pub fn law_of_linked_items()
    ensures accepted { (file : List ℕ) (names : List (List ℕ)) (p : TheProof)
        → IsReadable file
        → AreItemsBy linked_form file names p
        → AcceptsBy IsSteered file (proofs_of p) }
    ensures text { (file : List ℕ) (names : List (List ℕ)) (p : TheProof)
        → AreItemsBy linked_form file names p
        → AreProofsIn version_3 (proofs_of p) }
{}
