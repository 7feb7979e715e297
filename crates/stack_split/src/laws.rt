//! The law of items with a second memory. This function does nothing: its contract is the law,
//! which speaks of the definitions alone.

ghost use Rattle.std.specs.Prelude.{ℕ, List};
ghost use Rattle.elf_image.specs.Fault.{IsReadable};
ghost use Rattle.frame_compose.specs.Rules.{IsExchanged};
ghost use Rattle.group_text.specs.Version.{version_4};
ghost use Rattle.proof_text.specs.Proofs.{AreProofsIn};
ghost use Rattle.verdicts.specs.Accepts.{AcceptsBy};
ghost use Rattle.path_walk.specs.declared.proof.Proof.{Proof as TheProof};
ghost use Rattle.decompiler.specs.Listing.{AreItemsBy, proofs_of};
ghost use Rattle.stack_split.specs.Listing.{split_form};

/// Items for names of a file that can be read are accepted for it, and have a text.
pub fn law_of_split_items()
    ensures accepted { (file : List ℕ) (names : List (List ℕ)) (p : TheProof)
        → IsReadable file
        → AreItemsBy split_form file names p
        → AcceptsBy IsExchanged file (proofs_of p) }
    ensures text { (file : List ℕ) (names : List (List ℕ)) (p : TheProof)
        → AreItemsBy split_form file names p
        → AreProofsIn version_4 (proofs_of p) }
{}
