//! Laws of proofs. These functions do nothing: their contracts are the laws. Each speaks of the
//! definitions alone.

ghost use Rattle.std.specs.Prelude.{ℕ, ◌≤◌, List};
ghost use Rattle.elf_image.specs.Image.{code_of_file};
ghost use Rattle.tailrec_lang.specs.Tree.{GroupTree, listed_def};
ghost use Rattle.tailrec_lang.specs.WellFormed.{IsWellFormed};
ghost use Rattle.rv_words.specs.Ranges.{range_bytes};
ghost use Rattle.sep_assert.specs.Code.{IsWithin};
ghost use Rattle.tailrec_lang.specs.Registers.{AreRegistersFrom};
ghost use Rattle.group_text.specs.Limits.{AreGroups};
ghost use Rattle.group_text.specs.declared.version.Version.{Version as Known};
ghost use Rattle.loop_rule.specs.Rule.{IsClosed};
ghost use Rattle.proof_text.specs.Line.{LineTree, ProofTree};
ghost use Rattle.proof_text.specs.Proofs.{groups_of};
ghost use Rattle.verdicts.specs.Further.{further_of};
ghost use Rattle.verdicts.specs.Instance.{History, InstanceBy, after_line};
ghost use Rattle.verdicts.specs.Accepts.{Accepts};
ghost use Rattle.claims.specs.Headline.{IsRight, Headline};
ghost use Rattle.verdicts.specs.Sound.{Sound};
ghost use Rattle.frame_compose.specs.Rules.{IsExchanged};
ghost use Rattle.verdicts.specs.Addresses.{AllHave, ExitsHave, KeepsAddresses};

/// Where the triple of each exit of the last definition is valid, evaluation tells where the
/// machine goes.
pub fn law_of_exits()
    ensures { (file : List ℕ) (g : GroupTree)
        → IsWellFormed g
        → AreRegistersFrom 1 g.regs
        → g.mems ≤ 1
        → IsWithin (range_bytes g.code) (code_of_file file)
        → IsClosed g (listed_def g)
        → IsRight file g }
{}

/// A line that is right in a text of that version keeps theorems and closed definitions valid.
pub fn law_of_lines()
    ensures { (v : Known) (g : GroupTree)
        → IsWellFormed g
        → (h : History)
        → Sound g h
        → (l : LineTree)
        → InstanceBy (further_of v) g h l
        → Sound g (after_line h l) }
{}

/// What is accepted is right.
pub fn law_of_proofs()
    ensures { (file : List ℕ) (ps : List ProofTree)
        → AreGroups (groups_of ps) → Accepts file ps → Headline file (groups_of ps) }
{}

/// The second law: a line that is right keeps that theorems, and the exits of closed definitions,
/// keep the addresses of memories.
pub fn law_of_addresses()
    ensures { (g : GroupTree) (h : History)
        → AllHave (KeepsAddresses g) g h
        → (l : LineTree)
        → InstanceBy IsExchanged g h l
        → AllHave (KeepsAddresses g) g (after_line h l) }
{}

/// Where the triple of each exit of the last definition is valid and keeps the addresses of
/// memories, evaluation tells where the machine goes, over as many regions as there are memories.
pub fn law_of_regions()
    ensures { (file : List ℕ) (g : GroupTree)
        → IsWellFormed g
        → AreRegistersFrom 1 g.regs
        → IsWithin (range_bytes g.code) (code_of_file file)
        → IsClosed g (listed_def g)
        → ExitsHave (KeepsAddresses g) g (listed_def g)
        → IsRight file g }
{}
