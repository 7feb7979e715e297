//! Theorems: triples that are valid.

ghost use Rattle.std.specs.Prelude.{◌≡◌};
ghost use Rattle.tailrec_lang.specs.Tree.{group_tree};
ghost use Rattle.triple_kernel.specs.Tree.{triple_tree};
ghost use Rattle.triple_kernel.specs.Valid.{IsValidForFinite, Valid};

use crate::triple::Triple;
use std::marker::Model;
use tailrec_lang::Group;

/// A triple that is valid for its group. This is the type's invariant: whoever has a `Thm` has that
/// fact, which `Thm::triple` tells.
#[derive(Drop)]
pub struct Thm<'g> {
    group: &'g Group,
    triple: Triple,
}

impl<'g> Model for Thm<'g> {
    ghost use Rattle.std.specs.Coded.{codes};
    ghost use Rattle.word_terms.specs.contracts.term.Word as word;
    ghost use Rattle.word_terms.specs.contracts.term.Mem as mem;
    ghost use Rattle.word_terms.specs.contracts.term.Cond as cond;
    ghost use Rattle.tailrec_lang.specs.contracts.group.Body as body;
    ghost use Rattle.tailrec_lang.specs.contracts.group.End as end;
    ghost use Rattle.tailrec_lang.specs.declared.group.Group.{Group as TheGroup};
    ghost use Rattle.tailrec_lang.specs.Tree.{group_tree};
    ghost use Rattle.triple_kernel.specs.declared.triple.Triple.{Triple as TheTriple};
    ghost use Rattle.triple_kernel.specs.Tree.{triple_tree};
    ghost use Rattle.triple_kernel.specs.Valid.{Valid};

    ghost Value = { TheGroup × TheTriple };

    ghost coded = { Prim.hlevel (codes, word.the_row.coded, mem.the_row.coded, cond.the_row.coded, body.the_row.coded, end.the_row.coded) };

    ghost view = { λ t. (t.group.now, t.triple) };

    ghost invariant = { λ t. Valid (group_tree t.group.now) (triple_tree t.triple) };
}

impl<'g> Thm<'g> {
    /// The theorem that a valid triple is.
    pub fn from_valid(group: &'g Group, triple: Triple) -> Thm<'g>
        requires { Valid (group_tree group.now) (triple_tree triple) }
        ensures { result ≡ (group.now, triple) }
    {
        Thm { group, triple }
    }

    /// The triple, which is valid.
    pub fn triple(&self) -> &Triple
        ensures triple { result.now ≡ self.now.1 }
        ensures valid { Valid (group_tree self.now.0) (triple_tree result.now) }
        ensures finite { IsValidForFinite (group_tree self.now.0) (triple_tree result.now) }
    {
        &self.triple
    }

    /// The group for which it is valid.
    pub fn group(&self) -> &'g Group
        ensures { result.now ≡ self.now.0 }
    {
        self.group
    }

    /// The theorem that another valid triple of the group is. Each rule with a theorem as a premise
    /// ends here.
    pub fn concludes(&self, stated: Triple) -> Thm<'g>
        requires { Valid (group_tree self.now.0) (triple_tree stated) }
        ensures { result ≡ (self.now.0, stated) }
    {
        Thm::from_valid(self.group, stated)
    }
}
