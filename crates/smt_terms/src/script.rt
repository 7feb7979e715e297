//! Scripts: functions, each of which applies those before it.

ghost use Rattle.std.specs.Prelude.{◌≡◌, map};
ghost use Rattle.smt_terms.specs.Sorts.{IsScript};
ghost use Rattle.smt_terms.specs.Views.{fun_tree};

use crate::sort::Sort;
use crate::tree::Tree;
use rv_words::{List, Text};
use std::marker::Model;

/// A function: its name, the names and sorts of its parameters, and the sort and the term of its
/// value.
#[derive(Drop)]
pub struct Fun {
    pub name: Text,
    pub params: List<(Text, Sort)>,
    pub sort: Sort,
    pub body: Tree,
}

/// Functions with different names, each of whose bodies has its sort and applies the operators and
/// the functions before it alone. This is the type's invariant.
#[derive(Drop)]
pub struct Script {
    funs: List<Fun>,
}

impl Model for Script {
    ghost use Rattle.std.specs.Prelude.{List, map};
    ghost use Rattle.std.specs.Coded.{codes};
    ghost use Rattle.smt_terms.specs.contracts.tree.Tree as tree;
    ghost use Rattle.smt_terms.specs.declared.script.Fun.{Fun as Function};
    ghost use Rattle.smt_terms.specs.Sorts.{IsScript};
    ghost use Rattle.smt_terms.specs.Views.{fun_tree};

    ghost Value = { List Function };

    ghost coded = { Prim.hlevel (codes, tree.the_row.coded) };

    ghost view = { λ s. s.funs };

    ghost invariant = { λ s. IsScript (map fun_tree s.funs) };
}

impl Script {
    /// The script of these functions.
    pub fn new(funs: List<Fun>) -> Script
        requires { IsScript (map fun_tree funs) }
        ensures { result ≡ funs }
    {
        Script { funs }
    }

    /// The functions in their order.
    pub fn funs(&self) -> &[Fun]
        ensures funs { result.now ≡ self.now }
        ensures script { IsScript (map fun_tree result.now) }
    {
        self.funs.as_slice()
    }
}
