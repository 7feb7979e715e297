//! The law of these functions. A function that does nothing: its contract is the law.

ghost use Rattle.smt_terms.specs.Meaning.{functions_after, no_names};
ghost use Rattle.smt_terms.specs.Sorts.{AreFuns, rules_after};
ghost use Rattle.smt_terms.specs.Functions.{helpers};
ghost use Rattle.smt_terms.specs.Knowing.{Knows, KnowsRules};

/// The functions are a script, and have the values and sorts of operations, extensions and
/// accesses.
pub fn law_of_helpers()
    ensures script { AreFuns no_names helpers }
    ensures values { Knows (functions_after no_names helpers) }
    ensures sorts { KnowsRules (rules_after no_names helpers) }
{}
