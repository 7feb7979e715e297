//! Definitions as scripts.

ghost use Rattle.std.specs.Prelude.{◌≡◌, ℕ, ◌<◌, ◌≤◌, ◌+◌, Err, IfOk, None, Some, length, map, slice_get, take, [], if◌then◌else◌};
ghost use Rattle.tailrec_lang.specs.Tree.{DefTree, def_tree, group_tree};
ghost use Rattle.tailrec_lang.specs.WellFormed.{IsWellFormed};
ghost use Rattle.smt_terms.specs.Views.{fun_tree};
ghost use Rattle.smt_export.specs.declared.exporting.ExportFault.TheVariants.{Loop};
ghost use Rattle.smt_export.specs.Reach.{IsLeastLoop, EntersAgain, ReachesByCalls};
ghost use Rattle.smt_export.specs.Telling.{HasFuns, TellsEval};
ghost use Rattle.group_terms.specs.Range.{GroupInRange};
ghost use Rattle.smt_export.specs.inner.Room.{DefHasRoom, HasRoom};
ghost use Rattle.smt_export.specs.Scripts.{def_fun, def_funs, funs_from, script};
ghost use Rattle.smt_export.specs.inner.Reach.{AreMarks, is_marked};

use crate::body_terms::{Scope, body_term};
use crate::params::params;
use crate::reach::{first_loop, reached};
use crate::results::all_told;
use crate::room::has_room;
use crate::told::{Told, fun_name, told_sort};
use group_terms::has_range;
use rv_words::{List, NoMemory};
use smt_terms::{Fun, Script, helpers};
use std::alloc::Global;
use tailrec_lang::{Def, Group, def_at};

/// Why a definition has no script.
#[derive(Clone, Copy, Debug, PartialEq, Eq)]
pub enum ExportFault {
    /// It reaches definitions that enter themselves again, of which this is the least.
    Loop(u32),
    NoMemory,
}

impl From<NoMemory> for ExportFault {
    ghost use Rattle.smt_export.specs.declared.exporting.ExportFault.TheVariants.{NoMemory};

    ghost from_gives = { λ _ e. e ≡ NoMemory };

    fn from(_e: NoMemory) -> ExportFault {
        ExportFault::NoMemory
    }
}

/// The functions of a definition and of those that it reaches by calls, where none of these enters
/// itself again.
pub fn export(alloc: Global, g: &Group, def: u32) -> Result<Script, ExportFault>
    requires well_formed { IsWellFormed (group_tree g.now) }
    requires there { def < length g.now.defs }
    ensures least { (l : ℕ) → result ≡ Err (Loop l) → IsLeastLoop (group_tree g.now) def l }
    ensures free { IfOk result (λ s.
        (d : ℕ) → ReachesByCalls (group_tree g.now) def d → EntersAgain (group_tree g.now) d → ⊥) }
    ensures sorts { IfOk result (λ s.
        (d : ℕ)
        → ReachesByCalls (group_tree g.now) def d
        → HasFuns (group_tree g.now) (map fun_tree s) d) }
    ensures tells { IfOk result (λ s.
        (d : ℕ)
        → ReachesByCalls (group_tree g.now) def d
        → TellsEval (group_tree g.now) d (map fun_tree s)) }
{
    let last = def as usize;
    let marks = reached(alloc, g, last)?;
    if let Some(l) = first_loop(g, last, marks.as_slice()) {
        return Err(ExportFault::Loop(l));
    }
    let script = loop_free(alloc, g, last, marks.as_slice())?;
    Ok(script)
}

/// The script of a definition that reaches none that enters itself again; the marks are those of
/// the definitions that it reaches. A group of which a definition has 2^64 variables or 2^32 exits
/// has none, which is answered as out of memory.
fn loop_free(alloc: Global, g: &Group, def: usize, marks: &[bool]) -> Result<Script, NoMemory>
    requires well_formed { IsWellFormed (group_tree g.now) }
    requires there { def < length g.now.defs }
    requires count { length marks.now ≡ def + 1 }
    requires marks { AreMarks (group_tree g.now) def marks.now }
    requires free { (d : ℕ)
        → ReachesByCalls (group_tree g.now) def d
        → EntersAgain (group_tree g.now) d
        → ⊥ }
    ensures sorts { IfOk result (λ s.
        (d : ℕ)
        → ReachesByCalls (group_tree g.now) def d
        → HasFuns (group_tree g.now) (map fun_tree s) d) }
    ensures tells { IfOk result (λ s.
        (d : ℕ)
        → ReachesByCalls (group_tree g.now) def d
        → TellsEval (group_tree g.now) d (map fun_tree s)) }
{
    let count = g.defs.len();
    has_range(g);
    if !has_room(g) {
        return Err(NoMemory);
    }
    let funs = script_funs(alloc, g, def, marks)?;
    Ok(script_of(g, def, marks, count, funs))
}

/// The script of these functions.
fn script_of(g: &Group, def: usize, marks: &[bool], count: usize, funs: List<Fun>) -> Script
    requires well_formed { IsWellFormed (group_tree g.now) }
    requires there { def < length g.now.defs }
    requires range { GroupInRange (group_tree g.now) }
    requires room { HasRoom (group_tree g.now) }
    requires few { count ≡ length g.now.defs }
    requires count { length marks.now ≡ def + 1 }
    requires marks { AreMarks (group_tree g.now) def marks.now }
    requires free { (d : ℕ)
        → ReachesByCalls (group_tree g.now) def d
        → EntersAgain (group_tree g.now) d
        → ⊥ }
    requires funs { map fun_tree funs ≡ script (group_tree g.now) (is_marked def marks.now) def }
    ensures sorts { (d : ℕ)
        → ReachesByCalls (group_tree g.now) def d
        → HasFuns (group_tree g.now) (map fun_tree result) d }
    ensures tells { (d : ℕ)
        → ReachesByCalls (group_tree g.now) def d
        → TellsEval (group_tree g.now) d (map fun_tree result) }
{
    let _count = count;
    Script::new(funs)
}

/// The functions of operations and accesses, and of the definitions up to `def` that are marked.
#[tactic(auto, using(crate::proofs::Lists::appended))]
fn script_funs(alloc: Global, g: &Group, def: usize, marks: &[bool]) -> Result<List<Fun>, NoMemory>
    requires count { length marks.now ≡ def + 1 }
    requires room { HasRoom (group_tree g.now) }
    ensures { IfOk result (λ funs.
        map fun_tree funs ≡ script (group_tree g.now) (is_marked def marks.now) def) }
{
    let mut funs = helpers(alloc)?;
    let more = marked_funs(alloc, g, def, marks)?;
    funs.append(more)?;
    Ok(funs)
}

fn marked_funs(alloc: Global, g: &Group, def: usize, marks: &[bool]) -> Result<List<Fun>, NoMemory>
    requires count { length marks.now ≡ def + 1 }
    requires room { HasRoom (group_tree g.now) }
    ensures { IfOk result (λ funs.
        map fun_tree funs
        ≡ funs_from (group_tree g.now) (is_marked def marks.now) 0
        (take (def + 1) (group_tree g.now).defs)) }
{
    let mut funs = List::new(alloc);
    for d in 0..marks.len() {
        let mark = is_marked(def, marks, d);
        let more = funs_where(alloc, g, d, mark)?;
        funs.append(more)?;
    }
    Ok(funs)
}

/// Whether a definition is marked.
#[tactic(auto, using(crate::proofs::Funs::mark_read))]
fn is_marked(def: usize, marks: &[bool], d: usize) -> bool
    requires { (d ≤ def) × (length marks.now ≡ def + 1) }
    ensures { result ≡ is_marked def marks.now d }
{
    marks[def - d]
}

/// The functions of a definition that is marked.
#[tactic(auto, using(crate::proofs::Fits::room_at))]
fn funs_where(alloc: Global, g: &Group, d: usize, mark: bool) -> Result<List<Fun>, NoMemory>
    requires { HasRoom (group_tree g.now) }
    ensures there { IfOk result (λ funs.
        (def : DefTree)
        → slice_get (group_tree g.now).defs d ≡ Some def
        → map fun_tree funs ≡ (if mark then def_funs (group_tree g.now) d def else [])) }
    ensures none { IfOk result (λ funs.
        slice_get (group_tree g.now).defs d ≡ None → map fun_tree funs ≡ []) }
{
    if !mark {
        return Ok(List::new(alloc));
    }
    match def_at(g, d) {
        Some(def) => def_funs(alloc, g, d, def),
        None => Ok(List::new(alloc)),
    }
}

fn def_funs(alloc: Global, g: &Group, d: usize, def: &Def) -> Result<List<Fun>, NoMemory>
    requires { DefHasRoom (group_tree g.now) (def_tree def.now) }
    ensures { IfOk result (λ funs.
        map fun_tree funs ≡ def_funs (group_tree g.now) d (def_tree def.now)) }
{
    let all = all_told(alloc, g)?;
    told_funs(alloc, g, d, def, all.as_slice())
}

#[tactic(auto, using(crate::proofs::Lists::pushed))]
fn told_funs(
    alloc: Global,
    g: &Group,
    d: usize,
    def: &Def,
    all: &[Told],
) -> Result<List<Fun>, NoMemory>
    requires { DefHasRoom (group_tree g.now) (def_tree def.now) }
    ensures { IfOk result (λ funs.
        map fun_tree funs ≡ map (def_fun (group_tree g.now) d (def_tree def.now)) all.now) }
{
    let mut funs = List::new(alloc);
    for told in all {
        let fun = def_fun(alloc, g, d, def, *told)?;
        funs.push(fun)?;
    }
    Ok(funs)
}

fn def_fun(alloc: Global, g: &Group, d: usize, def: &Def, told: Told) -> Result<Fun, NoMemory>
    requires { DefHasRoom (group_tree g.now) (def_tree def.now) }
    ensures { IfOk result (λ f. fun_tree f ≡ def_fun (group_tree g.now) d (def_tree def.now) told) }
{
    let scope = Scope {
        words: g.regs.len(),
        mems: g.mems as usize,
    };
    let body = body_term(alloc, g, d, &def.body, told, scope)?;
    let name = fun_name(alloc, d, told)?;
    let params = params(alloc, g)?;
    let sort = told_sort(told);
    Ok(Fun {
        name,
        params,
        sort,
        body,
    })
}
