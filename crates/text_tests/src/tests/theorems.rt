//! What a bench keeps: what lines state, and triples that are valid.

ghost use Rattle.std.specs.Prelude.{◌≡◌};
ghost use Rattle.tailrec_lang.specs.Tree.{group_tree};
ghost use Rattle.group_text.specs.Limits.{IsGroupIn};
ghost use Rattle.group_text.specs.Version.{version_of};

use checker::Bench;
use proof_text::{Line, Reader};
use std::alloc::Global;
use std::marker::Brand;
use std::sync::ledger::{Blank, Ledger};
use tailrec_lang::{Group, well_formed};
use term_arena::Steps;
use triple_kernel::{Triple, same_triple};

/// A function of `add x10, x10, x11`, with the axiom of it.
const TEXT: &[u8] = b"\
mcproof 1\n\
group f\n\
regs 10 11\n\
mems 0\n\
code (0x10000 3305b500)\n\
def 0x10000 0x10004\n\
let (add v0 v1)\n\
leave 0 v2 v1 ;\n\
axiom 0x10000 0xb50533 next facts pre (0x10000 (10 v0) (11 v1) ;) code all post (0x10004 (10 (add v0 v1)) (11 v1) ;)\n\
end\n";

/// Whether the theorem of that number is the triple.
fn is_theorem<L: Ledger>(
    alloc: Global,
    bench: &Bench<'_>,
    k: u64,
    triple: &Triple,
    steps: &mut Steps<L>,
) -> bool {
    match bench.theorem(alloc, k, steps) {
        Ok(Some(thm)) => same_triple(thm.triple(), triple),
        _ => false,
    }
}

/// Whether the triple of theorem 0 is admitted as theorem 1.
fn admits_again<L: Ledger>(alloc: Global, bench: &mut Bench<'_>, steps: &mut Steps<L>) -> bool {
    match bench.theorem(alloc, 0, steps) {
        Ok(Some(thm)) => {
            let is_admitted = bench.admit(alloc, thm.triple()).is_ok();
            is_admitted & is_theorem(alloc, bench, 1, thm.triple(), steps)
        }
        _ => false,
    }
}

/// Whether a line is taken, and its triple is admitted again.
fn is_kept<L: Ledger>(alloc: Global, bench: &mut Bench<'_>, line: &Line, blank: Blank) -> bool
    requires name { blank.name ≡ L.name }
    requires parts { blank.parts ≡ L.parts }
    requires one { L.parts ≡ 1 }
{
    let mut steps = Steps::<L>::new(blank);
    bench.judge(alloc, line, &mut steps).is_ok() & admits_again(alloc, bench, &mut steps)
}

/// .. the first line of a group.
fn line_is_kept(alloc: Global, reader: &mut Reader<'_>, group: &Group) -> bool
    requires { IsGroupIn (version_of reader.old.version) (group_tree group.now) }
{
    if well_formed(group).is_err() {
        return false;
    }
    match (reader.line(alloc, group), Bench::new(alloc, group)) {
        (Ok(Some(line)), Ok(mut bench)) => {
            is_kept::<Brand>(alloc, &mut bench, &line, Blank::new(1))
        }
        _ => false,
    }
}

fn text_is_kept(alloc: Global) -> bool {
    let mut reader = Reader::new(TEXT);
    match reader.group(alloc) {
        Ok(Some(group)) => line_is_kept(alloc, &mut reader, &group),
        _ => false,
    }
}

#[test]
fn valid_triples_are_admitted_as_theorems(rt: HostRuntime) {
    assert!(rt; text_is_kept(rt.alloc()));
}
