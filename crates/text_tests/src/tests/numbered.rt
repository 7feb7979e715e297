//! What a bench over numbers of terms keeps of a text's lines.

ghost use Rattle.std.specs.Prelude.{◌≡◌};
ghost use Rattle.tailrec_lang.specs.Tree.{group_tree};
ghost use Rattle.group_text.specs.Limits.{IsGroupIn};
ghost use Rattle.group_text.specs.Version.{version_of};

use checker::Bench;
use proof_text::{Line, Reader};
use std::alloc::Global;
use std::marker::Brand;
use std::sync::ledger::{Blank, Ledger};
use tailrec_lang::{Group, well_formed};
use term_arena::Steps;

/// The text that `decompile` writes of a loop, which adds x11 to x10 and counts x11 down to 0.
static TEXT: &[u8] = b"\
mcproof 1\n\
group 0x10000\n\
regs 1 10 11\n\
mems 0\n\
code (0x10000 3305b5009385f5ffe39c05fe67800000)\n\
def 0x10000 0x1000c\n\
let (add v1 v2)\n\
let (add v2 0xffffffffffffffff)\n\
if (ne v4 0x0)\n\
again v0 v3 v4 ;\n\
else\n\
leave 0 v0 v3 v4 ;\n\
def 0x1000c ret\n\
leave 0 (and (add v0 0x0) 0xfffffffffffffffe) v0 v1 v2 ;\n\
def 0x10000 ret\n\
call 0 1 v0 v1 v2 ;\n\
arm\n\
call 1 1 v3 v4 v5 ;\n\
arm\n\
leave 0 v6 v7 v8 v9 ;\n\
axiom 0x10000 0xb50533 next facts pre (0x10000 (10 v0) (11 v1) ;) code (0x10000 3305b500) post (0x10004 (10 (add v0 v1)) (11 v1) ;)\n\
inst 0 (v0 v1) (v1 v2) facts pre (0x10000 (10 v1) (11 v2) ;) code (0x10000 3305b500) post (0x10004 (10 (add v1 v2)) (11 v2) ;)\n\
frame 1 facts pre (0x10000 (1 v0) (10 v1) (11 v2) ;) code (0x10000 3305b500) post (0x10004 (1 v0) (10 (add v1 v2)) (11 v2) ;)\n\
weaken 2 facts (is v3 (add v1 v2)) pre (0x10000 (1 v0) (10 v1) (11 v2) ;) code (0x10000 3305b500) post (0x10004 (1 v0) (10 v3) (11 v2) ;)\n\
axiom 0x10004 0xfff58593 next facts pre (0x10004 (11 v0) ;) code (0x10004 9385f5ff) post (0x10008 (11 (add v0 0xffffffffffffffff)) ;)\n\
inst 4 (v0 v2) facts pre (0x10004 (11 v2) ;) code (0x10004 9385f5ff) post (0x10008 (11 (add v2 0xffffffffffffffff)) ;)\n\
frame 5 facts pre (0x10004 (1 v0) (10 v3) (11 v2) ;) code (0x10004 9385f5ff) post (0x10008 (1 v0) (10 v3) (11 (add v2 0xffffffffffffffff)) ;)\n\
weaken 6 facts (is v4 (add v2 0xffffffffffffffff)) pre (0x10004 (1 v0) (10 v3) (11 v2) ;) code (0x10004 9385f5ff) post (0x10008 (1 v0) (10 v3) (11 v4) ;)\n\
compose 3 7 facts (is v3 (add v1 v2)) (is v4 (add v2 0xffffffffffffffff)) pre (0x10000 (1 v0) (10 v1) (11 v2) ;) code (0x10000 3305b5009385f5ff) post (0x10008 (1 v0) (10 v3) (11 v4) ;)\n\
axiom 0x10008 0xfe059ce3 taken facts (so (ne v0 0x0)) pre (0x10008 (11 v0) ;) code (0x10008 e39c05fe) post (0x10000 (11 v0) ;)\n\
inst 9 (v0 v4) facts (so (ne v4 0x0)) pre (0x10008 (11 v4) ;) code (0x10008 e39c05fe) post (0x10000 (11 v4) ;)\n\
frame 10 facts (so (ne v4 0x0)) pre (0x10008 (1 v0) (10 v3) (11 v4) ;) code (0x10008 e39c05fe) post (0x10000 (1 v0) (10 v3) (11 v4) ;)\n\
weaken 11 facts (so (ne v4 0x0)) pre (0x10008 (1 v0) (10 v3) (11 v4) ;) code (0x10008 e39c05fe) post (0x10000 (1 v0) (10 v3) (11 v4) ;)\n\
compose 8 12 facts (is v3 (add v1 v2)) (is v4 (add v2 0xffffffffffffffff)) (so (ne v4 0x0)) pre (0x10000 (1 v0) (10 v1) (11 v2) ;) code (0x10000 3305b5009385f5ffe39c05fe) post (0x10000 (1 v0) (10 v3) (11 v4) ;)\n\
axiom 0x10008 0xfe059ce3 next facts (so (not (ne v0 0x0))) pre (0x10008 (11 v0) ;) code (0x10008 e39c05fe) post (0x1000c (11 v0) ;)\n\
inst 14 (v0 v4) facts (so (not (ne v4 0x0))) pre (0x10008 (11 v4) ;) code (0x10008 e39c05fe) post (0x1000c (11 v4) ;)\n\
frame 15 facts (so (not (ne v4 0x0))) pre (0x10008 (1 v0) (10 v3) (11 v4) ;) code (0x10008 e39c05fe) post (0x1000c (1 v0) (10 v3) (11 v4) ;)\n\
weaken 16 facts (so (not (ne v4 0x0))) pre (0x10008 (1 v0) (10 v3) (11 v4) ;) code (0x10008 e39c05fe) post (0x1000c (1 v0) (10 v3) (11 v4) ;)\n\
compose 8 17 facts (is v3 (add v1 v2)) (is v4 (add v2 0xffffffffffffffff)) (so (not (ne v4 0x0))) pre (0x10000 (1 v0) (10 v1) (11 v2) ;) code (0x10000 3305b5009385f5ffe39c05fe) post (0x1000c (1 v0) (10 v3) (11 v4) ;)\n\
loop 0 13 18\n\
forget 0\n\
forget 1\n\
forget 2\n\
forget 3\n\
forget 4\n\
forget 5\n\
forget 6\n\
forget 7\n\
forget 8\n\
forget 9\n\
forget 10\n\
forget 11\n\
forget 12\n\
forget 13\n\
forget 14\n\
forget 15\n\
forget 16\n\
forget 17\n\
forget 18\n\
axiom 0x1000c 0x8067 next facts pre (0x1000c (1 v0) ;) code (0x1000c 67800000) post ((and (add v0 0x0) 0xfffffffffffffffe) (1 v0) ;)\n\
inst 19 (v0 v0) facts pre (0x1000c (1 v0) ;) code (0x1000c 67800000) post ((and (add v0 0x0) 0xfffffffffffffffe) (1 v0) ;)\n\
frame 20 facts pre (0x1000c (1 v0) (10 v1) (11 v2) ;) code (0x1000c 67800000) post ((and (add v0 0x0) 0xfffffffffffffffe) (1 v0) (10 v1) (11 v2) ;)\n\
weaken 21 facts pre (0x1000c (1 v0) (10 v1) (11 v2) ;) code (0x1000c 67800000) post ((and (add v0 0x0) 0xfffffffffffffffe) (1 v0) (10 v1) (11 v2) ;)\n\
loop 1 22\n\
forget 19\n\
forget 20\n\
forget 21\n\
forget 22\n\
use 0 0 facts (gives 0 0 v0 v1 v2 ; ; v3 v4 v5 ;) pre (0x10000 (1 v0) (10 v1) (11 v2) ;) code all post (0x1000c (1 v3) (10 v4) (11 v5) ;)\n\
inst 23 (v0 v0) (v1 v1) (v2 v2) (v3 v3) (v4 v4) (v5 v5) facts (gives 0 0 v0 v1 v2 ; ; v3 v4 v5 ;) pre (0x10000 (1 v0) (10 v1) (11 v2) ;) code all post (0x1000c (1 v3) (10 v4) (11 v5) ;)\n\
use 1 0 facts (gives 1 0 v0 v1 v2 ; ; v3 v4 v5 v6 ;) pre (0x1000c (1 v0) (10 v1) (11 v2) ;) code all post (v3 (1 v4) (10 v5) (11 v6) ;)\n\
inst 25 (v0 v3) (v1 v4) (v2 v5) (v3 v6) (v4 v7) (v5 v8) (v6 v9) facts (gives 1 0 v3 v4 v5 ; ; v6 v7 v8 v9 ;) pre (0x1000c (1 v3) (10 v4) (11 v5) ;) code all post (v6 (1 v7) (10 v8) (11 v9) ;)\n\
compose 24 26 facts (gives 0 0 v0 v1 v2 ; ; v3 v4 v5 ;) (gives 1 0 v3 v4 v5 ; ; v6 v7 v8 v9 ;) pre (0x10000 (1 v0) (10 v1) (11 v2) ;) code all post (v6 (1 v7) (10 v8) (11 v9) ;)\n\
loop 2 27\n\
forget 23\n\
forget 24\n\
forget 25\n\
forget 26\n\
forget 27\n\
end\n\
";

/// What a line does that was taken.
#[derive(Clone, Copy)]
enum Taken {
    States,
    Closes,
    Forgets,
}

/// What the next line does, if there is one and it is taken.
fn judge_next(
    alloc: Global,
    reader: &mut Reader<'_>,
    group: &Group,
    bench: &mut Bench<'_>,
) -> Option<Taken>
    requires { IsGroupIn (version_of reader.old.version) (group_tree group.now) }
    ensures { reader.new.version ≡ reader.old.version }
{
    match reader.line(alloc, group) {
        Ok(Some(line)) => judge::<Brand>(alloc, bench, &line, Blank::new(1)),
        _ => None,
    }
}

/// What a line does, if it is taken.
fn judge<L: Ledger>(
    alloc: Global,
    bench: &mut Bench<'_>,
    line: &Line,
    blank: Blank,
) -> Option<Taken>
    requires name { blank.name ≡ L.name }
    requires parts { blank.parts ≡ L.parts }
    requires one { L.parts ≡ 1 }
{
    match bench.judge(alloc, line, &mut Steps::<L>::new(blank)) {
        Ok(()) => match line {
            Line::Loop { .. } => Some(Taken::Closes),
            Line::Forget(_) => Some(Taken::Forgets),
            _ => Some(Taken::States),
        },
        Err(_) => None,
    }
}

/// How many lines are taken, and whether no theorem is kept wherever a definition was closed and
/// all lines that forget have followed.
fn judge_all(
    alloc: Global,
    reader: &mut Reader<'_>,
    group: &Group,
    bench: &mut Bench<'_>,
) -> (u64, bool)
    requires { IsGroupIn (version_of reader.old.version) (group_tree group.now) }
{
    let mut closed = false;
    let mut keeps_none = true;
    for count in 0..1000 {
        let kept = bench.kept();
        let taken = judge_next(alloc, reader, group, bench);
        if !matches!(taken, Some(Taken::Forgets)) {
            keeps_none = keeps_none && (!closed || kept == 0);
            closed = matches!(taken, Some(Taken::Closes));
        }
        if taken.is_none() {
            return (count, keeps_none);
        }
    }
    (1000, false)
}

/// .. of the lines of a text's first group.
fn judge_text(alloc: Global, text: &[u8]) -> Option<(u64, bool)> {
    let mut reader = Reader::new(text);
    match reader.group(alloc) {
        Ok(Some(group)) => judge_group(alloc, &mut reader, &group),
        _ => None,
    }
}

fn judge_group(alloc: Global, reader: &mut Reader<'_>, group: &Group) -> Option<(u64, bool)>
    requires { IsGroupIn (version_of reader.old.version) (group_tree group.now) }
{
    if well_formed(group).is_err() {
        return None;
    }
    match Bench::new(alloc, group) {
        Ok(mut bench) => Some(judge_all(alloc, reader, group, &mut bench)),
        Err(_) => None,
    }
}

#[test]
fn forgotten_theorems_take_no_place(rt: HostRuntime) {
    assert!(rt; judge_text(rt.alloc(), TEXT) == Some((59, true)));
}
