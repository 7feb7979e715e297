//! Groups and lines are read, and printed as they stand.

ghost use Rattle.std.specs.Prelude.{◌≡◌};
ghost use Rattle.tailrec_lang.specs.Tree.{group_tree};
ghost use Rattle.group_text.specs.Limits.{IsGroupIn};
ghost use Rattle.group_text.specs.Version.{version_of};
ghost use Rattle.group_text.specs.declared.version.Version.TheVariants.{One};

use super::rows::each;
use proof_text::{Reader, TextFault, put_end, put_group, put_head, put_line};
use rv_words::{Bytes, NoMemory};
use std::alloc::Global;
use tailrec_lang::Group;

/// A text, how many lines its groups and proofs take, and the line that is refused after them; none
/// where the text ends there.
type Text = (&'static [u8], u64, Option<u64>);

static TEXTS: [Text; 22] = [
    (b"mcproof 1\nend\n", 0, None),
    (
        b"mcproof 1\ngroup f.1\nregs 5 31\nmems 1\ncode (0x1000 1300f0) (0x2000 ff)\ndef 0xfffffffffffffffe\nagain v0 ; m0\ndef 0x1000 0x10a0 ret 0x0\nif (geu v0 v1)\ncall 0 2 v0 v1 ; (st8 m0 0x1000 (sub v2 0x1))\narm\nleave 1 0xab ;\narm\nlet (sub v2 0x1)\nletm (st8 m0 0x1000 (sub v2 0x1))\nneed (not (in1 m0 v2))\nagain (sx2 v3) (ld4 m1 0x1000) ; m1\nelse\nlet (sub v2 0x1)\nletm (st8 m0 0x1000 (sub v2 0x1))\nneed (not (in1 m0 v2))\nagain (sx2 v3) (ld4 m1 0x1000) ; m1\ngroup ~\nregs\nmems 0\ncode\ndef 0xfffffffffffffffe\nagain v0 ; m0\nend\n",
        28,
        None,
    ),
    (
        b"mcproof 1\ngroup f\nregs 1 31\nmems 1\ncode (0x0 13) (0x2 1300)\ndef 0x10 0x0 ret\nlet (add v0 v1)\nletm m0\nneed (eq v2 v2)\nleave 1 v0 v1 ; m1\nend\n",
        10,
        None,
    ),
    (
        b"mcproof 1\ngroup def\nregs\nmems 0\ncode\ndef 0x0\nagain ;\ndef 0x0\nif (eq 0x0 0x0)\nleave 0 ;\nelse\ncall 0 1 ;\narm\nleave 0 ;\ngroup def\nregs\nmems 0\ncode\ndef 0x0\ncall 0 0 ;\nend\n",
        20,
        None,
    ),
    (b"", 0, Some(1)),
    (b"mcproof 1", 0, Some(1)),
    (b"mcproof 2\nend\n", 0, Some(1)),
    (b"mcproof 1\nend", 0, Some(2)),
    (b"mcproof 1\nend\n\n", 0, Some(3)),
    (b"mcproof 1\nend\nend", 0, Some(3)),
    (b"mcproof 1\ngroup f\nregs 1 1\n", 0, Some(3)),
    (b"mcproof 1\ngroup f\nregs 32\n", 0, Some(3)),
    (b"mcproof 1\ngroup f\nregs\nmems 2\n", 0, Some(4)),
    (
        b"mcproof 1\ngroup f\nregs\nmems 0\ncode (0x0 13) (0x1 13)\n",
        0,
        Some(5),
    ),
    (
        b"mcproof 1\ngroup f\nregs\nmems 0\ncode (0xffffffffffffffff 1313)\n",
        0,
        Some(5),
    ),
    (b"mcproof 1\ngroup f\nregs\nmems 0\ncode\nend\n", 0, Some(6)),
    (
        b"mcproof 1\ngroup f\nregs\nmems 0\ncode\ndef 0x0 ret ret\n",
        0,
        Some(6),
    ),
    (
        b"mcproof 1\ngroup f\nregs\nmems 0\ncode\ndef 0x0\ncall 0 17 ;\n",
        0,
        Some(7),
    ),
    (
        b"mcproof 1\ngroup f\nregs\nmems 0\ncode\ndef 0x0\ncall 0 1 ;\nend\n",
        0,
        Some(8),
    ),
    (
        b"mcproof 1\ngroup f\nregs\nmems 0\ncode\ndef 0x0\nagain ;\ndef 0x0",
        7,
        Some(8),
    ),
    (
        b"mcproof 1\ngroup f\nregs\nmems 0\ncode\ndef 0x0\nagain ;\ndef\n",
        0,
        Some(8),
    ),
    // each kind of line
    (LINES, 41, None),
];

/// A text with each kind of line.
const LINES: &[u8] = b"mcproof 1\n\
group f\n\
regs 1 10 11\n\
mems 0\n\
code (0x10000 3305b50067800000)\n\
def 0x10000 ret\n\
leave 0 v0 ;\n\
forget 0\n\
loop 0\n\
loop 4294967295 18446744073709551615 0\n\
frame 0 facts pre (0x0 ;) code post (0x0 ;)\n\
frame 0 facts pre (0x0 ;) code all post (0x0 ;)\n\
frame 0 facts pre (0x0 ;) code (0x0 13) (0x2 13) post (0x0 ;)\n\
frame 0 facts pre (0x0 (1 0x0) (31 0x0) ; m0 m0) code post (0x0 ;)\n\
frame 0 facts pre ((sx1 (sx1 (sx1 (sx1 (sx1 (sx1 (sx1 (sx1 (sx1 (sx1 (sx1 (sx1 (sx1 (sx1 (sx1 (sx1 (sx1 (sx1 (sx1 (sx1 (sx1 (sx1 (sx1 (sx1 (sx1 (sx1 (sx1 (sx1 (sx1 (sx1 (sx1 (sx1 (sx1 (sx1 (sx1 (sx1 (sx1 (sx1 (sx1 (sx1 (sx1 (sx1 (sx1 (sx1 (sx1 (sx1 (sx1 (sx1 (sx1 (sx1 (sx1 (sx1 (sx1 (sx1 (sx1 (sx1 (sx1 (sx1 (sx1 (sx1 (sx1 (sx1 (sx1 0x0))))))))))))))))))))))))))))))))))))))))))))))))))))))))))))))) ;) code post (0x0 ;)\n\
frame 0 facts (is 0x0 0x0) (mis m0 m0) (so (eq 0x0 0x0)) (gives 0 0 0x0 v0 ; m0 ; ;) pre (0x0 ;) code post (0x0 ;)\n\
inst 0 (v0 0x0) (v9 0x0) (m0 m0) (m1 m0) facts pre (0x0 ;) code post (0x0 ;)\n\
inst 0 facts pre (0x0 ;) code post (0x0 ;)\n\
axiom 0xffffffffffffffff 0xffffffff taken facts pre (0x0 ;) code post (0x0 ;)\n\
compose 0 1 facts pre (0x0 ;) code post (0x0 ;)\n\
extend 0 facts pre (0x0 ;) code post (0x0 ;)\n\
strengthen 0 facts pre (0x0 ;) code post (0x0 ;)\n\
weaken 0 facts pre (0x0 ;) code post (0x0 ;)\n\
discharge 0 facts pre (0x0 ;) code post (0x0 ;)\n\
use 0 0 facts pre (0x0 ;) code post (0x0 ;)\n\
axiom 0x10000 0xb50533 next facts pre (0x10000 (10 v0) (11 v1) ;) code (0x10000 3305b500) post (0x10004 (10 (add v0 v1)) (11 v1) ;)\n\
inst 0 (v0 v1) (v1 v2) facts pre (0x10000 (10 v1) (11 v2) ;) code (0x10000 3305b500) post (0x10004 (10 (add v1 v2)) (11 v2) ;)\n\
frame 1 facts pre (0x10000 (1 v0) (10 v1) (11 v2) ;) code (0x10000 3305b500) post (0x10004 (1 v0) (10 (add v1 v2)) (11 v2) ;)\n\
weaken 2 facts (is v3 (add v1 v2)) pre (0x10000 (1 v0) (10 v1) (11 v2) ;) code (0x10000 3305b500) post (0x10004 (1 v0) (10 v3) (11 v2) ;)\n\
axiom 0x10004 0x8067 next facts (so (eq (and (add v0 0x0) 0x2) 0x0)) pre (0x10004 (1 v0) ;) code (0x10004 67800000) post ((and (add v0 0x0) 0xfffffffffffffffe) (1 v0) ;)\n\
frame 4 facts (so (eq (and (add v0 0x0) 0x2) 0x0)) pre (0x10004 (1 v0) (10 v3) (11 v2) ;) code (0x10004 67800000) post ((and (add v0 0x0) 0xfffffffffffffffe) (1 v0) (10 v3) (11 v2) ;)\n\
compose 3 5 facts (is v3 (add v1 v2)) (so (eq (and (add v0 0x0) 0x2) 0x0)) pre (0x10000 (1 v0) (10 v1) (11 v2) ;) code all post ((and (add v0 0x0) 0xfffffffffffffffe) (1 v0) (10 v3) (11 v2) ;)\n\
loop 0 6\n\
inst 18446744073709551615 (v4294967295 0x0) (m0 (st1 m0 v1 0x7)) facts (mis m1 (st1 m0 v1 0x7)) (gives 0 1 v0 ; (st1 m0 v1 0x7) ; v1 ; m0) pre (0x0 ; m0) code post (0xffffffffffffffff ; (st1 m0 v1 0x7))\n\
axiom 0xffffffffffffffff 0xffffffff taken facts (mis m1 (st1 m0 v1 0x7)) (gives 0 1 v0 ; (st1 m0 v1 0x7) ; v1 ; m0) pre (0x0 ; m0) code post (0xffffffffffffffff ; (st1 m0 v1 0x7))\n\
extend 7 facts (is v3 (add v1 v2)) (so (eq (and (add v0 0x0) 0x2) 0x0)) pre (0x10000 (1 v0) (10 v1) (11 v2) ;) code all post ((and (add v0 0x0) 0xfffffffffffffffe) (1 v0) (10 v3) (11 v2) ;)\n\
strengthen 8 facts (so (eq (and (add v0 0x0) 0x2) 0x0)) pre (0x10004 (1 v0) ;) code (0x10004 67800000) post ((and (add v0 0x0) 0xfffffffffffffffe) (1 v0) ;)\n\
discharge 9 facts (so (eq (and (add v0 0x0) 0x2) 0x0)) pre (0x10004 (1 v0) ;) code (0x10004 67800000) post ((and (add v0 0x0) 0xfffffffffffffffe) (1 v0) ;)\n\
use 0 1 facts (so (eq (and (add v0 0x0) 0x2) 0x0)) pre (0x10004 (1 v0) ;) code (0x10004 67800000) post ((and (add v0 0x0) 0xfffffffffffffffe) (1 v0) ;)\n\
loop 4294967295\n\
forget 18446744073709551615\n\
end\n";

/// A text up to the end of the definitions of its first group: seven lines.
const GROUP: &[u8] =
    b"mcproof 1\ngroup f\nregs 1 10 11\nmems 0\ncode (0x10000 3305b50067800000)\ndef 0x10000 ret\nleave 0 v0 ;\n";

/// What is no line of its proof.
static BAD: [&[u8]; 74] = [
    b"",
    b"\n",
    b"forget 0",
    b" forget 0\n",
    b"forget 0 \n",
    b"forget  0\n",
    b"forget\n",
    b"forget 00\n",
    b"forget 0x0\n",
    b"forget 18446744073709551616\n",
    b"forget 0 1\n",
    b"forgets 0\n",
    b"(forget 0)\n",
    b"defx\n",
    b" def 0x0\n",
    b"def 0x0",
    b"loop\n",
    b"loop 4294967296\n",
    b"loop 0 18446744073709551616\n",
    b"loop 0 01\n",
    b"loop 0 ;\n",
    b"frame facts pre (0x0 ;) code post (0x0 ;)\n",
    b"frame 0 1 facts pre (0x0 ;) code post (0x0 ;)\n",
    b"compose 0 facts pre (0x0 ;) code post (0x0 ;)\n",
    b"use 4294967296 0 facts pre (0x0 ;) code post (0x0 ;)\n",
    b"use 0 facts pre (0x0 ;) code post (0x0 ;)\n",
    b"axiom 0x0 0x100000000 next facts pre (0x0 ;) code post (0x0 ;)\n",
    b"axiom 0x0 0x0 facts pre (0x0 ;) code post (0x0 ;)\n",
    b"axiom 0x0 0x0 Next facts pre (0x0 ;) code post (0x0 ;)\n",
    b"axiom 0 0x0 next facts pre (0x0 ;) code post (0x0 ;)\n",
    b"frame 0 pre (0x0 ;) code post (0x0 ;)\n",
    b"frame 0 facts (0x0 ;) code post (0x0 ;)\n",
    b"frame 0 facts pre (0x0 ;) code (0x0 ;)\n",
    b"frame 0 facts pre (0x0 ;) code post (0x0 ;)",
    b"frame 0 facts pre (0x0 ;) code post (0x0 ;) \n",
    b"frame 0 facts pre (0x0 ;) code post (0x0 ;) (0x0 ;)\n",
    b"frame 0 facts pre (0x0 ;) code (0x10000 3305b50067800000) post (0x0 ;)\n",
    b"frame 0 facts pre (0x0 ;) code all (0x0 13) post (0x0 ;)\n",
    b"frame 0 facts pre (0x0 ;) code (0x0 13) (0x1 13) post (0x0 ;)\n",
    b"frame 0 facts pre (0x0 ;) code (0x2 13) (0x0 13) post (0x0 ;)\n",
    b"frame 0 facts pre (0x0 ;) code (0xffffffffffffffff 1313) post (0x0 ;)\n",
    b"frame 0 facts pre (0x0 ;) code (0x0 1) post (0x0 ;)\n",
    b"frame 0 facts pre (0x0 ;) code (0x0 1A) post (0x0 ;)\n",
    b"frame 0 facts pre (0x0 ;) code (0x0) post (0x0 ;)\n",
    b"frame 0 facts pre (0x0) code post (0x0 ;)\n",
    b"frame 0 facts pre (;) code post (0x0 ;)\n",
    b"frame 0 facts pre (0x0 (0 0x0) ;) code post (0x0 ;)\n",
    b"frame 0 facts pre (0x0 (32 0x0) ;) code post (0x0 ;)\n",
    b"frame 0 facts pre (0x0 (01 0x0) ;) code post (0x0 ;)\n",
    b"frame 0 facts pre (0x0 (1 0x0) (1 0x0) ;) code post (0x0 ;)\n",
    b"frame 0 facts pre (0x0 ;) code post (0x0 (2 0x0) (1 0x0) ;)\n",
    b"frame 0 facts pre (0x0 (1 m0) ;) code post (0x0 ;)\n",
    b"frame 0 facts pre (0x0 ; 0x0) code post (0x0 ;)\n",
    b"frame 0 facts pre (m0 ;) code post (0x0 ;)\n",
    b"frame 0 facts pre ((sx1 (sx1 (sx1 (sx1 (sx1 (sx1 (sx1 (sx1 (sx1 (sx1 (sx1 (sx1 (sx1 (sx1 (sx1 (sx1 (sx1 (sx1 (sx1 (sx1 (sx1 (sx1 (sx1 (sx1 (sx1 (sx1 (sx1 (sx1 (sx1 (sx1 (sx1 (sx1 (sx1 (sx1 (sx1 (sx1 (sx1 (sx1 (sx1 (sx1 (sx1 (sx1 (sx1 (sx1 (sx1 (sx1 (sx1 (sx1 (sx1 (sx1 (sx1 (sx1 (sx1 (sx1 (sx1 (sx1 (sx1 (sx1 (sx1 (sx1 (sx1 (sx1 (sx1 (sx1 0x0)))))))))))))))))))))))))))))))))))))))))))))))))))))))))))))))) ;) code post (0x0 ;)\n",
    b"frame 0 facts (is 0x0) pre (0x0 ;) code post (0x0 ;)\n",
    b"frame 0 facts (is m0 m0) pre (0x0 ;) code post (0x0 ;)\n",
    b"frame 0 facts (mis 0x0 0x0) pre (0x0 ;) code post (0x0 ;)\n",
    b"frame 0 facts (so (eq 0x0)) pre (0x0 ;) code post (0x0 ;)\n",
    b"frame 0 facts (gives 0 0 ; ; 0x0) pre (0x0 ;) code post (0x0 ;)\n",
    b"frame 0 facts (gives 0 ; ; ;) pre (0x0 ;) code post (0x0 ;)\n",
    b"frame 0 facts (gives 0 4294967296 ; ; ;) pre (0x0 ;) code post (0x0 ;)\n",
    b"frame 0 facts (has 0x0 0x0) pre (0x0 ;) code post (0x0 ;)\n",
    b"frame 0 facts is 0x0 0x0 pre (0x0 ;) code post (0x0 ;)\n",
    b"inst 0 (v0 0x0) (v0 0x0) facts pre (0x0 ;) code post (0x0 ;)\n",
    b"inst 0 (v1 0x0) (v0 0x0) facts pre (0x0 ;) code post (0x0 ;)\n",
    b"inst 0 (m0 m0) (v0 0x0) facts pre (0x0 ;) code post (0x0 ;)\n",
    b"inst 0 (m0 m0) (m0 m0) facts pre (0x0 ;) code post (0x0 ;)\n",
    b"inst 0 (v0 m0) facts pre (0x0 ;) code post (0x0 ;)\n",
    b"inst 0 (m0 0x0) facts pre (0x0 ;) code post (0x0 ;)\n",
    b"inst 0 (v4294967296 0x0) facts pre (0x0 ;) code post (0x0 ;)\n",
    b"inst 0 (v00 0x0) facts pre (0x0 ;) code post (0x0 ;)\n",
    b"inst 0 (0x0 0x0) facts pre (0x0 ;) code post (0x0 ;)\n",
    b"inst (v0 0x0) facts pre (0x0 ;) code post (0x0 ;)\n",
];

/// What stands behind the group: how many lines are read with its proof, and the line that is
/// refused after these; none where the text ends there.
static BEHIND: [Text; 10] = [
    (b"forget 0\nloop 0\nend\n", 9, None),
    (b"end\n", 7, None),
    (b"forget 0\ndef 0x0\nagain ;\nend\n", 8, Some(9)),
    (b"forget 0\n", 8, Some(9)),
    (b"forget 0\nend x\n", 8, Some(9)),
    (b"forget 0\nend\nend\n", 8, Some(10)),
    (b"forget 0\ngroup f g\n", 8, Some(9)),
    (b"group f\nregs 1 1\n", 7, Some(9)),
    (b"end", 7, Some(8)),
    (b"group f", 7, Some(8)),
];

/// What reading comes to.
#[derive(Clone, Copy)]
enum Read {
    More,
    End,
    /// The number of the line that is refused, and 0 for lack of memory.
    Refused(u64),
}

/// What comes of a line that was printed, or not for want of memory.
fn done(printed: Result<(), NoMemory>) -> Read {
    match printed {
        Ok(()) => Read::More,
        Err(_) => Read::Refused(0),
    }
}

fn refused(fault: TextFault) -> Read {
    match fault {
        TextFault::Bad(line) => Read::Refused(line),
        TextFault::NoMemory => Read::Refused(0),
    }
}

/// Prints the next line of the group's proof.
fn copy_line(alloc: Global, reader: &mut Reader<'_>, group: &Group, out: &mut Bytes) -> Read
    requires first { reader.old.version ≡ One }
    requires fits { IsGroupIn (version_of reader.old.version) (group_tree group.now) }
    ensures { reader.new.version ≡ One }
{
    match reader.spelled_line(alloc, group) {
        Ok(Some(line)) => match line.with_own(alloc, &group.code) {
            Ok(line) => done(put_line(out, group, &line)),
            Err(_) => Read::Refused(0),
        },
        Ok(None) => Read::End,
        Err(fault) => refused(fault),
    }
}

/// .. and those behind it.
fn copy_lines(alloc: Global, reader: &mut Reader<'_>, group: &Group, out: &mut Bytes) -> Read
    requires first { reader.old.version ≡ One }
    requires fits { IsGroupIn (version_of reader.old.version) (group_tree group.now) }
    ensures { reader.new.version ≡ One }
{
    for _ in 0..100 {
        match copy_line(alloc, reader, group, out) {
            Read::More => {}
            end => return end,
        }
    }
    Read::Refused(0)
}

/// Prints the next group and the lines of its proof, or the end.
fn copy_group(alloc: Global, reader: &mut Reader<'_>, out: &mut Bytes) -> Read
    requires { reader.old.version ≡ One }
    ensures { reader.new.version ≡ One }
{
    match reader.group(alloc) {
        Ok(Some(group)) => {
            let _printed = put_group(out, &group);
            match copy_lines(alloc, reader, &group, out) {
                Read::End => Read::More,
                refused => refused,
            }
        }
        Ok(None) => {
            let _printed = put_end(out);
            Read::End
        }
        Err(fault) => refused(fault),
    }
}

/// Prints a whole text. The number of the line that is refused, if one is.
fn copy(alloc: Global, reader: &mut Reader<'_>, out: &mut Bytes) -> Option<u64>
    requires { reader.old.version ≡ One }
{
    let _printed = put_head(out);
    for _ in 0..4 {
        match copy_group(alloc, reader, out) {
            Read::More => {}
            Read::End => return None,
            Read::Refused(line) => return Some(line),
        }
    }
    Some(0)
}

/// Whether a text is read so, and printed as it stands where it ends well.
fn is_read(alloc: Global, text: &[u8], lines: u64, bad: Option<u64>) -> bool {
    let mut reader = Reader::new(text);
    let mut out = Bytes::new(alloc);
    let refused = copy(alloc, &mut reader, &mut out);
    let is_same = bad.is_some() | (out.as_slice() == text);
    is_same & (refused == bad) & (reader.place() == lines)
}

fn whole_is_read(alloc: Global, (text, lines, bad): Text) -> bool {
    is_read(alloc, text, lines, bad)
}

/// Whether what stands behind the group is read so.
fn behind_is_read(alloc: Global, (behind, lines, bad): Text) -> bool {
    let mut text = Bytes::new(alloc);
    let is_held = text.extend_from_slice(GROUP).is_ok() & text.extend_from_slice(behind).is_ok();
    is_held & is_read(alloc, text.as_slice(), lines, bad)
}

fn line_is_refused(alloc: Global, line: &'static [u8]) -> bool {
    behind_is_read(alloc, (line, 7, Some(8)))
}

#[test]
fn texts_are_read_and_printed(rt: HostRuntime) {
    assert!(rt; each(rt.alloc(), &TEXTS, whole_is_read));
    assert!(rt; each(rt.alloc(), &BAD, line_is_refused));
    assert!(rt; each(rt.alloc(), &BEHIND, behind_is_read));
}
