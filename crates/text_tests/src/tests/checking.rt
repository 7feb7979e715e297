//! A file and a text have their verdict: texts of each version, and the rules of the later ones.
//! Further texts of the first are cases of the commands.

use super::rows::each;
use call_link::check_linked;
use checker::check_bytes;
use rv_words::Bytes;
use stack_split::check_split;
use std::alloc::Global;
use verdicts::Verdict;

/// An ELF file with `add x10,x10,x11` and `jalr x0,0(x1)` at 0x10000.
pub static ELF: [u8; 128] = [
    0x7f, 0x45, 0x4c, 0x46, 2, 1, 1, 0, 0, 0, 0, 0, 0, 0, 0, 0, 2, 0, 0xf3, 0, 1, 0, 0, 0, 0, 0, 1,
    0, 0, 0, 0, 0, 0x40, 0, 0, 0, 0, 0, 0, 0, 0, 0, 0, 0, 0, 0, 0, 0, 0, 0, 0, 0, 0x40, 0, 0x38, 0,
    1, 0, 0, 0, 0, 0, 0, 0, 1, 0, 0, 0, 5, 0, 0, 0, 0x78, 0, 0, 0, 0, 0, 0, 0, 0, 0, 1, 0, 0, 0, 0,
    0, 0, 0, 1, 0, 0, 0, 0, 0, 8, 0, 0, 0, 0, 0, 0, 0, 8, 0, 0, 0, 0, 0, 0, 0, 4, 0, 0, 0, 0, 0, 0,
    0, 0x33, 5, 0xb5, 0, 0x67, 0x80, 0, 0,
];

/// First lines of texts.
pub const V1: &str = "mcproof 1\n";

pub const V3: &str = "mcproof 3\n";

const V4: &str = "mcproof 4\n";
/// The last line.
pub const END: &str = "end\n";

/// A function of that code, up to the line that closes it: x10 is the sum, and it returns.
pub const FUNCTION: &str = "group f\n\
regs 1 10 11\n\
mems 0\n\
code (0x10000 3305b50067800000)\n\
def 0x10000 ret\n\
let (add v1 v2)\n\
need (eq (and (add v0 0x0) 0x2) 0x0)\n\
leave 0 (and (add v0 0x0) 0xfffffffffffffffe) v0 v3 v2 ;\n\
axiom 0x10000 0xb50533 next facts pre (0x10000 (10 v0) (11 v1) ;) code (0x10000 3305b500) post (0x10004 (10 (add v0 v1)) (11 v1) ;)\n\
inst 0 (v0 v1) (v1 v2) facts pre (0x10000 (10 v1) (11 v2) ;) code (0x10000 3305b500) post (0x10004 (10 (add v1 v2)) (11 v2) ;)\n\
frame 1 facts pre (0x10000 (1 v0) (10 v1) (11 v2) ;) code (0x10000 3305b500) post (0x10004 (1 v0) (10 (add v1 v2)) (11 v2) ;)\n\
weaken 2 facts (is v3 (add v1 v2)) pre (0x10000 (1 v0) (10 v1) (11 v2) ;) code (0x10000 3305b500) post (0x10004 (1 v0) (10 v3) (11 v2) ;)\n\
axiom 0x10004 0x8067 next facts pre (0x10004 (1 v0) ;) code (0x10004 67800000) post ((and (add v0 0x0) 0xfffffffffffffffe) (1 v0) ;)\n\
frame 4 facts pre (0x10004 (1 v0) (10 v3) (11 v2) ;) code (0x10004 67800000) post ((and (add v0 0x0) 0xfffffffffffffffe) (1 v0) (10 v3) (11 v2) ;)\n\
compose 3 5 facts (is v3 (add v1 v2)) pre (0x10000 (1 v0) (10 v1) (11 v2) ;) code all post ((and (add v0 0x0) 0xfffffffffffffffe) (1 v0) (10 v3) (11 v2) ;)\n";

/// The line that closes it.
pub const LOOP: &str = "loop 0 6\n";

/// The head of a group.
const HEAD: &str = "group f\n\
regs 1 10 11\n";

/// Its memories.
const MEMS: &str = "mems 2\n";

/// The same function with two memories that it leaves alone: its body, what it leaves, and its
/// proof.
const SPLIT_BODY: &str = "code (0x10000 3305b50067800000)\n\
def 0x10000 ret\n\
let (add v1 v2)\n\
need (eq (and (add v0 0x0) 0x2) 0x0)\n";

const LEAVE: &str = "leave 0 (and (add v0 0x0) 0xfffffffffffffffe) v0 v3 v2 ; m0 m1\n";

const SPLIT_PROOF: &str =
    "axiom 0x10000 0xb50533 next facts pre (0x10000 (10 v0) (11 v1) ;) code (0x10000 3305b500) post (0x10004 (10 (add v0 v1)) (11 v1) ;)\n\
inst 0 (v0 v1) (v1 v2) facts pre (0x10000 (10 v1) (11 v2) ;) code (0x10000 3305b500) post (0x10004 (10 (add v1 v2)) (11 v2) ;)\n\
frame 1 facts pre (0x10000 (1 v0) (10 v1) (11 v2) ; m0 m1) code (0x10000 3305b500) post (0x10004 (1 v0) (10 (add v1 v2)) (11 v2) ; m0 m1)\n\
weaken 2 facts (is v3 (add v1 v2)) pre (0x10000 (1 v0) (10 v1) (11 v2) ; m0 m1) code (0x10000 3305b500) post (0x10004 (1 v0) (10 v3) (11 v2) ; m0 m1)\n\
axiom 0x10004 0x8067 next facts pre (0x10004 (1 v0) ;) code (0x10004 67800000) post ((and (add v0 0x0) 0xfffffffffffffffe) (1 v0) ;)\n\
frame 4 facts pre (0x10004 (1 v0) (10 v3) (11 v2) ; m0 m1) code (0x10004 67800000) post ((and (add v0 0x0) 0xfffffffffffffffe) (1 v0) (10 v3) (11 v2) ; m0 m1)\n\
compose 3 5 facts (is v3 (add v1 v2)) pre (0x10000 (1 v0) (10 v1) (11 v2) ; m0 m1) code all post ((and (add v0 0x0) 0xfffffffffffffffe) (1 v0) (10 v3) (11 v2) ; m0 m1)\n";

/// A group, and the axiom of `jalr x0,0(x1)`.
const RETURN: &str = "group f\n\
regs\n\
mems 0\n\
code (0x10000 67800000)\n\
def 0x10000\n\
again ;\n\
axiom 0x10000 0x8067 next facts pre (0x10000 (1 v0) ;) code all post ((and (add v0 0x0) 0xfffffffffffffffe) (1 v0) ;)\n";

/// A group with two memories, the axiom of `sd x10,0(x11)`, and this with a second memory.
const STORE: &str = "group f\n\
regs\n\
mems 2\n\
code (0x10000 67800000)\n\
def 0x10000\n\
again ; m0 m1\n\
axiom 0x10000 0xa5b023 next facts (so (in8 m0 (add v1 0x0))) pre (0x10000 (10 v0) (11 v1) ; m0) code (0x10000 23b0a500) post (0x10004 (10 v0) (11 v1) ; (st8 m0 (add v1 0x0) v0))\n\
frame 0 facts (so (in8 m0 (add v1 0x0))) pre (0x10000 (10 v0) (11 v1) ; m0 m1) code (0x10000 23b0a500) post (0x10004 (10 v0) (11 v1) ; (st8 m0 (add v1 0x0) v0) m1)\n";

/// Which version's texts are judged, the parts of a text, and the verdict.
type Judged = (u8, &'static [&'static str], Verdict);

static VERDICTS: [Judged; 36] = [
    (
        1,
        &[V1, FUNCTION, LOOP, END],
        Verdict::Accepted {
            functions: 1,
            lines: 8,
        },
    ),
    (1, &[V3, FUNCTION, LOOP, END], Verdict::BadText(1)),
    (
        3,
        &[V3, FUNCTION, LOOP, END],
        Verdict::Accepted {
            functions: 1,
            lines: 8,
        },
    ),
    // It returns to a known address, by a fact; without the fact; by a theorem that isn't there.
    (
        3,
        &[
            V3,
            FUNCTION,
            LOOP,
            "steer 4 facts (so (eq (and (add v0 0x0) 0xfffffffffffffffe) 0x10008)) pre (0x10004 (1 v0) ;) code (0x10004 67800000) post (0x10008 (1 v0) ;)\n",
            END,
        ],
        Verdict::Accepted {
            functions: 1,
            lines: 9,
        },
    ),
    (
        3,
        &[
            V3,
            FUNCTION,
            LOOP,
            "steer 4 facts pre (0x10004 (1 v0) ;) code (0x10004 67800000) post (0x10008 (1 v0) ;)\n",
            END,
        ],
        Verdict::BadLine(18),
    ),
    (
        3,
        &[
            V3,
            FUNCTION,
            LOOP,
            "steer 7 facts (so (eq (and (add v0 0x0) 0xfffffffffffffffe) 0x10008)) pre (0x10004 (1 v0) ;) code (0x10004 67800000) post (0x10008 (1 v0) ;)\n",
            END,
        ],
        Verdict::BadLine(18),
    ),
    // The fact says where a return leads.
    (
        3,
        &[
            V3,
            RETURN,
            "steer 0 facts (so (eq (and (add v0 0x0) 0xfffffffffffffffe) 0x10008)) pre (0x10000 (1 v0) ;) code all post (0x10008 (1 v0) ;)\n",
            END,
        ],
        Verdict::NotProved(0),
    ),
    // Among others, and of a term.
    (
        3,
        &[
            V3,
            RETURN,
            "steer 0 facts (is v1 v2) (so (eq (and (add v0 0x0) 0xfffffffffffffffe) v3)) (so (eq v1 v2)) pre (0x10000 (1 v0) ;) code all post (v3 (1 v0) ;)\n",
            END,
        ],
        Verdict::NotProved(0),
    ),
    // No fact.
    (
        3,
        &[
            V3,
            RETURN,
            "steer 0 facts pre (0x10000 (1 v0) ;) code all post (0x10008 (1 v0) ;)\n",
            END,
        ],
        Verdict::BadLine(9),
    ),
    // Of another address.
    (
        3,
        &[
            V3,
            RETURN,
            "steer 0 facts (so (eq (and (add v0 0x0) 0xfffffffffffffffe) 0x1000c)) pre (0x10000 (1 v0) ;) code all post (0x10008 (1 v0) ;)\n",
            END,
        ],
        Verdict::BadLine(9),
    ),
    // Of another term.
    (
        3,
        &[
            V3,
            RETURN,
            "steer 0 facts (so (eq v0 0x10008)) pre (0x10000 (1 v0) ;) code all post (0x10008 (1 v0) ;)\n",
            END,
        ],
        Verdict::BadLine(9),
    ),
    // The other way round.
    (
        3,
        &[
            V3,
            RETURN,
            "steer 0 facts (so (eq 0x10008 (and (add v0 0x0) 0xfffffffffffffffe))) pre (0x10000 (1 v0) ;) code all post (0x10008 (1 v0) ;)\n",
            END,
        ],
        Verdict::BadLine(9),
    ),
    // Another comparison.
    (
        3,
        &[
            V3,
            RETURN,
            "steer 0 facts (so (geu (and (add v0 0x0) 0xfffffffffffffffe) 0x10008)) pre (0x10000 (1 v0) ;) code all post (0x10008 (1 v0) ;)\n",
            END,
        ],
        Verdict::BadLine(9),
    ),
    // Another word in x1.
    (
        3,
        &[
            V3,
            RETURN,
            "steer 0 facts (so (eq (and (add v0 0x0) 0xfffffffffffffffe) 0x10008)) pre (0x10000 (1 v0) ;) code all post (0x10008 (1 0x10008) ;)\n",
            END,
        ],
        Verdict::BadLine(9),
    ),
    // Another word in x1 before.
    (
        3,
        &[
            V3,
            RETURN,
            "steer 0 facts (so (eq (and (add v0 0x0) 0xfffffffffffffffe) 0x10008)) pre (0x10000 (1 0x10008) ;) code all post (0x10008 (1 v0) ;)\n",
            END,
        ],
        Verdict::BadLine(9),
    ),
    (
        4,
        &[V4, HEAD, MEMS, SPLIT_BODY, LEAVE, SPLIT_PROOF, LOOP, END],
        Verdict::Accepted {
            functions: 1,
            lines: 8,
        },
    ),
    // In both assertions.
    (
        4,
        &[
            V4,
            HEAD,
            MEMS,
            SPLIT_BODY,
            LEAVE,
            SPLIT_PROOF,
            "exchange 2 facts pre (0x10000 (1 v0) (10 v1) (11 v2) ; m1 m0) code (0x10000 3305b500) post (0x10004 (1 v0) (10 (add v1 v2)) (11 v2) ; m1 m0)\n",
            LOOP,
            END,
        ],
        Verdict::Accepted {
            functions: 1,
            lines: 9,
        },
    ),
    // And back again.
    (
        4,
        &[
            V4,
            HEAD,
            MEMS,
            SPLIT_BODY,
            LEAVE,
            SPLIT_PROOF,
            "exchange 2 facts pre (0x10000 (1 v0) (10 v1) (11 v2) ; m1 m0) code (0x10000 3305b500) post (0x10004 (1 v0) (10 (add v1 v2)) (11 v2) ; m1 m0)\nexchange 7 facts pre (0x10000 (1 v0) (10 v1) (11 v2) ; m0 m1) code (0x10000 3305b500) post (0x10004 (1 v0) (10 (add v1 v2)) (11 v2) ; m0 m1)\n",
            LOOP,
            END,
        ],
        Verdict::Accepted {
            functions: 1,
            lines: 10,
        },
    ),
    // In one of them, and in none.
    (
        4,
        &[
            V4,
            HEAD,
            MEMS,
            SPLIT_BODY,
            LEAVE,
            SPLIT_PROOF,
            "exchange 2 facts pre (0x10000 (1 v0) (10 v1) (11 v2) ; m0 m1) code (0x10000 3305b500) post (0x10004 (1 v0) (10 (add v1 v2)) (11 v2) ; m1 m0)\n",
            LOOP,
            END,
        ],
        Verdict::BadLine(17),
    ),
    (
        4,
        &[
            V4,
            HEAD,
            MEMS,
            SPLIT_BODY,
            LEAVE,
            SPLIT_PROOF,
            "exchange 2 facts pre (0x10000 (1 v0) (10 v1) (11 v2) ; m0 m1) code (0x10000 3305b500) post (0x10004 (1 v0) (10 (add v1 v2)) (11 v2) ; m0 m1)\n",
            LOOP,
            END,
        ],
        Verdict::BadLine(17),
    ),
    // Of a theorem without memories, and of one with three.
    (
        4,
        &[
            V4,
            HEAD,
            MEMS,
            SPLIT_BODY,
            LEAVE,
            SPLIT_PROOF,
            "exchange 0 facts pre (0x10000 (10 v0) (11 v1) ;) code (0x10000 3305b500) post (0x10004 (10 (add v0 v1)) (11 v1) ;)\n",
            LOOP,
            END,
        ],
        Verdict::BadLine(17),
    ),
    (
        4,
        &[
            V4,
            HEAD,
            MEMS,
            SPLIT_BODY,
            LEAVE,
            SPLIT_PROOF,
            "frame 2 facts pre (0x10000 (1 v0) (10 v1) (11 v2) ; m0 m1 m2) code (0x10000 3305b500) post (0x10004 (1 v0) (10 (add v1 v2)) (11 v2) ; m0 m1 m2)\nexchange 7 facts pre (0x10000 (1 v0) (10 v1) (11 v2) ; m1 m0 m2) code (0x10000 3305b500) post (0x10004 (1 v0) (10 (add v1 v2)) (11 v2) ; m1 m0 m2)\n",
            LOOP,
            END,
        ],
        Verdict::BadLine(18),
    ),
    // The line of another version.
    (
        4,
        &[
            V4,
            HEAD,
            MEMS,
            SPLIT_BODY,
            LEAVE,
            SPLIT_PROOF,
            "steer 4 facts (so (eq (and (add v0 0x0) 0xfffffffffffffffe) 0x2000)) pre (0x10004 (1 v0) ;) code (0x10004 67800000) post (0x2000 (1 v0) ;)\n",
            LOOP,
            END,
        ],
        Verdict::BadText(17),
    ),
    // The two memories of the results exchanged, or one of them alone.
    (
        4,
        &[
            V4,
            HEAD,
            MEMS,
            SPLIT_BODY,
            "leave 0 (and (add v0 0x0) 0xfffffffffffffffe) v0 v3 v2 ; m1 m0\n",
            SPLIT_PROOF,
            LOOP,
            END,
        ],
        Verdict::BadLine(17),
    ),
    (
        4,
        &[
            V4,
            HEAD,
            MEMS,
            SPLIT_BODY,
            "leave 0 (and (add v0 0x0) 0xfffffffffffffffe) v0 v3 v2 ; m0\n",
            SPLIT_PROOF,
            LOOP,
            END,
        ],
        Verdict::BadDef(0, 0),
    ),
    // A group has two memories, in this version alone.
    (
        4,
        &[
            V4,
            HEAD,
            "mems 1\n",
            SPLIT_BODY,
            LEAVE,
            SPLIT_PROOF,
            LOOP,
            END,
        ],
        Verdict::BadText(4),
    ),
    (
        4,
        &[
            V4,
            HEAD,
            "mems 0\n",
            SPLIT_BODY,
            LEAVE,
            SPLIT_PROOF,
            LOOP,
            END,
        ],
        Verdict::BadText(4),
    ),
    (
        4,
        &[V1, HEAD, MEMS, SPLIT_BODY, LEAVE, SPLIT_PROOF, LOOP, END],
        Verdict::BadText(1),
    ),
    (
        4,
        &[V3, HEAD, MEMS, SPLIT_BODY, LEAVE, SPLIT_PROOF, LOOP, END],
        Verdict::BadText(1),
    ),
    // In both assertions.
    (
        4,
        &[
            V4,
            STORE,
            "exchange 1 facts (so (in8 m0 (add v1 0x0))) pre (0x10000 (10 v0) (11 v1) ; m1 m0) code (0x10000 23b0a500) post (0x10004 (10 v0) (11 v1) ; m1 (st8 m0 (add v1 0x0) v0))\n",
            END,
        ],
        Verdict::NotProved(0),
    ),
    // In the first alone.
    (
        4,
        &[
            V4,
            STORE,
            "exchange 1 facts (so (in8 m0 (add v1 0x0))) pre (0x10000 (10 v0) (11 v1) ; m1 m0) code (0x10000 23b0a500) post (0x10004 (10 v0) (11 v1) ; (st8 m0 (add v1 0x0) v0) m1)\n",
            END,
        ],
        Verdict::BadLine(10),
    ),
    // In the second alone.
    (
        4,
        &[
            V4,
            STORE,
            "exchange 1 facts (so (in8 m0 (add v1 0x0))) pre (0x10000 (10 v0) (11 v1) ; m0 m1) code (0x10000 23b0a500) post (0x10004 (10 v0) (11 v1) ; m1 (st8 m0 (add v1 0x0) v0))\n",
            END,
        ],
        Verdict::BadLine(10),
    ),
    // In none.
    (
        4,
        &[
            V4,
            STORE,
            "exchange 1 facts (so (in8 m0 (add v1 0x0))) pre (0x10000 (10 v0) (11 v1) ; m0 m1) code (0x10000 23b0a500) post (0x10004 (10 v0) (11 v1) ; (st8 m0 (add v1 0x0) v0) m1)\n",
            END,
        ],
        Verdict::BadLine(10),
    ),
    // Without the fact.
    (
        4,
        &[
            V4,
            STORE,
            "exchange 1 facts pre (0x10000 (10 v0) (11 v1) ; m1 m0) code (0x10000 23b0a500) post (0x10004 (10 v0) (11 v1) ; m1 (st8 m0 (add v1 0x0) v0))\n",
            END,
        ],
        Verdict::BadLine(10),
    ),
    // With two registers exchanged.
    (
        4,
        &[
            V4,
            STORE,
            "exchange 1 facts (so (in8 m0 (add v1 0x0))) pre (0x10000 (10 v1) (11 v0) ; m1 m0) code (0x10000 23b0a500) post (0x10004 (10 v1) (11 v0) ; m1 (st8 m0 (add v1 0x0) v0))\n",
            END,
        ],
        Verdict::BadLine(10),
    ),
    // Of a premise with one memory.
    (
        4,
        &[
            V4,
            STORE,
            "exchange 0 facts (so (in8 m0 (add v1 0x0))) pre (0x10000 (10 v0) (11 v1) ; m0) code (0x10000 23b0a500) post (0x10004 (10 v0) (11 v1) ; (st8 m0 (add v1 0x0) v0))\n",
            END,
        ],
        Verdict::BadLine(10),
    ),
];

/// A text of these parts, while there is memory.
pub fn text_of(alloc: Global, parts: &[&str]) -> Bytes {
    let mut text = Bytes::new(alloc);
    for part in parts {
        let _done = text.extend_from_slice(part.as_bytes());
    }
    text
}

/// The verdict on a text among those of a version.
fn verdict(alloc: Global, version: u8, text: &[u8]) -> Verdict {
    match version {
        3 => check_linked(alloc, &ELF, text),
        4 => check_split(alloc, &ELF, text),
        _ => check_bytes(alloc, &ELF, text),
    }
}

fn is_judged(alloc: Global, (version, parts, wanted): Judged) -> bool {
    let text = text_of(alloc, parts);
    verdict(alloc, version, text.as_slice()) == wanted
}

#[test]
fn texts_have_their_verdicts(rt: HostRuntime) {
    assert!(rt; each(rt.alloc(), &VERDICTS, is_judged));
}
