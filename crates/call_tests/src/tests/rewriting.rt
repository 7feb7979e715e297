//! Certificates of rewriting and scripts: that they are made, judged, printed and read while there
//! is memory. The texts are written by hand.

use fun_laws::{CertFault, cert_bytes, judge_cert, read_cert, simplify};
use rv_words::List;
use smt_export::export;
use smt_terms::{Script, Smt, script_bytes, value_of};
use std::alloc::Global;
use tailrec_lang::{Group, well_formed};

/// Two steps that rewrite the sum of x10 and x11, each of which has an operation too many.
const CERT: &str = "\
mclaws 1
group sum
regs 10 11
mems 0
code (0x10000 3305b500)
def 0x10000 0x10004
let (add (or v0 0x0) (sub v1 0x0))
leave 0 v2 v1 ;
rw 0 0 0 4
rw 0 0 1 3
result
def 0x10000 0x10004
let (add v0 v1)
leave 0 v2 v1 ;
end
";

/// Whether the text is read, and printed as it stands.
fn is_printed(alloc: Global) -> bool {
    let Ok(cert) = read_cert(alloc, CERT.as_bytes()) else {
        return false;
    };
    match cert_bytes(alloc, &cert) {
        Ok(text) => text.as_slice() == CERT.as_bytes(),
        Err(_) => false,
    }
}

/// Whether a certificate of two steps is made for a group, and judged to be right.
fn is_simplified(alloc: Global, g: &Group) -> bool {
    match simplify(alloc, g) {
        Ok(made) => (made.steps.len() == 2) & (judge_cert(alloc, g, &made) == Ok(())),
        Err(_) => false,
    }
}

/// Whether a text is read as a certificate that is judged so for a group.
fn is_judged(alloc: Global, g: &Group, text: &str, verdict: Result<(), CertFault>) -> bool {
    match read_cert(alloc, text.as_bytes()) {
        Ok(cert) => judge_cert(alloc, g, &cert) == verdict,
        Err(_) => false,
    }
}

/// .. where its second step names another law.
fn is_refused(alloc: Global, g: &Group) -> bool {
    match CERT.replace(alloc, "rw 0 0 1 3", "rw 0 0 1 4") {
        Ok(text) => is_judged(alloc, g, text.as_str(), Err(CertFault::Step(1))),
        Err(_) => false,
    }
}

/// The last two functions of the script of the function.
const SCRIPT_END: &str = "
(define-fun f0_w0 ((w0 (_ BitVec 64)) (w1 (_ BitVec 64))) (_ BitVec 64) (rv_add (rv_or w0 (_ bv0 64)) (rv_sub w1 (_ bv0 64))))
(define-fun f0_w1 ((w0 (_ BitVec 64)) (w1 (_ BitVec 64))) (_ BitVec 64) w1)
";

/// The script of the group's first definition, if it has one.
fn first_script(alloc: Global, g: &Group) -> Option<Script> {
    if g.defs.is_empty() || g.defs.len() >= 1 << 32 || well_formed(g).is_err() {
        return None;
    }
    export(alloc, g, 0).ok()
}

/// Whether a value is that word.
fn is_word(value: &Option<Smt>, n: u128) -> bool {
    match value {
        Some(Smt::Bits(64, m)) => *m == n,
        _ => false,
    }
}

/// Whether a script ends with these two functions.
fn ends_so(alloc: Global, script: &Script) -> bool {
    match script_bytes(alloc, script) {
        Ok(text) => text.as_slice().ends_with(SCRIPT_END.as_bytes()),
        Err(_) => false,
    }
}

/// Whether its function of the first result gives 5 for 2 and 3.
fn gives_sum(alloc: Global, script: &Script) -> bool {
    let mut inputs = List::new(alloc);
    let _first = inputs.push(Smt::Bits(64, 2));
    let _second = inputs.push(Smt::Bits(64, 3));
    match value_of(alloc, script, b"f0_w0", &inputs) {
        Ok(sum) => is_word(&sum, 5),
        Err(_) => false,
    }
}

/// Whether a group has such a script.
fn has_script(alloc: Global, g: &Group) -> bool {
    match first_script(alloc, g) {
        Some(script) => ends_so(alloc, &script) & gives_sum(alloc, &script),
        None => false,
    }
}

/// Whether the group of the text is simplified, judged and exported as it should be.
fn group_is_taken(alloc: Global) -> bool {
    match read_cert(alloc, CERT.as_bytes()) {
        Ok(cert) => {
            let g = &cert.old;
            let is_taken = is_judged(alloc, g, CERT, Ok(())) & is_refused(alloc, g);
            is_taken & is_simplified(alloc, g) & has_script(alloc, g)
        }
        Err(_) => false,
    }
}

#[test]
fn certificates_are_made_and_judged_and_scripts_have_values(rt: HostRuntime) {
    assert!(rt; is_printed(rt.alloc()));
    assert!(rt; group_is_taken(rt.alloc()));
}
