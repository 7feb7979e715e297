//! Which instructions have axioms, and of which forms.

use super::rows::each;
use instr_axioms::axiom_triple;
use std::alloc::Global;
use triple_kernel::Form;

/// An address, a parcel or word, a form, and whether there is an axiom of them.
type Row = (u64, u32, Form, bool);

static AXIOMS: [Row; 32] = [
    (0x10000, 0x00b5_0533, Form::Next, true),
    (0x10000, 0x00a5_b023, Form::Next, true),
    (0x10000, 0xffc4_2003, Form::Next, true),
    (0x10008, 0xfe05_9ee3, Form::Next, true),
    (0x10008, 0xfe05_9ee3, Form::Taken, true),
    (0x1001c, 0x0500_006f, Form::Next, true),
    (0x10000, 0xffff_f517, Form::Next, true),
    (0x10000, 0x8000_0537, Form::Next, true),
    (0x10000, 0x0ff0_000f, Form::Next, true),
    (0x10000, 0x0015_0513, Form::Next, true),
    (0xffff_ffff_ffff_fffc, 0x00a5_0533, Form::Next, true),
    (0x10000, 0x0000_2503, Form::Next, true),
    (0x10000, 0x0005_0263, Form::Next, true),
    (0x10000, 0x0005_0263, Form::Taken, true),
    (0x10004, 0xffd0_80e7, Form::Next, true),
    (0xffff_ffff_ffff_fffe, 0x00a5_0533, Form::Next, false),
    (0x10002, 0x00b5_0533, Form::Next, true),
    (0x10000, 0x0000_0363, Form::Taken, true),
    (0x10000, 0x0060_006f, Form::Next, true),
    (0x10000, 0x952e, Form::Next, true),
    (0x10004, 0xfdf5, Form::Taken, true),
    (0x10006, 0x8082, Form::Next, true),
    (0xffff_ffff_ffff_fffe, 0x0001, Form::Next, true),
    (0x10001, 0x00b5_0533, Form::Next, false),
    (0x10001, 0x952e, Form::Next, false),
    (0x10000, 0x0000_0073, Form::Next, false),
    (0x10000, 0x00b5_0533, Form::Taken, false),
    (0x10000, 0x952e, Form::Taken, false),
    (0x10000, 0x9002, Form::Next, false),
    (0x10000, 0x0000, Form::Next, false),
    (0x10000, 0x2000, Form::Next, false),
    (0x10000, 0x0001_952e, Form::Next, false),
];

fn is_so(alloc: Global, (addr, word, form, is_there): Row) -> bool {
    match axiom_triple(alloc, addr, word, form) {
        Ok(triple) => triple.is_some() == is_there,
        Err(_) => false,
    }
}

#[test]
fn there_are_axioms_of_these(rt: HostRuntime) {
    assert!(rt; each(rt.alloc(), &AXIOMS, is_so));
}
