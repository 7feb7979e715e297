//! The rule on the order of two memories. It compares the stated triple with its premise in place,
//! and takes no memory.

ghost use Rattle.std.specs.Prelude.{◌≡◌, ◌↔◌, IsTrue, IsOk, IfOk, map};
ghost use Rattle.word_terms.specs.Tree.{mem_tree};
ghost use Rattle.triple_kernel.specs.Tree.{triple_tree};
ghost use Rattle.frame_compose.specs.Rules.{AreExchanged, IsExchanged};

use sep_assert::{same_code, same_registers};
use triple_kernel::{NoInstance, Thm, Triple, same_facts};
use word_terms::{Mem, same_mem, same_word};

/// The two memories exchanged, in both assertions.
pub fn exchange<'g>(p: &Thm<'g>, stated: Triple) -> Result<Thm<'g>, NoInstance>
    ensures ok { IfOk result (λ t. t ≡ (p.now.0, stated)) }
    ensures exact { IsOk result ↔ IsExchanged (triple_tree p.now.1) (triple_tree stated) }
{
    if is_exchanged(p.triple(), &stated) {
        Ok(p.concludes(stated))
    } else {
        Err(NoInstance)
    }
}

fn is_exchanged(p: &Triple, stated: &Triple) -> bool
    ensures { IsTrue result ↔ IsExchanged (triple_tree p.now) (triple_tree stated.now) }
{
    same_facts(p.facts.as_slice(), stated.facts.as_slice())
        && same_code(&p.code, &stated.code)
        && same_word(&p.pre.pc, &stated.pre.pc)
        && same_registers(p.pre.regs.as_slice(), stated.pre.regs.as_slice())
        && are_exchanged(p.pre.mems.as_slice(), stated.pre.mems.as_slice())
        && same_word(&p.post.pc, &stated.post.pc)
        && same_registers(p.post.regs.as_slice(), stated.post.regs.as_slice())
        && are_exchanged(p.post.mems.as_slice(), stated.post.mems.as_slice())
}

/// Whether the two lists have two memories each, the same in the other order.
fn are_exchanged(a: &[Mem], b: &[Mem]) -> bool
    ensures { IsTrue result ↔ AreExchanged (map mem_tree a.now) (map mem_tree b.now) }
{
    a.len() == 2 && b.len() == 2 && same_mem(&a[0], &b[1]) && same_mem(&a[1], &b[0])
}
