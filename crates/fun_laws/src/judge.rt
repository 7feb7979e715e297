//! Certificates of rewriting, judged.

ghost use Rattle.std.specs.Prelude.{IfErr, IfOk, map};
ghost use Rattle.tailrec_lang.specs.Tree.{def_tree, group_tree};
ghost use Rattle.fun_laws.specs.Certs.{IsCertOf, IsCertFault};
ghost use Rattle.fun_laws.specs.Evaluation.{EvaluateAlike};

use crate::apart::{are_same, take_defs};
use crate::cert::Cert;
use crate::rewrite::{StepFault, rewritten_all};
use crate::rewriting_laws::law_of_rewriting;
use group_terms::{has_range, same_group};
use std::alloc::Global;
use tailrec_lang::Group;

/// Why a certificate isn't accepted.
#[derive(Clone, Copy, Debug, PartialEq, Eq)]
pub enum CertFault {
    /// Its group is another one.
    Group,
    /// The definition, the term or the place of the step of that number isn't there, or its law
    /// doesn't match there.
    Step(u32),
    /// The steps give other definitions than the stated ones.
    Result,
    NoMemory,
}

/// Whether the steps rewrite the group's definitions to the stated ones. The time is that of
/// reading both and the certificate, and for each step that of copying the term that it rewrites.
/// The fault of a step whose number is 2^32 or more is answered as out of memory.
#[tactic(auto, using(crate::proofs::StepLemmas::cert_accepted, crate::proofs::StepLemmas::cert_refused))]
pub fn judge_cert(alloc: Global, g: &Group, c: &Cert) -> Result<(), CertFault>
    ensures ok { IfOk result (λ _. IsCertOf (group_tree g.now) c.now) }
    ensures same { IfOk result (λ _. EvaluateAlike (group_tree g.now) (map def_tree c.now.result)) }
    ensures err { IfErr result (λ e. IsCertFault (group_tree g.now) c.now e) }
{
    law_of_rewriting();
    has_range(g);
    if !same_group(&c.old, g) {
        return Err(CertFault::Group);
    }
    match rewritten_all(alloc, g.defs.as_slice(), c.steps.as_slice()) {
        Ok(parts) => match take_defs(alloc, c.result.as_slice()) {
            Ok(stated) => {
                if are_same(parts.as_slice(), stated.as_slice()) {
                    Ok(())
                } else {
                    Err(CertFault::Result)
                }
            }
            Err(_) => Err(CertFault::NoMemory),
        },
        Err(StepFault::At(i)) => {
            if i > u32::MAX as usize {
                return Err(CertFault::NoMemory);
            }
            Err(CertFault::Step(i as u32))
        }
        Err(StepFault::NoMemory) => Err(CertFault::NoMemory),
    }
}
