//! Laws of the texts of certificates. These functions do nothing but read numbers: their contracts
//! are the laws.

ghost use Rattle.std.specs.Prelude.{◌≡◌, ◌<◌, ◌^◌, ℕ, List};
ghost use Rattle.mc_text.specs.Fault.{IsBadAt};
ghost use Rattle.tailrec_lang.specs.Tree.{GroupTree};
ghost use Rattle.group_text.specs.declared.version.Version.{Version as Known};
ghost use Rattle.group_text.specs.Limits.{IsGroupIn};
ghost use Rattle.group_text.specs.Version.{version_of};
ghost use Rattle.fun_laws.specs.Certs.{IsCertOf};
ghost use Rattle.fun_laws.specs.Limits.{IsCert, cert_texts};
ghost use Rattle.fun_laws.specs.Spelling.{CertTree, cert_text, cert_tree};
ghost use Rattle.fun_laws.specs.inner.Numbers.{HaveNumbers};

use crate::cert::Cert;
use crate::step::Rw;

/// A certificate that is accepted of a group that has a text in some version has one too: no law
/// makes a term deeper.
pub fn law_of_limits(c: &Cert)
    ensures { (k : Known) (g : GroupTree)
        → IsGroupIn (version_of k) g
        → IsCertOf g c.now
        → IsCert (cert_tree c.now) }
{
    have_numbers(c.steps.as_slice());
}

/// A text is that of one certificate, and is none from one line on.
pub fn law_of_cert_texts()
    ensures once { (c d : CertTree) → IsCert c → IsCert d → cert_text c ≡ cert_text d → c ≡ d }
    ensures faults { (text : List ℕ) (m n : ℕ)
        → IsBadAt cert_texts text m
        → IsBadAt cert_texts text n
        → m ≡ n }
{}

fn have_numbers(steps: &[Rw])
    ensures { HaveNumbers steps.now }
{
    for step in steps {
        has_number(step);
    }
}

fn has_number(step: &Rw)
    ensures { step.now.term < 2 ^ 32 }
{
    let _term = step.term;
}
