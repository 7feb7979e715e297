//! Reading the text of a certificate.

ghost use Rattle.std.specs.Prelude.{◌≡◌, IfErr, IfOk};
ghost use Rattle.group_text.specs.Version.{version_of};
ghost use Rattle.fun_laws.specs.Answers.{IsTextFault, IsTextFaultIn};
ghost use Rattle.mc_text.specs.Fault.{IsBadAt};
ghost use Rattle.fun_laws.specs.Limits.{IsCert, IsCertIn, cert_texts_in};
ghost use Rattle.fun_laws.specs.Spelling.{cert_text, cert_tree};

use crate::cert::Cert;
use crate::rows::read_rows;
use group_text::{ReadError, Rows, TextFault, TextRows, Version, is_end, whole_lines};
use std::alloc::Global;

/// The certificate of that text: of a group with one memory at most, or else of one with two. A
/// text that is neither is told at the line up to which it could have been one of them.
pub fn read_cert(alloc: Global, text: &[u8]) -> Result<Cert, TextFault>
    ensures fits { IfOk result (λ c. IsCert (cert_tree c)) }
    ensures text { IfOk result (λ c. text.now ≡ cert_text (cert_tree c)) }
    ensures fault { IfErr result (λ e. IsTextFault text.now e) }
{
    match read_cert_in(alloc, text, Version::One) {
        Ok(cert) => Ok(cert),
        Err(TextFault::Bad(line)) => read_second(alloc, text, line),
        Err(TextFault::NoMemory) => Err(TextFault::NoMemory),
    }
}

/// The certificate of that text, which is none of a group with one memory at most, from this line
/// on.
fn read_second(alloc: Global, text: &[u8], line: u64) -> Result<Cert, TextFault>
    requires { IsBadAt (cert_texts_in (version_of Version.One)) text.now line }
    ensures fits { IfOk result (λ c. IsCert (cert_tree c)) }
    ensures text { IfOk result (λ c. text.now ≡ cert_text (cert_tree c)) }
    ensures fault { IfErr result (λ e. IsTextFault text.now e) }
{
    match read_cert_in(alloc, text, Version::Four) {
        Ok(cert) => Ok(cert),
        Err(TextFault::Bad(other)) => Err(TextFault::Bad(line.max(other))),
        Err(TextFault::NoMemory) => Err(TextFault::NoMemory),
    }
}

/// The certificate of that text, of a group of that version.
fn read_cert_in(alloc: Global, text: &[u8], version: Version) -> Result<Cert, TextFault>
    ensures fits { IfOk result (λ c. IsCertIn (version_of version) (cert_tree c)) }
    ensures text { IfOk result (λ c. text.now ≡ cert_text (cert_tree c)) }
    ensures fault { IfErr result (λ e. IsTextFaultIn (version_of version) text.now e) }
{
    let (lines, tail) = whole_lines(text);
    let mut rows = TextRows::new(lines);
    match read_rows(alloc, &mut rows, &mut (), version) {
        Ok(cert) => {
            if !is_end(rows.rest(), tail) {
                return Err(TextFault::Bad(rows.taken(&()) + 1));
            }
            Ok(cert)
        }
        Err(ReadError::Bad) => Err(TextFault::Bad(rows.taken(&()) + 1)),
        Err(ReadError::Fault) => Err(TextFault::NoMemory),
        Err(ReadError::NoMemory) => Err(TextFault::NoMemory),
    }
}
