//! Printing a certificate.
#![tactic(auto, using(mc_text::proofs::Printed::prints))]

ghost use Rattle.std.specs.Prelude.{◌≡◌, ◌<◌, ◌++◌, IfOk, OnOk, flat_map};
ghost use Rattle.std.specs.List.{AllByRecursion};
ghost use Rattle.mc_text.specs.Printing.{Keeps, page, print};
ghost use Rattle.mc_text.specs.Tokens.{spell};
ghost use Rattle.mc_text.specs.declared.token.Before.TheVariants.{Start};
ghost use Rattle.fun_laws.specs.Limits.{IsCert, IsCertStep};
ghost use Rattle.fun_laws.specs.Spelling.{cert_text, cert_tokens, cert_tree, place_text, cert_step_tokens, cert_title_tokens};

use crate::cert::Cert;
use crate::step::Rw;
use group_text::{put_bare_line, put_defs, put_group_lines};
use mc_text::Pen;
use rv_words::{Bytes, List, NoMemory};
use std::alloc::Global;

/// The text of a certificate.
pub fn cert_bytes(alloc: Global, c: &Cert) -> Result<Bytes, NoMemory>
    requires { IsCert (cert_tree c.now) }
    ensures { IfOk result (λ bytes. bytes ≡ cert_text (cert_tree c.now)) }
{
    let mut bytes = List::new(alloc);
    put_cert(alloc, &mut bytes, c)?;
    Ok(bytes)
}

/// Prints a certificate at the beginning of a line.
#[tactic(auto, using(mc_text::proofs::Printed::printed_bytes, mc_text::proofs::Printed::prints))]
fn put_cert(alloc: Global, out: &mut Bytes, c: &Cert) -> Result<(), NoMemory>
    requires { IsCert (cert_tree c.now) }
    ensures { OnOk result (out.new ≡ out.old ++ spell Start (cert_tokens (cert_tree c.now))) }
{
    let mut pen = Pen::new(out);
    put_cert_lines(alloc, &mut pen, c)?;
    Ok(())
}

fn put_cert_lines(alloc: Global, pen: &mut Pen<'_>, c: &Cert) -> Result<(), NoMemory>
    requires { AllByRecursion IsCertStep c.now.steps }
    ensures ok { OnOk result (page pen.new ≡ print (cert_tokens (cert_tree c.now)) (page pen.old)) }
    ensures kept { Keeps (page pen.old) (page pen.new) }
{
    put_title(pen)?;
    put_group_lines(pen, &c.old)?;
    put_steps(alloc, pen, c.steps.as_slice())?;
    put_bare_line(pen, b"result")?;
    put_defs(pen, c.result.as_slice())?;
    put_bare_line(pen, b"end")
}

fn put_title(pen: &mut Pen<'_>) -> Result<(), NoMemory>
    ensures ok { OnOk result (page pen.new ≡ print cert_title_tokens (page pen.old)) }
    ensures kept { Keeps (page pen.old) (page pen.new) }
{
    pen.atom(b"mclaws")?;
    pen.atom(b"1")?;
    pen.eol()
}

fn put_steps(alloc: Global, pen: &mut Pen<'_>, steps: &[Rw]) -> Result<(), NoMemory>
    requires { AllByRecursion IsCertStep steps.now }
    ensures ok { OnOk result (page pen.new
        ≡ print (flat_map cert_step_tokens steps.now) (page pen.old)) }
    ensures kept { Keeps (page pen.old) (page pen.new) }
{
    for step in steps {
        put_step(alloc, pen, step)?;
    }
    Ok(())
}

fn put_step(alloc: Global, pen: &mut Pen<'_>, step: &Rw) -> Result<(), NoMemory>
    requires { IsCertStep step.now }
    ensures ok { OnOk result (page pen.new ≡ print (cert_step_tokens step.now) (page pen.old)) }
    ensures kept { Keeps (page pen.old) (page pen.new) }
{
    let place = place_text(alloc, step.place.as_slice())?;
    pen.atom(b"rw")?;
    pen.dec(u64::from(step.def))?;
    pen.dec(u64::from(step.term))?;
    pen.atom(place.as_slice())?;
    pen.dec(u64::from(step.law))?;
    pen.eol()
}

/// A digit for each number of a place, or a dash.
fn place_text(alloc: Global, place: &[u8]) -> Result<Bytes, NoMemory>
    requires { AllByRecursion (λ k. k < 10) place.now }
    ensures { IfOk result (λ text. text ≡ place_text place.now) }
{
    let mut text = List::new(alloc);
    if place.is_empty() {
        text.push(b'-')?;
        return Ok(text);
    }
    for k in place {
        text.push(b'0' + *k)?;
    }
    Ok(text)
}
