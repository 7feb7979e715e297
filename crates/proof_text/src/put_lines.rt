//! Printing the lines of proofs.
#![tactic(auto, using(mc_text::proofs::Printed::prints))]

ghost use Rattle.std.specs.Prelude.{◌≡◌, ◌++◌, ◌∷◌, [], OnOk, codes, map, flat_map};
ghost use Rattle.mc_text.specs.Printing.{BeginsWith, Keeps, page, print};
ghost use Rattle.mc_text.specs.Tokens.{Atom, Semi, spell};
ghost use Rattle.mc_text.specs.declared.token.Before.TheVariants.{Start};
ghost use Rattle.sep_assert.specs.Tree.{assertion_tree, register_tree};
ghost use Rattle.tailrec_lang.specs.Tree.{group_tree, values_tree};
ghost use Rattle.triple_kernel.specs.Tree.{fact_tree, triple_tree};
ghost use Rattle.proof_text.specs.Line.{line_tree, mem_put_in, rule_tree, word_put_in};
ghost use Rattle.proof_text.specs.LineLimits.{IsLine, IsLineIn};
ghost use Rattle.proof_text.specs.LineSpelling.{assertion_tokens, code_tokens, fact_tokens, form_tokens, keyed_tokens, line_tokens, line_tokens_in, mem_sub_tokens, register_tokens, rule_tokens, same_ranges, triple_tokens, word_sub_tokens};
ghost use Rattle.group_text.specs.Spelling.{number, values_tokens};
ghost use Rattle.group_text.specs.Version.{version_of};

use crate::line::{Line, Rule};
use group_text::{Version, put_cond, put_mem, put_mems, put_ranges, put_values, put_word};
use mc_text::Pen;
use rv_words::{Bytes, NoMemory};
use sep_assert::{Assertion, same_code};
use tailrec_lang::{Group, Values};
use triple_kernel::{Fact, Form, Triple};
use word_terms::{Code, Mem, Sub, Word};

/// Prints a line of the group's proof at the beginning of a line.
#[tactic(auto, using(mc_text::proofs::Printed::printed_bytes, mc_text::proofs::Printed::prints))]
pub fn put_line(out: &mut Bytes, g: &Group, line: &Line) -> Result<(), NoMemory>
    requires { IsLine (line_tree line.now) }
    ensures ok { OnOk result (out.new
        ≡ out.old ++ spell Start (line_tokens (group_tree g.now).code (line_tree line.now))) }
    ensures prefix { BeginsWith out.old out.new }
{
    let mut pen = Pen::new(out);
    put_line_tokens(&mut pen, Version::One, &g.code, line)?;
    Ok(())
}

/// Prints a line of the group's proof at the beginning of a line of a text of that version.
#[tactic(auto, using(mc_text::proofs::Printed::printed_bytes, mc_text::proofs::Printed::prints))]
pub fn put_newer_line(
    out: &mut Bytes,
    version: Version,
    g: &Group,
    line: &Line,
) -> Result<(), NoMemory>
    requires { IsLineIn (version_of version) (line_tree line.now) }
    ensures ok { OnOk result (out.new
        ≡ out.old
        ++ spell Start (line_tokens_in (version_of version) (group_tree g.now).code
        (line_tree line.now))) }
    ensures prefix { BeginsWith out.old out.new }
{
    let mut pen = Pen::new(out);
    put_line_tokens(&mut pen, version, &g.code, line)?;
    Ok(())
}

/// Prints a line of a text of that version, beside the group's own code.
fn put_line_tokens(
    pen: &mut Pen<'_>,
    version: Version,
    own: &Code,
    line: &Line,
) -> Result<(), NoMemory>
    ensures ok { OnOk result (page pen.new
        ≡ print (line_tokens_in (version_of version) own.now.ranges (line_tree line.now))
        (page pen.old)) }
    ensures kept { Keeps (page pen.old) (page pen.new) }
{
    match line {
        Line::States { rule, stated } => {
            put_rule(pen, rule)?;
            put_triple(pen, own, stated)?;
            pen.eol()
        }
        Line::Loop { def, cited } => {
            pen.atom(b"loop")?;
            pen.dec(u64::from(*def))?;
            put_theorems(pen, cited.as_slice())?;
            pen.eol()
        }
        Line::Forget(k) => {
            pen.atom(b"forget")?;
            pen.dec(*k)?;
            pen.eol()
        }
        Line::Further { cited, stated } => {
            put_cited(pen, version.further_word(), *cited)?;
            put_triple(pen, own, stated)?;
            pen.eol()
        }
    }
}

/// Prints the numbers of theorems.
pub fn put_theorems(pen: &mut Pen<'_>, theorems: &[u64]) -> Result<(), NoMemory>
    ensures ok { OnOk result (page pen.new ≡ print (flat_map number theorems.now) (page pen.old)) }
    ensures kept { Keeps (page pen.old) (page pen.new) }
{
    for k in theorems {
        put_theorem(pen, *k)?;
    }
    Ok(())
}

fn put_theorem(pen: &mut Pen<'_>, k: u64) -> Result<(), NoMemory>
    ensures ok { OnOk result (page pen.new ≡ print (number k) (page pen.old)) }
    ensures kept { Keeps (page pen.old) (page pen.new) }
{
    pen.dec(k)
}

// ---- rules

fn put_rule(pen: &mut Pen<'_>, rule: &Rule) -> Result<(), NoMemory>
    ensures ok { OnOk result (page pen.new
        ≡ print (rule_tokens (rule_tree rule.now)) (page pen.old)) }
    ensures kept { Keeps (page pen.old) (page pen.new) }
{
    match rule {
        Rule::Axiom(address, word, form) => {
            pen.atom(b"axiom")?;
            pen.hex(*address)?;
            pen.hex(u64::from(*word))?;
            put_form(pen, *form)
        }
        Rule::Inst(p, sub) => {
            put_cited(pen, b"inst", *p)?;
            put_sub(pen, sub)
        }
        Rule::Frame(p) => put_cited(pen, b"frame", *p),
        Rule::Compose(p, q) => {
            put_cited(pen, b"compose", *p)?;
            pen.dec(*q)
        }
        Rule::ExtendCode(p) => put_cited(pen, b"extend", *p),
        Rule::Strengthen(p) => put_cited(pen, b"strengthen", *p),
        Rule::Weaken(p) => put_cited(pen, b"weaken", *p),
        Rule::Discharge(p) => put_cited(pen, b"discharge", *p),
        Rule::UseExit(def, exit) => {
            put_cited(pen, b"use", u64::from(*def))?;
            pen.dec(u64::from(*exit))
        }
    }
}

/// Prints a word and a number.
pub fn put_cited(pen: &mut Pen<'_>, word: &[u8], n: u64) -> Result<(), NoMemory>
    ensures ok { OnOk result (page pen.new
        ≡ print (keyed_tokens word.now (number n ∷ [])) (page pen.old)) }
    ensures kept { Keeps (page pen.old) (page pen.new) }
{
    pen.atom(word)?;
    pen.dec(n)
}

/// Prints how an instruction goes on.
pub fn put_form(pen: &mut Pen<'_>, form: Form) -> Result<(), NoMemory>
    ensures ok { OnOk result (page pen.new ≡ print (form_tokens form) (page pen.old)) }
    ensures kept { Keeps (page pen.old) (page pen.new) }
{
    match form {
        Form::Next => pen.atom(b"next"),
        Form::Taken => pen.atom(b"taken"),
    }
}

fn put_sub(pen: &mut Pen<'_>, sub: &Sub) -> Result<(), NoMemory>
    ensures ok { OnOk result (page pen.new
        ≡ print
        (flat_map word_sub_tokens (map word_put_in sub.now.words)
        ++ flat_map mem_sub_tokens (map mem_put_in sub.now.mems)) (page pen.old)) }
    ensures kept { Keeps (page pen.old) (page pen.new) }
{
    put_word_subs(pen, sub.words.as_slice())?;
    put_mem_subs(pen, sub.mems.as_slice())
}

fn put_word_subs(pen: &mut Pen<'_>, subs: &[(u32, Word)]) -> Result<(), NoMemory>
    ensures ok { OnOk result (page pen.new
        ≡ print (flat_map word_sub_tokens (map word_put_in subs.now)) (page pen.old)) }
    ensures kept { Keeps (page pen.old) (page pen.new) }
{
    for sub in subs {
        put_word_sub(pen, sub)?;
    }
    Ok(())
}

/// Prints a variable and the word that is put in for it.
fn put_word_sub(pen: &mut Pen<'_>, sub: &(u32, Word)) -> Result<(), NoMemory>
    ensures ok { OnOk result (page pen.new
        ≡ print (word_sub_tokens (word_put_in sub.now)) (page pen.old)) }
    ensures kept { Keeps (page pen.old) (page pen.new) }
{
    pen.left()?;
    pen.numbered(b'v', sub.0)?;
    put_word(pen, &sub.1)?;
    pen.right()
}

fn put_mem_subs(pen: &mut Pen<'_>, subs: &[(u32, Mem)]) -> Result<(), NoMemory>
    ensures ok { OnOk result (page pen.new
        ≡ print (flat_map mem_sub_tokens (map mem_put_in subs.now)) (page pen.old)) }
    ensures kept { Keeps (page pen.old) (page pen.new) }
{
    for sub in subs {
        put_mem_sub(pen, sub)?;
    }
    Ok(())
}

/// Prints a variable and the memory that is put in for it.
fn put_mem_sub(pen: &mut Pen<'_>, sub: &(u32, Mem)) -> Result<(), NoMemory>
    ensures ok { OnOk result (page pen.new
        ≡ print (mem_sub_tokens (mem_put_in sub.now)) (page pen.old)) }
    ensures kept { Keeps (page pen.old) (page pen.new) }
{
    pen.left()?;
    pen.numbered(b'm', sub.0)?;
    put_mem(pen, &sub.1)?;
    pen.right()
}

// ---- triples

/// Prints a triple, beside the group's own code.
fn put_triple(pen: &mut Pen<'_>, own: &Code, t: &Triple) -> Result<(), NoMemory>
    ensures ok { OnOk result (page pen.new
        ≡ print (triple_tokens own.now.ranges (triple_tree t.now)) (page pen.old)) }
    ensures kept { Keeps (page pen.old) (page pen.new) }
{
    put_facts(pen, t.facts.as_slice())?;
    put_assertion(pen, b"pre", &t.pre)?;
    put_stated_code(pen, own, &t.code)?;
    put_assertion(pen, b"post", &t.post)
}

fn put_facts(pen: &mut Pen<'_>, facts: &[Fact]) -> Result<(), NoMemory>
    ensures ok { OnOk result (page pen.new
        ≡ print (Atom (codes "facts") ∷ flat_map fact_tokens (map fact_tree facts.now))
        (page pen.old)) }
    ensures kept { Keeps (page pen.old) (page pen.new) }
{
    pen.atom(b"facts")?;
    put_all_facts(pen, facts)
}

fn put_all_facts(pen: &mut Pen<'_>, facts: &[Fact]) -> Result<(), NoMemory>
    ensures ok { OnOk result (page pen.new
        ≡ print (flat_map fact_tokens (map fact_tree facts.now)) (page pen.old)) }
    ensures kept { Keeps (page pen.old) (page pen.new) }
{
    for fact in facts {
        put_fact(pen, fact)?;
    }
    Ok(())
}

fn put_fact(pen: &mut Pen<'_>, fact: &Fact) -> Result<(), NoMemory>
    ensures ok { OnOk result (page pen.new
        ≡ print (fact_tokens (fact_tree fact.now)) (page pen.old)) }
    ensures kept { Keeps (page pen.old) (page pen.new) }
{
    match fact {
        Fact::WordIs(a, b) => {
            pen.open(b"is")?;
            put_word(pen, a)?;
            put_word(pen, b)?;
            pen.right()
        }
        Fact::MemIs(a, b) => {
            pen.open(b"mis")?;
            put_mem(pen, a)?;
            put_mem(pen, b)?;
            pen.right()
        }
        Fact::So(c) => {
            pen.open(b"so")?;
            put_cond(pen, c)?;
            pen.right()
        }
        Fact::Gives {
            def,
            exit,
            args,
            results,
        } => {
            pen.open(b"gives")?;
            pen.dec(u64::from(*def))?;
            pen.dec(u64::from(*exit))?;
            put_both_values(pen, args, results)?;
            pen.right()
        }
    }
}

/// Prints arguments, and the results after them.
fn put_both_values(pen: &mut Pen<'_>, args: &Values, results: &Values) -> Result<(), NoMemory>
    ensures ok { OnOk result (page pen.new
        ≡ print
        (values_tokens (values_tree args.now) ++ (Semi ∷ values_tokens (values_tree results.now)))
        (page pen.old)) }
    ensures kept { Keeps (page pen.old) (page pen.new) }
{
    put_values(pen, args)?;
    pen.semi()?;
    put_values(pen, results)
}

/// Prints an assertion, after a word.
fn put_assertion(pen: &mut Pen<'_>, word: &[u8], a: &Assertion) -> Result<(), NoMemory>
    ensures ok { OnOk result (page pen.new
        ≡ print (Atom word.now ∷ assertion_tokens (assertion_tree a.now)) (page pen.old)) }
    ensures kept { Keeps (page pen.old) (page pen.new) }
{
    pen.atom(word)?;
    put_assertion_parts(pen, a)
}

fn put_assertion_parts(pen: &mut Pen<'_>, a: &Assertion) -> Result<(), NoMemory>
    ensures ok { OnOk result (page pen.new
        ≡ print (assertion_tokens (assertion_tree a.now)) (page pen.old)) }
    ensures kept { Keeps (page pen.old) (page pen.new) }
{
    pen.left()?;
    put_word(pen, &a.pc)?;
    put_registers(pen, a.regs.as_slice())?;
    pen.semi()?;
    put_mems(pen, a.mems.as_slice())?;
    pen.right()
}

fn put_registers(pen: &mut Pen<'_>, registers: &[(u8, Word)]) -> Result<(), NoMemory>
    ensures ok { OnOk result (page pen.new
        ≡ print (flat_map register_tokens (map register_tree registers.now)) (page pen.old)) }
    ensures kept { Keeps (page pen.old) (page pen.new) }
{
    for register in registers {
        put_register(pen, register)?;
    }
    Ok(())
}

fn put_register(pen: &mut Pen<'_>, register: &(u8, Word)) -> Result<(), NoMemory>
    ensures ok { OnOk result (page pen.new
        ≡ print (register_tokens (register_tree register.now)) (page pen.old)) }
    ensures kept { Keeps (page pen.old) (page pen.new) }
{
    pen.left()?;
    pen.dec(u64::from(register.0))?;
    put_word(pen, &register.1)?;
    pen.right()
}

/// Prints the code of a triple: its ranges, or that it is the group's own.
pub fn put_stated_code(pen: &mut Pen<'_>, own: &Code, code: &Code) -> Result<(), NoMemory>
    ensures ok { OnOk result (page pen.new
        ≡ print (Atom (codes "code") ∷ code_tokens own.now.ranges code.now.ranges) (page pen.old)) }
    ensures kept { Keeps (page pen.old) (page pen.new) }
{
    pen.atom(b"code")?;
    if is_own(own, code) {
        pen.atom(b"all")
    } else {
        put_ranges(pen, code.ranges.as_slice())
    }
}

/// Whether it is the group's own code.
pub fn is_own(own: &Code, code: &Code) -> bool
    ensures { result ≡ same_ranges code.now.ranges own.now.ranges }
{
    same_code(code, own)
}
