//! Printing tables of terms and short lines.
#![tactic(auto, using(mc_text::proofs::Printed::prints))]

ghost use Rattle.std.specs.Prelude.{◌≡◌, ◌++◌, ◌∷◌, [], OnOk, codes, flat_map, length, take};
ghost use Rattle.std.specs.Fmt.{decimal};
ghost use Rattle.mc_text.specs.Printing.{BeginsWith, Keeps, page, print};
ghost use Rattle.mc_text.specs.Tokens.{Atom, Semi, spell};
ghost use Rattle.mc_text.specs.declared.token.Before.TheVariants.{Start};
ghost use Rattle.group_text.specs.Spelling.{address, line, number};
ghost use Rattle.group_text.specs.TermSpelling.{form};
ghost use Rattle.proof_text.specs.Line.{code_or_own};
ghost use Rattle.proof_text.specs.LineSpelling.{code_tokens, form_tokens};
ghost use Rattle.tailrec_lang.specs.Tree.{group_tree};
ghost use Rattle.short_text.specs.ShortSpelling.{held_fact_tokens, held_register_tokens, held_side_tokens, held_values_tokens, list_tokens, mem_place_tokens, node_tokens, short_tokens, table_line, term_number, word_place_tokens};
ghost use Rattle.short_text.specs.SpelledShort.{short_or_own};

use crate::short::Short;
use group_text::{
    name_of_comparison, name_of_extension, name_of_inside, name_of_load, name_of_operation,
    name_of_store,
};
use held_terms::{HeldFact, HeldSide, HeldValues};
use itoa::Buffer;
use mc_text::Pen;
use proof_text::{put_cited, put_form, put_stated_code, put_theorems};
use rv_words::{Bytes, NoMemory};
use tailrec_lang::Group;
use term_arena::Node;
use triple_kernel::Form;
use word_terms::Code;

/// Prints a line of a table at the beginning of a line.
#[tactic(auto, using(mc_text::proofs::Printed::printed_bytes, mc_text::proofs::Printed::prints))]
pub fn put_table_line(out: &mut Bytes, node: Node) -> Result<(), NoMemory>
    ensures ok { OnOk result (out.new ≡ out.old ++ spell Start (table_line node)) }
    ensures prefix { BeginsWith out.old out.new }
{
    let mut pen = Pen::new(out);
    put_node_line(&mut pen, node)?;
    Ok(())
}

fn put_node_line(pen: &mut Pen<'_>, node: Node) -> Result<(), NoMemory>
    ensures ok { OnOk result (page pen.new ≡ print (table_line node) (page pen.old)) }
    ensures kept { Keeps (page pen.old) (page pen.new) }
{
    pen.atom(b"term")?;
    put_node(pen, node)?;
    pen.eol()
}

/// Prints a short line of the group's proof at the beginning of a line. Where `all` is true, the
/// code of a line that extends a theorem's code says nothing, and is the group's own.
#[tactic(auto, using(mc_text::proofs::Printed::printed_bytes, mc_text::proofs::Printed::prints))]
pub fn put_short_line(out: &mut Bytes, g: &Group, line: &Short, all: bool) -> Result<(), NoMemory>
    ensures ok { OnOk result (out.new
        ≡ out.old
        ++ spell Start (short_tokens (group_tree g.now).code
        (short_or_own (group_tree g.now).code all line.now))) }
    ensures prefix { BeginsWith out.old out.new }
{
    let mut pen = Pen::new(out);
    put_line_tokens(&mut pen, &g.code, line, all)?;
    Ok(())
}

// ---- terms

/// Writes a term's number behind its letter at the beginning, and gives how many bytes those are.
fn term_name_into(k: u64, into: &mut [u8; 21]) -> usize
    ensures length { result ≡ length (codes "t" ++ decimal k) }
    ensures written { take result into.new ≡ codes "t" ++ decimal k }
{
    let mut buffer = Buffer::new();
    let digits = buffer.format(k).as_bytes();
    let end = digits.len() + 1;
    into[..1].copy_from_slice(b"t");
    into[1..end].copy_from_slice(digits);
    end
}

/// Prints the number of a term.
fn put_term_number(pen: &mut Pen<'_>, k: u64) -> Result<(), NoMemory>
    ensures ok { OnOk result (page pen.new ≡ print (term_number k) (page pen.old)) }
    ensures kept { Keeps (page pen.old) (page pen.new) }
{
    let mut name = [0; 21];
    let end = term_name_into(k, &mut name);
    pen.atom(&name[..end])
}

fn put_node(pen: &mut Pen<'_>, node: Node) -> Result<(), NoMemory>
    ensures ok { OnOk result (page pen.new ≡ print (node_tokens node) (page pen.old)) }
    ensures kept { Keeps (page pen.old) (page pen.new) }
{
    match node {
        Node::Const(n) => pen.hex(n),
        Node::WordVar(i) => pen.numbered(b'v', i),
        Node::Bin(op, a, b) => put_two_parts(pen, name_of_operation(op), a, b),
        Node::Extend(ext, a) => put_one_part(pen, name_of_extension(ext), a),
        Node::Load(width, m, a) => put_two_parts(pen, name_of_load(width), m, a),
        Node::MemVar(i) => pen.numbered(b'm', i),
        Node::Store(width, m, a, v) => put_three_parts(pen, name_of_store(width), m, a, v),
        Node::Compare(cmp, a, b) => put_two_parts(pen, name_of_comparison(cmp), a, b),
        Node::Neg(c) => put_one_part(pen, b"not", c),
        Node::Inside(width, m, a) => put_two_parts(pen, name_of_inside(width), m, a),
    }
}

/// Prints a form with one part.
fn put_one_part(pen: &mut Pen<'_>, name: &[u8], a: u64) -> Result<(), NoMemory>
    ensures ok { OnOk result (page pen.new
        ≡ print (form name.now (term_number a ∷ [])) (page pen.old)) }
    ensures kept { Keeps (page pen.old) (page pen.new) }
{
    pen.open(name)?;
    put_term_number(pen, a)?;
    pen.right()
}

/// Prints a form with two parts.
fn put_two_parts(pen: &mut Pen<'_>, name: &[u8], a: u64, b: u64) -> Result<(), NoMemory>
    ensures ok { OnOk result (page pen.new
        ≡ print (form name.now (term_number a ∷ term_number b ∷ [])) (page pen.old)) }
    ensures kept { Keeps (page pen.old) (page pen.new) }
{
    pen.open(name)?;
    put_term_number(pen, a)?;
    put_term_number(pen, b)?;
    pen.right()
}

/// Prints a form with three parts.
fn put_three_parts(pen: &mut Pen<'_>, name: &[u8], a: u64, b: u64, c: u64) -> Result<(), NoMemory>
    ensures ok { OnOk result (page pen.new
        ≡ print (form name.now (term_number a ∷ term_number b ∷ term_number c ∷ []))
        (page pen.old)) }
    ensures kept { Keeps (page pen.old) (page pen.new) }
{
    pen.open(name)?;
    put_term_number(pen, a)?;
    put_term_number(pen, b)?;
    put_term_number(pen, c)?;
    pen.right()
}

fn put_term_numbers(pen: &mut Pen<'_>, numbers: &[u64]) -> Result<(), NoMemory>
    ensures ok { OnOk result (page pen.new
        ≡ print (flat_map term_number numbers.now) (page pen.old)) }
    ensures kept { Keeps (page pen.old) (page pen.new) }
{
    for k in numbers {
        put_term_number(pen, *k)?;
    }
    Ok(())
}

// ---- facts and sides

/// Prints words and memories, with a semicolon between them.
fn put_held_values(pen: &mut Pen<'_>, values: &HeldValues) -> Result<(), NoMemory>
    ensures ok { OnOk result (page pen.new ≡ print (held_values_tokens values.now) (page pen.old)) }
    ensures kept { Keeps (page pen.old) (page pen.new) }
{
    put_term_numbers(pen, values.words.as_slice())?;
    pen.semi()?;
    put_term_numbers(pen, values.mems.as_slice())
}

/// Prints arguments, and the results after them.
fn put_both_values(
    pen: &mut Pen<'_>,
    args: &HeldValues,
    results: &HeldValues,
) -> Result<(), NoMemory>
    ensures ok { OnOk result (page pen.new
        ≡ print (held_values_tokens args.now ++ (Semi ∷ held_values_tokens results.now))
        (page pen.old)) }
    ensures kept { Keeps (page pen.old) (page pen.new) }
{
    put_held_values(pen, args)?;
    pen.semi()?;
    put_held_values(pen, results)
}

fn put_held_fact(pen: &mut Pen<'_>, fact: &HeldFact) -> Result<(), NoMemory>
    ensures ok { OnOk result (page pen.new ≡ print (held_fact_tokens fact.now) (page pen.old)) }
    ensures kept { Keeps (page pen.old) (page pen.new) }
{
    match fact {
        HeldFact::WordIs(a, b) => put_two_parts(pen, b"is", *a, *b),
        HeldFact::MemIs(a, b) => put_two_parts(pen, b"mis", *a, *b),
        HeldFact::So(c) => put_one_part(pen, b"so", *c),
        HeldFact::Gives {
            def,
            exit,
            args,
            results,
        } => {
            pen.open(b"gives")?;
            pen.dec(u64::from(*def))?;
            pen.dec(u64::from(*exit))?;
            put_both_values(pen, args, results)?;
            pen.right()
        }
    }
}

fn put_each_fact(pen: &mut Pen<'_>, facts: &[HeldFact]) -> Result<(), NoMemory>
    ensures ok { OnOk result (page pen.new
        ≡ print (flat_map held_fact_tokens facts.now) (page pen.old)) }
    ensures kept { Keeps (page pen.old) (page pen.new) }
{
    for fact in facts {
        put_held_fact(pen, fact)?;
    }
    Ok(())
}

/// Prints the word of facts, and these.
fn put_held_facts(pen: &mut Pen<'_>, facts: &[HeldFact]) -> Result<(), NoMemory>
    ensures ok { OnOk result (page pen.new
        ≡ print (list_tokens (codes "facts") held_fact_tokens facts.now) (page pen.old)) }
    ensures kept { Keeps (page pen.old) (page pen.new) }
{
    pen.atom(b"facts")?;
    put_each_fact(pen, facts)
}

fn put_held_register(pen: &mut Pen<'_>, register: (u8, u64)) -> Result<(), NoMemory>
    ensures ok { OnOk result (page pen.new ≡ print (held_register_tokens register) (page pen.old)) }
    ensures kept { Keeps (page pen.old) (page pen.new) }
{
    pen.left()?;
    pen.dec(u64::from(register.0))?;
    put_term_number(pen, register.1)?;
    pen.right()
}

fn put_held_registers(pen: &mut Pen<'_>, registers: &[(u8, u64)]) -> Result<(), NoMemory>
    ensures ok { OnOk result (page pen.new
        ≡ print (flat_map held_register_tokens registers.now) (page pen.old)) }
    ensures kept { Keeps (page pen.old) (page pen.new) }
{
    for register in registers {
        put_held_register(pen, *register)?;
    }
    Ok(())
}

fn put_side_parts(pen: &mut Pen<'_>, side: &HeldSide) -> Result<(), NoMemory>
    ensures ok { OnOk result (page pen.new ≡ print (held_side_tokens side.now) (page pen.old)) }
    ensures kept { Keeps (page pen.old) (page pen.new) }
{
    pen.left()?;
    put_term_number(pen, side.pc)?;
    put_held_registers(pen, side.regs.as_slice())?;
    pen.semi()?;
    put_term_numbers(pen, side.mems.as_slice())?;
    pen.right()
}

/// Prints an assertion, after a word.
fn put_held_side(pen: &mut Pen<'_>, word: &[u8], side: &HeldSide) -> Result<(), NoMemory>
    ensures ok { OnOk result (page pen.new
        ≡ print (Atom word.now ∷ held_side_tokens side.now) (page pen.old)) }
    ensures kept { Keeps (page pen.old) (page pen.new) }
{
    pen.atom(word)?;
    put_side_parts(pen, side)
}

// ---- lines

/// Prints a line, beside the group's own code.
fn put_line_tokens(pen: &mut Pen<'_>, own: &Code, line: &Short, all: bool) -> Result<(), NoMemory>
    ensures ok { OnOk result (page pen.new
        ≡ print (short_tokens own.now.ranges (short_or_own own.now.ranges all line.now))
        (page pen.old)) }
    ensures kept { Keeps (page pen.old) (page pen.new) }
{
    match line {
        Short::Axiom(address, word, form) => put_axiom(pen, *address, *word, *form),
        Short::Inst(p, words, mems) => put_inst(pen, *p, words.as_slice(), mems.as_slice()),
        Short::Frame(p, regs, mems) => put_frame(pen, *p, regs.as_slice(), mems.as_slice()),
        Short::ExtendCode(p, code) => put_extension(pen, own, *p, code, all),
        Short::Compose(p, q) => put_two_numbers(pen, b"compose", *p, *q),
        Short::Strengthen(p, facts, pre) => put_changed(
            pen,
            b"strengthen",
            *p,
            facts.as_slice(),
            b"pre",
            pre,
        ),
        Short::Weaken(p, facts, post) => put_changed(
            pen,
            b"weaken",
            *p,
            facts.as_slice(),
            b"post",
            post,
        ),
        Short::Discharge(p, facts) => put_with_facts(pen, b"discharge", *p, facts.as_slice()),
        Short::UseExit(def, exit) => put_two_numbers(
            pen,
            b"use",
            u64::from(*def),
            u64::from(*exit),
        ),
        Short::Loop(def, cited) => put_loop(pen, *def, cited.as_slice()),
        Short::Forget(k) => {
            put_cited(pen, b"forget", *k)?;
            pen.eol()
        }
    }
}

fn put_axiom(pen: &mut Pen<'_>, at: u64, word: u32, form: Form) -> Result<(), NoMemory>
    ensures ok { OnOk result (page pen.new
        ≡ print (line (codes "axiom") (address at ∷ address word ∷ form_tokens form ∷ []))
        (page pen.old)) }
    ensures kept { Keeps (page pen.old) (page pen.new) }
{
    pen.atom(b"axiom")?;
    pen.hex(at)?;
    pen.hex(u64::from(word))?;
    put_form(pen, form)?;
    pen.eol()
}

fn put_inst(
    pen: &mut Pen<'_>,
    p: u64,
    words: &[(u32, u64)],
    mems: &[(u32, u64)],
) -> Result<(), NoMemory>
    ensures ok { OnOk result (page pen.new
        ≡ print
        (line (codes "inst") (number p ∷ flat_map word_place_tokens words.now
        ∷ flat_map mem_place_tokens mems.now ∷ [])) (page pen.old)) }
    ensures kept { Keeps (page pen.old) (page pen.new) }
{
    put_cited(pen, b"inst", p)?;
    put_word_places(pen, words)?;
    put_mem_places(pen, mems)?;
    pen.eol()
}

fn put_frame(pen: &mut Pen<'_>, p: u64, regs: &[(u8, u64)], mems: &[u64]) -> Result<(), NoMemory>
    ensures ok { OnOk result (page pen.new
        ≡ print
        (line (codes "frame") (number p ∷ flat_map held_register_tokens regs.now ∷ (Semi ∷ [])
        ∷ flat_map term_number mems.now ∷ [])) (page pen.old)) }
    ensures kept { Keeps (page pen.old) (page pen.new) }
{
    put_cited(pen, b"frame", p)?;
    put_held_registers(pen, regs)?;
    pen.semi()?;
    put_term_numbers(pen, mems)?;
    pen.eol()
}

fn put_extension(
    pen: &mut Pen<'_>,
    own: &Code,
    p: u64,
    code: &Code,
    all: bool,
) -> Result<(), NoMemory>
    ensures ok { OnOk result (page pen.new
        ≡ print
        (line (codes "extend") (number p
        ∷ (Atom (codes "code")
        ∷ code_tokens own.now.ranges (code_or_own own.now.ranges all code.now.ranges)) ∷ []))
        (page pen.old)) }
    ensures kept { Keeps (page pen.old) (page pen.new) }
{
    put_cited(pen, b"extend", p)?;
    put_code_or_own(pen, own, code, all)?;
    pen.eol()
}

/// Prints such code, or that it is the group's own.
fn put_code_or_own(pen: &mut Pen<'_>, own: &Code, code: &Code, all: bool) -> Result<(), NoMemory>
    ensures ok { OnOk result (page pen.new
        ≡ print
        (Atom (codes "code")
        ∷ code_tokens own.now.ranges (code_or_own own.now.ranges all code.now.ranges))
        (page pen.old)) }
    ensures kept { Keeps (page pen.old) (page pen.new) }
{
    if all {
        put_own_code(pen)
    } else {
        put_stated_code(pen, own, code)
    }
}

/// Prints that code is the group's own.
fn put_own_code(pen: &mut Pen<'_>) -> Result<(), NoMemory>
    ensures ok { OnOk result (page pen.new
        ≡ print (Atom (codes "code") ∷ Atom (codes "all") ∷ []) (page pen.old)) }
    ensures kept { Keeps (page pen.old) (page pen.new) }
{
    pen.atom(b"code")?;
    pen.atom(b"all")
}

/// Prints a line of a word and two numbers.
fn put_two_numbers(pen: &mut Pen<'_>, word: &[u8], m: u64, n: u64) -> Result<(), NoMemory>
    ensures ok { OnOk result (page pen.new
        ≡ print (line word.now (number m ∷ number n ∷ [])) (page pen.old)) }
    ensures kept { Keeps (page pen.old) (page pen.new) }
{
    put_cited(pen, word, m)?;
    pen.dec(n)?;
    pen.eol()
}

/// Prints a line by that rule, with facts, and a side behind a word.
fn put_changed(
    pen: &mut Pen<'_>,
    rule: &[u8],
    p: u64,
    facts: &[HeldFact],
    word: &[u8],
    side: &HeldSide,
) -> Result<(), NoMemory>
    ensures ok { OnOk result (page pen.new
        ≡ print
        (line rule.now (number p ∷ list_tokens (codes "facts") held_fact_tokens facts.now
        ∷ (Atom word.now ∷ held_side_tokens side.now) ∷ [])) (page pen.old)) }
    ensures kept { Keeps (page pen.old) (page pen.new) }
{
    put_cited(pen, rule, p)?;
    put_held_facts(pen, facts)?;
    put_held_side(pen, word, side)?;
    pen.eol()
}

/// Prints a line by that rule, with facts.
fn put_with_facts(
    pen: &mut Pen<'_>,
    rule: &[u8],
    p: u64,
    facts: &[HeldFact],
) -> Result<(), NoMemory>
    ensures ok { OnOk result (page pen.new
        ≡ print
        (line rule.now (number p ∷ list_tokens (codes "facts") held_fact_tokens facts.now ∷ []))
        (page pen.old)) }
    ensures kept { Keeps (page pen.old) (page pen.new) }
{
    put_cited(pen, rule, p)?;
    put_held_facts(pen, facts)?;
    pen.eol()
}

fn put_loop(pen: &mut Pen<'_>, def: u32, cited: &[u64]) -> Result<(), NoMemory>
    ensures ok { OnOk result (page pen.new
        ≡ print (line (codes "loop") (number def ∷ flat_map number cited.now ∷ []))
        (page pen.old)) }
    ensures kept { Keeps (page pen.old) (page pen.new) }
{
    put_cited(pen, b"loop", u64::from(def))?;
    put_theorems(pen, cited)?;
    pen.eol()
}

/// Prints a variable and the number of the word that is put in for it.
fn put_word_place(pen: &mut Pen<'_>, place: (u32, u64)) -> Result<(), NoMemory>
    ensures ok { OnOk result (page pen.new ≡ print (word_place_tokens place) (page pen.old)) }
    ensures kept { Keeps (page pen.old) (page pen.new) }
{
    pen.left()?;
    pen.numbered(b'v', place.0)?;
    put_term_number(pen, place.1)?;
    pen.right()
}

fn put_word_places(pen: &mut Pen<'_>, places: &[(u32, u64)]) -> Result<(), NoMemory>
    ensures ok { OnOk result (page pen.new
        ≡ print (flat_map word_place_tokens places.now) (page pen.old)) }
    ensures kept { Keeps (page pen.old) (page pen.new) }
{
    for place in places {
        put_word_place(pen, *place)?;
    }
    Ok(())
}

/// Prints a variable and the number of the memory that is put in for it.
fn put_mem_place(pen: &mut Pen<'_>, place: (u32, u64)) -> Result<(), NoMemory>
    ensures ok { OnOk result (page pen.new ≡ print (mem_place_tokens place) (page pen.old)) }
    ensures kept { Keeps (page pen.old) (page pen.new) }
{
    pen.left()?;
    pen.numbered(b'm', place.0)?;
    put_term_number(pen, place.1)?;
    pen.right()
}

fn put_mem_places(pen: &mut Pen<'_>, places: &[(u32, u64)]) -> Result<(), NoMemory>
    ensures ok { OnOk result (page pen.new
        ≡ print (flat_map mem_place_tokens places.now) (page pen.old)) }
    ensures kept { Keeps (page pen.old) (page pen.new) }
{
    for place in places {
        put_mem_place(pen, *place)?;
    }
    Ok(())
}
