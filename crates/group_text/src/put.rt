//! Printing groups.
#![tactic(auto, using(mc_text::proofs::Printed::prints))]

ghost use Rattle.std.specs.Prelude.{◌≡◌, ◌++◌, ◌∷◌, [], OnOk, codes, map, flat_map};
ghost use Rattle.mc_text.specs.Printing.{BeginsWith, Keeps, page, print};
ghost use Rattle.mc_text.specs.Tokens.{Atom, spell};
ghost use Rattle.mc_text.specs.declared.token.Before.TheVariants.{Start};
ghost use Rattle.group_text.specs.TermSpelling.{cond_tokens, mem_tokens, range_tokens, word_tokens};
ghost use Rattle.word_terms.specs.Tree.{cond_tree, mem_tree, word_tree};
ghost use Rattle.tailrec_lang.specs.Tree.{body_tree, def_tree, group_tree, step_tree, values_tree};
ghost use Rattle.tailrec_lang.specs.inner.Tree.{arm_trees, end_tree};
ghost use Rattle.group_text.specs.Spelling.{arm_tokens, body_tokens, def_tokens, end_tokens, exit_tokens, group_tokens, head_tokens, line, number, step_tokens, title_tokens, values_tokens};
ghost use Rattle.group_text.specs.Version.{version_of};

use crate::put_terms::{put_cond, put_mem, put_range, put_word};
use crate::version::Version;
use mc_text::Pen;
use rv_words::{Bytes, NoMemory, Range};
use tailrec_lang::{Body, Def, End, Exit, Group, Step, Values};
use word_terms::{Cond, Mem, Word};

/// Prints what stands before the groups of a text of version 1.
pub fn put_head(out: &mut Bytes) -> Result<(), NoMemory>
    ensures ok { OnOk result (out.new ≡ out.old ++ spell Start head_tokens) }
    ensures prefix { BeginsWith out.old out.new }
{
    put_title(out, Version::One)
}

/// Prints what stands before the groups of a text of that version.
#[tactic(auto, using(mc_text::proofs::Printed::printed_bytes, mc_text::proofs::Printed::prints))]
pub fn put_title(out: &mut Bytes, version: Version) -> Result<(), NoMemory>
    ensures ok { OnOk result (out.new
        ≡ out.old ++ spell Start (title_tokens (version_of version))) }
    ensures prefix { BeginsWith out.old out.new }
{
    let mut pen = Pen::new(out);
    put_title_line(&mut pen, version)?;
    Ok(())
}

fn put_title_line(pen: &mut Pen<'_>, version: Version) -> Result<(), NoMemory>
    ensures ok { OnOk result (page pen.new
        ≡ print (title_tokens (version_of version)) (page pen.old)) }
    ensures kept { Keeps (page pen.old) (page pen.new) }
{
    pen.atom(b"mcproof")?;
    pen.atom(version.title())?;
    pen.eol()
}

/// Prints a group at the beginning of a line: its head, and its definitions.
#[tactic(auto, using(mc_text::proofs::Printed::printed_bytes, mc_text::proofs::Printed::prints))]
pub fn put_group(out: &mut Bytes, g: &Group) -> Result<(), NoMemory>
    ensures ok { OnOk result (out.new ≡ out.old ++ spell Start (group_tokens (group_tree g.now))) }
    ensures prefix { BeginsWith out.old out.new }
{
    let mut pen = Pen::new(out);
    put_group_lines(&mut pen, g)?;
    Ok(())
}

/// Prints what stands after the groups of a text.
#[tactic(auto, using(mc_text::proofs::Printed::printed_bytes, mc_text::proofs::Printed::prints))]
pub fn put_end(out: &mut Bytes) -> Result<(), NoMemory>
    ensures ok { OnOk result (out.new ≡ out.old ++ spell Start end_tokens) }
    ensures prefix { BeginsWith out.old out.new }
{
    let mut pen = Pen::new(out);
    put_bare_line(&mut pen, b"end")?;
    Ok(())
}

pub fn put_group_lines(pen: &mut Pen<'_>, g: &Group) -> Result<(), NoMemory>
    ensures ok { OnOk result (page pen.new
        ≡ print (group_tokens (group_tree g.now)) (page pen.old)) }
    ensures kept { Keeps (page pen.old) (page pen.new) }
{
    put_name_line(pen, g.name.as_slice())?;
    put_registers_line(pen, g.regs.as_slice())?;
    put_memories_line(pen, g.mems)?;
    put_code_line(pen, g.code.ranges.as_slice())?;
    put_defs(pen, g.defs.as_slice())
}

fn put_name_line(pen: &mut Pen<'_>, name: &[u8]) -> Result<(), NoMemory>
    ensures ok { OnOk result (page pen.new
        ≡ print (line (codes "group") ((Atom name.now ∷ []) ∷ [])) (page pen.old)) }
    ensures kept { Keeps (page pen.old) (page pen.new) }
{
    pen.atom(b"group")?;
    pen.atom(name)?;
    pen.eol()
}

fn put_registers_line(pen: &mut Pen<'_>, registers: &[u8]) -> Result<(), NoMemory>
    ensures ok { OnOk result (page pen.new
        ≡ print (line (codes "regs") (flat_map number registers.now ∷ [])) (page pen.old)) }
    ensures kept { Keeps (page pen.old) (page pen.new) }
{
    pen.atom(b"regs")?;
    put_numbers(pen, registers)?;
    pen.eol()
}

fn put_memories_line(pen: &mut Pen<'_>, count: u8) -> Result<(), NoMemory>
    ensures ok { OnOk result (page pen.new
        ≡ print (line (codes "mems") (number count ∷ [])) (page pen.old)) }
    ensures kept { Keeps (page pen.old) (page pen.new) }
{
    pen.atom(b"mems")?;
    put_number(pen, count)?;
    pen.eol()
}

fn put_code_line(pen: &mut Pen<'_>, ranges: &[Range]) -> Result<(), NoMemory>
    ensures ok { OnOk result (page pen.new
        ≡ print (line (codes "code") (flat_map range_tokens ranges.now ∷ [])) (page pen.old)) }
    ensures kept { Keeps (page pen.old) (page pen.new) }
{
    pen.atom(b"code")?;
    put_ranges(pen, ranges)?;
    pen.eol()
}

fn put_numbers(pen: &mut Pen<'_>, numbers: &[u8]) -> Result<(), NoMemory>
    ensures ok { OnOk result (page pen.new ≡ print (flat_map number numbers.now) (page pen.old)) }
    ensures kept { Keeps (page pen.old) (page pen.new) }
{
    for n in numbers {
        put_number(pen, *n)?;
    }
    Ok(())
}

fn put_number(pen: &mut Pen<'_>, n: u8) -> Result<(), NoMemory>
    ensures ok { OnOk result (page pen.new ≡ print (number n) (page pen.old)) }
    ensures kept { Keeps (page pen.old) (page pen.new) }
{
    pen.dec(u64::from(n))
}

pub fn put_ranges(pen: &mut Pen<'_>, ranges: &[Range]) -> Result<(), NoMemory>
    ensures ok { OnOk result (page pen.new
        ≡ print (flat_map range_tokens ranges.now) (page pen.old)) }
    ensures kept { Keeps (page pen.old) (page pen.new) }
{
    for range in ranges {
        put_range(pen, range)?;
    }
    Ok(())
}

/// Prints the definitions' first lines and bodies.
pub fn put_defs(pen: &mut Pen<'_>, defs: &[Def]) -> Result<(), NoMemory>
    ensures ok { OnOk result (page pen.new
        ≡ print (flat_map def_tokens (map def_tree defs.now)) (page pen.old)) }
    ensures kept { Keeps (page pen.old) (page pen.new) }
{
    for def in defs {
        put_def(pen, def)?;
    }
    Ok(())
}

fn put_def(pen: &mut Pen<'_>, def: &Def) -> Result<(), NoMemory>
    ensures ok { OnOk result (page pen.new ≡ print (def_tokens (def_tree def.now)) (page pen.old)) }
    ensures kept { Keeps (page pen.old) (page pen.new) }
{
    pen.atom(b"def")?;
    pen.hex(def.entry)?;
    put_exits(pen, def.exits.as_slice())?;
    pen.eol()?;
    put_body(pen, &def.body)
}

fn put_exits(pen: &mut Pen<'_>, exits: &[Exit]) -> Result<(), NoMemory>
    ensures ok { OnOk result (page pen.new
        ≡ print (flat_map exit_tokens exits.now) (page pen.old)) }
    ensures kept { Keeps (page pen.old) (page pen.new) }
{
    for exit in exits {
        put_exit(pen, *exit)?;
    }
    Ok(())
}

fn put_exit(pen: &mut Pen<'_>, exit: Exit) -> Result<(), NoMemory>
    ensures ok { OnOk result (page pen.new ≡ print (exit_tokens exit) (page pen.old)) }
    ensures kept { Keeps (page pen.old) (page pen.new) }
{
    match exit {
        Exit::At(address) => pen.hex(address),
        Exit::Ret => pen.atom(b"ret"),
    }
}

#[cycle(bodies)]
#[tactic(auto, using(mc_text::proofs::Printed::prints, crate::proofs::Printing::body_printed))]
fn put_body(pen: &mut Pen<'_>, body: &Body) -> Result<(), NoMemory>
    ensures ok { OnOk result (page pen.new
        ≡ print (body_tokens (body_tree body.now)) (page pen.old)) }
    ensures kept { Keeps (page pen.old) (page pen.new) }
{
    put_steps(pen, body.steps.as_slice())?;
    put_body_end(pen, &body.end)
}

/// Prints what stands after a body's steps.
#[cycle(bodies)]
fn put_body_end(pen: &mut Pen<'_>, end: &End) -> Result<(), NoMemory>
    ensures ok { OnOk result (page pen.new
        ≡ print (body_tokens (end_tree end.now)) (page pen.old)) }
    ensures kept { Keeps (page pen.old) (page pen.new) }
{
    match end {
        End::Branch(c, a, b) => {
            put_branch_line(pen, c)?;
            put_body(pen, a)?;
            put_bare_line(pen, b"else")?;
            put_body(pen, b)
        }
        End::Call(def, values, arms) => {
            put_call_line(pen, *def, arms.len(), values)?;
            put_arms(pen, arms.as_slice())
        }
        End::Again(values) => {
            pen.atom(b"again")?;
            put_values(pen, values)?;
            pen.eol()
        }
        End::Leave(exit, values) => {
            pen.atom(b"leave")?;
            pen.dec(u64::from(*exit))?;
            put_values(pen, values)?;
            pen.eol()
        }
    }
}

#[cycle(bodies)]
fn put_arms(pen: &mut Pen<'_>, arms: &[Body]) -> Result<(), NoMemory>
    ensures ok { OnOk result (page pen.new
        ≡ print (arm_tokens (arm_trees arms.now)) (page pen.old)) }
    ensures kept { Keeps (page pen.old) (page pen.new) }
{
    for arm in arms {
        put_bare_line(pen, b"arm")?;
        put_body(pen, arm)?;
    }
    Ok(())
}

fn put_branch_line(pen: &mut Pen<'_>, c: &Cond) -> Result<(), NoMemory>
    ensures ok { OnOk result (page pen.new
        ≡ print (line (codes "if") (cond_tokens (cond_tree c.now) ∷ [])) (page pen.old)) }
    ensures kept { Keeps (page pen.old) (page pen.new) }
{
    pen.atom(b"if")?;
    put_cond(pen, c)?;
    pen.eol()
}

fn put_call_line(pen: &mut Pen<'_>, def: u32, arms: usize, values: &Values) -> Result<(), NoMemory>
    ensures ok { OnOk result (page pen.new
        ≡ print
        (line (codes "call") (number def ∷ number arms ∷ values_tokens (values_tree values.now)
        ∷ [])) (page pen.old)) }
    ensures kept { Keeps (page pen.old) (page pen.new) }
{
    pen.atom(b"call")?;
    pen.dec(u64::from(def))?;
    pen.dec(arms as u64)?;
    put_values(pen, values)?;
    pen.eol()
}

fn put_steps(pen: &mut Pen<'_>, steps: &[Step]) -> Result<(), NoMemory>
    ensures ok { OnOk result (page pen.new
        ≡ print (flat_map step_tokens (map step_tree steps.now)) (page pen.old)) }
    ensures kept { Keeps (page pen.old) (page pen.new) }
{
    for step in steps {
        put_step(pen, step)?;
    }
    Ok(())
}

fn put_step(pen: &mut Pen<'_>, step: &Step) -> Result<(), NoMemory>
    ensures ok { OnOk result (page pen.new
        ≡ print (step_tokens (step_tree step.now)) (page pen.old)) }
    ensures kept { Keeps (page pen.old) (page pen.new) }
{
    match step {
        Step::Bind(t) => {
            pen.atom(b"let")?;
            put_word(pen, t)?;
            pen.eol()
        }
        Step::BindMem(m) => {
            pen.atom(b"letm")?;
            put_mem(pen, m)?;
            pen.eol()
        }
        Step::Need(c) => {
            pen.atom(b"need")?;
            put_cond(pen, c)?;
            pen.eol()
        }
    }
}

pub fn put_values(pen: &mut Pen<'_>, values: &Values) -> Result<(), NoMemory>
    ensures ok { OnOk result (page pen.new
        ≡ print (values_tokens (values_tree values.now)) (page pen.old)) }
    ensures kept { Keeps (page pen.old) (page pen.new) }
{
    put_words(pen, values.words.as_slice())?;
    pen.semi()?;
    put_mems(pen, values.mems.as_slice())
}

fn put_words(pen: &mut Pen<'_>, terms: &[Word]) -> Result<(), NoMemory>
    ensures ok { OnOk result (page pen.new
        ≡ print (flat_map word_tokens (map word_tree terms.now)) (page pen.old)) }
    ensures kept { Keeps (page pen.old) (page pen.new) }
{
    for t in terms {
        put_word(pen, t)?;
    }
    Ok(())
}

pub fn put_mems(pen: &mut Pen<'_>, terms: &[Mem]) -> Result<(), NoMemory>
    ensures ok { OnOk result (page pen.new
        ≡ print (flat_map mem_tokens (map mem_tree terms.now)) (page pen.old)) }
    ensures kept { Keeps (page pen.old) (page pen.new) }
{
    for t in terms {
        put_mem(pen, t)?;
    }
    Ok(())
}

/// Prints a line of one word.
pub fn put_bare_line(pen: &mut Pen<'_>, word: &[u8]) -> Result<(), NoMemory>
    ensures ok { OnOk result (page pen.new ≡ print (line word.now []) (page pen.old)) }
    ensures kept { Keeps (page pen.old) (page pen.new) }
{
    pen.atom(word)?;
    pen.eol()
}
