//! Reading rules, with the first word of the triple behind them.

ghost use Rattle.std.specs.Prelude.{◌≡◌, map};
ghost use Rattle.mc_text.specs.Reading.{atom_of, one};
ghost use Rattle.mc_text.specs.Outcome.{Gives, last_line};
ghost use Rattle.proof_text.specs.Line.{rule_tree};
ghost use Rattle.proof_text.specs.inner.LineReading.{axiom_form_of, cited_at, facts_word, inst_parts, instruction_of, rule_at, rule_head_of, rule_parts, theorem_at};
ghost use Rattle.proof_text.specs.inner.Subs.{put_tree};

use crate::line::Rule;
use crate::line_heads::{RuleHead, axiom_form_of, rule_head_of};
use crate::line_subs::{Put, puts_rise, read_subs, sub_of};
use group_text::read_index;
use mc_text::cursor::{accept, address, keyword};
use mc_text::{Scan, TokenError, dec, hexnum};
use std::alloc::Global;
use triple_kernel::Form;

/// The number of a theorem.
#[tactic(auto, unfolding(mc_text::specs::Reading::one), using(mc_text::proofs::AtomAhead::no_atom_of))]
pub fn read_theorem<'a>(scan: &mut Scan<'a>) -> Result<u64, TokenError>
    ensures gives { Gives (λ n. n) result scan.old scan.new theorem_at }
    ensures last { last_line scan.new ≡ last_line scan.old }
{
    match scan.atom_ahead() {
        Some((atom, ahead)) => accept(scan, ahead, dec(atom)),
        None => Err(TokenError::Bad),
    }
}

/// The instruction word that an atom spells.
fn instruction_of(atom: &[u8]) -> Option<u32>
    ensures { result ≡ instruction_of atom.now }
{
    match hexnum(atom) {
        Some(n) if n < 1 << 32 => Some(n as u32),
        _ => None,
    }
}

/// An instruction word.
#[tactic(auto, unfolding(mc_text::specs::Reading::one), using(mc_text::proofs::AtomAhead::no_atom_of))]
pub fn read_instruction<'a>(scan: &mut Scan<'a>) -> Result<u32, TokenError>
    ensures gives { Gives (λ n. n) result scan.old scan.new (one (atom_of instruction_of)) }
    ensures last { last_line scan.new ≡ last_line scan.old }
{
    match scan.atom_ahead() {
        Some((atom, ahead)) => accept(scan, ahead, instruction_of(atom)),
        None => Err(TokenError::Bad),
    }
}

/// How an instruction goes on.
#[tactic(auto, unfolding(mc_text::specs::Reading::one), using(mc_text::proofs::AtomAhead::no_atom_of))]
pub fn read_form<'a>(scan: &mut Scan<'a>) -> Result<Form, TokenError>
    ensures gives { Gives (λ form. form) result scan.old scan.new (one (atom_of axiom_form_of)) }
    ensures last { last_line scan.new ≡ last_line scan.old }
{
    match scan.atom_ahead() {
        Some((name, ahead)) => accept(scan, ahead, axiom_form_of(name)),
        None => Err(TokenError::Bad),
    }
}

/// The first word of a triple.
fn read_facts_word<'a>(scan: &mut Scan<'a>) -> Result<(), TokenError>
    ensures gives { Gives (λ _. tt) result scan.old scan.new facts_word }
    ensures last { last_line scan.new ≡ last_line scan.old }
{
    keyword(scan, b"facts")
}

/// The number of a theorem, and the first word of a triple.
pub fn read_cited<'a>(scan: &mut Scan<'a>) -> Result<u64, TokenError>
    ensures gives { Gives (λ n. (n, tt)) result scan.old scan.new cited_at }
    ensures last { last_line scan.new ≡ last_line scan.old }
{
    let n = read_theorem(scan)?;
    read_facts_word(scan)?;
    Ok(n)
}

// ---- rules

/// A theorem and terms for variables, and the first word of a triple.
fn read_inst<'a>(alloc: Global, scan: &mut Scan<'a>) -> Result<(u64, Vec<Put>), TokenError>
    ensures gives { Gives (λ inst. (inst.0, (map put_tree inst.1.items, tt))) result scan.old
        scan.new inst_parts }
    ensures last { last_line scan.new ≡ last_line scan.old }
{
    let p = read_theorem(scan)?;
    let puts = read_subs(alloc, scan)?;
    read_facts_word(scan)?;
    if !puts_rise(puts.as_slice()) {
        return Err(TokenError::Bad);
    }
    Ok((p, puts))
}

/// The name of a rule.
#[tactic(auto, unfolding(mc_text::specs::Reading::one), using(mc_text::proofs::AtomAhead::no_atom_of))]
fn rule_name<'a>(scan: &mut Scan<'a>) -> Result<RuleHead, TokenError>
    ensures gives { Gives (λ h. h) result scan.old scan.new (one (atom_of rule_head_of)) }
    ensures last { last_line scan.new ≡ last_line scan.old }
{
    match scan.atom_ahead() {
        Some((name, ahead)) => accept(scan, ahead, rule_head_of(name)),
        None => Err(TokenError::Bad),
    }
}

/// What stands after the name of a rule, with the first word of the triple.
fn read_parts<'a>(alloc: Global, scan: &mut Scan<'a>, head: RuleHead) -> Result<Rule, TokenError>
    ensures gives { Gives rule_tree result scan.old scan.new (rule_parts head) }
    ensures last { last_line scan.new ≡ last_line scan.old }
{
    match head {
        RuleHead::Axiom => {
            let address = address(scan)?;
            let word = read_instruction(scan)?;
            let form = read_form(scan)?;
            read_facts_word(scan)?;
            Ok(Rule::Axiom(address, word, form))
        }
        RuleHead::Inst => {
            let (p, puts) = read_inst(alloc, scan)?;
            Ok(Rule::Inst(p, sub_of(alloc, puts)?))
        }
        RuleHead::Frame => Ok(Rule::Frame(read_cited(scan)?)),
        RuleHead::Compose => {
            let p = read_theorem(scan)?;
            Ok(Rule::Compose(p, read_cited(scan)?))
        }
        RuleHead::ExtendCode => Ok(Rule::ExtendCode(read_cited(scan)?)),
        RuleHead::Strengthen => Ok(Rule::Strengthen(read_cited(scan)?)),
        RuleHead::Weaken => Ok(Rule::Weaken(read_cited(scan)?)),
        RuleHead::Discharge => Ok(Rule::Discharge(read_cited(scan)?)),
        RuleHead::UseExit => {
            let def = read_index(scan)?;
            let exit = read_index(scan)?;
            read_facts_word(scan)?;
            Ok(Rule::UseExit(def, exit))
        }
    }
}

/// A rule, with the first word of the triple.
#[tactic(auto, unfolding(crate::specs::inner::LineReading::rule_at))]
pub fn read_rule<'a>(alloc: Global, scan: &mut Scan<'a>) -> Result<Rule, TokenError>
    ensures gives { Gives rule_tree result scan.old scan.new rule_at }
    ensures last { last_line scan.new ≡ last_line scan.old }
{
    let head = rule_name(scan)?;
    read_parts(alloc, scan, head)
}
