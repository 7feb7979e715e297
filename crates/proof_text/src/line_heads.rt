//! The forms of facts, rules and substitutions, as the words that they begin with tell them apart.

ghost use Rattle.std.specs.Prelude.{◌≡◌};
ghost use Rattle.proof_text.specs.inner.LineReading.{axiom_form_of, fact_head_of, rule_head_of, rule_name, sub_head_of};

use group_text::variable_of;
use triple_kernel::Form;

/// The forms of facts.
#[derive(Clone, Copy, PartialEq, Eq)]
pub enum FactHead {
    WordIs,
    MemIs,
    So,
    Gives,
}

/// The rules.
#[derive(Clone, Copy, PartialEq, Eq)]
pub enum RuleHead {
    Axiom,
    Inst,
    Frame,
    Compose,
    ExtendCode,
    Strengthen,
    Weaken,
    Discharge,
    UseExit,
}

/// A variable for a word or for a memory.
#[derive(Clone, Copy, PartialEq, Eq)]
pub enum SubHead {
    Word(u32),
    Mem(u32),
}

static RULES: [RuleHead; 9] = [
    RuleHead::Axiom,
    RuleHead::Inst,
    RuleHead::Frame,
    RuleHead::Compose,
    RuleHead::ExtendCode,
    RuleHead::Strengthen,
    RuleHead::Weaken,
    RuleHead::Discharge,
    RuleHead::UseExit,
];

/// The form of a fact that has that name.
#[tactic(auto, unfolding(crate::specs::inner::LineReading::fact_head_of))]
pub fn fact_head_of(name: &[u8]) -> Option<FactHead>
    ensures { result ≡ fact_head_of name.now }
{
    match name {
        b"is" => Some(FactHead::WordIs),
        b"mis" => Some(FactHead::MemIs),
        b"so" => Some(FactHead::So),
        b"gives" => Some(FactHead::Gives),
        _ => None,
    }
}

fn name_of_rule(head: RuleHead) -> &'static [u8]
    ensures { result.now ≡ rule_name head }
{
    match head {
        RuleHead::Axiom => b"axiom",
        RuleHead::Inst => b"inst",
        RuleHead::Frame => b"frame",
        RuleHead::Compose => b"compose",
        RuleHead::ExtendCode => b"extend",
        RuleHead::Strengthen => b"strengthen",
        RuleHead::Weaken => b"weaken",
        RuleHead::Discharge => b"discharge",
        RuleHead::UseExit => b"use",
    }
}

/// The rule of that name.
#[tactic(auto, unfolding(crate::specs::inner::LineReading::rule_head_of))]
pub fn rule_head_of(name: &[u8]) -> Option<RuleHead>
    ensures { result ≡ rule_head_of name.now }
{
    for &head in &RULES {
        if name_of_rule(head) == name {
            return Some(head);
        }
    }
    None
}

/// How an instruction goes on, by its name.
#[tactic(auto, unfolding(crate::specs::inner::LineReading::axiom_form_of))]
pub fn axiom_form_of(name: &[u8]) -> Option<Form>
    ensures { result ≡ axiom_form_of name.now }
{
    match name {
        b"next" => Some(Form::Next),
        b"taken" => Some(Form::Taken),
        _ => None,
    }
}

/// The variable of that name.
#[tactic(auto, unfolding(crate::specs::inner::LineReading::sub_head_of))]
pub fn sub_head_of(name: &[u8]) -> Option<SubHead>
    ensures { result ≡ sub_head_of name.now }
{
    if let Some(i) = variable_of(b'v', name) {
        Some(SubHead::Word(i))
    } else if let Some(i) = variable_of(b'm', name) {
        Some(SubHead::Mem(i))
    } else {
        None
    }
}
