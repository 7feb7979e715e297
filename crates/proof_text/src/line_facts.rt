//! Reading facts.

ghost use Rattle.std.specs.Prelude.{◌≡◌, map};
ghost use Rattle.mc_text.specs.Reading.{atom_of, is_open, is_right, one, star};
ghost use Rattle.mc_text.specs.inner.Reading.{is_semi};
ghost use Rattle.mc_text.specs.Outcome.{Gives, last_line};
ghost use Rattle.tailrec_lang.specs.Tree.{values_tree};
ghost use Rattle.triple_kernel.specs.Tree.{fact_tree};
ghost use Rattle.proof_text.specs.inner.LineReading.{fact_at, fact_head_of, fact_parts, values_with};

use crate::line_heads::{FactHead, fact_head_of};
use group_text::{read_cond, read_index, read_mem, read_mems, read_word, read_words};
use mc_text::cursor::{accept, is_open, left, right, semi};
use mc_text::{Scan, TokenError};
use rv_words::List;
use std::alloc::Global;
use tailrec_lang::Values;
use triple_kernel::Fact;
use word_terms::DEPTH_LIMIT;

/// Words and memories, with the semicolon behind them.
fn read_arguments<'a>(alloc: Global, scan: &mut Scan<'a>) -> Result<Values, TokenError>
    ensures gives { Gives values_tree result scan.old scan.new (values_with (one is_semi)) }
    ensures last { last_line scan.new ≡ last_line scan.old }
{
    let words = read_words(alloc, scan)?;
    semi(scan)?;
    let mems = read_mems(alloc, scan)?;
    semi(scan)?;
    Ok(Values { words, mems })
}

/// Words and memories, with the parenthesis behind them.
fn read_results<'a>(alloc: Global, scan: &mut Scan<'a>) -> Result<Values, TokenError>
    ensures gives { Gives values_tree result scan.old scan.new (values_with (one is_right)) }
    ensures last { last_line scan.new ≡ last_line scan.old }
{
    let words = read_words(alloc, scan)?;
    semi(scan)?;
    let mems = read_mems(alloc, scan)?;
    right(scan)?;
    Ok(Values { words, mems })
}

/// The name of a form of a fact.
#[tactic(auto, unfolding(mc_text::specs::Reading::one), using(mc_text::proofs::AtomAhead::no_atom_of))]
fn fact_name<'a>(scan: &mut Scan<'a>) -> Result<FactHead, TokenError>
    ensures gives { Gives (λ h. h) result scan.old scan.new (one (atom_of fact_head_of)) }
    ensures last { last_line scan.new ≡ last_line scan.old }
{
    match scan.atom_ahead() {
        Some((name, ahead)) => accept(scan, ahead, fact_head_of(name)),
        None => Err(TokenError::Bad),
    }
}

/// What stands after the name of a form.
fn read_parts<'a>(alloc: Global, scan: &mut Scan<'a>, head: FactHead) -> Result<Fact, TokenError>
    ensures gives { Gives fact_tree result scan.old scan.new (fact_parts head) }
    ensures last { last_line scan.new ≡ last_line scan.old }
{
    match head {
        FactHead::WordIs => {
            let a = read_word(alloc, scan, DEPTH_LIMIT)?;
            let b = read_word(alloc, scan, DEPTH_LIMIT)?;
            right(scan)?;
            Ok(Fact::WordIs(a, b))
        }
        FactHead::MemIs => {
            let a = read_mem(alloc, scan, DEPTH_LIMIT)?;
            let b = read_mem(alloc, scan, DEPTH_LIMIT)?;
            right(scan)?;
            Ok(Fact::MemIs(a, b))
        }
        FactHead::So => {
            let c = read_cond(alloc, scan, DEPTH_LIMIT)?;
            right(scan)?;
            Ok(Fact::So(c))
        }
        FactHead::Gives => {
            let def = read_index(scan)?;
            let exit = read_index(scan)?;
            let args = read_arguments(alloc, scan)?;
            let results = read_results(alloc, scan)?;
            Ok(Fact::Gives {
                def,
                exit,
                args,
                results,
            })
        }
    }
}

#[tactic(auto, unfolding(crate::specs::inner::LineReading::fact_at))]
fn read_fact<'a>(alloc: Global, scan: &mut Scan<'a>) -> Result<Fact, TokenError>
    ensures gives { Gives fact_tree result scan.old scan.new fact_at }
    ensures last { last_line scan.new ≡ last_line scan.old }
{
    left(scan)?;
    let head = fact_name(scan)?;
    read_parts(alloc, scan, head)
}

/// The facts up to a token other than a left parenthesis.
pub fn read_facts<'a>(alloc: Global, scan: &mut Scan<'a>) -> Result<List<Fact>, TokenError>
    ensures gives { Gives (λ facts. map fact_tree facts) result scan.old scan.new
        (star is_open fact_at) }
    ensures last { last_line scan.new ≡ last_line scan.old }
{
    let mut facts = List::new(alloc);
    'facts: while is_open(scan) {
        match read_fact(alloc, scan) {
            Ok(fact) => facts.push(fact)?,
            Err(stop) => return Err(stop),
        }
    }
    Ok(facts)
}
