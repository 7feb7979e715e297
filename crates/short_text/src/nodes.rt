//! Reading nodes, whatever the table has at their numbers.

ghost use Rattle.std.specs.Prelude.{◌≡◌};
ghost use Rattle.mc_text.specs.Reading.{atom_of, one};
ghost use Rattle.mc_text.specs.Outcome.{Gives, last_line};
ghost use Rattle.short_text.specs.inner.ShortReading.{node_at, node_head_of, node_leaf_of, node_parts, one_part, three_parts, two_parts};

use crate::heads::{NodeHead, node_head_of};
use crate::terms::read_any_term;
use group_text::variable_of;
use mc_text::cursor::{accept, peek, right};
use mc_text::{Scan, Token, TokenError, hexnum};
use term_arena::Node;

/// The variable or constant that an atom spells.
#[tactic(auto, unfolding(crate::specs::inner::ShortReading::node_leaf_of))]
fn node_leaf_of(atom: &[u8]) -> Option<Node>
    ensures { result ≡ node_leaf_of atom.now }
{
    if let Some(i) = variable_of(b'v', atom) {
        Some(Node::WordVar(i))
    } else if let Some(i) = variable_of(b'm', atom) {
        Some(Node::MemVar(i))
    } else if let Some(n) = hexnum(atom) {
        Some(Node::Const(n))
    } else {
        None
    }
}

/// The name of a form.
#[tactic(auto, unfolding(mc_text::specs::Reading::one), using(mc_text::proofs::AtomAhead::no_atom_of))]
fn node_name<'a>(scan: &mut Scan<'a>) -> Result<NodeHead, TokenError>
    ensures gives { Gives (λ h. h) result scan.old scan.new (one (atom_of node_head_of)) }
    ensures last { last_line scan.new ≡ last_line scan.old }
{
    match scan.atom_ahead() {
        Some((name, ahead)) => accept(scan, ahead, node_head_of(name)),
        None => Err(TokenError::Bad),
    }
}

/// A term, with the parenthesis behind it.
fn read_one_part<'a>(scan: &mut Scan<'a>) -> Result<u64, TokenError>
    ensures gives { Gives (λ a. (a, tt)) result scan.old scan.new one_part }
    ensures last { last_line scan.new ≡ last_line scan.old }
{
    let a = read_any_term(scan)?;
    right(scan)?;
    Ok(a)
}

/// Two terms, with the parenthesis behind them.
fn read_two_parts<'a>(scan: &mut Scan<'a>) -> Result<(u64, u64), TokenError>
    ensures gives { Gives (λ p. (p.0, (p.1, tt))) result scan.old scan.new two_parts }
    ensures last { last_line scan.new ≡ last_line scan.old }
{
    let a = read_any_term(scan)?;
    let b = read_one_part(scan)?;
    Ok((a, b))
}

/// Three terms, with the parenthesis behind them.
fn read_three_parts<'a>(scan: &mut Scan<'a>) -> Result<(u64, (u64, u64)), TokenError>
    ensures gives { Gives (λ p. (p.0, (p.1.0, (p.1.1, tt)))) result scan.old scan.new three_parts }
    ensures last { last_line scan.new ≡ last_line scan.old }
{
    let a = read_any_term(scan)?;
    let others = read_two_parts(scan)?;
    Ok((a, others))
}

/// What stands after the name of a form.
fn read_parts<'a>(scan: &mut Scan<'a>, head: NodeHead) -> Result<Node, TokenError>
    ensures gives { Gives (λ n. n) result scan.old scan.new (node_parts head) }
    ensures last { last_line scan.new ≡ last_line scan.old }
{
    match head {
        NodeHead::Bin(op) => {
            let (a, b) = read_two_parts(scan)?;
            Ok(Node::Bin(op, a, b))
        }
        NodeHead::Extend(ext) => {
            let a = read_one_part(scan)?;
            Ok(Node::Extend(ext, a))
        }
        NodeHead::Load(width) => {
            let (m, a) = read_two_parts(scan)?;
            Ok(Node::Load(width, m, a))
        }
        NodeHead::Store(width) => {
            let (m, (a, v)) = read_three_parts(scan)?;
            Ok(Node::Store(width, m, a, v))
        }
        NodeHead::Compare(cmp) => {
            let (a, b) = read_two_parts(scan)?;
            Ok(Node::Compare(cmp, a, b))
        }
        NodeHead::Neg => {
            let c = read_one_part(scan)?;
            Ok(Node::Neg(c))
        }
        NodeHead::Inside(width) => {
            let (m, a) = read_two_parts(scan)?;
            Ok(Node::Inside(width, m, a))
        }
    }
}

/// A node.
#[tactic(auto, unfolding(crate::specs::inner::ShortReading::node_at, mc_text::specs::Reading::one))]
pub fn read_node<'a>(scan: &mut Scan<'a>) -> Result<Node, TokenError>
    ensures gives { Gives (λ n. n) result scan.old scan.new node_at }
    ensures last { last_line scan.new ≡ last_line scan.old }
{
    match peek(scan) {
        Some((Token::Left, ahead)) => {
            *scan = ahead;
            let head = node_name(scan)?;
            read_parts(scan, head)
        }
        Some((Token::Atom(atom), ahead)) => accept(scan, ahead, node_leaf_of(atom)),
        _ => Err(TokenError::Bad),
    }
}
