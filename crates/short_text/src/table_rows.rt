//! Reading the lines of tables.

ghost use Rattle.std.specs.Prelude.{◌≡◌, ◌++◌, ◌∷◌, [], IfOk, OnErr};
ghost use Rattle.mc_text.specs.Reading.{goes_on, pair};
ghost use Rattle.mc_text.specs.inner.Reading.{checked, eol};
ghost use Rattle.mc_text.specs.Outcome.{Gives, last_line};
ghost use Rattle.mc_text.specs.Scanning.{tokens_at};
ghost use Rattle.short_text.specs.inner.ShortReading.{is_term, may_follow, node_at, term_row};

use crate::nodes::read_node;
use crate::table::Table;
use mc_text::cursor::{eol, keyword};
use mc_text::{Scan, TokenError};
use term_arena::Node;

/// Whether a line of a table follows.
#[tactic(auto, using(crate::proofs::NoAtom::no_term))]
pub fn begins_term(scan: &Scan<'_>) -> bool
    ensures { result ≡ goes_on is_term (tokens_at scan.now) }
{
    match scan.atom_ahead() {
        Some((name, _)) => name == b"term".as_slice(),
        None => false,
    }
}

/// The node that follows, to the end of the line. It is put into the table.
fn read_last_node<'a>(scan: &mut Scan<'a>, table: &mut Table) -> Result<Node, TokenError>
    ensures gives { Gives (λ n. (n, tt)) result scan.old scan.new
        (pair (checked (may_follow table.old) node_at) eol) }
    ensures longer { IfOk result (λ n. table.new ≡ table.old ++ n ∷ []) }
    ensures same { OnErr result (table.new ≡ table.old) }
    ensures last { last_line scan.new ≡ last_line scan.old }
{
    let node = read_node(scan)?;
    let mut behind = scan.fork();
    eol(&mut behind)?;
    table.put(node)?;
    *scan = behind;
    Ok(node)
}

/// The term of a line of a table. It is put into the table.
#[tactic(auto, unfolding(crate::specs::inner::ShortReading::term_row))]
pub fn read_term_row<'a>(scan: &mut Scan<'a>, table: &mut Table) -> Result<Node, TokenError>
    ensures gives { Gives (λ n. n) result scan.old scan.new (term_row table.old) }
    ensures longer { IfOk result (λ n. table.new ≡ table.old ++ n ∷ []) }
    ensures same { OnErr result (table.new ≡ table.old) }
    ensures last { last_line scan.new ≡ last_line scan.old }
{
    keyword(scan, b"term")?;
    read_last_node(scan, table)
}
