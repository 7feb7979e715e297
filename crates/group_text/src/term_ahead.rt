//! Which term follows, to go by its first token.

ghost use Rattle.std.specs.Prelude.{◌≡◌};
ghost use Rattle.mc_text.specs.Reading.{goes_on};
ghost use Rattle.mc_text.specs.Scanning.{tokens_at};
ghost use Rattle.group_text.specs.TermReading.{begins_with_m, begins_word, begins_mem};

use mc_text::Scan;
use mc_text::cursor::is_open;

/// Whether a word follows, to go by its first token.
#[tactic(auto, using(crate::proofs::NoAtom::word_without_atom))]
pub fn begins_word(scan: &Scan<'_>) -> bool
    ensures { result ≡ goes_on begins_word (tokens_at scan.now) }
{
    match scan.atom_ahead() {
        Some((atom, _)) => !begins_with_m(atom),
        None => is_open(scan),
    }
}

/// Whether a memory follows, to go by its first token.
#[tactic(auto, using(crate::proofs::NoAtom::mem_without_atom))]
pub fn begins_mem(scan: &Scan<'_>) -> bool
    ensures { result ≡ goes_on begins_mem (tokens_at scan.now) }
{
    match scan.atom_ahead() {
        Some((atom, _)) => begins_with_m(atom),
        None => is_open(scan),
    }
}

fn begins_with_m(atom: &[u8]) -> bool
    ensures { result ≡ begins_with_m atom.now }
{
    atom.starts_with(b"m")
}
