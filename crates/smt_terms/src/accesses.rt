//! The functions that stand for extensions of words, and for loads and stores.

ghost use Rattle.std.specs.Prelude.{◌≡◌, ◌+◌, ◌<◌, IfOk, codes};
ghost use Rattle.smt_terms.specs.Views.{expr};
ghost use Rattle.smt_terms.specs.Expression.{Atom};
ghost use Rattle.smt_terms.specs.Helpers.{a, extract, sign_extend, two, zero_extend};
ghost use Rattle.smt_terms.specs.Accesses.{all_present, byte_at, loaded_bytes, extension_expr, inside_expr, is_present, load_expr, next_address, store_expr, after_store};
ghost use Rattle.smt_terms.specs.inner.Sizes.{address, shifted};

use crate::operations::{extended, extract, literal};
use crate::tree::{Tree, atom, ite, three, two};
use rv_words::{Ext, NoMemory, Width};
use std::alloc::Global;

/// An extension's value, as a term of its operand `a`.
pub fn extension_term(alloc: Global, ext: Ext) -> Result<Tree, NoMemory>
    ensures { IfOk result (λ t. expr t ≡ extension_expr ext) }
{
    let word = atom(alloc, b"a")?;
    match ext {
        Ext::Sx1 => low_extended(alloc, b"56", b"7", word),
        Ext::Sx2 => low_extended(alloc, b"48", b"15", word),
        Ext::Sx4 => low_extended(alloc, b"32", b"31", word),
    }
}

/// The bits up to bit `i` of a word, with `k` more that are bit `i`.
fn low_extended(alloc: Global, k: &[u8], i: &[u8], x: Tree) -> Result<Tree, NoMemory>
    ensures { IfOk result (λ t. expr t ≡ sign_extend k.now (extract i.now (codes "0") (expr x))) }
{
    let low = extract(alloc, i, b"0", x)?;
    extended(alloc, b"sign_extend", k, low)
}

/// The address after that one.
fn next_address(alloc: Global, x: Tree) -> Result<Tree, NoMemory>
    ensures { IfOk result (λ t. expr t ≡ next_address (expr x)) }
{
    let one = literal(alloc, b"64", b"1")?;
    two(alloc, b"bvadd", x, one)
}

/// The address `k` addresses on.
#[tactic(auto, using(crate::proofs::Steps::address_none, crate::proofs::Steps::address_some))]
fn address(alloc: Global, k: usize) -> Result<Tree, NoMemory>
    ensures { IfOk result (λ t. expr t ≡ address k) }
{
    if k == 0 {
        return atom(alloc, b"a");
    }
    let before = address(alloc, k - 1)?;
    next_address(alloc, before)
}

/// The value to be stored, without its `k` lowest bytes.
#[tactic(auto, using(crate::proofs::Steps::shifted_none, crate::proofs::Steps::shifted_some))]
fn shifted(alloc: Global, k: usize) -> Result<Tree, NoMemory>
    ensures { IfOk result (λ t. expr t ≡ shifted k) }
{
    if k == 0 {
        return atom(alloc, b"v");
    }
    let before = shifted(alloc, k - 1)?;
    let eight = literal(alloc, b"64", b"8")?;
    two(alloc, b"bvlshr", before, eight)
}

/// What stands in an array `k` addresses on.
fn selected(alloc: Global, array: &[u8], k: usize) -> Result<Tree, NoMemory>
    ensures { IfOk result (λ t. expr t ≡ two (codes "select") (Atom array.now) (address k)) }
{
    let array = atom(alloc, array)?;
    let x = address(alloc, k)?;
    two(alloc, b"select", array, x)
}

fn is_present(alloc: Global, k: usize) -> Result<Tree, NoMemory>
    ensures { IfOk result (λ t. expr t ≡ is_present (address k)) }
{
    let bit = selected(alloc, b"d", k)?;
    let one = literal(alloc, b"1", b"1")?;
    two(alloc, b"=", bit, one)
}

fn byte_at(alloc: Global, k: usize) -> Result<Tree, NoMemory>
    ensures { IfOk result (λ t. expr t ≡ byte_at (address k)) }
{
    let present = is_present(alloc, k)?;
    let byte = selected(alloc, b"m", k)?;
    let zero = literal(alloc, b"8", b"0")?;
    ite(alloc, present, byte, zero)
}

/// The byte `k` addresses on and the `n` bytes after it.
#[tactic(auto, using(crate::proofs::Steps::bytes_none, crate::proofs::Steps::bytes_some))]
fn loaded_bytes(alloc: Global, n: usize, k: usize) -> Result<Tree, NoMemory>
    requires { n + k < 64 }
    ensures { IfOk result (λ t. expr t ≡ loaded_bytes n (address k)) }
{
    if n == 0 {
        return byte_at(alloc, k);
    }
    let after = loaded_bytes(alloc, n - 1, k + 1)?;
    let byte = byte_at(alloc, k)?;
    two(alloc, b"concat", after, byte)
}

/// Whether `n` bytes are present, `k` addresses on.
#[tactic(auto, using(crate::proofs::Steps::present_none, crate::proofs::Steps::present_some))]
fn all_present(alloc: Global, n: usize, k: usize) -> Result<Tree, NoMemory>
    requires { n + k < 64 }
    ensures { IfOk result (λ t. expr t ≡ all_present n (address k)) }
{
    if n == 0 {
        return atom(alloc, b"true");
    }
    let after = all_present(alloc, n - 1, k + 1)?;
    let present = is_present(alloc, k)?;
    two(alloc, b"and", present, after)
}

/// The memory after a store of `n` bytes of the value, the first of which is its byte `k`, `k`
/// addresses on.
#[tactic(auto, using(crate::proofs::Steps::stored_none, crate::proofs::Steps::stored_some))]
fn after_store(alloc: Global, n: usize, k: usize) -> Result<Tree, NoMemory>
    requires { n + k < 64 }
    ensures { IfOk result (λ t. expr t ≡ after_store n (address k) (shifted k)) }
{
    if n == 0 {
        return atom(alloc, b"m");
    }
    let after = after_store(alloc, n - 1, k + 1)?;
    let x = address(alloc, k)?;
    let byte = low_byte(alloc, k)?;
    three(alloc, b"store", after, x, byte)
}

/// Byte `k` of the value to be stored.
fn low_byte(alloc: Global, k: usize) -> Result<Tree, NoMemory>
    ensures { IfOk result (λ t. expr t ≡ extract (codes "7") (codes "0") (shifted k)) }
{
    let value = shifted(alloc, k)?;
    extract(alloc, b"7", b"0", value)
}

/// The word that is loaded, as a term of the memory `m` with the domain `d`, and of the address
/// `a`.
pub fn load_term(alloc: Global, width: Width) -> Result<Tree, NoMemory>
    ensures { IfOk result (λ t. expr t ≡ load_expr width) }
{
    match width {
        Width::B1 => loaded(alloc, 0, b"56"),
        Width::B2 => loaded(alloc, 1, b"48"),
        Width::B4 => loaded(alloc, 3, b"32"),
        Width::B8 => loaded_bytes(alloc, 7, 0),
    }
}

fn loaded(alloc: Global, n: usize, k: &[u8]) -> Result<Tree, NoMemory>
    requires { n < 64 }
    ensures { IfOk result (λ t. expr t ≡ zero_extend k.now (loaded_bytes n a)) }
{
    let bytes = loaded_bytes(alloc, n, 0)?;
    extended(alloc, b"zero_extend", k, bytes)
}

/// The memory after a store, as a term of the memory `m`, the address `a` and the value `v`.
pub fn store_term(alloc: Global, width: Width) -> Result<Tree, NoMemory>
    ensures { IfOk result (λ t. expr t ≡ store_expr width) }
{
    match width {
        Width::B1 => after_store(alloc, 1, 0),
        Width::B2 => after_store(alloc, 2, 0),
        Width::B4 => after_store(alloc, 4, 0),
        Width::B8 => after_store(alloc, 8, 0),
    }
}

/// Whether all bytes are present, as a term of the domain `d` and the address `a`.
pub fn inside_term(alloc: Global, width: Width) -> Result<Tree, NoMemory>
    ensures { IfOk result (λ t. expr t ≡ inside_expr width) }
{
    match width {
        Width::B1 => all_present(alloc, 1, 0),
        Width::B2 => all_present(alloc, 2, 0),
        Width::B4 => all_present(alloc, 4, 0),
        Width::B8 => all_present(alloc, 8, 0),
    }
}
