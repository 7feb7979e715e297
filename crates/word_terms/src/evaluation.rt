//! What terms stand for.

ghost use Rattle.std.specs.Prelude.{◌≡◌, ◌<◌, ◌≤◌, ◌*◌, ◌/◌, ◌%◌, ◌^◌, ℕ, IfOk, option_map, length};
ghost use Rattle.std.specs.FinMap.{get};
ghost use Rattle.rv_words.specs.Bytes.{Bytes, bytes_of, inside, load, store};
ghost use Rattle.word_terms.specs.Tree.{cond_tree, mem_tree, word_tree};
ghost use Rattle.word_terms.specs.Value.{cond_holds, mem_value, word_value};
ghost use Rattle.word_terms.specs.Scope.{CondInScope, MemInScope, WordInScope};
ghost use Rattle.word_terms.specs.Environment.{Environment, environment_of};
ghost use Rattle.word_terms.specs.inner.Window.{StandFrom};

use crate::term::{Cond, Mem, Word};
use rv_words::{ByteMap, NoMemory, Width, apply, compare, extend};
use std::alloc::Global;

/// What the variables stand for: word variable `i` is `words[i]`, and memory variable `i` is
/// `mems[i]`.
#[derive(Clone, Copy)]
pub struct Env<'a> {
    pub words: &'a [u64],
    pub mems: &'a [ByteMap],
}

/// The word that a term stands for.
#[cycle(values)]
pub fn value(t: &Word, e: &Env) -> u64
    requires { WordInScope (word_tree t.now) (length e.now.words.now) (length e.now.mems.now) }
    ensures { result ≡ word_value (word_tree t.now) (environment_of e.now) }
{
    match t {
        Word::Const(n) => *n,
        Word::Var(i) => e.words[*i as usize],
        Word::Bin(op, a, b) => apply(*op, value(a, e), value(b, e)),
        Word::Extend(ext, a) => extend(*ext, value(a, e)),
        Word::Load(width, m, a) => load_of(m, e, value(a, e), *width),
    }
}

/// The byte at an address of the memory that a term stands for, if it is present.
pub fn byte_of(t: &Mem, e: &Env, a: u64) -> Option<u8>
    requires { MemInScope (mem_tree t.now) (length e.now.words.now) (length e.now.mems.now) }
    ensures { result ≡ mem_value (mem_tree t.now) (environment_of e.now) a }
{
    match t {
        Mem::Var(i) => e.mems[*i as usize].byte(a),
        Mem::Store(width, m, at, v) => {
            let old = byte_of(m, e, a);
            byte_after(old, a, value(at, e), *width, value(v, e))
        }
    }
}

/// The number of the width's bytes from an address on. They are looked up all together, so that the
/// address and the word of each store are evaluated once.
#[cycle(values)]
fn load_of(t: &Mem, e: &Env, a: u64, width: Width) -> u64
    requires { MemInScope (mem_tree t.now) (length e.now.words.now) (length e.now.mems.now) }
    ensures { result ≡ load (bytes_of width) (mem_value (mem_tree t.now) (environment_of e.now)) a }
{
    match t {
        Mem::Var(i) => e.mems[*i as usize].load(a, width),
        Mem::Store(_, _, _, _) => {
            let mut window: [Option<u8>; 8] = [None; 8];
            let count = usize::from(width.bytes());
            look_up(t, e, a, count, &mut window);
            number_of(&window, count)
        }
    }
}

/// Looks up the bytes at `count` addresses from `a` on, those that are present.
#[cycle(values)]
fn look_up(t: &Mem, e: &Env, a: u64, count: usize, window: &mut [Option<u8>])
    requires scope { MemInScope (mem_tree t.now) (length e.now.words.now) (length e.now.mems.now) }
    requires count { count ≤ length window.old }
    ensures { StandFrom (mem_value (mem_tree t.now) (environment_of e.now)) a count window.new }
{
    match t {
        Mem::Var(i) => look_up_in(&e.mems[*i as usize], a, count, window),
        Mem::Store(width, m, at, v) => {
            look_up(m, e, a, count, window);
            put_over(window, a, count, value(at, e), *width, value(v, e));
        }
    }
}

/// Looks up the bytes of a map at `count` addresses from `a` on.
fn look_up_in(m: &ByteMap, a: u64, count: usize, window: &mut [Option<u8>])
    requires { count ≤ length window.old }
    ensures { StandFrom (get m.now) a count window.new }
{
    for k in 0..count {
        window[k] = m.byte(a.wrapping_add(k as u64));
    }
}

/// Puts the bytes of a store over those at `count` addresses from `a` on.
fn put_over(window: &mut [Option<u8>], a: u64, count: usize, at: u64, width: Width, v: u64)
    requires { count ≤ length window.old }
    ensures { (m : Bytes)
        → StandFrom m a count window.old
        → StandFrom (store (bytes_of width) m at v) a count window.new }
{
    for k in 0..count {
        window[k] = byte_after(window[k], a.wrapping_add(k as u64), at, width, v);
    }
}

/// The number of the first `count` bytes, the low one first. An absent byte counts as 0.
fn number_of(window: &[Option<u8>], count: usize) -> u64
    requires few { count ≤ 8 }
    requires count { count ≤ length window.now }
    ensures { (m : Bytes) (a : ℕ)
        → a < 2 ^ 64
        → StandFrom m a count window.now
        → result ≡ load count m a }
{
    let mut number = 0u64;
    for i in 0..count {
        let byte = window[count - 1 - i].unwrap_or(0);
        number = number * 256 + u64::from(byte);
    }
    number
}

/// The whole memory that a term stands for.
pub fn memory_of(alloc: Global, t: &Mem, e: &Env) -> Result<ByteMap, NoMemory>
    requires { MemInScope (mem_tree t.now) (length e.now.words.now) (length e.now.mems.now) }
    ensures { IfOk result (λ m. get m ≡ mem_value (mem_tree t.now) (environment_of e.now)) }
{
    match t {
        Mem::Var(i) => e.mems[*i as usize].copy(alloc),
        Mem::Store(width, m, a, v) => {
            let mut map = memory_of(alloc, m, e)?;
            map.store(value(a, e), *width, value(v, e));
            Ok(map)
        }
    }
}

/// Whether a condition is true.
pub fn truth(t: &Cond, e: &Env) -> bool
    requires { CondInScope (cond_tree t.now) (length e.now.words.now) (length e.now.mems.now) }
    ensures { result ≡ cond_holds (cond_tree t.now) (environment_of e.now) }
{
    match t {
        Cond::Compare(cmp, a, b) => compare(*cmp, value(a, e), value(b, e)),
        Cond::Neg(c) => !truth(c, e),
        Cond::Inside(width, m, a) => {
            let memory = &e.mems[variable_of(m) as usize];
            memory.has(value(a, e), *width)
        }
    }
}

/// The memory variable on which a term for a memory stands. It has the same addresses, since a
/// store adds none.
fn variable_of(t: &Mem) -> u32
    ensures scope { (words mems : ℕ) → MemInScope (mem_tree t.now) words mems → result < mems }
    ensures present { (e : Environment) (n a : ℕ)
        → inside n (mem_value (mem_tree t.now) e) a ≡ inside n (e.mem result) a }
{
    match t {
        Mem::Var(i) => *i,
        Mem::Store(_, m, _, _) => variable_of(m),
    }
}

/// What stands at an address after a store, where that byte stood before it, if one did.
fn byte_after(old: Option<u8>, a: u64, at: u64, width: Width, v: u64) -> Option<u8>
    ensures { (m : Bytes) → old ≡ m a → result ≡ store (bytes_of width) m at v a }
{
    let offset = a.wrapping_sub(at);
    if offset < u64::from(width.bytes()) {
        stored(old, v, offset)
    } else {
        old
    }
}

/// What stands where an old byte stood, if one did: byte `k` of a stored word.
fn stored(old: Option<u8>, v: u64, k: u64) -> Option<u8>
    requires { k < 8 }
    ensures { result ≡ option_map (λ _. v / 2 ^ (8 * k) % 256) old }
{
    match old {
        None => None,
        Some(_) => Some(((v >> (8 * k)) % 256) as u8),
    }
}
