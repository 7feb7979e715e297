//! Functions by name.

ghost use Rattle.std.specs.Prelude.{◌≡◌, ℕ, Err, List as Items, bytes_eq, drop, map, slice_get, unwrap_or, ◌==◌};
ghost use Rattle.std.specs.BTreeSet.{insert_key};
ghost use Rattle.std.specs.Ordering.{nat_cmp};
ghost use Rattle.elf_image.specs.Symbol.{one_of, string_at};

use crate::section::SymbolEntry;
use rv_words::{Bytes, List};
use std::marker::Model;

/// Why a name has no value.
#[derive(Clone, Copy, Debug, PartialEq, Eq)]
pub enum NameFault {
    /// No function has the name.
    NoSuch,
    /// Functions of the name have different values. These are the two least.
    Ambiguous(u64, u64),
}

/// Functions with their names and values, in table order.
#[derive(Debug, Drop)]
pub struct Symbols {
    strings: Bytes,
    functions: List<SymbolEntry>,
}

impl Model for Symbols {
    ghost use Rattle.std.specs.Prelude.{List as Items, map};
    ghost use Rattle.elf_image.specs.Symbol.{Symbol, symbol_of};

    ghost Value = { Items Symbol };

    ghost view = { λ s. map (symbol_of s.strings) s.functions };
}

impl Symbols {
    ghost use Rattle.elf_image.specs.Symbol.{symbol_of, value_of_name};

    /// These functions, whose names are in this string table.
    pub fn of(strings: Bytes, functions: List<SymbolEntry>) -> Symbols
        ensures { result ≡ map (symbol_of strings) functions }
    {
        Symbols { strings, functions }
    }

    /// The value of the functions of a name.
    pub fn find(&self, name: &[u8]) -> Result<u64, NameFault>
        ensures { result ≡ value_of_name name.now self.now }
    {
        let strings = self.strings.as_slice();
        let mut found = Err(NameFault::NoSuch);
        for entry in self.functions.as_slice() {
            if is_named(strings, entry.name, name) {
                found = with_value(found, entry.value);
            }
        }
        found
    }
}

/// What is found with one value more.
fn with_value(found: Result<u64, NameFault>, value: u64) -> Result<u64, NameFault>
    ensures { (values : Items ℕ)
        → found ≡ one_of values
        → result ≡ one_of (insert_key nat_cmp values value) }
{
    match found {
        Ok(least) => {
            if value == least {
                return Ok(least);
            }
            Err(NameFault::Ambiguous(least.min(value), least.max(value)))
        }
        Err(fault) => after_fault(fault, value),
    }
}

/// What is found with one value more than those that have no one value.
fn after_fault(fault: NameFault, value: u64) -> Result<u64, NameFault>
    ensures { (values : Items ℕ)
        → Err fault ≡ one_of values
        → result ≡ one_of (insert_key nat_cmp values value) }
{
    match fault {
        NameFault::NoSuch => Ok(value),
        NameFault::Ambiguous(least, next) => {
            if value == least {
                return Err(fault);
            }
            if value < least {
                return Err(NameFault::Ambiguous(value, least));
            }
            Err(NameFault::Ambiguous(least, next.min(value)))
        }
    }
}

/// Whether the bytes from an offset on, up to the first zero byte, are these.
fn is_named(strings: &[u8], offset: u32, name: &[u8]) -> bool
    ensures { result ≡ bytes_eq (string_at strings.now offset) name.now }
{
    let string = from_offset(strings, offset);
    if !string.starts_with(name) || name.contains(&0) {
        return false;
    }
    ends_at(string, name.len())
}

/// What stands in a string table from an offset on.
fn from_offset(strings: &[u8], offset: u32) -> &[u8]
    ensures { result.now ≡ drop offset strings.now }
{
    let start = (offset as usize).min(strings.len());
    &strings[start..]
}

/// Whether a string ends before an offset: by a zero byte there, or as nothing stands there.
fn ends_at(string: &[u8], offset: usize) -> bool
    ensures { result ≡ (unwrap_or (slice_get string.now offset) 0 == 0) }
{
    string.get(offset).copied().unwrap_or(0) == 0
}
