//! Laws of ranges. These functions do nothing: their contracts are the laws.

ghost use Rattle.std.specs.Prelude.{◌<◌, ◌^◌, ℕ};
ghost use Rattle.rv_words.specs.Bytes.{Bytes, IsMemory};
ghost use Rattle.word_terms.specs.Tree.{MemTree};
ghost use Rattle.word_terms.specs.Environment.{Environment, IsInRange, no_variables, with_mem, with_word};
ghost use Rattle.word_terms.specs.Value.{mem_value};
ghost use Rattle.tailrec_lang.specs.Tree.{ValuesTree};
ghost use Rattle.tailrec_lang.specs.Eval.{Arguments, arguments_of, with_arguments};
ghost use Rattle.group_terms.specs.Range.{ArgumentsInRange, ValuesInRange};

/// Where no variable stands for anything, each is in range; further variables that are 64-bit
/// words, and memories of bytes at 64-bit addresses, leave them so; and then the values of terms,
/// with which a definition is entered or left, are in range.
pub fn law_of_ranges()
    ensures none { IsInRange no_variables }
    ensures word { (e : Environment) (n : ℕ)
        → IsInRange e
        → n < 2 ^ 64
        → IsInRange (with_word e n) }
    ensures mem { (e : Environment) (m : Bytes)
        → IsInRange e
        → IsMemory m
        → IsInRange (with_mem e m) }
    ensures arguments { (e : Environment) (x : Arguments)
        → IsInRange e
        → ArgumentsInRange x
        → IsInRange (with_arguments e x) }
    ensures memory { (e : Environment) (m : MemTree) → IsInRange e → IsMemory (mem_value m e) }
    ensures values { (e : Environment) (v : ValuesTree)
        → IsInRange e
        → ValuesInRange v
        → ArgumentsInRange (arguments_of v e) }
{}
