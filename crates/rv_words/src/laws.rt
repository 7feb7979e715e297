//! Laws of words and of bytes at addresses. These functions do nothing: their contracts are the
//! laws. Each speaks of the definitions alone.

ghost use Rattle.std.specs.Prelude.{◌≡◌, ◌≢◌, ℕ, ◌+◌, ◌/◌, ◌%◌, ◌^◌, ◌<◌, ◌≤◌, ℤ, true, Some, List, length, All, is_some, option_map};
ghost use Rattle.rv_words.specs.Operation.{extension_value, operation_value, word_of};
ghost use Rattle.rv_words.specs.Bytes.{AreAt, AreBytes, AreSame, Bytes, IsMemory, away, bytes_from, inside, load, number_of, over, store, word_at};
ghost use Rattle.rv_words.specs.declared.operation.Op.{Op};
ghost use Rattle.rv_words.specs.declared.extension.Ext.{Ext};

/// The values of operations, extensions, immediates and loads are words, and a memory stays one.
pub fn law_of_ranges()
    ensures operation { (op : Op) (a b : ℕ)
        → a < 2 ^ 64
        → b < 2 ^ 64
        → operation_value op a b < 2 ^ 64 }
    ensures extension { (kind : Ext) (a : ℕ) → extension_value kind a < 2 ^ 64 }
    ensures word { (z : ℤ) → word_of z < 2 ^ 64 }
    ensures load { (n : ℕ) (m : Bytes) (a : ℕ) → AreBytes m → load n m a < 256 ^ n }
    ensures store { (n : ℕ) (m : Bytes) (a v : ℕ) → IsMemory m → IsMemory (store n m a v) }
    ensures place { (a : ℕ) (bytes : List ℕ) (m : Bytes)
        → All (λ b. b < 256) bytes
        → a + length bytes ≤ 2 ^ 64
        → IsMemory m
        → IsMemory (over (bytes_from a bytes) m) }
{}

/// A store writes the number's bytes at those of its addresses that are present, and nothing else.
/// It doesn't change which are.
pub fn law_of_stores()
    ensures present { (n : ℕ) (m : Bytes) (a v q : ℕ) → is_some (store n m a v q) ≡ is_some (m q) }
    ensures inside { (n k : ℕ) (m : Bytes) (a v b : ℕ) → inside k (store n m a v) b ≡ inside k m b }
    ensures stored { (n : ℕ) (m : Bytes) (a v k : ℕ) → a < 2 ^ 64 → n ≤ 2 ^ 64 → k < n
        → store n m a v (away a k) ≡ option_map (λ _. v / 256 ^ k % 256) (m (away a k)) }
    ensures elsewhere { (n : ℕ) (m : Bytes) (a v q : ℕ)
        → a < 2 ^ 64 → ((k : ℕ) → k < n → q ≢ away a k) → store n m a v q ≡ m q }
    ensures alike { (n : ℕ) (m w : Bytes) (a v q : ℕ)
        → m q ≡ w q
        → store n m a v q ≡ store n w a v q }
{}

/// A load gives the number of the bytes that lie there, and these are the number's bytes. It
/// depends on them alone.
pub fn law_of_loads()
    ensures number { (bytes : List ℕ) (m : Bytes) (a : ℕ)
        → a < 2 ^ 64
        → AreAt bytes m a
        → load (length bytes) m a ≡ number_of bytes }
    ensures there { (bytes : List ℕ) (m : Bytes) (a : ℕ)
        → a < 2 ^ 64
        → AreAt bytes m a
        → inside (length bytes) m a ≡ true }
    ensures placed { (bytes : List ℕ) (m : Bytes) (a : ℕ)
        → a + length bytes ≤ 2 ^ 64
        → AreAt bytes (over (bytes_from a bytes) m) a }
    ensures byte { (n : ℕ) (m : Bytes) (a k : ℕ)
        → a < 2 ^ 64
        → AreBytes m
        → inside n m a ≡ true
        → k < n
        → m (away a k) ≡ Some (load n m a / 256 ^ k % 256) }
    ensures alike { (n : ℕ) (m w : Bytes) (a : ℕ)
        → a < 2 ^ 64
        → AreSame n m w a
        → load n m a ≡ load n w a }
    ensures inside_alike { (n : ℕ) (m w : Bytes) (a : ℕ)
        → a < 2 ^ 64
        → AreSame n m w a
        → inside n m a ≡ inside n w a }
    ensures word_alike { (m w : Bytes) (a : ℕ)
        → a < 2 ^ 64
        → AreSame 4 m w a
        → word_at m a ≡ word_at w a }
{}
