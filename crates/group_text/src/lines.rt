//! Lines of bytes.

ghost use Rattle.std.specs.Prelude.{◌≡◌, ◌++◌, [], false, true};
ghost use Rattle.mc_text.specs.declared.token.Before.TheVariants.{Start};
ghost use Rattle.mc_text.specs.Fault.{newlines};
ghost use Rattle.mc_text.specs.Scanning.{lex, At};
ghost use Rattle.group_text.specs.inner.Cut.{AreWholeLines};
ghost use Rattle.group_text.specs.inner.Rest.{GoesOn};

/// The whole lines of a text, and the bytes after the last of them.
pub fn whole_lines(text: &[u8]) -> (&[u8], &[u8])
    ensures parts { text.now ≡ result.0.now ++ result.1.now }
    ensures lines { AreWholeLines result.0.now }
    ensures tail { newlines result.1.now ≡ 0 }
{
    let mut end = text.len();
    'back: while end > 0 {
        if text[end - 1] == b'\n' {
            return text.split_at(end);
        }
        end -= 1;
    }
    text.split_at(0)
}

/// Whether the text ends here, with no bytes after its last line.
pub fn is_end(rest: &[u8], tail: &[u8]) -> bool
    ensures end { result ≡ true → (rest.now ≡ []) × (tail.now ≡ []) }
    ensures more { result ≡ false → GoesOn (lex rest.now (At Start)) tail.now }
{
    rest.is_empty() && tail.is_empty()
}
