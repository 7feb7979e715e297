//! Laws of texts. These functions do nothing: their contracts are the laws.

ghost use Rattle.std.specs.Prelude.{◌≡◌, ℕ, List};
ghost use Rattle.std.specs.Fmt.{decimal};
ghost use Rattle.hex.specs.Hex.{encode_lower};
ghost use Rattle.mc_text.specs.Number.{AreSomeBytes, IsNumber, hex};
ghost use Rattle.mc_text.specs.Tokens.{Stands, Tok};
ghost use Rattle.mc_text.specs.declared.token.Before.{Before};

/// Numbers and bytes have one spelling each.
pub fn law_of_one_spelling()
    ensures decimals { (m n : ℕ) → IsNumber m → IsNumber n → decimal m ≡ decimal n → m ≡ n }
    ensures hex_numbers { (m n : ℕ) → IsNumber m → IsNumber n → hex m ≡ hex n → m ≡ n }
    ensures bytes { (bs cs : List ℕ)
        → AreSomeBytes bs
        → AreSomeBytes cs
        → encode_lower bs ≡ encode_lower cs
        → bs ≡ cs }
{}

/// At a place of a text stands at most one token.
pub fn law_of_tokens()
    ensures { (before : Before) (bytes : List ℕ) (t u : Tok) (rest more : List ℕ)
        → Stands before bytes t rest
        → Stands before bytes u more
        → (t ≡ u) × (rest ≡ more) }
{}
