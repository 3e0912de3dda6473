//! Laws of tokens' kinds and values. Each function only states its law: it does nothing.

ghost use Rattle.std.specs.Prelude.{◌≡◌, ℕ, List};
ghost use Rattle.std.specs.List.{AllByRecursion};
ghost use Rattle.wc_tokens.specs.Standard.Numbers.{Signed, Literal, FitsBits};
ghost use Rattle.wc_tokens.specs.Standard.Lexemes.{Lexeme, HasForm, Lexes};
ghost use Rattle.wc_tokens.specs.declared.token.TokenKind.{TokenKind};
ghost use Rattle.wc_symbols.specs.Standard.Literals.{IsLiteral32, IsLiteral64};
ghost use Rattle.wc_symbols.specs.Standard.Tokens.{TokenIs};
ghost use Rattle.wc_symbols.specs.Standard.Words.{WordIs};
ghost use Rattle.wc_symbols.specs.declared.symbol.Symbol.{Symbol};

/// A token has one kind and one value.
pub fn one_symbol()
    ensures { (kind : TokenKind) (text : List ℕ) (s o : Symbol) → TokenIs kind text s → TokenIs kind text o → s ≡ o }
{}

/// A token whose text has the form of its kind, as each token of a text has, has a kind and a value to the grammar.
pub fn some_symbol()
    ensures token { (kind : TokenKind) (text : List ℕ) → HasForm kind text → (s : Symbol) × TokenIs kind text s }
    ensures text { (text : List ℕ) (tokens : List Lexeme) → Lexes text tokens
        → AllByRecursion (λ t. (s : Symbol) × TokenIs t.kind t.text s) tokens }
{}

/// A word that is a literal of 32 or of 64 bits has such a kind, and its value gives the bits of either.
pub fn literals_have_bits()
    ensures of_32 { (text : List ℕ) (s : Symbol) (l : Signed)
        → WordIs text s → Literal text l → FitsBits 32 l → IsLiteral32 s l }
    ensures of_64 { (text : List ℕ) (s : Symbol) (l : Signed)
        → WordIs text s → Literal text l → FitsBits 64 l → IsLiteral64 s l }
{}
