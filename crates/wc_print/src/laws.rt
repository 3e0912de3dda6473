//! What printed text is read as.

ghost use Rattle.std.specs.Prelude.{◌<◌, ◌≤◌, ◌^◌, ℕ, ℤ, List as Seq, length};
ghost use Rattle.std.specs.List.{AllByRecursion};
ghost use Rattle.std.specs.Fmt.{decimal, signed_decimal};
ghost use lib.Signed.{mag};
ghost use Rattle.wc_tokens.specs.Standard.Lexemes.{Lexes, longest};
ghost use Rattle.wc_tokens.specs.Standard.Numbers.{Natural, Literal};
ghost use Rattle.wc_tokens.specs.Standard.Strings.{IsString};
ghost use Rattle.wc_print.specs.Standard.Printed.{Item, quoted, spelled, text, lexemes};
ghost use Rattle.wc_print.specs.Standard.Printable.{IsByte, IsPrintable};
ghost use Rattle.wc_print.specs.Standard.ReadAs.{read_as};

/// A text of printable items that isn't too long has the tokens of its items, and no others (Core 1.0, 6.3).
pub fn printed_lexes()
    ensures { (items : Seq Item) → IsPrintable items → length (text items) ≤ longest
        → Lexes (text items) (lexemes items) }
{}

/// What is printed of a number is a literal of that number (Core 1.0, 6.3.1), and what is printed of bytes is a string
/// that stands for them (6.3.3).
pub fn printed_values()
    ensures natural { (n : ℕ) → n < 2 ^ 64 → Natural (decimal n) n }
    ensures signed { (z : ℤ) → mag z < 2 ^ 63 → Literal (signed_decimal z) (read_as z) }
    ensures string { (bytes : Seq ℕ) → AllByRecursion IsByte bytes → IsString (spelled (quoted bytes)) bytes }
{}
