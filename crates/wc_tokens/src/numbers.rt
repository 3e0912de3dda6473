//! Integer literals (Core 1.0, 6.3.1).

ghost use Rattle.std.specs.Prelude.{◌≡◌, ◌≢◌, ℕ, ◌+◌, ◌⊎◌, ◌↔◌, ◌<◌, ◌≤◌, ◌^◌, List, ◌∷◌, MatchOption};
ghost use Rattle.wc_tokens.specs.Standard.Digits.{Digits};
ghost use Rattle.wc_tokens.specs.Standard.Numbers.{Natural, Signed, Literal, FitsBits, bits_of};
ghost use Rattle.wc_tokens.specs.Reading.Numbers.{IsNum, limited, negated};

use crate::bytes::behind;
use crate::digits::digits;

/// What a word says as a number.
#[derive(Clone, Copy, Debug, PartialEq, Eq)]
pub enum Num {
    /// A number in range: its value, and of a negative one its two's complement.
    Value(u64),
    /// The word has a number's form, and the number is out of range.
    Range,
    /// The word has no number's form.
    NotANumber,
}

/// The digits behind `0x`.
fn hexadecimal(text: &[u8]) -> Option<&[u8]>
    ensures { MatchOption result ((digits : List ℕ) → text.now ≢ 48 ∷ 120 ∷ digits)
        (λ digits. text.now ≡ 48 ∷ 120 ∷ digits.now) }
{
    behind(behind(text, b'0')?, b'x')
}

/// The number that digits of a base spell, if 64 bits hold it.
fn whole(text: &[u8], base: u64) -> Num
    requires low { 0 < base }
    requires high { base ≤ 36 }
    ensures { IsNum (Digits base text.now) (2 ^ 64) result }
{
    let Some(run) = digits(text, base) else {
        return Num::NotANumber;
    };
    if run.len < text.len() {
        return Num::NotANumber;
    }
    match run.value {
        Some(n) => Num::Value(n),
        None => Num::Range,
    }
}

/// The natural number that a text spells, if 64 bits hold it.
fn natural(text: &[u8]) -> Num
    ensures { IsNum (Natural text.now) (2 ^ 64) result }
{
    match hexadecimal(text) {
        Some(digits) => whole(digits, 16),
        None => whole(text, 10),
    }
}

/// The largest number of so many bits.
fn largest(bits: u32) -> u64
    requires { (bits ≡ 32) ⊎ (bits ≡ 64) }
    ensures { result + 1 ≡ 2 ^ bits }
{
    if bits == 64 {
        u64::MAX
    } else {
        u64::from(u32::MAX)
    }
}

/// The same number if it is at most the largest one.
fn limited(number: Num, max: u64) -> Num
    ensures { result ≡ limited number max }
{
    match number {
        Num::Value(n) if n > max => Num::Range,
        other => other,
    }
}

/// The bits of a number behind a minus sign, as many as the largest number has.
fn negated(number: Num, max: u64) -> Num
    ensures { result ≡ negated number max }
{
    match number {
        Num::Value(0) => Num::Value(0),
        Num::Value(n) if n <= max / 2 + 1 => Num::Value(max - (n - 1)),
        Num::Value(_) => Num::Range,
        other => other,
    }
}

/// The natural number that a word spells, if it is below 2^bits (Core 1.0, 6.3.1, `uN`). It takes no memory.
pub fn unsigned(text: &str, bits: u32) -> Num
    requires { (bits ≡ 32) ⊎ (bits ≡ 64) }
    ensures value { (n : ℕ) → (result ≡ Num.Value n) ↔ (Natural text.now n × (n < 2 ^ bits)) }
    ensures range { (result ≡ Num.Range) ↔ ((n : ℕ) × Natural text.now n × (2 ^ bits ≤ n)) }
    ensures not_a_number { (result ≡ Num.NotANumber) ↔ ((n : ℕ) → ¬ (Natural text.now n)) }
{
    limited(natural(text.as_bytes()), largest(bits))
}

/// The bits of an integer literal: a natural number below 2^bits, or one behind a sign within the range of a
/// signed integer, of which the answer is the two's complement (Core 1.0, 6.3.1, `iN`). It takes no memory.
pub fn integer(text: &str, bits: u32) -> Num
    requires { (bits ≡ 32) ⊎ (bits ≡ 64) }
    ensures value { (n : ℕ) → (result ≡ Num.Value n)
        ↔ ((l : Signed) × Literal text.now l × FitsBits bits l × (n ≡ bits_of bits l)) }
    ensures range { (result ≡ Num.Range) ↔ ((l : Signed) × Literal text.now l × ¬ (FitsBits bits l)) }
    ensures not_a_number { (result ≡ Num.NotANumber) ↔ ((l : Signed) → ¬ (Literal text.now l)) }
{
    let text = text.as_bytes();
    let max = largest(bits);
    if let Some(digits) = behind(text, b'+') {
        return limited(natural(digits), max / 2);
    }
    if let Some(digits) = behind(text, b'-') {
        return negated(natural(digits), max);
    }
    limited(natural(text), max)
}
