//! Runs of digits.

ghost use Rattle.std.specs.Prelude.{◌≡◌, ◌*◌, ◌+◌, ◌<◌, ◌≤◌, ◌^◌, Some, None, false, length, drop, IfSome, option_map};
ghost use Rattle.std.specs.Prelude.{if◌then◌else◌};
ghost use Rattle.wc_tokens.specs.Standard.Digits.{digit_of};
ghost use Rattle.wc_tokens.specs.Reading.Scans.{extended, fitting, scan};

/// A run of digits at the front of a text: what it spells, `None` from 2^64 on, and its length in bytes.
#[derive(Clone, Copy)]
pub struct DigitRun {
    pub value: Option<u64>,
    pub len: usize,
}

/// Of each byte its value as a digit or as a letter of either case, and 36 where it is neither.
static DIGITS: [u8; 256] = [
    36, 36, 36, 36, 36, 36, 36, 36, 36, 36, 36, 36, 36, 36, 36, 36, 36, 36, 36, 36, 36, 36, 36, 36,
    36, 36, 36, 36, 36, 36, 36, 36, 36, 36, 36, 36, 36, 36, 36, 36, 36, 36, 36, 36, 36, 36, 36, 36,
    0, 1, 2, 3, 4, 5, 6, 7, 8, 9, 36, 36, 36, 36, 36, 36, 36, 10, 11, 12, 13, 14, 15, 16, 17, 18,
    19, 20, 21, 22, 23, 24, 25, 26, 27, 28, 29, 30, 31, 32, 33, 34, 35, 36, 36, 36, 36, 36, 36, 10,
    11, 12, 13, 14, 15, 16, 17, 18, 19, 20, 21, 22, 23, 24, 25, 26, 27, 28, 29, 30, 31, 32, 33, 34,
    35, 36, 36, 36, 36, 36, 36, 36, 36, 36, 36, 36, 36, 36, 36, 36, 36, 36, 36, 36, 36, 36, 36, 36,
    36, 36, 36, 36, 36, 36, 36, 36, 36, 36, 36, 36, 36, 36, 36, 36, 36, 36, 36, 36, 36, 36, 36, 36,
    36, 36, 36, 36, 36, 36, 36, 36, 36, 36, 36, 36, 36, 36, 36, 36, 36, 36, 36, 36, 36, 36, 36, 36,
    36, 36, 36, 36, 36, 36, 36, 36, 36, 36, 36, 36, 36, 36, 36, 36, 36, 36, 36, 36, 36, 36, 36, 36,
    36, 36, 36, 36, 36, 36, 36, 36, 36, 36, 36, 36, 36, 36, 36, 36, 36, 36, 36, 36, 36, 36, 36, 36,
    36, 36, 36, 36, 36, 36, 36, 36, 36, 36, 36, 36, 36, 36,
];

/// The value of a digit or a letter of either case, and 36 for any other byte.
// By a table, since which of them it is can't be foretold in the bytes of a string.
#[inline(always)]
pub fn digit_of(byte: u8) -> u64
    ensures { result ≡ digit_of byte }
{
    u64::from(DIGITS[byte as usize])
}

/// A number with one more digit, as long as 64 bits hold it.
fn extended(base: u64, value: Option<u64>, digit: u64) -> Option<u64>
    ensures { result ≡ extended base value digit }
{
    value?.checked_mul(base)?.checked_add(digit)
}

/// A run that ends here, if a digit ends it.
fn run(after_digit: bool, value: Option<u64>, len: usize) -> Option<DigitRun>
    ensures { result ≡ (if after_digit then Some (record { value = value; len = len }) else None) }
{
    if after_digit {
        Some(DigitRun { value, len })
    } else {
        None
    }
}

/// The longest run of digits at the front of a text, an underscore between two of them at most, or `None`
/// where no digit stands there or where an underscore ends the run.
pub fn digits(text: &[u8], base: u64) -> Option<DigitRun>
    ensures scanned { option_map (λ d. (d.value, drop d.len text.now)) result
        ≡ scan base false (Some 0) text.now }
    ensures within { IfSome result (λ d. (0 < d.len) × (d.len ≤ length text.now)) }
{
    let mut value = Some(0);
    let mut after_digit = false;
    let mut at = 0;
    while at < text.len() {
        let digit = digit_of(text[at]);
        if digit < base {
            value = extended(base, value, digit);
            after_digit = true;
        } else if after_digit && text[at] == b'_' {
            after_digit = false;
        } else {
            return run(after_digit, value, at);
        }
        at += 1;
    }
    run(after_digit, value, at)
}
