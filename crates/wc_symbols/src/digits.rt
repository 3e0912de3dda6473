//! Decimal numbers of few digits.

ghost use Rattle.std.specs.Prelude.{◌<◌, ◌^◌, IfSome};
ghost use Rattle.wc_tokens.specs.Standard.Digits.{Digits};

/// The most digits of a short number: each such number fits 32 bits, and behind a sign too.
const MOST: usize = 9;

/// The number that the text spells, where that is a few decimal digits and nothing else.
#[inline(always)]
pub fn short_decimal(text: &[u8]) -> Option<u32>
    ensures { IfSome result (λ n. Digits 10 text.now n × (n < 10 ^ 9)) }
{
    if text.is_empty() || text.len() > MOST {
        return None;
    }
    let mut value = 0;
    for byte in text {
        let digit = match *byte {
            b'0'..=b'9' => *byte - b'0',
            _ => return None,
        };
        value = 10 * value + u32::from(digit);
    }
    Some(value)
}
