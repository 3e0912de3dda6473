//! Classes of bytes.

ghost use Rattle.std.specs.Prelude.{◌≡◌};
ghost use Rattle.wc_tokens.specs.Standard.Gaps.{is_blank};
ghost use Rattle.wc_tokens.specs.Standard.Lexemes.{is_idchar};

/// The class of each byte: `b` for a blank, `i` for a character of words and identifiers, `-` for any other.
static CLASSES: [u8; 256] = *b"\
    ---------bb--b------------------\
    bi-iiiii--ii-iiiiiiiiiiiiii-iiii\
    iiiiiiiiiiiiiiiiiiiiiiiiiii-i-ii\
    iiiiiiiiiiiiiiiiiiiiiiiiiii-i-i-\
    --------------------------------\
    --------------------------------\
    --------------------------------\
    --------------------------------";

/// White space (Core 1.0, 6.2.3).
#[inline(always)]
pub fn is_blank(byte: u8) -> bool
    ensures { result ≡ is_blank byte }
{
    CLASSES[byte as usize] == b'b'
}

/// A character of words and identifiers (Core 1.0, 6.3.5).
#[inline(always)]
pub fn is_idchar(byte: u8) -> bool
    ensures { result ≡ is_idchar byte }
{
    CLASSES[byte as usize] == b'i'
}
