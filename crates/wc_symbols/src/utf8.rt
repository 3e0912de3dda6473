//! UTF-8 read byte by byte.

ghost use Rattle.std.specs.Prelude.{◌≡◌, ◌++◌, ◌∷◌, [], ℕ, List, IsTrue, IsUtf8, ◌↔◌};
ghost use Rattle.simdutf8.specs.Steps.{least_after, most_after};
ghost use Rattle.wc_symbols.specs.Reading.Utf8.{is_closed, is_continuation, may_follow, Tracks};

/// The last three bytes of what was read, which say what may follow; zeros before the first byte.
#[derive(Clone, Copy)]
pub struct Tail {
    pub first: u8,
    pub second: u8,
    pub third: u8,
}

/// Nothing was read.
pub fn nothing_read() -> Option<Tail>
    ensures { Tracks result [] }
{
    Some(Tail {
        first: 0,
        second: 0,
        third: 0,
    })
}

/// Neither the first byte of a character nor one of ASCII.
fn is_continuation(byte: u8) -> bool
    ensures { result ≡ is_continuation byte }
{
    0x80 <= byte && byte < 0xc0
}

/// The least byte that may follow the first of a character.
fn least_after(byte: u8) -> u8
    ensures { result ≡ least_after byte }
{
    match byte {
        0xe0 => 0xa0,
        0xf0 => 0x90,
        _ => 0x80,
    }
}

/// The greatest byte that may follow it.
fn most_after(byte: u8) -> u8
    ensures { result ≡ most_after byte }
{
    match byte {
        0xed => 0x9f,
        0xf4 => 0x8f,
        _ => 0xbf,
    }
}

/// Whether a byte may follow.
fn may_follow(tail: Tail, byte: u8) -> bool
    ensures { result ≡ may_follow tail.first tail.second tail.third byte }
{
    let Tail {
        first,
        second,
        third,
    } = tail;
    if 0xf0 <= first || 0xe0 <= second {
        return is_continuation(third) && is_continuation(byte);
    }
    if third < 0xc0 {
        return byte < 0x80 || 0xc0 <= byte;
    }
    0xc2 <= third && third <= 0xf4 && least_after(third) <= byte && byte <= most_after(third)
}

/// What was read, and one more byte.
pub fn followed(tail: Option<Tail>, byte: u8) -> Option<Tail>
    ensures { (read : List ℕ) → Tracks tail read → Tracks result (read ++ byte ∷ []) }
{
    match tail {
        Some(tail) if may_follow(tail, byte) => Some(Tail {
            first: tail.second,
            second: tail.third,
            third: byte,
        }),
        _ => None,
    }
}

/// Whether no character is left open.
fn is_closed(tail: Tail) -> bool
    ensures { result ≡ is_closed tail.first tail.second tail.third }
{
    tail.first < 0xf0 && tail.second < 0xe0 && tail.third < 0xc0
}

/// Whether what was read is UTF-8.
pub fn is_whole(tail: Option<Tail>) -> bool
    ensures { (read : List ℕ) → Tracks tail read → IsTrue result ↔ IsUtf8 read }
{
    match tail {
        Some(tail) => is_closed(tail),
        None => false,
    }
}
