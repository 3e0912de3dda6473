//! The elements of strings that most strings are made of: a byte that stands for itself, and a byte by two digits.

ghost use Rattle.std.specs.Prelude.{◌≡◌, ◌+◌, ◌<◌, ◌≤◌, ℕ, List, [], ◌∷◌};
ghost use Rattle.std.specs.Prelude.{◌==◌, if◌then◌else◌, IsTrue, IfSome, length, take, drop, slice_index};
ghost use Rattle.wc_tokens.specs.Standard.Digits.{IsDigit, digit_of};
ghost use Rattle.wc_tokens.specs.Standard.Strings.{IsPlain, Element, Elements, EndsElements};
ghost use Rattle.wc_tokens.specs.Reading.Simple.{IsSimple, IsSimpleAt, IsLinked, IsLinkedAt, IsBegunAt, simple_len};
ghost use Rattle.wc_tokens.specs.Reading.Simple.{IsValueOf, AreNoted, left_over};

use crate::values::{hexadecimal_digit, plain_byte};

/// How many bytes are looked at together.
const CHUNK: usize = 16;

/// The most bytes that a run stands for.
pub const ROOM: usize = 256;

/// How many places are looked at together, and the two behind them.
const STARTS: usize = 258;

/// A byte that stands for itself.
#[inline(always)]
pub fn is_plain(byte: u8) -> bool
    ensures { IsTrue result → IsPlain byte }
{
    32 <= byte && byte != 127 && byte != b'"' && byte != b'\\'
}

/// A hexadecimal digit.
#[inline(always)]
#[tactic(auto, unfolding(crate::specs::Standard::Digits::digit_of))]
fn is_hexadecimal(byte: u8) -> bool
    ensures { IsTrue result → IsDigit 16 byte }
{
    (b'0' <= byte && byte <= b'9')
        || (b'a' <= byte && byte <= b'f')
        || (b'A' <= byte && byte <= b'F')
}

/// A byte that stands for itself, or a backslash before two digits.
#[inline(always)]
fn is_simple(byte: u8, next: u8, last: u8) -> bool
    ensures { IsTrue result → IsSimple byte next last }
{
    is_plain(byte) || (byte == b'\\' && is_hexadecimal(next) && is_hexadecimal(last))
}

/// A byte that is plain or a backslash, before others of which the last is a digit where one before it is a backslash.
// No test hangs on another one, so that a processor can do it to many bytes at once.
#[inline(always)]
fn is_linked(byte: u8, next: u8, last: u8) -> bool
    ensures { IsTrue result → IsLinked byte next last }
{
    let apart = (byte != b'\\') & (next != b'\\');
    (is_plain(byte) | (byte == b'\\')) & (apart | is_hexadecimal(last))
}

/// Whether so many bytes from a place on are each linked to the two behind them.
// All are looked at, whatever the first ones are, so that a processor can do it to many at once.
#[inline(always)]
fn is_linked_chunk(text: &[u8], from: usize) -> bool
    requires { from + 18 ≤ length text.now }
    ensures { IsTrue result → (k : ℕ) → k < 16 → IsLinkedAt text.now (from + k) }
{
    let mut all = true;
    for k in 0..CHUNK {
        let at = from + k;
        all &= is_linked(text[at], text[at + 1], text[at + 2]);
    }
    all
}

/// Whether the first byte isn't a backslash, or a digit stands behind it.
#[inline(always)]
fn begins_linked(text: &[u8]) -> bool
    ensures { IsTrue result → IsBegunAt text.now 0 }
{
    text.len() >= 2 && (text[0] != b'\\' || is_hexadecimal(text[1]))
}

/// How many bytes at the front are plain or a backslash before two digits, found in chunks.
#[inline(always)]
fn simple_chunks(text: &[u8]) -> usize
    ensures within { result ≤ length text.now }
    ensures simple { (k : ℕ) → k < result → IsSimpleAt text.now k }
{
    if !begins_linked(text) {
        return 0;
    }
    let mut at = 0;
    while at + CHUNK + 2 <= text.len() && is_linked_chunk(text, at) {
        at += CHUNK;
    }
    at
}

/// What follows simple elements at the front of a text, or digits of the last of them and what follows that.
#[inline(always)]
pub fn after_simple(text: &[u8]) -> &[u8]
    ensures shorter { length result.now ≤ length text.now }
    ensures same_end { (rest : List ℕ) → EndsElements result.now rest → EndsElements text.now rest }
{
    let mut at = simple_chunks(text);
    while at + 2 < text.len() && is_simple(text[at], text[at + 1], text[at + 2]) {
        at += 1;
    }
    &text[at..]
}

/// A simple element: the byte that it stands for, and its length.
#[derive(Clone, Copy)]
struct Simple {
    value: u8,
    len: usize,
}

/// The simple element that begins with these bytes.
// Which of the two it is can't be foretold in the bytes of a string, so it is computed, and not branched for.
#[inline(always)]
fn simple_of(first: u8, next: u8, last: u8) -> Option<Simple>
    ensures within { IfSome result (λ s. s.len ≤ 3) }
    ensures len { IfSome result (λ s. s.len ≡ simple_len first) }
    ensures element { IfSome result (λ s. (rest : List ℕ)
        → Element (take s.len (first ∷ next ∷ last ∷ rest)) (s.value ∷ [])) }
{
    let escape = first == b'\\';
    let pair = 16 * hexadecimal_digit(next) + hexadecimal_digit(last);
    let itself = plain_byte(first);
    let value = if escape { pair } else { itself };
    if value >= 256 {
        return None;
    }
    Some(Simple {
        value: value as u8,
        len: 1 + 2 * escape as usize,
    })
}

/// Whether all these bytes stand for themselves.
#[inline(always)]
fn all_plain(bytes: &[u8]) -> bool
    ensures { IsTrue result → (k : ℕ) → k < length bytes.now → IsPlain (slice_index bytes.now k) }
{
    let mut all = true;
    for byte in bytes {
        all &= is_plain(*byte);
    }
    all
}

/// How many bytes at the front stand for themselves, found in chunks.
#[inline(always)]
pub fn plain_chunks(text: &[u8]) -> usize
    ensures within { result ≤ length text.now }
    ensures plain { (k : ℕ) → k < result → IsPlain (slice_index text.now k) }
{
    let mut at = 0;
    while text.len() - at >= CHUNK && all_plain(&text[at..at + CHUNK]) {
        at += CHUNK;
    }
    at
}

/// Simple elements one after another: how long they are, and how many bytes they stand for.
#[derive(Clone, Copy)]
pub struct Run {
    pub len: usize,
    pub made: usize,
}

/// The value of a hexadecimal digit.
// It is computed, so that a processor can do it to many bytes at once.
#[inline(always)]
fn digit_value(byte: u8) -> u8
    ensures within { result < 16 }
    ensures digit { IsDigit 16 byte → result ≡ digit_of byte }
{
    let letter = if byte >= 64 { 9 } else { 0 };
    (byte % 16 + letter) % 16
}

/// The byte that the simple element stands for which begins with these bytes, if one does.
#[inline(always)]
fn simple_value(byte: u8, next: u8, last: u8) -> u8
    ensures { IsValueOf byte next last result }
{
    if byte == b'\\' {
        16 * digit_value(next) + digit_value(last)
    } else {
        byte
    }
}

/// Notes of each place of a chunk the byte that a simple element there stands for, and whether one begins two places
/// behind it, and tells whether the bytes of the chunk are each linked to the two behind them.
// All are looked at, whatever the first ones are, so that a processor can do it to many at once.
#[inline(always)]
fn note_chunk(text: &[u8], from: usize, values: &mut [u8; ROOM], starts: &mut [u8; STARTS]) -> bool
    requires within { from + 18 ≤ length text.now }
    requires room { from + 16 ≤ 256 }
    requires noted { AreNoted text.now values.now starts.now from }
    ensures linked { IsTrue result → (k : ℕ) → k < 16 → IsLinkedAt text.now (from + k) }
    ensures noted { AreNoted text.now values.new starts.new (from + 16) }
{
    let mut all = true;
    for k in 0..CHUNK {
        let at = from + k;
        let (byte, next, last) = (text[at], text[at + 1], text[at + 2]);
        all &= is_linked(byte, next, last);
        values[at] = simple_value(byte, next, last);
        starts[at + 2] = ((byte != b'\\') & (next != b'\\')) as u8;
    }
    all
}

/// Notes places at the front of a text, each of a simple element or of the digits of one, and tells how many they are.
#[inline(always)]
fn note_places(text: &[u8], values: &mut [u8; ROOM], starts: &mut [u8; STARTS]) -> usize
    requires { 2 ≤ length text.now }
    ensures room { result ≤ 256 }
    ensures within { result + 2 ≤ length text.now }
    ensures simple { (k : ℕ) → k < result → IsSimpleAt text.now k }
    ensures noted { AreNoted text.now values.new starts.new result }
{
    starts[0] = 1;
    starts[1] = (text[0] != b'\\') as u8;
    if !begins_linked(text) {
        return 0;
    }
    let mut at = 0;
    while at + CHUNK <= ROOM
        && at + CHUNK + 2 <= text.len()
        && note_chunk(text, at, values, starts)
    {
        at += CHUNK;
    }
    at
}

/// How many bytes stand from a place on of an element that begins before it.
#[inline(always)]
fn left_over(text: &[u8], at: usize) -> usize
    requires { (2 ≤ at) × (at ≤ length text.now) }
    ensures within { result ≤ 2 }
    ensures value { result ≡ left_over text.now at }
{
    if text[at - 1] == b'\\' {
        2
    } else {
        (text[at - 2] == b'\\') as usize
    }
}

/// Writes the values of the places where elements begin.
// Each is written, and the next one over it where no element begins: which it is can't be foretold.
#[inline(always)]
fn put_begun(
    text: &[u8],
    places: usize,
    values: &[u8; ROOM],
    starts: &[u8; STARTS],
    bytes: &mut [u8; ROOM],
) -> usize
    requires room { places ≤ 256 }
    requires within { places + 2 ≤ length text.now }
    requires simple { (k : ℕ) → k < places → IsSimpleAt text.now k }
    requires noted { AreNoted text.now values.now starts.now places }
    ensures room { result ≤ places }
    ensures elements { Elements (take (places + left_over text.now places) text.now) (take result bytes.new) }
{
    let mut made = 0;
    for k in 0..places {
        bytes[made] = values[k];
        made += starts[k] as usize;
    }
    made
}

/// Reads simple elements at the front of a text, of many places at once, and writes the bytes that they stand for.
// Whether an element begins at a place hangs on the two before it alone.
#[inline(never)]
fn read_places(text: &[u8], bytes: &mut [u8; ROOM]) -> Run
    requires { 2 ≤ length text.now }
    ensures within { result.len ≤ length text.now }
    ensures room { result.made ≤ 256 }
    ensures elements { Elements (take result.len text.now) (take result.made bytes.new) }
{
    let mut values = [0; ROOM];
    let mut starts = [0; STARTS];
    let places = note_places(text, &mut values, &mut starts);
    if places < 2 {
        return Run { len: 0, made: 0 };
    }
    let made = put_begun(text, places, &values, &starts, bytes);
    Run {
        len: places + left_over(text, places),
        made,
    }
}

/// The byte behind a simple element: of its first byte, the one next to it, and the third from it.
// It is computed of both that it may be, so that what comes next needn't wait for which of them it is.
#[inline(always)]
fn behind_simple(byte: u8, next: u8, far: u8) -> u8
    ensures { result ≡ (if byte == 92 then far else next) }
{
    let escape = byte == b'\\';
    let other = byte != b'\\';
    escape as u8 * far + other as u8 * next
}

/// Reads simple elements at the front of a text, two a round, and writes the bytes that they stand for.
#[inline(always)]
fn read_pairs(text: &[u8], bytes: &mut [u8; ROOM]) -> Run
    ensures within { result.len ≤ length text.now }
    ensures room { result.made ≤ 256 }
    ensures elements { Elements (take result.len text.now) (take result.made bytes.new) }
{
    // Two elements have six bytes at most.
    let limit = text.len().saturating_sub(5);
    let mut len = 0;
    let mut made = 0;
    while made + 1 < ROOM && len < limit {
        let (byte, next, last, far) = (text[len], text[len + 1], text[len + 2], text[len + 3]);
        let behind = behind_simple(byte, next, far);
        let Some(first) = simple_of(byte, next, last) else {
            return Run { len, made };
        };
        let at = len + first.len;
        let Some(second) = simple_of(behind, text[at + 1], text[at + 2]) else {
            return Run { len, made };
        };
        bytes[made] = first.value;
        bytes[made + 1] = second.value;
        len = at + second.len;
        made += 2;
    }
    Run { len, made }
}

/// Reads simple elements at the front of a text, and writes the bytes that they stand for. It stops before the last two
/// bytes at the latest.
pub fn read_simple(text: &[u8], bytes: &mut [u8; ROOM]) -> Run
    ensures within { result.len ≤ length text.now }
    ensures room { result.made ≤ 256 }
    ensures elements { Elements (take result.len text.now) (take result.made bytes.new) }
{
    // The last two bytes are left, since behind neither of them stand two.
    let limit = text.len().saturating_sub(2);
    if CHUNK <= limit && begins_linked(text) && is_linked_chunk(text, 0) {
        let run = read_places(text, bytes);
        if run.len > 0 {
            return run;
        }
    }
    let Run { mut len, mut made } = read_pairs(text, bytes);
    while made < ROOM && len < limit {
        let Some(simple) = simple_of(text[len], text[len + 1], text[len + 2]) else {
            return Run { len, made };
        };
        bytes[made] = simple.value;
        len += simple.len;
        made += 1;
    }
    Run { len, made }
}
