//! Strings (Core 1.0, 6.3.3).

ghost use Rattle.std.specs.Prelude.{◌≡◌, ◌≤◌, ◌<◌, ◌+◌, ◌-◌, ◌∷◌, [], ◌++◌, ℕ, true, IsTrue};
ghost use Rattle.std.specs.Prelude.{length, take, slice_index};
ghost use Rattle.std.specs.List.{flat_map};
ghost use Rattle.wc_print.specs.Standard.Printed.{stands, escaped, quoted, after};
ghost use Rattle.wc_print.specs.Standard.Going.{Puts, LeavesEscaped};
ghost use Rattle.wc_print.specs.Writing.Short.{AllStand};

use crate::escapes::ESCAPES;
use crate::sink::Sink;

/// How many bytes are judged together.
const CHUNK: usize = 16;

/// How many bytes are escaped together.
const PIECE: usize = 32;

/// Room for what stands for a piece: at most three bytes for each, and one more, since whole rows are written.
const ROOM: usize = 97;

/// A byte that stands for itself.
#[inline(always)]
fn stands(byte: u8) -> bool
    ensures { result ≡ stands byte }
{
    32 <= byte && byte <= 126 && byte != b'"' && byte != b'\\'
}

/// Whether all these bytes stand for themselves.
// All are looked at, whatever the first ones are, so that a processor can do it to many at once.
#[inline(always)]
fn all_stand(bytes: &[u8]) -> bool
    ensures { IsTrue result → (k : ℕ) → k < length bytes.now → stands (slice_index bytes.now k) ≡ true }
{
    let mut all = true;
    for byte in bytes {
        all &= stands(*byte);
    }
    all
}

/// How many bytes at the front stand for themselves, found in whole chunks.
#[inline(always)]
fn standing_chunks(bytes: &[u8]) -> usize
    ensures within { result ≤ length bytes.now }
    ensures stand { (k : ℕ) → k < result → stands (slice_index bytes.now k) ≡ true }
{
    let mut at = 0;
    while bytes.len() - at >= CHUNK && all_stand(&bytes[at..at + CHUNK]) {
        at += CHUNK;
    }
    at
}

/// How many bytes at the front stand for themselves, found in chunks, of which the last one may be shorter.
#[inline(always)]
fn standing(bytes: &[u8]) -> usize
    ensures within { result ≤ length bytes.now }
    ensures stand { (k : ℕ) → k < result → stands (slice_index bytes.now k) ≡ true }
{
    let end = standing_chunks(bytes);
    let last = &bytes[end..];
    if last.len() < CHUNK && all_stand(last) {
        return bytes.len();
    }
    end
}

/// Whether all of some bytes stand for themselves that are at least so many, and at most twice so many.
// Those of both ends are looked at, and some twice: so many at once are cheaper than one by one.
#[inline(always)]
fn ends_stand(bytes: &[u8], size: usize) -> bool
    requires enough { size ≤ length bytes.now }
    requires few { length bytes.now ≤ size + size }
    ensures { IsTrue result → AllStand bytes.now }
{
    all_stand(&bytes[..size]) && all_stand(&bytes[bytes.len() - size..])
}

/// Whether all these bytes stand for themselves.
#[inline(always)]
pub fn is_plain(bytes: &[u8]) -> bool
    ensures { IsTrue result → AllStand bytes.now }
{
    let count = bytes.len();
    if count > 32 {
        return standing(bytes) == count;
    }
    if count >= 16 {
        return ends_stand(bytes, 16);
    }
    if count >= 8 {
        return ends_stand(bytes, 8);
    }
    if count >= 4 {
        return ends_stand(bytes, 4);
    }
    if count >= 2 {
        return ends_stand(bytes, 2);
    }
    all_stand(bytes)
}

/// Writes what stands for a byte, from a place on, and tells where it ends. A whole row is written.
#[inline(always)]
fn write_byte(room: &mut [u8; ROOM], at: usize, byte: u8) -> usize
    requires { at + 4 ≤ 97 }
    ensures within { result ≤ at + 3 }
    ensures bytes { take result room.new ≡ take at room.old ++ escaped byte }
{
    let row = &ESCAPES[byte as usize];
    room[at] = row[0];
    room[at + 1] = row[1];
    room[at + 2] = row[2];
    room[at + 3] = row[3];
    at + row[3] as usize
}

/// Writes what stands for some bytes, and tells how many bytes that is.
#[inline(always)]
fn write_bytes(room: &mut [u8; ROOM], bytes: &[u8]) -> usize
    requires { length bytes.now ≤ 32 }
    ensures within { result ≤ 96 }
    ensures bytes { take result room.new ≡ flat_map escaped bytes.now }
{
    let mut end = 0;
    for byte in bytes {
        end = write_byte(room, end, *byte);
    }
    end
}

/// Puts the bytes at the front that stand for themselves, as far as they are found in chunks, and tells what follows.
#[inline(always)]
fn put_standing<'a, S: Sink>(out: &mut S, bytes: &'a [u8]) -> &'a [u8]
    ensures { LeavesEscaped S.Has result.now bytes.now out.new out.old }
{
    let end = standing(bytes);
    if end == 0 {
        return bytes;
    }
    let (plain, rest) = bytes.split_at(end);
    out.put(plain);
    rest
}

/// Puts what stands for the bytes at the front, so many as are escaped together, and tells what follows.
#[inline(always)]
fn put_piece<'a, S: Sink>(out: &mut S, bytes: &'a [u8]) -> &'a [u8]
    ensures leaves { LeavesEscaped S.Has result.now bytes.now out.new out.old }
    ensures shorter { length result.now ≡ length bytes.now - 32 }
{
    let (piece, rest) = bytes.split_at(bytes.len().min(PIECE));
    let mut room = [0; ROOM];
    let end = write_bytes(&mut room, piece);
    out.put(&room[..end]);
    rest
}

/// A string that stands for these bytes, behind a space.
pub fn put_string<S: Sink>(out: &mut S, bytes: &[u8])
    ensures { Puts S.Has (after (quoted bytes.now) ∷ []) out.old out.new }
{
    out.put(b" \"");
    let mut rest = bytes;
    while !rest.is_empty() {
        rest = put_standing(out, rest);
        if !rest.is_empty() {
            rest = put_piece(out, rest);
        }
    }
    out.put(b"\"");
}
