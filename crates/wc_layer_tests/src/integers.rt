//! Integers of the binary format, byte by byte and at once.

ghost use Rattle.std.specs.Prelude.{◌<◌, ◌≤◌};

use wc_leb128::{
    Signed, Step, Unsigned, shortest_s, shortest_u, signed_at, u32_front, unsigned_at,
};

/// Bytes, and the answer to the last of them.
type Table<T> = &'static [(&'static [u8], Step<T>)];

/// The answer to the last of the bytes.
fn unsigned_answer<const N: u32>(bytes: &[u8]) -> Step<u64>
    requires some_bits { 0 < N }
    requires fits_u64 { N ≤ 64 }
{
    let mut integer = Unsigned::<N>::new();
    let mut answer = Step::More;
    for byte in bytes {
        answer = integer.push(*byte);
    }
    answer
}

/// How many rows go as they say, one after the other.
fn unsigned<const N: u32>(table: Table<u64>) -> usize
    requires some_bits { 0 < N }
    requires fits_u64 { N ≤ 64 }
{
    let mut done = 0usize;
    for (bytes, want) in table {
        if unsigned_answer::<N>(*bytes) != *want {
            break;
        }
        done = done.saturating_add(1);
    }
    done
}

/// The answer to the last of the bytes.
fn signed_answer<const N: u32>(bytes: &[u8]) -> Step<i64>
    requires some_bits { 0 < N }
    requires fits_i64 { N ≤ 64 }
{
    let mut integer = Signed::<N>::new();
    let mut answer = Step::More;
    for byte in bytes {
        answer = integer.push(*byte);
    }
    answer
}

/// How many rows go as they say, one after the other.
fn signed<const N: u32>(table: Table<i64>) -> usize
    requires some_bits { 0 < N }
    requires fits_i64 { N ≤ 64 }
{
    let mut done = 0usize;
    for (bytes, want) in table {
        if signed_answer::<N>(*bytes) != *want {
            break;
        }
        done = done.saturating_add(1);
    }
    done
}

static U1: [(&[u8], Step<u64>); 3] = [
    (b"\x01", Step::Done(1)), // the greatest
    (b"\x02", Step::Bad), // one more
    (b"\x80", Step::Bad), // no second byte
];

static U7: [(&[u8], Step<u64>); 2] = [
    (b"\x7f", Step::Done(127)), // the greatest
    (b"\x80", Step::Bad), // no second byte
];

static U8: [(&[u8], Step<u64>); 4] = [
    (b"\x80", Step::More), // goes on
    (b"\xff\x01", Step::Done(255)), // the greatest
    (b"\xff\x02", Step::Bad), // one more
    (b"\x80\x80", Step::Bad), // no third byte
];

static U32: [(&[u8], Step<u64>); 12] = [
    (b"", Step::More), // no byte
    (b"\x00", Step::Done(0)), // zero
    (b"\xe5\x8e\x26", Step::Done(624485)), // three bytes
    (b"\x80\x80\x80\x80", Step::More), // four bytes, unfinished
    (b"\x80\x80\x80\x80\x00", Step::Done(0)), // zero padded to five bytes
    (b"\xff\xff\xff\xff\x0f", Step::Done(4294967295)), // the greatest
    (b"\xff\xff\xff\xff\x10", Step::Bad), // one more bit
    (b"\xff\xff\xff\xff\x1f", Step::Bad), // 33 bits
    (b"\xff\xff\xff\xff\x8f", Step::Bad), // a sixth byte begun
    (b"\xff\xff\xff\xff\x8f\x00", Step::Bad), // a sixth byte
    (b"\x00\x00", Step::Bad), // a byte behind the end
    (b"\x00\x80", Step::Bad), // a long byte behind the end
];

static U64: [(&[u8], Step<u64>); 3] = [
    // the greatest
    (
        b"\xff\xff\xff\xff\xff\xff\xff\xff\xff\x01",
        Step::Done(18446744073709551615),
    ),
    (b"\xff\xff\xff\xff\xff\xff\xff\xff\xff\x02", Step::Bad), // one more bit
    (b"\x80\x80\x80\x80\x80\x80\x80\x80\x80\x80", Step::Bad), // no eleventh byte
];

#[test]
fn unsigned_integers(rt: HostRuntime) {
    assert_eq!(rt; unsigned::<1>(&U1), U1.len());
    assert_eq!(rt; unsigned::<7>(&U7), U7.len());
    assert_eq!(rt; unsigned::<8>(&U8), U8.len());
    assert_eq!(rt; unsigned::<32>(&U32), U32.len());
    assert_eq!(rt; unsigned::<64>(&U64), U64.len());
}

static S1: [(&[u8], Step<i64>); 4] = [
    (b"\x00", Step::Done(0)), // zero
    (b"\x01", Step::Bad), // one too great
    (b"\x7e", Step::Bad), // one too small
    (b"\x7f", Step::Done(-1)), // the least
];

static S7: [(&[u8], Step<i64>); 3] = [
    (b"\x3f", Step::Done(63)), // the greatest
    (b"\x40", Step::Done(-64)), // the least
    (b"\x80", Step::Bad), // no second byte
];

static S8: [(&[u8], Step<i64>); 4] = [
    (b"\xff\x00", Step::Done(127)), // the greatest
    (b"\x80\x01", Step::Bad), // one more
    (b"\xff\x7e", Step::Bad), // one below the least
    (b"\x80\x7f", Step::Done(-128)), // the least
];

static S32: [(&[u8], Step<i64>); 12] = [
    (b"\x40", Step::Done(-64)), // one byte, negative
    (b"\xc0\xbb\x78", Step::Done(-123456)), // three bytes, negative
    (b"\xff\xff\xff\xff\x07", Step::Done(2147483647)), // the greatest
    (b"\xff\xff\xff\xff\x08", Step::Bad), // one more
    (b"\xff\xff\xff\xff\x10", Step::Bad), // 33 bits
    (b"\x80\x80\x80\x80\x6f", Step::Bad), // far below the least
    (b"\x80\x80\x80\x80\x77", Step::Bad), // one below the least
    (b"\x80\x80\x80\x80\x78", Step::Done(-2147483648)), // the least
    (b"\xff\xff\xff\xff\x7f", Step::Done(-1)), // minus one padded to five bytes
    (b"\xff\xff\xff\xff\xff", Step::Bad), // a sixth byte begun
    (b"\xff\xff\xff\xff\xff\x00", Step::Bad), // a sixth byte
    (b"\x7f\x00", Step::Bad), // a byte behind the end
];

static S33: [(&[u8], Step<i64>); 4] = [
    (b"\xff\xff\xff\xff\x0f", Step::Done(4294967295)), // the greatest
    (b"\x80\x80\x80\x80\x10", Step::Bad), // one more
    (b"\x80\x80\x80\x80\x6f", Step::Bad), // one below the least
    (b"\x80\x80\x80\x80\x70", Step::Done(-4294967296)), // the least
];

static S64: [(&[u8], Step<i64>); 5] = [
    // the greatest
    (
        b"\xff\xff\xff\xff\xff\xff\xff\xff\xff\x00",
        Step::Done(9223372036854775807),
    ),
    (b"\x80\x80\x80\x80\x80\x80\x80\x80\x80\x01", Step::Bad), // one more
    (b"\x80\x80\x80\x80\x80\x80\x80\x80\x80\x7e", Step::Bad), // one below the least
    // the least
    (
        b"\x80\x80\x80\x80\x80\x80\x80\x80\x80\x7f",
        Step::Done(-9223372036854775808),
    ),
    (b"\x80\x80\x80\x80\x80\x80\x80\x80\x80\xff", Step::Bad), // no eleventh byte
];

#[test]
fn signed_integers(rt: HostRuntime) {
    assert_eq!(rt; signed::<1>(&S1), S1.len());
    assert_eq!(rt; signed::<7>(&S7), S7.len());
    assert_eq!(rt; signed::<8>(&S8), S8.len());
    assert_eq!(rt; signed::<32>(&S32), S32.len());
    assert_eq!(rt; signed::<33>(&S33), S33.len());
    assert_eq!(rt; signed::<64>(&S64), S64.len());
}

static SHORTEST_UNSIGNED: [(u64, &[u8]); 6] = [
    (0, b"\x00"), // zero
    (64, b"\x40"), // bit 6 is no sign
    (127, b"\x7f"), // the greatest of one byte
    (128, b"\x80\x01"), // the least of two bytes
    (4294967295, b"\xff\xff\xff\xff\x0f"), // the greatest of 32 bits
    // the greatest
    (
        18446744073709551615,
        b"\xff\xff\xff\xff\xff\xff\xff\xff\xff\x01",
    ),
];

static SHORTEST_SIGNED: [(i64, &[u8]); 10] = [
    (0, b"\x00"), // zero
    (-1, b"\x7f"), // minus one
    (63, b"\x3f"), // the greatest of one byte
    (64, b"\xc0\x00"), // the least of two bytes
    (-64, b"\x40"), // the least of one byte
    (-65, b"\xbf\x7f"), // one below that
    (2147483647, b"\xff\xff\xff\xff\x07"), // the greatest of 32 bits
    (-2147483648, b"\x80\x80\x80\x80\x78"), // the least of 32 bits
    // the greatest
    (
        9223372036854775807,
        b"\xff\xff\xff\xff\xff\xff\xff\xff\xff\x00",
    ),
    // the least
    (
        -9223372036854775808,
        b"\x80\x80\x80\x80\x80\x80\x80\x80\x80\x7f",
    ),
];

/// How many rows go as they say, one after the other.
fn shortest_unsigned() -> usize {
    let mut done = 0usize;
    for (n, want) in &SHORTEST_UNSIGNED {
        if shortest_u(*n).as_slice() != *want {
            break;
        }
        done = done.saturating_add(1);
    }
    done
}

/// How many rows go as they say, one after the other.
fn shortest_signed() -> usize {
    let mut done = 0usize;
    for (n, want) in &SHORTEST_SIGNED {
        if shortest_s(*n).as_slice() != *want {
            break;
        }
        done = done.saturating_add(1);
    }
    done
}

#[test]
fn shortest_spellings(rt: HostRuntime) {
    assert_eq!(rt; shortest_unsigned(), SHORTEST_UNSIGNED.len());
    assert_eq!(rt; shortest_signed(), SHORTEST_SIGNED.len());
}

/// Bytes, and the integer that they begin with and what follows it.
type Fronts<T> = &'static [(&'static [u8], Option<(T, &'static [u8])>)];

/// How many rows go as they say, one after the other.
fn unsigned_fronts<const N: u32>(table: Fronts<u64>) -> usize
    requires some_bits { 0 < N }
    requires fits_u64 { N ≤ 64 }
{
    let mut done = 0usize;
    for (bytes, want) in table {
        if unsigned_at::<N>(*bytes) != *want {
            break;
        }
        done = done.saturating_add(1);
    }
    done
}

/// How many rows go as they say, one after the other.
fn signed_fronts<const N: u32>(table: Fronts<i64>) -> usize
    requires some_bits { 0 < N }
    requires fits_i64 { N ≤ 64 }
{
    let mut done = 0usize;
    for (bytes, want) in table {
        if signed_at::<N>(*bytes) != *want {
            break;
        }
        done = done.saturating_add(1);
    }
    done
}

static FRONTS_U1: [(&[u8], Option<(u64, &[u8])>); 3] = [
    (b"\x01\x80", Some((1, b"\x80"))), // the greatest, and more
    (b"\x02", None), // one too great
    (b"\x80\x00", None), // no second byte
];

static FRONTS_U32: [(&[u8], Option<(u64, &[u8])>); 14] = [
    (b"", None), // no byte
    (b"\x00", Some((0, b""))), // zero alone
    (b"\x7f", Some((127, b""))), // one byte alone
    (b"\x05\x00\xff", Some((5, b"\x00\xff"))), // one byte, and more
    (b"\xe5\x8e\x26", Some((624485, b""))), // three bytes alone
    (b"\xe5\x8e\x26\xe5\x8e\x26", Some((624485, b"\xe5\x8e\x26"))), // the same twice
    (b"\x80\x00", Some((0, b""))), // zero padded
    (b"\x83\x80\x80\x80\x00\x01", Some((3, b"\x01"))), // padded to five bytes
    (b"\xff\xff\xff\xff\x0f\x0f", Some((4294967295, b"\x0f"))), // the greatest, and more
    (b"\xff\xff\xff\xff\x10", None), // one more bit
    (b"\x80\x80\x80\x80\x80\x00", None), // a sixth byte
    (b"\x80", None), // one byte, unfinished
    (b"\xe5\x8e", None), // two bytes, unfinished
    (b"\x80\x80\x80\x80", None), // four bytes, unfinished
];

static FRONTS_U64: [(&[u8], Option<(u64, &[u8])>); 4] = [
    // the greatest, and more
    (
        b"\xff\xff\xff\xff\xff\xff\xff\xff\xff\x01\x7f",
        Some((18446744073709551615, b"\x7f")),
    ),
    (b"\xff\xff\xff\xff\xff\xff\xff\xff\xff\x02", None), // one more bit
    (b"\x80\x80\x80\x80\x80\x80\x80\x80\x80\x80\x00", None), // an eleventh byte
    (b"\xff\xff\xff\xff\xff\xff\xff\xff\xff", None), // nine bytes, unfinished
];

#[test]
fn unsigned_at_the_front(rt: HostRuntime) {
    assert_eq!(rt; unsigned_fronts::<1>(&FRONTS_U1), FRONTS_U1.len());
    assert_eq!(rt; unsigned_fronts::<32>(&FRONTS_U32), FRONTS_U32.len());
    assert_eq!(rt; unsigned_fronts::<64>(&FRONTS_U64), FRONTS_U64.len());
}

/// How many rows go as they say, one after the other.
fn u32_fronts() -> usize {
    let mut done = 0usize;
    for (bytes, want) in &FRONTS_U32 {
        if u32_front(*bytes).map(|(n, rest)| (u64::from(n), rest)) != *want {
            break;
        }
        done = done.saturating_add(1);
    }
    done
}

#[test]
fn u32_at_the_front(rt: HostRuntime) {
    assert_eq!(rt; u32_fronts(), FRONTS_U32.len());
}

static FRONTS_S1: [(&[u8], Option<(i64, &[u8])>); 4] = [
    (b"\x00\x00", Some((0, b"\x00"))), // zero, and more
    (b"\x7f", Some((-1, b""))), // the least
    (b"\x01", None), // one too great
    (b"\x80\x00", None), // no second byte
];

static FRONTS_S32: [(&[u8], Option<(i64, &[u8])>); 15] = [
    (b"", None), // no byte
    (b"\x3f", Some((63, b""))), // one byte
    (b"\x40", Some((-64, b""))), // one byte, negative
    (b"\x7f\x00\xff", Some((-1, b"\x00\xff"))), // minus one, and more
    (b"\xc0\xbb\x78", Some((-123456, b""))), // three bytes
    (b"\xc0\xbb\x78\x78", Some((-123456, b"\x78"))), // three bytes, and one
    (b"\x80\x00\x7f", Some((0, b"\x7f"))), // zero padded
    (b"\xff\xff\x7f", Some((-1, b""))), // minus one padded
    (b"\xff\xff\xff\xff\x07", Some((2147483647, b""))), // the greatest
    (b"\x80\x80\x80\x80\x78\x80", Some((-2147483648, b"\x80"))), // the least, and more
    (b"\xff\xff\xff\xff\x08", None), // one more
    (b"\x80\x80\x80\x80\x77", None), // one below the least
    (b"\xff\xff\xff\xff\xff\x7f", None), // a sixth byte
    (b"\x80", None), // one byte, unfinished
    (b"\xff\xff\xff\xff", None), // four bytes, unfinished
];

static FRONTS_S64: [(&[u8], Option<(i64, &[u8])>); 5] = [
    // the greatest
    (
        b"\xff\xff\xff\xff\xff\xff\xff\xff\xff\x00",
        Some((9223372036854775807, b"")),
    ),
    // the least, and more
    (
        b"\x80\x80\x80\x80\x80\x80\x80\x80\x80\x7f\x01",
        Some((-9223372036854775808, b"\x01")),
    ),
    (b"\x80\x80\x80\x80\x80\x80\x80\x80\x80\x01", None), // one more
    (b"\x80\x80\x80\x80\x80\x80\x80\x80\x80\x7e", None), // one below the least
    (b"\x80\x80\x80\x80\x80\x80\x80\x80\x80", None), // nine bytes, unfinished
];

#[test]
fn signed_at_the_front(rt: HostRuntime) {
    assert_eq!(rt; signed_fronts::<1>(&FRONTS_S1), FRONTS_S1.len());
    assert_eq!(rt; signed_fronts::<32>(&FRONTS_S32), FRONTS_S32.len());
    assert_eq!(rt; signed_fronts::<64>(&FRONTS_S64), FRONTS_S64.len());
}
