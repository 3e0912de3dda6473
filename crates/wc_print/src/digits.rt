//! Digits of numbers, written where there is room for them.

ghost use Rattle.std.specs.Prelude.{◌≡◌, ℕ, ◌≤◌, ◌<◌, ◌+◌, ◌/◌, List, ◌∷◌, [], ◌++◌, length, take};
ghost use Rattle.std.specs.Fmt.{decimal};
ghost use Rattle.wc_print.specs.Standard.Printed.{number, integer, after};
ghost use Rattle.wc_print.specs.Standard.Printable.{Put};
ghost use Rattle.wc_print.specs.Writing.Numbers.{sign, front_digits, last_digits};

use crate::rows::copy_row;
use crate::thousands::{Digits, few_digits, last_three_digits};

/// The first index that isn't short: one of more than six digits.
pub const LIMIT: u32 = 1_000_000;

/// Writes the digits of a number of at most three, from a place on, and says where they end. The whole row is written.
#[inline(always)]
pub fn write_few_digits(room: &mut [u8], at: usize, n: u32) -> usize
    requires room { at + 4 ≤ length room.old }
    requires few { n < 1000 }
    ensures within { result ≤ at + 3 }
    ensures bytes { take result room.new ≡ take at room.old ++ decimal n }
{
    let row = few_digits(n);
    copy_row(room, at, row);
    at + row[3] as usize
}

/// Writes the last three digits of a number behind those before them, from a place on, and says where they end. The
/// whole row is written.
#[inline(always)]
fn write_three_more(room: &mut [u8], at: usize, n: u64) -> usize
    requires { at + 4 ≤ length room.old }
    ensures end { result ≡ at + 3 }
    ensures bytes { (front : List ℕ) → 1000 ≤ n → take at room.old ≡ front ++ decimal (n / 1000)
        → take result room.new ≡ front ++ decimal n }
{
    copy_row(room, at, last_three_digits((n % 1000) as u32));
    at + 3
}

/// Writes the digits before the last three of a number, by how many thousands it has, and says where they end. The
/// whole row is written.
#[inline(always)]
fn write_thousands(room: &mut [u8], at: usize, thousands: u32) -> usize
    requires room { at + 4 ≤ length room.old }
    requires few { thousands < 1000 }
    ensures within { result ≤ at + 3 }
    ensures bytes { take result room.new ≡ take at room.old ++ front_digits thousands }
{
    let end = write_few_digits(room, at, thousands);
    if thousands == 0 { at } else { end }
}

/// The last three digits of a number that has so many thousands, or all of one that has none, and how many these are.
#[inline(always)]
fn last_digits(n: u32, thousands: u32) -> (&'static Digits, usize)
    requires { thousands ≡ n / 1000 }
    ensures digits { take result.1 result.0.now ≡ last_digits thousands n }
    ensures few { result.1 ≤ 3 }
{
    if thousands == 0 {
        let row = few_digits(n);
        return (row, row[3] as usize);
    }
    (last_three_digits(n % 1000), 3)
}

/// Writes the digits of a number of at most six, from a place on, and says where they end.
// No branch depends on how many there are, since it couldn't be foretold.
#[inline(always)]
pub fn write_digits(room: &mut [u8], at: usize, n: u32) -> usize
    requires room { at + 7 ≤ length room.old }
    requires few { n < 1000000 }
    ensures within { result ≤ at + 6 }
    ensures bytes { take result room.new ≡ take at room.old ++ decimal n }
{
    let thousands = n / 1000;
    let end = write_thousands(room, at, thousands);
    let (row, count) = last_digits(n, thousands);
    copy_row(room, end, row);
    end + count
}

/// Writes the digits of a number of at most twelve, from a place on, and says where they end.
#[inline(always)]
fn write_many_digits(room: &mut [u8], at: usize, n: u64) -> usize
    requires room { at + 13 ≤ length room.old }
    requires few { n < 1000000000000 }
    ensures within { result ≤ at + 12 }
    ensures bytes { take result room.new ≡ take at room.old ++ decimal n }
{
    if n < 1_000_000 {
        return write_digits(room, at, n as u32);
    }
    let end = write_digits(room, at, (n / 1_000_000) as u32);
    let next = write_three_more(room, end, n / 1000);
    write_three_more(room, next, n)
}

/// Writes the digits of a number, from a place on, and says where they end, by a call.
#[inline(never)]
fn write_long(room: &mut [u8], at: usize, n: u64) -> usize
    requires { at + 22 ≤ length room.old }
    ensures within { result ≤ at + 21 }
    ensures bytes { take result room.new ≡ take at room.old ++ decimal n }
{
    if n < 1_000_000_000_000 {
        return write_many_digits(room, at, n);
    }
    let end = write_many_digits(room, at, n / 1_000_000_000);
    let next = write_three_more(room, end, n / 1_000_000);
    let last = write_three_more(room, next, n / 1000);
    write_three_more(room, last, n)
}

/// Writes the digits of a number, from a place on, and says where they end. Most have at most six.
#[inline(always)]
pub fn write_natural(room: &mut [u8], at: usize, n: u64) -> usize
    requires { at + 22 ≤ length room.old }
    ensures within { result ≤ at + 21 }
    ensures bytes { take result room.new ≡ take at room.old ++ decimal n }
{
    if n < 1_000_000 {
        return write_digits(room, at, n as u32);
    }
    write_long(room, at, n)
}

/// Writes the sign of a number, if it has one, and says where it ends. The byte is written of each.
// No branch depends on the sign, since it couldn't be foretold.
#[inline(always)]
fn write_sign(room: &mut [u8], at: usize, n: i64) -> usize
    requires { at + 1 ≤ length room.old }
    ensures end { result ≤ at + 1 }
    ensures bytes { take result room.new ≡ take at room.old ++ sign n }
{
    room[at] = b'-';
    at + usize::from(n < 0)
}

/// Writes a number, behind a space.
#[inline(always)]
pub fn write_number(room: &mut [u8], at: usize, n: u32) -> usize
    requires { at + 23 ≤ length room.old }
    ensures end { result ≤ at + 22 }
    ensures put { Put (after (number n) ∷ []) (take at room.old) (take result room.new) }
{
    room[at] = b' ';
    write_natural(room, at + 1, u64::from(n))
}

/// Writes a signed number, behind a space.
#[inline(always)]
pub fn write_signed(room: &mut [u8], at: usize, n: i64) -> usize
    requires { at + 24 ≤ length room.old }
    ensures end { result ≤ at + 23 }
    ensures put { Put (after (integer n) ∷ []) (take at room.old) (take result room.new) }
{
    room[at] = b' ';
    let begin = write_sign(room, at + 1, n);
    write_natural(room, begin, n.unsigned_abs())
}

/// The same by a call.
#[inline(never)]
pub fn write_integer(room: &mut [u8], at: usize, n: i64) -> usize
    requires { at + 24 ≤ length room.old }
    ensures end { result ≤ at + 23 }
    ensures put { Put (after (integer n) ∷ []) (take at room.old) (take result room.new) }
{
    write_signed(room, at, n)
}

/// Writes an index that is short, behind a space.
#[inline(always)]
pub fn write_index(room: &mut [u8], at: usize, index: u32) -> usize
    requires room { at + 8 ≤ length room.old }
    requires few { index < 1000000 }
    ensures end { result ≤ at + 7 }
    ensures put { Put (after (number index) ∷ []) (take at room.old) (take result room.new) }
{
    room[at] = b' ';
    write_digits(room, at + 1, index)
}
