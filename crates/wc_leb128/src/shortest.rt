ghost use Rattle.std.specs.Prelude.{◌≡◌, ◌<◌, ◌^◌, ℕ, ℤ};
ghost use Rattle.wc_leb128.specs.Standard.Integers.{U, S};
ghost use Rattle.wc_leb128.specs.Standard.Shortest.{HoldsUnsigned, HoldsSigned, IsShortestSpelling};
ghost use Rattle.wc_leb128.specs.Writing.Bytes.{unsigned_bytes, signed_bytes, group_of, signed_of};

use crate::leb::Leb;

/// The one shortest spelling of an unsigned integer (Core 1.0, 5.2.2), the same at every width that holds it.
pub fn shortest_u(n: u64) -> Leb
    ensures bytes { result ≡ unsigned_bytes n }
    ensures shortest { IsShortestSpelling U HoldsUnsigned result n }
{
    let mut leb = Leb::new();
    let mut rest = n;
    while rest >= 128 {
        leb.push(128 + (rest % 128) as u8);
        rest /= 128;
    }
    leb.push(rest as u8);
    leb
}

/// The one shortest spelling of a signed integer (Core 1.0, 5.2.2), the same at every width that holds it.
pub fn shortest_s(n: i64) -> Leb
    ensures bytes { result ≡ signed_bytes n }
    ensures shortest { IsShortestSpelling S HoldsSigned result n }
{
    if n < 0 {
        groups(true, (-1 - n) as u64)
    } else {
        groups(false, n as u64)
    }
}

/// The bytes of a number by its sign and its bits, which are turned over in a negative number.
fn groups(negative: bool, bits: u64) -> Leb
    requires { bits < 2 ^ 63 }
    ensures { result ≡ signed_bytes (signed_of negative bits) }
{
    let mut leb = Leb::new();
    let mut rest = bits;
    while rest >= 64 {
        leb.push(128 + group(negative, (rest % 128) as u8));
        rest /= 128;
    }
    leb.push(group(negative, rest as u8));
    leb
}

/// Seven bits of a byte, turned over in a negative number.
fn group(negative: bool, bits: u8) -> u8
    requires { bits < 128 }
    ensures { result ≡ group_of negative bits }
{
    if negative { 127 - bits } else { bits }
}
