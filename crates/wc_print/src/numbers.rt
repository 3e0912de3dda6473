//! Numbers (Core 1.0, 6.3.1).

ghost use Rattle.std.specs.Prelude.{◌∷◌, []};
ghost use Rattle.wc_print.specs.Standard.Printed.{number, integer, after};
ghost use Rattle.wc_print.specs.Standard.Going.{Puts};

use crate::digits::{write_integer, write_number};
use crate::sink::Sink;

/// A natural number of two digits or more, behind a space. It stands apart, so that the way of small ones stays short.
#[inline(never)]
fn put_digits<S: Sink>(out: &mut S, n: u32)
    ensures { Puts S.Has (after (number n) ∷ []) out.old out.new }
{
    let mut room = [0; 23];
    let end = write_number(&mut room, 0, n);
    out.put(&room[..end]);
}

/// A natural number, behind a space.
#[inline(always)]
pub fn put_number<S: Sink>(out: &mut S, n: u32)
    ensures { Puts S.Has (after (number n) ∷ []) out.old out.new }
{
    if n < 10 {
        return out.put(&[b' ', b'0' + n as u8]);
    }
    put_digits(out, n);
}

/// A signed number, behind a space.
pub fn put_integer<S: Sink>(out: &mut S, n: i64)
    ensures { Puts S.Has (after (integer n) ∷ []) out.old out.new }
{
    let mut room = [0; 24];
    let end = write_integer(&mut room, 0, n);
    out.put(&room[..end]);
}
