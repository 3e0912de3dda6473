//! One byte (Core 1.0, 5.2.1).

ghost use Rattle.std.specs.Prelude.{◌≡◌, ℕ, Result};
ghost use Rattle.wc_binary.specs.declared.fault.BinWhy.{BinWhy};
ghost use Rattle.wc_binary.specs.Standard.Phrase.{byte as byte_phrase};
ghost use Rattle.wc_binary.specs.Standard.Values.{only as only_of};
ghost use Rattle.wc_binary.specs.Reading.Source.{ByteGives, Gives};

use crate::fault::{BinFault, BinWhy, bad};
use crate::source::Source;

/// The next byte, whatever it is. That none is left is told at its place.
#[inline(always)]
pub fn any_byte<S: Source>(source: &mut S) -> Result<u8, BinFault>
    ensures { ByteGives (S.input source.old) (S.input source.new) result }
{
    let at = source.place();
    match source.next()? {
        Some(byte) => Ok(byte),
        None => Err(bad(at, BinWhy::End)),
    }
}

/// What a byte tells by a table.
pub trait ByteTable: Sized {
    ghost table: { ℕ → Result Self BinWhy };

    /// What the byte tells, or why it may not stand.
    fn of_byte(byte: u8) -> Result<Self, BinWhy>
        ensures { result ≡ table byte };
}

/// One byte of a table.
pub fn byte<T: ByteTable, S: Source>(source: &mut S) -> Result<T, BinFault>
    ensures { Gives (byte_phrase T.table) (S.input source.old) (S.input source.new) result }
{
    let at = source.place();
    let byte = any_byte(source)?;
    match T::of_byte(byte) {
        Ok(told) => Ok(told),
        Err(why) => Err(bad(at, why)),
    }
}

/// This byte, or else this reason.
pub fn only<S: Source>(wanted: u8, why: BinWhy, source: &mut S) -> Result<(), BinFault>
    ensures { Gives (byte_phrase (only_of wanted why)) (S.input source.old) (S.input source.new) result }
{
    let at = source.place();
    if any_byte(source)? == wanted {
        Ok(())
    } else {
        Err(bad(at, why))
    }
}
