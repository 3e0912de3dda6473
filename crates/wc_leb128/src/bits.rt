ghost use Rattle.std.specs.Prelude.{◌<◌, ◌^◌, ◌↔◌, IsTrue};

/// Whether a number has no more than so many bits.
#[inline]
pub(crate) fn fits(number: u8, bits: u32) -> bool
    ensures { IsTrue result ↔ (number < 2 ^ bits) }
{
    bits >= 8 || number < 1u8 << bits
}
