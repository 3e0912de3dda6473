//! The version.

ghost use Rattle.std.specs.Prelude.{◌≡◌, length};
ghost use Rattle.wc_ffi.specs.Standard.Memory.{told};

use crate::putting::put;
use wc_canon::VERSION;

/// Writes the version to the front of `text`, and its length in bytes to `needed`; where that is more than there is
/// room for, nothing is written to `text`.
#[unsafe(no_mangle)]
pub extern "C" fn wcanon_version(text: &mut [u8], needed: &mut usize)
    ensures text { text.new ≡ told VERSION.now text.old }
    ensures needed { needed.new ≡ length VERSION.now }
{
    put(text, needed, VERSION.as_bytes());
}
