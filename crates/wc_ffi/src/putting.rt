//! Bytes are put into memory of the caller.

ghost use Rattle.std.specs.Prelude.{◌≡◌, length, nat_le};
ghost use Rattle.wc_ffi.specs.Standard.Memory.{told};

/// Puts bytes at the front, where there is room for them, and tells how many there are. Whether there was room.
pub(crate) fn put(out: &mut [u8], needed: &mut usize, bytes: &[u8]) -> bool
    ensures fits { result ≡ nat_le (length bytes.now) (length out.old) }
    ensures out { out.new ≡ told bytes.now out.old }
    ensures needed { needed.new ≡ length bytes.now }
{
    let count = bytes.len();
    *needed = count;
    if count > out.len() {
        return false;
    }
    out[..count].copy_from_slice(bytes);
    true
}
