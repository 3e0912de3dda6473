//! Whether the names of exports differ.

ghost use Rattle.std.specs.Prelude.{◌≡◌, true, map, IfOk};
ghost use Rattle.wc_check.specs.Judging.Names.{AreDistinct, mixed, hash_words, number_from, hash_of_name, rises};

use std::alloc::{AllocError, Global};
use wc_ast::Exports;

/// An odd number whose bits look drawn.
const MULTIPLIER: u64 = 0x9e37_79b9_7f4a_7c15;

/// The hash with a word mixed in: another one for each word, and for each hash.
fn mixed(hash: u64, word: u64) -> u64
    ensures { result ≡ mixed hash word }
{
    let product = word.wrapping_mul(MULTIPLIER);
    let folded = product ^ product / 0x1_0000_0000;
    (hash ^ folded).wrapping_mul(MULTIPLIER)
}

/// The hash with the bytes mixed in, eight at a time, as far as there are eight.
fn hash_words(hash: u64, bytes: &[u8]) -> u64
    ensures { result ≡ hash_words hash bytes.now }
{
    let (words, _) = bytes.as_chunks::<8>();
    let mut hash = hash;
    for word in words {
        hash = mixed(hash, u64::from_le_bytes(*word));
    }
    hash
}

/// The number that the bytes spell.
fn number_of(bytes: &[u8]) -> u64
    ensures { result ≡ number_from 0 bytes.now }
{
    let mut number: u64 = 0;
    for byte in bytes {
        number = number.wrapping_mul(256).wrapping_add(u64::from(*byte));
    }
    number
}

/// The hash of a name, which differs from that of any other name with near certainty. The last word may have bytes of
/// the one before it.
fn hash_of(name: &[u8]) -> u64
    ensures { result ≡ hash_of_name name.now }
{
    let count = name.len();
    if count < 8 {
        return mixed(count as u64, number_of(name));
    }
    let (_, last) = name.split_at(count - 8);
    hash_words(hash_words(count as u64, name), last)
}

/// The hash of each export's name.
fn hashes_of(alloc: Global, exports: &Exports) -> Result<Vec<u64>, AllocError>
    ensures { IfOk result (λ hashes. hashes.items ≡ map (λ e. hash_of_name e.name) exports.now) }
{
    let mut hashes = Vec::with_capacity(alloc, exports.len())?;
    for export in exports.iter() {
        hashes.push(hash_of(export.name().as_bytes()))?;
    }
    Ok(hashes)
}

/// Whether each number is above the one before it.
fn is_rising(numbers: &[u64]) -> bool
    ensures { result ≡ rises numbers.now }
{
    let Some((first, rest)) = numbers.split_first() else {
        return true;
    };
    let mut last = *first;
    for number in rest {
        if *number <= last {
            return false;
        }
        last = *number;
    }
    true
}

/// Whether the hashes of the names differ, so that the names do too. Where they don't, nothing is said. The error is
/// want of memory, for the hashes.
pub(crate) fn have_distinct_hashes(alloc: Global, exports: &Exports) -> Result<bool, AllocError>
    ensures { IfOk result (λ is_told. is_told ≡ true → AreDistinct exports.now) }
{
    let mut hashes = hashes_of(alloc, exports)?;
    hashes.sort_unstable();
    Ok(is_rising(&hashes))
}
