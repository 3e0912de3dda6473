//! Names (Core 1.0, 5.2.4).

ghost use Rattle.std.specs.Prelude.{◌≤◌, IfSome, OnSome};
ghost use Rattle.std.specs.Str.{IsUtf8};
ghost use Rattle.wc_binary.specs.Standard.Values.{name as name_phrase};
ghost use Rattle.wc_binary.specs.Reading.Source.{AreAhead};

use crate::decoder::from_source::FromSource;
use crate::decoder::integer::u32;
use crate::decoder::vector::bytes;
use crate::fault::{BinFault, BinWhy, bad};
use crate::source::Source;
use std::alloc::Global;
use wc_ast::Name;

impl FromSource for Name {
    ghost phrase = { name_phrase };

    /// A name. That its bytes are UTF-8 is judged once all of them were read.
    fn read<S: Source>(alloc: Global, source: &mut S) -> Result<Name, BinFault> {
        let count = u32(source)?;
        if let Some(name) = name_ahead(count, source) {
            source.pass(count as u64);
            return Ok(name);
        }
        let bytes = bytes(alloc, count, source)?;
        let end = source.place();
        if let Err(error) = simdutf8::compat::from_utf8(bytes.as_slice()) {
            let at = end.saturating_sub((bytes.len() - error.valid_up_to()) as u64);
            return Err(bad(at, BinWhy::NotUtf8));
        }
        let text = unsafe { String::from_utf8_unchecked(bytes.into_vec()) };
        Ok(Name::from_string(text))
    }
}

/// A short name of `count` bytes, which lie ahead and are UTF-8.
fn name_ahead<S: Source>(count: u32, source: &S) -> Option<Name>
    ensures ahead { IfSome result (λ name. AreAhead (S.input source.now) count name) }
    ensures utf8 { IfSome result (λ name. IsUtf8 name) }
    ensures at_hand { OnSome result (count ≤ S.at_hand source.now) }
{
    if count as usize > Name::SHORT {
        return None;
    }
    let bytes = source.ahead(count as usize)?;
    let text = str::from_utf8(bytes).ok()?;
    Name::short(text)
}
