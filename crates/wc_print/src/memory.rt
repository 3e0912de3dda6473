//! A text in memory.

ghost use Rattle.std.specs.Prelude.{◌≡◌, IfOk};
ghost use Rattle.std.specs.String.{string_bytes};
ghost use Rattle.wc_print.specs.Standard.Printed.{text};
ghost use Rattle.wc_print.specs.Standard.Printable.{IsPrintable};
ghost use Rattle.wc_print.specs.Standard.Layout.{layout};

use crate::printing::put_module;
use crate::sink::Sink;
use std::alloc::{AllocError, Global};
use wc_ast::Module;

/// The bytes that were put, as long as no growth of memory was refused.
#[derive(Drop)]
struct Memory {
    bytes: Vec<u8>,
    lost: bool,
}

impl Sink for Memory {
    ghost use Rattle.std.specs.Prelude.{false};

    ghost Has = { λ first now said. now.lost ≡ false → now.bytes.items ≡ said };

    fn put(&mut self, bytes: &[u8]) {
        if !self.lost {
            self.lost = self.bytes.extend_from_slice(bytes).is_err();
        }
    }
}

/// The text of a module (Core 1.0, chapter 6), in the layout of `docs/FORMAT.md`. Every module has one, whatever rule
/// it breaks, and `printed_lexes` says which tokens it has. It takes memory for the text alone. The error is want of
/// memory.
pub fn print(alloc: Global, module: &Module) -> Result<String, AllocError>
    ensures layout { IfOk result (λ it. string_bytes it ≡ text (layout «module».now)) }
    ensures printable { IfOk result (λ it. IsPrintable (layout «module».now)) }
{
    let mut out = Memory {
        bytes: Vec::new(alloc),
        lost: false,
    };
    put_module(&mut out, module);
    let Memory { bytes, lost } = out;
    if lost {
        return Err(AllocError);
    }
    // All of it is ASCII, so nobody needs to look at it again.
    Ok(unsafe { String::from_utf8_unchecked(bytes) })
}
