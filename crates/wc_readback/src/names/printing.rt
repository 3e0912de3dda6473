//! Modules as text, and what their texts are texts of.

ghost use Rattle.std.specs.Prelude.{◌≡◌, ◌≤◌, [], IfOk, length};
ghost use Rattle.std.specs.String.{string_bytes};
ghost use Rattle.wc_check.specs.Standard.Broken.{broken};
ghost use Rattle.wc_print.specs.Standard.Layout.{layout};
ghost use Rattle.wc_print.specs.Standard.Printed.{text};
ghost use Rattle.wc_tokens.specs.Standard.Lexemes.{longest};
ghost use Rattle.wc_read_text.specs.Standard.Texts.{Txt};

use crate::grammar::module_fits;
use crate::names::few_locals::module_has_few_locals;
use std::alloc::{AllocError, Global};
use wc_ast::Module;
use wc_print::print;

/// The printed text of a module, in its layout. Where the module breaks no rule (Core 1.0, 3.4) and the text isn't
/// longer than a text may be, it is a text of this very module. The error is want of memory.
pub fn text_of(alloc: Global, module: &Module) -> Result<String, AllocError>
    ensures layout { IfOk result (λ it. string_bytes it ≡ text (layout «module».now)) }
    ensures back { IfOk result (λ it. broken «module».now ≡ [] → length (string_bytes it) ≤ longest
        → Txt (string_bytes it) «module».now) }
{
    let printed = print(alloc, module)?;
    module_fits(module);
    module_has_few_locals(module);
    Ok(printed)
}
