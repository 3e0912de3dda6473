//! From the bytes of a text to its module.

ghost use Rattle.std.specs.Prelude.{◌≡◌, ◌⊎◌, IfOk, IfErr, MatchResult, IsErrAnd};
ghost use Rattle.wc_ast.specs.declared.module.Module.{Module as ModuleValue};
ghost use Rattle.wc_parse.specs.Standard.Wholes.{SaysText};
ghost use Rattle.wc_read_text.specs.declared.fault.TextFault.{TextFault as Fault};
ghost use Rattle.wc_read_text.specs.declared.fault.TextFault.TheVariants.{Memory};
ghost use Rattle.wc_read_text.specs.Standard.Texts.{Txt};
ghost use Rattle.wc_read_text.specs.Standard.Faults.{FirstFault, IsFault};

use crate::fault::TextFault;
use crate::place::byte_of;
use std::alloc::Global;
use wc_ast::Module;
use wc_declare::NameFault;
use wc_parse::{TextRefusal, parse_text};
use wc_resolve::resolve;
use wc_surface::Surface;

/// The fields that the text says, or its first fault.
fn parsed<'a>(alloc: Global, text: &'a [u8]) -> Result<Surface<'a>, TextFault>
    ensures ok { IfOk result (λ surface. SaysText text.now surface) }
    ensures fault { IfErr result (IsFault text.now) }
{
    match parse_text(alloc, text) {
        Ok(surface) => Ok(surface),
        Err(TextRefusal::Lex(stop)) => Err(TextFault::Lex {
            at: stop.at,
            why: stop.why,
        }),
        Err(TextRefusal::Syntax { token, why }) => Err(TextFault::Syntax {
            token,
            at: byte_of(text, token),
            why,
        }),
        Err(TextRefusal::Memory) => Err(TextFault::Memory),
    }
}

/// The module that the fields of the text denote, or the first fault of their names.
fn named(alloc: Global, text: &[u8], surface: &Surface<'_>) -> Result<Module, TextFault>
    ensures ok { IfOk result (λ m. SaysText text.now surface.now → Txt text.now m) }
    ensures fault { IfErr result (λ fault. SaysText text.now surface.now → IsFault text.now fault) }
{
    match resolve(alloc, surface) {
        Ok(module) => Ok(module),
        Err(NameFault::Bad { token, why }) => Err(TextFault::Names {
            token,
            at: byte_of(text, token),
            why,
        }),
        Err(NameFault::Memory) => Err(TextFault::Memory),
    }
}

/// The module, or the first fault.
fn module_or_fault(alloc: Global, text: &[u8]) -> Result<Module, TextFault>
    ensures ok { IfOk result (Txt text.now) }
    ensures fault { IfErr result (IsFault text.now) }
{
    let surface = parsed(alloc, text)?;
    named(alloc, text, &surface)
}

/// The module that a text denotes (Core 1.0, chapter 6), or else the one first fault of the text: of its length, its
/// encoding and its tokens; else of its grammar; else of its names.
///
/// # Errors
/// `TextFault::Lex` where the text isn't made of white space, comments and tokens, and else `TextFault::Syntax` where
/// the grammar has no such text, and else `TextFault::Names`. Exactly these texts are refused;
/// `TextFault::Memory` comes only where a growth of memory was refused.
pub fn read(alloc: Global, text: &[u8]) -> Result<Module, TextFault>
    ensures ok { IfOk result (Txt text.now) }
    ensures fault { IfErr result (IsFault text.now) }

    // So the answer is this module exactly where the text denotes it, and this fault exactly where it is the first.
    ensures only { (m : ModuleValue) → Txt text.now m
        → MatchResult result (λ found. found ≡ m) (λ f. f ≡ Memory) }
    ensures only_fault { (fault : Fault) → FirstFault text.now fault
        → IsErrAnd result (λ f. (f ≡ fault) ⊎ (f ≡ Memory)) }
{
    module_or_fault(alloc, text)
}
