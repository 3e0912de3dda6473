//! Whole modules (Core 1.0, 5.5.15).

ghost use Rattle.std.specs.Prelude.{◌≡◌};
ghost use Rattle.wc_binary.specs.Standard.Values.{exactly as exactly_phrase};
ghost use Rattle.wc_binary.specs.Standard.Module.{preamble as preamble_phrase};
ghost use Rattle.wc_binary.specs.Reading.Source.{Gives};
ghost use Rattle.wc_binary.specs.Reading.Modules.{SectionsGive, ModuleGives};

use crate::decoder::byte::only;
use crate::decoder::section::{content, put, section_kind};
use crate::fault::{BinFault, BinWhy, bad};
use crate::parts::Parts;
use crate::source::Source;
use std::alloc::Global;
use wc_ast::Module;

/// These bytes and no others.
fn exactly<S: Source>(bytes: &[u8], why: BinWhy, source: &mut S) -> Result<(), BinFault>
    ensures { Gives (exactly_phrase bytes.now why) (S.input source.old) (S.input source.new) result }
{
    for b in bytes {
        only(*b, why, source)?;
    }
    Ok(())
}

#[tactic(auto, unfolding(crate::specs::Standard::Module::preamble))]
fn preamble<S: Source>(source: &mut S) -> Result<(), BinFault>
    ensures { Gives preamble_phrase (S.input source.old) (S.input source.new) result }
{
    exactly(&[0x00, 0x61, 0x73, 0x6d], BinWhy::Magic, source)?;
    exactly(&[0x01, 0x00, 0x00, 0x00], BinWhy::Version, source)
}

/// Sections to the end of the input.
fn sections<S: Source>(alloc: Global, source: &mut S) -> Result<Parts, BinFault>
    ensures { SectionsGive (S.input source.old) (S.input source.new) result }
{
    let mut parts = Parts::new(alloc);
    let mut last = 0;
    loop {
        let at = source.place();
        let byte = match source.next()? {
            None => return Ok(parts),
            Some(byte) => byte,
        };
        let kind = match section_kind(last, byte) {
            Ok(kind) => kind,
            Err(why) => return Err(bad(at, why)),
        };
        let section = content(alloc, kind, source)?;
        last = last.max(section.kind().id());
        put(&mut parts, section);
    }
}

/// A module, to the end of the input.
pub fn whole_module<S: Source>(alloc: Global, source: &mut S) -> Result<Module, BinFault>
    requires { (S.input source.old).place ≡ 0 }
    ensures { ModuleGives (S.input source.old) (S.input source.new) result }
{
    preamble(source)?;
    let parts = sections(alloc, source)?;
    if parts.func_types.len() != parts.codes.len() {
        return Err(BinFault::Bad {
            at: source.place(),
            why: BinWhy::Counts,
        });
    }
    Ok(parts.into_module())
}
