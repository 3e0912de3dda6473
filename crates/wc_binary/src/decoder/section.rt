//! Sections (Core 1.0, 5.5.2 to 5.5.14).

ghost use Rattle.std.specs.Prelude.{◌≡◌};
ghost use Rattle.wc_binary.specs.Standard.Sections.{skip as skip_phrase, custom as custom_phrase};
ghost use Rattle.wc_binary.specs.Standard.Sections.{start as start_phrase};
ghost use Rattle.wc_binary.specs.Standard.Sections.{content as content_phrase, id_of, put as put_in};
ghost use Rattle.wc_binary.specs.Standard.Values.{sized as sized_phrase};
ghost use Rattle.wc_binary.specs.Reading.Source.{Gives};

use crate::decoder::byte::any_byte;
use crate::decoder::from_source::FromSource;
use crate::decoder::integer::u32;
use crate::fault::{BinFault, BinWhy, bad};
use crate::parts::Parts;
use crate::section::{Section, SectionKind};
use crate::source::Source;
use std::alloc::Global;
use wc_ast::Name;

/// The section that a byte begins, where the last one that isn't custom has the id `last`.
pub fn section_kind(last: u8, byte: u8) -> Result<SectionKind, BinWhy>
    ensures { result ≡ id_of last byte }
{
    match SectionKind::of_id(byte) {
        None => Err(BinWhy::SectionId),
        Some(kind) => {
            if byte == 0 || last < byte {
                Ok(kind)
            } else {
                Err(BinWhy::SectionOrder)
            }
        }
    }
}

/// So many bytes, which are dropped.
fn skip<S: Source>(count: u64, source: &mut S) -> Result<(), BinFault>
    ensures { Gives (skip_phrase count) (S.input source.old) (S.input source.new) result }
{
    let mut left = count;
    while left > 0 {
        let _byte = any_byte(source)?;
        left -= 1;
        left -= source.pass(left);
    }
    Ok(())
}

/// A value behind its size. The size is judged once the value was read.
#[tactic(auto, unfolding(crate::specs::Standard::Values::sized))]
fn sized<V: FromSource + Drop, S: Source>(
    alloc: Global,
    why: BinWhy,
    source: &mut S,
) -> Result<V, BinFault>
    ensures { Gives (sized_phrase why V.phrase) (S.input source.old) (S.input source.new) result }
{
    let at = source.place();
    let size = u32(source)?;
    let start = source.place();
    let value = V::read(alloc, source)?;
    if source.place() - start != size as u64 {
        return Err(bad(at, why));
    }
    Ok(value)
}

/// A custom section behind its id. Its name is judged; then the rest of its size is dropped.
#[tactic(auto, unfolding(crate::specs::Standard::Sections::custom))]
fn custom<S: Source>(alloc: Global, source: &mut S) -> Result<(), BinFault>
    ensures { Gives custom_phrase (S.input source.old) (S.input source.new) result }
{
    let at = source.place();
    let size = u32(source)? as u64;
    let start = source.place();
    let _name = Name::read(alloc, source)?;
    let used = source.place() - start;
    if size < used {
        return Err(bad(at, BinWhy::SectionSize));
    }
    skip(size - used, source)
}

impl FromSource for Option<u32> {
    ghost phrase = { start_phrase };

    /// The index of the start function.
    #[tactic(auto, unfolding(crate::specs::Standard::Sections::start))]
    fn read<S: Source>(_alloc: Global, source: &mut S) -> Result<Option<u32>, BinFault> {
        Ok(Some(u32(source)?))
    }
}

/// What stands behind the id of a section.
#[tactic(auto, unfolding(crate::specs::Standard::Sections::content, crate::specs::Standard::Sections::behind_id))]
pub fn content<S: Source>(
    alloc: Global,
    kind: SectionKind,
    source: &mut S,
) -> Result<Section, BinFault>
    ensures { Gives (content_phrase kind) (S.input source.old) (S.input source.new) result }
{
    let why = BinWhy::SectionSize;
    match kind {
        SectionKind::Custom => {
            custom(alloc, source)?;
            Ok(Section::Custom)
        }
        SectionKind::Type => Ok(Section::Types(sized(alloc, why, source)?)),
        SectionKind::Import => Ok(Section::Imports(sized(alloc, why, source)?)),
        SectionKind::Function => Ok(Section::FuncTypes(sized(alloc, why, source)?)),
        SectionKind::Table => Ok(Section::Tables(sized(alloc, why, source)?)),
        SectionKind::Memory => Ok(Section::Mems(sized(alloc, why, source)?)),
        SectionKind::Global => Ok(Section::Globals(sized(alloc, why, source)?)),
        SectionKind::Export => Ok(Section::Exports(sized(alloc, why, source)?)),
        SectionKind::Start => Ok(Section::Start(sized(alloc, why, source)?)),
        SectionKind::Element => Ok(Section::Elems(sized(alloc, why, source)?)),
        SectionKind::Code => Ok(Section::Codes(sized(alloc, why, source)?)),
        SectionKind::Data => Ok(Section::Datas(sized(alloc, why, source)?)),
    }
}

/// Puts what a section holds in its place.
pub fn put(target: &mut Parts, section: Section)
    ensures { target.new ≡ put_in target.old section }
{
    match section {
        Section::Custom => {}
        Section::Types(types) => target.types = types,
        Section::Imports(imports) => target.imports = imports,
        Section::FuncTypes(func_types) => target.func_types = func_types,
        Section::Tables(tables) => target.tables = tables.into_limits(),
        Section::Mems(mems) => target.mems = mems,
        Section::Globals(globals) => target.globals = globals,
        Section::Exports(exports) => target.exports = exports,
        Section::Start(start) => target.start = start,
        Section::Elems(elems) => target.elems = elems,
        Section::Codes(codes) => target.codes = codes,
        Section::Datas(datas) => target.datas = datas,
    }
}
