//! Imports and exports (Core 1.0, 5.5.5 and 5.5.10).

ghost use Rattle.std.specs.Prelude.{◌≡◌, IfOk, OnErr, IfSome};
ghost use Rattle.wc_binary.specs.Standard.Externals.{kind_of, kind as kind_phrase, desc as desc_phrase};
ghost use Rattle.wc_binary.specs.Standard.Externals.{import as import_phrase, export as export_phrase};
ghost use Rattle.wc_binary.specs.Standard.Values.{times as times_phrase, vector as vector_phrase};
ghost use Rattle.wc_binary.specs.Reading.Source.{Gives};
ghost use Rattle.wc_binary.specs.Reading.NextItem.{AddsFirst, AddsItem, BeginsWith, TakesItem};

use crate::decoder::byte::{ByteTable, byte};
use crate::decoder::from_source::FromSource;
use crate::decoder::front::{name_front, u32_front};
use crate::decoder::integer::u32;
use crate::decoder::types::{global_type, table_type};
use crate::fault::{BinFault, BinWhy};
use crate::source::Source;
use std::alloc::{AllocError, Global};
use wc_ast::{Desc, ExportKind, Exports, Imports, Limits, Name};
use wc_device::BUFFER_SIZE;

impl ByteTable for ExportKind {
    ghost table = { kind_of };

    fn of_byte(byte: u8) -> Result<ExportKind, BinWhy> {
        match byte {
            0 => Ok(ExportKind::Func),
            1 => Ok(ExportKind::Table),
            2 => Ok(ExportKind::Memory),
            3 => Ok(ExportKind::Global),
            _ => Err(BinWhy::Tag),
        }
    }
}

#[tactic(auto, unfolding(crate::specs::Standard::Externals::kind))]
fn kind<S: Source>(source: &mut S) -> Result<ExportKind, BinFault>
    ensures { Gives kind_phrase (S.input source.old) (S.input source.new) result }
{
    byte(source)
}

#[tactic(auto, unfolding(crate::specs::Standard::Externals::desc))]
fn desc<S: Source>(alloc: Global, source: &mut S) -> Result<Desc, BinFault>
    ensures { Gives desc_phrase (S.input source.old) (S.input source.new) result }
{
    match kind(source)? {
        ExportKind::Func => Ok(Desc::Func(u32(source)?)),
        ExportKind::Table => Ok(Desc::Table(table_type(alloc, source)?)),
        ExportKind::Memory => Ok(Desc::Memory(Limits::read(alloc, source)?)),
        ExportKind::Global => Ok(Desc::Global(global_type(alloc, source)?)),
    }
}

/// The index space that these bytes begin with, and what follows it.
#[inline(always)]
fn kind_front(bytes: &[u8]) -> Option<(ExportKind, &[u8])>
    ensures { IfSome result (λ found. BeginsWith kind_phrase bytes.now found.0 found.1.now) }
{
    let (byte, behind) = bytes.split_first()?;
    match ExportKind::of_byte(*byte) {
        Ok(kind) => Some((kind, behind)),
        Err(_) => None,
    }
}

/// The index that these bytes tell of an imported function, and what follows it.
#[inline(always)]
fn func_front(bytes: &[u8]) -> Option<(u32, &[u8])>
    ensures { IfSome result (λ found. BeginsWith desc_phrase bytes.now (Desc.Func found.0) found.1.now) }
{
    let (kind, behind) = bytes.split_first()?;
    if *kind != 0 {
        return None;
    }
    u32_front(behind)
}

/// Adds the import that these bytes begin with, where it is of a function. Answers how many bytes it has, or none where
/// it wasn't added.
fn push_import(imports: &mut Imports, bytes: &[u8]) -> Result<Option<usize>, AllocError>
    ensures ok { IfOk result (AddsFirst import_phrase imports.old imports.new bytes.now) }
    ensures err { OnErr result (imports.new ≡ imports.old) }
{
    let Some((module, behind)) = name_front(bytes) else {
        return Ok(None);
    };
    let Some((name, behind)) = name_front(behind) else {
        return Ok(None);
    };
    let Some((index, behind)) = func_front(behind) else {
        return Ok(None);
    };
    imports.push(module, name, Desc::Func(index))?;
    Ok(Some(bytes.len() - behind.len()))
}

/// Adds the import that lies ahead whole, where it is of a function, and answers whether it was added. Else nothing was
/// taken.
#[inline(always)]
fn import_ahead<S: Source>(imports: &mut Imports, source: &mut S) -> Result<bool, BinFault>
    ensures { TakesItem import_phrase imports.old imports.new (S.input source.old) (S.input source.new) result }
{
    let Some(count) = push_import(imports, source.front(BUFFER_SIZE))? else {
        return Ok(false);
    };
    source.pass(count as u64);
    Ok(true)
}

/// Reads an import part by part, and puts it behind the others.
#[tactic(auto, unfolding(crate::specs::Standard::Externals::import))]
fn read_import<S: Source>(
    alloc: Global,
    imports: &mut Imports,
    source: &mut S,
) -> Result<(), BinFault>
    ensures { AddsItem import_phrase imports.old imports.new (S.input source.old) (S.input source.new) result }
{
    let module = Name::read(alloc, source)?;
    let name = Name::read(alloc, source)?;
    let desc = desc(alloc, source)?;
    imports.push(module.as_str(), name.as_str(), desc)?;
    Ok(())
}

/// Reads an import, and puts it behind the others: at once, where it lies ahead.
fn next_import<S: Source>(
    alloc: Global,
    imports: &mut Imports,
    source: &mut S,
) -> Result<(), BinFault>
    ensures { AddsItem import_phrase imports.old imports.new (S.input source.old) (S.input source.new) result }
{
    if import_ahead(imports, source)? {
        return Ok(());
    }
    read_import(alloc, imports, source)
}

/// So many imports, one behind the other.
fn imports<S: Source>(alloc: Global, count: u32, source: &mut S) -> Result<Imports, BinFault>
    ensures { Gives (times_phrase count import_phrase) (S.input source.old) (S.input source.new) result }
{
    let mut imports = Imports::new(alloc);
    for _ in 0..count {
        next_import(alloc, &mut imports, source)?;
    }
    Ok(imports)
}

impl FromSource for Imports {
    ghost phrase = { vector_phrase import_phrase };

    #[tactic(auto, unfolding(crate::specs::Standard::Values::vector))]
    fn read<S: Source>(alloc: Global, source: &mut S) -> Result<Imports, BinFault> {
        let count = u32(source)?;
        imports(alloc, count, source)
    }
}

/// Adds the export that these bytes begin with. Answers how many bytes it has, or none where it wasn't added.
fn push_export(exports: &mut Exports, bytes: &[u8]) -> Result<Option<usize>, AllocError>
    ensures ok { IfOk result (AddsFirst export_phrase exports.old exports.new bytes.now) }
    ensures err { OnErr result (exports.new ≡ exports.old) }
{
    let Some((name, behind)) = name_front(bytes) else {
        return Ok(None);
    };
    let Some((kind, behind)) = kind_front(behind) else {
        return Ok(None);
    };
    let Some((index, behind)) = u32_front(behind) else {
        return Ok(None);
    };
    exports.push(name, kind, index)?;
    Ok(Some(bytes.len() - behind.len()))
}

/// Adds the export that lies ahead whole, and answers whether it was added. Else nothing was taken.
#[inline(always)]
fn export_ahead<S: Source>(exports: &mut Exports, source: &mut S) -> Result<bool, BinFault>
    ensures { TakesItem export_phrase exports.old exports.new (S.input source.old) (S.input source.new) result }
{
    let Some(count) = push_export(exports, source.front(BUFFER_SIZE))? else {
        return Ok(false);
    };
    source.pass(count as u64);
    Ok(true)
}

/// Reads an export part by part, and puts it behind the others.
#[tactic(auto, unfolding(crate::specs::Standard::Externals::export))]
fn read_export<S: Source>(
    alloc: Global,
    exports: &mut Exports,
    source: &mut S,
) -> Result<(), BinFault>
    ensures { AddsItem export_phrase exports.old exports.new (S.input source.old) (S.input source.new) result }
{
    let name = Name::read(alloc, source)?;
    let kind = kind(source)?;
    let index = u32(source)?;
    exports.push(name.as_str(), kind, index)?;
    Ok(())
}

/// Reads an export, and puts it behind the others: at once, where it lies ahead.
fn next_export<S: Source>(
    alloc: Global,
    exports: &mut Exports,
    source: &mut S,
) -> Result<(), BinFault>
    ensures { AddsItem export_phrase exports.old exports.new (S.input source.old) (S.input source.new) result }
{
    if export_ahead(exports, source)? {
        return Ok(());
    }
    read_export(alloc, exports, source)
}

/// So many exports, one behind the other.
fn exports<S: Source>(alloc: Global, count: u32, source: &mut S) -> Result<Exports, BinFault>
    ensures { Gives (times_phrase count export_phrase) (S.input source.old) (S.input source.new) result }
{
    let mut exports = Exports::new(alloc);
    for _ in 0..count {
        next_export(alloc, &mut exports, source)?;
    }
    Ok(exports)
}

impl FromSource for Exports {
    ghost phrase = { vector_phrase export_phrase };

    #[tactic(auto, unfolding(crate::specs::Standard::Values::vector))]
    fn read<S: Source>(alloc: Global, source: &mut S) -> Result<Exports, BinFault> {
        let count = u32(source)?;
        exports(alloc, count, source)
    }
}
