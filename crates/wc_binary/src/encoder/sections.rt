//! The sections of a module (Core 1.0, 5.5.15).

ghost use Rattle.std.specs.Prelude.{ℕ, length};
ghost use Rattle.wc_binary.specs.Standard.Module.{parts_of};
ghost use Rattle.wc_binary.specs.Writing.Values.{start_bytes, FitsStart};
ghost use Rattle.wc_binary.specs.Writing.Sections.{sections_bytes, FitsSections};
ghost use Rattle.wc_binary.specs.Standard.Sections.{section_id};
ghost use Rattle.wc_binary.specs.Writing.Writes.{Writes, MeasuresWithin, section_limit, sections_limit};

use crate::encoder::exports::{export_section_size, write_export_section};
use crate::encoder::funcs::{code_section_size, write_code_section};
use crate::encoder::imports::{import_section_size, write_import_section};
use crate::encoder::section::{headed_size, section_size, write_head, write_section};
use crate::encoder::table_types::{table_section_size, write_table_section};
use crate::encoder::value::{u32_size, write_u32};
use crate::fault::EncFault;
use crate::section::SectionKind;
use wc_ast::Module;

/// How many bytes the start section takes, whatever its id.
fn start_section_size(start: Option<u32>) -> Option<usize>
    ensures { (id : ℕ) → MeasuresWithin section_limit (FitsStart start) (length (start_bytes id start)) result }
{
    match start {
        None => Some(0),
        Some(index) => headed_size(u32_size(index)),
    }
}

/// Writes the start section, unless there is no start function.
fn write_start_section(out: &mut Vec<u8>, start: Option<u32>) -> Result<(), EncFault>
    ensures { Writes (FitsStart start) out.old.items out.new.items
        (start_bytes (section_id SectionKind.Start) start) result }
{
    let Some(index) = start else {
        return Ok(());
    };
    write_head(out, SectionKind::Start, u32_size(index))?;
    write_u32(out, index)?;
    Ok(())
}

/// How many bytes the sections of a module take that hold something.
pub fn sections_size(m: &Module) -> Option<usize>
    ensures { MeasuresWithin sections_limit (FitsSections (parts_of m.now)) (length (sections_bytes (parts_of m.now)))
        result }
{
    let types = section_size(m.types.as_slice())?;
    let imports = import_section_size(&m.imports)?;
    let funcs = section_size(m.funcs.types())?;
    let tables = table_section_size(m.tables.as_slice())?;
    let mems = section_size(m.mems.as_slice())?;
    let globals = section_size(m.globals.as_slice())?;
    let exports = export_section_size(&m.exports)?;
    let start = start_section_size(m.start)?;
    let elems = section_size(m.elems.as_slice())?;
    let codes = code_section_size(m.funcs.codes())?;
    let datas = section_size(m.datas.as_slice())?;
    let declared = types + imports + funcs + tables + mems + globals;
    Some(declared + exports + start + elems + codes + datas)
}

/// Writes the sections of a module that hold something, in the order of their ids.
pub fn write_sections(out: &mut Vec<u8>, m: &Module) -> Result<(), EncFault>
    ensures { Writes (FitsSections (parts_of m.now)) out.old.items out.new.items
        (sections_bytes (parts_of m.now)) result }
{
    write_section(out, SectionKind::Type, m.types.as_slice())?;
    write_import_section(out, &m.imports)?;
    write_section(out, SectionKind::Function, m.funcs.types())?;
    write_table_section(out, m.tables.as_slice())?;
    write_section(out, SectionKind::Memory, m.mems.as_slice())?;
    write_section(out, SectionKind::Global, m.globals.as_slice())?;
    write_export_section(out, &m.exports)?;
    write_start_section(out, m.start)?;
    write_section(out, SectionKind::Element, m.elems.as_slice())?;
    write_code_section(out, m.funcs.codes())?;
    write_section(out, SectionKind::Data, m.datas.as_slice())
}
