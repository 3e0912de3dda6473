//! The table section (Core 1.0, 5.5.7).

ghost use Rattle.std.specs.Prelude.{ℕ, length};
ghost use Rattle.wc_body.specs.Standard.ValueBytes.{vector_bytes, FitsVector};
ghost use Rattle.wc_binary.specs.Writing.Values.{table_type_bytes, section_bytes, FitsLimits, FitsSection};
ghost use Rattle.wc_binary.specs.Standard.Sections.{section_id};
ghost use Rattle.wc_binary.specs.Writing.Writes.{Writes, Measures, MeasuresWithin, section_limit};

use crate::encoder::section::{headed_size, write_head};
use crate::encoder::types::{table_type_size, write_table_type};
use crate::encoder::value::{length_size, write_length};
use crate::fault::EncFault;
use crate::section::SectionKind;
use wc_ast::Limits;

/// How many bytes the count and the types take.
fn table_types_size(tables: &[Limits]) -> Option<usize>
    ensures { Measures (FitsVector FitsLimits tables.now) (length (vector_bytes table_type_bytes tables.now)) result }
{
    let count = length_size(tables.len())?;
    let mut size = count;
    for table in tables {
        size = size.saturating_add(table_type_size(table)?);
    }
    Some(size)
}

fn write_table_types(out: &mut Vec<u8>, tables: &[Limits]) -> Result<(), EncFault>
    ensures { Writes (FitsVector FitsLimits tables.now) out.old.items out.new.items
        (vector_bytes table_type_bytes tables.now) result }
{
    write_length(out, tables.len())?;
    for table in tables {
        write_table_type(out, table)?;
    }
    Ok(())
}

/// How many bytes the table section takes, whatever its id.
pub fn table_section_size(tables: &[Limits]) -> Option<usize>
    ensures { (id : ℕ) → MeasuresWithin section_limit (FitsSection table_type_bytes FitsLimits tables.now)
        (length (section_bytes id table_type_bytes tables.now)) result }
{
    if tables.is_empty() {
        return Some(0);
    }
    headed_size(table_types_size(tables)?)
}

/// Writes the table section, unless there is no table.
pub fn write_table_section(out: &mut Vec<u8>, tables: &[Limits]) -> Result<(), EncFault>
    ensures { Writes (FitsSection table_type_bytes FitsLimits tables.now) out.old.items out.new.items
        (section_bytes (section_id SectionKind.Table) table_type_bytes tables.now) result }
{
    if tables.is_empty() {
        return Ok(());
    }
    let Some(size) = table_types_size(tables) else {
        return Err(EncFault::Oversize);
    };
    write_head(out, SectionKind::Table, size)?;
    write_table_types(out, tables)
}
