//! The export section (Core 1.0, 5.5.10).

ghost use Rattle.std.specs.Prelude.{ℕ, length};
ghost use Rattle.wc_body.specs.Standard.ValueBytes.{vector_bytes, FitsVector};
ghost use Rattle.wc_binary.specs.Writing.Values.{section_bytes, FitsSection, export_bytes, FitsExport};
ghost use Rattle.wc_binary.specs.Standard.Sections.{section_id};
ghost use Rattle.wc_binary.specs.Writing.Writes.{Writes, Measures, MeasuresWithin, section_limit};

use crate::encoder::measured::Measured;
use crate::encoder::section::{headed_size, write_head};
use crate::encoder::value::{length_size, write_length};
use crate::fault::EncFault;
use crate::section::SectionKind;
use wc_ast::Exports;

/// How many bytes the count and the exports take.
fn exports_size(exports: &Exports) -> Option<usize>
    ensures { Measures (FitsVector FitsExport exports.now) (length (vector_bytes export_bytes exports.now)) result }
{
    let count = length_size(exports.len())?;
    let mut size = count;
    for export in exports.iter() {
        size = size.saturating_add(export.size()?);
    }
    Some(size)
}

fn write_exports(out: &mut Vec<u8>, exports: &Exports) -> Result<(), EncFault>
    ensures { Writes (FitsVector FitsExport exports.now) out.old.items out.new.items
        (vector_bytes export_bytes exports.now) result }
{
    write_length(out, exports.len())?;
    for export in exports.iter() {
        export.write(out)?;
    }
    Ok(())
}

/// How many bytes the export section takes, whatever its id.
pub fn export_section_size(exports: &Exports) -> Option<usize>
    ensures { (id : ℕ) → MeasuresWithin section_limit (FitsSection export_bytes FitsExport exports.now)
        (length (section_bytes id export_bytes exports.now)) result }
{
    if exports.len() == 0 {
        return Some(0);
    }
    headed_size(exports_size(exports)?)
}

/// Writes the export section, unless there is no export.
pub fn write_export_section(out: &mut Vec<u8>, exports: &Exports) -> Result<(), EncFault>
    ensures { Writes (FitsSection export_bytes FitsExport exports.now) out.old.items out.new.items
        (section_bytes (section_id SectionKind.Export) export_bytes exports.now) result }
{
    if exports.len() == 0 {
        return Ok(());
    }
    let Some(size) = exports_size(exports) else {
        return Err(EncFault::Oversize);
    };
    write_head(out, SectionKind::Export, size)?;
    write_exports(out, exports)
}
