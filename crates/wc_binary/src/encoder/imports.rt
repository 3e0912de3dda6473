//! The import section (Core 1.0, 5.5.5).

ghost use Rattle.std.specs.Prelude.{ℕ, length};
ghost use Rattle.wc_body.specs.Standard.ValueBytes.{vector_bytes, FitsVector};
ghost use Rattle.wc_binary.specs.Writing.Values.{section_bytes, FitsSection, import_bytes, FitsImport};
ghost use Rattle.wc_binary.specs.Standard.Sections.{section_id};
ghost use Rattle.wc_binary.specs.Writing.Writes.{Writes, Measures, MeasuresWithin, section_limit};

use crate::encoder::measured::Measured;
use crate::encoder::section::{headed_size, write_head};
use crate::encoder::value::{length_size, write_length};
use crate::fault::EncFault;
use crate::section::SectionKind;
use wc_ast::Imports;

/// How many bytes the count and the imports take.
fn imports_size(imports: &Imports) -> Option<usize>
    ensures { Measures (FitsVector FitsImport imports.now) (length (vector_bytes import_bytes imports.now)) result }
{
    let count = length_size(imports.len())?;
    let mut size = count;
    for import in imports.iter() {
        size = size.saturating_add(import.size()?);
    }
    Some(size)
}

fn write_imports(out: &mut Vec<u8>, imports: &Imports) -> Result<(), EncFault>
    ensures { Writes (FitsVector FitsImport imports.now) out.old.items out.new.items
        (vector_bytes import_bytes imports.now) result }
{
    write_length(out, imports.len())?;
    for import in imports.iter() {
        import.write(out)?;
    }
    Ok(())
}

/// How many bytes the import section takes, whatever its id.
pub fn import_section_size(imports: &Imports) -> Option<usize>
    ensures { (id : ℕ) → MeasuresWithin section_limit (FitsSection import_bytes FitsImport imports.now)
        (length (section_bytes id import_bytes imports.now)) result }
{
    if imports.len() == 0 {
        return Some(0);
    }
    headed_size(imports_size(imports)?)
}

/// Writes the import section, unless there is no import.
pub fn write_import_section(out: &mut Vec<u8>, imports: &Imports) -> Result<(), EncFault>
    ensures { Writes (FitsSection import_bytes FitsImport imports.now) out.old.items out.new.items
        (section_bytes (section_id SectionKind.Import) import_bytes imports.now) result }
{
    if imports.len() == 0 {
        return Ok(());
    }
    let Some(size) = imports_size(imports) else {
        return Err(EncFault::Oversize);
    };
    write_head(out, SectionKind::Import, size)?;
    write_imports(out, imports)
}
