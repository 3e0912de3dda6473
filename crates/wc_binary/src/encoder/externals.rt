//! Imports and exports (Core 1.0, 5.5.5 and 5.5.10), where they stand in a row.

ghost use Rattle.std.specs.Prelude.{◌≡◌, ◌∷◌, [], length};
ghost use Rattle.wc_binary.specs.Writing.Values.{name_bytes, kind_bytes, desc_bytes};
ghost use Rattle.wc_binary.specs.Writing.Values.{import_bytes, export_bytes, FitsName};
ghost use Rattle.wc_binary.specs.Writing.Values.{FitsDesc, FitsImport, FitsExport};
ghost use Rattle.wc_binary.specs.Writing.Writes.{Writes, Measures};

use crate::encoder::measured::Measured;
use crate::encoder::types::{table_type_size, write_table_type};
use crate::encoder::value::{sized_size, u32_size, write_length, write_u32};
use crate::fault::EncFault;
use wc_ast::{Desc, ExportKind, ExportRef, ImportRef};

/// How many bytes a name takes.
#[inline(always)]
fn name_size(name: &str) -> Option<usize>
    ensures { Measures (FitsName name.now) (length (name_bytes name.now)) result }
{
    sized_size(name.as_bytes().len())
}

/// Writes a name.
#[inline(always)]
fn write_name(out: &mut Vec<u8>, name: &str) -> Result<(), EncFault>
    ensures { Writes (FitsName name.now) out.old.items out.new.items (name_bytes name.now) result }
{
    let bytes = name.as_bytes();
    write_length(out, bytes.len())?;
    out.extend_from_slice(bytes)?;
    Ok(())
}

impl Measured for Desc {
    ghost bytes = { desc_bytes };

    ghost Fits = { FitsDesc };

    fn size(&self) -> Option<usize> {
        let size = match self {
            Desc::Func(index) => u32_size(*index),
            Desc::Table(limits) => table_type_size(limits)?,
            Desc::Memory(limits) => limits.size()?,
            Desc::Global(ty) => ty.size()?,
        };
        Some(size.saturating_add(1))
    }

    fn write(&self, out: &mut Vec<u8>) -> Result<(), EncFault> {
        match self {
            Desc::Func(index) => {
                out.push(0)?;
                write_u32(out, *index)?;
                Ok(())
            }
            Desc::Table(limits) => {
                out.push(1)?;
                write_table_type(out, limits)
            }
            Desc::Memory(limits) => {
                out.push(2)?;
                limits.write(out)
            }
            Desc::Global(ty) => {
                out.push(3)?;
                ty.write(out)
            }
        }
    }
}

impl<'a> Measured for ImportRef<'a> {
    ghost bytes = { import_bytes };

    ghost Fits = { FitsImport };

    fn size(&self) -> Option<usize> {
        let names = name_size(self.module())?.saturating_add(name_size(self.name())?);
        Some(names.saturating_add(self.desc().size()?))
    }

    fn write(&self, out: &mut Vec<u8>) -> Result<(), EncFault> {
        write_name(out, self.module())?;
        write_name(out, self.name())?;
        self.desc().write(out)
    }
}

fn kind_byte(kind: ExportKind) -> u8
    ensures { kind_bytes kind ≡ result ∷ [] }
{
    match kind {
        ExportKind::Func => 0,
        ExportKind::Table => 1,
        ExportKind::Memory => 2,
        ExportKind::Global => 3,
    }
}

impl<'a> Measured for ExportRef<'a> {
    ghost bytes = { export_bytes };

    ghost Fits = { FitsExport };

    fn size(&self) -> Option<usize> {
        let behind = u32_size(self.index()).saturating_add(1);
        Some(name_size(self.name())?.saturating_add(behind))
    }

    fn write(&self, out: &mut Vec<u8>) -> Result<(), EncFault> {
        write_name(out, self.name())?;
        out.push(kind_byte(self.kind()))?;
        write_u32(out, self.index())?;
        Ok(())
    }
}
