//! Types (Core 1.0, 5.3).

ghost use Rattle.std.specs.Prelude.{ℕ, length};
ghost use Rattle.wc_body.specs.Standard.ValueBytes.{value_type_bytes, vector_bytes, FitsVector};
ghost use Rattle.wc_binary.specs.Writing.Values.{func_type_bytes, limits_bytes, table_type_bytes, global_type_bytes};
ghost use Rattle.wc_binary.specs.Writing.Values.{Anything, FitsFuncType, FitsLimits};
ghost use Rattle.wc_binary.specs.Writing.Writes.{Writes, Measures};

use crate::encoder::measured::{Measured, vector_size, write_vector};
use crate::encoder::value::{u32_size, write_u32};
use crate::fault::EncFault;
use wc_ast::{FuncType, GlobalType, Limits, ValType};

impl Measured for ValType {
    ghost bytes = { value_type_bytes };

    ghost Fits = { Anything };

    fn size(&self) -> Option<usize> {
        Some(1)
    }

    fn write(&self, out: &mut Vec<u8>) -> Result<(), EncFault> {
        out.push(self.byte())?;
        Ok(())
    }
}

impl Measured for FuncType {
    ghost bytes = { func_type_bytes };

    ghost Fits = { FitsFuncType };

    fn size(&self) -> Option<usize> {
        let params = vector_size(self.params.as_slice())?;
        let results = vector_size(self.results.as_slice())?;
        Some(params.saturating_add(results).saturating_add(1))
    }

    fn write(&self, out: &mut Vec<u8>) -> Result<(), EncFault> {
        out.push(0x60)?;
        write_vector(out, self.params.as_slice())?;
        write_vector(out, self.results.as_slice())
    }
}

impl Measured for Limits {
    ghost bytes = { limits_bytes };

    ghost Fits = { FitsLimits };

    fn size(&self) -> Option<usize> {
        let least = u32_size(self.min).saturating_add(1);
        match self.max {
            None => Some(least),
            Some(max) => Some(least.saturating_add(u32_size(max))),
        }
    }

    fn write(&self, out: &mut Vec<u8>) -> Result<(), EncFault> {
        match self.max {
            None => {
                out.push(0)?;
                write_u32(out, self.min)?;
            }
            Some(max) => {
                out.push(1)?;
                write_u32(out, self.min)?;
                write_u32(out, max)?;
            }
        }
        Ok(())
    }
}

impl Measured for GlobalType {
    ghost bytes = { global_type_bytes };

    ghost Fits = { Anything };

    fn size(&self) -> Option<usize> {
        Some(2)
    }

    fn write(&self, out: &mut Vec<u8>) -> Result<(), EncFault> {
        self.ty.write(out)?;
        out.push(u8::from(self.mutable))?;
        Ok(())
    }
}

/// How many bytes a table type takes.
pub fn table_type_size(limits: &Limits) -> Option<usize>
    ensures { Measures (FitsLimits limits.now) (length (table_type_bytes limits.now)) result }
{
    Some(limits.size()?.saturating_add(1))
}

/// Writes a table type.
pub fn write_table_type(out: &mut Vec<u8>, limits: &Limits) -> Result<(), EncFault>
    ensures { Writes (FitsLimits limits.now) out.old.items out.new.items (table_type_bytes limits.now) result }
{
    out.push(0x70)?;
    limits.write(out)
}
