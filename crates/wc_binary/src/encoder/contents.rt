//! Globals and segments (Core 1.0, 5.5.9, 5.5.12 and 5.5.14).

ghost use Rattle.wc_binary.specs.Writing.Contents.{global_bytes, elem_bytes, data_bytes};
ghost use Rattle.wc_binary.specs.Writing.Contents.{FitsGlobal, FitsElem, FitsData};

use crate::byte_range::are_bytes;
use crate::encoder::measured::{Measured, vector_size, write_vector};
use crate::encoder::value::{sized_size, u32_size, write_length, write_u32};
use crate::fault::EncFault;
use wc_ast::{Data, Elem, Global};

impl Measured for Global {
    ghost bytes = { global_bytes };

    ghost Fits = { FitsGlobal };

    fn size(&self) -> Option<usize> {
        let head = self.ty.size()?;
        Some(head.saturating_add(self.init.size()?))
    }

    fn write(&self, out: &mut Vec<u8>) -> Result<(), EncFault> {
        self.ty.write(out)?;
        self.init.write(out)
    }
}

impl Measured for Elem {
    ghost bytes = { elem_bytes };

    ghost Fits = { FitsElem };

    fn size(&self) -> Option<usize> {
        let head = u32_size(self.table).saturating_add(self.offset.size()?);
        Some(head.saturating_add(vector_size(self.funcs.as_slice())?))
    }

    fn write(&self, out: &mut Vec<u8>) -> Result<(), EncFault> {
        write_u32(out, self.table)?;
        self.offset.write(out)?;
        write_vector(out, self.funcs.as_slice())
    }
}

impl Measured for Data {
    ghost bytes = { data_bytes };

    ghost Fits = { FitsData };

    fn size(&self) -> Option<usize> {
        let head = u32_size(self.memory).saturating_add(self.offset.size()?);
        let bytes = self.bytes.as_slice();
        are_bytes(bytes);
        Some(head.saturating_add(sized_size(bytes.len())?))
    }

    fn write(&self, out: &mut Vec<u8>) -> Result<(), EncFault> {
        write_u32(out, self.memory)?;
        self.offset.write(out)?;
        let bytes = self.bytes.as_slice();
        are_bytes(bytes);
        write_length(out, bytes.len())?;
        out.extend_from_slice(bytes)?;
        Ok(())
    }
}
