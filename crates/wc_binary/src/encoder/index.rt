//! Vectors of indices (Core 1.0, 5.5.1).

ghost use Rattle.wc_leb128.specs.Writing.Bytes.{unsigned_bytes};
ghost use Rattle.wc_body.specs.Standard.ValueBytes.{Fits32};

use crate::encoder::measured::Measured;
use crate::encoder::value::{u32_size, write_u32};
use crate::fault::EncFault;

impl Measured for u32 {
    ghost bytes = { unsigned_bytes };

    ghost Fits = { Fits32 };

    fn size(&self) -> Option<usize> {
        Some(u32_size(*self))
    }

    fn write(&self, out: &mut Vec<u8>) -> Result<(), EncFault> {
        write_u32(out, *self)?;
        Ok(())
    }
}
