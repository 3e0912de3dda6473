//! Declared locals (Core 1.0, 5.5.13).

ghost use Rattle.wc_binary.specs.Writing.Values.{Anything};
ghost use Rattle.wc_binary.specs.Writing.Locals.{group_bytes, locals_bytes, FitsLocals};

use crate::encoder::measured::{Measured, vector_size, write_vector};
use crate::encoder::value::{u32_size, write_u32};
use crate::fault::EncFault;
use wc_ast::{Group, LocalsRef};

impl Measured for Group {
    ghost bytes = { group_bytes };

    ghost Fits = { Anything };

    fn size(&self) -> Option<usize> {
        Some(u32_size(self.count).saturating_add(1))
    }

    fn write(&self, out: &mut Vec<u8>) -> Result<(), EncFault> {
        write_u32(out, self.count)?;
        self.value_type.write(out)
    }
}

impl<'a> Measured for LocalsRef<'a> {
    ghost bytes = { locals_bytes };

    ghost Fits = { FitsLocals };

    fn size(&self) -> Option<usize> {
        vector_size(self.groups())
    }

    fn write(&self, out: &mut Vec<u8>) -> Result<(), EncFault> {
        write_vector(out, self.groups())
    }
}
