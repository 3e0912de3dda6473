//! Expressions (Core 1.0, 5.4.6).

ghost use Rattle.wc_body.specs.Standard.InstructionBytes.{expr_bytes, FitsExpr};

use crate::encoder::measured::Measured;
use crate::fault::EncFault;
use wc_ast::{BodyRef, Constant};

impl<'a> Measured for BodyRef<'a> {
    ghost bytes = { expr_bytes };

    ghost Fits = { FitsExpr };

    /// How many bytes the instructions take, and the byte that ends them.
    fn size(&self) -> Option<usize> {
        Some(self.bytes().len() + 1)
    }

    /// Writes the instructions, and the byte that ends them.
    fn write(&self, out: &mut Vec<u8>) -> Result<(), EncFault> {
        out.extend_from_slice(self.bytes())?;
        out.push(0x0b)?;
        Ok(())
    }
}

impl Measured for Constant {
    ghost bytes = { expr_bytes };

    ghost Fits = { FitsExpr };

    fn size(&self) -> Option<usize> {
        Some(self.bytes().len() + 1)
    }

    fn write(&self, out: &mut Vec<u8>) -> Result<(), EncFault> {
        out.extend_from_slice(self.bytes())?;
        out.push(0x0b)?;
        Ok(())
    }
}
