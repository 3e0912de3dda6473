//! Value types, and the byte of each.

/// A value type (Core 1.0, 2.3.1), of the integers alone.
#[derive(Clone, Copy, Debug, PartialEq, Eq)]
pub enum ValType {
    I32,
    I64,
}

impl ValType {
    ghost use Rattle.std.specs.Prelude.{◌≡◌};
    ghost use Rattle.wc_ops.specs.Standard.ValueTypes.{value_type_byte, value_type_of_byte};

    /// Its byte in the binary format (Core 1.0, 5.3.1). It takes no memory.
    #[inline(always)]
    pub fn byte(self) -> u8
        ensures { result ≡ value_type_byte self }
    {
        match self {
            ValType::I32 => 0x7f,
            ValType::I64 => 0x7e,
        }
    }

    /// The value type that has this byte (Core 1.0, 5.3.1), or none where the byte is no value type's, as those of
    /// floats. It takes no memory.
    #[inline(always)]
    pub fn of_byte(byte: u8) -> Option<ValType>
        ensures { result ≡ value_type_of_byte byte }
    {
        match byte {
            0x7f => Some(ValType::I32),
            0x7e => Some(ValType::I64),
            _ => None,
        }
    }
}
