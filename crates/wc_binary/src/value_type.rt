//! The bytes of value types (Core 1.0, 5.3.1).

ghost use Rattle.std.specs.Prelude.{◌≡◌};
ghost use Rattle.wc_binary.specs.Standard.Types.{value_type_of, no_type as no_type_of};

use crate::decoder::ByteTable;
use crate::fault::BinWhy;
use wc_ast::ValType;

impl ByteTable for ValType {
    ghost table = { value_type_of };

    fn of_byte(byte: u8) -> Result<ValType, BinWhy> {
        ValType::of_byte(byte).ok_or(no_type(byte))
    }
}

/// Why a byte is no value type's: those of floats are told apart.
fn no_type(byte: u8) -> BinWhy
    ensures { result ≡ no_type_of byte }
{
    match byte {
        0x7d | 0x7c => BinWhy::Float,
        _ => BinWhy::WrongType,
    }
}
