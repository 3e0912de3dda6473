//! Why bytes are refused, and why a module is.

ghost use Rattle.std.specs.Prelude.{◌≡◌};

use std::alloc::{AllocError, AllocFailed};

/// Why bytes are no module. Each reason says which byte its place is.
#[derive(Clone, Copy, Debug, PartialEq, Eq)]
pub enum BinWhy {
    /// A byte is needed and none is left. The place is the input's length.
    End,
    /// The input doesn't begin with `00 61 73 6D`. The place is the first wrong byte (Core 1.0, 5.5.15).
    Magic,
    /// The version isn't `01 00 00 00`. The place is the first wrong byte (5.5.15).
    Version,
    /// No section has this id. The place is the id (5.5.2).
    SectionId,
    /// The id isn't above that of the last section that isn't custom. The place is the id (5.5.2).
    SectionOrder,
    /// The content of a section, or the name of a custom one, isn't of that size. The place is the first byte of the
    /// size, and the fault shows once the content, or the name, was read (5.5.2).
    SectionSize,
    /// No spelling of an integer of that width goes on so. The place is the byte (5.2.2).
    Integer,
    /// A name isn't UTF-8. The place is the first byte of the bad sequence, and the fault shows once all bytes of the
    /// name were read (5.2.4).
    NotUtf8,
    /// No type of the kind that is wanted begins so. The place is the byte (5.3).
    WrongType,
    /// A float type, or the opcode of a float instruction. The place is the byte (5.3.1 and 5.4).
    Float,
    /// No kind of import or export, no flag of limits or no mutability is told so. The place is the byte (5.3.4, 5.3.7,
    /// 5.5.5 and 5.5.10).
    Tag,
    /// No instruction has this opcode, or an `else` stands where none may: it is not the first one directly in an `if`.
    /// The place is the byte (5.4).
    Opcode,
    /// A zero byte must stand here. The place is the byte (5.4.1 and 5.4.4).
    ZeroByte,
    /// One more block, loop or if would be open than may be. The place is its opcode (5.4.1).
    Depth,
    /// More than 50,000 locals are declared. The place is the first byte of the count of the group that goes beyond,
    /// and the fault shows before the type of the group is read (5.5.13).
    Locals,
    /// A body isn't of its size. The place is the first byte of the size, and the fault shows once the body was read
    /// (5.5.13).
    BodySize,
    /// There are not as many bodies as functions. The place is the input's length, and the fault shows once all
    /// sections were read (5.5.15).
    Counts,
}

/// Why decoding gave no module.
#[derive(Debug, Drop)]
pub enum BinFault {
    /// The first fault of the input: its place in bytes, counted from 0, and its reason.
    Bad { at: u64, why: BinWhy },
    /// The reader failed, after so many bytes.
    Read { at: u64 },
    /// A growth of memory was refused.
    Memory,
}

/// The first fault of the input, by its place and its reason.
pub fn bad(at: u64, why: BinWhy) -> BinFault
    ensures { result ≡ BinFault.Bad at why }
{
    BinFault::Bad { at, why }
}

impl From<AllocError> for BinFault {
    ghost use Rattle.std.specs.Prelude.{◌≡◌};
    ghost use Rattle.wc_binary.specs.declared.fault.BinFault.TheVariants as faults;

    ghost from_gives = { λ _ e. e ≡ faults.Memory };

    fn from(_error: AllocError) -> BinFault {
        BinFault::Memory
    }
}

impl<T: Drop> From<AllocFailed<T>> for BinFault {
    ghost use Rattle.std.specs.Prelude.{◌≡◌};
    ghost use Rattle.wc_binary.specs.declared.fault.BinFault.TheVariants as faults;

    ghost from_gives = { λ _ e. e ≡ faults.Memory };

    fn from(_error: AllocFailed<T>) -> BinFault {
        BinFault::Memory
    }
}

/// Why encoding gave no bytes.
#[derive(Debug, Drop)]
pub enum EncFault {
    /// No bytes spell the module: a count or a size reaches `2^32`.
    Oversize,
    /// A growth of memory was refused.
    Memory,
}

impl From<AllocError> for EncFault {
    ghost use Rattle.std.specs.Prelude.{◌≡◌};
    ghost use Rattle.wc_binary.specs.declared.fault.EncFault.TheVariants as faults;

    ghost from_gives = { λ _ e. e ≡ faults.Memory };

    fn from(_error: AllocError) -> EncFault {
        EncFault::Memory
    }
}

impl<T: Drop> From<AllocFailed<T>> for EncFault {
    ghost use Rattle.std.specs.Prelude.{◌≡◌};
    ghost use Rattle.wc_binary.specs.declared.fault.EncFault.TheVariants as faults;

    ghost from_gives = { λ _ e. e ≡ faults.Memory };

    fn from(_error: AllocFailed<T>) -> EncFault {
        EncFault::Memory
    }
}
