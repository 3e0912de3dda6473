//! The instructions that have an opcode, by what follows it.

/// An instruction with no immediate (Core 1.0, 5.4.1 to 5.4.5; Core 2.0, 5.4.7, for the sign extensions). In the
/// binary format `memory.size` and `memory.grow` have a zero byte after the opcode. The number of each is its opcode.
#[derive(Clone, Copy, Debug, PartialEq, Eq)]
pub enum SimpleOp {
    Unreachable = 0x00,
    Nop = 0x01,
    Return = 0x0f,
    Drop = 0x1a,
    Select = 0x1b,
    MemorySize = 0x3f,
    MemoryGrow = 0x40,
    I32Eqz = 0x45,
    I32Eq = 0x46,
    I32Ne = 0x47,
    I32LtS = 0x48,
    I32LtU = 0x49,
    I32GtS = 0x4a,
    I32GtU = 0x4b,
    I32LeS = 0x4c,
    I32LeU = 0x4d,
    I32GeS = 0x4e,
    I32GeU = 0x4f,
    I64Eqz = 0x50,
    I64Eq = 0x51,
    I64Ne = 0x52,
    I64LtS = 0x53,
    I64LtU = 0x54,
    I64GtS = 0x55,
    I64GtU = 0x56,
    I64LeS = 0x57,
    I64LeU = 0x58,
    I64GeS = 0x59,
    I64GeU = 0x5a,
    I32Clz = 0x67,
    I32Ctz = 0x68,
    I32Popcnt = 0x69,
    I32Add = 0x6a,
    I32Sub = 0x6b,
    I32Mul = 0x6c,
    I32DivS = 0x6d,
    I32DivU = 0x6e,
    I32RemS = 0x6f,
    I32RemU = 0x70,
    I32And = 0x71,
    I32Or = 0x72,
    I32Xor = 0x73,
    I32Shl = 0x74,
    I32ShrS = 0x75,
    I32ShrU = 0x76,
    I32Rotl = 0x77,
    I32Rotr = 0x78,
    I64Clz = 0x79,
    I64Ctz = 0x7a,
    I64Popcnt = 0x7b,
    I64Add = 0x7c,
    I64Sub = 0x7d,
    I64Mul = 0x7e,
    I64DivS = 0x7f,
    I64DivU = 0x80,
    I64RemS = 0x81,
    I64RemU = 0x82,
    I64And = 0x83,
    I64Or = 0x84,
    I64Xor = 0x85,
    I64Shl = 0x86,
    I64ShrS = 0x87,
    I64ShrU = 0x88,
    I64Rotl = 0x89,
    I64Rotr = 0x8a,
    I32WrapI64 = 0xa7,
    I64ExtendI32S = 0xac,
    I64ExtendI32U = 0xad,
    I32Extend8S = 0xc0,
    I32Extend16S = 0xc1,
    I64Extend8S = 0xc2,
    I64Extend16S = 0xc3,
    I64Extend32S = 0xc4,
}

/// An instruction whose immediate is one index (Core 1.0, 5.4.1 and 5.4.3). The number of each is its opcode.
#[derive(Clone, Copy, Debug, PartialEq, Eq)]
pub enum IndexOp {
    Br = 0x0c,
    BrIf = 0x0d,
    Call = 0x10,
    LocalGet = 0x20,
    LocalSet = 0x21,
    LocalTee = 0x22,
    GlobalGet = 0x23,
    GlobalSet = 0x24,
}

/// A load or a store, whose immediate is an alignment and an offset (Core 1.0, 5.4.4). The number of each is its
/// opcode.
#[derive(Clone, Copy, Debug, PartialEq, Eq)]
pub enum MemOp {
    I32Load = 0x28,
    I64Load = 0x29,
    I32Load8S = 0x2c,
    I32Load8U = 0x2d,
    I32Load16S = 0x2e,
    I32Load16U = 0x2f,
    I64Load8S = 0x30,
    I64Load8U = 0x31,
    I64Load16S = 0x32,
    I64Load16U = 0x33,
    I64Load32S = 0x34,
    I64Load32U = 0x35,
    I32Store = 0x36,
    I64Store = 0x37,
    I32Store8 = 0x3a,
    I32Store16 = 0x3b,
    I64Store8 = 0x3c,
    I64Store16 = 0x3d,
    I64Store32 = 0x3e,
}

/// The opcode of an instruction, with the form of what follows it (Core 1.0, 5.4). Floats have none here; `else` and
/// `end` are no instructions.
#[derive(Clone, Copy, Debug, PartialEq, Eq)]
pub enum Op {
    Simple(SimpleOp),
    Index(IndexOp),
    Mem(MemOp),
    /// Labels, and the default label.
    BrTable,
    /// The index of a type, and in the binary format a zero byte.
    CallIndirect,
    /// A signed integer of 32 bits.
    I32Const,
    /// A signed integer of 64 bits.
    I64Const,
    /// A block type and instructions.
    Block,
    /// A block type and instructions.
    Loop,
    /// A block type, instructions, and perhaps others after `else`.
    If,
}

/// What a byte means where an opcode may stand.
#[derive(Clone, Copy, Debug, PartialEq, Eq)]
pub enum OpByte {
    Known(Op),
    /// The opcode of a float instruction of the standard.
    Float,
    /// Any other byte, those of `else` and `end` among them.
    Unknown,
}

/// What a word means where an instruction's name may stand.
#[derive(Clone, Copy, Debug, PartialEq, Eq)]
pub enum OpName {
    Known(Op),
    /// A word that begins with `f32.` or `f64.`, or the name of a truncation from floats or of a reinterpretation.
    Float,
    /// Any other word, `else` and `end` among them.
    Unknown,
}
