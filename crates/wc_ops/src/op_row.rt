//! The opcode and the name of each instruction, and the natural alignment of loads and stores.

use crate::op::{IndexOp, MemOp, Op, SimpleOp};

impl SimpleOp {
    ghost use Rattle.std.specs.Prelude.{◌≡◌};
    ghost use Rattle.wc_ops.specs.Standard.Opcodes.{simple};

    /// The opcode (Core 1.0, 5.4). It takes no memory.
    #[inline(always)]
    pub fn byte(self) -> u8
        ensures { result ≡ (simple self).byte }
    {
        self as u8
    }

    /// The name in the text format (Core 1.0, 6.5). It takes no memory.
    #[inline(always)]
    pub fn name(self) -> &'static str
        ensures { result.now ≡ (simple self).name }
    {
        match self {
            SimpleOp::Unreachable => "unreachable",
            SimpleOp::Nop => "nop",
            SimpleOp::Return => "return",
            SimpleOp::Drop => "drop",
            SimpleOp::Select => "select",
            SimpleOp::MemorySize => "memory.size",
            SimpleOp::MemoryGrow => "memory.grow",
            SimpleOp::I32Eqz => "i32.eqz",
            SimpleOp::I32Eq => "i32.eq",
            SimpleOp::I32Ne => "i32.ne",
            SimpleOp::I32LtS => "i32.lt_s",
            SimpleOp::I32LtU => "i32.lt_u",
            SimpleOp::I32GtS => "i32.gt_s",
            SimpleOp::I32GtU => "i32.gt_u",
            SimpleOp::I32LeS => "i32.le_s",
            SimpleOp::I32LeU => "i32.le_u",
            SimpleOp::I32GeS => "i32.ge_s",
            SimpleOp::I32GeU => "i32.ge_u",
            SimpleOp::I64Eqz => "i64.eqz",
            SimpleOp::I64Eq => "i64.eq",
            SimpleOp::I64Ne => "i64.ne",
            SimpleOp::I64LtS => "i64.lt_s",
            SimpleOp::I64LtU => "i64.lt_u",
            SimpleOp::I64GtS => "i64.gt_s",
            SimpleOp::I64GtU => "i64.gt_u",
            SimpleOp::I64LeS => "i64.le_s",
            SimpleOp::I64LeU => "i64.le_u",
            SimpleOp::I64GeS => "i64.ge_s",
            SimpleOp::I64GeU => "i64.ge_u",
            SimpleOp::I32Clz => "i32.clz",
            SimpleOp::I32Ctz => "i32.ctz",
            SimpleOp::I32Popcnt => "i32.popcnt",
            SimpleOp::I32Add => "i32.add",
            SimpleOp::I32Sub => "i32.sub",
            SimpleOp::I32Mul => "i32.mul",
            SimpleOp::I32DivS => "i32.div_s",
            SimpleOp::I32DivU => "i32.div_u",
            SimpleOp::I32RemS => "i32.rem_s",
            SimpleOp::I32RemU => "i32.rem_u",
            SimpleOp::I32And => "i32.and",
            SimpleOp::I32Or => "i32.or",
            SimpleOp::I32Xor => "i32.xor",
            SimpleOp::I32Shl => "i32.shl",
            SimpleOp::I32ShrS => "i32.shr_s",
            SimpleOp::I32ShrU => "i32.shr_u",
            SimpleOp::I32Rotl => "i32.rotl",
            SimpleOp::I32Rotr => "i32.rotr",
            SimpleOp::I64Clz => "i64.clz",
            SimpleOp::I64Ctz => "i64.ctz",
            SimpleOp::I64Popcnt => "i64.popcnt",
            SimpleOp::I64Add => "i64.add",
            SimpleOp::I64Sub => "i64.sub",
            SimpleOp::I64Mul => "i64.mul",
            SimpleOp::I64DivS => "i64.div_s",
            SimpleOp::I64DivU => "i64.div_u",
            SimpleOp::I64RemS => "i64.rem_s",
            SimpleOp::I64RemU => "i64.rem_u",
            SimpleOp::I64And => "i64.and",
            SimpleOp::I64Or => "i64.or",
            SimpleOp::I64Xor => "i64.xor",
            SimpleOp::I64Shl => "i64.shl",
            SimpleOp::I64ShrS => "i64.shr_s",
            SimpleOp::I64ShrU => "i64.shr_u",
            SimpleOp::I64Rotl => "i64.rotl",
            SimpleOp::I64Rotr => "i64.rotr",
            SimpleOp::I32WrapI64 => "i32.wrap_i64",
            SimpleOp::I64ExtendI32S => "i64.extend_i32_s",
            SimpleOp::I64ExtendI32U => "i64.extend_i32_u",
            SimpleOp::I32Extend8S => "i32.extend8_s",
            SimpleOp::I32Extend16S => "i32.extend16_s",
            SimpleOp::I64Extend8S => "i64.extend8_s",
            SimpleOp::I64Extend16S => "i64.extend16_s",
            SimpleOp::I64Extend32S => "i64.extend32_s",
        }
    }
}

impl IndexOp {
    ghost use Rattle.std.specs.Prelude.{◌≡◌};
    ghost use Rattle.wc_ops.specs.Standard.Opcodes.{index};

    /// The opcode (Core 1.0, 5.4). It takes no memory.
    #[inline(always)]
    pub fn byte(self) -> u8
        ensures { result ≡ (index self).byte }
    {
        self as u8
    }

    /// The name in the text format (Core 1.0, 6.5). It takes no memory.
    #[inline(always)]
    pub fn name(self) -> &'static str
        ensures { result.now ≡ (index self).name }
    {
        match self {
            IndexOp::Br => "br",
            IndexOp::BrIf => "br_if",
            IndexOp::Call => "call",
            IndexOp::LocalGet => "local.get",
            IndexOp::LocalSet => "local.set",
            IndexOp::LocalTee => "local.tee",
            IndexOp::GlobalGet => "global.get",
            IndexOp::GlobalSet => "global.set",
        }
    }
}

impl MemOp {
    ghost use Rattle.std.specs.Prelude.{◌≡◌};
    ghost use Rattle.wc_ops.specs.Standard.Opcodes.{memory};

    /// The opcode (Core 1.0, 5.4). It takes no memory.
    #[inline(always)]
    pub fn byte(self) -> u8
        ensures { result ≡ (memory self).byte }
    {
        self as u8
    }

    /// The name in the text format (Core 1.0, 6.5). It takes no memory.
    #[inline(always)]
    pub fn name(self) -> &'static str
        ensures { result.now ≡ (memory self).name }
    {
        match self {
            MemOp::I32Load => "i32.load",
            MemOp::I64Load => "i64.load",
            MemOp::I32Load8S => "i32.load8_s",
            MemOp::I32Load8U => "i32.load8_u",
            MemOp::I32Load16S => "i32.load16_s",
            MemOp::I32Load16U => "i32.load16_u",
            MemOp::I64Load8S => "i64.load8_s",
            MemOp::I64Load8U => "i64.load8_u",
            MemOp::I64Load16S => "i64.load16_s",
            MemOp::I64Load16U => "i64.load16_u",
            MemOp::I64Load32S => "i64.load32_s",
            MemOp::I64Load32U => "i64.load32_u",
            MemOp::I32Store => "i32.store",
            MemOp::I64Store => "i64.store",
            MemOp::I32Store8 => "i32.store8",
            MemOp::I32Store16 => "i32.store16",
            MemOp::I64Store8 => "i64.store8",
            MemOp::I64Store16 => "i64.store16",
            MemOp::I64Store32 => "i64.store32",
        }
    }

    /// The exponent of the alignment that is assumed where the text gives none (Core 1.0, 6.5.5): the access is two to
    /// this power bytes wide. It takes no memory.
    #[inline(always)]
    pub fn natural_alignment(self) -> u32
        ensures { result ≡ (memory self).alignment }
    {
        match self {
            MemOp::I32Load8S
            | MemOp::I32Load8U
            | MemOp::I64Load8S
            | MemOp::I64Load8U
            | MemOp::I32Store8
            | MemOp::I64Store8 => 0,
            MemOp::I32Load16S
            | MemOp::I32Load16U
            | MemOp::I64Load16S
            | MemOp::I64Load16U
            | MemOp::I32Store16
            | MemOp::I64Store16 => 1,
            MemOp::I32Load
            | MemOp::I64Load32S
            | MemOp::I64Load32U
            | MemOp::I32Store
            | MemOp::I64Store32 => 2,
            MemOp::I64Load | MemOp::I64Store => 3,
        }
    }
}

impl Op {
    ghost use Rattle.std.specs.Prelude.{◌≡◌};
    ghost use Rattle.wc_ops.specs.Standard.Opcodes.{row};

    /// The opcode (Core 1.0, 5.4). It takes no memory.
    pub fn byte(self) -> u8
        ensures { result ≡ (row self).byte }
    {
        match self {
            Op::Simple(op) => op.byte(),
            Op::Index(op) => op.byte(),
            Op::Mem(op) => op.byte(),
            Op::Block => 0x02,
            Op::Loop => 0x03,
            Op::If => 0x04,
            Op::BrTable => 0x0e,
            Op::CallIndirect => 0x11,
            Op::I32Const => 0x41,
            Op::I64Const => 0x42,
        }
    }

    /// The name in the text format (Core 1.0, 6.5). It takes no memory.
    #[inline(always)]
    pub fn name(self) -> &'static str
        ensures { result.now ≡ (row self).name }
    {
        match self {
            Op::Simple(op) => op.name(),
            Op::Index(op) => op.name(),
            Op::Mem(op) => op.name(),
            Op::Block => "block",
            Op::Loop => "loop",
            Op::If => "if",
            Op::BrTable => "br_table",
            Op::CallIndirect => "call_indirect",
            Op::I32Const => "i32.const",
            Op::I64Const => "i64.const",
        }
    }
}
