//! The instructions that are drawn, and what belongs to one.

/// An instruction by its byte and its name.
#[derive(Clone, Copy)]
pub struct Operator {
    pub byte: u8,
    pub name: &'static str,
}

/// What belongs to an instruction.
#[derive(Clone, Copy)]
pub enum Immediate {
    /// Nothing.
    None,
    /// The index of a local.
    Local(u32),
    /// The index of a global.
    Global(u32),
    /// The index of a function.
    Func(u32),
    /// How many blocks lie between.
    Label(usize),
    /// A constant.
    Number(i64),
    /// A constant below `2^31` that a linker fills in.
    Address(u32),
    /// The exponent of an alignment, which is the natural one, and an offset.
    Memory(u8, u32),
}

pub const BLOCK: Operator = Operator {
    byte: 0x02,
    name: "block",
};

pub const LOOP: Operator = Operator {
    byte: 0x03,
    name: "loop",
};

pub const IF: Operator = Operator {
    byte: 0x04,
    name: "if",
};

pub const BR: Operator = Operator {
    byte: 0x0c,
    name: "br",
};

pub const BR_IF: Operator = Operator {
    byte: 0x0d,
    name: "br_if",
};

pub const RETURN: Operator = Operator {
    byte: 0x0f,
    name: "return",
};

pub const CALL: Operator = Operator {
    byte: 0x10,
    name: "call",
};

pub const DROP: Operator = Operator {
    byte: 0x1a,
    name: "drop",
};

pub const SELECT: Operator = Operator {
    byte: 0x1b,
    name: "select",
};

pub const LOCAL_GET: Operator = Operator {
    byte: 0x20,
    name: "local.get",
};

pub const LOCAL_SET: Operator = Operator {
    byte: 0x21,
    name: "local.set",
};

pub const LOCAL_TEE: Operator = Operator {
    byte: 0x22,
    name: "local.tee",
};

pub const GLOBAL_GET: Operator = Operator {
    byte: 0x23,
    name: "global.get",
};

pub const GLOBAL_SET: Operator = Operator {
    byte: 0x24,
    name: "global.set",
};

pub const LOAD: Operator = Operator {
    byte: 0x28,
    name: "i32.load",
};

pub const STORE: Operator = Operator {
    byte: 0x36,
    name: "i32.store",
};

pub const LONG_LOAD: Operator = Operator {
    byte: 0x29,
    name: "i64.load",
};

pub const LONG_STORE: Operator = Operator {
    byte: 0x37,
    name: "i64.store",
};

pub const CONSTANT: Operator = Operator {
    byte: 0x41,
    name: "i32.const",
};

pub const LONG_CONSTANT: Operator = Operator {
    byte: 0x42,
    name: "i64.const",
};

pub const ADD: Operator = Operator {
    byte: 0x6a,
    name: "i32.add",
};

pub const AND: Operator = Operator {
    byte: 0x71,
    name: "i32.and",
};

pub const SUBTRACT: Operator = Operator {
    byte: 0x6b,
    name: "i32.sub",
};

pub const IS_ZERO: Operator = Operator {
    byte: 0x45,
    name: "i32.eqz",
};

/// Instructions of two operands.
pub static BINARY: [Operator; 15] = [
    ADD,
    ADD,
    ADD,
    ADD,
    AND,
    AND,
    SUBTRACT,
    Operator {
        byte: 0x72,
        name: "i32.or",
    },
    Operator {
        byte: 0x74,
        name: "i32.shl",
    },
    Operator {
        byte: 0x76,
        name: "i32.shr_u",
    },
    Operator {
        byte: 0x6c,
        name: "i32.mul",
    },
    Operator {
        byte: 0x46,
        name: "i32.eq",
    },
    Operator {
        byte: 0x47,
        name: "i32.ne",
    },
    Operator {
        byte: 0x48,
        name: "i32.lt_s",
    },
    Operator {
        byte: 0x4b,
        name: "i32.gt_u",
    },
];

/// Instructions of two operands of 64 bits.
pub static LONG_BINARY: [Operator; 6] = [
    Operator {
        byte: 0x7c,
        name: "i64.add",
    },
    Operator {
        byte: 0x7c,
        name: "i64.add",
    },
    Operator {
        byte: 0x83,
        name: "i64.and",
    },
    Operator {
        byte: 0x84,
        name: "i64.or",
    },
    Operator {
        byte: 0x88,
        name: "i64.shr_u",
    },
    Operator {
        byte: 0x86,
        name: "i64.shl",
    },
];

/// Loads, with the exponents of their alignments.
pub static LOADS: [(Operator, u8); 8] = [
    (LOAD, 2),
    (LOAD, 2),
    (LOAD, 2),
    (LOAD, 2),
    (LOAD, 2),
    (LOAD, 2),
    (
        Operator {
            byte: 0x2d,
            name: "i32.load8_u",
        },
        0,
    ),
    (
        Operator {
            byte: 0x2f,
            name: "i32.load16_u",
        },
        1,
    ),
];

/// Stores, with the exponents of their alignments.
pub static STORES: [(Operator, u8); 6] = [
    (STORE, 2),
    (STORE, 2),
    (STORE, 2),
    (STORE, 2),
    (
        Operator {
            byte: 0x3a,
            name: "i32.store8",
        },
        0,
    ),
    (
        Operator {
            byte: 0x3b,
            name: "i32.store16",
        },
        1,
    ),
];
