//! Indices and constants in any spelling that ends among eight bytes: what is noted of one is looked up by its opcode,
//! and it is put by its shortest spelling, so that no branch depends on which it is or how many bytes it has.

ghost use Rattle.std.specs.Prelude.{◌≡◌, ◌<◌, ◌^◌, ℕ, pos, IfSome};
ghost use Rattle.wc_body.specs.Drafting.WideRows.{wide_at, with_wide, AsksForNone, IsOfRow};

use crate::needs::Needs;
use wc_leb128::{Respelling, respelled};

/// What the instructions of an opcode are like that an integer follows, and nothing else.
pub(crate) struct Wide {
    // How many bytes the integer has at most, or 0 where the opcode has no such instruction.
    longest: usize,
    signed: bool,
    // The least integer, and the greatest one.
    least: i64,
    most: i64,
    // The bits of an index that count locals, globals and functions: all or none.
    locals: u32,
    globals: u32,
    funcs: u32,
}

// None are looked at.
const OTHER: Wide = Wide {
    longest: 0,
    signed: false,
    least: 0,
    most: 0,
    locals: 0,
    globals: 0,
    funcs: 0,
};

const INDEX: Wide = Wide {
    longest: 5,
    most: 4_294_967_295,
    ..OTHER
};

const LOCAL: Wide = Wide {
    locals: 4_294_967_295,
    ..INDEX
};

const GLOBAL: Wide = Wide {
    globals: 4_294_967_295,
    ..INDEX
};

const CALL: Wide = Wide {
    funcs: 4_294_967_295,
    ..INDEX
};

const CONST_32: Wide = Wide {
    longest: 5,
    signed: true,
    least: -2_147_483_648,
    most: 2_147_483_647,
    ..OTHER
};

const CONST_64: Wide = Wide {
    longest: 8,
    least: -9_223_372_036_854_775_808,
    most: 9_223_372_036_854_775_807,
    ..CONST_32
};

/// At each byte, what the instructions of this opcode are like: eight bytes a line, from the one that it ends with.
static ROWS: [Wide; 256] = [
    OTHER, OTHER, OTHER, OTHER, OTHER, OTHER, OTHER, OTHER, // 00
    OTHER, OTHER, OTHER, OTHER, OTHER, OTHER, OTHER, OTHER, // 08
    CALL, OTHER, OTHER, OTHER, OTHER, OTHER, OTHER, OTHER, // 10
    OTHER, OTHER, OTHER, OTHER, OTHER, OTHER, OTHER, OTHER, // 18
    LOCAL, LOCAL, LOCAL, GLOBAL, OTHER, OTHER, OTHER, OTHER, // 20
    OTHER, OTHER, OTHER, OTHER, OTHER, OTHER, OTHER, OTHER, // 28
    OTHER, OTHER, OTHER, OTHER, OTHER, OTHER, OTHER, OTHER, // 30
    OTHER, OTHER, OTHER, OTHER, OTHER, OTHER, OTHER, OTHER, // 38
    OTHER, CONST_32, CONST_64, OTHER, OTHER, OTHER, OTHER, OTHER, // 40
    OTHER, OTHER, OTHER, OTHER, OTHER, OTHER, OTHER, OTHER, // 48
    OTHER, OTHER, OTHER, OTHER, OTHER, OTHER, OTHER, OTHER, // 50
    OTHER, OTHER, OTHER, OTHER, OTHER, OTHER, OTHER, OTHER, // 58
    OTHER, OTHER, OTHER, OTHER, OTHER, OTHER, OTHER, OTHER, // 60
    OTHER, OTHER, OTHER, OTHER, OTHER, OTHER, OTHER, OTHER, // 68
    OTHER, OTHER, OTHER, OTHER, OTHER, OTHER, OTHER, OTHER, // 70
    OTHER, OTHER, OTHER, OTHER, OTHER, OTHER, OTHER, OTHER, // 78
    OTHER, OTHER, OTHER, OTHER, OTHER, OTHER, OTHER, OTHER, // 80
    OTHER, OTHER, OTHER, OTHER, OTHER, OTHER, OTHER, OTHER, // 88
    OTHER, OTHER, OTHER, OTHER, OTHER, OTHER, OTHER, OTHER, // 90
    OTHER, OTHER, OTHER, OTHER, OTHER, OTHER, OTHER, OTHER, // 98
    OTHER, OTHER, OTHER, OTHER, OTHER, OTHER, OTHER, OTHER, // a0
    OTHER, OTHER, OTHER, OTHER, OTHER, OTHER, OTHER, OTHER, // a8
    OTHER, OTHER, OTHER, OTHER, OTHER, OTHER, OTHER, OTHER, // b0
    OTHER, OTHER, OTHER, OTHER, OTHER, OTHER, OTHER, OTHER, // b8
    OTHER, OTHER, OTHER, OTHER, OTHER, OTHER, OTHER, OTHER, // c0
    OTHER, OTHER, OTHER, OTHER, OTHER, OTHER, OTHER, OTHER, // c8
    OTHER, OTHER, OTHER, OTHER, OTHER, OTHER, OTHER, OTHER, // d0
    OTHER, OTHER, OTHER, OTHER, OTHER, OTHER, OTHER, OTHER, // d8
    OTHER, OTHER, OTHER, OTHER, OTHER, OTHER, OTHER, OTHER, // e0
    OTHER, OTHER, OTHER, OTHER, OTHER, OTHER, OTHER, OTHER, // e8
    OTHER, OTHER, OTHER, OTHER, OTHER, OTHER, OTHER, OTHER, // f0
    OTHER, OTHER, OTHER, OTHER, OTHER, OTHER, OTHER, OTHER, // f8
];

/// What the instructions of this opcode are like.
#[inline(always)]
pub(crate) fn wide_of(opcode: u8) -> &'static Wide
    ensures { result.now ≡ wide_at opcode }
{
    &ROWS[opcode as usize]
}

/// The integer that these bytes begin with, where such a row has one and it fits, and it ends among the first eight.
#[inline(always)]
pub(crate) fn integer_of(row: &Wide, bytes: &[u8]) -> Option<Respelling>
    ensures { IfSome result (λ r. IsOfRow row.now bytes.now r.value r.count r.length r.bytes) }
{
    if row.longest == 0 {
        return None;
    }
    let integer = respelled(bytes, row.signed)?;
    if integer.count > row.longest || integer.value < row.least || integer.value > row.most {
        return None;
    }
    Some(integer)
}

/// Notes what the instruction of such a row and of this integer needs.
// Masks, so that there is no branch by what kind of index it is, or whether it is one.
#[inline(always)]
pub(crate) fn note_wide(needs: &mut Needs, row: &Wide, value: i64)
    ensures index { (n : ℕ) → value ≡ pos n → n < 2 ^ 32 → needs.new ≡ with_wide needs.old row.now n }
    ensures none { AsksForNone row.now → needs.new ≡ needs.old }
{
    let index = (value.max(0) as u64 & 0xffff_ffff) as u32;
    let count = index.saturating_add(1);
    needs.locals = needs.locals.max(count & row.locals);
    needs.globals = needs.globals.max(count & row.globals);
    needs.funcs = needs.funcs.max(count & row.funcs);
}
