//! Brief entries: those whose integers have one byte each, whose alignment is the natural one and whose block type is
//! the empty one, as most are, but no table of labels, call through a table, size of memory or growth of one. Which
//! bytes are of one is looked up by its opcode.

ghost use Rattle.std.specs.Prelude.{◌≡◌, ◌<◌, IfSome, get_or, length};
ghost use Rattle.wc_body.specs.Reading.Briefly.{BeginsWith, shape_at};

/// An entry by its opcode and the integer behind it: an index, the byte of a constant, or an offset. It is zero where
/// there is none.
#[derive(Clone, Copy, PartialEq, Eq)]
pub struct Brief {
    pub opcode: u8,
    pub operand: u8,
}

/// What an opcode's brief entries are like.
struct Shape {
    // How many bytes one has.
    length: u8,
    // The least that the byte behind the opcode is.
    least: u8,
    // What that byte is below, and the byte behind it: 256 where it isn't of the entry.
    second: u16,
    third: u16,
    // All bits where that byte is the integer, and none elsewhere.
    is_second: u8,
    is_third: u8,
}

// None are brief.
const OTHER: Shape = Shape {
    length: 0,
    least: 0,
    second: 0,
    third: 256,
    is_second: 0,
    is_third: 0,
};

const BARE: Shape = Shape {
    length: 1,
    second: 256,
    ..OTHER
};

const ONE: Shape = Shape {
    length: 2,
    second: 128,
    is_second: 255,
    ..OTHER
};

// The empty block type is behind the opcode.
const BEGIN: Shape = Shape {
    length: 2,
    least: 0x40,
    second: 0x41,
    ..OTHER
};

// An access of so many bits, whose alignment is as wide.
const ACCESS_8: Shape = Shape {
    length: 3,
    second: 1,
    third: 128,
    is_third: 255,
    ..OTHER
};

const ACCESS_16: Shape = Shape {
    least: 1,
    second: 2,
    ..ACCESS_8
};

const ACCESS_32: Shape = Shape {
    least: 2,
    second: 3,
    ..ACCESS_8
};

const ACCESS_64: Shape = Shape {
    least: 3,
    second: 4,
    ..ACCESS_8
};

/// At each byte, what the brief entries of this opcode are like.
static SHAPES: [Shape; 256] = [
    BARE, BARE, BEGIN, BEGIN, BEGIN, BARE, OTHER, OTHER, // 00
    OTHER, OTHER, OTHER, BARE, ONE, ONE, OTHER, BARE, // 08
    ONE, OTHER, OTHER, OTHER, OTHER, OTHER, OTHER, OTHER, // 10
    OTHER, OTHER, BARE, BARE, OTHER, OTHER, OTHER, OTHER, // 18
    ONE, ONE, ONE, ONE, ONE, OTHER, OTHER, OTHER, // 20
    ACCESS_32, ACCESS_64, OTHER, OTHER, ACCESS_8, ACCESS_8, ACCESS_16, ACCESS_16, // 28
    ACCESS_8, ACCESS_8, ACCESS_16, ACCESS_16, ACCESS_32, ACCESS_32, ACCESS_32, ACCESS_64, // 30
    OTHER, OTHER, ACCESS_8, ACCESS_16, ACCESS_8, ACCESS_16, ACCESS_32, OTHER, // 38
    OTHER, ONE, ONE, OTHER, OTHER, BARE, BARE, BARE, // 40
    BARE, BARE, BARE, BARE, BARE, BARE, BARE, BARE, // 48
    BARE, BARE, BARE, BARE, BARE, BARE, BARE, BARE, // 50
    BARE, BARE, BARE, OTHER, OTHER, OTHER, OTHER, OTHER, // 58
    OTHER, OTHER, OTHER, OTHER, OTHER, OTHER, OTHER, BARE, // 60
    BARE, BARE, BARE, BARE, BARE, BARE, BARE, BARE, // 68
    BARE, BARE, BARE, BARE, BARE, BARE, BARE, BARE, // 70
    BARE, BARE, BARE, BARE, BARE, BARE, BARE, BARE, // 78
    BARE, BARE, BARE, BARE, BARE, BARE, BARE, BARE, // 80
    BARE, BARE, BARE, OTHER, OTHER, OTHER, OTHER, OTHER, // 88
    OTHER, OTHER, OTHER, OTHER, OTHER, OTHER, OTHER, OTHER, // 90
    OTHER, OTHER, OTHER, OTHER, OTHER, OTHER, OTHER, OTHER, // 98
    OTHER, OTHER, OTHER, OTHER, OTHER, OTHER, OTHER, BARE, // a0
    OTHER, OTHER, OTHER, OTHER, BARE, BARE, OTHER, OTHER, // a8
    OTHER, OTHER, OTHER, OTHER, OTHER, OTHER, OTHER, OTHER, // b0
    OTHER, OTHER, OTHER, OTHER, OTHER, OTHER, OTHER, OTHER, // b8
    BARE, BARE, BARE, BARE, BARE, OTHER, OTHER, OTHER, // c0
    OTHER, OTHER, OTHER, OTHER, OTHER, OTHER, OTHER, OTHER, // c8
    OTHER, OTHER, OTHER, OTHER, OTHER, OTHER, OTHER, OTHER, // d0
    OTHER, OTHER, OTHER, OTHER, OTHER, OTHER, OTHER, OTHER, // d8
    OTHER, OTHER, OTHER, OTHER, OTHER, OTHER, OTHER, OTHER, // e0
    OTHER, OTHER, OTHER, OTHER, OTHER, OTHER, OTHER, OTHER, // e8
    OTHER, OTHER, OTHER, OTHER, OTHER, OTHER, OTHER, OTHER, // f0
    OTHER, OTHER, OTHER, OTHER, OTHER, OTHER, OTHER, OTHER, // f8
];

/// What the brief entries of this opcode are like.
#[inline(always)]
fn shape_of(opcode: u8) -> &'static Shape
    ensures { result.now ≡ shape_at opcode }
{
    &SHAPES[opcode as usize]
}

/// The first three bytes. What isn't there is 128, as no byte behind the opcode of a brief entry is.
#[inline(always)]
fn first_three(bytes: &[u8]) -> Option<(u8, u8, u8)>
    ensures some { IfSome result (λ f. 0 < length bytes.now) }
    ensures first { IfSome result (λ f. f.0 ≡ get_or bytes.now 0 128) }
    ensures second { IfSome result (λ f. f.1 ≡ get_or bytes.now 1 128) }
    ensures third { IfSome result (λ f. f.2 ≡ get_or bytes.now 2 128) }
{
    match bytes {
        [first, second, third, ..] => Some((*first, *second, *third)),
        [first, second] => Some((*first, *second, 128)),
        [first] => Some((*first, 128, 128)),
        [] => None,
    }
}

/// The brief entry that the bytes begin with, and what follows it.
#[inline(always)]
pub(crate) fn brief_at(bytes: &[u8]) -> Option<(Brief, &[u8])>
    ensures { IfSome result (λ f. BeginsWith f.0 bytes.now f.1.now) }
{
    let (opcode, second, third) = first_three(bytes)?;
    let shape = shape_of(opcode);
    if second < shape.least
        || u16::from(second) >= shape.second
        || u16::from(third) >= shape.third
    {
        return None;
    }
    let operand = (second & shape.is_second) | (third & shape.is_third);
    Some((
        Brief { opcode, operand },
        &bytes[usize::from(shape.length)..],
    ))
}
