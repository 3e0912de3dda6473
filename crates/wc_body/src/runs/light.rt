//! Light entries: those whose integers have one byte each, that need no label beyond the enclosing blocks and no
//! alignment above the width of the access, and that are no block, else, end, table of labels, call through a table,
//! size of memory or growth of one. What is noted of one is looked up by its opcode. Indices but labels, constants and
//! offsets of two bytes are taken along with them.

pub(crate) mod before;

ghost use Rattle.std.specs.Prelude.{◌≡◌, ◌<◌, ◌≤◌, ◌+◌, ◌-◌, ◌*◌, ◌^◌, ℕ, max, min, length, get_or, IfSome, IsNone};
ghost use Rattle.wc_body.specs.Drafting.AtFront.{NotesInstr, NotesRun};
ghost use Rattle.wc_body.specs.Drafting.LightRows.{light_at, with_noted, IsOuterAt, NotesOuter, IsConstantAt};
ghost use Rattle.wc_body.specs.declared.runs.light.LightNeeds.{LightNeeds};
ghost use Rattle.wc_body.specs.declared.needs.Needs.{Needs};

use crate::needs::{Needs, low_bit};
use crate::runs::integers::are_last;

/// What an opcode's light entries are like.
struct Light {
    // The most locals that the byte behind the opcode asks for.
    locals: u16,
    // How many bytes one has, or 0 where the opcode tells what it needs, or 255 where none is light.
    length: u8,
    // What the byte behind the opcode is below: where it isn't of the entry this is 255, above nearly all that may
    // stand there. What the byte behind that is below, which is asked of entries of three bytes alone.
    second: u8,
    third: u8,
    // All bits where the byte behind the opcode is a label, and none elsewhere.
    label: u8,
    // Whether a memory is needed: of accesses alone.
    memory: bool,
}

// None are light.
const OTHER: Light = Light {
    locals: 0,
    length: 255,
    second: 0,
    third: 255,
    label: 0,
    memory: false,
};

const BARE: Light = Light {
    length: 1,
    second: 255,
    ..OTHER
};

const CONSTANT: Light = Light {
    length: 2,
    second: 128,
    ..OTHER
};

const LOCAL: Light = Light {
    locals: 128,
    ..CONSTANT
};

const LABEL: Light = Light {
    label: 255,
    ..CONSTANT
};

// A call, or an access of a global.
const OUTER: Light = Light {
    length: 0,
    second: 128,
    ..OTHER
};

// An access of so many bits, whose alignment is no wider.
const ACCESS_8: Light = Light {
    length: 3,
    second: 1,
    third: 128,
    memory: true,
    ..OTHER
};

const ACCESS_16: Light = Light {
    second: 2,
    ..ACCESS_8
};

const ACCESS_32: Light = Light {
    second: 3,
    ..ACCESS_8
};

const ACCESS_64: Light = Light {
    second: 4,
    ..ACCESS_8
};

/// At each byte, what the light entries of this opcode are like: eight bytes a line, from the one that it ends with.
static ROWS: [Light; 256] = [
    BARE, BARE, OTHER, OTHER, OTHER, OTHER, OTHER, OTHER, // 00
    OTHER, OTHER, OTHER, OTHER, LABEL, LABEL, OTHER, BARE, // 08
    OUTER, OTHER, OTHER, OTHER, OTHER, OTHER, OTHER, OTHER, // 10
    OTHER, OTHER, BARE, BARE, OTHER, OTHER, OTHER, OTHER, // 18
    LOCAL, LOCAL, LOCAL, OUTER, OUTER, OTHER, OTHER, OTHER, // 20
    ACCESS_32, ACCESS_64, OTHER, OTHER, ACCESS_8, ACCESS_8, ACCESS_16, ACCESS_16, // 28
    ACCESS_8, ACCESS_8, ACCESS_16, ACCESS_16, ACCESS_32, ACCESS_32, ACCESS_32, ACCESS_64, // 30
    OTHER, OTHER, ACCESS_8, ACCESS_16, ACCESS_8, ACCESS_16, ACCESS_32, OTHER, // 38
    OTHER, CONSTANT, CONSTANT, OTHER, OTHER, BARE, BARE, BARE, // 40
    BARE, BARE, BARE, BARE, BARE, BARE, BARE, BARE, // 48
    BARE, BARE, BARE, BARE, BARE, BARE, BARE, BARE, // 50
    BARE, BARE, BARE, OTHER, OTHER, OTHER, OTHER, OTHER, // 58
    OTHER, OTHER, OTHER, OTHER, OTHER, OTHER, OTHER, BARE, // 60
    BARE, BARE, BARE, BARE, BARE, BARE, BARE, BARE, // 68
    BARE, BARE, BARE, BARE, BARE, BARE, BARE, BARE, // 70
    BARE, BARE, BARE, BARE, BARE, BARE, BARE, BARE, // 78
    BARE, BARE, BARE, BARE, BARE, BARE, BARE, BARE, // 80
    BARE, BARE, BARE, OTHER, OTHER, OTHER, OTHER, OTHER, // 88
    OTHER, OTHER, OTHER, OTHER, OTHER, OTHER, OTHER, OTHER, // 90
    OTHER, OTHER, OTHER, OTHER, OTHER, OTHER, OTHER, OTHER, // 98
    OTHER, OTHER, OTHER, OTHER, OTHER, OTHER, OTHER, BARE, // a0
    OTHER, OTHER, OTHER, OTHER, BARE, BARE, OTHER, OTHER, // a8
    OTHER, OTHER, OTHER, OTHER, OTHER, OTHER, OTHER, OTHER, // b0
    OTHER, OTHER, OTHER, OTHER, OTHER, OTHER, OTHER, OTHER, // b8
    BARE, BARE, BARE, BARE, BARE, OTHER, OTHER, OTHER, // c0
    OTHER, OTHER, OTHER, OTHER, OTHER, OTHER, OTHER, OTHER, // c8
    OTHER, OTHER, OTHER, OTHER, OTHER, OTHER, OTHER, OTHER, // d0
    OTHER, OTHER, OTHER, OTHER, OTHER, OTHER, OTHER, OTHER, // d8
    OTHER, OTHER, OTHER, OTHER, OTHER, OTHER, OTHER, OTHER, // e0
    OTHER, OTHER, OTHER, OTHER, OTHER, OTHER, OTHER, OTHER, // e8
    OTHER, OTHER, OTHER, OTHER, OTHER, OTHER, OTHER, OTHER, // f0
    OTHER, OTHER, OTHER, OTHER, OTHER, OTHER, OTHER, OTHER, // f8
];

/// Of what instructions need, that which most light entries do: all but calls and accesses of globals.
#[derive(Clone, Copy)]
struct LightNeeds {
    locals: u32,
    memory: bool,
}

impl LightNeeds {
    #[inline(always)]
    fn of(needs: &Needs) -> LightNeeds
        ensures { result ≡ record { locals = needs.now.locals; memory = needs.now.memory } }
    {
        LightNeeds {
            locals: needs.locals,
            memory: needs.memory,
        }
    }

    #[inline(always)]
    fn give_back(self, needs: &mut Needs)
        ensures { needs.new ≡ with_noted self needs.old }
    {
        needs.locals = self.locals;
        needs.memory = self.memory;
    }
}

/// What the light entries of this opcode are like.
#[inline(always)]
fn light_of(opcode: u8) -> &'static Light
    ensures { result.now ≡ light_at opcode }
{
    &ROWS[opcode as usize]
}

/// Notes what a light entry of two bytes needs, of which this one stands behind the opcode.
#[inline(always)]
fn note_pair(noted: &mut LightNeeds, light: &Light, second: u8)
    ensures { noted.new ≡ record noted.old { locals = max noted.old.locals (min (second + 1) light.now.locals) } }
{
    let locals = (u32::from(second) + 1).min(u32::from(light.locals));
    noted.locals = noted.locals.max(locals);
}

/// Notes what a call or an access of a global needs, of this opcode and this index.
// No table of jumps.
#[inline(always)]
fn note_outer(needs: &mut Needs, opcode: u8, index: u32)
    requires { index < 2 ^ 14 }
    ensures { NotesOuter opcode index needs.old needs.new }
{
    if opcode == 0x10 {
        needs.funcs = needs.funcs.max(index + 1);
    } else if opcode == 0x23 {
        needs.globals = needs.globals.max(index + 1);
    } else {
        needs.set_globals = needs.set_globals.max(index + 1);
        needs.lowest_set_global = needs.lowest_set_global.min(index);
        needs.set_below_64 |= low_bit(index);
    }
}

/// The index of two bytes that stands behind the opcode, where it needs both.
#[inline(always)]
fn long_index(bytes: &[u8]) -> Option<u32>
    requires { (3 ≤ length bytes.now) × (128 ≤ get_or bytes.now 1 0) }
    ensures { IfSome result (λ n. (get_or bytes.now 2 0 ≡ 0 → ⊥) × (get_or bytes.now 2 0 < 128)
        × (n ≡ get_or bytes.now 1 0 - 128 + 128 * get_or bytes.now 2 0)) }
{
    let third = bytes[2];
    if third == 0 || third >= 128 {
        return None;
    }
    Some(u32::from(bytes[1] - 128) + 128 * u32::from(third))
}

/// Notes the instruction of a local that these bytes begin with, where its index has two bytes, and no more than it
/// needs. What follows it is answered.
// Where a compiler doesn't optimise, most locals have such an index.
#[inline(always)]
fn long_local<'a>(bytes: &'a [u8], noted: &mut LightNeeds) -> Option<&'a [u8]>
    requires long { (3 ≤ length bytes.now) × (128 ≤ get_or bytes.now 1 0) }
    requires local { (light_at (get_or bytes.now 0 0)).locals ≡ 0 → ⊥ }
    ensures some { IfSome result (λ rest. (k : ℕ) (s : Needs) →
        NotesInstr k bytes.now rest.now (with_noted noted.old s) (with_noted noted.new s)) }
    ensures none { IsNone result → noted.new ≡ noted.old }
{
    let index = long_index(bytes)?;
    noted.locals = noted.locals.max(index + 1);
    Some(&bytes[3..])
}

/// The same of a call or an access of a global.
#[inline(always)]
fn long_outer<'a>(bytes: &'a [u8], needs: &mut Needs) -> Option<&'a [u8]>
    requires long { (3 ≤ length bytes.now) × (128 ≤ get_or bytes.now 1 0) }
    requires outer { IsOuterAt (get_or bytes.now 0 0) }
    ensures some { IfSome result (λ rest. (k : ℕ) (n : LightNeeds) →
        NotesInstr k bytes.now rest.now (with_noted n needs.old) (with_noted n needs.new)) }
    ensures none { IsNone result → needs.new ≡ needs.old }
{
    let index = long_index(bytes)?;
    note_outer(needs, bytes[0], index);
    Some(&bytes[3..])
}

/// What follows the constant that these bytes begin with, where it has two bytes, and no more than it needs.
#[inline(always)]
fn behind_constant(bytes: &[u8]) -> Option<&[u8]>
    requires long { (3 ≤ length bytes.now) × (128 ≤ get_or bytes.now 1 0) }
    requires constant { IsConstantAt (get_or bytes.now 0 0) }
    ensures { IfSome result (λ rest. (k : ℕ) (s : Needs) → NotesInstr k bytes.now rest.now s s) }
{
    if !are_last(bytes[1], bytes[2]) {
        return None;
    }
    Some(&bytes[3..])
}

/// Notes the instruction of an index or a constant that these bytes begin with, where its integer has two bytes, and no
/// more than it needs. What follows it is answered.
#[inline(always)]
fn long_front<'a>(
    bytes: &'a [u8],
    light: &Light,
    noted: &mut LightNeeds,
    needs: &mut Needs,
) -> Option<&'a [u8]>
    requires long { 3 ≤ length bytes.now }
    requires row { light.now ≡ light_at (get_or bytes.now 0 0) }
    requires past { light.now.second ≤ get_or bytes.now 1 0 }
    ensures some { IfSome result (λ rest. (k : ℕ) →
        NotesInstr k bytes.now rest.now (with_noted noted.old needs.old) (with_noted noted.new needs.new)) }
    ensures none { IsNone result → (noted.new ≡ noted.old) × (needs.new ≡ needs.old) }
{
    if light.locals != 0 {
        return long_local(bytes, noted);
    }
    if light.length == 0 {
        return long_outer(bytes, needs);
    }
    if light.length != 2 {
        return None;
    }
    if light.label != 0 {
        return None;
    }
    behind_constant(bytes)
}

/// Notes the access of memory that these bytes begin with, where its offset has two bytes, and no more than it needs.
/// What follows it is answered.
#[inline(always)]
fn far_access<'a>(bytes: &'a [u8], noted: &mut LightNeeds) -> Option<&'a [u8]>
    requires far { (3 ≤ length bytes.now) × (128 ≤ get_or bytes.now 2 0) }
    requires access { (light_at (get_or bytes.now 0 0)).length ≡ 3 }
    requires aligned { get_or bytes.now 1 0 < (light_at (get_or bytes.now 0 0)).second }
    ensures some { IfSome result (λ rest. (k : ℕ) (s : Needs) →
        NotesInstr k bytes.now rest.now (with_noted noted.old s) (with_noted noted.new s)) }
    ensures none { IsNone result → noted.new ≡ noted.old }
{
    if bytes.len() < 4 {
        return None;
    }
    let fourth = bytes[3];
    if fourth == 0 || fourth >= 128 {
        return None;
    }
    noted.memory = true;
    Some(&bytes[4..])
}

/// Notes the light entry that these bytes begin with, or one with two bytes for its index, constant or offset, which so
/// many blocks enclose. What follows it is answered.
// The way branches by how many bytes the entry has: where that can be foretold, the next one is looked up before this
// one's row is there.
#[inline(always)]
fn light_front<'a>(
    bytes: &'a [u8],
    enclosing: usize,
    noted: &mut LightNeeds,
    needs: &mut Needs,
) -> Option<&'a [u8]>
    ensures some { IfSome result (λ rest. NotesInstr enclosing bytes.now rest.now
        (with_noted noted.old needs.old) (with_noted noted.new needs.new)) }
    ensures none { IsNone result → (noted.new ≡ noted.old) × (needs.new ≡ needs.old) }
{
    if bytes.len() < 3 {
        return None;
    }
    let light = light_of(bytes[0]);
    let second = bytes[1];
    if second >= light.second {
        return long_front(bytes, light, noted, needs);
    }
    if light.length == 2 {
        // A label beyond the enclosing blocks is noted elsewhere.
        if enclosing < usize::from(second & light.label) {
            return None;
        }
        note_pair(noted, light, second);
        return Some(&bytes[2..]);
    }
    if light.length == 1 {
        return Some(&bytes[1..]);
    }
    if light.memory {
        if bytes[2] >= light.third {
            return far_access(bytes, noted);
        }
        noted.memory = true;
        return Some(&bytes[3..]);
    }
    note_outer(needs, bytes[0], u32::from(second));
    Some(&bytes[2..])
}

/// Notes the entries of that kind that these bytes begin with, which so many blocks enclose, one after the other. What
/// follows them is answered.
// What most of them need stands in a local, so that the loop keeps it in registers.
#[inline(always)]
pub(crate) fn after_light<'a>(bytes: &'a [u8], enclosing: usize, needs: &mut Needs) -> &'a [u8]
    ensures { NotesRun enclosing bytes.now result.now needs.old needs.new }
{
    let mut noted = LightNeeds::of(needs);
    let mut rest = bytes;
    'entries: loop {
        let Some(behind) = light_front(rest, enclosing, &mut noted, needs) else {
            break;
        };
        rest = behind;
    }
    noted.give_back(needs);
    rest
}
