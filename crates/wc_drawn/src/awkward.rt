//! Inputs of awkward shapes.

use crate::binary::put_mark;
use crate::draws::Draws;
use crate::names::{put_drawn_id, put_drawn_name};
use crate::sheet::Sheet;
use crate::spelling::{
    put_content, put_decimal, put_line, put_name, put_name_of, put_padded, put_section, put_signed,
    put_unsigned,
};
use std::alloc::Global;

/// Some bytes that stand for so many functions: their codes, or their texts.
#[derive(Drop)]
pub struct Row {
    /// How many functions they stand for.
    pub count: u32,
    /// The codes, or the texts, behind one another.
    pub bytes: Sheet,
}

/// A great many tiny functions, as codes.
fn tiny_codes(alloc: Global, draws: &mut Draws) -> Row {
    let mut bytes = Sheet::new(alloc);
    for _ in 0..1000 {
        match draws.below(4) {
            0 => bytes.put(&[2, 0, 0x0b]),
            1 => bytes.put(&[4, 0, 0x20, 0, 0x0b]),
            2 => {
                let number = u8::try_from(draws.below(64)).unwrap_or(0);
                bytes.put(&[7, 0, 0x20, 0, 0x41, number, 0x6a, 0x0b]);
            }
            _ => bytes.put(&[8, 1, 1, 0x7f, 0x20, 1, 0x10, 0, 0x0b]),
        }
    }
    Row { count: 1000, bytes }
}

/// The same as texts.
fn tiny_texts(alloc: Global, draws: &mut Draws) -> Row {
    let mut bytes = Sheet::new(alloc);
    for _ in 0..1000 {
        bytes.put(b"\n  (func (type 0) (param i32)");
        match draws.below(3) {
            0 => bytes.put(b")"),
            1 => bytes.put(b"\n    local.get 0\n    call 0)"),
            _ => {
                bytes.put(b" (local i32) (local.set 1 (i32.const ");
                put_decimal(&mut bytes, u64::from(draws.below(100_000)));
                bytes.put(b")))");
            }
        }
    }
    Row { count: 1000, bytes }
}

/// A code of these bytes of instructions, with its size in front.
fn put_code(out: &mut Sheet, locals: &[u8], body: &Sheet) {
    put_unsigned(
        out,
        locals.len().saturating_add(body.len()).saturating_add(1) as u64,
    );
    out.put(locals);
    out.append(body);
    out.push(0x0b);
}

/// One function of blocks in one another, 20,000 deep.
fn nested_code(alloc: Global, draws: &mut Draws) -> Row {
    let mut body = Sheet::new(alloc);
    for _ in 0..20_000 {
        let kind = if draws.below(3) == 0 { 0x03 } else { 0x02 };
        body.put(&[kind, 0x40]);
        if draws.below(8) == 0 {
            body.push(0x0c);
            put_unsigned(&mut body, u64::from(draws.below(2)));
        }
    }
    for _ in 0..20_000 {
        body.push(0x0b);
    }
    let mut bytes = Sheet::new(alloc);
    put_code(&mut bytes, &[0], &body);
    Row { count: 1, bytes }
}

/// The instructions of a table of branches with thousands of labels.
fn table_body(alloc: Global, draws: &mut Draws) -> Sheet {
    let mut body = Sheet::new(alloc);
    for _ in 0..200 {
        body.put(&[0x02, 0x40]);
    }
    body.put(&[0x20, 0, 0x0e]);
    let count = 2000 + draws.below(100);
    put_unsigned(&mut body, u64::from(count));
    for _ in 0..=count {
        put_unsigned(&mut body, u64::from(draws.below(200)));
    }
    for _ in 0..200 {
        body.push(0x0b);
    }
    body
}

/// Functions of such tables.
fn table_codes(alloc: Global, draws: &mut Draws) -> Row {
    let mut bytes = Sheet::new(alloc);
    for _ in 0..10 {
        put_code(&mut bytes, &[0], &table_body(alloc, draws));
    }
    Row { count: 10, bytes }
}

/// Instructions of constants of all lengths, up to ten bytes.
fn constant_body(alloc: Global, draws: &mut Draws) -> Sheet {
    let mut body = Sheet::new(alloc);
    for _ in 0..60 {
        body.put(&[0x20, 0, 0x42]);
        let number = draws.next() >> draws.below(63);
        put_signed(&mut body, number.cast_signed());
        body.put(&[0x37, 3, 8]);
    }
    body
}

/// Functions of such constants.
fn constant_codes(alloc: Global, draws: &mut Draws) -> Row {
    let mut bytes = Sheet::new(alloc);
    for _ in 0..50 {
        put_code(&mut bytes, &[0], &constant_body(alloc, draws));
    }
    Row { count: 50, bytes }
}

/// The opcodes of instructions whose integers are padded.
static PADDED: [u8; 8] = [0x20, 0x20, 0x21, 0x22, 0x41, 0x10, 0x23, 0x24];

/// Instructions whose integers take five bytes each, and which set globals between which constant ones stand.
fn padded_body(alloc: Global, draws: &mut Draws) -> Sheet {
    let mut body = Sheet::new(alloc);
    for _ in 0..60 {
        let byte = draws.one_of(&PADDED, 0x20);
        body.push(byte);
        let number = match byte {
            0x24 => u64::from(draws.below(6)) * 2 + 1,
            0x10 => u64::from(draws.below(4)),
            _ => u64::from(draws.below(8)),
        };
        put_padded(&mut body, number);
    }
    body
}

/// Functions of such instructions.
fn padded_codes(alloc: Global, draws: &mut Draws) -> Row {
    let mut bytes = Sheet::new(alloc);
    for _ in 0..50 {
        put_code(&mut bytes, &[1, 12, 0x7f], &padded_body(alloc, draws));
    }
    Row { count: 50, bytes }
}

/// Puts the section of so many functions of the first type.
fn put_funcs(alloc: Global, out: &mut Sheet, count: u64) {
    let mut content = Sheet::new(alloc);
    put_unsigned(&mut content, count);
    for _ in 0..count {
        content.push(0);
    }
    put_content(out, 3, &content, false);
}

/// Puts the section of twelve globals, of which each second one is mutable.
fn put_globals(alloc: Global, out: &mut Sheet) {
    let mut content = Sheet::new(alloc);
    content.push(12);
    for index in 0..12 {
        content.put(&[0x7f, index % 2, 0x41, index, 0x0b]);
    }
    put_content(out, 6, &content, false);
}

/// Puts the section of so many copies of a row of codes, which are so many functions.
fn put_copies(alloc: Global, out: &mut Sheet, row: &Row, copies: u32, count: u64) {
    let mut content = Sheet::new(alloc);
    put_unsigned(&mut content, count);
    for _ in 0..copies {
        content.append(&row.bytes);
    }
    put_content(out, 10, &content, false);
}

/// Puts a module of so many copies of a row of codes.
pub fn put_rows(alloc: Global, out: &mut Sheet, row: &Row, copies: u32, mark: u64) {
    let count = u64::from(row.count) * u64::from(copies);
    out.put(b"\0asm\x01\0\0\0");
    put_section(out, 1, &[1, 0x60, 1, 0x7f, 0], false);
    put_funcs(alloc, out, count);
    put_section(out, 5, &[1, 0, 1], false);
    put_globals(alloc, out);
    put_copies(alloc, out, row, copies, count);
    put_mark(alloc, out, mark);
}

/// Puts a text of so many copies of a row of functions.
pub fn put_row_text(out: &mut Sheet, row: &Row, copies: u32, mark: u64) {
    out.put(b"(module\n  (type (func (param i32)))");
    for _ in 0..copies {
        out.append(&row.bytes);
    }
    out.put(b")\n;; build ");
    put_decimal(out, mark);
}

/// Puts a name into the imports and the exports, as that of a function.
fn put_both(imports: &mut Sheet, exports: &mut Sheet, name: &Sheet, index: u32) {
    put_name(imports, b"env");
    put_name_of(imports, name);
    imports.put(&[0, 0]);
    put_name_of(exports, name);
    exports.push(0);
    put_unsigned(exports, u64::from(index));
}

/// Puts a module of imports and exports with so many names each, which the seed draws.
pub fn put_names(alloc: Global, out: &mut Sheet, seed: u64, first: u32, count: u32) {
    out.put(b"\0asm\x01\0\0\0");
    put_section(out, 1, &[1, 0x60, 1, 0x7f, 0], false);
    let mut imports = Sheet::new(alloc);
    let mut exports = Sheet::new(alloc);
    let mut name = Sheet::new(alloc);
    put_unsigned(&mut imports, u64::from(count));
    put_unsigned(&mut exports, u64::from(count));
    for index in 0..count {
        name.clear();
        put_drawn_name(&mut name, seed, first.wrapping_add(index));
        put_both(&mut imports, &mut exports, &name, index);
    }
    put_content(out, 2, &imports, false);
    put_content(out, 7, &exports, false);
}

/// Puts the text of an import with the name and the identifier of an index.
fn put_import_text(out: &mut Sheet, seed: u64, index: u32) {
    out.put(b"\n  (import \"env\" \"");
    put_drawn_name(out, seed, index);
    out.put(b"\" (func $");
    put_drawn_id(out, seed, index);
    out.put(b" (param i32)))");
}

/// Puts the text of its export.
fn put_export_text(out: &mut Sheet, seed: u64, index: u32) {
    out.put(b"\n  (export \"");
    put_drawn_name(out, seed, index);
    out.put(b"\" (func $");
    put_drawn_id(out, seed, index);
    out.put(b"))");
}

/// Puts the text of the module of imports and exports with so many names each, which the seed draws.
pub fn put_names_text(out: &mut Sheet, seed: u64, first: u32, count: u32) {
    out.put(b"(module");
    for index in 0..count {
        put_import_text(out, seed, first.wrapping_add(index));
    }
    for index in 0..count {
        put_export_text(out, seed, first.wrapping_add(index));
    }
    out.put(b")\n");
}

static HEADS: [&str; 4] = ["(i32.add", "(i32.xor", "(i32.load offset=8", "(i32.eqz"];

/// Puts a function of 400 folded instructions in one another.
fn put_deep_text(out: &mut Sheet, draws: &mut Draws) {
    out.put(b"\n  (func (param $value i32) (local $sum i32)");
    put_line(out, 4);
    out.put(b"(local.set $sum");
    for _ in 0..400 {
        let head = draws.one_of(&HEADS, "");
        put_line(out, 8);
        out.put(head.as_bytes());
    }
    out.put(b" (local.get $value)");
    for _ in 0..402 {
        out.push(b')');
    }
}

/// Functions of folded instructions, hundreds in one another.
fn deep_texts(alloc: Global, draws: &mut Draws) -> Row {
    let mut bytes = Sheet::new(alloc);
    for _ in 0..20 {
        put_deep_text(&mut bytes, draws);
    }
    Row { count: 20, bytes }
}

/// A row of each shape.
#[derive(Drop)]
pub struct Shapes {
    /// Tiny functions, as codes.
    pub tiny: Row,
    /// One function of blocks in one another.
    pub nested: Row,
    /// Functions of tables of branches with thousands of labels.
    pub tables: Row,
    /// Functions of constants of all lengths.
    pub constants: Row,
    /// Functions whose integers take five bytes each.
    pub padded: Row,
    /// Tiny functions, as texts.
    pub tiny_texts: Row,
    /// Texts of folded instructions, hundreds in one another.
    pub deep_texts: Row,
}

impl Shapes {
    /// What the draws decide. A row that wanted memory says so once it is put somewhere.
    pub fn new(alloc: Global, draws: &mut Draws) -> Shapes {
        Shapes {
            tiny: tiny_codes(alloc, draws),
            nested: nested_code(alloc, draws),
            tables: table_codes(alloc, draws),
            constants: constant_codes(alloc, draws),
            padded: padded_codes(alloc, draws),
            tiny_texts: tiny_texts(alloc, draws),
            deep_texts: deep_texts(alloc, draws),
        }
    }
}
