//! Names as programs have them.

use crate::draws::Draws;
use crate::sheet::Sheet;
use crate::spelling::put_decimal;

static WORDS: [&str; 24] = [
    "parse", "value", "text", "open", "close", "page", "cursor", "index", "table", "alloc", "free",
    "buffer", "string", "length", "column", "next", "read", "write", "lock", "error", "state",
    "result", "bind", "step",
];

static LOCALS: [&str; 12] = [
    "ptr", "len", "count", "i", "end", "flags", "result", "node", "size", "tmp", "base", "offset",
];

/// Letters of two bytes.
static LETTERS: [&str; 16] = [
    "ä", "ö", "ü", "ß", "é", "ñ", "ø", "å", "ç", "ő", "š", "ł", "λ", "π", "ж", "я",
];

/// Characters of three bytes.
static SIGNS: [&str; 12] = ["…", "–", "‹", "€", "→", "≤", "∑", "─", "语", "表", "ブ", "가"];

/// Puts the two words of a place and a number.
fn put_words(out: &mut Sheet, place: u32, number: u32) {
    let place = place as usize;
    let first = WORDS[place % 24];
    let second = WORDS[place / 24 % 24];
    out.put(first.as_bytes());
    out.push(b'_');
    out.put(second.as_bytes());
    out.push(b'_');
    put_decimal(out, u64::from(number));
}

/// Puts the name of the function of an index.
pub fn put_func_name(out: &mut Sheet, index: u32) {
    put_words(out, index, index);
}

/// The draws of a name, which are the same wherever it stands.
fn draws_of(seed: u64, index: u32) -> Draws {
    Draws::new(seed.wrapping_add(u64::from(index)))
}

/// Puts two drawn words and a number.
fn put_drawn_words(out: &mut Sheet, draws: &mut Draws, number: u32) {
    put_words(out, draws.below(24 * 24), number);
}

/// Puts the identifier that a seed and an index draw.
pub fn put_drawn_id(out: &mut Sheet, seed: u64, index: u32) {
    put_drawn_words(out, &mut draws_of(seed, index), index);
}

/// Puts the name that a seed and an index draw. It begins with their identifier; each fourth one goes on with drawn
/// characters beyond ASCII.
pub fn put_drawn_name(out: &mut Sheet, seed: u64, index: u32) {
    let mut draws = draws_of(seed, index);
    put_drawn_words(out, &mut draws, index);
    if index % 4 != 0 {
        return;
    }
    for part in ["_f", "r_gr", "", "ere_Bl"] {
        out.put(part.as_bytes());
        out.put(draws.one_of(&LETTERS, "ö").as_bytes());
    }
    out.put(b"cke_der_Tabelle_");
    out.put(draws.one_of(&SIGNS, "…").as_bytes());
    out.push(b'_');
    put_drawn_words(out, &mut draws, index.wrapping_mul(7) % 100_000);
}

/// Puts the name of the local of an index.
pub fn put_local_name(out: &mut Sheet, index: u32) {
    let place = index as usize;
    let name = LOCALS[place % 12];
    out.put(name.as_bytes());
    if place >= 12 {
        put_decimal(out, u64::from(index));
    }
}
