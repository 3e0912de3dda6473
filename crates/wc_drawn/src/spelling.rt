//! How numbers and sections are spelled.

use crate::sheet::Sheet;

/// The low seven bits of a number.
fn group(number: u64) -> u8 {
    u8::try_from(number & 127).unwrap_or(0)
}

/// Puts an unsigned integer, shortest.
pub fn put_unsigned(out: &mut Sheet, number: u64) {
    let mut left = number;
    for _ in 0..10 {
        if left < 128 {
            break;
        }
        out.push(group(left) | 128);
        left >>= 7;
    }
    out.push(group(left));
}

/// Puts an unsigned integer below `2^35`, in five bytes.
pub fn put_padded(out: &mut Sheet, number: u64) {
    let mut left = number;
    for _ in 0..4 {
        out.push(group(left) | 128);
        left >>= 7;
    }
    out.push(group(left));
}

/// Puts an unsigned integer, padded or shortest.
pub fn put_size(out: &mut Sheet, number: usize, padded: bool) {
    if padded {
        put_padded(out, number as u64);
    } else {
        put_unsigned(out, number as u64);
    }
}

/// Puts a signed integer, shortest.
pub fn put_signed(out: &mut Sheet, number: i64) {
    let mut left = number;
    for _ in 0..10 {
        if (-64..64).contains(&left) {
            break;
        }
        out.push(group(left.cast_unsigned()) | 128);
        left >>= 7;
    }
    out.push(group(left.cast_unsigned()));
}

/// Puts a name.
pub fn put_name(out: &mut Sheet, name: &[u8]) {
    put_unsigned(out, name.len() as u64);
    out.put(name);
}

/// Puts a name that a sheet has.
pub fn put_name_of(out: &mut Sheet, name: &Sheet) {
    put_unsigned(out, name.len() as u64);
    out.append(name);
}

/// Puts a section.
pub fn put_section(out: &mut Sheet, id: u8, content: &[u8], padded: bool) {
    out.push(id);
    put_size(out, content.len(), padded);
    out.put(content);
}

/// Puts a section of what a sheet has.
pub fn put_content(out: &mut Sheet, id: u8, content: &Sheet, padded: bool) {
    out.push(id);
    put_size(out, content.len(), padded);
    out.append(content);
}

/// Puts a number in decimal digits.
pub fn put_decimal(out: &mut Sheet, number: u64) {
    let mut digits = [b'0'; 20];
    let mut left = number;
    let mut start = 20;
    for place in (0..20).rev() {
        digits[place] = b'0' + (left % 10) as u8;
        left /= 10;
        start = place;
        if left == 0 {
            break;
        }
    }
    if let Some(shown) = digits.get(start..) {
        out.put(shown);
    }
}

/// Puts a signed number in decimal digits.
pub fn put_number(out: &mut Sheet, number: i64) {
    if number < 0 {
        out.push(b'-');
    }
    put_decimal(out, number.unsigned_abs());
}

/// Puts a line's end and so many spaces.
pub fn put_line(out: &mut Sheet, spaces: usize) {
    out.push(b'\n');
    for _ in 0..spaces {
        out.push(b' ');
    }
}
