//! The drawn functions and bytes that inputs are put together of.

use crate::drawing::{Drawn, draw};
use crate::draws::Draws;
use crate::names::put_func_name;
use crate::shape::LEAST_IMPORTS;
use crate::sheet::Sheet;
use crate::spelling::put_decimal;
use std::alloc::{AllocError, Global};

/// How many bytes a chunk of data has.
pub const CHUNK: usize = 1024;

/// A chunk of data, and its text inside a string.
#[derive(Drop)]
pub struct Chunk {
    pub bytes: Sheet,
    pub text: Sheet,
}

/// What inputs are put together of.
#[derive(Drop)]
pub struct Library {
    /// Functions of compiled programs, which call only what each module imports.
    pub few: Vec<Drawn>,
    /// The same for modules of many functions, as a linker leaves them.
    pub many: Vec<Drawn>,
    /// Small functions that set globals.
    pub small: Vec<Drawn>,
    /// Data.
    pub chunks: Vec<Chunk>,
    /// Names of functions, by their indices.
    names: Vec<Sheet>,
}

/// How many functions a module has at least that those of `many` stand in.
pub const MANY: u32 = 300;

const DIGITS: &[u8; 16] = b"0123456789abcdef";

/// Puts a byte of data into a string of a text.
fn put_escaped(out: &mut Sheet, byte: u8) {
    match byte {
        b'"' | b'\\' | 0..=31 | 127..=255 => {
            out.push(b'\\');
            out.push(DIGITS[usize::from(byte >> 4)]);
            out.push(DIGITS[usize::from(byte & 15)]);
        }
        _ => out.push(byte),
    }
}

/// Puts a piece of data: words, a number of four bytes or zeroes.
fn put_piece(out: &mut Sheet, draws: &mut Draws) {
    match draws.below(3) {
        0 => {
            out.put(b"unable to open: ");
            put_decimal(out, u64::from(draws.below(1000)));
            out.push(0);
        }
        1 => out.put(&draws.below(70_000).to_le_bytes()),
        _ => out.put(&[0; 12]),
    }
}

/// Draws a chunk of data.
fn draw_chunk(alloc: Global, draws: &mut Draws) -> Chunk {
    let mut bytes = Sheet::new(alloc);
    for _ in 0..200 {
        put_piece(&mut bytes, draws);
    }
    bytes.truncate(CHUNK);
    let mut text = Sheet::new(alloc);
    for byte in bytes.as_slice() {
        put_escaped(&mut text, *byte);
    }
    Chunk { bytes, text }
}

/// How many statements a function of a compiled program has: most few, some a great many.
fn statements(draws: &mut Draws) -> u32 {
    match draws.below(10) {
        0..=3 => 4 + draws.below(16),
        4..=7 => 16 + draws.below(80),
        8 => 60 + draws.below(160),
        _ => 120 + draws.below(400),
    }
}

/// Draws so many functions of compiled programs.
fn compiled(
    alloc: Global,
    draws: &mut Draws,
    callees: u32,
    count: u32,
    padded: bool,
) -> Result<Vec<Drawn>, AllocError> {
    let mut funcs = Vec::new(alloc);
    for _ in 0..count {
        let length = statements(draws);
        funcs.push(draw(alloc, draws, callees, 1, length, padded))?;
    }
    Ok(funcs)
}

/// Draws small functions, which set globals.
fn scripts(alloc: Global, draws: &mut Draws) -> Result<Vec<Drawn>, AllocError> {
    let mut funcs = Vec::new(alloc);
    for _ in 0..300 {
        let length = 1 + draws.below(9);
        funcs.push(draw(alloc, draws, LEAST_IMPORTS, 6, length, false))?;
    }
    Ok(funcs)
}

fn draw_chunks(alloc: Global, draws: &mut Draws) -> Result<Vec<Chunk>, AllocError> {
    let mut chunks = Vec::new(alloc);
    for _ in 0..64 {
        chunks.push(draw_chunk(alloc, draws))?;
    }
    Ok(chunks)
}

/// The name of the function of an index.
fn func_name(alloc: Global, index: u32) -> Result<Sheet, AllocError> {
    let mut name = Sheet::new(alloc);
    put_func_name(&mut name, index);
    name.check()?;
    Ok(name)
}

fn func_names(alloc: Global) -> Result<Vec<Sheet>, AllocError> {
    let mut names = Vec::new(alloc);
    for index in 0..400 {
        names.push(func_name(alloc, index)?)?;
    }
    Ok(names)
}

impl Library {
    /// What a seed decides.
    pub fn new(alloc: Global, draws: &mut Draws) -> Result<Library, AllocError> {
        Ok(Library {
            few: compiled(alloc, draws, LEAST_IMPORTS, 200, false)?,
            many: compiled(alloc, draws, MANY, 400, true)?,
            small: scripts(alloc, draws)?,
            chunks: draw_chunks(alloc, draws)?,
            names: func_names(alloc)?,
        })
    }

    /// The name of the function of an index.
    pub fn name(&self, index: u32) -> &[u8] {
        match self.names.get(index as usize) {
            Some(name) => name.as_slice(),
            None => b"",
        }
    }
}
