//! Canonical bytes of modules.

mod contents;
mod exports;
mod expression;
mod externals;
mod funcs;
mod imports;
mod index;
mod locals;
mod measured;
mod section;
mod sections;
mod table_types;
mod types;
mod value;

ghost use Rattle.wc_binary.specs.Standard.Encoding.{EncodesModule, HasLength};

use crate::fault::EncFault;
use sections::{sections_size, write_sections};
use std::alloc::Global;
use wc_ast::Module;

/// The magic bytes, and the version.
const PREAMBLE: [u8; 8] = [0x00, 0x61, 0x73, 0x6d, 0x01, 0x00, 0x00, 0x00];

/// The canonical bytes of a module: no other list of bytes that spells it is as short. `Oversize` where no list of
/// bytes spells it, because a count or a size would reach `2^32`.
pub fn encode(alloc: Global, m: &Module) -> Result<Vec<u8>, EncFault>
    ensures { EncodesModule m.now result }
{
    encode_in(Vec::new(alloc), m)
}

/// The same, in memory that held other bytes, which are dropped: it grows only where there is too little of it.
pub fn encode_in(memory: Vec<u8>, m: &Module) -> Result<Vec<u8>, EncFault>
    ensures { EncodesModule m.now result }
{
    let mut out = memory;
    out.clear();
    out.extend_from_slice(&PREAMBLE)?;
    write_sections(&mut out, m)?;
    Ok(out)
}

/// How many canonical bytes a module has: the length of what `encode` answers, where memory suffices. None exactly
/// where that answer is `Oversize`. No byte is written, and it takes no memory.
pub fn encoded_length(m: &Module) -> Option<u64>
    ensures { HasLength m.now result }
{
    let sections = sections_size(m)?;
    Some((PREAMBLE.len() + sections) as u64)
}
