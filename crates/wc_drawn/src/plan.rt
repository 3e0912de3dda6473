//! What an input is put together of.

ghost use Rattle.std.specs.Prelude.{◌<◌};

use crate::drawing::Drawn;
use crate::draws::Draws;
use crate::library::{Library, MANY};
use std::alloc::{AllocError, Global};

/// The kinds of modules.
#[derive(Clone, Copy)]
pub enum Kind {
    /// A compiled program: one mutable global and then constant ones.
    Compiled,
    /// Small functions, and mutable and constant globals in turn.
    Script,
    /// A hundred imports and exports beside its functions.
    Object,
    /// Mostly data.
    Data,
}

/// What is wrong with a module.
#[derive(Clone, Copy)]
pub enum Fault {
    /// Its version is another one.
    Version,
    /// Where its last body ends stands a byte that is no opcode.
    LastEnd,
    /// It has data, and one segment more is announced than follows.
    DataCount,
}

/// A module: which functions it has, and what stands around them.
#[derive(Drop)]
pub struct Plan {
    /// What it is like.
    pub kind: Kind,
    /// The places of its functions among those of the library.
    pub picks: Vec<u32>,
    /// How many functions it imports.
    pub imports: u32,
    /// The most functions that it exports.
    pub exports: u32,
    /// How many chunks of data it has.
    pub chunks: u32,
    /// A number in a custom section.
    pub mark: u64,
    /// Whether its sizes and counts are padded.
    pub padded: bool,
    /// What is wrong with it, if anything is.
    pub fault: Option<Fault>,
}

/// The functions that a module of a plan is made of.
pub fn funcs_of<'a>(library: &'a Library, plan: &Plan) -> &'a [Drawn] {
    match plan.kind {
        Kind::Script => library.small.as_slice(),
        _ if plan.picks.len() >= MANY as usize => library.many.as_slice(),
        _ => library.few.as_slice(),
    }
}

/// How many bytes a function of the kind has, about.
fn mean_size(kind: Kind) -> u32
    ensures { 0 < result }
{
    match kind {
        Kind::Script => 80,
        _ => 650,
    }
}

impl Plan {
    /// A module of some `size` bytes.
    pub fn new(
        alloc: Global,
        draws: &mut Draws,
        kind: Kind,
        size: u32,
    ) -> Result<Plan, AllocError> {
        let (imports, exports) = match kind {
            Kind::Object if size > 8000 => (100, 100),
            _ => (crate::shape::LEAST_IMPORTS, 6),
        };
        let (code, chunks) = match kind {
            Kind::Data => (size / 10, size / 1100),
            _ => (size / 20 * 19, size / 20 / 1024),
        };
        let count = code / mean_size(kind) + 1;
        let mut picks = Vec::new(alloc);
        let most = match kind {
            Kind::Script => 300,
            _ if count >= MANY => 400,
            _ => 200,
        };
        for _ in 0..count {
            picks.push(draws.below(most))?;
        }
        Ok(Plan {
            kind,
            picks,
            imports,
            exports,
            chunks,
            mark: draws.next(),
            padded: false,
            fault: None,
        })
    }
}
