//! What instructions need of what is around them.

ghost use Rattle.std.specs.Prelude.{◌≡◌};
ghost use Rattle.wc_body.specs.Standard.Needed.{nothing, enough, low_bit, with_simple, with_index, with_access};
ghost use Rattle.wc_body.specs.Standard.Needed.{with_instr, with_block, joined, own_of};

use crate::instr::{BlockType, Instr};
use wc_ops::{IndexOp, MemOp, SimpleOp};

/// What the instructions of a body need of the function and of the module around them, so that the rules on each of
/// them hold (Core 1.0, 3.3). What is needed of an index space is a count: one more than the highest index, and
/// `2^32 - 1` where that is more.
#[derive(Clone, Copy, PartialEq, Eq)]
pub struct Needs {
    /// How many types.
    pub types: u32,
    /// How many functions.
    pub funcs: u32,
    /// How many globals, of those that are read.
    pub globals: u32,
    /// The same of those that are set.
    pub set_globals: u32,
    /// The lowest index of those that are set, or `2^32 - 1` where none is.
    pub lowest_set_global: u32,
    /// Which of the globals below 64 are set: bit n is 1 where global n is one of them.
    pub set_below_64: u64,
    /// How many locals, parameters counted.
    pub locals: u32,
    /// Whether a table is needed.
    pub table: bool,
    /// Whether a memory is needed.
    pub memory: bool,
    /// Whether a label is above the number of enclosing blocks. No surroundings give that.
    pub outer_label: bool,
    /// Whether an alignment is above the width of the access. No surroundings give that.
    pub over_aligned: bool,
}

/// Of what the instructions of a body need, that which a row keeps of each: what the function's locals must give, and
/// which globals are set.
#[derive(Clone, Copy, PartialEq, Eq)]
pub struct OwnNeeds {
    /// How many locals, parameters counted.
    pub locals: u32,
    /// How many globals, of those that are set.
    pub set_globals: u32,
    /// The lowest index of those that are set, or `2^32 - 1` where none is.
    pub lowest_set_global: u32,
}

impl Needs {
    /// What both need.
    pub(crate) fn joined(self, other: Needs) -> Needs
        ensures { result ≡ joined self other }
    {
        Needs {
            types: self.types.max(other.types),
            funcs: self.funcs.max(other.funcs),
            globals: self.globals.max(other.globals),
            set_globals: self.set_globals.max(other.set_globals),
            lowest_set_global: self.lowest_set_global.min(other.lowest_set_global),
            set_below_64: self.set_below_64 | other.set_below_64,
            locals: self.locals.max(other.locals),
            table: self.table || other.table,
            memory: self.memory || other.memory,
            outer_label: self.outer_label || other.outer_label,
            over_aligned: self.over_aligned || other.over_aligned,
        }
    }

    /// What a row keeps of each of its bodies.
    pub(crate) fn own(self) -> OwnNeeds
        ensures { result ≡ own_of self }
    {
        OwnNeeds {
            locals: self.locals,
            set_globals: self.set_globals,
            lowest_set_global: self.lowest_set_global,
        }
    }

    pub(crate) fn nothing() -> Needs
        ensures { result ≡ nothing }
    {
        Needs {
            types: 0,
            funcs: 0,
            globals: 0,
            set_globals: 0,
            lowest_set_global: u32::MAX,
            set_below_64: 0,
            locals: 0,
            table: false,
            memory: false,
            outer_label: false,
            over_aligned: false,
        }
    }

    #[inline(always)]
    fn note_simple(&mut self, op: SimpleOp)
        ensures { self.new ≡ with_simple self.old op }
    {
        if matches!(op, SimpleOp::MemorySize | SimpleOp::MemoryGrow) {
            self.memory = true;
        }
    }

    #[inline(always)]
    pub(crate) fn note_index(&mut self, enclosing: usize, op: IndexOp, index: u32)
        ensures { self.new ≡ with_index self.old enclosing op index }
    {
        match op {
            IndexOp::LocalGet => self.locals = enough(self.locals, index),
            IndexOp::LocalSet => self.locals = enough(self.locals, index),
            IndexOp::LocalTee => self.locals = enough(self.locals, index),
            IndexOp::GlobalGet => self.globals = enough(self.globals, index),
            IndexOp::GlobalSet => {
                self.set_globals = enough(self.set_globals, index);
                self.lowest_set_global = self.lowest_set_global.min(index);
                self.set_below_64 |= low_bit(index);
            }
            IndexOp::Call => self.funcs = enough(self.funcs, index),
            IndexOp::Br => self.outer_label = self.outer_label || enclosing < index as usize,
            IndexOp::BrIf => self.outer_label = self.outer_label || enclosing < index as usize,
        }
    }

    /// One more access of memory, of this alignment.
    #[inline(always)]
    pub(crate) fn note_access(&mut self, op: MemOp, align: u32)
        ensures { self.new ≡ with_access self.old op align }
    {
        self.memory = true;
        self.over_aligned = self.over_aligned || op.natural_alignment() < align;
    }

    /// One more instruction, which so many blocks enclose.
    #[inline(always)]
    pub(crate) fn note_instr(&mut self, enclosing: usize, instr: &Instr<'_>)
        ensures { self.new ≡ with_instr self.old enclosing instr.now }
    {
        match *instr {
            Instr::Simple(op) => self.note_simple(op),
            Instr::Index(op, index) => self.note_index(enclosing, op, index),
            Instr::Mem(op, arg) => self.note_access(op, arg.align),
            Instr::BrTable(default, ref labels) => {
                let is_outer = labels.again().any_above(enclosing) || enclosing < default as usize;
                self.outer_label = self.outer_label || is_outer;
            }
            Instr::CallIndirect(ty) => {
                self.types = enough(self.types, ty);
                self.table = true;
            }
            Instr::I32Const(_) => {}
            Instr::I64Const(_) => {}
        }
    }

    /// One more block, loop or if, of this type.
    pub(crate) fn note_block(&mut self, block_type: BlockType)
        ensures { self.new ≡ with_block self.old block_type }
    {
        match block_type {
            BlockType::Empty => {}
            BlockType::Value(_) => {}
            BlockType::Index(index) => self.types = enough(self.types, index),
        }
    }
}

/// So many, and enough for this index.
#[inline(always)]
fn enough(count: u32, index: u32) -> u32
    ensures { result ≡ enough count index }
{
    count.max(index.saturating_add(1))
}

/// The bit of this index where it is below 64, and else none.
#[inline(always)]
pub(crate) fn low_bit(index: u32) -> u64
    ensures { result ≡ low_bit index }
{
    if index < 64 { 1 << index } else { 0 }
}
