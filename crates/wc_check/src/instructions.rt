//! The instructions of functions.

ghost use Rattle.std.specs.Prelude.{◌≡◌};
ghost use Rattle.wc_check.specs.Standard.Rules.{first};
ghost use Rattle.wc_check.specs.Standard.InstructionRules.{simple_rules, index_rules, instr_rules, block_rules};
ghost use Rattle.wc_check.specs.Standard.InstructionRules.{is_constant_at};

use crate::context::Context;
use crate::fault::{CheckWhy, broken_if};
use wc_ast::{BlockType, GlobalType, IndexOp, Instr, SimpleOp};

/// The first rule that an instruction breaks, in which none is nested: so many blocks enclose it, and its function has
/// so many locals, parameters counted.
#[inline(always)]
pub(crate) fn instr_rule(
    context: &Context,
    locals: usize,
    enclosing: usize,
    instr: Instr<'_>,
) -> Option<CheckWhy>
    ensures { result ≡ first (instr_rules context.now locals enclosing instr.entry) }
{
    match instr {
        Instr::Simple(op) => simple_rule(context, op),
        Instr::Index(op, index) => index_rule(context, locals, enclosing, op, index as usize),
        Instr::Mem(op, arg) => {
            let space = broken_if(CheckWhy::Index, context.mems == 0);
            space.or(broken_if(CheckWhy::Align, op.natural_alignment() < arg.align))
        }
        Instr::BrTable(default, labels) => {
            let is_above = labels.any_above(enclosing) || enclosing < default as usize;
            broken_if(CheckWhy::Label, is_above)
        }
        Instr::CallIndirect(index) => {
            let of_type = broken_if(CheckWhy::TypeIndex, context.types <= index as usize);
            of_type.or(broken_if(CheckWhy::Index, context.tables == 0))
        }
        Instr::I32Const(_) => None,
        Instr::I64Const(_) => None,
    }
}

#[inline(always)]
fn simple_rule(context: &Context, op: SimpleOp) -> Option<CheckWhy>
    ensures { result ≡ first (simple_rules context.now op) }
{
    match op {
        SimpleOp::MemorySize => broken_if(CheckWhy::Index, context.mems == 0),
        SimpleOp::MemoryGrow => broken_if(CheckWhy::Index, context.mems == 0),
        _ => None,
    }
}

#[inline(always)]
fn index_rule(
    context: &Context,
    locals: usize,
    enclosing: usize,
    op: IndexOp,
    index: usize,
) -> Option<CheckWhy>
    ensures { result ≡ first (index_rules context.now locals enclosing op index) }
{
    match op {
        IndexOp::Br => broken_if(CheckWhy::Label, enclosing < index),
        IndexOp::BrIf => broken_if(CheckWhy::Label, enclosing < index),
        IndexOp::Call => broken_if(CheckWhy::Index, context.funcs <= index),
        IndexOp::LocalGet => broken_if(CheckWhy::Index, locals <= index),
        IndexOp::LocalSet => broken_if(CheckWhy::Index, locals <= index),
        IndexOp::LocalTee => broken_if(CheckWhy::Index, locals <= index),
        IndexOp::GlobalGet => broken_if(CheckWhy::Index, context.globals.len() <= index),
        IndexOp::GlobalSet => {
            let space = broken_if(CheckWhy::Index, context.globals.len() <= index);
            let is_constant = is_constant_global(context.globals.as_slice(), index);
            space.or(broken_if(CheckWhy::Immutable, is_constant))
        }
    }
}

#[inline(always)]
fn is_constant_global(globals: &[GlobalType], index: usize) -> bool
    ensures { result ≡ is_constant_at globals.now index }
{
    match globals.get(index) {
        Some(global) => !global.mutable,
        None => false,
    }
}

/// The rule that the type of a block, a loop or an if breaks.
#[inline(always)]
pub(crate) fn block_rule(context: &Context, block_type: BlockType) -> Option<CheckWhy>
    ensures { result ≡ first (block_rules context.now block_type) }
{
    match block_type {
        BlockType::Empty => None,
        BlockType::Value(_) => None,
        BlockType::Index(index) => broken_if(CheckWhy::TypeIndex, context.types <= index as usize),
    }
}
