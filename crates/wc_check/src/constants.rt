//! Constant expressions.

ghost use Rattle.std.specs.Prelude.{◌≡◌};
ghost use Rattle.wc_check.specs.Standard.ConstantRules.{constant_value, read_value, constant_type, is_type};
ghost use Rattle.wc_check.specs.Standard.ConstantRules.{is_constant};

use wc_ast::{Constant, Entry, GlobalType, IndexOp, Instr, ValType};

/// Whether the expression is one constant instruction of this type, which may read these globals (Core 1.0, 3.3.7).
pub(crate) fn has_constant(readable: &[GlobalType], wanted: ValType, expression: &Constant) -> bool
    ensures { result ≡ is_constant readable.now wanted expression.now }
{
    let mut entries = expression.entries();
    match (entries.next(), entries.next()) {
        (Some(Entry::Plain(instr)), None) => is_wanted(wanted, type_of(readable, instr)),
        _ => false,
    }
}

fn is_wanted(wanted: ValType, found: Option<ValType>) -> bool
    ensures { result ≡ is_type wanted found }
{
    match (wanted, found) {
        (ValType::I32, Some(ValType::I32)) => true,
        (ValType::I64, Some(ValType::I64)) => true,
        _ => false,
    }
}

fn type_of(readable: &[GlobalType], instr: Instr<'_>) -> Option<ValType>
    ensures { result ≡ constant_type readable.now instr.entry }
{
    match instr {
        Instr::I32Const(_) => Some(ValType::I32),
        Instr::I64Const(_) => Some(ValType::I64),
        Instr::Index(op, index) => type_read(readable, op, index as usize),
        Instr::Simple(_) | Instr::Mem(_, _) | Instr::BrTable(_, _) | Instr::CallIndirect(_) => None,
    }
}

fn type_read(readable: &[GlobalType], op: IndexOp, index: usize) -> Option<ValType>
    ensures { result ≡ read_value readable.now op index }
{
    match op {
        IndexOp::GlobalGet => match readable.get(index) {
            Some(global) => value_of(*global),
            None => None,
        },
        _ => None,
    }
}

fn value_of(global: GlobalType) -> Option<ValType>
    ensures { result ≡ constant_value global }
{
    if global.mutable {
        None
    } else {
        Some(global.ty)
    }
}
