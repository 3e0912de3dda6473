//! The canonical bytes of a module that breaks no rule.

ghost use Rattle.std.specs.Prelude.{IfOk, IfErr, OnOk, false};
ghost use Rattle.wc_binary.specs.Standard.Module.{Canon, IsShortestOf};
ghost use Rattle.wc_canon.specs.Standard.Input.{KeepsRules};
ghost use Rattle.wc_canon.specs.Answering.Steps.{IsModuleFault, IsSized};

use crate::fault::Refusal;
use std::alloc::Global;
use wc_ast::Module;
use wc_binary::{encode_in, encoded_length};
use wc_check::check;

/// That the module breaks no rule.
pub(crate) fn judge_module(alloc: Global, module: &Module) -> Result<(), Refusal>
    ensures keeps { OnOk result (KeepsRules «module».now) }
    ensures err { IfErr result (IsModuleFault «module».now) }
{
    check(alloc, module)?;
    Ok(())
}

/// That the module breaks no rule, and that some bytes spell it. They are measured, and not written.
pub(crate) fn judge_spelled(alloc: Global, module: &Module) -> Result<(), Refusal>
    ensures keeps { OnOk result (KeepsRules «module».now) }
    ensures spelled { OnOk result (IsSized false «module».now) }
    ensures err { IfErr result (IsModuleFault «module».now) }
{
    judge_module(alloc, module)?;
    match encoded_length(module) {
        Some(_) => Ok(()),
        None => Err(Refusal::Oversize),
    }
}

/// The canonical bytes of the module, where it breaks no rule. They have this memory, and more where it is too little.
pub(crate) fn canonical_bytes(
    alloc: Global,
    memory: Vec<u8>,
    module: &Module,
) -> Result<Vec<u8>, Refusal>
    ensures keeps { IfOk result (λ b. KeepsRules «module».now) }
    ensures canonical { IfOk result (λ b. Canon b.items «module».now) }
    ensures shortest { IfOk result (λ b. IsShortestOf b.items «module».now) }
    ensures err { IfErr result (IsModuleFault «module».now) }
{
    judge_module(alloc, module)?;
    Ok(encode_in(memory, module)?)
}
