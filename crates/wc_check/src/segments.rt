//! What fills tables and memories.

ghost use Rattle.std.specs.Prelude.{◌≡◌, nat_le};
ghost use Rattle.std.specs.List.{list_any};
ghost use Rattle.wc_check.specs.Standard.Rules.{each, first};
ghost use Rattle.wc_check.specs.Judging.Verdicts.{verdict};
ghost use Rattle.wc_check.specs.Standard.Spaces.{module_context};
ghost use Rattle.wc_check.specs.Standard.SegmentRules.{elem_rules, data_rules};
ghost use Rattle.wc_check.specs.Standard.Broken.{broken_elem, broken_data};

use crate::constants::has_constant;
use crate::context::Context;
use crate::fault::{CheckFault, CheckWhy, Item, broken_if, judge};
use wc_ast::{Data, Elem, Module, ValType};

fn any_from(indices: &[u32], count: usize) -> bool
    ensures { result ≡ list_any (λ n. nat_le count n) indices.now }
{
    indices.iter().any(|n| count <= *n as usize)
}

/// The first rule that an element segment breaks.
fn elem_rule(context: &Context, elem: &Elem) -> Option<CheckWhy>
    ensures { result ≡ first (elem_rules context.now elem.now) }
{
    let is_constant = has_constant(context.globals.as_slice(), ValType::I32, &elem.offset);
    let offset = broken_if(CheckWhy::Constant, !is_constant);
    let has_function_above = any_from(elem.funcs.as_slice(), context.funcs);
    let is_above = context.tables <= elem.table as usize || has_function_above;
    offset.or(broken_if(CheckWhy::Index, is_above))
}

/// The first rule that a data segment breaks.
fn data_rule(context: &Context, data: &Data) -> Option<CheckWhy>
    ensures { result ≡ first (data_rules context.now «data».now) }
{
    let is_constant = has_constant(context.globals.as_slice(), ValType::I32, &data.offset);
    let offset = broken_if(CheckWhy::Constant, !is_constant);
    offset.or(broken_if(CheckWhy::Index, context.mems <= data.memory as usize))
}

/// The element segments.
pub(crate) fn check_elems(module: &Module, context: &Context) -> Result<(), CheckFault>
    requires { context.now ≡ module_context «module».now }
    ensures { result ≡ verdict (each (broken_elem «module».now) 0 «module».now.elems) }
{
    for (place, elem) in module.elems.as_slice().iter().enumerate() {
        judge(Item::Elem(place), elem_rule(context, elem))?;
    }
    Ok(())
}

/// The data segments.
pub(crate) fn check_datas(module: &Module, context: &Context) -> Result<(), CheckFault>
    requires { context.now ≡ module_context «module».now }
    ensures { result ≡ verdict (each (broken_data «module».now) 0 «module».now.datas) }
{
    for (place, data) in module.datas.as_slice().iter().enumerate() {
        judge(Item::Data(place), data_rule(context, data))?;
    }
    Ok(())
}
