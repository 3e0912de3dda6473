//! Tables and memories.

ghost use Rattle.std.specs.Prelude.{◌≡◌, ◌+◌, ◌^◌, ◌<◌, length};
ghost use Rattle.wc_check.specs.Standard.Rules.{each, first};
ghost use Rattle.wc_check.specs.Judging.Verdicts.{verdict};
ghost use Rattle.wc_check.specs.Standard.SizeRules.{has_min_above_max, has_size_above};
ghost use Rattle.wc_check.specs.Standard.SizeRules.{table_rules, mem_rules, broken_table, broken_mem};

use crate::fault::{CheckFault, CheckWhy, Item, broken_if, judge};
use wc_ast::Limits;

/// How many pages a memory may have (Core 1.0, 3.2.4).
const PAGE_LIMIT: u32 = 65_536;

fn is_turned(limits: Limits) -> bool
    ensures { result ≡ has_min_above_max limits }
{
    match limits.max {
        Some(greatest) => greatest < limits.min,
        None => false,
    }
}

fn is_above(limit: u32, limits: Limits) -> bool
    ensures { result ≡ has_size_above limit limits }
{
    match limits.max {
        Some(greatest) => limit < limits.min || limit < greatest,
        None => limit < limits.min,
    }
}

/// The first rule that the table of this index breaks.
pub(crate) fn table_rule(index: usize, limits: Limits) -> Option<CheckWhy>
    ensures { result ≡ first (table_rules index limits) }
{
    let bounds = broken_if(CheckWhy::Limits, is_turned(limits));
    bounds.or(broken_if(CheckWhy::Several, 0 < index))
}

/// The first rule that the memory of this index breaks.
pub(crate) fn mem_rule(index: usize, limits: Limits) -> Option<CheckWhy>
    ensures { result ≡ first (mem_rules index limits) }
{
    let bounds = broken_if(
        CheckWhy::Limits,
        is_turned(limits) || is_above(PAGE_LIMIT, limits),
    );
    bounds.or(broken_if(CheckWhy::Several, 0 < index))
}

/// The tables that a module defines; the first one has this index.
pub(crate) fn check_tables(start: usize, tables: &[Limits]) -> Result<(), CheckFault>
    requires { start + length tables.now < 2 ^ 64 }
    ensures { result ≡ verdict (each broken_table start tables.now) }
{
    for (place, limits) in tables.iter().enumerate() {
        let index = start + place;
        judge(Item::Table(index), table_rule(index, *limits))?;
    }
    Ok(())
}

/// The memories that a module defines; the first one has this index.
pub(crate) fn check_mems(start: usize, mems: &[Limits]) -> Result<(), CheckFault>
    requires { start + length mems.now < 2 ^ 64 }
    ensures { result ≡ verdict (each broken_mem start mems.now) }
{
    for (place, limits) in mems.iter().enumerate() {
        let index = start + place;
        judge(Item::Memory(index), mem_rule(index, *limits))?;
    }
    Ok(())
}
