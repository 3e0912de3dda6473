//! Declared locals (Core 1.0, 5.5.13).

ghost use Rattle.std.specs.Prelude.{◌+◌, ◌≤◌, IfOk};
ghost use Rattle.wc_ast.specs.Standard.LocalGroups.{locals_limit};
ghost use Rattle.wc_binary.specs.Standard.Locals.{group as group_phrase, locals as locals_phrase};
ghost use Rattle.wc_binary.specs.Reading.Source.{Gives};

use crate::decoder::from_source::FromSource;
use crate::decoder::integer::u32;
use crate::fault::{BinFault, BinWhy, bad};
use crate::source::Source;
use std::alloc::Global;
use wc_ast::{Group, LOCALS_LIMIT, Locals, LocalsFault, ValType};

/// A group behind so many locals. The count is judged before the type is read.
#[tactic(auto, unfolding(crate::specs::Standard::Locals::group))]
fn group<S: Source>(alloc: Global, total: u32, source: &mut S) -> Result<Group, BinFault>
    ensures gives { Gives (group_phrase total) (S.input source.old) (S.input source.new) result }
    ensures within { IfOk result (λ g. total + g.count ≤ locals_limit) }
{
    let at = source.place();
    let count = u32(source)?;
    if u64::from(total) + u64::from(count) > u64::from(LOCALS_LIMIT) {
        return Err(bad(at, BinWhy::Locals));
    }
    let value_type = ValType::read(alloc, source)?;
    Ok(Group { count, value_type })
}

/// Declared locals, in the memory of others that are wanted no longer.
pub fn locals_from<S: Source>(
    alloc: Global,
    spare: Locals,
    source: &mut S,
) -> Result<Locals, BinFault>
    ensures { Gives locals_phrase (S.input source.old) (S.input source.new) result }
{
    let count = u32(source)?;
    let mut locals = spare;
    locals.clear();
    for _ in 0..count {
        let next = group(alloc, locals.len(), source)?;
        match locals.push_group(next.count, next.value_type) {
            Ok(()) => {}
            Err(LocalsFault::Memory) => return Err(BinFault::Memory),
            Err(LocalsFault::TooMany) => unreachable!(),
        }
    }
    Ok(locals)
}
