//! The bodies of functions.

ghost use Rattle.std.specs.Prelude.{◌≡◌, ◌+◌, ◌<◌, ◌≤◌, ◌^◌, ◌-◌, ◌↔◌, true, length, List};
ghost use Rattle.wc_body.specs.Standard.Entries.{mark};
ghost use Rattle.wc_body.specs.Standard.Needed.{needs_of};
ghost use Rattle.wc_ast.specs.declared.limits.GlobalType.{GlobalType};
ghost use Rattle.wc_check.specs.Judging.Enough.{HasRoom, HasCommon, HasOwnRooms, HasOwn, AreSettable, run_starts};
ghost use Rattle.wc_check.specs.Judging.Enough.{AreMarkedSettable, IsKnown, first_asked};
ghost use Rattle.wc_check.specs.Standard.InstructionRules.{broken_in_body};
ghost use Rattle.wc_check.specs.Judging.Marks.{judged_mark};
ghost use Rattle.wc_check.specs.Judging.Verdicts.{verdict};

use crate::context::Context;
use crate::fault::{CheckFault, CheckWhy, Item, judge};
use crate::instructions::{block_rule, instr_rule};
use wc_ast::{BodyRef, Entry, GlobalType, Needs, OwnNeeds};

/// What an entry comes to.
#[derive(Clone, Copy)]
struct Judgement {
    /// The first rule that it breaks.
    why: Option<CheckWhy>,
    /// Whether it has a number.
    counts: bool,
    /// How many blocks enclose the next one.
    enclosing: usize,
}

/// So many blocks enclose the entry, in a function of so many locals.
fn judge_entry(context: &Context, locals: usize, enclosing: usize, entry: Entry<'_>) -> Judgement
    requires { enclosing + 1 < 2 ^ 64 }
    ensures { result ≡ judged_mark context.now locals enclosing (mark entry.entry) }
{
    match entry {
        Entry::Plain(instr) => Judgement {
            why: instr_rule(context, locals, enclosing, instr),
            counts: true,
            enclosing,
        },
        Entry::Begin(_, block_type) => Judgement {
            why: block_rule(context, block_type),
            counts: true,
            enclosing: enclosing + 1,
        },
        Entry::Else => Judgement {
            why: None,
            counts: false,
            enclosing,
        },
        Entry::End => Judgement {
            why: None,
            counts: false,
            enclosing: enclosing.saturating_sub(1),
        },
    }
}

/// The body of the function of this index, which has so many locals, parameters counted: entry by entry.
fn check_entries(
    context: &Context,
    locals: usize,
    func: usize,
    body: &BodyRef<'_>,
) -> Result<(), CheckFault>
    ensures { result ≡ verdict (broken_in_body context.now locals func body.now) }
{
    // There are no more entries than bytes, so neither count overflows.
    let _ = body.bytes();
    let mut enclosing: usize = 0;
    let mut number: usize = 0;
    let mut entries = body.entries();
    while let Some(entry) = entries.next() {
        let found = judge_entry(context, locals, enclosing, entry);
        judge(Item::Instr { func, number }, found.why)?;
        enclosing = found.enclosing;
        if found.counts {
            number += 1;
        }
    }
    Ok(())
}

/// Whether there are as many as are needed, where it is told how many are.
fn has_room(count: usize, needed: u32) -> bool
    ensures { result ≡ true ↔ HasRoom count needed }
{
    needed < u32::MAX && needed as usize <= count
}

/// Whether a run of mutable globals has all from the first place up to the end, where it is told of each global where
/// the run begins that it ends.
fn has_run(starts: &[usize], first: u32, end: u32) -> bool
    ensures { result ≡ true → (globals : List GlobalType) → starts.now ≡ run_starts 0 0 globals
        → AreSettable globals first end }
{
    if end == 0 {
        return true;
    }
    match starts.get(end as usize - 1) {
        Some(start) => *start <= first as usize,
        None => false,
    }
}

/// Whether there is room for each index but those of locals and of globals that are set, and no instruction breaks a
/// rule whatever is around.
fn has_common(context: &Context, needs: Needs) -> bool
    ensures { result ≡ true ↔ HasCommon context.now needs }
{
    has_room(context.types, needs.types)
        && has_room(context.funcs, needs.funcs)
        && has_room(context.globals.len(), needs.globals)
        && (!needs.table || context.tables > 0)
        && (!needs.memory || context.mems > 0)
        && !needs.outer_label
        && !needs.over_aligned
}

/// Whether none of the globals is constant whose bit is 1: bit n is that of global n.
fn are_marked_settable(globals: &[GlobalType], bits: u64) -> bool
    ensures { result ≡ true ↔ AreMarkedSettable globals.now bits }
{
    let mut left = bits;
    for global in globals {
        if left == 0 {
            return true;
        }
        if left % 2 == 1 && !global.mutable {
            return false;
        }
        left /= 2;
    }
    true
}

/// What is known of the bodies of all functions together.
#[derive(Clone, Copy)]
pub(crate) struct Known {
    /// There is what they need, but for locals and for globals to set.
    has_common: bool,
    /// None of the globals below 64 that they set is constant.
    low_settable: bool,
}

/// What is known of bodies that need this.
pub(crate) fn known_of(context: &Context, needs: Needs) -> Known
    ensures common { result.has_common ≡ true ↔ HasCommon context.now needs }
    ensures settable { result.low_settable ≡ true
        ↔ AreMarkedSettable context.now.globals needs.set_below_64 }
{
    Known {
        has_common: has_common(context, needs),
        low_settable: are_marked_settable(context.globals.as_slice(), needs.set_below_64),
    }
}

/// Whether there is room for the other indices, in a function of so many locals.
fn has_own_rooms(context: &Context, locals: usize, own: OwnNeeds) -> bool
    ensures { result ≡ true ↔ HasOwnRooms context.now locals own }
{
    has_room(context.globals.len(), own.set_globals) && has_room(locals, own.locals)
}

/// The lowest global to be asked of, where this is the lowest that is set, and it is known or not of those below 64
/// that none that is set is constant.
fn first_asked(low_settable: bool, lowest: u32) -> u32
    ensures { result ≡ first_asked low_settable lowest }
{
    if low_settable { lowest.max(64) } else { lowest }
}

/// Whether there are these in a function of so many locals, and no global that is set is constant, as far as it can be
/// told without looking at each entry: where several globals are set, all between them must be mutable, but for those
/// below 64 where it is known that none that is set is constant. Of each global it is told where the run of mutable
/// ones begins that it ends.
fn has_own(
    context: &Context,
    starts: &[usize],
    low_settable: bool,
    locals: usize,
    own: OwnNeeds,
) -> bool
    requires { starts.now ≡ run_starts 0 0 context.now.globals }
    ensures { result ≡ true → HasOwn context.now low_settable locals own }
{
    if !has_own_rooms(context, locals, own) {
        return false;
    }
    // Most bodies set none.
    if own.set_globals == 0 {
        return true;
    }
    let first = first_asked(low_settable, own.lowest_set_global);
    has_run(starts, first, own.set_globals)
}

/// The body of the function of this index, which has so many locals, parameters counted. Of each global it is told
/// where the run of mutable ones begins that it ends, and it is told what is known of the bodies of all functions.
/// Entries are looked at only where one of them may break a rule.
pub(crate) fn check_body(
    context: &Context,
    starts: &[usize],
    known: Known,
    locals: usize,
    func: usize,
    body: &BodyRef<'_>,
) -> Result<(), CheckFault>
    requires starts { starts.now ≡ run_starts 0 0 context.now.globals }
    requires known { IsKnown context.now known (needs_of body.now) }
    ensures { result ≡ verdict (broken_in_body context.now locals func body.now) }
{
    let own = body.own_needs();
    if known.has_common && has_own(context, starts, known.low_settable, locals, own) {
        return Ok(());
    }
    check_entries(context, locals, func, body)
}
