//! A command line is carried out.

ghost use Rattle.std.specs.Prelude.{◌≡◌, ◌≤◌, ℕ, List, Bool, Option, Result, Err, false, true};
ghost use Rattle.wc_device.specs.Standard.Device.{has_failed, was_asked_again};
ghost use Rattle.wc_cli.specs.Standard.Acting.{Ends};
ghost use Rattle.wc_cli.specs.Standard.Carrying.{AreNew, CarriesOut, Acts, used_alone, used_before};
ghost use Rattle.wc_cli.specs.Standard.Inputs.{input_bytes, is_unread, is_new_input, IsNewInput, StaysThere};
ghost use Rattle.wc_cli.specs.Standard.Looking.{ReadsOne, ReadsAsk, ReadsBoth, LooksAt};
ghost use Rattle.wc_cli.specs.Standard.Status.{TellsLine};
ghost use Rattle.wc_cli.specs.Answering.Reading.{Says, ComparesInputs};

use crate::command_line::{Ask, Line};
use crate::failure::{DONE, Failure, REFUSED, ended, report};
use crate::reading::{is_new, is_readable};
use crate::telling::find;
use std::alloc::Global;
use std::io::{Read, Write};
use wc_canon::{Comparison, Job, Side, compare_from, run};
use wc_device::Device;

/// Writes the answer to an input.
#[tactic(auto, using(crate::proofs::Endings::made))]
fn make<'a, R: Read, W: Write>(
    alloc: Global,
    job: Job,
    path: &'a str,
    output: Option<&'a str>,
    input: &mut Option<Device<R>>,
    w: &mut Device<W>,
) -> Result<u8, Failure<'a>>
    requires input { IsNewInput input.old }
    requires writer { has_failed w.old ≡ false }
    ensures ends { (y : Option (List ℕ)) (b : Bool) → Ends W.contents (Line.Make job path.entry output.entry)
        (input_bytes R.remaining input.old) y (is_unread input.new) b w.old w.new result }
    ensures looks { ReadsOne R.remaining input.old input.new result }
    ensures again_w { was_asked_again w.new ≡ was_asked_again w.old }
    ensures stays { StaysThere input.old input.new }
{
    let Some(r) = input else {
        return Err(Failure::CannotRead { path });
    };
    match run(alloc, job, r, w) {
        Ok(_) => Ok(DONE),
        Err(fault) => Err(ended(path, output, fault)),
    }
}

/// Writes a text to standard output.
fn say<'a, W: Write>(w: &mut Device<W>, text: &[u8]) -> Result<(), Failure<'a>>
    requires { has_failed w.old ≡ false }
    ensures says { Says W.contents text.now w.old w.new result }
    ensures again { was_asked_again w.new ≡ was_asked_again w.old }
{
    match w.send(text) {
        Ok(()) => Ok(()),
        Err(_) => Err(Failure::CannotWrite { path: None }),
    }
}

/// Tells what is asked of an input.
fn tell<'a, R: Read, W: Write>(
    alloc: Global,
    ask: Ask,
    path: &'a str,
    named: bool,
    input: &mut Option<Device<R>>,
    w: &mut Device<W>,
) -> Result<u8, Failure<'a>>
    requires input { IsNewInput input.old }
    requires writer { has_failed w.old ≡ false }
    ensures ends { (y : Option (List ℕ)) (b : Bool) → Ends W.contents (Line.Tell ask path.entry named)
        (input_bytes R.remaining input.old) y (is_unread input.new) b w.old w.new result }
    ensures looks { ReadsAsk ask R.remaining input.old input.new result }
    ensures again_w { was_asked_again w.new ≡ was_asked_again w.old }
    ensures stays { StaysThere input.old input.new }
{
    let told = find(alloc, ask, path, named, input)?;
    say(w, told.text.as_slice())?;
    Ok(told.status)
}

/// Whether two inputs denote the same module, or the failure with the path of the one that it is about.
fn compare_inputs<'a, R: Read, S: Read>(
    alloc: Global,
    paths: (&'a str, &'a str),
    a: &mut Option<Device<R>>,
    b: &mut Option<Device<S>>,
) -> Result<Comparison, Failure<'a>>
    requires a { IsNewInput a.old }
    requires b { IsNewInput b.old }
    ensures ends { ComparesInputs paths.entry.0.now paths.entry.1.now (input_bytes R.remaining a.old)
        (input_bytes S.remaining b.old) (is_unread a.new) (is_unread b.new) result }
    ensures looks { ReadsBoth R.remaining S.remaining paths.entry.0.now paths.entry.1.now a.old a.new b.old b.new
        result }
    ensures stays_a { StaysThere a.old a.new }
    ensures stays_b { StaysThere b.old b.new }
{
    let Some(first) = a else {
        return Err(Failure::CannotRead { path: paths.0 });
    };
    let Some(second) = b else {
        if is_readable(alloc, first) {
            return Err(Failure::CannotRead { path: paths.1 });
        }
        return Err(Failure::CannotRead { path: paths.0 });
    };
    match compare_from(alloc, first, second) {
        Ok(comparison) => Ok(comparison),
        Err((Side::A, fault)) => Err(ended(paths.0, None, fault)),
        Err((Side::B, fault)) => Err(ended(paths.1, None, fault)),
    }
}

/// Says whether two inputs denote the same module.
fn tell_apart<'a, R: Read, S: Read, W: Write>(
    alloc: Global,
    paths: (&'a str, &'a str),
    a: &mut Option<Device<R>>,
    b: &mut Option<Device<S>>,
    w: &mut Device<W>,
) -> Result<u8, Failure<'a>>
    requires a { IsNewInput a.old }
    requires b { IsNewInput b.old }
    requires writer { has_failed w.old ≡ false }
    ensures ends { Ends W.contents (Line.Compare paths.entry.0 paths.entry.1) (input_bytes R.remaining a.old)
        (input_bytes S.remaining b.old) (is_unread a.new) (is_unread b.new) w.old w.new result }
    ensures looks { ReadsBoth R.remaining S.remaining paths.entry.0.now paths.entry.1.now a.old a.new b.old b.new
        result }
    ensures again_w { was_asked_again w.new ≡ was_asked_again w.old }
    ensures stays_a { StaysThere a.old a.new }
    ensures stays_b { StaysThere b.old b.new }
{
    match compare_inputs(alloc, paths, a, b)? {
        Comparison::Same => {
            say(w, b"same\n")?;
            Ok(DONE)
        }
        Comparison::Different => {
            say(w, b"different\n")?;
            Ok(REFUSED)
        }
    }
}

/// Carries a line out, up to the telling of a failure.
fn carry_out<'a, R: Read, S: Read, W: Write>(
    alloc: Global,
    line: &Line<'a>,
    a: &mut Option<Device<R>>,
    b: &mut Option<Device<S>>,
    w: &mut Device<W>,
) -> Result<u8, Failure<'a>>
    requires new { AreNew line.now a.old b.old }
    requires writer { has_failed w.old ≡ false }
    ensures ends { Ends W.contents line.now (input_bytes R.remaining a.old) (input_bytes S.remaining b.old)
        (is_unread a.new) (is_unread b.new) w.old w.new result }
    ensures looks { LooksAt R.remaining S.remaining line.now a.old a.new b.old b.new result }
    ensures again_w { was_asked_again w.new ≡ was_asked_again w.old }
    ensures stays_a { StaysThere a.old a.new }
    ensures stays_b { StaysThere b.old b.new }
{
    match line {
        Line::Make { job, input, output } => make(alloc, *job, *input, *output, a, w),
        Line::Tell { ask, input, named } => tell(alloc, *ask, *input, *named, a, w),
        Line::Compare { a: p, b: q } => tell_apart(alloc, (*p, *q), a, b, w),
    }
}

/// Carries a line out between devices, and answers the exit status. A failure is told.
fn act_on<R: Read, S: Read, W: Write, E: Write>(
    alloc: Global,
    line: &Line<'_>,
    a: &mut Option<Device<R>>,
    b: &mut Option<Device<S>>,
    w: &mut Device<W>,
    e: &mut Device<E>,
) -> u8
    requires new { AreNew line.now a.old b.old }
    requires writer { has_failed w.old ≡ false }
    ensures carries_out { CarriesOut R.remaining S.remaining W.contents E.contents line.now result a.old a.new
        b.old b.new w.old w.new e.old e.new }
    ensures stays_a { StaysThere a.old a.new }
    ensures stays_b { StaysThere b.old b.new }
{
    match carry_out(alloc, line, a, b, w) {
        Ok(status) => status,
        Err(failure) => report(&failure, e),
    }
}

/// The failure of an input that isn't new, or of a writer that failed before.
fn used_alone<'a, R: Read, W: Write>(
    path: &'a str,
    output: Option<&'a str>,
    input: &Option<Device<R>>,
    w: &Device<W>,
) -> Option<Failure<'a>>
    ensures { result ≡ used_alone path.entry output.entry (is_new_input input.now) (has_failed w.now) }
{
    if !is_new(input) {
        return Some(Failure::CannotRead { path });
    }
    if w.failed() {
        return Some(Failure::CannotWrite { path: output });
    }
    None
}

/// The failure of a line one of whose inputs isn't new, or whose writer failed before.
fn used_before<'a, R: Read, S: Read, W: Write>(
    line: &Line<'a>,
    a: &Option<Device<R>>,
    b: &Option<Device<S>>,
    w: &Device<W>,
) -> Option<Failure<'a>>
    ensures { result ≡ used_before line.now (is_new_input a.now) (is_new_input b.now) (has_failed w.now) }
{
    match line {
        Line::Make { input, output, .. } => used_alone(*input, *output, a, w),
        Line::Tell { input, .. } => used_alone(*input, None, a, w),
        Line::Compare { a: p, b: q } => {
            if !is_new(a) {
                return Some(Failure::CannotRead { path: *p });
            }
            used_alone(*q, None, b, w)
        }
    }
}

/// Carries a line out, and answers the exit status: 0 where it was done, the input is accepted or canonical, or the
/// inputs are the same; 1 where an input is refused or not canonical, or the inputs are different; 2 for a fault of a
/// file or of memory.
///
/// `a` and `b` are the devices of the opened inputs, none where one can't be opened; `b` is that of `Compare`, and
/// isn't looked at with other lines. `w` takes the answer, or one line that tells it, once the whole answer stands, and
/// then one flush; where there is no answer, nothing of it is asked. `e` takes one line where there is a failure, and
/// nothing else. The line takes no memory, and a failure of `e` is dropped. Neither writer is asked for anything behind
/// a failure of its own, also of before.
///
/// Failures are found in this order: reading the input or A, reading B, a refusal, writing; want of memory wherever it
/// occurs while each input is there and can be read. An input from which something was read before, or its end, counts
/// as one that can't be read, and a writer that failed before as one that can't be written: that is told, and nothing
/// else happens.
///
/// Where a binary is refused before its end, the rest isn't read: at most 4,096 bytes are read past the byte where the
/// fault shows. A text is read to its end, and then judged; so is each input of `canonical`.
pub fn act<R: Read, S: Read, W: Write, E: Write>(
    alloc: Global,
    line: &Line<'_>,
    a: &mut Option<Device<R>>,
    b: &mut Option<Device<S>>,
    w: &mut Device<W>,
    e: &mut Device<E>,
) -> u8
    ensures acts { Acts R.remaining S.remaining W.contents E.contents line.now result a.old a.new b.old b.new
        w.old w.new e.old e.new }
    // An input that wasn't there isn't there later, and of one that was nothing is asked once a read failed or ended.
    ensures stays_a { StaysThere a.old a.new }
    ensures stays_b { StaysThere b.old b.new }
    // Where the bytes of the inputs are known, 0 and 1 say what they are.
    ensures tells { TellsLine line.now result (input_bytes R.remaining a.old) (input_bytes S.remaining b.old) }
    ensures most { result ≤ 2 }
{
    match used_before(line, a, b, w) {
        Some(failure) => report(&failure, e),
        None => act_on(alloc, line, a, b, w, e),
    }
}
