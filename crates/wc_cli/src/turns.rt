//! Lines that are carried out one after the other.

ghost use Rattle.std.specs.Prelude.{◌≡◌, ◌<◌, ◌≤◌, ℕ, List, Option, max, length, take, true, ⊤};
ghost use Rattle.wc_device.specs.declared.io_device.Device.{Device};
ghost use Rattle.wc_device.specs.Standard.Device.{has_failed};
ghost use Rattle.wc_cli.specs.Standard.Inputs.{IsNewInput};
ghost use Rattle.wc_cli.specs.Standard.Turns.{OpensInputs, TakesTurn, ActsEach};

use crate::acting::act;
use crate::command_line::Line;
use std::alloc::Global;
use std::io::{Read, Write};
use wc_device::Device;

/// Opens inputs by their paths, and closes them.
pub trait Opens<R: Read> {
    // An opener, a path, the input that was opened at it, and the opener then: whatever an opener says of these.
    ghost gives: { Self → List ℕ → Option (Device R) → Self → Type 0 } = { λ _ _ _ _. ⊤ };

    // An opener, an input that was given back, and the opener then.
    ghost takes: { Self → Option (Device R) → Self → Type 0 } = { λ _ _ _. ⊤ };

    /// The device of the input at a path, of which nothing was read; none where it can't be opened.
    fn open(&mut self, path: &str) -> Option<Device<R>>
        ensures new { IsNewInput result }
        ensures given { gives self.old path.now result self.new };

    /// Takes an input back, which nothing is asked of any more.
    fn close(&mut self, input: Option<Device<R>>)
        ensures { takes self.old input self.new };
}

/// The higher one of two statuses.
fn higher(a: u8, b: u8) -> u8
    ensures { result ≡ max a b }
{
    if a < b { b } else { a }
}

/// The inputs of a line.
fn open_inputs<R: Read, O: Opens<R>>(
    opens: &mut O,
    line: &Line<'_>,
) -> (Option<Device<R>>, Option<Device<R>>)
    ensures new_a { IsNewInput result.0 }
    ensures new_b { IsNewInput result.1 }
    ensures opens { OpensInputs O.gives line.now opens.old result.0 result.1 opens.new }
{
    match line {
        Line::Make { input, .. } => (opens.open(*input), None),
        Line::Tell { input, .. } => (opens.open(*input), None),
        Line::Compare { a, b } => (opens.open(*a), opens.open(*b)),
    }
}

/// Opens the inputs of a line, carries it out, and closes them.
fn act_turn<R: Read, O: Opens<R>, W: Write, E: Write>(
    alloc: Global,
    line: &Line<'_>,
    opens: &mut O,
    w: &mut Device<W>,
    e: &mut Device<E>,
) -> u8
    ensures { TakesTurn O.gives O.takes R.remaining W.contents E.contents line.now result opens.old opens.new
        w.old w.new e.old e.new }
{
    let (mut a, mut b) = open_inputs(opens, line);
    let status = act(alloc, line, &mut a, &mut b, w, e);
    opens.close(a);
    opens.close(b);
    status
}

/// Carries lines out in order, as `act` does each, and answers the highest of their statuses. The inputs of a line are
/// opened when its turn comes, each once, and closed at its end. An input that is refused or that can't be read doesn't
/// end it; a failed write does, and so does a writer that failed before, once the first line has told it.
pub fn act_each<R: Read, O: Opens<R>, W: Write, E: Write>(
    alloc: Global,
    lines: &[Line<'_>],
    opens: &mut O,
    w: &mut Device<W>,
    e: &mut Device<E>,
) -> u8
    // The first lines, up to one behind which the writer had failed, took their turns; or else all of them.
    ensures turns { (n : ℕ)
        × ActsEach O.gives O.takes R.remaining W.contents E.contents opens.old w.old e.old (take n lines.now) result
        opens.new w.new e.new
        × (n ≤ length lines.now)
        × (n < length lines.now → (0 < n) × (has_failed w.new ≡ true)) }
{
    let mut status = 0;
    for line in lines {
        let told = act_turn(alloc, line, opens, w, e);
        status = higher(status, told);
        if w.failed() {
            return status;
        }
    }
    status
}
