//! Why the words of a command line came to nothing, and how that is told.

ghost use Rattle.std.specs.Prelude.{◌≡◌};
ghost use Rattle.wc_canon.specs.Standard.Text.{pieces_text};
ghost use Rattle.wc_cli.specs.declared.failure.Failure.{Failure};
ghost use Rattle.wc_cli.specs.Answering.Reading.{refusal_failure, run_failure};
ghost use Rattle.wc_cli.specs.Standard.Failing.{failure_status, failure_line, line_of, line_about, place_text};
ghost use Rattle.wc_cli.specs.Standard.Failing.{GoesOut, Reports};

use crate::writing::put_pieces;
use std::io::Write;
use wc_canon::{Piece, Refusal, RunFault, pieces};
use wc_device::Device;

/// The status where all went well.
pub(crate) const DONE: u8 = 0;

/// The status where an input is refused or not canonical, or two differ.
pub(crate) const REFUSED: u8 = 1;

/// The status of a fault of usage, of a file or of memory.
const FAILED: u8 = 2;

/// What each line begins with.
const NAME: &str = "wcanon: ";

/// What is told where bytes would go to a terminal.
const ON_TERMINAL: &str = "standard output is a terminal; -o OUT names a file";

/// Why the words of a command line came to nothing.
#[derive(Debug, Drop)]
pub enum Failure<'a> {
    /// The input at the path is refused, never by want of memory.
    Refused { path: &'a str, refusal: Refusal },
    /// The input at the path wasn't opened, or it wasn't read to its end.
    CannotRead { path: &'a str },
    /// The answer wasn't written to its end: to the file at the path, or else to the standard output.
    CannotWrite { path: Option<&'a str> },
    /// A word is no text.
    NotText,
    /// The words name no subcommand.
    NoSubcommand,
    /// Bytes that aren't text would go to a terminal.
    Terminal,
    /// A growth of memory was refused.
    OutOfMemory,
}

/// The refusal of the input at a path, as a failure.
pub(crate) fn refused<'a>(path: &'a str, refusal: Refusal) -> Failure<'a>
    ensures { result ≡ refusal_failure path.entry refusal }
{
    match refusal {
        Refusal::Memory => Failure::OutOfMemory,
        refusal => Failure::Refused { path, refusal },
    }
}

/// The failure of a call over the input at a path whose answer goes to `output`, or else to the standard output.
pub(crate) fn ended<'a>(path: &'a str, output: Option<&'a str>, fault: RunFault) -> Failure<'a>
    ensures { result ≡ run_failure path.entry output.entry fault }
{
    match fault {
        RunFault::Refused(refusal) => Failure::Refused { path, refusal },
        RunFault::Read { .. } => Failure::CannotRead { path },
        RunFault::Write { .. } => Failure::CannotWrite { path: output },
        RunFault::Memory => Failure::OutOfMemory,
    }
}

/// How the place of an answer is named.
fn place<'a>(path: Option<&'a str>) -> &'a str
    ensures { result.now ≡ place_text path.entry }
{
    match path {
        Some(path) => path,
        None => "standard output",
    }
}

/// Writes the line of a text.
fn write_line<E: Write>(e: &mut Device<E>, text: &str)
    ensures { GoesOut E.contents (line_of text.now) e.old e.new }
{
    put_pieces(
        e,
        &[Piece::Words(NAME), Piece::Words(text), Piece::Words("\n")],
    );
}

/// The same with a path before the text.
fn write_line_about<E: Write>(e: &mut Device<E>, path: &str, text: &[Piece<'_>])
    ensures { GoesOut E.contents (line_about path.now (pieces_text text.now)) e.old e.new }
{
    put_pieces(
        e,
        &[Piece::Words(NAME), Piece::Words(path), Piece::Words(": ")],
    );
    put_pieces(e, text);
    put_pieces(e, &[Piece::Words("\n")]);
}

/// The exit status of a failure: 1 for a refusal, else 2.
fn status(failure: &Failure<'_>) -> u8
    ensures { result ≡ failure_status failure.now }
{
    match failure {
        Failure::Refused { .. } => REFUSED,
        _ => FAILED,
    }
}

/// Writes the one line of a failure.
fn write_failure<E: Write>(e: &mut Device<E>, failure: &Failure<'_>)
    ensures { GoesOut E.contents (failure_line failure.now) e.old e.new }
{
    match failure {
        Failure::Refused { path, refusal } => write_line_about(e, path, &pieces(refusal)),
        Failure::CannotRead { path } => write_line_about(e, path, &[Piece::Words("cannot read")]),
        Failure::CannotWrite { path } => {
            write_line_about(e, place(*path), &[Piece::Words("cannot write")])
        }
        Failure::NotText => write_line(e, "an argument is not text"),
        Failure::NoSubcommand => write_line(e, "no subcommand"),
        Failure::Terminal => write_line(e, ON_TERMINAL),
        Failure::OutOfMemory => write_line(e, "out of memory"),
    }
}

/// Writes the one line of a failure, and answers the exit status: 1 for a refusal, else 2. It takes no memory.
///
/// A failure of the writer is dropped: nothing is written behind it, and nothing at all where the writer failed before.
pub fn report<E: Write>(failure: &Failure<'_>, e: &mut Device<E>) -> u8
    ensures { Reports E.contents failure.now result e.old e.new }
{
    write_failure(e, failure);
    status(failure)
}
