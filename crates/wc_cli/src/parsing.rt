//! The words of a command line.

ghost use Rattle.std.specs.Prelude.{◌≡◌, ◌≢◌, [], ◌∷◌, IfOk, IfErr, true, map, option_map};
ghost use Rattle.clap.specs.Words.{rows_of, found_of, first_of, all_of, subcommand_of, takes, kind_of};
ghost use Rattle.clap.specs.Words.{FailsBy, fault_of};
ghost use Rattle.wc_cli.specs.Standard.Program.{program};
ghost use Rattle.wc_cli.specs.Standard.Asked.{asked_by, asked_in, asked_at, asked_of, told_of};
ghost use Rattle.wc_cli.specs.Standard.Asked.{make_of, each_of, compare_of};

use crate::command_line::{Ask, Line};
use crate::commands::wcanon;
use clap::error::ErrorKind;
use clap::{ArgMatches, Error};
use std::alloc::{AllocError, Global};
use wc_canon::Job;

/// The first value of an argument.
fn text_at<'a>(found: &ArgMatches<'a>, id: &str) -> Option<&'a str>
    ensures { option_map (λ s. s.now) result ≡ first_of id.now (rows_of (found_of found.now)) }
{
    found.get_str(id)
}

/// A line alone.
fn alone<'a>(alloc: Global, line: Line<'a>) -> Result<Vec<Line<'a>>, AllocError>
    ensures { IfOk result (λ v. v.items ≡ line.entry ∷ []) }
{
    let mut lines = Vec::new(alloc);
    lines.push(line)?;
    Ok(lines)
}

/// The values of an argument.
fn texts_at<'m, 'a>(found: &'m ArgMatches<'a>, id: &str) -> Option<&'m [&'a str]>
    ensures { option_map (λ s. map (λ v. v.now) s.now) result ≡ all_of id.now (rows_of (found_of found.now)) }
{
    found.get_strs(id)
}

fn make_lines<'a>(
    alloc: Global,
    job: Job,
    found: &ArgMatches<'a>,
) -> Result<Option<Vec<Line<'a>>>, AllocError>
    ensures { IfOk result (λ r. asked_in r ≡ make_of job (rows_of (found_of found.now))) }
{
    match text_at(found, "IN") {
        Some(input) => {
            let line = Line::Make {
                job,
                input,
                output: text_at(found, "OUT"),
            };
            Ok(Some(alone(alloc, line)?))
        }
        None => Ok(None),
    }
}

/// A line for each path.
fn told_lines<'a>(alloc: Global, ask: Ask, paths: &[&'a str]) -> Result<Vec<Line<'a>>, AllocError>
    ensures { IfOk result (λ v. map asked_by v.items ≡ told_of ask (map (λ s. s.now) paths.now)) }
{
    let named = 1 < paths.len();
    let mut lines = Vec::new(alloc);
    for path in paths {
        lines.push(Line::Tell {
            ask,
            input: *path,
            named,
        })?;
    }
    Ok(lines)
}

fn each_lines<'a>(
    alloc: Global,
    ask: Ask,
    found: &ArgMatches<'a>,
) -> Result<Option<Vec<Line<'a>>>, AllocError>
    ensures { IfOk result (λ r. asked_in r ≡ each_of ask (rows_of (found_of found.now))) }
{
    match texts_at(found, "IN") {
        Some(paths) => Ok(Some(told_lines(alloc, ask, paths)?)),
        None => Ok(None),
    }
}

fn compare_lines<'a>(
    alloc: Global,
    found: &ArgMatches<'a>,
) -> Result<Option<Vec<Line<'a>>>, AllocError>
    ensures { IfOk result (λ r. asked_in r ≡ compare_of (rows_of (found_of found.now))) }
{
    match (text_at(found, "A"), text_at(found, "B")) {
        (Some(a), Some(b)) => Ok(Some(alone(alloc, Line::Compare { a, b })?)),
        _ => Ok(None),
    }
}

fn lines_at<'a>(
    alloc: Global,
    name: &str,
    found: &ArgMatches<'a>,
) -> Result<Option<Vec<Line<'a>>>, AllocError>
    ensures { IfOk result (λ r. asked_in r ≡ asked_at name.now (rows_of (found_of found.now))) }
{
    if name == "binary" {
        make_lines(alloc, Job::Binary, found)
    } else if name == "text" {
        make_lines(alloc, Job::Text, found)
    } else if name == "check" {
        each_lines(alloc, Ask::Check, found)
    } else if name == "canonical" {
        each_lines(alloc, Ask::Canonical, found)
    } else if name == "hash" {
        each_lines(alloc, Ask::Hash, found)
    } else if name == "compare" {
        compare_lines(alloc, found)
    } else {
        Ok(None)
    }
}

/// The lines that the words ask for, in order, the program's name first: one of `binary IN` or `text IN`, with `-o OUT`
/// or `--output OUT`, or of `compare A B`; and one for each path of `check IN..`, `canonical IN..` and `hash IN..`.
///
/// # Errors
/// Help or the version that is asked for, words that name no subcommand with its paths, or `ErrorKind::OutOfMemory`.
pub fn lines<'a>(alloc: Global, words: &'a [&'a str]) -> Result<Option<Vec<Line<'a>>>, Error>
    // The answer are the lines that the matches of the words name.
    ensures ok { IfOk result (λ r. asked_in r
        ≡ asked_of (subcommand_of program (map (λ s. s.now) words.entry.now))) }

    // Words that the program takes fail for memory alone.
    ensures err { IfErr result (λ e. takes program (map (λ s. s.now) words.entry.now) ≡ true
        → kind_of e ≡ ErrorKind.OutOfMemory) }

    // Else the kind is one that the words give cause for: that of help or of the version only where they ask for it.
    ensures kinds { FailsBy (fault_of program (map (λ s. s.now) words.entry.now)) result }
{
    match wcanon(alloc)?.try_get_matches_from(words) {
        Ok(matches) => match matches.subcommand() {
            Some((name, found)) => Ok(lines_at(alloc, name, found)?),
            None => Ok(None),
        },
        Err(error) => Err(error),
    }
}

/// The exit status for an error of `lines`: 0 where help or the version was asked for, else 2.
pub fn status_of(error: &Error) -> u8
    ensures help { kind_of error.now ≡ ErrorKind.DisplayHelp → result ≡ 0 }
    ensures version { kind_of error.now ≡ ErrorKind.DisplayVersion → result ≡ 0 }
    ensures usage { kind_of error.now ≢ ErrorKind.DisplayHelp → kind_of error.now ≢ ErrorKind.DisplayVersion
        → result ≡ 2 }
{
    match error.kind() {
        ErrorKind::DisplayHelp | ErrorKind::DisplayVersion => 0,
        _ => 2,
    }
}
