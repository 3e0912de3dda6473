//! The program `wcanon`: canonical bytes of WebAssembly modules, their check, their comparison and their hashes.
#![tactic(auto)]

ghost use Rattle.std.specs.Prelude.{◌≡◌};

mod output;

use clap::Error;
use clap::error::ErrorKind;
use output::Output;
use std::fs::File;
use std::io::IsTerminal;
use std::process::ExitCode;
use std::{env, io};
use wc_cli::{Failure, Line, Opens, act_each, lines, report, status_of};
use wc_device::Device;

/// The words of the command line, the program's name first.
fn words(rt: &HostRuntime) -> io::Result<Vec<String>> {
    let words: Vec<String> = env::args(rt)?.collect(rt.alloc())?;
    Ok(words)
}

/// Writes the line of a failure, and answers its status.
#[inline(never)]
fn failed(rt: &HostRuntime, failure: &Failure<'_>) -> u8 {
    report(failure, &mut Device::new(rt.stderr()))
}

/// Prints help or a fault of usage where each belongs, and answers the status.
fn print_usage(rt: &HostRuntime, error: &Error) -> u8 {
    if error.kind() == ErrorKind::OutOfMemory {
        return failed(rt, &Failure::OutOfMemory);
    }
    if error.print(rt).is_err() && !error.use_stderr() {
        return failed(rt, &Failure::CannotWrite { path: None });
    }
    status_of(error)
}

/// The files of the system.
#[derive(Drop)]
struct Files<'a> {
    rt: &'a HostRuntime,
}

impl<'a> Opens<File> for Files<'a> {
    fn open(&mut self, path: &str) -> Option<Device<File>> {
        match File::open(self.rt, path) {
            Ok(file) => Some(Device::new(file)),
            Err(_) => None,
        }
    }

    fn close(&mut self, input: Option<Device<File>>)
        ensures { self.new ≡ self.old }
    {
        drop(input);
    }
}

/// The path of the file that takes the answer, where there is one.
fn output_path<'a>(lines: &[Line<'a>]) -> Option<&'a str> {
    match lines.first() {
        Some(Line::Make { output, .. }) => *output,
        _ => None,
    }
}

/// Whether bytes that aren't text would go to a terminal.
fn shows_bytes(rt: &HostRuntime, lines: &[Line<'_>]) -> bool {
    match lines.first() {
        Some(line) => line.is_raw() && rt.stdout().is_terminal(),
        None => false,
    }
}

/// Carries lines out in order.
fn carry_out(rt: &HostRuntime, lines: &[Line<'_>]) -> u8 {
    let mut files = Files { rt };
    let mut errors = Device::new(rt.stderr());
    match output_path(lines) {
        Some(path) => {
            let mut w = Device::new(Output::new(rt, path));
            act_each(rt.alloc(), lines, &mut files, &mut w, &mut errors)
        }
        None => {
            let mut w = Device::new(rt.stdout());
            act_each(rt.alloc(), lines, &mut files, &mut w, &mut errors)
        }
    }
}

/// Carries out what the words ask for.
fn obey(rt: &HostRuntime, words: &[&str]) -> u8 {
    match lines(rt.alloc(), words) {
        Ok(Some(lines)) if shows_bytes(rt, lines.as_slice()) => failed(rt, &Failure::Terminal),
        Ok(Some(lines)) => carry_out(rt, lines.as_slice()),
        Ok(None) => failed(rt, &Failure::NoSubcommand),
        Err(error) => print_usage(rt, &error),
    }
}

/// Tells why the words of the command line can't be had, and answers the status.
fn print_no_words(rt: &HostRuntime, error: &io::Error) -> u8 {
    match error.kind() {
        io::ErrorKind::OutOfMemory => failed(rt, &Failure::OutOfMemory),
        _ => failed(rt, &Failure::NotText),
    }
}

/// Carries out what the words ask for, the program's name first.
fn obey_words(rt: &HostRuntime, words: &[String]) -> u8 {
    let views: Result<Vec<&str>, _> = words.iter().map(|word| word.as_str()).collect(rt.alloc());
    match views {
        Ok(views) => obey(rt, &views),
        Err(_) => failed(rt, &Failure::OutOfMemory),
    }
}

fn status(rt: &HostRuntime) -> u8 {
    match words(rt) {
        Ok(words) => obey_words(rt, words.as_slice()),
        Err(error) => print_no_words(rt, &error),
    }
}

fn main(rt: HostRuntime) -> ExitCode {
    ExitCode::from(status(&rt))
}
