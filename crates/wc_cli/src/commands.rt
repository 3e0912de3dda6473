//! The subcommands, their arguments and their help.

ghost use Rattle.std.specs.Prelude.{◌≡◌, IfOk, IfSome, false, codes};
ghost use Rattle.clap.specs.Words.{App, app_of, rule_of, with_subcommand};
ghost use Rattle.clap.specs.declared.Command.TheViews.{out-Command as fields_of};
ghost use Rattle.wc_cli.specs.Standard.Program.{path_rule, paths_rule, output_rule, top_app, make_app};
ghost use Rattle.wc_cli.specs.Standard.Program.{each_app, compare_app, program};

use clap::{Arg, ArgAction, Command};
use std::alloc::{AllocError, Global};
use wc_canon::VERSION;

/// A path that has to be given.
fn path<'a>(alloc: Global, id: &'a str, help: &'a str) -> Arg<'a>
    ensures rule { rule_of result ≡ path_rule id.entry.now }
    ensures own { result.global ≡ false }
{
    Arg::new(alloc, id)
        .required(true)
        .action(ArgAction::Set)
        .help(help)
}

/// Paths of which at least one has to be given.
fn paths<'a>(alloc: Global, id: &'a str, help: &'a str) -> Arg<'a>
    ensures rule { rule_of result ≡ paths_rule id.entry.now }
    ensures own { result.global ≡ false }
{
    Arg::new(alloc, id)
        .required(true)
        .action(ArgAction::Append)
        .help(help)
}

/// `-o OUT` and `--output OUT`.
fn output<'a>(alloc: Global) -> Arg<'a>
    ensures rule { rule_of result ≡ output_rule }
    ensures own { result.global ≡ false }
{
    Arg::new(alloc, "OUT")
        .short('o')
        .long("output")
        .action(ArgAction::Set)
        .help("The file to write, in place of standard output")
}

fn binary<'a>(alloc: Global) -> Result<Command<'a>, AllocError>
    ensures app { IfOk result (λ c. app_of c ≡ make_app (codes "binary")) }
    ensures own { IfOk result (λ c. (fields_of c).has_globals ≡ false) }
{
    Command::new(alloc, "binary")
        .about("Write the canonical bytes of a module")
        .after_help("Example: wcanon binary in.wasm -o out.wasm")
        .arg(path(alloc, "IN", "The module to read"))?
        .arg(output(alloc))
}

fn text<'a>(alloc: Global) -> Result<Command<'a>, AllocError>
    ensures app { IfOk result (λ c. app_of c ≡ make_app (codes "text")) }
    ensures own { IfOk result (λ c. (fields_of c).has_globals ≡ false) }
{
    Command::new(alloc, "text")
        .about("Write the text of a module")
        .after_help("Example: wcanon text in.wasm -o out.wat")
        .arg(path(alloc, "IN", "The module to read"))?
        .arg(output(alloc))
}

fn check<'a>(alloc: Global) -> Result<Command<'a>, AllocError>
    ensures app { IfOk result (λ c. app_of c ≡ each_app (codes "check")) }
    ensures own { IfOk result (λ c. (fields_of c).has_globals ≡ false) }
{
    Command::new(alloc, "check")
        .about("Tell whether modules are accepted, or the first fault of each")
        .after_help("Example: wcanon check in.wasm")
        .arg(paths(alloc, "IN", "The modules to read"))
}

fn canonical<'a>(alloc: Global) -> Result<Command<'a>, AllocError>
    ensures app { IfOk result (λ c. app_of c ≡ each_app (codes "canonical")) }
    ensures own { IfOk result (λ c. (fields_of c).has_globals ≡ false) }
{
    Command::new(alloc, "canonical")
        .about("Tell whether modules are their own canonical bytes")
        .after_help("Example: wcanon canonical in.wasm")
        .arg(paths(alloc, "IN", "The modules to read"))
}

fn hash<'a>(alloc: Global) -> Result<Command<'a>, AllocError>
    ensures app { IfOk result (λ c. app_of c ≡ each_app (codes "hash")) }
    ensures own { IfOk result (λ c. (fields_of c).has_globals ≡ false) }
{
    Command::new(alloc, "hash")
        .about("Tell the SHA-256 of the canonical bytes of modules")
        .after_help("Example: wcanon hash in.wasm")
        .arg(paths(alloc, "IN", "The modules to read"))
}

fn compare<'a>(alloc: Global) -> Result<Command<'a>, AllocError>
    ensures app { IfOk result (λ c. app_of c ≡ compare_app) }
    ensures own { IfOk result (λ c. (fields_of c).has_globals ≡ false) }
{
    Command::new(alloc, "compare")
        .about("Tell whether two files denote the same module")
        .after_help("Example: wcanon compare a.wasm b.wasm")
        .arg(path(alloc, "A", "One module"))?
        .arg(path(alloc, "B", "The other module"))
}

/// The program without its subcommands.
fn top<'a>(alloc: Global) -> Command<'a>
    ensures app { app_of result ≡ top_app }
    ensures version { IfSome (fields_of result).version (λ text. text.now ≡ VERSION.now) }
{
    Command::new(alloc, "wcanon")
        .version(VERSION)
        .about("Gives WebAssembly modules one canonical binary form")
        .after_help(
            "Examples:\n  wcanon binary in.wat -o out.wasm\n  wcanon text in.wasm -o out.wat\n  \
            wcanon check in.wasm\n  wcanon compare a.wasm b.wat\n  wcanon canonical in.wasm\n  \
            wcanon hash a.wasm b.wasm",
        )
        .subcommand_required(true)
}

/// A command with one more subcommand. The error is want of memory, which either may have met.
// Here alone is a way out, so that `wcanon`, which puts six together, has none.
fn with<'a>(
    command: Result<Command<'a>, AllocError>,
    subcommand: Result<Command<'a>, AllocError>,
) -> Result<Command<'a>, AllocError>
    ensures { (a b : App) → IfOk command.entry (λ c. app_of c ≡ a)
        → IfOk subcommand.entry (λ c. app_of c ≡ b) → IfOk subcommand.entry (λ c. (fields_of c).has_globals ≡ false)
        → IfOk result (λ c. app_of c ≡ with_subcommand a b.top) }
{
    command?.subcommand(subcommand?)
}

/// The program's command, with its subcommands.
pub(crate) fn wcanon<'a>(alloc: Global) -> Result<Command<'a>, AllocError>
    ensures { IfOk result (λ c. app_of c ≡ program) }
{
    let command = with(Ok(top(alloc)), binary(alloc));
    let command = with(command, text(alloc));
    let command = with(command, check(alloc));
    let command = with(command, canonical(alloc));
    let command = with(command, hash(alloc));
    with(command, compare(alloc))
}
