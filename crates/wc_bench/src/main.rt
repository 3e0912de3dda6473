//! Times one layer on a file that is read whole first: `wc_bench LAYER FILE ROUNDS`. It tells on standard output what a
//! round made, and on standard error the best and the median of the rounds: of making it, and of the whole round, which
//! lets it go too and makes what the layer starts from. `wc_bench text FILE` writes the printed text of a module to
//! standard output.
#![tactic(auto)]

mod made;
mod texts;

use crate::made::{Made, made_since};
use crate::texts::{make_names, make_surface, make_tokens};
use anyhow::{Context, Result, bail};
use std::alloc::Global;
use std::time::Instant;
use std::{env, fs};
use wc_ast::Module;
use wc_binary::{decode, encode};
use wc_check::check;
use wc_print::print;

/// What is timed.
#[derive(Clone, Copy)]
enum Layer {
    /// From a text to its tokens.
    Tokens,
    /// From tokens to what they say.
    Parse,
    /// From what a text says to its module.
    Resolve,
    /// From bytes to a module.
    Decode,
    /// From bytes to a module, and to whether it breaks a rule.
    Check,
    /// From bytes to a module, and from it to its canonical bytes.
    Encode,
    /// From a module to its text.
    Print,
}

impl Layer {
    /// The layer of a word of the command line.
    fn of_word(word: &str) -> Option<Layer> {
        match word {
            "tokens" => Some(Layer::Tokens),
            "parse" => Some(Layer::Parse),
            "resolve" => Some(Layer::Resolve),
            "decode" => Some(Layer::Decode),
            "check" => Some(Layer::Check),
            "encode" => Some(Layer::Encode),
            "print" => Some(Layer::Print),
            _ => None,
        }
    }

    /// What is counted.
    fn unit(self) -> &'static str {
        match self {
            Layer::Tokens | Layer::Parse => "tokens",
            Layer::Resolve => "entries",
            Layer::Decode | Layer::Check => "functions",
            Layer::Encode | Layer::Print => "bytes",
        }
    }
}

/// The module of the bytes. Who holds it hands a reference on, so that few paths let it go.
fn decoded(alloc: Global, bytes: &[u8]) -> Result<Module> {
    match decode(alloc, bytes) {
        Ok(module) => Ok(module),
        Err(_) => bail!("the bytes are no module"),
    }
}

/// Makes the module, and tells its functions.
fn make_module(rt: &HostRuntime, bytes: &[u8]) -> Result<Made> {
    let start = Instant::now(rt)?;
    let module = decoded(rt.alloc(), bytes)?;
    made_since(rt, start, module.funcs.len())
}

/// Tells the functions of a module that breaks no rule.
fn judged(rt: &HostRuntime, start: Instant, module: &Module) -> Result<Made> {
    if check(rt.alloc(), module).is_err() {
        bail!("the module breaks a rule");
    }
    made_since(rt, start, module.funcs.len())
}

/// Makes the module, which breaks no rule, and tells its functions.
fn make_checked(rt: &HostRuntime, bytes: &[u8]) -> Result<Made> {
    let start = Instant::now(rt)?;
    let module = decoded(rt.alloc(), bytes)?;
    judged(rt, start, &module)
}

/// Tells the canonical bytes of a module.
fn written(rt: &HostRuntime, start: Instant, module: &Module) -> Result<Made> {
    match encode(rt.alloc(), module) {
        Ok(canonical) => made_since(rt, start, canonical.len()),
        Err(_) => bail!("the module has no bytes"),
    }
}

/// Makes the module's canonical bytes.
fn make_bytes(rt: &HostRuntime, bytes: &[u8]) -> Result<Made> {
    let start = Instant::now(rt)?;
    let module = decoded(rt.alloc(), bytes)?;
    written(rt, start, &module)
}

/// The text of a module, and how long it took to print it, in nanoseconds.
fn text_of(rt: &HostRuntime, module: &Module) -> Result<(String, u128)> {
    let start = Instant::now(rt)?;
    let text = print(rt.alloc(), module)?;
    Ok((text, start.elapsed(rt)?.as_nanos()))
}

/// The text of the module of these bytes, and how long it took to print it, in nanoseconds.
fn printed(rt: &HostRuntime, bytes: &[u8]) -> Result<(String, u128)> {
    let module = decoded(rt.alloc(), bytes)?;
    text_of(rt, &module)
}

/// Makes the module's text.
fn make_text(rt: &HostRuntime, bytes: &[u8]) -> Result<Made> {
    let (text, nanoseconds) = printed(rt, bytes)?;
    Ok(Made {
        amount: text.len(),
        nanoseconds,
    })
}

/// One round. What it made is let go at its end.
fn make(rt: &HostRuntime, layer: Layer, input: &[u8]) -> Result<Made> {
    match layer {
        Layer::Tokens => make_tokens(rt, input),
        Layer::Parse => make_surface(rt, input),
        Layer::Resolve => make_names(rt, input),
        Layer::Decode => make_module(rt, input),
        Layer::Check => make_checked(rt, input),
        Layer::Encode => make_bytes(rt, input),
        Layer::Print => make_text(rt, input),
    }
}

/// Millions of bytes a second, where so many bytes take so many nanoseconds.
fn rate(bytes: usize, nanoseconds: u128) -> u128 {
    bytes as u128 * 1000 / nanoseconds.max(1)
}

/// Tells the best and the median of the rounds' times.
fn tell(rt: &HostRuntime, what: &str, bytes: usize, mut times: Vec<u128>) -> Result<()> {
    times.sort()?;
    if let (Some(best), Some(median)) = (times.first(), times.get(times.len() / 2)) {
        let (best, median) = (rate(bytes, *best), rate(bytes, *median));
        eprintln!(rt; "{what}: best {best} MB/s, median {median} MB/s")?;
    }
    Ok(())
}

/// Does so many rounds, and tells what they made and took.
fn measure(rt: &HostRuntime, layer: Layer, path: &str, rounds: u32) -> Result<()> {
    let input = fs::read(rt, path)?;
    let mut amount = 0;
    let mut making = Vec::new(rt.alloc());
    let mut whole = Vec::new(rt.alloc());
    for _ in 0..rounds {
        let start = Instant::now(rt)?;
        let made = make(rt, layer, &input)?;
        whole.push(start.elapsed(rt)?.as_nanos())?;
        making.push(made.nanoseconds)?;
        amount = made.amount;
    }
    println!(rt; "{amount} {}", layer.unit())?;
    tell(rt, "making", input.len(), making)?;
    tell(rt, "the whole round", input.len(), whole)
}

/// Writes the printed text of the file's module.
fn write_text(rt: &HostRuntime, path: &str) -> Result<()> {
    let (text, _nanoseconds) = printed(rt, &fs::read(rt, path)?)?;
    print!(rt; "{text}")?;
    Ok(())
}

fn main(rt: HostRuntime) -> Result<()> {
    let words: Vec<String> = env::args(&rt)?.collect(rt.alloc())?;
    if let [_, layer, path, rounds] = words.as_slice() {
        if let Some(layer) = Layer::of_word(layer.as_str()) {
            let rounds = rounds
                .as_str()
                .parse::<u32>()
                .context("reading the number of rounds")?;
            return measure(&rt, layer, path.as_str(), rounds);
        }
    }
    if let [_, word, path] = words.as_slice() {
        if word.as_str() == "text" {
            return write_text(&rt, path.as_str());
        }
    }
    bail!(
        "usage: wc_bench tokens|parse|resolve|decode|check|encode|print FILE ROUNDS, or wc_bench text FILE"
    )
}
