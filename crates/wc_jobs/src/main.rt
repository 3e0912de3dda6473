//! The jobs that users wait for, on inputs that a seed decides: `wc_jobs JOB SEED AMOUNT`. It tells how many inputs
//! there were and a digest of all that was answered, and no times: `bench/run` times it from outside.
//! `wc_jobs sample KIND STYLE SEED SIZE` writes one such input to standard output.
#![tactic(auto)]

mod carrying;
mod devices;
mod jobs;

use crate::carrying::Answers;
use crate::jobs::Desk;
use anyhow::{Context, Result, bail};
use std::env;
use std::io::Write;

const USAGE: &str = "usage: wc_jobs keys|gate|build|review|calls|awkward|all SEED AMOUNT, \
    or wc_jobs sample KIND STYLE SEED SIZE";

/// Tells what was answered.
fn tell(rt: &HostRuntime, word: &str, answers: &Answers) -> Result<()> {
    let inputs = answers.inputs;
    let bytes = answers.bytes;
    let taken = answers.taken;
    let written = answers.written.value();
    let told = answers.told.value();
    println!(rt; "{word}: {inputs} inputs of {bytes} bytes")?;
    println!(rt; "written: {taken} bytes, {written:016x}; told: {told:016x}")?;
    Ok(())
}

/// Writes an input.
fn show(rt: &HostRuntime, kind: &str, style: &str, seed: u32, size: u32) -> Result<()> {
    let mut desk = Desk::new(rt.alloc(), u64::from(seed))?;
    write_sample(rt, &mut desk, kind, style, size)
}

fn write_sample(
    rt: &HostRuntime,
    desk: &mut Desk,
    kind: &str,
    style: &str,
    size: u32,
) -> Result<()> {
    let input = desk.sample(kind, style, size)?;
    rt.stdout().write_all(input)?;
    Ok(())
}

/// Does all jobs.
fn work_all(rt: &HostRuntime, seed: u32, amount: u32) -> Result<()> {
    for word in ["keys", "gate", "build", "review", "calls", "awkward"] {
        work(rt, word, seed, amount)?;
    }
    Ok(())
}

/// Does a job.
fn work(rt: &HostRuntime, word: &str, seed: u32, amount: u32) -> Result<()> {
    let mut desk = Desk::new(rt.alloc(), u64::from(seed))?;
    work_at(rt, &mut desk, word, amount)
}

fn work_at(rt: &HostRuntime, desk: &mut Desk, word: &str, amount: u32) -> Result<()> {
    let done = match word {
        "keys" => desk.keys(amount),
        "gate" => desk.gate(amount),
        "build" => desk.build(amount),
        "review" => desk.review(amount),
        "calls" => desk.calls(amount),
        "awkward" => desk.awkward(amount),
        _ => bail!("no such job"),
    };
    done?;
    tell(rt, word, &desk.answers)
}

/// The number that a word is.
fn number(word: &String, doing: &'static str) -> Result<u32> {
    word.as_str().parse::<u32>().context(doing)
}

/// Does what the words of a command line ask for.
fn carry_out(rt: &HostRuntime, words: &[String]) -> Result<()> {
    match words {
        [_, word, seed, amount] => {
            let seed = number(seed, "reading the seed")?;
            let amount = number(amount, "reading the amount")?;
            match word.as_str() {
                "all" => work_all(rt, seed, amount),
                word => work(rt, word, seed, amount),
            }
        }
        [_, word, kind, style, seed, size] => {
            let seed = number(seed, "reading the seed")?;
            let size = number(size, "reading the size")?;
            match word.as_str() {
                "sample" => show(rt, kind.as_str(), style.as_str(), seed, size),
                _ => bail!("{USAGE}"),
            }
        }
        _ => bail!("{USAGE}"),
    }
}

fn main(rt: HostRuntime) -> Result<()> {
    let words: Vec<String> = env::args(&rt)?.collect(rt.alloc())?;
    carry_out(&rt, words.as_slice())
}
