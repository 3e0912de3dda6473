//! Asks the public calls of `wc_canon` and `wc_cli` for the answers of tables: `wc_rows TABLE..`. It tells of each
//! table how many rows it has, and each row whose answer is another. `rows` says how a row is written.
#![tactic(auto)]

mod acts;
mod answer;
mod calls;
mod faults;
mod fronts;
mod grammar;
mod input;
mod kept;
mod layers;
mod lines;
mod pieces;
mod readers;
mod rows;
mod runs;
mod sheet;
mod told;
mod words;

use crate::rows::judge;
use anyhow::{Context, Result};
use std::{env, fs};

/// Judges each row of a table, and tells how many there are.
fn tell(rt: &HostRuntime, path: &str) -> Result<()> {
    let table = fs::read_to_string(rt, path).context("reading a table")?;
    let mut count = 0usize;
    for line in table.as_str().lines() {
        if judge(rt, line)? {
            count = count.saturating_add(1);
        }
    }
    println!(rt; "{path}: {count} rows")?;
    Ok(())
}

fn main(rt: HostRuntime) -> Result<()> {
    let words: Vec<String> = env::args(&rt)?.collect(rt.alloc())?;
    for path in words.iter().skip(1) {
        tell(&rt, path.as_str())?;
    }
    Ok(())
}
