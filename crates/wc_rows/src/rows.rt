//! The rows of a table.
//!
//! A line is empty, or begins with `#` and says what the rows below it show, or is a row: an input, ` => ` and its
//! answer. `input` says how inputs are written, `answer` how answers are.

use crate::answer::is_answered;
use crate::input::input_of;
use crate::sheet::Sheet;
use anyhow::Result;

/// Whether a row has the answer of its input. What was found is told, which is no matter where it has.
fn agrees(found: &mut Sheet, row: &str) -> bool {
    let Some((input, wanted)) = row.split_once(" => ") else {
        found.note("reading a row");
        return false;
    };
    let input = input_of(found, input);
    is_answered(found, input.as_slice(), wanted)
}

/// Judges the row of a line, and tells whether the line has one. A row whose answer is another is written to standard
/// output, with what was found, and so is one that can't be asked.
pub fn judge(rt: &HostRuntime, line: &str) -> Result<bool> {
    if line.is_empty() || line.starts_with('#') {
        return Ok(false);
    }
    let mut found = Sheet::new(rt.alloc());
    let agrees = agrees(&mut found, line);
    match found.fault() {
        Some(fault) => println!(rt; "{line}: {fault}")?,
        None if agrees => {}
        None => println!(rt; "{line}: found {}", found.as_text())?,
    }
    Ok(true)
}
