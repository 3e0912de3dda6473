//! The texts of what no input is refused for: places and sizes beyond all inputs, and want of memory.

use crate::sheet::Sheet;
use crate::told::tell_refusal;
use wc_binary::BinWhy;
use wc_canon::{Refusal, RunFault};

/// The refusal of a word.
fn refusal_of(word: &str) -> Option<Refusal> {
    match word {
        "far" => Some(Refusal::Binary {
            at: u64::MAX,
            why: BinWhy::End,
        }),
        "oversize" => Some(Refusal::Oversize),
        "memory" => Some(Refusal::Memory),
        _ => None,
    }
}

/// Tells the text of the refusal of a word, as it is rendered and as it is displayed.
pub fn tell_refusal_of(told: &mut Sheet, word: &str) {
    let Some(refusal) = refusal_of(word) else {
        told.note("no such refusal");
        return;
    };
    tell_refusal(told, &refusal);
    told.put_text("; ");
    told.put_shown(&refusal);
}

/// The fault of a run of a word.
fn run_fault_of(word: &str) -> Option<RunFault> {
    match word {
        "refused" => Some(RunFault::Refused(Refusal::Oversize)),
        "read" => Some(RunFault::Read { at: 1 }),
        "write" => Some(RunFault::Write { written: 1 }),
        "memory" => Some(RunFault::Memory),
        _ => None,
    }
}

/// Tells the text of the fault of a run.
pub fn tell_run_fault_of(told: &mut Sheet, word: &str) {
    match run_fault_of(word) {
        Some(fault) => told.put_shown(&fault),
        None => told.note("no such fault"),
    }
}
