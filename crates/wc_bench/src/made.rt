//! What a round made.

use anyhow::Result;
use std::time::Instant;

/// What a round made.
#[derive(Clone, Copy)]
pub struct Made {
    /// How many of the layer's units.
    pub amount: usize,
    /// How long it took to make them, without letting them go, in nanoseconds.
    pub nanoseconds: u128,
}

/// So many units, made since then.
pub fn made_since(rt: &HostRuntime, start: Instant, amount: usize) -> Result<Made> {
    Ok(Made {
        amount,
        nanoseconds: start.elapsed(rt)?.as_nanos(),
    })
}
