//! What waits in front of its operands.

use wc_surface::TextInstr;

/// An instruction that is written in front of its operands, and belongs behind them (Core 1.0, 6.5.7).
#[derive(Clone, Copy)]
pub enum Held {
    /// An instruction in which none is nested.
    Plain(TextInstr),
    /// An if, whose head has this place.
    If(u32),
}
