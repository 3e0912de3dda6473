//! What a call tells.

/// All went well: the answer was written, the input is accepted, or the inputs denote the same module.
pub const DONE: u32 = 0;

/// The input is refused.
pub const REFUSED: u32 = 1;

/// A growth of memory was refused.
pub const NO_MEMORY: u32 = 2;

/// There is an answer, and less room than it needs.
pub const SHORT: u32 = 3;

/// The inputs denote different modules.
pub const DIFFERENT: u32 = 4;

/// The first input is refused.
pub const A_REFUSED: u32 = 5;

/// The first input is accepted, and the second one is refused.
pub const B_REFUSED: u32 = 6;
