//! The version.

/// The version of the library and of the program, in three numbers. It stands here alone.
pub const VERSION: &str = "0.1.0";
