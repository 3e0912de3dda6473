//! A reader or writer that counts what it was asked for and keeps whether a call failed.
#![tactic(auto)]

mod calls;
mod io_device;

pub use calls::{Reader, Writer};
pub use io_device::{BUFFER_SIZE, Device};
