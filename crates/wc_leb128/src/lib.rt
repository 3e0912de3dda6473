//! Integers of the binary format (Core 1.0, 5.2.2): read byte by byte within N bits, and written as short as can be.
#![tactic(auto)]

mod bits;
mod eight;
mod eight_front;
mod front;
mod law;
mod leb;
mod one_byte;
mod respelling;
mod short_front;
mod shortest;
mod signed;
mod step;
mod unsigned;

pub use eight_front::signed_front;
pub use front::{signed_at, unsigned_at};
pub use law::{signed_answers, signed_spellings, unsigned_answers, unsigned_spellings};
pub use leb::Leb;
pub use one_byte::{signed_in_one, spelled_in_one, unsigned_in_one};
pub use respelling::{Respelling, respelled};
pub use short_front::{u32_behind, u32_front};
pub use shortest::{shortest_s, shortest_u};
pub use signed::Signed;
pub use step::Step;
pub use unsigned::Unsigned;
