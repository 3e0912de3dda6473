//! The binary format (WebAssembly Core Specification 1.0, chapter 5): modules from bytes, and canonical bytes of
//! modules.
#![tactic(auto)]

mod byte_range;
mod decoder;
mod encoder;
mod fault;
mod law;
mod parts;
mod section;
mod source;
mod tables;
mod value_type;

pub use decoder::{decode, decode_from};
pub use encoder::{encode, encode_in, encoded_length};
pub use fault::{BinFault, BinWhy, EncFault};
pub use law::{
    always_canonical, always_judged, module_or_fault, one_canonical, one_fault, one_module,
    sections_rise, shortest_and_only,
};
