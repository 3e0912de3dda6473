//! Globals and segments (Core 1.0, 5.5.9, 5.5.12 and 5.5.14).

ghost use Rattle.wc_binary.specs.Standard.Contents.{global as global_phrase, elem_segment, data_segment};

use crate::decoder::from_source::FromSource;
use crate::decoder::integer::u32;
use crate::decoder::types::global_type;
use crate::decoder::vector::byte_vector;
use crate::fault::BinFault;
use crate::source::Source;
use std::alloc;
use wc_ast::{Constant, Data, Elem, Global, List};

impl FromSource for Global {
    ghost phrase = { global_phrase };

    #[tactic(auto, unfolding(crate::specs::Standard::Contents::global))]
    fn read<S: Source>(alloc: alloc::Global, source: &mut S) -> Result<Global, BinFault> {
        let ty = global_type(alloc, source)?;
        let init = Constant::read(alloc, source)?;
        Ok(Global { ty, init })
    }
}

impl FromSource for Elem {
    ghost phrase = { elem_segment };

    #[tactic(auto, unfolding(crate::specs::Standard::Contents::elem_segment))]
    fn read<S: Source>(alloc: alloc::Global, source: &mut S) -> Result<Elem, BinFault> {
        let table = u32(source)?;
        let offset = Constant::read(alloc, source)?;
        let funcs = List::read(alloc, source)?;
        Ok(Elem {
            table,
            offset,
            funcs,
        })
    }
}

impl FromSource for Data {
    ghost phrase = { data_segment };

    #[tactic(auto, unfolding(crate::specs::Standard::Contents::data_segment))]
    fn read<S: Source>(alloc: alloc::Global, source: &mut S) -> Result<Data, BinFault> {
        let memory = u32(source)?;
        let offset = Constant::read(alloc, source)?;
        let bytes = byte_vector(alloc, source)?;
        Ok(Data {
            memory,
            offset,
            bytes,
        })
    }
}
