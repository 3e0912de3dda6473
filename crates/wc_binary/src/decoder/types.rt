//! Types (Core 1.0, 5.3).

ghost use Rattle.wc_binary.specs.Standard.Types.{value_type, func_type, flag_of};
ghost use Rattle.wc_binary.specs.Standard.Types.{flag as flag_phrase, limits as limits_phrase};
ghost use Rattle.wc_binary.specs.Standard.Types.{table_type as table_type_phrase, global_type as global_type_phrase};
ghost use Rattle.wc_binary.specs.Standard.Values.{times as times_phrase, vector as vector_phrase};
ghost use Rattle.wc_binary.specs.Reading.Source.{Gives};

use crate::decoder::byte::{ByteTable, byte, only};
use crate::decoder::from_source::FromSource;
use crate::decoder::integer::u32;
use crate::fault::{BinFault, BinWhy};
use crate::source::Source;
use crate::tables::Tables;
use std::alloc::Global;
use wc_ast::{FuncType, GlobalType, Limits, List, ValType};

impl FromSource for ValType {
    ghost phrase = { value_type };

    #[tactic(auto, unfolding(crate::specs::Standard::Types::value_type))]
    fn read<S: Source>(_alloc: Global, source: &mut S) -> Result<ValType, BinFault> {
        byte(source)
    }
}

impl FromSource for FuncType {
    ghost phrase = { func_type };

    #[tactic(auto, unfolding(crate::specs::Standard::Types::func_type))]
    fn read<S: Source>(alloc: Global, source: &mut S) -> Result<FuncType, BinFault> {
        only(0x60, BinWhy::WrongType, source)?;
        let params = List::read(alloc, source)?;
        let results = List::read(alloc, source)?;
        Ok(FuncType { params, results })
    }
}

impl ByteTable for bool {
    ghost table = { flag_of };

    /// Zero for no, one for yes.
    fn of_byte(byte: u8) -> Result<bool, BinWhy> {
        match byte {
            0 => Ok(false),
            1 => Ok(true),
            _ => Err(BinWhy::Tag),
        }
    }
}

#[tactic(auto, unfolding(crate::specs::Standard::Types::flag))]
fn flag<S: Source>(source: &mut S) -> Result<bool, BinFault>
    ensures { Gives flag_phrase (S.input source.old) (S.input source.new) result }
{
    byte(source)
}

impl FromSource for Limits {
    ghost phrase = { limits_phrase };

    #[tactic(auto, unfolding(crate::specs::Standard::Types::limits))]
    fn read<S: Source>(_alloc: Global, source: &mut S) -> Result<Limits, BinFault> {
        let has_max = flag(source)?;
        let min = u32(source)?;
        let max = if has_max { Some(u32(source)?) } else { None };
        Ok(Limits { min, max })
    }
}

#[tactic(auto, unfolding(crate::specs::Standard::Types::table_type))]
pub fn table_type<S: Source>(alloc: Global, source: &mut S) -> Result<Limits, BinFault>
    ensures { Gives table_type_phrase (S.input source.old) (S.input source.new) result }
{
    only(0x70, BinWhy::WrongType, source)?;
    Limits::read(alloc, source)
}

fn table_types<S: Source>(
    alloc: Global,
    count: u32,
    source: &mut S,
) -> Result<List<Limits>, BinFault>
    ensures { Gives (times_phrase count table_type_phrase) (S.input source.old) (S.input source.new) result }
{
    let mut tables = List::new(alloc);
    for _ in 0..count {
        tables.push(table_type(alloc, source)?)?;
    }
    Ok(tables)
}

impl FromSource for Tables {
    ghost phrase = { vector_phrase table_type_phrase };

    #[tactic(auto, unfolding(crate::specs::Standard::Values::vector))]
    fn read<S: Source>(alloc: Global, source: &mut S) -> Result<Tables, BinFault> {
        let count = u32(source)?;
        let limits = table_types(alloc, count, source)?;
        Ok(Tables::from_limits(limits))
    }
}

#[tactic(auto, unfolding(crate::specs::Standard::Types::global_type))]
pub fn global_type<S: Source>(alloc: Global, source: &mut S) -> Result<GlobalType, BinFault>
    ensures { Gives global_type_phrase (S.input source.old) (S.input source.new) result }
{
    let ty = ValType::read(alloc, source)?;
    let mutable = flag(source)?;
    Ok(GlobalType { ty, mutable })
}
