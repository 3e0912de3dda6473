//! Tables and memories.

ghost use Rattle.std.specs.Prelude.{◌≡◌, ◌<◌, ◌^◌, ◌++◌, OnOk};
ghost use Rattle.wc_surface.specs.Standard.Sizes.{table_inline, memory_inline, inline_size};
ghost use Rattle.wc_resolve.specs.Standard.Ranges.{exactly as only, pages as pages_of, table_limits, memory_limits};
ghost use Rattle.wc_resolve.specs.Standard.Ranges.{field_tables, field_memories};

use std::alloc::AllocError;
use wc_ast::{Limits, List as AstList};
use wc_surface::{Field, MemoryDesc, TableDesc};

/// This size and no other.
fn exactly(size: u32) -> Limits
    ensures { result ≡ only size }
{
    Limits {
        min: size,
        max: Some(size),
    }
}

/// The pages that so many bytes need.
fn pages(bytes: u32) -> u32
    ensures { result ≡ pages_of bytes }
{
    ((u64::from(bytes) + 65535) / 65536) as u32
}

fn put_table_limits(out: &mut AstList<Limits>, desc: &TableDesc<'_>) -> Result<(), AllocError>
    requires { table_inline desc.now < 2 ^ 32 }
    ensures { OnOk result (out.new ≡ out.old ++ table_limits desc.now) }
{
    match desc {
        TableDesc::Import(_, _) => {}
        TableDesc::Limits(limits) => out.push(*limits)?,
        TableDesc::Elems(funcs) => out.push(exactly(funcs.len() as u32))?,
    }
    Ok(())
}

fn put_memory_limits(out: &mut AstList<Limits>, desc: &MemoryDesc<'_>) -> Result<(), AllocError>
    requires { memory_inline desc.now < 2 ^ 32 }
    ensures { OnOk result (out.new ≡ out.old ++ memory_limits desc.now) }
{
    match desc {
        MemoryDesc::Import(_, _) => {}
        MemoryDesc::Limits(limits) => out.push(*limits)?,
        MemoryDesc::Bytes(bytes) => out.push(exactly(pages(bytes.len() as u32)))?,
    }
    Ok(())
}

pub(crate) fn put_table(out: &mut AstList<Limits>, field: &Field<'_>) -> Result<(), AllocError>
    requires { inline_size field.now < 2 ^ 32 }
    ensures { OnOk result (out.new ≡ out.old ++ field_tables field.now) }
{
    match field {
        Field::Table(table) => put_table_limits(out, &table.desc),
        _ => Ok(()),
    }
}

pub(crate) fn put_memory(out: &mut AstList<Limits>, field: &Field<'_>) -> Result<(), AllocError>
    requires { inline_size field.now < 2 ^ 32 }
    ensures { OnOk result (out.new ≡ out.old ++ field_memories field.now) }
{
    match field {
        Field::Memory(memory) => put_memory_limits(out, &memory.desc),
        _ => Ok(()),
    }
}
