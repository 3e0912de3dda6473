//! Codes of functions (Core 1.0, 5.5.13).

ghost use Rattle.std.specs.Prelude.{ℕ, length};
ghost use Rattle.wc_body.specs.Standard.ValueBytes.{vector_bytes, FitsVector};
ghost use Rattle.wc_binary.specs.Writing.Values.{section_bytes, FitsSection};
ghost use Rattle.wc_binary.specs.Writing.Contents.{func_bytes, code_bytes, FitsFunc, FitsCode};
ghost use Rattle.wc_binary.specs.Standard.Sections.{section_id};
ghost use Rattle.wc_binary.specs.Writing.Writes.{Writes, Measures, MeasuresWithin, section_limit};

use crate::encoder::measured::Measured;
use crate::encoder::section::{headed_size, write_head};
use crate::encoder::value::{length_size, sized_size, write_length};
use crate::fault::EncFault;
use crate::section::SectionKind;
use wc_ast::{CodeRef, Codes};

/// How many bytes stand behind the size of a code.
fn func_size(code: &CodeRef<'_>) -> Option<usize>
    ensures { Measures (FitsFunc code.now) (length (func_bytes code.now)) result }
{
    let locals = code.locals().size()?;
    let body = code.body().size()?;
    Some(locals.saturating_add(body))
}

impl<'a> Measured for CodeRef<'a> {
    ghost bytes = { code_bytes };

    ghost Fits = { FitsCode };

    fn size(&self) -> Option<usize> {
        sized_size(func_size(self)?)
    }

    fn write(&self, out: &mut Vec<u8>) -> Result<(), EncFault> {
        let Some(size) = func_size(self) else {
            return Err(EncFault::Oversize);
        };
        write_length(out, size)?;
        self.locals().write(out)?;
        self.body().write(out)
    }
}

/// How many bytes the count and the codes take.
fn codes_size(codes: &Codes) -> Option<usize>
    ensures { Measures (FitsVector FitsCode codes.now) (length (vector_bytes code_bytes codes.now)) result }
{
    let count = length_size(codes.len())?;
    let mut size = count;
    for code in codes.iter() {
        size = size.saturating_add(code.size()?);
    }
    Some(size)
}

fn write_codes(out: &mut Vec<u8>, codes: &Codes) -> Result<(), EncFault>
    ensures { Writes (FitsVector FitsCode codes.now) out.old.items out.new.items
        (vector_bytes code_bytes codes.now) result }
{
    write_length(out, codes.len())?;
    for code in codes.iter() {
        code.write(out)?;
    }
    Ok(())
}

/// How many bytes the code section takes, whatever its id.
pub fn code_section_size(codes: &Codes) -> Option<usize>
    ensures { (id : ℕ) → MeasuresWithin section_limit (FitsSection code_bytes FitsCode codes.now)
        (length (section_bytes id code_bytes codes.now)) result }
{
    if codes.len() == 0 {
        return Some(0);
    }
    headed_size(codes_size(codes)?)
}

/// Writes the code section, unless there is no code.
pub fn write_code_section(out: &mut Vec<u8>, codes: &Codes) -> Result<(), EncFault>
    ensures { Writes (FitsSection code_bytes FitsCode codes.now) out.old.items out.new.items
        (section_bytes (section_id SectionKind.Code) code_bytes codes.now) result }
{
    if codes.len() == 0 {
        return Ok(());
    }
    let Some(size) = codes_size(codes) else {
        return Err(EncFault::Oversize);
    };
    write_head(out, SectionKind::Code, size)?;
    write_codes(out, codes)
}
