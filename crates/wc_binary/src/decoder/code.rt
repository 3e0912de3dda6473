//! Codes of functions (Core 1.0, 5.5.13).

ghost use Rattle.std.specs.Prelude.{◌≡◌, IfOk, OnErr, IfSome};
ghost use Rattle.wc_binary.specs.Standard.Contents.{code as code_phrase, func as func_phrase};
ghost use Rattle.wc_binary.specs.Standard.Values.{times as times_phrase, vector as vector_phrase};
ghost use Rattle.wc_binary.specs.Reading.Source.{Gives};
ghost use Rattle.wc_binary.specs.Reading.NextCode.{BeginsBare, AddsCode};
ghost use Rattle.wc_binary.specs.Reading.NextItem.{TakesItem, AddsItem};

use crate::decoder::expression::body_from;
use crate::decoder::from_source::FromSource;
use crate::decoder::integer::u32;
use crate::decoder::locals::locals_from;
use crate::fault::{BinFault, BinWhy, bad};
use crate::source::Source;
use std::alloc::{AllocError, Global};
use wc_ast::{Body, BodyBuilder, Codes, FuncCode, Locals};
use wc_device::BUFFER_SIZE;

/// What stands behind the size of a code, in the memory of one that is wanted no longer.
#[tactic(auto, unfolding(crate::specs::Standard::Contents::func))]
fn func<S: Source>(alloc: Global, spare: FuncCode, source: &mut S) -> Result<FuncCode, BinFault>
    ensures { Gives func_phrase (S.input source.old) (S.input source.new) result }
{
    let FuncCode { locals, body } = spare;
    let locals = locals_from(alloc, locals, source)?;
    let body = body_from(alloc, BodyBuilder::reusing(body), source)?;
    Ok(FuncCode { locals, body })
}

/// A code behind its size, in such memory. The size is judged once the code was read.
#[tactic(auto, unfolding(crate::specs::Standard::Contents::code, crate::specs::Standard::Values::sized))]
fn code<S: Source>(alloc: Global, spare: FuncCode, source: &mut S) -> Result<FuncCode, BinFault>
    ensures { Gives code_phrase (S.input source.old) (S.input source.new) result }
{
    let at = source.place();
    let size = u32(source)?;
    let start = source.place();
    let found = func(alloc, spare, source)?;
    if source.place() - start != size as u64 {
        return Err(bad(at, BinWhy::BodySize));
    }
    Ok(found)
}

/// The bytes of the body of the code that these begin with (Core 1.0, 5.5.13), where its size has one byte and it has
/// no locals.
#[inline(always)]
fn bare_body(bytes: &[u8]) -> Option<&[u8]>
    ensures { IfSome result (λ body. BeginsBare bytes.now body.now) }
{
    let (size, rest) = bytes.split_first()?;
    let (groups, rest) = rest.split_first()?;
    if *size == 0 || *size >= 128 || *groups != 0 {
        return None;
    }
    let count = *size as usize - 1;
    if rest.len() < count {
        return None;
    }
    Some(&rest[..count])
}

/// Adds the code that these bytes begin with, where they are its canonical ones, it has no locals, and its body is
/// small and usual. Answers how many bytes it has, or none where it wasn't added.
#[inline(always)]
fn push_front(codes: &mut Codes, bytes: &[u8]) -> Result<Option<usize>, AllocError>
    ensures ok { IfOk result (AddsCode codes.old codes.new bytes.now) }
    ensures err { OnErr result (codes.new ≡ codes.old) }
{
    let Some(body) = bare_body(bytes) else {
        return Ok(None);
    };
    if !codes.push_spelled(body)? {
        return Ok(None);
    }
    Ok(Some(body.len() + 2))
}

/// Adds the code that lies ahead whole, where that can be done at once, and answers whether it was: as it can of most
/// small functions. Else nothing was taken.
#[inline(always)]
fn code_ahead<S: Source>(codes: &mut Codes, source: &mut S) -> Result<bool, BinFault>
    ensures { TakesItem code_phrase codes.old codes.new (S.input source.old) (S.input source.new) result }
{
    let Some(count) = push_front(codes, source.front(BUFFER_SIZE))? else {
        return Ok(false);
    };
    source.pass(count as u64);
    Ok(true)
}

/// Reads a code, and puts it behind the others. Where that can't be done at once, it is read into the memory of one
/// that is wanted no longer; such memory is answered.
fn next_code<S: Source>(
    alloc: Global,
    codes: &mut Codes,
    spare: FuncCode,
    source: &mut S,
) -> Result<FuncCode, BinFault>
    ensures { AddsItem code_phrase codes.old codes.new (S.input source.old) (S.input source.new) result }
{
    if code_ahead(codes, source)? {
        return Ok(spare);
    }
    let found = code(alloc, spare, source)?;
    codes.push(&found.locals, &found.body)?;
    Ok(found)
}

/// So many codes, one behind the other.
fn codes<S: Source>(alloc: Global, count: u32, source: &mut S) -> Result<Codes, BinFault>
    ensures { Gives (times_phrase count code_phrase) (S.input source.old) (S.input source.new) result }
{
    let mut codes = Codes::new(alloc);
    let mut spare = FuncCode {
        locals: Locals::new(alloc),
        body: Body::new(alloc),
    };
    for _ in 0..count {
        spare = next_code(alloc, &mut codes, spare, source)?;
    }
    Ok(codes)
}

impl FromSource for Codes {
    ghost phrase = { vector_phrase code_phrase };

    #[tactic(auto, unfolding(crate::specs::Standard::Values::vector))]
    fn read<S: Source>(alloc: Global, source: &mut S) -> Result<Codes, BinFault> {
        let count = u32(source)?;
        codes(alloc, count, source)
    }
}
