//! Tests of what no contract says: sizes, and that calls succeed under ample memory.

use std::alloc::{AllocError, Global};
use std::mem::size_of;
use std::test::Fail;
use wc_ast::{BuildFault, Kind, NESTING_LIMIT, SimpleOp, ValType};
use wc_surface::{
    CodeBuilder, Field, Head, Id, Local, Signature, TextCode, TextEntry, TextInstr, TextLocals,
};
use wc_symbols::Symbol;
use wc_tokens::Token;

#[test]
fn what_stands_in_lists_is_small(rt: HostRuntime) {
    assert!(rt; size_of::<Token<'_>>() <= 40);
    assert!(rt; size_of::<Symbol>() <= 24);
    assert!(rt; size_of::<TextEntry>() <= 24);
    assert!(rt; size_of::<Head<'_>>() <= 64);
    assert!(rt; size_of::<Field<'_>>() <= 104);
}

/// The key of a function type.
fn key(alloc: Global, params: &[ValType], results: &[ValType]) -> Result<Vec<u8>, AllocError> {
    let signature = Signature::new(alloc, params, results)?;
    Vec::from_slice(alloc, signature.key())
}

#[test]
fn keys(rt: HostRuntime) -> Result<(), Fail> {
    let empty = key(rt.alloc(), &[], &[])?;
    assert_eq!(rt; empty.as_slice(), [].as_slice());
    let both = key(rt.alloc(), &[ValType::I32], &[ValType::I64])?;
    assert_eq!(rt; both.as_slice(), [0x7f, 0, 0x7e].as_slice());
    Ok(())
}

/// Puts an entry of a letter.
fn put(builder: &mut CodeBuilder, letter: u8) -> Result<(), BuildFault> {
    match letter {
        b'b' => builder.begin(Kind::Block, 0),
        b'l' => builder.begin(Kind::Loop, 1),
        b'i' => builder.begin(Kind::If, 2),
        b'e' => builder.turn(),
        b'.' => builder.end(),
        _ => Ok(builder.push(TextInstr::Simple(SimpleOp::Nop))?),
    }
}

/// The letter of an entry.
fn letter_of(entry: &TextEntry) -> u8 {
    match entry {
        TextEntry::Plain(_) => b'p',
        TextEntry::Begin(Kind::Block, _) => b'b',
        TextEntry::Begin(Kind::Loop, _) => b'l',
        TextEntry::Begin(Kind::If, _) => b'i',
        TextEntry::Else => b'e',
        TextEntry::End => b'.',
    }
}

fn put_all(builder: &mut CodeBuilder, letters: &[u8]) -> Result<(), BuildFault> {
    for letter in letters {
        put(builder, *letter)?;
    }
    Ok(())
}

/// The instructions of these letters.
fn code(alloc: Global, letters: &[u8]) -> Result<TextCode, BuildFault> {
    let mut builder = CodeBuilder::new(alloc);
    put_all(&mut builder, letters)?;
    builder.finish()
}

fn letters_of(alloc: Global, entries: &[TextEntry]) -> Result<Vec<u8>, AllocError> {
    let mut letters = Vec::new(alloc);
    for entry in entries {
        letters.push(letter_of(entry))?;
    }
    Ok(letters)
}

/// The letters of the instructions of these letters.
fn letters(alloc: Global, of: &[u8]) -> Result<Vec<u8>, BuildFault> {
    let code = code(alloc, of)?;
    Ok(letters_of(alloc, code.entries())?)
}

#[test]
fn an_empty_else_is_not_kept(rt: HostRuntime) -> Result<(), Fail> {
    let whole = letters(rt.alloc(), b"bipep..p")?;
    assert_eq!(rt; whole.as_slice(), b"bipep..p".as_slice());
    let empty = letters(rt.alloc(), b"ipe.")?;
    assert_eq!(rt; empty.as_slice(), b"ip.".as_slice());
    Ok(())
}

/// The fault of instructions of these letters.
fn fault(alloc: Global, letters: &[u8]) -> Option<BuildFault> {
    code(alloc, letters).err()
}

#[test]
fn faults(rt: HostRuntime) -> Result<(), Fail> {
    assert_eq!(rt; fault(rt.alloc(), b"b"), Some(BuildFault::Mark));
    assert_eq!(rt; fault(rt.alloc(), b"."), Some(BuildFault::Mark));
    assert_eq!(rt; fault(rt.alloc(), b"be"), Some(BuildFault::Mark));
    assert_eq!(rt; fault(rt.alloc(), b"iee"), Some(BuildFault::Mark));
    Ok(())
}

#[test]
fn as_many_as_the_limit(rt: HostRuntime) -> Result<(), Fail> {
    let full = vec![in rt.alloc(); b'b'; NESTING_LIMIT + 1]?;
    assert_eq!(rt; fault(rt.alloc(), full.as_slice()), Some(BuildFault::Depth));
    assert_eq!(rt;
        fault(rt.alloc(), &full.as_slice()[1..]),
        Some(BuildFault::Mark)
    );
    Ok(())
}

/// A local of four, by its token.
fn local(token: u32) -> Local<'static> {
    let id = match token {
        12 => Some(Id::new(11, "$x")),
        _ => None,
    };
    Local {
        id,
        ty: ValType::I32,
        token,
    }
}

fn push_locals(locals: &mut TextLocals<'static>) -> Result<(), AllocError> {
    for token in &[4, 5, 8, 12] {
        locals.push(local(*token))?;
    }
    Ok(())
}

/// How many groups four locals make: two types one behind the other, one in another group, and one with an identifier.
fn groups(alloc: Global) -> Result<usize, AllocError> {
    let mut locals = TextLocals::new(alloc);
    push_locals(&mut locals)?;
    Ok(locals.groups().len())
}

#[test]
fn locals_in_groups(rt: HostRuntime) -> Result<(), Fail> {
    assert_eq!(rt; groups(rt.alloc())?, 3);
    Ok(())
}
