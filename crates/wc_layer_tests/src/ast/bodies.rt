//! Bodies, their builder, their bytes and their copies.

use std::alloc::Global;
use std::process::Abort;
use std::test::Fail;
use wc_ast::{
    BlockType, Body, BodyBuilder, BuildFault, Entry, Instr, Kind, NESTING_LIMIT, SimpleOp,
    TryClone, ValType,
};

/// A letter for each entry.
fn letter_of(entry: &Entry) -> u8 {
    match entry {
        Entry::Plain(_) => b'p',
        Entry::Begin(Kind::Block, _) => b'b',
        Entry::Begin(Kind::Loop, _) => b'l',
        Entry::Begin(Kind::If, _) => b'i',
        Entry::Else => b'e',
        Entry::End => b'.',
    }
}

/// The entry of a letter, the other way.
fn entry(letter: u8) -> Entry<'static> {
    match letter {
        b'b' => Entry::Begin(Kind::Block, BlockType::Empty),
        b'l' => Entry::Begin(Kind::Loop, BlockType::Value(ValType::I64)),
        b'i' => Entry::Begin(Kind::If, BlockType::Index(3)),
        b'e' => Entry::Else,
        b'.' => Entry::End,
        _ => Entry::Plain(Instr::Simple(SimpleOp::Nop)),
    }
}

/// The bytes of that entry.
fn spelling(letter: u8) -> &'static [u8] {
    match letter {
        b'b' => &[0x02, 0x40],
        b'l' => &[0x03, 0x7e],
        b'i' => &[0x04, 0x03],
        b'e' => &[0x05],
        b'.' => &[0x0b],
        _ => &[0x01],
    }
}

fn letters(alloc: Global, body: &Body) -> Result<Vec<u8>, Fail> {
    let mut found = Vec::new(alloc);
    for entry in body.entries() {
        found.push(letter_of(&entry))?;
    }
    Ok(found)
}

/// The bytes of the entries of the letters.
fn spelled(alloc: Global, letters: &[u8]) -> Result<Vec<u8>, Fail> {
    let mut bytes = Vec::new(alloc);
    for letter in letters {
        bytes.extend_from_slice(spelling(*letter))?;
    }
    Ok(bytes)
}

/// A builder with as many open blocks.
fn nested_blocks(alloc: Global, count: usize) -> Result<BodyBuilder, Fail> {
    let mut builder = BodyBuilder::new(alloc);
    for _ in 0..count {
        builder.push(Entry::Begin(Kind::Block, BlockType::Empty))?;
    }
    Ok(builder)
}

/// Ends what is open.
pub(super) fn ended(mut builder: BodyBuilder) -> Result<Body, Fail> {
    for _ in 0..builder.depth() {
        builder.push(Entry::End)?;
    }
    Ok(builder.finish()?)
}

/// Pushes the entries of the letters up to one that is refused, and tells how many were tried, and why no more.
fn pushed(builder: &mut BodyBuilder, letters: &[u8]) -> (usize, Option<BuildFault>) {
    for (number, letter) in letters.iter().enumerate() {
        if let Err(fault) = builder.push(entry(*letter)) {
            return (number + 1, Some(fault));
        }
    }
    (letters.len(), None)
}

/// Pushes the entries of the letters; the last one is refused as told, and the body is what the others make.
static BUILT: [(&[u8], Option<BuildFault>, &[u8]); 14] = [
    (b"", None, b""),
    (b"ppp", None, b"ppp"),
    (b"bpl.p.", None, b"bpl.p."),
    (b"ip.", None, b"ip."),
    (b"ipep.", None, b"ipep."),
    (b"ie.p", None, b"i.p"),
    (b"ieie.p.", None, b"iei.p."),
    (b"ieb..", None, b"ieb.."),
    (b"e", Some(BuildFault::Mark), b""),
    (b".", Some(BuildFault::Mark), b""),
    (b"b.be", Some(BuildFault::Mark), b"b.b."),
    (b"iee", Some(BuildFault::Mark), b"i."),
    (b"iepe", Some(BuildFault::Mark), b"iep."),
    (b"ipie.e.e", Some(BuildFault::Mark), b"ipi.."),
];

/// The body has the entries of these letters.
fn check_kept(rt: &(impl Abort + AllocGlobal), body: &Body, kept: &[u8]) -> Result<(), Fail> {
    assert_eq!(rt; letters(rt.alloc(), body)?.as_slice(), kept);
    assert_eq!(rt; body.bytes(), spelled(rt.alloc(), kept)?.as_slice());
    Ok(())
}

/// Its copy has the entries of these letters.
fn check_copy(rt: &(impl Abort + AllocGlobal), body: &Body, kept: &[u8]) -> Result<(), Fail> {
    let copy = body.try_clone()?;
    check_kept(rt, &copy, kept)
}

/// The letters are pushed up to the one that is refused as told, and a copy of the body has the kept ones.
fn check_built(
    rt: &(impl Abort + AllocGlobal),
    letters: &[u8],
    refused: Option<BuildFault>,
    kept: &[u8],
) -> Result<(), Fail> {
    let mut builder = BodyBuilder::new(rt.alloc());
    assert_eq!(rt; pushed(&mut builder, letters), (letters.len(), refused));
    let body = ended(builder)?;
    check_copy(rt, &body, kept)
}

#[test]
fn entries_are_kept_or_refused(rt: HostRuntime) -> Result<(), Fail> {
    for &(letters, refused, kept) in &BUILT {
        check_built(&rt, letters, refused, kept)?;
    }
    Ok(())
}

/// Room for nothing, for less than is put, for as much and for more.
const ROOMS: [usize; 4] = [0, 3, 6, 65_536];

/// Pushes an if of two parts into the new builder.
fn push_if(rt: &impl Abort, builder: &mut BodyBuilder) {
    assert_eq!(rt; builder.depth(), 0);
    assert_eq!(rt; pushed(builder, b"ipep."), (5, None));
}

/// A body of an if of two parts.
fn built_with_room(rt: &(impl Abort + AllocGlobal), room: usize) -> Result<Body, Fail> {
    let mut builder = BodyBuilder::with_room(rt.alloc(), room)?;
    push_if(rt, &mut builder);
    Ok(builder.finish()?)
}

/// The body has the entries that were pushed, with room for so many bytes.
fn check_room(rt: &(impl Abort + AllocGlobal), room: usize) -> Result<(), Fail> {
    let body = built_with_room(rt, room)?;
    check_kept(rt, &body, b"ipep.")
}

#[test]
fn room_changes_no_entry(rt: HostRuntime) -> Result<(), Fail> {
    for &room in &ROOMS {
        check_room(&rt, room)?;
    }
    Ok(())
}

#[test]
fn an_open_block_is_not_finished(rt: HostRuntime) -> Result<(), Fail> {
    let builder = nested_blocks(rt.alloc(), 1)?;
    assert_eq!(rt; builder.finish().err(), Some(BuildFault::Mark));
    Ok(())
}

/// Pushes a block more than may be open, and then what may stand there.
fn push_at_the_limit(rt: &impl Abort, builder: &mut BodyBuilder) {
    assert_eq!(rt; pushed(builder, b"i"), (1, Some(BuildFault::Depth)));
    assert_eq!(rt; pushed(builder, b"p"), (1, None));
}

fn deepest(rt: &(impl Abort + AllocGlobal)) -> Result<Body, Fail> {
    let mut builder = nested_blocks(rt.alloc(), NESTING_LIMIT)?;
    push_at_the_limit(rt, &mut builder);
    ended(builder)
}

/// The deepest body has so many entries, of so many bytes.
fn check_deepest(rt: &(impl Abort + AllocGlobal), body: &Body) -> Result<(), Fail> {
    assert_eq!(rt; letters(rt.alloc(), body)?.len(), 40_001);
    assert_eq!(rt; body.bytes().len(), 60_001);
    Ok(())
}

/// And so has its copy.
fn check_copy_of_deepest(rt: &(impl Abort + AllocGlobal), body: &Body) -> Result<(), Fail> {
    let copy = body.try_clone()?;
    check_deepest(rt, &copy)
}

#[test]
fn the_deepest_body(rt: HostRuntime) -> Result<(), Fail> {
    assert_eq!(rt; NESTING_LIMIT, 20_000);
    let body = deepest(&rt)?;
    check_copy_of_deepest(&rt, &body)
}
