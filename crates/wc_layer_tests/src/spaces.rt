//! Rows worked out by hand from the standard. Who holds a space hands it on, so that few paths let it go.

ghost use Rattle.std.specs.Prelude.{◌≡◌};
ghost use Rattle.wc_spaces.specs.Kept.Spaces.{size_of};

use std::alloc::{AllocError, Global};
use std::test::Fail;
use wc_spaces::{Noted, Places, Space};

/// A token and its text.
type Named<'a> = (u32, &'a [u8]);

/// Declares a text, one with no name and three texts in an empty space, and tells the token that is noted.
fn declare<'a>(
    space: &mut Space<'a>,
    first: Named<'a>,
    second: Named<'a>,
    third: Named<'a>,
    fourth: Named<'a>,
) -> Result<Option<u32>, AllocError>
    requires { size_of space.old ≡ 0 }
{
    let mut noted = Noted::nothing();
    space.add_named(first.0, first.1, 2u8, &mut noted)?;
    space.add_unnamed();
    space.add_named(second.0, second.1, 2u8, &mut noted)?;
    space.add_named(third.0, third.1, 2u8, &mut noted)?;
    space.add_named(fourth.0, fourth.1, 2u8, &mut noted)?;
    match noted.first {
        Some(fault) => Ok(Some(fault.token)),
        None => Ok(None),
    }
}

/// The place of a name and how many are declared, of `$a`, one with no name, `$b`, `$a` and `$c`, in this order.
fn declared(alloc: Global, name: &[u8]) -> Result<(Option<u32>, u32), AllocError> {
    let mut space = Space::new(alloc);
    let _ = declare(&mut space, (3, b"$a"), (9, b"$b"), (12, b"$a"), (15, b"$c"))?;
    Ok((space.place(name), space.len()))
}

#[test]
fn a_name_has_the_place_of_its_first_declaration(rt: HostRuntime) -> Result<(), Fail> {
    assert!(rt; declared(rt.alloc(), b"$a")? == (Some(0), 5));
    assert!(rt; declared(rt.alloc(), b"$b")? == (Some(2), 5));
    assert!(rt; declared(rt.alloc(), b"$c")? == (Some(4), 5));
    assert!(rt; declared(rt.alloc(), b"$")? == (None, 5));
    Ok(())
}

/// The token that is noted where `$a` stands at the token 3, and then at the others.
fn noted_of(
    alloc: Global,
    second: u32,
    third: u32,
    fourth: u32,
) -> Result<Option<u32>, AllocError> {
    let mut space = Space::new(alloc);
    declare(
        &mut space,
        (3, b"$a"),
        (second, b"$a"),
        (third, b"$a"),
        (fourth, b"$a"),
    )
}

#[test]
fn the_fault_is_that_of_the_least_token(rt: HostRuntime) -> Result<(), Fail> {
    assert!(rt; noted_of(rt.alloc(), 12, 20, 30)? == Some(12));
    assert!(rt; noted_of(rt.alloc(), 20, 12, 30)? == Some(12));
    assert!(rt; noted_of(rt.alloc(), 30, 20, 12)? == Some(12));
    Ok(())
}

/// The places of `$a`, of two texts of one number, and of `$b`, which isn't declared, in a space of the first three, of
/// which the third stands there twice; and the token that is noted.
fn places_in<'a>(
    space: &mut Space<'a>,
    one: &'a [u8],
    other: &'a [u8],
) -> Result<([Option<u32>; 4], Option<u32>), AllocError>
    requires { size_of space.old ≡ 0 }
{
    let noted = declare(space, (3, b"$a"), (5, one), (7, other), (9, other))?;
    let places = [
        space.place(b"$a"),
        space.place(one),
        space.place(other),
        space.place(b"$b"),
    ];
    Ok((places, noted))
}

/// The same where the space has room for so many.
fn places_with_room(
    alloc: Global,
    room: usize,
    one: &[u8],
    other: &[u8],
) -> Result<([Option<u32>; 4], Option<u32>), AllocError> {
    let mut space = Space::with_room(alloc, room)?;
    places_in(&mut space, one, other)
}

/// How much room is asked for: none, too little and more than enough.
const ROOMS: [usize; 3] = [0, 1, 1000];

/// Whether two texts of one number are told apart, whatever the room.
fn are_found(alloc: Global, one: &[u8], other: &[u8]) -> Result<bool, AllocError> {
    for room in ROOMS {
        let found = places_with_room(alloc, room, one, other)?;
        if found != ([Some(0), Some(2), Some(3), None], Some(9)) {
            return Ok(false);
        }
    }
    Ok(true)
}

/// Whether the place of a text that was put, put again and added is the one that was put last.
fn put_twice(places: &mut Places<'static>) -> Result<bool, AllocError> {
    places.put(b"x", 4)?;
    places.put(b"x", 5)?;
    let is_new = places.add(b"x", 6)?;
    let place = places.place(b"x");
    places.remove(b"x");
    Ok(!is_new && place == Some(5) && places.place(b"x").is_none())
}

#[test]
fn a_text_has_the_place_that_was_put(rt: HostRuntime) -> Result<(), Fail> {
    let mut places = Places::new(rt.alloc());
    let is_put = put_twice(&mut places)?;
    assert!(rt; is_put);
    Ok(())
}

/// A text of `a` and `b` in the order of Thue and Morse, or the one with the letters exchanged. The two are told apart
/// by one number, so that only the texts themselves tell which is which.
fn alike(alloc: Global, exchanged: bool) -> Result<Vec<u8>, AllocError> {
    let mut text = Vec::new(alloc);
    for place in 0..1024u32 {
        let is_odd = place.count_ones() % 2 == 1;
        text.push(if is_odd == exchanged { b'a' } else { b'b' })?;
    }
    Ok(text)
}

/// The places of two texts, and those that are left once the first is removed.
fn places_of_both<'a>(
    places: &mut Places<'a>,
    one: &'a [u8],
    other: &'a [u8],
) -> Result<[(Option<u32>, Option<u32>); 2], AllocError> {
    places.put(one, 1)?;
    let _ = places.add(other, 2)?;
    let both = (places.place(one), places.place(other));
    places.remove(one);
    Ok([both, (places.place(one), places.place(other))])
}

/// Whether two texts of one number are told apart, before one is removed and after.
fn are_apart(alloc: Global, one: &[u8], other: &[u8]) -> Result<bool, AllocError> {
    let mut places = Places::new(alloc);
    let told = places_of_both(&mut places, one, other)?;
    Ok(told == [(Some(1), Some(2)), (None, Some(2))])
}

#[test]
fn texts_of_one_number_are_told_apart(rt: HostRuntime) -> Result<(), Fail> {
    let one = alike(rt.alloc(), false)?;
    let other = alike(rt.alloc(), true)?;
    assert!(rt; are_found(rt.alloc(), &one, &other)?);
    assert!(rt; are_apart(rt.alloc(), &one, &other)?);
    Ok(())
}
