//! Locals, lists and names.

use std::alloc::{AllocError, Global};
use std::test::Fail;
use wc_ast::{LOCALS_LIMIT, List, Locals, LocalsFault, Name, TryClone, ValType};

/// Groups that are pushed in turn, two of which have one type, and one no local.
static GROUPS: [(u32, ValType); 4] = [
    (2, ValType::I32),
    (1, ValType::I32),
    (0, ValType::I64),
    (5, ValType::I64),
];

fn push_groups(locals: &mut Locals) -> Result<(), LocalsFault> {
    for &(count, value_type) in &GROUPS {
        locals.push_group(count, value_type)?;
    }
    Ok(())
}

/// How many locals and groups a copy has.
fn copied_counts(locals: &Locals) -> Result<(u32, usize), AllocError> {
    let copy = locals.try_clone()?;
    Ok((copy.len(), copy.groups().len()))
}

#[test]
fn locals_in_groups(rt: HostRuntime) -> Result<(), Fail> {
    let mut locals = Locals::new(rt.alloc());
    push_groups(&mut locals)?;
    let counts = copied_counts(&locals)?;
    assert_eq!(rt; counts, (8, 2));
    Ok(())
}

/// Groups that are pushed in turn, and why one is refused.
static PUSHED: [(u32, ValType, Option<LocalsFault>); 4] = [
    (49_999, ValType::I32, None),
    (2, ValType::I32, Some(LocalsFault::TooMany)), // one more than the most
    (u32::MAX, ValType::I64, Some(LocalsFault::TooMany)),
    (1, ValType::I64, None), // the most
];

/// How many of them are pushed or refused as told, and then how many locals and groups there are.
fn pushed(alloc: Global) -> (usize, u32, usize) {
    let mut locals = Locals::new(alloc);
    let mut done = 0usize;
    for &(count, value_type, refused) in &PUSHED {
        if locals.push_group(count, value_type).err() != refused {
            break;
        }
        done = done.saturating_add(1);
    }
    (done, locals.len(), locals.groups().len())
}

#[test]
fn too_many_locals(rt: HostRuntime) {
    assert_eq!(rt; LOCALS_LIMIT, 50_000);
    assert_eq!(rt; pushed(rt.alloc()), (PUSHED.len(), 50_000, 2));
}

/// The memory of the copy of a list.
fn copied_list(alloc: Global) -> Result<Vec<u32>, AllocError> {
    let mut list = List::new(alloc);
    list.push(3)?;
    Ok(list.try_copy()?.into_vec())
}

#[test]
fn lists_give_back_their_memory(rt: HostRuntime) -> Result<(), Fail> {
    assert!(rt; List::<u32>::new(rt.alloc()).is_empty());
    let memory = copied_list(rt.alloc())?;
    assert_eq!(rt; memory.as_slice(), [3].as_slice());
    Ok(())
}

/// A copy of a name of this text.
fn copied_name(alloc: Global, text: &str) -> Result<Name, AllocError> {
    Name::from_string(String::from_str(alloc, text)?).try_clone()
}

#[test]
fn names_give_back_their_text(rt: HostRuntime) -> Result<(), Fail> {
    let copy = copied_name(rt.alloc(), "größe")?;
    assert_eq!(rt; (copy.as_str(), copy.as_str().len()), ("größe", 7));
    Ok(())
}
