//! Whole bodies by the bytes that they are kept by.

ghost use Rattle.std.specs.Prelude.{◌≡◌, ◌++◌, ◌∷◌, ℕ, [], true, IfSome, IsNone};
ghost use Rattle.wc_body.specs.Standard.Needed.{nothing};
ghost use Rattle.wc_body.specs.Drafting.AtFront.{Notes, NotesInstr};
ghost use Rattle.wc_body.specs.Drafting.PackedBody.{IsBody};

use crate::builder::Part;
use crate::needs::Needs;
use crate::runs::front::instr_front;
use std::alloc::Global;

/// The bytes that a body is kept by, and what it needs, where these are its canonical bytes with the byte that ends it,
/// and it has usual instructions alone and no block.
#[inline(always)]
pub(crate) fn body_spelled(alloc: Global, bytes: &[u8]) -> Option<(&[u8], Needs)>
    ensures { IfSome result (λ f. (bytes.now ≡ f.0.now ++ 0x0B ∷ []) × IsBody f.0.now f.1) }
{
    let (last, row) = bytes.split_last()?;
    if *last != 0x0b {
        return None;
    }
    let mut needs = Needs::nothing();
    if !instructions_spelled(alloc, row, &mut needs) {
        return None;
    }
    Some((row, needs))
}

/// Notes the call or the instruction of a local that these bytes begin with, where its index has one byte. What follows
/// it is answered.
// No table of jumps: small bodies mostly hand their parameters on to another function.
#[inline(always)]
fn handed_front<'a>(bytes: &'a [u8], needs: &mut Needs) -> Option<&'a [u8]>
    ensures some { IfSome result (λ rest. (k : ℕ) → NotesInstr k bytes.now rest.now needs.old needs.new) }
    ensures none { IsNone result → needs.new ≡ needs.old }
{
    if bytes.len() < 2 {
        return None;
    }
    let opcode = bytes[0];
    if opcode > 0x22 {
        return None;
    }
    let index = bytes[1];
    if index >= 128 {
        return None;
    }
    if opcode == 0x10 {
        needs.funcs = needs.funcs.max(u32::from(index) + 1);
        return Some(&bytes[2..]);
    }
    if opcode < 0x20 {
        return None;
    }
    needs.locals = needs.locals.max(u32::from(index) + 1);
    Some(&bytes[2..])
}

/// Notes the instruction that these bytes begin with, where it is a usual one and these blocks enclose it. What follows
/// it is answered.
#[inline(always)]
fn spelled_front<'a>(bytes: &'a [u8], needs: &mut Needs, parts: &Vec<Part>) -> Option<&'a [u8]>
    ensures { IfSome result (λ rest.
        Notes bytes.now rest.now needs.old needs.new parts.now.items parts.now.items) }
{
    match handed_front(bytes, needs) {
        Some(rest) => Some(rest),
        None => instr_front(bytes, needs, parts),
    }
}

/// Notes what the instructions need that these are the canonical bytes of, and answers whether these are usual ones and
/// none is a block.
// A call, so that its loop has registers of its own.
#[inline(never)]
fn instructions_spelled(alloc: Global, bytes: &[u8], needs: &mut Needs) -> bool
    requires { needs.old ≡ nothing }
    ensures { result ≡ true → IsBody bytes.now needs.new }
{
    // None is open.
    let parts = Vec::new(alloc);
    let mut rest = bytes;
    while !rest.is_empty() {
        let Some(behind) = spelled_front(rest, needs, &parts) else {
            return false;
        };
        rest = behind;
    }
    true
}
