//! Imports and exports of functions whose names are short and stand for themselves. Most are such, so they are put
//! together in a small room before they are put behind the others.

ghost use Rattle.std.specs.Prelude.{◌≡◌, ◌≤◌, ◌<◌, ◌+◌, ◌∷◌, [], ◌++◌, IsTrue, length, take};
ghost use Rattle.wc_print.specs.Standard.Printed.{quoted, after};
ghost use Rattle.wc_print.specs.Standard.Printable.{Put};
ghost use Rattle.wc_print.specs.Standard.Going.{Puts};
ghost use Rattle.wc_print.specs.Writing.Short.{IsShort, function_import, function_export};

use crate::digits::{LIMIT, write_index};
use crate::sink::Sink;
use crate::strings::is_plain;

/// How many bytes have room.
const ROOM: usize = 128;

/// The most bytes of a short name, of a module or in it.
const NAME: usize = 40;

/// Whether a name is short, and stands for itself.
#[inline(always)]
fn is_short(name: &[u8]) -> bool
    ensures { IsTrue result → IsShort name.now }
{
    name.len() <= NAME && is_plain(name)
}

/// Whether an import of a function is short.
#[inline(always)]
pub fn is_short_import(module_name: &[u8], name: &[u8], index: u32) -> bool
    ensures names { IsTrue result → IsShort module_name.now × IsShort name.now }
    ensures index { IsTrue result → index < 1000000 }
{
    index < LIMIT && is_short(module_name) && is_short(name)
}

/// Whether an export of a function is short.
#[inline(always)]
pub fn is_short_export(name: &[u8], index: u32) -> bool
    ensures name { IsTrue result → IsShort name.now }
    ensures index { IsTrue result → index < 1000000 }
{
    index < LIMIT && is_short(name)
}

/// Writes bytes from a place on, and says where they end.
#[inline(always)]
fn write(room: &mut [u8; ROOM], at: usize, bytes: &[u8]) -> usize
    requires { at + length bytes.now ≤ 128 }
    ensures end { result ≡ at + length bytes.now }
    ensures bytes { take result room.new ≡ take at room.old ++ bytes.now }
{
    let end = at + bytes.len();
    room[at..end].copy_from_slice(bytes);
    end
}

/// Writes a string that stands for a short name, behind a space.
#[inline(always)]
fn write_name(room: &mut [u8; ROOM], at: usize, name: &[u8]) -> usize
    requires room { at + 43 ≤ 128 }
    requires short { IsShort name.now }
    ensures end { result ≤ at + 43 }
    ensures put { Put (after (quoted name.now) ∷ []) (take at room.old) (take result room.new) }
{
    let begin = write(room, at, b" \"");
    let end = write(room, begin, name);
    write(room, end, b"\"")
}

/// Writes an import of a function, and says where it ends.
#[inline(always)]
fn write_import(room: &mut [u8; ROOM], module_name: &[u8], name: &[u8], index: u32) -> usize
    requires names { IsShort module_name.now × IsShort name.now }
    requires index { index < 1000000 }
    ensures end { result ≤ 128 }
    ensures put { Put (function_import module_name.now name.now index) [] (take result room.new) }
{
    let head = write(room, 0, b"\n  (import");
    let first = write_name(room, head, module_name);
    let second = write_name(room, first, name);
    let desc = write(room, second, b" (func (type");
    let number = write_index(room, desc, index);
    write(room, number, b")))")
}

/// Writes an export of a function, and says where it ends.
#[inline(always)]
fn write_export(room: &mut [u8; ROOM], name: &[u8], index: u32) -> usize
    requires name { IsShort name.now }
    requires index { index < 1000000 }
    ensures end { result ≤ 128 }
    ensures put { Put (function_export name.now index) [] (take result room.new) }
{
    let head = write(room, 0, b"\n  (export");
    let first = write_name(room, head, name);
    let desc = write(room, first, b" (func");
    let number = write_index(room, desc, index);
    write(room, number, b"))")
}

/// A short import of a function.
#[inline(always)]
pub fn put_short_import<S: Sink>(out: &mut S, module_name: &[u8], name: &[u8], index: u32)
    requires names { IsShort module_name.now × IsShort name.now }
    requires index { index < 1000000 }
    ensures { Puts S.Has (function_import module_name.now name.now index) out.old out.new }
{
    let mut room = [0; ROOM];
    let end = write_import(&mut room, module_name, name, index);
    out.put(&room[..end]);
}

/// A short export of a function.
#[inline(always)]
pub fn put_short_export<S: Sink>(out: &mut S, name: &[u8], index: u32)
    requires name { IsShort name.now }
    requires index { index < 1000000 }
    ensures { Puts S.Has (function_export name.now index) out.old out.new }
{
    let mut room = [0; ROOM];
    let end = write_export(&mut room, name, index);
    out.put(&room[..end]);
}
