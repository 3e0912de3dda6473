//! What is told of one input, in one line.

ghost use Rattle.std.specs.Prelude.{◌≡◌, ◌++◌, Bool, IfOk, IfErr, OnOk, OnErr, Some, false};
ghost use Rattle.wc_device.specs.Standard.Device.{device_inner, has_failed, has_ended, was_asked_again, read_count};
ghost use Rattle.sha2.specs.Sha256.{sha256};
ghost use Rattle.hex.specs.Hex.{encode_lower};
ghost use Rattle.wc_cli.specs.declared.failure.Failure.{Failure};
ghost use Rattle.wc_cli.specs.Standard.Inputs.{input_bytes, is_unread, IsNewInput, StaysThere};
ghost use Rattle.wc_cli.specs.Standard.Looking.{ReadsOne, ReadsWhole, ReadsAsk};
ghost use Rattle.wc_cli.specs.Standard.Telling.{told_line, escaped, escaped_byte, hash_line};
ghost use Rattle.wc_cli.specs.Answering.Reading.{AnswersBytes, Finds};

use crate::command_line::Ask;
use crate::failure::{DONE, Failure, REFUSED, ended, refused};
use crate::reading::read_all;
use sha2::{Digest, Sha256};
use std::alloc::{AllocError, Global};
use std::io::Read;
use wc_canon::{accept_from, is_canonical, normalise_from};
use wc_device::Device;

/// A line and the status that goes with it.
#[derive(Drop)]
pub(crate) struct Answer {
    pub(crate) text: Vec<u8>,
    pub(crate) status: u8,
}

/// The line of a word, with the path in front where it is wanted.
fn told_line(alloc: Global, path: &str, named: bool, word: &str) -> Result<Vec<u8>, AllocError>
    ensures { IfOk result (λ v. v.items ≡ told_line path.now named word.now) }
{
    let mut line = Vec::new(alloc);
    if named {
        line.extend_from_slice(path.as_bytes())?;
        line.extend_from_slice(b": ")?;
    }
    line.extend_from_slice(word.as_bytes())?;
    line.push(b'\n')?;
    Ok(line)
}

/// A word with its status.
fn worded<'a>(
    alloc: Global,
    path: &str,
    named: bool,
    word: &str,
    status: u8,
) -> Result<Answer, Failure<'a>>
    ensures ok { IfOk result (λ t. (t.text.items ≡ told_line path.now named word.now) × (t.status ≡ status)) }
    ensures err { IfErr result (λ f. f ≡ Failure.OutOfMemory) }
{
    match told_line(alloc, path, named, word) {
        Ok(text) => Ok(Answer { text, status }),
        Err(_) => Err(Failure::OutOfMemory),
    }
}

/// That a reader's bytes are accepted.
fn check<'a, R: Read>(
    alloc: Global,
    path: &'a str,
    named: bool,
    r: &mut Device<R>,
) -> Result<Answer, Failure<'a>>
    requires well { has_failed r.old ≡ false }
    requires more { has_ended r.old ≡ false }
    requires unread { read_count r.old ≡ 0 }
    ensures finds { Finds Ask.Check path.now named (R.remaining (device_inner r.old)) (has_failed r.new) result }
    ensures looks { ReadsOne R.remaining (Some r.old) (Some r.new) result }
    ensures again { was_asked_again r.new ≡ was_asked_again r.old }
{
    match accept_from(alloc, r) {
        Ok(()) => worded(alloc, path, named, "ok", DONE),
        Err(fault) => Err(ended(path, None, fault)),
    }
}

/// Whether bytes are their own canonical bytes.
fn canonical_bytes<'a>(
    alloc: Global,
    path: &'a str,
    named: bool,
    bytes: &[u8],
) -> Result<Answer, Failure<'a>>
    ensures { AnswersBytes Ask.Canonical path.now named bytes.now result }
{
    match is_canonical(alloc, bytes) {
        Ok(true) => worded(alloc, path, named, "canonical", DONE),
        Ok(false) => worded(alloc, path, named, "not canonical", REFUSED),
        Err(refusal) => Err(refused(path, refusal)),
    }
}

/// Whether a reader's bytes are their own canonical bytes.
fn canonical<'a, R: Read>(
    alloc: Global,
    path: &'a str,
    named: bool,
    r: &mut Device<R>,
) -> Result<Answer, Failure<'a>>
    requires well { has_failed r.old ≡ false }
    requires more { has_ended r.old ≡ false }
    requires unread { read_count r.old ≡ 0 }
    ensures finds { Finds Ask.Canonical path.now named (R.remaining (device_inner r.old)) (has_failed r.new) result }
    ensures looks { ReadsWhole R.remaining (Some r.old) (Some r.new) result }
    ensures again { was_asked_again r.new ≡ was_asked_again r.old }
{
    let mut bytes = Vec::new(alloc);
    read_all(path, r, &mut bytes)?;
    canonical_bytes(alloc, path, named, bytes.as_slice())
}

/// A byte of a path in a line of hashes.
fn put_escaped(out: &mut Vec<u8>, byte: u8) -> Result<(), AllocError>
    ensures { OnOk result (out.new.items ≡ out.old.items ++ escaped_byte byte) }
{
    match byte {
        b'\n' => out.extend_from_slice(b"\\n"),
        b'\r' => out.extend_from_slice(b"\\r"),
        b'\\' => out.extend_from_slice(b"\\\\"),
        other => {
            out.push(other)?;
            Ok(())
        }
    }
}

/// A path in a line of hashes.
fn escaped(alloc: Global, path: &[u8]) -> Result<Vec<u8>, AllocError>
    ensures { IfOk result (λ v. v.items ≡ escaped path.now) }
{
    let mut out = Vec::new(alloc);
    for byte in path {
        put_escaped(&mut out, *byte)?;
    }
    Ok(out)
}

/// The line of the hash of some bytes.
fn hash_line(alloc: Global, bytes: &[u8], path: &str) -> Result<Vec<u8>, AllocError>
    ensures { IfOk result (λ v. v.items ≡ hash_line bytes.now path.now) }
{
    let digits = hex::encode(alloc, Sha256::digest(bytes))?;
    let shown = escaped(alloc, path.as_bytes())?;
    let mut line = Vec::new(alloc);
    if shown.len() != path.len() {
        line.push(b'\\')?;
    }
    line.extend_from_slice(digits.as_bytes())?;
    line.extend_from_slice(b"  ")?;
    line.extend_from_slice(shown.as_slice())?;
    line.push(b'\n')?;
    Ok(line)
}

/// The hash of the canonical bytes of a reader's bytes.
fn hash<'a, R: Read>(alloc: Global, path: &'a str, r: &mut Device<R>) -> Result<Answer, Failure<'a>>
    requires well { has_failed r.old ≡ false }
    requires more { has_ended r.old ≡ false }
    requires unread { read_count r.old ≡ 0 }
    ensures finds { (named : Bool) → Finds Ask.Hash path.now named (R.remaining (device_inner r.old))
        (has_failed r.new) result }
    ensures looks { ReadsOne R.remaining (Some r.old) (Some r.new) result }
    ensures again { was_asked_again r.new ≡ was_asked_again r.old }
{
    let answer = match normalise_from(alloc, r) {
        Ok(answer) => answer,
        Err(fault) => return Err(ended(path, None, fault)),
    };
    match hash_line(alloc, answer.as_slice(), path) {
        Ok(text) => Ok(Answer { text, status: DONE }),
        Err(_) => Err(Failure::OutOfMemory),
    }
}

/// What is told of an input.
pub(crate) fn find<'a, R: Read>(
    alloc: Global,
    ask: Ask,
    path: &'a str,
    named: bool,
    input: &mut Option<Device<R>>,
) -> Result<Answer, Failure<'a>>
    requires { IsNewInput input.old }
    ensures finds { Finds ask path.now named (input_bytes R.remaining input.old) (is_unread input.new) result }
    ensures looks { ReadsAsk ask R.remaining input.old input.new result }
    ensures stays { StaysThere input.old input.new }
{
    let Some(r) = input else {
        return Err(Failure::CannotRead { path });
    };
    match ask {
        Ask::Check => check(alloc, path, named, r),
        Ask::Canonical => canonical(alloc, path, named, r),
        Ask::Hash => hash(alloc, path, r),
    }
}
