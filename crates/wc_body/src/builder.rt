//! Bodies, entry by entry, and many entries at once, as `runs` tells them.

mod fitting;

ghost use Rattle.std.specs.Prelude.{◌≡◌, ◌+◌, ◌<◌, ◌≤◌, ◌++◌, true, length, OnOk, OnErr, IfErr, vec_len, vec_capacity};
ghost use Rattle.wc_body.specs.Drafting.OpenParts.{part_of};
ghost use Rattle.wc_body.specs.Drafting.PackedBody.{with_end};
ghost use Rattle.wc_body.specs.declared.builder.BuildFault.TheVariants.{Memory};

use crate::bytes::put::{put_begin, put_instr};
use crate::entry::{Entry, Kind};
use crate::instr::{BlockType, Instr};
use crate::kept::body::{Body, NESTING_LIMIT};
use crate::needs::Needs;
use crate::runs::front::usual_front;
use crate::runs::light::after_light;
use std::alloc::{AllocError, AllocFailed, Global};
use std::marker::Model;

/// Why an entry was not added, or a body not finished.
#[derive(Clone, Copy, Debug, PartialEq, Eq)]
pub enum BuildFault {
    /// Want of memory.
    Memory,
    /// More than `NESTING_LIMIT` blocks, loops and ifs would be open at once.
    Depth,
    /// An `Else` not directly in an `if` that has none yet, an `End` with nothing open, or a body with something open.
    Mark,
}

impl From<AllocError> for BuildFault {
    ghost use Rattle.std.specs.Prelude.{◌≡◌};
    ghost use Rattle.wc_body.specs.declared.builder.BuildFault.TheVariants.{Memory};

    ghost from_gives = { λ _ e. e ≡ Memory };

    fn from(_e: AllocError) -> BuildFault {
        BuildFault::Memory
    }
}

impl<T: Drop> From<AllocFailed<T>> for BuildFault {
    ghost use Rattle.std.specs.Prelude.{◌≡◌};
    ghost use Rattle.wc_body.specs.declared.builder.BuildFault.TheVariants.{Memory};

    ghost from_gives = { λ _ e. e ≡ Memory };

    fn from(_e: AllocFailed<T>) -> BuildFault {
        BuildFault::Memory
    }
}

/// Which part an open block, loop or if is in: the first part of an if, or any other.
#[derive(Clone, Copy, Debug, PartialEq, Eq)]
pub(crate) enum Part {
    Other,
    Then,
}

/// A body that is being built. A contract sees what is open, and what each open one has so far.
#[derive(Drop)]
pub struct BodyBuilder {
    // Of each entry so far, its canonical bytes.
    bytes: Vec<u8>,
    // Of each that is open, outermost first.
    parts: Vec<Part>,
    // Whether the last entry is an `Else`.
    after_else: bool,
    // What the entries so far need.
    needs: Needs,
}

impl Model for BodyBuilder {
    ghost use Rattle.wc_body.specs.Standard.Draft.{Draft};
    ghost use Rattle.wc_body.specs.Stored.Codes.{draft_code};
    ghost use Rattle.wc_body.specs.declared.instr.BlockType.{BlockType};
    ghost use Rattle.wc_body.specs.declared.instr.Instr.{Instr};
    ghost use Rattle.wc_body.specs.contracts.instr.BlockType as block_type;
    ghost use Rattle.wc_body.specs.Stored.Instructions.{instr_code};

    ghost Value = { Draft Instr BlockType };

    ghost coded = { draft_code instr_code block_type.the_row.coded };

    ghost use Rattle.wc_body.specs.Standard.Entries.{drafted};
    ghost use Rattle.wc_body.specs.Reading.Unpacked.{unpacked};
    ghost use Rattle.wc_body.specs.Drafting.PackedBody.{IsStarted};

    ghost view = { λ builder. drafted (unpacked builder.bytes.items) };

    ghost invariant = { λ kept. IsStarted kept.bytes.items kept.parts.items kept.after_else kept.needs };
}

impl BodyBuilder {
    ghost use Rattle.std.specs.Prelude.{[], ◌≡◌, ◌≤◌, ◌↔◌, false, true, length};
    ghost use Rattle.std.specs.Prelude.{IfOk, OnOk, OnErr, IfErr, IsErrOf};
    ghost use Rattle.wc_body.specs.Standard.Nested.{empty, plain, otherwise, close, nesting, nesting_limit};
    ghost use Rattle.wc_body.specs.Standard.Draft.{so_far, kept_with, whole, step, may_come, in_first_part};
    ghost use Rattle.wc_body.specs.Standard.Draft.{is_open, reach, IsTooDeep};
    ghost use Rattle.wc_body.specs.Standard.Entries.{mark, begin_of};
    ghost use Rattle.wc_body.specs.Drafting.FrontEntries.{AddsFront};
    ghost use Rattle.wc_body.specs.declared.builder.BuildFault.TheVariants as faults;

    /// Nothing so far, in this memory.
    fn in_memory(bytes: Vec<u8>) -> BodyBuilder
        requires { bytes.items ≡ [] }
        ensures { result ≡ whole empty }
    {
        let alloc = *bytes.allocator();
        BodyBuilder {
            bytes,
            parts: Vec::new(alloc),
            after_else: false,
            needs: Needs::nothing(),
        }
    }

    /// Nothing so far. It takes no memory.
    pub fn new(alloc: Global) -> BodyBuilder
        ensures { result ≡ whole empty }
    {
        BodyBuilder::in_memory(Vec::new(alloc))
    }

    /// Nothing so far, and room for so many bytes of entries. The error is want of memory.
    pub fn with_room(alloc: Global, bytes: usize) -> Result<BodyBuilder, AllocError>
        ensures { IfOk result (λ builder. builder ≡ whole empty) }
    {
        let mut builder = BodyBuilder::new(alloc);
        builder.bytes.reserve(bytes)?;
        Ok(builder)
    }

    /// Nothing so far, in the memory of a body that is wanted no longer.
    pub fn reusing(body: Body) -> BodyBuilder
        ensures { result ≡ whole empty }
    {
        let mut bytes = body.into_bytes();
        bytes.clear();
        BodyBuilder::in_memory(bytes)
    }

    /// How many blocks, loops and ifs are open.
    pub fn depth(&self) -> usize
        ensures count { result ≡ length self.now.around }
        ensures within { result ≤ nesting_limit }
        ensures reach { reach self.now.around (nesting self.now.last) ≤ nesting_limit }
    {
        self.parts.len()
    }

    /// Whether the innermost open one is an if in its first part.
    pub fn in_first_part(&self) -> bool
        ensures { result ≡ in_first_part self.now.around }
    {
        let count = self.parts.len();
        count > 0 && self.parts[count - 1] == Part::Then
    }

    #[inline(always)]
    fn push_plain(&mut self, instr: Instr<'_>) -> Result<(), BuildFault>
        ensures ok { OnOk result (self.new ≡ step self.old (plain instr.entry)) }
        ensures err { OnErr result (self.new ≡ self.old) }
        ensures memory { IfErr result (λ fault. fault ≡ faults.Memory) }
    {
        put_instr(&mut self.bytes, &instr)?;
        self.needs.note_instr(self.parts.len(), &instr);
        self.after_else = false;
        Ok(())
    }

    #[inline(never)]
    fn push_begin(&mut self, kind: Kind, block_type: BlockType) -> Result<(), BuildFault>
        ensures ok { OnOk result (self.new ≡ step self.old (begin_of kind block_type)) }
        ensures err { OnErr result (self.new ≡ self.old) }
        ensures depth { IsErrOf result faults.Depth ↔ (nesting_limit ≤ length self.old.around) }
        ensures mark { ¬ IsErrOf result faults.Mark }
    {
        if self.depth() >= NESTING_LIMIT {
            return Err(BuildFault::Depth);
        }
        self.parts.reserve(1)?;
        put_begin(&mut self.bytes, kind, block_type)?;
        self.parts.push_reserved(first_part_of(kind));
        self.needs.note_block(block_type);
        self.after_else = false;
        Ok(())
    }

    fn push_else(&mut self) -> Result<(), BuildFault>
        ensures ok { OnOk result (self.new ≡ step self.old otherwise) }
        ensures err { OnErr result (self.new ≡ self.old) }
        ensures depth { ¬ IsErrOf result faults.Depth }
        ensures mark { IsErrOf result faults.Mark ↔ (in_first_part self.old.around ≡ false) }
    {
        if !self.in_first_part() {
            return Err(BuildFault::Mark);
        }
        self.bytes.push(0x05)?;
        let at = self.parts.len() - 1;
        self.parts[at] = Part::Other;
        self.after_else = true;
        Ok(())
    }

    fn push_end(&mut self) -> Result<(), BuildFault>
        ensures ok { OnOk result (self.new ≡ step self.old close) }
        ensures err { OnErr result (self.new ≡ self.old) }
        ensures depth { ¬ IsErrOf result faults.Depth }
        ensures mark { IsErrOf result faults.Mark ↔ (is_open self.old.around ≡ false) }
    {
        if self.depth() == 0 {
            return Err(BuildFault::Mark);
        }
        put_end(&mut self.bytes, self.after_else)?;
        let _ = self.parts.pop();
        self.after_else = false;
        Ok(())
    }

    #[inline(always)]
    fn put(&mut self, entry: Entry<'_>) -> Result<(), BuildFault>
        ensures ok { OnOk result (self.new ≡ step self.old (mark entry.entry)) }
        ensures err { OnErr result (self.new ≡ self.old) }
        ensures depth { IsErrOf result faults.Depth ↔ IsTooDeep self.old (mark entry.entry) }
        ensures mark { IsErrOf result faults.Mark ↔ (may_come self.old (mark entry.entry) ≡ false) }
    {
        match entry {
            Entry::Plain(instr) => self.push_plain(instr),
            Entry::Begin(kind, block_type) => self.push_begin(kind, block_type),
            Entry::Else => self.push_else(),
            Entry::End => self.push_end(),
        }
    }

    /// Adds an entry. An `Else` that an `End` follows directly isn't kept. After an error the builder is as it was:
    /// `Depth` at a `Begin` where `NESTING_LIMIT` are open, `Mark` at an `Else` or `End` that may not come, and
    /// `Memory` only where a growth was refused.
    // Inlined where an entry is made, which then needn't be written to memory twice.
    #[inline(always)]
    pub fn push(&mut self, entry: Entry<'_>) -> Result<(), BuildFault>
        ensures ok { OnOk result (self.new ≡ step self.old (mark entry.entry)) }
        ensures kept { OnOk result (so_far self.new ≡ kept_with (so_far self.old) (mark entry.entry)) }
        ensures err { OnErr result (self.new ≡ self.old) }
        ensures depth { IsErrOf result faults.Depth ↔ IsTooDeep self.old (mark entry.entry) }
        ensures mark { IsErrOf result faults.Mark ↔ (may_come self.old (mark entry.entry) ≡ false) }
    {
        self.put(entry)
    }

    /// Adds the entries that these bytes begin with, as many as are usual, spelled as they are kept, and fit the memory
    /// at hand; answers how many bytes these have. No end is added at which none is open.
    pub fn push_front(&mut self, bytes: &[u8]) -> usize
        ensures { AddsFront self.old self.new bytes.now result }
    {
        if self.after_else {
            return 0;
        }
        let room = self.bytes.capacity() - self.bytes.len();
        let fitting = &bytes[..room.min(bytes.len())];
        let mut rest = fitting;
        'entries: loop {
            rest = after_light(rest, self.parts.len(), &mut self.needs);
            let Some(behind) = usual_front(rest, &mut self.needs, &mut self.parts) else {
                break;
            };
            rest = behind;
        }
        let count = fitting.len() - rest.len();
        append(&mut self.bytes, &fitting[..count]);
        count
    }

    /// The body of the entries that were kept, in order. It takes no memory, and gives back what was held for more
    /// entries, but for a few bytes. The error is `Mark`, where something is open.
    pub fn finish(self) -> Result<Body, BuildFault>
        ensures ok { IfOk result (λ body. self ≡ whole body) }
        ensures err { IfErr result (λ fault. (fault ≡ faults.Mark) × (is_open self.around ≡ true)) }
    {
        match self.finish_with_room() {
            Ok(body) => Ok(body.without_room()),
            Err(fault) => Err(fault),
        }
    }

    /// The same, but nothing that was held is given back, so that the next body can be built in it.
    pub fn finish_with_room(self) -> Result<Body, BuildFault>
        ensures ok { IfOk result (λ body. self ≡ whole body) }
        ensures err { IfErr result (λ fault. (fault ≡ faults.Mark) × (is_open self.around ≡ true)) }
    {
        if self.depth() > 0 {
            return Err(BuildFault::Mark);
        }
        Ok(Body::from_bytes(self.bytes, self.needs))
    }
}

pub(crate) fn first_part_of(kind: Kind) -> Part
    ensures { result ≡ part_of kind }
{
    match kind {
        Kind::If => Part::Then,
        Kind::Block | Kind::Loop => Part::Other,
    }
}

/// Puts these bytes behind others, for which there is room.
fn append(bytes: &mut Vec<u8>, more: &[u8])
    requires { vec_len bytes.old + length more.now ≤ vec_capacity bytes.old }
    ensures { bytes.new.items ≡ bytes.old.items ++ more.now }
{
    let _ = bytes.extend_from_slice(more);
}

/// Puts an end mark last; an else mark that stands last gives way to it.
fn put_end(bytes: &mut Vec<u8>, after_else: bool) -> Result<(), BuildFault>
    requires { after_else ≡ true → 0 < length bytes.old.items }
    ensures ok { OnOk result (bytes.new.items ≡ with_end after_else bytes.old.items) }
    ensures err { OnErr result (bytes.new.items ≡ bytes.old.items) }
    ensures memory { IfErr result (λ fault. fault ≡ Memory) }
{
    if after_else {
        let last = bytes.len() - 1;
        bytes[last] = 0x0b;
        return Ok(());
    }
    bytes.push(0x0b)?;
    Ok(())
}
