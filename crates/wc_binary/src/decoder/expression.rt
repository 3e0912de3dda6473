//! Expressions (Core 1.0, 5.4.6). What makes an entry is inlined into the loop over them, so that it stays in registers
//! until it is kept.

ghost use Rattle.std.specs.Prelude.{◌≡◌, ◌+◌, ◌<◌, true, false, IfOk, IfErr, length};
ghost use Rattle.wc_body.specs.Standard.Nested.{empty, nesting_limit};
ghost use Rattle.wc_body.specs.Standard.Draft.{whole, step, may_come, begins};
ghost use Rattle.wc_body.specs.Standard.Entries.{mark};
ghost use Rattle.wc_ops.specs.declared.op.Op.TheVariants as ops;
ghost use Rattle.wc_ops.specs.declared.op.OpByte.TheVariants as bytes;
ghost use Rattle.wc_binary.specs.Standard.Instructions.{opcode, begun_of, expr};
ghost use Rattle.wc_binary.specs.Reading.NextMark.{begun_by, GivesEntry, MayStand, AddsNext, AddsAhead};
ghost use Rattle.wc_binary.specs.Reading.Source.{Gives};
ghost use Rattle.wc_binary.specs.declared.fault.BinFault.TheVariants as faults;

use crate::decoder::byte::any_byte;
use crate::decoder::from_source::FromSource;
use crate::decoder::immediates::{
    block_type, br_table, call_indirect, i32_const, i64_const, index, memory, simple,
};
use crate::decoder::pace::Pace;
use crate::fault::{BinFault, BinWhy, bad};
use crate::source::Source;
use std::alloc::Global;
use wc_ast::{
    Body, BodyBuilder, BuildFault, Constant, Entry, IndexOp, Kind, List, NESTING_LIMIT, Op, OpByte,
};
use wc_device::BUFFER_SIZE;

/// What begins a block, a loop or an if, whose opcode stands at this place and was read.
#[inline(always)]
fn begin<S: Source>(
    kind: Kind,
    at: u64,
    builder: &BodyBuilder,
    source: &mut S,
) -> Result<Entry<'static>, BinFault>
    requires { (S.input source.old).place ≡ at + 1 }
    ensures gives { GivesEntry builder.now (Ok (begun_by kind)) at (S.input source.old) (S.input source.new) result }
    ensures stands { IfOk result (λ e. MayStand builder.now e) }
{
    if builder.depth() >= NESTING_LIMIT {
        return Err(bad(at, BinWhy::Depth));
    }
    Ok(Entry::Begin(kind, block_type(source)?))
}

/// Adds the entry, or answers false: where it is the end of the expression.
#[inline(always)]
fn add(builder: &mut BodyBuilder, entry: Entry<'_>) -> Result<bool, BinFault>
    requires { begins (mark entry) ≡ true → length builder.old.around < nesting_limit }
    ensures more { IfOk result (λ more. more ≡ may_come builder.old (mark entry.entry)) }
    ensures ok { IfOk result (λ more. more ≡ true → builder.new ≡ step builder.old (mark entry.entry)) }
    ensures last { IfOk result (λ more. more ≡ false → builder.new ≡ builder.old) }
    ensures memory { IfErr result (λ fault. fault ≡ faults.Memory) }
{
    match builder.push(entry) {
        Ok(()) => Ok(true),
        Err(BuildFault::Mark) => Ok(false),
        Err(BuildFault::Memory) => Err(BinFault::Memory),
        Err(BuildFault::Depth) => unreachable!(),
    }
}

/// Adds the instruction of an index whose opcode stands at this place and was read.
#[inline(always)]
fn indexed<S: Source>(
    op: IndexOp,
    at: u64,
    builder: &mut BodyBuilder,
    source: &mut S,
) -> Result<bool, BinFault>
    requires { (S.input source.old).place ≡ at + 1 }
    ensures { AddsNext builder.old (begun_of (bytes.Known (ops.Index op))) at
        (S.input source.old) (S.input source.new) builder.new result }
{
    let instr = index(op, source)?;
    add(builder, Entry::Plain(instr))
}

/// Adds the instruction whose opcode stands at this place and was read. Each form is added where it was read, so that
/// it isn't told apart twice.
#[inline(always)]
fn instruction<S: Source>(
    alloc: Global,
    op: Op,
    at: u64,
    builder: &mut BodyBuilder,
    labels: &mut List<u32>,
    source: &mut S,
) -> Result<bool, BinFault>
    requires { (S.input source.old).place ≡ at + 1 }
    ensures { AddsNext builder.old (begun_of (bytes.Known op)) at
        (S.input source.old) (S.input source.new) builder.new result }
{
    match op {
        Op::Simple(op) => {
            let instr = simple(op, source)?;
            add(builder, Entry::Plain(instr))
        }
        // An arm for each, so that it isn't told apart once more when it is added.
        Op::Index(op) => match op {
            IndexOp::LocalGet => indexed(IndexOp::LocalGet, at, builder, source),
            IndexOp::LocalSet => indexed(IndexOp::LocalSet, at, builder, source),
            IndexOp::LocalTee => indexed(IndexOp::LocalTee, at, builder, source),
            IndexOp::GlobalGet => indexed(IndexOp::GlobalGet, at, builder, source),
            IndexOp::GlobalSet => indexed(IndexOp::GlobalSet, at, builder, source),
            IndexOp::Call => indexed(IndexOp::Call, at, builder, source),
            IndexOp::Br => indexed(IndexOp::Br, at, builder, source),
            IndexOp::BrIf => indexed(IndexOp::BrIf, at, builder, source),
        },
        Op::Mem(op) => {
            let instr = memory(op, source)?;
            add(builder, Entry::Plain(instr))
        }
        Op::BrTable => {
            let instr = br_table(alloc, labels, source)?;
            add(builder, Entry::Plain(instr))
        }
        Op::CallIndirect => {
            let instr = call_indirect(source)?;
            add(builder, Entry::Plain(instr))
        }
        Op::I32Const => {
            let instr = i32_const(source)?;
            add(builder, Entry::Plain(instr))
        }
        Op::I64Const => {
            let instr = i64_const(source)?;
            add(builder, Entry::Plain(instr))
        }
        Op::Block => {
            let entry = begin(Kind::Block, at, builder, source)?;
            add(builder, entry)
        }
        Op::Loop => {
            let entry = begin(Kind::Loop, at, builder, source)?;
            add(builder, entry)
        }
        Op::If => {
            let entry = begin(Kind::If, at, builder, source)?;
            add(builder, entry)
        }
    }
}

/// Adds the entry whose first byte stands at this place and was read, or answers false: where it ends the expression.
#[inline(always)]
fn entry<S: Source>(
    alloc: Global,
    byte: u8,
    at: u64,
    builder: &mut BodyBuilder,
    labels: &mut List<u32>,
    source: &mut S,
) -> Result<bool, BinFault>
    requires { (S.input source.old).place ≡ at + 1 }
    ensures { AddsNext builder.old (opcode byte) at (S.input source.old) (S.input source.new) builder.new result }
{
    match Op::of_byte(byte) {
        OpByte::Known(op) => instruction(alloc, op, at, builder, labels, source),
        OpByte::Float => Err(bad(at, BinWhy::Float)),
        OpByte::Unknown => {
            if byte == 0x0b {
                return add(builder, Entry::End);
            }
            if byte == 0x05 && builder.in_first_part() {
                return add(builder, Entry::Else);
            }
            Err(bad(at, BinWhy::Opcode))
        }
    }
}

/// Adds the entries that lie ahead, as many as the builder takes at once, where it is time to look for some.
#[inline(always)]
fn entries_ahead<S: Source>(pace: &mut Pace, builder: &mut BodyBuilder, source: &mut S)
    ensures { AddsAhead builder.old builder.new (S.input source.old) (S.input source.new) }
{
    if !pace.is_due() {
        return;
    }
    let count = builder.push_ahead(source.front(BUFFER_SIZE));
    source.pass(count as u64);
    pace.found(count);
}

/// The instructions up to the end at which none is open, in the memory of this builder, which has nothing so far.
pub fn body_from<S: Source>(
    alloc: Global,
    builder: BodyBuilder,
    source: &mut S,
) -> Result<Body, BinFault>
    requires { builder ≡ whole empty }
    ensures { Gives expr (S.input source.old) (S.input source.new) result }
{
    let mut builder = builder;
    let mut labels = List::new(alloc);
    let mut pace = Pace::new();
    'entries: loop {
        entries_ahead(&mut pace, &mut builder, source);
        let at = source.place();
        let byte = any_byte(source)?;
        if !entry(alloc, byte, at, &mut builder, &mut labels, source)? {
            break;
        }
    }
    match builder.finish_with_room() {
        Ok(body) => Ok(body),
        Err(_) => unreachable!(),
    }
}

impl FromSource for Constant {
    ghost phrase = { expr };

    /// The instructions up to the end at which none is open.
    fn read<S: Source>(alloc: Global, source: &mut S) -> Result<Constant, BinFault> {
        let body = body_from(alloc, BodyBuilder::new(alloc), source)?;
        Ok(body.into_constant())
    }
}
