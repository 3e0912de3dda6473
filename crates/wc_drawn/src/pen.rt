//! A function that is being drawn, in four spellings at once.

ghost use Rattle.std.specs.Prelude.{◌≤◌};

use crate::names::{put_func_name, put_local_name};
use crate::operator::{Immediate, Operator};
use crate::sheet::Sheet;
use crate::spelling::{put_decimal, put_line, put_number, put_padded, put_signed, put_unsigned};
use std::alloc::Global;

/// What is open.
#[derive(Clone, Copy)]
pub enum Open {
    /// A block or a loop.
    Block,
    /// An `if` up to its `else` or its end.
    Branch,
    /// An `if` behind its `else`.
    Otherwise,
}

/// A body so far: its bytes, its text of one instruction a line, of folded ones as tools write them, and of folded ones
/// with identifiers as people write them.
#[derive(Drop)]
pub struct Pen {
    pub code: Sheet,
    pub flat: Sheet,
    pub folded: Sheet,
    pub named: Sheet,
    open: Vec<Open>,
    padded: bool,
}

/// Puts a natural number behind a space.
fn put_index(out: &mut Sheet, index: u32) {
    out.push(b' ');
    put_decimal(out, u64::from(index));
}

impl Pen {
    /// An empty body. Its indices of functions and globals are padded, as linkers leave them, where that is asked for.
    pub fn new(alloc: Global, padded: bool) -> Pen {
        Pen {
            code: Sheet::new(alloc),
            flat: Sheet::new(alloc),
            folded: Sheet::new(alloc),
            named: Sheet::new(alloc),
            open: Vec::new(alloc),
            padded,
        }
    }

    /// How many blocks are open.
    pub fn depth(&self) -> usize {
        self.open.len()
    }

    /// How far an instruction of the body stands from the margin.
    fn margin(&self) -> usize
        ensures { result ≤ 84 }
    {
        self.open.len().min(40) * 2 + 4
    }

    /// Puts what belongs to an instruction into a text without identifiers.
    fn put_plain(out: &mut Sheet, immediate: Immediate, depth: usize) {
        match immediate {
            Immediate::None => {}
            Immediate::Local(index)
            | Immediate::Global(index)
            | Immediate::Func(index)
            | Immediate::Address(index) => put_index(out, index),
            Immediate::Label(between) => {
                out.push(b' ');
                put_decimal(out, between as u64);
                out.put(b" (;@");
                put_decimal(out, depth.saturating_sub(between) as u64);
                out.put(b";)");
            }
            Immediate::Number(number) => {
                out.push(b' ');
                put_number(out, number);
            }
            Immediate::Memory(_, 0) => {}
            Immediate::Memory(_, offset) => {
                out.put(b" offset=");
                put_decimal(out, u64::from(offset));
            }
        }
    }

    /// Puts what belongs to an instruction into a text with identifiers.
    fn put_named(out: &mut Sheet, immediate: Immediate, depth: usize) {
        match immediate {
            Immediate::Local(index) => {
                out.put(b" $");
                put_local_name(out, index);
            }
            Immediate::Func(index) => {
                out.put(b" $");
                put_func_name(out, index);
            }
            Immediate::Global(index) => {
                out.put(b" $global");
                put_decimal(out, u64::from(index));
            }
            Immediate::Label(between) => {
                out.put(b" $done");
                put_decimal(out, depth.saturating_sub(between) as u64);
            }
            other => Pen::put_plain(out, other, depth),
        }
    }

    /// Puts an index of a function or a global, padded where that is asked for.
    fn put_linked(&mut self, index: u32) {
        if self.padded {
            put_padded(&mut self.code, u64::from(index));
        } else {
            put_unsigned(&mut self.code, u64::from(index));
        }
    }

    /// Puts a constant that a linker fills in, padded where that is asked for.
    fn put_address(&mut self, address: u32) {
        if self.padded {
            put_padded(&mut self.code, u64::from(address));
        } else {
            put_signed(&mut self.code, i64::from(address));
        }
    }

    /// Puts the bytes of what belongs to an instruction.
    fn put_bytes(&mut self, immediate: Immediate) {
        match immediate {
            Immediate::None => {}
            Immediate::Global(index) => self.put_linked(index),
            Immediate::Func(index) => self.put_linked(index),
            Immediate::Address(address) => self.put_address(address),
            Immediate::Local(index) => put_unsigned(&mut self.code, u64::from(index)),
            Immediate::Label(between) => put_unsigned(&mut self.code, between as u64),
            Immediate::Number(number) => put_signed(&mut self.code, number),
            Immediate::Memory(exponent, offset) => {
                self.code.push(exponent);
                put_unsigned(&mut self.code, u64::from(offset));
            }
        }
    }

    /// Begins an instruction that stands inside so many others.
    pub fn begin(&mut self, o: Operator, i: Immediate, inside: usize) {
        let depth = self.depth();
        let margin = self.margin();
        put_line(&mut self.folded, margin + inside.min(40) * 2);
        self.folded.push(b'(');
        self.folded.put(o.name.as_bytes());
        Pen::put_plain(&mut self.folded, i, depth);
        if inside == 0 {
            put_line(&mut self.named, margin);
        } else {
            self.named.push(b' ');
        }
        self.named.push(b'(');
        self.named.put(o.name.as_bytes());
        Pen::put_named(&mut self.named, i, depth);
    }

    /// Ends an instruction behind its operands.
    pub fn end(&mut self, o: Operator, i: Immediate) {
        let depth = self.depth();
        let margin = self.margin();
        self.folded.push(b')');
        self.named.push(b')');
        put_line(&mut self.flat, margin);
        self.flat.put(o.name.as_bytes());
        Pen::put_plain(&mut self.flat, i, depth);
        self.code.push(o.byte);
        self.put_bytes(i);
    }

    /// Puts an instruction without operands.
    pub fn put(&mut self, o: Operator, i: Immediate, inside: usize) {
        self.begin(o, i, inside);
        self.end(o, i);
    }

    /// Puts text into the folded forms.
    pub fn fold(&mut self, text: &str) {
        self.folded.put(text.as_bytes());
        self.named.put(text.as_bytes());
    }

    /// Begins the line of a block in the folded forms.
    pub fn begin_block(&mut self, o: Operator) {
        let margin = self.margin();
        let number = (self.depth() as u64).saturating_add(1);
        put_line(&mut self.folded, margin);
        self.folded.push(b'(');
        self.folded.put(o.name.as_bytes());
        self.folded.put(b"  ;; label = @");
        put_decimal(&mut self.folded, number);
        put_line(&mut self.named, margin);
        self.named.push(b'(');
        self.named.put(o.name.as_bytes());
        self.named.put(b" $done");
        put_decimal(&mut self.named, number);
    }

    /// Opens a block, behind its condition where it has one. Its type is empty.
    pub fn open(&mut self, o: Operator, kind: Open) {
        let margin = self.margin();
        let number = (self.depth() as u64).saturating_add(1);
        put_line(&mut self.flat, margin);
        self.flat.put(o.name.as_bytes());
        self.flat.put(b"  ;; label = @");
        put_decimal(&mut self.flat, number);
        self.code.push(o.byte);
        self.code.push(0x40);
        if self.open.push(kind).is_err() {
            self.code.refuse();
        }
        match kind {
            Open::Block | Open::Otherwise => {}
            Open::Branch => {
                put_line(&mut self.folded, margin + 2);
                put_line(&mut self.named, margin + 2);
                self.fold("(then");
            }
        }
    }

    /// Ends the line of a block that has nothing in it, so that what follows isn't part of its comment.
    fn leave_line(&mut self) {
        let margin = self.margin();
        if self.folded.as_slice().last() != Some(&b')') {
            put_line(&mut self.folded, margin);
        }
    }

    /// Goes on behind `else`, where an `if` is open.
    pub fn otherwise(&mut self) {
        let Some(Open::Branch) = self.open.last() else {
            return;
        };
        let margin = self.margin();
        self.leave_line();
        if let Some(innermost) = self.open.last_mut() {
            *innermost = Open::Otherwise;
        }
        put_line(&mut self.flat, margin.saturating_sub(2));
        self.flat.put(b"else");
        self.code.push(0x05);
        self.fold(")");
        put_line(&mut self.folded, margin);
        put_line(&mut self.named, margin);
        self.fold("(else");
    }

    /// Closes the innermost block, where one is open.
    pub fn close(&mut self) {
        let Some(kind) = self.open.pop() else {
            return;
        };
        self.leave_line();
        let margin = self.margin();
        put_line(&mut self.flat, margin);
        self.flat.put(b"end");
        self.code.push(0x0b);
        match kind {
            Open::Block => self.fold(")"),
            Open::Branch | Open::Otherwise => self.fold("))"),
        }
    }
}
