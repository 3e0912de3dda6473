//! Instructions of a text, entry by entry.

ghost use Rattle.std.specs.Prelude.{◌≡◌, ◌<◌, ◌++◌, ◌∷◌, [], true, length, OnOk, OnErr};
ghost use Rattle.wc_surface.specs.Kept.Building.{part_of, with_end};

use crate::code::{TextCode, TextEntry};
use crate::instr::TextInstr;
use std::alloc::{AllocError, Global};
use std::marker::Model;
use wc_body::{BuildFault, Kind, NESTING_LIMIT};

/// Which part an open block, loop or if is in: the first part of an if, or any other.
#[derive(Clone, Copy, PartialEq, Eq)]
enum Part {
    Other,
    Then,
}

/// Instructions of a text that are being built. A contract sees what is open, and what each open one has so far.
#[derive(Drop)]
pub struct CodeBuilder {
    row: Vec<TextEntry>,
    // Of each that is open, outermost first.
    parts: Vec<Part>,
    // Whether the last entry is an `Else`.
    after_else: bool,
}

impl Model for CodeBuilder {
    ghost use Rattle.std.specs.Prelude.{ℕ};
    ghost use Rattle.wc_body.specs.Standard.Draft.{Draft};
    ghost use Rattle.wc_surface.specs.Stored.Codes.{text_draft_code};
    ghost use Rattle.wc_surface.specs.declared.instr.TextInstr.{TextInstr};

    ghost Value = { Draft TextInstr ℕ };

    ghost coded = { text_draft_code };

    ghost use Rattle.wc_surface.specs.Standard.Marks.{drafted};
    ghost use Rattle.wc_surface.specs.Kept.Building.{IsStarted};

    ghost view = { λ builder. drafted builder.row.items };

    ghost invariant = { λ kept. IsStarted kept.row.items kept.parts.items kept.after_else };
}

impl CodeBuilder {
    ghost use Rattle.std.specs.Prelude.{◌≡◌, ◌≤◌, ◌↔◌, false, true, length};
    ghost use Rattle.std.specs.Prelude.{IfOk, OnOk, OnErr, IfErr, IsErrOf};
    ghost use Rattle.wc_body.specs.Standard.Nested.{empty, plain, otherwise, close, nesting, nesting_limit};
    ghost use Rattle.wc_body.specs.Standard.Draft.{whole, step, in_first_part, is_open, reach};
    ghost use Rattle.wc_body.specs.declared.builder.BuildFault.TheVariants as faults;
    ghost use Rattle.wc_surface.specs.Standard.Marks.{begin_of};

    /// Nothing so far. It takes no memory.
    pub fn new(alloc: Global) -> CodeBuilder
        ensures { result ≡ whole empty }
    {
        CodeBuilder {
            row: Vec::new(alloc),
            parts: Vec::new(alloc),
            after_else: false,
        }
    }

    /// How many blocks, loops and ifs are open.
    pub fn depth(&self) -> usize
        ensures count { result ≡ length self.now.around }
        ensures within { result ≤ nesting_limit }
        ensures reach { reach self.now.around (nesting self.now.last) ≤ nesting_limit }
    {
        self.parts.len()
    }

    /// Whether the innermost open one is an if in its first part.
    pub fn in_first_part(&self) -> bool
        ensures { result ≡ in_first_part self.now.around }
    {
        let count = self.parts.len();
        count > 0 && self.parts[count - 1] == Part::Then
    }

    /// Adds an instruction. The error is want of memory, and then the builder is as it was.
    #[inline(always)]
    pub fn push(&mut self, instr: TextInstr) -> Result<(), AllocError>
        ensures ok { OnOk result (self.new ≡ step self.old (plain instr)) }
        ensures err { OnErr result (self.new ≡ self.old) }
    {
        put(&mut self.row, TextEntry::Plain(instr))?;
        self.after_else = false;
        Ok(())
    }

    /// Begins a block, a loop or an if whose head has this place. After an error the builder is as it was: `Depth`
    /// where `NESTING_LIMIT` are open, and `Memory` only where a growth was refused.
    pub fn begin(&mut self, kind: Kind, head: u32) -> Result<(), BuildFault>
        ensures ok { OnOk result (self.new ≡ step self.old (begin_of kind head)) }
        ensures err { OnErr result (self.new ≡ self.old) }
        ensures depth { IsErrOf result faults.Depth ↔ (nesting_limit ≤ length self.old.around) }
        ensures mark { ¬ IsErrOf result faults.Mark }
    {
        if self.depth() >= NESTING_LIMIT {
            return Err(BuildFault::Depth);
        }
        self.parts.reserve(1)?;
        put(&mut self.row, TextEntry::Begin(kind, head))?;
        self.parts.push_reserved(first_part_of(kind));
        self.after_else = false;
        Ok(())
    }

    /// Turns to the else part of the innermost one. After an error the builder is as it was: `Mark` where that is no if
    /// in its first part, and `Memory` only where a growth was refused.
    pub fn turn(&mut self) -> Result<(), BuildFault>
        ensures ok { OnOk result (self.new ≡ step self.old otherwise) }
        ensures err { OnErr result (self.new ≡ self.old) }
        ensures depth { ¬ IsErrOf result faults.Depth }
        ensures mark { IsErrOf result faults.Mark ↔ (in_first_part self.old.around ≡ false) }
    {
        if !self.in_first_part() {
            return Err(BuildFault::Mark);
        }
        put(&mut self.row, TextEntry::Else)?;
        let at = self.parts.len() - 1;
        self.parts[at] = Part::Other;
        self.after_else = true;
        Ok(())
    }

    /// Ends the innermost one; an else part without an instruction isn't kept. After an error the builder is as it
    /// was: `Mark` where nothing is open, and `Memory` only where a growth was refused.
    pub fn end(&mut self) -> Result<(), BuildFault>
        ensures ok { OnOk result (self.new ≡ step self.old close) }
        ensures err { OnErr result (self.new ≡ self.old) }
        ensures depth { ¬ IsErrOf result faults.Depth }
        ensures mark { IsErrOf result faults.Mark ↔ (is_open self.old.around ≡ false) }
    {
        if self.depth() == 0 {
            return Err(BuildFault::Mark);
        }
        put_end(&mut self.row, self.after_else)?;
        let _ = self.parts.pop();
        self.after_else = false;
        Ok(())
    }

    /// The instructions, in order, in memory for these alone; one alone takes none. Then nothing is built, and the
    /// builder's memory is kept for what comes next. After an error the builder is as it was: `Mark` where something is
    /// open, and `Memory` only where memory was refused.
    pub fn finish(&mut self) -> Result<TextCode, BuildFault>
        ensures ok { IfOk result (λ code. self.old ≡ whole code) }
        ensures anew { OnOk result (self.new ≡ whole empty) }
        ensures err { OnErr result (self.new ≡ self.old) }
        ensures depth { ¬ IsErrOf result faults.Depth }
        ensures mark { IsErrOf result faults.Mark ↔ (is_open self.old.around ≡ true) }
    {
        if self.depth() > 0 {
            return Err(BuildFault::Mark);
        }
        let code = TextCode::from_row(*self.row.allocator(), self.row.as_slice())?;
        self.clear();
        Ok(code)
    }

    /// Nothing is built any more. The memory is kept.
    pub fn clear(&mut self)
        ensures { self.new ≡ whole empty }
    {
        self.row.clear();
        self.parts.clear();
        self.after_else = false;
    }
}

fn first_part_of(kind: Kind) -> Part
    ensures { result ≡ part_of kind }
{
    match kind {
        Kind::If => Part::Then,
        Kind::Block | Kind::Loop => Part::Other,
    }
}

/// Puts an entry last.
// Room is made apart, so that the entry needn't be written to memory where it may have to be given back.
#[inline(always)]
fn put(row: &mut Vec<TextEntry>, entry: TextEntry) -> Result<(), AllocError>
    ensures ok { OnOk result (row.new.items ≡ row.old.items ++ entry ∷ []) }
    ensures err { OnErr result (row.new.items ≡ row.old.items) }
{
    row.reserve(1)?;
    row.push_reserved(entry);
    Ok(())
}

/// Puts an end last; an else that stands last gives way to it.
fn put_end(row: &mut Vec<TextEntry>, after_else: bool) -> Result<(), AllocError>
    requires { after_else ≡ true → 0 < length row.old.items }
    ensures ok { OnOk result (row.new.items ≡ with_end after_else row.old.items) }
    ensures err { OnErr result (row.new.items ≡ row.old.items) }
{
    if after_else {
        let last = row.len() - 1;
        row[last] = TextEntry::End;
        return Ok(());
    }
    put(row, TextEntry::End)
}
