//! The instructions of a text in the order of the binary format.

ghost use Rattle.std.specs.Prelude.{◌≡◌, IfOk};
ghost use Rattle.wc_surface.specs.Kept.Entries.{entries_in};

use crate::instr::TextInstr;
use std::alloc::{AllocError, Global};
use std::marker::Model;
use wc_body::Kind;

/// One entry of the instructions of a text.
#[derive(Clone, Copy, PartialEq, Eq)]
pub enum TextEntry {
    /// An instruction in which none is nested.
    Plain(TextInstr),
    /// The instructions up to the matching `End` are nested in this one. Its head has this place among those of the
    /// body.
    Begin(Kind, u32),
    /// Between the two parts of an `if`.
    Else,
    /// The end of the innermost one that has begun.
    End,
}

/// The entries of instructions: one stands in place, others in memory for these alone.
#[derive(Drop)]
enum Entries {
    One(TextEntry),
    Many(Vec<TextEntry>),
}

/// Instructions of a text, folded ones behind their operands (Core 1.0, 6.5.7), at most `NESTING_LIMIT` nested in one
/// another. A contract sees nested code, with the place of its head at each block. An instruction alone takes no
/// memory.
#[derive(Drop)]
pub struct TextCode {
    row: Entries,
}

impl Model for TextCode {
    ghost use Rattle.std.specs.Prelude.{ℕ};
    ghost use Rattle.wc_body.specs.Standard.Nested.{Code};
    ghost use Rattle.wc_surface.specs.Stored.Codes.{text_code_code};
    ghost use Rattle.wc_surface.specs.declared.instr.TextInstr.{TextInstr};

    ghost Value = { Code TextInstr ℕ };

    ghost coded = { text_code_code };

    ghost use Rattle.wc_surface.specs.Standard.Marks.{nested, marks};
    ghost use Rattle.wc_surface.specs.Kept.Entries.{entries_in};
    ghost use Rattle.wc_body.specs.Drafting.Kept.{IsWhole};

    ghost view = { λ code. nested (entries_in code.row) };

    ghost invariant = { λ code. IsWhole (marks (entries_in code.row)) };
}

impl TextCode {
    ghost use Rattle.std.specs.Prelude.{◌≡◌, ◌≤◌, IfOk};
    ghost use Rattle.wc_body.specs.Standard.Nested.{empty, flatten, nesting, nesting_limit};
    ghost use Rattle.wc_body.specs.Drafting.Kept.{IsWhole};
    ghost use Rattle.wc_surface.specs.Standard.Marks.{nested, marks};

    /// No instruction. It takes no memory.
    pub fn new(alloc: Global) -> TextCode
        ensures { result ≡ empty }
    {
        TextCode {
            row: Entries::Many(Vec::new(alloc)),
        }
    }

    /// The instructions of these entries. The error is want of memory.
    pub(crate) fn from_row(alloc: Global, row: &[TextEntry]) -> Result<TextCode, AllocError>
        requires { IsWhole (marks row.now) }
        ensures { IfOk result (λ code. code ≡ nested row.now) }
    {
        Ok(TextCode {
            row: kept_entries(alloc, row)?,
        })
    }

    /// The entries, in order. Each `Begin` has its `End`. An `Else` stands only before an else part with an
    /// instruction. It takes no memory.
    pub fn entries(&self) -> &[TextEntry]
        ensures marks { marks result.now ≡ flatten self.now }
        ensures within { nesting self.now ≤ nesting_limit }
    {
        match &self.row {
            Entries::One(entry) => std::slice::from_ref(entry),
            Entries::Many(row) => row.as_slice(),
        }
    }
}

/// These entries where they stand: one alone takes no memory. The error is want of memory.
#[inline(always)]
fn kept_entries(alloc: Global, row: &[TextEntry]) -> Result<Entries, AllocError>
    ensures { IfOk result (λ kept. entries_in kept ≡ row.now) }
{
    match row {
        [entry] => Ok(Entries::One(*entry)),
        _ => Ok(Entries::Many(Vec::from_slice(alloc, row)?)),
    }
}
