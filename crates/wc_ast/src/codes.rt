//! The codes of functions, in one row.

ghost use Rattle.std.specs.Prelude.{◌≡◌, ◌+◌, ◌≤◌, ◌++◌, IfOk, length, vec_len, vec_capacity};

use crate::code_ref::CodeRefs;
use crate::locals::{Group, Locals};
use std::alloc::{AllocError, Global};
use std::marker::Model;
use wc_body::{Bodies, Body, Needs, TryClone};

/// What a module's code section tells of a function (Core 1.0, 5.5.13).
#[derive(Drop)]
pub struct FuncCode {
    /// The locals after its parameters.
    pub locals: Locals,
    pub body: Body,
}

/// What a row knows of the locals of one of its codes. These are at most `LOCALS_LIMIT`, so the numbers are short ones.
#[derive(Clone, Copy)]
pub struct Span {
    /// How many groups they have.
    pub(crate) groups: u16,
    /// How many locals these are.
    pub(crate) total: u16,
}

/// The codes of functions, in order. A contract sees each. The groups of their locals stand in one row, and so do the
/// bytes of their bodies, so that a great many small functions take little memory and time.
#[derive(Drop)]
pub struct Codes {
    // Of each code.
    spans: Vec<Span>,
    groups: Vec<Group>,
    bodies: Bodies,
}

impl Model for Codes {
    ghost use Rattle.std.specs.Prelude.{List as Seq};
    ghost use Rattle.std.specs.Coded.{coded_list};
    ghost use Rattle.wc_ast.specs.declared.codes.FuncCode.{FuncCode};
    ghost use Rattle.wc_ast.specs.contracts.codes.FuncCode as func_code;

    ghost Value = { Seq FuncCode };

    ghost coded = { coded_list func_code.the_row.coded };

    ghost use Rattle.wc_ast.specs.Kept.CodeRow.{codes_at, AreCodes};

    ghost view = { λ row. codes_at row.spans.items row.groups.items row.bodies };

    ghost invariant = { λ row. AreCodes row.spans.items row.groups.items row.bodies };
}

impl Codes {
    ghost use Rattle.std.specs.Prelude.{[], ◌∷◌, ◌++◌, OnOk, OnErr, length, map};
    ghost use Rattle.wc_body.specs.Standard.Needed.{nothing, with_bodies};
    ghost use Rattle.wc_ast.specs.Standard.Codes.{code, body_of};
    ghost use Rattle.wc_ast.specs.Standard.Spelled.{AddsSpelled};

    /// No codes. It takes no memory.
    pub fn new(alloc: Global) -> Codes
        ensures { result ≡ [] }
    {
        Codes {
            spans: Vec::new(alloc),
            groups: Vec::new(alloc),
            bodies: Bodies::new(alloc),
        }
    }

    /// How many there are.
    pub fn len(&self) -> usize
        ensures { result ≡ length self.now }
    {
        self.spans.len()
    }

    /// What the instructions of all of them need. It is at hand: it takes no time.
    pub fn needs(&self) -> Needs
        ensures { result ≡ with_bodies nothing (map body_of self.now) }
    {
        self.bodies.needs()
    }

    /// Adds a copy of the code of these locals and this body at the end. The error is want of memory, and then the row
    /// is as it was.
    pub fn push(&mut self, locals: &Locals, body: &Body) -> Result<(), AllocError>
        ensures ok { OnOk result (self.new ≡ self.old ++ code locals.now body.now ∷ []) }
        ensures err { OnErr result (self.new ≡ self.old) }
    {
        let groups = locals.groups();
        self.spans.reserve(1)?;
        self.groups.reserve(groups.len())?;
        self.bodies.push(body)?;
        self.spans.push_reserved(Span {
            groups: groups.len() as u16,
            total: locals.len() as u16,
        });
        append(&mut self.groups, groups);
        Ok(())
    }

    /// Adds the code at the end that has no locals, and the body whose canonical bytes these are, with the byte that
    /// ends it (Core 1.0, 5.4.6), where that has usual instructions alone and no block; answers whether it was added.
    /// So a small function is kept without a look at each part of it. The error is want of memory; then, and where it
    /// wasn't added, the row is as it was.
    #[inline(always)]
    pub fn push_spelled(&mut self, bytes: &[u8]) -> Result<bool, AllocError>
        ensures ok { IfOk result (AddsSpelled self.old self.new bytes.now) }
        ensures err { OnErr result (self.new ≡ self.old) }
    {
        self.spans.reserve(1)?;
        let added = self.bodies.push_spelled(bytes)?;
        if added {
            self.spans.push_reserved(Span {
                groups: 0,
                total: 0,
            });
        }
        Ok(added)
    }

    /// The codes, one by one.
    pub fn iter(&self) -> CodeRefs<'_>
        ensures { result ≡ self.now }
    {
        CodeRefs::of_row(
            self.spans.as_slice(),
            self.groups.as_slice(),
            self.bodies.iter(),
        )
    }
}

impl TryClone for Codes {
    fn try_clone(&self) -> Result<Codes, AllocError> {
        let alloc = *self.spans.allocator();
        Ok(Codes {
            spans: Vec::from_slice(alloc, self.spans.as_slice())?,
            groups: Vec::from_slice(alloc, self.groups.as_slice())?,
            bodies: self.bodies.try_clone()?,
        })
    }
}

/// Puts these groups behind others, for which there is room.
fn append(groups: &mut Vec<Group>, more: &[Group])
    requires { vec_len groups.old + length more.now ≤ vec_capacity groups.old }
    ensures { groups.new.items ≡ groups.old.items ++ more.now }
{
    let _ = groups.extend_from_slice(more);
}
