//! The locals that a function declares.

ghost use Rattle.std.specs.Prelude.{◌≡◌, ◌↔◌, ◌+◌, ◌<◌, ◌≤◌, [], ◌++◌, length, replicate};
ghost use Rattle.std.specs.Prelude.{IfOk, OnOk, OnErr, IsErrOf, IsTrue};
ghost use Rattle.wc_ast.specs.Standard.LocalGroups.{written_out, IsGrouped, locals_limit};
ghost use Rattle.wc_ast.specs.Kept.Locals.{EndsWith};
ghost use Rattle.wc_ast.specs.declared.locals.LocalsFault.TheVariants as faults;

use std::alloc::{AllocError, Global};
use std::marker::Model;
use wc_body::TryClone;
use wc_ops::ValType;

/// How many locals a function may declare. It is a limit of this project (Core 1.0, 7.2 allows one).
pub const LOCALS_LIMIT: u32 = 50_000;

/// Why locals were not added.
#[derive(Clone, Copy, Debug, PartialEq, Eq)]
pub enum LocalsFault {
    /// Want of memory.
    Memory,
    /// There would be more than `LOCALS_LIMIT` in all.
    TooMany,
}

/// Neighbouring locals of one type (Core 1.0, 5.5.13).
#[derive(Clone, Copy, Debug, PartialEq, Eq)]
pub struct Group {
    /// How many.
    pub count: u32,
    pub value_type: ValType,
}

/// The declared locals of a function (Core 1.0, 2.5.3), at most `LOCALS_LIMIT`. A contract sees the type of each, in
/// order. They are kept as groups, so memory goes with the groups.
#[derive(Drop)]
pub struct Locals {
    groups: Vec<Group>,
    total: u32,
}

impl Model for Locals {
    ghost use Rattle.std.specs.Prelude.{List as Seq};
    ghost use Rattle.wc_ops.specs.declared.val_type.ValType.{ValType};

    ghost Value = { Seq ValType };

    ghost use Rattle.wc_ast.specs.Standard.LocalGroups.{written_out};
    ghost use Rattle.wc_ast.specs.Kept.Locals.{IsLocals};

    ghost view = { λ locals. written_out locals.groups.items };

    ghost invariant = { λ locals. IsLocals locals.groups.items locals.total };
}

impl Locals {
    /// No locals. It takes no memory.
    pub fn new(alloc: Global) -> Locals
        ensures { result ≡ [] }
    {
        Locals {
            groups: Vec::new(alloc),
            total: 0,
        }
    }

    /// Adds that many locals of one type at the end. After an error the locals are as they were: `TooMany` where there
    /// would be more than `LOCALS_LIMIT`, and `Memory` only where a growth was refused.
    pub fn push_group(&mut self, count: u32, value_type: ValType) -> Result<(), LocalsFault>
        ensures ok { OnOk result (self.new ≡ self.old ++ replicate count value_type) }
        ensures err { OnErr result (self.new ≡ self.old) }
        ensures too_many { IsErrOf result faults.TooMany ↔ (locals_limit < length self.old + count) }
    {
        if count > LOCALS_LIMIT - self.total {
            return Err(LocalsFault::TooMany);
        }
        if count > 0 {
            if put(&mut self.groups, count, value_type).is_err() {
                return Err(LocalsFault::Memory);
            }
            self.total += count;
        }
        Ok(())
    }

    /// Takes all locals away, and keeps the memory.
    pub fn clear(&mut self)
        ensures { self.new ≡ [] }
    {
        self.groups.clear();
        self.total = 0;
    }

    /// How many locals there are.
    pub fn len(&self) -> u32
        ensures count { result ≡ length self.now }
        ensures within { result ≤ locals_limit }
    {
        self.total
    }

    /// The groups, in order: none is empty, and neighbours differ in type.
    pub fn groups(&self) -> &[Group]
        ensures written_out { written_out result.now ≡ self.now }
        ensures grouped { IsGrouped result.now }
        ensures within { length self.now ≤ locals_limit }
    {
        self.groups.as_slice()
    }
}

impl TryClone for Locals {
    fn try_clone(&self) -> Result<Locals, AllocError> {
        Ok(Locals {
            groups: Vec::from_slice(*self.groups.allocator(), self.groups.as_slice())?,
            total: self.total,
        })
    }
}

/// Adds a group, or makes the last one longer where it has the type already.
fn put(groups: &mut Vec<Group>, count: u32, ty: ValType) -> Result<(), AllocError>
    requires grouped { IsGrouped groups.old.items }
    requires some { 0 < count }
    requires room { length (written_out groups.old.items) + count ≤ locals_limit }
    ensures grouped { IsGrouped groups.new.items }
    ensures ok { OnOk result (written_out groups.new.items ≡ written_out groups.old.items ++ replicate count ty) }
    ensures err { OnErr result (groups.new.items ≡ groups.old.items) }
{
    if ends_with(groups.as_slice(), ty) {
        let last = groups.len() - 1;
        let before = groups[last].count;
        groups[last] = Group {
            count: before + count,
            value_type: ty,
        };
    } else {
        groups.push(Group {
            count,
            value_type: ty,
        })?;
    }
    Ok(())
}

fn ends_with(groups: &[Group], value_type: ValType) -> bool
    ensures { IsTrue result ↔ EndsWith value_type groups.now }
{
    if groups.is_empty() {
        return false;
    }
    groups[groups.len() - 1].value_type == value_type
}
