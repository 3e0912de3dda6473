//! The locals that a function of a text declares.

ghost use Rattle.std.specs.Prelude.{◌≡◌, true, OnOk, OnErr};
ghost use Rattle.std.specs.Prelude.{[], ◌∷◌, ◌++◌, length, ◌<◌};
ghost use Rattle.wc_surface.specs.Standard.WrittenLocals.{written_out, AreNumbered};
ghost use Rattle.wc_surface.specs.Kept.Lengthening.{Lengthens, LastIs};

use crate::id::Id;
use crate::trim::trimmed;
use std::alloc::{AllocError, Global};
use std::marker::Model;
use wc_ops::ValType;

/// A declared local (Core 1.0, 6.6.5).
#[derive(Drop)]
pub struct Local<'a> {
    /// Its identifier.
    pub id: Option<Id<'a>>,
    /// Its type.
    pub ty: ValType,
    /// The number of the token of its type.
    pub token: u32,
}

/// Locals of one type whose types stand one behind the other.
#[derive(Drop)]
pub struct LocalGroup<'a> {
    /// The identifier of each. Where there is one, there is one local.
    pub id: Option<Id<'a>>,
    /// The type of each.
    pub ty: ValType,
    /// The number of the token of the first one's type.
    pub token: u32,
    /// How many.
    pub count: u32,
}

/// The declared locals of a function. A contract sees each of them, in order. Those without an identifier are kept as
/// groups.
#[derive(Drop)]
pub struct TextLocals<'a> {
    row: Vec<LocalGroup<'a>>,
}

impl<'a> Model for TextLocals<'a> {
    ghost use Rattle.std.specs.Prelude.{List};
    ghost use Rattle.wc_surface.specs.declared.local.Local.{Local};

    ghost Value = { List Local };

    ghost use Rattle.wc_surface.specs.Standard.WrittenLocals.{written_out};

    ghost view = { λ locals. written_out locals.row.items };

    ghost use Rattle.wc_surface.specs.Standard.WrittenLocals.{AreNumbered};

    ghost invariant = { λ locals. AreNumbered locals.row.items };
}

impl<'a> TextLocals<'a> {
    /// No locals. It takes no memory.
    pub fn new(alloc: Global) -> TextLocals<'a>
        ensures { result ≡ [] }
    {
        TextLocals {
            row: Vec::new(alloc),
        }
    }

    /// Adds a local at the end. The error is want of memory, and then the locals are as they were.
    pub fn push(&mut self, local: Local<'a>) -> Result<(), AllocError>
        ensures ok { OnOk result (self.new ≡ self.old ++ local.entry ∷ []) }
        ensures err { OnErr result (self.new ≡ self.old) }
    {
        put(&mut self.row, local)
    }

    /// The same locals, without the room for more.
    pub(crate) fn without_room(self) -> TextLocals<'a>
        ensures { result ≡ self.entry }
    {
        let TextLocals { row } = self;
        TextLocals { row: trimmed(row) }
    }

    /// The groups, in order. It takes no memory.
    pub fn groups(&self) -> &[LocalGroup<'a>]
        ensures written { written_out result.now ≡ self.now }
        ensures numbered { AreNumbered result.now }
    {
        self.row.as_slice()
    }
}

/// The declared locals of a function, where they are kept. A contract sees each of them, in order.
#[derive(Drop)]
pub struct LocalsRef<'a> {
    row: &'a [LocalGroup<'a>],
}

impl<'a> Model for LocalsRef<'a> {
    ghost use Rattle.std.specs.Prelude.{List};
    ghost use Rattle.wc_surface.specs.declared.local.Local.{Local};

    ghost Value = { List Local };

    ghost use Rattle.wc_surface.specs.Standard.WrittenLocals.{written_out};

    ghost view = { λ locals. written_out locals.row.now };

    ghost use Rattle.wc_surface.specs.Standard.WrittenLocals.{AreNumbered};

    ghost invariant = { λ locals. AreNumbered locals.row.now };
}

impl<'a> LocalsRef<'a> {
    /// The locals of these groups. It takes no memory.
    #[inline(always)]
    pub fn of(groups: &'a [LocalGroup<'a>]) -> LocalsRef<'a>
        requires { AreNumbered groups.now }
        ensures { result ≡ written_out groups.now }
    {
        LocalsRef { row: groups }
    }

    /// The groups, in order. It takes no memory.
    #[inline(always)]
    pub fn groups(&self) -> &'a [LocalGroup<'a>]
        ensures written { written_out result.now ≡ self.now }
        ensures numbered { AreNumbered result.now }
    {
        self.row
    }
}

/// Adds a local, or makes the last group longer where it stands directly behind that.
fn put<'a>(row: &mut Vec<LocalGroup<'a>>, local: Local<'a>) -> Result<(), AllocError>
    requires { AreNumbered row.old.items }
    ensures ok { OnOk result (written_out row.new.items ≡ written_out row.old.items ++ local.entry ∷ []) }
    ensures err { OnErr result (row.new.items ≡ row.old.items) }
    ensures numbered { AreNumbered row.new.items }
{
    let Local { id, ty, token } = local;
    if id.is_none() && is_next(row.as_slice(), ty, token) {
        let last = row.len() - 1;
        let first = row[last].token;
        let before = row[last].count;
        row[last] = LocalGroup {
            id: None,
            ty,
            token: first,
            count: before + 1,
        };
        return Ok(());
    }
    row.push(LocalGroup {
        id,
        ty,
        token,
        count: 1,
    })?;
    Ok(())
}

/// Whether such a local makes the last group longer.
fn is_next(row: &[LocalGroup<'_>], ty: ValType, token: u32) -> bool
    ensures { result ≡ true → LastIs (Lengthens ty token) row.now }
{
    match row.last() {
        None => false,
        Some(group) => continues(group, ty, token),
    }
}

fn continues(group: &LocalGroup<'_>, ty: ValType, token: u32) -> bool
    ensures { result ≡ true → Lengthens ty token group.now }
{
    group.id.is_none()
        && group.ty == ty
        && group.count < u32::MAX
        && u64::from(group.token) + u64::from(group.count) == u64::from(token)
}
