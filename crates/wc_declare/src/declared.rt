//! What a text declares.

ghost use Rattle.std.specs.Prelude.{◌≡◌, None, IfOk, IfErr};
ghost use Rattle.wc_declare.specs.Standard.Stages.{first_fault};
ghost use Rattle.wc_declare.specs.Kept.Declaring.{IsDeclared, IsFault, IsNoted};

use crate::fault::NameFault;
use crate::gathering::{Gathered, gather};
use crate::judging::{index_of, judge_fields};
use crate::keyed::type_of_key;
use crate::listing::final_types;
use std::alloc::{AllocError, Global};
use wc_ast::{FuncType, List};
use wc_resolve_code::NameWhy;
use wc_spaces::{Noted, Space, Types};
use wc_surface::{Surface, UseRef};

/// The index spaces of a text (Core 1.0, 6.6.1).
#[derive(Drop)]
pub struct Spaces<'a> {
    pub types: Space<'a>,
    pub funcs: Space<'a>,
    pub tables: Space<'a>,
    pub memories: Space<'a>,
    pub globals: Space<'a>,
}

/// What a text declares: its index spaces, and its types (Core 1.0, 6.6.13). A contract says of which fields.
#[derive(Drop)]
pub struct Declared<'a> {
    pub spaces: Spaces<'a>,
    /// The types of the fields, and then those that are written only where they are used.
    pub types: Types<'a>,
}

impl<'a> Declared<'a> {
    ghost use Rattle.std.specs.Prelude.{◌≡◌, List as ListOf, map, IfOk};
    ghost use Rattle.wc_surface.specs.Standard.Keys.{key_of};
    ghost use Rattle.wc_surface.specs.declared.field.Field.{Field as FieldValue};
    ghost use Rattle.wc_declare.specs.declared.kind.SpaceKind.TheVariants as kind;
    ghost use Rattle.wc_declare.specs.Standard.Spaces.{space as all_declared, texts};
    ghost use Rattle.wc_declare.specs.Standard.Types.{types_of};
    ghost use Rattle.wc_declare.specs.Standard.Uses.{use_index};
    ghost use Rattle.wc_declare.specs.Kept.Declaring.{IsDeclared};

    /// The index of the type that a use is of (Core 1.0, 6.6.3). It takes no memory.
    pub fn type_index(&self, used: &UseRef<'_>) -> u32
        ensures { (fs : ListOf FieldValue) → IsDeclared fs self.now → result
            ≡ use_index (texts (all_declared kind.Type fs)) (map key_of (types_of fs)) used.now }
    {
        index_of(&self.types, &self.spaces.types, used)
    }

    /// The types themselves, in order. The error is want of memory.
    pub fn func_types(&self, alloc: Global) -> Result<List<FuncType>, AllocError>
        ensures { (fs : ListOf FieldValue) → IsDeclared fs self.now → IfOk result (λ types. types ≡ types_of fs) }
    {
        let mut types = Vec::new(alloc);
        for key in self.types.keys() {
            types.push(type_of_key(alloc, *key)?)?;
        }
        Ok(List::from_vec(types))
    }
}

/// No fault, or the one that is noted.
fn answer(noted: &Noted<NameWhy>) -> Result<(), NameFault>
    ensures none { IfOk result (λ _. noted.now.first ≡ None) }
    ensures fault { IfErr result (IsNoted noted.now.first) }
{
    match noted.first {
        None => Ok(()),
        Some(fault) => Err(NameFault::Bad {
            token: u64::from(fault.token),
            why: fault.why,
        }),
    }
}

/// What a text declares: of each index space its list, and the list of types. Identifiers are judged first, and then
/// type uses. The error is the first fault, or want of memory.
pub fn declare<'a>(alloc: Global, surface: &'a Surface<'_>) -> Result<Declared<'a>, NameFault>
    ensures declared { IfOk result (IsDeclared surface.now) }
    ensures sound { IfOk result (λ _. first_fault surface.now ≡ None) }
    ensures fault { IfErr result (IsFault surface.now) }
{
    let fields = surface.fields();
    let mut declarations = Noted::nothing();
    let Gathered { spaces, types } = gather(alloc, fields, &mut declarations)?;
    answer(&declarations)?;
    let mut uses = Noted::nothing();
    let types = final_types(types, fields)?;
    judge_fields(&types, &spaces.types, fields, &mut uses);
    answer(&uses)?;
    Ok(Declared { spaces, types })
}
