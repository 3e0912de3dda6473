//! Fields that are made of their parts at once.

ghost use Rattle.std.specs.Prelude.{◌≡◌, IfOk};
ghost use Rattle.wc_symbols.specs.Standard.Strings.{bytes_in};
ghost use Rattle.wc_surface.specs.declared.field.Field.TheVariants as fields;
ghost use Rattle.wc_parse_field.specs.Drafting.Wholes.{exported, type_named, func_imported};

use crate::name::name_of;
use crate::parts::described;
use std::alloc::{AllocError, Global};
use wc_ast::{ExportKind, List};
use wc_parse_code::{Word, index_of};
use wc_surface::{
    Apart, ExportField, Field, Id, ImportDesc, ImportField, ImportNames, Signature, TypeUse, User,
};
use wc_symbols::StringValue;
use wc_syntax::Kind;

/// An export (Core 1.0, 6.6.9) by its name, the word of what it lends and the index of that. It takes no memory.
pub fn export_of<'a>(name: StringValue<'a>, description: Kind, target: &Word<'a>) -> Field<'a>
    ensures { result ≡ fields.Export (exported (bytes_in name.entry) description target.now) }
{
    Field::Export(ExportField {
        name: name_of(name),
        kind: described(description, ExportKind::Func),
        index: index_of(target),
    })
}

/// The type use of a function that only names its type. The error is want of memory.
fn type_named<'a>(alloc: Global, token: u32, ty: &Word<'a>) -> Result<TypeUse<'a>, AllocError>
    ensures { IfOk result (λ u. u ≡ type_named token ty.now) }
{
    Ok(TypeUse {
        user: User::Func,
        token,
        index: Some(index_of(ty)),
        signature: Signature::new(alloc, &[], &[])?,
        names: List::new(alloc),
    })
}

/// An import of a function (Core 1.0, 6.6.4) by the number of its word, what it asks for, its identifier, if any, and
/// its type. The error is want of memory.
pub fn func_import_of<'a>(
    alloc: Global,
    token: u32,
    module: StringValue<'a>,
    item: StringValue<'a>,
    id: Option<Id<'a>>,
    ty: &Word<'a>,
) -> Result<Field<'a>, AllocError>
    ensures { IfOk result (λ f. f ≡ fields.Import
        (func_imported token (bytes_in «module».entry) (bytes_in item.entry) id.entry ty.now)) }
{
    let desc = ImportDesc::Func(type_named(alloc, token, ty)?);
    let names = ImportNames {
        token,
        module: name_of(module),
        item: name_of(item),
    };
    let import = Apart::new(alloc, ImportField { names, id, desc })?;
    Ok(Field::Import(import))
}
