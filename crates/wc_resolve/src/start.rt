//! The start function.

ghost use Rattle.std.specs.Prelude.{◌≡◌, List};
ghost use Rattle.wc_spaces.specs.Standard.Least.{least_from};
ghost use Rattle.wc_surface.specs.declared.field.Field.{Field as FieldValue};
ghost use Rattle.wc_declare.specs.Kept.Declaring.{AreSpaces};
ghost use Rattle.wc_resolve.specs.Standard.Start.{start_after, start_faults};

use crate::indices::resolve_index;
use wc_declare::declared::Spaces;
use wc_resolve_code::NameWhy;
use wc_spaces::Noted;
use wc_surface::Field;

/// The start function, behind one more field.
pub(crate) fn start_behind(
    known: Option<u32>,
    spaces: &Spaces<'_>,
    field: &Field<'_>,
    noted: &mut Noted<NameWhy>,
) -> Option<u32>
    ensures start { (all : List FieldValue) → AreSpaces all spaces.now → result ≡ start_after all known field.now }
    ensures noted { (all : List FieldValue) → AreSpaces all spaces.now
        → noted.new.first ≡ least_from noted.old.first (start_faults all field.now) }
{
    match field {
        Field::Start(start) => Some(resolve_index(&spaces.funcs, &start.index, noted)),
        _ => known,
    }
}
