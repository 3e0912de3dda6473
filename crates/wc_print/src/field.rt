//! Fields of modules, each kind in its own order (Core 1.0, 6.6).

ghost use Rattle.std.specs.Prelude.{List as Seq};
ghost use Rattle.std.specs.List.{flat_map};
ghost use Rattle.wc_print.specs.Standard.Printed.{Item};
ghost use Rattle.wc_print.specs.Standard.Going.{Puts};

use crate::sink::Sink;

/// What is printed as a field.
pub trait Field: Sized {
    ghost items: { Self → Seq Item };

    /// Puts the field, with the line's end before it.
    fn put<S: Sink>(&self, out: &mut S)
        ensures { Puts S.Has (items self.now) out.old out.new };
}

/// Puts all fields of a kind.
// Each kind's loop stays apart, so that no other takes registers from it.
#[inline(never)]
pub fn put_all<F: Field, S: Sink>(out: &mut S, fields: &[F])
    ensures { Puts S.Has (flat_map F.items fields.now) out.old out.new }
{
    for field in fields {
        field.put(out);
    }
}
