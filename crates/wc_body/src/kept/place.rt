//! What a row knows of each of its bodies.

ghost use Rattle.std.specs.Prelude.{◌≡◌, Some, None, IfSome};
ghost use Rattle.wc_body.specs.Drafting.Places.{told};

use crate::needs::OwnNeeds;

/// What a row knows of one of its bodies.
#[derive(Clone, Copy)]
pub struct Place {
    /// How many bytes it has.
    pub(crate) size: usize,
    pub(crate) own: OwnNeeds,
}

/// The same in four bytes, where the body is small and sets no global; or a mark that it stands elsewhere.
#[derive(Clone, Copy)]
pub struct ShortPlace {
    /// How many bytes it has, or `u16::MAX`, which is the mark.
    size: u16,
    /// How many locals it needs.
    locals: u16,
}

impl ShortPlace {
    /// The place in short, where it has room in four bytes.
    #[inline(always)]
    pub(crate) fn of(place: Place) -> Option<ShortPlace>
        ensures { IfSome result (λ short. told short ≡ Some place) }
    {
        let Place { size, own } = place;
        if own.set_globals != 0 || own.lowest_set_global != u32::MAX {
            return None;
        }
        if size >= u16::MAX as usize || own.locals > u16::MAX as u32 {
            return None;
        }
        Some(ShortPlace {
            size: size as u16,
            locals: own.locals as u16,
        })
    }

    /// The mark that the place stands elsewhere.
    pub(crate) fn elsewhere() -> ShortPlace
        ensures { told result ≡ None }
    {
        ShortPlace {
            size: u16::MAX,
            locals: 0,
        }
    }

    /// The place, unless it stands elsewhere.
    #[inline(always)]
    pub(crate) fn told(self) -> Option<Place>
        ensures { result ≡ told self }
    {
        if self.size == u16::MAX {
            return None;
        }
        Some(Place {
            size: self.size as usize,
            own: OwnNeeds {
                locals: self.locals as u32,
                set_globals: 0,
                lowest_set_global: u32::MAX,
            },
        })
    }
}
