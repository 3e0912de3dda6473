//! Index spaces.

ghost use Rattle.std.specs.Prelude.{◌≡◌};

use crate::directory::Directory;
use crate::noted::Noted;
use std::alloc::{AllocError, Global};

/// What is declared in an index space (Core 1.0, 6.6.1), by its identifiers. A contract speaks of the list of
/// declarations, each with its identifier or with none.
#[derive(Drop)]
pub struct Space<'a> {
    // Of each identifier the place of its first declaration.
    places: Directory<'a>,
    count: u32,
}

impl<'a> Space<'a> {
    ghost use Rattle.std.specs.Prelude.{◌≡◌, ◌<◌, ◌+◌, ◌^◌, ℕ, List, Option, Some, None, [], ◌∷◌, ◌++◌, replicate};
    ghost use Rattle.std.specs.Prelude.{IfOk, OnOk};
    ghost use Rattle.wc_spaces.specs.Kept.Spaces.{IsSpace, size_of};
    ghost use Rattle.wc_spaces.specs.Standard.Least.{least_from};
    ghost use Rattle.wc_spaces.specs.Standard.Spaces.{place_of, duplicate};

    /// Nothing is declared. It takes no memory.
    pub fn new(alloc: Global) -> Space<'a>
        ensures { IsSpace [] result }
    {
        Space {
            places: Directory::new(alloc),
            count: 0,
        }
    }

    /// Nothing is declared, and about so many identifiers are to come. Of more or fewer, too, each is found: of so many
    /// nearly each at once. The error is want of memory.
    pub fn with_room(alloc: Global, identifiers: usize) -> Result<Space<'a>, AllocError>
        ensures space { IfOk result (IsSpace []) }
        ensures size { IfOk result (λ space. size_of space ≡ 0) }
    {
        Ok(Space {
            places: Directory::with_room(alloc, identifiers)?,
            count: 0,
        })
    }

    /// One more is declared, with no identifier. It takes no memory.
    pub fn add_unnamed(&mut self)
        requires { size_of self.old + 1 < 2 ^ 32 }
        ensures space { (ds : List (Option (List ℕ))) → IsSpace ds self.old
            → IsSpace (ds ++ None ∷ []) self.new }
        ensures size { size_of self.new ≡ size_of self.old + 1 }
    {
        self.count += 1;
    }

    /// So many more are declared, with no identifier. It takes no memory, and no longer for many than for one.
    pub fn add_unnamed_many(&mut self, count: u32)
        requires { size_of self.old + count < 2 ^ 32 }
        ensures space { (ds : List (Option (List ℕ))) → IsSpace ds self.old
            → IsSpace (ds ++ replicate count None) self.new }
        ensures size { size_of self.new ≡ size_of self.old + count }
    {
        self.count += count;
    }

    /// One more is declared, with this identifier at the token of this number. Where one before it has that identifier,
    /// the fault is noted for this reason, and the identifier stays with the first. The error is want of memory: from
    /// then on the space is good for nothing but to be dropped.
    pub fn add_named<W: Copy>(
        &mut self,
        token: u32,
        text: &'a [u8],
        why: W,
        noted: &mut Noted<W>,
    ) -> Result<(), AllocError>
        requires { size_of self.old + 1 < 2 ^ 32 }
        ensures space { (ds : List (Option (List ℕ))) → IsSpace ds self.old
            → OnOk result (IsSpace (ds ++ Some text.now ∷ []) self.new) }
        ensures noted { (ds : List (Option (List ℕ))) → IsSpace ds self.old
            → OnOk result (noted.new.first ≡ least_from noted.old.first (duplicate why ds token text.now)) }
        ensures size { OnOk result (size_of self.new ≡ size_of self.old + 1) }
    {
        if !self.places.add(text, self.count)? {
            noted.note(token, why);
        }
        self.count += 1;
        Ok(())
    }

    /// The place of the first declaration that has this identifier. It takes no memory.
    #[inline(always)]
    pub fn place(&self, text: &[u8]) -> Option<u32>
        ensures { (ds : List (Option (List ℕ))) → IsSpace ds self.now → result ≡ place_of text.now ds }
    {
        self.places.place(text)
    }

    /// How many are declared. It takes no memory.
    #[inline(always)]
    pub fn len(&self) -> u32
        ensures { result ≡ size_of self.now }
    {
        self.count
    }
}
