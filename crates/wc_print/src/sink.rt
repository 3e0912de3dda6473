//! Where a text goes.

ghost use Rattle.std.specs.Prelude.{ℕ, List};
ghost use Rattle.wc_print.specs.Standard.Going.{Says};

/// Where bytes are put, one piece behind another. Putting never fails by itself: what couldn't be kept is remembered.
pub trait Sink: Sized {
    ghost Has: { Self → Self → List ℕ → Type 0 };

    /// Puts the bytes behind those before.
    fn put(&mut self, bytes: &[u8])
        ensures { Says Has bytes.now self.old self.new };
}
