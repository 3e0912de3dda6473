//! The fault of the least token.

ghost use Rattle.std.specs.Prelude.{◌≡◌, None};
ghost use Rattle.wc_spaces.specs.Standard.Least.{earlier};

/// What is wrong, and where.
#[derive(Clone, Copy, Debug, PartialEq, Eq)]
pub struct Fault<W> {
    /// The number of the token.
    pub token: u32,
    /// The reason.
    pub why: W,
}

/// Of the faults that were told so far the one of the least token, or none. Of two at one token it is the first told.
#[derive(Clone, Copy)]
pub struct Noted<W> {
    pub first: Option<Fault<W>>,
}

impl<W: Copy> Noted<W> {
    /// No fault was told. It takes no memory.
    pub fn nothing() -> Noted<W>
        ensures { result.first ≡ None }
    {
        Noted { first: None }
    }

    /// Tells one more fault, at the token of this number. It takes no memory.
    #[inline(always)]
    pub fn note(&mut self, token: u32, why: W)
        ensures { self.new.first ≡ earlier self.old.first (record { token = token; why = why }) }
    {
        match self.first {
            Some(fault) if fault.token <= token => {}
            _ => self.first = Some(Fault { token, why }),
        }
    }
}
