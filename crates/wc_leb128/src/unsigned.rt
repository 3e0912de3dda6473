ghost use Rattle.std.specs.Prelude.{◌≡◌, ◌<◌, ◌≤◌, Some, []};
ghost use Rattle.wc_leb128.specs.Standard.Integers.{U};
ghost use Rattle.wc_leb128.specs.Standard.Pushing.{AnswersFrom};

use crate::bits::fits;
use crate::step::Step;
use std::marker::Model;

/// An unsigned integer of N bits in the making (Core 1.0, 5.2.2): the bytes of its spelling so far, or none once it has
/// ended. N is 1 to 64.
#[derive(Drop)]
pub struct Unsigned<const N: u32> {
    value: u64,
    count: u32,
    unfinished: bool,
}

impl<const N: u32> Model for Unsigned<N> {
    ghost use Rattle.std.specs.Prelude.{ℕ, List, Option};

    ghost Value = { Option (List ℕ) };

    ghost use Rattle.wc_leb128.specs.Reading.State.{pushed, IsState};

    ghost view = { λ a. pushed a.unfinished a.count a.value };

    ghost invariant = { λ a. IsState N a.unfinished a.count a.value };
}

impl<const N: u32> Unsigned<N> {
    /// An integer of which no byte has come.
    pub fn new() -> Unsigned<N>
        requires some_bits { 0 < N }
        requires fits_u64 { N ≤ 64 }
        ensures { result ≡ Some [] }
    {
        Unsigned {
            value: 0,
            count: 0,
            unfinished: true,
        }
    }

    /// Takes the next byte. `Done` comes with the byte that ends a spelling, `Bad` with the first byte that no spelling
    /// has there; after either, every byte is `Bad`. Spellings longer than the shortest are taken, within N bits.
    pub fn push(&mut self, b: u8) -> Step<u64>
        ensures { AnswersFrom (U N) self.old b result self.new }
    {
        if !self.unfinished {
            return Step::Bad;
        }
        let shift = 7 * self.count;
        let room = N - shift;
        if b < 128 {
            self.unfinished = false;
            if !fits(b, room) {
                return Step::Bad;
            }
            return Step::Done(self.value + ((b as u64) << shift));
        }
        if room <= 7 {
            self.unfinished = false;
            return Step::Bad;
        }
        self.value += ((b - 128) as u64) << shift;
        self.count += 1;
        Step::More
    }
}
