ghost use Rattle.std.specs.Prelude.{◌≡◌, ◌+◌, ◌^◌, ◌<◌, ◌≤◌, Some, []};
ghost use Rattle.wc_leb128.specs.Standard.Integers.{S};
ghost use Rattle.wc_leb128.specs.Standard.Pushing.{AnswersFrom};
ghost use Rattle.wc_leb128.specs.Reading.State.{Ends};

use crate::bits::fits;
use crate::step::Step;
use std::marker::Model;

/// A signed integer of N bits in the making (Core 1.0, 5.2.2): the bytes of its spelling so far, or none once it has
/// ended. N is 1 to 64.
#[derive(Drop)]
pub struct Signed<const N: u32> {
    value: u64,
    count: u32,
    unfinished: bool,
}

impl<const N: u32> Model for Signed<N> {
    ghost use Rattle.std.specs.Prelude.{ℕ, List, Option};

    ghost Value = { Option (List ℕ) };

    ghost use Rattle.wc_leb128.specs.Reading.State.{pushed, IsState};

    ghost view = { λ a. pushed a.unfinished a.count a.value };

    ghost invariant = { λ a. IsState N a.unfinished a.count a.value };
}

impl<const N: u32> Signed<N> {
    /// An integer of which no byte has come.
    pub fn new() -> Signed<N>
        requires some_bits { 0 < N }
        requires fits_i64 { N ≤ 64 }
        ensures { result ≡ Some [] }
    {
        Signed {
            value: 0,
            count: 0,
            unfinished: true,
        }
    }

    /// Takes the next byte. `Done` comes with the byte that ends a spelling, `Bad` with the first byte that no spelling
    /// has there; after either, every byte is `Bad`. Spellings longer than the shortest are taken, within N bits.
    pub fn push(&mut self, b: u8) -> Step<i64>
        ensures { AnswersFrom (S N) self.old b result self.new }
    {
        if !self.unfinished {
            return Step::Bad;
        }
        let shift = 7 * self.count;
        let room = N - shift;
        if b < 128 {
            self.unfinished = false;
            return ended(self.value, shift, room, b);
        }
        if room <= 7 {
            self.unfinished = false;
            return Step::Bad;
        }
        self.value += ((b - 128) as u64) << shift;
        self.count += 1;
        Step::More
    }
}

/// The bits of `low`, `shift` of them, and above them a last byte, for which `room` bits are left.
fn ended(low: u64, shift: u32, room: u32, b: u8) -> Step<i64>
    requires low_bits { low < 2 ^ shift }
    requires some_room { 0 < room }
    requires fits_i64 { shift + room ≤ 64 }
    requires last { b < 128 }
    ensures { Ends room b low shift result }
{
    if b < 64 {
        if !fits(b, room - 1) {
            return Step::Bad;
        }
        return Step::Done((low + ((b as u64) << shift)) as i64);
    }
    if !fits(127 - b, room - 1) {
        return Step::Bad;
    }
    let distance = (((128 - b) as u64) << shift) - low;
    Step::Done(-1 - (distance - 1) as i64)
}
