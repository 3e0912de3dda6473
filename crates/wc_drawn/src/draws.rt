//! Numbers that a seed decides.

ghost use Rattle.std.specs.Prelude.{◌<◌, ◌≤◌};

/// A row of numbers that its seed decides, by the method of splitmix64.
#[derive(Drop)]
pub struct Draws {
    state: u64,
}

impl Draws {
    /// The numbers of a seed.
    pub fn new(seed: u64) -> Draws {
        Draws { state: seed }
    }

    /// The next number.
    pub fn next(&mut self) -> u64 {
        self.state = self.state.wrapping_add(0x9e37_79b9_7f4a_7c15);
        let mut mixed = self.state;
        mixed = (mixed ^ (mixed >> 30)).wrapping_mul(0xbf58_476d_1ce4_e5b9);
        mixed = (mixed ^ (mixed >> 27)).wrapping_mul(0x94d0_49bb_1331_11eb);
        mixed ^ (mixed >> 31)
    }

    /// The next number, below `most`; 0 where `most` is.
    pub fn below(&mut self, most: u32) -> u32
        ensures below { 0 < most → result < most }
        ensures within { result ≤ most }
    {
        if most == 0 {
            return 0;
        }
        ((self.next() >> 32) % u64::from(most)) as u32
    }

    /// One of the items.
    pub fn one_of<T: Copy>(&mut self, items: &[T], other: T) -> T {
        let count = u32::try_from(items.len()).unwrap_or(0);
        let place = self.below(count) as usize;
        items.get(place).copied().unwrap_or(other)
    }
}
