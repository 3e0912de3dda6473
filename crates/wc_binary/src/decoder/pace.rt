//! When it pays to look for a run of usual entries.

/// How many entries are read one by one before a run is looked for. Where few entries are usual, or a body has few,
/// looking for a run costs more than it gives.
#[derive(Drop)]
pub struct Pace {
    wait: u32,
    // How many stand between two looks.
    interval: u32,
}

impl Pace {
    /// At the beginning of a body.
    pub fn new() -> Pace {
        Pace {
            wait: 3,
            interval: 3,
        }
    }

    /// Whether a run is looked for before the next entry.
    #[inline(always)]
    pub fn is_due(&mut self) -> bool {
        if self.wait > 0 {
            self.wait -= 1;
            return false;
        }
        true
    }

    /// A run of so many bytes was found.
    #[inline(always)]
    pub fn found(&mut self, bytes: usize) {
        self.interval = if bytes < 4 {
            self.interval.min(31) * 2 + 1
        } else {
            0
        };
        self.wait = self.interval;
    }
}
