//! Numbers that look thrown, the same at each run.

use rand::RngExt;
use rand_pcg::Pcg32;

/// A row of numbers that a first one gives.
#[derive(Drop)]
pub struct Dice {
    row: Pcg32,
}

impl Dice {
    /// The row of this number.
    pub fn of(number: u64) -> Dice {
        Dice {
            row: Pcg32::new(number, 1),
        }
    }

    /// The next number of the row, below this many sides; 0 where there are none.
    pub fn roll(&mut self, sides: u32) -> u32 {
        if sides == 0 {
            return 0;
        }
        self.row.random_range(0..sides)
    }
}
