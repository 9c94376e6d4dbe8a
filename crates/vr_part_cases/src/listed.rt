//! A list of blocks: those of a volume, each of which is a sample.
ghost use Rattle.std.specs.Prelude.{◌≡◌, length};

use crate::sample::{Sample, spelled};
use std::alloc::Global;
use std::marker::Model;
use vr_case_table::{Answer, Answers, Stop, byte_of};
use vr_types::{Blocks, DeviceFault};

/// The blocks of a volume of two areas: which sample each is. They report no content, so that any
/// list may be asked; nothing of them is changed.
#[derive(Drop)]
pub struct Listed {
    rosters: Vec<Box<Sample>>,
    intervals: Vec<Box<Sample>>,
    /// What the blocks of no area are.
    other: Box<Sample>,
    /// The samples of the blocks of the areas: a roster and two intervals, twice.
    which: [u8; 6],
    pub first: u32,
    pub taken: bool,
}

impl Model for Listed {
    ghost Value = { Unit {0} };

    ghost view = { λ listed. tt };
}

impl Listed {
    /// No samples yet.
    pub fn new(alloc: Global) -> Result<Listed, Stop> {
        let other = spelled(alloc, "EE*512")?;
        Ok(Listed {
            rosters: Vec::new(alloc),
            intervals: Vec::new(alloc),
            other,
            which: [0; 6],
            first: 0,
            taken: false,
        })
    }

    /// Forgets the samples of intervals.
    pub fn clear(&mut self) {
        self.intervals.clear();
    }

    /// One more sample of rosters.
    pub fn add_roster(&mut self, sample: Box<Sample>) -> Answer {
        self.rosters.push(sample)?;
        Ok(())
    }

    /// One more sample of intervals.
    pub fn add_interval(&mut self, sample: Box<Sample>) -> Answer {
        self.intervals.push(sample)?;
        Ok(())
    }

    /// The area that the part doesn't begin in.
    pub fn second(&self) -> u32 {
        if self.first == 0 { 1 } else { 0 }
    }

    /// The sample of a block.
    pub fn sample(&self, n: u32) -> &Sample {
        let place = (n as usize).wrapping_sub(2);
        let Some(which) = self.which.get(place) else {
            return &*self.other;
        };
        let samples = if n == 2 || n == 5 {
            &self.rosters
        } else {
            &self.intervals
        };
        match samples.get(*which as usize) {
            Some(sample) => &**sample,
            None => &*self.other,
        }
    }

    /// Takes the list of that number: of this many samples for each roster and each interval.
    pub fn take(&mut self, number: u32, rosters: u8, intervals: u8) {
        let mut rest = number;
        for (at, which) in self.which.iter_mut().enumerate() {
            let size = if at == 0 || at == 3 {
                rosters
            } else {
                intervals
            };
            *which = digit(rest, size);
            rest = rest.checked_div(u32::from(size)).unwrap_or(0);
        }
    }

    /// Takes the list of these samples.
    pub fn take_words(&mut self, words: &str) -> Answer {
        for (which, word) in self.which.iter_mut().zip(words.split(' ')) {
            *which = byte_of(word)?;
        }
        Ok(())
    }

    /// Writes which samples they are.
    pub fn say(&self, out: &mut Answers) {
        for which in &self.which {
            out.say_number(" ", u64::from(*which));
        }
    }
}

/// The last digit of a number, where the digits are below a size.
fn digit(number: u32, size: u8) -> u8 {
    match number.checked_rem(u32::from(size)) {
        Some(digit) => digit.min(255) as u8,
        None => 0,
    }
}

impl Blocks for Listed {
    ghost use Rattle.std.specs.Prelude.{false};
    ghost use Rattle.vr_part_cases.specs.TheParts.{unseen, not_told};

    ghost tells = { false };

    ghost seen = { λ listed. unseen };

    ghost faults = { λ listed. record { reads = 0; writes = 0 } };

    ghost cur_may = { λ listed told. absurd (not_told told) };

    ghost images_may = { λ listed image told. absurd (not_told told) };

    ghost some_image = { λ listed moment told. absurd (not_told told) };

    ghost sized = { λ listed n block told. absurd (not_told told) };

    fn get(&mut self, n: u32) -> Result<&[u8], DeviceFault> {
        Ok(self.sample(n).bytes())
    }

    fn put(&mut self, _n: u32, _bytes: &[u8]) -> Result<(), DeviceFault> {
        Ok(())
    }

    fn force(&mut self, _list: &[u32]) -> Result<(), DeviceFault> {
        Ok(())
    }
}
