//! How jobs are run: on volumes of which shape, and with which gate.

use std::thread;
use vr_case_volumes::SMALL;
use vr_outside::{Gate, Spot};
use vr_types::Geometry;

/// A log of one block, which units fill.
const SHORT_LOG: Geometry = Geometry { log: 1, ..SMALL };

/// An area for the catalog and one for the cluster, of 2 intervals each, which records fill.
const FEW_INTERVALS: Geometry = Geometry {
    size: 512,
    blocks: 15,
    log: 8,
    area: 2,
};

/// Areas of 2 intervals, of which data sets that aren't key-sequenced take more as records are added.
const SMALL_AREAS: Geometry = Geometry {
    blocks: 27,
    ..FEW_INTERVALS
};

/// How the job of a number is run: on volumes of this shape, and with a gate that lets others run
/// between two events or with none.
#[derive(Clone, Copy)]
pub struct Way {
    pub shape: Geometry,
    pub yields: bool,
}

/// Each shape in turn, first with no gate.
pub fn way_of(number: u32) -> Way {
    Way {
        shape: match number % 4 {
            0 => SMALL,
            1 => SHORT_LOG,
            2 => FEW_INTERVALS,
            _ => SMALL_AREAS,
        },
        yields: number % 8 >= 4,
    }
}

/// Lets other threads run wherever a latch is free.
#[derive(Clone, Copy)]
pub struct Yielding;

impl Gate for Yielding {
    fn pass(&self, at: Spot) {
        if matches!(at, Spot::Between { .. }) {
            thread::yield_now();
        }
    }
}
