//! Why no resident blocks were made.
use vr_device::BlockDevice;
use vr_frames::FrameSeat;

/// Why no resident blocks were made.
#[derive(Clone, Copy, PartialEq, Eq)]
pub enum ResidentWhy {
    /// After `got` frames, fewer than 16, the pool had no further one home.
    NoFrames { got: u32 },
    /// Out of memory.
    Memory,
}

/// Why no resident blocks were made, with the device and the seat, which are as they were.
#[derive(Drop)]
pub struct ResidentNo<D: BlockDevice> {
    pub device: D,
    pub seat: FrameSeat,
    pub why: ResidentWhy,
}
